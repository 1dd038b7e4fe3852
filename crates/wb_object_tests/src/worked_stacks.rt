//! The table of worked cleanup stacks: which calls are made, and what each call must return. The module `stacks` makes the calls.

use crate::pointers::Cell;
use crate::rules::Refuses;
use wb_cleanup::Pushed;
use wb_heap_model::heap::Panic;

/// An item of a cleanup stack, with the cell that the item is about.
#[derive(Clone, Copy)]
pub(crate) enum Entry {
    Free(Cell),
    Delete(Cell),
    Call(Cell, u16),
}

/// A call on a stack or on its heap. The last field is the answer that the call must give.
#[derive(Clone, Copy)]
pub(crate) enum Step {
    Push(Entry, Pushed),
    /// Pushes this many items, numbered from 0. Each push must return `Fine`.
    PushMany(u32),
    /// The floor, how many items are popped above the floor, and the panic; `None` if the call must not panic.
    Pop(u32, u32, Option<Panic>),
    /// A call like `Pop`, for one item. The item is expected to be about this cell.
    PopExpected(u32, Cell, Option<Panic>),
    /// The floor, and the item that is taken off above the floor; `None` if there is no such item.
    Take(u32, Option<Entry>),
    /// Takes off this many items that `PushMany` pushed, down to the first item.
    TakeMany(u32),
    Used(u32),
    /// Whether exactly one slot is free (`one`), and whether no slot is free (`none`).
    Free { one: bool, none: bool },
    /// How many bytes a raw cell is for that the heap must grant.
    Alloc(u32),
    FailNext(u32),
    Attempts(u32),
    /// The stack's cell, and the cell's length in bytes, with the header.
    Stands(Cell, u32),
    /// A pointer that must name no live cell.
    Gone(Cell),
    /// A cell, the index of a slot of the cell, and the words of this slot.
    Slot(Cell, u32, [u32; 4]),
}

/// A stack that begins in a heap with a rule, and the calls that are made afterwards.
#[derive(Clone, Copy)]
pub(crate) struct WorkedStack {
    /// What the calls show, in words.
    pub about: &'static str,
    pub rule: Refuses,
    pub steps: &'static [Step],
}

pub(crate) static STACKS: [WorkedStack; 13] = [
    WorkedStack {
        about: "the words of slots",
        rule: Refuses::Nothing,
        steps: &[
            Step::Push(Entry::Free((144, 2)), Pushed::Fine),
            Step::Push(Entry::Delete((0, 0)), Pushed::Fine),
            Step::Push(Entry::Call((176, 9), 65_535), Pushed::Fine),
            Step::Slot((0, 1), 0, [1, 144, 2, 0]),
            Step::Slot((0, 1), 1, [2, 0, 0, 0]),
            Step::Slot((0, 1), 2, [3, 176, 9, 65_535]),
            Step::Take(0, Some(Entry::Call((176, 9), 65_535))),
            Step::Take(0, Some(Entry::Delete((0, 0)))),
            Step::Take(0, Some(Entry::Free((144, 2)))),
            Step::Take(0, None),
            Step::Used(0),
        ],
    },
    WorkedStack {
        about: "a stack that is full has four slots more",
        rule: Refuses::Nothing,
        steps: &[
            Step::Stands((0, 1), 144),
            Step::PushMany(7),
            Step::Attempts(1),
            Step::Push(Entry::Free((7, 7)), Pushed::Fine),
            Step::Attempts(2),
            Step::Stands((0, 1), 208),
            Step::Used(8),
            Step::TakeMany(8),
            Step::PushMany(11),
            Step::Attempts(2),
            Step::Push(Entry::Free((11, 11)), Pushed::Fine),
            Step::Stands((0, 1), 272),
            Step::TakeMany(12),
            Step::PushMany(16),
            Step::Attempts(4),
            Step::Stands((0, 1), 336),
            Step::TakeMany(16),
            Step::Used(0),
        ],
    },
    WorkedStack {
        about: "a growth that moves the cell takes the items along",
        rule: Refuses::Nothing,
        steps: &[
            Step::PushMany(3),
            Step::Alloc(16),
            Step::TakeMany(3),
            Step::PushMany(8),
            Step::Attempts(3),
            Step::Gone((0, 1)),
            Step::Stands((176, 3), 208),
            Step::TakeMany(8),
        ],
    },
    WorkedStack {
        about: "a growth that the setting refuses leaves the item on the stack",
        rule: Refuses::Nothing,
        steps: &[
            Step::FailNext(1),
            Step::PushMany(6),
            Step::Free {
                one: false,
                none: false,
            },
            Step::Push(Entry::Free((6, 6)), Pushed::Fine),
            Step::Free {
                one: true,
                none: false,
            },
            Step::Push(Entry::Delete((176, 3)), Pushed::Leave),
            Step::Free {
                one: false,
                none: true,
            },
            Step::Used(8),
            Step::Attempts(2),
            Step::Stands((0, 1), 144),
            Step::Take(0, Some(Entry::Delete((176, 3)))),
            Step::Push(Entry::Free((7, 7)), Pushed::Fine),
            Step::Attempts(3),
            Step::Stands((0, 1), 208),
            Step::TakeMany(8),
        ],
    },
    WorkedStack {
        about: "a growth that the limit refuses, twice",
        rule: Refuses::Past(144),
        steps: &[
            Step::PushMany(7),
            Step::Push(Entry::Free((7, 7)), Pushed::Leave),
            Step::Pop(0, 1, None),
            Step::Push(Entry::Free((7, 7)), Pushed::Leave),
            Step::Attempts(3),
            Step::Stands((0, 1), 144),
            Step::TakeMany(8),
        ],
    },
    WorkedStack {
        about: "the second growth is refused by its number",
        rule: Refuses::Number(3),
        steps: &[
            Step::PushMany(11),
            Step::Push(Entry::Free((11, 11)), Pushed::Leave),
            Step::Stands((0, 1), 208),
            Step::TakeMany(12),
        ],
    },
    WorkedStack {
        about: "a growth past the ceiling leaves the stack as it was",
        rule: Refuses::Nothing,
        steps: &[
            Step::Alloc(16_777_056),
            Step::PushMany(7),
            Step::Slot((0, 1), 7, [0, 0, 0, 0]),
            Step::Push(Entry::Free((7, 7)), Pushed::Ceiling),
            Step::Slot((0, 1), 7, [0, 0, 0, 0]),
            Step::Attempts(2),
            Step::Used(7),
            Step::TakeMany(7),
        ],
    },
    WorkedStack {
        about: "items that were popped leave their words, and the next ones take their slots",
        rule: Refuses::Nothing,
        steps: &[
            Step::Push(Entry::Call((144, 2), 5), Pushed::Fine),
            Step::Pop(0, 1, None),
            Step::Slot((0, 1), 0, [3, 144, 2, 5]),
            Step::Push(Entry::Free((160, 3)), Pushed::Fine),
            Step::Slot((0, 1), 0, [1, 160, 3, 0]),
        ],
    },
    WorkedStack {
        about: "a pop takes no item of the floor",
        rule: Refuses::Nothing,
        steps: &[
            Step::PushMany(3),
            Step::Pop(0, 4, Some(Panic::POP_BELOW_TRAP)),
            Step::Pop(2, 2, Some(Panic::POP_BELOW_TRAP)),
            Step::Pop(4, 0, Some(Panic::POP_BELOW_TRAP)),
            Step::Pop(u32::MAX, u32::MAX, Some(Panic::POP_BELOW_TRAP)),
            Step::Used(3),
            Step::Pop(3, 0, None),
            Step::Pop(1, 2, None),
            Step::Used(1),
            Step::TakeMany(1),
            Step::Pop(0, 1, Some(Panic::POP_BELOW_TRAP)),
        ],
    },
    WorkedStack {
        about: "an item is expected by place and number",
        rule: Refuses::Nothing,
        steps: &[
            Step::PopExpected(0, (0, 0), Some(Panic::POP_BELOW_TRAP)),
            Step::Push(Entry::Free((144, 2)), Pushed::Fine),
            Step::Push(Entry::Delete((176, 3)), Pushed::Fine),
            Step::PopExpected(2, (176, 3), Some(Panic::POP_BELOW_TRAP)),
            Step::PopExpected(2, (144, 2), Some(Panic::POP_BELOW_TRAP)),
            Step::PopExpected(0, (144, 2), Some(Panic::ANOTHER_ITEM_ON_TOP)),
            Step::PopExpected(0, (176, 2), Some(Panic::ANOTHER_ITEM_ON_TOP)),
            Step::PopExpected(0, (144, 3), Some(Panic::ANOTHER_ITEM_ON_TOP)),
            Step::Used(2),
            Step::PopExpected(1, (176, 3), None),
            Step::Used(1),
            Step::PopExpected(0, (144, 2), None),
            Step::Used(0),
        ],
    },
    WorkedStack {
        about: "the newest item above a floor",
        rule: Refuses::Nothing,
        steps: &[
            Step::PushMany(2),
            Step::Take(2, None),
            Step::Take(5, None),
            Step::Used(2),
            Step::Take(1, Some(Entry::Free((1, 1)))),
            Step::Take(1, None),
            Step::TakeMany(1),
        ],
    },
    WorkedStack {
        about: "many items",
        rule: Refuses::Nothing,
        steps: &[
            Step::PushMany(1000),
            Step::Used(1000),
            Step::Attempts(250),
            Step::Stands((0, 1), 16_080),
            Step::TakeMany(1000),
            Step::Used(0),
        ],
    },
    WorkedStack {
        about: "a stack that just fits under the limit",
        rule: Refuses::Past(208),
        steps: &[
            Step::PushMany(8),
            Step::Stands((0, 1), 208),
            Step::TakeMany(8),
        ],
    },
];
