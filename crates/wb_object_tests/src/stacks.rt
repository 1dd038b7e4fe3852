//! Tests of `wb_cleanup` with worked cleanup stacks: what each call returns, and which words the stack's cell has afterwards.

use crate::pointers::{Cell, pointer};
use crate::rules::Refuses;
use crate::worked_stacks::{Entry, STACKS, Step, WorkedStack};
use std::alloc::Global;
use std::marker::Model;
use std::test::Fail;
use wb_basics::limits::CEILING;
use wb_cleanup::{Cleanup, Pushed};
use wb_debug::{DebugFault, DebugHeap};
use wb_heap_model::heap::{Gave, Header, Item, Kind, Panic, Ptr, Shape};

const SHAPE: Shape = Shape {
    min: 0,
    step: 4096,
    moving: false,
};

/// A cleanup stack in its heap, and whether the stack has no room for another item.
#[derive(Drop)]
struct Stacked {
    heap: DebugHeap,
    stack: Cleanup,
    full: bool,
}

impl Model for Stacked {
    ghost use Rattle.std.specs.Prelude.{Bool};
    ghost use Rattle.wb_object_tests.specs.Stacked.{IsStacked};

    ghost Value = { Bool };

    ghost view = { λ s. s.full };

    ghost invariant = { λ s. IsStacked s.stack s.heap s.full };
}

/// The index of the first step that gives an answer other than the table's; `None` if there is no such step.
fn first_other(alloc: Global, worked: &WorkedStack) -> Result<Option<usize>, DebugFault> {
    let Some(mut stacked) = start_stack(alloc, worked.rule)? else {
        return Err(DebugFault::NoMemory);
    };
    Ok(stacked.first_other(worked.steps))
}

/// Starts a stack under this rule. Returns `None` if the heap refuses the stack's cell.
fn start_stack(alloc: Global, rule: Refuses) -> Result<Option<Stacked>, DebugFault> {
    let mut heap = DebugHeap::new(alloc, rule.rule(), SHAPE)?;
    match Cleanup::start(&mut heap)? {
        Some(stack) => Ok(Some(Stacked {
            heap,
            stack,
            full: false,
        })),
        None => Ok(None),
    }
}

impl Stacked {
    /// The index of the first step that gives an answer other than the table's; `None` if there is no such step.
    fn first_other(&mut self, steps: &[Step]) -> Option<usize> {
        for (index, step) in steps.iter().enumerate() {
            if !self.answers(*step) {
                return Some(index);
            }
        }
        None
    }

    /// Whether a step gives the answer in the table.
    fn answers(&mut self, step: Step) -> bool {
        match step {
            Step::Push(entry, pushed) => self.push(item(entry)) == Some(pushed),
            Step::PushMany(n) => self.push_many(n),
            Step::Pop(floor, n, panic) => self.pop(floor, n).err() == panic,
            Step::PopExpected(floor, cell, panic) => {
                self.pop_expected(floor, pointer(cell)).err() == panic
            }
            Step::Take(floor, entry) => self.take(floor) == entry.map(item),
            Step::TakeMany(n) => self.take_many(n),
            Step::Alloc(bytes) => self.alloc(bytes),
            Step::FailNext(n) => self.fail_next(n),
            _ => self.tells(step),
        }
    }

    /// Whether a step that changes nothing gives the answer in the table.
    fn tells(&self, step: Step) -> bool {
        match step {
            Step::Used(n) => self.stack.used() == n,
            Step::Free { one, none } => {
                self.stack.has_one_free() == one && self.stack.is_full() == none
            }
            Step::Attempts(n) => self.heap.attempts() == n,
            Step::Stands(cell, length) => {
                self.heap.header(pointer(cell)) == Some(cleanup_header(cell, length))
            }
            Step::Gone(cell) => self.heap.header(pointer(cell)).is_none(),
            Step::Slot(cell, slot, words) => self.slot(pointer(cell), slot) == Some(words),
            _ => false,
        }
    }

    /// Pushes an item, and returns the result. Returns `None` if the item can't be pushed.
    fn push(&mut self, item: Item) -> Option<Pushed> {
        if self.full || self.heap.attempts() == u32::MAX {
            return None;
        }
        let pushed = self.stack.push(&mut self.heap, item).ok()?;
        self.full = pushed == Pushed::Leave;
        Some(pushed)
    }

    fn push_many(&mut self, n: u32) -> bool {
        for i in 0..n {
            if self.push(item(Entry::Free((i, i)))) != Some(Pushed::Fine) {
                return false;
            }
        }
        true
    }

    fn pop(&mut self, floor: u32, n: u32) -> Result<(), Panic> {
        self.stack.pop(floor, n)?;
        self.full = self.full && n == 0;
        Ok(())
    }

    fn pop_expected(&mut self, floor: u32, ptr: Ptr) -> Result<(), Panic> {
        self.stack.pop_expected(&self.heap, floor, ptr)?;
        self.full = false;
        Ok(())
    }

    fn take(&mut self, floor: u32) -> Option<Item> {
        let item = self.stack.take_top(&self.heap, floor)?;
        self.full = false;
        Some(item)
    }

    fn take_many(&mut self, n: u32) -> bool {
        for k in 0..n {
            let i = n - 1 - k;
            if self.take(i) != Some(item(Entry::Free((i, i)))) {
                return false;
            }
        }
        true
    }

    /// Makes an attempt to get a raw cell of `bytes` bytes, and returns whether the attempt is granted.
    fn alloc(&mut self, bytes: u32) -> bool {
        if self.heap.attempts() == u32::MAX || bytes > CEILING {
            return false;
        }
        match self.heap.attempt_alloc(bytes, Kind::Raw) {
            Ok(Gave::Granted(_)) => true,
            _ => false,
        }
    }

    fn fail_next(&mut self, n: u32) -> bool {
        if n == 0 {
            return false;
        }
        self.heap.fail_next(n);
        true
    }

    /// The four words of a slot of a cell, or `None` if the cell has no such slot.
    fn slot(&self, cell: Ptr, slot: u32) -> Option<[u32; 4]> {
        match self.heap.header(cell) {
            Some(header) if slot < header.words() / 4 => Some([
                self.heap.payload(cell, 4 * slot),
                self.heap.payload(cell, 4 * slot + 1),
                self.heap.payload(cell, 4 * slot + 2),
                self.heap.payload(cell, 4 * slot + 3),
            ]),
            _ => None,
        }
    }
}

fn item(entry: Entry) -> Item {
    match entry {
        Entry::Free(cell) => Item::Free(pointer(cell)),
        Entry::Delete(cell) => Item::Delete(pointer(cell)),
        Entry::Call(cell, operation) => Item::Call(pointer(cell), operation),
    }
}

/// The header of the cell of a cleanup stack.
fn cleanup_header(cell: Cell, length: u32) -> Header {
    Header {
        place: cell.0,
        length,
        kind: Kind::Cleanup,
        level: 0,
        number: cell.1,
    }
}

#[test]
fn worked_stacks(rt: HostRuntime) -> Result<(), Fail> {
    for stack in &STACKS {
        assert_eq!(rt; first_other(rt.alloc(), stack)?, None, "{}", stack.about);
    }
    Ok(())
}

/// Rules, and whether a stack can begin under each rule. Attempt 1 asks for the stack's cell of 144 bytes.
static FIRST_CELLS: &[(Refuses, bool)] = &[
    (Refuses::Past(0), false),
    (Refuses::Past(143), false),
    (Refuses::Number(1), false),
    (Refuses::Every(1), false),
    (Refuses::Pair(1, 2), false),
    (Refuses::Past(144), true),
    (Refuses::Number(2), true),
    (Refuses::Number(0), true),
    (Refuses::Every(2), true),
    (Refuses::Every(0), true),
    (Refuses::Pair(2, 3), true),
];

fn has_begun(alloc: Global, rule: Refuses) -> Result<bool, DebugFault> {
    Ok(start_stack(alloc, rule)?.is_some())
}

#[test]
fn a_stack_begins_where_its_first_cell_is_granted(rt: HostRuntime) -> Result<(), Fail> {
    for (rule, begins) in FIRST_CELLS {
        assert!(rt; has_begun(rt.alloc(), *rule)? == *begins);
    }
    Ok(())
}
