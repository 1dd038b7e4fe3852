//! What a simulated heap is made of, what callers request of it, and what it returns. All places and lengths are in bytes, and places count
//! from the start of the chunk. The first attempt has number 1.

ghost use Rattle.std.specs.Prelude.{◌≡◌, ◌+◌, ◌/◌, ◌^◌, ◌<◌, ◌≤◌, false, IfOk};
ghost use Rattle.wb_heap_model.specs.Row.{end_of, pointer_to, usable_of};
ghost use Rattle.wb_heap_model.specs.Space.{is_shape};

use wb_basics::items::Items;
use wb_basics::limits::{LARGEST_MINIMUM, LARGEST_STEP, SMALLEST_STEP};
use wb_basics::memory::NoMemory;

/// A pointer, which names a cell by the cell's place and allocation number. A pointer with number 0 is null.
#[derive(Clone, Copy, Debug, PartialEq, Eq)]
pub struct Ptr {
    pub place: u32,
    pub number: u32,
}

/// What a cell was allocated for.
#[derive(Clone, Copy, Debug, PartialEq, Eq)]
pub enum Kind {
    /// A cell of words; the script itself stores the words.
    Raw,
    /// An object of the class with this index.
    Object(u16),
    /// An HBufC: a text of 16-bit units.
    Text,
    /// The slots of the cleanup stack.
    Cleanup,
}

/// What describes a live cell, without the words that the cell holds. `length` is the cell length in bytes, including the header.
#[derive(Clone, Copy, Debug, PartialEq, Eq)]
pub struct Header {
    pub place: u32,
    pub length: u32,
    pub kind: Kind,
    /// The level of heap marks that the cell belongs to.
    pub level: u32,
    /// The allocation number: the number of the attempt that granted the cell, or that last moved it.
    pub number: u32,
}

impl Header {
    /// The length of the payload, in bytes: the cell length without the 16 bytes of the header.
    pub fn usable(self) -> u32
        requires { 16 ≤ self.length }
        ensures { result ≡ usable_of self }
    {
        self.length - 16
    }

    /// The length of the payload, in words.
    pub fn words(self) -> u32
        requires { 16 ≤ self.length }
        ensures { result ≡ usable_of self / 4 }
    {
        self.usable() / 4
    }

    /// The place where the cell ends: the place of the first byte after the cell.
    pub fn end(self) -> u32
        requires { self.place + self.length < 2 ^ 32 }
        ensures { result ≡ end_of self }
    {
        self.place + self.length
    }

    /// The pointer that names the cell.
    pub fn pointer(self) -> Ptr
        ensures { result ≡ pointer_to self }
    {
        Ptr {
            place: self.place,
            number: self.number,
        }
    }
}

/// A rule that says which attempts fail in a run. The script's own setting can make further attempts fail.
#[derive(Debug, Drop)]
pub enum Rule {
    /// The rule makes no attempt fail.
    Unlimited,
    /// Each attempt whose cell would end past this length, in bytes, fails.
    Limit(u32),
    /// The attempt with this number fails. Attempts count from 1, so with number 0 no attempt fails.
    Number(u32),
    /// Each attempt whose number is a multiple of this rate fails; with rate 0 no attempt fails. Attempts are numbered from the run's first
    /// attempt. The script's own setting instead counts from the statement that sets it.
    Every(u32),
    /// Each attempt with this number or a greater number fails; with number 0 no attempt fails.
    From(u32),
    /// The attempts with these two numbers fail.
    Pair(u32, u32),
    /// The attempts with these numbers fail; the list of numbers may have any length.
    Set(Numbers),
}

impl Rule {
    /// Returns a copy of the rule; the copy of a `Set` has its numbers in newly allocated memory. Returns `NoMemory` if the workbench's
    /// memory runs out.
    pub fn try_copy(&self) -> Result<Rule, NoMemory>
        ensures { IfOk result (λ copy. copy ≡ self.now) }
    {
        Ok(match self {
            Rule::Unlimited => Rule::Unlimited,
            Rule::Limit(limit) => Rule::Limit(*limit),
            Rule::Number(number) => Rule::Number(*number),
            Rule::Every(rate) => Rule::Every(*rate),
            Rule::From(first) => Rule::From(*first),
            Rule::Pair(first, second) => Rule::Pair(*first, *second),
            Rule::Set(numbers) => Rule::Set(numbers.try_copy()?),
        })
    }
}

/// A list of attempt numbers.
pub type Numbers = Items<u32>;

/// The heap's least length and growth step, in bytes, and whether cells that grow always move.
///
/// A heap accepts a shape only if both lengths are multiples of 16, `min` is from 0 to `LARGEST_MINIMUM`, and `step` is from
/// `SMALLEST_STEP` to `LARGEST_STEP`.
#[derive(Clone, Copy, Debug, PartialEq, Eq)]
pub struct Shape {
    pub min: u32,
    pub step: u32,
    /// Whether a cell that grows moves even if the bytes after the cell are free. Source: this project's profile; RHeap instead lets such a
    /// cell stay in place.
    pub moving: bool,
}

impl Shape {
    /// Returns the shape with this least length and this growth step, both in bytes. In this shape a cell that grows stays in place if it
    /// can. `min` and `step` should be in the ranges that `Shape` gives, but only `is_allowed` checks the ranges.
    pub fn new(min: u32, step: u32) -> Shape
        ensures { result ≡ record { min = min; step = step; moving = false } }
    {
        Shape {
            min,
            step,
            moving: false,
        }
    }

    /// Whether the shape is one that a heap may have.
    pub fn is_allowed(self) -> bool
        ensures { result ≡ is_shape self }
    {
        self.min % 16 == 0
            && self.min <= LARGEST_MINIMUM
            && self.step % 16 == 0
            && self.step >= SMALLEST_STEP
            && self.step <= LARGEST_STEP
    }
}

/// The outcome of an attempt.
#[derive(Clone, Copy, Debug, PartialEq, Eq)]
pub enum Answer {
    Granted,
    /// The attempt failed because of the script's own setting, or because of `Rule::Number`, `Rule::Every`, `Rule::From`, `Rule::Pair` or
    /// `Rule::Set`.
    Simulated,
    /// The attempt failed because of `Rule::Limit`.
    Refused,
}

/// A line of the trace. `length` is the cell length, in bytes. `place` is the place that was chosen for the cell, even if the attempt
/// failed.
#[derive(Clone, Copy, Debug, PartialEq, Eq)]
pub struct Attempt {
    pub number: u32,
    pub length: u32,
    pub place: u32,
    pub answer: Answer,
}

/// What an attempt returns to its caller.
#[derive(Clone, Copy, Debug, PartialEq, Eq)]
pub enum Gave {
    Granted(Ptr),
    /// The attempt fails, because the script's setting or the run's rule says so.
    Denied,
    /// Neither the script's setting nor the run's rule makes the attempt fail, but its cell would end past the heap's ceiling. The attempt
    /// is not counted.
    Ceiling,
}

/// A panic, which ends a run at once. The numbers of `User` are from EUSER; the numbers of `Workbench` are this project's own.
#[derive(Clone, Copy, Debug, PartialEq, Eq)]
pub enum Panic {
    User(u8),
    /// A heap check failed. The value is the place of the lowest cell that the check counted, or 0 if it counted no cell.
    Alloc(u32),
    Workbench(u8),
}

impl Panic {
    /// USER 10: a position or a length is outside a text's bounds.
    pub const POSITION_OUT_OF_BOUNDS: Panic = Self::User(10);
    /// USER 11: a text would be longer than its maximum.
    pub const TOO_LONG: Panic = Self::User(11);
    /// USER 42: a pointer that names no live cell was freed, reallocated or asked for its length.
    pub const BAD_CELL: Panic = Self::User(42);

    /// WORKBENCH 1: a null or stale pointer was used.
    pub const NULL_OR_STALE: Panic = Self::Workbench(1);
    /// WORKBENCH 2: a cell is of another kind than expected, or an object is of another class than expected.
    pub const WRONG_KIND: Panic = Self::Workbench(2);
    /// WORKBENCH 3: a pop of more items than the cleanup stack still has from pushes after the innermost TRAP began.
    pub const POP_BELOW_TRAP: Panic = Self::Workbench(3);
    /// WORKBENCH 4: the newest item on the cleanup stack isn't the item that was expected.
    pub const ANOTHER_ITEM_ON_TOP: Panic = Self::Workbench(4);
    /// WORKBENCH 5: a TRAP ended without a leave, while the cleanup stack still had items that were pushed after the TRAP began.
    pub const ITEMS_LEFT: Panic = Self::Workbench(5);
    /// WORKBENCH 6: a script closed a mark, but no mark was open.
    pub const NO_OPEN_MARK: Panic = Self::Workbench(6);
    /// WORKBENCH 7: more frames would exist at once than the limit allows.
    pub const TOO_MANY_FRAMES: Panic = Self::Workbench(7);
    /// WORKBENCH 8: an HBufC would be shorter than its text.
    pub const SHORTER_THAN_TEXT: Panic = Self::Workbench(8);
    /// WORKBENCH 9: a number is out of its range, or a text was to be inserted into itself.
    pub const NUMBER_OUT_OF_RANGE: Panic = Self::Workbench(9);
}

/// `KErrNoMemory`, the code with which an allocation leaves if its attempt fails.
pub const KERR_NO_MEMORY: i32 = -4;

/// An item of the cleanup stack.
#[derive(Clone, Copy, Debug, PartialEq, Eq)]
pub enum Item {
    /// A cell that the cleanup frees, without a destructor call.
    Free(Ptr),
    /// An object that the cleanup deletes, with a call of its destructor.
    Delete(Ptr),
    /// A pointer on which the cleanup runs the operation with this index.
    Call(Ptr, u16),
}
