//! The panic that ended a run, and what raised it. `wb_watch` takes them from the machine that the panic stopped.

use wb_heap_model::heap::Panic;

/// What raised a panic.
#[derive(Clone, Copy, Debug, PartialEq, Eq)]
pub enum Raiser {
    /// The statement begun last.
    Statement,
    /// A field among the operands of the statement begun last: the field's holder names no live cell, or no object of the field's class.
    Holder,
    /// The end of a TRAP.
    TrapEnd,
    /// The end of `main`.
    MainEnd,
    /// The destruction of an item of the cleanup stack.
    Item,
    /// The release of an object, after its destructor ended.
    Release,
}

/// The panic that a run ended with.
#[derive(Clone, Copy, Debug, PartialEq, Eq)]
pub struct Raised {
    pub panic: Panic,
    pub raiser: Raiser,
    /// How many bodies were running: 1 in `main`, and 0 at the end of `main`. If the release of an object panicked, the object's destructor
    /// isn't counted, because the destructor had ended.
    pub depth: u32,
}
