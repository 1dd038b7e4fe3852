//! What a machine turn begins, and at which line.

use crate::open::{BegunAt, Doomed, ItemAt, RepeatAt};
use wb_watch::Ahead;

/// What a machine turn begins.
#[derive(Clone, Copy)]
pub(crate) enum What<'a> {
    /// The run: the turn asks the heap for the cell of the cleanup stack.
    Run,
    Statement(Ahead<'a>),
    /// A turn of a `repeat`.
    TurnOf(RepeatAt),
    /// The destruction of an item of the cleanup stack.
    Item(ItemAt),
    /// The destruction of an object.
    Object(Doomed),
    /// Nothing: the run is cut.
    Nothing,
}

/// What a machine turn begins, at which line, and how many bodies run at that time.
#[derive(Clone, Copy)]
pub(crate) struct Begun<'a> {
    pub(crate) what: What<'a>,
    pub(crate) line: u32,
    pub(crate) depth: u32,
    /// The statement that was begun last at the same depth, before this turn.
    pub(crate) after: BegunAt,
}
