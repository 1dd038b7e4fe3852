//! What a run reports about the heap.

use crate::heap::Attempt;
use wb_basics::items::Items;

/// A cell that was live when the run ended. `length` is its cell length, in bytes.
#[derive(Clone, Copy, Debug, PartialEq, Eq)]
pub struct Leak {
    pub number: u32,
    pub length: u32,
    pub place: u32,
}

/// The leaks of a run, in the order of their places in the heap.
pub type Leaks = Items<Leak>;

/// The attempts of a run, in the order of their numbers.
pub type Trace = Items<Attempt>;

/// The notes of a run, in order.
pub type Notes = Items<Note>;

/// What a `heap`, `available` or `compress` statement noted about the heap. Lengths are in bytes.
#[derive(Clone, Copy, Debug, PartialEq, Eq)]
pub enum Note {
    /// The number of live cells, the sum of their cell lengths, and the committed length.
    Heap(u32, u32, u32),
    /// How many bytes below the committed length are free, and the length of the longest free run.
    Available(u32, u32),
    /// By how much the committed length shrank.
    Compress(u32),
}
