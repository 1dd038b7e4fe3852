//! How a script's runs end in heaps of every length, as a table of ranges of lengths.

use crate::run_end::RunEnd;
use wb_basics::items::Items;

/// A range of heap lengths in which a script's runs end alike. The range ends where the next range begins.
#[derive(Clone, Copy, Debug, PartialEq, Eq)]
pub struct LengthRange {
    /// The least length of the range, in bytes.
    pub from: u32,
    /// How the runs in heaps of these lengths end.
    pub end: RunEnd,
}

/// Ranges of lengths, from 0 up to the ceiling, in ascending order.
pub type LengthTable = Items<LengthRange>;
