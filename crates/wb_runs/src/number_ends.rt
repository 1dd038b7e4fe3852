//! Lists of how the runs under several failures ended. A sweep that doesn't stop at a bad number, but tries all its numbers, reports such a
//! list.

use crate::run_end::RunEnd;
use wb_basics::items::Items;

/// How the run under one failure ended. `number` is the number of the only attempt that fails, the number from which on all attempts fail,
/// or the rate at which attempts fail.
#[derive(Clone, Copy, Debug, PartialEq, Eq)]
pub struct NumberEnd {
    pub number: u32,
    pub end: RunEnd,
}

/// Numbers in ascending order, each with the end of its run.
pub type NumberEnds = Items<NumberEnd>;
