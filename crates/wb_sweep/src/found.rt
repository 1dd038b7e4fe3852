//! What a sweep finds.

use wb_meaning::run::RunResult;
use wb_runs::failures::Failing;
use wb_runs::number_ends::NumberEnds;

/// The least failure whose run is bad, together with this run. A sweep over sets names a single attempt by its number, with number 0 for the
/// run without failure, and two or more attempts by their set.
#[derive(Debug, Drop)]
pub struct Found {
    pub at: Failing,
    pub result: RunResult,
}

/// What a sweep finds, and how many attempts the run without failure makes.
#[derive(Debug, Drop)]
pub struct Sweep {
    pub attempts: u32,
    pub found: Option<Found>,
}

/// Which numbers are listed by a sweep that tries each number of a part.
#[derive(Clone, Copy, Debug, PartialEq, Eq)]
pub enum Listing {
    /// The numbers whose run leaks, panics or is cut.
    Unfine,
    /// Every number, even if its run is fine.
    Every,
}

/// What is found by a sweep that tries each number of a part, up to the last attempt of the run without failure.
#[derive(Debug, Drop)]
pub struct AllNumbers {
    /// How many attempts the run without failure makes.
    pub attempts: u32,
    /// The numbers that are listed, each with the end of its run.
    pub ends: NumberEnds,
    /// How many of these numbers have a run that leaks or panics.
    pub bad: usize,
    /// The least number whose run leaks or panics, together with this run; `None` if there is no such number.
    pub found: Option<Found>,
}
