//! What a run reports.

use wb_basics::items::Items;
use wb_basics::printed_line::Line;
use wb_heap_model::heap::Panic;
use wb_heap_model::reported::{Leaks, Notes, Trace};
use wb_heap_model::size::Rises;

/// Why the workbench cut a run short.
#[derive(Clone, Copy, Debug, PartialEq, Eq)]
pub enum Why {
    /// One more step would have exceeded the budget of steps.
    Budget,
    /// A cell would have ended past the heap's ceiling of 16 MiB.
    Ceiling,
}

/// The printed lines of a run, in order.
pub type Lines = Items<Line>;

/// How a run ended.
#[derive(Debug, Drop)]
pub enum Outcome {
    /// `main` ended. If `left` is `None`, `main` ended without a leave; otherwise `main` left with the code in `left`.
    Ended { left: Option<i32>, leaks: Leaks },
    Panicked(Panic),
    /// The attempt to get the cleanup stack's own cell failed, so `main` did not begin.
    NoCleanup,
    Cut(Why),
}

/// Everything that a run reports.
#[derive(Debug, Drop)]
pub struct RunResult {
    pub outcome: Outcome,
    pub trace: Trace,
    pub lines: Lines,
    pub notes: Notes,
    pub steps: u32,
}

/// What a run without a limit reports if it keeps its rises instead of a trace. `steps` is the number of steps of the whole run.
#[derive(Debug, Drop)]
pub struct RisesResult {
    pub outcome: Outcome,
    pub rises: Rises,
    pub steps: u32,
}
