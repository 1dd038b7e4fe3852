//! The states that a search keeps, and how runs go on from these states. This file doesn't decide how states are found.

use wb_heap_model::heap::Numbers;
use wb_meaning::run::RunResult;

/// What a run has come to just before an attempt. The attempts of a set fail in the run, and the run has already made all of them.
#[derive(Drop)]
pub(crate) struct State {
    /// The numbers of the set's attempts, in ascending order. All of them were made.
    pub numbers: Numbers,
    /// How many attempts were made.
    pub attempts: u32,
    /// How many steps were counted.
    pub steps: u32,
    /// The index of the state from which the run came here by one attempt; for the first state, its own index.
    pub before: usize,
}

/// How a run goes on from a state, after the run's next attempt was granted or made to fail.
#[derive(Clone, Copy, Debug, PartialEq, Eq)]
pub(crate) enum Edge {
    /// Except for allocation numbers, the run comes to the state at the index `state`. By then, the run has counted `steps` steps.
    Joins { state: usize, steps: u32 },
    /// The run makes no further attempt, is neither bad nor cut, and takes `steps` steps in all.
    Ends { steps: u32 },
    /// The run makes no further attempt, and is bad or cut.
    Shows,
    /// No set that begins with the run's set is tried.
    Untried,
    /// The run wasn't followed, because the state's run was dropped and couldn't be made again.
    Unknown,
}

/// A set of attempts, and the result of the run in which these attempts fail. The run is bad or cut.
#[derive(Debug, Drop)]
pub struct Shown {
    /// The numbers of the attempts that fail, in ascending order.
    pub numbers: Numbers,
    pub result: RunResult,
}
