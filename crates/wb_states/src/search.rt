//! What a search over states has found so far. This file doesn't decide how runs go on from a state.

use crate::runs::Runs;
use crate::state::{Edge, Shown, State};
use std::collections::HashMap;
use wb_basics::items::Items;
use wb_heap_model::heap::Shape;
use wb_runs::part::Part;
use wb_tree::script::Script;

/// The states that were met, in the order of their sets and attempts, and how runs go on from each state.
pub(crate) struct Search<'a> {
    pub script: &'a Script,
    /// The greatest number of steps that a run may take.
    pub budget: u32,
    pub shape: Shape,
    pub states: Items<State>,
    /// The runs of the states. Runs of older states may be dropped.
    pub runs: Runs<'a>,
    /// For each state, how its run goes on if the next attempt is granted. The runs of the states without an entry are still to be
    /// followed.
    pub granted: Items<Edge>,
    /// For each state, how its run goes on if the next attempt fails. The runs of the states without an entry are still to be followed.
    pub failed: Items<Edge>,
    /// The first tried set that was found to have a run that is bad or cut, together with the result of this run.
    pub shown: Option<Shown>,
    /// Whether all sets are tried.
    pub whole: bool,
    /// If not all sets are tried, a set is tried if its least number is in this part and no greater than `last`.
    pub part: Part,
    /// How many attempts the run without failure makes.
    pub last: u32,
    /// How many states may be met.
    pub allowed: u32,
    /// Whether a run joins a state only if the state was met with at least as many steps as the run has counted.
    pub exact: bool,
    /// How many different states were met. States that differ only in their steps count as one state.
    pub met: u32,
    /// For each fingerprint, the index of the latest state that has this fingerprint.
    pub latest: HashMap<u64, usize>,
    /// For each state but the first, the index of the latest state before it with the same fingerprint; its own index if there is no such
    /// state.
    pub earlier: Items<usize>,
}

/// This `drop` is written by hand, so that only this function goes over the fields. In a proof about a function that drops a `Search`, the
/// drop is then a single call.
impl Drop for Search<'_> {
    fn drop(self) {
        let Search {
            script: _,
            budget: _,
            shape: _,
            states: _,
            runs: _,
            granted: _,
            failed: _,
            shown: _,
            whole: _,
            part: _,
            last: _,
            allowed: _,
            exact: _,
            met: _,
            latest: _,
            earlier: _,
        } = self;
    }
}
