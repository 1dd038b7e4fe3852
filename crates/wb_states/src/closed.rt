//! Whether a search has found enough for an answer. The search has found enough if the runs of all sets that the answer is about were
//! followed, and the budget allows each of these runs its steps.

ghost use Rattle.std.specs.Prelude.{◌≡◌, ℕ, ◌≤◌, ◌^◌, List, true, slice_get, IfOk, Some};
ghost use Rattle.wb_runs.specs.Sweeps.{is_fine};
ghost use Rattle.wb_states.specs.Closed.{AreOutside, IsClosed, IsFollowed, IsStateClosed, IsWithin};
ghost use Rattle.wb_states.specs.Ground.{run_of, Ground, IsTriedSet};
ghost use Rattle.wb_states.specs.States.{failing_next, ground_of, next_attempt, turns_at, IsSound};
ghost use Rattle.wb_states.specs.declared.closed.Bound.{Bound};
ghost use Rattle.wb_states.specs.declared.state.State.{State};

use crate::order::comes_before;
use crate::search::Search;
use crate::state::{Edge, State};
use wb_basics::items::Items;
use wb_basics::memory::NoMemory;
use wb_heap_model::heap::Numbers;

/// The sets that an answer is about.
#[derive(Debug, Drop)]
pub(crate) enum Bound {
    /// All sets.
    All,
    /// The sets of at most this many attempts.
    AtMost(u32),
    /// The sets that come before this set.
    Before(Numbers),
}

impl Bound {
    /// Whether no set that the answer is about begins with the set `set`.
    fn excludes(&self, set: &Numbers) -> bool
        ensures { result ≡ true → (attempts : ℕ) → AreOutside self.now set.now attempts }
    {
        match self {
            Bound::All => false,
            Bound::AtMost(most) => (*most as usize) < set.len(),
            Bound::Before(other) => !comes_before(set, other),
        }
    }

    /// Whether no set that the answer is about begins with a state's set and the state's next attempt.
    fn excludes_failure(&self, state: &State) -> Result<bool, NoMemory>
        ensures { IfOk result (λ excluded. excluded ≡ true → (attempts : ℕ) →
            AreOutside self.now (failing_next state.now) attempts) }
    {
        let Some(next) = state.attempts.checked_add(1) else {
            return Ok(false);
        };
        let mut set = state.numbers.try_copy()?;
        set.push(next)?;
        Ok(self.excludes(&set))
    }
}

/// How many turns a state's run has taken. The first turn makes an attempt and counts no step.
pub(crate) fn turns_taken(state: &State) -> u64
    ensures turns { result ≡ turns_at state.now }
    ensures few { result ≤ 2 ^ 32 }
{
    if state.attempts == 0 {
        return 0;
    }
    u64::from(state.steps) + 1
}

/// Whether an edge of a state is allowed for every run that comes to the state. The state's own run has taken `turns` turns, and any run
/// that comes to the state has taken at most `greatest` turns. A run that ends must end within the budget. A run that joins a further state
/// must come to this further state with no more turns than `most` has for it. An edge whose run is bad or cut, or wasn't followed, isn't
/// allowed. An edge that belongs to no tried set is allowed.
fn allows(edge: Edge, turns: u64, greatest: u32, most: &Items<u32>, budget: u32) -> bool
    requires few { turns ≤ 2 ^ 32 }
    ensures { result ≡ true → (g : Ground) → g.budget ≡ budget →
        (bound : Bound) (set : List ℕ) (attempts : ℕ) →
        IsFollowed g most.now bound turns greatest set attempts (Some edge) }
{
    let greatest = u64::from(greatest);
    match edge {
        Edge::Joins { state, steps } => match most.get(state) {
            Some(next) => greatest + u64::from(steps) + 1 <= u64::from(*next) + turns,
            None => false,
        },
        Edge::Ends { steps } => u64::from(steps) + greatest <= u64::from(budget) + turns,
        Edge::Shows | Edge::Unknown => false,
        Edge::Untried => true,
    }
}

/// Whether `allows` is `true` for the edge on which a state's next attempt is granted. If the edge's run is bad, cut or not followed,
/// returns instead whether the answer is about no set that begins with the state's set.
fn is_grant_followed(
    edge: Option<Edge>,
    state: &State,
    greatest: u32,
    most: &Items<u32>,
    bound: &Bound,
    budget: u32,
) -> bool
    ensures { result ≡ true → (g : Ground) → g.budget ≡ budget →
        IsFollowed g most.now bound.now (turns_at state.now) greatest state.now.numbers
        (next_attempt state.now) edge }
{
    match edge {
        None | Some(Edge::Shows | Edge::Unknown) => bound.excludes(&state.numbers),
        Some(edge) => allows(edge, turns_taken(state), greatest, most, budget),
    }
}

/// Whether `allows` is `true` for the edge on which a state's next attempt fails. If the edge's run is bad, cut or not followed, returns
/// instead whether the answer is about no set that begins with the state's set and next attempt.
fn is_failure_followed(
    edge: Option<Edge>,
    state: &State,
    greatest: u32,
    most: &Items<u32>,
    bound: &Bound,
    budget: u32,
) -> Result<bool, NoMemory>
    ensures { IfOk result (λ followed. followed ≡ true → (g : Ground) → g.budget ≡ budget →
        IsFollowed g most.now bound.now (turns_at state.now) greatest
        (failing_next state.now) (next_attempt state.now) edge) }
{
    match edge {
        None | Some(Edge::Shows | Edge::Unknown) => bound.excludes_failure(state),
        Some(edge) => Ok(allows(edge, turns_taken(state), greatest, most, budget)),
    }
}

impl<'a> Search<'a> {
    /// Whether a state is closed: whether all runs that go on from the state, and that the answer is about, are followed. `at` is the
    /// state's index. A run that comes to the state has taken at most `greatest` turns.
    fn is_state_closed(
        &self,
        at: usize,
        state: &State,
        greatest: u32,
        most: &Items<u32>,
        bound: &Bound,
    ) -> Result<bool, NoMemory>
        requires sound { IsSound self.now }
        requires is_at { slice_get self.now.states at ≡ Some state.now }
        requires greatest { slice_get most.now at ≡ Some greatest }
        ensures { IfOk result (λ closed. closed ≡ true →
            IsStateClosed (ground_of self.now) self.now most.now bound.now at state.now) }
    {
        let turns = u64::from(greatest);
        if turns < turns_taken(state) || u64::from(self.budget) + 1 < turns {
            return Ok(false);
        }
        let granted = self.granted.get(at).copied();
        if !is_grant_followed(granted, state, greatest, most, bound, self.budget) {
            return Ok(false);
        }
        let failed = self.failed.get(at).copied();
        is_failure_followed(failed, state, greatest, most, bound, self.budget)
    }

    /// Whether the state at an index is closed; `false` if there is no such state.
    fn is_closed_at(&self, at: usize, most: &Items<u32>, bound: &Bound) -> Result<bool, NoMemory>
        requires sound { IsSound self.now }
        ensures { IfOk result (λ closed. closed ≡ true → (state : State) →
            slice_get self.now.states at ≡ Some state →
            IsStateClosed (ground_of self.now) self.now most.now bound.now at state) }
    {
        match (self.states.get(at), most.get(at)) {
            (Some(state), Some(greatest)) => self.is_state_closed(
                at, state, *greatest, most, bound,
            ),
            _ => Ok(false),
        }
    }

    /// Whether all states are closed. If they are, no set that the answer is about has a run that is bad or cut. For each state, `most` has
    /// the greatest number of turns that a run has taken when it comes to the state. If a number in `most` is too small, the function
    /// returns `false`.
    pub(crate) fn is_closed(&self, most: &Items<u32>, bound: &Bound) -> Result<bool, NoMemory>
        requires sound { IsSound self.now }
        ensures closed { IfOk result (λ closed. closed ≡ true →
            IsClosed (ground_of self.now) self.now most.now bound.now) }
        ensures fine { IfOk result (λ closed. closed ≡ true → (numbers : List ℕ) →
            IsTriedSet (ground_of self.now) numbers → IsWithin bound.now numbers →
            is_fine (run_of (ground_of self.now) numbers) ≡ true) }
    {
        for at in 0..self.states.len() {
            if !self.is_closed_at(at, most, bound)? {
                return Ok(false);
            }
        }
        Ok(self.states.len() > 0)
    }
}
