//! Which kept state a run joins when it is about to make an attempt, or whether the run has come to a new state. This file doesn't decide
//! which runs are followed.

ghost use Rattle.std.specs.Prelude.{◌≡◌, ℕ, ◌+◌, ◌<◌, ◌≤◌, [], ◌∷◌, ◌++◌, false, true, length, List, slice_get, Some, IfOk, IfSome, OnOk};
ghost use Rattle.wb_machine.specs.Turns.{MakesMore};
ghost use Rattle.wb_runs.specs.Sets.{IsSet};
ghost use Rattle.wb_states.specs.Ground.{past, IsNoLater, IsTriedSet, Meets};
ghost use Rattle.wb_states.specs.States.{ground_of, AreOfOr, Continues, GoesOn, HasGrown};
ghost use Rattle.wb_states.specs.States.{IsNoneOrTried, IsSound, IsState, IsUnderWay};
ghost use Rattle.wb_states.specs.declared.state.State.{State};

use crate::meeting::is_met;
use crate::order::is_no_later;
use crate::search::Search;
use crate::state::{Edge, State};
use std::alloc::AllocError;
use wb_basics::memory::NoMemory;
use wb_heap_model::heap::Numbers;
use wb_machine::Machine;
use wb_runs::progress::Progress;

impl<'a> Search<'a> {
    /// Whether all sets that go on from a state are tried. In a search over a part, this is so if the state's own set isn't empty. Then the
    /// state's set is tried, and all sets that go on from the state have the same least number as the state's set.
    fn tries_all_past(&self, state: &State) -> bool
        ensures { result ≡ true → IsState (ground_of self.now) state.now →
            (more : List ℕ) → IsSet more →
            IsTriedSet (ground_of self.now)
            (state.now.numbers ++ past state.now.attempts more) }
    {
        self.whole || state.numbers.len() > 0
    }

    /// Whether a run may join a state that is the same as the run's own state, except for allocation numbers. All sets that go on from the
    /// state must be tried, and must come no later than the sets that go on from the run. In an exact search, the state must also have been
    /// met with at least as many steps as the run has counted.
    fn may_join(&self, state: &State, fork: &Machine, numbers: &Numbers, exact: bool) -> bool
        ensures order { result ≡ true →
            IsNoLater state.now.numbers state.now.attempts numbers.now fork.now.attempts }
        ensures tried { result ≡ true → IsState (ground_of self.now) state.now →
            (more : List ℕ) → IsSet more →
            IsTriedSet (ground_of self.now)
            (state.now.numbers ++ past state.now.attempts more) }
    {
        if exact && state.steps < fork.steps() {
            return false;
        }
        self.tries_all_past(state)
            && is_no_later(&state.numbers, state.attempts, numbers, fork.attempts())
    }

    /// Whether a run is the same as the state at an index, except for allocation numbers.
    fn is_met_at(
        &self,
        at: usize,
        state: &State,
        fork: &Machine,
        numbers: &Numbers,
    ) -> Result<bool, NoMemory>
        requires sound { IsSound self.now }
        requires is_at { slice_get self.now.states at ≡ Some state.now }
        requires run { IsUnderWay (ground_of self.now) numbers.now fork.now }
        ensures { IfOk result (λ met. met ≡ true → Meets (ground_of self.now)
            numbers.now fork.now.attempts fork.now.steps
            state.now.numbers state.now.attempts state.now.steps) }
    {
        if let Some(machine) = self.runs.get(at) {
            return Ok(is_met(fork, numbers, state, machine));
        }
        match self.follow_again(state, None)? {
            Some(machine) => Ok(is_met(fork, numbers, state, &machine)),
            None => Ok(false),
        }
    }

    /// Whether a run may join the state at an index, and is the same as this state except for allocation numbers; `false` if there is no
    /// such state.
    fn is_joined_at(
        &self,
        at: usize,
        fork: &Machine,
        numbers: &Numbers,
        exact: bool,
    ) -> Result<bool, NoMemory>
        requires sound { IsSound self.now }
        requires run { IsUnderWay (ground_of self.now) numbers.now fork.now }
        ensures { IfOk result (λ joined. joined ≡ true →
            (state : State) × (slice_get self.now.states at ≡ Some state)
            × Continues (ground_of self.now) numbers.now fork.now state) }
    {
        let Some(state) = self.states.get(at) else {
            return Ok(false);
        };
        if !self.may_join(state, fork, numbers, exact) {
            return Ok(false);
        }
        self.is_met_at(at, state, fork, numbers)
    }

    /// The index of the latest state that comes before the state at the index `at` and has the same fingerprint; `None` if there is no such
    /// state. The first state is listed under no fingerprint.
    fn alike_before(&self, at: usize) -> Option<usize> {
        match self.earlier.get(at.checked_sub(1)?) {
            Some(earlier) if *earlier != at => Some(*earlier),
            _ => None,
        }
    }

    /// The index of the latest state with the fingerprint `print` that a run joins; `None` if there is no such state.
    fn find(
        &self,
        fork: &Machine,
        numbers: &Numbers,
        print: u64,
        exact: bool,
    ) -> Result<Option<usize>, NoMemory>
        requires sound { IsSound self.now }
        requires run { IsUnderWay (ground_of self.now) numbers.now fork.now }
        ensures { IfOk result (λ found. IfSome found (λ at. (state : State)
            × (slice_get self.now.states at ≡ Some state)
            × Continues (ground_of self.now) numbers.now fork.now state)) }
    {
        let mut next = self.latest.get(&print).copied();
        for _ in 0..self.states.len() {
            let Some(at) = next else {
                return Ok(None);
            };
            if self.is_joined_at(at, fork, numbers, exact)? {
                return Ok(Some(at));
            }
            next = self.alike_before(at);
        }
        Ok(None)
    }

    /// Keeps a state and its run. The state becomes the latest state of the fingerprint `print`, and counts as met if `is_new` is `true`.
    fn keep<P: Progress>(
        &mut self,
        state: State,
        machine: Machine<'a>,
        print: u64,
        is_new: bool,
        progress: &mut P,
    ) -> Result<(), NoMemory>
        ensures states { OnOk result (self.new.states ≡ self.old.states ++ state ∷ []) }
        ensures runs { OnOk result
            (AreOfOr self.old.runs (length self.old.states) machine.entry self.new.runs) }
        ensures same { OnOk result (self.new ≡ record self.old {
          states = self.new.states;
          runs = self.new.runs;
          met = self.new.met;
          latest = self.new.latest;
          earlier = self.new.earlier;
        }) }
        ensures met { OnOk result (self.new.met ≤ self.old.met + 1) }
    {
        let at = self.states.len();
        let earlier = match self.latest.get(&print) {
            Some(earlier) => *earlier,
            None => at,
        };
        if self.latest.insert(print, at).is_err() {
            return Err(NoMemory::from(AllocError));
        }
        self.earlier.push(earlier)?;
        self.states.push(state)?;
        self.runs.push(at, machine)?;
        if is_new {
            self.met = self.met.saturating_add(1);
            progress.meet_state(self.states.len().saturating_sub(self.failed.len()));
        }
        Ok(())
    }

    /// Whether a run that joins no state would still join no state if steps didn't count.
    fn is_new(&self, fork: &Machine, numbers: &Numbers, print: u64) -> Result<bool, NoMemory>
        requires sound { IsSound self.now }
        requires run { IsUnderWay (ground_of self.now) numbers.now fork.now }
    {
        if !self.exact {
            return Ok(true);
        }
        Ok(self.find(fork, numbers, print, false)?.is_none())
    }

    /// The edge to the state that a run joins when it is about to make an attempt. If there is no such state, the run's own state is kept,
    /// and the edge leads to the run's own state. The run came from the state at the index `before`.
    pub fn join<P: Progress>(
        &mut self,
        fork: Machine<'a>,
        numbers: Numbers,
        before: usize,
        progress: &mut P,
    ) -> Result<Edge, NoMemory>
        requires sound { IsSound self.old }
        requires run { IsUnderWay (ground_of self.old) numbers fork }
        requires tried { IsNoneOrTried (ground_of self.old) numbers }
        requires begun { fork.begun ≡ true }
        requires made { 1 ≤ fork.attempts }
        requires going { fork.over ≡ false }
        requires asks { fork.asks ≡ true }
        requires more { MakesMore fork }
        ensures grown { OnOk result (HasGrown self.old self.new) }
        ensures sound { OnOk result (IsSound self.new) }
        ensures goes { IfOk result (λ edge. (turns : ℕ) → turns < fork.entry.steps + 1 →
            GoesOn (ground_of self.new) self.new.states turns numbers fork.entry.attempts edge) }
    {
        let steps = fork.steps();
        let print = fork.fingerprint();
        if let Some(state) = self.find(&fork, &numbers, print, self.exact)? {
            self.runs.spare = Some(fork.into_heap());
            return Ok(Edge::Joins { state, steps });
        }
        let is_new = self.is_new(&fork, &numbers, print)?;
        let state = self.states.len();
        let attempts = fork.attempts();
        let kept = State {
            numbers,
            attempts,
            steps,
            before,
        };
        self.keep(kept, fork, print, is_new, progress)?;
        Ok(Edge::Joins { state, steps })
    }
}
