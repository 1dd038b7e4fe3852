//! Whether all states that a search keeps are different, so that they may be counted. This file doesn't decide how states are found.

ghost use Rattle.std.specs.Prelude.{◌≡◌, ◌<◌, length, true, slice_get, Some};
ghost use Rattle.wb_states.specs.Many.{IsInOrder, IsMetOf};
ghost use Rattle.wb_runs.specs.Met.{AreMoreThan};
ghost use Rattle.wb_states.specs.States.{ground_of, IsSound};
ghost use Rattle.wb_states.specs.declared.state.State.{State};

use crate::order::is_earlier;
use crate::search::Search;
use crate::state::State;

impl<'a> Search<'a> {
    /// Whether the state at the index `at` has a set of at most `failures` attempts, and comes after the previous state in the order of
    /// sets and attempts.
    fn is_in_order(&self, at: usize, state: &State, failures: u32) -> bool
        ensures { result ≡ true → IsInOrder self.now.states failures at state.now }
    {
        if state.numbers.len() > failures as usize {
            return false;
        }
        if at == 0 {
            return true;
        }
        match self.states.get(at - 1) {
            Some(last) => is_earlier(&last.numbers, last.attempts, &state.numbers, state.attempts),
            None => false,
        }
    }

    /// Whether there is a state at an index, and `is_in_order` is `true` for this state.
    fn is_in_order_at(&self, at: usize, failures: u32) -> bool
        ensures { result ≡ true → (state : State) → slice_get self.now.states at ≡ Some state →
            IsInOrder self.now.states failures at state }
    {
        match self.states.get(at) {
            Some(state) => self.is_in_order(at, state, failures),
            None => false,
        }
    }

    /// Whether no state's set has more than `failures` attempts, and each state comes after the previous state in the order of sets and
    /// attempts. Then no pair of a set and a number of attempts occurs twice. The result is `true` if no sets of more than `failures`
    /// attempts were followed, because states are found in order.
    pub(crate) fn are_different(&self, failures: u32) -> bool
        requires sound { IsSound self.now }
        requires many { self.now.allowed < length self.now.states }
        ensures { result ≡ true →
            AreMoreThan self.now.allowed (IsMetOf (ground_of self.now) failures) }
    {
        for at in 0..self.states.len() {
            if !self.is_in_order_at(at, failures) {
                return false;
            }
        }
        true
    }
}
