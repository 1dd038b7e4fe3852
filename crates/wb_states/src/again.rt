//! Runs that come to a state again. If the state's run is kept, this run is copied. Otherwise the nearest kept run on the way to the state
//! is copied, and the copy goes on to the state under the state's set.

ghost use Rattle.std.specs.Prelude.{◌≡◌, ℕ, ◌≤◌, ◌++◌, List, true, false, slice_get, Some, IfOk, IfSome, OnOk};
ghost use Rattle.wb_machine.specs.Turns.{IsSameRun};
ghost use Rattle.wb_heap_model.specs.declared.heap.Rule.TheVariants as rules;
ghost use Rattle.wb_runs.specs.Sets.{AscendsPast, IsSet};
ghost use Rattle.wb_states.specs.States.{ground_of, IsOnTheWay, IsRunOf, IsSound, IsState};
ghost use Rattle.wb_states.specs.declared.state.State.{State};

use crate::search::Search;
use crate::state::State;
use crate::turns::go_past_attempt;
use wb_basics::memory::NoMemory;
use wb_heap_model::heap::{Numbers, Rule};
use wb_machine::{Heap, Machine};

/// Whether `set` begins with all numbers of `other`, and the further numbers of `set` are greater than `attempts`.
fn goes_on_from(set: &Numbers, other: &Numbers, attempts: u32) -> bool
    requires set { IsSet set.now }
    ensures { result ≡ true →
        (rest : List ℕ) × (set.now ≡ other.now ++ rest) × AscendsPast attempts rest }
{
    match set.as_slice().strip_prefix(other.as_slice()) {
        Some([next, ..]) => attempts < *next,
        Some([]) => true,
        None => false,
    }
}

/// Lets a run go on until it has made `attempts` attempts in all and asks for a further attempt. Returns `false` if the run ends before
/// that.
fn go_to(machine: &mut Machine, attempts: u32) -> Result<bool, NoMemory>
    requires begun { 1 ≤ machine.old.attempts → machine.old.begun ≡ true }
    requires asks { machine.old.asks ≡ true }
    requires going { machine.old.over ≡ false }
    requires well { machine.old.failed ≡ false }
    requires within { machine.old.steps ≤ machine.old.budget }
    ensures same { IsSameRun machine.old machine.new }
    ensures begun { IfOk result (λ there. there ≡ true →
        1 ≤ machine.new.attempts → machine.new.begun ≡ true) }
    ensures asks { IfOk result (λ there. there ≡ true → machine.new.asks ≡ true) }
    ensures going { IfOk result (λ there. there ≡ true → machine.new.over ≡ false) }
    ensures well { OnOk result (machine.new.failed ≡ false) }
    ensures within { OnOk result (machine.new.steps ≤ machine.new.budget) }
{
    for _ in machine.attempts()..attempts {
        if go_past_attempt(machine)?.is_some() {
            return Ok(false);
        }
    }
    Ok(true)
}

/// A copy, in spare memory, of a run that has come to a state. The copy goes on under the set `numbers`. The result is `None` if `numbers`
/// doesn't begin with the state's own numbers, or if a further attempt in `numbers` was already made.
fn copy_under<'a>(
    machine: &Machine<'a>,
    state: &State,
    numbers: &Numbers,
    spare: Option<Heap>,
) -> Result<Option<Machine<'a>>, NoMemory>
    requires set { IsSet numbers.now }
    requires rule { machine.now.rule ≡ rules.Set state.now.numbers }
    requires attempts { machine.now.attempts ≡ state.now.attempts }
    requires going { machine.now.over ≡ false }
    requires well { machine.now.failed ≡ false }
    ensures { IfOk result (λ copy. IfSome copy (λ m. m
        ≡ record machine.now { rule = rules.Set numbers.now })) }
{
    if !goes_on_from(numbers, &state.numbers, state.attempts) {
        return Ok(None);
    }
    let further = numbers.try_copy()?;
    let mut copy = machine.try_copy_over(spare)?;
    copy.set_rule(Rule::Set(further));
    Ok(Some(copy))
}

impl<'a> Search<'a> {
    /// The index of the nearest state whose run is kept, on the way back from the state at the index `at`.
    fn nearest_kept(&self, at: usize) -> usize {
        let mut from = at;
        for _ in 0..self.states.len() {
            match self.states.get(from) {
                Some(state) if self.runs.get(from).is_none() => from = state.before,
                _ => return from,
            }
        }
        from
    }

    /// A copy of the run of the state at an index. The copy goes on under the set `numbers`. The result is `None` if the state's run isn't
    /// kept, or if `copy_under` returns `None` for this set.
    fn copy_at(
        &self,
        at: usize,
        numbers: &Numbers,
        spare: Option<Heap>,
    ) -> Result<Option<Machine<'a>>, NoMemory>
        requires sound { IsSound self.now }
        requires set { IsSet numbers.now }
        ensures { IfOk result (λ run. IfSome run (IsOnTheWay (ground_of self.now) numbers.now)) }
    {
        let Some(state) = self.states.get(at) else {
            return Ok(None);
        };
        let Some(machine) = self.runs.get(at) else {
            return Ok(None);
        };
        copy_under(machine, state, numbers, spare)
    }

    /// A run, in spare memory, that comes to a state again; `None` if no run comes to the state again.
    pub fn follow_again(
        &self,
        state: &State,
        spare: Option<Heap>,
    ) -> Result<Option<Machine<'a>>, NoMemory>
        requires sound { IsSound self.now }
        requires state { IsState (ground_of self.now) state.now }
        ensures { IfOk result (λ run. IfSome run (IsRunOf (ground_of self.now) state.now)) }
    {
        let from = self.nearest_kept(state.before);
        let Some(mut machine) = self.copy_at(from, &state.numbers, spare)? else {
            return Ok(None);
        };
        if !go_to(&mut machine, state.attempts)? {
            return Ok(None);
        }
        if machine.attempts() != state.attempts || machine.steps() != state.steps {
            return Ok(None);
        }
        Ok(Some(machine))
    }

    /// Keeps the run of an older state again, if a run comes to the older state again. From the kept run, the way to the states that come
    /// next is short.
    fn put_back(&mut self, at: usize) -> Result<(), NoMemory>
        requires sound { IsSound self.old }
        ensures same { self.new ≡ record self.old { runs = self.new.runs } }
        ensures sound { OnOk result (IsSound self.new) }
    {
        let spare = self.runs.spare.take();
        let Some(state) = self.states.get(at) else {
            return Ok(());
        };
        match self.follow_again(state, spare)? {
            Some(machine) => self.runs.put_back(at, machine),
            None => Ok(()),
        }
    }

    /// A copy, in spare memory, of the run of the state at an index; `None` if this run isn't kept.
    fn copy_kept(&mut self, at: usize) -> Result<Option<Machine<'a>>, NoMemory>
        requires sound { IsSound self.old }
        ensures same { self.new ≡ record self.old { runs = self.new.runs } }
        ensures sound { OnOk result (IsSound self.new) }
        ensures run { IfOk result (λ run. IfSome run (λ m. (state : State) →
            slice_get self.old.states at ≡ Some state →
            IsRunOf (ground_of self.old) state m)) }
    {
        let spare = self.runs.spare.take();
        match self.runs.get(at) {
            Some(machine) => {
                let copy = machine.try_copy_over(spare)?;
                Ok(Some(copy))
            }
            None => Ok(None),
        }
    }

    /// A copy of a run that has come to the state at an index. The result is `None` if there is no such state, or if no run comes to the
    /// state again.
    pub fn run_at(&mut self, at: usize) -> Result<Option<Machine<'a>>, NoMemory>
        requires sound { IsSound self.old }
        ensures same { self.new ≡ record self.old { runs = self.new.runs } }
        ensures sound { OnOk result (IsSound self.new) }
        ensures run { IfOk result (λ run. IfSome run (λ m. (state : State) →
            slice_get self.old.states at ≡ Some state →
            IsRunOf (ground_of self.old) state m)) }
    {
        if self.runs.get(at).is_none() {
            self.put_back(at)?;
        }
        self.copy_kept(at)
    }
}
