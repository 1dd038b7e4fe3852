//! How a search grows: which runs it follows next. This file doesn't decide what the search's answer is.

ghost use Rattle.std.specs.Prelude.{◌≡◌, ◌+◌, ◌<◌, ◌++◌, ◌∷◌, [], false, true, length, slice_get, Some, Ok, Err, IfOk, OnOk, IsTrue};
ghost use Rattle.wb_tree.specs.Sound.{is_script};
ghost use Rattle.wb_runs.specs.Sets.{set_run};
ghost use Rattle.wb_states.specs.Ground.{turns_of};
ghost use Rattle.wb_states.specs.States.{failing_next, ground_of, next_attempt, turns_at, GoesOn, HasGrown};
ghost use Rattle.wb_states.specs.States.{IsRunOf, IsSound, IsState};
ghost use Rattle.wb_states.specs.declared.state.State.{State};

use crate::runs::Runs;
use crate::search::Search;
use crate::state::{Edge, State};
use std::alloc::{AllocError, Global};
use std::collections::HashMap;
use wb_basics::items::Items;
use wb_basics::memory::NoMemory;
use wb_heap_model::heap::{Numbers, Rule};
use wb_machine::Machine;
use wb_meaning::conditions::Conditions;
use wb_runs::part::Part;
use wb_runs::progress::Progress;
use wb_tree::script::Script;

/// Which sets a search tries, and which states count as the same.
#[derive(Clone, Copy, Debug)]
pub(crate) struct Plan {
    /// Whether all sets are tried.
    pub whole: bool,
    /// If not all sets are tried, a set is tried if its least number is in this part and no greater than `last`.
    pub part: Part,
    /// How many attempts the run without failure makes.
    pub last: u32,
    /// How many states may be met.
    pub allowed: u32,
    /// Whether a run joins a state only if the state was met with at least as many steps as the run has counted.
    pub exact: bool,
}

impl<'a> Search<'a> {
    /// A search before the first attempt of the run without failure. The search's runs keep no trace.
    pub fn new(
        alloc: Global,
        script: &'a Script,
        conditions: Conditions,
        plan: Plan,
    ) -> Result<Search<'a>, NoMemory>
        requires script { IsTrue (is_script script.now) }
        requires last { plan.last
            ≡ length (set_run script.now conditions.budget conditions.shape []).trace }
        ensures sound { IfOk result IsSound }
        ensures ground { IfOk result (λ search. ground_of search ≡ record {
          script = script.now;
          budget = conditions.budget;
          shape = conditions.shape;
          whole = plan.whole;
          part = plan.part;
          last = plan.last;
          allowed = plan.allowed;
        }) }
    {
        let mut machine = Machine::start_rises(alloc, script, conditions)?;
        machine.set_rule(Rule::Set(Numbers::new(alloc)));
        let mut states = Items::new(alloc);
        let mut runs = Runs::new(alloc);
        let first = State {
            numbers: Numbers::new(alloc),
            attempts: 0,
            steps: 0,
            before: 0,
        };
        states.push(first)?;
        runs.push(0, machine)?;
        Ok(Search {
            script,
            budget: conditions.budget,
            shape: conditions.shape,
            states,
            runs,
            granted: Items::new(alloc),
            failed: Items::new(alloc),
            shown: None,
            whole: plan.whole,
            part: plan.part,
            last: plan.last,
            allowed: plan.allowed,
            exact: plan.exact,
            met: 1,
            latest: HashMap::new(alloc),
            earlier: Items::new(alloc),
        })
    }

    /// How the run of the state at an index goes on if its next attempt is granted.
    fn follow_grant<P: Progress>(&mut self, at: usize, progress: &mut P) -> Result<Edge, NoMemory>
        requires sound { IsSound self.old }
        ensures grown { OnOk result (HasGrown self.old self.new) }
        ensures sound { OnOk result (IsSound self.new) }
        ensures goes { IfOk result (λ edge. (state : State) →
            slice_get self.old.states at ≡ Some state →
            GoesOn (ground_of self.new) self.new.states (turns_at state)
            state.numbers (next_attempt state) edge) }
    {
        let Some(state) = self.states.get(at) else {
            return Ok(Edge::Unknown);
        };
        let numbers = state.numbers.try_copy()?;
        match self.run_at(at)? {
            Some(fork) => self.follow(fork, numbers, at, progress),
            None => Ok(Edge::Unknown),
        }
    }

    /// How a run goes on from the state with the index `at` if the run's next attempt fails too. The run is followed only if the set that
    /// includes this attempt is tried.
    fn refuse_next<P: Progress>(
        &mut self,
        mut fork: Machine<'a>,
        mut numbers: Numbers,
        at: usize,
        progress: &mut P,
    ) -> Result<Edge, NoMemory>
        requires sound { IsSound self.old }
        requires run { (state : State) × (numbers ≡ state.numbers)
            × IsState (ground_of self.old) state × IsRunOf (ground_of self.old) state fork }
        ensures grown { OnOk result (HasGrown self.old self.new) }
        ensures sound { OnOk result (IsSound self.new) }
        ensures goes { IfOk result (λ edge. GoesOn (ground_of self.new) self.new.states
            (turns_of fork.entry.attempts fork.entry.steps)
            (numbers ++ (fork.entry.attempts + 1) ∷ []) (fork.entry.attempts + 1) edge) }
    {
        let Some(next) = fork.next_attempt() else {
            return Ok(Edge::Unknown);
        };
        numbers.push(next)?;
        if !self.tries(&numbers) {
            self.runs.spare = Some(fork.into_heap());
            return Ok(Edge::Untried);
        }
        let refused = numbers.try_copy()?;
        fork.set_rule(Rule::Set(refused));
        self.follow(fork, numbers, at, progress)
    }

    /// How the run of the state at an index goes on if its next attempt fails too.
    fn follow_failure<P: Progress>(&mut self, at: usize, progress: &mut P) -> Result<Edge, NoMemory>
        requires sound { IsSound self.old }
        ensures grown { OnOk result (HasGrown self.old self.new) }
        ensures sound { OnOk result (IsSound self.new) }
        ensures goes { IfOk result (λ edge. (state : State) →
            slice_get self.old.states at ≡ Some state →
            GoesOn (ground_of self.new) self.new.states (turns_at state)
            (failing_next state) (next_attempt state) edge) }
    {
        let Some(state) = self.states.get(at) else {
            return Ok(Edge::Unknown);
        };
        let numbers = state.numbers.try_copy()?;
        match self.run_at(at)? {
            Some(fork) => self.refuse_next(fork, numbers, at, progress),
            None => Ok(Edge::Unknown),
        }
    }

    /// Follows the run of the first state that has no edge in `granted` yet, with the run's next attempt granted. Returns `false` if there
    /// is no such state.
    fn follow_granted<P: Progress>(&mut self, progress: &mut P) -> Result<bool, NoMemory>
        requires sound { IsSound self.old }
        ensures sound { OnOk result (IsSound self.new) }
        ensures ground { OnOk result (ground_of self.new ≡ ground_of self.old) }
    {
        let at = self.granted.len();
        if self.states.len() <= at {
            return Ok(false);
        }
        let edge = self.follow_grant(at, progress)?;
        self.granted.push(edge)?;
        Ok(true)
    }

    /// Follows the run of the first state that has no edge in `failed` yet, with the run's next attempt made to fail. If there is no such
    /// state, or the state's set has `failures` or more attempts, follows no run and returns `false`.
    fn follow_failed<P: Progress>(
        &mut self,
        failures: u32,
        progress: &mut P,
    ) -> Result<bool, NoMemory>
        requires sound { IsSound self.old }
        ensures sound { OnOk result (IsSound self.new) }
        ensures ground { OnOk result (ground_of self.new ≡ ground_of self.old) }
    {
        let at = self.failed.len();
        let Some(state) = self.states.get(at) else {
            return Ok(false);
        };
        if state.numbers.len() >= failures as usize {
            return Ok(false);
        }
        let edge = self.follow_failure(at, progress)?;
        self.failed.push(edge)?;
        Ok(true)
    }

    /// Follows the next run of a set of at most `failures` attempts. Returns `false` if there is no such run.
    fn follow_next<P: Progress>(
        &mut self,
        failures: u32,
        progress: &mut P,
    ) -> Result<bool, NoMemory>
        requires sound { IsSound self.old }
        ensures sound { OnOk result (IsSound self.new) }
        ensures ground { OnOk result (ground_of self.new ≡ ground_of self.old) }
    {
        if self.follow_granted(progress)? {
            return Ok(true);
        }
        self.follow_failed(failures, progress)
    }

    /// Follows all runs of sets of at most `failures` attempts. Stops and returns `false` once more states were met than are allowed.
    pub fn grow<P: Progress>(&mut self, failures: u32, progress: &mut P) -> Result<bool, NoMemory>
        requires sound { IsSound self.old }
        ensures sound { OnOk result (IsSound self.new) }
        ensures ground { OnOk result (ground_of self.new ≡ ground_of self.old) }
        ensures many { result ≡ Ok false → self.old.allowed < length self.new.states }
    {
        for _ in 0..u64::MAX {
            if self.met > self.allowed {
                return Ok(false);
            }
            if !self.follow_next(failures, progress)? {
                return Ok(true);
            }
        }
        // no search follows 2^64 runs
        Err(NoMemory::from(AllocError))
    }
}
