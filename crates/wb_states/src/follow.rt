//! What a run comes to after its next attempt: a state that is already kept, a new state, or the run's end. This file doesn't decide which
//! runs are followed.

ghost use Rattle.std.specs.Prelude.{◌≡◌, ℕ, ◌+◌, ◌≤◌, false, true, length, IfOk, OnOk};
ghost use Rattle.wb_runs.specs.Sets.{IsSet};
ghost use Rattle.wb_runs.specs.Sweeps.{is_fine};
ghost use Rattle.wb_states.specs.Ground.{run_of, turns_of, IsTriedSet};
ghost use Rattle.wb_states.specs.States.{ground_of, GoesOn, HasGrown, IsAboutTo, IsRunUnder, IsSound};

use crate::search::Search;
use crate::state::{Edge, Shown};
use crate::turns::go_past_attempt;
use wb_basics::memory::NoMemory;
use wb_heap_model::heap::{Numbers, Rule};
use wb_machine::Machine;
use wb_runs::progress::Progress;
use wb_runs::run_end::is_fine;

impl<'a> Search<'a> {
    /// Whether a set is tried. The least number of the empty set counts as 0.
    pub fn tries(&self, numbers: &Numbers) -> bool
        requires set { IsSet numbers.now }
        ensures tried { result ≡ true → IsTriedSet (ground_of self.now) numbers.now }
        ensures untried { result ≡ false → IsTriedSet (ground_of self.now) numbers.now → ⊥ }
    {
        let least = match numbers.get(0) {
            Some(number) => *number,
            None => 0,
        };
        self.whole || (self.part.from <= least && least <= self.part.to && least <= self.last)
    }

    /// Puts a tried set whose run is bad or cut into `shown`, unless another set is there. `fork` is this run. It keeps no trace, so the
    /// run is made again from its first attempt.
    fn show(&mut self, fork: &Machine, numbers: Numbers) -> Result<(), NoMemory>
        requires sound { IsSound self.old }
        requires run { IsRunUnder (ground_of self.old) numbers fork.now }
        requires tried { IsTriedSet (ground_of self.old) numbers }
        requires shows { is_fine (run_of (ground_of self.old) numbers) ≡ false }
        ensures same { self.new ≡ record self.old { shown = self.new.shown } }
        ensures sound { OnOk result (IsSound self.new) }
    {
        if self.shown.is_some() {
            return Ok(());
        }
        let failing = numbers.try_copy()?;
        let result = fork.run_another(Rule::Set(failing))?;
        self.shown = Some(Shown { numbers, result });
        Ok(())
    }

    /// Judges a run that is over. In this run, the attempts of the set `numbers` fail. The first tried set whose run is bad or cut is put
    /// into `shown`.
    fn judge(&mut self, fork: &Machine, numbers: Numbers) -> Result<Edge, NoMemory>
        requires sound { IsSound self.old }
        requires run { IsRunUnder (ground_of self.old) numbers fork.now }
        requires over { fork.now.over ≡ true }
        requires made { fork.now.attempts ≡ length (run_of (ground_of self.old) numbers).trace }
        ensures grown { OnOk result (HasGrown self.old self.new) }
        ensures sound { OnOk result (IsSound self.new) }
        ensures goes { IfOk result (λ edge. (turns attempts : ℕ) → fork.now.attempts ≤ attempts →
            GoesOn (ground_of self.new) self.new.states turns numbers attempts edge) }
    {
        let ended = fork.ended()?;
        if is_fine(&ended.outcome) {
            return Ok(Edge::Ends { steps: ended.steps });
        }
        if !self.tries(&numbers) {
            return Ok(Edge::Untried);
        }
        self.show(fork, numbers)?;
        Ok(Edge::Shows)
    }

    /// Judges a run that is over, as `judge` does. The run's memory becomes spare.
    fn end(&mut self, fork: Machine<'a>, numbers: Numbers) -> Result<Edge, NoMemory>
        requires sound { IsSound self.old }
        requires run { IsRunUnder (ground_of self.old) numbers fork }
        requires over { fork.over ≡ true }
        requires made { fork.attempts ≡ length (run_of (ground_of self.old) numbers).trace }
        ensures grown { OnOk result (HasGrown self.old self.new) }
        ensures sound { OnOk result (IsSound self.new) }
        ensures goes { IfOk result (λ edge. (turns attempts : ℕ) → fork.entry.attempts ≤ attempts →
            GoesOn (ground_of self.new) self.new.states turns numbers attempts edge) }
    {
        let edge = self.judge(&fork, numbers)?;
        self.runs.spare = Some(fork.into_heap());
        Ok(edge)
    }

    /// Lets a run make its next attempt, and returns how the run goes on. The run is at the state with the index `before`.
    pub fn follow<P: Progress>(
        &mut self,
        mut fork: Machine<'a>,
        numbers: Numbers,
        before: usize,
        progress: &mut P,
    ) -> Result<Edge, NoMemory>
        requires sound { IsSound self.old }
        requires about { IsAboutTo (ground_of self.old) numbers fork }
        ensures grown { OnOk result (HasGrown self.old self.new) }
        ensures sound { OnOk result (IsSound self.new) }
        ensures goes { IfOk result (λ edge. GoesOn (ground_of self.new) self.new.states
            (turns_of fork.entry.attempts fork.entry.steps) numbers (fork.entry.attempts + 1) edge) }
    {
        match go_past_attempt(&mut fork)? {
            None => self.join(fork, numbers, before, progress),
            Some(_) => self.end(fork, numbers),
        }
    }
}
