//! What remains of a run once it is over.

ghost use Rattle.std.specs.Prelude.{◌≡◌, ◌+◌, ◌≤◌, ◌↔◌, true, false, length, IfOk};
ghost use Rattle.wb_meaning.specs.Run.{rises_result_of, run};
ghost use Rattle.wb_meaning.specs.declared.run.Outcome.TheVariants.{Cut};
ghost use Rattle.wb_meaning.specs.declared.run.Why.TheVariants.{Ceiling};
ghost use Rattle.wb_machine.specs.Seen.{whole_run_of};

use crate::machine::Machine;
use crate::state::outcome_by;
use wb_basics::memory::NoMemory;
use wb_debug::Heap;
use wb_meaning::progress::{Silent, StepProgress};
use wb_meaning::run::{Outcome, RisesResult, RunResult};

/// What remains of a run.
#[derive(Drop)]
pub struct Finished {
    /// The result of the run.
    pub result: RunResult,
    /// The heap of the run. A copy of another machine may take the memory of this heap.
    pub heap: Heap,
}

/// How a run ended.
#[derive(Debug, Drop)]
pub struct RunEnded {
    /// The outcome, with the leaks if the run ended normally or by a leave.
    pub outcome: Outcome,
    /// How many steps the run took.
    pub steps: u32,
}

impl<'a> Machine<'a> {
    /// Takes all machine turns that are left, and returns the result of the run. If the function returns `Ok`, the result is exactly what
    /// the definitions say of a whole run under the machine's rule. If the machine keeps its rises instead of a trace, the result has an
    /// empty trace.
    pub fn run_to_end(self) -> Result<RunResult, NoMemory>
        ensures { IfOk result (λ run_result. run_result
            ≡ (whole_run_of self.entry).result) }
    {
        Ok(self.finish()?.result)
    }

    /// Takes all machine turns that are left, as `run_to_end` does, and returns the result of the run together with the run's heap.
    pub fn finish(self) -> Result<Finished, NoMemory>
        ensures { IfOk result (λ finished. finished.result
            ≡ (whole_run_of self.entry).result) }
    {
        self.finish_reporting(&mut Silent)
    }

    /// Finishes the run as `finish` does. `progress` is notified of the steps taken.
    pub fn finish_reporting<P: StepProgress>(
        mut self,
        progress: &mut P,
    ) -> Result<Finished, NoMemory>
        ensures { IfOk result (λ finished. finished.result
            ≡ (whole_run_of self.entry).result) }
    {
        self.take_all_turns(progress)?;
        Ok(self.into_finished())
    }

    /// How a run that is over ended, whether the machine keeps a trace or its rises. Both parts are exactly those that the definitions give
    /// for the whole run under the machine's rule. Asks for memory only if the run has leaks.
    pub fn ended(&self) -> Result<RunEnded, NoMemory>
        requires over { self.now.over ≡ true }
        requires well { self.now.failed ≡ false }
        ensures outcome { IfOk result (λ ended. ended.outcome
            ≡ (run self.now.script self.now.rule self.now.budget self.now.shape).outcome) }
        ensures steps { IfOk result (λ ended. ended.steps
            ≡ (run self.now.script self.now.rule self.now.budget self.now.shape).steps) }
    {
        let leaks = self.leaks.try_copy()?;
        Ok(RunEnded {
            outcome: outcome_by(self.control.ending(), leaks),
            steps: self.state.steps(),
        })
    }

    /// The result of a run that is over, if the machine keeps a trace. The result is exactly what the definitions say of the script, the
    /// rule, the budget and the shape. The trace has a line for each attempt, and at most one line more than the budget has steps.
    pub fn result(self) -> RunResult
        requires over { self.over ≡ true }
        requires well { self.failed ≡ false }
        requires lines { self.keeps_rises ≡ false }
        ensures run_result { result
            ≡ run self.entry.script self.entry.rule self.entry.budget self.entry.shape }
        ensures attempts { length result.trace ≡ self.entry.attempts }
        ensures few { length result.trace ≤ self.entry.budget + 1 }
        ensures ceiling { (self.entry.met_ceiling ≡ true) ↔ (result.outcome ≡ Cut Ceiling) }
    {
        self.into_finished().result
    }

    /// The result of a run that is over, together with the run's heap. The trace is empty if the machine keeps its rises instead of a
    /// trace.
    fn into_finished(self) -> Finished
        requires over { self.over ≡ true }
        requires well { self.failed ≡ false }
        ensures run_result { result.result ≡ (whole_run_of self.entry).result }
        ensures attempts { (whole_run_of self.entry).attempts ≡ self.entry.attempts }
        ensures few { self.entry.attempts ≤ self.entry.budget + 1 }
        ensures ceiling { (self.entry.met_ceiling ≡ true) ↔ (result.result.outcome ≡ Cut Ceiling) }
    {
        let Machine {
            alloc: _,
            script: _,
            budget: _,
            shape: _,
            begun: _,
            control,
            state,
            leaks,
            failed: _,
        } = self;
        state.finish(control.ending(), leaks)
    }

    /// Gives the run up and returns its heap, so that a copy of another machine can take the heap's memory.
    pub fn into_heap(self) -> Heap {
        let Machine {
            alloc: _,
            script: _,
            budget: _,
            shape: _,
            begun: _,
            control: _,
            state,
            leaks: _,
            failed: _,
        } = self;
        state.into_heap()
    }

    /// Returns the outcome, the rises and the steps of a run that is over, if the machine keeps its rises instead of a trace. The three are
    /// exactly those that the definitions give for the whole run.
    pub fn rises_result(self) -> RisesResult
        requires over { self.over ≡ true }
        requires well { self.failed ≡ false }
        requires rises { self.keeps_rises ≡ true }
        ensures { result ≡ rises_result_of
            (run self.entry.script self.entry.rule self.entry.budget self.entry.shape) }
    {
        let Machine {
            alloc: _,
            script: _,
            budget: _,
            shape: _,
            begun: _,
            control,
            state,
            leaks,
            failed: _,
        } = self;
        state.finish_rises(control.ending(), leaks)
    }
}
