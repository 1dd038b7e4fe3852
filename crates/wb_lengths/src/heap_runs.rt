//! Runs of a script in heaps of one length after another, each shorter than the one before it.

ghost use Rattle.std.specs.Prelude.{◌≡◌, ◌≢◌, ℕ, ◌<◌, ◌≤◌, None, false, true, IfOk, IfSome, IsTrue, OnOk};
ghost use Rattle.wb_tree.specs.Sound.{is_script};
ghost use Rattle.wb_runs.specs.Lengths.{run_in};
ghost use Rattle.wb_machine.specs.Seen.{whole_run_of};
ghost use Rattle.wb_lengths.specs.Forks.{AreOf, KeepsForks};
ghost use Rattle.wb_lengths.specs.SetHeaps.{TellsRunIn};
ghost use Rattle.wb_lengths.specs.Walk.{steps_after};
ghost use Rattle.wb_heap_model.specs.declared.heap.Shape.{Shape};
ghost use Rattle.wb_tree.specs.declared.script.Script.{Script};

use crate::forks::Forks;
use std::alloc::Global;
use wb_basics::memory::NoMemory;
use wb_heap_model::heap::{Rule, Shape};
use wb_machine::{Finished, Machine, Turn};
use wb_meaning::conditions::Conditions;
use wb_meaning::progress::StepProgress;
use wb_meaning::run::RunResult;
use wb_tree::script::Script;

/// What runs that are made one after another share.
#[derive(Drop)]
pub(crate) struct HeapRuns<'a> {
    pub(crate) alloc: Global,
    /// Copies of the previous run, from which the next run may go on, and heaps whose memory it may take over.
    pub(crate) forks: Forks<'a>,
    /// How many steps the runs still to be made may take together; `None` if there is no bound.
    pub(crate) steps_left: Option<u32>,
}

impl<'a> HeapRuns<'a> {
    /// No run has been made yet.
    pub(crate) fn new(alloc: Global, steps_left: Option<u32>) -> HeapRuns<'a>
        ensures bound { result.steps_left ≡ steps_left }
        ensures forks { (script : Script) (budget : ℕ) (shape : Shape) →
            AreOf script budget shape result.forks }
    {
        HeapRuns {
            alloc,
            forks: Forks::new(alloc),
            steps_left,
        }
    }

    /// Makes the run in a heap of this length, in bytes. Each heap is shorter than the heaps before it. The result tells how the run goes,
    /// but may have other notes and may name refusals otherwise. Returns `None` if the run takes more steps than are left. `progress` is
    /// notified of the steps of whole runs, unless the steps are bounded.
    pub(crate) fn run<P: StepProgress>(
        &mut self,
        script: &'a Script,
        conditions: Conditions,
        length: u32,
        progress: &mut P,
    ) -> Result<Option<RunResult>, NoMemory>
        requires script { IsTrue (is_script script.now) }
        requires forks { AreOf script.now conditions.budget conditions.shape self.old.forks }
        ensures tells { IfOk result (λ found.
            IfSome found (TellsRunIn script.now conditions.budget conditions.shape length)) }
        ensures counted { IfOk result (λ found. IfSome found (λ r.
            self.new.steps_left ≡ steps_after r.steps self.old.steps_left)) }
        ensures forks { OnOk result (AreOf script.now conditions.budget conditions.shape
            self.new.forks) }
        ensures unbounded { self.old.steps_left ≡ None → self.new.steps_left ≡ None }
        ensures whole { self.old.steps_left ≡ None → IfOk result (λ found. found ≢ None) }
    {
        match self.forks.run(script, conditions, length)? {
            Some(run_result) => Ok(self.count(run_result)),
            None => self.run_whole(script, conditions, length, progress),
        }
    }

    /// Makes the run in a heap of this length, in bytes, as a whole run. Returns `None` if the run takes more steps than are left.
    fn run_whole<P: StepProgress>(
        &mut self,
        script: &'a Script,
        conditions: Conditions,
        length: u32,
        progress: &mut P,
    ) -> Result<Option<RunResult>, NoMemory>
        requires script { IsTrue (is_script script.now) }
        ensures ran { IfOk result (λ found. IfSome found (λ r.
            r ≡ run_in script.now conditions.budget conditions.shape length)) }
        ensures counted { IfOk result (λ found. IfSome found (λ r.
            self.new.steps_left ≡ steps_after r.steps self.old.steps_left)) }
        ensures forks { OnOk result (KeepsForks self.old.forks self.new.forks) }
        ensures unbounded { self.old.steps_left ≡ None → self.new.steps_left ≡ None }
        ensures whole { self.old.steps_left ≡ None → IfOk result (λ found. found ≢ None) }
    {
        let start = Machine::start(self.alloc, script, Rule::Limit(length), conditions)?;
        let spare = self.forks.take_heap();
        let machine = start.try_copy_over(spare)?;
        match finish_within(machine, self.steps_left, progress)? {
            Some(Finished { result, heap }) => {
                self.forks.put_heap(heap)?;
                self.forks.learn(&result)?;
                self.steps_left = steps_after(self.steps_left, result.steps);
                Ok(Some(result))
            }
            None => Ok(None),
        }
    }

    /// Counts the steps of a run, and returns its result; `None` if the run took more steps than were left.
    fn count(&mut self, run_result: RunResult) -> Option<RunResult>
        ensures same { IfSome result (λ r. r ≡ run_result) }
        ensures counted { IfSome result (λ r.
            self.new.steps_left ≡ steps_after r.steps self.old.steps_left) }
        ensures forks { self.new.forks ≡ self.old.forks }
        ensures unbounded { self.old.steps_left ≡ None → self.new.steps_left ≡ None }
        ensures whole { self.old.steps_left ≡ None → result ≢ None }
        ensures within { IfSome result (λ r. IfSome self.old.steps_left (λ left. r.steps ≤ left)) }
    {
        if !is_within(run_result.steps, self.steps_left) {
            return None;
        }
        self.steps_left = steps_after(self.steps_left, run_result.steps);
        Some(run_result)
    }
}

/// Whether a run that took `taken` steps took at most `left` steps; `true` if there is no bound.
fn is_within(taken: u32, left: Option<u32>) -> bool
    ensures within { result ≡ true → IfSome left (λ most. taken ≤ most) }
    ensures past { result ≡ false → IfSome left (λ most. most < taken) }
    ensures unbounded { left ≡ None → result ≡ true }
{
    match left {
        Some(most) => taken <= most,
        None => true,
    }
}

/// How many steps are left after a run that took `taken` steps, if `left` steps were left before this run; `None` if there is no bound.
fn steps_after(left: Option<u32>, taken: u32) -> Option<u32>
    ensures { result ≡ steps_after taken left }
{
    match left {
        Some(left) => Some(left.saturating_sub(taken)),
        None => None,
    }
}

/// Finishes the run of the machine, and returns what the machine leaves; `None` if there is a bound and the run takes more steps than that.
fn finish_within<P: StepProgress>(
    machine: Machine,
    left: Option<u32>,
    progress: &mut P,
) -> Result<Option<Finished>, NoMemory>
    requires lines { machine.keeps_rises ≡ false }
    ensures ran { IfOk result (λ found. IfSome found (λ finished. finished.result
        ≡ (whole_run_of machine.entry).result)) }
    ensures whole { left ≡ None → IfOk result (λ found. found ≢ None) }
{
    match left {
        Some(steps) => finish_within_steps(machine, steps),
        None => Ok(Some(machine.finish_reporting(progress)?)),
    }
}

/// Finishes the run of the machine, and returns what the machine leaves; `None` if the run takes more than `steps` steps.
fn finish_within_steps(mut machine: Machine, steps: u32) -> Result<Option<Finished>, NoMemory>
    requires lines { machine.keeps_rises ≡ false }
    ensures ran { IfOk result (λ found. IfSome found (λ finished. finished.result
        ≡ (whole_run_of machine.entry).result)) }
    ensures within { IfOk result (λ found. IfSome found (λ finished.
        finished.result.steps ≤ steps)) }
{
    // The first machine turn isn't a step, and a turn that cuts the run at its budget isn't a step, so there may be two more machine turns
    // than steps.
    for _turn in 0..u64::from(steps) + 2 {
        if machine.step()? == Turn::Ended {
            return finish_if_within(machine, steps);
        }
    }
    Ok(None)
}

/// Returns what the machine leaves after a run that has ended; `None` if the run took more than `steps` steps.
fn finish_if_within(machine: Machine, steps: u32) -> Result<Option<Finished>, NoMemory>
    requires lines { machine.keeps_rises ≡ false }
    ensures ran { IfOk result (λ found. IfSome found (λ finished. finished.result
        ≡ (whole_run_of machine.entry).result)) }
    ensures within { IfOk result (λ found. IfSome found (λ finished.
        finished.result.steps ≤ steps)) }
{
    let finished = machine.finish()?;
    if finished.result.steps <= steps {
        Ok(Some(finished))
    } else {
        Ok(None)
    }
}
