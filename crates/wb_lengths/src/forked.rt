//! Runs in shorter and shorter heaps, made from forks of the runs before them.
//!
//! A shorter heap grants the same cells as the heap before it, up to the first cell that ends past the shorter heap. So the shorter heap's
//! run goes on from a copy that was made right before that attempt. The copy isn't under a limit: the attempts that the heap refuses are
//! those of a set, and one more attempt is added to the set whenever a granted cell ends past the heap. How the run was found doesn't
//! matter: in the end, its trace shows whether it is the run in the heap.

ghost use Rattle.std.specs.Prelude.{◌≡◌, false, IfOk, IfSome, IsTrue, OnOk};
ghost use Rattle.wb_lengths.specs.Forks.{AreOf, GivesRun, GoesOn, IsOf};
ghost use Rattle.wb_lengths.specs.SetHeaps.{TellsRunIn};
ghost use Rattle.wb_tree.specs.Sound.{is_script};
ghost use Rattle.wb_heap_model.specs.declared.heap.Shape.{Shape};
ghost use Rattle.wb_tree.specs.declared.script.Script.{Script};
ghost use Rattle.std.specs.Prelude.{ℕ};

use crate::certificate::shows_run_in;
use crate::forks::{Forks, MOST_FORKS};
use crate::parting::{MOST_ATTEMPTS, MOST_STEPS, attempts_of, numbers_below, parting_of};
use crate::set_run::SetRun;
use std::mem::replace;
use wb_basics::memory::NoMemory;
use wb_heap_model::heap::Shape;
use wb_machine::Finished;
use wb_meaning::conditions::Conditions;
use wb_meaning::run::RunResult;
use wb_tree::script::Script;

impl<'a> Forks<'a> {
    /// Puts `before`, a copy from before a run's last attempt, in the run's place, and refuses the attempt.
    fn refuse_instead(&mut self, run: &mut SetRun<'a>, before: SetRun<'a>) -> Result<(), NoMemory>
        ensures { (script : Script) (budget : ℕ) (shape : Shape) →
            AreOf script budget shape self.old → IsOf script budget shape before.entry →
            AreOf script budget shape self.new × IsOf script budget shape run.new }
    {
        let past = replace(run, before);
        self.give_up(past)?;
        run.refuse()
    }

    /// Judges the attempt that a run has just made in a heap of this length, in bytes; `before` is a copy from before the attempt. If the
    /// cell ends past the heap or the ceiling, the run goes on from the copy instead, and the attempt is refused. If the cell ends past all
    /// earlier cells, the copy is kept as a fork.
    fn judge(
        &mut self,
        run: &mut SetRun<'a>,
        before: SetRun<'a>,
        length: u32,
    ) -> Result<(), NoMemory>
        ensures { (script : Script) (budget : ℕ) (shape : Shape) →
            AreOf script budget shape self.old → IsOf script budget shape before.entry →
            IsOf script budget shape run.old →
            AreOf script budget shape self.new × IsOf script budget shape run.new }
    {
        if run.machine.attempts() == before.machine.attempts() || run.top > length {
            return self.refuse_instead(run, before);
        }
        if run.top > before.top {
            self.push(before, length)
        } else {
            self.give_up(before)
        }
    }

    /// Makes the attempt that a run is right before, in a heap of this length, in bytes.
    fn make_attempt(&mut self, run: &mut SetRun<'a>, length: u32) -> Result<(), NoMemory>
        ensures { GoesOn self.old run.old self.new run.new }
    {
        let spare = self.take_heap();
        let before = run.copy_over(spare)?;
        run.step()?;
        self.judge(run, before, length)
    }

    /// Takes a run that is right before an attempt on, in a heap of this length, in bytes, that refuses this attempt. Returns whether the
    /// run can be finished: it is over, or has made as many attempts as any run before. Otherwise it takes too long.
    fn go_to_end(&mut self, run: &mut SetRun<'a>, length: u32) -> Result<bool, NoMemory>
        ensures { GoesOn self.old run.old self.new run.new }
    {
        run.refuse()?;
        for _attempt in 0..MOST_ATTEMPTS + 1 {
            if run.machine.attempts() >= self.most_attempts {
                return Ok(true);
            }
            if !run.go_to_attempt()? {
                return Ok(run.is_over);
            }
            self.make_attempt(run, length)?;
        }
        Ok(false)
    }

    /// Makes the attempt that a run is right before, in a heap of this length, in bytes. Until the run has made `first` attempts, no copy is
    /// made, so the run's set must have all attempts before that which the heap refuses.
    fn approach(&mut self, run: &mut SetRun<'a>, first: u32, length: u32) -> Result<(), NoMemory>
        ensures { GoesOn self.old run.old self.new run.new }
    {
        if run.machine.attempts() >= first {
            return self.make_attempt(run, length);
        }
        run.step()
    }

    /// Takes a run to right before an attempt, in a heap of this length, in bytes. Forks are made only before the last few attempts on the
    /// way. Returns `false` if the run ends before that, or takes too long.
    fn go_to(&mut self, run: &mut SetRun<'a>, number: u32, length: u32) -> Result<bool, NoMemory>
        ensures { GoesOn self.old run.old self.new run.new }
    {
        let first = number.saturating_sub(MOST_FORKS);
        for _attempt in 0..MOST_STEPS + 2 {
            if !run.go_to_attempt()? {
                return Ok(false);
            }
            if run.machine.attempts().saturating_add(1) >= number {
                return Ok(true);
            }
            self.approach(run, first, length)?;
        }
        Ok(false)
    }

    /// Begins the last run again; `number` is the attempt to which the run is to be taken.
    fn begin_again(
        &mut self,
        script: &'a Script,
        conditions: Conditions,
        number: u32,
    ) -> Result<SetRun<'a>, NoMemory>
        requires script { IsTrue (is_script script.now) }
        ensures of { IfOk result (IsOf script.now conditions.budget conditions.shape) }
        ensures forks { self.new.runs.items ≡ self.old.runs.items }
    {
        let numbers = numbers_below(self.alloc, &self.refused, number)?;
        let spare = self.take_heap();
        SetRun::new(self.alloc, script, numbers, conditions, spare)
    }

    /// The last run before an attempt, or before one of the few attempts before that: a fork, or else the run begun again.
    fn fork_at(
        &mut self,
        script: &'a Script,
        conditions: Conditions,
        number: u32,
    ) -> Result<SetRun<'a>, NoMemory>
        requires script { IsTrue (is_script script.now) }
        ensures { IfOk result
            (GivesRun script.now conditions.budget conditions.shape self.old self.new) }
    {
        self.drop_past(number)?;
        match self.take_last() {
            Some(run) if run.machine.attempts().saturating_add(MOST_FORKS) >= number => Ok(run),
            Some(run) => {
                self.give_up(run)?;
                self.begin_again(script, conditions, number)
            }
            None => self.begin_again(script, conditions, number),
        }
    }

    /// Takes a run to an attempt, and from there on in a heap of this length, in bytes, that refuses this attempt. Returns whether the run
    /// can be finished. The last run granted no cell that ends more than one byte past `length`.
    fn follow(&mut self, run: &mut SetRun<'a>, number: u32, length: u32) -> Result<bool, NoMemory>
        ensures { GoesOn self.old run.old self.new run.new }
    {
        if !self.go_to(run, number, length.saturating_add(1))? {
            return Ok(false);
        }
        self.go_to_end(run, length)
    }

    /// The result of a run, if it shows that it is the run in a heap of this length, in bytes; otherwise `None`. Keeps what the run shows of
    /// the next shorter heap.
    fn finish(&mut self, run: SetRun<'a>, length: u32) -> Result<Option<RunResult>, NoMemory>
        ensures tells { IfOk result (λ found. IfSome found (TellsRunIn run.entry.machine.script
            run.entry.machine.budget run.entry.machine.shape length)) }
        ensures forks { self.new.runs.items ≡ self.old.runs.items }
    {
        let (Finished { result, heap }, numbers) = run.finish()?;
        self.put_heap(heap)?;
        if !shows_run_in(&result, &numbers, length) {
            return Ok(None);
        }
        self.parting = parting_of(&result);
        self.refused = numbers;
        self.most_attempts = self.most_attempts.max(attempts_of(&result));
        Ok(Some(result))
    }

    /// Makes the run in a heap of this length, in bytes, from the attempt on at which it parts from the last run. `None` if it takes too
    /// long, or doesn't show that it is the run in this heap.
    fn run_from(
        &mut self,
        script: &'a Script,
        conditions: Conditions,
        number: u32,
        length: u32,
    ) -> Result<Option<RunResult>, NoMemory>
        requires script { IsTrue (is_script script.now) }
        requires forks { AreOf script.now conditions.budget conditions.shape self.old }
        ensures tells { IfOk result (λ found.
            IfSome found (TellsRunIn script.now conditions.budget conditions.shape length)) }
        ensures forks { OnOk result (AreOf script.now conditions.budget conditions.shape self.new) }
    {
        let mut run = self.fork_at(script, conditions, number)?;
        if !self.follow(&mut run, number, length)? {
            self.give_up(run)?;
            return Ok(None);
        }
        let found = self.finish(run, length)?;
        Ok(found)
    }

    /// Makes the run in a heap of this length, in bytes, which is shorter than the heap of the last run. `None` if it is to be made as a
    /// whole run.
    pub fn run(
        &mut self,
        script: &'a Script,
        conditions: Conditions,
        length: u32,
    ) -> Result<Option<RunResult>, NoMemory>
        requires script { IsTrue (is_script script.now) }
        requires forks { AreOf script.now conditions.budget conditions.shape self.old }
        ensures tells { IfOk result (λ found.
            IfSome found (TellsRunIn script.now conditions.budget conditions.shape length)) }
        ensures forks { OnOk result (AreOf script.now conditions.budget conditions.shape self.new) }
    {
        let Some(number) = self.parting.take() else {
            return Ok(None);
        };
        let found = self.run_from(script, conditions, number, length)?;
        if found.is_none() {
            self.whole_runs = 0;
        }
        Ok(found)
    }
}
