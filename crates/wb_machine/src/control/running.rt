//! How a run takes one machine turn, or all machine turns that are left.

ghost use Rattle.std.specs.Prelude.{◌≡◌, ◌+◌, ◌<◌, ◌≤◌, ◌&&◌, ℕ, true, false, if◌then◌else◌};
ghost use Rattle.std.specs.Prelude.{nat_lt, unwrap_or, min, IsTrue, OnOk};
ghost use Rattle.wb_tree.specs.Sound.{is_script};
ghost use Rattle.wb_meaning.specs.Rest.{first_line};
ghost use Rattle.wb_heap_model.specs.SameRules.{Fits};
ghost use Rattle.wb_heap_model.specs.declared.heap.Rule.{Rule};
ghost use Rattle.wb_meaning.specs.declared.run.Why.TheVariants.{Budget};
ghost use Rattle.wb_tree.specs.declared.script.Script.{Script};
ghost use Rattle.wb_machine.specs.declared.pieces.Ending.TheVariants.{Cut};
ghost use Rattle.wb_machine.specs.BetweenTurns.{IsBetweenTurns, KeepsSetting};
ghost use Rattle.wb_machine.specs.RunState.{RunState, state_of};
ghost use Rattle.wb_machine.specs.Flow.{pending_in, is_over, has_met_ceiling, progress_of};
ghost use Rattle.wb_machine.specs.Flow.{IsReady, rest_from, rest_at};
ghost use Rattle.wb_machine.specs.Asks.{asks_next, MakesAsked};
ghost use Rattle.wb_machine.specs.Owed.{Stays};

use crate::control::Control;
use crate::pieces::Ending;
use crate::state::State;
use wb_basics::limits::LARGEST_BUDGET;
use wb_basics::memory::NoMemory;
use wb_meaning::progress::StepProgress;
use wb_meaning::run::Why;
use wb_tree::script::Script;

/// Progress is reported each time the number of steps taken is a multiple of this number.
const STEPS_BETWEEN_REPORTS: u32 = 4_096;

impl<'a> Control<'a> {
    /// Cuts the run at the budget.
    pub fn cut(&mut self)
        requires { IsReady self.old.ending self.old.pieces.items }
        ensures kept { (script : Script) (r : Rule) (budget : ℕ) (h : RunState) → h.steps ≡ budget →
            rest_from script budget r self.new.ending self.new.pieces.items h
            ≡ rest_from script budget r self.old.ending self.old.pieces.items h }
        ensures pieces { self.new.pieces.items ≡ self.old.pieces.items }
        ensures ending { self.new.ending ≡ Cut Budget }
        ensures line { self.new.line ≡ self.old.line }
    {
        self.ending = Ending::Cut(Why::Budget);
    }

    /// Takes a machine turn. The first turn begins the run. Any other turn takes a step, or cuts the run if the budget is used up. Pieces
    /// that are done after the turn are taken off at once. A turn that asks for an attempt makes one, unless the ceiling cuts the run; no
    /// other turn makes an attempt.
    #[inline(always)]
    pub fn turn(
        &mut self,
        script: &'a Script,
        budget: u32,
        begun: bool,
        state: &mut State,
    ) -> Result<(), NoMemory>
        requires script { IsTrue (is_script script.now) }
        requires small { budget ≤ LARGEST_BUDGET }
        requires later { begun ≡ true → IsReady self.old.ending self.old.pieces.items }
        requires between { IsBetweenTurns script.now budget begun self.old.ending
            self.old.pieces.items state.old }
        ensures kept { OnOk result ((r : Rule) →
            Fits r state.old.debug.rule (is_over self.new.ending self.new.pieces.items)
            state.new.debug.attempts →
            rest_from script.now budget r self.new.ending self.new.pieces.items state.new
            ≡ rest_at script.now budget r begun self.old.ending self.old.pieces.items state.old) }
        ensures between { OnOk result (IsBetweenTurns script.now budget true self.new.ending
            self.new.pieces.items state.new) }
        ensures stays { Stays state.old state.new }
        ensures first { OnOk result (begun ≡ false →
            (state.new.steps ≡ 0) × (state.new.debug.attempts ≡ 1)) }
        ensures asked { OnOk result (MakesAsked (asks_next script.now budget
            (progress_of begun self.old.ending (pending_in state.old.callers self.old.pieces.items)
            (state_of script.now state.old))) (has_met_ceiling self.new.ending)
            state.old.debug.attempts state.new.debug.attempts) }
        ensures later { OnOk result (begun ≡ true →
            state.new.steps ≡ min (state.old.steps + 1) budget) }
        ensures steps { OnOk result (begun ≡ true →
            is_over self.new.ending self.new.pieces.items ≡ false →
            state.new.steps ≡ state.old.steps + 1) }
        ensures line { OnOk result (self.new.line
            ≡ (if begun && nat_lt state.old.steps budget
            then unwrap_or (first_line (pending_in state.old.callers self.old.pieces.items))
            self.old.line else self.old.line)) }
    {
        if !begun {
            self.begin(script, state)?;
        } else if state.steps() < budget {
            self.step(script, state)?;
        } else {
            self.cut();
        }
        self.settle(state)?;
        Ok(())
    }

    /// Takes machine turns, each with `turn`, until the run is over. `progress` is notified of the steps taken.
    pub fn take_all_turns<P: StepProgress>(
        &mut self,
        script: &'a Script,
        budget: u32,
        state: &mut State,
        progress: &mut P,
    ) -> Result<(), NoMemory>
        requires script { IsTrue (is_script script.now) }
        requires small { budget ≤ LARGEST_BUDGET }
        requires between { IsBetweenTurns script.now budget true self.old.ending
            self.old.pieces.items state.old }
        ensures kept { OnOk result ((r : Rule) →
            Fits r state.old.debug.rule true state.new.debug.attempts →
            rest_from script.now budget r self.new.ending self.new.pieces.items state.new
            ≡ rest_from script.now budget r self.old.ending self.old.pieces.items state.old) }
        ensures over { OnOk result (is_over self.new.ending self.new.pieces.items ≡ true) }
        ensures between { OnOk result (IsBetweenTurns script.now budget true self.new.ending
            self.new.pieces.items state.new) }
        ensures setting { KeepsSetting state.old state.new }
    {
        while !self.is_over() {
            self.turn(script, budget, true, state)?;
            report_steps(progress, state.steps());
        }
        Ok(())
    }
}

/// Notifies `progress` of the number of steps taken if this number is a multiple of `STEPS_BETWEEN_REPORTS`.
#[inline(always)]
fn report_steps<P: StepProgress>(progress: &mut P, steps: u32) {
    if steps % STEPS_BETWEEN_REPORTS == 0 {
        progress.take_steps(steps);
    }
}
