//! The machine that callers see, and whole runs. What a machine turn does is in the file `control`, and what remains of a run is in the
//! file `finished`.

ghost use Rattle.std.specs.Prelude.{◌≡◌, ◌+◌, ◌≤◌, true, false, length, is_err, IsTrue};
ghost use Rattle.std.specs.Prelude.{IfOk, IsOk, OnOk, OnErr};
ghost use Rattle.wb_tree.specs.Sound.{is_script};
ghost use Rattle.wb_heap_model.specs.SameRules.{SameSoFar};
ghost use Rattle.wb_heap_model.specs.Debug.{keeps_rises};
ghost use Rattle.wb_meaning.specs.Run.{rises_result_of, run};
ghost use Rattle.wb_heap_model.specs.declared.heap.Rule.TheVariants.{Unlimited};
ghost use Rattle.wb_machine.specs.Flow.{is_stop};
ghost use Rattle.wb_machine.specs.RunState.{first_state};
ghost use Rattle.wb_machine.specs.Seen.{seen_at_start};
ghost use Rattle.wb_machine.specs.Results.{leaks_at_end};
ghost use Rattle.wb_machine.specs.Turns.{IsSameRun, MakesMore, TurnLeaves};

use crate::control::Control;
use crate::pieces::Ending;
use crate::state::State;
use std::alloc::Global;
use std::marker::Model;
use wb_basics::items::Items;
use wb_basics::memory::NoMemory;
use wb_debug::Heap;
use wb_heap_model::heap::{Rule, Shape};
use wb_heap_model::reported::Leaks;
use wb_meaning::conditions::Conditions;
use wb_meaning::progress::StepProgress;
use wb_meaning::run::{RisesResult, RunResult};
use wb_tree::script::Script;

/// What a machine turn comes to.
#[derive(Clone, Copy, Debug, PartialEq, Eq)]
pub enum Turn {
    /// A further machine turn is to come.
    GoesOn,
    /// The run is over.
    Ended,
}

/// A run under way.
#[derive(Drop)]
pub struct Machine<'a> {
    pub(crate) alloc: Global,
    pub(crate) script: &'a Script,
    pub(crate) budget: u32,
    pub(crate) shape: Shape,
    pub(crate) begun: bool,
    pub(crate) control: Control<'a>,
    pub(crate) state: State,
    pub(crate) leaks: Leaks,
    pub(crate) failed: Option<NoMemory>,
}

impl<'a> Model for Machine<'a> {
    ghost use Rattle.wb_machine.specs.Seen.{Seen};
    ghost use Rattle.wb_tree.specs.contracts.script.Statement as e;
    ghost use Rattle.std.specs.Coded.{codes};

    ghost Value = { Seen };

    ghost coded = { Prim.hlevel (codes, e.the_row.coded) };

    ghost use Rattle.wb_machine.specs.Whole.{seen, IsMachine};

    ghost view = { seen };

    ghost invariant = { IsMachine };
}

impl<'a> Machine<'a> {
    /// A machine at the start of a run, before the run's first attempt. The machine keeps a trace: a line for each attempt.
    pub fn start(
        alloc: Global,
        script: &'a Script,
        rule: Rule,
        conditions: Conditions,
    ) -> Result<Machine<'a>, NoMemory>
        requires { IsTrue (is_script script.now) }
        ensures { IfOk result (λ m.
            m ≡ seen_at_start false script.now rule conditions.budget conditions.shape) }
    {
        let state = State::new(alloc, rule, conditions.shape)?;
        Ok(at_start(alloc, script, conditions, state))
    }

    /// A machine at the start of a run without a limit. The machine keeps no trace. Instead, it keeps the rises: the granted attempts whose
    /// cells end past the ends of all cells that were granted earlier.
    pub fn start_rises(
        alloc: Global,
        script: &'a Script,
        conditions: Conditions,
    ) -> Result<Machine<'a>, NoMemory>
        requires { IsTrue (is_script script.now) }
        ensures { IfOk result (λ m.
            m ≡ seen_at_start true script.now Unlimited conditions.budget conditions.shape) }
    {
        let state = State::new_rises(alloc, conditions.shape)?;
        Ok(at_start(alloc, script, conditions, state))
    }

    /// Takes the next turn.
    ///
    /// The first turn makes attempt 1, begins `main` if the attempt is granted, and counts no step. Each later turn counts a step and
    /// carries the step out, or cuts the run if the budget is used up. If blocks or bodies end right after a step, their ends belong to the
    /// step's turn. If `will_attempt` was true before a turn, the turn makes one attempt, unless the ceiling cuts the run. If
    /// `will_attempt` was false, the turn makes no attempt.
    ///
    /// Once the run is over, `step` returns `Ended` and changes nothing. Once the machine has returned `NoMemory`, each later call of
    /// `step` returns `NoMemory` too and changes nothing. Only the last turn of a run that ends normally or by a leave lists the leaks, and
    /// asks for memory for the list.
    pub fn step(&mut self) -> Result<Turn, NoMemory>
        ensures same { IsSameRun self.old self.new }
        ensures turned { IfOk result (λ turn. TurnLeaves turn self.old self.new) }
        ensures over { self.old.failed ≡ false → self.old.over ≡ true →
            (result ≡ Ok Turn.Ended) × (self.new ≡ self.old) }
        ensures fewer { self.old.attempts ≤ self.new.attempts }
        ensures more { self.new.attempts ≤ self.old.attempts + 1 }
        ensures failed { OnErr result (self.new.failed ≡ true) }
        ensures for_good { self.old.failed ≡ true → (is_err result ≡ true) × (self.new ≡ self.old) }
    {
        if let Some(error) = self.failed {
            return Err(error);
        }
        if self.begun && self.control.is_over() {
            return Ok(Turn::Ended);
        }
        let turned = self
            .control
            .turn(self.script, self.budget, self.begun, &mut self.state);
        if let Err(error) = turned {
            self.failed = Some(error);
            return Err(error);
        }
        self.begun = true;
        if !self.control.is_over() {
            return Ok(Turn::GoesOn);
        }
        if let Err(error) = list_leaks(&mut self.leaks, self.control.ending(), &self.state) {
            self.failed = Some(error);
            return Err(error);
        }
        Ok(Turn::Ended)
    }

    /// Copies the run into separate memory: changing the run or its copy doesn't change the other. Returns `NoMemory` if the workbench runs
    /// out of memory.
    pub fn try_copy(&self) -> Result<Machine<'a>, NoMemory>
        ensures { IfOk result (λ copy. copy ≡ self.now) }
    {
        self.try_copy_over(None)
    }

    /// Copies the run as `try_copy` does. If `spare` is given, the copy's heap takes the memory of `spare`, and what `spare` held is lost.
    pub fn try_copy_over(&self, spare: Option<Heap>) -> Result<Machine<'a>, NoMemory>
        ensures { IfOk result (λ copy. copy ≡ self.now) }
    {
        Ok(Machine {
            alloc: self.alloc,
            script: self.script,
            budget: self.budget,
            shape: self.shape,
            begun: self.begun,
            control: self.control.try_copy()?,
            state: self.state.try_copy_over(spare)?,
            leaks: self.leaks.try_copy()?,
            failed: self.failed,
        })
    }

    /// Continues the run under another rule. Neither the old rule nor the new rule may be a limit, and both rules must agree on which of
    /// the attempts made so far fail. So the run comes to the same result as a run that is under the new rule from the start.
    pub fn set_rule(&mut self, rule: Rule)
        requires same { SameSoFar rule self.old.rule self.old.attempts }
        requires going { self.old.over ≡ false }
        requires well { self.old.failed ≡ false }
        ensures { self.new ≡ record self.old { rule = rule } }
    {
        self.state.set_rule(rule);
    }

    /// Whether the next turn asks for an attempt, provided that the workbench doesn't run out of memory. A turn that asks for an attempt
    /// makes one attempt, unless the ceiling cuts the run. The first turn of a run asks for an attempt. A turn asks for no attempt if it
    /// cuts the run at the budget, or comes after the run is over or after `NoMemory`.
    pub fn will_attempt(&self) -> bool
        ensures asks { result ≡ self.now.asks }
        ensures going { result ≡ true → (self.now.over ≡ false) × (self.now.failed ≡ false) }
        ensures made { result ≡ true → MakesMore self.now }
    {
        if self.failed.is_some() {
            return false;
        }
        if !self.begun {
            return true;
        }
        self.state.steps() < self.budget && self.control.asks(self.script, &self.state)
    }

    /// How many attempts the run has made so far; once the run is over, how many it makes in all. An attempt at which the ceiling cuts the
    /// run isn't counted. Each attempt but the first is made in a step of its own, so a run makes at most one attempt more than the budget
    /// has steps.
    pub fn attempts(&self) -> u32
        ensures so_far { result ≡ self.now.attempts }
        ensures all { self.now.over ≡ true → self.now.failed ≡ false →
            result
            ≡ length (run self.now.script self.now.rule self.now.budget self.now.shape).trace }
        ensures few { self.now.failed ≡ false → result ≤ self.now.budget + 1 }
    {
        self.state.attempts()
    }

    /// The script line of the statement begun last; 0 before the first statement.
    pub fn line(&self) -> u32
        ensures { result ≡ self.now.line }
    {
        self.control.line()
    }

    /// Takes all turns that are left, each as `step` does. The run has begun and isn't over. `progress` is notified of the steps taken. If
    /// this function returns `NoMemory`, each later call of `step` returns `NoMemory` too.
    fn take_other_turns<P: StepProgress>(&mut self, progress: &mut P) -> Result<(), NoMemory>
        requires begun { self.old.begun ≡ true }
        requires going { self.old.over ≡ false }
        requires well { self.old.failed ≡ false }
        ensures same { IsSameRun self.old self.new }
        ensures over { OnOk result (self.new.over ≡ true) }
        ensures well { OnOk result (self.new.failed ≡ false) }
    {
        let taken = self
            .control
            .take_all_turns(self.script, self.budget, &mut self.state, progress);
        if let Err(error) = taken {
            self.failed = Some(error);
            return Err(error);
        }
        if let Err(error) = list_leaks(&mut self.leaks, self.control.ending(), &self.state) {
            self.failed = Some(error);
            return Err(error);
        }
        Ok(())
    }

    /// Takes all turns that are left; none if the run is over. `progress` is notified of the steps taken. If this function returns
    /// `NoMemory`, each later call that takes a turn returns `NoMemory` too. If the machine returned `NoMemory` before, no turn is taken.
    pub fn take_all_turns<P: StepProgress>(&mut self, progress: &mut P) -> Result<(), NoMemory>
        ensures same { IsSameRun self.old self.new }
        ensures over { OnOk result (self.new.over ≡ true) }
        ensures well { OnOk result (self.new.failed ≡ false) }
    {
        match self.step()? {
            Turn::GoesOn => self.take_other_turns(progress),
            Turn::Ended => Ok(()),
        }
    }
}

/// The machine at the start of a run, with a state in which nothing has been done yet.
fn at_start<'a>(
    alloc: Global,
    script: &'a Script,
    conditions: Conditions,
    state: State,
) -> Machine<'a>
    requires script { IsTrue (is_script script.now) }
    requires shape { conditions.shape ≡ state.debug.shape }
    requires start { state
        ≡ first_state (keeps_rises state.debug) state.debug.rule state.debug.shape }
    ensures { result ≡ seen_at_start (keeps_rises state.debug) script.now state.debug.rule
        conditions.budget state.debug.shape }
{
    Machine {
        alloc,
        script,
        budget: conditions.budget,
        shape: conditions.shape,
        begun: false,
        control: Control::new(alloc),
        state,
        leaks: Items::new(alloc),
        failed: None,
    }
}

/// Puts the list of the leaks into `leaks`, for a run with this ending. A run that was stopped by a panic, a cut or a failed attempt 1 has
/// no such list. In that case `leaks` stays as it was, and the function asks for no memory.
fn list_leaks(leaks: &mut Leaks, ending: Ending, state: &State) -> Result<(), NoMemory>
    ensures run_result { OnOk result (is_stop ending ≡ false → leaks.new ≡ leaks_at_end state.now) }
    ensures untold { is_stop ending ≡ true → (IsOk result) × (leaks.new ≡ leaks.old) }
{
    if !ending.is_stop() {
        *leaks = state.leaks()?;
    }
    Ok(())
}

/// Runs a script from the first attempt to the end of the run, or until the run is cut. `progress` is notified of the steps taken.
///
/// An `Ok` is exactly what the definitions say of the script, the rule and the conditions. A run that is cut gives an `Ok` too. The result's
/// trace has at most one line more than the budget has steps.
pub fn run_reporting<P: StepProgress>(
    alloc: Global,
    script: &Script,
    rule: Rule,
    conditions: Conditions,
    progress: &mut P,
) -> Result<RunResult, NoMemory>
    requires { IsTrue (is_script script.now) }
    ensures ran { IfOk result (λ run_result.
        run_result ≡ run script.now rule conditions.budget conditions.shape) }
    ensures few { IfOk result (λ run_result. length run_result.trace ≤ conditions.budget + 1) }
{
    let mut machine = Machine::start(alloc, script, rule, conditions)?;
    machine.take_all_turns(progress)?;
    Ok(machine.result())
}

/// Runs a script without a limit. Returns the run's result, which has the rises but no trace, and how many attempts the run makes. A rise
/// is a granted attempt whose cell ends past the ends of all cells that were granted earlier. Other attempts add nothing to what the run
/// keeps. `progress` is notified of the steps taken.
///
/// An `Ok` is exactly what the definitions say of the script and the conditions. A run that is cut gives an `Ok` too.
pub fn run_rises<P: StepProgress>(
    alloc: Global,
    script: &Script,
    conditions: Conditions,
    progress: &mut P,
) -> Result<(RisesResult, u32), NoMemory>
    requires { IsTrue (is_script script.now) }
    ensures ran { IfOk result (λ counted. counted.0
        ≡ rises_result_of (run script.now Unlimited conditions.budget conditions.shape)) }
    ensures attempts { IfOk result (λ counted. counted.1
        ≡ length (run script.now Unlimited conditions.budget conditions.shape).trace) }
{
    let mut machine = Machine::start_rises(alloc, script, conditions)?;
    machine.take_all_turns(progress)?;
    let attempts = machine.attempts();
    Ok((machine.rises_result(), attempts))
}
