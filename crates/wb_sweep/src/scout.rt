//! Scouts, and forks that meet them. A scout is a run that goes ahead of a lead, and a fork is a copy of this lead under a failure. If a
//! fork comes to the same state as the scout, except for allocation numbers, the rest of the fork's run is like the rest of the scout's.
//! This file doesn't decide which failures are tried, or what is found.

ghost use Rattle.std.specs.Prelude.{◌≡◌, ◌≤◌, true, false, Some, IfOk, IfSome, OnOk};
ghost use Rattle.wb_machine.specs.Turns.{IsSameRun};
ghost use Rattle.wb_runs.specs.Sweeps.{rule_of};
ghost use Rattle.wb_sweep.specs.Beside.{runs_beside};
ghost use Rattle.wb_sweep.specs.Meetings.{last_failing, IsAhead, IsPastFailure, HasMet, MeetingSays};

use crate::pace::Pace;
use wb_basics::memory::NoMemory;
use wb_machine::{Machine, Turn};
use wb_runs::failures::Failures;

/// The most times that a scout goes ahead to meet one fork.
const MOST_TIMES: u32 = 5;

/// Where a fork is after it was followed.
#[derive(Clone, Copy, Debug, PartialEq, Eq)]
pub enum Place {
    /// Where the scout is.
    AtTheScout,
    /// Past the scout.
    PastTheScout,
    /// At the end of its run.
    AtTheEnd,
}

/// What follows for a fork that has met the scout.
#[derive(Clone, Copy, Debug, PartialEq, Eq)]
pub enum Meeting {
    /// The fork's run ends as the scout's run does.
    Alike,
    /// The budget cuts the fork's run: it allows the fork fewer further steps than the scout's run takes after the meeting.
    PastBudget,
}

/// A run that goes ahead of a lead, under the lead's rule. The scout's run isn't cut.
#[derive(Drop)]
pub struct Scout<'a> {
    pub(crate) machine: Machine<'a>,
    /// How many steps the scout's whole run takes.
    pub(crate) steps: u32,
    /// The greatest number of steps that a run may take.
    pub(crate) budget: u32,
    pub(crate) pace: Pace,
}

impl<'a> Scout<'a> {
    /// A scout that is still where the lead is. The scout's whole run takes `steps` steps.
    pub fn beside(lead: &Machine<'a>, steps: u32, budget: u32) -> Result<Scout<'a>, NoMemory>
        ensures machine { IfOk result (λ scout. scout.machine ≡ lead.now) }
        ensures steps { IfOk result (λ scout. scout.steps ≡ steps) }
        ensures budget { IfOk result (λ scout. scout.budget ≡ budget) }
    {
        Ok(Scout {
            machine: lead.try_copy()?,
            steps,
            budget,
            pace: Pace::new(),
        })
    }

    /// Takes the scout's turns until at least `attempts` attempts are made and the next turn asks for an attempt, or until the run ends. A
    /// run takes at most two turns more than its budget has steps: the first turn counts no step, and the last turn may cut the run.
    pub fn go_ahead(&mut self, attempts: u32) -> Result<(), NoMemory>
        ensures same { IsSameRun self.old.machine self.new.machine }
        ensures steps { self.new.steps ≡ self.old.steps }
        ensures budget { self.new.budget ≡ self.old.budget }
    {
        for _ in 0..self.budget.saturating_add(2) {
            if self.machine.attempts() >= attempts && self.machine.will_attempt() {
                return Ok(());
            }
            if self.machine.step()? == Turn::Ended {
                return Ok(());
            }
        }
        Ok(())
    }

    /// Whether a fork has come to the same state as the scout, except for allocation numbers. The fork goes along the run under the failure
    /// that is tried as `number`. The result is `true` only if both runs are about to make an attempt, and both are past the last attempt
    /// that their own rules make fail.
    pub fn is_met_by(&self, fork: &Machine, failures: Failures, number: u32) -> bool
        requires script { self.now.machine.script ≡ fork.now.script }
        ensures { result ≡ true → HasMet failures number fork.now self.now.machine }
    {
        if !fork.is_at_line_of(&self.machine) {
            return false;
        }
        if !fork.will_attempt() || !self.machine.will_attempt() {
            return false;
        }
        has_passed(failures, number, fork)
            && has_passed(failures, 0, &self.machine)
            && fork.goes_on_like(&self.machine, number.saturating_sub(1))
    }

    /// What follows for a fork that has met the scout; `None` if a sum of steps overflows.
    pub fn meeting(&self, fork: &Machine, failures: Failures, number: u32) -> Option<Meeting>
        requires met { HasMet failures number fork.now self.now.machine }
        requires scout { IsAhead failures fork.now.script fork.now.budget fork.now.shape self.now }
        requires rule { fork.now.rule ≡ rule_of failures number }
        ensures { IfSome result (λ meeting. MeetingSays meeting
            (runs_beside failures fork.now 0) (runs_beside failures fork.now number)) }
    {
        let needed = self.steps.checked_add(fork.steps())?;
        let allowed = self.budget.checked_add(self.machine.steps())?;
        if needed > allowed {
            return Some(Meeting::PastBudget);
        }
        Some(Meeting::Alike)
    }

    /// The scout goes ahead as far as its pace says. Then the fork takes turns until it meets the scout, has passed the scout, or is at its
    /// end. Returns where the fork is then.
    fn go_and_follow(
        &mut self,
        fork: &mut Machine,
        failures: Failures,
        number: u32,
    ) -> Result<Place, NoMemory>
        requires script { self.old.machine.script ≡ fork.old.script }
        ensures met { OnOk result (result ≡ Ok Place.AtTheScout →
            HasMet failures number fork.new self.new.machine) }
        ensures same { IsSameRun fork.old fork.new }
        ensures machine { IsSameRun self.old.machine self.new.machine }
        ensures steps { self.new.steps ≡ self.old.steps }
        ensures budget { self.new.budget ≡ self.old.budget }
    {
        let attempts = number.saturating_add(self.pace.ahead());
        self.go_ahead(attempts)?;
        follow(fork, self, failures, number)
    }

    /// Steps the fork until it meets the scout, and returns whether they met. They don't meet if the fork comes to its end, or if it has
    /// passed the scout too often. The scout goes ahead first, and goes further ahead each time that the fork has passed it.
    fn go_to_meet(
        &mut self,
        fork: &mut Machine,
        failures: Failures,
        number: u32,
    ) -> Result<bool, NoMemory>
        requires script { self.old.machine.script ≡ fork.old.script }
        ensures met { OnOk result (result ≡ Ok true →
            HasMet failures number fork.new self.new.machine) }
        ensures same { IsSameRun fork.old fork.new }
        ensures machine { IsSameRun self.old.machine self.new.machine }
        ensures steps { self.new.steps ≡ self.old.steps }
        ensures budget { self.new.budget ≡ self.old.budget }
    {
        let at_first = self.pace.ahead();
        for _ in 0..MOST_TIMES {
            match self.go_and_follow(fork, failures, number)? {
                Place::AtTheScout => return Ok(true),
                Place::AtTheEnd => return Ok(false),
                Place::PastTheScout => {}
            }
            if !self.pace.go_further(at_first) {
                return Ok(false);
            }
        }
        Ok(false)
    }

    /// Does what `go_to_meet` does, unless the pace lets this fork pass without being compared. Returns `false` for a fork that passes.
    pub fn meet(
        &mut self,
        fork: &mut Machine,
        failures: Failures,
        number: u32,
    ) -> Result<bool, NoMemory>
        requires script { self.old.machine.script ≡ fork.old.script }
        ensures met { OnOk result (result ≡ Ok true →
            HasMet failures number fork.new self.new.machine) }
        ensures same { IsSameRun fork.old fork.new }
        ensures machine { IsSameRun self.old.machine self.new.machine }
        ensures steps { self.new.steps ≡ self.old.steps }
        ensures budget { self.new.budget ≡ self.old.budget }
    {
        if self.pace.passes_next() {
            return Ok(false);
        }
        let met = self.go_to_meet(fork, failures, number)?;
        self.pace.add(met);
        Ok(met)
    }
}

/// The last attempt that fails under the failure that is tried as `n`. The result is `None` for rates, and for failures that make all
/// attempts from some attempt on fail, because these failures have no last attempt.
fn last_failing(failures: Failures, n: u32) -> Option<u32>
    ensures { result ≡ last_failing failures n }
{
    match failures {
        Failures::Single | Failures::Pairs => Some(n),
        Failures::Every | Failures::Persistent => None,
    }
}

/// Whether a run is past the last attempt that fails under the failure that is tried as `number`.
fn has_passed(failures: Failures, number: u32, machine: &Machine) -> bool
    ensures { result ≡ true → IsPastFailure failures number machine.now.attempts }
{
    match last_failing(failures, number) {
        Some(last) => last <= machine.attempts(),
        None => false,
    }
}

/// Takes a fork's turns until the fork meets the scout, has passed the scout, or is at its end.
fn follow(
    fork: &mut Machine,
    scout: &Scout,
    failures: Failures,
    number: u32,
) -> Result<Place, NoMemory>
    requires script { scout.now.machine.script ≡ fork.old.script }
    ensures met { OnOk result (result ≡ Ok Place.AtTheScout →
        HasMet failures number fork.new scout.now.machine) }
    ensures same { IsSameRun fork.old fork.new }
{
    let most = scout.machine.attempts().saturating_add(scout.pace.past());
    for _ in 0..scout.budget.saturating_add(2) {
        if fork.attempts() > most {
            return Ok(Place::PastTheScout);
        }
        if scout.is_met_by(fork, failures, number) {
            return Ok(Place::AtTheScout);
        }
        if fork.step()? == Turn::Ended {
            return Ok(Place::AtTheEnd);
        }
    }
    Ok(Place::AtTheEnd)
}

/// A scout that starts where the lead is, and goes along the run without failure. This run takes `steps` steps. The result is `None` if
/// `steps` is `None`, or if failures of this kind have no last attempt that fails.
pub fn scout_beside<'a>(
    lead: &Machine<'a>,
    failures: Failures,
    steps: Option<u32>,
    budget: u32,
) -> Result<Option<Scout<'a>>, NoMemory>
    ensures { IfOk result (λ scout. IfSome scout (λ s. (steps ≡ Some s.steps)
        × (s.machine ≡ lead.now) × (s.budget ≡ budget))) }
{
    if last_failing(failures, 0).is_none() {
        return Ok(None);
    }
    match steps {
        Some(steps) => Ok(Some(Scout::beside(lead, steps, budget)?)),
        None => Ok(None),
    }
}
