//! What is known of a fork's run. A fork is followed until it meets the scout, a run that goes ahead, or until it ends. If there is no
//! scout, the fork is followed to its end.

ghost use Rattle.std.specs.Prelude.{◌≡◌, ◌+◌, None, false, IfOk, IfSome, OnOk};
ghost use Rattle.wb_machine.specs.Turns.{IsSameRun};
ghost use Rattle.wb_runs.specs.Sweeps.{rule_of};
ghost use Rattle.wb_sweep.specs.Beside.{next_run, runs_beside};
ghost use Rattle.wb_sweep.specs.Meetings.{is_met, FineSays, ForkedSays, IsAhead, IsScout};
ghost use Rattle.wb_sweep.specs.Meetings.{MeetingSays};

use crate::fork::{end_fork, fork_under};
use crate::scout::{Meeting, Scout};
use wb_basics::memory::NoMemory;
use wb_machine::{Heap, Machine};
use wb_meaning::run::Outcome;
use wb_runs::failures::Failures;

/// What is known of a fork's run.
#[derive(Debug, Drop)]
pub enum Forked {
    /// The fork has met the scout.
    Met(Meeting),
    /// The fork was followed to its end.
    Ran(Outcome),
}

/// Lets a fork meet the scout, and returns what follows for the fork; `None` if the two don't meet soon.
fn meet_one(
    scout: &mut Scout,
    fork: &mut Machine,
    failures: Failures,
    number: u32,
) -> Result<Option<Meeting>, NoMemory>
    requires scout { IsAhead failures fork.old.script fork.old.budget fork.old.shape scout.old }
    requires rule { fork.old.rule ≡ rule_of failures number }
    ensures scout { OnOk result
        (IsAhead failures fork.old.script fork.old.budget fork.old.shape scout.new) }
    ensures met { IfOk result (λ met. IfSome met (λ meeting.
        MeetingSays meeting
        (runs_beside failures fork.old 0) (runs_beside failures fork.old number))) }
    ensures same { IsSameRun fork.old fork.new }
{
    if !scout.meet(fork, failures, number)? {
        return Ok(None);
    }
    Ok(scout.meeting(fork, failures, number))
}

/// Lets a fork meet the scout, and returns what follows for the fork; `None` if there is no scout, or the two don't meet soon.
fn meet(
    scout: &mut Option<Scout>,
    fork: &mut Machine,
    failures: Failures,
    number: u32,
) -> Result<Option<Meeting>, NoMemory>
    requires scout { IfSome scout.old
        (IsAhead failures fork.old.script fork.old.budget fork.old.shape) }
    requires rule { fork.old.rule ≡ rule_of failures number }
    ensures scout { OnOk result (IfSome scout.new
        (IsAhead failures fork.old.script fork.old.budget fork.old.shape)) }
    ensures met { IfOk result (λ met. IfSome met (λ meeting.
        MeetingSays meeting
        (runs_beside failures fork.old 0) (runs_beside failures fork.old number))) }
    ensures none { OnOk result (scout.old ≡ None → scout.new ≡ None) }
    ensures unmet { IfOk result (λ met. scout.old ≡ None → met ≡ None) }
    ensures same { IsSameRun fork.old fork.new }
{
    match scout {
        Some(scout) => meet_one(scout, fork, failures, number),
        None => Ok(None),
    }
}

/// What is known of the run under the failure that is tried as `number`. The first attempt that this failure makes fail is `number`, which
/// the lead makes next. A copy of the lead goes on under this failure to its end, or until it meets the scout if there is a scout. The lead
/// stays as it is.
///
/// The copy takes the memory in `spare`, if there is any, and leaves its own memory in `spare`, except on `Err`.
pub fn follow_next(
    lead: &Machine,
    failures: Failures,
    number: u32,
    scout: &mut Option<Scout>,
    spare: &mut Option<Heap>,
) -> Result<Forked, NoMemory>
    requires number { number ≡ lead.now.attempts + 1 }
    requires rule { lead.now.rule ≡ rule_of failures 0 }
    requires going { lead.now.over ≡ false }
    requires well { lead.now.failed ≡ false }
    requires scout { IfSome scout.old
        (IsAhead failures lead.now.script lead.now.budget lead.now.shape) }
    ensures scout { OnOk result (IfSome scout.new
        (IsAhead failures lead.now.script lead.now.budget lead.now.shape)) }
    ensures none { OnOk result (scout.old ≡ None → scout.new ≡ None) }
    ensures known { IfOk result (λ forked.
        ForkedSays forked (runs_beside failures lead.now 0) (next_run failures lead.now)) }
    ensures unmet { IfOk result (λ forked. scout.old ≡ None → is_met forked ≡ false) }
{
    let mut fork = fork_under(lead, failures.at(number).rule(), spare)?;
    if let Some(meeting) = meet(scout, &mut fork, failures, number)? {
        *spare = Some(fork.into_heap());
        return Ok(Forked::Met(meeting));
    }
    Ok(Forked::Ran(end_fork(fork, spare)?))
}

/// Does what `follow_next` does, for a lead whose own run is fine. If a fork of this lead has met the scout, the fork's run is fine too,
/// unless the budget cuts it.
pub fn follow_beside_fine(
    lead: &Machine,
    failures: Failures,
    number: u32,
    scout: &mut Option<Scout>,
    spare: &mut Option<Heap>,
) -> Result<Forked, NoMemory>
    requires number { number ≡ lead.now.attempts + 1 }
    requires rule { lead.now.rule ≡ rule_of failures 0 }
    requires going { lead.now.over ≡ false }
    requires well { lead.now.failed ≡ false }
    requires scout { IfSome scout.old
        (IsScout failures lead.now.script lead.now.budget lead.now.shape) }
    ensures scout { OnOk result (IfSome scout.new
        (IsScout failures lead.now.script lead.now.budget lead.now.shape)) }
    ensures known { IfOk result (λ forked. FineSays forked (next_run failures lead.now)) }
{
    follow_next(lead, failures, number, scout, spare)
}
