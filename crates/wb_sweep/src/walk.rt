//! A walk along a run from which copies part. Each copy goes on under a failure, and parts from the run before the first attempt that this
//! failure makes fail.

ghost use Rattle.std.specs.Prelude.{◌≡◌, ◌≢◌, ℕ, ◌⊎◌, ◌+◌, ◌≤◌, None, true, false, length, IfOk, IfErr, IfSome};
ghost use Rattle.wb_meaning.specs.Run.{is_bad};
ghost use Rattle.wb_runs.specs.Sweeps.{failing_at, is_cut_outcome, is_fine, rule_of};
ghost use Rattle.wb_meaning.specs.declared.run.Outcome.TheVariants as outcomes;
ghost use Rattle.wb_meaning.specs.declared.run.RunResult.{RunResult};
ghost use Rattle.wb_meaning.specs.declared.run.Why.{Why};
ghost use Rattle.wb_sweep.specs.Beside.{next_failing, next_run, runs_beside};
ghost use Rattle.wb_sweep.specs.Meetings.{FineSays, IsScout};
ghost use Rattle.wb_sweep.specs.Stretches.{AreFineFrom, IsCutFrom, IsFoundFrom};
ghost use Rattle.wb_sweep.specs.Sweeping.{IsBadAt, IsNumbered};

use crate::fault::Unswept;
use crate::followed::{Forked, follow_beside_fine};
use crate::found::Found;
use crate::scout::{Meeting, Scout};
use wb_heap_model::heap::Attempt;
use wb_machine::{Heap, Machine};
use wb_meaning::run::{Outcome, RunResult, Why};
use wb_runs::failures::{Failing, Failures};
use wb_runs::progress::Progress;

/// Judges the run under a failure. Returns the failure and the run if the run is bad, `Cut` if the run is cut, and `None` if the run is
/// fine. A run that only leaves is fine, and so is a run that gets no cleanup stack.
pub(crate) fn judge_run(at: Failing, run_result: RunResult) -> Result<Option<Found>, Unswept>
    ensures fine { IfOk result (λ found. found ≡ None → is_fine run_result ≡ true) }
    ensures bad { IfOk result (λ found. IfSome found (IsBadAt at run_result)) }
    ensures uncut { IfOk result (λ found. is_cut_outcome run_result.outcome ≡ false) }
    ensures cut { IfErr result (λ fault.
        (why : Why) × (fault ≡ Unswept.Cut at why) × (run_result.outcome ≡ outcomes.Cut why)) }
{
    let is_bad = match &run_result.outcome {
        Outcome::Ended { leaks, .. } => leaks.len() > 0,
        Outcome::Panicked(_) => true,
        Outcome::NoCleanup => false,
        Outcome::Cut(why) => return Err(Unswept::Cut { at, why: *why }),
    };
    Ok(is_bad.then_some(Found {
        at,
        result: run_result,
    }))
}

/// Judges the run of a fork. Returns whether the run is bad, and `Cut` if the run is cut. The fork is a copy of a run that is fine. So if
/// the fork met the scout, the fork's run is fine too, unless the budget cuts it.
fn judge_fork(at: Failing, forked: &Forked) -> Result<bool, Unswept>
    ensures fine { IfOk result (λ is_judged_bad. is_judged_bad ≡ false →
        (run_result : RunResult) → FineSays forked.now run_result → is_fine run_result ≡ true) }
    ensures bad { IfOk result (λ is_judged_bad. is_judged_bad ≡ true →
        (run_result : RunResult) → FineSays forked.now run_result → is_bad run_result ≡ true) }
    ensures cut { IfErr result (λ fault. (why : Why) × (fault ≡ Unswept.Cut at why)
        × ((run_result : RunResult) → FineSays forked.now run_result →
        run_result.outcome ≡ outcomes.Cut why)) }
{
    match forked {
        Forked::Met(Meeting::Alike) => Ok(false),
        Forked::Met(Meeting::PastBudget) => Err(Unswept::Cut {
            at,
            why: Why::Budget,
        }),
        Forked::Ran(Outcome::Ended { leaks, .. }) => Ok(leaks.len() > 0),
        Forked::Ran(Outcome::Panicked(_)) => Ok(true),
        Forked::Ran(Outcome::NoCleanup) => Ok(false),
        Forked::Ran(Outcome::Cut(why)) => Err(Unswept::Cut { at, why: *why }),
    }
}

/// How many attempts a trace has: the number of its last attempt.
pub(crate) fn attempts_in(trace: &[Attempt]) -> u32
    requires { IsNumbered trace.now }
    ensures { result ≡ length trace.now }
{
    match trace.last() {
        Some(attempt) => attempt.number,
        None => 0,
    }
}

/// Judges the run in which `number`, the attempt that the lead makes next, is the first attempt to fail. Returns the run if it is bad.
/// Returns `None` if the run is fine, if the lead's next turn makes no attempt, or if `number` is less than `from`. A fork follows the run
/// until it meets the scout, if there is a scout. The fork takes the spare memory, and leaves its own memory as spare. If the run is bad,
/// it is made once more from its first attempt, since a fork keeps no trace.
fn try_next<P: Progress>(
    lead: &Machine,
    failures: Failures,
    from: u32,
    number: u32,
    scout: &mut Option<Scout>,
    spare: &mut Option<Heap>,
    progress: &mut P,
) -> Result<Option<Found>, Unswept>
    requires number { number ≡ lead.now.attempts + 1 }
    requires rule { lead.now.rule ≡ rule_of failures 0 }
    requires scout { IfSome scout.old
        (IsScout failures lead.now.script lead.now.budget lead.now.shape) }
    ensures scout { IfOk result (λ found. found ≡ None → IfSome scout.new
        (IsScout failures lead.now.script lead.now.budget lead.now.shape)) }
    ensures fine { IfOk result (λ found. found ≡ None → lead.now.asks ≡ true → from ≤ number →
        is_fine (next_run failures lead.now) ≡ true) }
    ensures bad { IfOk result (λ found. IfSome found (λ bad. (from ≤ number)
        × IsBadAt (next_failing failures lead.now) (next_run failures lead.now) bad)) }
    ensures cut { IfErr result (λ fault. (fault ≡ Unswept.NoMemory) ⊎ ((why : Why) ×
        (from ≤ number) × (fault ≡ Unswept.Cut (next_failing failures lead.now) why)
        × ((next_run failures lead.now).outcome ≡ outcomes.Cut why))) }
{
    if number < from {
        return Ok(None);
    }
    if !lead.will_attempt() {
        return Ok(None);
    }
    progress.begin_failure(&failures.at(number));
    let forked = follow_beside_fine(lead, failures, number, scout, spare)?;
    let is_bad = judge_fork(failures.at(number), &forked)?;
    if !is_bad {
        return Ok(None);
    }
    let result = lead.run_another(failures.at(number).rule())?;
    Ok(Some(Found {
        at: failures.at(number),
        result,
    }))
}

/// Finds the least failure whose run is bad, of the failures that are tried as the numbers from `from` to `last`. Returns `None` if the run
/// of each of these failures is fine. `last` is no greater than the last attempt of the run without failure, and the lead is this run. The
/// runs under the numbers from `from` to the last attempt that the lead has made are known to be fine, and numbers less than `from` aren't
/// tried. Each fork is followed until it meets the scout, if there is a scout, and takes the memory of the fork before it.
pub(crate) fn find_among<P: Progress>(
    lead: &mut Machine,
    failures: Failures,
    from: u32,
    last: u32,
    scout: &mut Option<Scout>,
    progress: &mut P,
) -> Result<Option<Found>, Unswept>
    requires rule { lead.old.rule ≡ rule_of failures 0 }
    requires first { lead.old.begun ≡ false → lead.old.steps ≡ 0 }
    requires within { lead.old.steps ≤ lead.old.budget }
    requires well { lead.old.failed ≡ false }
    requires last { last ≤ length (runs_beside failures lead.old 0).trace }
    requires scout { IfSome scout.old
        (IsScout failures lead.old.script lead.old.budget lead.old.shape) }
    requires fine { AreFineFrom (runs_beside failures lead.old) from (lead.old.attempts + 1) }
    ensures fine { IfOk result (λ found. found ≡ None →
        AreFineFrom (runs_beside failures lead.old) from (last + 1)) }
    ensures found { IfOk result (λ found. IfSome found (λ bad.
        IsFoundFrom (failing_at failures) from
        last lead.old.script lead.old.budget lead.old.shape bad.at bad.result)) }
    ensures cut { (at : Failing) (why : Why) → result ≡ Err (Unswept.Cut at why) →
        IsCutFrom (failing_at failures) from last lead.old.script lead.old.budget lead.old.shape at
        why }
    ensures known { (fine : ℕ) → result ≢ Err (Unswept.ManyStates fine) }
{
    let mut spare = None;
    while lead.attempts() < last {
        let number = lead.attempts() + 1;
        let found = try_next(lead, failures, from, number, scout, &mut spare, progress)?;
        if found.is_some() {
            return Ok(found);
        }
        lead.step()?;
    }
    Ok(None)
}
