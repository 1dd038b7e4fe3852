//! A sweep over failures: one run without failure, and a run under each failure. Each run under a failure parts from the run without
//! failure at the first attempt that is to fail.

ghost use Rattle.std.specs.Prelude.{◌≡◌, ◌≢◌, ℕ, ◌+◌, ◌≤◌, ◌↔◌, None, false, true, IfErr, IfOk, IfSome};
ghost use Rattle.std.specs.Prelude.{IsTrue};
ghost use Rattle.wb_tree.specs.Sound.{is_script};
ghost use Rattle.wb_heap_model.specs.Space.{is_shape};
ghost use Rattle.wb_runs.specs.Parts.{last_attempt, IsCutIn, IsFoundIn, IsLeastCutIn, IsNoneIn, IsUncut};
ghost use Rattle.wb_runs.specs.SweepAnswers.{IsCutShort};
ghost use Rattle.wb_runs.specs.Sweeps.{is_cut_outcome, is_fine, rule_of, runs_of};
ghost use Rattle.wb_meaning.specs.declared.run.Outcome.TheVariants as outcomes;
ghost use Rattle.wb_meaning.specs.declared.run.Why.{Why};
ghost use Rattle.wb_sweep.specs.Meetings.{IsFineRun, IsScout};
ghost use Rattle.wb_sweep.specs.Stretches.{AreNumbersFine};
ghost use Rattle.wb_sweep.specs.Sweeping.{IsBadAt, IsSweep, IsSweepIn};

use crate::fault::{SweepFault, Unswept};
use crate::found::{Found, Sweep};
use crate::lead::lead_under;
use crate::pairs::find_pair;
use crate::scout::{Scout, scout_beside};
use crate::walk::{attempts_in, find_among, judge_run};
use std::alloc::Global;
use wb_basics::limits::LARGEST_BUDGET;
use wb_heap_model::heap::Shape;
use wb_machine::{Machine, run_reporting};
use wb_meaning::conditions::Conditions;
use wb_meaning::run::RunResult;
use wb_runs::failures::{Failing, Failures};
use wb_runs::part::Part;
use wb_runs::progress::{Aim, Progress};
use wb_runs::run_end::is_fine;
use wb_tree::script::Script;

/// All numbers that an attempt can have.
pub(crate) const ALL: Part = Part {
    from: 0,
    to: u32::MAX,
};

/// Judges the run without failure. Returns `Cut` if the run is cut, and the run if it is bad and the part has number 0. Returns `None` if
/// the run is fine, or if it is bad but the part doesn't have number 0.
fn judge_first(part: Part, at: Failing, first: RunResult) -> Result<Option<Found>, Unswept>
    ensures fine { IfOk result (λ found. found ≡ None → part.from ≡ 0 → is_fine first ≡ true) }
    ensures bad { IfOk result (λ found. IfSome found (λ bad.
        (part.from ≡ 0) × IsBadAt at first bad)) }
    ensures uncut { IfOk result (λ found. is_cut_outcome first.outcome ≡ false) }
    ensures cut { IfErr result (λ fault.
        (why : Why) × (fault ≡ Unswept.Cut at why) × (first.outcome ≡ outcomes.Cut why)) }
{
    let found = judge_run(at, first)?;
    if part.from > 0 {
        return Ok(None);
    }
    Ok(found)
}

/// How many steps a run takes, if it is fine; `None` if it is bad or cut.
fn steps_if_fine(run_result: &RunResult) -> Option<u32>
    ensures { IfSome result (IsFineRun run_result.now) }
{
    is_fine(&run_result.outcome).then_some(run_result.steps)
}

/// Tries the failures of a part, number by number; if they are pairs, tries the single failures instead. Returns the least failure whose
/// run is bad, or `None` if the run of each tried failure is fine. The lead is at the start of the run without failure. The run without
/// failure isn't cut, is fine if the part has number 0, and makes `last` attempts.
fn try_in_order<P: Progress>(
    lead: &mut Machine,
    failures: Failures,
    part: Part,
    last: u32,
    scout: &mut Option<Scout>,
    progress: &mut P,
) -> Result<Option<Found>, Unswept>
    requires rule { lead.old.rule ≡ rule_of failures 0 }
    requires start { (lead.old.begun ≡ false) × (lead.old.attempts ≡ 0) × (lead.old.steps ≡ 0) }
    requires well { lead.old.failed ≡ false }
    requires uncut { IsUncut failures lead.old.script lead.old.budget lead.old.shape }
    requires fine { part.from ≡ 0 →
        is_fine (runs_of failures lead.old.script lead.old.budget lead.old.shape 0) ≡ true }
    requires last { last ≡ last_attempt failures lead.old.script lead.old.budget lead.old.shape }
    requires scout { IfSome scout.old
        (IsScout failures lead.old.script lead.old.budget lead.old.shape) }
    ensures fine { IfOk result (λ found. found ≡ None →
        AreNumbersFine (runs_of failures lead.old.script lead.old.budget lead.old.shape) part
        (last_attempt failures lead.old.script lead.old.budget lead.old.shape)) }
    ensures found { IfOk result (λ found. IfSome found (λ bad.
        IsFoundIn failures part lead.old.script lead.old.budget lead.old.shape bad.at bad.result)) }
    ensures cut { (at : Failing) (why : Why) → result ≡ Err (Unswept.Cut at why) →
        IsLeastCutIn failures part lead.old.script lead.old.budget lead.old.shape at why }
    ensures known { (fine : ℕ) → result ≢ Err (Unswept.ManyStates fine) }
{
    find_among(
        lead,
        failures,
        part.from,
        part.to.min(last),
        scout,
        progress,
    )
}

/// Does what `try_in_order` does, but makes the lead itself. If `steps` is given, the run without failure is fine and takes `steps` steps.
fn try_numbers<P: Progress>(
    alloc: Global,
    script: &Script,
    failures: Failures,
    part: Part,
    conditions: Conditions,
    last: u32,
    steps: Option<u32>,
    progress: &mut P,
) -> Result<Option<Found>, Unswept>
    requires script { IsTrue (is_script script.now) }
    requires uncut { IsUncut failures script.now conditions.budget conditions.shape }
    requires fine { part.from ≡ 0 →
        is_fine (runs_of failures script.now conditions.budget conditions.shape 0) ≡ true }
    requires last { last ≡ last_attempt failures script.now conditions.budget conditions.shape }
    requires steps { IfSome steps
        (IsFineRun (runs_of failures script.now conditions.budget conditions.shape 0)) }
    ensures fine { IfOk result (λ found. found ≡ None →
        AreNumbersFine (runs_of failures script.now conditions.budget conditions.shape) part
        (last_attempt failures script.now conditions.budget conditions.shape)) }
    ensures found { IfOk result (λ found. IfSome found (λ bad.
        IsFoundIn failures part script.now conditions.budget conditions.shape bad.at bad.result)) }
    ensures cut { (at : Failing) (why : Why) → result ≡ Err (Unswept.Cut at why) →
        IsLeastCutIn failures part script.now conditions.budget conditions.shape at why }
    ensures known { (fine : ℕ) → result ≢ Err (Unswept.ManyStates fine) }
{
    let mut lead = lead_under(alloc, script, failures.at(0).rule(), conditions)?;
    let mut scout = scout_beside(&lead, failures, steps, conditions.budget)?;
    try_in_order(&mut lead, failures, part, last, &mut scout, progress)
}

/// Finds the least failure whose run is bad, of the failures of a part; returns `None` if there is no such failure. The run without failure
/// isn't cut, is fine if the part has number 0, and makes `last` attempts. If `steps` is given, the run without failure is fine and takes
/// `steps` steps.
pub(crate) fn find_later<P: Progress>(
    alloc: Global,
    script: &Script,
    failures: Failures,
    part: Part,
    conditions: Conditions,
    last: u32,
    steps: Option<u32>,
    progress: &mut P,
) -> Result<Option<Found>, Unswept>
    requires script { IsTrue (is_script script.now) }
    requires uncut { IsUncut failures script.now conditions.budget conditions.shape }
    requires fine { part.from ≡ 0 →
        is_fine (runs_of failures script.now conditions.budget conditions.shape 0) ≡ true }
    requires last { last ≡ last_attempt failures script.now conditions.budget conditions.shape }
    requires steps { IfSome steps
        (IsFineRun (runs_of failures script.now conditions.budget conditions.shape 0)) }
    ensures none { IfOk result (λ found. found ≡ None →
        IsNoneIn failures part script.now conditions.budget conditions.shape) }
    ensures found { IfOk result (λ found. IfSome found (λ bad.
        IsFoundIn failures part script.now conditions.budget conditions.shape bad.at bad.result)) }
    ensures cut { (at : Failing) (why : Why) → result ≡ Err (Unswept.Cut at why) →
        IsLeastCutIn failures part script.now conditions.budget conditions.shape at why }
    ensures known { (fine : ℕ) → result ≢ Err (Unswept.ManyStates fine) }
{
    let found = try_numbers(
        alloc, script, failures, part, conditions, last, steps, progress,
    )?;
    if found.is_some() {
        return Ok(found);
    }
    match failures {
        Failures::Single => Ok(None),
        Failures::Every => Ok(None),
        Failures::Persistent => Ok(None),
        Failures::Pairs => find_pair(alloc, script, part, conditions, last, progress),
    }
}

/// Does the work of `sweep` and `sweep_part`, which notify `progress` of the sweep's beginning and end themselves.
pub(crate) fn find_least<P: Progress>(
    alloc: Global,
    script: &Script,
    failures: Failures,
    part: Part,
    conditions: Conditions,
    progress: &mut P,
) -> Result<Sweep, Unswept>
    requires script { IsTrue (is_script script.now) }
    ensures swept { IfOk result
        (IsSweepIn failures part script.now conditions.budget conditions.shape) }
    ensures cut { (at : Failing) (why : Why) → result ≡ Err (Unswept.Cut at why) →
        IsCutIn failures part script.now conditions.budget conditions.shape at why }
    ensures few { IfOk result (λ _.
        last_attempt failures script.now conditions.budget conditions.shape
        ≤ conditions.budget + 1) }
    ensures few_cut { (at : Failing) (why : Why) → result ≡ Err (Unswept.Cut at why) →
        last_attempt failures script.now conditions.budget conditions.shape
        ≤ conditions.budget + 1 }
    ensures known { (fine : ℕ) → result ≢ Err (Unswept.ManyStates fine) }
{
    let first = run_reporting(alloc, script, failures.at(0).rule(), conditions, progress)?;
    let attempts = attempts_in(first.trace.as_slice());
    let steps = steps_if_fine(&first);
    let none = failures.at(0);
    if let Some(found) = judge_first(part, none, first)? {
        return Ok(Sweep {
            attempts,
            found: Some(found),
        });
    }
    progress.begin_failures(part.from.max(1), part.to.min(attempts));
    match find_later(
        alloc, script, failures, part, conditions, attempts, steps, progress,
    ) {
        Ok(found) => Ok(Sweep { attempts, found }),
        Err(fault) => Err(fault),
    }
}

/// Finds the least failure whose run is bad. A failure is one attempt that fails, an attempt from which on all attempts fail, a rate at
/// which attempts fail, or a pair of attempts that fail. Number 0 and rate 0 stand for the run without failure.
///
/// Runs the script without failure. Then runs the script under the failures from 1 to the last attempt of that run. Stops at the first
/// failure whose run is bad or cut. The answer holds for all failures, even for failures past that last attempt. The run under a failure
/// goes on from the point at which the run without failure makes the first attempt that is to fail. The run under a failure is followed to
/// its end, or until it comes to the same state as the run without failure, except for allocation numbers. At most three runs are under way
/// at once. A bad run under a failure is made once more, from its first attempt, for its trace. If the failures are pairs and no single
/// number's run is bad or cut, pairs are tried, as `sweep_sets` tries the sets of two attempts. Pairs are in the order of their first
/// attempts, and pairs with the same first attempt are in the order of their second attempts. The second attempt is any attempt that the
/// run with the first failure makes after the first attempt. `Cut` names the least failure whose run is cut, if no lesser failure's run is
/// bad. `BadShape` is returned exactly if no heap may have the shape.
///
/// `progress` is notified when the sweep begins, before the run under each failure that is tried, and when the sweep is over. For pairs,
/// `progress` is notified as by `sweep_sets`.
pub fn sweep<P: Progress>(
    alloc: Global,
    script: &Script,
    failures: Failures,
    budget: u32,
    shape: Shape,
    progress: &mut P,
) -> Result<Sweep, SweepFault>
    requires script { IsTrue (is_script script.now) }
    requires least { 1 ≤ budget }
    requires greatest { budget ≤ LARGEST_BUDGET }
    ensures swept { IfOk result (IsSweep failures script.now budget shape) }
    ensures cut { (at : Failing) (why : Why) → result ≡ Err (SweepFault.Cut at why) →
        IsCutShort failures script.now budget shape at why }
    ensures shape { (result ≡ Err SweepFault.BadShape) ↔ (is_shape shape ≡ false) }
    ensures known { (fine : ℕ) → result ≢ Err (SweepFault.ManyStates fine) }
{
    if !shape.is_allowed() {
        return Err(SweepFault::BadShape);
    }
    let conditions = Conditions { budget, shape };
    match sweep_whole(alloc, script, failures, conditions, progress) {
        Ok(swept) => Ok(swept),
        Err(Unswept::Cut { at, why }) => Err(SweepFault::Cut { at, why }),
        Err(Unswept::ManyStates { fine }) => Err(SweepFault::ManyStates { fine }),
        Err(Unswept::NoMemory) => Err(SweepFault::NoMemory),
    }
}

/// Finds what `sweep` finds, for conditions whose shape a heap may have.
pub fn sweep_whole<P: Progress>(
    alloc: Global,
    script: &Script,
    failures: Failures,
    conditions: Conditions,
    progress: &mut P,
) -> Result<Sweep, Unswept>
    requires script { IsTrue (is_script script.now) }
    ensures swept { IfOk result (IsSweep failures script.now conditions.budget conditions.shape) }
    ensures cut { (at : Failing) (why : Why) → result ≡ Err (Unswept.Cut at why) →
        IsCutShort failures script.now conditions.budget conditions.shape at why }
    ensures known { (fine : ℕ) → result ≢ Err (Unswept.ManyStates fine) }
{
    progress.begin(Aim::least_of(failures));
    let swept = find_least(alloc, script, failures, ALL, conditions, progress);
    progress.end();
    swept
}

/// Finds the least failure whose run is bad, of the failures of a part. Only failures are tried whose number is in the part and no greater
/// than the last attempt of the run without failure. The number of a pair is its first attempt.
///
/// The run without failure is made whatever the part is, and its attempts are counted. The run without failure can be found as bad only if
/// the part has number 0. But if the run without failure is cut, `Cut` is the answer for every part. Before any failure is tried, the
/// script is run without failure once more, up to the first number of the part.
pub fn sweep_part<P: Progress>(
    alloc: Global,
    script: &Script,
    failures: Failures,
    part: Part,
    conditions: Conditions,
    progress: &mut P,
) -> Result<Sweep, Unswept>
    requires script { IsTrue (is_script script.now) }
    ensures swept { IfOk result
        (IsSweepIn failures part script.now conditions.budget conditions.shape) }
    ensures cut { (at : Failing) (why : Why) → result ≡ Err (Unswept.Cut at why) →
        IsCutIn failures part script.now conditions.budget conditions.shape at why }
    ensures known { (fine : ℕ) → result ≢ Err (Unswept.ManyStates fine) }
{
    progress.begin(Aim::least_of(failures));
    let swept = find_least(alloc, script, failures, part, conditions, progress);
    progress.end();
    swept
}
