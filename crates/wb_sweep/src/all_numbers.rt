//! A sweep that tries each number of a part: how the run under each listed number ended, and the least number whose run leaks or panics.

ghost use Rattle.std.specs.Prelude.{◌≡◌, ◌≢◌, ℕ, ◌++◌, ◌+◌, ◌-◌, ◌<◌, ◌≤◌, true, false, IfOk, IfSome, IsTrue, OnOk};
ghost use Rattle.wb_tree.specs.Sound.{is_script};
ghost use Rattle.wb_runs.specs.AllNumbers.{bad_count, first_bad};
ghost use Rattle.wb_runs.specs.Parts.{last_attempt, IsCutWithout};
ghost use Rattle.wb_runs.specs.RunEnds.{end_of};
ghost use Rattle.wb_runs.specs.Sweeps.{is_cut_outcome, rule_of, runs_of};
ghost use Rattle.wb_meaning.specs.declared.run.Outcome.TheVariants as outcomes;
ghost use Rattle.wb_meaning.specs.declared.run.RunResult.{RunResult};
ghost use Rattle.wb_meaning.specs.declared.run.Why.{Why};
ghost use Rattle.wb_sweep.specs.Meetings.{ForkedSays, IsAhead};
ghost use Rattle.wb_sweep.specs.AllOfAPart.{is_listed_end, line_if_told, line_of, listed_in, listed_numbers};
ghost use Rattle.wb_sweep.specs.AllOfAPart.{AreAllNumbers, IsFoundAsFirst};

use crate::fault::Unswept;
use crate::followed::{Forked, follow_next};
use crate::found::{AllNumbers, Found, Listing};
use crate::lead::lead_under;
use crate::scout::{Meeting, Scout, scout_beside};
use crate::walk::attempts_in;
use std::alloc::Global;
use wb_basics::items::Items;
use wb_basics::memory::NoMemory;
use wb_machine::{Heap, Machine, run_reporting};
use wb_meaning::conditions::Conditions;
use wb_meaning::run::{Outcome, RunResult, Why};
use wb_runs::failures::{Failing, Failures};
use wb_runs::number_ends::{NumberEnd, NumberEnds};
use wb_runs::part::Part;
use wb_runs::progress::{Aim, Progress, Silent};
use wb_runs::run_end::RunEnd;
use wb_tree::script::Script;

/// Whether a number is listed if its run ended as `end` says.
fn is_listed(listing: Listing, end: RunEnd) -> bool
    ensures { result ≡ is_listed_end listing end }
{
    match listing {
        Listing::Unfine => end.is_bad() || end.is_cut(),
        Listing::Every => true,
    }
}

/// Adds a number and the end of its run to the list. Adds nothing if `listing` leaves out numbers with this end.
fn tell(ends: &mut NumberEnds, listing: Listing, number: u32, end: RunEnd) -> Result<(), NoMemory>
    ensures { OnOk result (ends.new ≡ ends.old ++ line_if_told listing number end) }
{
    if is_listed(listing, end) {
        ends.push(NumberEnd { number, end })?;
    }
    Ok(())
}

/// How the run of a fork ended. `first` is how the run without failure ended. If the fork met the scout, the fork's run also ended as
/// `first` says, unless the budget cuts it.
fn end_of_fork(forked: &Forked, first: RunEnd) -> RunEnd
    ensures { (first_result run_result : RunResult) →
        ForkedSays forked.now first_result run_result → first ≡ end_of first_result.outcome →
        result ≡ end_of run_result.outcome }
{
    match forked {
        Forked::Met(Meeting::Alike) => first,
        Forked::Met(Meeting::PastBudget) => RunEnd::Cut(Why::Budget),
        Forked::Ran(outcome) => RunEnd::of(outcome),
    }
}

/// Adds number 0 and the end of its run to the list. The run, `first`, is the run without failure. Adds nothing if the part doesn't have
/// number 0, or if `listing` leaves out numbers with this end. Returns `Cut` if the run is cut.
#[tactic(auto, using(crate::proofs::TellLemmas::line_by_end))]
fn tell_first(
    ends: &mut NumberEnds,
    listing: Listing,
    part: Part,
    at: Failing,
    first: &RunResult,
) -> Result<(), Unswept>
    ensures told { OnOk result
        (part.from ≡ 0 → ends.new ≡ ends.old ++ line_of listing 0 first.now) }
    ensures later { OnOk result (1 ≤ part.from → ends.new ≡ ends.old) }
    ensures uncut { OnOk result (is_cut_outcome first.now.outcome ≡ false) }
    ensures cut { (other : Failing) (why : Why) → result ≡ Err (Unswept.Cut other why) →
        (other ≡ at) × (first.now.outcome ≡ outcomes.Cut why) }
    ensures known { (fine : ℕ) → result ≢ Err (Unswept.ManyStates fine) }
{
    if let Outcome::Cut(why) = &first.outcome {
        return Err(Unswept::Cut { at, why: *why });
    }
    if part.from == 0 {
        tell(ends, listing, 0, RunEnd::of(&first.outcome))?;
    }
    Ok(())
}

/// Adds `number`, the attempt that the lead makes next, and the end of the run in which this attempt is the first to fail. Adds nothing if
/// `listing` leaves out numbers with this end, if `number` is less than `from`, or if the lead's next turn makes no attempt. A fork follows
/// the run until it meets the scout, if there is a scout. The fork takes the spare memory, and leaves its own memory as spare. `first` is
/// how the run without failure ended.
fn tell_next<P: Progress>(
    ends: &mut NumberEnds,
    listing: Listing,
    lead: &Machine,
    first: RunEnd,
    failures: Failures,
    from: u32,
    number: u32,
    scout: &mut Option<Scout>,
    spare: &mut Option<Heap>,
    progress: &mut P,
) -> Result<(), NoMemory>
    requires number { number ≡ lead.now.attempts + 1 }
    requires rule { lead.now.rule ≡ rule_of failures 0 }
    requires end { first ≡ end_of
        (runs_of failures lead.now.script lead.now.budget lead.now.shape 0).outcome }
    requires scout { IfSome scout.old
        (IsAhead failures lead.now.script lead.now.budget lead.now.shape) }
    ensures scout { OnOk result (IfSome scout.new
        (IsAhead failures lead.now.script lead.now.budget lead.now.shape)) }
    ensures told { OnOk result (lead.now.asks ≡ true → from ≤ number → ends.new ≡ ends.old
        ++ line_of listing number
        (runs_of failures lead.now.script lead.now.budget lead.now.shape number)) }
    ensures unasked { OnOk result (lead.now.asks ≡ false → ends.new ≡ ends.old) }
    ensures before { OnOk result (number < from → ends.new ≡ ends.old) }
{
    if number < from {
        return Ok(());
    }
    if !lead.will_attempt() {
        return Ok(());
    }
    progress.begin_failure(&failures.at(number));
    let forked = follow_next(lead, failures, number, scout, spare)?;
    tell(ends, listing, number, end_of_fork(&forked, first))
}

/// Adds the listed numbers from `from` to `last`. `last` is no greater than the last attempt of the run without failure. The lead is at the
/// start of the run without failure, and `first` is how this run ends. If number 0 is one of the numbers, it was already dealt with.
fn tell_along<P: Progress>(
    ends: &mut NumberEnds,
    listing: Listing,
    lead: &mut Machine,
    first: RunEnd,
    failures: Failures,
    from: u32,
    last: u32,
    scout: &mut Option<Scout>,
    progress: &mut P,
) -> Result<(), NoMemory>
    requires rule { lead.old.rule ≡ rule_of failures 0 }
    requires start { (lead.old.begun ≡ false) × (lead.old.attempts ≡ 0) × (lead.old.steps ≡ 0) }
    requires well { lead.old.failed ≡ false }
    requires last { last
        ≤ last_attempt failures lead.old.script lead.old.budget lead.old.shape }
    requires end { first ≡ end_of
        (runs_of failures lead.old.script lead.old.budget lead.old.shape 0).outcome }
    requires scout { IfSome scout.old
        (IsAhead failures lead.old.script lead.old.budget lead.old.shape) }
    requires told { ends.old ≡ listed_numbers listing
        (runs_of failures lead.old.script lead.old.budget lead.old.shape) from (1 - from) }
    ensures { OnOk result (ends.new ≡ listed_numbers listing
        (runs_of failures lead.old.script lead.old.budget lead.old.shape) from (last + 1 - from)) }
{
    let mut spare = None;
    let mut made = lead.attempts();
    while made < last {
        tell_next(
            ends,
            listing,
            lead,
            first,
            failures,
            from,
            made + 1,
            scout,
            &mut spare,
            progress,
        )?;
        lead.step()?;
        made = lead.attempts();
    }
    Ok(())
}

/// How many numbers in `ends` have a run that leaks or panics.
fn bad_count(ends: &NumberEnds) -> usize
    ensures { result ≡ bad_count ends.now }
{
    let mut count = 0;
    for told in ends.as_slice() {
        if told.end.is_bad() {
            count += 1;
        }
    }
    count
}

/// The first number in `ends` whose run leaks or panics; `None` if no number's run does.
fn first_bad(ends: &NumberEnds) -> Option<u32>
    ensures { result ≡ first_bad ends.now }
{
    for told in ends.as_slice() {
        if told.end.is_bad() {
            return Some(told.number);
        }
    }
    None
}

/// The first number in `ends` whose run leaks or panics, together with this run, which is made again. The result is `None` if no number's
/// run leaks or panics.
fn find_first(
    alloc: Global,
    script: &Script,
    failures: Failures,
    conditions: Conditions,
    ends: &NumberEnds,
) -> Result<Option<Found>, NoMemory>
    requires script { IsTrue (is_script script.now) }
    ensures { IfOk result
        (IsFoundAsFirst failures script.now conditions.budget conditions.shape ends.now) }
{
    let Some(number) = first_bad(ends) else {
        return Ok(None);
    };
    let at = failures.at(number);
    let rule = failures.at(number).rule();
    let result = run_reporting(alloc, script, rule, conditions, &mut Silent)?;
    Ok(Some(Found { at, result }))
}

/// Adds the listed numbers of a part from 1 on. The run without failure isn't cut, makes `last` attempts, takes `steps` steps, and ends as
/// `first` says. If the part has number 0, this number was already dealt with.
fn tell_later<P: Progress>(
    ends: &mut NumberEnds,
    listing: Listing,
    alloc: Global,
    script: &Script,
    failures: Failures,
    part: Part,
    conditions: Conditions,
    last: u32,
    first: RunEnd,
    steps: u32,
    progress: &mut P,
) -> Result<(), NoMemory>
    requires script { IsTrue (is_script script.now) }
    requires last { last ≡ last_attempt failures script.now conditions.budget conditions.shape }
    requires uncut { is_cut_outcome
        (runs_of failures script.now conditions.budget conditions.shape 0).outcome ≡ false }
    requires end { first
        ≡ end_of (runs_of failures script.now conditions.budget conditions.shape 0).outcome }
    requires steps { steps
        ≡ (runs_of failures script.now conditions.budget conditions.shape 0).steps }
    requires told { ends.old ≡ listed_numbers listing
        (runs_of failures script.now conditions.budget conditions.shape) part.from (1 - part.from) }
    ensures { OnOk result (ends.new
        ≡ listed_in listing (runs_of failures script.now conditions.budget conditions.shape) part) }
{
    let mut lead = lead_under(alloc, script, failures.at(0).rule(), conditions)?;
    let mut scout = scout_beside(&lead, failures, Some(steps), conditions.budget)?;
    let end = part.to.min(last);
    tell_along(
        ends, listing, &mut lead, first, failures, part.from, end, &mut scout, progress,
    )?;
    Ok(())
}

/// Does the work of `sweep_all`, which notifies `progress` of the sweep's beginning and end.
fn tell_all<P: Progress>(
    alloc: Global,
    script: &Script,
    listing: Listing,
    failures: Failures,
    part: Part,
    conditions: Conditions,
    progress: &mut P,
) -> Result<AllNumbers, Unswept>
    requires script { IsTrue (is_script script.now) }
    ensures told { IfOk result
        (AreAllNumbers listing failures part script.now conditions.budget conditions.shape) }
    ensures cut { (at : Failing) (why : Why) → result ≡ Err (Unswept.Cut at why) →
        IsCutWithout failures script.now conditions.budget conditions.shape at why }
    ensures known { (fine : ℕ) → result ≢ Err (Unswept.ManyStates fine) }
{
    let first = run_reporting(alloc, script, failures.at(0).rule(), conditions, progress)?;
    let attempts = attempts_in(first.trace.as_slice());
    let end = RunEnd::of(&first.outcome);
    let steps = first.steps;
    let mut ends = Items::new(alloc);
    let none = failures.at(0);
    tell_first(&mut ends, listing, part, none, &first)?;
    progress.begin_failures(part.from.max(1), part.to.min(attempts));
    tell_later(
        &mut ends, listing, alloc, script, failures, part, conditions, attempts, end, steps,
        progress,
    )?;
    let found = find_first(alloc, script, failures, conditions, &ends)?;
    Ok(AllNumbers {
        attempts,
        bad: bad_count(&ends),
        ends,
        found,
    })
}

/// Tries each number of a part, up to the last attempt of the run without failure. Returns how the run under each listed number ended, and
/// how many of these runs leak or panic. Also returns the least number whose run leaks or panics, with this run. If the failures are pairs,
/// only the single numbers are tried.
///
/// `Cut` is returned exactly if the run without failure is cut. The run without failure is listed only if the part has number 0.
/// `progress` is notified as by `sweep`.
pub fn sweep_all<P: Progress>(
    alloc: Global,
    script: &Script,
    listing: Listing,
    failures: Failures,
    part: Part,
    conditions: Conditions,
    progress: &mut P,
) -> Result<AllNumbers, Unswept>
    requires script { IsTrue (is_script script.now) }
    ensures told { IfOk result
        (AreAllNumbers listing failures part script.now conditions.budget conditions.shape) }
    ensures cut { (at : Failing) (why : Why) → result ≡ Err (Unswept.Cut at why) →
        IsCutWithout failures script.now conditions.budget conditions.shape at why }
    ensures known { (fine : ℕ) → result ≢ Err (Unswept.ManyStates fine) }
{
    progress.begin(Aim::All);
    let told = tell_all(alloc, script, listing, failures, part, conditions, progress);
    progress.end();
    told
}
