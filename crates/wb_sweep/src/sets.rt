//! A search over sets of attempts that fail together. The runs of all smaller sets are known to be fine. The search walks along each run in
//! which all attempts of a set but the last fail. The callers choose the size of the sets and their least number.

ghost use Rattle.std.specs.Prelude.{◌≡◌, ◌≢◌, ℕ, ◌+◌, ◌<◌, ◌≤◌, [], ◌∷◌, ◌++◌, None, false, length, true, IfOk, IfSome};
ghost use Rattle.wb_runs.specs.Sets.{set_run};
ghost use Rattle.wb_heap_model.specs.declared.heap.Rule.TheVariants as rules;
ghost use Rattle.wb_runs.specs.declared.failures.Failing.{Failing};
ghost use Rattle.wb_meaning.specs.declared.run.Why.{Why};
ghost use Rattle.wb_sweep.specs.SetSearch.{AreFewerFine, AreFewerFineWith, AreFine, AreFineWith};
ghost use Rattle.wb_sweep.specs.SetSearch.{IsCutAfter, IsCutWith, IsForkTo, IsFoundAfter, IsFoundWith};

use crate::fault::Unswept;
use crate::fork::{fork_under, outcome_under};
use crate::found::Found;
use crate::walk::judge_run;
use wb_basics::memory::NoMemory;
use wb_heap_model::heap::{Numbers, Rule};
use wb_machine::{Heap, Machine};
use wb_meaning::run::Outcome;
use wb_runs::failures::Failing;
use wb_runs::progress::{Progress, Silent};
use wb_runs::run_end::is_fine;

/// A copy of a set with one more number at its end.
fn set_with(set: &Numbers, number: u32) -> Result<Numbers, NoMemory>
    ensures { IfOk result (λ numbers. numbers ≡ set.now ++ number ∷ []) }
{
    let mut numbers = set.try_copy()?;
    numbers.push(number)?;
    Ok(numbers)
}

/// The rule under which the attempts of a set fail.
fn rule_for(numbers: &Numbers) -> Result<Rule, NoMemory>
    ensures { IfOk result (λ rule. rule ≡ rules.Set numbers.now) }
{
    Ok(Rule::Set(numbers.try_copy()?))
}

/// Judges the run in which the attempts of `set` and the attempt `number` fail. Returns the run if it is bad, and `None` if it is fine. The
/// lead is a run in which the attempts of `set` fail, and `number` is its next attempt. A copy of the lead makes the judged run. The copy
/// takes the spare memory, and leaves its own memory as spare. If the run is bad, it is made once more from its first attempt, since the
/// copy keeps no trace.
fn try_last<P: Progress>(
    lead: &Machine,
    set: &Numbers,
    number: u32,
    spare: &mut Option<Heap>,
    progress: &mut P,
) -> Result<Option<Found>, Unswept>
    requires number { number ≡ lead.now.attempts + 1 }
    requires rule { lead.now.rule ≡ rules.Set set.now }
    requires going { lead.now.over ≡ false }
    requires well { lead.now.failed ≡ false }
    ensures fine { IfOk result (λ found. found ≡ None → AreFineWith
        (set_run lead.now.script lead.now.budget lead.now.shape) set.now number 1) }
    ensures found { IfOk result (λ found. IfSome found (IsFoundWith
        (set_run lead.now.script lead.now.budget lead.now.shape) set.now number 1)) }
    ensures cut { (at : Failing) (why : Why) → result ≡ Err (Unswept.Cut at why) →
        IsCutWith (set_run lead.now.script lead.now.budget lead.now.shape) set.now number 1
        at why }
    ensures known { (fine : ℕ) → result ≢ Err (Unswept.ManyStates fine) }
{
    let numbers = set_with(set, number)?;
    progress.begin_set(&numbers);
    let rule = rule_for(&numbers)?;
    let outcome = outcome_under(lead, rule, spare)?;
    if let Outcome::Cut(why) = &outcome {
        return Err(Unswept::Cut {
            at: Failing::Set(numbers),
            why: *why,
        });
    }
    if is_fine(&outcome) {
        return Ok(None);
    }
    let same_rule = rule_for(&numbers)?;
    let run_result = lead.run_another(same_rule)?;
    judge_run(Failing::Set(numbers), run_result)
}

/// How many attempts are made in the run in which the attempts of `numbers` fail. `numbers` is `set` with `number` added. The lead is a run
/// in which the attempts of `set` fail, and `number` is its next attempt. A copy of the lead makes the run under `numbers`. The copy takes
/// the spare memory, and leaves its own memory as spare.
fn last_under(
    lead: &Machine,
    set: &Numbers,
    numbers: &Numbers,
    number: u32,
    spare: &mut Option<Heap>,
) -> Result<u32, NoMemory>
    requires number { number ≡ lead.now.attempts + 1 }
    requires numbers { numbers.now ≡ set.now ++ number ∷ [] }
    requires rule { lead.now.rule ≡ rules.Set set.now }
    requires going { lead.now.over ≡ false }
    requires well { lead.now.failed ≡ false }
    ensures { IfOk result (λ last. last
        ≡ length (set_run lead.now.script lead.now.budget lead.now.shape numbers.now).trace) }
{
    let rule = rule_for(numbers)?;
    let mut fork = fork_under(lead, rule, spare)?;
    fork.take_all_turns(&mut Silent)?;
    let last = fork.attempts();
    *spare = Some(fork.into_heap());
    Ok(last)
}

/// Copies the lead, and lets the copy make the attempt `number`. The copy goes along the run in which the attempts of `numbers` fail.
/// `numbers` is `set` with `number` added, and `number` is the lead's next attempt.
fn fork_to<'a>(
    lead: &Machine<'a>,
    set: &Numbers,
    numbers: &Numbers,
    number: u32,
) -> Result<Machine<'a>, NoMemory>
    requires number { number ≡ lead.now.attempts + 1 }
    requires numbers { numbers.now ≡ set.now ++ number ∷ [] }
    requires rule { lead.now.rule ≡ rules.Set set.now }
    requires going { lead.now.over ≡ false }
    requires well { lead.now.failed ≡ false }
    ensures { IfOk result (IsForkTo lead.now numbers.now number) }
{
    let rule = rule_for(numbers)?;
    let mut fork = fork_under(lead, rule, &mut None)?;
    fork.step()?;
    Ok(fork)
}

/// Finds the least set whose run is bad, of the sets that begin with `set` and `number` and have `more` numbers from `number` on. Returns
/// `None` if the run of each of these sets is fine. The runs of the sets that begin in the same way but have fewer numbers are known to be
/// fine. The lead is a run in which the attempts of `set` fail, and `number` is its next attempt. Each copy of the lead that goes on to its
/// end takes the spare memory, and leaves its own memory as spare.
#[cycle(sets)]
fn find_with<P: Progress>(
    lead: &Machine,
    set: &Numbers,
    number: u32,
    more: u32,
    spare: &mut Option<Heap>,
    progress: &mut P,
) -> Result<Option<Found>, Unswept>
    requires number { number ≡ lead.now.attempts + 1 }
    requires rule { lead.now.rule ≡ rules.Set set.now }
    requires going { lead.now.over ≡ false }
    requires well { lead.now.failed ≡ false }
    requires more { 1 ≤ more }
    requires fewer { AreFewerFineWith
        (set_run lead.now.script lead.now.budget lead.now.shape) set.now number more }
    ensures fine { IfOk result (λ found. found ≡ None → AreFineWith
        (set_run lead.now.script lead.now.budget lead.now.shape) set.now number more) }
    ensures found { IfOk result (λ found. IfSome found (IsFoundWith
        (set_run lead.now.script lead.now.budget lead.now.shape) set.now number more)) }
    ensures cut { (at : Failing) (why : Why) → result ≡ Err (Unswept.Cut at why) →
        IsCutWith (set_run lead.now.script lead.now.budget lead.now.shape) set.now number more
        at why }
    ensures known { (fine : ℕ) → result ≢ Err (Unswept.ManyStates fine) }
{
    if more <= 1 {
        return try_last(lead, set, number, spare, progress);
    }
    let numbers = set_with(set, number)?;
    let last = last_under(lead, set, &numbers, number, spare)?;
    let mut fork = fork_to(lead, set, &numbers, number)?;
    find_along(&mut fork, &numbers, number, last, more - 1, spare, progress)
}

/// Finds the least set whose run is bad, of the sets that begin with `set` and have `more` further numbers, each greater than `past`.
/// Returns `None` if the run of each of these sets is fine. The runs of the sets that begin in the same way but have fewer numbers are
/// known to be fine. The lead goes along the run in which the attempts of `set` fail. This run makes `last` attempts.
#[cycle(sets)]
fn find_along<P: Progress>(
    lead: &mut Machine,
    set: &Numbers,
    past: u32,
    last: u32,
    more: u32,
    spare: &mut Option<Heap>,
    progress: &mut P,
) -> Result<Option<Found>, Unswept>
    requires rule { lead.old.rule ≡ rules.Set set.now }
    requires first { lead.old.begun ≡ false → lead.old.steps ≡ 0 }
    requires within { lead.old.steps ≤ lead.old.budget }
    requires well { lead.old.failed ≡ false }
    requires start { lead.old.attempts ≤ past }
    requires last { last
        ≡ length (set_run lead.old.script lead.old.budget lead.old.shape set.now).trace }
    requires more { 1 ≤ more }
    requires fewer { AreFewerFine
        (set_run lead.old.script lead.old.budget lead.old.shape) set.now past more }
    ensures fine { IfOk result (λ found. found ≡ None → AreFine
        (set_run lead.old.script lead.old.budget lead.old.shape) set.now past more) }
    ensures found { IfOk result (λ found. IfSome found (IsFoundAfter
        (set_run lead.old.script lead.old.budget lead.old.shape) set.now past more)) }
    ensures cut { (at : Failing) (why : Why) → result ≡ Err (Unswept.Cut at why) →
        IsCutAfter (set_run lead.old.script lead.old.budget lead.old.shape) set.now past more
        at why }
    ensures known { (fine : ℕ) → result ≢ Err (Unswept.ManyStates fine) }
{
    while lead.attempts() < last {
        let number = lead.attempts() + 1;
        let found = find_next(lead, set, past, number, more, spare, progress)?;
        if found.is_some() {
            return Ok(found);
        }
        lead.step()?;
    }
    Ok(None)
}

/// Finds the least set whose run is bad, of the sets that `find_along` tries and whose next number after `set` is `number`. Returns `None`
/// if the run of each of these sets is fine, if the lead's next turn makes no attempt, or if `number` isn't greater than `past`. The lead
/// has made all attempts before `number`.
#[cycle(sets)]
pub(crate) fn find_next<P: Progress>(
    lead: &Machine,
    set: &Numbers,
    past: u32,
    number: u32,
    more: u32,
    spare: &mut Option<Heap>,
    progress: &mut P,
) -> Result<Option<Found>, Unswept>
    requires number { number ≡ lead.now.attempts + 1 }
    requires rule { lead.now.rule ≡ rules.Set set.now }
    requires more { 1 ≤ more }
    requires fewer { past < number → AreFewerFineWith
        (set_run lead.now.script lead.now.budget lead.now.shape) set.now number more }
    ensures fine { IfOk result (λ found. found ≡ None → lead.now.asks ≡ true → past < number →
        AreFineWith (set_run lead.now.script lead.now.budget lead.now.shape) set.now number more) }
    ensures found { IfOk result (λ found. IfSome found (λ bad. (past < number) × IsFoundWith
        (set_run lead.now.script lead.now.budget lead.now.shape) set.now number more bad)) }
    ensures cut { (at : Failing) (why : Why) → result ≡ Err (Unswept.Cut at why) →
        (past < number) × IsCutWith
        (set_run lead.now.script lead.now.budget lead.now.shape) set.now number more at why }
    ensures known { (fine : ℕ) → result ≢ Err (Unswept.ManyStates fine) }
{
    if number <= past {
        return Ok(None);
    }
    if !lead.will_attempt() {
        return Ok(None);
    }
    find_with(lead, set, number, more, spare, progress)
}
