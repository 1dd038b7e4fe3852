//! A walk over the sets of a part, in their order, up to a greatest size. The walk begins with sets of one attempt more than the sets whose
//! runs are known to be fine. The run without failure is followed once for each size.

ghost use Rattle.std.specs.Prelude.{◌≡◌, ◌≢◌, ℕ, ◌+◌, ◌^◌, ◌<◌, ◌≤◌, [], None, false, IfOk, IfSome, IsTrue};
ghost use Rattle.wb_tree.specs.Sound.{is_script};
ghost use Rattle.wb_runs.specs.Parts.{last_attempt, IsUncut};
ghost use Rattle.wb_runs.specs.SetParts.{AreSetsFineIn};
ghost use Rattle.wb_runs.specs.declared.failures.Failing.{Failing};
ghost use Rattle.wb_runs.specs.declared.failures.Failures.TheVariants.{Single};
ghost use Rattle.wb_heap_model.specs.declared.heap.Rule.TheVariants as rules;
ghost use Rattle.wb_meaning.specs.declared.run.Why.{Why};
ghost use Rattle.wb_sweep.specs.SetSearch.{IsCutAsSet, IsFoundAsSet};

use crate::fault::Unswept;
use crate::found::Found;
use crate::lead::lead_under;
use crate::sets::find_next;
use std::alloc::Global;
use wb_heap_model::heap::{Numbers, Rule};
use wb_machine::Machine;
use wb_meaning::conditions::Conditions;
use wb_runs::part::Part;
use wb_runs::progress::Progress;
use wb_tree::script::Script;

/// Finds the least set whose run is bad, of the tried sets of a part that have `fewer + 1` numbers. Returns `None` if the run of each of
/// these sets is fine. The runs of the sets of at most `fewer` numbers are known to be fine. The lead is at the start of the run without
/// failure. This run makes `last` attempts.
fn find_among_sets<P: Progress>(
    lead: &mut Machine,
    none: &Numbers,
    part: Part,
    last: u32,
    fewer: u32,
    progress: &mut P,
) -> Result<Option<Found>, Unswept>
    requires none { none.now ≡ [] }
    requires rule { lead.old.rule ≡ rules.Set [] }
    requires start { (lead.old.begun ≡ false) × (lead.old.attempts ≡ 0) × (lead.old.steps ≡ 0) }
    requires well { lead.old.failed ≡ false }
    requires few { fewer + 1 < 2 ^ 32 }
    requires uncut { IsUncut Single lead.old.script lead.old.budget lead.old.shape }
    requires last { last ≡ last_attempt Single lead.old.script lead.old.budget lead.old.shape }
    requires fewer { 1 ≤ fewer }
    requires fine { AreSetsFineIn part fewer lead.old.script lead.old.budget lead.old.shape }
    ensures none { IfOk result (λ found. found ≡ None → AreSetsFineIn part (fewer + 1)
        lead.old.script lead.old.budget lead.old.shape) }
    ensures found { IfOk result (λ found. IfSome found (λ bad. IsFoundAsSet part (fewer + 1)
        lead.old.script lead.old.budget lead.old.shape bad.at bad.result)) }
    ensures cut { (at : Failing) (why : Why) → result ≡ Err (Unswept.Cut at why) →
        IsCutAsSet part (fewer + 1) lead.old.script lead.old.budget lead.old.shape at why }
    ensures known { (fine : ℕ) → result ≢ Err (Unswept.ManyStates fine) }
{
    let end = part.to.min(last);
    let past = part.from.saturating_sub(1);
    let mut spare = None;
    while lead.attempts() < end {
        let number = lead.attempts() + 1;
        let found = find_next(lead, none, past, number, fewer + 1, &mut spare, progress)?;
        if found.is_some() {
            return Ok(found);
        }
        lead.step()?;
    }
    Ok(None)
}

/// Does what `find_among_sets` does, but makes the lead itself.
fn find_of_many<P: Progress>(
    alloc: Global,
    script: &Script,
    part: Part,
    conditions: Conditions,
    last: u32,
    fewer: u32,
    progress: &mut P,
) -> Result<Option<Found>, Unswept>
    requires script { IsTrue (is_script script.now) }
    requires few { fewer + 1 < 2 ^ 32 }
    requires uncut { IsUncut Single script.now conditions.budget conditions.shape }
    requires last { last ≡ last_attempt Single script.now conditions.budget conditions.shape }
    requires fewer { 1 ≤ fewer }
    requires fine { AreSetsFineIn part fewer script.now conditions.budget conditions.shape }
    ensures none { IfOk result (λ found. found ≡ None →
        AreSetsFineIn part (fewer + 1) script.now conditions.budget conditions.shape) }
    ensures found { IfOk result (λ found. IfSome found (λ bad. IsFoundAsSet part (fewer + 1)
        script.now conditions.budget conditions.shape bad.at bad.result)) }
    ensures cut { (at : Failing) (why : Why) → result ≡ Err (Unswept.Cut at why) →
        IsCutAsSet part (fewer + 1) script.now conditions.budget conditions.shape at why }
    ensures known { (fine : ℕ) → result ≢ Err (Unswept.ManyStates fine) }
{
    progress.begin_sets(fewer + 1);
    let none = Numbers::new(alloc);
    let rule = Rule::Set(Numbers::new(alloc));
    let mut lead = lead_under(alloc, script, rule, conditions)?;
    find_among_sets(&mut lead, &none, part, last, fewer, progress)
}

/// Finds the least set whose run is bad, of the tried sets of a part that have at most `most` numbers. Returns `None` if the run of each of
/// these sets is fine. The runs of the sets of at most `fine` numbers are known to be fine. The run without failure makes `last` attempts.
pub(crate) fn walk_sets<P: Progress>(
    alloc: Global,
    script: &Script,
    part: Part,
    fine: u32,
    most: u32,
    conditions: Conditions,
    last: u32,
    progress: &mut P,
) -> Result<Option<Found>, Unswept>
    requires script { IsTrue (is_script script.now) }
    requires uncut { IsUncut Single script.now conditions.budget conditions.shape }
    requires last { last ≡ last_attempt Single script.now conditions.budget conditions.shape }
    requires some { 1 ≤ fine }
    requires fine { AreSetsFineIn part fine script.now conditions.budget conditions.shape }
    ensures none { IfOk result (λ found. found ≡ None →
        AreSetsFineIn part most script.now conditions.budget conditions.shape) }
    ensures found { IfOk result (λ found. IfSome found (λ bad.
        IsFoundAsSet part most script.now conditions.budget conditions.shape bad.at bad.result)) }
    ensures cut { (at : Failing) (why : Why) → result ≡ Err (Unswept.Cut at why) →
        IsCutAsSet part most script.now conditions.budget conditions.shape at why }
    ensures known { (fine : ℕ) → result ≢ Err (Unswept.ManyStates fine) }
{
    if most <= fine {
        return Ok(None);
    }
    for fewer in fine..most {
        let found = find_of_many(alloc, script, part, conditions, last, fewer, progress)?;
        if found.is_some() {
            return Ok(found);
        }
    }
    Ok(None)
}
