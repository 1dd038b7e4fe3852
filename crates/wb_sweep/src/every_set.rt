//! A sweep over all sets of attempts that fail together, whatever the size of the sets.

ghost use Rattle.std.specs.Prelude.{◌≡◌, ℕ, ◌+◌, ◌≤◌, None, IfOk, IfSome, IsTrue};
ghost use Rattle.wb_tree.specs.Sound.{is_script};
ghost use Rattle.wb_runs.specs.EverySet.{IsNoSetOfAnySizeIn};
ghost use Rattle.wb_runs.specs.Parts.{last_attempt, IsUncut};
ghost use Rattle.wb_runs.specs.SetParts.{AreSetsFineIn, IsNoSetIn};
ghost use Rattle.wb_runs.specs.declared.failures.Failing.{Failing};
ghost use Rattle.wb_runs.specs.declared.failures.Failures.TheVariants.{Single};
ghost use Rattle.wb_meaning.specs.declared.run.Why.{Why};
ghost use Rattle.wb_runs.specs.Met.{AreManyStatesIn};
ghost use Rattle.wb_sweep.specs.SetSweeping.{IsCutAmongAllSets, IsEverySetSweepIn, IsFoundAmongAllSets};

use crate::fault::Unswept;
use crate::found::{Found, Sweep};
use crate::set_sweep::find_least_set;
use crate::walk::judge_run;
use std::alloc::Global;
use wb_meaning::conditions::Conditions;
use wb_runs::failures::Failing;
use wb_runs::part::Part;
use wb_runs::progress::{Aim, Progress};
use wb_states::{Searched, search_states};
use wb_tree::script::Script;

/// Finds the least set whose run is bad, of the sets of a part. Returns `None` if the run of each of these sets is fine. The runs of the
/// sets of at most one number are known to be fine. The run without failure makes `attempts` attempts. At most `states` states may be met.
fn search_every_set<P: Progress>(
    alloc: Global,
    script: &Script,
    part: Part,
    attempts: u32,
    states: u32,
    conditions: Conditions,
    progress: &mut P,
) -> Result<Option<Found>, Unswept>
    requires script { IsTrue (is_script script.now) }
    requires states { 1 ≤ states }
    requires uncut { IsUncut Single script.now conditions.budget conditions.shape }
    requires last { attempts ≡ last_attempt Single script.now conditions.budget conditions.shape }
    requires fine { AreSetsFineIn part 1 script.now conditions.budget conditions.shape }
    ensures none { IfOk result (λ found. found ≡ None →
        IsNoSetOfAnySizeIn part script.now conditions.budget conditions.shape) }
    ensures found { IfOk result (λ found. IfSome found (λ bad.
        IsFoundAmongAllSets part script.now conditions.budget conditions.shape bad.at bad.result)) }
    ensures cut { (at : Failing) (why : Why) → result ≡ Err (Unswept.Cut at why) →
        IsCutAmongAllSets part script.now conditions.budget conditions.shape at why }
    ensures many { (most : ℕ) → result ≡ Err (Unswept.ManyStates most) →
        (1 ≤ most) × IsNoSetIn part most script.now conditions.budget conditions.shape }
    ensures met { (most : ℕ) → result ≡ Err (Unswept.ManyStates most) →
        AreManyStatesIn part (most + 1) states script.now conditions.budget conditions.shape }
{
    let most = u32::MAX;
    let searched = search_states(
        alloc, script, part, attempts, most, states, conditions, progress,
    )?;
    match searched {
        Searched::Fine => Ok(None),
        Searched::ManyStates(fine) => Err(Unswept::ManyStates { fine }),
        // no search is known to end with `FineTo`; if one did, `ManyStates` would lack its clause `met`
        Searched::FineTo(_) => Err(Unswept::NoMemory),
        Searched::Shown(shown) => judge_run(Failing::Set(shown.numbers), shown.result),
    }
}

/// Does the work of `sweep_every_set`, which notifies `progress` of the sweep's beginning and end.
fn find_among_all<P: Progress>(
    alloc: Global,
    script: &Script,
    part: Part,
    states: u32,
    conditions: Conditions,
    progress: &mut P,
) -> Result<Sweep, Unswept>
    requires script { IsTrue (is_script script.now) }
    requires states { 1 ≤ states }
    ensures swept { IfOk result
        (IsEverySetSweepIn part script.now conditions.budget conditions.shape) }
    ensures cut { (at : Failing) (why : Why) → result ≡ Err (Unswept.Cut at why) →
        IsCutAmongAllSets part script.now conditions.budget conditions.shape at why }
    ensures few_cut { (at : Failing) (why : Why) → result ≡ Err (Unswept.Cut at why) →
        last_attempt Single script.now conditions.budget conditions.shape ≤ conditions.budget + 1 }
    ensures many { (most : ℕ) → result ≡ Err (Unswept.ManyStates most) →
        (1 ≤ most) × IsNoSetIn part most script.now conditions.budget conditions.shape }
    ensures met { (most : ℕ) → result ≡ Err (Unswept.ManyStates most) →
        AreManyStatesIn part (most + 1) states script.now conditions.budget conditions.shape }
    ensures few_met { (most : ℕ) → result ≡ Err (Unswept.ManyStates most) →
        last_attempt Single script.now conditions.budget conditions.shape ≤ conditions.budget + 1 }
{
    let single = find_least_set(alloc, script, part, 1, conditions, progress)?;
    if single.found.is_some() {
        return Ok(single);
    }
    let attempts = single.attempts;
    let found = search_every_set(alloc, script, part, attempts, states, conditions, progress)?;
    Ok(Sweep { attempts, found })
}

/// Finds the least set, of any size, whose attempts make the run bad if all of them fail; finds none if there is no such set. The set's
/// least number must be in the part and no greater than the last attempt of the run without failure. Sets are in the order of `sweep_sets`.
///
/// Single numbers are tried as `sweep_part` tries them. If they show nothing, larger sets are tried, by meeting at most `states` states of
/// their runs. `ManyStates` is returned only if there are more states. `ManyStates` names a number of attempts: all sets of at most this
/// many attempts were tried and show nothing. The states that were met are states of sets that have at most one attempt more than this
/// number. `Cut` names the least set whose run is cut, if no lesser set's run is bad.
///
/// `progress` is notified when the sweep begins, before the run under each failure that is tried, and when the sweep is over.
pub fn sweep_every_set<P: Progress>(
    alloc: Global,
    script: &Script,
    part: Part,
    states: u32,
    conditions: Conditions,
    progress: &mut P,
) -> Result<Sweep, Unswept>
    requires script { IsTrue (is_script script.now) }
    requires states { 1 ≤ states }
    ensures swept { IfOk result
        (IsEverySetSweepIn part script.now conditions.budget conditions.shape) }
    ensures cut { (at : Failing) (why : Why) → result ≡ Err (Unswept.Cut at why) →
        IsCutAmongAllSets part script.now conditions.budget conditions.shape at why }
    ensures few_cut { (at : Failing) (why : Why) → result ≡ Err (Unswept.Cut at why) →
        last_attempt Single script.now conditions.budget conditions.shape ≤ conditions.budget + 1 }
    ensures many { (most : ℕ) → result ≡ Err (Unswept.ManyStates most) →
        (1 ≤ most) × IsNoSetIn part most script.now conditions.budget conditions.shape }
    ensures met { (most : ℕ) → result ≡ Err (Unswept.ManyStates most) →
        AreManyStatesIn part (most + 1) states script.now conditions.budget conditions.shape }
    ensures few_met { (most : ℕ) → result ≡ Err (Unswept.ManyStates most) →
        last_attempt Single script.now conditions.budget conditions.shape ≤ conditions.budget + 1 }
{
    progress.begin(Aim::Least(u32::MAX));
    let swept = find_among_all(alloc, script, part, states, conditions, progress);
    progress.end();
    swept
}
