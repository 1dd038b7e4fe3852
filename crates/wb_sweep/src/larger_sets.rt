//! A sweep over sets of two or more attempts, made after the run of each single attempt turned out fine. The sweep follows states first. If
//! the states become too many, the sweep walks over the sets.

ghost use Rattle.std.specs.Prelude.{◌≡◌, ◌≢◌, ◌⊎◌, ℕ, ◌<◌, ◌≤◌, None, length, true, IfOk, IfSome, IsTrue};
ghost use Rattle.wb_tree.specs.Sound.{is_script};
ghost use Rattle.wb_runs.specs.Parts.{last_attempt};
ghost use Rattle.wb_runs.specs.SetParts.{AreSetsFineIn, IsNoSetIn};
ghost use Rattle.wb_runs.specs.Sweeps.{is_fine};
ghost use Rattle.wb_runs.specs.declared.failures.Failures.TheVariants.{Single};
ghost use Rattle.wb_meaning.specs.declared.run.Outcome.TheVariants as outcomes;
ghost use Rattle.wb_meaning.specs.declared.run.Why.{Why};
ghost use Rattle.wb_runs.specs.declared.failures.Failing.{Failing};
ghost use Rattle.wb_sweep.specs.SetSearch.{IsCutAsSet, IsFoundAsSet};
ghost use Rattle.wb_sweep.specs.Sweeping.{IsBadAt};

use crate::fault::Unswept;
use crate::found::Found;
use crate::set_walk::walk_sets;
use crate::states_worth::states_worth;
use crate::walk::judge_run;
use std::alloc::Global;
use wb_meaning::conditions::Conditions;
use wb_runs::failures::Failing;
use wb_runs::part::Part;
use wb_runs::progress::Progress;
use wb_states::{Searched, Shown, search_states};
use wb_tree::script::Script;

/// Judges a set whose run is bad or cut, in a search for sets of at most `most` numbers. Returns the set if its run is bad, `Cut` if its
/// run is cut, and `None` if the set has more than `most` numbers.
fn judge_shown(shown: Shown, most: u32) -> Result<Option<Found>, Unswept>
    ensures none { IfOk result (λ found. found ≡ None →
        (is_fine shown.result ≡ true) ⊎ (most < length shown.numbers)) }
    ensures bad { IfOk result (λ found. IfSome found (λ bad.
        IsBadAt (Failing.Set shown.numbers) shown.result bad × (length shown.numbers ≤ most))) }
    ensures cut { (at : Failing) (why : Why) → result ≡ Err (Unswept.Cut at why) →
        (at ≡ Failing.Set shown.numbers) × (shown.result.outcome ≡ outcomes.Cut why)
        × (length shown.numbers ≤ most) }
    ensures known { (fine : ℕ) → result ≢ Err (Unswept.ManyStates fine) }
{
    let Shown { numbers, result } = shown;
    if numbers.len() > most as usize {
        return Ok(None);
    }
    judge_run(Failing::Set(numbers), result)
}

/// Finds the least set whose run is bad, of the tried sets of a part that have at most `most` numbers. Returns `None` if the run of each of
/// these sets is fine. The runs of the sets of at most one number are known to be fine. The run without failure makes `last` attempts.
///
/// If states before an attempt are the same except for allocation numbers, only one of them is followed. No more states are met than the
/// sets are worth. If there are more states, the sets themselves are tried, beginning with the smallest sets that the states haven't
/// answered.
pub(crate) fn find_larger<P: Progress>(
    alloc: Global,
    script: &Script,
    part: Part,
    most: u32,
    conditions: Conditions,
    last: u32,
    progress: &mut P,
) -> Result<Option<Found>, Unswept>
    requires script { IsTrue (is_script script.now) }
    requires last { last ≡ last_attempt Single script.now conditions.budget conditions.shape }
    requires single { IsNoSetIn part 1 script.now conditions.budget conditions.shape }
    ensures none { IfOk result (λ found. found ≡ None →
        AreSetsFineIn part most script.now conditions.budget conditions.shape) }
    ensures found { IfOk result (λ found. IfSome found (λ bad.
        IsFoundAsSet part most script.now conditions.budget conditions.shape bad.at bad.result)) }
    ensures cut { (at : Failing) (why : Why) → result ≡ Err (Unswept.Cut at why) →
        IsCutAsSet part most script.now conditions.budget conditions.shape at why }
    ensures known { (fine : ℕ) → result ≢ Err (Unswept.ManyStates fine) }
{
    if most <= 1 {
        return Ok(None);
    }
    let states = states_worth(last, most);
    match search_states(
        alloc, script, part, last, most, states, conditions, progress,
    )? {
        Searched::Shown(shown) => judge_shown(shown, most),
        Searched::Fine => Ok(None),
        Searched::FineTo(fine) => {
            walk_sets(alloc, script, part, fine, most, conditions, last, progress)
        }
        Searched::ManyStates(fine) => {
            walk_sets(alloc, script, part, fine, most, conditions, last, progress)
        }
    }
}
