//! A sweep over sets of attempts that fail together, up to a greatest size. The empty set and the sets of one attempt are tried first, then
//! the sets of two attempts, and so on.

ghost use Rattle.std.specs.Prelude.{◌≡◌, ◌≢◌, ℕ, ◌+◌, ◌≤◌, IfOk, IsTrue};
ghost use Rattle.wb_tree.specs.Sound.{is_script};
ghost use Rattle.wb_runs.specs.Parts.{last_attempt};
ghost use Rattle.wb_runs.specs.declared.failures.Failing.{Failing};
ghost use Rattle.wb_runs.specs.declared.failures.Failures.TheVariants.{Single};
ghost use Rattle.wb_meaning.specs.declared.run.Why.{Why};
ghost use Rattle.wb_sweep.specs.SetSweeping.{IsCutAmongSets, IsSetSweepIn};

use crate::fault::Unswept;
use crate::found::Sweep;
use crate::larger_sets::find_larger;
use crate::sweeping::find_least;
use std::alloc::Global;
use wb_meaning::conditions::Conditions;
use wb_runs::failures::Failures;
use wb_runs::part::Part;
use wb_runs::progress::{Aim, Progress};
use wb_tree::script::Script;

/// Does the work of `sweep_sets`. The caller notifies `progress` of the sweep's beginning and end.
pub(crate) fn find_least_set<P: Progress>(
    alloc: Global,
    script: &Script,
    part: Part,
    most: u32,
    conditions: Conditions,
    progress: &mut P,
) -> Result<Sweep, Unswept>
    requires script { IsTrue (is_script script.now) }
    requires most { 1 ≤ most }
    ensures swept { IfOk result
        (IsSetSweepIn part most script.now conditions.budget conditions.shape) }
    ensures cut { (at : Failing) (why : Why) → result ≡ Err (Unswept.Cut at why) →
        IsCutAmongSets part most script.now conditions.budget conditions.shape at why }
    ensures few_cut { (at : Failing) (why : Why) → result ≡ Err (Unswept.Cut at why) →
        last_attempt Single script.now conditions.budget conditions.shape ≤ conditions.budget + 1 }
    ensures known { (fine : ℕ) → result ≢ Err (Unswept.ManyStates fine) }
{
    let single = find_least(alloc, script, Failures::Single, part, conditions, progress)?;
    if single.found.is_some() {
        return Ok(single);
    }
    let attempts = single.attempts;
    let found = find_larger(alloc, script, part, most, conditions, attempts, progress)?;
    Ok(Sweep { attempts, found })
}

/// Finds the least set, of at most `most` attempts, whose attempts make the run bad if all of them fail. The set's least number must be in
/// the part and no greater than the last attempt of the run without failure. A set comes before all sets with more numbers. Of two sets
/// with equally many numbers, the set with the lesser number at their first difference comes first. The empty set is number 0, the run
/// without failure. A single attempt is named by its number, as by `sweep`, and two or more attempts by their set.
///
/// Single numbers are tried as `sweep_part` tries them. If all their runs are fine, sets of two attempts are tried, then sets of three, and
/// so on. Runs that come to the same state before an attempt, except for allocation numbers, go on as one run: each such state is kept and
/// followed once. If there are more states than the sets are worth, the sets that the states haven't answered are tried one by one. The run
/// of a set that is tried in this way goes on from the run in which all attempts of the set but the last fail. The set's last number is at
/// most the last attempt of that run. A set with a greater last number has the same run as a smaller set. `Cut` names the least set whose
/// run is cut, if no lesser set's run is bad. Besides the runs of states, at most as many runs are under way at once as a set has numbers,
/// plus three.
///
/// `progress` is notified when the sweep begins and when it is over. `progress` is also notified of each state that is met, and of each
/// failure or set that is tried, before its run.
pub fn sweep_sets<P: Progress>(
    alloc: Global,
    script: &Script,
    part: Part,
    most: u32,
    conditions: Conditions,
    progress: &mut P,
) -> Result<Sweep, Unswept>
    requires script { IsTrue (is_script script.now) }
    requires most { 1 ≤ most }
    ensures swept { IfOk result
        (IsSetSweepIn part most script.now conditions.budget conditions.shape) }
    ensures cut { (at : Failing) (why : Why) → result ≡ Err (Unswept.Cut at why) →
        IsCutAmongSets part most script.now conditions.budget conditions.shape at why }
    ensures few_cut { (at : Failing) (why : Why) → result ≡ Err (Unswept.Cut at why) →
        last_attempt Single script.now conditions.budget conditions.shape ≤ conditions.budget + 1 }
    ensures known { (fine : ℕ) → result ≢ Err (Unswept.ManyStates fine) }
{
    progress.begin(Aim::Least(most));
    let swept = find_least_set(alloc, script, part, most, conditions, progress);
    progress.end();
    swept
}
