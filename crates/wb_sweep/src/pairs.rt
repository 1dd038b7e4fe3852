//! A sweep over pairs of attempts, made after the run of each single failure turned out fine. A sweep over pairs is a sweep over sets of at
//! most two attempts.

ghost use Rattle.std.specs.Prelude.{◌≡◌, ◌≢◌, ℕ, None, IfOk, IfSome, IsTrue};
ghost use Rattle.wb_tree.specs.Sound.{is_script};
ghost use Rattle.wb_runs.specs.Parts.{last_attempt, IsFoundIn, IsLeastCutIn, IsNoneIn};
ghost use Rattle.wb_runs.specs.declared.failures.Failing.{Failing};
ghost use Rattle.wb_runs.specs.declared.failures.Failures.TheVariants.{Pairs, Single};
ghost use Rattle.wb_meaning.specs.declared.run.Why.{Why};
ghost use Rattle.wb_sweep.specs.PairSets.{pair_of};

use crate::fault::Unswept;
use crate::found::Found;
use crate::larger_sets::find_larger;
use std::alloc::Global;
use wb_meaning::conditions::Conditions;
use wb_runs::failures::Failing;
use wb_runs::part::Part;
use wb_runs::progress::Progress;
use wb_tree::script::Script;

/// The pair that a set of two attempts is; any other failure stays as it is.
fn as_pair(at: Failing) -> Failing
    ensures { result ≡ pair_of at }
{
    match at {
        Failing::Set(numbers) => match numbers.as_slice() {
            [first, second] => Failing::Pair(*first, *second),
            _ => Failing::Set(numbers),
        },
        other => other,
    }
}

/// Finds the least pair whose run is bad, of the pairs of a part. Returns `None` if the run of each of these pairs is fine. The run of each
/// single failure of the part is known to be fine. The run without failure makes `last` attempts.
pub(crate) fn find_pair<P: Progress>(
    alloc: Global,
    script: &Script,
    part: Part,
    conditions: Conditions,
    last: u32,
    progress: &mut P,
) -> Result<Option<Found>, Unswept>
    requires script { IsTrue (is_script script.now) }
    requires last { last ≡ last_attempt Single script.now conditions.budget conditions.shape }
    requires single { IsNoneIn Single part script.now conditions.budget conditions.shape }
    ensures none { IfOk result (λ found. found ≡ None →
        IsNoneIn Pairs part script.now conditions.budget conditions.shape) }
    ensures found { IfOk result (λ found. IfSome found (λ bad.
        IsFoundIn Pairs part script.now conditions.budget conditions.shape bad.at bad.result)) }
    ensures cut { (at : Failing) (why : Why) → result ≡ Err (Unswept.Cut at why) →
        IsLeastCutIn Pairs part script.now conditions.budget conditions.shape at why }
    ensures known { (fine : ℕ) → result ≢ Err (Unswept.ManyStates fine) }
{
    match find_larger(alloc, script, part, 2, conditions, last, progress) {
        Ok(None) => Ok(None),
        Ok(Some(found)) => {
            let pair = as_pair(found.at);
            Ok(Some(Found {
                at: pair,
                result: found.result,
            }))
        }
        Err(Unswept::Cut { at, why }) => {
            let cut = as_pair(at);
            Err(Unswept::Cut { at: cut, why })
        }
        Err(Unswept::ManyStates { fine }) => Err(Unswept::ManyStates { fine }),
        Err(Unswept::NoMemory) => Err(Unswept::NoMemory),
    }
}
