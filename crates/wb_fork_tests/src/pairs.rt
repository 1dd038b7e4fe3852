//! Compares forks of forks with whole runs. Each fork is a copy of a run in which one attempt has failed, and makes a later attempt fail
//! too. The whole run is the run in which both attempts fail.

ghost use Rattle.std.specs.Prelude.{◌≡◌, ◌+◌, ◌≤◌, false, IsTrue};
ghost use Rattle.wb_tree.specs.Sound.{is_script};
ghost use Rattle.wb_heap_model.specs.declared.heap.Rule.TheVariants as rules;

use crate::comparison::Comparison;
use crate::results::{BUDGET, MOST_TURNS, SHAPE, comes_to_run, is_result};
use std::alloc::Global;
use wb_heap_model::heap::Rule;
use wb_machine::{Heap, Machine, RunFault, Turn};
use wb_runs::failures::Failing;
use wb_sweep::result_under;
use wb_tree::script::Script;

/// The second attempt of a pair is one of at most this many attempts after the first failed attempt.
const MOST_AFTER: u32 = 40;

/// Compares each fork in which two attempts of a script's run fail with the whole run that must have the same result. `forks` is the result
/// of earlier comparisons, and is only passed on.
pub(crate) fn compare_pairs(
    alloc: Global,
    script: &Script,
    forks: u32,
) -> Result<Comparison, RunFault>
    requires { IsTrue (is_script script.now) }
{
    let mut lead = Machine::new(alloc, script, Rule::Number(0), BUDGET, SHAPE)?;
    let mut pairs = 0;
    for _ in 0..MOST_TURNS {
        if let Some(other) = other_with_next(alloc, script, &lead, &mut pairs)? {
            return Ok(Comparison::OtherFork(other));
        }
        if let Turn::Ended = lead.step()? {
            break;
        }
    }
    Ok(Comparison::Same {
        forks,
        pairs,
        met: 0,
    })
}

/// Tries the pairs whose first attempt is the attempt that the next turn makes. Returns the first pair whose fork's result differs from the
/// result of its whole run. Returns `None` if there is no such pair, or if the next turn makes no attempt. These forks are taken from a run
/// in which only the first attempt has failed. If the result of this run is wrong, the number of this attempt is returned. `pairs` counts
/// the pairs that are compared.
fn other_with_next(
    alloc: Global,
    script: &Script,
    lead: &Machine,
    pairs: &mut u32,
) -> Result<Option<Failing>, RunFault>
    requires script { IsTrue (is_script script.now) }
    requires rule { lead.now.rule ≡ rules.Number 0 }
    requires few { lead.now.attempts ≤ MOST_TURNS }
    requires lines { lead.now.keeps_rises ≡ false }
{
    if !lead.will_attempt() {
        return Ok(None);
    }
    let first = lead.attempts() + 1;
    let mut fork = lead.try_copy()?;
    fork.set_rule(Rule::Number(first));
    let other = match fork.step()? {
        Turn::GoesOn => other_after(alloc, script, first, &mut fork, pairs)?,
        Turn::Ended => None,
    };
    if comes_to_run(alloc, script, &Rule::Number(first), fork)? {
        Ok(other)
    } else {
        Ok(Some(Failing::Number(first)))
    }
}

/// Tries the pairs whose first attempt is `first`, which has failed in the run `fork`. Returns the first of these pairs whose own fork has
/// a result that differs from the result of its whole run; `None` if no result differs. Each fork takes over the memory of the fork before.
fn other_after(
    alloc: Global,
    script: &Script,
    first: u32,
    fork: &mut Machine,
    pairs: &mut u32,
) -> Result<Option<Failing>, RunFault>
    requires script { IsTrue (is_script script.now) }
    requires rule { fork.old.rule ≡ rules.Number first }
    requires failed { first ≤ fork.old.attempts }
    requires few { fork.old.attempts ≤ MOST_TURNS + 1 }
    requires lines { fork.old.keeps_rises ≡ false }
{
    let mut spare = None;
    for _ in 0..MOST_TURNS {
        if fork.will_attempt() {
            let second = fork.attempts() + 1;
            if second - first > MOST_AFTER {
                break;
            }
            if !is_pair_as_run(alloc, script, fork, first, second, &mut spare)? {
                return Ok(Some(Failing::Pair(first, second)));
            }
            *pairs = pairs.saturating_add(1);
        }
        if let Turn::Ended = fork.step()? {
            break;
        }
    }
    Ok(None)
}

/// Whether a fork in which the next attempt, attempt `second`, also fails has the same result as the whole run in which both attempts fail.
fn is_pair_as_run(
    alloc: Global,
    script: &Script,
    fork: &Machine,
    first: u32,
    second: u32,
    spare: &mut Option<Heap>,
) -> Result<bool, RunFault>
    requires script { IsTrue (is_script script.now) }
    requires rule { fork.now.rule ≡ rules.Number first }
    requires failed { first ≤ fork.now.attempts }
    requires next { second ≡ fork.now.attempts + 1 }
    requires going { fork.now.over ≡ false }
    requires well { fork.now.failed ≡ false }
    requires lines { fork.now.keeps_rises ≡ false }
{
    let run_result = result_under(fork, Rule::Pair(first, second), spare)?;
    is_result(alloc, script, &Rule::Pair(first, second), &run_result)
}
