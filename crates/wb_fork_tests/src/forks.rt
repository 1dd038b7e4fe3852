//! Compares each fork of a run with the whole run that must have the same result.

ghost use Rattle.std.specs.Prelude.{◌≡◌, ◌+◌, false, IsTrue};
ghost use Rattle.wb_tree.specs.Sound.{is_script};
ghost use Rattle.wb_runs.specs.Sweeps.{rule_of};

use crate::comparison::Comparison;
use crate::results::{BUDGET, MOST_TURNS, SHAPE, comes_to_run, is_result};
use std::alloc::Global;
use wb_machine::{Heap, Machine, RunFault, Turn};
use wb_runs::failures::Failures;
use wb_sweep::result_under;
use wb_tree::script::Script;

/// Takes forks of a script's run without failure, one for each failure of this kind, and compares each fork with the whole run with the
/// same failure. Then compares the run from which the forks were taken with a whole run without failure.
pub(crate) fn compare_forks(
    alloc: Global,
    script: &Script,
    failures: Failures,
) -> Result<Comparison, RunFault>
    requires { IsTrue (is_script script.now) }
{
    let rule = failures.at(0).rule();
    let mut lead = Machine::new(alloc, script, rule, BUDGET, SHAPE)?;
    let forks = walk(alloc, script, failures, &mut lead);
    if comes_to_run(alloc, script, &failures.at(0).rule(), lead)? {
        forks
    } else {
        Ok(Comparison::OtherRun)
    }
}

/// Takes the turns of a run. Before each turn that makes an attempt, takes a fork and compares it with its whole run. Stops at the first
/// fork whose result differs. Each fork takes over the memory of the fork before.
fn walk(
    alloc: Global,
    script: &Script,
    failures: Failures,
    lead: &mut Machine,
) -> Result<Comparison, RunFault>
    requires script { IsTrue (is_script script.now) }
    requires rule { lead.old.rule ≡ rule_of failures 0 }
    requires first { lead.old.attempts ≡ 0 }
    requires lines { lead.old.keeps_rises ≡ false }
    ensures { lead.new.keeps_rises ≡ false }
{
    let mut forks = 0;
    let mut spare = None;
    for _ in 0..MOST_TURNS {
        if lead.will_attempt() {
            let number = lead.attempts() + 1;
            if !is_fork_as_run(alloc, script, failures, lead, number, &mut spare)? {
                return Ok(Comparison::OtherFork(failures.at(number)));
            }
            forks = number;
        }
        if let Turn::Ended = lead.step()? {
            break;
        }
    }
    Ok(Comparison::Same {
        forks,
        pairs: 0,
        met: 0,
    })
}

/// Whether a fork has the same result as the whole run with the same failure. In the fork, the next attempt, attempt `number`, is the first
/// to fail.
fn is_fork_as_run(
    alloc: Global,
    script: &Script,
    failures: Failures,
    lead: &Machine,
    number: u32,
    spare: &mut Option<Heap>,
) -> Result<bool, RunFault>
    requires script { IsTrue (is_script script.now) }
    requires rule { lead.now.rule ≡ rule_of failures 0 }
    requires next { number ≡ lead.now.attempts + 1 }
    requires going { lead.now.over ≡ false }
    requires well { lead.now.failed ≡ false }
    requires lines { lead.now.keeps_rises ≡ false }
{
    let run_result = result_under(lead, failures.at(number).rule(), spare)?;
    is_result(alloc, script, &failures.at(number).rule(), &run_result)
}
