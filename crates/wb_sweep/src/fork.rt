//! Copies of a run that go on under another rule. This file doesn't decide which rules a sweep tries.

ghost use Rattle.std.specs.Prelude.{◌≡◌, false, IfOk};
ghost use Rattle.wb_heap_model.specs.SameRules.{SameSoFar};
ghost use Rattle.wb_meaning.specs.Run.{run};

use wb_basics::memory::NoMemory;
use wb_heap_model::heap::Rule;
use wb_machine::{Finished, Heap, Machine};
use wb_meaning::run::{Outcome, RunResult};
use wb_runs::progress::Silent;

/// A copy of a run under way. The copy goes on under another rule. Both rules make the same past attempts fail, and neither rule is a
/// limit. The run itself stays as it is.
///
/// The copy takes the memory in `spare`, if there is any.
pub(crate) fn fork_under<'a>(
    lead: &Machine<'a>,
    rule: Rule,
    spare: &mut Option<Heap>,
) -> Result<Machine<'a>, NoMemory>
    requires same { SameSoFar rule lead.now.rule lead.now.attempts }
    requires going { lead.now.over ≡ false }
    requires well { lead.now.failed ≡ false }
    ensures { IfOk result (λ fork. fork ≡ record lead.now { rule = rule }) }
{
    let mut fork = lead.try_copy_over(spare.take())?;
    fork.set_rule(rule);
    Ok(fork)
}

/// Takes a fork to its end, and returns the outcome of its run. The fork's memory is left in `spare`, except on `Err`.
pub(crate) fn end_fork(mut fork: Machine, spare: &mut Option<Heap>) -> Result<Outcome, NoMemory>
    ensures { IfOk result (λ outcome. outcome
        ≡ (run fork.entry.script fork.entry.rule fork.entry.budget fork.entry.shape).outcome) }
{
    fork.take_all_turns(&mut Silent)?;
    let ended = fork.ended()?;
    *spare = Some(fork.into_heap());
    Ok(ended.outcome)
}

/// The outcome of a run under way if it goes on under another rule. Both rules make the same past attempts fail, and neither rule is a
/// limit. A copy of the run goes on to its end, and the run itself stays as it is.
///
/// The copy takes the memory in `spare`, if there is any, and leaves its own memory in `spare`, except on `Err`.
pub(crate) fn outcome_under(
    lead: &Machine,
    rule: Rule,
    spare: &mut Option<Heap>,
) -> Result<Outcome, NoMemory>
    requires same { SameSoFar rule lead.now.rule lead.now.attempts }
    requires going { lead.now.over ≡ false }
    requires well { lead.now.failed ≡ false }
    ensures { IfOk result (λ outcome. outcome
        ≡ (run lead.now.script rule lead.now.budget lead.now.shape).outcome) }
{
    end_fork(fork_under(lead, rule, spare)?, spare)
}

/// The result of a run under way if it goes on under another rule. Both rules make the same past attempts fail, and neither rule is a
/// limit. A copy of the run goes on to its end, and the run itself stays as it is. The machine must be one that `Machine::new` made.
///
/// The copy takes the memory in `spare`, if there is any, and leaves its own memory in `spare`, except on `Err`.
pub fn result_under(
    lead: &Machine,
    rule: Rule,
    spare: &mut Option<Heap>,
) -> Result<RunResult, NoMemory>
    requires same { SameSoFar rule lead.now.rule lead.now.attempts }
    requires going { lead.now.over ≡ false }
    requires well { lead.now.failed ≡ false }
    requires lines { lead.now.keeps_rises ≡ false }
    ensures { IfOk result (λ run_result.
        run_result ≡ run lead.now.script rule lead.now.budget lead.now.shape) }
{
    let fork = fork_under(lead, rule, spare)?;
    let Finished { result, heap } = fork.finish()?;
    *spare = Some(heap);
    Ok(result)
}
