//! Compares each fork that meets the run without failure with this run. In each fork, one attempt fails. A fork and the run meet when they
//! are in the same state, except for allocation numbers.

ghost use Rattle.std.specs.Prelude.{◌≡◌, ◌≤◌, false, IsTrue};
ghost use Rattle.wb_tree.specs.Sound.{is_script};
ghost use Rattle.wb_heap_model.specs.declared.heap.Rule.TheVariants as rules;
ghost use Rattle.wb_machine.specs.Turns.{IsSameRun};

use crate::comparison::Comparison;
use crate::results::{BUDGET, MOST_TURNS, Reached, is_same_from};
use std::alloc::Global;
use wb_basics::memory::NoMemory;
use wb_heap_model::heap::{Rule, Shape};
use wb_machine::{Machine, RunFault, Turn};
use wb_meaning::run::RunResult;
use wb_tree::script::Script;

/// How many attempts a fork may make after its failed attempt before the search for a meeting is given up. The run without failure may be
/// ahead by at most this many attempts.
const MOST_AFTER: u32 = 8;

/// Takes forks in which one attempt fails, in a heap of this shape. Compares each fork that meets the run without failure with this run,
/// and counts the forks that meet it. `forks` and `pairs` are results of earlier comparisons, and are only passed on.
pub(crate) fn compare_meetings(
    alloc: Global,
    script: &Script,
    shape: Shape,
    forks: u32,
    pairs: u32,
) -> Result<Comparison, RunFault>
    requires { IsTrue (is_script script.now) }
{
    let mut lead = Machine::new(alloc, script, Rule::Number(0), BUDGET, shape)?;
    let mut met: u32 = 0;
    for _ in 0..MOST_TURNS {
        match meets_as_run(&lead)? {
            Some(true) => met = met.saturating_add(1),
            Some(false) => return Ok(Comparison::OtherMeeting(lead.attempts().saturating_add(1))),
            None => {}
        }
        if let Turn::Ended = lead.step()? {
            break;
        }
    }
    Ok(Comparison::Same { forks, pairs, met })
}

/// Whether the fork in which the next attempt fails goes on like the run without failure after the two meet. The result is `None` if the
/// next turn makes no attempt, or if the two don't meet soon.
fn meets_as_run(lead: &Machine) -> Result<Option<bool>, NoMemory>
    requires rule { lead.now.rule ≡ rules.Number 0 }
    requires few { lead.now.attempts ≤ MOST_TURNS }
    requires lines { lead.now.keeps_rises ≡ false }
{
    if !lead.will_attempt() {
        return Ok(None);
    }
    let mut ahead = lead.try_copy()?;
    meets_along(lead, &mut ahead)
}

/// Does what `meets_as_run` does. `ahead` is a copy of the run without failure, which goes ahead attempt by attempt.
fn meets_along(lead: &Machine, ahead: &mut Machine) -> Result<Option<bool>, NoMemory>
    requires script { ahead.old.script ≡ lead.now.script }
    requires rule { lead.now.rule ≡ rules.Number 0 }
    requires few { lead.now.attempts ≤ MOST_TURNS }
    requires lines { lead.now.keeps_rises ≡ false }
    requires going { lead.now.over ≡ false }
    requires well { lead.now.failed ≡ false }
{
    for _ in 0..MOST_AFTER {
        go_to_next_attempt(ahead)?;
        let met = next_meets(lead, ahead)?;
        if met.is_some() {
            return Ok(met);
        }
    }
    Ok(None)
}

/// Does what `meets_along` does, but only for the state in which `ahead` is now.
fn next_meets(lead: &Machine, ahead: &Machine) -> Result<Option<bool>, NoMemory>
    requires script { ahead.now.script ≡ lead.now.script }
    requires rule { lead.now.rule ≡ rules.Number 0 }
    requires few { lead.now.attempts ≤ MOST_TURNS }
    requires lines { lead.now.keeps_rises ≡ false }
    requires going { lead.now.over ≡ false }
    requires well { lead.now.failed ≡ false }
{
    let number = lead.attempts() + 1;
    let mut fork = lead.try_copy()?;
    fork.set_rule(Rule::Number(number));
    meets_then_alike(&mut fork, ahead, number)
}

/// Whether a fork goes on like another run after the two meet. The result is `None` if the two don't meet soon.
fn meets_then_alike(
    fork: &mut Machine,
    ahead: &Machine,
    number: u32,
) -> Result<Option<bool>, NoMemory>
    requires script { ahead.now.script ≡ fork.old.script }
{
    if !meets(fork, ahead, number)? {
        return Ok(None);
    }
    Ok(Some(go_on_alike(fork, ahead)?))
}

/// Takes turns until one more attempt has been made and the next turn makes another attempt. If the run makes no further attempt, takes
/// turns to the run's end.
fn go_to_next_attempt(ahead: &mut Machine) -> Result<(), NoMemory>
    ensures { IsSameRun ahead.old ahead.new }
{
    let made = ahead.attempts();
    for _ in 0..MOST_TURNS {
        if ahead.attempts() > made && ahead.will_attempt() {
            return Ok(());
        }
        if let Turn::Ended = ahead.step()? {
            return Ok(());
        }
    }
    Ok(())
}

/// Lets a fork in which attempt `number` fails go on for a few attempts. Returns whether the fork comes to the state in which `ahead` is.
fn meets(fork: &mut Machine, ahead: &Machine, number: u32) -> Result<bool, NoMemory>
    requires script { ahead.now.script ≡ fork.old.script }
{
    let last = number.saturating_add(MOST_AFTER);
    for _ in 0..MOST_TURNS {
        if fork.attempts() > last {
            return Ok(false);
        }
        if fork.attempts() >= number && fork.goes_on_like(ahead, number.saturating_sub(1)) {
            return Ok(true);
        }
        if let Turn::Ended = fork.step()? {
            return Ok(false);
        }
    }
    Ok(false)
}

/// Whether two runs go on in the same way from their present states, except for allocation numbers.
fn go_on_alike(fork: &Machine, ahead: &Machine) -> Result<bool, NoMemory> {
    let here = Reached {
        attempts: fork.attempts(),
        steps: fork.steps(),
    };
    let there = Reached {
        attempts: ahead.attempts(),
        steps: ahead.steps(),
    };
    let one = end_of(fork)?;
    let other = end_of(ahead)?;
    Ok(is_same_from(&one, here, &other, there))
}

/// The result that a run under way will have. The run itself stays unchanged.
fn end_of(machine: &Machine) -> Result<RunResult, NoMemory> {
    machine.try_copy()?.run_to_end()
}
