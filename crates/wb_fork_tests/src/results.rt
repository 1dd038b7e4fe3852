//! Comparisons of the results of runs. These comparisons include everything that a run reports.

ghost use Rattle.std.specs.Prelude.{IsTrue};
ghost use Rattle.wb_tree.specs.Sound.{is_script};

use std::alloc::Global;
use wb_heap_model::heap::{Rule, Shape};
use wb_heap_model::reported::Leaks;
use wb_machine::{Machine, RunFault, run};
use wb_meaning::run::{Lines, Outcome, RunResult, Why};
use wb_tree::script::Script;

/// The greatest number of steps of each run.
pub(crate) const BUDGET: u32 = 100_000;

pub(crate) const SHAPE: Shape = Shape {
    min: 4096,
    step: 4096,
    moving: false,
};
/// A shape like `SHAPE`, but each cell that grows moves.
pub(crate) const MOVING: Shape = Shape {
    min: 4096,
    step: 4096,
    moving: true,
};

/// The most turns that a run can take: the first turn, one turn for each step of the budget, and one turn that cuts the run.
pub(crate) const MOST_TURNS: u32 = BUDGET + 2;

/// How far a run has come.
#[derive(Clone, Copy, Debug, PartialEq, Eq)]
pub(crate) struct Reached {
    pub(crate) attempts: u32,
    pub(crate) steps: u32,
}

/// Whether a run under way, of this script and with this rule, will have the same result as the whole run.
pub(crate) fn comes_to_run(
    alloc: Global,
    script: &Script,
    rule: &Rule,
    machine: Machine,
) -> Result<bool, RunFault>
    requires { IsTrue (is_script script.now) }
{
    let run_result = machine.run_to_end()?;
    is_result(alloc, script, rule, &run_result)
}

/// Whether the whole run of a script with this rule has this result.
pub(crate) fn is_result(
    alloc: Global,
    script: &Script,
    rule: &Rule,
    run_result: &RunResult,
) -> Result<bool, RunFault>
    requires { IsTrue (is_script script.now) }
{
    let whole = run(alloc, script, rule.try_copy()?, BUDGET, SHAPE)?;
    Ok(is_same(&whole, run_result))
}

/// Whether two results are equal in everything that runs report.
fn is_same(one: &RunResult, other: &RunResult) -> bool {
    let RunResult {
        outcome,
        trace,
        lines,
        notes,
        steps,
    } = one;
    *steps == other.steps
        && is_same_outcome(outcome, &other.outcome)
        && trace.as_slice() == other.trace.as_slice()
        && notes.as_slice() == other.notes.as_slice()
        && are_same_lines(lines, &other.lines)
}

fn is_same_outcome(one: &Outcome, other: &Outcome) -> bool {
    match (one, other) {
        (
            Outcome::Ended { left, leaks },
            Outcome::Ended {
                left: other_left,
                leaks: other_leaks,
            },
        ) => *left == *other_left && leaks.as_slice() == other_leaks.as_slice(),
        (Outcome::Panicked(one), Outcome::Panicked(other)) => *one == *other,
        (Outcome::NoCleanup, Outcome::NoCleanup) => true,
        (Outcome::Cut(one), Outcome::Cut(other)) => *one == *other,
        _ => false,
    }
}

/// Whether two runs went on in the same way, one from `here` on and the other from `there` on, except for allocation numbers. The two runs
/// must have taken equally many further steps, made equally many further attempts, and ended alike, with leaks of the same places and
/// lengths. The result is `true` if the budget cuts one of the runs.
pub(crate) fn is_same_from(
    one: &RunResult,
    here: Reached,
    other: &RunResult,
    there: Reached,
) -> bool {
    if is_past_budget(&one.outcome) || is_past_budget(&other.outcome) {
        return true;
    }
    one.steps.saturating_sub(here.steps) == other.steps.saturating_sub(there.steps)
        && one
            .trace
            .as_slice()
            .iter()
            .skip(here.attempts as usize)
            .count()
            == other
                .trace
                .as_slice()
                .iter()
                .skip(there.attempts as usize)
                .count()
        && is_like_outcome(&one.outcome, &other.outcome)
}

fn is_past_budget(outcome: &Outcome) -> bool {
    match outcome {
        Outcome::Cut(Why::Budget) => true,
        _ => false,
    }
}

/// Whether two outcomes are equal except for the allocation numbers of leaks.
fn is_like_outcome(one: &Outcome, other: &Outcome) -> bool {
    match (one, other) {
        (
            Outcome::Ended { left, leaks },
            Outcome::Ended {
                left: other_left,
                leaks: other_leaks,
            },
        ) => *left == *other_left && are_like_leaks(leaks, other_leaks),
        _ => is_same_outcome(one, other),
    }
}

fn are_like_leaks(one: &Leaks, other: &Leaks) -> bool {
    if one.len() != other.len() {
        return false;
    }
    for (leak, other) in one.as_slice().iter().zip(other.as_slice()) {
        if leak.place != other.place || leak.length != other.length {
            return false;
        }
    }
    true
}

fn are_same_lines(one: &Lines, other: &Lines) -> bool {
    if one.len() != other.len() {
        return false;
    }
    for (line, other) in one.as_slice().iter().zip(other.as_slice()) {
        if line.as_slice() != other.as_slice() {
            return false;
        }
    }
    true
}
