//! Tries changes of a script that may mend what a run found, and says which one does. Each change is tried by reading the changed script
//! and running it: without failure, under the failures of the run that was found, and under each single failure. The work is limited by
//! steps, and not by time, so that a script always gets the same answer.

ghost use Rattle.std.specs.Prelude.{◌≡◌, ◌≢◌, Some, IfOk, IsTrue};
ghost use Rattle.wb_explain.specs.declared.runs.mends.words.Tried.TheVariants.{Whole};
ghost use Rattle.wb_runs.specs.SweepAnswers.{IsNoneFound};
ghost use Rattle.wb_runs.specs.declared.failures.Failures.TheVariants.{Single};
ghost use Rattle.wb_tree.specs.Sound.{is_script};

use std::alloc::Global;
use wb_basics::memory::NoMemory;
use wb_explain::runs::{
    Explanation, Mend, Tried, is_one_of_several, mend_found, mends_of, says_cause, text_with,
};
use wb_heap_model::heap::Rule;
use wb_history::{ScriptLines, WatchedRun};
use wb_machine::run_reporting;
use wb_meaning::conditions::Conditions;
use wb_meaning::run::{Lines, RunResult};
use wb_runs::failures::{Failing, Failures};
use wb_runs::progress::Silent;
use wb_runs::run_end::{RunEnd, is_fine};
use wb_sweep::sweep_whole;
use wb_tree::script::Script;

/// How many steps the runs of all changed scripts may take together, if each takes as many steps as the run without failure.
const MOST_STEPS: u64 = 1_000_000;

/// Returns what a run found, with a change of the script that mends it. If the change leaves no single failure that leaks or panics, it
/// replaces all other advice, which isn't tried. The explanation stays as it is if no change is known to mend the script, or if the run
/// without failure isn't fine. The only error is that memory ran out.
pub fn with_mend(
    alloc: Global,
    script: &Script,
    lines: &ScriptLines<'_>,
    found: &WatchedRun<'_>,
    said: Explanation,
) -> Result<Explanation, NoMemory>
    requires { IsTrue (is_script script.now) }
{
    let Ok(Some((mend, tried))) = best_mend(alloc, script, lines, found) else {
        return Ok(said);
    };
    let has_many = has_many_failures(&found.parameters.rule);
    let help = mend_found(alloc, lines, mend, tried, has_many)?;
    match tried {
        Tried::Whole if !is_one_of_several(mend) => {
            Ok(said.with_only_help(alloc, &help, !says_cause(mend))?)
        }
        Tried::Whole | Tried::ThisFailure => {
            let mut said = said;
            said.add(&help)?;
            Ok(said)
        }
    }
}

/// Whether a rule makes more than one attempt fail.
fn has_many_failures(rule: &Rule) -> bool {
    match rule {
        Rule::Unlimited | Rule::Limit(_) | Rule::Number(_) => false,
        Rule::Every(_) | Rule::From(_) | Rule::Pair(..) | Rule::Set(_) => true,
    }
}

/// The change of a script that mends it best; `None` if no change is known to mend it, or if the run without failure isn't fine. The only
/// error is that memory ran out.
fn best_mend<'a>(
    alloc: Global,
    script: &Script,
    lines: &ScriptLines<'a>,
    found: &WatchedRun<'_>,
) -> Result<Option<(Mend<'a>, Tried)>, NoMemory>
    requires { IsTrue (is_script script.now) }
{
    let (budget, shape) = (found.parameters.budget, found.parameters.shape);
    let Some(conditions) = Conditions::new(budget, shape) else {
        return Ok(None);
    };
    match fine_run(alloc, script, Rule::Unlimited, conditions) {
        Some(plain) => best_beside(alloc, lines, found, &plain, conditions),
        None => Ok(None),
    }
}

/// The change that mends a script best, beside its run without failure. `conditions` are those of the run that was found.
fn best_beside<'a>(
    alloc: Global,
    lines: &ScriptLines<'a>,
    found: &WatchedRun<'_>,
    plain: &RunResult,
    conditions: Conditions,
) -> Result<Option<(Mend<'a>, Tried)>, NoMemory> {
    let mends = mends_of(alloc, lines, found)?;
    let most = plain.steps.saturating_mul(2).saturating_add(100);
    let trial = Trial {
        alloc,
        lines,
        plain,
        rule: &found.parameters.rule,
        conditions: Conditions {
            budget: conditions.budget.min(most),
            shape: conditions.shape,
        },
    };
    trial.best_of(mends.as_slice())
}

/// The run of a script under a rule; `None` if it isn't fine, or if memory ran out.
fn fine_run(alloc: Global, script: &Script, rule: Rule, conditions: Conditions) -> Option<RunResult>
    requires { IsTrue (is_script script.now) }
{
    let ran = run_reporting(alloc, script, rule, conditions, &mut Silent).ok()?;
    if is_fine(&ran.outcome) {
        Some(ran)
    } else {
        None
    }
}

/// What changed scripts are tried with: the lines of the script as it is, its run without failure, and how the run that was found was made.
#[derive(Clone, Copy)]
struct Trial<'a> {
    alloc: Global,
    lines: &'a ScriptLines<'a>,
    plain: &'a RunResult,
    rule: &'a Rule,
    conditions: Conditions,
}

impl<'a> Trial<'a> {
    /// The first change after which no single failure leaks or panics; else the first one after which the failures that were found no longer
    /// do so; `None` if no change does either. The only error is that memory ran out.
    fn best_of<'m>(&self, mends: &[Mend<'m>]) -> Result<Option<(Mend<'m>, Tried)>, NoMemory> {
        let (mut best, mut left) = (None, MOST_STEPS);
        let cost = cost_of(self.plain);
        for mend in mends {
            if left < cost {
                break;
            }
            left = left.saturating_sub(cost);
            match self.try_mend(*mend)? {
                Some(Tried::Whole) => return Ok(Some((*mend, Tried::Whole))),
                Some(Tried::ThisFailure) if best.is_none() => {
                    best = Some((*mend, Tried::ThisFailure));
                }
                Some(Tried::ThisFailure) | None => {}
            }
        }
        Ok(best)
    }

    /// What a script does with a change; `None` if the change makes no script, or doesn't mend it. The only error is that memory ran out.
    fn try_mend(&self, mend: Mend<'_>) -> Result<Option<Tried>, NoMemory> {
        let text = text_with(self.alloc, self.lines, mend)?;
        match wb_script::read(self.alloc, text.as_bytes()) {
            Ok(changed) => self.try_script(&changed),
            Err(_) => Ok(None),
        }
    }

    /// What a changed script does; `None` if the change doesn't mend it. The only error is that memory ran out.
    fn try_script(&self, changed: &Script) -> Result<Option<Tried>, NoMemory>
        requires script { IsTrue (is_script changed.now) }
        ensures whole { IfOk result (λ tried. tried ≡ Some Whole →
            IsNoneFound Single changed.now self.now.conditions.budget self.now.conditions.shape) }
    {
        let rule = self.rule.try_copy()?;
        if self.prints_same(changed) && self.is_fine_under(changed, rule) {
            Ok(self.sweep_script(changed))
        } else {
            Ok(None)
        }
    }

    /// Whether a changed script, without failure, ends and prints as the script does.
    fn prints_same(&self, changed: &Script) -> bool
        requires { IsTrue (is_script changed.now) }
    {
        match fine_run(self.alloc, changed, Rule::Unlimited, self.conditions) {
            Some(ran) => is_same(&ran, self.plain),
            None => false,
        }
    }

    fn is_fine_under(&self, changed: &Script, rule: Rule) -> bool
        requires { IsTrue (is_script changed.now) }
    {
        fine_run(self.alloc, changed, rule, self.conditions).is_some()
    }

    /// What single failures do with a script that is fine under the failures that were found; `None` if they leak or panic where they did
    /// before.
    fn sweep_script(&self, changed: &Script) -> Option<Tried>
        requires script { IsTrue (is_script changed.now) }
        ensures whole { result ≡ Some Whole →
            IsNoneFound Single changed.now self.now.conditions.budget self.now.conditions.shape }
    {
        let (failures, conditions) = (Failures::Single, self.conditions);
        match sweep_whole(self.alloc, changed, failures, conditions, &mut Silent) {
            Ok(swept) => match swept.found {
                None => Some(Tried::Whole),
                Some(found) => self.after_found(&found.at),
            },
            Err(_) => None,
        }
    }

    /// What is to be said if a single failure still leaks or panics.
    fn after_found(&self, at: &Failing) -> Option<Tried>
        ensures { result ≢ Some Whole }
    {
        match (at, self.rule) {
            (Failing::Number(other), Rule::Number(number)) if other > number => {
                Some(Tried::ThisFailure)
            }
            _ => None,
        }
    }
}

/// What it costs to try a change, in steps, if each run takes as many as the run without failure: a run for each attempt, and three more. A
/// step may go over the longest cell, so each 512 bytes of that cell make every step cost one more.
fn cost_of(plain: &RunResult) -> u64 {
    let mut longest = 0;
    for attempt in plain.trace.as_slice() {
        if longest < attempt.length {
            longest = attempt.length;
        }
    }
    let each = u64::from(plain.steps).saturating_mul(u64::from(longest / 512).saturating_add(1));
    each.saturating_mul((plain.trace.len() as u64).saturating_add(3))
}

/// Whether two runs that are fine end alike and print the same.
fn is_same(one: &RunResult, other: &RunResult) -> bool {
    RunEnd::of(&one.outcome) == RunEnd::of(&other.outcome) && prints_same(&one.lines, &other.lines)
}

fn prints_same(lines: &Lines, others: &Lines) -> bool {
    if lines.len() != others.len() {
        return false;
    }
    for index in 0..lines.len() {
        if let (Some(line), Some(other)) = (lines.get(index), others.get(index))
            && line.as_slice() != other.as_slice()
        {
            return false;
        }
    }
    true
}
