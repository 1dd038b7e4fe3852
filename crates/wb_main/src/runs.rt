//! An answer, and the runs that the answer is about. Each run is watched once, for both its explanation and its picture.

ghost use Rattle.std.specs.Prelude.{◌≡◌, IfOk, IfSome, IsTrue, option_and_then};
ghost use Rattle.wb_lengths.specs.Lengths.{first_bad};
ghost use Rattle.wb_main.specs.Asked.{IsRuleToWatch, IsShownRun};
ghost use Rattle.wb_tree.specs.Sound.{is_script};

use crate::asked::{parameters_of, rule_named};
use std::alloc::Global;
use wb_basics::memory::NoMemory;
use wb_heap_model::heap::Rule;
use wb_history::{Keep, WatchedRun};
use wb_lengths::first_bad;
use wb_tree::script::Script;
use wb_watch::watch_run;
use workbench::exit_status::NOTHING_FOUND;
use workbench::findings::Findings;
use workbench::{Command, Task};

/// An answer: the command, what was found, and the exit status.
#[derive(Clone, Copy)]
pub struct Answer<'a> {
    pub command: &'a Command,
    pub findings: &'a Findings,
    pub status: u8,
}

/// The runs that the report is about. Only runs that are made once more, from beginning to end, are among them.
#[derive(Drop)]
pub struct Runs<'a> {
    /// The run without failure; `None` if neither a picture nor the table of rises needs this run, or if `found` is this run.
    pub plain: Option<WatchedRun<'a>>,
    /// The run that was asked for, or the run that was found; `None` if no such run is explained or drawn.
    pub found: Option<WatchedRun<'a>>,
}

/// Watches the runs of an answer. The only error is that memory ran out.
pub fn runs_of<'a>(
    alloc: Global,
    answer: Answer<'_>,
    script: &'a Script,
) -> Result<Runs<'a>, NoMemory>
    requires script { IsTrue (is_script script.now) }
    ensures shown { IfOk result (λ runs. IfSome runs.found
        (IsShownRun answer.entry.command.now answer.entry.findings.now script.now)) }
{
    let command = answer.command;
    let is_whole = is_kept_whole(answer);
    let keep = if is_whole { Keep::Drawn } else { Keep::Named };
    let found = shown_run(alloc, answer, script, keep)?;
    let is_alone = match (&command.task, &found) {
        (Task::Run(_), _) => true,
        (_, Some(found)) => is_plain(found),
        _ => false,
    };
    let plain = if is_whole && !is_alone {
        watch_run(alloc, script, parameters_of(command, Rule::Unlimited), keep)?
    } else {
        None
    };
    Ok(Runs { plain, found })
}

/// Watches the run that the report shows; `None` if no run is to be explained or drawn. The only error is that memory ran out.
fn shown_run<'a>(
    alloc: Global,
    answer: Answer<'_>,
    script: &'a Script,
    keep: Keep,
) -> Result<Option<WatchedRun<'a>>, NoMemory>
    requires { IsTrue (is_script script.now) }
    ensures { IfOk result (λ shown. IfSome shown
        (IsShownRun answer.entry.command.now answer.entry.findings.now script.now)) }
{
    let Answer {
        command,
        findings,
        status,
    } = answer;
    let is_drawn = command.picture.is_some();
    match rule_to_watch(&command.task, findings, status, is_drawn)? {
        Some(rule) => watch_run(alloc, script, parameters_of(command, rule), keep),
        None => Ok(None),
    }
}

/// Whether a run is the run without failure: its rule makes no attempt fail.
fn is_plain(run: &WatchedRun<'_>) -> bool {
    matches!(
        run.parameters.rule,
        Rule::Unlimited | Rule::Number(0) | Rule::Every(0) | Rule::From(0)
    )
}

/// Whether the runs are watched so that everything that a picture draws is kept. A picture needs all of this, and so does the text on what
/// fills the heap.
fn is_kept_whole(answer: Answer<'_>) -> bool {
    answer.command.picture.is_some() || answer.findings.values.rises.is_some()
}

/// Returns the run without failure, if it was watched with all of its attempts and cells kept; else `None`.
pub fn plain_run<'a>(answer: Answer<'_>, runs: &'a Runs<'a>) -> Option<&'a WatchedRun<'a>> {
    match (&runs.plain, &runs.found) {
        (Some(plain), _) => Some(plain),
        (None, Some(found)) if is_kept_whole(answer) && is_plain(found) => Some(found),
        _ => None,
    }
}

/// The rule of the run to explain and to draw. For `run`, the result is `None` if no rule was given, nothing was found and no picture is
/// drawn. For other tasks, the result is `None` if the report names no failure and no length. The only error is that memory ran
/// out.
fn rule_to_watch(
    task: &Task,
    findings: &Findings,
    status: u8,
    is_drawn: bool,
) -> Result<Option<Rule>, NoMemory>
    ensures { IfOk result (IsRuleToWatch task.now findings.now) }
{
    Ok(match task {
        Task::Run(Rule::Unlimited) if status == NOTHING_FOUND && !is_drawn => None,
        Task::Run(rule) => Some(rule.try_copy()?),
        Task::Lengths => length_to_explain(findings).map(Rule::Limit),
        Task::Size | Task::Sweep(..) | Task::Check(_) => rule_named(findings)?,
    })
}

/// The least length of a heap whose run leaks or panics, in bytes; `None` if there is no such length.
fn length_to_explain(findings: &Findings) -> Option<u32>
    ensures { result ≡ option_and_then first_bad findings.now.values.ranges }
{
    first_bad(findings.values.ranges.as_ref()?)
}

/// Returns whether there is a run to explain even if nothing was found. For `run`, there is such a run if a rule was given. For other
/// tasks, there is such a run if the report names a failure or a length.
pub fn has_run_to_explain(task: &Task, findings: &Findings) -> bool {
    match task {
        Task::Run(Rule::Unlimited) => false,
        Task::Run(_) => true,
        Task::Lengths => length_to_explain(findings).is_some(),
        _ => findings.values.named.is_some(),
    }
}
