//! The text on the additional questions that `check` asks if it found nothing. The module `unasked` answers these questions, and limits the
//! work for them.

ghost use Rattle.std.specs.Prelude.{IsTrue};
ghost use Rattle.wb_tree.specs.Sound.{is_script};

use crate::asked::{budget_of, parameters_of};
use crate::run_shown::explain_run;
use crate::unasked::{Verdict, ask, is_open};
use std::alloc::Global;
use wb_basics::memory::NoMemory;
use wb_explain::runs::{
    Explanation, Question, ShellOptions, moves_with_room, nothing_else, unasked_found,
    undecided_question,
};
use wb_heap_model::heap::{Rule, Shape};
use wb_history::{Keep, RunParameters, ScriptLines, WatchedRun};
use wb_tree::script::Script;
use wb_watch::watch_run;
use workbench::Command;

/// The additional questions of `check`, in the order in which it asks them.
const QUESTIONS: [Question; 3] = [Question::Persistent, Question::Sets, Question::Lengths];

/// Returns the text on the additional questions of a check that found nothing. The text lists the questions that stay open, up to the first
/// question whose answer shows a leak or a panic. At its end, the text shows this answer and its run. If all questions are settled and no
/// answer shows a leak or a panic, the text says this. The only error is that memory ran out.
pub fn explain_unasked(
    rt: &HostRuntime,
    command: &Command,
    script: &Script,
    lines: &ScriptLines<'_>,
) -> Result<Explanation, NoMemory>
    requires { IsTrue (is_script script.now) }
{
    let alloc = rt.alloc();
    let mut said = Explanation::new(alloc);
    let (mut asked, mut all_fine) = (false, true);
    for question in QUESTIONS {
        if !is_open(command, question) {
            continue;
        }
        asked = true;
        let options = options_for(command, question);
        let verdict = ask(rt, command, script, question);
        if verdict.shows().is_some() {
            let shown = explain_shown(alloc, command, script, lines, &verdict, options)?;
            said.add(&shown)?;
            return Ok(said);
        }
        if let Verdict::Undecided = verdict {
            all_fine = false;
            let open = undecided_question(alloc, lines, question, options)?;
            said.add(&open)?;
        }
    }
    if asked && all_fine {
        let nothing = nothing_else(alloc, lines)?;
        said.add(&nothing)?;
    }
    Ok(said)
}

/// The options of the command that asks only this question.
fn options_for(command: &Command, question: Question) -> ShellOptions {
    let moving = command.shape.moving || question == Question::Sets;
    ShellOptions {
        budget: budget_of(command),
        shape: Shape {
            moving,
            ..command.shape
        },
    }
}

/// The text on what a verdict shows, and on its run; empty if it shows nothing. The only error is that memory ran out.
fn explain_shown(
    alloc: Global,
    command: &Command,
    script: &Script,
    lines: &ScriptLines<'_>,
    verdict: &Verdict,
    options: ShellOptions,
) -> Result<Explanation, NoMemory>
    requires { IsTrue (is_script script.now) }
{
    let Some(shown) = verdict.shows() else {
        return Ok(Explanation::new(alloc));
    };
    let run = watch_verdict(alloc, command, script, verdict)?;
    let mut said = unasked_found(alloc, lines, shown, has_moves(run.as_ref()), options)?;
    if let Some(run) = &run {
        let more = explain_run(alloc, command, script, lines, run)?;
        said.add(&more)?;
    }
    Ok(said)
}

/// Whether a cell that grew moved in a run though it had room; true if there is no run to look at.
fn has_moves(run: Option<&WatchedRun<'_>>) -> bool {
    match run {
        Some(run) => moves_with_room(run),
        None => true,
    }
}

/// The run that a verdict shows; `None` if the verdict shows no run. The only error is that memory ran out.
fn watch_verdict<'a>(
    alloc: Global,
    command: &Command,
    script: &'a Script,
    verdict: &Verdict,
) -> Result<Option<WatchedRun<'a>>, NoMemory>
    requires { IsTrue (is_script script.now) }
{
    let (rule, question) = match verdict {
        Verdict::Fine | Verdict::Undecided => return Ok(None),
        Verdict::From(first, _) => (Rule::From(*first), Question::Persistent),
        Verdict::Length(_, length) => (Rule::Limit(*length), Question::Lengths),
        Verdict::Set(at, _) => (at.try_copy()?.rule(), Question::Sets),
    };
    let parameters = RunParameters {
        shape: options_for(command, question).shape,
        ..parameters_of(command, rule)
    };
    watch_run(alloc, script, parameters, Keep::Named)
}
