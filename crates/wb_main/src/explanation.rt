//! The explanation of an answer: the text on standard error, and the findings in this text.

ghost use Rattle.std.specs.Prelude.{IsTrue};
ghost use Rattle.wb_tree.specs.Sound.{is_script};

use crate::asked::{budget_of, many_states, parameters_of, search_of, source_name};
use crate::further::explain_unasked;
use crate::recorded::FirstFault;
use crate::run_shown::explain_run;
use crate::runs::{Answer, Runs, has_run_to_explain, plain_run};
use std::alloc::Global;
use wb_basics::limits::CEILING;
use wb_basics::memory::NoMemory;
use wb_explain::files::{Deed, file_fault};
use wb_explain::runs::{
    Explanation, greatest_bad, heaps_found, last_bad, lengths_found, longest_better, numbers_found,
    states_found,
};
use wb_heap_model::heap::Rule;
use wb_history::{History, ScriptLines};
use wb_runs::failures::Failures;
use wb_runs::lengths::LengthRange;
use wb_runs::number_ends::NumberEnd;
use wb_tree::script::Script;
use wb_watch::{Until, watch_attempts};
use workbench::exit_status::NOTHING_FOUND;
use workbench::findings::Findings;
use workbench::{Command, Search, Task};

/// Returns whether there is nothing to say of a report. For `size` and `check` there is always something to say. Of another task's report,
/// there is something to say if something was found, if a run is to be explained, or if a shorter heap does better.
pub fn has_nothing_to_say(answer: Answer<'_>) -> bool {
    match &answer.command.task {
        Task::Size | Task::Check(_) => false,
        Task::Run(_) | Task::Lengths | Task::Sweep(..) => is_found_nothing(answer),
    }
}

/// Whether nothing was found, there is no run to explain, and no shorter heap does better than a longer one.
fn is_found_nothing(answer: Answer<'_>) -> bool {
    answer.status == NOTHING_FOUND
        && !has_run_to_explain(&answer.command.task, answer.findings)
        && better_length(answer.findings).is_none()
}

/// The length of a heap in which the run does better than in some longer heap. The result is `None` if there is no such length, or if the
/// report has no table of lengths.
fn better_length(findings: &Findings) -> Option<u32> {
    match &findings.values.ranges {
        Some(ranges) => longest_better(ranges.as_slice()),
        None => None,
    }
}

/// Returns the text that says why the script could not be read, or why the report could not be written. The text is empty if no fault was
/// recorded. The only error is that memory ran out.
pub fn explain_fault(
    alloc: Global,
    command: &Command,
    first: FirstFault,
) -> Result<String, NoMemory> {
    let Some((deed, kind)) = first else {
        return Ok(String::new(alloc));
    };
    let name = match deed {
        Deed::Writing => "standard output",
        Deed::Opening | Deed::Reading => source_name(command, "standard input"),
    };
    Ok(file_fault(alloc, name, deed, kind)?)
}

/// Returns the explanation of these runs. The only error is that memory ran out.
pub fn explain_runs(
    rt: &HostRuntime,
    answer: Answer<'_>,
    script: &Script,
    lines: &ScriptLines<'_>,
    runs: &Runs<'_>,
) -> Result<Explanation, NoMemory>
    requires { IsTrue (is_script script.now) }
{
    let (alloc, command) = (rt.alloc(), answer.command);
    let mut said = explain_all(alloc, answer, script, lines, runs)?;
    if let Some(run) = &runs.found {
        let found = explain_run(alloc, command, script, lines, run)?;
        said.add(&found)?;
    }
    if let Some(met) = many_states(command, answer.findings) {
        let states = states_found(alloc, lines, met)?;
        said.add(&states)?;
    }
    if matches!(&command.task, Task::Check(_)) && answer.status == NOTHING_FOUND {
        let more = explain_unasked(rt, command, script, lines)?;
        said.add(&more)?;
    }
    Ok(said)
}

/// The text on what the report says of many runs. The report may say what shorter heaps refuse first, how runs end in heaps of every
/// length, or how the run of each number ends. For any other report, the text is empty. The text on numbers needs the run without failure,
/// up to the attempt with the last bad number. The run without failure is made once more, unless `runs` already holds the whole run.
fn explain_all(
    alloc: Global,
    answer: Answer<'_>,
    script: &Script,
    lines: &ScriptLines<'_>,
    runs: &Runs<'_>,
) -> Result<Explanation, NoMemory>
    requires { IsTrue (is_script script.now) }
{
    let Answer {
        command,
        findings,
        ..
    } = answer;
    if let Some(ranges) = &findings.values.ranges {
        return explain_heaps(alloc, command, ranges.as_slice(), script, lines);
    }
    let numbers = numbers_to_explain(&command.task, findings);
    if let Some(plain) = plain_run(answer, runs) {
        return explain_plain(alloc, answer, numbers, &plain.history, lines);
    }
    let Some((failures, ends)) = numbers else {
        return Ok(Explanation::new(alloc));
    };
    let until = Until::Attempt(last_bad(ends));
    let parameters = parameters_of(command, Rule::Unlimited);
    match watch_attempts(alloc, script, parameters, until)? {
        Some(attempts) => Ok(numbers_found(alloc, lines, &attempts, failures, ends)?),
        None => Ok(Explanation::new(alloc)),
    }
}

/// The text on what shorter heaps refuse first and on what fills the heap, unless the command asks for a brief text. The text on how the
/// run of each number ends follows, if `numbers` is given. Both texts use the history of the run without failure.
fn explain_plain(
    alloc: Global,
    answer: Answer<'_>,
    numbers: Option<(Failures, &[NumberEnd])>,
    history: &History<'_>,
    lines: &ScriptLines<'_>,
) -> Result<Explanation, NoMemory> {
    let mut found = match &answer.findings.values.rises {
        Some(rises) if !answer.command.brief => lengths_found(
            alloc,
            lines,
            history,
            rises.as_slice(),
        )?,
        _ => Explanation::new(alloc),
    };
    if let Some((failures, ends)) = numbers {
        let text = numbers_found(alloc, lines, &history.attempts, failures, ends)?;
        found.add(&text)?;
    }
    Ok(found)
}

/// The text on how runs end in heaps of every length.
fn explain_heaps(
    alloc: Global,
    command: &Command,
    ranges: &[LengthRange],
    script: &Script,
    lines: &ScriptLines<'_>,
) -> Result<Explanation, NoMemory>
    requires { IsTrue (is_script script.now) }
{
    let parameters = parameters_of(command, Rule::Limit(CEILING));
    let attempts = match greatest_bad(ranges) {
        Some(length) => watch_attempts(alloc, script, parameters, Until::Past(length))?,
        None => None,
    };
    let better = match longest_better(ranges) {
        Some(length) => {
            let parameters = parameters_of(command, Rule::Limit(length));
            watch_attempts(alloc, script, parameters, Until::Attempt(u32::MAX))?
        }
        None => None,
    };
    let budget = budget_of(command);
    Ok(heaps_found(
        alloc,
        lines,
        attempts.as_ref(),
        better.as_ref(),
        budget,
        ranges,
    )?)
}

/// Returns the kind of failures that the report lists, and how the run of each number ended. The result is `None` if the report lists no
/// numbers, or if fewer than two of the listed runs leak or panic. If only one run leaks or panics, it is explained anyway.
fn numbers_to_explain<'a>(
    task: &Task,
    findings: &'a Findings,
) -> Option<(Failures, &'a [NumberEnd])> {
    let failures = match search_of(task)? {
        Search::All(failures) | Search::Ends(failures) => failures,
        Search::Least(_) | Search::Sets(_) | Search::EverySet(_) => return None,
    };
    let ends = findings.values.all.as_ref()?.as_slice();
    if has_two_bad(ends) {
        Some((failures, ends))
    } else {
        None
    }
}

/// Whether the runs of at least two numbers leak or panic.
fn has_two_bad(ends: &[NumberEnd]) -> bool {
    let mut has_one = false;
    for told in ends {
        if told.end.is_bad() {
            if has_one {
                return true;
            }
            has_one = true;
        }
    }
    false
}
