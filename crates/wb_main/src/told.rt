//! Makes the texts that come in addition to an answer: the text for standard error, the picture, and the log. To make them, the script is
//! read once more, and each run that they are about is watched once. Changes of the script may be read and run besides (`tried_mends`).

ghost use Rattle.std.specs.Prelude.{IsTrue};
ghost use Rattle.wb_tree.specs.Sound.{is_script};

use crate::afterwards::Beside;
use crate::asked::script_name;
use crate::explanation::{explain_fault, explain_runs, has_nothing_to_say};
use crate::recorded::FirstFault;
use crate::runs::{Answer, Runs, runs_of};
use std::alloc::Global;
use wb_basics::memory::NoMemory;
use wb_explain::runs::Explanation;
use wb_history::{ScriptFile, ScriptLines};
use wb_mistakes::refused_script;
use wb_picture::{ShownRuns, Table, draw};
use wb_sarif::log_of;
use wb_tree::script::Script;
use workbench::Task;
use workbench::exit_status::READ_OR_WRITE_FAULT;
use workbench::findings::Findings;
use workbench::program::Exit;

/// The texts that are made in addition to an answer.
#[derive(Drop)]
pub struct Told {
    /// The text for standard error; empty if there is nothing to say.
    pub text: String,
    /// The picture and the log. A text is `None` if the command doesn't ask for it, or if memory runs out for it. Both texts are `None` if
    /// there is no report or if the script is rejected. The picture is empty if there is no run to draw.
    pub beside: Beside,
}

impl Told {
    fn of_text(text: String) -> Told {
        Told {
            text,
            beside: Beside::NOTHING,
        }
    }
}

/// Returns the texts that are made in addition to an answer. `exit` is what the program returned, and `first` is the first fault in
/// opening, reading or writing a file. The only error is that memory ran out.
pub fn tell_answer(rt: &HostRuntime, exit: &Exit, first: FirstFault) -> Result<Told, NoMemory> {
    let alloc = rt.alloc();
    let Some(command) = &exit.command else {
        return Ok(Told::of_text(String::new(alloc)));
    };
    if exit.status == READ_OR_WRITE_FAULT {
        let text = explain_fault(alloc, command, first)?;
        return Ok(Told::of_text(text));
    }
    let Some(findings) = &exit.findings else {
        return Ok(Told::of_text(String::new(alloc)));
    };
    let answer = Answer {
        command,
        findings,
        status: exit.status,
    };
    tell_findings(rt, answer)
}

/// Returns the texts that are made in addition to a report. The script isn't read once more if there is nothing to say and the command asks
/// for no picture and no log.
fn tell_findings(rt: &HostRuntime, answer: Answer<'_>) -> Result<Told, NoMemory> {
    let (alloc, command) = (rt.alloc(), answer.command);
    if command.picture.is_none() && command.sarif.is_none() && has_nothing_to_say(answer) {
        return Ok(Told::of_text(String::new(alloc)));
    }
    let bytes = answer.findings.bytes.as_slice();
    match wb_script::read(alloc, bytes) {
        Ok(script) => tell_runs(rt, answer, &script),
        Err(fault) => {
            let name = script_name(command);
            let text = refused_script(alloc, name, bytes, &fault)?;
            Ok(Told::of_text(text))
        }
    }
}

/// Returns the text on the runs of a report, and their picture and log if the command asks for these. The only error is that memory ran
/// out.
fn tell_runs(rt: &HostRuntime, answer: Answer<'_>, script: &Script) -> Result<Told, NoMemory>
    requires { IsTrue (is_script script.now) }
{
    let alloc = rt.alloc();
    let Ok(text) = str::from_utf8(answer.findings.bytes.as_slice()) else {
        return Ok(Told::of_text(String::new(alloc)));
    };
    let name = script_name(answer.command);
    let lines = ScriptLines::of(alloc, ScriptFile { name, text })?;
    let runs = runs_of(alloc, answer, script)?;
    let said = say_runs(rt, answer, script, &lines, &runs);
    let picture = draw_runs(alloc, answer, &lines, &runs);
    Ok(match said {
        Ok(said) => tell_said(alloc, answer, &lines, said, picture),
        Err(_) => Told {
            text: String::new(alloc),
            beside: Beside { picture, log: None },
        },
    })
}

/// Returns the text of an explanation, the log of the explanation if the command asks for a log, and the picture.
fn tell_said(
    alloc: Global,
    answer: Answer<'_>,
    lines: &ScriptLines<'_>,
    said: Explanation,
    picture: Option<String>,
) -> Told {
    let log = if answer.command.sarif.is_some() {
        log_of(alloc, lines, &said).ok()
    } else {
        None
    };
    Told {
        text: said.text,
        beside: Beside { picture, log },
    }
}

/// Returns the explanation of these runs; empty if there is nothing to say. The only error is that memory ran out.
fn say_runs(
    rt: &HostRuntime,
    answer: Answer<'_>,
    script: &Script,
    lines: &ScriptLines<'_>,
    runs: &Runs<'_>,
) -> Result<Explanation, NoMemory>
    requires { IsTrue (is_script script.now) }
{
    if has_nothing_to_say(answer) {
        return Ok(Explanation::new(rt.alloc()));
    }
    explain_runs(rt, answer, script, lines, runs)
}

/// The picture of these runs; `None` if the command asks for no picture, or if memory runs out. The picture is empty if there are no runs.
fn draw_runs(
    alloc: Global,
    answer: Answer<'_>,
    lines: &ScriptLines<'_>,
    runs: &Runs<'_>,
) -> Option<String> {
    let Answer {
        command,
        findings,
        ..
    } = answer;
    if command.picture.is_none() {
        return None;
    }
    let Some(shown) = shown_runs(runs) else {
        return Some(String::new(alloc));
    };
    let table = table_of(&command.task, findings);
    draw(alloc, lines, shown, table).ok()
}

/// The runs that a picture shows; `None` if there is no run to show.
fn shown_runs<'a>(runs: &'a Runs<'a>) -> Option<ShownRuns<'a>> {
    match (&runs.plain, &runs.found) {
        (Some(first), found) => Some(ShownRuns {
            first,
            second: found.as_ref(),
        }),
        (None, Some(run)) => Some(ShownRuns::one(run)),
        (None, None) => None,
    }
}

/// The table at the side of a picture.
fn table_of<'a>(task: &Task, findings: &'a Findings) -> Table<'a> {
    match (task, &findings.values.ranges) {
        (Task::Size | Task::Check(_), _) => Table::Refusals,
        (Task::Lengths, Some(ranges)) => Table::Lengths(ranges.as_slice()),
        _ => Table::Nothing,
    }
}
