//! The whole program. It works on the words, the files and the streams that it is handed. `main` hands over those of the process.

ghost use Rattle.std.specs.Prelude.{◌≡◌, ◌≤◌, IfErr, IfOk, IsTrue, MatchResult, Some, map, true};
ghost use Rattle.clap.specs.Words.{takes};
ghost use Rattle.workbench.specs.Answer.{IsAnswer, IsUnopened};
ghost use Rattle.wb_command_line.specs.Command.{is_answerable};
ghost use Rattle.workbench.specs.Program.{IsCarriedOut, IsDone, IsReadAs, IsRefused, answered_of};
ghost use Rattle.workbench.specs.Program.{fault_of_words, words_status};

use crate::answer::{Answered, answer, say_read_fault};
use crate::exit_status::{COMMAND_LINE_FAULT, WANT_OF_MEMORY};
use crate::findings::Findings;
use crate::host::{Host, Messages, WordsFault};
use std::alloc::Global;
use std::convert::AsStr;
use std::io;
use wb_command_line::command::{Command, CommandFault};
use wb_command_line::command_line::command;
use wb_streams::streams::Sink;
use wb_sweep::{Progress, Silent};

/// The result of the program.
#[derive(Debug, Drop)]
pub struct Exit {
    /// The exit status.
    pub status: u8,
    /// The command that the words spell; `None` if the words spell no command.
    pub command: Option<Command>,
    /// What the report was made of; `None` if there is no report.
    pub findings: Option<Findings>,
}

/// Carries out the command that the words spell, and returns the exit status. Also returns what an explanation or a picture of the answer
/// needs: this command, unchanged, and the findings of the answer. `words` are all of the program's words, its name first, or the error
/// that came in place of the words. All words are handed to `command`.
///
/// If the words aren't a command, the reason is reported to `messages`, and `host` and `output` stay untouched. The status is then
/// `COMMAND_LINE_FAULT`, or `WANT_OF_MEMORY` if the memory for the command ran out.
///
/// If the words are a command, `messages` isn't touched. The script is read from the file that the command names, or from standard input if
/// the command names no file. A file is opened once. The answer is written to `output`. If the file can't be opened, the answer is the line
/// `read fault`, with the status `READ_OR_WRITE_FAULT`.
///
/// `progress` is notified of how far a sweep, or the search through all lengths, has come, unless the command asks for no progress. Nothing
/// is written to `output` before the last of these notices. No clause mentions `progress`, and no result depends on what `progress` does.
/// If `progress` writes to the stream that is handed over as `messages`, as in `main`, this stream also gets what `progress` writes.
pub fn program<S: AsStr + Drop, H: Host, W: Sink, M: Messages, P: Progress>(
    alloc: Global,
    words: io::Result<Vec<S>>,
    host: &mut H,
    output: &mut W,
    messages: &mut M,
    progress: &mut P,
) -> Exit
    ensures done { MatchResult words
        (λ had. IsDone
        (IsCarriedOut H.lends H.opens
        (IsAnswer H.Input.remaining H.Input.reads W.contents W.writes)
        (IsAnswer H.File.remaining H.File.reads W.contents W.writes)
        (IsUnopened W.contents W.writes))
        M.reports (map S.text had.items)
        host.old host.new output.old output.new messages.old messages.new result)
        (λ error. IsRefused M.reports (fault_of_words error)
        host.old host.new output.old output.new messages.old messages.new result) }
    ensures status { result.status ≤ 6 }
{
    match read_words(alloc, words) {
        Ok(command) => {
            let answered = answer_command(alloc, &command, host, output, progress);
            exit_of(command, answered)
        }
        Err(fault) => {
            messages.report(&fault);
            Exit {
                status: status_of(&fault),
                command: None,
                findings: None,
            }
        }
    }
}

/// The exit after a command was carried out with this answer.
fn exit_of(command: Command, answered: Answered) -> Exit
    ensures command { result.command ≡ Some command }
    ensures answered { answered_of result ≡ answered }
{
    Exit {
        status: answered.status,
        command: Some(command),
        findings: answered.findings,
    }
}

/// Returns the command that the words spell, or why there is no command.
fn read_words<S: AsStr + Drop>(
    alloc: Global,
    words: io::Result<Vec<S>>,
) -> Result<Command, WordsFault>
    ensures { MatchResult words
        (λ had. IsReadAs (map S.text had.items) result)
        (λ error. result ≡ Err (fault_of_words error)) }
{
    let words = words?;
    Ok(command(alloc, words.as_slice())?)
}

/// Answers the command, and notifies `progress` unless the command asks for no progress.
fn answer_command<H: Host, W: Sink, P: Progress>(
    alloc: Global,
    command: &Command,
    host: &mut H,
    output: &mut W,
    progress: &mut P,
) -> Answered
    requires { IsTrue (is_answerable command.now) }
    ensures done { IsCarriedOut H.lends H.opens
        (IsAnswer H.Input.remaining H.Input.reads W.contents W.writes)
        (IsAnswer H.File.remaining H.File.reads W.contents W.writes)
        (IsUnopened W.contents W.writes)
        command.now host.old host.new output.old output.new result }
    ensures status { result.status ≤ 5 }
{
    if command.quiet {
        carry_out(alloc, command, host, output, &mut Silent)
    } else {
        carry_out(alloc, command, host, output, progress)
    }
}

/// Answers the command on the script in the file that the command names, or on standard input if the command names no file. The file is
/// opened before anything is read from it.
fn carry_out<H: Host, W: Sink, P: Progress>(
    alloc: Global,
    command: &Command,
    host: &mut H,
    output: &mut W,
    progress: &mut P,
) -> Answered
    requires { IsTrue (is_answerable command.now) }
    ensures done { IsCarriedOut H.lends H.opens
        (IsAnswer H.Input.remaining H.Input.reads W.contents W.writes)
        (IsAnswer H.File.remaining H.File.reads W.contents W.writes)
        (IsUnopened W.contents W.writes)
        command.now host.old host.new output.old output.new result }
    ensures status { result.status ≤ 5 }
{
    let Some(name) = &command.file else {
        let mut input = host.standard_input();
        return answer(alloc, command, &mut input, output, progress);
    };
    match host.open(name.as_str()) {
        Some(mut file) => answer(alloc, command, &mut file, output, progress),
        None => say_read_fault(output),
    }
}

/// The exit status if there is no command.
fn status_of(fault: &WordsFault) -> u8
    ensures { result ≡ words_status fault.now }
{
    match fault {
        WordsFault::Refused(CommandFault::NoMemory) => WANT_OF_MEMORY,
        WordsFault::NotUtf8
        | WordsFault::Refused(
            CommandFault::Usage(_)
            | CommandFault::Both
            | CommandFault::Also
            | CommandFault::Shape
            | CommandFault::Range,
        ) => COMMAND_LINE_FAULT,
    }
}
