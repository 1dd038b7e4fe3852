//! The answer to a command: what is read, what is written, and the exit status. `report` makes the text of a
//! report.

ghost use Rattle.std.specs.Prelude.{◌≡◌, ◌+◌, ◌<◌, ◌≤◌, IfOk, IsTrue, OnOk, OnErr, is_err};
ghost use Rattle.std.specs.Io.KnownBytes.{Appends};
ghost use Rattle.workbench.specs.declared.answer.ReportFault.TheVariants.{Read, NoMemory};
ghost use Rattle.workbench.specs.Answer.{AreFindings, AreFirst, IsAnswer, IsPartWritten, IsReportOf};
ghost use Rattle.workbench.specs.Answer.{IsReportWritten, IsUnopened, IsWritten};
ghost use Rattle.workbench.specs.Answer.{is_read_fault};
ghost use Rattle.wb_command_line.specs.Command.{is_answerable};
ghost use Rattle.workbench.specs.Ascii.{HasPrintableLines};
ghost use Rattle.workbench.specs.JsonReport.{laid_out};
ghost use Rattle.wb_basics.specs.declared.limits.TheConstants.{LONGEST_SCRIPT};
ghost use Rattle.workbench.specs.Report.{no_memory};
ghost use Rattle.wb_streams.specs.Streams.{AppendsFirst, Reads, TakesAtMost, Writes};

use crate::brief::shown_report;
use crate::exit_status::{READ_OR_WRITE_FAULT, WANT_OF_MEMORY};
use crate::findings::Findings;
use crate::json_report::json_text;
use crate::report::{Report, report_on};
use crate::report_values::ReportValues;
use std::alloc::{AllocError, Global};
use wb_basics::memory::NoMemory;
use wb_command_line::command::Command;
use wb_streams::streams::{Sink, Source, StreamFault, read_some, write_some};
use wb_sweep::Progress;

/// How many bytes of a script are read at most: one more than a script may have, so that a script that is too long is noticed.
pub const MOST_READ: usize = 65_537;

/// How many bytes one read asks for at most.
const PART: usize = 4_096;

/// Why there is no report.
#[derive(Clone, Copy, Debug, PartialEq, Eq)]
pub enum ReportFault {
    /// A read failed.
    Read,
    /// The workbench's own memory ran out.
    NoMemory,
}

impl From<StreamFault> for ReportFault {
    ghost from_gives = { λ _ fault. fault ≡ Read };

    fn from(_fault: StreamFault) -> ReportFault {
        ReportFault::Read
    }
}

impl From<AllocError> for ReportFault {
    ghost from_gives = { λ _ fault. fault ≡ NoMemory };

    fn from(_error: AllocError) -> ReportFault {
        ReportFault::NoMemory
    }
}

impl From<NoMemory> for ReportFault {
    ghost from_gives = { λ _ fault. fault ≡ NoMemory };

    fn from(_fault: NoMemory) -> ReportFault {
        ReportFault::NoMemory
    }
}

/// The result of a command.
#[derive(Debug, Drop)]
pub struct Answered {
    /// The exit status.
    pub status: u8,
    /// What the report was made of; `None` if there is no report.
    pub findings: Option<Findings>,
}

/// Answers a command whose numbers are in their ranges. Reads the script, at most `MOST_READ` bytes of it, and writes the report, as lines
/// or as a JSON object. Returns the exit status, with what the report was made of.
///
/// Statuses 0 to 3 belong to a report, and the whole report was written. With `WANT_OF_MEMORY`, only the line `no memory` was written. With
/// `READ_OR_WRITE_FAULT`, a read or a write failed. If a read failed (an interrupted read fails too), the line `read fault` is written
/// instead of a report. If a write failed or took no byte, only the beginning of the text was written. Nothing is written before the whole
/// text is ready.
///
/// Each read or write itself returns whether it failed. `READ_OR_WRITE_FAULT` is returned exactly if one of the calls that were made
/// failed. No read follows a failed read or a read that returned no byte, and no write follows a failed write.
///
/// The findings are what the report was made of: the bytes of the script that were read, and the values of the report. Without a report
/// there are no findings.
///
/// `progress` is notified of how far a sweep, or the search through all lengths, has come. Nothing is written before the last of these
/// notices. No result depends on what `progress` does.
pub fn answer<R: Source, W: Sink, P: Progress>(
    alloc: Global,
    command: &Command,
    reader: &mut R,
    writer: &mut W,
    progress: &mut P,
) -> Answered
    requires { IsTrue (is_answerable command.now) }
    ensures answer { IsAnswer R.remaining R.reads W.contents W.writes
        command.now reader.old reader.new writer.old writer.new result }
    ensures status { result.status ≤ 5 }
    ensures report { result.status < 4 → IsReportWritten command.now (R.remaining reader.old)
        (W.contents writer.old) (W.contents writer.new) result.status }
    ensures no_memory { result.status ≡ 4 →
        Appends (W.contents writer.old) (W.contents writer.new) no_memory }
    ensures nothing_else { IsPartWritten command.now (R.remaining reader.old)
        (W.contents writer.old) (W.contents writer.new) }
    ensures taken { TakesAtMost (LONGEST_SCRIPT + 1)
        (R.remaining reader.old) (R.remaining reader.new) }
{
    read_and_say(alloc, command, reader, writer, progress)
}

/// Does the work of `answer`. The other clauses of `answer` follow from the two clauses here.
fn read_and_say<R: Source, W: Sink, P: Progress>(
    alloc: Global,
    command: &Command,
    reader: &mut R,
    writer: &mut W,
    progress: &mut P,
) -> Answered
    requires { IsTrue (is_answerable command.now) }
    ensures answer { IsAnswer R.remaining R.reads W.contents W.writes
        command.now reader.old reader.new writer.old writer.new result }
    ensures taken { TakesAtMost (LONGEST_SCRIPT + 1)
        (R.remaining reader.old) (R.remaining reader.new) }
{
    match read_and_report(alloc, command, reader, progress) {
        Ok(message) => Answered {
            status: say(writer, message.text.as_slice(), message.status),
            findings: Some(message.findings),
        },
        Err(ReportFault::NoMemory) => Answered {
            status: say(writer, b"no memory\n", WANT_OF_MEMORY),
            findings: None,
        },
        Err(ReportFault::Read) => say_read_fault(writer),
    }
}

/// Writes the line `read fault`. Returns the status `READ_OR_WRITE_FAULT` without findings.
pub fn say_read_fault<W: Sink>(writer: &mut W) -> Answered
    ensures { IsUnopened W.contents W.writes writer.old writer.new result }
{
    Answered {
        status: say(writer, b"read fault\n", READ_OR_WRITE_FAULT),
        findings: None,
    }
}

/// Writes a text and returns `status`, or `READ_OR_WRITE_FAULT` if a write failed.
fn say<W: Sink>(writer: &mut W, text: &[u8], status: u8) -> u8
    ensures { IsWritten W.contents W.writes writer.old writer.new text.now status result }
{
    match write_whole(writer, text) {
        Ok(()) => status,
        Err(StreamFault) => READ_OR_WRITE_FAULT,
    }
}

/// A text that is ready to be written, the exit status that goes with the text, and what the text was made of.
#[derive(Debug, Drop)]
struct Message {
    text: Vec<u8>,
    status: u8,
    findings: Findings,
}

/// Reads the script, at most `MOST_READ` bytes of it, and returns the report on it, laid out as the command wants.
#[tactic(auto, using(crate::proofs::PrintableLines::report_lines))]
fn read_and_report<R: Source, P: Progress>(
    alloc: Global,
    command: &Command,
    reader: &mut R,
    progress: &mut P,
) -> Result<Message, ReportFault>
    requires { IsTrue (is_answerable command.now) }
    ensures report { IfOk result (λ r. IsReportOf command.now (R.remaining reader.old)
        r.text.items r.status r.findings) }
    ensures taken { TakesAtMost (LONGEST_SCRIPT + 1)
        (R.remaining reader.old) (R.remaining reader.new) }
    ensures read { Reads R.reads reader.old (is_read_fault result) reader.new }
{
    let bytes = first_bytes(alloc, reader, MOST_READ)?;
    let report = report_on(alloc, command, bytes.as_slice(), progress)?;
    Ok(lay_out(alloc, command, report, bytes)?)
}

/// Returns a report as the command wants it: as its lines, or as JSON. `bytes` are the bytes of the script that were read.
fn lay_out(
    alloc: Global,
    command: &Command,
    report: Report,
    bytes: Vec<u8>,
) -> Result<Message, NoMemory>
    requires { HasPrintableLines report.text.items }
    ensures text { IfOk result (λ m. m.text.items
        ≡ laid_out command.now report.text.items report.values report.status) }
    ensures status { IfOk result (λ m. m.status ≡ report.status) }
    ensures findings { IfOk result (λ m. AreFindings bytes.items report.values m.findings) }
{
    let report = shown_report(alloc, command, report)?;
    let json = if command.json {
        Some(json_text(alloc, &command.task, &report)?)
    } else {
        None
    };
    let Report {
        text,
        values,
        status,
    } = report;
    Ok(Message {
        text: json.unwrap_or(text),
        status,
        findings: Findings { bytes, values },
    })
}

/// Reads bytes up to the reader's end, but no more than `most`. Each read but the last returns at least one byte, so there are at most
/// `most` reads.
fn first_bytes<R: Source>(
    alloc: Global,
    reader: &mut R,
    most: usize,
) -> Result<Vec<u8>, ReportFault>
    ensures bytes { IfOk result (λ bytes. AreFirst most (R.remaining reader.old) bytes.items) }
    ensures taken { TakesAtMost most (R.remaining reader.old) (R.remaining reader.new) }
    ensures read { Reads R.reads reader.old (is_read_fault result) reader.new }
{
    let mut bytes = Vec::new(alloc);
    let mut part = [0; PART];
    while bytes.len() < most {
        let room = PART.min(most - bytes.len());
        let count = read_some(reader, &mut part[..room])?;
        if count == 0 {
            return Ok(bytes);
        }
        bytes.extend_from_slice(&part[..count])?;
    }
    Ok(bytes)
}

/// Writes the whole text. If a write fails, only the beginning of the text was written.
fn write_whole<W: Sink>(writer: &mut W, text: &[u8]) -> Result<(), StreamFault>
    ensures ok { OnOk result (Appends (W.contents writer.old) (W.contents writer.new) text.now) }
    ensures err { OnErr result
        (AppendsFirst (W.contents writer.old) (W.contents writer.new) text.now) }
    ensures wrote { Writes W.writes writer.old (is_err result) writer.new }
{
    let mut written = 0;
    while written < text.len() {
        written += write_some(writer, &text[written..])?;
    }
    Ok(())
}
