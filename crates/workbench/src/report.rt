//! The report of a command on the bytes that were read: the whole text, its values, and the exit status. Nothing is read or written here.
//! The report of a task on a script is in `tasks`.

ghost use Rattle.std.specs.Prelude.{◌≡◌, ◌≢◌, ◌++◌, OnOk, IfOk, IsTrue};
ghost use Rattle.wb_command_line.specs.Command.{is_answerable};
ghost use Rattle.workbench.specs.ReportValues.{no_values};
ghost use Rattle.workbench.specs.Report.{IsReport, fault_line, refused, refused_at};

use crate::appending::or_no_memory;
use crate::exit_status::REJECTED;
use crate::report_values::ReportValues;
use crate::tasks::carry_out;
use std::alloc::{AllocError, Global};
use std::io::Write;
use wb_basics::memory::NoMemory;
use wb_command_line::command::Command;
use wb_language::fault::ScriptFault;
use wb_sweep::Progress;

/// A report as lines, the report's values, and the exit status that goes with the report.
#[derive(Debug, Drop)]
pub struct Report {
    pub text: Vec<u8>,
    pub values: ReportValues,
    pub status: u8,
}

/// Returns the report of a command on the bytes of a script: the report of its task, or the one line that says why the bytes are no script.
/// The only error is that memory ran out. `progress` is notified of how far a sweep, or the search through all lengths, has come.
pub fn report_on<P: Progress>(
    alloc: Global,
    command: &Command,
    bytes: &[u8],
    progress: &mut P,
) -> Result<Report, NoMemory>
    requires { IsTrue (is_answerable command.now) }
    ensures { IfOk result (λ r. IsReport command.now bytes.now r.text.items r.values r.status) }
{
    match wb_script::read(alloc, bytes) {
        Ok(script) => carry_out(alloc, command, &script, progress),
        Err(ScriptFault::NoMemory) => Err(NoMemory::from(AllocError)),
        Err(fault) => refusal(alloc, fault),
    }
}

/// The report on bytes that are no script: the line of their fault, with status 2.
fn refusal(alloc: Global, fault: ScriptFault) -> Result<Report, NoMemory>
    requires { fault ≢ ScriptFault.NoMemory }
    ensures text { IfOk result (λ r. r.text.items ≡ fault_line fault) }
    ensures values { IfOk result (λ r. r.values ≡ no_values) }
    ensures status { IfOk result (λ r. r.status ≡ 2) }
{
    let mut text = Vec::new(alloc);
    put_fault(&mut text, fault)?;
    Ok(Report {
        text,
        values: ReportValues::none(),
        status: REJECTED,
    })
}

fn put_fault(text: &mut Vec<u8>, fault: ScriptFault) -> Result<(), NoMemory>
    requires { fault ≢ ScriptFault.NoMemory }
    ensures { OnOk result (text.new.items ≡ text.old.items ++ fault_line fault) }
{
    match fault {
        ScriptFault::TooLong => put_refused(text, 1),
        ScriptFault::NotAscii { line } => put_refused_at(text, 2, line),
        ScriptFault::Grammar { line } => put_refused_at(text, 3, line),
        ScriptFault::UnknownName { line } => put_refused_at(text, 4, line),
        ScriptFault::DoubleName { line } => put_refused_at(text, 5, line),
        ScriptFault::WrongKind { line } => put_refused_at(text, 6, line),
        ScriptFault::MayLeave { line } => put_refused_at(text, 7, line),
        ScriptFault::NoMain => put_refused(text, 8),
        ScriptFault::TooMany { line } => put_refused_at(text, 9, line),
        // The contract excludes `NoMemory`: it is no fault of the bytes.
        ScriptFault::NoMemory => unreachable!(),
    }
}

fn put_refused(text: &mut Vec<u8>, fault: u8) -> Result<(), NoMemory>
    ensures { OnOk result (text.new.items ≡ text.old.items ++ refused fault) }
{
    or_no_memory(writeln!(text, "refused {fault}"))
}

fn put_refused_at(text: &mut Vec<u8>, fault: u8, line: u32) -> Result<(), NoMemory>
    ensures { OnOk result (text.new.items ≡ text.old.items ++ refused_at fault line) }
{
    or_no_memory(writeln!(text, "refused {fault} line {line}"))
}
