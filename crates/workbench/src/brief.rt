//! A report without the rows of its table. The rows are the lines that begin with `from`.

ghost use Rattle.std.specs.Prelude.{◌≡◌, ◌++◌, IfOk, OnOk};
ghost use Rattle.workbench.specs.Ascii.{HasPrintableLines};
ghost use Rattle.workbench.specs.Brief.{brief_text, shown_text, unless_row};

use crate::json_report::first_line;
use crate::report::Report;
use std::alloc::{AllocError, Global};
use wb_command_line::command::Command;

/// Returns the report as the command wants it shown: with or without the rows of its table. The only error is that memory ran out.
pub fn shown_report(alloc: Global, command: &Command, report: Report) -> Result<Report, AllocError>
    requires { HasPrintableLines report.text.items }
    ensures text { IfOk result (λ shown.
        shown.text.items ≡ shown_text command.now report.text.items) }
    ensures printable { IfOk result (λ shown. HasPrintableLines shown.text.items) }
    ensures values { IfOk result (λ shown. shown.values ≡ report.values) }
    ensures status { IfOk result (λ shown. shown.status ≡ report.status) }
{
    if !command.brief {
        return Ok(report);
    }
    let Report {
        text,
        values,
        status,
    } = report;
    Ok(Report {
        text: without_rows(alloc, text.as_slice())?,
        values,
        status,
    })
}

/// Returns a text without its rows. The only error is that memory ran out.
#[tactic(auto, using(crate::proofs::BriefLemmas::brief_printable))]
fn without_rows(alloc: Global, text: &[u8]) -> Result<Vec<u8>, AllocError>
    requires { HasPrintableLines text.now }
    ensures text { IfOk result (λ brief. brief.items ≡ brief_text text.now) }
    ensures printable { IfOk result (λ brief. HasPrintableLines brief.items) }
{
    let mut brief = Vec::new(alloc);
    let mut rest = text;
    while !rest.is_empty() {
        let (line, after) = first_line(rest);
        put_unless_row(&mut brief, line)?;
        rest = after;
    }
    Ok(brief)
}

/// Adds a line with its line feed, unless it is a row.
fn put_unless_row(text: &mut Vec<u8>, line: &[u8]) -> Result<(), AllocError>
    ensures { OnOk result (text.new.items ≡ text.old.items ++ unless_row line.now) }
{
    if line.starts_with(b"from ") {
        return Ok(());
    }
    text.extend_from_slice(line)?;
    text.push(b'\n')?;
    Ok(())
}
