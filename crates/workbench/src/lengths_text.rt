//! The text of how a script's run ends in heaps of every length, line by line. Only this module decides what these lines say.

ghost use Rattle.std.specs.Prelude.{◌≡◌, ◌++◌, OnOk};
ghost use Rattle.workbench.specs.LengthsReport.{bad_length_text, found_length_text, range_line, table_lines};

use crate::appending::or_no_memory;
use crate::end_text::put_end_words;
use crate::run_text::put_run;
use std::io::Write;
use wb_basics::memory::NoMemory;
use wb_lengths::{BadLength, LengthFindings, LengthRange, LengthTable};

/// Appends the table of lengths. Then appends the least length whose run leaks or panics, and this run. If there is no such length, appends
/// a line that says so instead.
pub fn put_lengths(text: &mut Vec<u8>, found: &LengthFindings) -> Result<(), NoMemory>
    ensures { OnOk result (text.new.items
        ≡ text.old.items ++ table_lines found.now.table ++ found_length_text found.now.bad) }
{
    put_table(text, &found.table)?;
    match &found.bad {
        Some(bad) => put_bad_length(text, bad),
        None => or_no_memory(writeln!(text, "length none")),
    }
}

fn put_bad_length(text: &mut Vec<u8>, bad: &BadLength) -> Result<(), NoMemory>
    ensures { OnOk result (text.new.items
        ≡ text.old.items ++ bad_length_text bad.now.length bad.now.result) }
{
    let length = bad.length;
    or_no_memory(writeln!(text, "length {length}"))?;
    put_run(text, &bad.result)
}

fn put_table(text: &mut Vec<u8>, table: &LengthTable) -> Result<(), NoMemory>
    ensures { OnOk result (text.new.items ≡ text.old.items ++ table_lines table.now) }
{
    for range in table.as_slice() {
        put_range(text, range)?;
    }
    Ok(())
}

#[tactic(auto, unfolding(crate::specs::LengthsReport::range_line))]
fn put_range(text: &mut Vec<u8>, range: &LengthRange) -> Result<(), NoMemory>
    ensures { OnOk result (text.new.items ≡ text.old.items ++ range_line range.now) }
{
    let from = range.from;
    or_no_memory(write!(text, "from {from} "))?;
    put_end_words(text, range.end)?;
    or_no_memory(writeln!(text))
}
