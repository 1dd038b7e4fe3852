//! The text of a sweep that lists numbers, line by line. Only this module decides what a line of the list says.

ghost use Rattle.std.specs.Prelude.{◌≡◌, ◌++◌, OnOk};
ghost use Rattle.workbench.specs.AllReport.{bad_line, number_word, told_line, told_lines, told_text};

use crate::appending::or_no_memory;
use crate::end_text::put_end_words;
use crate::run_text::put_run;
use std::io::Write;
use wb_basics::memory::NoMemory;
use wb_runs::failures::Failures;
use wb_runs::number_ends::NumberEnd;
use wb_sweep::AllNumbers;

/// Appends how many attempts the run without failure makes, a line for each listed number, and how many of these numbers have a run that
/// leaks or panics. If there are such numbers, also appends the run under the least of them.
pub fn put_all(text: &mut Vec<u8>, failures: Failures, all: &AllNumbers) -> Result<(), NoMemory>
    ensures { OnOk result (text.new.items ≡ text.old.items ++ told_text failures all.now) }
{
    let attempts = all.attempts;
    or_no_memory(writeln!(text, "attempts {attempts}"))?;
    put_told(text, failures, all.ends.as_slice())?;
    put_bad(text, all.bad)?;
    match &all.found {
        Some(bad) => put_run(text, &bad.result),
        None => Ok(()),
    }
}

fn put_told(text: &mut Vec<u8>, failures: Failures, ends: &[NumberEnd]) -> Result<(), NoMemory>
    ensures { OnOk result (text.new.items ≡ text.old.items ++ told_lines failures ends.now) }
{
    for told in ends {
        put_number(text, failures, told)?;
    }
    Ok(())
}

#[tactic(auto, unfolding(crate::specs::AllReport::told_line))]
fn put_number(text: &mut Vec<u8>, failures: Failures, told: &NumberEnd) -> Result<(), NoMemory>
    ensures { OnOk result (text.new.items ≡ text.old.items ++ told_line failures told.now) }
{
    put_number_word(text, failures)?;
    let number = told.number;
    or_no_memory(write!(text, "{number} "))?;
    put_end_words(text, told.end)?;
    or_no_memory(writeln!(text))
}

fn put_number_word(text: &mut Vec<u8>, failures: Failures) -> Result<(), NoMemory>
    ensures { OnOk result (text.new.items ≡ text.old.items ++ number_word failures) }
{
    let put = match failures {
        Failures::Single | Failures::Pairs => write!(text, "number "),
        Failures::Every => write!(text, "every "),
        Failures::Persistent => write!(text, "persistent "),
    };
    or_no_memory(put)
}

fn put_bad(text: &mut Vec<u8>, bad: usize) -> Result<(), NoMemory>
    ensures { OnOk result (text.new.items ≡ text.old.items ++ bad_line bad) }
{
    or_no_memory(writeln!(text, "bad {bad}"))
}
