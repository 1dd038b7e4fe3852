//! The text of the two numbers, line by line: how long the heap must be, and which failure makes the run leak or panic. Only this module
//! decides what these lines say. A failure is one attempt, all from one on, a rate, a pair or a set.

ghost use Rattle.std.specs.Prelude.{◌≡◌, ◌++◌, OnOk};
ghost use Rattle.workbench.specs.EverySetReport.{many_states_text};
ghost use Rattle.workbench.specs.SearchReport.{nothing_line};
ghost use Rattle.workbench.specs.TwoNumbers.{cut_at_line, failing_line, failing_text, failing_word, none_line, numbers_text};
ghost use Rattle.workbench.specs.TwoNumbers.{refuses_line, size_text, spaced, sweep_text, table_text, why_word};

use crate::appending::or_no_memory;
use crate::line::Line;
use crate::run_text::put_run;
use std::io::Write;
use wb_basics::memory::NoMemory;
use wb_command_line::command::Search;
use wb_heap_model::heap::Numbers;
use wb_heap_model::size::Rise;
use wb_meaning::run::Why;
use wb_runs::failures::{Failing, Failures};
use wb_size::Sizing;
use wb_sweep::Sweep;

/// Appends the required length and the table of the attempts that shorter heaps refuse first.
pub fn put_sizing(text: &mut Vec<u8>, sizing: &Sizing) -> Result<(), NoMemory>
    ensures { OnOk result (text.new.items
        ≡ text.old.items ++ size_text sizing.now.required sizing.now.rises) }
{
    let required = sizing.required;
    or_no_memory(writeln!(text, "required {required}"))?;
    put_table(text, sizing.rises.as_slice())?;
    or_no_memory(writeln!(text, "enough from {required}"))
}

/// Appends a line for each rise. Each line says from which length on it holds: from the top of the previous rise, or from 0 for the first
/// rise.
fn put_table(text: &mut Vec<u8>, rises: &[Rise]) -> Result<(), NoMemory>
    ensures { OnOk result (text.new.items ≡ text.old.items ++ table_text 0 rises.now) }
{
    let mut from = 0;
    for rise in rises {
        put_refuses(text, from, rise.number)?;
        from = rise.top;
    }
    Ok(())
}

fn put_refuses(text: &mut Vec<u8>, from: u32, number: u32) -> Result<(), NoMemory>
    ensures { OnOk result (text.new.items ≡ text.old.items ++ refuses_line from number) }
{
    let mut line = Line::new();
    line.put_number(number);
    line.put_word(b" refuses ");
    line.put_number(from);
    line.put_word(b"from ");
    line.append_to(text)
}

/// Appends how many attempts the run without failure makes. Then appends the failure that was found and its run, or a line that says that
/// nothing was found.
pub fn put_sweep(text: &mut Vec<u8>, search: Search, sweep: &Sweep) -> Result<(), NoMemory>
    ensures { OnOk result (text.new.items
        ≡ text.old.items ++ sweep_text (nothing_line search) sweep.now) }
{
    let attempts = sweep.attempts;
    or_no_memory(writeln!(text, "attempts {attempts}"))?;
    match &sweep.found {
        Some(found) => {
            put_failing(text, &found.at)?;
            put_run(text, &found.result)
        }
        None => put_nothing(text, search),
    }
}

/// Appends the line that names a failure.
fn put_failing(text: &mut Vec<u8>, failing: &Failing) -> Result<(), NoMemory>
    ensures { OnOk result (text.new.items ≡ text.old.items ++ failing_line failing.now) }
{
    put_word(text, failing)?;
    put_failing_numbers(text, failing)?;
    or_no_memory(writeln!(text))
}

/// Appends the word that says what kind of failure this is.
fn put_word(text: &mut Vec<u8>, failing: &Failing) -> Result<(), NoMemory>
    ensures { OnOk result (text.new.items ≡ text.old.items ++ failing_word failing.now) }
{
    let put = match failing {
        Failing::Number(_) => write!(text, "number"),
        Failing::Every(_) => write!(text, "every"),
        Failing::Pair(_, _) => write!(text, "pair"),
        Failing::From(_) => write!(text, "persistent"),
        Failing::Set(_) => write!(text, "set"),
    };
    or_no_memory(put)
}

/// Appends the numbers of a failure, each after a blank.
fn put_failing_numbers(text: &mut Vec<u8>, failing: &Failing) -> Result<(), NoMemory>
    ensures { OnOk result (text.new.items ≡ text.old.items ++ failing_text failing.now) }
{
    match failing {
        Failing::Number(number) => put_number(text, *number),
        Failing::Every(rate) => put_number(text, *rate),
        Failing::Pair(first, second) => {
            put_number(text, *first)?;
            put_number(text, *second)
        }
        Failing::From(first) => put_number(text, *first),
        Failing::Set(numbers) => put_numbers(text, numbers),
    }
}

fn put_numbers(text: &mut Vec<u8>, numbers: &Numbers) -> Result<(), NoMemory>
    ensures { OnOk result (text.new.items ≡ text.old.items ++ numbers_text numbers.now) }
{
    for number in numbers.as_slice() {
        put_number(text, *number)?;
    }
    Ok(())
}

fn put_number(text: &mut Vec<u8>, number: u32) -> Result<(), NoMemory>
    ensures { OnOk result (text.new.items ≡ text.old.items ++ spaced number) }
{
    or_no_memory(write!(text, " {number}"))
}

/// Appends the line of a search that found nothing.
fn put_nothing(text: &mut Vec<u8>, search: Search) -> Result<(), NoMemory>
    ensures { OnOk result (text.new.items ≡ text.old.items ++ nothing_line search) }
{
    match search {
        Search::Least(failures) | Search::All(failures) | Search::Ends(failures) => {
            put_none(text, failures)
        }
        Search::Sets(most) => or_no_memory(writeln!(text, "set none to {most}")),
        Search::EverySet(_) => or_no_memory(writeln!(text, "set none")),
    }
}

fn put_none(text: &mut Vec<u8>, failures: Failures) -> Result<(), NoMemory>
    ensures { OnOk result (text.new.items ≡ text.old.items ++ none_line failures) }
{
    let put = match failures {
        Failures::Single => writeln!(text, "number none"),
        Failures::Every => writeln!(text, "every none"),
        Failures::Pairs => writeln!(text, "pair none"),
        Failures::Persistent => writeln!(text, "persistent none"),
    };
    or_no_memory(put)
}

/// Appends the line of a run that was cut under this failure.
pub fn put_cut_at(text: &mut Vec<u8>, at: &Failing, why: Why) -> Result<(), NoMemory>
    ensures { OnOk result (text.new.items ≡ text.old.items ++ cut_at_line at.now why) }
{
    or_no_memory(write!(text, "cut"))?;
    put_failing_numbers(text, at)?;
    put_why(text, why)
}

fn put_why(text: &mut Vec<u8>, why: Why) -> Result<(), NoMemory>
    ensures { OnOk result (text.new.items ≡ text.old.items ++ why_word why) }
{
    let put = match why {
        Why::Budget => writeln!(text, " budget"),
        Why::Ceiling => writeln!(text, " ceiling"),
    };
    or_no_memory(put)
}

/// Appends three lines: how many attempts the run without failure makes, that no set of at most `fine` attempts was found, and that the
/// search met too many states.
pub fn put_many_states(text: &mut Vec<u8>, attempts: u64, fine: u32) -> Result<(), NoMemory>
    ensures { OnOk result (text.new.items ≡ text.old.items ++ many_states_text attempts fine) }
{
    or_no_memory(writeln!(text, "attempts {attempts}"))?;
    or_no_memory(writeln!(text, "set none to {fine}"))?;
    or_no_memory(writeln!(text, "cut states"))
}
