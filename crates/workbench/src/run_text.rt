//! The text of a run, line by line. Only this module decides what these lines say. Other modules decide which runs are reported, and what
//! the program writes if no run is reported.

ghost use Rattle.std.specs.Prelude.{◌≡◌, ◌++◌, OnOk};
ghost use Rattle.std.specs.List.{flat_map};
ghost use Rattle.workbench.specs.EndWords.{cut_words, panic_words};
ghost use Rattle.workbench.specs.RunText.{answer_word, print_line, note_line, attempt_line, leak_line, leaks_text};
ghost use Rattle.workbench.specs.RunText.{end_line, line, outcome_text, run_text};

use crate::appending::or_no_memory;
use crate::end_text::{put_cut_words, put_panic_words};
use crate::line::Line;
use std::io::Write;
use wb_basics::memory::NoMemory;
use wb_heap_model::heap::{Answer, Attempt, Panic};
use wb_heap_model::reported::{Leak, Leaks, Note, Notes, Trace};
use wb_meaning::run::{Lines, Outcome, RunResult, Why};

/// Appends the text of a run.
pub fn put_run(text: &mut Vec<u8>, run: &RunResult) -> Result<(), NoMemory>
    ensures { OnOk result (text.new.items ≡ text.old.items ++ run_text run.now) }
{
    put_lines(text, &run.lines)?;
    put_notes(text, &run.notes)?;
    put_trace(text, &run.trace)?;
    put_outcome(text, &run.outcome)?;
    let steps = run.steps;
    or_no_memory(writeln!(text, "steps {steps}"))
}

fn put_lines(text: &mut Vec<u8>, lines: &Lines) -> Result<(), NoMemory>
    ensures { OnOk result (text.new.items ≡ text.old.items ++ flat_map print_line lines.now) }
{
    for line in lines.as_slice() {
        put_print(text, line.as_slice())?;
    }
    Ok(())
}

fn put_print(text: &mut Vec<u8>, line: &[u8]) -> Result<(), NoMemory>
    ensures { OnOk result (text.new.items ≡ text.old.items ++ print_line line.now) }
{
    text.extend_from_slice(b"print ")?;
    text.extend_from_slice(line)?;
    text.extend_from_slice(b"\n")?;
    Ok(())
}

fn put_notes(text: &mut Vec<u8>, notes: &Notes) -> Result<(), NoMemory>
    ensures { OnOk result (text.new.items ≡ text.old.items ++ flat_map note_line notes.now) }
{
    for note in notes.as_slice() {
        put_note(text, *note)?;
    }
    Ok(())
}

#[tactic(auto, unfolding(crate::specs::RunText::note_line))]
fn put_note(text: &mut Vec<u8>, note: Note) -> Result<(), NoMemory>
    ensures { OnOk result (text.new.items ≡ text.old.items ++ note_line note) }
{
    let mut line = Line::new();
    match note {
        Note::Heap(count, total, committed) => {
            line.put_number(committed);
            line.put_word(b" ");
            line.put_number(total);
            line.put_word(b" ");
            line.put_number(count);
            line.put_word(b"note heap ");
        }
        Note::Available(total, longest) => {
            line.put_number(longest);
            line.put_word(b" ");
            line.put_number(total);
            line.put_word(b"note available ");
        }
        Note::Compress(reclaimed) => {
            line.put_number(reclaimed);
            line.put_word(b"note compress ");
        }
    }
    line.append_to(text)
}

fn put_trace(text: &mut Vec<u8>, trace: &Trace) -> Result<(), NoMemory>
    ensures { OnOk result (text.new.items ≡ text.old.items ++ flat_map attempt_line trace.now) }
{
    for attempt in trace.as_slice() {
        put_attempt(text, *attempt)?;
    }
    Ok(())
}

#[tactic(auto, unfolding(crate::specs::RunText::attempt_line))]
fn put_attempt(text: &mut Vec<u8>, attempt: Attempt) -> Result<(), NoMemory>
    ensures { OnOk result (text.new.items ≡ text.old.items ++ attempt_line attempt) }
{
    let mut line = Line::new();
    line.put_word(answer_word(attempt.answer).as_bytes());
    line.put_word(b" ");
    line.put_number(attempt.place);
    line.put_word(b" place ");
    line.put_number(attempt.length);
    line.put_word(b" length ");
    line.put_number(attempt.number);
    line.put_word(b"attempt ");
    line.append_to(text)
}

fn answer_word(answer: Answer) -> &'static str
    ensures { result.now ≡ answer_word answer }
{
    match answer {
        Answer::Granted => "granted",
        Answer::Simulated => "simulated",
        Answer::Refused => "refused",
    }
}

fn put_outcome(text: &mut Vec<u8>, outcome: &Outcome) -> Result<(), NoMemory>
    ensures { OnOk result (text.new.items ≡ text.old.items ++ outcome_text outcome.now) }
{
    match outcome {
        Outcome::Ended { left, leaks } => {
            put_end(text, *left)?;
            put_leaks(text, leaks)
        }
        Outcome::Panicked(panic) => put_panic(text, *panic),
        Outcome::NoCleanup => or_no_memory(writeln!(text, "nocleanup")),
        Outcome::Cut(why) => put_cut(text, *why),
    }
}

fn put_end(text: &mut Vec<u8>, left: Option<i32>) -> Result<(), NoMemory>
    ensures { OnOk result (text.new.items ≡ text.old.items ++ end_line left) }
{
    let put = match left {
        None => writeln!(text, "ended"),
        Some(code) => writeln!(text, "left {code}"),
    };
    or_no_memory(put)
}

fn put_leaks(text: &mut Vec<u8>, leaks: &Leaks) -> Result<(), NoMemory>
    ensures { OnOk result (text.new.items ≡ text.old.items ++ leaks_text leaks.now) }
{
    let count = leaks.len();
    or_no_memory(writeln!(text, "leaks {count}"))?;
    for leak in leaks.as_slice() {
        put_leak(text, *leak)?;
    }
    Ok(())
}

#[tactic(auto, unfolding(crate::specs::RunText::leak_line))]
fn put_leak(text: &mut Vec<u8>, leak: Leak) -> Result<(), NoMemory>
    ensures { OnOk result (text.new.items ≡ text.old.items ++ leak_line leak) }
{
    let mut line = Line::new();
    line.put_number(leak.place);
    line.put_word(b" place ");
    line.put_number(leak.length);
    line.put_word(b" length ");
    line.put_number(leak.number);
    line.put_word(b"leak ");
    line.append_to(text)
}

fn put_panic(text: &mut Vec<u8>, panic: Panic) -> Result<(), NoMemory>
    ensures { OnOk result (text.new.items ≡ text.old.items ++ line (panic_words panic)) }
{
    put_panic_words(text, panic)?;
    or_no_memory(writeln!(text))
}

fn put_cut(text: &mut Vec<u8>, why: Why) -> Result<(), NoMemory>
    ensures { OnOk result (text.new.items ≡ text.old.items ++ line (cut_words why)) }
{
    put_cut_words(text, why)?;
    or_no_memory(writeln!(text))
}
