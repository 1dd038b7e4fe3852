//! The text of a script in which lines have come to other places, come once more, or are left out.

use crate::runs::mends::line_changes::LineChange;
use crate::runs::mends::looks::tested_by;
use crate::runs::mends::new_names::{put_after_new, put_before_new};
use crate::runs::mends::null_leaves::looks_at_local;
use crate::runs::mends::texts::{put_line, put_lines, put_number, put_words};
use std::alloc::AllocError;
use wb_history::ScriptLines;

/// Adds what a change puts before a line.
pub fn put_before_line(
    text: &mut String,
    lines: &ScriptLines<'_>,
    at: u32,
    change: LineChange<'_>,
) -> Result<(), AllocError> {
    match change {
        LineChange::OtherTest { test, asked } if test == at => put_test(text, lines, test, asked),
        LineChange::AllReleased {
            first,
            last,
            before,
        } if before == at => put_lines(text, lines, first, last),
        LineChange::FreedForNull { first, last } if first <= at && at <= last => {
            put_freed_for_null(text, lines, at, first, last)
        }
        LineChange::OnlyIfFine { first, name, .. } if first == at => {
            text.push_str("if eq ")?;
            text.push_str(name)?;
            put_line(text, " 0")
        }
        LineChange::Returns { line, name, .. } if line == at => put_words(text, "return", name),
        LineChange::AnyCode { test, name, .. } if test == at => {
            text.push_str("if less ")?;
            text.push_str(name)?;
            put_line(text, " 0")
        }
        LineChange::CountReset { load, before } if before == at => {
            text.push_str("store ")?;
            text.push_str(lines.word(load, 2))?;
            text.push_str(" ")?;
            text.push_str(lines.word(load, 3))?;
            put_line(text, " 0")
        }
        LineChange::NeverSet { line, name } if line == at => put_words(text, "leaveifnull", name),
        LineChange::AsksLeaving { line } if line == at => put_leaving(text, lines, line),
        LineChange::PopCount { line, count } if line == at && count > 0 => {
            put_number(text, lines.word(line, 0), i64::from(count))
        }
        LineChange::Remade {
            make,
            construct,
            name,
        } if construct == at => {
            put_line(text, "popdestroy 1")?;
            put_line(text, lines.line(make))?;
            put_words(text, "pushobj", name)
        }
        _ => match line_before(change, at) {
            0 => put_before_new(text, lines, at, change),
            line => put_line(text, lines.line(line)),
        },
    }
}

/// Adds what frees the locals of other lines where that of the line `at` is null.
fn put_freed_for_null(
    text: &mut String,
    lines: &ScriptLines<'_>,
    at: u32,
    first: u32,
    last: u32,
) -> Result<(), AllocError> {
    if !looks_at_local(lines, at) {
        return Ok(());
    }
    put_words(text, "if null", lines.word(at, 1))?;
    for line in first..=last {
        if line != at && looks_at_local(lines, line) {
            put_words(text, "free", lines.word(line, 1))?;
        }
    }
    put_line(text, "end")
}

/// Adds a line that asks for memory, so that it leaves if there is none.
fn put_leaving(text: &mut String, lines: &ScriptLines<'_>, line: u32) -> Result<(), AllocError> {
    text.push_str(leaving_word(lines.word(line, 0)))?;
    for word in lines.line(line).split_whitespace().skip(1) {
        text.push_str(" ")?;
        text.push_str(word)?;
    }
    text.push_str("\n")
}

/// Returns the first word of the line that asks for the same as a line with this first word, and leaves on failure.
pub fn leaving_word(word: &str) -> &'static str {
    match word {
        "new" => "newleave",
        "alloc" => "allocl",
        _ => "hnewl",
    }
}

/// Which line of the script comes before a line; 0 if none does.
fn line_before(change: LineChange<'_>, at: u32) -> u32 {
    match change {
        LineChange::Released {
            release,
            before,
            ..
        } if before == at => release,
        LineChange::Popped { pop, before } if before == at => pop,
        LineChange::Sooner { line, before } if before == at => line,
        LineChange::UsedFirst { line, before } if before == at => line,
        LineChange::TakenOver { push, before, .. } if before == at => push,
        LineChange::PushedAlways { push, head, .. } if head == at => push,
        LineChange::PoppedInside { pop, end, .. } if end == at => pop,
        _ => 0,
    }
}

/// Whether a change takes a line from its place.
pub fn is_taken(change: LineChange<'_>, at: u32) -> bool {
    match change {
        LineChange::Sooner { line, .. }
        | LineChange::UsedFirst { line, .. }
        | LineChange::Returns { line, .. }
        | LineChange::ReleasedOnce { line, .. } => line == at,
        LineChange::LeavesLater { line, .. }
        | LineChange::AsksLeaving { line }
        | LineChange::ReallocKept { line, .. }
        | LineChange::CopyLeftOut { line, .. }
        | LineChange::PopCount { line, .. }
        | LineChange::MovedOut { line, .. } => line == at,
        LineChange::OwnCode { other, .. } => other == at,
        LineChange::TakenOver { push, release, .. } => push == at || release == at,
        LineChange::ViewCopied { declared, made, .. } => declared == at || made == at,
        LineChange::AnyCode { test, .. } => test == at,
        LineChange::MadePushed { make, .. } => make == at,
        LineChange::PushedAfter { push, .. } => push == at,
        LineChange::KeptIfNull { call, .. } => call == at,
        LineChange::DoneByItem { first, last, .. } => first <= at && at <= last,
        LineChange::OtherTest { test, .. } => test == at,
        LineChange::PushedAlways { push, .. } => push == at,
        LineChange::PoppedInside { pop, .. } => pop == at,
        _ => false,
    }
}

/// Adds what a change puts after a line.
pub fn put_after_line(
    text: &mut String,
    lines: &ScriptLines<'_>,
    at: u32,
    change: LineChange<'_>,
) -> Result<(), AllocError> {
    match change {
        LineChange::TakenOut {
            lent,
            last,
            push,
            ..
        } => put_around_lent(text, lines, at, lent, last, push),
        LineChange::OnlyIfFine { last, .. } if last == at => put_line(text, "end"),
        LineChange::GivenBack { lent, .. } if lent == at => {
            put_words(text, "null", lines.word(lent, 2))
        }
        LineChange::GivenBack { lent, pop, .. } if pop == at => {
            text.push_str("set ")?;
            text.push_str(lines.word(lent, 2))?;
            text.push_str(" ")?;
            put_line(text, lines.word(lent, 1))
        }
        LineChange::LeavesLater { line, after } if after == at => put_line(text, lines.line(line)),
        LineChange::MovedOut { line, end, .. } if end == at => put_line(text, lines.line(line)),
        LineChange::PushedAfter { push, end, .. } if end == at => put_line(text, lines.line(push)),
        LineChange::AliasNull {
            freed,
            owner,
            field,
        } if freed == at => {
            text.push_str("null ")?;
            text.push_str(owner)?;
            text.push_str(".")?;
            put_line(text, field)
        }
        _ => put_after_new(text, at, change),
    }
}

/// Adds what takes a lent cell out of its field after line `lent`, and what gives it back after line `last`.
fn put_around_lent(
    text: &mut String,
    lines: &ScriptLines<'_>,
    at: u32,
    lent: u32,
    last: u32,
    push: &str,
) -> Result<(), AllocError> {
    let (local, field) = (lines.word(lent, 1), lines.word(lent, 2));
    if lent == at {
        put_words(text, "null", field)?;
        return put_words(text, push, local);
    }
    if last == at {
        put_line(text, "pop 1")?;
        text.push_str("set ")?;
        return put_words(text, field, local);
    }
    Ok(())
}

/// Adds the line `test`, which looks at the pointer that the line `asked` writes.
fn put_test(
    text: &mut String,
    lines: &ScriptLines<'_>,
    test: u32,
    asked: u32,
) -> Result<(), AllocError> {
    let tested = tested_by(lines, test);
    for word in lines.line(test).split_whitespace() {
        text.push_str(if word == tested {
            lines.word(asked, 1)
        } else {
            word
        })?;
        text.push_str(" ")?;
    }
    text.push_str("\n")
}
