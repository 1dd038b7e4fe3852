//! The text of a script with a change.

use crate::runs::mends::edits::Mend;
use crate::runs::mends::line_texts::{is_taken, put_after_line, put_before_line};
use std::alloc::{AllocError, Global};
use std::fmt::Write;
use wb_history::ScriptLines;

/// The name of the pointer that a change adds to a body.
pub const FRESH: &str = "fresh";

/// Returns a script's text with a change. The only error is that memory ran out.
pub fn text_with(
    alloc: Global,
    lines: &ScriptLines<'_>,
    mend: Mend<'_>,
) -> Result<String, AllocError> {
    let mut text = String::new(alloc);
    for line in 1..=lines.count() {
        put_before(&mut text, lines, line, mend)?;
        put_in_place(&mut text, lines, line, mend)?;
        put_after(&mut text, lines, line, mend)?;
        put_below(&mut text, line, mend)?;
    }
    Ok(text)
}

/// Adds what the change puts before a line.
fn put_before(
    text: &mut String,
    lines: &ScriptLines<'_>,
    at: u32,
    mend: Mend<'_>,
) -> Result<(), AllocError> {
    match mend {
        Mend::Lines(change) => put_before_line(text, lines, at, change),
        Mend::OldValue { line, name } if line == at => put_words(text, "null", name),
        Mend::Item {
            first,
            push,
            name,
            ..
        } if first == at => put_words(text, push, name),
        Mend::Again { line, before } if before == at => put_line(text, lines.line(line)),
        Mend::NullItem { before, name } if before == at => put_words(text, "push", name),
        Mend::OneItemLess { before, verb } if before == at => put_words(text, verb, "1"),
        Mend::FreedAtReturn { before, verb, name } if before == at => put_words(text, verb, name),
        Mend::Checked { line, name } if line == at => put_words(text, "if some", name),
        Mend::PopEarlier { before, failed, .. } if failed == at => put_number(
            text,
            "pop",
            i64::from(before),
        ),
        Mend::MadeFirst {
            make,
            before,
            name,
            ..
        } if before == at => put_renamed(text, lines.line(make), name),
        Mend::PushedBefore {
            from,
            to,
            before,
            ..
        } if before == at => put_lines(text, lines, from, to),
        Mend::FreedFirst { line, verb, name } if line == at => put_release(text, verb, name),
        _ => Ok(()),
    }
}

/// Whether the change takes a line from its place.
fn takes(mend: Mend<'_>, at: u32) -> bool {
    match mend {
        Mend::Lines(change) => is_taken(change, at),
        Mend::Later { line, .. }
        | Mend::Earlier { line, .. }
        | Mend::AfterFreed { line, .. }
        | Mend::Needless { line, .. }
        | Mend::LeftOut { line, .. } => line == at,
        Mend::WithoutItem { push, pop } => push == at || pop == at,
        Mend::PushedOnce { push, line, count } => push == at || line == at && count == 0,
        Mend::PushedBefore { from, to, .. } => from <= at && at <= to,
        _ => false,
    }
}

/// Adds a line, or what the change puts in its place.
fn put_in_place(
    text: &mut String,
    lines: &ScriptLines<'_>,
    at: u32,
    mend: Mend<'_>,
) -> Result<(), AllocError> {
    match mend {
        _ if takes(mend, at) => Ok(()),
        Mend::PushedBefore { one, other, .. } if one == at => put_line(text, lines.line(other)),
        Mend::PushedBefore { one, other, .. } if other == at => put_line(text, lines.line(one)),
        Mend::PopLater { line, here, .. } | Mend::PopEarlier { line, here, .. } if line == at => {
            put_number(text, "pop", i64::from(here))
        }
        Mend::PushedOnce { line, count, .. } if line == at => {
            put_number(text, lines.word(line, 0), i64::from(count))
        }
        Mend::Room { line, room, .. } if line == at => {
            text.push_str(lines.word(line, 0))?;
            text.push_str(" ")?;
            put_number(text, lines.word(line, 1), i64::from(room))
        }
        Mend::Leaving { line } if line == at => put_leaving(text, lines.line(line)),
        Mend::MadeFirst { make, name, .. } if make == at => put_set(text, name),
        Mend::SetLater {
            make,
            after,
            name,
            ..
        } if make <= at && at <= after => put_renamed(text, lines.line(at), name),
        _ => put_line(text, lines.line(at)),
    }
}

/// Adds what the change puts after a line.
fn put_after(
    text: &mut String,
    lines: &ScriptLines<'_>,
    at: u32,
    mend: Mend<'_>,
) -> Result<(), AllocError> {
    match mend {
        Mend::Lines(change) => put_after_line(text, lines, at, change),
        Mend::Later { line, after, .. } | Mend::AfterFreed { line, after, .. } if after == at => {
            put_line(text, lines.line(line))
        }
        Mend::Pop { after } if after == at => put_words(text, "pop", "1"),
        Mend::Destroyed {
            destroy,
            verb,
            field,
        } if destroy == at => {
            text.push_str(verb)?;
            text.push_str(" self.")?;
            put_line(text, field)
        }
        Mend::Earlier { line, failed } if failed == at.saturating_add(1) => {
            put_line(text, lines.line(line))
        }
        Mend::GivenAway { line, name } | Mend::Released { line, name } if line == at => {
            put_words(text, "null", name)
        }
        Mend::Item { last, .. } if last == at => put_words(text, "pop", "1"),
        Mend::CodeLookedAt { end, name, .. } if end == at => put_words(text, "leaveiferror", name),
        Mend::NullLeaves { line, name } if line == at => put_words(text, "leaveifnull", name),
        Mend::Checked { line, .. } if line == at => put_line(text, "end"),
        _ => Ok(()),
    }
}

/// Adds what a change of several lines puts after a line.
fn put_below(text: &mut String, at: u32, mend: Mend<'_>) -> Result<(), AllocError> {
    match mend {
        Mend::PopLater { later, after, .. } if after == at => put_number(
            text,
            "pop",
            i64::from(later),
        ),
        Mend::StoredBack {
            after,
            owner,
            field,
            index,
            number,
            ..
        } if after == at => put_store(text, owner, field, index, number),
        Mend::MadeFirst { body, .. } | Mend::SetLater { body, .. } if body == at => {
            put_words(text, "ptr", FRESH)
        }
        Mend::SetLater { make, push, .. } if make == at => put_words(text, push, FRESH),
        Mend::SetLater { after, name, .. } if after == at => {
            put_words(text, "pop", "1")?;
            put_set(text, name)
        }
        _ => Ok(()),
    }
}

/// Adds a line that reallocates, so that it leaves if its attempt fails.
fn put_leaving(text: &mut String, line: &str) -> Result<(), AllocError> {
    text.push_str("reallocl")?;
    put_line(
        text,
        line.trim_start().strip_prefix("realloc").unwrap_or(""),
    )
}

fn put_store(
    text: &mut String,
    owner: &str,
    field: &str,
    index: &str,
    number: i32,
) -> Result<(), AllocError> {
    text.push_str("store ")?;
    text.push_str(owner)?;
    text.push_str(".")?;
    text.push_str(field)?;
    text.push_str(" ")?;
    put_number(text, index, i64::from(number))
}

/// Adds the lines from `from` to `to`.
pub fn put_lines(
    text: &mut String,
    lines: &ScriptLines<'_>,
    from: u32,
    to: u32,
) -> Result<(), AllocError> {
    for line in from..=to {
        put_line(text, lines.line(line))?;
    }
    Ok(())
}

/// Adds a line that releases what a pointer names, and one that makes the pointer null.
fn put_release(text: &mut String, verb: &str, name: &str) -> Result<(), AllocError> {
    put_words(text, verb, name)?;
    put_words(text, "null", name)
}

/// Adds a line of two words.
pub fn put_words(text: &mut String, verb: &str, operand: &str) -> Result<(), AllocError> {
    text.push_str(verb)?;
    text.push_str(" ")?;
    put_line(text, operand)
}

pub fn put_number(text: &mut String, verb: &str, number: i64) -> Result<(), AllocError> {
    match write!(text, "{verb} {number}\n") {
        Ok(()) => Ok(()),
        Err(_) => Err(AllocError),
    }
}

/// Adds a line that gives a pointer what the new pointer names.
pub fn put_set(text: &mut String, name: &str) -> Result<(), AllocError> {
    text.push_str("set ")?;
    put_words(text, name, FRESH)
}

/// Adds a line in which the new pointer stands for a pointer.
pub fn put_renamed(text: &mut String, line: &str, name: &str) -> Result<(), AllocError> {
    for word in line.split_whitespace() {
        text.push_str(if word == name { FRESH } else { word })?;
        text.push_str(" ")?;
    }
    text.push_str("\n")
}

/// Adds a line.
pub fn put_line(text: &mut String, line: &str) -> Result<(), AllocError> {
    text.push_str(line)?;
    text.push_str("\n")
}
