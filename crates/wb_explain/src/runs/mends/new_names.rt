//! The text of a script in which a body has a new pointer or a new int.

use crate::runs::mends::line_changes::LineChange;
use crate::runs::mends::texts::{FRESH, put_line, put_number, put_renamed, put_set, put_words};
use std::alloc::AllocError;
use wb_history::ScriptLines;

/// Adds what a change puts before a line.
pub fn put_before_new(
    text: &mut String,
    lines: &ScriptLines<'_>,
    at: u32,
    change: LineChange<'_>,
) -> Result<(), AllocError> {
    match change {
        LineChange::KeptIfNull { call, .. } if call == at => put_kept(text, lines, call),
        LineChange::ViewCopied {
            declared,
            units,
            ..
        } if declared == at => {
            put_words(text, "view", FRESH)?;
            text.push_str("buf ")?;
            put_number(text, lines.word(declared, 1), i64::from(units))
        }
        LineChange::ViewCopied { made, .. } if made == at => {
            put_answer(text, lines, made)?;
            text.push_str("copy ")?;
            put_words(text, lines.word(made, 1), FRESH)
        }
        LineChange::OwnCode { other, .. } if other == at => put_words(text, "trap", FRESH),
        LineChange::ReallocKept { line, name, .. } if line == at => {
            put_answer(text, lines, line)?;
            put_words(text, "if null", FRESH)?;
            put_words(text, "free", name)?;
            put_line(text, "end")?;
            put_set(text, name)
        }
        LineChange::MadePushed {
            make,
            before,
            push,
            name,
            ..
        } if before == at => {
            put_renamed(text, lines.line(make), name)?;
            put_words(text, push, FRESH)
        }
        LineChange::MadePushed { make, name, .. } if make == at => {
            put_line(text, "pop 1")?;
            put_set(text, name)
        }
        _ => Ok(()),
    }
}

/// Adds the declaration that a change puts after the line that begins a body.
pub fn put_after_new(text: &mut String, at: u32, change: LineChange<'_>) -> Result<(), AllocError> {
    match change {
        LineChange::KeptIfNull { body, .. }
        | LineChange::ReallocKept { body, .. }
        | LineChange::MadePushed { body, .. }
            if body == at => put_words(text, "ptr", FRESH),
        LineChange::OwnCode { body, .. } if body == at => put_words(text, "int", FRESH),
        _ => Ok(()),
    }
}

/// Adds a call whose result a new pointer gets, and the call's target gets it only if it isn't null.
fn put_kept(text: &mut String, lines: &ScriptLines<'_>, call: u32) -> Result<(), AllocError> {
    put_answer(text, lines, call)?;
    put_words(text, "if some", FRESH)?;
    put_set(text, lines.word(call, 1))?;
    put_line(text, "end")
}

/// Adds a line whose target is the new pointer.
fn put_answer(text: &mut String, lines: &ScriptLines<'_>, line: u32) -> Result<(), AllocError> {
    text.push_str(lines.word(line, 0))?;
    text.push_str(" ")?;
    text.push_str(FRESH)?;
    for word in lines.line(line).split_whitespace().skip(2) {
        text.push_str(" ")?;
        text.push_str(word)?;
    }
    text.push_str("\n")
}
