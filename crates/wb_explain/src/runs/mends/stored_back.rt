//! Changes by which a number that a line stored gets its old value again.

use crate::runs::mends::candidates::Mends;
use crate::runs::mends::edits::Mend;
use crate::runs::script_page::ScriptPage;
use crate::runs::shared::{field_of, object_of};
use crate::runs::stored::stored_before_panic;
use std::alloc::{AllocError, Global};
use wb_history::{ScriptLines, WatchedRun};

/// Proposes, if a panic is about a pointer that a line made null, and came of a number that was stored before a line left, that the number gets
/// its old value again where the pointer becomes null.
pub fn add_stored_back<'a>(
    alloc: Global,
    mends: &mut Mends<'a>,
    lines: &ScriptLines<'a>,
    run: &WatchedRun<'_>,
) -> Result<(), AllocError> {
    let Some(write) = run.end.pointer.and_then(|fault| fault.write) else {
        return Ok(());
    };
    let Some(stored) = stored_line(alloc, lines, run) else {
        return Ok(());
    };
    let after = write.line;
    let Some(field) = field_of(lines.word(stored, 1)) else {
        return Ok(());
    };
    if lines.word(after, 0) != "null" || field_of(lines.word(after, 1)).is_none() {
        return Ok(());
    }
    mends.add(Mend::StoredBack {
        stored,
        after,
        owner: object_of(lines.word(after, 1)),
        field,
        index: lines.word(stored, 2),
        number: old_number(stored, run),
    })
}

/// The line that stored the number that a panic came of, before a line left; `None` if there is none.
fn stored_line(alloc: Global, lines: &ScriptLines<'_>, run: &WatchedRun<'_>) -> Option<u32> {
    let page = ScriptPage::new(alloc, lines);
    let stored = stored_before_panic(&page, run.history.last_line(), run)?;
    Some(stored.line)
}

/// The number that a word had before a line stored another one; 0 if it isn't known.
fn old_number(stored: u32, run: &WatchedRun<'_>) -> i32 {
    let uses = &run.history.word_uses;
    match uses.of_line(stored).and_then(|it| uses.store_before(it)) {
        Some(before) => before.number,
        None => 0,
    }
}
