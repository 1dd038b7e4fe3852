//! A number that a line stored before a line left, and by which an `if` then passed over what would have kept the run from its panic: a growth,
//! or the making of what a field is to name.

use crate::runs::heads::end_of;
use crate::runs::kept::name_of;
use crate::runs::script_page::ScriptPage;
use crate::runs::shared::field_of;
use crate::runs::stored::{Stored, stored_for};
use wb_history::{PointerFault, WatchedRun};

/// Returns the number by which the last `if` above a line, in the same body, passed over a call or a line that makes a cell longer; `None` if
/// there is none.
pub fn passed_growth(page: &ScriptPage<'_>, line: u32, run: &WatchedRun<'_>) -> Option<Stored> {
    let bodies = &run.history.bodies;
    let body = bodies.body_of(line);
    let mut stored = None;
    for head in body.line..line {
        let end = end_of(page, head);
        if page.word(head, 0) == "if"
            && bodies.body_of(head) == body
            && end < line
            && let Some(passed) = growth_in(page, head, end)
        {
            stored = passed_for(page, head, passed, run).or(stored);
        }
    }
    stored
}

/// The number by which the `if` at the line `head` passed over the line `passed`, if another line had stored it before a line left.
fn passed_for(
    page: &ScriptPage<'_>,
    head: u32,
    passed: u32,
    run: &WatchedRun<'_>,
) -> Option<Stored> {
    let stored = stored_for(page, head, run)?;
    Some(Stored { passed, ..stored })
}

/// The first call, or line that makes a cell longer, between two lines; `None` if there is none.
fn growth_in(page: &ScriptPage<'_>, head: u32, end: u32) -> Option<u32> {
    for at in head..end {
        if matches!(
            page.word(at, 0),
            "call" | "callto" | "realloc" | "reallocl" | "hrealloc"
        ) {
            return Some(at);
        }
    }
    None
}

/// Returns the number by which an `if` kept a field null: it passed over a line that gives the field a value, or led to a `return` above such a
/// line. `None` if there is none, or if the pointer at fault has nothing to do with a field.
pub fn passed_making(
    page: &ScriptPage<'_>,
    line: u32,
    fault: PointerFault,
    run: &WatchedRun<'_>,
) -> Option<Stored> {
    let name = name_of(page, line, fault);
    let copied = fault.write.map_or("", |write| page.word(write.line, 2));
    let field = field_of(name).or(field_of(copied))?;
    let mut stored = None;
    for head in 1..page.lines.count() {
        if page.word(head, 0) == "if"
            && let Some(passed) = making_after(page, head, field, run)
        {
            stored = passed_for(page, head, passed, run).or(stored);
        }
    }
    stored
}

/// The line in the block that begins at the line `head`, or below a `return` of this block in the same body, that gives this field a value;
/// `None` if there is none.
fn making_after(
    page: &ScriptPage<'_>,
    head: u32,
    field: &str,
    run: &WatchedRun<'_>,
) -> Option<u32> {
    let (bodies, end) = (&run.history.bodies, end_of(page, head));
    let returns = (head..end).any(|at| page.word(at, 0) == "return");
    let until = if returns { page.lines.count() } else { end };
    let body = bodies.body_of(head);
    for at in head..until {
        if gives(page, at, field) && bodies.body_of(at) == body {
            return Some(at);
        }
    }
    None
}

/// Whether a line gives this field a value other than null.
fn gives(page: &ScriptPage<'_>, line: u32, field: &str) -> bool {
    let is_given = matches!(
        page.word(line, 0),
        "set" | "new" | "newleave" | "alloc" | "allocl" | "hnew" | "hnewl"
    );
    is_given && field_of(page.word(line, 1)) == Some(field)
}
