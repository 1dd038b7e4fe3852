//! Changes by which a run leaves where a failed attempt gives a null pointer, or by which a line is passed over where its pointer is null.

use crate::runs::mends::anchors::Anchor;
use crate::runs::mends::blocks::{body_around, is_plain, statement_after};
use crate::runs::mends::candidates::Mends;
use crate::runs::mends::edits::Mend;
use crate::runs::mends::line_changes::LineChange;
use crate::runs::shared::object_of;
use std::alloc::AllocError;
use wb_history::{NullOf, PointerState, ScriptLines, WatchedRun};

/// Proposes, if a panic is about a null pointer, that the run leaves where a line gave the pointer null, or where the null came from.
pub fn add_null_leaves<'a>(
    mends: &mut Mends<'a>,
    lines: &ScriptLines<'a>,
    run: &WatchedRun<'_>,
) -> Result<(), AllocError> {
    let Some(fault) = run.end.pointer else {
        return Ok(());
    };
    if fault.state != PointerState::Null {
        return Ok(());
    }
    let Some(write) = fault.write else {
        return add_never_set(mends, lines, run);
    };
    if let Some(NullOf { line, .. }) = write.null_of {
        add_leave(mends, lines, line)?;
    }
    add_leave(mends, lines, write.line)
}

/// Proposes, if a panic is about a local that is still null since each line that was to set it left, that the run leaves then.
fn add_never_set<'a>(
    mends: &mut Mends<'a>,
    lines: &ScriptLines<'a>,
    run: &WatchedRun<'_>,
) -> Result<(), AllocError> {
    let (line, Some(fault)) = (run.history.last_line(), run.end.pointer) else {
        return Ok(());
    };
    let word = lines.word(line, fault.word);
    let name = if fault.is_owner {
        object_of(word)
    } else {
        word
    };
    if name.contains('.') || run.history.bodies.undoes(line) || !is_plain(lines, line) {
        return Ok(());
    }
    mends.add(Mend::Lines(LineChange::NeverSet { line, name }))
}

/// Proposes, for each line that asked for memory and gave null, that it leaves instead, unless the next line deals with the null.
pub fn add_asks_leaving<'a>(
    mends: &mut Mends<'a>,
    lines: &ScriptLines<'a>,
    anchor: Anchor,
) -> Result<(), AllocError> {
    let (line, next) = (anchor.first, statement_after(lines, anchor.first));
    let is_dealt_with = lines.word(next, 0) == "if"
        && lines.word(next, 1) == "null"
        && lines.word(next, 2) == lines.word(line, 1);
    match lines.word(line, 0) {
        "new" | "alloc" | "hnew" if !anchor.has_left && !is_dealt_with => {
            mends.add(Mend::Lines(LineChange::AsksLeaving { line }))
        }
        _ => Ok(()),
    }
}

/// Proposes, for a line that reallocates a local and gives it the answer, that a new pointer gets the answer, and that the old cell is freed
/// where that is null.
pub fn add_realloc_kept<'a>(
    mends: &mut Mends<'a>,
    lines: &ScriptLines<'a>,
    anchor: Anchor,
) -> Result<(), AllocError> {
    let (line, name) = (anchor.first, lines.word(anchor.first, 1));
    match lines.word(line, 0) {
        "realloc" | "hrealloc" if !anchor.has_left && lines.word(line, 2) == name => {
            mends.add(Mend::Lines(LineChange::ReallocKept {
                body: body_around(lines, line),
                line,
                name,
            }))
        }
        _ => Ok(()),
    }
}

/// Proposes, if a destructor or an operation panics because of a null pointer, that its line is done only where the pointer isn't null.
pub fn add_checked<'a>(
    mends: &mut Mends<'a>,
    lines: &ScriptLines<'a>,
    run: &WatchedRun<'_>,
) -> Result<(), AllocError> {
    let line = run.history.last_line();
    let Some(fault) = run.end.pointer else {
        return Ok(());
    };
    let is_null = fault.state == PointerState::Null;
    if !is_null || !run.history.bodies.undoes(line) || !is_plain(lines, line) {
        return Ok(());
    }
    let word = lines.word(line, fault.word);
    mends.add(Mend::Checked {
        line,
        name: if fault.is_owner {
            object_of(word)
        } else {
            word
        },
    })
}

/// Proposes that a line which reallocates leaves if its attempt fails, and so keeps the cell.
pub fn add_leaving<'a>(
    mends: &mut Mends<'a>,
    lines: &ScriptLines<'a>,
    anchor: Anchor,
) -> Result<(), AllocError> {
    let line = anchor.first;
    if anchor.has_left
        || lines.word(line, 0) != "realloc"
        || lines.word(line, 1) != lines.word(line, 2)
    {
        return Ok(());
    }
    mends.add(Mend::Leaving { line })
}

/// Proposes that the run leaves after a line that may give a pointer null, unless the next line looks at the pointer.
fn add_leave<'a>(
    mends: &mut Mends<'a>,
    lines: &ScriptLines<'a>,
    line: u32,
) -> Result<(), AllocError> {
    let (name, next) = (lines.word(line, 1), statement_after(lines, line));
    let is_looked_at = lines.word(next, 0) == "if" && lines.word(next, 2) == name;
    match lines.word(line, 0) {
        "new" | "alloc" | "hnew" | "callto" if !is_looked_at => {
            mends.add(Mend::NullLeaves { line, name })
        }
        _ => Ok(()),
    }
}
