//! Changes by which a new pointer gets a cell first, and a field only after all lines that may leave.

use crate::runs::mends::anchors::Anchor;
use crate::runs::mends::blocks::{body_around, statement_before};
use crate::runs::mends::candidates::Mends;
use crate::runs::mends::edits::Mend;
use crate::runs::mends::line_changes::LineChange;
use crate::runs::mends::moves::last_that_may_leave;
use std::alloc::AllocError;
use wb_history::ScriptLines;

/// How many statements of a block are looked at, before one that left.
const MOST_BEFORE: u32 = 8;

/// Proposes, if a statement that makes a cell for a field left, that a new pointer gets the cell before the lines above that change something.
pub fn add_made_first<'a>(
    mends: &mut Mends<'a>,
    lines: &ScriptLines<'a>,
    anchor: Anchor,
) -> Result<(), AllocError> {
    let make = anchor.first;
    if !anchor.has_left || push_for(lines, make).is_empty() {
        return Ok(());
    }
    let (mut before, body) = (make, body_around(lines, make));
    for _ in 0..MOST_BEFORE {
        before = statement_before(lines, before);
        if before == 0 || !changes(lines.word(before, 0)) {
            break;
        }
        mends.add(Mend::MadeFirst {
            body,
            make,
            before,
            name: lines.word(make, 1),
        })?;
    }
    Ok(())
}

/// Proposes, if a statement that makes a cell for a field left after a call that may leave as well, that a new pointer gets the cell before the
/// call, and has an item up to the field's line.
pub fn add_made_pushed<'a>(
    mends: &mut Mends<'a>,
    lines: &ScriptLines<'a>,
    anchor: Anchor,
) -> Result<(), AllocError> {
    let (make, push) = (anchor.first, push_for(lines, anchor.first));
    let before = statement_before(lines, make);
    if !anchor.has_left || push.is_empty() {
        return Ok(());
    }
    match lines.word(before, 0) {
        "call" | "callto" => mends.add(Mend::Lines(LineChange::MadePushed {
            body: body_around(lines, make),
            make,
            before,
            push,
            name: lines.word(make, 1),
        })),
        _ => Ok(()),
    }
}

/// Whether a statement with this first word changes something, and can't leave.
fn changes(word: &str) -> bool {
    match word {
        "free" | "delete" | "null" | "set" | "store" => true,
        _ => false,
    }
}

/// The first word of the line that pushes what a line makes for a field; empty if the line makes nothing for a field.
fn push_for(lines: &ScriptLines<'_>, line: u32) -> &'static str {
    if !lines.word(line, 1).contains('.') {
        return "";
    }
    match lines.word(line, 0) {
        "newleave" => "pushobj",
        "allocl" | "hnewl" => "push",
        _ => "",
    }
}

/// Proposes, for each line above a statement that left that makes a cell for a field, that a new pointer has the cell up to the end of that
/// statement, or of the last statement that may leave.
pub fn add_set_later<'a>(
    mends: &mut Mends<'a>,
    lines: &ScriptLines<'a>,
    anchor: Anchor,
) -> Result<(), AllocError> {
    if !anchor.has_left || lines.word(anchor.first, 0) == "trap" {
        return Ok(());
    }
    let end = last_that_may_leave(lines, anchor);
    let mut at = anchor.first;
    for _ in 0..MOST_BEFORE {
        at = statement_before(lines, at);
        if at == 0 {
            break;
        }
        if !push_for(lines, at).is_empty() {
            add_fresh(mends, lines, anchor.first, at, anchor.last)?;
            if end != anchor.last {
                add_fresh(mends, lines, anchor.first, at, end)?;
            }
        }
    }
    Ok(())
}

fn add_fresh<'a>(
    mends: &mut Mends<'a>,
    lines: &ScriptLines<'a>,
    failed: u32,
    make: u32,
    after: u32,
) -> Result<(), AllocError> {
    mends.add(Mend::SetLater {
        body: body_around(lines, make),
        make,
        failed,
        after,
        push: push_for(lines, make),
        name: lines.word(make, 1),
    })
}
