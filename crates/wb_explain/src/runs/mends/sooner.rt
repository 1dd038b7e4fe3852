//! Changes by which a line that left comes before lines above it that change something.

use crate::runs::mends::anchors::Anchor;
use crate::runs::mends::blocks::statement_before;
use crate::runs::mends::candidates::Mends;
use crate::runs::mends::dependent::may_pass;
use crate::runs::mends::edits::Mend;
use crate::runs::mends::line_changes::LineChange;
use crate::runs::mends::moves::MOST_BESIDE;
use std::alloc::AllocError;
use wb_history::ScriptLines;

/// Proposes, if a line that asks for memory left, that it comes before a line above it that changes something: the nearest first, up to a
/// line that it depends on, or that may leave.
pub fn add_sooner<'a>(
    mends: &mut Mends<'a>,
    lines: &ScriptLines<'a>,
    anchor: Anchor,
) -> Result<(), AllocError> {
    let line = anchor.first;
    if !anchor.has_left || !asks(lines.word(line, 0)) {
        return Ok(());
    }
    let mut before = line;
    for _ in 0..MOST_BESIDE {
        before = statement_before(lines, before);
        if before == 0 || !may_come_after(lines, before, line) {
            break;
        }
        mends.add(Mend::Lines(LineChange::Sooner { line, before }))?;
    }
    Ok(())
}

/// Proposes, if a line that asks for memory left after two lines or more that set fields, that it comes before all of them.
pub fn add_before_run<'a>(
    mends: &mut Mends<'a>,
    lines: &ScriptLines<'a>,
    anchor: Anchor,
) -> Result<(), AllocError> {
    let line = anchor.first;
    if !anchor.has_left || !asks(lines.word(line, 0)) {
        return Ok(());
    }
    let (mut first, mut at, mut count) = (line, line, 0u32);
    for _ in 0..MOST_BESIDE {
        at = statement_before(lines, at);
        if at == 0 || !sets_field(lines, at) || !may_come_after(lines, at, line) {
            break;
        }
        first = at;
        count = count.saturating_add(1);
    }
    if count < 2 {
        return Ok(());
    }
    mends.add(Mend::Lines(LineChange::Sooner {
        line,
        before: first,
    }))
}

/// Proposes, if a call left after lines that take a cell out of fields, that it comes before all of them.
pub fn add_call_first<'a>(
    mends: &mut Mends<'a>,
    lines: &ScriptLines<'a>,
    anchor: Anchor,
) -> Result<(), AllocError> {
    let line = anchor.first;
    if !anchor.has_left || lines.word(line, 0) != "call" {
        return Ok(());
    }
    let (mut before, mut at) = (0, line);
    for _ in 0..MOST_BESIDE {
        at = statement_before(lines, at);
        if at == 0 || !only_changes(lines.word(at, 0)) || !may_pass(lines, line, at, at) {
            break;
        }
        if sets_field(lines, at) {
            before = at;
        }
    }
    if before == 0 {
        return Ok(());
    }
    mends.add(Mend::Lines(LineChange::Sooner { line, before }))
}

fn sets_field(lines: &ScriptLines<'_>, line: u32) -> bool {
    match lines.word(line, 0) {
        "set" | "null" => lines.word(line, 1).contains('.'),
        _ => false,
    }
}

/// Whether a line only changes something, or asks for another cell, and may come after the line that left.
fn may_come_after(lines: &ScriptLines<'_>, line: u32, left: u32) -> bool {
    let word = lines.word(line, 0);
    (only_changes(word) || asks(word)) && may_pass(lines, left, line, line)
}

/// Whether a line with this first word asks for memory, and leaves if there is none.
fn asks(word: &str) -> bool {
    match word {
        "newleave" | "allocl" | "reallocl" | "hnewl" => true,
        _ => false,
    }
}

/// Whether a line with this first word changes what is known, and can't leave.
fn only_changes(word: &str) -> bool {
    match word {
        "free" | "delete" | "null" | "set" | "store" | "load" | "add" => true,
        _ => false,
    }
}
