//! Changes by which lines after a TRAP that do what an item's operation did for the leave are left out.

use crate::runs::mends::anchors::Anchor;
use crate::runs::mends::blocks::{last_line_of, statement_after};
use crate::runs::mends::candidates::Mends;
use crate::runs::mends::edits::Mend;
use crate::runs::mends::line_changes::LineChange;
use crate::runs::mends::moves::MOST_BESIDE;
use std::alloc::AllocError;
use wb_history::{ScriptLines, WatchedRun};

/// Proposes, if the item that was destroyed last had an operation, and a TRAP caught a leave, that a statement after the TRAP is left out: a call,
/// the lines from a `load` to the `store` of the same cell, or a block. Those inside of a block are tried before the block, unless the block does
/// nothing but count and release.
pub fn add_done_by_item<'a>(
    mends: &mut Mends<'a>,
    lines: &ScriptLines<'a>,
    anchor: Anchor,
    run: &WatchedRun<'_>,
) -> Result<(), AllocError> {
    let pushed = match run.history.last_item {
        Some(item) => item.pushed.line,
        None => 0,
    };
    if !anchor.has_left
        || lines.word(anchor.first, 0) != "trap"
        || lines.word(pushed, 0) != "pushop"
    {
        return Ok(());
    }
    let mut first = statement_after(lines, anchor.last);
    for _ in 0..MOST_BESIDE {
        if first == 0 {
            break;
        }
        let last = last_line_of(lines, first);
        if lines.word(first, 0) == "if" && !only_counts(lines, first, last) {
            for inside in first.saturating_add(1)..last {
                add_left_out(mends, lines, inside, pushed)?;
            }
        }
        add_left_out(mends, lines, first, pushed)?;
        first = statement_after(lines, last);
    }
    Ok(())
}

/// Proposes, if a TRAP caught a leave, that a call is left out which comes where its code isn't 0, and undoes what wasn't done then.
pub fn add_undo_left_out<'a>(
    mends: &mut Mends<'a>,
    lines: &ScriptLines<'a>,
    anchor: Anchor,
) -> Result<(), AllocError> {
    let head = statement_after(lines, anchor.last);
    let looks = lines.word(head, 0) == "if" && lines.word(head, 2) == lines.word(anchor.first, 1);
    if !anchor.has_left || lines.word(anchor.first, 0) != "trap" || !looks {
        return Ok(());
    }
    for line in head..last_line_of(lines, head) {
        if lines.word(line, 0) == "call" {
            mends.add(Mend::Lines(LineChange::DoneByItem {
                first: line,
                last: line,
                pushed: 0,
            }))?;
        }
    }
    Ok(())
}

/// Proposes that the statement of a line is left out, if it is one of those that may give back what an operation gives back.
fn add_left_out<'a>(
    mends: &mut Mends<'a>,
    lines: &ScriptLines<'a>,
    first: u32,
    pushed: u32,
) -> Result<(), AllocError> {
    let last = match lines.word(first, 0) {
        "call" => first,
        "if" => last_line_of(lines, first),
        "load" => store_after(lines, first),
        _ => 0,
    };
    if last == 0 {
        return Ok(());
    }
    mends.add(Mend::Lines(LineChange::DoneByItem {
        first,
        last,
        pushed,
    }))
}

/// Whether lines do nothing but change numbers of cells and release cells.
fn only_counts(lines: &ScriptLines<'_>, first: u32, last: u32) -> bool {
    for line in first..=last {
        match lines.word(line, 0) {
            "load" | "store" | "add" | "if" | "else" | "end" | "free" | "delete" | "null" | "" => {}
            _ => return false,
        }
    }
    true
}

/// The line after a `load`, in the same block, that stores into the word that it loads; 0 if there is none.
fn store_after(lines: &ScriptLines<'_>, load: u32) -> u32 {
    let mut last = load;
    for _ in 0..MOST_BESIDE {
        let at = statement_after(lines, last);
        if at == 0 {
            break;
        }
        if lines.word(at, 0) == "store" && lines.word(at, 1) == lines.word(load, 2) {
            return at;
        }
        last = last_line_of(lines, at);
    }
    0
}
