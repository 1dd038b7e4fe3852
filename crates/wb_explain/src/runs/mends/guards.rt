//! Changes by which statements after a TRAP run only if the TRAP caught no leave.

use crate::runs::mends::anchors::Anchor;
use crate::runs::mends::blocks::{last_line_of, statement_after};
use crate::runs::mends::candidates::Mends;
use crate::runs::mends::edits::Mend;
use crate::runs::mends::line_changes::LineChange;
use crate::runs::mends::looks::is_overlooked;
use crate::runs::mends::moves::MOST_BESIDE;
use std::alloc::AllocError;
use wb_history::{ScriptLines, WatchedRun};

/// Proposes, if a TRAP caught a leave and no line looks at its code, that the statement that panicked after it runs only if the code is 0: this
/// one alone, or with those above it, or with those below it in the block.
pub fn add_only_if_fine<'a>(
    mends: &mut Mends<'a>,
    lines: &ScriptLines<'a>,
    anchor: Anchor,
    run: &WatchedRun<'_>,
) -> Result<(), AllocError> {
    let is_trap = anchor.has_left && lines.word(anchor.first, 0) == "trap";
    let is_check = run.end.counted.is_some();
    let below = statement_after(lines, anchor.last);
    if !is_trap || is_check || below == 0 || !is_overlooked(lines, anchor) {
        return Ok(());
    }
    let (mut first, mut last) = (below, last_line_of(lines, below));
    for _ in 0..MOST_BESIDE {
        if is_at_panic(run, first, last) {
            add_guard(mends, lines, anchor, first, last)?;
            add_guard(mends, lines, anchor, below, last)?;
            return add_guard(mends, lines, anchor, first, last_of_block(lines, last));
        }
        first = statement_after(lines, last);
        if first == 0 {
            break;
        }
        last = last_line_of(lines, first);
    }
    Ok(())
}

fn add_guard<'a>(
    mends: &mut Mends<'a>,
    lines: &ScriptLines<'a>,
    anchor: Anchor,
    first: u32,
    last: u32,
) -> Result<(), AllocError> {
    mends.add(Mend::Lines(LineChange::OnlyIfFine {
        trap: anchor.first,
        first,
        last,
        name: lines.word(anchor.first, 1),
    }))
}

/// Whether a statement of these lines panicked, or called what did.
fn is_at_panic(run: &WatchedRun<'_>, first: u32, last: u32) -> bool {
    for line in run.end.path.as_slice() {
        if first <= *line && *line <= last {
            return true;
        }
    }
    false
}

/// The last line of the last statement of a block, from a statement's last line on.
fn last_of_block(lines: &ScriptLines<'_>, last: u32) -> u32 {
    let mut found = last;
    for _ in 0..MOST_BESIDE {
        match statement_after(lines, found) {
            0 => break,
            at => found = last_line_of(lines, at),
        }
    }
    found
}
