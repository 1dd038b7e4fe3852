//! Changes by which a line of a destructor or an operation comes before one that releases what it uses.

use crate::runs::mends::blocks::statement_before;
use crate::runs::mends::candidates::Mends;
use crate::runs::mends::edits::Mend;
use crate::runs::mends::line_changes::LineChange;
use crate::runs::mends::moves::MOST_BESIDE;
use std::alloc::AllocError;
use wb_history::{PointerState, ScriptLines, WatchedRun};

/// Proposes, if a panic is about a cell that is gone, that a line of a destructor or an operation on the way to it comes before a line above it
/// that releases something: the nearest first.
pub fn add_used_first<'a>(
    mends: &mut Mends<'a>,
    lines: &ScriptLines<'a>,
    run: &WatchedRun<'_>,
) -> Result<(), AllocError> {
    let Some(fault) = run.end.pointer else {
        return Ok(());
    };
    if fault.state == PointerState::Null {
        return Ok(());
    }
    for line in run.end.path.as_slice() {
        if run.history.bodies.undoes(*line) {
            add_before_releases(mends, lines, *line)?;
        }
    }
    Ok(())
}

fn add_before_releases<'a>(
    mends: &mut Mends<'a>,
    lines: &ScriptLines<'a>,
    line: u32,
) -> Result<(), AllocError> {
    let mut before = line;
    for _ in 0..MOST_BESIDE {
        before = statement_before(lines, before);
        if before == 0 {
            break;
        }
        if let "free" | "delete" = lines.word(before, 0) {
            mends.add(Mend::Lines(LineChange::UsedFirst { line, before }))?;
        }
    }
    Ok(())
}
