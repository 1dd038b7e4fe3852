//! Changes by which a view becomes a buffer with a copy of what it showed.

use crate::runs::mends::candidates::Mends;
use crate::runs::mends::edits::Mend;
use crate::runs::mends::line_changes::LineChange;
use std::alloc::AllocError;
use wb_history::{PointerState, ScriptLines, WatchedRun};

/// The most units of a buffer.
const MOST_UNITS: u32 = 256;

/// Proposes this, if a panic is about a view whose text is gone, for the view that the line of the panic names.
pub fn add_view_copied<'a>(
    mends: &mut Mends<'a>,
    lines: &ScriptLines<'a>,
    run: &WatchedRun<'_>,
) -> Result<(), AllocError> {
    let Some(fault) = run.end.pointer else {
        return Ok(());
    };
    let used = run.history.last_line();
    let (declared, made) = lines_of_view(lines, used, lines.word(used, fault.word), run);
    if fault.pointer.is_some() || fault.state == PointerState::Null || declared == 0 || made == 0 {
        return Ok(());
    }
    mends.add(Mend::Lines(LineChange::ViewCopied {
        declared,
        made,
        units: units_of(lines, made),
    }))
}

/// The line that declares a view, and the last one above a line that makes it; each is 0 if there is none.
fn lines_of_view(
    lines: &ScriptLines<'_>,
    used: u32,
    name: &str,
    run: &WatchedRun<'_>,
) -> (u32, u32) {
    let (mut declared, mut made) = (0, 0);
    for line in run.history.bodies.body_of(used).line..used {
        if lines.word(line, 1) != name {
            continue;
        }
        match lines.word(line, 0) {
            "view" => declared = line,
            "left" | "right" | "mid" => made = line,
            _ => {}
        }
    }
    (declared, made)
}

/// How many units a buffer needs for what a line lets a view show.
fn units_of(lines: &ScriptLines<'_>, made: u32) -> u32 {
    let at = match lines.word(made, 0) {
        "mid" => 4,
        _ => 3,
    };
    match lines.word(made, at).parse::<u32>() {
        Ok(units) if units <= MOST_UNITS => units,
        _ => MOST_UNITS,
    }
}
