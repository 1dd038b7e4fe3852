//! Changes by which lines that leave where a pointer is null first free what the others of them look at.

use crate::runs::mends::anchors::Anchor;
use crate::runs::mends::blocks::{statement_after, statement_before};
use crate::runs::mends::candidates::Mends;
use crate::runs::mends::edits::Mend;
use crate::runs::mends::line_changes::LineChange;
use crate::runs::mends::moves::MOST_BESIDE;
use std::alloc::AllocError;
use wb_history::ScriptLines;

/// Proposes this if a `leaveifnull` left, for it and those right above and below it, if there are more than one.
pub fn add_freed_for_null<'a>(
    mends: &mut Mends<'a>,
    lines: &ScriptLines<'a>,
    anchor: Anchor,
) -> Result<(), AllocError> {
    let (mut first, mut last) = (anchor.first, anchor.first);
    if !anchor.has_left || !looks_at_local(lines, first) {
        return Ok(());
    }
    for _ in 0..MOST_BESIDE {
        let (above, below) = (statement_before(lines, first), statement_after(lines, last));
        if looks_at_local(lines, above) {
            first = above;
        }
        if looks_at_local(lines, below) {
            last = below;
        }
    }
    if first == last {
        return Ok(());
    }
    mends.add(Mend::Lines(LineChange::FreedForNull { first, last }))
}

/// Returns whether a line leaves where a local is null.
pub fn looks_at_local(lines: &ScriptLines<'_>, line: u32) -> bool {
    lines.word(line, 0) == "leaveifnull" && !lines.word(line, 1).contains('.')
}
