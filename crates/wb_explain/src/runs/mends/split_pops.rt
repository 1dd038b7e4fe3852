//! Changes by which a line that pops several items pops only some of them, and the others come off later or earlier.

use crate::runs::mends::anchors::Anchor;
use crate::runs::mends::blocks::{last_line_of, statement_after, statement_before};
use crate::runs::mends::candidates::Mends;
use crate::runs::mends::edits::Mend;
use crate::runs::mends::moves::MOST_BESIDE;
use std::alloc::AllocError;
use wb_history::ScriptLines;

/// How many statements of a block are looked at, after one that left.
const MOST_AFTER: u32 = 6;

/// The most items of one line that are split.
const MOST_ITEMS: u32 = 4;

/// Proposes, for each line of the block of a statement that left that pops several items, that some of them come off at another place.
pub fn add_split_pops<'a>(
    mends: &mut Mends<'a>,
    lines: &ScriptLines<'a>,
    anchor: Anchor,
) -> Result<(), AllocError> {
    if !anchor.has_left {
        return Ok(());
    }
    let mut at = anchor.first;
    for _ in 0..MOST_BESIDE {
        at = statement_before(lines, at);
        if at == 0 {
            break;
        }
        add_later_pops(mends, lines, anchor, at)?;
    }
    let mut last = anchor.last;
    for _ in 0..MOST_BESIDE {
        let at = statement_after(lines, last);
        if at == 0 {
            break;
        }
        last = last_line_of(lines, at);
        add_earlier_pops(mends, lines, anchor, at)?;
    }
    Ok(())
}

/// How many items a line pops, if these are several; 0 otherwise.
fn several_of(lines: &ScriptLines<'_>, line: u32) -> u32 {
    if lines.word(line, 0) != "pop" {
        return 0;
    }
    match lines.word(line, 1).parse::<u32>() {
        Ok(count) if 2 <= count && count <= MOST_ITEMS => count,
        _ => 0,
    }
}

/// Proposes that some of the items which a line pops come off only after the statement that left, or after one of those below it.
fn add_later_pops<'a>(
    mends: &mut Mends<'a>,
    lines: &ScriptLines<'a>,
    anchor: Anchor,
    line: u32,
) -> Result<(), AllocError> {
    let count = several_of(lines, line);
    for here in 1..count {
        let mut after = anchor.last;
        for _ in 0..MOST_AFTER {
            mends.add(Mend::PopLater {
                line,
                here,
                later: count.saturating_sub(here),
                failed: anchor.first,
                after,
            })?;
            let at = statement_after(lines, after);
            if at == 0 {
                break;
            }
            after = last_line_of(lines, at);
        }
    }
    Ok(())
}

/// Proposes that some of the items which a line pops come off before the statement that left.
fn add_earlier_pops<'a>(
    mends: &mut Mends<'a>,
    lines: &ScriptLines<'a>,
    anchor: Anchor,
    line: u32,
) -> Result<(), AllocError> {
    let count = several_of(lines, line);
    for before in 1..count {
        mends.add(Mend::PopEarlier {
            line,
            before,
            here: count.saturating_sub(before),
            failed: anchor.first,
        })?;
    }
    Ok(())
}
