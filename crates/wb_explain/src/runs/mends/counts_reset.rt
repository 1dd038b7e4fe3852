//! Changes by which a count that an earlier try left in a cell is set back before it is read again.

use crate::runs::mends::blocks::{begins_body, block_around};
use crate::runs::mends::candidates::Mends;
use crate::runs::mends::edits::Mend;
use crate::runs::mends::line_changes::LineChange;
use std::alloc::AllocError;
use wb_history::{ScriptLines, Values, WatchedRun};

/// How many blocks a line may stand in.
const MOST_BLOCKS: u32 = 17;

/// Proposes, if a line used a word past the end of a cell, and its index was loaded from a cell inside a block, that this count is 0 before the
/// block.
pub fn add_count_reset<'a>(
    mends: &mut Mends<'a>,
    lines: &ScriptLines<'a>,
    run: &WatchedRun<'_>,
) -> Result<(), AllocError> {
    let used = run.history.last_line();
    match run.end.values {
        Some(meant) if matches!(meant.values, Values::NoWord { .. }) => {}
        _ => return Ok(()),
    }
    let index = match lines.word(used, 0) {
        "store" => lines.word(used, 2),
        _ => lines.word(used, 3),
    };
    let load = load_above(lines, used, index);
    let before = outermost_block(lines, load);
    if load == 0 || before == 0 {
        return Ok(());
    }
    mends.add(Mend::Lines(LineChange::CountReset { load, before }))
}

/// The last line above a line, in the same body, that loads an int; 0 if there is none.
fn load_above(lines: &ScriptLines<'_>, used: u32, index: &str) -> u32 {
    for back in 1..used {
        let at = used.saturating_sub(back);
        if begins_body(lines, at) {
            break;
        }
        if lines.word(at, 0) == "load" && lines.word(at, 1) == index {
            return at;
        }
    }
    0
}

/// The first line of the outermost block around a line, in its body; 0 if it stands in none.
fn outermost_block(lines: &ScriptLines<'_>, line: u32) -> u32 {
    let mut outermost = 0;
    let mut at = line;
    for _ in 0..MOST_BLOCKS {
        at = block_around(lines, at);
        if at == 0 || begins_body(lines, at) {
            break;
        }
        outermost = at;
    }
    outermost
}
