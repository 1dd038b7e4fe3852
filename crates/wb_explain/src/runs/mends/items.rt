//! Changes that take an item off the cleanup stack where a body or a call leaves one too many.

use crate::runs::mends::blocks::{begins_body, block_around, is_plain};
use crate::runs::mends::candidates::Mends;
use crate::runs::mends::edits::Mend;
use std::alloc::AllocError;
use wb_history::ScriptLines;

/// Proposes that a body takes off an item before it ends or returns.
pub fn add_one_item_less<'a>(
    mends: &mut Mends<'a>,
    lines: &ScriptLines<'a>,
    line: u32,
) -> Result<(), AllocError> {
    let ends_body = match lines.word(line, 0) {
        "return" => is_plain(lines, line),
        "end" => {
            let block = block_around(lines, line);
            begins_body(lines, block) && lines.word(block, 0) != "class"
        }
        _ => false,
    };
    if ends_body {
        for verb in ["popdestroy", "pop"] {
            mends.add(Mend::OneItemLess { before: line, verb })?;
        }
        Ok(())
    } else {
        Ok(())
    }
}

/// Proposes that the item that a call leaves is popped right after the call.
pub fn add_pop<'a>(
    mends: &mut Mends<'a>,
    lines: &ScriptLines<'a>,
    line: u32,
) -> Result<(), AllocError> {
    match lines.word(line, 0) {
        "call" | "callto" => mends.add(Mend::Pop { after: line }),
        _ => Ok(()),
    }
}

/// Proposes an item of a null pointer before a return on the way where that pointer is null.
pub fn add_null_item<'a>(
    mends: &mut Mends<'a>,
    lines: &ScriptLines<'a>,
    line: u32,
) -> Result<(), AllocError> {
    if lines.word(line, 0) != "return" {
        return Ok(());
    }
    let block = block_around(lines, line);
    match (lines.word(block, 0), lines.word(block, 1)) {
        ("if", "null") => mends.add(Mend::NullItem {
            before: line,
            name: lines.word(block, 2),
        }),
        _ => Ok(()),
    }
}
