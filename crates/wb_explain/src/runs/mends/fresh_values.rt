//! Changes by which a pointer gets its value only after the cell that it named before has moved or was freed.

use crate::runs::mends::blocks::{last_line_of, statement_after, statement_before};
use crate::runs::mends::candidates::Mends;
use crate::runs::mends::dependent::may_come_after;
use crate::runs::mends::edits::Mend;
use std::alloc::AllocError;
use wb_history::{End, PointerFault, PointerState, ScriptLines, WatchedRun};

/// How many statements of a block are looked at.
const MOST_BETWEEN: u32 = 8;

/// Proposes, for the pointer of a panic whose cell is gone: if the cell moved, that the line which set the pointer last comes once more before
/// the line that panicked; if the cell was freed, that a line which gave a pointer its value comes later in a body on the call path.
pub fn add_fresh_value<'a>(
    mends: &mut Mends<'a>,
    lines: &ScriptLines<'a>,
    run: &WatchedRun<'_>,
) -> Result<(), AllocError> {
    let Some(
        PointerFault {
            state: PointerState::Gone(Some(life)),
            write,
            ..
        },
    ) = run.end.pointer
    else {
        return Ok(());
    };
    let Some(ended) = life.ended else {
        return Ok(());
    };
    if ended.end == End::Moved {
        return match write {
            Some(write) => add_again(mends, lines, write.line, run),
            None => Ok(()),
        };
    }
    for before in run.end.path.as_slice() {
        add_later_values(mends, lines, *before, ended.at.number())?;
    }
    Ok(())
}

fn add_again<'a>(
    mends: &mut Mends<'a>,
    lines: &ScriptLines<'a>,
    line: u32,
    run: &WatchedRun<'_>,
) -> Result<(), AllocError> {
    let (bodies, before) = (&run.history.bodies, run.history.last_line());
    if lines.word(line, 0) == "set" && bodies.body_of(line) == bodies.body_of(before) {
        mends.add(Mend::Again { line, before })
    } else {
        Ok(())
    }
}

/// Proposes, for each line before this one in its block that gives a pointer its value, that it comes after one of the statements in between.
fn add_later_values<'a>(
    mends: &mut Mends<'a>,
    lines: &ScriptLines<'a>,
    before: u32,
    freed: u32,
) -> Result<(), AllocError> {
    let mut line = before;
    for _ in 0..MOST_BETWEEN {
        line = statement_before(lines, line);
        if line == 0 {
            break;
        }
        if let "set" | "callto" = lines.word(line, 0) {
            add_places(mends, lines, line, before, freed)?;
        }
    }
    Ok(())
}

/// Proposes that a line comes after one of the statements between it and line `before`.
fn add_places<'a>(
    mends: &mut Mends<'a>,
    lines: &ScriptLines<'a>,
    line: u32,
    before: u32,
    freed: u32,
) -> Result<(), AllocError> {
    let mut after = line;
    for _ in 0..MOST_BETWEEN {
        let at = statement_after(lines, after);
        if at == 0 || at >= before {
            break;
        }
        after = last_line_of(lines, at);
        if !may_come_after(lines, line, at, after) {
            break;
        }
        mends.add(Mend::AfterFreed { line, freed, after })?;
    }
    Ok(())
}
