//! Changes by which a cell that a field lent to a local is taken out of the field while the local is used, so that nothing else frees it.

use crate::runs::led::led_to;
use crate::runs::mends::blocks::{last_line_of, statement_after};
use crate::runs::mends::candidates::Mends;
use crate::runs::mends::edits::Mend;
use crate::runs::mends::held::push_of;
use crate::runs::mends::line_changes::LineChange;
use crate::runs::script_page::ScriptPage;
use crate::runs::shared::{field_of, object_of};
use std::alloc::{AllocError, Global};
use wb_history::{By, Life, PointerFault, PointerState, ScriptLines, WatchedRun};

/// How many statements of a block are looked at, after the one that lent the cell.
const MOST_AFTER: u32 = 24;

/// Proposes, if a line used by a local what another line had freed by a field, and the local had it from that field, that the field is null
/// while the local is used, and that the local's cell has an item.
pub fn add_taken_out<'a>(
    alloc: Global,
    mends: &mut Mends<'a>,
    lines: &ScriptLines<'a>,
    run: &WatchedRun<'_>,
) -> Result<(), AllocError> {
    let Some((life, lent)) = lent_life(run) else {
        return Ok(());
    };
    let freed = match life.ended {
        Some(ended) if ended.by == By::Line => ended.at.number(),
        _ => return Ok(()),
    };
    if is_lent(lines, lent, freed, run) {
        let call = call_before(alloc, lines, freed, run);
        add_uses(mends, lines, lent, push_of(life.kind), call, freed)
    } else {
        Ok(())
    }
}

/// The line of the body that panicked by which the run came to the line `freed`.
fn call_before(alloc: Global, lines: &ScriptLines<'_>, freed: u32, run: &WatchedRun<'_>) -> u32 {
    let used = run.history.last_line();
    led_to(&ScriptPage::new(alloc, lines), freed, used, run)
}

/// Whether a line of the body that panicked copied the pointer of a field to a local, and a line freed by a field of this name.
fn is_lent(lines: &ScriptLines<'_>, lent: u32, freed: u32, run: &WatchedRun<'_>) -> bool {
    let (bodies, field) = (&run.history.bodies, field_of(lines.word(lent, 2)));
    lines.word(lent, 0) == "set"
        && field.is_some()
        && field == field_of(lines.word(freed, 1))
        && !lines.word(lent, 1).contains('.')
        && bodies.body_of(lent) == bodies.body_of(run.history.last_line())
}

/// Proposes this up to the last statement that names the local, and up to the last one of the block.
fn add_uses<'a>(
    mends: &mut Mends<'a>,
    lines: &ScriptLines<'a>,
    lent: u32,
    push: &'static str,
    call: u32,
    freed: u32,
) -> Result<(), AllocError> {
    let (near, far) = ends_of_use(lines, lent);
    add_until(mends, lent, near, push, call, freed)?;
    if near == far {
        return Ok(());
    }
    add_until(mends, lent, far, push, call, freed)
}

/// The life of the cell that a panic is about, if it is over, and the line that gave the pointer of the panic its value.
fn lent_life(run: &WatchedRun<'_>) -> Option<(Life, u32)> {
    match run.end.pointer {
        Some(
            PointerFault {
                state: PointerState::Gone(Some(life)),
                write: Some(write),
                ..
            },
        ) => Some((life, write.line)),
        _ => None,
    }
}

/// The last line of the last statement below a line that names the local of this line, and of the last statement of the block that isn't a
/// `return`.
fn ends_of_use(lines: &ScriptLines<'_>, lent: u32) -> (u32, u32) {
    let (name, mut near, mut far) = (lines.word(lent, 1), lent, lent);
    for _ in 0..MOST_AFTER {
        let at = statement_after(lines, far);
        if at == 0 || lines.word(at, 0) == "return" {
            break;
        }
        far = last_line_of(lines, at);
        if names(lines, at, far, name) {
            near = far;
        }
    }
    (near, far)
}

/// Whether a line of a range names a local, or a field of its object.
fn names(lines: &ScriptLines<'_>, from: u32, to: u32, name: &str) -> bool {
    for line in from..=to {
        if lines
            .line(line)
            .split_whitespace()
            .any(|word| object_of(word) == name)
        {
            return true;
        }
    }
    false
}

/// Proposes this up to line `last`.
fn add_until(
    mends: &mut Mends<'_>,
    lent: u32,
    last: u32,
    push: &'static str,
    call: u32,
    freed: u32,
) -> Result<(), AllocError> {
    if last == lent || call == 0 {
        return Ok(());
    }
    mends.add(Mend::Lines(LineChange::TakenOut {
        lent,
        last,
        push,
        call,
        freed,
    }))
}
