//! A local that kept its old cell, since the line that was to give it another one left, to a TRAP of the local's body.

use crate::runs::caught::{overlooked_leave, put_look};
use crate::runs::led::led_to;
use crate::runs::script_page::{ScriptPage, Written};
use crate::runs::shared::field_of;
use wb_history::{Leave, PointerState, WatchedRun};

/// A local that kept its cell.
#[derive(Clone, Copy)]
pub struct OldValue {
    leave: Leave,
    /// The line that left before it gave the local another cell.
    left: u32,
}

/// Returns the local that kept the cell which a panic is about, if the line that had made this cell for it left another time, and no line looked
/// at the code of this leave; `None` if there is no such local.
pub fn old_value(page: &ScriptPage<'_>, run: &WatchedRun<'_>) -> Option<OldValue> {
    let PointerState::Gone(Some(life)) = run.end.pointer?.state else {
        return None;
    };
    let leave = overlooked_leave(page, run)?;
    let write = run.end.pointer?.write;
    let (bodies, trap, made) = (&run.history.bodies, leave.caught?, life.made.number());
    let Ok(lines) = run.history.calls.lines_of(leave.at.path) else {
        return None;
    };
    for left in lines.as_slice() {
        let is_here = bodies.body_of(*left) == bodies.body_of(trap.line);
        let is_maker = led_to(page, made, left.saturating_add(1), run) == *left;
        let gives = page.word(*left, 0) != "call" && field_of(page.word(*left, 1)).is_none();
        let is_last = write.is_none_or(|it| it.line == *left);
        if is_here && is_maker && gives && is_last {
            return Some(OldValue { leave, left: *left });
        }
    }
    None
}

/// Shows the line that left.
pub fn put_old_value(page: &mut ScriptPage<'_>, old: Option<OldValue>) -> Written {
    let Some(OldValue { left, .. }) = old else {
        return Ok(());
    };
    let name = page.word(left, 1);
    page.tell_unordered();
    page.mark_new(
        left,
        1,
        format_args!("this left, and `{name}` kept its old cell"),
    )
}

/// Says what to do about a local that kept its cell.
pub fn put_cure_of_old(page: &mut ScriptPage<'_>, old: OldValue) {
    let OldValue { leave, left } = old;
    put_look(page, leave, "");
    let (name, trap) = (page.word(left, 1), leave.caught.map_or(0, |it| it.line));
    page.page.write_help(format_args!(
        "or set `{name}` to null before the TRAP of line {trap}, and look at `{name}` after it: if line {left} leaves, `{name}` keeps what it was"
    ));
}
