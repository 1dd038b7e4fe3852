//! A cell that moved when it grew: which pointer has its new place, and which pointer was to get it by a line that a leave passed over.

use crate::runs::cures::Cure;
use crate::runs::kept::name_of;
use crate::runs::led::led_to;
use crate::runs::script_page::ScriptPage;
use crate::runs::shared::field_of;
use wb_history::{End, Ended, PointerFault, WatchedRun};

/// A new place that a field was to get.
#[derive(Clone, Copy)]
pub struct NewPlace {
    /// The line that gave a local the new place, the line that then left, and the line below it that was to set the field.
    got: u32,
    left: u32,
    set: u32,
}

/// Returns what to do about a pointer whose cell moved.
pub fn cure_of_moved(
    page: &ScriptPage<'_>,
    run: &WatchedRun<'_>,
    line: u32,
    fault: PointerFault,
    ended: Ended,
) -> Cure {
    let moved = ended.at.number();
    if let Some(place) = new_place(page, line, fault, ended, run) {
        return Cure::NewPlace(place);
    }
    let is_here = led_to(page, moved, line, run) == moved;
    if is_here && name_of(page, line, fault) != page.word(moved, 1) {
        return Cure::OldPlace {
            moved,
            used: line,
            fault,
        };
    }
    Cure::Words("a cell that grew may have moved, and then only the result of that line names it")
}

/// The new place that the field at fault was to get when a line left; `None` if there is none.
fn new_place(
    page: &ScriptPage<'_>,
    line: u32,
    fault: PointerFault,
    ended: Ended,
    run: &WatchedRun<'_>,
) -> Option<NewPlace> {
    let field = field_of(name_of(page, line, fault))?;
    if ended.end != End::Moved {
        return None;
    }
    let leave = run.history.traps.last_leave()?;
    let Ok(lines) = run.history.calls.lines_of(leave.at.path) else {
        return None;
    };
    for left in lines.as_slice() {
        let got = led_to(page, ended.at.number(), *left, run);
        let set = set_below(page, *left, page.word(got, 1), field, run);
        if got != 0 && set != 0 {
            return Some(NewPlace {
                got,
                left: *left,
                set,
            });
        }
    }
    None
}

/// The line below the line `left`, in the same body, that sets this field to the local `name`; 0 if there is none.
fn set_below(
    page: &ScriptPage<'_>,
    left: u32,
    name: &str,
    field: &str,
    run: &WatchedRun<'_>,
) -> u32 {
    let bodies = &run.history.bodies;
    let body = bodies.body_of(left);
    for at in left..=page.lines.count() {
        let sets = page.word(at, 0) == "set" && page.word(at, 2) == name;
        if sets && field_of(page.word(at, 1)) == Some(field) && bodies.body_of(at) == body {
            return at;
        }
    }
    0
}

/// Says what to do about a new place that a field was to get.
pub fn put_cure_of_place(page: &mut ScriptPage<'_>, place: NewPlace) {
    let NewPlace { got, left, set } = place;
    let (local, name) = (page.word(got, 1), page.word(set, 1));
    page.write_cause(format_args!(
        "line {got} gave `{local}` the new place, and line {left} left before line {set} set `{name}` to it: let line {set} come right after line {got}"
    ));
}
