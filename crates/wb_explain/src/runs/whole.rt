//! What to do about a null pointer in a destructor: whether the destructor's object was whole, or only a part of it was made.

use crate::runs::cures::Cure;
use crate::runs::panics::CHECK_IN_DESTRUCTOR;
use crate::runs::script_page::ScriptPage;
use wb_history::{BodyKind, WatchedRun};

/// Returns what to do about a null pointer that a destructor uses.
pub fn cure_in_destructor(page: &ScriptPage<'_>, run: &WatchedRun<'_>) -> Cure {
    match run.history.traps.last_leave() {
        Some(leave) if leave.at.line == run.history.last_line_outside() && is_whole(page, run) => {
            Cure::WholeObject {
                left: leave.at.line,
            }
        }
        _ => Cure::Words(CHECK_IN_DESTRUCTOR),
    }
}

/// Whether the cleanup stack destroyed an object whose second phase had returned, and no destructor but this object's own runs.
fn is_whole(page: &ScriptPage<'_>, run: &WatchedRun<'_>) -> bool {
    let (bodies, mut destructors) = (&run.history.bodies, 0u32);
    for at in run.end.path.as_slice() {
        if bodies.body_of(*at).kind == BodyKind::Destructor {
            destructors = destructors.saturating_add(1);
        }
    }
    let Some(item) = run.history.last_item else {
        return false;
    };
    let pushed = item.pushed.line;
    let until = line_in_body_of(pushed, run);
    destructors == 1 && has_second_phase(page, pushed, until, run)
}

/// Returns the line of the call path that is in the same body as the line `pushed`; if there is none, that body has ended, and the result is
/// greater than every line.
pub fn line_in_body_of(pushed: u32, run: &WatchedRun<'_>) -> u32 {
    let bodies = &run.history.bodies;
    for at in run.end.path.as_slice() {
        if bodies.body_of(*at) == bodies.body_of(pushed) {
            return *at;
        }
    }
    u32::MAX
}

/// Whether a line between the lines `pushed` and `until`, in the body of the line `pushed`, runs the second phase of the object that the
/// line `pushed` pushed.
fn has_second_phase(page: &ScriptPage<'_>, pushed: u32, until: u32, run: &WatchedRun<'_>) -> bool {
    let bodies = &run.history.bodies;
    let (body, name) = (bodies.body_of(pushed), page.word(pushed, 1));
    for at in pushed..until.min(page.lines.count()) {
        if page.word(at, 0) == "construct"
            && page.word(at, 1) == name
            && bodies.body_of(at) == body
        {
            return true;
        }
    }
    false
}
