//! Which line of a body led to another line: that line itself, or a call of its procedure.

use crate::runs::script_page::ScriptPage;
use wb_history::{BodyKind, BodyOfScript, WatchedRun};

/// Returns the last line above the line `until`, in the same body, that is the line `line` or calls the procedure of the line `line`; 0 if
/// there is none.
pub fn led_to(page: &ScriptPage<'_>, line: u32, until: u32, run: &WatchedRun<'_>) -> u32 {
    let bodies = &run.history.bodies;
    let (body, callee) = (bodies.body_of(until), bodies.body_of(line));
    let mut led = 0;
    for at in body.line..until {
        if (at == line || is_call_of(page, at, callee)) && bodies.body_of(at) == body {
            led = at;
        }
    }
    led
}

/// Returns the line by which the last leave came about in the body of the line `line`; 0 if there is none.
pub fn left_in_body_of(line: u32, run: &WatchedRun<'_>) -> u32 {
    let bodies = &run.history.bodies;
    if let Some(leave) = run.history.traps.last_leave()
        && let Ok(lines) = run.history.calls.lines_of(leave.at.path)
    {
        for at in lines.as_slice() {
            if bodies.body_of(*at) == bodies.body_of(line) {
                return *at;
            }
        }
    }
    0
}

/// Whether the line `at` calls this procedure.
fn is_call_of(page: &ScriptPage<'_>, at: u32, callee: BodyOfScript) -> bool {
    let name = match page.word(at, 0) {
        "call" => page.word(at, 1),
        "callto" => page.word(at, 2),
        _ => return false,
    };
    callee.kind == BodyKind::Procedure && name == page.word(callee.line, 1)
}
