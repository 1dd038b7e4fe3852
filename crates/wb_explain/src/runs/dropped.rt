//! What is said about a call that drops a returned pointer, although null in this pointer would have shown that an attempt failed.

use crate::runs::script_page::ScriptPage;
use wb_history::{BodyKind, WatchedRun};

/// A call that drops the result of a procedure, if the last failed attempt was made in this procedure.
#[derive(Clone, Copy)]
pub struct Dropped<'a> {
    procedure: &'a str,
    /// The line of the call.
    call: u32,
}

/// Finds the procedure in which the last failed attempt was made, by a line that gives null. If one of the procedure's lines returns a
/// pointer, returns the only call that drops this result; `None` if there is no such call, or more than one.
pub fn dropped_result<'a>(page: &ScriptPage<'a>, run: &WatchedRun<'_>) -> Option<Dropped<'a>> {
    let mut failed = None;
    for made in run.history.attempts.kept_attempts() {
        if !made.is_granted() {
            failed = Some(made.maker);
        }
    }
    let maker = failed?;
    let body = run.history.bodies.body_of(maker.line);
    let procedure = page.word(body.line, 1);
    if body.kind != BodyKind::Procedure || !maker.gives_null() || procedure == "main" {
        return None;
    }
    if !returns_pointer(page, body.line) {
        return None;
    }
    let call = only_call_of(page, procedure)?;
    Some(Dropped { procedure, call })
}

/// Whether the procedure that begins at the line `begun` has a line that returns a pointer.
fn returns_pointer(page: &ScriptPage<'_>, begun: u32) -> bool {
    for line in begun.saturating_add(1)..=page.lines.count() {
        match page.word(line, 0) {
            "proc" | "class" | "op" => return false,
            "return" if !page.word(line, 1).is_empty() => return true,
            _ => {}
        }
    }
    false
}

/// The only line that calls a procedure by `call`; `None` if there is none, or more than one.
fn only_call_of(page: &ScriptPage<'_>, procedure: &str) -> Option<u32> {
    let mut call = None;
    for line in 1..=page.lines.count() {
        if page.word(line, 0) == "call" && page.word(line, 1) == procedure {
            if call.is_some() {
                return None;
            }
            call = Some(line);
        }
    }
    call
}

/// Says what to do about a result that a call drops.
pub fn put_dropped(page: &mut ScriptPage<'_>, dropped: Dropped<'_>) {
    let Dropped { procedure, call } = dropped;
    page.write_cause(format_args!(
        "line {call} drops what `{procedure}` returns, which is null after the failed attempt: take it with `callto`, and look at it before the item is popped"
    ));
}
