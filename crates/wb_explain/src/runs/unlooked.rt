//! What is said about a call whose result is null after a failed attempt, if no line looks at the result before the item is popped that the
//! call was to take over.

use crate::runs::script_page::{ScriptPage, Written};
use wb_history::{BodyKind, Life, Maker, WatchedRun};

/// A call whose result no line looks at.
#[derive(Clone, Copy)]
pub struct Unlooked {
    /// The line whose attempt failed, in the procedure that was called.
    failed: u32,
    /// The line of the procedure that gives what it was called with to a field; 0 if there is none.
    keeps: u32,
    /// The line of the call, and the line that then popped the item.
    call: u32,
    popped: u32,
}

/// Returns the call of a procedure that was to take over a cell and in which the last failed attempt was made, by a line that gives null.
/// The result of this call is null; no line looks at it before the cell's item is popped. `None` if there is no such call.
pub fn unlooked_result(
    page: &ScriptPage<'_>,
    life: Life,
    run: &WatchedRun<'_>,
) -> Option<Unlooked> {
    let (bodies, popped) = (&run.history.bodies, life.popped.number());
    let maker = last_failed(run)?;
    let callee = bodies.body_of(maker.line);
    let held = life.held?.line.number();
    if !maker.gives_null() || callee.kind != BodyKind::Procedure || popped == 0 {
        return None;
    }
    let name = page.word(held, 1);
    let call = call_with(page, page.word(callee.line, 1), name, popped, run)?;
    if is_looked_at(page, call, popped) || !returns_null(page, maker.line, run) {
        return None;
    }
    Some(Unlooked {
        failed: maker.line,
        keeps: keeping_line(page, callee.line, call, name, run),
        call,
        popped,
    })
}

/// The maker of the last attempt that failed; `None` if none failed.
fn last_failed<'a>(run: &WatchedRun<'a>) -> Option<Maker<'a>> {
    let mut failed = None;
    for made in run.history.attempts.kept_attempts() {
        if !made.is_granted() {
            failed = Some(made.maker);
        }
    }
    failed
}

/// Whether a body, after the attempt of the line `failed` gave null, returns nothing, or the pointer that became null: the next line that
/// returns says so, and no line between the two gives this pointer another value.
fn returns_null(page: &ScriptPage<'_>, failed: u32, run: &WatchedRun<'_>) -> bool {
    let (bodies, name) = (&run.history.bodies, page.word(failed, 1));
    let body = bodies.body_of(failed);
    for at in failed.saturating_add(1)..=page.lines.count() {
        if bodies.body_of(at) != body {
            return false;
        }
        let word = page.word(at, 1);
        match page.word(at, 0) {
            "return" => return word.is_empty() || word == name,
            "alloc"
            | "allocl"
            | "new"
            | "newleave"
            | "hnew"
            | "hnewl"
            | "realloc"
            | "reallocl"
            | "hrealloc"
            | "set"
            | "callto"
                if word == name => return false,
            _ => {}
        }
    }
    false
}

/// The last `callto` of a procedure with the pointer `name`, above the line `popped` and in the same body; `None` if there is none.
fn call_with(
    page: &ScriptPage<'_>,
    procedure: &str,
    name: &str,
    popped: u32,
    run: &WatchedRun<'_>,
) -> Option<u32> {
    let bodies = &run.history.bodies;
    let body = bodies.body_of(popped);
    let mut call = None;
    for at in body.line..popped {
        if page.word(at, 0) == "callto"
            && page.word(at, 2) == procedure
            && argument_of(page, at, name) != 0
            && bodies.body_of(at) == body
        {
            call = Some(at);
        }
    }
    call
}

/// Which word of a `callto` is the argument `name`; 0 if none is.
fn argument_of(page: &ScriptPage<'_>, call: u32, name: &str) -> usize {
    for word in 3..=6 {
        if page.word(call, word) == name {
            return word;
        }
    }
    0
}

/// Whether a line between a call and the line `popped` looks at the result of the call.
fn is_looked_at(page: &ScriptPage<'_>, call: u32, popped: u32) -> bool {
    let result = page.word(call, 1);
    for at in call.saturating_add(1)..popped {
        let word = match page.word(at, 0) {
            "leaveifnull" => 1,
            "if" => 2,
            _ => 0,
        };
        if word != 0 && page.word(at, word) == result {
            return true;
        }
    }
    false
}

/// The line of the procedure that begins at the line `begun` that sets a field to what the call passes as `name`; 0 if there is none.
fn keeping_line(
    page: &ScriptPage<'_>,
    begun: u32,
    call: u32,
    name: &str,
    run: &WatchedRun<'_>,
) -> u32 {
    let bodies = &run.history.bodies;
    let word = argument_of(page, call, name).saturating_sub(1);
    let parameter = page.word(begun, word).split(':').next().unwrap_or("");
    for at in begun..=page.lines.count() {
        if bodies.body_of(at) != bodies.body_of(begun) {
            return 0;
        }
        if page.word(at, 0) == "set"
            && page.word(at, 2) == parameter
            && page.word(at, 1).contains('.')
        {
            return at;
        }
    }
    0
}

/// Shows the call whose result no line looks at, if there is one.
pub fn put_unlooked_call(page: &mut ScriptPage<'_>, unlooked: Option<Unlooked>) -> Written {
    match unlooked {
        Some(Unlooked { failed, call, .. }) => {
            let name = page.word(call, 1);
            page.mark_new(
                call,
                1,
                format_args!(
                    "`{name}` became null here, since the attempt of line {failed} failed"
                ),
            )
        }
        None => Ok(()),
    }
}

/// Says what to do about the call.
pub fn put_unlooked(page: &mut ScriptPage<'_>, unlooked: Unlooked) {
    let Unlooked {
        failed,
        keeps,
        call,
        popped,
    } = unlooked;
    let (name, procedure) = (page.word(call, 1), page.word(call, 2));
    page.begin_cause();
    page.page.write(format_args!(
        "line {failed} gave null, so `{procedure}` returned null to line {call}"
    ));
    if keeps != 0 {
        let field = page.word(keeps, 1);
        page.page
            .write(format_args!(", before `{field}` got the cell"));
    }
    let pop = page.word(popped, 0);
    page.page.write(format_args!(
        ", and no line looked at `{name}`: look at it before the `{pop}` of line {popped}, for example with `leaveifnull {name}`"
    ));
    page.page.end_line();
}
