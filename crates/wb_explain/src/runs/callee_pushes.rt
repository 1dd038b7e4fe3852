//! A called body that pushes an item only where it got a cell, though its caller takes off an item anyway.

use crate::runs::heads::{end_of, head_around};
use crate::runs::paths::body_name;
use crate::runs::script_page::{ScriptPage, Written};
use wb_history::{Taken, WatchedRun};

/// A push of a called body that was passed over.
#[derive(Clone, Copy)]
pub struct CalleePush {
    /// The line that took off an item, and the call above it.
    off: u32,
    call: u32,
    /// The push, the line whose failed attempt gave its pointer null, and the `if` that passed over the push.
    push: u32,
    failed: u32,
    head: u32,
}

/// Returns the only push of the body that was called last before a line took off an item, if this push was passed over, since an attempt
/// failed; `None` if there is no such push, or if the body pops anything.
pub fn callee_push(
    page: &ScriptPage<'_>,
    taken: Taken,
    run: &WatchedRun<'_>,
) -> Option<CalleePush> {
    let off = taken.line;
    let call = call_above(page, off, run);
    let push = only_push_of(page, procedure_of(page, callee_of(page, call)), run);
    let failed = failed_above(page, push, run);
    let head = passed_over_by(page, failed, push);
    if call == 0 || head == 0 {
        return None;
    }
    Some(CalleePush {
        off,
        call,
        push,
        failed,
        head,
    })
}

/// The call above a line, in the same body, with no line between them that pushes or pops; 0 if there is none.
fn call_above(page: &ScriptPage<'_>, line: u32, run: &WatchedRun<'_>) -> u32 {
    let bodies = &run.history.bodies;
    for back in 1..line {
        let at = line.saturating_sub(back);
        let word = page.word(at, 0);
        if bodies.body_of(at) != bodies.body_of(line)
            || word.starts_with("push")
            || word.starts_with("pop")
        {
            return 0;
        }
        if let "call" | "callto" = word {
            return at;
        }
    }
    0
}

/// The name of the procedure that a line calls.
fn callee_of<'a>(page: &ScriptPage<'a>, call: u32) -> &'a str {
    match page.word(call, 0) {
        "callto" => page.word(call, 2),
        _ => page.word(call, 1),
    }
}

/// The line that begins the procedure of this name; 0 if there is none.
fn procedure_of(page: &ScriptPage<'_>, name: &str) -> u32 {
    for at in 1..=page.lines.count() {
        if page.word(at, 0) == "proc" && page.word(at, 1) == name {
            return at;
        }
    }
    0
}

/// The line of a body that pushes; 0 if none or several do, or if a line pops.
fn only_push_of(page: &ScriptPage<'_>, first: u32, run: &WatchedRun<'_>) -> u32 {
    let (bodies, mut push) = (&run.history.bodies, 0);
    if first == 0 {
        return 0;
    }
    for at in first..=page.lines.count() {
        if bodies.body_of(at) != bodies.body_of(first) {
            break;
        }
        let word = page.word(at, 0);
        if word.starts_with("pop") || word.starts_with("push") && push != 0 {
            return 0;
        }
        if word.starts_with("push") {
            push = at;
        }
    }
    push
}

/// The line above a push, in the same body, whose last attempt failed and gave the pushed pointer null; 0 if there is none.
fn failed_above(page: &ScriptPage<'_>, push: u32, run: &WatchedRun<'_>) -> u32 {
    let (bodies, mut failed) = (&run.history.bodies, 0);
    for made in run.history.attempts.kept_attempts() {
        let at = made.maker.line;
        if at < push
            && bodies.body_of(at) == bodies.body_of(push)
            && page.word(at, 1) == page.word(push, 1)
            && made.maker.gives_null()
        {
            failed = if made.is_granted() { 0 } else { at };
        }
    }
    failed
}

/// The `if` by which a push is passed over where its pointer is null: it holds the push, or it ends with a `return`; 0 if there is none.
fn passed_over_by(page: &ScriptPage<'_>, failed: u32, push: u32) -> u32 {
    if failed == 0 {
        return 0;
    }
    let name = page.word(push, 1);
    match head_around(page, push) {
        Some(head) if !head.is_else && tests(page, head.line, "some", name) => head.line,
        Some(_) => 0,
        None => returns_between(page, failed, push, name),
    }
}

/// The `if null` of this pointer between two lines that ends with a `return`; 0 if there is none.
fn returns_between(page: &ScriptPage<'_>, from: u32, to: u32, name: &str) -> u32 {
    for at in from..to {
        if tests(page, at, "null", name)
            && page.word(end_of(page, at).saturating_sub(1), 0) == "return"
        {
            return at;
        }
    }
    0
}

/// Whether a line is an `if` of this pointer, with this second word.
fn tests(page: &ScriptPage<'_>, line: u32, what: &str, name: &str) -> bool {
    page.word(line, 0) == "if" && page.word(line, 1) == what && page.word(line, 2) == name
}

/// Shows a push of a called body that was passed over.
pub fn put_callee_push(
    page: &mut ScriptPage<'_>,
    passed: Option<CalleePush>,
    run: &WatchedRun<'_>,
) -> Written {
    match passed {
        Some(
            CalleePush {
                call,
                push,
                failed,
                ..
            },
        ) => {
            let name = body_name(page, push, run);
            page.mark_new(
                push,
                0,
                format_args!(
                    "`{name}`, which line {call} called, passed this over, since the attempt of line {failed} failed"
                ),
            )
        }
        None => Ok(()),
    }
}

/// Says what to do about a push of a called body that was passed over.
pub fn put_cure_of_callee(page: &mut ScriptPage<'_>, passed: CalleePush) {
    let CalleePush {
        off,
        call,
        push,
        head,
        ..
    } = passed;
    page.begin_cause();
    page.page.write(format_args!(
        "line {off} is to take off the item that line {push} pushes, which didn't come now, since line {head} passed it over: let line {push} push also a null pointer"
    ));
    if page.word(call, 0) == "callto" {
        let name = page.word(call, 1);
        page.page.write(format_args!(", or let line {off} come only where `{name}` isn't null"));
    }
    page.page.end_line();
}
