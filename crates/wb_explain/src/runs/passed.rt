//! Which line that pushes an item was passed over, if a body took off more items than it had pushed.

use crate::runs::heads::head_around;
use crate::runs::script_page::ScriptPage;
use wb_history::{Taken, WatchedRun};

/// A line that pushes an item and was passed over.
#[derive(Clone, Copy)]
pub struct Passed {
    pub push: u32,
    /// The line whose failed attempt made an `if` pass over the push, and the line of this `if`. Both are 0 if the body had pushed no
    /// item.
    pub failed: u32,
    pub head: u32,
}

/// Returns the line above the line that took off an item of a calling body, in the same body, that pushes an item and was passed over;
/// `None` if no such line is known.
pub fn passed_push(page: &ScriptPage<'_>, taken: Taken, run: &WatchedRun<'_>) -> Option<Passed> {
    let Taken { line, body, .. } = taken;
    if body.most == body.began && body.ended.saturating_add(1) == body.began {
        let push = last_push(page, line, run)?;
        return Some(Passed {
            push,
            failed: 0,
            head: 0,
        });
    }
    push_of_failure(page, line, run)
}

/// Whether the line `at` pushes an item, in the same body as the line `line`.
fn pushes_in_body(page: &ScriptPage<'_>, at: u32, line: u32, run: &WatchedRun<'_>) -> bool {
    let bodies = &run.history.bodies;
    matches!(page.word(at, 0), "push" | "pushobj" | "pushop")
        && bodies.body_of(at) == bodies.body_of(line)
}

/// The last line above the line `line`, in the same body, that pushes an item; `None` if there is none.
fn last_push(page: &ScriptPage<'_>, line: u32, run: &WatchedRun<'_>) -> Option<u32> {
    let own = run.history.bodies.body_of(line);
    let mut push = None;
    for at in own.line..line {
        if pushes_in_body(page, at, line, run) {
            push = Some(at);
        }
    }
    push
}

/// The last line above the line `line`, in the same body, that pushes an item inside an `if some` of a pointer to which a failed attempt of
/// this body gave null; `None` if there is none.
fn push_of_failure(page: &ScriptPage<'_>, line: u32, run: &WatchedRun<'_>) -> Option<Passed> {
    let own = run.history.bodies.body_of(line);
    let mut passed = None;
    for at in own.line..line {
        if pushes_in_body(page, at, line, run)
            && let Some(head) = head_around(page, at)
            && !head.is_else
            && page.word(head.line, 1) == "some"
        {
            let failed = failed_before(page, head.line, run);
            if failed != 0 {
                passed = Some(Passed {
                    push: at,
                    failed,
                    head: head.line,
                });
            }
        }
    }
    passed
}

/// The line above an `if some`, in the same body, whose last attempt failed and gave null to the pointer that the `if` looks at; 0 if there
/// is none.
fn failed_before(page: &ScriptPage<'_>, head: u32, run: &WatchedRun<'_>) -> u32 {
    let (bodies, name) = (&run.history.bodies, page.word(head, 2));
    let mut failed = 0;
    for made in run.history.attempts.kept_attempts() {
        let at = made.maker.line;
        if at < head
            && bodies.body_of(at) == bodies.body_of(head)
            && page.word(at, 1) == name
            && made.maker.gives_null()
        {
            failed = if made.is_granted() { 0 } else { at };
        }
    }
    failed
}
