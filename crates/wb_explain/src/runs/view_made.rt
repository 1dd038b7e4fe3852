//! What is said about a view whose text is gone: where the view was made, and which call led to the line that ended or moved its text.

use crate::runs::kept::name_of;
use crate::runs::script_page::{ScriptPage, Written};
use wb_history::{PointerState, WatchedRun};

/// Says where the view was made that a panic is about, if only one line of its body makes it; and which line below that called the body in
/// which the life of the text's cell ended. Says nothing if a panic is about no view.
pub fn put_view(page: &mut ScriptPage<'_>, line: u32, run: &WatchedRun<'_>) -> Written {
    let Some(fault) = run.end.pointer else {
        return Ok(());
    };
    let PointerState::Gone(Some(life)) = fault.state else {
        return Ok(());
    };
    let name = name_of(page, line, fault);
    let made = made_at(page, line, name, run);
    if fault.pointer.is_some() || made == 0 {
        return Ok(());
    }
    if let Some(ended) = life.ended {
        let called = called_from(page, made, line, ended.at.number(), run);
        let body = page.word(run.history.bodies.body_of(ended.at.number()).line, 1);
        page.mark_new(called, 0, format_args!("`{body}` was called here"))?;
    }
    page.mark_new(made, 1, format_args!("`{name}` was made here"))
}

/// The only line above the line `line`, in the same body, that makes the view `name`; 0 if there is none, or more than one.
fn made_at(page: &ScriptPage<'_>, line: u32, name: &str, run: &WatchedRun<'_>) -> u32 {
    let (bodies, mut made) = (&run.history.bodies, 0);
    let body = bodies.body_of(line);
    for at in body.line..line {
        if matches!(page.word(at, 0), "left" | "right" | "mid")
            && page.word(at, 1) == name
            && bodies.body_of(at) == body
        {
            if made != 0 {
                return 0;
            }
            made = at;
        }
    }
    made
}

/// The only line between the lines `made` and `line` that calls the body of the line `ended`; 0 if there is none, or more than one.
fn called_from(
    page: &ScriptPage<'_>,
    made: u32,
    line: u32,
    ended: u32,
    run: &WatchedRun<'_>,
) -> u32 {
    let body = page.word(run.history.bodies.body_of(ended).line, 1);
    let mut called = 0;
    for at in made..line {
        let is_call = page.word(at, 0) == "call" && page.word(at, 1) == body;
        if is_call || page.word(at, 0) == "callto" && page.word(at, 2) == body {
            if called != 0 {
                return 0;
            }
            called = at;
        }
    }
    called
}
