//! What is said about a text that would be longer than its maximum, and about a word past a cell's end: where the room was set, which other cell
//! was measured, and what to do.

use crate::runs::script_page::{ScriptPage, Written};
use wb_history::{Maker, Values, WatchedRun};
use wb_tree::script::Statement;

/// Says where a text got its room, or a cell its length, if a panic is about the room or the length. Writes nothing about a buffer's text.
pub fn put_room(page: &mut ScriptPage<'_>, run: &WatchedRun<'_>) -> Written {
    let (Some(meant), Some(life)) = (run.end.values, run.history.lives.find(run.end.names)) else {
        return Ok(());
    };
    let at = if life.grown.is_some() {
        life.grown
    } else {
        life.made
    };
    match meant.values {
        Values::WouldHave { maximum, .. } => page.mark_new(
            at.number(),
            1,
            format_args!("the text got its room here: {maximum} units, as many as its cell holds"),
        ),
        Values::NoWord { bytes, .. } => page.mark_new(
            at.number(),
            1,
            format_args!("the cell got its {bytes} bytes here"),
        ),
        _ => Ok(()),
    }
}

/// The maker of the last failed attempt; `None` if no attempt failed.
fn last_failed<'a>(run: &WatchedRun<'a>) -> Option<Maker<'a>> {
    let mut failed = None;
    for made in run.history.attempts.kept_attempts() {
        if !made.is_granted() {
            failed = Some(made.maker);
        }
    }
    failed
}

/// Returns what to do about a word past the end of a cell. `None` unless the last failed attempt was to reallocate a cell, or to make a
/// cell that this cell then replaced.
pub fn cure_of_words(page: &ScriptPage<'_>, run: &WatchedRun<'_>) -> Option<&'static str> {
    let Values::NoWord { .. } = run.end.values?.values else {
        return None;
    };
    let failed = last_failed(run)?;
    match failed.statement? {
        Statement::Realloc(..) if is_grown_by_other(run, failed.line) => Some(
            "the line that was to make the cell longer failed, and another one made it longer by less: set the count of its words to what it then has",
        ),
        Statement::Realloc(..) => Some(
            "the line that was to make a cell longer failed, and the cell kept its length: change a count of its words only after that line, and only where it was granted",
        ),
        Statement::Alloc(..) if is_in_place_of(page, failed.line, run) => Some(
            "this cell was made in place of another one whose attempt failed, and is shorter: where it is made, set the count of its words, too",
        ),
        _ => None,
    }
}

/// Whether another line than `failed` was the last that made the cell of a panic longer.
fn is_grown_by_other(run: &WatchedRun<'_>, failed: u32) -> bool {
    let Some(life) = run.history.lives.find(run.end.names) else {
        return false;
    };
    let grown = if life.grown.is_none() && life.is_reallocated() {
        life.made
    } else {
        life.grown
    };
    grown.is_some() && grown.number() != failed
}

/// Whether the cell that a panic is about was made by another line than `failed`, in the same body and for a pointer of the same name.
fn is_in_place_of(page: &ScriptPage<'_>, failed: u32, run: &WatchedRun<'_>) -> bool {
    let bodies = &run.history.bodies;
    match run.history.lives.find(run.end.names) {
        Some(life) => {
            let made = life.made.number();
            made != failed
                && page.word(made, 1) == page.word(failed, 1)
                && bodies.body_of(made) == bodies.body_of(failed)
        }
        None => false,
    }
}

/// Returns how to give a text more room. If the last failed attempt was to reallocate a text, returns what to do about that failure.
pub fn cure_of_room(run: &WatchedRun<'_>) -> &'static str {
    match last_failed(run).and_then(|it| it.statement) {
        _ if run.end.names.number == 0 => {
            "the maximum of a buffer is in its declaration, and `getmax` gives it"
        }
        Some(Statement::ReallocText(..)) => {
            "the `hrealloc` that was to give it more room failed, and the text stayed as it was: look at what `hrealloc` gave, for example with `leaveifnull`"
        }
        _ =>
            "ask for more room where the text is made, or with `hrealloc` before this line; `getmax` gives its maximum",
    }
}

/// Says which line above a panic measured a cell last, in the same body, if this isn't the cell that the panic is about.
pub fn put_measured(page: &mut ScriptPage<'_>, line: u32, run: &WatchedRun<'_>) -> Written {
    match run.end.values {
        Some(meant) if matches!(meant.values, Values::NoWord { .. }) => {}
        _ => return Ok(()),
    }
    let used = match page.word(line, 0) {
        "store" => page.word(line, 1),
        _ => page.word(line, 2),
    };
    let bodies = &run.history.bodies;
    for back in 1..line {
        let at = line.saturating_sub(back);
        if bodies.body_of(at) != bodies.body_of(line) {
            break;
        }
        if page.word(at, 0) == "alloclen" {
            let measured = page.word(at, 2);
            return if measured == used {
                Ok(())
            } else {
                page.mark_new(
                    at,
                    2,
                    format_args!("this measured `{measured}`, and line {line} uses `{used}`"),
                )
            };
        }
    }
    Ok(())
}
