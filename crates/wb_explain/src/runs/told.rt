//! What is said about the life of a cell: where it was made, put on the cleanup stack, and freed, deleted or moved, and by what.

use crate::runs::for_leave::{put_other_item, put_ran_for};
use crate::runs::heads::head_around;
use crate::runs::item_gone::has_two_items;
use crate::runs::pointers::owner_left;
use crate::runs::script_page::{ScriptPage, Written};
use crate::runs::stored::loads_for;
use crate::runs::taken::{destroyed_after_callee, put_callee, put_of_caller, taken_with};
use wb_history::{BodyKind, By, End, Ended, History, Life, WatchedRun, WordUse};

/// What is said about a line that moved a cell, though the cell had room to grow at its place.
const MOVED_BY_FLAG: &str = "it moved here because of `--moving`: the bytes after it were free";

/// Says how the life of a cell ended, where the cell was pushed, and where the cell was made.
pub fn put_life(page: &mut ScriptPage<'_>, run: &WatchedRun<'_>, life: Life) -> Written {
    let history = &run.history;
    if let Some(ended) = life.ended {
        put_of_caller(page, taken_with(ended, run), run)?;
        put_callee(page, destroyed_after_callee(page, ended, run), run)?;
        put_end(page, history, ended)?;
        put_count(page, run, ended, life)?;
        put_ran_for(page, run, life)?;
        put_pushed(page, run, life)?;
        put_other_item(page, run, life)?;
        put_other_holder(page, history, ended, life)?;
        put_owner_left(page, run, ended, life)?;
    }
    page.mark_new(life.made.number(), 1, "it was made here")
}

/// Says where a cell was pushed, unless the item that was pushed last was popped: if another item of the cell was destroyed then, it isn't
/// known where that was pushed.
fn put_pushed(page: &mut ScriptPage<'_>, run: &WatchedRun<'_>, life: Life) -> Written {
    if has_two_items(run, life.ended) {
        return page.mark_new(
            life.pushed.number(),
            1,
            "its newer item, destroyed first, was pushed here",
        );
    }
    if life.popped.is_some() {
        return Ok(());
    }
    page.mark_new(life.pushed.number(), 1, "it was pushed here")
}

/// Says which number of a cell a line loaded for the block in which a line ended the cell's life.
fn put_count(page: &mut ScriptPage<'_>, run: &WatchedRun<'_>, ended: Ended, life: Life) -> Written {
    match load_for(page, run, ended, life) {
        Some((WordUse { number, line, .. }, head)) => {
            let word = page.word(head, 0);
            page.tell_unordered();
            page.mark_new(
                line,
                0,
                format_args!("this loaded {number} for the `{word}` of line {head}"),
            )
        }
        None => Ok(()),
    }
}

/// The load of a number of a cell for the block in which a line ended the cell's life, and the first line of that block; `None` if there is none.
fn load_for(
    page: &ScriptPage<'_>,
    run: &WatchedRun<'_>,
    ended: Ended,
    life: Life,
) -> Option<(WordUse, u32)> {
    if ended.by != By::Line {
        return None;
    }
    let head = head_around(page, ended.at.number())?.line;
    for load in loads_for(page, head, run) {
        if let Some(word) = load
            && word.cell == life.pointer
        {
            return Some((word, head));
        }
    }
    None
}

/// Says which line left, if a destructor released a cell and the destructor's object was destroyed because of a leave.
fn put_owner_left(
    page: &mut ScriptPage<'_>,
    run: &WatchedRun<'_>,
    ended: Ended,
    life: Life,
) -> Written {
    let body = run.history.bodies.body_of(ended.at.number());
    match owner_left(run, life) {
        Some(left) if ended.by == By::Line && body.kind == BodyKind::Destructor => {
            let name = page.word(body.line, 1);
            page.mark_new(
                left.at.number(),
                0,
                format_args!(
                    "the cleanup stack deleted the object of `{name}` for the leave of this line"
                ),
            )
        }
        _ => Ok(()),
    }
}

/// Says which pointer was last set to a cell, unless the line that made the cell set the pointer. Says this only in three cases: the cell
/// moved; or the pointer is a field, and a destructor or the cell's item released the cell; or the line that freed the cell did so by this
/// pointer, and `set` had made the pointer name the cell.
fn put_other_holder(
    page: &mut ScriptPage<'_>,
    history: &History<'_>,
    ended: Ended,
    life: Life,
) -> Written {
    let is_moved = ended.end == End::Moved;
    let body = history.bodies.body_of(ended.at.number());
    match life.held {
        Some(held)
            if held.line != life.made
                && (is_moved
                    || held.is_field()
                        && (ended.by != By::Line || body.kind == BodyKind::Destructor)
                    || is_freed_by(page, history, held.line.number(), ended)) => {
            let line = held.line.number();
            let name = page.word(line, 1);
            page.mark_new(line, 1, format_args!("`{name}` got it here"))
        }
        _ => Ok(()),
    }
}

/// Says which line ended a cell's life, and what ended it there: the line itself, the cleanup stack, a destructor or an operation.
fn put_end(page: &mut ScriptPage<'_>, history: &History<'_>, ended: Ended) -> Written {
    let line = ended.at.number();
    let deed = match ended.end {
        End::Freed => "freed",
        End::Deleted => "deleted",
        End::Moved if ended.had_room => return page.mark_new(line, 0, MOVED_BY_FLAG),
        End::Moved => return page.mark_new(line, 0, "it moved here"),
    };
    let body = history.bodies.body_of(line);
    let name = page.word(body.line, 1);
    match (ended.by, body.kind) {
        (By::PopDestroy, _) => {
            page.mark_new(line, 0, format_args!("the cleanup stack {deed} it here"))
        }
        (By::Leave, _) => page.mark_new(
            line,
            0,
            format_args!("the cleanup stack {deed} it for the leave of this line"),
        ),
        (By::Line, BodyKind::Destructor) => page.mark_new(
            line,
            0,
            format_args!("it was {deed} here, by the destructor of `{name}`"),
        ),
        (By::Line, BodyKind::Operation) => page.mark_new(
            line,
            0,
            format_args!("it was {deed} here, by the operation `{name}`"),
        ),
        (By::Line, _) => page.mark_new(line, 0, format_args!("it was {deed} here")),
    }
}

/// Whether a line freed a cell by a pointer that a `set` in the same body, at the line `held`, had set to the cell.
fn is_freed_by(page: &ScriptPage<'_>, history: &History<'_>, held: u32, ended: Ended) -> bool {
    let freed = ended.at.number();
    ended.by == By::Line
        && page.word(held, 0) == "set"
        && page.word(held, 1) == page.word(freed, 1)
        && history.bodies.body_of(held) == history.bodies.body_of(freed)
}
