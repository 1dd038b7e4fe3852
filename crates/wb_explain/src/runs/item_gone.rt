//! What is said about an item if its cell was gone when the cleanup stack destroyed the item, or if its destruction used such a cell: where
//! the item was pushed, and which item was popped in its place.

use crate::runs::script_page::{ScriptPage, Written};
use crate::runs::taken::{Then, put_left};
use wb_history::{By, End, Ended, Popped, Raiser, Stay, WatchedRun};

/// Returns what to do about an item whose cell is gone because another item was popped in its place, or because the cell has two items;
/// `None` if the cell is gone for another reason.
pub fn cure_of_gone(run: &WatchedRun<'_>, ended: Ended) -> Option<&'static str> {
    if ended.by != By::Line {
        return Some(
            "it has two items: push it once, or pop one of the two; a later `pop` or `popdestroy` that counts both must then take off one item fewer",
        );
    }
    match popped_instead(run, Some(ended)) {
        Some(_) => Some(
            "pop an item before its cell is freed elsewhere: `popcheck` makes sure that it is the one that comes off",
        ),
        None => None,
    }
}

/// Returns whether an item panicked because another item of the same cell had ended the cell's life.
pub fn has_two_items(run: &WatchedRun<'_>, ended: Option<Ended>) -> bool {
    match (run.end.raised, ended) {
        (Some(raised), Some(ended)) => raised.raiser == Raiser::Item && ended.by != By::Line,
        _ => false,
    }
}

/// The pop that took off the item above the item that was destroyed last. The pop must be in the body that freed the cell; `None` if there
/// is no such pop.
fn popped_instead(run: &WatchedRun<'_>, ended: Option<Ended>) -> Option<Popped> {
    let (ended, above) = (ended?, run.history.last_item?.above?);
    let bodies = &run.history.bodies;
    let (line, freed) = (above.line.number(), ended.at.number());
    let is_freed = ended.by == By::Line && ended.end != End::Moved;
    if is_freed && line < freed && bodies.body_of(line) == bodies.body_of(freed) {
        Some(above)
    } else {
        None
    }
}

/// Returns the body that had left an item, if this item was popped in place of the item destroyed last; `None` if no such body is known.
/// `ended` is how the life of the destroyed item's cell ended.
pub fn left_instead(run: &WatchedRun<'_>, ended: Option<Ended>) -> Option<Stay> {
    let above = popped_instead(run, ended)?;
    let taken = run.history.items.of_callee?;
    if taken.line == above.line.number() && taken.pushed == above.pushed.number() {
        Some(taken.body)
    } else {
        None
    }
}

/// Says where the item that was destroyed last was pushed, and which item was popped in its place.
pub fn put_item_gone(
    page: &mut ScriptPage<'_>,
    run: &WatchedRun<'_>,
    ended: Option<Ended>,
) -> Written {
    page.tell_unordered();
    if let Some(item) = run.history.last_item {
        page.mark_new(item.pushed.line, 1, said_of_push(ended))?;
    }
    if let Some(body) = left_instead(run, ended) {
        put_left(page, body, Then(None), run)?;
    }
    match popped_instead(run, ended) {
        Some(above) => page.mark_new(
            above.line.number(),
            0,
            format_args!(
                "this popped the item that line {} pushed, not that one",
                above.pushed.number()
            ),
        ),
        None => Ok(()),
    }
}

/// What is said at the line that pushed an item, if the item's destruction raised a panic. `ended` is how the life of its cell ended.
fn said_of_push(ended: Option<Ended>) -> &'static str {
    match ended {
        Some(ended) if ended.by != By::Line => "its older item, destroyed last, was pushed here",
        _ => "its item was pushed here",
    }
}

/// Says where the item that was destroyed last was pushed, if its destruction used a cell that was gone.
pub fn put_user(page: &mut ScriptPage<'_>, run: &WatchedRun<'_>) -> Written {
    page.tell_unordered();
    match run.history.last_item {
        Some(item) => page.mark_new(
            item.pushed.line,
            1,
            "the item whose destruction uses it was pushed here",
        ),
        None => Ok(()),
    }
}
