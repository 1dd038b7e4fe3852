//! An operation that the cleanup stack ran for a leave and that freed the operation's cell, though something else still used this cell.

use crate::runs::cures::Cure;
use crate::runs::heads::head_around;
use crate::runs::pointers::owner_left;
use crate::runs::script_page::{ScriptPage, Written};
use crate::runs::whole::line_in_body_of;
use wb_history::{BodyKind, By, Ended, Life, PointerFault, PointerState, ShortLine, WatchedRun};

/// An item whose operation freed the item's cell for a leave.
#[derive(Clone, Copy)]
pub struct FreedForLeave {
    /// The line that pushed the item.
    pub pushed: u32,
    /// The line that left, and the line by which the leave came about in the body that pushed the item.
    left: u32,
    within: u32,
}

/// Returns the item whose operation freed a cell, if the last leave left the body that had pushed the item, below the push; `None` if there is
/// no such item.
pub fn freed_for_leave(
    page: &ScriptPage<'_>,
    run: &WatchedRun<'_>,
    life: Life,
) -> Option<FreedForLeave> {
    let ended = life.ended?;
    let (bodies, pushed) = (&run.history.bodies, life.pushed.number());
    let body = bodies.body_of(ended.at.number());
    let is_by_item = ended.by == By::Line
        && body.kind == BodyKind::Operation
        && page.word(pushed, 2) == page.word(body.line, 1);
    let leave = run.history.traps.last_leave()?;
    if !is_by_item || life.popped.is_some() {
        return None;
    }
    let Ok(lines) = run.history.calls.lines_of(leave.at.path) else {
        return None;
    };
    for at in lines.as_slice() {
        if pushed < *at && bodies.body_of(*at) == bodies.body_of(pushed) {
            return Some(FreedForLeave {
                pushed,
                left: leave.at.line,
                within: *at,
            });
        }
    }
    None
}

/// Returns how a cell's life ended. A cell that the operation of its item freed for a leave counts as destroyed by the leave.
pub fn ended_by_item(
    page: &ScriptPage<'_>,
    run: &WatchedRun<'_>,
    fault: PointerFault,
    ended: Ended,
) -> Ended {
    let PointerState::Gone(Some(life)) = fault.state else {
        return ended;
    };
    match freed_for_leave(page, run, life) {
        Some(FreedForLeave { left, .. }) => Ended {
            by: By::Leave,
            at: ShortLine::of(left),
            ..ended
        },
        None => ended,
    }
}

/// The line that pushed another item of a cell than the line `pushed`: an item that is still on the cleanup stack, or that was destroyed last.
/// 0 if there is none.
fn other_item(run: &WatchedRun<'_>, life: Life, pushed: u32) -> u32 {
    if let Some(item) = run.history.items.find(life.pointer)
        && item.pushed.line != pushed
    {
        return item.pushed.line;
    }
    match run.history.last_item {
        Some(item) if item.pointer() == life.pointer && item.pushed.line != pushed => {
            item.pushed.line
        }
        _ => 0,
    }
}

/// Says for which line's leave the cleanup stack ran the operation that freed a cell, if it did so for a leave.
pub fn put_ran_for(page: &mut ScriptPage<'_>, run: &WatchedRun<'_>, life: Life) -> Written {
    match freed_for_leave(page, run, life) {
        Some(FreedForLeave { left, .. }) => {
            page.mark_new(
                left,
                0,
                "the cleanup stack ran it for the leave of this line",
            )
        }
        None => Ok(()),
    }
}

/// Says where another item of a cell was pushed, if an operation freed the cell for a leave, and the cell's users are counted.
pub fn put_other_item(page: &mut ScriptPage<'_>, run: &WatchedRun<'_>, life: Life) -> Written {
    match freed_for_leave(page, run, life) {
        Some(FreedForLeave { pushed, .. }) if is_counted(page, life) => page.mark_new(
            other_item(run, life, pushed),
            1,
            "another item, which still holds it, was pushed here",
        ),
        _ => Ok(()),
    }
}

/// Whether the line that freed a cell goes by a number, as where the cell's users are counted.
fn is_counted(page: &ScriptPage<'_>, life: Life) -> bool {
    let Some(ended) = life.ended else {
        return false;
    };
    match head_around(page, ended.at.number()) {
        Some(head) => matches!(page.word(head.line, 1), "less" | "eq"),
        None => false,
    }
}

/// Returns what to do about a cell that is gone, if its users are counted, and an item gave up a user for a leave before the line that counts
/// this user; `None` otherwise.
pub fn cure_of_share(
    page: &ScriptPage<'_>,
    run: &WatchedRun<'_>,
    line: u32,
    fault: PointerFault,
) -> Option<Cure> {
    let PointerState::Gone(Some(life)) = fault.state else {
        return None;
    };
    let freed = freed_for_leave(page, run, life)?;
    let other = other_item(run, life, freed.pushed);
    let is_user = other != 0 || run.history.bodies.undoes(line);
    if !is_user || !is_counted(page, life) {
        return None;
    }
    Some(Cure::ShareTooLate {
        freed,
        other,
        counts: counted_at(page, run, line, freed),
    })
}

/// Returns what to do about a cell that is gone, if its users are counted, and the destructor of an object that a leave destroyed gave up a user
/// that wasn't counted yet; `None` otherwise.
pub fn cure_of_uncounted(
    page: &ScriptPage<'_>,
    run: &WatchedRun<'_>,
    fault: PointerFault,
    ended: Ended,
) -> Option<Cure> {
    let PointerState::Gone(Some(life)) = fault.state else {
        return None;
    };
    let left = owner_left(run, life)?;
    let body = run.history.bodies.body_of(ended.at.number());
    if body.kind != BodyKind::Destructor || !is_counted(page, life) {
        return None;
    }
    Some(Cure::UncountedUser {
        set: life.held?.line.number(),
        left: left.at.number(),
    })
}

/// The line that counts the user of an item too late: it stands below the leave, in the body that pushed the item, and led to the line of the
/// panic, which loads a number that a line below it stores. 0 if there is none.
fn counted_at(page: &ScriptPage<'_>, run: &WatchedRun<'_>, line: u32, freed: FreedForLeave) -> u32 {
    let (bodies, name) = (&run.history.bodies, page.word(line, 2));
    let counts = line_in_body_of(freed.pushed, run);
    if page.word(line, 0) != "load" || counts < freed.within || counts == u32::MAX {
        return 0;
    }
    for at in line..page.lines.count() {
        let is_store = page.word(at, 0) == "store" && page.word(at, 1) == name;
        if is_store && bodies.body_of(at) == bodies.body_of(line) {
            return counts;
        }
    }
    0
}

/// Says what to do about an item that gave up a user before this user was counted.
pub fn put_share_too_late(
    page: &mut ScriptPage<'_>,
    freed: FreedForLeave,
    other: u32,
    counts: u32,
) {
    let FreedForLeave {
        pushed,
        left,
        within,
    } = freed;
    page.begin_cause();
    page.page.write(format_args!(
        "the item of line {pushed}, destroyed for the leave of line {left}, freed the cell"
    ));
    if other != 0 {
        page.page.write(format_args!(", which the item of line {other} still holds"));
    }
    if counts != 0 {
        page.page.write(format_args!(
            ": what line {counts} does, which counts the new user, must come before line {pushed}"
        ));
    } else {
        page.page.write(format_args!(
            ": push the item of line {pushed} only after the line that counts it as a new user"
        ));
    }
    page.page
        .write(format_args!(", or line {within} must not leave"));
    page.page.end_line();
}
