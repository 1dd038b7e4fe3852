//! Changes by which items are pushed in another order, so that a leave destroys them in the right one; or by which a cell is pushed only once.

use crate::runs::mends::blocks::begins_body;
use crate::runs::mends::candidates::Mends;
use crate::runs::mends::edits::Mend;
use std::alloc::AllocError;
use wb_heap_model::heap::Item;
use wb_history::{
    By, ItemOnStack, Life, PointerFault, PointerState, Raiser, ScriptLines, WatchedRun,
};

/// Proposes, if a leave destroyed a cell before an item whose destruction uses it, that the cell's item is pushed before that item.
pub fn add_push_order<'a>(
    mends: &mut Mends<'a>,
    lines: &ScriptLines<'a>,
    run: &WatchedRun<'_>,
) -> Result<(), AllocError> {
    let (Some(gone), Some(item)) = (destroyed_before(run), run.history.last_item) else {
        return Ok(());
    };
    let (to, user) = (gone.pushed.number(), item.pushed.line);
    let bodies = &run.history.bodies;
    if to <= user || bodies.body_of(to) != bodies.body_of(user) {
        return Ok(());
    }
    add_order(mends, lines, to, to, user, user)?;
    let (from, before) = (giver_above(lines, to), giver_above(lines, user));
    if user < from && from < to && 0 < before && before < user {
        add_order(mends, lines, from, to, before, user)?;
    }
    Ok(())
}

/// Proposes, if a cell had two items when it was destroyed, or an item though its caller frees it, that the newer item isn't pushed, and that a
/// line below takes off one item fewer.
pub fn add_pushed_once<'a>(
    mends: &mut Mends<'a>,
    lines: &ScriptLines<'a>,
    run: &WatchedRun<'_>,
) -> Result<(), AllocError> {
    let second = second_push(run);
    let push = if second == 0 {
        push_of_owned(lines, run)
    } else {
        second
    };
    if push == 0 {
        return Ok(());
    }
    let bodies = &run.history.bodies;
    for line in push..=lines.count() {
        if bodies.body_of(line) != bodies.body_of(push) {
            break;
        }
        let count = match lines.word(line, 0) {
            "popcheck" => 1,
            "pop" | "popdestroy" => lines.word(line, 1).parse::<u32>().unwrap_or(0),
            _ => 0,
        };
        if let Some(count) = count.checked_sub(1) {
            mends.add(Mend::PushedOnce { push, line, count })?;
        }
    }
    Ok(())
}

/// The line that pushed the newer of two items of a cell, if the destruction of the older one panicked; 0 otherwise.
fn second_push(run: &WatchedRun<'_>) -> u32 {
    let (Some(raised), Some(item)) = (run.end.raised, run.history.last_item) else {
        return 0;
    };
    match run.history.lives.find(item.pointer()) {
        Some(life)
            if raised.raiser == Raiser::Item
                && life.ended.is_some_and(|it| it.by != By::Line)
                && life.pushed.number() != item.pushed.line => life.pushed.number(),
        _ => 0,
    }
}

/// The line that pushed the cell that a panic is about, if a leave destroyed it with its item, and a line of another body then frees it by a
/// local; 0 otherwise.
fn push_of_owned(lines: &ScriptLines<'_>, run: &WatchedRun<'_>) -> u32 {
    let (bodies, freed) = (&run.history.bodies, run.history.last_line());
    let frees = matches!(lines.word(freed, 0), "free" | "delete");
    if !frees || lines.word(freed, 1).contains('.') {
        return 0;
    }
    let push = push_of_gone(run);
    if bodies.body_of(push) == bodies.body_of(freed) {
        0
    } else {
        push
    }
}

/// The line that pushed the cell that a panic is about, if a leave destroyed it with its item; 0 otherwise.
fn push_of_gone(run: &WatchedRun<'_>) -> u32 {
    match run.end.pointer {
        Some(
            PointerFault {
                state: PointerState::Gone(Some(life)),
                ..
            },
        ) if life.ended.is_some_and(|it| it.by == By::Leave) => life.pushed.number(),
        _ => 0,
    }
}

/// The life of the cell that a panic is about, if a leave destroyed it with its item, and another item was destroyed after that.
fn destroyed_before(run: &WatchedRun<'_>) -> Option<Life> {
    let PointerFault {
        state: PointerState::Gone(Some(life)),
        ..
    } = run.end.pointer?
    else {
        return None;
    };
    let item = run.history.last_item?;
    let is_other = item.pointer() != life.pointer
        || is_operation(item) && item.pushed.line != life.pushed.number();
    if life.ended?.by == By::Leave && is_other {
        Some(life)
    } else {
        None
    }
}

fn is_operation(item: ItemOnStack) -> bool {
    match item.item {
        Item::Call(..) => true,
        Item::Free(_) | Item::Delete(_) => false,
    }
}

/// The last line above a push, in the same body, that gives the pushed pointer a new value; 0 if there is none.
fn giver_above(lines: &ScriptLines<'_>, push: u32) -> u32 {
    let name = lines.word(push, 1);
    for back in 1..push {
        let at = push.saturating_sub(back);
        if begins_body(lines, at) {
            return 0;
        }
        let gives = matches!(
            lines.word(at, 0),
            "new" | "newleave" | "alloc" | "allocl" | "hnew" | "hnewl" | "callto"
        );
        if gives && lines.word(at, 1) == name {
            return at;
        }
    }
    0
}

/// Proposes that the lines from `from` to `to` come before another line. The lines that check which of the two items they pop change places.
fn add_order<'a>(
    mends: &mut Mends<'a>,
    lines: &ScriptLines<'a>,
    from: u32,
    to: u32,
    before: u32,
    user: u32,
) -> Result<(), AllocError> {
    let (one, other) = (
        check_below(lines, to, lines.word(to, 1)),
        check_below(lines, to, lines.word(user, 1)),
    );
    let both = one != 0 && other != 0 && one != other;
    mends.add(Mend::PushedBefore {
        from,
        to,
        before,
        user,
        one: if both { one } else { 0 },
        other: if both { other } else { 0 },
    })
}

/// The first line below this one that pops the item of a pointer by its name, up to the end of the body; 0 if there is none.
fn check_below(lines: &ScriptLines<'_>, line: u32, name: &str) -> u32 {
    for at in line..=lines.count() {
        match lines.word(at, 0) {
            "popcheck" if lines.word(at, 1) == name => return at,
            "proc" | "class" | "op" | "destroy" => return 0,
            _ => {}
        }
    }
    0
}
