//! How a cell that leaks, or that a heap check counts, was lost; and what to do about it.

use crate::runs::caught::{overlooked_leave, put_look};
use crate::runs::dropped::{dropped_result, put_dropped};
use crate::runs::left_cells::{last_pushed, put_left_cure, put_left_item, put_unpushed};
use crate::runs::let_go::{let_go, put_let_go};
use crate::runs::out_of_scope::put_out_of_scope;
use crate::runs::overwritten::{put_overwritten, put_second_time};
use crate::runs::passed_release::{passed_release, put_cure_of_passed, put_passed};
use crate::runs::paths::{body_name, put_path};
use crate::runs::plain_release::{class_name, put_cure_of_deleted, put_cure_of_plain};
use crate::runs::raised::{
    RaisedCount, put_cure_of_raised, put_raised, raised_before, raised_count,
};
use crate::runs::script_page::{ScriptPage, Written};
use crate::runs::taken::{Then, is_to_leave, put_cure_of_left, put_left};
use crate::runs::unlooked::{put_unlooked, put_unlooked_call, unlooked_result};
use wb_heap_model::heap::Kind;
use wb_history::{By, End, Ended, Held, ItemOnStack, Leave, Life, Stay, WatchedRun};

/// How a cell was lost.
#[derive(Clone, Copy)]
enum Loss {
    /// This line gave another value to the pointer that was last set to the cell.
    Overwritten(u32),
    /// The pointer that was last set to the cell was a field of an object that is gone.
    OwnerGone(Life, Ended),
    /// The pointer that was last set to the cell is a field of an object that leaks too.
    OwnerLeaks(Life),
    /// A leave cut short the code in which a local was set to the cell, and no item freed the cell.
    Left(Leave),
    /// The last pointer that was set to the cell was a local of a body that ended.
    OutOfScope(Held),
    /// An item that is still on the cleanup stack holds the cell.
    OnStack(ItemOnStack),
    /// A pointer still names the cell, as far as is known.
    StillNamed,
}

/// The most cells that `is_lost` looks at: the cell itself, its owner, the owner of this owner, and so on.
const MOST_OWNERS: usize = 8;

/// Returns whether it is known how a cell was lost. If the cell's owner leaks too, returns whether it is known how the owner was lost.
pub fn is_lost(page: &ScriptPage<'_>, life: Life, run: &WatchedRun<'_>) -> bool {
    let mut at = life;
    for _ in 0..MOST_OWNERS {
        let loss = loss_of(at, run);
        match loss {
            Loss::OwnerLeaks(owner) => at = owner,
            Loss::OnStack(_) => return left_with(page, loss, at, run).is_some(),
            Loss::StillNamed => {
                return skipped_by(page, at, run).is_some() || dropped_result(page, run).is_some();
            }
            _ => return true,
        }
    }
    false
}

/// Says which pointer was last set to a cell. Writes nothing if the line that made the cell set it, or if no pointer is known.
pub fn put_held(page: &mut ScriptPage<'_>, life: Life) -> Written {
    match life.held {
        Some(held) if held.line != life.made => {
            let line = held.line.number();
            let name = page.word(line, 1);
            page.mark_new(line, 1, format_args!("`{name}` got it here"))
        }
        _ => Ok(()),
    }
}

/// Says how a cell was lost, and what to do.
pub fn put_loss(page: &mut ScriptPage<'_>, life: Life, run: &WatchedRun<'_>) -> Written {
    let loss = loss_of(life, run);
    if let Some(raised) = raised_for(page, loss, life, run) {
        put_raised(page, raised, run)?;
        put_cure_of_raised(page, raised);
        return Ok(());
    }
    put_held(page, life)?;
    if let Loss::Overwritten(line) = loss {
        put_second_time(page, line, life, run)?;
    }
    put_item(page, loss, life, run)?;
    put_passed_over(page, loss, life, run)?;
    if is_unlooked(loss) {
        put_unlooked_call(page, unlooked_result(page, life, run))?;
    }
    if let Loss::OwnerGone(owner, ended) = loss
        && ended.end != End::Deleted
        && (ended.by != By::Line || run.history.bodies.undoes(ended.at.number()))
    {
        let pushed = owner.pushed.number();
        page.mark_new(pushed, 0, "the object that owned it was pushed here")?;
    }
    if let Loss::OwnerGone(_, ended) = loss {
        put_deleting_item(page, ended.at.number(), run)?;
    }
    if let Loss::Left(leave) = loss
        && leave.caught.is_some()
    {
        let lines = run.history.calls.lines_of(leave.at.path)?;
        put_path(page, &run.history.bodies, lines.as_slice());
    }
    put_cure(page, loss, life, run);
    Ok(())
}

/// Says which `if` passed over the line that frees a cell: one that goes by the number of the cell's users, or one in the destructor of the
/// cell's owner.
fn put_passed_over(
    page: &mut ScriptPage<'_>,
    loss: Loss,
    life: Life,
    run: &WatchedRun<'_>,
) -> Written {
    match loss {
        Loss::StillNamed | Loss::OutOfScope(_) => match raised_before(page, life, run) {
            Some(raised) => put_raised(page, raised, run),
            None => Ok(()),
        },
        Loss::OwnerGone(owner, ended) if ended.end == End::Deleted => {
            put_passed(page, passed_release(page, owner, life, run))
        }
        _ => Ok(()),
    }
}

/// Says where the item was pushed that was destroyed last, if the operation of this line is its operation.
fn put_deleting_item(page: &mut ScriptPage<'_>, line: u32, run: &WatchedRun<'_>) -> Written {
    let operation = body_name(page, line, run);
    match run.history.last_item {
        Some(item) if page.word(item.pushed.line, 2) == operation => page.mark_new(
            item.pushed.line,
            2,
            format_args!("line {line} ran as the operation of the item that was pushed here"),
        ),
        _ => Ok(()),
    }
}

/// The number of users by which a cell that was lost in this way was kept from being freed; `None` if there is none.
fn raised_for(
    page: &ScriptPage<'_>,
    loss: Loss,
    life: Life,
    run: &WatchedRun<'_>,
) -> Option<RaisedCount> {
    match loss {
        Loss::StillNamed | Loss::OutOfScope(_) | Loss::OwnerGone(..) => {
            raised_count(page, life, run)
        }
        Loss::Overwritten(_) | Loss::OwnerLeaks(_) | Loss::Left(_) | Loss::OnStack(_) => None,
    }
}

/// Says which line popped the item of a cell, or which line pushed the item if no line popped it. If one body pushed the item and another
/// popped it, names both lines. Then says which body left the item to its caller, if `left_with` finds one.
fn put_item(page: &mut ScriptPage<'_>, loss: Loss, life: Life, run: &WatchedRun<'_>) -> Written {
    let (popped, pushed) = (life.popped.number(), life.pushed.number());
    if let Loss::Left(leave) = loss
        && pushed == 0
    {
        put_unpushed(page, leave, life, run)?;
    } else if let Loss::OnStack(_) = loss {
        page.mark_new(
            pushed,
            0,
            "its item, still on the cleanup stack, was pushed here",
        )?;
    } else if let Loss::Left(_) = loss
        && popped == 0
    {
        put_left_item(page, life, run)?;
    } else if popped == 0 {
        page.mark_new(
            last_pushed(life, run),
            0,
            "its item was pushed here, and the operation didn't free the cell",
        )?;
    } else if let Loss::Left(_) = loss
        && let Some(let_go) = let_go(page, life, run)
    {
        put_let_go(page, let_go)?;
    } else if is_popped_elsewhere(life, run) {
        page.mark_new(
            popped,
            0,
            format_args!("its item, which line {pushed} had pushed, was popped here"),
        )?;
    } else {
        page.mark_new(popped, 0, "its item was popped here")?;
    }
    match left_with(page, loss, life, run) {
        Some(body) => put_left(page, body, Then(None), run),
        None => Ok(()),
    }
}

/// The body that left the item of a cell to its caller. `None` if no such body is known, or if the body's name says that it leaves an item.
fn left_with(page: &ScriptPage<'_>, loss: Loss, life: Life, run: &WatchedRun<'_>) -> Option<Stay> {
    let body = match (loss, run.history.items.of_callee) {
        (Loss::OnStack(item), _) => item.left?,
        (Loss::OutOfScope(_), Some(taken))
            if taken.line == life.popped.number() && taken.pushed == life.pushed.number() => {
            taken.body
        }
        _ => return None,
    };
    if is_to_leave(page, body, run) {
        None
    } else {
        Some(body)
    }
}

/// Returns whether one body pushed the item of a cell, and another body popped it.
pub fn is_popped_elsewhere(life: Life, run: &WatchedRun<'_>) -> bool {
    let bodies = &run.history.bodies;
    let (popped, pushed) = (life.popped.number(), life.pushed.number());
    popped != 0 && bodies.body_of(popped) != bodies.body_of(pushed)
}

/// Says what to do about a cell that was lost.
fn put_cure(page: &mut ScriptPage<'_>, loss: Loss, life: Life, run: &WatchedRun<'_>) {
    if let Some(body) = left_with(page, loss, life, run) {
        return put_cure_of_left(page, body, run);
    }
    match unlooked_result(page, life, run) {
        Some(unlooked) if is_unlooked(loss) => put_unlooked(page, unlooked),
        _ => put_cure_of_loss(page, loss, life, run),
    }
}

/// Whether a line that looked at the result of a call might have kept a cell from being lost in this way.
fn is_unlooked(loss: Loss) -> bool {
    match loss {
        Loss::OutOfScope(_) | Loss::StillNamed => true,
        _ => false,
    }
}

/// Says what to do about the way in which a cell was lost.
fn put_cure_of_loss(page: &mut ScriptPage<'_>, loss: Loss, life: Life, run: &WatchedRun<'_>) {
    let name = match life.held {
        Some(held) => page.word(held.line.number(), 1),
        None => "",
    };
    match loss {
        Loss::Overwritten(line) => put_overwritten(page, line, name, life.kind, run),
        Loss::OwnerGone(owner, ended) if ended.end != End::Deleted => {
            put_cure_of_plain(page, owner, ended, name, life.kind);
        }
        Loss::OwnerGone(owner, ended) => match passed_release(page, owner, life, run) {
            Some(passed) => put_cure_of_passed(page, passed, ended.at.number()),
            None => put_cure_of_deleted(page, owner, ended.at.number(), name, life.kind),
        },
        Loss::OwnerLeaks(owner) => {
            let (line, class) = (owner.made.number(), class_name(page, owner));
            let field = name.split('.').nth(1).unwrap_or(name);
            page.page.begin_note();
            page.page.write(format_args!(
                "it was lost with the object that line {line} made, whose field `{field}` named it: when that is deleted, the `destroy` of `{class}` will free it"
            ));
            page.page.end_line();
        }
        Loss::Left(leave) => put_left_cure(page, leave, life, run),
        Loss::OutOfScope(held) => put_out_of_scope(page, life, held, name, run),
        Loss::StillNamed => put_still_named(page, life, run),
        Loss::OnStack(_) => {}
    }
}

/// An overlooked leave that came after a pointer was last set to a cell, and may have skipped the freeing of the cell; `None` if none did.
fn skipped_by(page: &ScriptPage<'_>, life: Life, run: &WatchedRun<'_>) -> Option<Leave> {
    let since = life.held.map_or(u32::MAX, |held| held.since);
    let leave = overlooked_leave(page, run)?;
    if since <= leave.at.step {
        Some(leave)
    } else {
        None
    }
}

/// Says what to do about a cell that a pointer still names at the end of the run, or at a heap check. If a leave may have skipped the lines
/// that free the cell, says also what to do about the leave.
fn put_still_named(page: &mut ScriptPage<'_>, life: Life, run: &WatchedRun<'_>) {
    let leave = skipped_by(page, life, run);
    if leave.is_none()
        && let Some(dropped) = dropped_result(page, run)
    {
        return put_dropped(page, dropped);
    }
    page.page.begin_help();
    if leave.is_none() {
        put_in_place_of_pop(page, life);
    }
    let (what, release) = match life.kind {
        Kind::Object(_) => ("delete the object", "delete"),
        _ => ("free the cell", "free"),
    };
    let end = if run.end.counted.is_some() {
        "this check"
    } else {
        "the end"
    };
    page.page.write(format_args!("{what} before {end}, or let what owns it {release} it"));
    page.page.end_line();
    if let Some(leave) = leave {
        put_look(page, leave, "");
    }
}

/// Says what would have freed a cell whose item was popped; says nothing if the item wasn't popped.
pub fn put_in_place_of_pop(page: &mut ScriptPage<'_>, life: Life) {
    let line = life.popped.number();
    if line != 0 {
        let word = page.word(line, 0);
        page.page.write(format_args!(
            "use `popdestroy` in place of the `{word}` of line {line}, or "
        ));
    }
}

/// Returns how a cell of this kind is released.
pub fn release_of(kind: Kind) -> &'static str {
    match kind {
        Kind::Object(_) => "`delete` the object",
        _ => "free the cell",
    }
}

fn loss_of(life: Life, run: &WatchedRun<'_>) -> Loss {
    if let Some(item) = run.history.items.find(life.pointer) {
        return Loss::OnStack(item);
    }
    if life.overwritten.is_some() {
        return Loss::Overwritten(life.overwritten.number());
    }
    let Some(held) = life.held else {
        return Loss::StillNamed;
    };
    if held.is_field() {
        return owner_of(held, run);
    }
    if let Some(leave) = run.history.traps.leave_that_ended(held) {
        return Loss::Left(leave);
    }
    if held.depth > 1 && !still_runs(held, run) {
        return Loss::OutOfScope(held);
    }
    Loss::StillNamed
}

/// Whether a heap check ended the run while the body of the local `held` still ran.
fn still_runs(held: Held, run: &WatchedRun<'_>) -> bool {
    let (calls, depth) = (&run.history.calls, u32::from(held.depth));
    run.end.counted.is_some()
        && depth <= calls.depth()
        && calls.last_line_of(depth, held.since) != 0
}

fn owner_of(held: Held, run: &WatchedRun<'_>) -> Loss {
    let Some(owner) = run.history.lives.find(held.owner) else {
        return Loss::StillNamed;
    };
    match owner.ended {
        Some(ended) => Loss::OwnerGone(owner, ended),
        None => Loss::OwnerLeaks(owner),
    }
}
