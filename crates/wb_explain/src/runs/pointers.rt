//! What is said about the pointer that a panic is about: that the pointer is null, or what became of its cell, and what to do.

use crate::runs::cures::Cure;
use crate::runs::destroyed::of_item_without_cell;
use crate::runs::ended_by_call::ended_by_call;
use crate::runs::ended_by_line::cure_of_ended_by_line;
use crate::runs::for_leave::{cure_of_share, ended_by_item};
use crate::runs::half_made::half_made;
use crate::runs::item_cures::ItemCure;
use crate::runs::item_kept::kept_past_use;
use crate::runs::kept::name_of;
use crate::runs::never_set::cure_of_unset;
use crate::runs::new_place::cure_of_moved;
use crate::runs::owners::{cure_of_leave, cure_of_two_owners};
use crate::runs::panics::{CHECK_FIRST, CHECK_IN_OPERATION};
use crate::runs::script_page::ScriptPage;
use crate::runs::taken::{LEFT_NONE, cure_of_taken, destroyed_after_callee, taken_with};
use crate::runs::whole::cure_in_destructor;
use wb_history::{
    AttemptMade, BodyKind, By, End, Ended, Life, NULL, PointerFault, PointerState, WatchedRun,
    is_same_field, is_same_pointer, target_of,
};
use wb_tree::script::Statement;

/// Says which pointer names no cell, and why.
pub fn put_fault(page: &mut ScriptPage<'_>, line: u32, fault: PointerFault) {
    let name = name_of(page, line, fault);
    match fault.state {
        PointerState::Null if page.word(line, 0) == "null" => page.page.write(format_args!(
            "there is no object with this field: `{name}` is null"
        )),
        PointerState::Null => page.page.write(format_args!("`{name}` is null")),
        PointerState::Gone(life) => match life.and_then(|life| life.ended) {
            Some(ended) => put_ended(page, line, fault, ended),
            None => page.page.write(format_args!(
                "`{name}` names no live cell: it was freed or has moved"
            )),
        },
    }
}

fn put_ended(page: &mut ScriptPage<'_>, line: u32, fault: PointerFault, ended: Ended) {
    let name = name_of(page, line, fault);
    let (what, shows) = match (fault.pointer, ended.end) {
        (None, _) => ("the cell of the text that `", " shows"),
        (Some(_), End::Deleted) => ("the object of `", ""),
        (Some(_), End::Freed | End::Moved) => ("the cell of `", ""),
    };
    let deed = match ended.end {
        End::Deleted => "was already deleted",
        End::Freed => "was already freed",
        End::Moved => "moved",
    };
    page.page.write(format_args!("{what}{name}`{shows} {deed}"));
    put_ender(page, line, ended);
}

/// Says which line ended a cell's life: the line that panicked, or another line.
fn put_ender(page: &mut ScriptPage<'_>, line: u32, ended: Ended) {
    let at = ended.at.number();
    match (ended.end, at == line) {
        (End::Moved, true) => {
            page.page
                .write_text(" when this line made it longer, an earlier time");
        }
        (End::Moved, false) => page
            .page
            .write(format_args!(" when line {at} made it longer")),
        (End::Freed | End::Deleted, true) => page.page.write_text(" by this line, an earlier time"),
        (End::Freed | End::Deleted, false) => page.page.write(format_args!(" at line {at}")),
    }
}

/// Returns what to do about a pointer that names no cell.
pub fn cure_of(
    page: &ScriptPage<'_>,
    run: &WatchedRun<'_>,
    line: u32,
    fault: PointerFault,
) -> Cure {
    match fault.state {
        PointerState::Null => match run.history.bodies.body_of(line).kind {
            BodyKind::Destructor => cure_in_destructor(page, run),
            BodyKind::Operation => cure_in_operation(page, run, line, fault),
            _ => cure_outside(page, run, line, fault),
        },
        PointerState::Gone(life) if fault.pointer.is_none() => Cure::Words(cure_of_view(life)),
        PointerState::Gone(life) => match cure_of_share(page, run, line, fault) {
            Some(cure) => cure,
            None => cure_of_gone(page, run, line, fault, life),
        },
    }
}

/// What to do about a null pointer that an operation uses.
fn cure_in_operation(
    page: &ScriptPage<'_>,
    run: &WatchedRun<'_>,
    line: u32,
    fault: PointerFault,
) -> Cure {
    if let Some(item) = kept_past_use(page, line, fault, run) {
        return Cure::Item(ItemCure::Kept(item));
    }
    let parameter = page.word(run.history.bodies.body_of(line).line, 2);
    match run.history.last_item {
        Some(item) if item.pointer() == NULL && name_of(page, line, fault) == parameter => {
            Cure::Item(ItemCure::PushedNull {
                pushed: item.pushed.line,
                used: line,
            })
        }
        _ => Cure::Words(CHECK_IN_OPERATION),
    }
}

/// What to do about a pointer whose cell is gone. `life` is the life of this cell, if that is kept.
fn cure_of_gone(
    page: &ScriptPage<'_>,
    run: &WatchedRun<'_>,
    line: u32,
    fault: PointerFault,
    life: Option<Life>,
) -> Cure {
    match life.and_then(|life| life.ended) {
        Some(ended) if is_out_of_order(run, line, fault, ended) => Cure::Words(
            "the cleanup stack destroys its newest item first: push what a destructor or an operation uses before the item that uses it, and let the lines that take the two items off change places, too",
        ),
        Some(ended) => cure_of_other_end(page, run, line, fault, ended),
        None => Cure::Words("set the pointer to null when its cell is freed"),
    }
}

/// What to do about a pointer whose cell is gone, though the cleanup stack destroys its items in the right order.
fn cure_of_other_end(
    page: &ScriptPage<'_>,
    run: &WatchedRun<'_>,
    line: u32,
    fault: PointerFault,
    ended: Ended,
) -> Cure {
    match kept_past_use(page, line, fault, run) {
        Some(item) => Cure::Item(ItemCure::Kept(item)),
        None if is_in_item(run, line, fault) => {
            Cure::Words(of_item_without_cell(Some(ended.end)).1)
        }
        None => {
            let ended = ended_by_item(page, run, fault, ended);
            cure_of_ended(page, run, line, fault, ended)
        }
    }
}

/// What to do about a view whose text is gone.
fn cure_of_view(life: Option<Life>) -> &'static str {
    match life.and_then(|life| life.ended) {
        Some(ended) if ended.end != End::Moved => {
            "a view shows its text only while the text's cell is there: free the text after the last use of the view, or copy what the view shows to a text or a buffer first"
        }
        _ =>
            "a view shows its text only while the text's cell is there and keeps its place: make the view again after a line that may move the text",
    }
}

/// What to do about a null pointer, outside of destructors and operations.
fn cure_outside(
    page: &ScriptPage<'_>,
    run: &WatchedRun<'_>,
    line: u32,
    fault: PointerFault,
) -> Cure {
    if let Some(half) = half_made(page, line, run) {
        return Cure::HalfMade(half);
    }
    match failed_for(run, line, fault) {
        Some(made) => cure_of_maker(run, line, fault, made),
        None => Cure::Words(cure_of_unset(run, fault)),
    }
}

/// What to do about a null pointer that a line uses, if the attempt that was to give the pointer a cell failed.
fn cure_of_maker(
    run: &WatchedRun<'_>,
    line: u32,
    fault: PointerFault,
    made: AttemptMade<'_>,
) -> Cure {
    let (bodies, from) = (&run.history.bodies, made.maker.line);
    let is_elsewhere = bodies.body_of(from) != bodies.body_of(line);
    match made.maker.statement {
        _ if !made.maker.gives_null() => Cure::CheckBefore {
            from,
            used: line,
            fault,
            has_left: true,
        },
        Some(Statement::Alloc(..) | Statement::New(..) | Statement::NewText(..)) if is_elsewhere =>
            Cure::CheckBefore {
                from,
                used: line,
                fault,
                has_left: false,
            },
        _ => cure_of_null(made),
    }
}

/// Returns whether a pointer may be null because a leave skipped the lines that would have made the pointer's cell.
pub fn is_left_null(run: &WatchedRun<'_>, line: u32, fault: PointerFault) -> bool {
    if fault.state != PointerState::Null || run.history.bodies.undoes(line) {
        return false;
    }
    match failed_for(run, line, fault) {
        Some(made) => !made.maker.gives_null(),
        None => true,
    }
}

/// Returns the name of the pointer that a panic at a line is about, if it is null and is a field or was copied from a field; empty otherwise.
pub fn member_left_null<'a>(page: &ScriptPage<'a>, line: u32, run: &WatchedRun<'_>) -> &'a str {
    let Some(fault) = run.end.pointer else {
        return "";
    };
    let name = name_of(page, line, fault);
    let is_copy = match fault.write {
        Some(write) => page.word(write.line, 0) == "set" && page.word(write.line, 2).contains('.'),
        None => false,
    };
    if fault.state == PointerState::Null && (is_copy || name.contains('.')) {
        name
    } else {
        ""
    }
}

/// Returns whether an operation or a destructor uses, and doesn't free, a cell that is gone. Either the cleanup stack destroyed the cell
/// for the same line, or another operation freed the cell.
pub fn is_out_of_order(run: &WatchedRun<'_>, line: u32, fault: PointerFault, ended: Ended) -> bool {
    let (user, freer) = (
        run.history.bodies.body_of(line),
        run.history.bodies.body_of(ended.at.number()),
    );
    let are_operations = user.kind == BodyKind::Operation
        && freer.kind == BodyKind::Operation
        && user != freer;
    let is_by_item = ended.by != By::Line && ended.at.number() == run.history.last_line_outside();
    ended.end != End::Moved
        && (are_operations || is_by_item && run.history.bodies.undoes(line))
        && !frees(run, fault)
}

/// Whether a line is in an operation, and the item that was destroyed last is an item of the cell at fault.
fn is_in_item(run: &WatchedRun<'_>, line: u32, fault: PointerFault) -> bool {
    match (fault.state, run.history.last_item) {
        (PointerState::Gone(Some(life)), Some(item)) => {
            item.pointer() == life.pointer
                && run.history.bodies.body_of(line).kind == BodyKind::Operation
        }
        _ => false,
    }
}

/// Returns the last attempt that was to give a cell to this pointer (in this body, or as the same field), if this attempt failed.
pub fn failed_for<'a>(
    run: &WatchedRun<'a>,
    line: u32,
    fault: PointerFault,
) -> Option<AttemptMade<'a>> {
    let pointer = fault.pointer?;
    let body = run.history.bodies.body_of(line);
    let mut last = None;
    for made in run.history.attempts.kept_attempts() {
        if let Some(statement) = made.maker.statement
            && let Some(target) = target_of(statement)
            && (is_same_field(target, pointer)
                || is_same_pointer(target, pointer)
                    && run.history.bodies.body_of(made.maker.line) == body)
        {
            last = if made.is_granted() { None } else { Some(*made) };
        }
    }
    last
}

/// Returns what to do about a cell whose pointer became null when an attempt to reallocate failed at a line; `None` if no attempt to
/// reallocate failed at this line.
pub fn cure_of_failed(run: &WatchedRun<'_>, line: u32) -> Option<Cure> {
    for made in run.history.attempts.kept_attempts() {
        if made.maker.line == line
            && !made.is_granted()
            && let Some(Statement::Realloc(..) | Statement::ReallocText(..)) = made
                .maker
                .statement
        {
            return Some(cure_of_null(*made));
        }
    }
    None
}

/// What to do if a failed attempt left a pointer null.
fn cure_of_null(made: AttemptMade<'_>) -> Cure {
    let failed = made.maker.line;
    match made.maker.statement {
        Some(Statement::New(..)) => Cure::Words(
            "after `new` check with `if some`; `newleave` leaves instead of giving null",
        ),
        Some(Statement::Alloc(..)) => {
            Cure::Words(
                "after `alloc` check with `if some`; `allocl` leaves instead of giving null",
            )
        }
        Some(Statement::NewText(..)) => {
            Cure::Words("after `hnew` check with `if some`; `hnewl` leaves instead of giving null")
        }
        Some(Statement::ReallocText(..)) => Cure::Reallocated {
            failed,
            words: "fails it gives null, and the old cell stays: let another pointer get its answer, and where that is null leave, or go on with the old text",
        },
        Some(Statement::Realloc(..)) => Cure::Reallocated {
            failed,
            words: "fails it gives null, and the old cell stays: let another pointer get its answer, and where that is null leave, or go on with the old cell; `reallocl` leaves instead",
        },
        _ => Cure::Words(CHECK_FIRST),
    }
}

/// Returns how the life of an object ended, if a field of the object was the last pointer that was set to a cell, and the cleanup stack
/// destroyed the object because of a leave; `None` otherwise.
pub fn owner_left(run: &WatchedRun<'_>, life: Life) -> Option<Ended> {
    let held = life.held?;
    let ended = run.history.lives.find(held.owner)?.ended?;
    if held.is_field() && ended.by == By::Leave {
        Some(ended)
    } else {
        None
    }
}

/// Returns whether the line that panicked was to free or delete what the pointer at fault names, and not only to use it.
pub fn frees(run: &WatchedRun<'_>, fault: PointerFault) -> bool {
    let is_freed = matches!(
        run.end.statement,
        Some(Statement::Free(_) | Statement::Delete(_))
    );
    is_freed && !fault.is_owner
}

/// What to do about a pointer whose cell is gone. This depends on how the cell's life ended.
fn cure_of_ended(
    page: &ScriptPage<'_>,
    run: &WatchedRun<'_>,
    line: u32,
    fault: PointerFault,
    ended: Ended,
) -> Cure {
    match (ended.end, ended.by) {
        (End::Moved, _) => cure_of_moved(page, run, line, fault, ended),
        (_, By::PopDestroy) if taken_with(ended, run).is_some() => cure_of_taken(page, run),
        (_, By::PopDestroy | By::Leave) if frees(run, fault) && run.history.bodies.undoes(line) => {
            cure_of_two_owners(page, run, fault, ended)
        }
        (_, By::PopDestroy) if destroyed_after_callee(page, ended, run).is_some() => {
            Cure::Words(LEFT_NONE)
        }
        (_, By::PopDestroy) => match ended_by_call(
            page,
            line,
            fault,
            ended,
            frees(run, fault),
            run,
        ) {
            Some(call) => Cure::EndedByCall(call),
            None => Cure::Words(
                "`popdestroy` frees what it takes off: use `pop` if the cell is to stay, or set the pointer to null after it",
            ),
        },
        (_, By::Leave) => cure_of_leave(run, line, fault, ended),
        (_, By::Line) => cure_of_ended_by_line(page, run, line, fault, ended),
    }
}
