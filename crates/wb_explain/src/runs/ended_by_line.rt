//! What to do about a pointer whose cell a line freed or deleted, and not the cleanup stack.

use crate::runs::cures::Cure;
use crate::runs::ended_by_call::ended_by_call;
use crate::runs::for_leave::cure_of_uncounted;
use crate::runs::lent::lent_cell;
use crate::runs::pointers::{frees, owner_left};
use crate::runs::script_page::ScriptPage;
use crate::runs::shared::shared_cell;
use wb_history::{BodyKind, End, Ended, PointerFault, PointerState, WatchedRun};

/// Returns what to do about a pointer whose cell was freed or deleted by a line, given what led to that line.
pub fn cure_of_ended_by_line(
    page: &ScriptPage<'_>,
    run: &WatchedRun<'_>,
    line: u32,
    fault: PointerFault,
    ended: Ended,
) -> Cure {
    if let Some(shared) = shared_cell(page, run, fault, ended) {
        return Cure::Shared(shared);
    }
    if let Some(cure) = cure_of_uncounted(page, run, fault, ended) {
        return cure;
    }
    if let Some(lent) = lent_cell(page, line, fault, ended, run) {
        return Cure::Lent(lent);
    }
    match ended_by_call(page, line, fault, ended, frees(run, fault), run) {
        Some(call) => Cure::EndedByCall(call),
        None if is_freed_twice(page, run, line, fault, ended) => Cure::SetNull {
            freed: ended.at.number(),
        },
        None => Cure::Words(cure_of_line(run, line, fault, ended)),
    }
}

/// Whether a line outside of destructors released a cell that the line `line` was to release again, by the same local or by a field of this name.
fn is_freed_twice(
    page: &ScriptPage<'_>,
    run: &WatchedRun<'_>,
    line: u32,
    fault: PointerFault,
    ended: Ended,
) -> bool {
    let (bodies, freed) = (&run.history.bodies, ended.at.number());
    let (name, other) = (page.word(freed, 1), page.word(line, 1));
    let is_same = match (name.split('.').nth(1), other.split('.').nth(1)) {
        (Some(field), Some(again)) => field == again,
        _ => name == other && bodies.body_of(freed) == bodies.body_of(line),
    };
    is_same && bodies.body_of(freed).kind != BodyKind::Destructor && frees(run, fault)
}

/// What to do about a pointer whose cell was freed or deleted by a line.
fn cure_of_line(
    run: &WatchedRun<'_>,
    line: u32,
    fault: PointerFault,
    ended: Ended,
) -> &'static str {
    let body = run.history.bodies.body_of(ended.at.number());
    let is_in_destructor = body.kind == BodyKind::Destructor;
    match ended.end {
        End::Deleted if !frees(run, fault) => {
            "delete the object after its last use: this line still uses it"
        }
        _ if !frees(run, fault) => "free the cell after its last use: this line still uses it",
        _ if is_in_destructor && ended.at.number() == line => {
            "two objects name it: let only one of them own it"
        }
        _ if is_in_destructor && run.history.bodies.body_of(line) == body => {
            "the destructor does it twice: a cell has one owner, so let one of the two lines go, or give each field a cell of its own"
        }
        _ if is_in_destructor && left_owner(run, fault).is_some() => {
            "its field and this pointer both owned it when the leave came: let the field get it only after the last line that may leave, and free it here where that line left"
        }
        _ if is_in_destructor => {
            "the destructor has done this already: leave it to one of the two"
        }
        End::Deleted => {
            "set the pointer to null when its object is deleted: deleting null does nothing"
        }
        End::Freed | End::Moved => {
            "set the pointer to null, for example with `null`, when its cell is freed: freeing null does nothing"
        }
    }
}

/// How the life of an object ended, if a field of the object was the last pointer that was set to the cell, and the cleanup stack destroyed
/// the object because of a leave; `None` otherwise.
fn left_owner(run: &WatchedRun<'_>, fault: PointerFault) -> Option<Ended> {
    match fault.state {
        PointerState::Gone(Some(life)) => owner_left(run, life),
        PointerState::Gone(None) | PointerState::Null => None,
    }
}
