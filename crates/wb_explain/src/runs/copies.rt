//! What to do about a pointer that a line copied, if the copy or its source still named a cell after the end of the cell's life.

use crate::runs::pointers::frees;
use crate::runs::script_page::ScriptPage;
use wb_history::{BodyKind, End, Ended, PointerWrite, WatchedRun};

/// Writes what to do about a pointer that a line copied, if the copy or its source still named a cell after the end of the cell's life.
pub fn put_cure_of_copied(
    page: &mut ScriptPage<'_>,
    write: PointerWrite,
    ended: Ended,
    run: &WatchedRun<'_>,
) {
    if let Some(late) = late_use(page, write, ended, run) {
        return put_cure_of_late(page, late, ended, run);
    }
    let line = ended.at.number();
    let name = page.word(write.line, if write.was_dead { 2 } else { 1 });
    page.page.write(format_args!(
        "`{name}` still named it after line {line}: give it another value there, or null"
    ));
    if !write.was_dead && run.end.pointer.is_some_and(|it| !frees(run, it)) {
        page.page.write(format_args!(", or let line {line} come after the last use of `{name}`"));
    }
}

/// Returns the line that led to a use of a dead cell and stands below the line that ended the cell's life, in the same body: if the two
/// lines are exchanged, the cell is still there for its last use. `None` if there is no such line. `None` also if the use is a release of
/// the cell or comes of a leave, if a line looked whether the pointer is null, or if the pointer was copied before the cell's life ended
/// and no destructor uses the cell.
fn late_use(
    page: &ScriptPage<'_>,
    write: PointerWrite,
    ended: Ended,
    run: &WatchedRun<'_>,
) -> Option<u32> {
    let fault = run.end.pointer?;
    let user = run.end.path.last().copied()?;
    let (bodies, freed) = (&run.history.bodies, ended.at.number());
    let is_late = write.was_dead || bodies.body_of(user).kind == BodyKind::Destructor;
    if !is_late || frees(run, fault) || is_for_leave(run) || is_looked_at(page, write, user, run) {
        return None;
    }
    for at in run.end.path.as_slice() {
        if freed < *at && bodies.body_of(*at) == bodies.body_of(freed) {
            return Some(*at);
        }
    }
    None
}

/// Whether the line that was begun last outside of operations and destructors is the line that left last.
fn is_for_leave(run: &WatchedRun<'_>) -> bool {
    match run.history.traps.last_leave() {
        Some(leave) => leave.at.line == run.history.last_line_outside(),
        None => false,
    }
}

/// Whether a line looks if a copied pointer, or the pointer that it was copied from, is null. The line stands above the line `user`, in the
/// same body.
fn is_looked_at(
    page: &ScriptPage<'_>,
    write: PointerWrite,
    user: u32,
    run: &WatchedRun<'_>,
) -> bool {
    let bodies = &run.history.bodies;
    let body = bodies.body_of(user);
    let (copy, source) = (page.word(write.line, 1), page.word(write.line, 2));
    for at in body.line..user {
        let name = page.word(at, 2);
        let is_look = page.word(at, 0) == "if" && (name == copy || name == source);
        if is_look && bodies.body_of(at) == body {
            return true;
        }
    }
    false
}

/// Writes that the line `late` uses what a line above it has already ended, and that this line should come later.
fn put_cure_of_late(page: &mut ScriptPage<'_>, late: u32, ended: Ended, run: &WatchedRun<'_>) {
    let freed = ended.at.number();
    let deed = match ended.end {
        End::Deleted => "deleted",
        End::Freed | End::Moved => "freed",
    };
    let user = run.end.path.last().copied().unwrap_or(late);
    let is_in_destructor = run.history.bodies.body_of(user).kind == BodyKind::Destructor;
    let what = if page.word(late, 0) == "delete" && is_in_destructor {
        "deletes an object whose destructor still uses"
    } else {
        "still uses"
    };
    page.page.write(format_args!(
        "line {late} {what} what line {freed} {deed}: let line {freed} come after that"
    ));
}
