//! What to do about a cell whose last pointer was a local of a body that ended.

use crate::runs::losses::{put_in_place_of_pop, release_of};
use crate::runs::paths::{AfterLine, before_name};
use crate::runs::script_page::ScriptPage;
use wb_history::{BodyKind, Held, Life, WatchedRun};
use wb_tree::script::{Holder, Pointer, Statement};

/// Says which body ended, and what to do. `held` is a local of this body, and was the last pointer that was set to the cell.
pub fn put_out_of_scope(
    page: &mut ScriptPage<'_>,
    life: Life,
    held: Held,
    name: &str,
    run: &WatchedRun<'_>,
) {
    let release = release_of(life.kind);
    let body = run.history.bodies.body_of(held.line.number());
    let (what, owner) = (before_name(body.kind), page.word(body.line, 1));
    let line = held.caller.number();
    let last = run
        .history
        .calls
        .last_line_of(u32::from(held.depth), held.since);
    if last != 0 && returns(run, held) {
        return page.write_cause(format_args!(
            "line {line} doesn't take the pointer that `{owner}` returns: take it with `callto`, and {release}"
        ));
    }
    let (end, otherwise) = (
        AfterLine(last),
        instead_of_freeing(body.kind, page.word(line, 0)),
    );
    page.begin_cause();
    page.page.write(format_args!(
        "`{name}` went out of scope when {what}{owner}`, which line {line} called, ended{end}: "
    ));
    put_in_place_of_pop(page, life);
    page.page
        .write(format_args!("{release} before that{otherwise}"));
    page.page.end_line();
}

/// What a body may do with its own cell instead of freeing the cell. `call` is the first word of the line that called the body.
fn instead_of_freeing(kind: BodyKind, call: &str) -> &'static str {
    match kind {
        BodyKind::Procedure if call != "callto" => "",
        BodyKind::Procedure => ", or return the pointer",
        BodyKind::Construct => ", or keep the pointer in a field",
        BodyKind::Nothing | BodyKind::Destructor | BodyKind::Operation => "",
    }
}

/// Whether the body of this local ended by returning the local's pointer.
fn returns(run: &WatchedRun<'_>, held: Held) -> bool {
    match run.history.calls.statement_at(u32::from(held.depth)) {
        Some(Statement::ReturnPointer(Pointer::Held(Holder::Local(index)))) => {
            *index == held.index
        }
        _ => false,
    }
}
