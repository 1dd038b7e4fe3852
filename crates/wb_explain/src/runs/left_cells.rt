//! What is said about a cell that a leave lost: where its item was popped, or which field let go of it, and what to do.

use crate::runs::heads::{end_of, head_around};
use crate::runs::let_go::{let_go, let_go_after_copy, put_let_go};
use crate::runs::losses::is_popped_elsewhere;
use crate::runs::operations::{put_operation, put_operation_cure};
use crate::runs::script_page::{ScriptPage, Written};
use wb_heap_model::heap::Kind;
use wb_history::{Leave, Life, WatchedRun};

/// Says where the item of a cell was pushed that a leave lost though the item wasn't popped.
pub fn put_left_item(page: &mut ScriptPage<'_>, life: Life, run: &WatchedRun<'_>) -> Written {
    let pushed = last_pushed(life, run);
    page.mark_new(
        pushed,
        0,
        "its item was pushed here, and the operation didn't free the cell",
    )?;
    put_operation(page, pushed, run)
}

/// Returns the line that pushed the item of a cell that was destroyed last; the last line that pushed the cell, if that item was another cell's.
pub fn last_pushed(life: Life, run: &WatchedRun<'_>) -> u32 {
    match run.history.last_item {
        Some(item) if item.pointer() == life.pointer => item.pushed.line,
        _ => life.pushed.number(),
    }
}

/// Says which line left, and what to do about the cell's item.
pub fn put_left_cure(page: &mut ScriptPage<'_>, leave: Leave, life: Life, run: &WatchedRun<'_>) {
    page.begin_cause();
    page.page.write(format_args!("line {} left", leave.at.line));
    if let Some(trap) = leave.caught {
        page.page
            .write(format_args!(", to the TRAP of line {},", trap.line));
    }
    match (life.popped.is_some(), life.pushed.is_some()) {
        (true, _) => put_popped_cure(page, leave, life, run),
        (false, true) => put_operation_cure(page, life.pushed.number(), run),
        (false, false) => put_unpushed_cure(page, leave, life, run),
    }
    page.page.end_line();
}

/// Writes what to do about a cell that was never pushed. If the block in which the cell was made ends before the cell gets another owner, the
/// item is to be popped before that.
fn put_unpushed_cure(page: &mut ScriptPage<'_>, leave: Leave, life: Life, run: &WatchedRun<'_>) {
    page.page.write_text(" while no item held the cell: push it before that, and pop the item ");
    let held = life.held.map_or(0, |it| it.line.number());
    let block = head_around(page, line_of_leave(leave, life, run)).map(|it| it.line);
    match block {
        Some(head)
            if head_around(page, held).map(|it| it.line) == block
                && page.word(head, 0) == "if"
                && !is_released_in(page, head, page.word(held, 1)) => page
            .page
            .write(format_args!("before the `if` of line {head} ends")),
        _ => page
            .page
            .write_text("when it is freed or has another owner"),
    }
}

/// Whether the block that begins at a line frees or copies the pointer `name`.
fn is_released_in(page: &ScriptPage<'_>, head: u32, name: &str) -> bool {
    (head..end_of(page, head)).any(|at| match page.word(at, 0) {
        "free" | "delete" => page.word(at, 1) == name,
        "set" => page.word(at, 2) == name,
        _ => false,
    })
}

/// Writes what to do about a cell whose item was popped before the leave.
fn put_popped_cure(page: &mut ScriptPage<'_>, leave: Leave, life: Life, run: &WatchedRun<'_>) {
    if let_go(page, life, run).is_some() {
        return put_let_go_cure(page, leave, life, run);
    }
    let (name, callee) = (held_name(page, life), maker_of_result(page, life, run));
    if !callee.is_empty() {
        let (line, push) = (
            life.held.map_or(0, |it| it.line.number()),
            push_of(life.kind),
        );
        return page.page.write(format_args!(
            " when its item was off the cleanup stack: push the result of line {line}, with `{push} {name}`, and pop it when it has another owner; or let `{callee}` keep its item, and pop that then"
        ));
    }
    page.page.write_text(
        " when its item was off the cleanup stack: pop that only when the cell has another owner",
    );
    if is_popped_elsewhere(life, run) {
        page.page
            .write_text("; `popcheck` makes sure that no other item comes off");
    }
}

/// Writes what to do about a cell that a field had owned and let go of before the leave.
fn put_let_go_cure(page: &mut ScriptPage<'_>, leave: Leave, life: Life, run: &WatchedRun<'_>) {
    let (name, push) = (held_name(page, life), push_of(life.kind));
    let until = line_of_leave(leave, life, run);
    page.page.write(format_args!(
        " while no item and no field held the cell: push it before line {until}, with `{push} {name}`, and pop it when its new owner has it"
    ));
}

/// The name of the pointer that was last set to a cell; empty if it isn't known.
fn held_name<'a>(page: &ScriptPage<'a>, life: Life) -> &'a str {
    match life.held {
        Some(held) => page.word(held.line.number(), 1),
        None => "",
    }
}

/// The line that pushes a cell of this kind, by its first word.
fn push_of(kind: Kind) -> &'static str {
    match kind {
        Kind::Object(_) => "pushobj",
        Kind::Raw | Kind::Text | Kind::Cleanup => "push",
    }
}

/// Says which field let go of a cell that was never pushed, before a leave lost it.
pub fn put_unpushed(
    page: &mut ScriptPage<'_>,
    leave: Leave,
    life: Life,
    run: &WatchedRun<'_>,
) -> Written {
    if let Some(let_go) = let_go(page, life, run) {
        return put_let_go(page, let_go);
    }
    let line = let_go_after_copy(page, life, line_of_leave(leave, life, run));
    let name = page.word(line, 1);
    page.mark_new(
        line,
        1,
        format_args!("`{name}` had let go of it by this line"),
    )
}

/// The line by which the leave came about, in the body whose local was last set to the cell; the line that left if there is none.
fn line_of_leave(leave: Leave, life: Life, run: &WatchedRun<'_>) -> u32 {
    let bodies = &run.history.bodies;
    let held = life.held.map_or(0, |it| it.line.number());
    if let Ok(lines) = run.history.calls.lines_of(leave.at.path) {
        for at in lines.as_slice() {
            if bodies.body_of(*at) == bodies.body_of(held) {
                return *at;
            }
        }
    }
    leave.at.line
}

/// The name of the procedure that made a cell, pushed it, popped it, and returned it to the `callto` that set the cell's last pointer; empty
/// if there is no such procedure.
fn maker_of_result<'a>(page: &ScriptPage<'a>, life: Life, run: &WatchedRun<'_>) -> &'a str {
    let (bodies, popped) = (&run.history.bodies, life.popped.number());
    let held = life.held.map_or(0, |it| it.line.number());
    let body = bodies.body_of(popped);
    let name = page.word(held, 2);
    let is_result = page.word(held, 0) == "callto" && page.word(body.line, 1) == name;
    if is_result && bodies.body_of(life.pushed.number()) == body {
        name
    } else {
        ""
    }
}
