//! What a statement did: which cell it got, freed or changed, which value it had, and which items it pushed or popped.

use crate::before::{Before, Value};
use crate::open::Open;
use crate::rows::Rows;
use wb_heap_model::heap::{Answer, Attempt, Header, Kind, Ptr};
use wb_machine::Machine;
use wb_tree::script::Statement;
use wb_watch::{Ahead, live_at};

/// Says what became of an attempt. `before` is the cell that the attempt was to make longer; `None` if the attempt was for a new cell.
pub(crate) fn put_attempt(
    rows: &mut Rows,
    machine: &Machine<'_>,
    attempt: Attempt,
    before: Option<Header>,
    open: &mut Open,
) {
    rows.effect_text("attempt ");
    rows.number(attempt.number);
    match attempt.answer {
        Answer::Granted => put_granted(rows, machine, attempt, before, open),
        Answer::Simulated => rows.text(" is made to fail: "),
        Answer::Refused => rows.text(" is denied: "),
    }
    put_bytes(rows, attempt.length, attempt.place);
}

/// Says which cell an attempt was granted: a new cell, a cell that moved, or a cell that became longer at its place.
fn put_granted(
    rows: &mut Rows,
    machine: &Machine<'_>,
    attempt: Attempt,
    before: Option<Header>,
    open: &mut Open,
) {
    let cell = live_at(machine, attempt.place);
    if attempt.number > 1 && cell.is_some_and(|it| it.kind == Kind::Cleanup) {
        put_stack(rows, attempt.place, open.move_stack(attempt.place));
        return;
    }
    match (cell, before) {
        (Some(cell), _) if cell.number != attempt.number => {
            rows.text(" makes ");
            put_name(rows, cell.number);
            rows.text(" longer: ");
        }
        (Some(_), Some(before)) => {
            rows.text(" moves ");
            put_name(rows, before.number);
            rows.text(" from place ");
            rows.number(before.place);
            rows.text(": ");
        }
        _ => rows.text(" is granted: "),
    }
}

/// Says that the cell of the cleanup stack is longer. If the cell moved, also says its old place.
fn put_stack(rows: &mut Rows, place: u32, before: u32) {
    if place == before {
        rows.text(" makes the cleanup stack longer: ");
    } else {
        rows.text(" moves the cleanup stack from place ");
        rows.number(before);
        rows.text(": ");
    }
}

/// Names a cell by the number of the attempt that made the cell or moved it last.
fn put_name(rows: &mut Rows, number: u32) {
    rows.text("cell ");
    rows.number(number);
}

fn put_bytes(rows: &mut Rows, length: u32, place: u32) {
    rows.number(length);
    rows.text(" bytes at place ");
    rows.number(place);
}

/// Says that a cell is freed.
pub(crate) fn put_freed(rows: &mut Rows, cell: Header) {
    rows.effect_text("frees ");
    put_name(rows, cell.number);
    rows.text(": ");
    put_bytes(rows, cell.length, cell.place);
}

/// Says what becomes of the cell that a pointer frees. The pointer may be null.
pub(crate) fn put_free(rows: &mut Rows, pointer: Ptr, cell: Option<Header>) {
    match cell {
        Some(cell) => put_freed(rows, cell),
        None if pointer.number == 0 => rows.effect_text("null: nothing to free"),
        None => {}
    }
}

/// Says which cell a pointer names.
pub(crate) fn put_pointer(rows: &mut Rows, pointer: Ptr) {
    if pointer.number == 0 {
        rows.text("null");
    } else {
        put_name(rows, pointer.number);
        rows.text(" at place ");
        rows.number(pointer.place);
    }
}

/// Says what a statement did, if it hasn't panicked. `effects` says what a leave does, and which items are destroyed because of a leave.
pub(crate) fn put_statement<'a>(
    rows: &mut Rows,
    machine: &Machine<'a>,
    before: &Before<'a>,
    ahead: Ahead<'a>,
    open: &mut Open,
) {
    if let Some(attempt) = before.attempt(machine) {
        let cell = if ahead.reallocates() {
            before.cell
        } else {
            None
        };
        put_attempt(rows, machine, attempt, cell, open);
        if attempt.answer != Answer::Granted && !ahead.leaves(Some(attempt)) {
            rows.effect_text("gives null");
        }
        return;
    }
    match ahead.statement {
        Statement::Free(_) => put_free(rows, ahead.source, before.cell),
        Statement::Delete(_) if ahead.source.number == 0 => {
            rows.effect_text("null: nothing to delete")
        }
        Statement::Delete(_) => put_named(rows, "deletes ", ahead.source),
        Statement::ReturnPointer(_) => put_named(rows, "returns ", ahead.source),
        Statement::Set(..) => put_named(rows, "is ", ahead.source),
        Statement::Realloc(..) | Statement::ReallocText(..) => {
            put_shorter(rows, machine, before.cell)
        }
        _ => put_value(rows, ahead.statement, before.value),
    }
}

fn put_named(rows: &mut Rows, verb: &str, pointer: Ptr) {
    rows.effect_text(verb);
    put_pointer(rows, pointer);
}

/// Says what became of a cell that a statement reallocated without an attempt.
fn put_shorter(rows: &mut Rows, machine: &Machine<'_>, before: Option<Header>) {
    let Some(before) = before else {
        return;
    };
    let Some(cell) = live_at(machine, before.place) else {
        return;
    };
    let is_shorter = cell.length < before.length;
    rows.effect_text(if is_shorter { "makes " } else { "leaves " });
    put_name(rows, cell.number);
    rows.text(if is_shorter {
        " shorter: "
    } else {
        " as long: "
    });
    put_bytes(rows, cell.length, cell.place);
}

/// Says which value a statement's numbers or its condition had.
fn put_value(rows: &mut Rows, statement: &Statement, value: Value) {
    match (statement, value) {
        (_, Value::None) => {}
        (_, Value::Holds(true)) => rows.effect_text("yes"),
        (_, Value::Holds(false)) => rows.effect_text("no"),
        (Statement::PopDestroy(_), Value::Number(count)) => {
            rows.effect_text("destroys ");
            put_count(rows, count, "item");
        }
        (Statement::Repeat(..), Value::Number(count)) => {
            rows.effect();
            put_count(rows, count, "turn");
        }
        (
            Statement::SetNumber(..)
            | Statement::Add(..)
            | Statement::AllocLen(..)
            | Statement::GetLength(..)
            | Statement::GetMaximum(..),
            Value::Number(number),
        ) => {
            rows.effect_text("is ");
            rows.value(number);
        }
        _ => {}
    }
}

/// Writes a count of things.
pub(crate) fn put_count(rows: &mut Rows, count: i64, thing: &str) {
    rows.value(count);
    rows.text(" ");
    rows.text(thing);
    if count != 1 {
        rows.text("s");
    }
}
