//! What a machine turn did, as the words of the turn's row: first what the turn's statement or destruction did, then what followed from it.

use crate::before::Before;
use crate::begun::{Begun, What};
use crate::endings::put_panic;
use crate::open::{ItemAt, Open};
use crate::rows::Rows;
use crate::statements::{put_attempt, put_count, put_free, put_freed, put_pointer, put_statement};
use wb_heap_model::heap::Item;
use wb_machine::Machine;
use wb_watch::{Ahead, has_panicked};

/// Says what a machine turn did, and brings `open` up to date. Returns whether the statement of the turn left.
pub(crate) fn put_effects<'a>(
    rows: &mut Rows,
    machine: &Machine<'a>,
    before: &Before<'a>,
    begun: Begun<'a>,
    open: &mut Open,
) -> bool {
    let mut leaves = false;
    match begun.what {
        What::Run => put_first(rows, machine, before, open),
        What::Statement(ahead) if !has_panicked(machine) => {
            put_statement(rows, machine, before, ahead, open);
            put_items(rows, machine, before);
            leaves = ahead.leaves(before.attempt(machine));
            if leaves {
                put_leave(rows, machine, ahead, open);
            }
        }
        What::Item(newest) => {
            put_item(rows, before, newest);
            put_items(rows, machine, before);
        }
        What::Statement(_) | What::TurnOf(_) | What::Object(_) | What::Nothing => {}
    }
    put_heap(rows, machine, before, open);
    put_ends(rows, machine, open);
    if let Some(raised) = machine.raised_panic() {
        rows.effect();
        put_panic(rows, raised.panic);
    }
    leaves
}

/// Says what became of the run's first attempt.
fn put_first(rows: &mut Rows, machine: &Machine<'_>, before: &Before<'_>, open: &mut Open) {
    if let Some(attempt) = before.attempt(machine) {
        put_attempt(rows, machine, attempt, None, open);
    }
}

/// Says how many items remain on the cleanup stack, if the turn pushed, popped or destroyed items.
fn put_items(rows: &mut Rows, machine: &Machine<'_>, before: &Before<'_>) {
    let items = machine.cleanup_depth();
    if items != before.items {
        rows.effect();
        put_count(rows, i64::from(items), "item");
    }
}

/// Says with which code a statement left, which TRAP caught the leave, and how many items are destroyed because of the leave.
fn put_leave<'a>(rows: &mut Rows, machine: &Machine<'a>, ahead: Ahead<'a>, open: &mut Open) {
    rows.effect_text("leaves with ");
    rows.value(i64::from(ahead.code()));
    match open.leave() {
        Some(trap) => {
            rows.text(", caught by the TRAP of line ");
            rows.number(trap.at.line);
            put_destroyed(rows, machine.cleanup_depth().saturating_sub(trap.items));
        }
        None => {
            rows.text(", out of `main`");
            put_destroyed(rows, machine.cleanup_depth());
        }
    }
}

fn put_destroyed(rows: &mut Rows, items: u32) {
    if items > 0 {
        rows.effect_text("destroys ");
        put_count(rows, i64::from(items), "item");
    }
}

/// Says what the destruction of an item does.
fn put_item(rows: &mut Rows, before: &Before<'_>, newest: ItemAt) {
    match newest.item {
        Item::Free(pointer) => put_free(rows, pointer, before.cell),
        Item::Delete(pointer) => {
            rows.effect_text("deletes ");
            put_pointer(rows, pointer);
        }
        Item::Call(pointer, _) => {
            rows.effect_text("runs its operation on ");
            put_pointer(rows, pointer);
        }
    }
}

/// Says which objects were freed. Also says the new committed length and the new level, each only if it has changed.
fn put_heap(rows: &mut Rows, machine: &Machine<'_>, before: &Before<'_>, open: &mut Open) {
    let (deleted, _) = open.counts();
    for _ in 0..deleted {
        if let Some(cell) = open.next_released(machine) {
            put_freed(rows, cell);
        }
    }
    let committed = machine.committed();
    if committed != before.committed {
        rows.effect_text("committed length ");
        rows.number(committed);
    }
    let level = machine.level();
    if level != before.level {
        rows.effect_text("level ");
        rows.number(level);
    }
}

/// Says which TRAPs ended.
fn put_ends(rows: &mut Rows, machine: &Machine<'_>, open: &mut Open) {
    let (_, traps) = open.counts();
    if traps == 0 {
        return;
    }
    for _ in 0..traps {
        if let Some(trap) = open.next_ended(machine) {
            rows.effect_text("the TRAP of line ");
            rows.number(trap.at.line);
            rows.text(" ends");
        }
    }
}
