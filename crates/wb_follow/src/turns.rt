//! The machine turns of a run that is followed, each as a row, up to the run's end.

use crate::before::Before;
use crate::begun::{Begun, What};
use crate::calls::{Did, done_by, gives_null, put_arguments};
use crate::effects::put_effects;
use crate::endings::Ending;
use crate::open::{Doomed, ItemAt, Open};
use crate::rows::{RowSink, Rows};
use crate::window::Window;
use wb_basics::memory::NoMemory;
use wb_heap_model::heap::{Item, Kind};
use wb_history::ScriptLines;
use wb_machine::{Machine, Turn};
use wb_tree::script::Script;

/// The run that is followed: its script, how the run ends, and which of its steps are shown.
#[derive(Clone, Copy)]
pub(crate) struct Plan<'s> {
    pub(crate) lines: &'s ScriptLines<'s>,
    pub(crate) script: &'s Script,
    pub(crate) ending: Ending,
    pub(crate) window: Window,
    pub(crate) budget: u32,
}

/// How many bodies ran when the last row began, and what the last row's statement did, as far as this matters for the next row.
#[derive(Clone, Copy)]
struct Last {
    depth: u32,
    did: Did,
}

/// Lets the machine take its turns, and writes a row for each turn. The machine takes at most one turn for each step of the budget, and two
/// more: the first turn, and the turn that ends the run. Returns `false` if the sink takes no more rows. The only error is that memory ran
/// out.
pub(crate) fn follow_turns<'a, O: RowSink>(
    machine: &mut Machine<'a>,
    open: &mut Open,
    plan: Plan<'_>,
    rows: &mut Rows,
    sink: &mut O,
) -> Result<bool, NoMemory> {
    let mut last = Last {
        depth: 1,
        did: Did::Other,
    };
    for _ in 0..=plan.budget.saturating_add(1) {
        let before = Before::of(machine, open.newest());
        let turn = machine.step()?;
        let begun = open.begin(machine, &before)?;
        last = put_turn(rows, machine, &before, begun, open, plan, last);
        if rows.is_long() && !rows.hand_to(sink)? {
            return Ok(false);
        }
        if turn == Turn::Ended {
            break;
        }
    }
    rows.end();
    Ok(true)
}

/// Ends the row of the previous turn, and writes the row of this turn except for its end. The end of a row says in which body the run goes
/// on, and only the next turn shows this.
fn put_turn<'a>(
    rows: &mut Rows,
    machine: &Machine<'a>,
    before: &Before<'a>,
    begun: Begun<'a>,
    open: &mut Open,
    plan: Plan<'_>,
    last: Last,
) -> Last {
    if let What::Nothing = begun.what {
        return last;
    }
    if !matches!(last.did, Did::Left) {
        put_way(rows, last, begun);
    }
    rows.end();
    let step = machine.steps();
    put_left_out(rows, plan.window.left_out(step));
    rows.begin(plan.window.shows(step));
    put_begun(rows, begun, step, plan);
    let is_cut = step == plan.ending.steps && plan.ending.is_at_ceiling();
    let leaves = !is_cut && put_effects(rows, machine, before, begun, open);
    put_arguments(rows, machine, begun, plan);
    Last {
        depth: begun.depth,
        did: if leaves { Did::Left } else { done_by(begun) },
    }
}

/// Says where the run goes on after a row, if the run goes on in another body. The other body is either a body that a call enters, or the
/// caller to which a body returns.
fn put_way(rows: &mut Rows, last: Last, next: Begun<'_>) {
    if gives_null(last.did, last.depth, next) {
        rows.effect_text("returns null");
    }
    if next.depth > last.depth {
        rows.effect_text("enters depth ");
        rows.number(next.depth);
    } else if next.depth < last.depth {
        rows.effect_text("back to line ");
        rows.number(next.after.line);
    }
}

/// Writes a row that says how many steps are left out; nothing if `steps` is 0.
fn put_left_out(rows: &mut Rows, steps: u32) {
    if steps == 0 {
        return;
    }
    rows.begin(true);
    rows.head("..", "..");
    rows.number(steps);
    rows.text(if steps == 1 {
        " step is left out"
    } else {
        " steps are left out"
    });
    rows.end();
}

/// Writes the number of a step, its line, and what the step begins.
fn put_begun(rows: &mut Rows, begun: Begun<'_>, step: u32, plan: Plan<'_>) {
    if let What::Run = begun.what {
        rows.head("0", "");
        rows.text("(the cleanup stack)");
        return;
    }
    rows.head(step, begun.line);
    rows.indent(begun.depth);
    match begun.what {
        What::Statement(_) => rows.statement(plan.lines.line(begun.line)),
        What::TurnOf(repeat) => {
            rows.text("(turn ");
            rows.value(repeat.begun);
            rows.text(" of ");
            rows.value(repeat.turns);
            rows.text(")");
        }
        What::Item(newest) => put_item(rows, newest, plan),
        What::Object(doomed) => put_object(rows, doomed, plan),
        What::Run | What::Nothing => {}
    }
}

/// Names an item by the line that pushed it, and by its operation if it has an operation.
fn put_item(rows: &mut Rows, newest: ItemAt, plan: Plan<'_>) {
    rows.text("(item of line ");
    rows.number(newest.line);
    if let Item::Call(_, operation) = newest.item
        && let Some(operation) = plan.script.operations.get(operation as usize)
    {
        rows.text(": ");
        rows.text(plan.lines.word(operation.line, 1));
    }
    rows.text(")");
}

/// Names an object by its class.
fn put_object(rows: &mut Rows, doomed: Doomed, plan: Plan<'_>) {
    rows.text("(object");
    if let Some(cell) = doomed.cell
        && let Kind::Object(class) = cell.kind
        && let Some(class) = plan.script.classes.get(class as usize)
    {
        rows.text(" of class ");
        rows.text(plan.lines.word(class.line, 1));
    }
    rows.text(")");
}
