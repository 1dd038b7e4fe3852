//! What a machine shows before a turn, and would no longer show after the turn.

use wb_heap_model::heap::{Attempt, Header, Item, Ptr};
use wb_machine::Machine;
use wb_tree::script::{Condition, Number, Statement};
use wb_watch::{Ahead, live_at};

/// The value of a statement's numbers or of its condition.
#[derive(Clone, Copy, Debug, PartialEq, Eq)]
pub(crate) enum Value {
    /// The statement has no value that the rows show.
    None,
    Number(i64),
    Holds(bool),
}

/// What a machine shows before a turn.
#[derive(Clone, Copy)]
pub(crate) struct Before<'a> {
    /// The statement that the turn will begin; `None` if the turn begins no statement.
    pub(crate) ahead: Option<Ahead<'a>>,
    /// The live cell named by the pointer that the turn's statement reads. If the turn begins no statement, the live cell that the newest
    /// item of the cleanup stack frees. `None` if there is no such cell.
    pub(crate) cell: Option<Header>,
    pub(crate) value: Value,
    pub(crate) steps: u32,
    pub(crate) attempts: u32,
    pub(crate) items: u32,
    pub(crate) level: u32,
    pub(crate) committed: u32,
}

impl<'a> Before<'a> {
    /// Records what a machine shows before a turn. `newest` is the newest item on the machine's cleanup stack.
    pub(crate) fn of(machine: &Machine<'a>, newest: Option<Item>) -> Before<'a> {
        let ahead = Ahead::of(machine);
        let (cell, value) = match ahead {
            Some(ahead) => (
                live_cell(machine, ahead.source),
                value_of(machine, ahead.statement),
            ),
            None => (cell_of(machine, newest), Value::None),
        };
        Before {
            ahead,
            cell,
            value,
            steps: machine.steps(),
            attempts: machine.attempts(),
            items: machine.cleanup_depth(),
            level: machine.level(),
            committed: machine.committed(),
        }
    }

    /// Returns the attempt that the turn made; `None` if the turn made no attempt.
    pub(crate) fn attempt(&self, machine: &Machine<'a>) -> Option<Attempt> {
        if machine.attempts() > self.attempts {
            machine.last_attempt()
        } else {
            None
        }
    }
}

/// Returns the live cell that a pointer names; `None` if the pointer names no live cell.
pub(crate) fn live_cell(machine: &Machine<'_>, pointer: Ptr) -> Option<Header> {
    let cell = live_at(machine, pointer.place)?;
    if cell.number == pointer.number {
        Some(cell)
    } else {
        None
    }
}

/// The live cell that an item frees; `None` if the item frees no live cell.
fn cell_of(machine: &Machine<'_>, item: Option<Item>) -> Option<Header> {
    match item {
        Some(Item::Free(pointer)) => live_cell(machine, pointer),
        Some(Item::Delete(_) | Item::Call(..)) | None => None,
    }
}

fn value_of(machine: &Machine<'_>, statement: &Statement) -> Value {
    match statement {
        Statement::SetNumber(_, number)
        | Statement::Pop(number)
        | Statement::PopDestroy(number)
        | Statement::Leave(number)
        | Statement::LeaveIfError(number)
        | Statement::Repeat(number, _) => Value::Number(i64::from(machine.number(*number))),
        Statement::Add(local, number) => {
            let before = i64::from(machine.number(Number::Variable(*local)));
            Value::Number(before.saturating_add(i64::from(machine.number(*number))))
        }
        Statement::AllocLen(_, pointer) => number_of(machine.bytes(*pointer)),
        Statement::GetLength(_, text) => number_of(machine.length(*text)),
        Statement::GetMaximum(_, text) => number_of(machine.maximum(*text)),
        Statement::If(condition, _) | Statement::IfElse(condition, _, _) => {
            Value::Holds(holds(machine, *condition))
        }
        _ => Value::None,
    }
}

fn number_of(count: Option<u32>) -> Value {
    match count {
        Some(count) => Value::Number(i64::from(count)),
        None => Value::None,
    }
}

fn holds(machine: &Machine<'_>, condition: Condition) -> bool {
    match condition {
        Condition::IsNull(pointer) => machine.pointer(pointer).number == 0,
        Condition::NotNull(pointer) => machine.pointer(pointer).number != 0,
        Condition::Equal(first, second) => machine.number(first) == machine.number(second),
        Condition::Less(first, second) => machine.number(first) < machine.number(second),
    }
}
