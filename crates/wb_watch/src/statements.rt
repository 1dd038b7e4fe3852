//! What a statement's pointers name before the statement begins, and what the statement does with them.

use wb_heap_model::heap::{Answer, Attempt, Item, KERR_NO_MEMORY, Ptr};
use wb_history::{NULL, Variable, edited_by, pointers_of};
use wb_machine::Machine;
use wb_tree::script::{Holder, Pointer, Refusal, Statement, Writable};

/// A statement that the next machine turn is to begin, and what its pointers name before that turn.
#[derive(Clone, Copy)]
pub struct Ahead<'a> {
    pub statement: &'a Statement,
    /// The pointer that the statement writes; `None` if it writes none.
    pub written: Option<Variable>,
    /// What is named by the pointer that the statement reads; null if the statement reads none.
    pub source: Ptr,
    /// The pointer that the statement copies or returns, if this pointer is null; `None` otherwise.
    pub(crate) null: Option<Variable>,
    /// How many turns a `repeat` is to take, or how many items a `popdestroy` is to destroy, if it doesn't panic; 0 for other statements.
    pub(crate) rest: u32,
    /// The code with which the operand makes the statement leave, without any attempt; `None` if the operand doesn't make it leave.
    leaves: Option<i32>,
}

impl<'a> Ahead<'a> {
    /// Looks at the statement that the machine's next turn begins; `None` if that turn begins none.
    pub fn of(machine: &Machine<'a>) -> Option<Ahead<'a>> {
        Some(Ahead::with(machine, machine.next_statement()?))
    }

    /// Looks at a statement that the machine is to begin.
    pub(crate) fn with(machine: &Machine<'a>, statement: &'a Statement) -> Ahead<'a> {
        let pointers = pointers_of(statement);
        let source = names_of(machine, pointers.source);
        Ahead {
            statement,
            written: written_by(machine, pointers.target),
            source,
            null: null_copied(machine, statement, source),
            rest: rest_of(machine, statement),
            leaves: leaves_by_operand(machine, statement, source),
        }
    }

    /// Whether the statement leaves, given the attempt that it made, if any.
    pub fn leaves(&self, attempt: Option<Attempt>) -> bool {
        let is_refused = match attempt {
            Some(attempt) => attempt.answer != Answer::Granted,
            None => false,
        };
        self.leaves.is_some() || is_refused && leaves_if_refused(self.statement)
    }

    /// Returns the code with which the statement leaves, if it leaves.
    pub fn code(&self) -> i32 {
        self.leaves.unwrap_or(KERR_NO_MEMORY)
    }

    /// The item that the statement pushes; `None` if it pushes none.
    pub fn item(&self) -> Option<Item> {
        match self.statement {
            Statement::Push(_) => Some(Item::Free(self.source)),
            Statement::PushObject(_) => Some(Item::Delete(self.source)),
            Statement::PushOperation(_, operation) => Some(Item::Call(self.source, *operation)),
            _ => None,
        }
    }

    /// Whether the statement reallocates.
    pub fn reallocates(&self) -> bool {
        matches!(
            self.statement,
            Statement::Realloc(..) | Statement::ReallocText(..)
        )
    }
}

/// The pointer that a statement copies or returns, if this pointer is null; `None` otherwise. `source` is what the pointer names.
fn null_copied(machine: &Machine<'_>, statement: &Statement, source: Ptr) -> Option<Variable> {
    match statement {
        Statement::Set(_, pointer) | Statement::ReturnPointer(pointer) if source == NULL => {
            written_by(machine, Some(*pointer))
        }
        _ => None,
    }
}

/// The pointer that a statement writes, if any, and what this pointer names; `None` for `self`, which no statement writes.
#[inline(always)]
pub(crate) fn written_by(machine: &Machine<'_>, target: Option<Pointer>) -> Option<Variable> {
    let target = target?;
    let (owner, index) = match target {
        Pointer::Held(Holder::Local(index)) => (NULL, index),
        Pointer::Field(holder, _, index) => (machine.pointer(Pointer::Held(holder)), index),
        Pointer::Held(Holder::This) => return None,
    };
    Some(Variable {
        owner,
        index,
        names: machine.pointer(target),
    })
}

/// What a pointer names; null if there is no pointer.
#[inline(always)]
fn names_of(machine: &Machine<'_>, pointer: Option<Pointer>) -> Ptr {
    match pointer {
        Some(pointer) => machine.pointer(pointer),
        None => NULL,
    }
}

/// Looks at the pointer that the last begun statement reads, or through which the statement accesses a cell or a text. Returns what this
/// pointer names; null if there is no such pointer.
pub fn last_read(machine: &Machine<'_>) -> Ptr {
    let Some(statement) = machine.statement() else {
        return NULL;
    };
    if let Statement::Store(pointer, ..) | Statement::Load(_, pointer, _) = statement {
        return machine.pointer(*pointer);
    }
    match edited_by(statement) {
        Some(Writable::InCell(pointer)) => machine.pointer(pointer),
        Some(Writable::OwnBuffer(_)) => NULL,
        None => names_of(machine, pointers_of(statement).source),
    }
}

/// How many turns a `repeat` is to take, or how many items a `popdestroy` is to destroy, if it doesn't panic; 0 for other statements.
fn rest_of(machine: &Machine<'_>, statement: &Statement) -> u32 {
    match statement {
        Statement::Repeat(number, _) | Statement::PopDestroy(number) => {
            u32::try_from(machine.number(*number)).unwrap_or(0)
        }
        _ => 0,
    }
}

fn leaves_by_operand(machine: &Machine<'_>, statement: &Statement, source: Ptr) -> Option<i32> {
    match statement {
        Statement::Leave(number) => Some(machine.number(*number)),
        Statement::LeaveIfError(number) => below_zero(machine.number(*number)),
        Statement::LeaveIfNull(_) if source.number == 0 => Some(KERR_NO_MEMORY),
        _ => None,
    }
}

fn below_zero(number: i32) -> Option<i32> {
    if number < 0 { Some(number) } else { None }
}

fn leaves_if_refused(statement: &Statement) -> bool {
    match statement {
        Statement::Alloc(_, _, Refusal::Leaves)
        | Statement::Realloc(_, _, _, Refusal::Leaves)
        | Statement::New(_, _, Refusal::Leaves)
        | Statement::NewText(_, _, Refusal::Leaves)
        | Statement::Push(_)
        | Statement::PushObject(_)
        | Statement::PushOperation(..) => true,
        _ => false,
    }
}
