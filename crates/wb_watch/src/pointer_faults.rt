//! The pointer that a panic is about. It is found on the machine that the panic stopped.

use crate::looks::is_live;
use crate::raised::raised_by;
use crate::statements::written_by;
use wb_heap_model::heap::{Panic, Ptr};
use wb_history::{
    CellName, History, Lives, MOST_OPERANDS, Operand, PointerFault, PointerState, PointerWrite,
    Raised, Raiser, operand_at,
};
use wb_machine::Machine;
use wb_tree::script::{Pointer, Readable};

/// Returns the pointer that is at fault in the panic that ended a run; `None` if the panic is about no pointer.
pub fn pointer_fault(machine: &Machine<'_>, history: &History<'_>) -> Option<PointerFault> {
    let raised = raised_by(machine)?;
    let is_about_pointer = raised.panic == Panic::NULL_OR_STALE || raised.panic == Panic::BAD_CELL;
    if !is_about_pointer {
        return None;
    }
    let statement = machine.statement()?;
    for word in 1..=MOST_OPERANDS {
        if let Some(operand) = operand_at(statement, word)
            && let Some(fault) = fault_of(machine, history, raised, operand)
        {
            return Some(fault);
        }
    }
    None
}

fn fault_of(
    machine: &Machine<'_>,
    history: &History<'_>,
    raised: Raised,
    operand: Operand,
) -> Option<PointerFault> {
    let (pointer, names) = match (raised.raiser, operand.name) {
        (Raiser::Holder, CellName::Read(field) | CellName::Target(field)) => {
            let owner = owner_of(field)?;
            (Some(owner), machine.pointer(owner))
        }
        (Raiser::Statement, CellName::Read(pointer)) => (Some(pointer), machine.pointer(pointer)),
        (Raiser::Statement, CellName::View(index))
            if machine.length(Readable::ViewOf(index)).is_none() => {
            (None, history.views.cell_of(machine.depth(), index))
        }
        _ => return None,
    };
    Some(PointerFault {
        word: operand.word,
        state: state_of(machine, &history.lives, names)?,
        pointer,
        is_owner: raised.raiser == Raiser::Holder,
        write: write_of(machine, history, pointer),
    })
}

/// The write that gave a pointer its value. For a local, only a write by the running body counts. `None` if no such write is known.
fn write_of(
    machine: &Machine<'_>,
    history: &History<'_>,
    pointer: Option<Pointer>,
) -> Option<PointerWrite> {
    history.write_of(written_by(machine, pointer)?, machine.depth())
}

/// The pointer to the object of a field; `None` if the pointer is no field.
fn owner_of(pointer: Pointer) -> Option<Pointer> {
    match pointer {
        Pointer::Held(_) => None,
        Pointer::Field(holder, ..) => Some(Pointer::Held(holder)),
    }
}

/// Why a pointer names no cell; `None` if it names one.
fn state_of(machine: &Machine<'_>, lives: &Lives, pointer: Ptr) -> Option<PointerState> {
    if pointer.number == 0 {
        return Some(PointerState::Null);
    }
    if is_live(machine, pointer) {
        return None;
    }
    Some(PointerState::Gone(lives.find(pointer)))
}
