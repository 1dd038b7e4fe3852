//! Which word of a cell a statement stores or loads.

use crate::looks::has_panicked;
use wb_history::WordUse;
use wb_machine::Machine;
use wb_tree::script::{Number, Pointer, Statement};

/// Looks at a statement that the machine is to begin. Returns the word that it is to store, with the number; `None` if it stores none. After
/// the statement, its body may have ended, and with it the pointer by which the statement names the cell.
#[inline(always)]
pub(crate) fn word_ahead(machine: &Machine<'_>, statement: &Statement) -> Option<WordUse> {
    match statement {
        Statement::Store(pointer, index, number) => {
            Some(use_of(machine, *pointer, *index, *number, true))
        }
        _ => None,
    }
}

/// Looks at the statement that was begun last, after its turn. Returns the word that it stored or loaded, with the number; `None` if it
/// neither stored nor loaded, or if it panicked. `ahead` is the word that it was to store.
#[inline(always)]
pub(crate) fn word_used(machine: &Machine<'_>, ahead: Option<WordUse>) -> Option<WordUse> {
    let word = match (ahead, machine.statement()?) {
        (Some(stored), _) => WordUse {
            line: machine.line(),
            step: machine.steps(),
            ..stored
        },
        (None, Statement::Load(int, pointer, index)) => {
            use_of(machine, *pointer, *index, Number::Variable(*int), false)
        }
        (None, _) => return None,
    };
    if has_panicked(machine) {
        None
    } else {
        Some(word)
    }
}

/// The word of a cell that a line names, with this number.
fn use_of(
    machine: &Machine<'_>,
    pointer: Pointer,
    index: Number,
    number: Number,
    is_store: bool,
) -> WordUse {
    WordUse {
        cell: machine.pointer(pointer),
        index: machine.number(index),
        number: machine.number(number),
        line: machine.line(),
        step: machine.steps(),
        is_store,
    }
}
