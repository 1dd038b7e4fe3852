//! Which cells a failed heap check counted. They are read from the machine that the check stopped.

use std::alloc::{AllocError, Global};
use wb_heap_model::heap::{Kind, Panic};
use wb_history::Counted;
use wb_machine::Machine;
use wb_tree::script::{Number, Statement};

/// Returns the cells counted by the heap check whose panic ended the run; `None` if no check failed. The only error is that memory ran out.
pub fn counted_by(machine: &Machine<'_>, alloc: Global) -> Result<Option<Counted>, AllocError> {
    let Some((is_of_all, number)) = failed_check(machine) else {
        return Ok(None);
    };
    let mut counted = Counted {
        expected: machine.number(number),
        found: 0,
        cells: Vec::new(alloc),
    };
    let level = machine.level();
    let (count, _) = machine.alloc_size();
    let mut place = 0;
    for _ in 0..count {
        let Some(cell) = machine.next_live(place) else {
            break;
        };
        place = cell.place.saturating_add(cell.length);
        if cell.kind != Kind::Cleanup && (is_of_all || cell.level == level) {
            counted.add(cell.pointer())?;
        }
    }
    Ok(Some(counted))
}

/// Whether the check that failed counts the cells of all levels, and the operand that says how many cells it expects; `None` if no check
/// failed.
fn failed_check(machine: &Machine<'_>) -> Option<(bool, Number)> {
    let Panic::Alloc(_) = machine.raised_panic()?.panic else {
        return None;
    };
    match machine.statement()? {
        Statement::CheckAll(number) => Some((true, *number)),
        Statement::Check(number) | Statement::MarkEnd(number) => Some((false, *number)),
        _ => None,
    }
}
