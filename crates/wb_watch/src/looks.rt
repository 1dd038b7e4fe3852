//! Single looks at a machine between two machine turns.

use crate::raised::raised_by;
use wb_heap_model::heap::{Header, Ptr};
use wb_history::Raiser;
use wb_machine::Machine;

/// Returns whether the statement that was begun last has itself panicked. A later panic at the end of the statement's block or body doesn't
/// count.
pub fn has_panicked(machine: &Machine<'_>) -> bool {
    match raised_by(machine) {
        Some(raised) => match raised.raiser {
            Raiser::Statement | Raiser::Holder => true,
            Raiser::TrapEnd | Raiser::MainEnd | Raiser::Item | Raiser::Release => false,
        },
        None => false,
    }
}

/// Returns the live cell at a place; `None` if none begins there.
pub fn live_at(machine: &Machine<'_>, place: u32) -> Option<Header> {
    let cell = machine.next_live(place)?;
    if cell.place == place {
        Some(cell)
    } else {
        None
    }
}

/// Returns whether no live cell other than `own` has any of the bytes from place `from` up to place `until`. The caller makes sure that no
/// other cell that begins below `from` reaches into these bytes.
pub fn are_free_but_for(machine: &Machine<'_>, own: Header, from: u32, until: u32) -> bool {
    let first = machine.next_live(from);
    let other = match first {
        Some(cell) if cell.number == own.number => {
            machine.next_live(own.place.saturating_add(own.length))
        }
        _ => first,
    };
    match other {
        Some(cell) => until <= cell.place,
        None => true,
    }
}

/// Returns whether a pointer names a live cell.
pub fn is_live(machine: &Machine<'_>, pointer: Ptr) -> bool {
    match live_at(machine, pointer.place) {
        Some(cell) => cell.number == pointer.number,
        None => false,
    }
}
