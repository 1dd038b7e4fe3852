//! The attempts that a machine makes, as they are kept.

use std::alloc::AllocError;
use wb_heap_model::heap::Attempt;
use wb_history::{Attempts, Maker};
use wb_machine::Machine;

/// Records the attempt that the last machine turn made, and returns this attempt; `None` if the turn made none.
pub(crate) fn see_newest<'a>(
    attempts: &mut Attempts<'a>,
    machine: &Machine<'a>,
) -> Result<Option<Attempt>, AllocError> {
    if attempts.count() >= machine.attempts() {
        return Ok(None);
    }
    see_last(attempts, machine)
}

/// Records the attempt that was made last, and returns it.
#[inline(never)]
fn see_last<'a>(
    attempts: &mut Attempts<'a>,
    machine: &Machine<'a>,
) -> Result<Option<Attempt>, AllocError> {
    let newest = machine.last_attempt();
    if let Some(attempt) = newest {
        let maker = Maker::of(machine.line(), machine.statement());
        attempts.add(attempt, maker, machine.steps())?;
    }
    Ok(newest)
}
