//! The panic that a machine's run ended with, as a history has it.

use wb_history::{Raised, Raiser};
use wb_machine::Machine;

/// Returns the panic that ended a run, and what raised it; `None` if no panic ended it.
pub(crate) fn raised_by(machine: &Machine<'_>) -> Option<Raised> {
    let raised = machine.raised_panic()?;
    let raiser = match raised.raiser {
        wb_machine::Raiser::Statement => Raiser::Statement,
        wb_machine::Raiser::Holder => Raiser::Holder,
        wb_machine::Raiser::TrapEnd => Raiser::TrapEnd,
        wb_machine::Raiser::MainEnd => Raiser::MainEnd,
        wb_machine::Raiser::Item => Raiser::Item,
        wb_machine::Raiser::Release => Raiser::Release,
    };
    Some(Raised {
        panic: raised.panic,
        raiser,
        depth: raised.depth,
    })
}
