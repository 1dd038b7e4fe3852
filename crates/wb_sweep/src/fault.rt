//! Why a sweep has no answer.

use wb_basics::memory::NoMemory;
use wb_meaning::run::Why;
use wb_runs::failures::Failing;

/// Why a sweep has no answer.
#[derive(Debug, Drop)]
pub enum SweepFault {
    /// The minimum length or the growth step is one that no heap may have.
    BadShape,
    /// The run under this failure was cut, and no lesser failure's run was bad or cut.
    Cut { at: Failing, why: Why },
    /// More states were met than were allowed. No set of at most `fine` attempts has a run that is bad or cut. `sweep` never returns this.
    ManyStates { fine: u32 },
    /// The workbench's own memory ran out. This is never a refusal of the simulated heap.
    NoMemory,
}

/// Why a sweep has no answer, if the shape is one that a heap may have.
#[derive(Debug, Drop)]
pub enum Unswept {
    /// The run under this failure was cut, and no lesser failure's run was bad or cut.
    Cut { at: Failing, why: Why },
    /// More states were met than were allowed. No set of at most `fine` attempts has a run that is bad or cut. Only a sweep over all sets
    /// returns this.
    ManyStates { fine: u32 },
    /// The workbench's own memory ran out. This is never a refusal of the simulated heap.
    NoMemory,
}

impl From<NoMemory> for Unswept {
    ghost use Rattle.std.specs.Prelude.{◌≡◌};
    ghost use Rattle.wb_sweep.specs.declared.fault.Unswept.TheVariants as faults;

    ghost from_gives = { λ _ fault. fault ≡ faults.NoMemory };

    fn from(_error: NoMemory) -> Unswept {
        Unswept::NoMemory
    }
}
