//! Why a run gives no result.

use wb_basics::memory::NoMemory;

/// Why a run gives no result.
#[derive(Clone, Copy, Debug, PartialEq, Eq)]
pub enum RunFault {
    /// The workbench's own memory ran out. An attempt that fails in the simulated heap never gives this fault.
    NoMemory = 1,
    /// The shape has a minimum length or a growth step that no heap may have.
    BadShape = 2,
}

impl From<NoMemory> for RunFault {
    ghost use Rattle.std.specs.Prelude.{◌≡◌};
    ghost use Rattle.wb_machine.specs.declared.fault.RunFault.TheVariants as faults;

    ghost from_gives = { λ _ fault. fault ≡ faults.NoMemory };

    fn from(_error: NoMemory) -> RunFault {
        RunFault::NoMemory
    }
}
