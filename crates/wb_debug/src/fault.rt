//! Why a debug heap was not made.

use wb_basics::memory::NoMemory;

/// Why a debug heap was not made.
#[derive(Clone, Copy, Debug, PartialEq, Eq)]
pub enum DebugFault {
    /// The workbench's own memory ran out. A full simulated heap never causes this.
    NoMemory = 1,
    /// The shape has a least length or a growth step that isn't allowed.
    BadShape = 2,
}

impl From<NoMemory> for DebugFault {
    ghost use Rattle.std.specs.Prelude.{◌≡◌};
    ghost use Rattle.wb_debug.specs.declared.fault.DebugFault.TheVariants.{NoMemory};

    ghost from_gives = { λ _ fault. fault ≡ NoMemory };

    fn from(_error: NoMemory) -> DebugFault {
        DebugFault::NoMemory
    }
}
