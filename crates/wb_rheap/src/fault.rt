//! The errors that calls of the heap return.

use wb_basics::memory::NoMemory;

/// Why a call of the heap returned an error. After an error the heap is as it was.
#[derive(Clone, Copy, Debug, PartialEq, Eq)]
pub enum HeapFault {
    /// The workbench's own memory ran out. A full simulated heap never causes this.
    NoMemory = 1,
    /// The shape has a least length or a growth step that isn't allowed.
    BadShape = 2,
    /// The cell would end past the limit.
    TooShort = 3,
    /// The pointer names no live cell.
    BadCell = 4,
}

impl From<NoMemory> for HeapFault {
    ghost use Rattle.std.specs.Prelude.{◌≡◌};
    ghost use Rattle.wb_rheap.specs.declared.fault.HeapFault.TheVariants.{NoMemory};

    ghost from_gives = { λ _ fault. fault ≡ NoMemory };

    fn from(_error: NoMemory) -> HeapFault {
        HeapFault::NoMemory
    }
}
