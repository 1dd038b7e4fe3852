//! Why a script was not sized.

use wb_basics::memory::NoMemory;
use wb_meaning::run::Why;

/// Why no length of heap that a script needs was found.
#[derive(Clone, Copy, Debug, PartialEq, Eq)]
pub enum SizeFault {
    /// A minimum length or a growth step that no heap may have.
    BadShape,
    /// The run without a limit was cut. `number` is always 0.
    Cut { number: u32, why: Why },
    /// The workbench's own memory ran out. This is never a refusal of the simulated heap.
    NoMemory,
}

/// Why no length of heap that a script needs was found, if the shape is one that a heap may have.
#[derive(Clone, Copy, Debug, PartialEq, Eq)]
pub enum Unsized {
    /// The run without a limit was cut. `number` is always 0.
    Cut { number: u32, why: Why },
    /// The workbench's own memory ran out. This is never a refusal of the simulated heap.
    NoMemory,
}

impl From<NoMemory> for Unsized {
    ghost use Rattle.std.specs.Prelude.{◌≡◌};
    ghost use Rattle.wb_size.specs.declared.fault.Unsized.TheVariants as faults;

    ghost from_gives = { λ _ given. given ≡ faults.NoMemory };

    fn from(_error: NoMemory) -> Unsized {
        Unsized::NoMemory
    }
}
