//! The error for a workbench that itself runs out of memory. A full simulated heap never causes it.

use std::alloc::AllocError;

/// The workbench's own memory ran out: an allocation that the program needed for itself failed. A `NoMemory` is made only from an
/// `AllocError`. Code that receives a `NoMemory` passes it on, or stores it in a variant of its own error. `tools/no-memory.txt` lists the
/// function bodies that construct a `NoMemory` themselves.
#[derive(Clone, Copy, Debug, PartialEq, Eq)]
pub struct NoMemory(AllocError);

impl From<AllocError> for NoMemory {
    ghost from_gives = { λ _ _. Unit {0} };

    fn from(error: AllocError) -> NoMemory {
        NoMemory(error)
    }
}

impl From<NoMemory> for AllocError {
    ghost from_gives = { λ _ _. Unit {0} };

    fn from(error: NoMemory) -> AllocError {
        error.0
    }
}
