//! Why the calls end early.

use std::io;
use wb_basics::memory::NoMemory;

/// Why the calls end early.
#[derive(Clone, Copy, Debug)]
pub(crate) enum Stop {
    /// A call returned `NoMemory` when it was made for the second time.
    NoMemory,
    /// A line couldn't be written.
    NotWritten,
}

impl From<NoMemory> for Stop {
    ghost from_gives = { λ _ _. Unit {0} };

    fn from(_error: NoMemory) -> Stop {
        Stop::NoMemory
    }
}

impl From<io::Error> for Stop {
    ghost from_gives = { λ _ _. Unit {0} };

    fn from(_error: io::Error) -> Stop {
        Stop::NotWritten
    }
}
