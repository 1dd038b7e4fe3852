//! The error of an append to a text.

ghost use Rattle.std.specs.Prelude.{IsOk, OnOk};

use std::alloc::AllocError;
use std::io;
use wb_basics::memory::NoMemory;

/// Turns the error of an append, whatever it is, into `NoMemory`: an append fails only if the text can't grow.
pub fn or_no_memory(put: io::Result<()>) -> Result<(), NoMemory>
    ensures { OnOk result (IsOk put) }
{
    match put {
        Ok(()) => Ok(()),
        Err(_) => Err(NoMemory::from(AllocError)),
    }
}
