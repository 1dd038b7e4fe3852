//! One read and one write, and whether they failed. The callers decide what is read and written, and how often.
//!
//! What a read or a write does to a stream is a relation that contracts name without looking into it. So a body that reads again, after a
//! failed read or at the end of the source, is never taken for a body that reads once.

ghost use Rattle.std.specs.Prelude.{◌<◌, ◌≤◌, ℕ, List, Bool, Option, ⊤, length, IfOk, is_err};
ghost use Rattle.std.specs.Io.{ReadsAtMost, WritesAtMost};
ghost use Rattle.std.specs.Io.KnownBytes.{ReadConsumes, WriteAppends};
ghost use Rattle.wb_streams.specs.Streams.{Came, came_to, takes_nothing};

use std::io;
use std::io::{Read, Write};

/// A read or a write failed.
#[derive(Clone, Copy, Debug, PartialEq, Eq)]
pub struct StreamFault;

/// A stream that bytes are read from.
pub trait Source {
    /// The bytes that are still to be read; `None` if they aren't known.
    ghost remaining: { Self → Option (List ℕ) };

    /// What one read does, as a relation between the source before the read, the result of the read, and the source after it.
    ghost reads: { Self → Came → Self → Type 0 };

    /// One call of the system's `read`.
    fn read_once(&mut self, buffer: &mut [u8]) -> io::Result<usize>
        ensures bound { ReadsAtMost result buffer.new }
        ensures bytes { ReadConsumes (remaining self.old) (remaining self.new) result buffer.new }
        ensures once { reads self.old (came_to result) self.new };
}

impl<R: Read> Source for R {
    ghost remaining = { R.Read.remaining };

    ghost reads = { λ _ _ _. ⊤ };

    fn read_once(&mut self, buffer: &mut [u8]) -> io::Result<usize> {
        self.read(buffer)
    }
}

/// A stream that bytes are written to.
pub trait Sink {
    /// The bytes that the sink holds; `None` if they aren't known.
    ghost contents: { Self → Option (List ℕ) };

    /// What one write does, as a relation between the sink before the write, whether the write fails, and the sink after it.
    ghost writes: { Self → Bool → Self → Type 0 };

    /// One call of the system's `write`.
    fn write_once(&mut self, bytes: &[u8]) -> io::Result<usize>
        ensures bound { WritesAtMost result bytes.now }
        ensures bytes { WriteAppends (contents self.old) (contents self.new) result bytes.now }
        ensures once { writes self.old (takes_nothing result) self.new };
}

impl<W: Write> Sink for W {
    ghost contents = { W.Write.contents };

    ghost writes = { λ _ _ _. ⊤ };

    fn write_once(&mut self, bytes: &[u8]) -> io::Result<usize> {
        self.write(bytes)
    }
}

/// Reads once into a buffer that isn't empty, and returns how many bytes came. The number 0 means that the source is at its end and has
/// nothing more to read. An error of the source is a `StreamFault`, even if the read was merely interrupted.
pub fn read_some<R: Source>(reader: &mut R, buffer: &mut [u8]) -> Result<usize, StreamFault>
    requires { 0 < length buffer.old }
    ensures bound { ReadsAtMost result buffer.new }
    ensures bytes { ReadConsumes (R.remaining reader.old) (R.remaining reader.new) result
        buffer.new }
    ensures once { R.reads reader.old (came_to result) reader.new }
{
    match reader.read_once(buffer) {
        Ok(count) => Ok(count),
        Err(_) => Err(StreamFault),
    }
}

/// Writes once, from at least one byte. Returns how many bytes the sink took, which is at least one. An error of the sink is a
/// `StreamFault`, and so is a call that took no byte.
pub fn write_some<W: Sink>(writer: &mut W, bytes: &[u8]) -> Result<usize, StreamFault>
    requires { 0 < length bytes.now }
    ensures bound { IfOk result (λ n. (0 < n) × (n ≤ length bytes.now)) }
    ensures bytes { WriteAppends (W.contents writer.old) (W.contents writer.new) result bytes.now }
    ensures once { W.writes writer.old (is_err result) writer.new }
{
    match writer.write_once(bytes) {
        Ok(count) if count > 0 => Ok(count),
        _ => Err(StreamFault),
    }
}
