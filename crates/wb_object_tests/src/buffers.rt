//! Tests of `wb_text` with worked edits of a buffer: what each edit returns, and which units the buffer has afterwards.

ghost use Rattle.std.specs.Prelude.{◌≤◌};

use crate::literals::literal;
use arrayvec::ArrayVec;
use std::alloc::{AllocError, Global};
use std::test::Fail;
use wb_heap_model::heap::Panic;
use wb_text::{Buf, Units, append_bytes, append_units};

/// A change to a buffer.
#[derive(Clone, Copy)]
enum Change {
    Copy(&'static [u8]),
    Append(&'static [u8]),
    Insert(u32, &'static [u8]),
    Delete(u32, u32),
    SetLength(u32),
}

/// A buffer for a number of units, and changes to it that are made one after another.
#[derive(Clone, Copy)]
struct WorkedBuffer {
    max: u8,
    /// Each change with its panic, or `None` if it must not panic, and with the units that the buffer must have afterwards.
    changes: &'static [(Change, Option<Panic>, &'static [u8])],
}

/// Whether a text has exactly these units.
fn reads<U: Units>(text: &U, units: &[u8]) -> bool
    requires { U.can_read text.now }
{
    if text.length() as usize != units.len() {
        return false;
    }
    for at in 0..text.length() {
        if text.unit(at) != u16::from(units[at as usize]) {
            return false;
        }
    }
    true
}

/// Makes a change to a buffer. `source` is the text that the change copies, appends or inserts.
fn change_by<U: Units>(buf: &mut Buf, change: Change, source: &U) -> Result<(), Panic>
    requires { U.can_read source.now }
{
    match change {
        Change::Copy(_) => buf.copy(source),
        Change::Append(_) => buf.append(source),
        Change::Insert(at, _) => buf.insert(at, source),
        Change::Delete(at, count) => buf.delete(at, count),
        Change::SetLength(length) => buf.set_length(length),
    }
}

/// The units that a change copies, appends or inserts.
fn units_of_change(change: Change) -> &'static [u8] {
    match change {
        Change::Copy(units) | Change::Append(units) | Change::Insert(_, units) => units,
        Change::Delete(_, _) | Change::SetLength(_) => b"",
    }
}

/// Whether each change returns the result in the table and leaves the units in the table. Each change is made twice: with a literal as its
/// source, and with another buffer as its source.
fn is_so(alloc: Global, worked: &WorkedBuffer) -> Result<bool, AllocError> {
    let mut by_literals = Buf::new(u32::from(worked.max));
    let mut by_buffers = Buf::new(u32::from(worked.max));
    for (change, panic, units) in worked.changes {
        let letters = units_of_change(*change);
        if letters.len() > 256 {
            return Ok(false);
        }
        let source = literal(alloc, letters)?;
        let mut other = Buf::new(256);
        let filled = other.copy(&source);
        let answers = (
            change_by(&mut by_literals, *change, &source).err(),
            change_by(&mut by_buffers, *change, &other).err(),
        );
        let read = reads(&by_literals, units) && reads(&by_buffers, units);
        if filled.is_err() || answers != (*panic, *panic) || !read {
            return Ok(false);
        }
    }
    Ok(by_literals.max() == u32::from(worked.max))
}

static EDITED: WorkedBuffer = WorkedBuffer {
    max: 8,
    changes: &[
        (Change::Copy(b"abcd"), None, b"abcd"),
        (Change::Insert(1, b"XY"), None, b"aXYbcd"),
        (Change::Delete(4, 99), None, b"aXYb"),
        (Change::Append(b"Yb"), None, b"aXYbYb"),
        (Change::SetLength(8), None, b"aXYbYb\0\0"),
        (Change::SetLength(2), None, b"aX"),
        (Change::SetLength(3), None, b"aX\0"),
    ],
};

static INSERTED: WorkedBuffer = WorkedBuffer {
    max: 255,
    changes: &[
        (Change::Append(b"abc"), None, b"abc"),
        (Change::Insert(3, b"abc"), None, b"abcabc"),
        (Change::Insert(0, b""), None, b"abcabc"),
        (Change::Delete(1, 2), None, b"aabc"),
        (Change::Delete(4, 0), None, b"aabc"),
    ],
};

static REFUSED: WorkedBuffer = WorkedBuffer {
    max: 4,
    changes: &[
        (Change::Copy(b"abc"), None, b"abc"),
        (Change::Copy(b"vwxyz"), Some(Panic::TOO_LONG), b"abc"),
        (Change::Append(b"vwxyz"), Some(Panic::TOO_LONG), b"abc"),
        (Change::Insert(3, b"vwxyz"), Some(Panic::TOO_LONG), b"abc"),
        (
            Change::Insert(4, b"vwxyz"),
            Some(Panic::POSITION_OUT_OF_BOUNDS),
            b"abc",
        ),
        (
            Change::Delete(4, 0),
            Some(Panic::POSITION_OUT_OF_BOUNDS),
            b"abc",
        ),
        (
            Change::Delete(u32::MAX, u32::MAX),
            Some(Panic::POSITION_OUT_OF_BOUNDS),
            b"abc",
        ),
        (Change::SetLength(5), Some(Panic::TOO_LONG), b"abc"),
    ],
};

#[test]
fn worked_buffers(rt: HostRuntime) -> Result<(), Fail> {
    assert!(rt; is_so(rt.alloc(), &EDITED)?);
    assert!(rt; is_so(rt.alloc(), &INSERTED)?);
    assert!(rt; is_so(rt.alloc(), &REFUSED)?);
    Ok(())
}

#[test]
fn appended_runs(rt: HostRuntime) -> Result<(), Fail> {
    let mut units = ArrayVec::new();
    append_bytes(&mut units, b"a~");
    append_units(&mut units, &[0, 65_535]);
    append_units(&mut units, &[]);
    assert!(rt; units.as_slice() == [97, 126, 0, 65_535].as_slice());
    Ok(())
}
