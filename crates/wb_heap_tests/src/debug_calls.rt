//! Calls on a debug heap, each with the answer that it must give. So a table of calls describes a worked debug heap.

ghost use Rattle.std.specs.Prelude.{◌≡◌};

use crate::heap_calls::{Cell, header, pointer};
use crate::rules::Refuses;
use crate::walker;
use crate::walker::Called;
use std::alloc::Global;
use wb_basics::limits::CEILING;
use wb_debug::{DebugFault, DebugHeap};
use wb_heap_model::heap::{Answer, Attempt, Gave, Kind, Panic, Ptr, Shape};
use wb_heap_model::reported::{Leak, Leaks, Note, Trace};

/// A call on a debug heap. The last field is the answer that the call must give. Lengths are in bytes, without the header.
#[derive(Clone, Copy)]
pub(crate) enum Call {
    /// An attempt that must be granted: the bytes, and the granted cell.
    Alloc(u32, Cell),
    /// An attempt to get a cell that must fail.
    NoAlloc(u32),
    AllocPastCeiling(u32),
    /// A reallocation that must be granted: the cell, the bytes, and the cell's new place and allocation number.
    Realloc(Cell, u32, Cell),
    /// A reallocation that must fail.
    NoRealloc(Cell, u32),
    ReallocPastCeiling(Cell, u32),
    Free(Cell),
    /// A call to free a cell by a pointer that names no cell.
    NoFree(Cell),
    Mark,
    /// The panic of the call; `None` if the call must not panic. The next two calls have the same field.
    MarkEnd(u32, Option<Panic>),
    Check(u32, Option<Panic>),
    CheckAll(u32, Option<Panic>),
    FailNext(u32),
    FailEvery(u32),
    FailNone,
    Store(Cell, u32, u32),
    StoreHalf(Cell, u32, u16),
    /// Copies words from the first cell to the second cell. The number says how many words.
    Copy(Cell, Cell, u32),
    /// The index of the first half that becomes 0, and how many halves become 0. A half is 16 bits of a word.
    ZeroHalves(Cell, u32, u32),
    /// The index of the first half that is written, and the halves.
    WriteHalves(Cell, u32, &'static [u16]),
    /// Copies halves from the first cell, from an index on, to an index of the second cell. The last number says how many halves.
    CopyHalves(Cell, u32, Cell, u32, u32),
    /// The index of a word of the payload, and the value that the word must have.
    Word(Cell, u32, u32),
    Half(Cell, u32, u16),
    /// The cell's length, with the header, and the cell's level.
    Header(Cell, u32, u32),
    /// A pointer that names no cell, and so no header.
    NoHeader(Cell),
    Attempts(u32),
    /// The number, length, place and answer of each attempt in the trace.
    Trace(&'static [(u32, u32, u32, Answer)]),
    /// The number, length and place of each live cell.
    Leaks(&'static [(u32, u32, u32)]),
    /// The number of live cells, the bytes that they take together, and the committed length.
    Size(u32, u32, u32),
    Available(u32, u32),
    Compress(u32),
}

/// A debug heap with a rule and a shape, and the calls that are made on it. Attempt 1, which gets the cleanup stack's cell for 128 bytes,
/// is made before these calls.
#[derive(Clone, Copy)]
pub(crate) struct WorkedDebugHeap {
    /// What the calls show, in words.
    pub(crate) about: &'static str,
    pub(crate) rule: Refuses,
    pub(crate) shape: Shape,
    pub(crate) calls: &'static [Call],
}

/// A debug heap, and how many marks are open.
#[derive(Drop)]
pub(crate) struct Marked {
    heap: DebugHeap,
    marks: u32,
    ghost open: { heap.heap.level ≡ marks },
}

/// The index of the first call that gives an answer other than the table's; `None` if there is no such call.
pub(crate) fn first_other(
    alloc: Global,
    worked: &WorkedDebugHeap,
) -> Result<Option<usize>, DebugFault> {
    let mut marked = Marked::new(alloc, worked)?;
    Ok(walker::first_other(&mut marked, worked.calls))
}

impl Called for Marked {
    type Call = Call;

    type Fault = DebugFault;

    /// Whether a call gives the answer in the table.
    fn answers(&mut self, call: Call) -> bool {
        match call {
            Call::Alloc(bytes, cell) => self.alloc(bytes) == Some(grant_of(cell)),
            Call::NoAlloc(bytes) => self.alloc(bytes) == Some(Gave::Denied),
            Call::AllocPastCeiling(bytes) => self.alloc(bytes) == Some(Gave::Ceiling),
            Call::Realloc(cell, bytes, moved) => self.realloc(cell, bytes) == Some(grant_of(moved)),
            Call::NoRealloc(cell, bytes) => self.realloc(cell, bytes) == Some(Gave::Denied),
            Call::ReallocPastCeiling(cell, bytes) => {
                self.realloc(cell, bytes) == Some(Gave::Ceiling)
            }
            Call::Free(cell) => self.heap.release(pointer(cell)) == Ok(()),
            Call::NoFree(cell) => self.heap.release(pointer(cell)) == Err(Panic::BAD_CELL),
            Call::Store(cell, i, v) => self.store(pointer(cell), i, v),
            Call::Copy(from, to, n) => self.copy(pointer(from), pointer(to), n),
            Call::Compress(length) => self.heap.note_compress() == Note::Compress(length),
            _ => self.writes_halves(call),
        }
    }

    fn try_copy(&self) -> Result<Marked, DebugFault> {
        Ok(Marked {
            heap: self.heap.try_copy()?,
            marks: self.marks,
        })
    }

    /// A copy of this heap that takes over the memory of `spare`, a heap that is no longer needed.
    fn try_copy_over(&self, spare: Marked) -> Result<Marked, DebugFault> {
        let (_, heap) = spare.heap.into_trace_and_heap();
        Ok(Marked {
            heap: self.heap.try_copy_over(Some(heap))?,
            marks: self.marks,
        })
    }
}

impl Marked {
    /// A debug heap on which attempt 1 has been made.
    pub(crate) fn new(alloc: Global, worked: &WorkedDebugHeap) -> Result<Marked, DebugFault> {
        let mut marked = Marked {
            heap: DebugHeap::new(alloc, worked.rule.rule(alloc)?, worked.shape)?,
            marks: 0,
        };
        match marked.attempt(128, Kind::Cleanup) {
            Some(_) => Ok(marked),
            None => Err(DebugFault::NoMemory),
        }
    }

    /// Whether a call that writes halves of a payload gives its answer. Other calls are passed on to `sets`.
    fn writes_halves(&mut self, call: Call) -> bool {
        match call {
            Call::StoreHalf(cell, i, v) => self.store_half(pointer(cell), i, v),
            Call::ZeroHalves(cell, i, n) => self.zero_halves(pointer(cell), i, n),
            Call::WriteHalves(cell, i, halves) => self.write_halves(pointer(cell), i, halves),
            Call::CopyHalves(from, fi, other, ti, n) => {
                self.copy_halves(pointer(from), fi, pointer(other), ti, n)
            }
            _ => self.sets(call),
        }
    }

    /// Whether a call that opens or closes a mark, or that sets which attempts fail, gives its answer. Other calls are passed on to
    /// `tells`.
    fn sets(&mut self, call: Call) -> bool {
        match call {
            Call::Mark => self.mark(),
            Call::MarkEnd(n, panic) => self.mark_end(n).err() == panic,
            Call::FailNext(n) if n > 0 => {
                self.heap.fail_next(n);
                true
            }
            Call::FailEvery(n) if n > 0 => {
                self.heap.fail_every(n);
                true
            }
            Call::FailNone => {
                self.heap.fail_none();
                true
            }
            _ => self.tells(call),
        }
    }

    /// Whether a call that changes nothing gives its answer.
    fn tells(&self, call: Call) -> bool {
        match call {
            Call::Check(n, panic) => self.heap.check(n).err() == panic,
            Call::CheckAll(n, panic) => self.heap.check_all(n).err() == panic,
            Call::Word(cell, i, v) => self.word(pointer(cell), i) == Some(v),
            Call::Half(cell, i, v) => self.half(pointer(cell), i) == Some(v),
            Call::Header(cell, length, level) => {
                self.heap.header(pointer(cell)) == Some(header(cell, length, level))
            }
            Call::NoHeader(cell) => self.heap.header(pointer(cell)).is_none(),
            Call::Attempts(n) => self.heap.attempts() == n,
            Call::Trace(lines) => has_lines(self.heap.trace(), lines),
            Call::Leaks(cells) => match self.heap.leaks() {
                Ok(leaks) => has_cells(&leaks, cells),
                Err(_) => false,
            },
            Call::Size(count, bytes, committed) => {
                self.heap.note_heap() == Note::Heap(count, bytes, committed)
            }
            Call::Available(total, longest) => {
                self.heap.note_available() == Note::Available(total, longest)
            }
            _ => false,
        }
    }

    /// Makes an attempt to get a cell. Returns `None` if the attempt can't be made.
    fn attempt(&mut self, bytes: u32, kind: Kind) -> Option<Gave> {
        if self.heap.attempts() == u32::MAX || bytes > CEILING {
            return None;
        }
        self.heap.attempt_alloc(bytes, kind).ok()
    }

    /// Makes an attempt to get a raw cell.
    fn alloc(&mut self, bytes: u32) -> Option<Gave> {
        self.attempt(bytes, Kind::Raw)
    }

    /// Makes an attempt to reallocate a cell. Returns `None` if there is no such cell.
    fn realloc(&mut self, cell: Cell, bytes: u32) -> Option<Gave> {
        let ptr = pointer(cell);
        if self.heap.attempts() == u32::MAX || bytes > CEILING || self.heap.header(ptr).is_none() {
            return None;
        }
        self.heap.attempt_realloc(ptr, bytes).ok()
    }

    /// Opens a mark. Returns `false` if the heap can't have one more mark.
    fn mark(&mut self) -> bool {
        let Some(marks) = self.marks.checked_add(1) else {
            return false;
        };
        self.heap.mark();
        self.marks = marks;
        true
    }

    /// Closes a mark.
    fn mark_end(&mut self, n: u32) -> Result<(), Panic> {
        let closed = self.heap.mark_end(n);
        if closed.is_ok() && self.marks > 0 {
            self.marks -= 1;
        }
        closed
    }

    /// Stores a word. Returns whether the payload has such a word.
    fn store(&mut self, ptr: Ptr, i: u32, v: u32) -> bool {
        match self.heap.header(ptr) {
            Some(header) if i < header.words() => {
                self.heap.set_payload(ptr, i, v);
                true
            }
            _ => false,
        }
    }

    /// Stores 16 bits, which are a half of a word. Returns whether the payload has such a half.
    fn store_half(&mut self, ptr: Ptr, i: u32, v: u16) -> bool {
        match self.heap.header(ptr) {
            Some(header) if i < 2 * header.words() => {
                self.heap.set_payload_half(ptr, i, v);
                true
            }
            _ => false,
        }
    }

    /// Copies `n` words. Returns whether both payloads have at least `n` words.
    fn copy(&mut self, from: Ptr, to: Ptr, n: u32) -> bool {
        match (self.heap.header(from), self.heap.header(to)) {
            (Some(source), Some(target)) if n <= source.words() && n <= target.words() => {
                self.heap.copy_payload(from, to, n);
                true
            }
            _ => false,
        }
    }

    /// Sets `n` halves to 0. Returns whether the payload has `n` halves from index `i` on.
    fn zero_halves(&mut self, ptr: Ptr, i: u32, n: u32) -> bool {
        match self.heap.header(ptr) {
            Some(header) if i <= 2 * header.words() && n <= 2 * header.words() - i => {
                self.heap.zero_halves(ptr, i, n);
                true
            }
            _ => false,
        }
    }

    /// Writes halves. Returns whether the payload has so many halves from index `i` on.
    fn write_halves(&mut self, ptr: Ptr, i: u32, halves: &[u16]) -> bool {
        match self.heap.header(ptr) {
            Some(header) if i <= 2 * header.words() => {
                if halves.len() > (2 * header.words() - i) as usize {
                    return false;
                }
                self.heap.write_halves(ptr, i, halves);
                true
            }
            _ => false,
        }
    }

    /// Copies `n` halves. Returns whether each payload has `n` halves from its index on.
    fn copy_halves(&mut self, from: Ptr, fi: u32, to: Ptr, ti: u32, n: u32) -> bool {
        let (Some(source), Some(target)) = (self.heap.header(from), self.heap.header(to)) else {
            return false;
        };
        let (most, room) = (2 * source.words(), 2 * target.words());
        if fi > most || ti > room || n > most - fi || n > room - ti {
            return false;
        }
        self.heap.copy_halves(from, fi, to, ti, n);
        true
    }

    /// A word of a payload, or `None` if the payload has no such word.
    fn word(&self, ptr: Ptr, i: u32) -> Option<u32> {
        match self.heap.header(ptr) {
            Some(header) if i < header.words() => Some(self.heap.payload(ptr, i)),
            _ => None,
        }
    }

    /// A half of a payload's words, or `None` if the payload has no such half.
    fn half(&self, ptr: Ptr, i: u32) -> Option<u16> {
        match self.heap.header(ptr) {
            Some(header) if i < 2 * header.words() => Some(self.heap.payload_half(ptr, i)),
            _ => None,
        }
    }
}

/// What an attempt gives if the heap grants it this cell.
fn grant_of(cell: Cell) -> Gave {
    Gave::Granted(pointer(cell))
}

/// Whether a trace has exactly these lines.
fn has_lines(trace: &Trace, lines: &[(u32, u32, u32, Answer)]) -> bool {
    for (index, (number, length, place, answer)) in lines.iter().enumerate() {
        let line = Attempt {
            number: *number,
            length: *length,
            place: *place,
            answer: *answer,
        };
        if trace.get(index).copied() != Some(line) {
            return false;
        }
    }
    trace.len() == lines.len()
}

/// Whether the leaks are exactly these cells.
fn has_cells(leaks: &Leaks, cells: &[(u32, u32, u32)]) -> bool {
    for (index, (number, length, place)) in cells.iter().enumerate() {
        let leak = Leak {
            number: *number,
            length: *length,
            place: *place,
        };
        if leaks.get(index).copied() != Some(leak) {
            return false;
        }
    }
    leaks.len() == cells.len()
}
