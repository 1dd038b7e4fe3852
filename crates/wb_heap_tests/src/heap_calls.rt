//! Calls on a heap, each with the answer that it must give. So a table of calls describes a worked heap.

ghost use Rattle.std.specs.Prelude.{◌<◌, ◌≤◌, All, IsTrue};
ghost use Rattle.wb_heap_model.specs.LimitedHeap.{IsCellLength};
ghost use Rattle.wb_heap_model.specs.Row.{headers};

use crate::walker;
use crate::walker::Called;
use std::alloc::Global;
use wb_basics::limits::CEILING;
use wb_heap_model::heap::{Header, Kind, Ptr, Shape};
use wb_rheap::{Heap, HeapFault};

/// The place and the allocation number of a cell.
pub(crate) type Cell = (u32, u32);

/// The pointer to a cell.
pub(crate) fn pointer(cell: Cell) -> Ptr {
    Ptr {
        place: cell.0,
        number: cell.1,
    }
}

/// A call on a heap. The last field is the answer that the call must give. Lengths are of whole cells, in bytes, with the header.
#[derive(Clone, Copy)]
pub(crate) enum Call {
    /// An attempt that must be granted: the length, and the granted cell.
    Alloc(u32, Cell),
    /// An attempt that must fail, because the cell would end past the limit.
    NoAlloc(u32),
    /// A reallocation that must be granted: the cell, the length, and the cell's new place and allocation number.
    Realloc(Cell, u32, Cell),
    /// A reallocation that must fail, and the fault because of which the cell stays unchanged.
    NoRealloc(Cell, u32, HeapFault),
    Free(Cell),
    /// A call to free a cell by a pointer that names no cell.
    NoFree(Cell),
    SetLevel(Cell, u32),
    Store(Cell, u32, u32),
    StoreHalf(Cell, u32, u16),
    /// Copies words from the first cell to the second cell. The number says how many words.
    Copy(Cell, Cell, u32),
    /// The index of the first half that becomes 0, and how many halves become 0. A half is 16 bits of a word.
    ZeroHalves(Cell, u32, u32),
    /// The index of the first half that is written, and the halves.
    WriteHalves(Cell, u32, &'static [u16]),
    /// Copies halves from the first cell, from an index on, to an index of the second cell. The last number says how many halves.
    CopyHalves(Cell, u32, Cell, u32, u32),
    /// The index of a word of the payload, and the value that the word must have.
    Word(Cell, u32, u32),
    /// An index past the last word of the payload.
    NoWord(Cell, u32),
    Half(Cell, u32, u16),
    PlaceFor(u32, u32),
    PlaceForRealloc(Cell, u32, u32),
    /// The length of the cell's payload, in bytes.
    AllocLen(Cell, u32),
    /// The cell's length and the cell's level.
    Header(Cell, u32, u32),
    /// A pointer that names no cell, and so no header.
    NoHeader(Cell),
    /// The first live cell that begins at this place or above it.
    NextLive(u32, Cell),
    NoneLive(u32),
    /// The number of live cells, the bytes that they take together, and the committed length.
    Size(u32, u32, u32),
    Available(u32, u32),
    Compress(u32),
    Held(u32),
}

/// A heap with a limit and a shape, and the calls that are made on it. The first attempt, which gets the cleanup stack's cell of 144 bytes
/// at place 0, is made before these calls.
#[derive(Clone, Copy)]
pub(crate) struct WorkedHeap {
    /// What the calls show, in words.
    pub(crate) about: &'static str,
    pub(crate) limit: u32,
    pub(crate) shape: Shape,
    pub(crate) calls: &'static [Call],
}

/// A heap, and the number of its next attempt.
#[derive(Drop)]
pub(crate) struct Numbered {
    heap: Heap,
    next: u32,
    ghost numbered: { 1 ≤ next },
    ghost below: { All (λ h. h.number < next) (headers heap.row) },
}

/// The index of the first call that gives an answer other than the table's; `None` if there is no such call.
pub(crate) fn first_other(alloc: Global, worked: &WorkedHeap) -> Result<Option<usize>, HeapFault> {
    let mut numbered = Numbered::new(alloc, worked)?;
    Ok(walker::first_other(&mut numbered, worked.calls))
}

impl Called for Numbered {
    type Call = Call;

    type Fault = HeapFault;

    /// Whether a call gives the answer in the table.
    fn answers(&mut self, call: Call) -> bool {
        match call {
            Call::Alloc(length, cell) => self.grant(length) == Ok(pointer(cell)),
            Call::NoAlloc(length) => self.grant(length) == Err(HeapFault::TooShort),
            Call::Realloc(cell, length, moved) => self.regrant(pointer(cell), length)
                == Ok(pointer(moved)),
            Call::NoRealloc(cell, length, fault) => self.regrant(pointer(cell), length)
                == Err(fault),
            Call::Free(cell) => self.release(pointer(cell)) == Ok(()),
            Call::NoFree(cell) => self.release(pointer(cell)) == Err(HeapFault::BadCell),
            Call::SetLevel(cell, level) => self.put_under(pointer(cell), level),
            Call::Store(cell, i, v) => self.store(pointer(cell), i, v),
            Call::Copy(from, other, n) => self.copy(pointer(from), pointer(other), n),
            Call::Compress(length) => self.heap.compress() == length,
            _ => self.writes_halves(call),
        }
    }

    fn try_copy(&self) -> Result<Numbered, HeapFault> {
        match self.heap.try_copy() {
            Ok(heap) => Ok(Numbered {
                heap,
                next: self.next,
            }),
            Err(_) => Err(HeapFault::NoMemory),
        }
    }

    /// A copy of this heap that takes over the memory of `spare`, a heap that is no longer needed.
    fn try_copy_over(&self, spare: Numbered) -> Result<Numbered, HeapFault> {
        match self.heap.try_copy_over(Some(spare.heap)) {
            Ok(heap) => Ok(Numbered {
                heap,
                next: self.next,
            }),
            Err(_) => Err(HeapFault::NoMemory),
        }
    }
}

impl Numbered {
    /// A heap on which the first attempt has been made.
    pub(crate) fn new(alloc: Global, worked: &WorkedHeap) -> Result<Numbered, HeapFault> {
        if worked.limit > CEILING {
            return Err(HeapFault::TooShort);
        }
        let mut numbered = Numbered {
            heap: Heap::new(alloc, worked.limit, worked.shape)?,
            next: 1,
        };
        numbered.grant(144)?;
        Ok(numbered)
    }

    /// Whether a call that writes halves of a payload gives its answer. Other calls are passed on to `tells`.
    fn writes_halves(&mut self, call: Call) -> bool {
        match call {
            Call::StoreHalf(cell, i, v) => self.store_half(pointer(cell), i, v),
            Call::ZeroHalves(cell, i, n) => self.zero_halves(pointer(cell), i, n),
            Call::WriteHalves(cell, i, halves) => self.write_halves(pointer(cell), i, halves),
            Call::CopyHalves(from, fi, other, ti, n) => {
                self.copy_halves(pointer(from), fi, pointer(other), ti, n)
            }
            _ => self.tells(call),
        }
    }

    /// Whether a call that reads one cell without changing anything gives its answer. Other calls are passed on to `tells_of_all`.
    fn tells(&self, call: Call) -> bool {
        match call {
            Call::Word(cell, i, v) => self.word(pointer(cell), i) == Some(v),
            Call::NoWord(cell, i) => self.word(pointer(cell), i).is_none(),
            Call::Half(cell, i, v) => self.half(pointer(cell), i) == Some(v),
            Call::PlaceFor(length, place) => {
                is_cell_length(length) && self.heap.place_for(length) == place
            }
            Call::PlaceForRealloc(cell, length, place) => {
                self.longer_place(pointer(cell), length) == Some(place)
            }
            Call::AllocLen(cell, bytes) => self.heap.alloc_len(pointer(cell)) == Ok(bytes),
            Call::Header(cell, length, level) => {
                self.heap.header(pointer(cell)) == Some(header(cell, length, level))
            }
            _ => self.tells_of_all(call),
        }
    }

    /// Whether a call that finds no cell, or that looks at the whole heap, gives its answer.
    fn tells_of_all(&self, call: Call) -> bool {
        match call {
            Call::NoHeader(cell) => {
                self.heap.header(pointer(cell)).is_none()
                    && self.heap.alloc_len(pointer(cell)) == Err(HeapFault::BadCell)
            }
            Call::NextLive(from, cell) => match self.heap.next_live(from) {
                Some(found) => found.place == cell.0 && found.number == cell.1,
                None => false,
            },
            Call::NoneLive(from) => self.heap.next_live(from).is_none(),
            Call::Size(count, bytes, committed) => {
                self.heap.alloc_size() == (count, bytes)
                    && self.heap.count() == count
                    && self.heap.committed() == committed
            }
            Call::Available(total, longest) => self.heap.available() == (total, longest),
            Call::Held(length) => self.heap.held() == length,
            _ => false,
        }
    }

    /// Makes an attempt to get a raw cell of this length.
    fn grant(&mut self, length: u32) -> Result<Ptr, HeapFault> {
        if !is_cell_length(length) {
            return Err(HeapFault::BadShape);
        }
        let number = self.next;
        let Some(next) = number.checked_add(1) else {
            return Err(HeapFault::NoMemory);
        };
        let granted = self.heap.alloc(length, Kind::Raw, number, 0);
        self.next = next;
        granted
    }

    /// Makes an attempt to give a cell another length.
    fn regrant(&mut self, ptr: Ptr, length: u32) -> Result<Ptr, HeapFault> {
        if !is_cell_length(length) {
            return Err(HeapFault::BadShape);
        }
        let number = self.next;
        let Some(next) = number.checked_add(1) else {
            return Err(HeapFault::NoMemory);
        };
        let granted = self.heap.realloc(ptr, length, number);
        self.next = next;
        granted
    }

    /// Gives a cell another level. Returns whether there is such a cell.
    fn put_under(&mut self, ptr: Ptr, level: u32) -> bool {
        match self.heap.header(ptr) {
            Some(_) => {
                self.heap.set_level(ptr, level);
                true
            }
            None => false,
        }
    }

    /// Releases a cell.
    fn release(&mut self, ptr: Ptr) -> Result<(), HeapFault> {
        self.heap.free(ptr)
    }

    /// Stores a word. Returns whether the payload has such a word.
    fn store(&mut self, ptr: Ptr, i: u32, v: u32) -> bool {
        match self.heap.header(ptr) {
            Some(header) if i < header.words() => {
                self.heap.set_payload(ptr, i, v);
                true
            }
            _ => false,
        }
    }

    /// Stores 16 bits, which are a half of a word. Returns whether the payload has such a half.
    fn store_half(&mut self, ptr: Ptr, i: u32, v: u16) -> bool {
        match self.heap.header(ptr) {
            Some(header) if i < 2 * header.words() => {
                self.heap.set_payload_half(ptr, i, v);
                true
            }
            _ => false,
        }
    }

    /// Copies `n` words. Returns whether both payloads have at least `n` words.
    fn copy(&mut self, from: Ptr, to: Ptr, n: u32) -> bool {
        match (self.heap.header(from), self.heap.header(to)) {
            (Some(source), Some(target)) if n <= source.words() && n <= target.words() => {
                self.heap.copy_payload(from, to, n);
                true
            }
            _ => false,
        }
    }

    /// Sets `n` halves to 0. Returns whether the payload has `n` halves from index `i` on.
    fn zero_halves(&mut self, ptr: Ptr, i: u32, n: u32) -> bool {
        match self.heap.header(ptr) {
            Some(header) if i <= 2 * header.words() && n <= 2 * header.words() - i => {
                self.heap.zero_halves(ptr, i, n);
                true
            }
            _ => false,
        }
    }

    /// Writes halves. Returns whether the payload has so many halves from index `i` on.
    fn write_halves(&mut self, ptr: Ptr, i: u32, halves: &[u16]) -> bool {
        match self.heap.header(ptr) {
            Some(header) if i <= 2 * header.words() => {
                if halves.len() > (2 * header.words() - i) as usize {
                    return false;
                }
                self.heap.write_halves(ptr, i, halves);
                true
            }
            _ => false,
        }
    }

    /// Copies `n` halves. Returns whether each payload has `n` halves from its index on.
    fn copy_halves(&mut self, from: Ptr, fi: u32, to: Ptr, ti: u32, n: u32) -> bool {
        let (Some(source), Some(target)) = (self.heap.header(from), self.heap.header(to)) else {
            return false;
        };
        let (most, room) = (2 * source.words(), 2 * target.words());
        if fi > most || ti > room || n > most - fi || n > room - ti {
            return false;
        }
        self.heap.copy_halves(from, fi, to, ti, n);
        true
    }

    /// A word of a payload, or `None` if the payload has no such word.
    fn word(&self, ptr: Ptr, i: u32) -> Option<u32> {
        match self.heap.header(ptr) {
            Some(header) if i < header.words() => Some(self.heap.payload(ptr, i)),
            _ => None,
        }
    }

    /// A half of a payload's words, or `None` if the payload has no such half.
    fn half(&self, ptr: Ptr, i: u32) -> Option<u16> {
        match self.heap.header(ptr) {
            Some(header) if i < 2 * header.words() => Some(self.heap.payload_half(ptr, i)),
            _ => None,
        }
    }

    /// The place that a cell gets if it grows to `length` bytes. The result is `None` if there is no such cell, or if the cell already has
    /// this length.
    fn longer_place(&self, ptr: Ptr, length: u32) -> Option<u32> {
        match self.heap.header(ptr) {
            Some(cell) if cell.length < length && is_cell_length(length) => Some(
                self.heap.place_for_realloc(ptr, length),
            ),
            _ => None,
        }
    }
}

/// The header of a raw cell.
pub(crate) fn header(cell: Cell, length: u32, level: u32) -> Header {
    Header {
        place: cell.0,
        length,
        kind: Kind::Raw,
        level,
        number: cell.1,
    }
}

/// Whether a cell may be `length` bytes long.
fn is_cell_length(length: u32) -> bool
    ensures { IsTrue result → IsCellLength length }
{
    length % 16 == 0 && 16 <= length && length <= CEILING
}
