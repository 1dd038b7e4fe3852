//! Makes the calls of a table on a debug heap one after another, and prints a line for each call.

ghost use Rattle.std.specs.Prelude.{◌≡◌};

use crate::calls;
use crate::lines::{show, write_gave, write_heap};
use crate::stop::Stop;
use std::alloc::{AllocError, Global};
use wb_basics::limits::CEILING;
use wb_basics::memory::NoMemory;
use wb_debug::DebugHeap;
use wb_heap_model::heap::{Kind, Ptr, Rule, Shape};
use wb_heap_model::reported::Note;

/// The place and the allocation number of a cell.
pub(crate) type Cell = (u32, u32);

/// A call on a debug heap. Lengths are in bytes, without the header.
#[derive(Clone, Copy)]
pub(crate) enum Call {
    Alloc(u32),
    Realloc(Cell, u32),
    Free(Cell),
    Mark,
    /// The end of a mark: how many cells are expected at its level.
    MarkEnd(u32),
    FailNext(u32),
    FailEvery(u32),
    FailNone,
    /// A cell, the index of a word of the cell, and the word's new value.
    Store(Cell, u32, u32),
    Compress,
}

/// A debug heap, and how many marks are open.
#[derive(Drop)]
pub(crate) struct Marked {
    heap: DebugHeap,
    marks: u32,
    ghost open: { heap.heap.level ≡ marks },
}

/// The shape of the heaps. A heap of this shape has no bytes at the beginning, so the first attempt asks for memory.
pub(crate) const SHAPE: Shape = Shape {
    min: 0,
    step: 64,
    moving: false,
};

/// Attempts for cells in a hole and at the top, for cells that grow in place or by a move, and attempts that a setting makes fail.
static ATTEMPTS: [Call; 23] = [
    Call::Alloc(16),
    Call::Alloc(40),
    Call::Alloc(16),
    Call::Store((32, 2), 9, 7),
    Call::Free((0, 1)),
    Call::Alloc(8),
    Call::Realloc((32, 2), 40),
    Call::Realloc((32, 2), 100),
    Call::Alloc(33),
    Call::Realloc((128, 5), 200),
    Call::Mark,
    Call::FailNext(2),
    Call::Alloc(4),
    Call::Alloc(4),
    Call::Alloc(4),
    Call::FailEvery(2),
    Call::Realloc((0, 4), 60),
    Call::Realloc((416, 11), 500),
    Call::FailNone,
    Call::Realloc((416, 11), 500),
    Call::Alloc(CEILING),
    Call::MarkEnd(2),
    Call::Compress,
];

/// Makes the calls of the table, and then prints everything that the heap shows.
pub(crate) fn make_attempts(rt: &HostRuntime) -> Result<(), Stop> {
    let mut marked = Marked::new(rt.alloc())?;
    make_and_show(rt, &mut marked)
}

fn make_and_show(rt: &HostRuntime, marked: &mut Marked) -> Result<(), Stop> {
    marked.make_calls(rt, &ATTEMPTS)?;
    marked.show(rt, "after all attempts")
}

impl Marked {
    /// Returns a heap without cells.
    pub(crate) fn new(alloc: Global) -> Result<Marked, NoMemory> {
        match DebugHeap::new(alloc, Rule::Unlimited, SHAPE) {
            Ok(heap) => Ok(Marked { heap, marks: 0 }),
            Err(_) => Err(NoMemory::from(AllocError)),
        }
    }

    /// Copies the heap.
    pub(crate) fn copy(&self) -> Result<Marked, NoMemory> {
        Ok(Marked {
            heap: calls::copy(&self.heap)?,
            marks: self.marks,
        })
    }

    /// Copies the heap over the memory of `spare`.
    pub(crate) fn copy_over(&self, spare: Marked) -> Result<Marked, NoMemory> {
        let (_, heap) = spare.heap.into_trace_and_heap();
        Ok(Marked {
            heap: calls::copy_over(&self.heap, heap)?,
            marks: self.marks,
        })
    }

    /// Prints everything that the heap shows.
    pub(crate) fn show(&self, rt: &HostRuntime, name: &str) -> Result<(), Stop> {
        show(rt, name, &self.heap)
    }

    /// Makes calls, and prints a line for each call.
    pub(crate) fn make_calls(&mut self, rt: &HostRuntime, calls: &[Call]) -> Result<(), Stop> {
        for call in calls {
            self.make_call(rt, *call)?;
        }
        Ok(())
    }

    fn make_call(&mut self, rt: &HostRuntime, call: Call) -> Result<(), Stop> {
        match call {
            Call::Alloc(bytes) => self.alloc(rt, bytes),
            Call::Realloc(cell, bytes) => self.realloc(rt, pointer(cell), bytes),
            _ => self.make_plain(rt, call),
        }
    }

    /// Makes an attempt to get a raw cell, and prints the result.
    fn alloc(&mut self, rt: &HostRuntime, bytes: u32) -> Result<(), Stop> {
        let gave = calls::alloc(&mut self.heap, bytes, Kind::Raw)?;
        write_gave(rt, "alloc", bytes, gave, &self.heap)
    }

    /// Makes an attempt to give a cell another length, and prints the result.
    fn realloc(&mut self, rt: &HostRuntime, ptr: Ptr, bytes: u32) -> Result<(), Stop> {
        let gave = calls::realloc(&mut self.heap, ptr, bytes)?;
        write_gave(rt, "realloc", bytes, gave, &self.heap)
    }

    /// Makes a call that takes no memory, and prints the result.
    fn make_plain(&mut self, rt: &HostRuntime, call: Call) -> Result<(), Stop> {
        let is_done = self.do_plain(call);
        print!(rt; "{}: {is_done}", name_of(call))?;
        write_heap(rt, &self.heap)
    }

    /// Makes a call that takes no memory, and returns whether the call succeeded. For `Compress`, returns whether the heap gave up any
    /// bytes.
    fn do_plain(&mut self, call: Call) -> bool {
        match call {
            Call::Free(cell) => self.heap.release(pointer(cell)).is_ok(),
            Call::Mark => self.mark(),
            Call::MarkEnd(n) => self.mark_end(n),
            Call::Store(cell, i, word) => self.store(pointer(cell), i, word),
            Call::Compress => self.heap.note_compress() != Note::Compress(0),
            _ => self.set(call),
        }
    }

    /// Makes a call that sets which attempts fail, and returns whether the call succeeded.
    fn set(&mut self, call: Call) -> bool {
        match call {
            Call::FailNext(n) if n > 0 => {
                self.heap.fail_next(n);
                true
            }
            Call::FailEvery(n) if n > 0 => {
                self.heap.fail_every(n);
                true
            }
            Call::FailNone => {
                self.heap.fail_none();
                true
            }
            _ => false,
        }
    }

    /// Opens a mark. Returns `false` if the heap can't have one more mark.
    fn mark(&mut self) -> bool {
        let Some(marks) = self.marks.checked_add(1) else {
            return false;
        };
        self.heap.mark();
        self.marks = marks;
        true
    }

    /// Closes a mark. Returns whether a mark was open and had the expected number of cells.
    fn mark_end(&mut self, n: u32) -> bool {
        let is_closed = self.heap.mark_end(n).is_ok();
        if is_closed && self.marks > 0 {
            self.marks -= 1;
        }
        is_closed
    }

    /// Stores a word. Returns whether the payload has a word with this index.
    fn store(&mut self, ptr: Ptr, i: u32, word: u32) -> bool {
        match self.heap.header(ptr) {
            Some(header) if i < header.words() => {
                self.heap.set_payload(ptr, i, word);
                true
            }
            _ => false,
        }
    }
}

/// The name of a call.
fn name_of(call: Call) -> &'static str {
    match call {
        Call::Alloc(_) => "alloc",
        Call::Realloc(_, _) => "realloc",
        Call::Free(_) => "free",
        Call::Mark => "mark",
        Call::MarkEnd(_) => "markend",
        Call::FailNext(_) => "failnext",
        Call::FailEvery(_) => "failevery",
        Call::FailNone => "failnone",
        Call::Store(_, _, _) => "store",
        Call::Compress => "compress",
    }
}

/// The pointer that names a cell.
fn pointer(cell: Cell) -> Ptr {
    Ptr {
        place: cell.0,
        number: cell.1,
    }
}
