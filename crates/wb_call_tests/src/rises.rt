//! Attempts on a heap that keeps its rises but no trace. An attempt that isn't a rise takes none of the workbench's own memory. So the
//! first call for such an attempt returns an answer even while the workbench's allocations fail. The tool `tools/failing_allocations.py`
//! checks that an attempt that isn't a rise makes no allocation.

ghost use Rattle.std.specs.Prelude.{◌≡◌, ◌+◌, ◌^◌, ◌<◌, ◌≤◌, true, IfOk, IsSome};
ghost use Rattle.wb_heap_model.specs.Debug.{keeps_rises};
ghost use Rattle.wb_heap_model.specs.Row.{cell_at};

use crate::stop::Stop;
use std::alloc::{AllocError, Global};
use wb_basics::limits::CEILING;
use wb_basics::memory::NoMemory;
use wb_debug::DebugHeap;
use wb_heap_model::heap::{Gave, Kind, Ptr, Shape};

/// A call on a heap.
#[derive(Clone, Copy)]
enum Call {
    /// An attempt to get a cell for a number of bytes.
    Alloc(u32),
    /// An attempt to reallocate a cell: the cell's place and allocation number, and the new number of bytes.
    Realloc(u32, u32, u32),
    /// The place and the allocation number of a cell to release.
    Free(u32, u32),
    /// Makes every attempt fail whose number is a multiple of this number. Attempts are counted from this call on.
    FailEvery(u32),
    /// Opens a mark, and makes an attempt to get a cell of the mark's level; does both so many times.
    MarkedCells(u32),
}

/// The shape of the heap. The heap has no bytes at the beginning, so the first attempt asks for memory.
const SHAPE: Shape = Shape {
    min: 0,
    step: 64,
    moving: false,
};

/// Attempts for cells at the top, in a hole and past the top, attempts that fail, and cells that grow in place, grow by a move, and shrink.
/// The last attempts are for cells of more levels than the heap keeps counts of. These cells are below the end of a long cell that was
/// released.
static CALLS: [Call; 25] = [
    Call::Alloc(128),
    Call::FailEvery(2),
    Call::Alloc(16),
    Call::Alloc(16),
    Call::Free(144, 2),
    Call::Alloc(16),
    Call::Alloc(16),
    Call::Alloc(40),
    Call::Alloc(400),
    Call::Realloc(176, 6, 8),
    Call::Realloc(176, 6, 40),
    Call::Alloc(400),
    Call::Realloc(176, 6, 90),
    Call::Free(144, 4),
    Call::Alloc(16),
    Call::Alloc(16),
    Call::Free(0, 1),
    Call::Realloc(144, 12, 40),
    Call::Realloc(144, 12, 40),
    Call::Alloc(200),
    Call::Alloc(200),
    Call::FailEvery(50),
    Call::Alloc(4000),
    Call::Free(512, 17),
    Call::MarkedCells(70),
];

/// Makes the calls of the table, and then prints the rises.
pub(crate) fn make_attempts(rt: &HostRuntime) -> Result<(), Stop> {
    let mut heap = new_heap(rt.alloc())?;
    make_calls(rt, &mut heap)
}

/// Returns a heap without cells. If memory ran out, asks for the heap a second time.
fn new_heap(alloc: Global) -> Result<DebugHeap, NoMemory>
    ensures { IfOk result (λ heap. keeps_rises heap ≡ true) }
{
    match DebugHeap::new_rises(alloc, SHAPE) {
        Ok(heap) => Ok(heap),
        Err(_) => DebugHeap::new_rises(alloc, SHAPE).map_err(|_| NoMemory::from(AllocError)),
    }
}

fn make_calls(rt: &HostRuntime, heap: &mut DebugHeap) -> Result<(), Stop>
    requires { keeps_rises heap.old ≡ true }
{
    for call in &CALLS {
        match *call {
            Call::Alloc(bytes) => alloc(rt, heap, bytes)?,
            Call::Realloc(place, number, bytes) => {
                realloc(rt, heap, Ptr { place, number }, bytes)?
            }
            Call::Free(place, number) => release(heap, Ptr { place, number }),
            Call::FailEvery(n) => fail_every(heap, n),
            Call::MarkedCells(count) => make_marked_cells(rt, heap, count)?,
        }
    }
    for rise in heap.rises().as_slice() {
        println!(rt; "  rise {} to {}", rise.number, rise.top)?;
    }
    Ok(())
}

/// Makes `count` attempts to get a cell. Opens another mark before each attempt.
fn make_marked_cells(rt: &HostRuntime, heap: &mut DebugHeap, count: u32) -> Result<(), Stop>
    requires { keeps_rises heap.old ≡ true }
    ensures { keeps_rises heap.new ≡ true }
{
    for _ in 0..count {
        mark(heap);
        alloc(rt, heap, 16)?;
    }
    Ok(())
}

/// Makes an attempt to get a cell. If memory ran out, makes it a second time.
fn alloc(rt: &HostRuntime, heap: &mut DebugHeap, bytes: u32) -> Result<(), Stop>
    requires { keeps_rises heap.old ≡ true }
    ensures { keeps_rises heap.new ≡ true }
{
    let before = heap.rises().len();
    let (gave, found) = match attempt(heap, bytes) {
        Ok(gave) => (gave, true),
        Err(_) => (attempt(heap, bytes)?, false),
    };
    write_attempt(rt, heap, "alloc", bytes, gave, before, found)
}

/// Makes an attempt to give a cell another length. If memory ran out, makes it a second time.
fn realloc(rt: &HostRuntime, heap: &mut DebugHeap, ptr: Ptr, bytes: u32) -> Result<(), Stop>
    requires { keeps_rises heap.old ≡ true }
    ensures { keeps_rises heap.new ≡ true }
{
    let before = heap.rises().len();
    let (gave, found) = match reattempt(heap, ptr, bytes) {
        Ok(gave) => (gave, true),
        Err(_) => (reattempt(heap, ptr, bytes)?, false),
    };
    write_attempt(rt, heap, "realloc", bytes, gave, before, found)
}

/// Prints the result of an attempt. If memory ran out at the first call although the attempt isn't a rise, an extra line says so.
fn write_attempt(
    rt: &HostRuntime,
    heap: &DebugHeap,
    call: &str,
    bytes: u32,
    gave: Gave,
    before: usize,
    found: bool,
) -> Result<(), Stop>
    requires { keeps_rises heap.now ≡ true }
{
    let is_rise = heap.rises().len() > before;
    if !found && !is_rise {
        println!(rt; "{call} {bytes} isn't a rise, and found no memory")?;
    }
    let told = match gave {
        Gave::Granted(cell) => {
            print!(rt; "{call} {bytes}: cell {} at {}", cell.number, cell.place)
        }
        Gave::Denied => print!(rt; "{call} {bytes}: denied"),
        Gave::Ceiling => print!(rt; "{call} {bytes}: past the ceiling"),
    };
    told?;
    println!(rt;
        ", attempts {}, rise {is_rise}, trace {}",
        heap.attempts(),
        heap.trace().len()
    )?;
    Ok(())
}

/// Makes the attempt to get a cell, just once.
fn attempt(heap: &mut DebugHeap, bytes: u32) -> Result<Gave, NoMemory>
    ensures { keeps_rises heap.new ≡ keeps_rises heap.old }
{
    if heap.attempts() == u32::MAX || bytes > CEILING {
        return Err(NoMemory::from(AllocError));
    }
    heap.attempt_alloc(bytes, Kind::Raw)
}

/// Makes the attempt to give a cell another length, just once.
fn reattempt(heap: &mut DebugHeap, ptr: Ptr, bytes: u32) -> Result<Gave, NoMemory>
    ensures { keeps_rises heap.new ≡ keeps_rises heap.old }
{
    if heap.attempts() == u32::MAX || bytes > CEILING || heap.header(ptr).is_none() {
        return Err(NoMemory::from(AllocError));
    }
    reattempt_live(heap, ptr, bytes)
}

/// Makes the attempt to give a live cell another length, just once.
fn reattempt_live(heap: &mut DebugHeap, ptr: Ptr, bytes: u32) -> Result<Gave, NoMemory>
    requires live { IsSome (cell_at ptr heap.old.heap.row) }
    requires bytes { bytes ≤ CEILING }
    requires number { heap.old.attempts + 1 < 2 ^ 32 }
    ensures { keeps_rises heap.new ≡ keeps_rises heap.old }
{
    heap.attempt_realloc(ptr, bytes)
}

/// Releases the cell that the pointer names, if the pointer names a live cell.
fn release(heap: &mut DebugHeap, ptr: Ptr)
    ensures { keeps_rises heap.new ≡ keeps_rises heap.old }
{
    let _ = heap.release(ptr);
}

/// Opens a mark.
fn mark(heap: &mut DebugHeap)
    ensures { keeps_rises heap.new ≡ keeps_rises heap.old }
{
    if heap.level() < u32::MAX {
        heap.mark();
    }
}

/// Sets which attempts fail from here on.
fn fail_every(heap: &mut DebugHeap, n: u32)
    ensures { keeps_rises heap.new ≡ keeps_rises heap.old }
{
    if n > 0 {
        heap.fail_every(n);
    }
}
