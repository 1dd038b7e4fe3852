//! The calls that may run out of memory, on a debug heap. If a call returns `NoMemory`, it is made once more with the same arguments. If a
//! call's contract forbids its arguments, the call isn't made, and the result is also `NoMemory`. A run of the tests that asked for such a
//! call would print wrong lines even with enough memory.

ghost use Rattle.std.specs.Prelude.{◌≡◌, ◌+◌, ◌^◌, ◌<◌, ◌≤◌, IfOk, IsSome, OnErr, OnOk};
ghost use Rattle.wb_heap_model.specs.Debug.{IsSoundDebug, alloc_made};
ghost use Rattle.wb_heap_model.specs.Row.{cell_at};

use std::alloc::AllocError;
use wb_basics::limits::CEILING;
use wb_basics::memory::NoMemory;
use wb_debug::{DebugHeap, Heap};
use wb_heap_model::heap::{Gave, Kind, Ptr};
use wb_heap_model::reported::Leaks;

/// Makes an attempt to get a cell.
pub(crate) fn alloc(heap: &mut DebugHeap, bytes: u32, kind: Kind) -> Result<Gave, NoMemory>
    ensures made { OnOk result (heap.new ≡ (alloc_made heap.old bytes kind).debug) }
    ensures err { OnErr result (heap.new ≡ heap.old) }
    ensures sound { OnOk result (IsSoundDebug heap.new) }
{
    if heap.attempts() == u32::MAX || bytes > CEILING {
        return Err(NoMemory::from(AllocError));
    }
    match heap.attempt_alloc(bytes, kind) {
        Ok(gave) => Ok(gave),
        Err(_) => heap.attempt_alloc(bytes, kind),
    }
}

/// Makes an attempt to give a cell another length.
pub(crate) fn realloc(heap: &mut DebugHeap, ptr: Ptr, bytes: u32) -> Result<Gave, NoMemory>
    ensures { heap.new.heap.level ≡ heap.old.heap.level }
{
    if heap.attempts() == u32::MAX || bytes > CEILING || heap.header(ptr).is_none() {
        return Err(NoMemory::from(AllocError));
    }
    match realloc_live(heap, ptr, bytes) {
        Ok(gave) => Ok(gave),
        Err(_) => realloc_live(heap, ptr, bytes),
    }
}

/// Makes the attempt to give a live cell another length, just once.
fn realloc_live(heap: &mut DebugHeap, ptr: Ptr, bytes: u32) -> Result<Gave, NoMemory>
    requires live { IsSome (cell_at ptr heap.old.heap.row) }
    requires bytes { bytes ≤ CEILING }
    requires number { heap.old.attempts + 1 < 2 ^ 32 }
    ensures level { heap.new.heap.level ≡ heap.old.heap.level }
    ensures err { OnErr result (heap.new ≡ heap.old) }
{
    heap.attempt_realloc(ptr, bytes)
}

/// Copies a heap.
pub(crate) fn copy(heap: &DebugHeap) -> Result<DebugHeap, NoMemory>
    ensures { IfOk result (λ copy. copy ≡ heap.now) }
{
    match heap.try_copy() {
        Ok(copy) => Ok(copy),
        Err(_) => heap.try_copy(),
    }
}

/// Copies a heap over the memory of `spare`. If memory runs out at the first call, the memory of `spare` is lost, and the second call takes
/// new memory.
pub(crate) fn copy_over(heap: &DebugHeap, spare: Heap) -> Result<DebugHeap, NoMemory>
    ensures { IfOk result (λ copy. copy ≡ heap.now) }
{
    match heap.try_copy_over(Some(spare)) {
        Ok(copy) => Ok(copy),
        Err(_) => heap.try_copy_over(None),
    }
}

/// The live cells of a heap, in order of place.
pub(crate) fn live(heap: &DebugHeap) -> Result<Leaks, NoMemory> {
    match heap.leaks() {
        Ok(leaks) => Ok(leaks),
        Err(_) => heap.leaks(),
    }
}
