//! Makes texts in cells, and then gives them another maximum length, in place or by a move.

ghost use Rattle.std.specs.Prelude.{◌≤◌, [], IfOk};
ghost use Rattle.wb_heap_model.specs.TextCells.{IsGrantedText, IsRemadeText, IsTextAt, text_at};

use crate::calls;
use crate::heaps::SHAPE;
use crate::lines::{show, write_gave};
use crate::stop::Stop;
use std::alloc::AllocError;
use wb_basics::limits::MOST_UNITS;
use wb_basics::memory::NoMemory;
use wb_debug::DebugHeap;
use wb_hbuf::{length, make, max_len, remake, set_length};
use wb_heap_model::heap::{Gave, Kind, Ptr, Rule};

/// Makes texts, and then prints everything that the heap shows.
pub(crate) fn make_texts(rt: &HostRuntime) -> Result<(), Stop> {
    let Ok(mut heap) = DebugHeap::new(rt.alloc(), Rule::Unlimited, SHAPE) else {
        return Err(Stop::NoMemory);
    };
    make_and_show(rt, &mut heap)
}

fn make_and_show(rt: &HostRuntime, heap: &mut DebugHeap) -> Result<(), Stop> {
    make_hole(rt, heap)?;
    grow_text(rt, heap)?;
    show(rt, "after all texts", heap)
}

/// Makes a hole before a live cell.
fn make_hole(rt: &HostRuntime, heap: &mut DebugHeap) -> Result<(), Stop> {
    let first = alloc(rt, heap, 64)?;
    alloc(rt, heap, 16)?;
    let _ = heap.release(first);
    Ok(())
}

/// Makes a raw cell.
fn alloc(rt: &HostRuntime, heap: &mut DebugHeap, bytes: u32) -> Result<Ptr, Stop> {
    let gave = calls::alloc(heap, bytes, Kind::Raw)?;
    write_gave(rt, "alloc", bytes, gave, heap)?;
    match gave {
        Gave::Granted(ptr) => Ok(ptr),
        Gave::Denied | Gave::Ceiling => Err(Stop::NoMemory),
    }
}

/// Makes a text that grows in the hole, moves to a place after the live cell, fails to grow once more, and shrinks.
fn grow_text(rt: &HostRuntime, heap: &mut DebugHeap) -> Result<(), Stop> {
    let text = new_text(rt, heap, 4)?;
    let _ = set_length(heap, text, 3);
    let text = remake_text(rt, heap, text, 20)?;
    let text = remake_text(rt, heap, text, 90)?;
    heap.fail_next(1);
    let text = remake_text(rt, heap, text, 200)?;
    let text = remake_text(rt, heap, text, 3)?;
    let (units, most) = (length(heap, text), max_len(heap, text));
    println!(rt; "text of {units} units, at most {most}")?;
    Ok(())
}

/// Makes a new text for `n` units.
fn new_text(rt: &HostRuntime, heap: &mut DebugHeap, n: u32) -> Result<Ptr, Stop>
    requires { n ≤ MOST_UNITS }
    ensures { IfOk result (λ ptr. IsTextAt ptr heap.new) }
{
    let gave = make_again(heap, n)?;
    write_gave(rt, "make", n, gave, heap)?;
    match gave {
        Gave::Granted(ptr) => Ok(ptr),
        Gave::Denied | Gave::Ceiling => Err(Stop::NoMemory),
    }
}

/// Calls `make`. If memory ran out, calls it a second time.
fn make_again(heap: &mut DebugHeap, n: u32) -> Result<Gave, NoMemory>
    requires { n ≤ MOST_UNITS }
    ensures { IfOk result (IsGrantedText heap.new []) }
{
    if heap.attempts() == u32::MAX {
        return Err(NoMemory::from(AllocError));
    }
    match make(heap, n) {
        Ok(gave) => Ok(gave),
        Err(_) => make(heap, n),
    }
}

/// Makes an attempt to give a text another maximum length. Returns the pointer to the text, which is the old pointer if the attempt failed.
fn remake_text(rt: &HostRuntime, heap: &mut DebugHeap, ptr: Ptr, n: u32) -> Result<Ptr, Stop>
    requires text { IsTextAt ptr heap.old }
    requires most { n ≤ MOST_UNITS }
    ensures { IfOk result (λ p. IsTextAt p heap.new) }
{
    let gave = remake_again(heap, ptr, n)?;
    write_gave(rt, "remake", n, gave, heap)?;
    match gave {
        Gave::Granted(moved) => Ok(moved),
        Gave::Denied | Gave::Ceiling => Ok(ptr),
    }
}

/// Calls `remake`. If memory ran out, calls it a second time.
fn remake_again(heap: &mut DebugHeap, ptr: Ptr, n: u32) -> Result<Gave, NoMemory>
    requires text { IsTextAt ptr heap.old }
    requires most { n ≤ MOST_UNITS }
    ensures { IfOk result (IsRemadeText heap.new ptr (text_at ptr heap.old)) }
{
    if heap.attempts() == u32::MAX || n < length(heap, ptr) {
        return Err(NoMemory::from(AllocError));
    }
    match remake(heap, ptr, n) {
        Ok(gave) => Ok(gave),
        Err(_) => remake(heap, ptr, n),
    }
}
