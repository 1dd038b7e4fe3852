//! How edits write into a cell. Until `settle`, the last step of each edit, the length word keeps the length from before the edit. The
//! units of the text are the half words of the payload from index 2 on, after the length word.

ghost use Rattle.std.specs.Prelude.{◌≡◌, ◌+◌, ◌-◌, ◌*◌, ◌^◌, ◌<◌, ◌≤◌, drop, length, replicate, slice_index};
ghost use Rattle.wb_hbuf.specs.Drafts.{HasUnits, IsDraft, IsPut, put};
ghost use Rattle.wb_hbuf.specs.Sources.{IsApart, IsSource, count_of, source_units};
ghost use Rattle.wb_heap_model.specs.CellRow.{payload_of};
ghost use Rattle.wb_heap_model.specs.Debug.{IsSoundDebug};
ghost use Rattle.wb_heap_model.specs.TextCells.{room_in, text_at, units_after};
ghost use Rattle.wb_heap_model.specs.Texts.{units_of_part};

use crate::reading::foreign_unit;
use crate::sources::Source;
use wb_basics::items::Chars;
use wb_debug::DebugHeap;
use wb_heap_model::heap::Ptr;

/// Writes the units of a source into a text, from a position on. The units are read as they were before the call, even if the source is a
/// part of this text.
pub fn write_units(heap: &mut DebugHeap, ptr: Ptr, at: u32, source: Source)
    requires units { HasUnits ptr heap.old }
    requires most { 2 * length (payload_of ptr heap.old.heap.row) < 2 ^ 32 }
    requires sound { IsSoundDebug heap.old }
    requires source { IsSource heap.old source }
    requires apart { IsApart ptr source }
    requires room { at + count_of source ≤ room_in (length (payload_of ptr heap.old.heap.row)) }
    ensures { IsPut ptr heap.old heap.new at
        (source_units heap.old (text_at ptr heap.old) source.entry) }
{
    match source {
        Source::Literal(chars, from, count) => write_literal(heap, ptr, at, chars, from, count),
        Source::Buffer(buf, from, count) => write_part(heap, ptr, at, buf.units(), from, count),
        Source::Cell(cell, from, count) => copy_part(heap, ptr, at, cell, from, count),
        Source::Own(from, count) => copy_part(heap, ptr, at, ptr, from, count),
    }
}

/// Writes a part of a literal into a text, from the text's position `at` on; each byte becomes a unit. The part has `count` bytes, from the
/// literal's index `from` on. Bytes past the literal's end count as zeros.
fn write_literal(heap: &mut DebugHeap, ptr: Ptr, at: u32, chars: &Chars, from: u32, count: u32)
    requires units { HasUnits ptr heap.old }
    requires most { 2 * length (payload_of ptr heap.old.heap.row) < 2 ^ 32 }
    requires ends { from + count < 2 ^ 32 }
    requires room { at + count ≤ room_in (length (payload_of ptr heap.old.heap.row)) }
    ensures { IsPut ptr heap.old heap.new at (units_of_part chars.now from count) }
{
    for i in 0..count {
        let unit = foreign_unit(heap, Source::Literal(chars, from, count), i);
        heap.set_payload_half(ptr, at + i + 2, unit);
    }
}

/// Writes a part of `units` into a text, from the text's position `at` on. The part has `count` units, from index `from` of `units` on.
/// Units past the end of `units` count as zeros.
fn write_part(heap: &mut DebugHeap, ptr: Ptr, at: u32, units: &[u16], from: u32, count: u32)
    requires units { HasUnits ptr heap.old }
    requires most { 2 * length (payload_of ptr heap.old.heap.row) < 2 ^ 32 }
    requires room { at + count ≤ room_in (length (payload_of ptr heap.old.heap.row)) }
    ensures { IsPut ptr heap.old heap.new at (units_of_part units.now from count) }
{
    let start = (from as usize).min(units.len());
    let there = (count as usize).min(units.len() - start);
    let end = at + there as u32;
    heap.write_halves(ptr, at + 2, &units[start..start + there]);
    heap.zero_halves(ptr, end + 2, at + count - end);
}

/// Copies a part of the text in `cell` into the text in `ptr`'s cell, from position `at` of that text on. The part has `count` units, from
/// position `from` of the text in `cell` on. Units past that text's end count as zeros. `cell` and `ptr` may name the same cell.
fn copy_part(heap: &mut DebugHeap, ptr: Ptr, at: u32, cell: Ptr, from: u32, count: u32)
    requires units { HasUnits ptr heap.old }
    requires source { HasUnits cell heap.old }
    requires sound { IsSoundDebug heap.old }
    requires most { 2 * length (payload_of ptr heap.old.heap.row) < 2 ^ 32 }
    requires room { at + count ≤ room_in (length (payload_of ptr heap.old.heap.row)) }
    ensures { IsPut ptr heap.old heap.new at (units_of_part (text_at cell heap.old) from count) }
{
    let len = heap.payload(cell, 0);
    let start = from.min(len);
    let there = count.min(len - start);
    heap.copy_halves(cell, start + 2, ptr, at + 2, there);
    heap.zero_halves(ptr, at + there + 2, count - there);
}

/// Moves the text's units at position `at` and above to positions that are greater by `gap`.
pub fn open_gap(heap: &mut DebugHeap, ptr: Ptr, at: u32, gap: u32)
    requires units { HasUnits ptr heap.old }
    requires most { 2 * length (payload_of ptr heap.old.heap.row) < 2 ^ 32 }
    requires within { at ≤ length (text_at ptr heap.old) }
    requires room { length (text_at ptr heap.old) + gap
        ≤ room_in (length (payload_of ptr heap.old.heap.row)) }
    ensures draft { IsPut ptr heap.old heap.new (at + gap) (drop at (text_at ptr heap.old)) }
    ensures sound { IsSoundDebug heap.new }
{
    let len = heap.payload(ptr, 0);
    heap.copy_halves(ptr, at + 2, ptr, at + gap + 2, len - at);
}

/// First sets the text's units past `n` to zero, and then sets the text's length to `n`.
pub fn settle(heap: &mut DebugHeap, ptr: Ptr, n: u32)
    requires units { HasUnits ptr heap.old }
    requires most { 2 * length (payload_of ptr heap.old.heap.row) < 2 ^ 32 }
    requires room { n ≤ room_in (length (payload_of ptr heap.old.heap.row)) }
    ensures draft { let words = payload_of ptr heap.old.heap.row in
        IsDraft ptr heap.old heap.new n (put n (replicate (slice_index words 0
        - n) 0) (units_after words)) }
    ensures sound { IsSoundDebug heap.new }
{
    let len = heap.payload(ptr, 0);
    heap.zero_halves(ptr, n + 2, len.saturating_sub(n));
    heap.set_payload(ptr, 0, n);
}
