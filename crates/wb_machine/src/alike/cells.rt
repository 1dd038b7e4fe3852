//! Whether the cells of two runs, and the items of their cleanup stacks, are the same except for allocation numbers. Cells are compared in
//! order of place, up to the first difference.

ghost use Rattle.std.specs.Prelude.{◌≡◌, ◌+◌, ◌^◌, ◌<◌, ℕ, List, true, Some, length, slice_index, IfSome, IsSome, OnSome};
ghost use Rattle.wb_heap_model.specs.CellRow.{payload_of};
ghost use Rattle.wb_tree.specs.declared.script.Script.{Script};
ghost use Rattle.wb_heap_model.specs.Debug.{IsSoundDebug};
ghost use Rattle.wb_heap_model.specs.Row.{cell_at, end_of, Cell};
ghost use Rattle.wb_renaming.specs.SameButNumbers.{AllBeside, IsSameCell, IsSameHeader, IsSameItem};
ghost use Rattle.wb_cleanup.specs.Stacks.{items_of, IsStack};
ghost use Rattle.wb_machine.specs.Alike.{ArePairsAlike, AreWordsAlike, IsGrown};
ghost use Rattle.wb_machine.specs.RunState.{read_cell, read_row};

use super::names::Names;
use wb_cleanup::Cleanup;
use wb_debug::DebugHeap;
use wb_heap_model::heap::{Header, Item, Kind, Ptr};

fn same_header(names: &mut Names, header: Header, other: Header) -> bool
    ensures same { result ≡ true → IsSameHeader names.new.names header other }
    ensures grown { IsGrown names.old names.new }
{
    header.place == other.place
        && header.length == other.length
        && header.kind == other.kind
        && header.level == other.level
        && names.relate(header.number, other.number)
}

/// The pointer in two words of a payload: the word `at` is the pointer's place, and the next word is its allocation number.
fn pointer_at(heap: &DebugHeap, ptr: Ptr, at: u32) -> Ptr
    requires within { at + 1 < length (payload_of ptr heap.now.heap.row) }
    requires fits { at + 1 < 2 ^ 32 }
    ensures { let words = payload_of ptr heap.now.heap.row in
        result ≡ record { place = slice_index words at; number = slice_index words (at + 1) } }
{
    Ptr {
        place: heap.payload(ptr, at),
        number: heap.payload(ptr, at + 1),
    }
}

/// Whether two payloads of `count` words each hold the same pointers from the third word on, except for allocation numbers. A pointer takes
/// two words. In an object's payload, these pointers are the object's fields, and zeros follow the fields.
fn same_fields(
    names: &mut Names,
    heap: &DebugHeap,
    ptr: Ptr,
    other_heap: &DebugHeap,
    other: Ptr,
    count: u32,
) -> bool
    requires words { length (payload_of ptr heap.now.heap.row) ≡ count }
    requires others { length (payload_of other other_heap.now.heap.row) ≡ count }
    ensures same { result ≡ true → ArePairsAlike names.new.names
        (payload_of ptr heap.now.heap.row) (payload_of other other_heap.now.heap.row) }
    ensures grown { IsGrown names.old names.new }
{
    for i in 1..count / 2 {
        let field = pointer_at(heap, ptr, 2 * i);
        let other_field = pointer_at(other_heap, other, 2 * i);
        if !names.relate_pointers(field, other_field) {
            return false;
        }
    }
    true
}

/// Whether the payloads of two cells are the same, except for allocation numbers. Both cells are of this kind and at the same place, and
/// each payload has `count` words. For two cells of cleanup stacks, the result is always `true`, because `same_items` compares the items.
fn same_content(
    names: &mut Names,
    kind: Kind,
    heap: &DebugHeap,
    ptr: Ptr,
    other_heap: &DebugHeap,
    other: Ptr,
    count: u32,
) -> bool
    requires live { IsSome (cell_at ptr heap.now.heap.row) }
    requires other_live { IsSome (cell_at other other_heap.now.heap.row) }
    requires words { length (payload_of ptr heap.now.heap.row) ≡ count }
    requires others { length (payload_of other other_heap.now.heap.row) ≡ count }
    requires place { other.place ≡ ptr.place }
    ensures same { result ≡ true → AreWordsAlike names.new.names kind
        (payload_of ptr heap.now.heap.row) (payload_of other other_heap.now.heap.row) }
    ensures grown { IsGrown names.old names.new }
{
    match kind {
        Kind::Raw => heap.has_payload_of(ptr, other_heap, other, count),
        Kind::Text => heap.has_payload_of(ptr, other_heap, other, count),
        Kind::Object(_) => same_fields(names, heap, ptr, other_heap, other, count),
        Kind::Cleanup => true,
    }
}

/// Compares the cells that `ptr` and `other` name. Returns where the cell of `ptr` ends if the two cells are the same except for allocation
/// numbers. Returns `None` if they differ, or a pointer names no live cell.
fn end_if_same(
    names: &mut Names,
    heap: &DebugHeap,
    ptr: Ptr,
    other_heap: &DebugHeap,
    other: Ptr,
) -> Option<u32>
    ensures same { OnSome result ((script : Script) (c d : Cell (List ℕ)) →
        cell_at ptr heap.now.heap.row ≡ Some c → cell_at other other_heap.now.heap.row ≡ Some d →
        IsSameCell names.new.names (read_cell script c) (read_cell script d)) }
    ensures end { IfSome result (λ end. (c : Cell (List ℕ)) →
        cell_at ptr heap.now.heap.row ≡ Some c → end ≡ end_of c.head) }
    ensures grown { IsGrown names.old names.new }
{
    if ptr.place != other.place {
        return None;
    }
    let Some(cell) = heap.header(ptr) else {
        return None;
    };
    let Some(other_cell) = other_heap.header(other) else {
        return None;
    };
    if !same_header(names, cell, other_cell) {
        return None;
    }
    if !same_content(names, cell.kind, heap, ptr, other_heap, other, cell.words()) {
        return None;
    }
    Some(cell.end())
}

/// Whether two heaps have the same cells, except for allocation numbers.
pub fn same_cells(names: &mut Names, heap: &DebugHeap, other: &DebugHeap) -> bool
    requires sound { IsSoundDebug heap.now }
    requires other_sound { IsSoundDebug other.now }
    ensures same { result ≡ true → (script : Script) → AllBeside (IsSameCell names.new.names)
        (read_row script heap.now.heap.row) (read_row script other.now.heap.row) }
    ensures grown { IsGrown names.old names.new }
{
    let mut at = 0;
    while let Some(cell) = heap.next_live(at) {
        let Some(other_cell) = other.next_live(at) else {
            return false;
        };
        let ends = end_if_same(names, heap, cell.pointer(), other, other_cell.pointer());
        let Some(end) = ends else {
            return false;
        };
        at = end;
    }
    match other.next_live(at) {
        None => true,
        Some(_) => false,
    }
}

fn same_item(names: &mut Names, item: Item, other: Item) -> bool
    ensures same { result ≡ true → IsSameItem names.new.names item other }
    ensures grown { IsGrown names.old names.new }
{
    match (item, other) {
        (Item::Free(ptr), Item::Free(other)) => names.relate_pointers(ptr, other),
        (Item::Delete(ptr), Item::Delete(other)) => names.relate_pointers(ptr, other),
        (Item::Call(ptr, operation), Item::Call(other, other_operation)) => {
            operation == other_operation && names.relate_pointers(ptr, other)
        }
        _ => false,
    }
}

/// Whether two cleanup stacks hold the same items, except for allocation numbers. The newest items are compared first.
pub fn same_items(
    names: &mut Names,
    stack: Cleanup,
    heap: &DebugHeap,
    other: Cleanup,
    other_heap: &DebugHeap,
) -> bool
    requires stack { IsStack stack heap.now }
    requires other { IsStack other other_heap.now }
    ensures same { result ≡ true → AllBeside (IsSameItem names.new.names)
        (items_of stack heap.now) (items_of other other_heap.now) }
    ensures grown { IsGrown names.old names.new }
{
    let (mut left, mut other_left) = (stack, other);
    while let Some(item) = left.take_top(heap, 0) {
        let Some(other_item) = other_left.take_top(other_heap, 0) else {
            return false;
        };
        if !same_item(names, item, other_item) {
            return false;
        }
    }
    other_left.used() == 0
}
