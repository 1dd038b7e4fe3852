//! One slot of the cleanup stack: four words of the stack's cell. The first word says what the cleanup does with the item. The second and
//! third words are the place and the number of the item's pointer. The fourth word is the index of the item's operation, or 0 if the item
//! has no operation.

ghost use Rattle.std.specs.Prelude.{◌≡◌, ◌+◌, ◌*◌, ◌^◌, ◌<◌, ◌≤◌, length};
ghost use Rattle.wb_cleanup.specs.Slots.{IsSlot, with_words, words_of_slot};
ghost use Rattle.wb_heap_model.specs.CellRow.{payload_of};
ghost use Rattle.wb_heap_model.specs.CleanupCells.{IsItem, slot_words};
ghost use Rattle.wb_heap_model.specs.Debug.{IsSoundDebug, debug_changed};
ghost use Rattle.wb_heap_model.specs.Pointers.{item_pointer};

use wb_debug::DebugHeap;
use wb_heap_model::heap::{Item, Ptr};

/// The first word of the slot of an item that the cleanup frees.
const FREE: u32 = 1;
/// The first word of the slot of an object that the cleanup deletes.
const DELETE: u32 = 2;
/// The first word of the slot of an item on which the cleanup calls an operation.
const CALL: u32 = 3;

/// Writes an item into the slot with this index, and changes nothing else.
pub fn write(heap: &mut DebugHeap, cell: Ptr, slot: u32, item: Item)
    requires within { 4 * (slot + 1) ≤ length (payload_of cell heap.old.heap.row) }
    requires bounded { length (payload_of cell heap.old.heap.row) < 2 ^ 32 }
    ensures written { heap.new ≡ debug_changed heap.old cell
        (with_words (4 * slot) (slot_words item) (payload_of cell heap.old.heap.row)) }
    ensures item { IsItem item }
    ensures sound { IsSoundDebug heap.new }
{
    let (what, ptr, operation) = match item {
        Item::Free(ptr) => (FREE, ptr, 0),
        Item::Delete(ptr) => (DELETE, ptr, 0),
        Item::Call(ptr, operation) => (CALL, ptr, u32::from(operation)),
    };
    heap.set_payload(cell, 4 * slot, what);
    heap.set_payload(cell, 4 * slot + 1, ptr.place);
    heap.set_payload(cell, 4 * slot + 2, ptr.number);
    heap.set_payload(cell, 4 * slot + 3, operation);
}

/// Returns the item in the slot with this index.
pub fn read(heap: &DebugHeap, cell: Ptr, slot: u32) -> Item
    requires { IsSlot slot (payload_of cell heap.now.heap.row) }
    ensures { slot_words result ≡ words_of_slot slot (payload_of cell heap.now.heap.row) }
{
    let ptr = Ptr {
        place: heap.payload(cell, 4 * slot + 1),
        number: heap.payload(cell, 4 * slot + 2),
    };
    match heap.payload(cell, 4 * slot) {
        FREE => Item::Free(ptr),
        DELETE => Item::Delete(ptr),
        _ => Item::Call(ptr, heap.payload(cell, 4 * slot + 3) as u16),
    }
}

/// Returns the pointer of an item.
pub fn pointer(item: Item) -> Ptr
    ensures { result ≡ item_pointer item }
{
    match item {
        Item::Free(ptr) => ptr,
        Item::Delete(ptr) => ptr,
        Item::Call(ptr, _) => ptr,
    }
}
