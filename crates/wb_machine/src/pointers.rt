//! The values of pointer operands in a frame: what a local holds, `self`, and fields of objects.

ghost use Rattle.std.specs.Prelude.{◌≡◌, ◌+◌, ◌*◌, List, length, nat_le};
ghost use Rattle.wb_heap_model.specs.CellRow.{payload_of};
ghost use Rattle.wb_heap_model.specs.Texts.{Buffer};
ghost use Rattle.wb_objects.specs.Objects.{words_found};
ghost use Rattle.wb_machine.specs.RunState.{field_count};
ghost use Rattle.wb_machine.specs.LocalValues.{values_stored};
ghost use Rattle.wb_machine.specs.PointerOperands.{holder_pointer_over, field_among, pointer_over};

use crate::locals::{NULL, Slot, Stored};
use wb_debug::debug_heap::DebugHeap;
use wb_heap_model::heap::Ptr;
use wb_objects::field;
use wb_tree::script::{Holder, Pointer, Script};

/// What operands are read from besides the locals of their frame: the script, the heap, and the object whose body runs.
#[derive(Clone, Copy)]
pub struct ReadContext<'b> {
    pub script: &'b Script,
    pub heap: &'b DebugHeap,
    pub this: Ptr,
}

/// The pointer that a holder holds: a local's pointer in `frame`, or `this` if the holder is `self`. The result is null if the local holds
/// no pointer.
#[inline(always)]
pub fn holder_pointer_over(this: Ptr, frame: &[Stored], holder: Holder) -> Ptr
    ensures { (buffers : List Buffer) →
        result ≡ holder_pointer_over this (values_stored buffers frame.now) holder }
{
    let Holder::Local(index) = holder else {
        return this;
    };
    match frame.get(index as usize) {
        Some(Stored::Small(Slot::Pointer(ptr))) => *ptr,
        _ => NULL,
    }
}

/// How many fields the objects of a class have.
fn field_count(script: &Script, class: u16) -> usize
    ensures { result ≡ field_count script.now class }
{
    match script.classes.get(class as usize) {
        Some(class) => class.fields.len(),
        None => 0,
    }
}

/// Whether a pointer names a live cell that is long enough to have words for an object's field with this index.
pub fn has_words(heap: &DebugHeap, ptr: Ptr, index: u8) -> bool
    ensures { result ≡ nat_le (4 + 2 * index) (length (payload_of ptr heap.now.heap.row)) }
{
    match heap.header(ptr) {
        Some(header) => 32 + 8 * u32::from(index) <= header.length,
        None => false,
    }
}

/// The pointer in a field of an object; null if `object` names no object of the class, or the class has no field with this index.
///
/// An object is made with room for all fields of its class, and a script that was read names only fields that the class has. So an object
/// of the class always has the field in a run of such a script.
#[inline(never)]
fn field_over(script: &Script, heap: &DebugHeap, object: Ptr, class: u16, index: u8) -> Ptr
    ensures { result
        ≡ field_among (field_count script.now class) index (words_found heap.now object class) }
{
    if field_count(script, class) <= usize::from(index) {
        return NULL;
    }
    if !has_words(heap, object, index) {
        return NULL;
    }
    match field(heap, object, class, index) {
        Ok(ptr) => ptr,
        Err(_) => NULL,
    }
}

/// The value of a pointer operand in a frame; null if the operand names no pointer.
#[inline(always)]
pub fn pointer_over(context: ReadContext, frame: &[Stored], operand: Pointer) -> Ptr
    ensures { (buffers : List Buffer) →
        result ≡ pointer_over context.entry.script.now context.entry.heap.now context.entry.this
        (values_stored buffers frame.now) operand }
{
    match operand {
        Pointer::Held(holder) => holder_pointer_over(context.this, frame, holder),
        Pointer::Field(holder, class, index) => {
            let object = holder_pointer_over(context.this, frame, holder);
            field_over(context.script, context.heap, object, class, index)
        }
    }
}
