//! The calls on objects. The header of an object's cell says which class the object has. The first word of the payload repeats this class,
//! for code that reads only the words.

ghost use Rattle.std.specs.Prelude.{◌≡◌, ℕ, ◌+◌, ◌*◌, ◌^◌, ◌<◌, ◌≤◌, length, None, Some, IfOk, IsOk, OnErr, OnOk};
ghost use Rattle.std.specs.Prelude.{slice_get, slice_set};
ghost use Rattle.wb_heap_model.specs.CellRow.{payload_of};
ghost use Rattle.wb_heap_model.specs.Debug.{IsSoundDebug, answer_in};
ghost use Rattle.wb_heap_model.specs.Heap.{alloc_request};
ghost use Rattle.wb_heap_model.specs.ObjectCells.{IsObjectAt};
ghost use Rattle.wb_heap_model.specs.Spelling.{fields_in};
ghost use Rattle.wb_tree.specs.Bodies.{payload_of_object};
ghost use Rattle.wb_tree.specs.Bodies.{class_at};
ghost use Rattle.wb_heap_model.specs.Texts.{answer_of};
ghost use Rattle.wb_objects.specs.Objects.{HasField, IsNewObject, class_found, field_changed, field_of, object_made};
ghost use Rattle.wb_objects.specs.Objects.{words_found};

use wb_basics::limits::CEILING;
use wb_basics::memory::NoMemory;
use wb_debug::DebugHeap;
use wb_heap_model::heap::{Gave, Kind, Panic, Ptr};
use wb_tree::script::{Class, Script};

/// The index of the payload word that holds the index of the object's class.
const CLASS_WORD: u32 = 0;
/// The index of the payload word at which the fields begin: after the class and a zero.
const FIRST_FIELD: u32 = 2;
/// How many words a field has: one for the place of its pointer, and one for the number of its pointer.
const FIELD_WORDS: u32 = 2;
/// The length of a word, in bytes.
const WORD_BYTES: u32 = 4;

/// Makes an attempt to get a cell for an object of the class with this index. All fields of the object are null.
///
/// The request is for 8 bytes, 8 more bytes for each field of the class, and the class's extra bytes. The extra bytes of a new object are
/// zero. Returns `Denied` and `Ceiling` in the same cases as the heap's `attempt_alloc`. Returns `NoMemory` if the workbench itself runs
/// out of memory; the heap is then as it was. `NoMemory` never comes in place of `Ceiling`. Source: Symbian OS v9 SDK reference, CBase, for
/// members that are zero when allocated; this project's profile for the length of the cell.
pub fn make(heap: &mut DebugHeap, script: &Script, class: u16) -> Result<Gave, NoMemory>
    requires class { class < length script.now.classes }
    requires bytes { payload_of_object (class_at script.now class) ≤ CEILING }
    requires number { heap.old.attempts + 1 < 2 ^ 32 }
    ensures gave { IfOk result (λ gave.
        gave ≡ (object_made heap.old class (class_at script.now class)).gave) }
    ensures made { OnOk result (heap.new
        ≡ (object_made heap.old class (class_at script.now class)).debug) }
    ensures cut { answer_in heap.old (alloc_request heap.old.heap
        (payload_of_object (class_at script.now class))) ≡ None → IsOk result }
    ensures object { IfOk result
        (IsNewObject heap.new class (length (class_at script.now class).fields)) }
    ensures err { OnErr result (heap.new ≡ heap.old) }
    ensures sound { IsSoundDebug heap.new }
{
    let bytes = bytes_of(script.classes.get(usize::from(class)).unwrap());
    let gave = heap.attempt_alloc(bytes, Kind::Object(class))?;
    if let Gave::Granted(ptr) = gave {
        heap.set_payload(ptr, CLASS_WORD, u32::from(class));
    }
    Ok(gave)
}

/// How many bytes `make` requests for an object of a class.
fn bytes_of(class: &Class) -> u32
    requires { payload_of_object class.now ≤ CEILING }
    ensures { result ≡ payload_of_object class.now }
{
    let fields = FIELD_WORDS * class.fields.len() as u32;
    WORD_BYTES * (FIRST_FIELD + fields) + class.extra
}

/// Returns the index of the class of the object that a pointer names. This is the object's own class, whatever class the pointer is
/// declared with.
///
/// Returns `Panic::NULL_OR_STALE` if the pointer names no live cell; otherwise `Panic::WRONG_KIND` if the cell is no object.
pub fn class_of(heap: &DebugHeap, ptr: Ptr) -> Result<u16, Panic>
    ensures { result ≡ class_found heap.now ptr }
{
    let Some(header) = heap.header(ptr) else {
        return Err(Panic::NULL_OR_STALE);
    };
    match header.kind {
        Kind::Object(class) => Ok(class),
        Kind::Raw | Kind::Text | Kind::Cleanup => Err(Panic::WRONG_KIND),
    }
}

/// Returns the pointer in field `i` of an object of this class; the class's first field has index 0.
///
/// Returns `Panic::NULL_OR_STALE` if `ptr` names no live cell; otherwise `Panic::WRONG_KIND` if the cell is no object, or is an object of
/// another class.
pub fn field(heap: &DebugHeap, ptr: Ptr, class: u16, i: u8) -> Result<Ptr, Panic>
    requires { HasField heap.now ptr class i }
    ensures answer { result ≡ field_of i (words_found heap.now ptr class) }
    ensures among { IfOk result (λ to. (count : ℕ) → i < count →
        slice_get (fields_in count (payload_of ptr heap.now.heap.row)) i ≡ Some to) }
{
    expect_class(heap, ptr, class)?;
    let at = word_of_field(i);
    Ok(Ptr {
        place: heap.payload(ptr, at),
        number: heap.payload(ptr, at + 1),
    })
}

/// Sets field `i` of an object of this class to the pointer `to`; the class's first field has index 0. Nothing else changes.
///
/// Returns the same errors as `field`; after an error the heap is as it was.
pub fn set_field(heap: &mut DebugHeap, ptr: Ptr, class: u16, i: u8, to: Ptr) -> Result<(), Panic>
    requires { HasField heap.old ptr class i }
    ensures answer { result ≡ answer_of (words_found heap.old ptr class) }
    ensures changed { heap.new ≡ field_changed heap.old ptr i to (words_found heap.old ptr class) }
    ensures fields { OnOk result ((count : ℕ) →
        fields_in count (payload_of ptr heap.new.heap.row)
        ≡ slice_set (fields_in count (payload_of ptr heap.old.heap.row)) i to) }
    ensures object { (count : ℕ) → IsObjectAt ptr class count heap.old → i < count →
        IsObjectAt ptr class count heap.new }
    ensures sound { IsSoundDebug heap.new }
{
    expect_class(heap, ptr, class)?;
    let at = word_of_field(i);
    heap.set_payload(ptr, at, to.place);
    heap.set_payload(ptr, at + 1, to.number);
    Ok(())
}

/// Checks that a pointer names an object of this class. Returns the same errors as `field`.
fn expect_class(heap: &DebugHeap, ptr: Ptr, class: u16) -> Result<(), Panic>
    ensures answer { result ≡ answer_of (words_found heap.now ptr class) }
    ensures sound { IsSoundDebug heap.now }
{
    match heap.header(ptr) {
        None => Err(Panic::NULL_OR_STALE),
        Some(header) if header.kind == Kind::Object(class) => Ok(()),
        Some(_) => Err(Panic::WRONG_KIND),
    }
}

/// The index of a field's first word in an object's payload.
fn word_of_field(i: u8) -> u32
    ensures { result ≡ 2 + 2 * i }
{
    FIRST_FIELD + FIELD_WORDS * u32::from(i)
}
