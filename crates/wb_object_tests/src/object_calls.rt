//! Calls on objects, each with the answer that it must give. So a table of calls describes worked objects.

ghost use Rattle.std.specs.Prelude.{◌≡◌, ℕ, ◌+◌, ◌^◌, ◌<◌, ◌≤◌, length, true};
ghost use Rattle.wb_tree.specs.Bodies.{payload_of_object};
ghost use Rattle.wb_tree.specs.Bodies.{class_at};
ghost use Rattle.wb_objects.specs.Objects.{HasField};

use crate::pointers::{Cell, pointer};
use std::alloc::Global;
use wb_basics::items::Items;
use wb_basics::limits::CEILING;
use wb_basics::memory::NoMemory;
use wb_debug::{DebugFault, DebugHeap};
use wb_hbuf::make as make_text;
use wb_heap_model::heap::{Gave, Kind, Panic, Ptr, Rule, Shape};
use wb_objects::{class_of, field, make, set_field};
use wb_tree::script::{Class, Script};

/// A class: its extra bytes, and the class of each field, or `None` for a field without a class.
pub(crate) type ClassRow = (u32, &'static [Option<u16>]);

/// A call on objects. The last field is the answer that the call must give. The cell `(0, 0)`, at place 0 with allocation number 0, means
/// null.
#[derive(Clone, Copy)]
pub(crate) enum Call {
    /// A call to make an object: the class, and the cell that must be granted.
    Make(u16, Cell),
    /// A call to make an object that must fail.
    NoMake(u16),
    MakePastCeiling(u16),
    ClassOf(Cell, Result<u16, Panic>),
    /// A call to read a field: an object, the class that the object must be of, the index of the field, and the pointer in the field.
    Field(Cell, u16, u8, Result<Cell, Panic>),
    /// A call to set a field, with arguments as for `Field`. The pointer that the field gets comes before the answer.
    SetField(Cell, u16, u8, Cell, Result<(), Panic>),
    /// An attempt to get a raw cell: the bytes, and the cell that must be granted.
    Alloc(u32, Cell),
    /// An attempt to get an HBufC: the units, and the cell that must be granted.
    Text(u32, Cell),
    Free(Cell),
    FailNext(u32),
    /// A cell, and the first words of its payload.
    Words(Cell, &'static [u32]),
    /// A cell, an index, and how many words the payload has from this index on. All these words must be zero.
    Zeros(Cell, u32, u32),
    /// A cell, its length with the header, and the class of the object in the cell.
    Header(Cell, u32, u16),
    Attempts(u32),
}

/// Calls that make and use objects, in a heap that is empty at first.
#[derive(Clone, Copy)]
pub(crate) struct WorkedObjects {
    /// What the calls show, in words.
    pub(crate) about: &'static str,
    pub(crate) calls: &'static [Call],
}

/// The index of the first call that gives an answer other than the table's, with a script that has these classes; `None` if there is no
/// such call.
pub(crate) fn first_other(
    alloc: Global,
    classes: &[ClassRow],
    worked: &WorkedObjects,
) -> Result<Option<usize>, DebugFault> {
    let script = script_of(alloc, classes)?;
    let shape = Shape::new(0, 4096);
    let mut heap = DebugHeap::new(alloc, Rule::Unlimited, shape)?;
    Ok(first_other_in(&mut heap, &script, worked.calls))
}

fn first_other_in(heap: &mut DebugHeap, script: &Script, calls: &[Call]) -> Option<usize> {
    for (index, call) in calls.iter().enumerate() {
        if !answers(heap, script, *call) {
            return Some(index);
        }
    }
    None
}

/// Returns a script that has these classes and nothing else.
fn script_of(alloc: Global, rows: &[ClassRow]) -> Result<Script, NoMemory> {
    let mut classes = Items::new(alloc);
    for (extra, fields) in rows {
        classes.push(class(alloc, *extra, fields)?)?;
    }
    Ok(Script {
        classes,
        procedures: Items::new(alloc),
        operations: Items::new(alloc),
        literals: Items::new(alloc),
        main: 0,
    })
}

fn class(alloc: Global, extra: u32, fields: &[Option<u16>]) -> Result<Class, NoMemory> {
    let mut list = Vec::new(alloc);
    list.extend_from_slice(fields)?;
    Ok(Class {
        line: 1,
        extra,
        fields: Items::from_vec(list),
        construct: None,
        destroy: None,
    })
}

/// Whether a call gives the answer in the table.
fn answers(heap: &mut DebugHeap, script: &Script, call: Call) -> bool {
    match call {
        Call::Make(class, cell) => {
            make_object(heap, script, class) == Some(Gave::Granted(pointer(cell)))
        }
        Call::NoMake(class) => make_object(heap, script, class) == Some(Gave::Denied),
        Call::MakePastCeiling(class) => make_object(heap, script, class) == Some(Gave::Ceiling),
        Call::SetField(cell, class, i, to, answer) => {
            let ptr = pointer(cell);
            has_room(heap, ptr, i) && set_field(heap, ptr, class, i, pointer(to)) == answer
        }
        Call::Alloc(bytes, cell) => raw(heap, bytes) == Some(Gave::Granted(pointer(cell))),
        Call::Text(units, cell) => text(heap, units) == Some(Gave::Granted(pointer(cell))),
        Call::Free(cell) => heap.release(pointer(cell)) == Ok(()),
        Call::FailNext(n) if n > 0 => {
            heap.fail_next(n);
            true
        }
        _ => tells(heap, call),
    }
}

/// Whether a call that changes nothing gives the answer in the table.
fn tells(heap: &DebugHeap, call: Call) -> bool {
    match call {
        Call::ClassOf(cell, answer) => class_of(heap, pointer(cell)) == answer,
        Call::Field(cell, class, i, answer) => {
            let ptr = pointer(cell);
            has_room(heap, ptr, i) && field(heap, ptr, class, i) == answer.map(|to| pointer(to))
        }
        Call::Words(cell, words) => begins_with(heap, pointer(cell), words),
        Call::Zeros(cell, from, count) => ends_in_zeros(heap, pointer(cell), from, count),
        Call::Header(cell, length, class) => match heap.header(pointer(cell)) {
            Some(header) => header.length == length && header.kind == Kind::Object(class),
            None => false,
        },
        Call::Attempts(n) => heap.attempts() == n,
        _ => false,
    }
}

/// Makes an attempt to get an object. Returns `None` if the attempt can't be made.
fn make_object(heap: &mut DebugHeap, script: &Script, class: u16) -> Option<Gave> {
    if heap.attempts() == u32::MAX || !has_class(script, class) {
        return None;
    }
    make(heap, script, class).ok()
}

/// Whether the script has this class, and an object of the class fits below the heap's ceiling.
fn has_class(script: &Script, class: u16) -> bool
    ensures there { result ≡ true → class < length script.now.classes }
    ensures fits { result ≡ true → payload_of_object (class_at script.now class) ≤ CEILING }
{
    match script.classes.get(usize::from(class)) {
        Some(class) => class.fields.len() <= 16 && class.extra <= CEILING - 136,
        None => false,
    }
}

/// Whether the cell that the pointer names has words for the field with this index. The result is `true` if the pointer names no cell.
fn has_room(heap: &DebugHeap, ptr: Ptr, i: u8) -> bool
    ensures { result ≡ true → (class : ℕ) → HasField heap.now ptr class i }
{
    match heap.header(ptr) {
        Some(header) => 4 + 2 * u32::from(i) <= header.words(),
        None => true,
    }
}

/// Makes an attempt to get a raw cell. Returns `None` if the attempt can't be made.
fn raw(heap: &mut DebugHeap, bytes: u32) -> Option<Gave> {
    if heap.attempts() == u32::MAX || bytes > CEILING {
        return None;
    }
    heap.attempt_alloc(bytes, Kind::Raw).ok()
}

/// Makes an attempt to get an HBufC. Returns `None` if the attempt can't be made.
fn text(heap: &mut DebugHeap, units: u32) -> Option<Gave> {
    if heap.attempts() == u32::MAX || units > 16 {
        return None;
    }
    make_text(heap, units).ok()
}

/// Whether a payload begins with these words.
fn begins_with(heap: &DebugHeap, ptr: Ptr, words: &[u32]) -> bool {
    words
        .iter()
        .zip(0..)
        .all(|(word, i)| word_at(heap, ptr, i) == Some(*word))
}

/// Whether a payload has exactly `count` words from index `from` on, and all these words are zero.
fn ends_in_zeros(heap: &DebugHeap, ptr: Ptr, from: u32, count: u32) -> bool {
    let end = from.saturating_add(count);
    (from..end).all(|i| word_at(heap, ptr, i) == Some(0)) && word_at(heap, ptr, end).is_none()
}

/// A word of a payload, or `None` if the payload has no such word.
fn word_at(heap: &DebugHeap, ptr: Ptr, i: u32) -> Option<u32> {
    match heap.header(ptr) {
        Some(header) if i < header.words() => Some(heap.payload(ptr, i)),
        _ => None,
    }
}
