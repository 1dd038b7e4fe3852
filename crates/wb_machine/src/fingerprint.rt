//! The fingerprint of a run under way: a number that helps to find runs that go on alike. Runs that go on alike have the same fingerprint,
//! and most other runs have different fingerprints. A fingerprint doesn't decide whether two runs go on alike: `alike` does. No function
//! here changes a run.

ghost use Rattle.std.specs.Prelude.{◌≡◌, length};
ghost use Rattle.wb_heap_model.specs.CellRow.{payload_of};

use crate::machine::Machine;
use crate::state::State;
use wb_debug::DebugHeap;
use wb_heap_model::heap::{Header, Kind, Ptr};

/// The most words of one cell that go into a fingerprint, for all cells except the cleanup stack's. This bound keeps long cells from making
/// fingerprints slow.
const MOST_WORDS: u32 = 4_096;

/// How many words an item of the cleanup stack takes in its cell.
const ITEM_WORDS: u32 = 4;

/// An odd number whose ones and zeros are spread over all of its bits.
const FACTOR: u64 = 0x9e37_79b9_7f4a_7c15;

/// A fingerprint in the making. Numbers are added in pairs, and all added numbers are combined into one number.
#[derive(Drop)]
pub struct Fingerprint {
    value: u64,
}

impl Fingerprint {
    /// The fingerprint to which nothing was added yet.
    pub fn new() -> Fingerprint {
        Fingerprint { value: FACTOR }
    }

    /// The fingerprint of all numbers that were added.
    pub fn value(&self) -> u64 {
        self.value
    }

    /// Adds two numbers to the fingerprint.
    pub fn add(&mut self, one: u32, other: u32) {
        let word = (u64::from(one) << 32) | u64::from(other);
        let product = (self.value ^ word).wrapping_mul(FACTOR);
        self.value = product ^ (product >> 32);
    }
}

/// A number for each kind of cell.
fn number_of(kind: Kind) -> u32 {
    match kind {
        Kind::Raw => 0,
        Kind::Text => 1,
        Kind::Cleanup => 2,
        Kind::Object(class) => 3 + u32::from(class),
    }
}

/// Adds the first words of a payload to the fingerprint, at most `MOST_WORDS` words. The payload has `count` words.
fn add_words(print: &mut Fingerprint, heap: &DebugHeap, ptr: Ptr, count: u32)
    requires { length (payload_of ptr heap.now.heap.row) ≡ count }
{
    for i in 0..count.min(MOST_WORDS) {
        print.add(i, heap.payload(ptr, i));
    }
}

/// Adds to the fingerprint the places that an object's first fields name. The object's payload has `count` words. From the third word on,
/// each field takes two words: a place and an allocation number.
fn add_fields(print: &mut Fingerprint, heap: &DebugHeap, ptr: Ptr, count: u32)
    requires { length (payload_of ptr heap.now.heap.row) ≡ count }
{
    for i in 1..count.min(MOST_WORDS) / 2 {
        print.add(i, heap.payload(ptr, 2 * i));
    }
}

/// Adds the `items` items of the cleanup stack to the fingerprint. The items come first in the payload of the stack's cell, which has
/// `count` words. Each item adds its index, what is done with the item, the place that the item names, and the item's operation.
fn add_items(print: &mut Fingerprint, heap: &DebugHeap, ptr: Ptr, count: u32, items: u32)
    requires { length (payload_of ptr heap.now.heap.row) ≡ count }
{
    for item in 0..items.min(count / ITEM_WORDS) {
        let at = ITEM_WORDS * item;
        print.add(heap.payload(ptr, at), heap.payload(ptr, at + 1));
        print.add(item, heap.payload(ptr, at + 3));
    }
}

/// Adds to the fingerprint what a payload of `count` words holds. A Raw cell or a text adds its first words, and an object adds only the
/// places that its first fields name. The cleanup stack's cell adds only its `items` items, because the words after these items can differ
/// in runs that go on alike.
fn add_content(
    print: &mut Fingerprint,
    heap: &DebugHeap,
    kind: Kind,
    ptr: Ptr,
    count: u32,
    items: u32,
)
    requires { length (payload_of ptr heap.now.heap.row) ≡ count }
{
    match kind {
        Kind::Raw => add_words(print, heap, ptr, count),
        Kind::Text => add_words(print, heap, ptr, count),
        Kind::Object(_) => add_fields(print, heap, ptr, count),
        Kind::Cleanup => add_items(print, heap, ptr, count, items),
    }
}

/// Adds the cell that a pointer names. The cleanup stack has `items` items. Returns where the cell ends; `None` if there is no such cell.
fn add_cell(print: &mut Fingerprint, heap: &DebugHeap, ptr: Ptr, items: u32) -> Option<u32> {
    let Some(cell) = heap.header(ptr) else {
        return None;
    };
    print.add(cell.place, cell.length);
    print.add(number_of(cell.kind), cell.level);
    add_content(print, heap, cell.kind, ptr, cell.words(), items);
    Some(cell.end())
}

/// Adds all live cells, in order of place. The cleanup stack has `items` items.
fn add_cells(print: &mut Fingerprint, heap: &DebugHeap, items: u32) {
    let (count, total) = heap.alloc_size();
    print.add(count, total);
    let mut at = 0;
    for _ in 0..count {
        let Some(cell) = heap.next_live(at) else {
            return;
        };
        let Some(end) = add_cell(print, heap, cell.pointer(), items) else {
            return;
        };
        at = end;
    }
}

impl State {
    /// Adds the state to a fingerprint. States that are the same except for allocation numbers add the same numbers.
    fn add_to(&self, print: &mut Fingerprint) {
        print.add(self.items(), self.heap.level());
        print.add(0, self.this.place);
        self.locals.add_to(print);
        add_cells(print, &self.heap, self.items());
    }
}

impl<'a> Machine<'a> {
    /// The fingerprint of this run. If `goes_on_like` returns `true` for two runs, both runs have the same fingerprint. The fingerprint is
    /// made of the pending pieces, the cleanup stack's items, the number of open marks, the object whose body runs, the locals, and the
    /// live cells. Each cell except the cleanup stack's adds at most the first 4,096 words of its payload. A pointer adds its place to the
    /// fingerprint, and never its allocation number. The function asks for no memory.
    pub fn fingerprint(&self) -> u64 {
        let mut print = Fingerprint::new();
        self.control.add_to(&mut print);
        self.state.add_to(&mut print);
        print.value()
    }
}
