//! The calls on the cleanup stack.

ghost use Rattle.std.specs.Prelude.{◌≡◌, ◌+◌, ◌^◌, ◌<◌, nat_eq, nat_le, [], ◌∷◌, ◌++◌, None, Some};
ghost use Rattle.std.specs.Prelude.{option_map, IfErr, IfNone, IfOk, IfSome, IsOk, OnErr, OnOk, OnSome};
ghost use Rattle.wb_cleanup.specs.Pushes.{growth, GrowthLeaves, IsButForWords, IsFree, IsUnchanged};
ghost use Rattle.wb_cleanup.specs.Pushes.{KeepsItems, PushLeaves, RoomLeaves};
ghost use Rattle.wb_cleanup.specs.Stacks.{IsPopped, IsStack, cell_of, count_of, expected_refusal, items_of};
ghost use Rattle.wb_cleanup.specs.Stacks.{newest_above, pop_refusal, slots_of};
ghost use Rattle.wb_heap_model.specs.Debug.{IsSoundDebug, alloc_made, gave_of};

use crate::slots;
use wb_basics::memory::NoMemory;
use wb_debug::DebugHeap;
use wb_heap_model::heap::{Gave, Item, Kind, Panic, Ptr};

/// The length of a slot, in bytes.
const SLOT_BYTES: u32 = 16;
/// How many slots a stack begins with.
const FIRST_SLOTS: u32 = 8;
/// How many slots each growth adds.
const MORE_SLOTS: u32 = 4;

/// The cleanup stack. The stack's items are in slots, the oldest item first. The slots are words of a cell of a debug heap.
///
/// Every call that takes a heap, except `start`, needs the heap that has the stack's cell. Source: Symbian OS v9 SDK reference,
/// CleanupStack; this project's profile for the slots.
#[derive(Clone, Copy, Debug, PartialEq, Eq)]
pub struct Cleanup {
    cell: Ptr,
    /// How many items are on the stack.
    used: u32,
    /// How many items the cell has room for.
    slots: u32,
}

/// The outcome of a push.
#[derive(Clone, Copy, Debug, PartialEq, Eq)]
pub enum Pushed {
    /// The item is on the stack.
    Fine,
    /// The item is on the stack. But the item filled the last slot and the attempt to grow the cell failed, so the push leaves.
    Leave,
    /// The item isn't on the stack, because the grown cell would have ended past the heap's ceiling. This cuts the run.
    Ceiling,
}

impl Cleanup {
    /// Returns the empty stack of a run, with 8 slots. The request for the stack's cell is for 128 bytes, and is the run's first attempt.
    ///
    /// Returns `None` exactly if the first attempt fails. Returns `NoMemory` if the workbench itself runs out of memory; the heap is then
    /// as it was. Source: Symbian OS v9 SDK reference, CTrapCleanup::New; this project's profile for the length.
    pub fn start(heap: &mut DebugHeap) -> Result<Option<Cleanup>, NoMemory>
        requires first { heap.old.attempts ≡ 0 }
        ensures made { OnOk result (heap.new ≡ (alloc_made heap.old 128 Kind.Cleanup).debug) }
        ensures gave { IfOk result (λ started.
            gave_of (option_map cell_of started) ≡ (alloc_made heap.old 128 Kind.Cleanup).gave) }
        ensures stands { IfOk result (λ started. IfSome started (λ stack. IsStack stack heap.new)) }
        ensures empty { IfOk result (λ started.
            IfSome started (λ stack. items_of stack heap.new ≡ [])) }
        ensures slots { IfOk result (λ started. IfSome started (λ stack. slots_of stack ≡ 8)) }
        ensures err { OnErr result (heap.new ≡ heap.old) }
        ensures sound { IsSoundDebug heap.new }
    {
        match heap.attempt_alloc(FIRST_SLOTS * SLOT_BYTES, Kind::Cleanup)? {
            Gave::Granted(cell) => Ok(Some(Cleanup {
                cell,
                used: 0,
                slots: FIRST_SLOTS,
            })),
            Gave::Denied => Ok(None),
            Gave::Ceiling => unreachable!(),
        }
    }

    /// How many items are on the stack.
    pub fn used(&self) -> u32
        ensures { result ≡ count_of self.now }
    {
        self.used
    }

    /// The pointer to the cell in which the items are.
    pub fn cell(&self) -> Ptr
        ensures { result ≡ cell_of self.now }
    {
        self.cell
    }

    /// How many items the cell has room for.
    pub fn slots(&self) -> u32
        ensures { result ≡ slots_of self.now }
    {
        self.slots
    }

    /// Whether no slot is free. After a push at least one slot is free, unless the push returns `Leave`.
    pub fn is_full(&self) -> bool
        ensures { result ≡ nat_le (slots_of self.now) (count_of self.now) }
    {
        self.slots <= self.used
    }

    /// Whether exactly one slot is free. The next push then attempts to grow the stack's cell.
    pub fn has_one_free(&self) -> bool
        ensures { result ≡ nat_eq (count_of self.now + 1) (slots_of self.now) }
    {
        self.used < self.slots && self.used + 1 == self.slots
    }

    /// Puts an item on top. If the item fills the last slot, the cell is reallocated for 4 more slots. This reallocation is an attempt, and
    /// may move the cell.
    ///
    /// A push that doesn't fill the last slot returns `Fine` and needs no memory. After `Leave` the item is on the stack, but the stack has
    /// only as many slots as before. Returns `NoMemory` if the workbench itself runs out of memory; `NoMemory` never comes in place of
    /// `Ceiling`. After `Ceiling` or `NoMemory` the stack and the heap are as they were. Source: Symbian OS v9 SDK reference,
    /// CleanupStack::PushL; this project's profile for the slots.
    pub fn push(&mut self, heap: &mut DebugHeap, item: Item) -> Result<Pushed, NoMemory>
        requires stands { IsStack self.old heap.old }
        requires room { count_of self.old < slots_of self.old }
        requires number { heap.old.attempts + 1 < 2 ^ 32 }
        ensures pushed { IfOk result (λ pushed.
            PushLeaves pushed item self.old self.new heap.old heap.new) }
        ensures free { IsFree self.old heap.old → IsOk result }
        ensures err { OnErr result (IsUnchanged self.old self.new heap.old heap.new) }
        ensures stands { IsStack self.new heap.new }
        ensures sound { IsSoundDebug heap.new }
    {
        let pushed = self.make_room(heap)?;
        match pushed {
            Pushed::Fine | Pushed::Leave => self.put(heap, item),
            Pushed::Ceiling => {}
        }
        Ok(pushed)
    }

    /// Makes an attempt to grow the cell if one more item would fill the last slot; otherwise returns `Fine` and changes nothing.
    fn make_room(&mut self, heap: &mut DebugHeap) -> Result<Pushed, NoMemory>
        requires stands { IsStack self.old heap.old }
        requires room { count_of self.old < slots_of self.old }
        requires number { heap.old.attempts + 1 < 2 ^ 32 }
        ensures made { IfOk result (λ pushed.
            RoomLeaves pushed self.old self.new heap.old heap.new) }
        ensures items { KeepsItems self.old self.new heap.old heap.new }
        ensures room { count_of self.new < slots_of self.new }
        ensures free { IsFree self.old heap.old → IsOk result }
        ensures err { OnErr result (IsUnchanged self.old self.new heap.old heap.new) }
        ensures cut { IfOk result (λ pushed. pushed ≡ Pushed.Ceiling → IsSoundDebug heap.new) }
        ensures err_sound { OnErr result (IsSoundDebug heap.new) }
        ensures stands { IsStack self.new heap.new }
    {
        if self.used + 1 == self.slots {
            self.grow(heap)
        } else {
            Ok(Pushed::Fine)
        }
    }

    /// Makes an attempt to reallocate the cell for 4 more slots; the items in the cell stay.
    fn grow(&mut self, heap: &mut DebugHeap) -> Result<Pushed, NoMemory>
        requires stands { IsStack self.old heap.old }
        requires number { heap.old.attempts + 1 < 2 ^ 32 }
        ensures grown { IfOk result (λ pushed.
            GrowthLeaves pushed self.old self.new heap.old heap.new) }
        ensures items { KeepsItems self.old self.new heap.old heap.new }
        ensures cut { (growth self.old heap.old).gave ≡ Gave.Ceiling → IsOk result }
        ensures err { OnErr result (IsUnchanged self.old self.new heap.old heap.new) }
        ensures stands { IsStack self.new heap.new }
        ensures sound { IsSoundDebug heap.new }
    {
        let slots = self.slots + MORE_SLOTS;
        match heap.attempt_realloc(self.cell, SLOT_BYTES * slots)? {
            Gave::Granted(cell) => {
                self.cell = cell;
                self.slots = slots;
                Ok(Pushed::Fine)
            }
            Gave::Denied => Ok(Pushed::Leave),
            Gave::Ceiling => Ok(Pushed::Ceiling),
        }
    }

    /// Puts an item into the next slot.
    fn put(&mut self, heap: &mut DebugHeap, item: Item)
        requires stands { IsStack self.old heap.old }
        requires room { count_of self.old < slots_of self.old }
        ensures items { items_of self.new heap.new ≡ items_of self.old heap.old ++ item ∷ [] }
        ensures count { count_of self.new ≡ count_of self.old + 1 }
        ensures slots { slots_of self.new ≡ slots_of self.old }
        ensures cell { cell_of self.new ≡ cell_of self.old }
        ensures heap { IsButForWords (cell_of self.old) heap.old heap.new }
        ensures stands { IsStack self.new heap.new }
        ensures sound { IsSoundDebug heap.new }
    {
        slots::write(heap, self.cell, self.used, item);
        self.used += 1;
    }

    /// Removes the `n` newest items from the stack. Returns `Panic::POP_BELOW_TRAP` if fewer than `n` items are above the `floor` oldest
    /// items; the stack is then as it was.
    ///
    /// The caller decides what to do with the items. Source: Symbian OS v9 SDK reference, CleanupStack::Pop; this project's profile for the
    /// floor.
    pub fn pop(&mut self, floor: u32, n: u32) -> Result<(), Panic>
        ensures refused { IfErr result (λ panic.
            pop_refusal floor n (count_of self.old) ≡ Some panic) }
        ensures fine { OnOk result (pop_refusal floor n (count_of self.old) ≡ None) }
        ensures popped { OnOk result (IsPopped n self.old self.new) }
        ensures err { OnErr result (self.new ≡ self.old) }
    {
        if self.used < floor || self.used - floor < n {
            return Err(Panic::POP_BELOW_TRAP);
        }
        self.used -= n;
        Ok(())
    }

    /// Removes the newest item from the stack, if the item's pointer has the place and the number of `ptr`.
    ///
    /// Returns `Panic::POP_BELOW_TRAP` if no item is above the `floor` oldest items; otherwise `Panic::ANOTHER_ITEM_ON_TOP` if the newest
    /// item has another pointer. After a panic the stack is as it was. Source: Symbian OS v9 SDK reference, CleanupStack::Pop; this
    /// project's profile for the floor and the panics.
    pub fn pop_expected(&mut self, heap: &DebugHeap, floor: u32, ptr: Ptr) -> Result<(), Panic>
        requires { IsStack self.old heap.now }
        ensures refused { IfErr result (λ panic.
            expected_refusal floor ptr (items_of self.old heap.now) ≡ Some panic) }
        ensures fine { OnOk result (expected_refusal floor ptr (items_of self.old heap.now)
            ≡ None) }
        ensures popped { OnOk result (IsPopped 1 self.old self.new) }
        ensures err { OnErr result (self.new ≡ self.old) }
    {
        let Some(item) = self.newest_above(heap, floor) else {
            return Err(Panic::POP_BELOW_TRAP);
        };
        if slots::pointer(item) != ptr {
            return Err(Panic::ANOTHER_ITEM_ON_TOP);
        }
        self.used -= 1;
        Ok(())
    }

    /// Removes the newest item from the stack and returns the item. Returns `None` if no item is above the `floor` oldest items; the stack
    /// is then as it was.
    ///
    /// Source: Symbian OS v9 SDK reference, CleanupStack::PopAndDestroy; this project's profile for the floor.
    pub fn take_top(&mut self, heap: &DebugHeap, floor: u32) -> Option<Item>
        requires { IsStack self.old heap.now }
        ensures item { result ≡ newest_above floor (items_of self.old heap.now) }
        ensures taken { OnSome result (IsPopped 1 self.old self.new) }
        ensures none { IfNone result (self.new ≡ self.old) }
    {
        let item = self.newest_above(heap, floor)?;
        self.used -= 1;
        Some(item)
    }

    fn newest_above(&self, heap: &DebugHeap, floor: u32) -> Option<Item>
        requires { IsStack self.now heap.now }
        ensures { result ≡ newest_above floor (items_of self.now heap.now) }
    {
        if self.used <= floor {
            return None;
        }
        Some(slots::read(heap, self.cell, self.used - 1))
    }
}
