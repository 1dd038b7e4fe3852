//! Pushes items onto a cleanup stack: so many that the stack's cell first grows in place, and later grows by a move.

ghost use Rattle.std.specs.Prelude.{◌≡◌, IfOk, IfSome};
ghost use Rattle.wb_cleanup.specs.Stacks.{IsStack};
ghost use Rattle.wb_heap_model.specs.Debug.{IsSoundDebug};

use crate::calls;
use crate::heaps::SHAPE;
use crate::lines::{show, write_gave, write_heap};
use crate::stop::Stop;
use std::alloc::{AllocError, Global};
use std::marker::Model;
use wb_basics::memory::NoMemory;
use wb_cleanup::{Cleanup, Pushed};
use wb_debug::DebugHeap;
use wb_heap_model::heap::{Gave, Item, Kind, Ptr, Rule};

/// How many items are pushed before another cell is made, at a place after the stack's cell.
const FIRST: u32 = 9;

/// How many items are pushed after the other cell is made.
const LATER: u32 = 12;

/// A cleanup stack in its heap. Contracts see only the heap.
#[derive(Drop)]
struct Stacked {
    heap: DebugHeap,
    stack: Cleanup,
}

impl Model for Stacked {
    ghost use Rattle.wb_call_tests.specs.Stacked.{IsStacked};
    ghost use Rattle.wb_heap_model.specs.Debug.{Debug};

    ghost Value = { Debug };

    ghost view = { λ s. s.heap };

    ghost invariant = { λ s. IsStacked s.stack s.heap };
}

/// Pushes items, and then takes them off again. Prints each item that is taken off, the newest first.
pub(crate) fn push_items(rt: &HostRuntime) -> Result<(), Stop> {
    let mut stacked = empty_stack(rt.alloc())?;
    push_and_take(rt, &mut stacked)
}

fn push_and_take(rt: &HostRuntime, stacked: &mut Stacked) -> Result<(), Stop> {
    stacked.push_some(rt, 0, FIRST)?;
    let gave = stacked.alloc(16)?;
    write_gave(rt, "alloc", 16, gave, &stacked.heap)?;
    stacked.push_some(rt, FIRST, LATER)?;
    show(rt, "after all pushes", &stacked.heap)?;
    stacked.take_all(rt)
}

/// Returns an empty stack in a heap of its own.
fn empty_stack(alloc: Global) -> Result<Stacked, NoMemory> {
    let Ok(mut heap) = DebugHeap::new(alloc, Rule::Unlimited, SHAPE) else {
        return Err(NoMemory::from(AllocError));
    };
    match start(&mut heap)? {
        Some(stack) => Ok(Stacked { heap, stack }),
        None => Err(NoMemory::from(AllocError)),
    }
}

/// Starts a stack. If memory ran out, starts it a second time.
fn start(heap: &mut DebugHeap) -> Result<Option<Cleanup>, NoMemory>
    requires first { heap.old.attempts ≡ 0 }
    ensures stands { IfOk result (λ started. IfSome started (λ stack. IsStack stack heap.new)) }
    ensures sound { IsSoundDebug heap.new }
{
    match Cleanup::start(heap) {
        Ok(started) => Ok(started),
        Err(_) => Cleanup::start(heap),
    }
}

impl Stacked {
    /// Pushes `n` items. The first of these items has the number `from`.
    fn push_some(&mut self, rt: &HostRuntime, from: u32, n: u32) -> Result<(), Stop> {
        for i in from..from.saturating_add(n) {
            let pushed = self.push(item(i))?;
            print!(rt; "push {i}: {pushed:?}, {} items", self.stack.used())?;
            write_heap(rt, &self.heap)?;
        }
        Ok(())
    }

    /// Pushes an item. If memory ran out, pushes it a second time.
    fn push(&mut self, item: Item) -> Result<Pushed, NoMemory> {
        if self.stack.is_full() || self.heap.attempts() == u32::MAX {
            return Err(NoMemory::from(AllocError));
        }
        match self.stack.push(&mut self.heap, item) {
            Ok(pushed) => Ok(pushed),
            Err(_) => self.stack.push(&mut self.heap, item),
        }
    }

    /// Makes an attempt to get a raw cell. The cell is to be after the stack's cell.
    fn alloc(&mut self, bytes: u32) -> Result<Gave, NoMemory> {
        calls::alloc(&mut self.heap, bytes, Kind::Raw)
    }

    /// Takes the newest item off the stack, and returns it; `None` if the stack is empty.
    fn take(&mut self) -> Option<Item> {
        self.stack.take_top(&self.heap, 0)
    }

    /// Takes all items off the stack, and prints each item.
    fn take_all(&mut self, rt: &HostRuntime) -> Result<(), Stop> {
        for _ in 0..FIRST + LATER + 1 {
            let item = self.take();
            println!(rt; "take: {item:?}, {} items", self.stack.used())?;
        }
        Ok(())
    }
}

/// The item with number `i`. Items with different numbers are different.
fn item(i: u32) -> Item {
    let ptr = Ptr {
        place: i,
        number: i,
    };
    if i % 2 == 0 {
        Item::Free(ptr)
    } else {
        Item::Delete(ptr)
    }
}
