//! The items on the cleanup stack, and where each was pushed.

use crate::calls::{Calls, Stay};
use crate::moments::{Moment, ShortLine};
use std::alloc::{AllocError, Global};
use wb_heap_model::heap::{Item, Ptr};

/// The most items that are checked when bodies end, counted from the newest item.
const MOST_LEFT: usize = 8;

/// An item on the cleanup stack, and when it was pushed.
#[derive(Clone, Copy, Debug, PartialEq, Eq)]
pub struct ItemOnStack {
    pub item: Item,
    pub pushed: Moment,
    /// How many bodies ran when the item was pushed.
    pub depth: u32,
    /// The first body that left the item on the cleanup stack when it ended, and returned no pointer; `None` if there is no such body.
    pub left: Option<Stay>,
    /// The last pop that took off an item just above this item; `None` if there was none.
    pub above: Option<Popped>,
}

/// A line that popped an item, and the line that had pushed the item.
#[derive(Clone, Copy, Debug, PartialEq, Eq)]
pub struct Popped {
    pub line: ShortLine,
    pub pushed: ShortLine,
}

impl ItemOnStack {
    /// The pointer of the item.
    pub fn pointer(self) -> Ptr {
        match self.item {
            Item::Free(pointer) | Item::Delete(pointer) | Item::Call(pointer, _) => pointer,
        }
    }
}

/// An item that a line took off the stack, though the item was there when the line's body began, or another body left it, or another body was
/// called in between.
#[derive(Clone, Copy, Debug, PartialEq, Eq)]
pub struct Taken {
    pub line: u32,
    pub pushed: u32,
    /// The body that took off an item of its caller, or the body that left the item to its caller, or the body that was called in between.
    pub body: Stay,
}

/// The items on the cleanup stack, the newest last.
#[derive(Drop)]
pub struct ItemsOnStack {
    items: Vec<ItemOnStack>,
    /// The last item that was taken off by a body that had begun after the push, and the last item left by an ended body that was taken off;
    /// else `None`.
    pub of_caller: Option<Taken>,
    pub of_callee: Option<Taken>,
    /// The last item that a body pushed and took off itself, after it had called a body that left no item; `None` if there is none.
    pub after_callee: Option<Taken>,
}

impl ItemsOnStack {
    /// No item has been pushed yet.
    pub fn new(alloc: Global) -> ItemsOnStack {
        ItemsOnStack {
            items: Vec::new(alloc),
            of_caller: None,
            of_callee: None,
            after_callee: None,
        }
    }

    pub fn all(&self) -> &[ItemOnStack] {
        self.items.as_slice()
    }

    /// Returns how many items there are.
    pub fn count(&self) -> usize {
        self.items.len()
    }

    /// Returns the newest item; `None` if there is none.
    pub fn newest(&self) -> Option<ItemOnStack> {
        self.items.last().copied()
    }

    /// Returns the oldest item of a pointer; `None` if the pointer has no item.
    pub fn find(&self, pointer: Ptr) -> Option<ItemOnStack> {
        for item in self.items.as_slice() {
            if item.pointer() == pointer {
                return Some(*item);
            }
        }
        None
    }

    /// Notes which of the bodies that just ended left the newest items. `calls` must already know that these bodies ended.
    pub fn note_left(&mut self, calls: &Calls<'_>) {
        let count = self.items.len();
        for back in 1..=count.min(MOST_LEFT) {
            if let Some(at) = count.checked_sub(back)
                && let Some(item) = self.items.get_mut(at)
                && item.left.is_none()
            {
                item.left = calls.left_by(item.depth, item.pushed.step);
            }
        }
    }

    /// A line pushes an item, while `depth` bodies run.
    pub fn push(&mut self, item: Item, pushed: Moment, depth: u32) -> Result<(), AllocError> {
        self.items.push(ItemOnStack {
            item,
            pushed,
            depth,
            left: None,
            above: None,
        })?;
        Ok(())
    }

    /// A line pops the newest item. Returns this item; `None` if there is none.
    pub fn pop_by(&mut self, line: u32) -> Option<ItemOnStack> {
        let Some(item) = self.items.pop() else {
            return None;
        };
        let popped = Popped {
            line: ShortLine::of(line),
            pushed: ShortLine::of(item.pushed.line),
        };
        if let Some(below) = self.items.last_mut() {
            below.above = Some(popped);
        }
        Some(item)
    }

    /// Takes the newest item off, and returns it; `None` if there is none.
    pub fn pop(&mut self) -> Option<ItemOnStack> {
        self.items.pop()
    }
}
