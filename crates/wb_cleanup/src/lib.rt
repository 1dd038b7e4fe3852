//! The cleanup stack: items in slots. The slots are words of one cell of the debug heap. This cell grows with the number of items.
//!
//! The calls are in `cleanup`. The module `slots` writes and reads one slot.
#![tactic(auto)]

pub mod cleanup;
mod slots;

pub use cleanup::{Cleanup, Pushed};
pub use wb_basics::memory::NoMemory;
pub use wb_debug::DebugHeap;
pub use wb_heap_model::heap::{Item, Panic, Ptr};
