//! The simulated heap: live cells with their payloads, below a limit.
//!
//! This crate defines how a grant, a release, a compression and a store change the heap. The crate `wb_cells` defines how cells are laid
//! out in words.
#![tactic(auto)]

pub use fault::HeapFault;
pub use heap::Heap;
pub use wb_heap_model::heap::{Header, Kind, Ptr, Shape};

pub mod fault;
pub mod heap;
mod moves;
mod payloads;
mod realloc;
mod room;
mod space;
