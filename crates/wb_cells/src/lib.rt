//! Cells that lie end to end in a chunk of words: headers, payloads, and the free cells, which are linked in order of place.
#![tactic(auto)]

pub use cells::Cells;
pub use wb_basics::memory::NoMemory;
pub use wb_heap_model::heap::{Header, Ptr};

mod bits;
mod blocks;
pub mod cells;
mod free_list;
mod gap_index;
mod layout;
mod maxima;
mod numbers;
mod payloads;
mod ranked;
