//! The debug heap: a simulated heap that counts the attempts to get a cell, decides which attempts fail, and checks nested marks.
//!
//! The modules `setting` (the script's own setting) and `rules` (the run's rule) decide whether an attempt fails. The records of attempts
//! are in `log`, the counts of the live cells are in `tally`, and the checks are in `checks`.
#![tactic(auto)]

pub use debug_heap::DebugHeap;
pub use fault::DebugFault;
pub use rules::cell_length;
pub use wb_basics::memory::NoMemory;
pub use wb_heap_model::heap::{Answer, Attempt, Gave, Header, Kind, Panic, Ptr, Rule, Shape};
pub use wb_heap_model::reported::{Leak, Leaks, Note, Trace};
pub use wb_heap_model::size::{Rise, Rises};
pub use wb_rheap::Heap;

mod checks;
pub mod debug_heap;
mod failing;
pub mod fault;
mod level_counts;
mod log;
mod marks;
mod new_heaps;
mod notes;
mod payloads;
mod readers;
mod rules;
mod setting;
mod tally;
