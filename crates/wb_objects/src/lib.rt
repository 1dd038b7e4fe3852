//! Objects: cells of the debug heap. Each object has a class, and a pointer for each field of the class.
//!
//! The first word of an object's payload is the index of the class, and the second word is 0. After these two words, each field has two
//! words: the place and the number of the field's pointer. The calls are in `objects`.
#![tactic(auto)]

pub mod objects;

pub use objects::{class_of, field, make, set_field};
pub use wb_basics::memory::NoMemory;
pub use wb_debug::DebugHeap;
pub use wb_heap_model::heap::{Gave, Panic, Ptr};
pub use wb_tree::script::Script;
