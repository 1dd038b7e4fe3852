//! HBufC: texts in cells of the debug heap.
//!
//! The first word of a cell's payload is the text's length, in units. The text's units follow, two in each word; the first of the two is in
//! the lower half. The calls are in `hbuf`, and the sources that the calls read are in `sources`. Code that reads units is in `reading`,
//! and code that writes units is in `writing`.
#![tactic(auto)]

pub mod hbuf;
mod reading;
pub mod sources;
mod writing;

pub use hbuf::{delete, edit, edit_buf, length, make, max_len, print_units, remake, set_length};
pub use sources::{Edit, Source};
pub use wb_basics::items::Chars;
pub use wb_basics::memory::NoMemory;
pub use wb_basics::printed_line::Line;
pub use wb_debug::DebugHeap;
pub use wb_heap_model::heap::{Gave, Panic, Ptr};
pub use wb_text::Buf;
