//! 16-bit descriptors that own no memory: buffers with a stated maximum length, and views.
//!
//! Positions, counts and lengths are in units of 16 bits. Source of the rules for edits: Symbian OS v9 SDK reference, 16-bit descriptors.
#![tactic(auto)]

pub mod buf;
pub mod units;

pub use buf::Buf;
pub use units::{Units, append_bytes, append_units};
pub use wb_basics::items::Chars;
pub use wb_heap_model::heap::Panic;
pub use wb_heap_model::text::{Base, View};
