//! What all other crates build on: lists that contracts see as their elements, printed lines, the limits, and the error for a workbench
//! that itself runs out of memory.
#![tactic(auto)]

pub mod items;
pub mod limit_laws;
pub mod limits;
pub mod memory;
pub mod printed_line;
