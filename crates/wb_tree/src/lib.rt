//! The tree of a script: its types, which bodies cannot leave, what makes a tree sound, and which line kind and operands the first line of
//! each statement has.
#![tactic(auto)]

pub mod script;
pub mod script_lines;
