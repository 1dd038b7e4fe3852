//! Reads a script: from its bytes to its tree, or to its first fault.
//!
//! Lines stay a flat list up to the last step. Each line has one form. One pass over the forms checks how blocks are nested, and another
//! checks names, kinds, leaves and limits. The tree is made only of lines in which no check finds a fault.
#![tactic(auto)]

pub mod check_laws;
mod checks;
pub mod laws;
mod reading;
mod tree;

pub use reading::read;
pub use wb_language::fault::ScriptFault;
pub use wb_tree::script::Script;
