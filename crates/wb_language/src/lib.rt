//! The language of scripts: lines, words and forms, the tree that they spell, the checks of a script and their faults, and the laws of
//! reading lines.
#![tactic(auto)]

pub mod fault;
pub mod line_laws;
