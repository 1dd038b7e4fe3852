//! The command line: which command its words spell, or why they spell no command. This crate doesn't open or run anything.
#![tactic(auto)]

pub mod command;
pub mod command_line;
pub mod file_name;
pub mod limit_laws;
pub mod line_breaks;
pub mod messages;
mod tips;
