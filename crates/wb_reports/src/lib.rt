//! The law that every command has a report, whether the bytes spell a script or have a fault. So promises about reports are never empty.
#![tactic(auto)]

pub mod report_laws;
