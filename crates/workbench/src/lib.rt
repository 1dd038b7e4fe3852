//! The workbench reads a script, runs it against the simulated heap, and reports.
//!
//! The program is `wb_main`, which hands the process's own words, files and streams to `program`.
#![tactic(auto)]

mod all_text;
pub mod answer;
mod appending;
mod brief;
mod end_text;
pub mod exit_status;
pub mod findings;
pub mod host;
mod json_report;
pub mod laws;
mod lengths_text;
mod line;
mod numbers_text;
pub mod program;
mod report;
pub mod report_values;
pub mod run_text;
mod searches;
mod tasks;

pub use wb_basics::memory::NoMemory;
pub use wb_command_line::command::{Command, CommandFault, Search, Task};
pub use wb_command_line::command_line::command;
pub use wb_command_line::file_name::FileName;
pub use wb_heap_model::heap::{Rule, Shape};
pub use wb_meaning::run::RunResult;
pub use wb_runs::failures::Failures;
pub use wb_runs::part::Part;
pub use wb_streams::{Sink, Source, StreamFault};
pub use wb_sweep::{Aim, Progress, Silent, StepProgress};
