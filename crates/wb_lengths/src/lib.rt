//! How a script's runs end in heaps of every length, and the least length whose run leaks or panics.
#![tactic(auto)]

pub mod all_lengths;
mod certificate;
mod forked;
mod forks;
mod heap_runs;
mod highest_end;
mod parting;
mod set_run;
mod table_so_far;

pub use all_lengths::{BadLength, LengthFindings, first_bad, lengths, lengths_within};
pub use wb_basics::memory::NoMemory;
pub use wb_heap_model::heap::Shape;
pub use wb_meaning::conditions::Conditions;
pub use wb_meaning::run::RunResult;
pub use wb_runs::lengths::{LengthRange, LengthTable};
pub use wb_runs::progress::{Progress, Silent};
pub use wb_runs::run_end::RunEnd;
pub use wb_tree::script::Script;
