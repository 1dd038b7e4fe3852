//! Finds the least failure whose run leaks or panics, among all failures or a part of them, and tells how the run under each number ends. A
//! failure is what is made to fail: one attempt, all attempts from one on, the multiples of a rate, a pair or a set.
#![tactic(auto)]

mod all_numbers;
pub mod every_set;
pub mod fault;
mod followed;
pub mod fork;
pub mod found;
mod larger_sets;
mod lead;
mod pace;
mod pairs;
pub mod run_known;
mod scout;
pub mod set_sweep;
mod set_walk;
mod sets;
mod states_worth;
pub mod sweeping;
mod walk;

pub use all_numbers::sweep_all;
pub use every_set::sweep_every_set;
pub use fault::{SweepFault, Unswept};
pub use fork::result_under;
pub use found::{AllNumbers, Found, Listing, Sweep};
pub use set_sweep::sweep_sets;
pub use sweeping::{sweep, sweep_part, sweep_whole};
pub use wb_heap_model::heap::Shape;
pub use wb_meaning::conditions::Conditions;
pub use wb_meaning::run::{RunResult, Why};
pub use wb_runs::failures::{Failing, Failures};
pub use wb_runs::part::Part;
pub use wb_runs::progress::{Aim, Progress, Silent, StepProgress};
pub use wb_tree::script::Script;
