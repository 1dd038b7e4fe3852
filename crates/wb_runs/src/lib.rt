//! Many runs of a script: the answers that sizes, sweeps, sets, parts and lengths give, and the laws of runs and of these answers.
#![tactic(auto)]

pub mod every_set_laws;
pub mod failures;
pub mod laws;
pub mod length_laws;
pub mod lengths;
pub mod number_ends;
pub mod part;
pub mod part_laws;
pub mod progress;
pub mod renaming_laws;
pub mod run_end;
pub mod set_laws;
pub mod set_part_laws;
pub mod sweep_laws;
