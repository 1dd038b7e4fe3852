//! Worked theorems of sets of failures and of faults: what the definitions say of small scripts, each proved by computing. The theorems
//! show that the definitions mean what the documentation says.
#![tactic(auto)]

pub mod fault_theorems;
pub mod set_theorems;
