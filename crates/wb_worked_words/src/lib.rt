//! Worked theorems of command lines: words with a fault of each kind, each proved by computing.
#![tactic(auto)]

pub mod word_theorems;
