//! States and runs that differ only in allocation numbers: what such states have in common, what such runs have in common, and lemmas about
//! such states and runs.
#![tactic(auto)]
