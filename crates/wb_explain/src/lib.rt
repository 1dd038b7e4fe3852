//! Explanations for people, as text for standard error: what a run found and where, or what went wrong with a file.
//!
//! These are plain functions from values to text, and no report depends on them. `wb_mistakes` says why a script is rejected.
#![tactic(auto)]

pub mod files;
pub mod runs;
