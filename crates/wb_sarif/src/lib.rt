//! Explanations as a SARIF log: JSON of the Static Analysis Results Interchange Format, version 2.1.0, which forges and editors read.
//!
//! The functions turn values into text and have no other effect. No report depends on them. The explanation (`wb_explain`) holds what was
//! found, at which lines, and how it came about. So the log and the text on standard error say the same.
#![tactic(auto)]

mod escape;
mod flows;
mod log;
mod notifications;
mod places;
mod results;
mod rules;
mod writing;

pub use log::{HEAD, log_of};
