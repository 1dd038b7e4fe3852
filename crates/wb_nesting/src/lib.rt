//! The nesting of blocks: which lines of a script are allowed where they are, judged by their roles alone.
#![tactic(auto)]

pub mod nesting;
pub mod open;

pub use nesting::first_misfit;
pub use open::{Move, Open};
