//! Why a script was refused: which line and word, what is wrong with it, and what to write instead, as text for standard error.
//!
//! The functions turn values into text and have no other effect. No report depends on them.
#![tactic(auto)]

mod arguments;
mod blocks;
mod conditions;
mod counterparts;
mod cpp_lines;
mod double;
mod elsewhere;
mod forms;
mod further_lines;
mod kinds;
mod leaving;
mod limits;
mod lines;
mod main_missing;
mod meant;
mod misplaced;
mod misspelled;
mod near_names;
mod nearest;
mod not_ascii;
mod operand_kinds;
pub mod refused;
mod spaces;
mod unknown;
mod words;
mod wrong_words;

pub use refused::refused_script;
