//! The lines of a script: which bytes they may hold, how bytes are cut into lines and words, and what a word is. Also the tables of the
//! language, the one form that these tables give each line, and what a form declares.
#![tactic(auto)]

pub mod bytes;
pub mod declares;
pub mod forms;
pub mod leaving;
pub mod line_kinds;
pub mod lists;
pub mod operand_kinds;
pub mod operand_places;
pub mod same;
pub mod segments;
pub mod words;
