//! The heap's plain types and their definitions: rows of cells, the places of new cells, the calls of a debug heap, the words that cells
//! hold, and texts.
#![tactic(auto)]

pub mod heap;
pub mod panic_laws;
pub mod reported;
pub mod rise_laws;
pub mod size;
pub mod text;
