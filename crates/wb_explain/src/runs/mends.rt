//! Changes of a script that may mend what a run found, and what is said about a change that was tried. Which change mends the script is found
//! by trying them, which is done elsewhere: nothing here reads a script or runs one.

mod aliases;
mod anchors;
mod blocks;
mod candidates;
mod code_words;
mod copied_releases;
mod counts_reset;
mod dependent;
mod destructors;
mod done_by_item;
mod edits;
mod fresh_cells;
mod fresh_values;
mod guard_words;
mod guards;
mod held;
mod item_words;
mod items;
mod kept_values;
mod line_changes;
mod line_texts;
mod line_words;
mod looks;
mod moves;
mod new_names;
mod null_leaves;
mod nulls;
mod passed_pushes;
mod pop_counts;
mod push_orders;
mod release_orders;
mod releases;
mod rooms;
mod sooner;
mod split_pops;
mod stored_back;
mod taken_out;
mod texts;
mod value_words;
mod views;
mod words;

pub use candidates::mends_of;
pub use edits::Mend;
pub use texts::text_with;
pub use words::{Tried, is_one_of_several, mend_found, says_cause};
