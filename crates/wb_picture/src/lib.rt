//! Pictures of the heap over a run, as the text of an SVG file.
//!
//! The functions turn values into text and have no other effect. No report depends on them. A run's history (`wb_history`) holds what
//! happened in the run.
#![tactic(auto)]

mod axes;
mod bands;
mod boxes;
mod colours;
mod columns;
mod drawing;
mod end_of_run;
mod endings;
mod escape;
mod folding;
mod groups;
mod labels;
mod leaks;
mod legend;
mod lengths;
mod looks;
mod marks;
mod page;
mod panel;
mod places;
mod ranges;
mod refusals;
mod scale;
mod sheet;
mod shown;
mod titles;

pub use panel::Table;
pub use sheet::draw;
pub use shown::ShownRuns;
