//! Shows people a run step by step: a row for each step says what the step did to the heap and to the cleanup stack. No theorem is about
//! this crate, and no report depends on it.
//!
//! `follow_run` runs a script several times. The first run, to its end, shows how many steps the run takes. If the user asks for an
//! attempt, another run shows which step makes this attempt (`window`). The last run goes one machine turn at a time (`turns`), and the
//! machine is looked at before each turn (`before`) and after it. Only the things that are open in the run are kept: items, TRAPs, turns of
//! a `repeat`, and objects whose destructor runs (`open`). What each turn did is written at once (`effects`, `calls`), in columns (`rows`).
//! So the memory for following a run doesn't grow with the number of steps.
#![tactic(auto)]

mod before;
mod begun;
mod calls;
mod effects;
mod endings;
mod follow;
mod open;
mod rows;
mod statements;
mod turns;
mod window;

pub use follow::follow_run;
pub use rows::RowSink;
pub use window::Asked;
