//! Watches a run, one machine turn after another, and keeps what happens in the run's history. No theorem is about what is kept, and no
//! report depends on it. Nothing here is text for people.
//!
//! `watch_run` runs a script once with given `RunParameters`, and keeps a `History` (`wb_history`). `watch_attempts` runs a script only up
//! to a given point, and keeps only the attempts. When a run is over, `watch_run` also says how it ended (`WatchedRun`): its outcome and,
//! for a run that panicked, what raised the panic, and which pointer, values or cells the panic is about.
//!
//! Before a machine turn, the machine says which statement the turn is to begin, and what the statement's pointers name. After the turn,
//! the machine shows what became of these pointers' cells. So watching a turn costs a few looks at single cells, and never a look at all
//! cells. For most statements, such as `add`, only the line is kept (`quiet`), and of `store` and `load` the word as well.
#![tactic(auto)]

mod attempts;
mod checks;
mod looks;
mod pointer_faults;
mod quiet;
mod raised;
mod statements;
mod turns;
mod values;
mod views;
mod watch;
mod words;

pub use looks::{has_panicked, live_at};
pub use statements::Ahead;
pub use watch::{Until, machine_of, watch_attempts, watch_run};
