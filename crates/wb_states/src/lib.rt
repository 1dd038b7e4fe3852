//! A search over the states that a script's runs come to before an attempt, under sets of failed attempts. Each state is kept once. The
//! search finds the least set whose run is bad or cut, or it finds that no set has such a run, however many attempts fail.
#![tactic(auto)]

mod again;
mod closed;
mod follow;
mod grow;
mod join;
mod labels;
mod many;
mod meeting;
mod order;
mod runs;
mod search;
mod searching;
mod state;
mod turns;

pub use searching::{Searched, search_states};
pub use state::Shown;
