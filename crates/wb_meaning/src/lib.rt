//! What a script means: the states of a run, how each statement changes a state, and a whole run under a rule, with the run's record of
//! attempts.
#![tactic(auto)]

pub mod conditions;
pub mod progress;
pub mod run;
