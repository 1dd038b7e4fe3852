//! This crate has only tests, which use the public calls of other crates. The tests are about machine turns, shapes that no heap may have,
//! the table of lengths, and attempts that fail (at a rate, from a number on, as a pair or as a set). Other tests are about the program
//! with words, hosts and streams in memory, and the progress that the program reports during a sweep. The tests have a crate of their own
//! so that those other crates are proved once, and not again with their tests. No test is here for anything that a worked case can show.
#![tactic(auto)]

#[cfg(test)]
mod answers;
#[cfg(test)]
mod failing;
#[cfg(test)]
mod faults;
#[cfg(test)]
mod lengths;
#[cfg(test)]
mod notes;
#[cfg(test)]
mod pairs;
#[cfg(test)]
mod parts;
#[cfg(test)]
mod persistent;
#[cfg(test)]
mod programs;
#[cfg(test)]
mod progress;
#[cfg(test)]
mod rates;
#[cfg(test)]
mod rules;
#[cfg(test)]
mod set_progress;
#[cfg(test)]
mod sets;
#[cfg(test)]
mod shapes;
#[cfg(test)]
mod tasks;
#[cfg(test)]
mod turns;
#[cfg(test)]
mod words;
