//! This crate has only tests: of lists and views, of texts in buffers and in cells, of objects, and of the cleanup stack. The tests use the
//! public calls of other crates. The tests have a crate of their own so that those other crates are proved once, and not again with their
//! tests.
#![tactic(auto)]

#[cfg(test)]
mod buffers;
#[cfg(test)]
mod cell_moves;
#[cfg(test)]
mod cell_texts;
#[cfg(test)]
mod lists;
#[cfg(test)]
mod literals;
#[cfg(test)]
mod object_calls;
#[cfg(test)]
mod objects;
#[cfg(test)]
mod pointers;
#[cfg(test)]
mod rules;
#[cfg(test)]
mod stacks;
#[cfg(test)]
mod texts;
#[cfg(test)]
mod worked_stacks;
