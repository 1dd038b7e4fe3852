//! This crate has only tests of the heap, from words of memory up to attempts. The tests use the public calls of the heap's crates. The
//! tests have a crate of their own so that the heap's crates are proved once, and not again with their tests.
#![tactic(auto)]

#[cfg(test)]
mod cells;
#[cfg(test)]
mod chunks;
#[cfg(test)]
mod copies;
#[cfg(test)]
mod debug_calls;
#[cfg(test)]
mod debug_heaps;
#[cfg(test)]
mod halves;
#[cfg(test)]
mod heap_calls;
#[cfg(test)]
mod heaps;
#[cfg(test)]
mod marks;
#[cfg(test)]
mod moving_heaps;
#[cfg(test)]
mod rules;
#[cfg(test)]
mod shapes;
#[cfg(test)]
mod walker;
