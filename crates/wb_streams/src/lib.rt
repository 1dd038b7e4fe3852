//! Streams of bytes, to read from and to write to, with one system call at a time.
#![tactic(auto)]

pub mod streams;

pub use streams::{Sink, Source, StreamFault, read_some, write_some};
