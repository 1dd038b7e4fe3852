//! A reader or a writer whose calls all work, except for a single call that fails.

use crate::answers::{Giver, Taker};
use std::io::{self, ErrorKind, Read, Write};

/// A stream of which one call fails, while all calls before and after it work. `at` is the number of this call, counted from 0. The call
/// fails with an error of the kind `with`. If `with` is `None`, the call fails by taking no byte.
#[derive(Drop)]
pub(super) struct FailingOnce<S> {
    pub(super) stream: S,
    at: usize,
    with: Option<ErrorKind>,
    pub(super) calls: usize,
}

impl<S> FailingOnce<S> {
    pub(super) fn new(stream: S, at: usize, with: Option<ErrorKind>) -> FailingOnce<S> {
        FailingOnce {
            stream,
            at,
            with,
            calls: 0,
        }
    }

    /// What the next call returns if it is the call that fails; else `None`.
    fn failure(&mut self) -> Option<io::Result<usize>> {
        let call = self.calls;
        self.calls = call.wrapping_add(1);
        if call != self.at {
            return None;
        }
        Some(match self.with {
            Some(kind) => Err(io::Error::from(kind)),
            None => Ok(0),
        })
    }
}

impl Read for FailingOnce<Giver<'_>> {
    fn read(&mut self, buffer: &mut [u8]) -> io::Result<usize> {
        if let Some(Err(error)) = self.failure() {
            return Err(error);
        }
        self.stream.read(buffer)
    }
}

impl Write for FailingOnce<Taker> {
    fn write(&mut self, bytes: &[u8]) -> io::Result<usize> {
        match self.failure() {
            Some(Err(error)) => Err(error),
            Some(Ok(_)) => Ok(0),
            None => self.stream.write(bytes),
        }
    }

    fn flush(&mut self) -> io::Result<()> {
        Ok(())
    }
}
