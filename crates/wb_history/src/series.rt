//! A number that changes in the course of a run, kept as the list of its changes.

use std::alloc::{AllocError, Global};

/// From this step on the number has this value.
#[derive(Clone, Copy)]
pub struct Change {
    pub step: u32,
    pub value: u32,
}

/// The changes of a number, in order of their steps.
#[derive(Drop)]
pub struct Series {
    changes: Vec<Change>,
    /// The value of the last change.
    last: Option<u32>,
}

impl Series {
    pub fn new(alloc: Global) -> Series {
        Series {
            changes: Vec::new(alloc),
            last: None,
        }
    }

    pub fn changes(&self) -> &[Change] {
        self.changes.as_slice()
    }

    /// Notes the number's value after a step, if it has changed.
    #[inline(always)]
    pub fn note(&mut self, step: u32, value: u32) -> Result<(), AllocError> {
        if self.last == Some(value) {
            return Ok(());
        }
        self.add(Change { step, value })
    }

    #[inline(never)]
    fn add(&mut self, change: Change) -> Result<(), AllocError> {
        self.changes.push(change)?;
        self.last = Some(change.value);
        Ok(())
    }

    /// Returns the least value; `u32::MAX` if there is none.
    pub fn least(&self) -> u32 {
        let mut least = u32::MAX;
        for change in self.changes.as_slice() {
            least = change.value.min(least);
        }
        least
    }

    /// Returns the greatest value; 0 if there is none.
    pub fn greatest(&self) -> u32 {
        let mut greatest = 0;
        for change in self.changes.as_slice() {
            greatest = change.value.max(greatest);
        }
        greatest
    }
}
