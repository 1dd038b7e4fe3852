//! Which cells a failed heap check counted.

use std::alloc::AllocError;
use wb_heap_model::heap::Ptr;

/// The most cells that are listed.
const MOST_CELLS: usize = 20;

/// The cells counted by the heap check whose panic ended the run.
#[derive(Drop)]
pub struct Counted {
    /// How many cells the check expected, and how many it found.
    pub expected: i32,
    pub found: u32,
    /// The lowest of the cells that the check found, in order of their places.
    pub cells: Vec<Ptr>,
}

impl Counted {
    /// Returns the lowest cell; `None` if no cell was counted.
    pub fn lowest(&self) -> Option<Ptr> {
        self.cells.first().copied()
    }

    /// Counts one more cell, the next in order of places. The only error is that memory ran out.
    pub fn add(&mut self, cell: Ptr) -> Result<(), AllocError> {
        self.found = self.found.saturating_add(1);
        if self.cells.len() < MOST_CELLS {
            self.cells.push(cell)?;
        }
        Ok(())
    }
}
