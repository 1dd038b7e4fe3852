//! A heap full of cells of equal length, and rounds of calls over all cells.

ghost use Rattle.std.specs.Prelude.{◌≡◌, ◌+◌, ◌<◌, ◌≤◌, All};
ghost use Rattle.wb_heap_model.specs.Row.{headers};
ghost use Rattle.wb_heap_model.specs.LimitedHeap.{IsCellLength};

use std::alloc::{AllocError, Global};
use wb_basics::limits::CEILING;
use wb_heap_model::heap::{Kind, Ptr, Shape};
use wb_rheap::Heap;

/// The length of each cell, in bytes: a header and four words of payload.
const LENGTH: u32 = 32;
/// The length of a cell that fits into no hole, in bytes.
const LONG: u32 = 96;

const SHAPE: Shape = Shape {
    min: 4096,
    step: 4096,
    moving: false,
};

/// A heap, and the number of its next attempt.
#[derive(Drop)]
pub(crate) struct Filled {
    heap: Heap,
    next: u32,
    ghost numbered: { 1 ≤ next },
    ghost below: { All (λ h. h.number < next) (headers heap.row) },
}

impl Filled {
    /// A heap with `count` live cells. The pointers to these cells are added to `cells`, in order of place.
    pub(crate) fn new(
        alloc: Global,
        count: u32,
        cells: &mut Vec<Ptr>,
    ) -> Result<Filled, AllocError> {
        let Ok(heap) = Heap::new(alloc, CEILING, SHAPE) else {
            return Err(AllocError);
        };
        let mut filled = Filled { heap, next: 1 };
        for _ in 0..count {
            let cell = filled.grant(LENGTH)?;
            cells.push(cell)?;
        }
        Ok(filled)
    }

    fn grant(&mut self, length: u32) -> Result<Ptr, AllocError>
        requires { IsCellLength length }
    {
        let number = self.next;
        let Some(next) = number.checked_add(1) else {
            return Err(AllocError);
        };
        let granted = self.heap.alloc(length, Kind::Raw, number, 0);
        self.next = next;
        granted.map_err(|_| AllocError)
    }

    fn release(&mut self, cell: Ptr) {
        let _ = self.heap.free(cell);
    }

    /// Frees every second cell, beginning with the last pair of cells.
    pub(crate) fn free_every_second(&mut self, cells: &[Ptr]) {
        for pair in (0..cells.len() / 2).rev() {
            self.release(cells[2 * pair]);
        }
    }

    /// Grants a cell in each hole again.
    pub(crate) fn fill(&mut self, cells: &mut [Ptr]) -> Result<(), AllocError> {
        for pair in 0..cells.len() / 2 {
            cells[2 * pair] = self.grant(LENGTH)?;
        }
        Ok(())
    }

    /// Grants a cell above all holes and frees the cell again; does this `times` times.
    pub(crate) fn pass_over_holes(&mut self, times: u32) -> Result<(), AllocError> {
        for _ in 0..times {
            let cell = self.grant(LONG)?;
            self.release(cell);
        }
        Ok(())
    }

    /// Stores a word in each cell.
    pub(crate) fn store(&mut self, cells: &[Ptr], word: u32) {
        for cell in cells {
            self.store_in(*cell, word);
        }
    }

    fn store_in(&mut self, cell: Ptr, word: u32) {
        if let Some(header) = self.heap.header(cell)
            && header.length == LENGTH
        {
            self.heap.set_payload(cell, 1, word);
        }
    }

    /// Looks up each cell, and returns how many of these cells are live.
    pub(crate) fn look_up(&self, cells: &[Ptr]) -> usize {
        cells
            .iter()
            .filter(|cell| self.heap.header(**cell).is_some())
            .count()
    }

    /// How many bytes are free below the committed length, and the length of the longest free stretch among them, in bytes.
    pub(crate) fn available(&self) -> (u32, u32) {
        self.heap.available()
    }

    /// How many cells are live, and how many bytes the live cells take together.
    pub(crate) fn live(&self) -> (u32, u32) {
        self.heap.alloc_size()
    }
}
