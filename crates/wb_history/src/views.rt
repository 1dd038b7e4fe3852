//! Which cell's text each view shows.

use crate::statements::NULL;
use std::alloc::{AllocError, Global};
use wb_heap_model::heap::Ptr;

/// How many different indexes a body's locals may have: an index is one byte.
const LOCALS: usize = 256;

/// The cells whose texts the views of the running bodies show.
#[derive(Drop)]
pub struct Views {
    /// The cells, indexed by how many bodies run at the view, and by the view's index among its body's locals.
    cells: Vec<Ptr>,
}

impl Views {
    /// No view shows anything yet.
    pub fn new(alloc: Global) -> Views {
        Views {
            cells: Vec::new(alloc),
        }
    }

    /// Returns the cell whose text a view shows in the body at this depth; null if the view shows no cell's text.
    pub fn cell_of(&self, depth: u32, view: u8) -> Ptr {
        let at = index_of(depth, view);
        self.cells.get(at).copied().unwrap_or(NULL)
    }

    /// Notes which cell's text a view shows from now on in the body at this depth; null if it shows no cell's text. The only error is that
    /// memory ran out.
    pub fn set(&mut self, depth: u32, view: u8, cell: Ptr) -> Result<(), AllocError> {
        let at = index_of(depth, view);
        if self.cells.len() <= at {
            self.cells.resize(at.saturating_add(1), NULL)?;
        }
        if let Some(kept) = self.cells.get_mut(at) {
            *kept = cell;
        }
        Ok(())
    }
}

fn index_of(depth: u32, view: u8) -> usize {
    (depth as usize)
        .saturating_mul(LOCALS)
        .saturating_add(usize::from(view))
}
