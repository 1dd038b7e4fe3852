//! Cells as the tables of calls write them.

use wb_heap_model::heap::Ptr;

/// The place and the allocation number of a cell.
pub(crate) type Cell = (u32, u32);

/// The pointer to a cell.
pub(crate) fn pointer(cell: Cell) -> Ptr {
    Ptr {
        place: cell.0,
        number: cell.1,
    }
}
