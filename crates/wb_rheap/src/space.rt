//! The committed length of the chunk, and the length of the longest free run below the committed length, both in bytes.

ghost use Rattle.std.specs.Prelude.{◌≡◌, ◌≤◌, true, min};
ghost use Rattle.wb_heap_model.specs.Row.{headers, top_of};
ghost use Rattle.wb_heap_model.specs.Space.{is_shape, space_below, bound_below, round_up, committed_by, compressed_to};
ghost use Rattle.wb_heap_model.specs.Space.{free_runs, longest};

use wb_basics::limits::CEILING;
use wb_cells::Cells;
use wb_heap_model::heap::Shape;

/// Returns the greatest committed length under a limit: the limit rounded down to a multiple of 16.
pub fn greatest_below(limit: u32) -> u32
    ensures { result ≡ bound_below limit }
{
    limit / 16 * 16
}

/// Returns the least committed length under a limit: the shape's least length or the greatest committed length, whichever is less.
pub fn least_for(limit: u32, shape: Shape) -> u32
    ensures { result ≡ min shape.min (bound_below limit) }
{
    shape.min.min(greatest_below(limit))
}

/// Returns `end` rounded up to whole growth steps or the greatest committed length, whichever is less.
fn grown_to(limit: u32, shape: Shape, end: u32) -> u32
    requires shape { is_shape shape ≡ true }
    requires end { end ≤ CEILING }
    ensures { result ≡ min (round_up end shape.step) (bound_below limit) }
{
    let grown = (end + (shape.step - 1)) / shape.step * shape.step;
    grown.min(greatest_below(limit))
}

/// Returns the committed length after a cell that ends at `end` was granted.
pub fn committed_for(limit: u32, shape: Shape, committed: u32, end: u32) -> u32
    requires shape { is_shape shape ≡ true }
    requires end { end ≤ CEILING }
    ensures { result ≡ committed_by (space_below (bound_below limit) shape) committed end }
{
    if end <= committed {
        return committed;
    }
    grown_to(limit, shape, end)
}

/// Returns the committed length after the compression of a chunk whose last cell ends at `top`.
pub fn compressed_for(limit: u32, shape: Shape, committed: u32, top: u32) -> u32
    requires shape { is_shape shape ≡ true }
    requires top { top ≤ CEILING }
    ensures { result ≡ compressed_to (space_below (bound_below limit) shape) committed top }
{
    let kept = grown_to(limit, shape, top).max(least_for(limit, shape));
    kept.min(committed)
}

/// Returns the length of the longest free run below the committed length.
pub fn longest_run(cells: &Cells, committed: u32) -> u32
    requires { top_of (headers cells.now.row) ≤ committed }
    ensures { result ≡ longest (free_runs 0 (headers cells.now.row) committed) }
{
    cells.longest_gap().max(committed - cells.top())
}
