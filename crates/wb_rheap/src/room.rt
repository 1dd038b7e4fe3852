//! How the workbench takes its own memory for the simulated chunk.

ghost use Rattle.std.specs.Prelude.{◌≡◌, ◌≤◌, ◌%◌, true, max, IfOk, OnOk, OnErr};
ghost use Rattle.wb_heap_model.specs.Space.{is_shape, space_below, bound_below, committed_by};
ghost use Rattle.wb_rheap.specs.Refusals.{RefusesOnly};

use crate::fault::HeapFault;
use crate::space;
use wb_basics::limits::CEILING;
use wb_cells::Cells;
use wb_heap_model::heap::Shape;

/// Checks that a cell that ends at `end` is within the limit. Takes the workbench's memory for the committed length that the cell needs,
/// and returns this length in bytes.
///
/// Returns `TooShort` exactly if `end` is past the limit; otherwise `NoMemory` if the workbench's memory runs out. `NoMemory` can't happen
/// if the workbench already holds memory for the needed committed length. The function requests no memory if `end` is within the committed
/// length.
pub fn hold_for(
    cells: &mut Cells,
    limit: u32,
    shape: Shape,
    committed: u32,
    end: u32,
) -> Result<u32, HeapFault>
    requires limit { limit ≤ CEILING }
    requires shape { is_shape shape ≡ true }
    requires aligned { committed % 16 ≡ 0 }
    requires within { committed ≤ bound_below limit }
    requires rounded { end % 16 ≡ 0 }
    requires covered { committed ≤ cells.old.held }
    ensures committed { IfOk result (λ bytes.
        bytes ≡ committed_by (space_below (bound_below limit) shape) committed end) }
    ensures covers { IfOk result (λ bytes. end ≤ bytes) }
    ensures fits { OnOk result (end ≤ limit) }
    ensures held { IfOk result (λ bytes.
        cells.new ≡ record cells.old { held = max cells.old.held bytes }) }
    ensures refusals { RefusesOnly result limit end
        (committed_by (space_below (bound_below limit) shape) committed end) cells.old.held }
    ensures err { OnErr result (cells.new ≡ cells.old) }
{
    if limit < end {
        return Err(HeapFault::TooShort);
    }
    let bytes = space::committed_for(limit, shape, committed, end);
    if bytes == committed {
        return Ok(bytes);
    }
    cells.reserve(bytes)?;
    Ok(bytes)
}
