//! How long a heap must be for a script.

ghost use Rattle.std.specs.Prelude.{◌≡◌};
ghost use Rattle.wb_heap_model.specs.Rises.{top_of_rises};

use wb_basics::items::Items;

/// A granted attempt whose cell ends past all cells that were granted earlier. `top` is the place where this attempt's cell ends, in bytes.
#[derive(Clone, Copy, Debug, PartialEq, Eq)]
pub struct Rise {
    pub number: u32,
    pub top: u32,
}

/// The rises of a run, in order.
pub type Rises = Items<Rise>;

/// Returns the top of the last rise, in bytes; 0 if there is no rise. For the rises of a run, this top is the greatest end of any granted
/// cell.
pub fn top_of_rises(rises: &Rises) -> u32
    ensures { result ≡ top_of_rises rises.now }
{
    match rises.as_slice().last() {
        Some(rise) => rise.top,
        None => 0,
    }
}
