//! How a cell becomes longer, at its own place or at another place. The callers decide where the cell goes, and whether it may grow.

ghost use Rattle.std.specs.Prelude.{◌≡◌, ◌≢◌, ◌+◌, ◌-◌, ◌/◌, ◌%◌, ◌<◌, ◌≤◌, All, Some, IsSome, option_map, length};
ghost use Rattle.std.specs.Prelude.{nat_eq, if◌then◌else◌};
ghost use Rattle.wb_heap_model.specs.CellRow.{FitsInPlace, IsGap, payload_of, resized_words};
ghost use Rattle.wb_heap_model.specs.LimitedHeap.{IsFilled};
ghost use Rattle.wb_heap_model.specs.Row.{IsRow, IsSpacedFrom, cell_at, headers, inserted, pointer_to, without};

use wb_cells::Cells;
use wb_heap_model::heap::{Header, Ptr};

/// Makes a live cell longer, at its own place or at another place, and returns the pointer that names the cell afterwards. At its own place
/// the cell keeps its number; at another place it gets the number `number`.
pub fn lengthen(cells: &mut Cells, cell: Header, place: u32, length: u32, number: u32) -> Ptr
    requires live { option_map (λ c. c.head) (cell_at (pointer_to cell) cells.old.row) ≡ Some cell }
    requires longer { cell.length < length }
    requires rounded { length % 16 ≡ 0 }
    requires within { place + length ≤ cells.old.held }
    requires stays { place ≡ cell.place →
        FitsInPlace (pointer_to cell) length (headers cells.old.row) }
    requires moves { place ≢ cell.place → IsGap (headers cells.old.row) place length }
    requires numbered { 1 ≤ number }
    requires unused { All (λ h. h.number ≢ number) (headers cells.old.row) }
    requires row { IsRow (headers cells.old.row) }
    requires filled { All IsFilled cells.old.row }
    ensures pointer { result ≡ record {
      place = place;
      number = if nat_eq place cell.place then cell.number else number;
    } }
    ensures longer { cells.new ≡ record cells.old {
      row = inserted (record {
        head = record cell { place = place; length = length; number = result.number };
        content = resized_words length (payload_of (pointer_to cell) cells.old.row);
      }) (without (pointer_to cell) cells.old.row);
    } }
{
    let ptr = cell.pointer();
    if place == cell.place {
        cells.resize(ptr, length);
        return ptr;
    }
    let moved = Header {
        place,
        length,
        kind: cell.kind,
        level: cell.level,
        number,
    };
    move_to(cells, ptr, cell.words(), moved);
    Ptr { place, number }
}

/// Moves the cell that a pointer names to the place in `moved`, which is the cell's new header. The words of the payload are copied, and
/// zeros fill the rest of the new payload.
fn move_to(cells: &mut Cells, ptr: Ptr, words: u32, moved: Header)
    requires live { IsSome (cell_at ptr cells.old.row) }
    requires whole { words ≡ length (payload_of ptr cells.old.row) }
    requires rounded { moved.length % 16 ≡ 0 }
    requires least { 16 ≤ moved.length }
    requires longer { words ≤ moved.length / 4 - 4 }
    requires within { moved.place + moved.length ≤ cells.old.held }
    requires gap { IsGap (headers cells.old.row) moved.place moved.length }
    requires numbered { 1 ≤ moved.number }
    requires unused { All (λ h. h.number ≢ moved.number) (headers cells.old.row) }
    requires spaced { IsSpacedFrom 0 (headers cells.old.row) }
    ensures { cells.new ≡ record cells.old {
      row = inserted (record {
        head = moved;
        content = resized_words moved.length (payload_of ptr cells.old.row);
      })
          (without ptr cells.old.row);
    } }
{
    cells.take(moved.place, moved.length, moved);
    cells.copy_payload(ptr, moved.pointer(), words);
    cells.give(ptr);
}
