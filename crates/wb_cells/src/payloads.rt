//! Ranges of halves in payloads. Indexes count the halves of a payload, each of 16 bits: half 2k is the low half of the payload's word k.

ghost use Rattle.std.specs.Prelude.{◌≡◌, ◌+◌, ◌*◌, ◌≤◌, length, replicate, IsSome};
ghost use Rattle.wb_chunk.specs.Halves.{halves_from, with_halves};
ghost use Rattle.wb_heap_model.specs.CellRow.{IsSoundCells, payload_of, with_payload};
ghost use Rattle.wb_heap_model.specs.Row.{cell_at};

use crate::cells::Cells;
use crate::layout;
use wb_heap_model::heap::Ptr;

impl Cells {
    /// Sets the `n` halves of a payload from index `i` on to 0, and changes nothing else.
    pub fn zero_halves(&mut self, ptr: Ptr, i: u32, n: u32)
        requires live { IsSome (cell_at ptr self.old.row) }
        requires within { i + n ≤ 2 * length (payload_of ptr self.old.row) }
        ensures changed { self.new ≡ record self.old {
          row = with_payload ptr (with_halves (payload_of ptr self.old.row) i (replicate n 0))
              self.old.row;
        } }
        ensures sound { IsSoundCells self.new }
    {
        self.words
            .zero_halves(2 * layout::payload_at(ptr.place) + i, n);
    }

    /// Writes `halves` into a payload, from index `i` on, and changes nothing else.
    pub fn write_halves(&mut self, ptr: Ptr, i: u32, halves: &[u16])
        requires live { IsSome (cell_at ptr self.old.row) }
        requires within { i + length halves.now ≤ 2 * length (payload_of ptr self.old.row) }
        ensures changed { self.new ≡ record self.old {
          row = with_payload ptr (with_halves (payload_of ptr self.old.row) i halves.now)
              self.old.row;
        } }
        ensures sound { IsSoundCells self.new }
    {
        self.words
            .write_halves(2 * layout::payload_at(ptr.place) + i, halves);
    }

    /// Copies `n` halves from the payload of `from` into the payload of `to`. The source starts at index `fi`, and the target starts at
    /// index `ti`. The result is as if all halves were read before any half was written. `to` may be the same cell as `from`.
    pub fn copy_halves(&mut self, from: Ptr, fi: u32, to: Ptr, ti: u32, n: u32)
        requires from_live { IsSome (cell_at from self.old.row) }
        requires to_live { IsSome (cell_at to self.old.row) }
        requires source { fi + n ≤ 2 * length (payload_of from self.old.row) }
        requires target { ti + n ≤ 2 * length (payload_of to self.old.row) }
        ensures copied { self.new ≡ record self.old {
          row = with_payload to (with_halves (payload_of to self.old.row) ti
              (halves_from (payload_of from self.old.row) fi n)) self.old.row;
        } }
        ensures sound { IsSoundCells self.new }
    {
        self.words.copy_halves(
            2 * layout::payload_at(from.place) + fi,
            2 * layout::payload_at(to.place) + ti,
            n,
        );
    }
}
