//! The words of payloads. Words and half words count from 0; half word 2k is the low half of word k.

ghost use Rattle.std.specs.Prelude.{◌≡◌, ◌+◌, ◌*◌, ◌<◌, ◌≤◌, ◌++◌, true, length, take, drop, replicate, slice_index};
ghost use Rattle.std.specs.Prelude.{slice_set, IsSome};
ghost use Rattle.wb_chunk.specs.Halves.{half_of, halves_from, with_half, with_halves};
ghost use Rattle.wb_heap_model.specs.CellRow.{payload_of};
ghost use Rattle.wb_heap_model.specs.LimitedHeap.{IsSoundHeap, heap_changed};
ghost use Rattle.wb_heap_model.specs.Row.{cell_at};

use crate::heap::Heap;
use wb_heap_model::heap::Ptr;

impl Heap {
    /// Returns word `i` of a payload.
    pub fn payload(&self, ptr: Ptr, i: u32) -> u32
        requires { i < length (payload_of ptr self.now.row) }
        ensures { result ≡ slice_index (payload_of ptr self.now.row) i }
    {
        self.cells.payload(ptr, i)
    }

    /// Whether a payload of `n` words holds the same words as the payload of another heap's cell at the same place. The function skips each
    /// block of words that neither heap has written since the block was all zeros.
    pub fn has_payload_of(&self, ptr: Ptr, other: &Heap, there: Ptr, n: u32) -> bool
        requires live { IsSome (cell_at ptr self.now.row) }
        requires other_live { IsSome (cell_at there other.now.row) }
        requires words { length (payload_of ptr self.now.row) ≡ n }
        requires other_words { length (payload_of there other.now.row) ≡ n }
        requires place { there.place ≡ ptr.place }
        ensures { result ≡ true → payload_of there other.now.row ≡ payload_of ptr self.now.row }
    {
        self.cells.has_payload_of(ptr, &other.cells, there, n)
    }

    /// Sets word `i` of a payload to `v`, and changes nothing else.
    pub fn set_payload(&mut self, ptr: Ptr, i: u32, v: u32)
        requires { i < length (payload_of ptr self.old.row) }
        ensures changed { self.new
            ≡ heap_changed self.old ptr (slice_set (payload_of ptr self.old.row) i v) }
        ensures sound { IsSoundHeap self.new }
    {
        self.cells.set_payload(ptr, i, v);
    }

    /// Returns half word `i` of a payload.
    pub fn payload_half(&self, ptr: Ptr, i: u32) -> u16
        requires { i < 2 * length (payload_of ptr self.now.row) }
        ensures { result ≡ half_of (payload_of ptr self.now.row) i }
    {
        self.cells.payload_half(ptr, i)
    }

    /// Sets half word `i` of a payload to `v`, and changes nothing else.
    pub fn set_payload_half(&mut self, ptr: Ptr, i: u32, v: u16)
        requires { i < 2 * length (payload_of ptr self.old.row) }
        ensures changed { self.new
            ≡ heap_changed self.old ptr (with_half (payload_of ptr self.old.row) i v) }
        ensures sound { IsSoundHeap self.new }
    {
        self.cells.set_payload_half(ptr, i, v);
    }

    /// Copies the first `n` words of the payload of `from` to the start of the payload of `to`. `to` may be the same cell as `from`.
    pub fn copy_payload(&mut self, from: Ptr, to: Ptr, n: u32)
        requires from_live { IsSome (cell_at from self.old.row) }
        requires to_live { IsSome (cell_at to self.old.row) }
        requires source { n ≤ length (payload_of from self.old.row) }
        requires target { n ≤ length (payload_of to self.old.row) }
        ensures changed { self.new ≡ heap_changed self.old to (take n (payload_of from self.old.row)
            ++ drop n (payload_of to self.old.row)) }
        ensures sound { IsSoundHeap self.new }
    {
        self.cells.copy_payload(from, to, n);
    }

    /// Sets `n` half words of a payload to 0, from half word `i` on, and changes nothing else.
    pub fn zero_halves(&mut self, ptr: Ptr, i: u32, n: u32)
        requires live { IsSome (cell_at ptr self.old.row) }
        requires within { i + n ≤ 2 * length (payload_of ptr self.old.row) }
        ensures changed { self.new ≡ heap_changed self.old ptr
            (with_halves (payload_of ptr self.old.row) i (replicate n 0)) }
        ensures sound { IsSoundHeap self.new }
    {
        self.cells.zero_halves(ptr, i, n);
    }

    /// Writes half words into a payload, from half word `i` on, and changes nothing else.
    pub fn write_halves(&mut self, ptr: Ptr, i: u32, halves: &[u16])
        requires live { IsSome (cell_at ptr self.old.row) }
        requires within { i + length halves.now ≤ 2 * length (payload_of ptr self.old.row) }
        ensures changed { self.new
            ≡ heap_changed self.old ptr (with_halves (payload_of ptr self.old.row) i halves.now) }
        ensures sound { IsSoundHeap self.new }
    {
        self.cells.write_halves(ptr, i, halves);
    }

    /// Copies `n` half words from the payload of `from` into the payload of `to`. The source starts at half word `fi`, and the target
    /// starts at half word `ti`. `to` may be the same cell as `from`. The result is as if all half words were read before any half word was
    /// written.
    pub fn copy_halves(&mut self, from: Ptr, fi: u32, to: Ptr, ti: u32, n: u32)
        requires from_live { IsSome (cell_at from self.old.row) }
        requires to_live { IsSome (cell_at to self.old.row) }
        requires source { fi + n ≤ 2 * length (payload_of from self.old.row) }
        requires target { ti + n ≤ 2 * length (payload_of to self.old.row) }
        ensures changed { self.new ≡ heap_changed self.old to
            (with_halves (payload_of to self.old.row) ti
            (halves_from (payload_of from self.old.row) fi n)) }
        ensures sound { IsSoundHeap self.new }
    {
        self.cells.copy_halves(from, fi, to, ti, n);
    }
}
