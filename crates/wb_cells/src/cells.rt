//! The cells of a chunk, and the calls on cells. The callers decide which bytes a heap may use after it has grown, and in which order
//! memory is requested.

ghost use Rattle.std.specs.Prelude.{◌≡◌, ◌≢◌, ◌+◌, ◌*◌, ◌%◌, ◌<◌, ◌≤◌, [], ◌++◌, max, true, length, take, drop, slice_index};
ghost use Rattle.std.specs.Prelude.{slice_set, All, IfOk, OnOk, OnErr, option_map, IsOk, IsSome};
ghost use Rattle.wb_chunk.specs.Halves.{half_of, with_half};
ghost use Rattle.wb_heap_model.specs.CellRow.{CellRow, FitsInPlace, IsGap, IsSoundCells, payload_of, room_after};
ghost use Rattle.wb_heap_model.specs.CellRow.{with_length, with_level, with_payload};
ghost use Rattle.wb_heap_model.specs.LimitedHeap.{next_live_of, zero_words};
ghost use Rattle.wb_heap_model.specs.Space.{free_runs, longest};
ghost use Rattle.wb_heap_model.specs.Row.{IsLeastPlace, cell_at, headers, inserted, place_of, top_of, without};

use crate::bits::Bits;
use crate::free_list::{self, Ends};
use crate::gap_index::GapIndex;
use crate::layout::{self, NONE};
use std::alloc::Global;
use std::marker::Model;
use wb_basics::limits::CEILING;
use wb_basics::memory::NoMemory;
use wb_chunk::Chunk;
use wb_heap_model::heap::{Header, Ptr};

/// Cells that lie end to end in a chunk of words, from place 0 up to the end of the last live cell. Contracts see the row of live cells
/// that the words encode, and how many bytes are held. Places and lengths are in bytes; a place is a multiple of 16.
///
/// A free cell lies between two live cells, or before the first live cell. The words link the free cells in order of place. No two free
/// cells touch. One bit for each place of 16 bytes says whether a live cell begins there, so no payload can be mistaken for a header. An
/// index of the free cells' lengths finds a free cell without following the links. So the time that a call takes has a bound that doesn't
/// depend on how many live or free cells there are.
pub struct Cells {
    pub(crate) words: Chunk,
    starts: Bits,
    gaps: GapIndex,
    ends: Ends,
}

/// Written out rather than derived. So a proof elsewhere that drops a `Cells` sees one call, and only the proof of this function goes
/// through the fields.
impl Drop for Cells {
    fn drop(self) {
        let Cells {
            words: _,
            starts: _,
            gaps: _,
            ends: _,
        } = self;
    }
}

impl Model for Cells {
    ghost use Rattle.wb_heap_model.specs.CellRow.{CellRow};
    ghost use Rattle.wb_cells.specs.Inside.{cells_in, IsIndexed};

    ghost Value = { CellRow };

    ghost view = { λ c. cells_in c.words c.ends.top };

    ghost invariant = { λ c. IsIndexed c.words c.starts c.gaps c.ends.top c.ends.first };
}

impl Cells {
    /// Returns a value with no cells and no bytes held. The call takes no memory.
    pub fn new(alloc: Global) -> Cells
        ensures { result ≡ record { row = []; held = 0 } }
    {
        Cells {
            words: Chunk::new(alloc),
            starts: Bits::new(alloc),
            gaps: GapIndex::new(alloc),
            ends: Ends {
                top: 0,
                first: NONE,
            },
        }
    }

    /// Returns a copy with the same cells and the same number of bytes held, in newly allocated memory. A later change to the copy doesn't
    /// change the original, and a later change to the original doesn't change the copy. Returns `Err` if the workbench's own memory runs
    /// out.
    pub fn try_copy(&self) -> Result<Cells, NoMemory>
        ensures { IfOk result (λ copy. copy ≡ self.now) }
    {
        Ok(Cells {
            words: self.words.try_copy()?,
            starts: self.starts.try_copy()?,
            gaps: self.gaps.try_copy()?,
            ends: self.ends,
        })
    }

    /// Returns a copy with the same cells and the same number of bytes held, in the memory of `spare`. The cells of `spare` are lost, and
    /// its memory is made larger if necessary. Of the words, only blocks that may differ are written. A later change to the copy doesn't
    /// change the original, and a later change to the original doesn't change the copy. Returns `Err` if the workbench's own memory runs
    /// out.
    pub fn try_copy_over(&self, spare: Cells) -> Result<Cells, NoMemory>
        ensures { IfOk result (λ copy. copy ≡ self.now) }
    {
        let Cells {
            words,
            starts,
            gaps,
            ends: _,
        } = spare;
        let words = self.words.try_copy_over(words)?;
        let starts = self.starts.try_copy_over(starts)?;
        let gaps = self.gaps.try_copy_over(gaps)?;
        let ends = self.ends;
        Ok(Cells {
            words,
            starts,
            gaps,
            ends,
        })
    }

    /// Reserves memory until at least `bytes` bytes are held; the cells stay as they are. The call takes no memory if at least `bytes`
    /// bytes are held already. If the workbench's own memory runs out, the call returns `Err` and changes nothing.
    pub fn reserve(&mut self, bytes: u32) -> Result<(), NoMemory>
        requires rounded { bytes % 16 ≡ 0 }
        requires within { bytes ≤ CEILING }
        ensures ok { OnOk result (self.new ≡ record self.old { held = max self.old.held bytes }) }
        ensures there { bytes ≤ self.old.held → IsOk result }
        ensures err { OnErr result (self.new ≡ self.old) }
        ensures sound { IsSoundCells self.new }
    {
        self.starts.grow_to(bytes / 16)?;
        self.gaps.grow_to(bytes / 16)?;
        layout::grow_to(&mut self.words, layout::words_in(bytes))?;
        Ok(())
    }

    /// How many bytes are held: the greatest number of bytes that was ever reserved.
    pub fn held(&self) -> u32
        ensures bytes { result ≡ self.now.held }
        ensures sound { IsSoundCells self.now }
    {
        4 * self.words.words()
    }

    /// The end of the last live cell, or 0 if there is no live cell.
    pub fn top(&self) -> u32
        ensures end { result ≡ top_of (headers self.now.row) }
        ensures sound { IsSoundCells self.now }
    {
        self.ends.top
    }

    /// Returns the lowest place where a cell of `length` bytes fits. All space above the last live cell counts as free, without a limit.
    /// Source: Symbian OS v9 SDK reference, RHeap (first fit in address order).
    pub fn first_fit(&self, length: u32) -> u32
        requires { 16 ≤ length }
        ensures place { result ≡ place_of (headers self.now.row) length }
        ensures least { IsLeastPlace (headers self.now.row) length result }
        ensures gap { IsGap (headers self.now.row) result length }
        ensures low { result ≤ top_of (headers self.now.row) }
        ensures sound { IsSoundCells self.now }
    {
        match self.gaps.first_long(length) {
            Some(at) => 16 * at,
            None => self.ends.top,
        }
    }

    /// The length of the longest free cell, or 0 if there is no free cell. The space above the last live cell is not a free cell.
    pub fn longest_gap(&self) -> u32
        ensures gap { result
            ≡ longest (free_runs 0 (headers self.now.row) (top_of (headers self.now.row))) }
        ensures sound { IsSoundCells self.now }
    {
        self.gaps.longest()
    }

    /// Inserts a live cell with this header and a payload of zeros, whatever the bytes were before. If the cell is put into a longer free
    /// cell, the bytes past the new cell's end stay a free cell. The call takes no memory.
    pub fn take(&mut self, place: u32, length: u32, header: Header)
        requires rounded { length % 16 ≡ 0 }
        requires least { 16 ≤ length }
        requires within { place + length ≤ self.old.held }
        requires gap { IsGap (headers self.old.row) place length }
        requires placed { header.place ≡ place }
        requires long { header.length ≡ length }
        requires numbered { 1 ≤ header.number }
        requires unused { All (λ h. h.number ≢ header.number) (headers self.old.row) }
        ensures taken { self.new ≡ record self.old {
          row = inserted (record { head = header; content = zero_words length }) self.old.row;
        } }
        ensures sound { IsSoundCells self.new }
    {
        let ends = free_list::open(&mut self.words, &self.gaps, self.ends, place, length);
        self.gaps.open(self.ends.top, place, length);
        self.ends = ends;
        layout::write_header(
            &mut self.words,
            place,
            length,
            layout::state_of(header.kind),
            header.level,
            header.number,
        );
        self.words
            .zero(layout::payload_at(place), layout::words_in(length) - 4);
        self.starts.set(place / 16, true);
    }

    /// Removes the cell that the pointer names. The cell's bytes and the free cells that touch the cell become one free cell. If no live
    /// cell follows, these bytes instead become part of the space above the last live cell.
    pub fn give(&mut self, ptr: Ptr)
        requires { IsSome (cell_at ptr self.old.row) }
        ensures given { self.new ≡ record self.old { row = without ptr self.old.row } }
        ensures sound { IsSoundCells self.new }
    {
        let end = ptr.place + free_list::length_at(&self.words, ptr.place);
        let around = free_list::neighbours_of(&self.words, &self.gaps, self.ends.first, ptr.place);
        let hole = free_list::hole_left(&self.words, ptr.place, around);
        self.gaps.close(self.ends.top, end, hole);
        let ends = free_list::close(&mut self.words, self.ends, hole);
        self.ends = ends;
        self.starts.set(ptr.place / 16, false);
    }

    /// Changes the length of the cell that the pointer names, and leaves the cell at its place. Bytes that the cell gains are zeros. The
    /// bytes that the cell loses, and the rest of a free cell after it, become one free cell. If no live cell follows, these bytes instead
    /// become part of the space above the last live cell. The call takes no memory.
    pub fn resize(&mut self, ptr: Ptr, length: u32)
        requires live { IsSome (cell_at ptr self.old.row) }
        requires rounded { length % 16 ≡ 0 }
        requires least { 16 ≤ length }
        requires within { ptr.place + length ≤ self.old.held }
        requires fits { FitsInPlace ptr length (headers self.old.row) }
        ensures resized { self.new ≡ record self.old { row = with_length ptr length self.old.row } }
        ensures sound { IsSoundCells self.new }
    {
        let old = free_list::length_at(&self.words, ptr.place);
        let around = free_list::neighbours_of(&self.words, &self.gaps, self.ends.first, ptr.place);
        let mut hole = free_list::hole_after(&self.words, ptr.place, around);
        hole.start = ptr.place + length;
        self.gaps.close(self.ends.top, ptr.place + old, hole);
        self.words.set_word(layout::words_in(ptr.place), length);
        layout::zero(
            &mut self.words,
            layout::words_in(ptr.place + old),
            layout::words_in(length.saturating_sub(old)),
        );
        let ends = free_list::close(&mut self.words, self.ends, hole);
        self.ends = ends;
    }

    /// Returns the header of the cell that the pointer names. Returns `None` if no live cell begins at the pointer's place, or if the live
    /// cell there has another allocation number. The call reads one bit and four words, however many cells there are.
    pub fn header(&self, ptr: Ptr) -> Option<Header>
        ensures header { result ≡ option_map (λ c. c.head) (cell_at ptr self.now.row) }
        ensures sound { IsSoundCells self.now }
    {
        if !self.starts.is_on(ptr.place / 16) {
            return None;
        }
        if ptr.place % 16 != 0 {
            return None;
        }
        let header = layout::header_at(&self.words, ptr.place);
        if header.number == ptr.number {
            Some(header)
        } else {
            None
        }
    }

    /// Returns the header of the first live cell that begins at place `from` or above; `None` if there is no such cell. The call scans the
    /// bits from place `from` on.
    pub fn next_live(&self, from: u32) -> Option<Header>
        ensures first { result ≡ next_live_of from (headers self.now.row) }
        ensures sound { IsSoundCells self.now }
    {
        match self.starts.next(from.div_ceil(16)) {
            Some(start) => Some(layout::header_at(&self.words, 16 * start)),
            None => None,
        }
    }

    /// Returns how many bytes are free between the cell that the pointer names and the next live cell; `None` if no live cell follows.
    pub fn room_after(&self, ptr: Ptr) -> Option<u32>
        requires { IsSome (cell_at ptr self.now.row) }
        ensures room { result ≡ room_after ptr (headers self.now.row) }
        ensures sound { IsSoundCells self.now }
    {
        let end = ptr.place + free_list::length_at(&self.words, ptr.place);
        if end == self.ends.top {
            return None;
        }
        Some(self.gaps.length_at(end / 16))
    }

    /// Sets the level of the cell that the pointer names.
    pub fn set_level(&mut self, ptr: Ptr, level: u32)
        requires { IsSome (cell_at ptr self.old.row) }
        ensures changed { self.new ≡ record self.old { row = with_level ptr level self.old.row } }
        ensures sound { IsSoundCells self.new }
    {
        self.words.set_word(layout::words_in(ptr.place) + 2, level);
    }

    /// The word at index `i` of a payload. `i` must lie within the payload, which implies that the pointer names a live cell.
    pub fn payload(&self, ptr: Ptr, i: u32) -> u32
        requires { i < length (payload_of ptr self.now.row) }
        ensures word { result ≡ slice_index (payload_of ptr self.now.row) i }
        ensures sound { IsSoundCells self.now }
    {
        self.words.word(layout::payload_at(ptr.place) + i)
    }

    /// Whether the payload that `ptr` names here has the same words as the payload that `there` names in `other`. Both payloads have `n`
    /// words and are at the same place. Words that are known to be zeros in both payloads aren't read.
    pub fn has_payload_of(&self, ptr: Ptr, other: &Cells, there: Ptr, n: u32) -> bool
        requires live { IsSome (cell_at ptr self.now.row) }
        requires other_live { IsSome (cell_at there other.now.row) }
        requires words { length (payload_of ptr self.now.row) ≡ n }
        requires other_words { length (payload_of there other.now.row) ≡ n }
        requires place { there.place ≡ ptr.place }
        ensures { result ≡ true → payload_of there other.now.row ≡ payload_of ptr self.now.row }
    {
        self.words
            .has_words_of(&other.words, layout::payload_at(ptr.place), n)
    }

    /// Sets the word at index `i` of a payload to `v`.
    pub fn set_payload(&mut self, ptr: Ptr, i: u32, v: u32)
        requires { i < length (payload_of ptr self.old.row) }
        ensures changed { self.new ≡ record self.old {
          row = with_payload ptr (slice_set (payload_of ptr self.old.row) i v) self.old.row;
        } }
        ensures sound { IsSoundCells self.new }
    {
        self.words.set_word(layout::payload_at(ptr.place) + i, v);
    }

    /// The half at index `i` of a payload. Indexes count halves of 16 bits: half 2k is the low half of word k.
    pub fn payload_half(&self, ptr: Ptr, i: u32) -> u16
        requires { i < 2 * length (payload_of ptr self.now.row) }
        ensures half { result ≡ half_of (payload_of ptr self.now.row) i }
        ensures sound { IsSoundCells self.now }
    {
        self.words.half(2 * layout::payload_at(ptr.place) + i)
    }

    /// Sets the half at index `i` of a payload to `v`, and leaves the other half of the word as it is. Indexes count halves.
    pub fn set_payload_half(&mut self, ptr: Ptr, i: u32, v: u16)
        requires { i < 2 * length (payload_of ptr self.old.row) }
        ensures changed { self.new ≡ record self.old {
          row = with_payload ptr (with_half (payload_of ptr self.old.row) i v) self.old.row;
        } }
        ensures sound { IsSoundCells self.new }
    {
        self.words
            .set_half(2 * layout::payload_at(ptr.place) + i, v);
    }

    /// Copies the first `n` words of the payload of `from` over the first `n` words of the payload of `to`. `to` may be the same cell as
    /// `from`.
    pub fn copy_payload(&mut self, from: Ptr, to: Ptr, n: u32)
        requires source { n ≤ length (payload_of from self.old.row) }
        requires target { n ≤ length (payload_of to self.old.row) }
        requires from_live { IsSome (cell_at from self.old.row) }
        requires to_live { IsSome (cell_at to self.old.row) }
        ensures copied { self.new ≡ record self.old {
          row = with_payload to (take n (payload_of from self.old.row)
              ++ drop n (payload_of to self.old.row)) self.old.row;
        } }
        ensures sound { IsSoundCells self.new }
    {
        self.words.copy(
            layout::payload_at(from.place),
            layout::payload_at(to.place),
            n,
        );
    }
}
