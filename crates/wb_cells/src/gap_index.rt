//! The lengths of the free cells, by place, and an index that finds a free cell without following the links. The index has the greatest
//! length in each block of 1,024 bytes of the heap. It also has the greatest of these lengths for each 64 blocks, and for all blocks.

ghost use Rattle.std.specs.Prelude.{◌≡◌, ◌≢◌, ◌+◌, ◌-◌, ◌/◌, ◌<◌, ◌≤◌, [], ◌++◌, length, replicate, slice_index};
ghost use Rattle.std.specs.Prelude.{slice_set, IfOk, IsOk, OnOk, OnErr};
ghost use Rattle.wb_cells.specs.Maxima.{IsFirstLong, IsGreatest, IsLast};
ghost use Rattle.wb_cells.specs.RowGaps.{closed_lengths, opened_lengths};

use crate::bits::MOST_PLACES;
use crate::blocks::Blocks;
use crate::free_list::Hole;
use crate::maxima::{self, SPAN};
use crate::numbers::Numbers;
use std::alloc::{AllocError, Global};
use std::marker::Model;
use wb_basics::limits::CEILING;

/// A list with one entry for each place of 16 bytes: the length in bytes of the free cell that begins there, or 0 if no free cell begins
/// there. The list grows at its end. Its indexes are places, counted in steps of 16 bytes.
#[derive(Drop)]
pub struct GapIndex {
    lengths: Numbers,
    /// The greatest length of each block of 64 places.
    blocks: Blocks,
}

impl Model for GapIndex {
    ghost use Rattle.std.specs.Prelude.{ℕ, List};
    ghost use Rattle.wb_cells.specs.Maxima.{AreOfBlocks};

    ghost Value = { List ℕ };

    ghost view = { λ g. g.lengths };

    ghost invariant = { λ g. AreOfBlocks g.lengths g.blocks };
}

impl GapIndex {
    /// A list of no places, which takes no memory.
    pub fn new(alloc: Global) -> GapIndex
        ensures { result ≡ [] }
    {
        GapIndex {
            lengths: Numbers::new(alloc),
            blocks: Blocks::new(alloc),
        }
    }

    /// Returns a copy with the same lengths, in newly allocated memory. Returns `Err` if the allocator refuses memory.
    pub fn try_copy(&self) -> Result<GapIndex, AllocError>
        ensures { IfOk result (λ copy. copy ≡ self.now) }
    {
        Ok(GapIndex {
            lengths: self.lengths.try_copy()?,
            blocks: self.blocks.try_copy()?,
        })
    }

    /// Returns a copy with the same lengths, in the memory of `spare`. The lengths of `spare` are lost, and its memory is made larger if
    /// necessary. Returns `Err` if the allocator refuses memory.
    pub fn try_copy_over(&self, spare: GapIndex) -> Result<GapIndex, AllocError>
        ensures { IfOk result (λ copy. copy ≡ self.now) }
    {
        let lengths = self.lengths.try_copy_over(spare.lengths)?;
        let blocks = self.blocks.try_copy_over(spare.blocks)?;
        Ok(GapIndex { lengths, blocks })
    }

    /// Appends entries of 0 until there are `count` entries. The call takes no memory if there are at least `count` entries already. If the
    /// allocator refuses memory, the call returns `Err` and leaves the lengths as they were.
    pub fn grow_to(&mut self, count: u32) -> Result<(), AllocError>
        requires { count ≤ MOST_PLACES }
        ensures grown { OnOk result (self.new ≡ self.old ++ replicate (count - length self.old) 0) }
        ensures enough { count ≤ length self.old → IsOk result }
        ensures refused { OnErr result (self.new ≡ self.old) }
    {
        self.blocks.grow_to(count.div_ceil(SPAN))?;
        self.lengths.grow_to(count)?;
        Ok(())
    }

    /// The length at a place. For a place past the end of the list, the length is 0.
    pub fn length_at(&self, at: u32) -> u32
        ensures { result ≡ slice_index self.now at }
    {
        if self.lengths.count() <= at {
            return 0;
        }
        self.lengths.number(at)
    }

    /// Sets the length at a place.
    pub fn set(&mut self, at: u32, bytes: u32)
        requires { at < length self.old }
        ensures { self.new ≡ slice_set self.old at bytes }
    {
        let length = self.lengths.number(at);
        if length == bytes {
            return;
        }
        self.lengths.set(at, bytes);
        let block = at / SPAN;
        let was = self.blocks.number(block);
        let first = block * SPAN;
        let now = maxima::greatest_now(&self.lengths, first, first + SPAN, was, at, length);
        if now != was {
            self.blocks.set(block, now);
        }
    }

    /// Records that a cell of `bytes` bytes is put at the start of the free cell at `place`. The list then has the rest of this free cell
    /// instead of the whole free cell. If the cell is put at the top, no length changes. In `open` and `close`, places are in bytes.
    pub fn open(&mut self, top: u32, place: u32, bytes: u32)
        requires below { place + bytes ≤ CEILING }
        requires start { place ≢ top → place / 16 < length self.old }
        requires end { place ≢ top → (place + bytes) / 16 < length self.old }
        requires fits { place ≢ top → bytes ≤ slice_index self.old (place / 16) }
        ensures { self.new ≡ opened_lengths self.old top place bytes }
    {
        if place == top {
            return;
        }
        let rest = self.length_at(place / 16) - bytes;
        self.shift(place / 16, (place + bytes) / 16, rest);
    }

    /// Records a hole as a free cell, in place of any free cell that began at `end`, which is the end of a live cell. A hole that ends at
    /// the top instead becomes part of the space above the top; then no free cell begins at the start of the hole.
    pub fn close(&mut self, top: u32, end: u32, hole: Hole)
        requires end { hole.end ≢ top → end / 16 < length self.old }
        requires start { hole.end ≢ top → hole.start / 16 < length self.old }
        requires order { hole.end ≢ top → hole.start ≤ hole.end }
        ensures { self.new ≡ closed_lengths self.old top end hole }
    {
        if hole.end == top {
            self.clear(hole.start / 16);
            return;
        }
        self.shift(end / 16, hole.start / 16, hole.end - hole.start);
    }

    /// Records that the free cell that began at `from` now begins at `to` and has `bytes` bytes. The length at `to` is set first: if it is
    /// then the greatest length of its block, the block isn't searched for another greatest length.
    fn shift(&mut self, from: u32, to: u32, bytes: u32)
        requires from { from < length self.old }
        requires to { to < length self.old }
        ensures { self.new ≡ slice_set (slice_set self.old from 0) to bytes }
    {
        self.set(to, bytes);
        if from != to {
            self.set(from, 0);
        }
    }

    /// Records that no free cell begins at a place. For a place past the end of the list, there is nothing to record.
    fn clear(&mut self, at: u32)
        ensures { self.new ≡ slice_set self.old at 0 }
    {
        if at < self.lengths.count() {
            self.set(at, 0);
        }
    }

    /// Returns the first place with a length of at least `bytes` bytes; `None` if there is no such place.
    pub fn first_long(&self, bytes: u32) -> Option<u32>
        requires { 0 < bytes }
        ensures { IsFirstLong (slice_index self.now) bytes result }
    {
        let block = self.blocks.first_long(bytes)?;
        let places = block * SPAN;
        maxima::first_among(&self.lengths, places, places + SPAN, bytes)
    }

    /// Returns the last place below `at` where a free cell begins; `None` if there is no such place.
    pub fn last_below(&self, at: u32) -> Option<u32>
        ensures { IsLast (slice_index self.now) 0 at result }
    {
        let own = self.lengths.last(at / SPAN * SPAN, at);
        if own.is_some() {
            return own;
        }
        let block = self.blocks.last_below(at / SPAN)?;
        self.lengths.last(block * SPAN, block * SPAN + SPAN)
    }

    /// The greatest length, or 0 if there is no free cell.
    pub fn longest(&self) -> u32
        ensures { IsGreatest (slice_index self.now) 0 (length self.now) result }
    {
        self.blocks.greatest()
    }
}
