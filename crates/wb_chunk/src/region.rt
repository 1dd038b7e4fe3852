//! The memory of a chunk: a block with words in it, and the right to free it.
//!
//! Only the functions here follow a raw pointer, and each of them is proved by hand. A region doesn't store how many words it has, or for
//! how many words it has room. The region's owner stores both numbers and passes them to the functions.

ghost use Rattle.std.specs.Prelude.{◌≡◌, ℕ, ◌<◌, ◌≤◌, List, [], ◌∷◌, ◌++◌, length, take, IfOk, OnOk, OnErr};
ghost use Rattle.std.specs.Borrow.{u32, Array, sem};
ghost use Rattle.std.specs.Allocator.{block_with_items};
ghost use denote.Struct.Lending.{lent_at};

use std::alloc::{AllocError, Allocator};
use std::marker::{Model, PhantomData};
use std::slice;

/// A block of memory that has room for `capacity` words, with `words` at its start. No region is ever dropped: only `free` ends a region,
/// so its block goes back to the allocator exactly once.
pub(crate) struct Region<A: Allocator> {
    start: *mut u32,
    mark: PhantomData<A>,
    ghost words: { List ℕ },
    ghost capacity: { ℕ },
    ghost alloc: { A },
}

impl<A: Allocator> Model for Region<A> {
    ghost also_owns = { λ r. block_with_items (A.dealloc_token r.alloc) u32 r.start (length r.words)
        r.capacity r.words };

    ghost also_shares = { λ r _ κ. lent_at (Array u32 (length r.words)) r.start r.words κ };
}

impl<A: Allocator> Region<A> {
    ghost use Rattle.wb_chunk.specs.Lending.{lends_words};

    /// Returns a new region whose block has room for `capacity` words. No word is written yet.
    pub(crate) fn allocate(alloc: &A, capacity: u32) -> Result<Region<A>, AllocError>
        ensures { IfOk result (λ r.
            (r.words ≡ []) × (r.capacity ≡ capacity) × (r.alloc ≡ alloc.now)) }
    {
        match alloc.allocate(capacity as usize * 4, 4) {
            Ok(block) => Ok(Region {
                start: block as *mut u32,
                mark: PhantomData,
            }),
            Err(error) => Err(error),
        }
    }

    /// Makes room for `wanted` words; the block may move to another address. If `grow` returns `Err`, the region is as it was.
    pub(crate) fn grow(
        &mut self,
        alloc: &A,
        count: u32,
        capacity: u32,
        wanted: u32,
    ) -> Result<(), AllocError>
        requires alloc { self.old.alloc ≡ alloc.now }
        requires count { (count ≡ length self.old.words) × (count ≤ capacity) }
        requires capacity { (self.old.capacity ≡ capacity) × (capacity ≤ wanted) }
        ensures { OnOk result ((self.new.words ≡ self.old.words) × (self.new.capacity ≡ wanted)
            × (self.new.alloc ≡ self.old.alloc)) × OnErr result (self.new ≡ self.old) }
    {
        match unsafe {
            alloc.grow(
                self.start,
                count as usize,
                capacity as usize,
                wanted as usize,
            )
        } {
            Ok(block) => {
                self.start = block;
                Ok(())
            }
            Err(error) => Err(error),
        }
    }

    /// Gives the block back to the allocator.
    pub(crate) fn free(self, alloc: &A, capacity: u32)
        requires alloc { self.alloc ≡ alloc.now }
        requires capacity { (self.capacity ≡ capacity) × (length self.words ≤ capacity) }
    {
        let Region { start, mark: _ } = self;
        unsafe { alloc.deallocate(start as *mut u8, capacity as usize * 4, 4) }
    }

    /// Writes `word` after the region's `count` words.
    pub(crate) fn append(&mut self, count: u32, word: u32)
        requires { (count ≡ length self.old.words) × (count < self.old.capacity) }
        ensures { (self.new.words ≡ self.old.words ++ word ∷ [])
            × (self.new.capacity ≡ self.old.capacity) × (self.new.alloc ≡ self.old.alloc) }
    {
        unsafe { self.start.add(count as usize).write(word) }
    }

    /// Keeps the first `n` words; the memory of the other words becomes room for new words. Nothing is written.
    pub(crate) fn truncate(&mut self, count: u32, n: u32)
        requires { (count ≡ length self.old.words) × (count ≤ self.old.capacity) × (n ≤ count) }
        ensures { (self.new.words ≡ take n self.old.words)
            × (self.new.capacity ≡ self.old.capacity) × (self.new.alloc ≡ self.old.alloc) }
    {}

    /// The words, as a slice for reading.
    pub(crate) fn as_slice(&self, count: u32) -> &[u32]
        requires { count ≡ length self.now.words }
        ensures { result.now ≡ self.now.words }
    {
        unsafe { slice::from_raw_parts(self.start, count as usize) }
    }

    /// The words, as a slice for changes in place.
    pub(crate) fn as_mut_slice(&mut self, count: u32) -> &mut [u32]
        requires { count ≡ length self.old.words }
        ensures* writes_back { sem 𝓛 (lends_words A.row A.Allocator self.entry result) }
        ensures value { result.now ≡ self.old.words }
    {
        unsafe { slice::from_raw_parts_mut(self.start, count as usize) }
    }
}
