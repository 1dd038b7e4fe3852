//! A list of 32-bit words in one region of memory, which the list owns and frees once.
//!
//! This file has the list, as plain code that uses the region. Only `region.rt`, which has the region, follows a raw pointer. The crates
//! that use this crate give the words their meaning.
#![tactic(auto)]

ghost use Rattle.std.specs.Prelude.{◌≡◌, ◌+◌, ◌*◌, ◌^◌, ◌<◌, ◌≤◌, [], ◌++◌, true, length, replicate, slice_index, slice_set};
ghost use Rattle.std.specs.Prelude.{slice_range, IfOk, IsOk, OnOk, OnErr};
ghost use Rattle.std.specs.List.{All, replace_range};
ghost use Rattle.wb_chunk.specs.Halves.{half_of, halves_from, with_half, with_halves};
ghost use Rattle.wb_chunk.specs.Marks.{AreSameWords};

use growth::{append_marked, extend, larger, make_room};
use marks::BLOCK;
use moves::move_words;
use region::Region;
use std::alloc::{AllocError, Global};
use std::marker::Model;

mod growth;
mod halves;
mod marks;
mod moves;
mod next_marks;
mod region;

/// The most words that a chunk can have: 16,777,216 bytes, the ceiling of a simulated heap.
pub const MOST_WORDS: u32 = 4_194_304;

/// A list of words, which grows at its end and never shrinks. Contracts see a chunk as a list of at most [`MOST_WORDS`] numbers, each below
/// 2^32. Indexes of words begin at 0.
pub struct Chunk {
    region: Option<Region<Global>>,
    count: u32,
    capacity: u32,
    /// For each block of words that the region has room for: whether the block may hold a word other than 0.
    marks: Vec<bool>,
    alloc: Global,
}

impl Model for Chunk {
    ghost use Rattle.std.specs.Prelude.{ℕ, List};
    ghost use Rattle.wb_chunk.specs.Fields.{words_of, IsKept};

    ghost Value = { List ℕ };

    ghost view = { λ c. words_of c.region };

    ghost invariant = { λ c. IsKept c.region c.count c.capacity c.marks.items c.alloc };
}

impl Drop for Chunk {
    fn drop(self) {
        let Chunk {
            region,
            count: _,
            capacity,
            marks: _,
            alloc,
        } = self;
        if let Some(region) = region {
            region.free(&alloc, capacity);
        }
    }
}

impl Chunk {
    /// A chunk of no words, which takes no memory.
    pub fn new(alloc: Global) -> Chunk
        ensures { result ≡ [] }
    {
        Chunk {
            region: None,
            count: 0,
            capacity: 0,
            marks: Vec::new(alloc),
            alloc,
        }
    }

    /// How many words there are. From this call, a caller's proof learns that there are at most [`MOST_WORDS`] words, and that each word
    /// fits into 32 bits.
    pub fn words(&self) -> u32
        ensures count { result ≡ length self.now }
        ensures most { length self.now ≤ MOST_WORDS }
        ensures fit { All (λ w. w < 2 ^ 32) self.now }
    {
        let words = self.as_slice();
        words.len() as u32
    }

    /// Appends `n` words that are 0. If the allocator refuses memory, `grow` returns `Err` and leaves the chunk as it was. If `n` is 0, the
    /// call always succeeds. A region that has to grow doubles its room, or grows to the room that is needed if that is more. So the total
    /// cost of many small calls is only proportional to the number of words that these calls append.
    #[tactic(auto, using(crate::proofs::MarkedWords::marked_longer))]
    pub fn grow(&mut self, n: u32) -> Result<(), AllocError>
        requires { length self.old + n ≤ MOST_WORDS }
        ensures grown { OnOk result (self.new ≡ self.old ++ replicate n 0) }
        ensures nothing { n ≡ 0 → IsOk result }
        ensures refused { OnErr result (self.new ≡ self.old) }
    {
        let count = self.count + n;
        if count <= self.capacity {
            extend(&mut self.region, &self.alloc, self.count, self.capacity, n);
            self.count = count;
            return Ok(());
        }
        let capacity = larger(self.capacity, count);
        self.marks
            .resize((capacity as usize).div_ceil(BLOCK), false)?;
        make_room(
            &mut self.region,
            &self.alloc,
            self.count,
            self.capacity,
            capacity,
        )?;
        extend(&mut self.region, &self.alloc, self.count, capacity, n);
        self.capacity = capacity;
        self.count = count;
        Ok(())
    }

    /// Returns a copy with the same words, in newly allocated memory. A later change to the copy doesn't change the original, and a later
    /// change to the original doesn't change the copy. Returns `Err` if the allocator refuses memory.
    pub fn try_copy(&self) -> Result<Chunk, AllocError>
        ensures { IfOk result (λ copy. copy ≡ self.now) }
    {
        if self.count == 0 {
            return Ok(Chunk::new(self.alloc));
        }
        let marks = Vec::from_slice(self.alloc, self.marks.as_slice())?;
        let mut region = Region::allocate(&self.alloc, self.count)?;
        append_marked(&mut region, self.as_slice(), marks.as_slice());
        Ok(Chunk {
            region: Some(region),
            count: self.count,
            capacity: self.count,
            marks,
            alloc: self.alloc,
        })
    }

    /// Returns a copy with the same words, in the memory of `spare`. The words of `spare` are lost, and its memory is made larger if the
    /// copy doesn't fit. Only blocks that may differ are written: blocks with a mark in this chunk or in `spare`. Returns `Err` if the
    /// allocator refuses memory.
    pub fn try_copy_over(&self, mut spare: Chunk) -> Result<Chunk, AllocError>
        ensures { IfOk result (λ copy. copy ≡ self.now) }
    {
        let missing = self.count.saturating_sub(spare.count);
        spare.grow(missing)?;
        let Some(region) = &mut spare.region else {
            return self.try_copy();
        };
        region.truncate(spare.count, self.count);
        spare.count = self.count;
        marks::overwrite(
            region.as_mut_slice(self.count),
            spare.marks.as_mut_slice(),
            self.as_slice(),
            self.marks.as_slice(),
        );
        Ok(spare)
    }

    /// The word at index `i`.
    pub fn word(&self, i: u32) -> u32
        requires { i < length self.now }
        ensures { result ≡ slice_index self.now i }
    {
        self.as_slice()[i as usize]
    }

    /// Sets the word at index `i` to `v`.
    pub fn set_word(&mut self, i: u32, v: u32)
        requires { i < length self.old }
        ensures { self.new ≡ slice_set self.old i v }
    {
        marks::mark_one(self.marks.as_mut_slice(), i as usize);
        if let Some(region) = &mut self.region {
            region.as_mut_slice(self.count)[i as usize] = v;
        }
    }

    /// Sets the four words from index `i` on to `four`, in one write, and changes nothing else.
    pub fn set_four(&mut self, i: u32, four: [u32; 4])
        requires { i + 4 ≤ length self.old }
        ensures { self.new ≡ replace_range self.old i (i + 4) four }
    {
        let end = i as usize + 4;
        marks::mark(self.marks.as_mut_slice(), i as usize, end);
        if let Some(region) = &mut self.region {
            region.as_mut_slice(self.count)[i as usize..end].copy_from_slice(&four);
        }
    }

    /// The half at index `i`. Indexes count halves of 16 bits: half 2k is the low half of word k, and half 2k + 1 is the high half of word
    /// k.
    pub fn half(&self, i: u32) -> u16
        requires { i < 2 * length self.now }
        ensures { result ≡ half_of self.now i }
    {
        halves::half(self.as_slice(), i as usize)
    }

    /// Sets the half at index `i` to `v`, and leaves the other half of the word as it is. Indexes count halves.
    pub fn set_half(&mut self, i: u32, v: u16)
        requires { i < 2 * length self.old }
        ensures { self.new ≡ with_half self.old i v }
    {
        marks::mark_one(self.marks.as_mut_slice(), i as usize / 2);
        if let Some(region) = &mut self.region {
            halves::set_half(region.as_mut_slice(self.count), i as usize, v);
        }
    }

    /// Sets the `n` halves from index `i` on to 0, and changes nothing else. Indexes count halves.
    pub fn zero_halves(&mut self, i: u32, n: u32)
        requires { i + n ≤ 2 * length self.old }
        ensures { self.new ≡ with_halves self.old i (replicate n 0) }
    {
        if let Some(region) = &mut self.region {
            let words = region.as_mut_slice(self.count);
            halves::zero(words, self.marks.as_mut_slice(), i as usize, n as usize);
        }
    }

    /// Writes `halves` from index `i` on, and changes nothing else. Indexes count halves.
    pub fn write_halves(&mut self, i: u32, halves: &[u16])
        requires { i + length halves.now ≤ 2 * length self.old }
        ensures { self.new ≡ with_halves self.old i halves.now }
    {
        let Some(region) = &mut self.region else {
            return;
        };
        halves::write(region.as_mut_slice(self.count), i as usize, halves);
        let end = i as usize + halves.len();
        marks::mark(self.marks.as_mut_slice(), i as usize / 2, end.div_ceil(2));
    }

    /// Copies the `n` halves that start at index `from` to the range that starts at index `to`. The two ranges may overlap: the result is
    /// as if all halves were read before any half was written. Indexes count halves.
    pub fn copy_halves(&mut self, from: u32, to: u32, n: u32)
        requires source { from + n ≤ 2 * length self.old }
        requires target { to + n ≤ 2 * length self.old }
        ensures { self.new ≡ with_halves self.old to (halves_from self.old from n) }
    {
        let Some(region) = &mut self.region else {
            return;
        };
        let words = region.as_mut_slice(self.count);
        halves::copy(words, from as usize, to as usize, n as usize);
        let end = to as usize + n as usize;
        marks::mark(self.marks.as_mut_slice(), to as usize / 2, end.div_ceil(2));
    }

    /// Sets the `n` words from index `i` on to 0.
    pub fn zero(&mut self, i: u32, n: u32)
        requires { i + n ≤ length self.old }
        ensures { self.new ≡ replace_range self.old i (i + n) (replicate n 0) }
    {
        if let Some(region) = &mut self.region {
            let words = region.as_mut_slice(self.count);
            marks::zero(words, self.marks.as_mut_slice(), i as usize, n as usize);
        }
    }

    /// Copies the `n` words that start at index `from` to the range that starts at index `to`. The two ranges may overlap: the result is as
    /// if all words were read before any word was written.
    #[tactic(auto, using(crate::proofs::MovedWords::moved_range))]
    pub fn copy(&mut self, from: u32, to: u32, n: u32)
        requires source { from + n ≤ length self.old }
        requires target { to + n ≤ length self.old }
        ensures { self.new
            ≡ replace_range self.old to (to + n) (slice_range self.old from (from + n)) }
    {
        marks::mark(self.marks.as_mut_slice(), to as usize, (to + n) as usize);
        if let Some(region) = &mut self.region {
            let words = region.as_mut_slice(self.count);
            move_words(words, from as usize, to as usize, n as usize);
        }
    }

    /// Whether the `n` words from index `i` on are equal to the words at the same indexes of another chunk. A block is not read if both
    /// chunks are known to have only zeros there.
    pub fn has_words_of(&self, other: &Chunk, i: u32, n: u32) -> bool
        requires within { i + n ≤ length self.now }
        requires other_within { i + n ≤ length other.now }
        ensures { result ≡ true → AreSameWords self.now other.now i (i + n) }
    {
        let (words, others) = (self.as_slice(), other.as_slice());
        marks::same_range(
            words,
            self.marks.as_slice(),
            others,
            other.marks.as_slice(),
            i as usize,
            n as usize,
        )
    }

    fn as_slice(&self) -> &[u32]
        ensures words { result.now ≡ self.now }
        ensures most { length self.now ≤ MOST_WORDS }
    {
        match &self.region {
            Some(region) => region.as_slice(self.count),
            None => &[],
        }
    }
}
