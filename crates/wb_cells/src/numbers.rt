//! A list of numbers, most of which are 0, and searches that skip the zeros.

ghost use Rattle.std.specs.Prelude.{◌≡◌, ◌-◌, ◌<◌, ◌≤◌, [], ◌++◌, length, replicate, slice_index, slice_set, IfOk};
ghost use Rattle.std.specs.Prelude.{IsOk, OnOk, OnErr};
ghost use Rattle.wb_cells.specs.Maxima.{IsFirst, IsLast};

use crate::bits::{Bits, MOST_PLACES};
use crate::layout;
use std::alloc::{AllocError, Global};
use std::marker::Model;
use wb_chunk::Chunk;

/// A list of numbers, which grows at its end.
#[derive(Drop)]
pub struct Numbers {
    words: Chunk,
    /// For each number, whether it differs from 0. So a search for a number that isn't 0 looks at 32 numbers at a time.
    marks: Bits,
}

impl Model for Numbers {
    ghost use Rattle.std.specs.Prelude.{ℕ, List};
    ghost use Rattle.wb_cells.specs.Maxima.{AreMarked};

    ghost Value = { List ℕ };

    ghost view = { λ n. n.words };

    ghost invariant = { λ n. AreMarked n.words n.marks };
}

impl Numbers {
    /// A list of no numbers, which takes no memory.
    pub fn new(alloc: Global) -> Numbers
        ensures { result ≡ [] }
    {
        Numbers {
            words: Chunk::new(alloc),
            marks: Bits::new(alloc),
        }
    }

    /// Returns a copy with the same numbers, in newly allocated memory. Returns `Err` if the allocator refuses memory.
    pub fn try_copy(&self) -> Result<Numbers, AllocError>
        ensures { IfOk result (λ copy. copy ≡ self.now) }
    {
        Ok(Numbers {
            words: self.words.try_copy()?,
            marks: self.marks.try_copy()?,
        })
    }

    /// Returns a copy with the same numbers, in the memory of `spare`. The numbers of `spare` are lost, and its memory is made larger if
    /// necessary. Returns `Err` if the allocator refuses memory.
    pub fn try_copy_over(&self, spare: Numbers) -> Result<Numbers, AllocError>
        ensures { IfOk result (λ copy. copy ≡ self.now) }
    {
        let words = self.words.try_copy_over(spare.words)?;
        let marks = self.marks.try_copy_over(spare.marks)?;
        Ok(Numbers { words, marks })
    }

    /// Appends numbers that are 0 until there are `count` numbers. The call takes no memory if there are at least `count` numbers already.
    /// If the allocator refuses memory, the call returns `Err` and leaves the numbers as they were.
    pub fn grow_to(&mut self, count: u32) -> Result<(), AllocError>
        requires { count ≤ MOST_PLACES }
        ensures grown { OnOk result (self.new ≡ self.old ++ replicate (count - length self.old) 0) }
        ensures enough { count ≤ length self.old → IsOk result }
        ensures refused { OnErr result (self.new ≡ self.old) }
    {
        self.marks.grow_to(count)?;
        layout::grow_to(&mut self.words, count)?;
        Ok(())
    }

    /// How many numbers there are.
    pub fn count(&self) -> u32
        ensures { result ≡ length self.now }
    {
        self.words.words()
    }

    /// The number at an index.
    pub fn number(&self, at: u32) -> u32
        requires { at < length self.now }
        ensures { result ≡ slice_index self.now at }
    {
        self.words.word(at)
    }

    /// Sets the number at an index.
    pub fn set(&mut self, at: u32, number: u32)
        requires { at < length self.old }
        ensures { self.new ≡ slice_set self.old at number }
    {
        let old = self.words.word(at);
        self.words.set_word(at, number);
        if old == 0 || number == 0 {
            self.marks.set(at, number != 0);
        }
    }

    /// Returns the index of the first number that is not 0, at index `from` or above; `None` if there is no such number.
    pub fn next(&self, from: u32) -> Option<u32>
        ensures { IsFirst (slice_index self.now) from (length self.now) 1 result }
    {
        self.marks.next(from)
    }

    /// Returns the index of the last number that is not 0, at index `from` or above and below `end`; `None` if there is no such number.
    pub fn last(&self, from: u32, end: u32) -> Option<u32>
        ensures { IsLast (slice_index self.now) from end result }
    {
        self.marks.last(from, end)
    }
}
