//! A list with one number for each block of places: the greatest length in the block. The number of the block that changed last is stored
//! apart from the list of all blocks. So a further change of this block's number writes the list only if the list's own number for the
//! block is greater than the new number.

ghost use Rattle.std.specs.Prelude.{◌≡◌, ◌-◌, ◌<◌, ◌≤◌, [], ◌++◌, length, replicate, slice_index, slice_set, IfOk, IsOk};
ghost use Rattle.std.specs.Prelude.{OnOk, OnErr};
ghost use Rattle.wb_cells.specs.Maxima.{IsFirstLong, IsGreatest, IsLast};

use crate::bits::MOST_PLACES;
use crate::ranked::Ranked;
use std::alloc::{AllocError, Global};
use std::marker::Model;

/// A list with a number for each block, which grows at its end.
#[derive(Drop)]
pub struct Blocks {
    /// The numbers of all blocks. The number here for the latest block may be less than that block's true number.
    ranked: Ranked,
    /// The block that changed last.
    latest: u32,
    /// The number of the latest block.
    number: u32,
}

impl Model for Blocks {
    ghost use Rattle.std.specs.Prelude.{ℕ, List, slice_set};
    ghost use Rattle.wb_cells.specs.Maxima.{IsKeptApart};

    ghost Value = { List ℕ };

    ghost view = { λ b. slice_set b.ranked b.latest b.number };

    ghost invariant = { λ b. IsKeptApart b.ranked b.latest b.number };
}

impl Blocks {
    /// A list of no blocks, which takes no memory.
    pub fn new(alloc: Global) -> Blocks
        ensures { result ≡ [] }
    {
        Blocks {
            ranked: Ranked::new(alloc),
            latest: 0,
            number: 0,
        }
    }

    /// Returns a copy with the same numbers, in newly allocated memory. Returns `Err` if the allocator refuses memory.
    pub fn try_copy(&self) -> Result<Blocks, AllocError>
        ensures { IfOk result (λ copy. copy ≡ self.now) }
    {
        Ok(Blocks {
            ranked: self.ranked.try_copy()?,
            latest: self.latest,
            number: self.number,
        })
    }

    /// Returns a copy with the same numbers, in the memory of `spare`. The numbers of `spare` are lost, and its memory is made larger if
    /// necessary. Returns `Err` if the allocator refuses memory.
    pub fn try_copy_over(&self, spare: Blocks) -> Result<Blocks, AllocError>
        ensures { IfOk result (λ copy. copy ≡ self.now) }
    {
        let ranked = self.ranked.try_copy_over(spare.ranked)?;
        let (latest, number) = (self.latest, self.number);
        Ok(Blocks {
            ranked,
            latest,
            number,
        })
    }

    /// Appends numbers that are 0 until there are `count` numbers. The call takes no memory if there are at least `count` numbers already.
    /// If the allocator refuses memory, the call returns `Err` and leaves the numbers as they were.
    pub fn grow_to(&mut self, count: u32) -> Result<(), AllocError>
        requires { count ≤ MOST_PLACES }
        ensures grown { OnOk result (self.new ≡ self.old ++ replicate (count - length self.old) 0) }
        ensures enough { count ≤ length self.old → IsOk result }
        ensures refused { OnErr result (self.new ≡ self.old) }
    {
        self.ranked.grow_to(count)?;
        Ok(())
    }

    /// The number of a block.
    pub fn number(&self, at: u32) -> u32
        requires { at < length self.now }
        ensures { result ≡ slice_index self.now at }
    {
        if at == self.latest {
            return self.number;
        }
        self.ranked.number(at)
    }

    /// Sets the number of block `at`.
    pub fn set(&mut self, at: u32, number: u32)
        requires { at < length self.old }
        ensures { self.new ≡ slice_set self.old at number }
    {
        if at != self.latest {
            settle(&mut self.ranked, self.latest, self.number);
            self.latest = at;
        }
        lower(&mut self.ranked, at, number);
        self.number = number;
    }

    /// Returns the first block whose number is at least `least`; `None` if there is no such block.
    pub fn first_long(&self, least: u32) -> Option<u32>
        requires { 0 < least }
        ensures { IsFirstLong (slice_index self.now) least result }
    {
        let other = self.ranked.first_long(least);
        if self.number < least {
            return other;
        }
        match other {
            Some(at) => Some(at.min(self.latest)),
            None => Some(self.latest),
        }
    }

    /// Returns the last block below block `at` whose number is not 0; `None` if there is no such block.
    pub fn last_below(&self, at: u32) -> Option<u32>
        ensures { IsLast (slice_index self.now) 0 at result }
    {
        let other = self.ranked.last_below(at);
        if self.number == 0 || at <= self.latest {
            return other;
        }
        match other {
            Some(below) => Some(below.max(self.latest)),
            None => Some(self.latest),
        }
    }

    /// The greatest number, or 0 if there are no blocks.
    pub fn greatest(&self) -> u32
        ensures { IsGreatest (slice_index self.now) 0 (length self.now) result }
    {
        self.ranked.greatest().max(self.number)
    }
}

/// Writes the number that was stored apart into the list of all blocks.
fn settle(ranked: &mut Ranked, at: u32, number: u32)
    requires within { 0 < number → at < length ranked.old }
    requires low { slice_index ranked.old at ≤ number }
    ensures { ranked.new ≡ slice_set ranked.old at number }
{
    if number > 0 {
        ranked.set(at, number);
    }
}

/// Sets the number at index `at` to `most` if the number is greater than `most`, and changes nothing else.
fn lower(ranked: &mut Ranked, at: u32, most: u32)
    requires { at < length ranked.old }
    ensures same { slice_set ranked.new at most ≡ slice_set ranked.old at most }
    ensures low { slice_index ranked.new at ≤ most }
{
    if most < ranked.number(at) {
        ranked.set(at, most);
    }
}
