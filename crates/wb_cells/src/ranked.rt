//! A list of numbers, with the greatest of each 64 numbers and the greatest of all numbers. The callers decide what the numbers mean.

ghost use Rattle.std.specs.Prelude.{◌≡◌, ◌-◌, ◌<◌, ◌≤◌, [], ◌++◌, length, replicate, slice_index, slice_set, IfOk, IsOk};
ghost use Rattle.std.specs.Prelude.{OnOk, OnErr};
ghost use Rattle.wb_cells.specs.Maxima.{IsFirstLong, IsGreatest, IsLast};

use crate::bits::MOST_PLACES;
use crate::maxima::{self, SPAN};
use crate::numbers::Numbers;
use std::alloc::{AllocError, Global};
use std::marker::Model;

/// A list of numbers, which grows at its end.
#[derive(Drop)]
pub struct Ranked {
    numbers: Numbers,
    /// The greatest of each 64 numbers.
    spans: Numbers,
    /// The greatest of all numbers.
    greatest: u32,
}

impl Model for Ranked {
    ghost use Rattle.std.specs.Prelude.{ℕ, List};
    ghost use Rattle.wb_cells.specs.Maxima.{AreRanked};

    ghost Value = { List ℕ };

    ghost view = { λ r. r.numbers };

    ghost invariant = { λ r. AreRanked r.numbers r.spans r.greatest };
}

impl Ranked {
    /// A list of no numbers, which takes no memory.
    pub fn new(alloc: Global) -> Ranked
        ensures { result ≡ [] }
    {
        Ranked {
            numbers: Numbers::new(alloc),
            spans: Numbers::new(alloc),
            greatest: 0,
        }
    }

    /// Returns a copy with the same numbers, in newly allocated memory. Returns `Err` if the allocator refuses memory.
    pub fn try_copy(&self) -> Result<Ranked, AllocError>
        ensures { IfOk result (λ copy. copy ≡ self.now) }
    {
        Ok(Ranked {
            numbers: self.numbers.try_copy()?,
            spans: self.spans.try_copy()?,
            greatest: self.greatest,
        })
    }

    /// Returns a copy with the same numbers, in the memory of `spare`. The numbers of `spare` are lost, and its memory is made larger if
    /// necessary. Returns `Err` if the allocator refuses memory.
    pub fn try_copy_over(&self, spare: Ranked) -> Result<Ranked, AllocError>
        ensures { IfOk result (λ copy. copy ≡ self.now) }
    {
        Ok(Ranked {
            numbers: self.numbers.try_copy_over(spare.numbers)?,
            spans: self.spans.try_copy_over(spare.spans)?,
            greatest: self.greatest,
        })
    }

    /// Appends numbers that are 0 until there are `count` numbers. The call takes no memory if there are at least `count` numbers already.
    /// If the allocator refuses memory, the call returns `Err` and leaves the numbers as they were.
    pub fn grow_to(&mut self, count: u32) -> Result<(), AllocError>
        requires { count ≤ MOST_PLACES }
        ensures grown { OnOk result (self.new ≡ self.old ++ replicate (count - length self.old) 0) }
        ensures enough { count ≤ length self.old → IsOk result }
        ensures refused { OnErr result (self.new ≡ self.old) }
    {
        self.spans.grow_to(count.div_ceil(SPAN))?;
        self.numbers.grow_to(count)?;
        Ok(())
    }

    /// The number at an index.
    pub fn number(&self, at: u32) -> u32
        requires { at < length self.now }
        ensures { result ≡ slice_index self.now at }
    {
        self.numbers.number(at)
    }

    /// Sets the number at an index.
    pub fn set(&mut self, at: u32, number: u32)
        requires { at < length self.old }
        ensures { self.new ≡ slice_set self.old at number }
    {
        let old = self.numbers.number(at);
        self.numbers.set(at, number);
        let Some(span) = maxima::renew(&self.numbers, &mut self.spans, at, old) else {
            return;
        };
        let at = at / SPAN;
        let count = self.spans.count();
        let greatest = maxima::greatest_now(&self.spans, 0, count, self.greatest, at, span);
        self.greatest = greatest;
    }

    /// Returns the index of the first number that is at least `least`; `None` if there is no such number.
    pub fn first_long(&self, least: u32) -> Option<u32>
        requires { 0 < least }
        ensures { IsFirstLong (slice_index self.now) least result }
    {
        if self.greatest < least {
            return None;
        }
        let span = maxima::first_among(&self.spans, 0, self.spans.count(), least)?;
        let first = span * SPAN;
        maxima::first_among(&self.numbers, first, first + SPAN, least)
    }

    /// Returns the index of the last number that is not 0, below index `at`; `None` if there is no such number.
    pub fn last_below(&self, at: u32) -> Option<u32>
        ensures { IsLast (slice_index self.now) 0 at result }
    {
        if self.greatest == 0 {
            return None;
        }
        let own = self.numbers.last(at / SPAN * SPAN, at);
        if own.is_some() {
            return own;
        }
        let span = self.spans.last(0, at / SPAN)?;
        self.numbers.last(span * SPAN, span * SPAN + SPAN)
    }

    /// The greatest number, or 0 if there are no numbers.
    pub fn greatest(&self) -> u32
        ensures { IsGreatest (slice_index self.now) 0 (length self.now) result }
    {
        self.greatest
    }
}
