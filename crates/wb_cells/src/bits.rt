//! A list of bits, and searches for bits that are on. The callers decide what a bit means.

ghost use Rattle.std.specs.Prelude.{◌≡◌, ◌+◌, ◌-◌, ◌*◌, ◌/◌, ◌<◌, ◌≤◌, [], ◌++◌, length, replicate, slice_set};
ghost use Rattle.std.specs.Prelude.{slice_index_or, false, IfOk, IsOk, OnOk, OnErr};
ghost use Rattle.wb_cells.specs.Bits.{IsLastIn, IsLastOn, IsNext, IsWithBit};

use crate::layout;
use std::alloc::{AllocError, Global};
use std::marker::Model;
use wb_basics::limits::CEILING;
use wb_chunk::Chunk;

/// The greatest number of places of 16 bytes that a chunk may have. A list may have at most this many bits.
pub const MOST_PLACES: u32 = CEILING / 16;

/// A list of bits, 32 to a word, which grows at its end. Few bits are on. The chunk knows which of its blocks may have any, so a copy needn't
/// write the others.
#[derive(Drop)]
pub struct Bits {
    words: Chunk,
}

impl Model for Bits {
    ghost use Rattle.std.specs.Prelude.{List, Bool, length, ◌*◌, ◌≤◌};
    ghost use Rattle.wb_cells.specs.Bits.{bits_of};

    ghost Value = { List Bool };

    ghost view = { λ s. bits_of s.words };

    ghost use Rattle.wb_cells.specs.declared.bits.TheConstants.{MOST_PLACES};

    ghost invariant = { λ s. 32 * length s.words ≤ MOST_PLACES };
}

impl Bits {
    /// A list of no bits, which takes no memory.
    pub fn new(alloc: Global) -> Bits
        ensures { result ≡ [] }
    {
        Bits {
            words: Chunk::new(alloc),
        }
    }

    /// Returns a copy with the same bits, in newly allocated memory. Returns `Err` if the allocator refuses memory.
    pub fn try_copy(&self) -> Result<Bits, AllocError>
        ensures { IfOk result (λ copy. copy ≡ self.now) }
    {
        Ok(Bits {
            words: self.words.try_copy()?,
        })
    }

    /// Returns a copy with the same bits, in the memory of `spare`. The bits of `spare` are lost, and its memory is made larger if
    /// necessary. Returns `Err` if the allocator refuses memory.
    pub fn try_copy_over(&self, spare: Bits) -> Result<Bits, AllocError>
        ensures { IfOk result (λ copy. copy ≡ self.now) }
    {
        Ok(Bits {
            words: self.words.try_copy_over(spare.words)?,
        })
    }

    /// How many bits there are.
    pub fn count(&self) -> u32
        ensures count { result ≡ length self.now }
        ensures most { length self.now ≤ MOST_PLACES }
    {
        32 * self.words.words()
    }

    /// Appends bits that are off, 32 at a time, until there are at least `count` bits. The call takes no memory if there are at least
    /// `count` bits already. If the allocator refuses memory, the call returns `Err` and leaves the bits as they were.
    pub fn grow_to(&mut self, count: u32) -> Result<(), AllocError>
        requires { count ≤ MOST_PLACES }
        ensures grown { OnOk result (self.new
            ≡ self.old ++ replicate (32 * ((count + 31) / 32) - length self.old) false) }
        ensures enough { count ≤ length self.old → IsOk result }
        ensures refused { OnErr result (self.new ≡ self.old) }
    {
        layout::grow_to(&mut self.words, count.div_ceil(32))
    }

    /// Whether the bit at index `at` is on. Bits past the end of the list are off.
    pub fn is_on(&self, at: u32) -> bool
        ensures { result ≡ slice_index_or self.now at false }
    {
        let index = at / 32;
        if self.words.words() <= index {
            return false;
        }
        self.words.word(index) >> (at % 32) & 1 == 1
    }

    /// Turns the bit at index `at` on or off.
    pub fn set(&mut self, at: u32, on: bool)
        requires { at < length self.old }
        ensures { self.new ≡ slice_set self.old at on }
    {
        let index = at / 32;
        let word = with_bit(self.words.word(index), at % 32, on);
        self.words.set_word(index, word);
    }

    /// Returns the index of the first bit that is on, at index `from` or above; `None` if there is no such bit.
    pub fn next(&self, from: u32) -> Option<u32>
        ensures { IsNext self.now from result }
    {
        let count = self.count();
        let mut at = from;
        while at < count {
            let rest = self.words.word(at / 32) >> (at % 32);
            if rest != 0 {
                return Some(at + rest.trailing_zeros());
            }
            at = (at / 32 + 1) * 32;
        }
        None
    }

    /// Returns the index of the last bit that is on, at index `from` or above and below `end`; `None` if there is no such bit.
    pub fn last(&self, from: u32, end: u32) -> Option<u32>
        ensures { IsLastOn self.now from end result }
    {
        let mut stop = end.min(self.count());
        while from < stop {
            let top = stop - 1;
            stop = top / 32 * 32;
            if let Some(bit) = last_in(self.words.word(top / 32), top % 32) {
                let at = stop + bit;
                return if from <= at { Some(at) } else { None };
            }
        }
        None
    }
}

/// Returns the number of the highest bit of a word that is on, among bits 0 to `top`; `None` if all these bits are off.
fn last_in(word: u32, top: u32) -> Option<u32>
    requires { top < 32 }
    ensures { IsLastIn word top result }
{
    let low = word & (u32::MAX >> (31 - top));
    if low == 0 {
        return None;
    }
    Some(31 - low.leading_zeros())
}

/// The word with bit number `bit` turned on or off.
fn with_bit(word: u32, bit: u32, on: bool) -> u32
    requires { bit < 32 }
    ensures { IsWithBit word result bit on }
{
    let mask = 1 << bit;
    if on { word | mask } else { word & !mask }
}
