//! How a region is filled, and by how much a region grows: plain code that uses only a region's own functions.

ghost use Rattle.std.specs.Prelude.{◌≡◌, ◌+◌, ◌*◌, ◌≤◌, ◌++◌, length, max, min, replicate, OnOk, OnErr};
ghost use Rattle.wb_chunk.specs.Fields.{HasRoom, words_of};
ghost use Rattle.wb_chunk.specs.Marks.{AreMarked};

use crate::MOST_WORDS;
use crate::marks::BLOCK;
use crate::region::Region;
use std::alloc::{AllocError, Global};

/// Appends `words` after the `count` words of a region.
fn append_words(region: &mut Region<Global>, count: u32, words: &[u32])
    requires fits { (count ≡ length region.old.words)
        × (count + length words.now ≤ region.old.capacity) }
    requires bound { region.old.capacity ≤ MOST_WORDS }
    ensures words { region.new.words ≡ region.old.words ++ words.now }
    ensures room { (region.new.capacity ≡ region.old.capacity)
        × (region.new.alloc ≡ region.old.alloc) }
{
    let mut next = count;
    for word in words {
        region.append(next, *word);
        next += 1;
    }
}

/// Writes `words` into a region that has no words. If a block has no mark, all its words are 0, so the function doesn't read them.
pub(crate) fn append_marked(region: &mut Region<Global>, words: &[u32], marks: &[bool])
    requires fits { (length region.old.words ≡ 0) × (length words.now ≤ region.old.capacity) }
    requires bound { region.old.capacity ≤ MOST_WORDS }
    requires covered { length words.now ≤ BLOCK * length marks.now }
    requires marked { AreMarked marks.now words.now }
    ensures words { region.new.words ≡ words.now }
    ensures room { (region.new.capacity ≡ region.old.capacity)
        × (region.new.alloc ≡ region.old.alloc) }
{
    for block in 0..words.len().div_ceil(BLOCK) {
        let first = block * BLOCK;
        let last = words.len().min(first + BLOCK);
        if marks[block] {
            append_words(region, first as u32, &words[first..last]);
        } else {
            append_zeros(region, first as u32, (last - first) as u32);
        }
    }
}

/// Appends `n` words that are 0 to the `count` words of a region.
fn append_zeros(region: &mut Region<Global>, count: u32, n: u32)
    requires fits { (count ≡ length region.old.words) × (count + n ≤ region.old.capacity) }
    requires bound { region.old.capacity ≤ MOST_WORDS }
    ensures words { region.new.words ≡ region.old.words ++ replicate n 0 }
    ensures room { (region.new.capacity ≡ region.old.capacity)
        × (region.new.alloc ≡ region.old.alloc) }
{
    for i in 0..n {
        region.append(count + i, 0);
    }
}

/// Does what `append_zeros` does, for a region that is passed by value. The region is then a local variable, so the compiled code reads its
/// fields once and writes many words at a time.
fn with_zeros(mut region: Region<Global>, count: u32, n: u32) -> Region<Global>
    requires fits { (count ≡ length region.words) × (count + n ≤ region.capacity) }
    requires bound { region.capacity ≤ MOST_WORDS }
    ensures words { result.words ≡ region.words ++ replicate n 0 }
    ensures room { (result.capacity ≡ region.capacity) × (result.alloc ≡ region.alloc) }
{
    append_zeros(&mut region, count, n);
    region
}

/// Appends `n` words that are 0 to the `count` words of a region.
pub(crate) fn extend(
    region: &mut Option<Region<Global>>,
    alloc: &Global,
    count: u32,
    capacity: u32,
    n: u32,
)
    requires room { HasRoom region.old capacity alloc.now }
    requires fits { (count ≡ length (words_of region.old)) × (count + n ≤ capacity) }
    requires bound { capacity ≤ MOST_WORDS }
    ensures words { words_of region.new ≡ words_of region.old ++ replicate n 0 }
    ensures room { HasRoom region.new capacity alloc.now }
{
    if let Some(held) = region.take() {
        let longer = with_zeros(held, count, n);
        if let Some(other) = region.replace(longer) {
            other.free(alloc, capacity);
        }
    }
}

/// Makes room for `wanted` words instead of `capacity` words. The words keep their values. For a large block, the operating system moves
/// the pages instead of copying the words. If `make_room` returns `Err`, nothing has changed.
pub(crate) fn make_room(
    region: &mut Option<Region<Global>>,
    alloc: &Global,
    count: u32,
    capacity: u32,
    wanted: u32,
) -> Result<(), AllocError>
    requires room { HasRoom region.old capacity alloc.now }
    requires count { (count ≡ length (words_of region.old)) × (count ≤ capacity) }
    requires more { capacity ≤ wanted }
    ensures made { OnOk result ((words_of region.new ≡ words_of region.old)
        × HasRoom region.new wanted alloc.now) }
    ensures refused { OnErr result (region.new ≡ region.old) }
{
    if let Some(region) = region {
        return region.grow(alloc, count, capacity, wanted);
    }
    let first = Region::allocate(alloc, wanted)?;
    if let Some(other) = region.replace(first) {
        other.free(alloc, capacity);
    }
    Ok(())
}

/// How many words the next region has room for: `wanted`, or twice `capacity` if this is more, but at most [`MOST_WORDS`].
pub(crate) fn larger(capacity: u32, wanted: u32) -> u32
    requires { (capacity ≤ MOST_WORDS) × (wanted ≤ MOST_WORDS) }
    ensures room { (wanted ≤ result) × (min (2 * capacity) MOST_WORDS ≤ result) }
    ensures most { (result ≤ max (2 * capacity) wanted) × (result ≤ MOST_WORDS) }
{
    (2 * capacity).max(wanted).min(MOST_WORDS)
}
