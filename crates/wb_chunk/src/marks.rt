//! Marks that say which blocks of a chunk may hold a word other than 0. A block has 1,024 bytes. A block without a mark is known to hold
//! only zeros, so the code needn't zero it again, and needn't read it to copy it.

ghost use Rattle.std.specs.Prelude.{◌≡◌, ◌+◌, ◌*◌, ◌<◌, ◌≤◌, true, length, replicate};
ghost use Rattle.std.specs.List.{replace_range};
ghost use Rattle.wb_chunk.specs.Marks.{AreMarked, AreSameWords, IsUnmarkedFrom, MarksToo};

use crate::next_marks::{next_in_either, next_marked};

/// How many words a block has.
pub(crate) const BLOCK: usize = 256;

/// Sets the mark of the block that contains word `i`.
pub(crate) fn mark_one(marks: &mut [bool], i: usize)
    requires { i < BLOCK * length marks.old }
    ensures { MarksToo marks.old marks.new i (i + 1) }
{
    marks[i / BLOCK] = true;
}

/// Sets the mark of each block that contains a word with an index from `first` on and below `end`.
pub(crate) fn mark(marks: &mut [bool], first: usize, end: usize)
    requires { end ≤ BLOCK * length marks.old }
    ensures { MarksToo marks.old marks.new first end }
{
    for block in first / BLOCK..end.div_ceil(BLOCK) {
        marks[block] = true;
    }
}

/// Sets the `n` words from index `i` on to 0. Only blocks with a mark are written. A block that is zeroed as a whole loses its mark.
#[tactic(auto, using(crate::proofs::MarkedWords::range_zeroed))]
pub(crate) fn zero(words: &mut [u32], marks: &mut [bool], i: usize, n: usize)
    requires within { i + n ≤ length words.old }
    requires covered { length words.old ≤ BLOCK * length marks.old }
    requires marked { AreMarked marks.old words.old }
    ensures zeros { words.new ≡ replace_range words.old i (i + n) (replicate n 0) }
    ensures marked { AreMarked marks.new words.new }
{
    let end = i + n;
    let blocks = end.div_ceil(BLOCK);
    let mut block = next_marked(marks, i / BLOCK, blocks);
    while block < blocks {
        let first = i.max(block * BLOCK);
        let last = end.min(block * BLOCK + BLOCK);
        words[first..last].fill(0);
        marks[block] = last - first < BLOCK;
        block = next_marked(marks, block + 1, blocks);
    }
}

/// Overwrites `words` with the words of `source`, which has the same length. Only blocks with a mark in `marks` or in `source_marks` are
/// written. Afterwards each block of `words` has its mark from `source_marks`, and no block after `words` has a mark.
pub(crate) fn overwrite(
    words: &mut [u32],
    marks: &mut [bool],
    source: &[u32],
    source_marks: &[bool],
)
    requires as_many { length source.now ≡ length words.old }
    requires covered { length words.old ≤ BLOCK * length marks.old }
    requires source_covered { length source.now ≤ BLOCK * length source_marks.now }
    requires marked { AreMarked marks.old words.old }
    requires source_marked { AreMarked source_marks.now source.now }
    ensures same { words.new ≡ source.now }
    ensures marked { AreMarked marks.new words.new }
    ensures after { IsUnmarkedFrom marks.new (length source.now) }
{
    let blocks = source.len().div_ceil(BLOCK);
    let mut block = next_in_either(marks, source_marks, 0, blocks);
    while block < blocks {
        let first = block * BLOCK;
        let last = source.len().min(first + BLOCK);
        if source_marks[block] {
            words[first..last].copy_from_slice(&source[first..last]);
        } else {
            words[first..last].fill(0);
        }
        marks[block] = source_marks[block];
        block = next_in_either(marks, source_marks, block + 1, blocks);
    }
    marks[blocks..].fill(false);
}

/// Whether `words` and `others` have equal words at all indexes from `first` on and below `end`. The loop doesn't stop at a difference, so
/// that the compiled code can compare many words at once.
fn same_words(words: &[u32], others: &[u32], first: usize, end: usize) -> bool
    requires within { end ≤ length words.now }
    requires others_within { end ≤ length others.now }
    ensures { result ≡ true → AreSameWords words.now others.now first end }
{
    let mut same = true;
    for i in first..end {
        same &= words[i] == others[i];
    }
    same
}

/// Whether `words` and `others` have equal words at the `n` indexes from `i` on. A block that has a mark in neither list isn't read,
/// because both lists have only zeros there.
pub(crate) fn same_range(
    words: &[u32],
    marks: &[bool],
    others: &[u32],
    other_marks: &[bool],
    i: usize,
    n: usize,
) -> bool
    requires within { i + n ≤ length words.now }
    requires others_within { i + n ≤ length others.now }
    requires covered { length words.now ≤ BLOCK * length marks.now }
    requires others_covered { length others.now ≤ BLOCK * length other_marks.now }
    requires marked { AreMarked marks.now words.now }
    requires others_marked { AreMarked other_marks.now others.now }
    ensures { result ≡ true → AreSameWords words.now others.now i (i + n) }
{
    let end = i + n;
    let blocks = end.div_ceil(BLOCK);
    let mut block = next_in_either(marks, other_marks, i / BLOCK, blocks);
    while block < blocks {
        let first = i.max(block * BLOCK);
        let last = end.min(block * BLOCK + BLOCK);
        if !same_words(words, others, first, last) {
            return false;
        }
        block = next_in_either(marks, other_marks, block + 1, blocks);
    }
    true
}
