//! Reads and writes halves of words, one or many at a time. A range of halves is read and written in whole words, except for a single half
//! at either end of the range. Indexes count halves.

ghost use Rattle.std.specs.Prelude.{◌≡◌, ◌+◌, ◌*◌, ◌%◌, ◌^◌, ◌<◌, ◌≤◌, length, replicate};
ghost use Rattle.std.specs.List.{All};
ghost use Rattle.wb_chunk.specs.Halves.{half_of, halves_from, with_half, with_halves};
ghost use Rattle.wb_chunk.specs.Marks.{AreMarked};

use crate::marks::{self, BLOCK};
use crate::moves::{move_words, shift_words};

/// The half at index `i`.
pub(crate) fn half(words: &[u32], i: usize) -> u16
    requires { i < 2 * length words.now }
    ensures { result ≡ half_of words.now i }
{
    let word = words[i / 2];
    if i % 2 == 0 {
        (word % 0x1_0000) as u16
    } else {
        (word / 0x1_0000) as u16
    }
}

/// Sets the half at index `i` to `v`, and leaves the other half of the word as it is.
pub(crate) fn set_half(words: &mut [u32], i: usize, v: u16)
    requires { i < 2 * length words.old }
    ensures { words.new ≡ with_half words.old i v }
{
    let word = words[i / 2];
    words[i / 2] = if i % 2 == 0 {
        word / 0x1_0000 * 0x1_0000 + v as u32
    } else {
        v as u32 * 0x1_0000 + word % 0x1_0000
    };
}

/// Sets the `n` halves from index `i` on to 0, as [`marks::zero`] does with words.
#[tactic(auto, using(crate::proofs::MarkedWords::marked_zero_half))]
pub(crate) fn zero(words: &mut [u32], marks: &mut [bool], i: usize, n: usize)
    requires within { i + n ≤ 2 * length words.old }
    requires covered { length words.old ≤ BLOCK * length marks.old }
    requires marked { AreMarked marks.old words.old }
    ensures zeros { words.new ≡ with_halves words.old i (replicate n 0) }
    ensures marked { AreMarked marks.new words.new }
{
    if i % 2 == 0 {
        zero_from_word(words, marks, i, n);
    } else if 0 < n {
        zero_from_word(words, marks, i + 1, n - 1);
        set_half(words, i, 0);
    }
}

/// Does what `zero` does, if a word begins at index `i`.
#[tactic(auto, using(crate::proofs::MarkedWords::marked_zero_half))]
fn zero_from_word(words: &mut [u32], marks: &mut [bool], i: usize, n: usize)
    requires even { i % 2 ≡ 0 }
    requires within { i + n ≤ 2 * length words.old }
    requires covered { length words.old ≤ BLOCK * length marks.old }
    requires marked { AreMarked marks.old words.old }
    ensures zeros { words.new ≡ with_halves words.old i (replicate n 0) }
    ensures marked { AreMarked marks.new words.new }
{
    marks::zero(words, marks, i / 2, n / 2);
    if n % 2 != 0 {
        set_half(words, i + n - 1, 0);
    }
}

/// Writes halves from index `i` on.
pub(crate) fn write(words: &mut [u32], i: usize, halves: &[u16])
    requires { i + length halves.now ≤ 2 * length words.old }
    ensures { words.new ≡ with_halves words.old i halves.now }
{
    if i % 2 == 0 {
        write_from_word(words, i, halves);
    } else if 0 < halves.len() {
        write_from_word(words, i + 1, &halves[1..]);
        set_half(words, i, halves[0]);
    }
}

/// Does what `write` does, if a word begins at index `i`.
fn write_from_word(words: &mut [u32], i: usize, halves: &[u16])
    requires even { i % 2 ≡ 0 }
    requires within { i + length halves.now ≤ 2 * length words.old }
    ensures { words.new ≡ with_halves words.old i halves.now }
{
    let n = halves.len();
    for k in 0..n / 2 {
        words[i / 2 + k] = u32::from(halves[2 * k]) + u32::from(halves[2 * k + 1]) * 0x1_0000;
    }
    if n % 2 != 0 {
        set_half(words, i + n - 1, halves[n - 1]);
    }
}

/// Copies the `n` halves that start at index `from` to the range that starts at index `to`. The result is as if all halves were read before
/// any half was written.
pub(crate) fn copy(words: &mut [u32], from: usize, to: usize, n: usize)
    requires fit { All (λ w. w < 2 ^ 32) words.old }
    requires source { from + n ≤ 2 * length words.old }
    requires target { to + n ≤ 2 * length words.old }
    ensures { words.new ≡ with_halves words.old to (halves_from words.old from n) }
{
    if to % 2 == 0 {
        copy_to_word(words, from, to, n);
    } else if 0 < n {
        let first = half(words, from);
        copy_to_word(words, from + 1, to + 1, n - 1);
        set_half(words, to, first);
    }
}

/// Does what `copy` does, if a word begins at index `to`.
fn copy_to_word(words: &mut [u32], from: usize, to: usize, n: usize)
    requires even { to % 2 ≡ 0 }
    requires fit { All (λ w. w < 2 ^ 32) words.old }
    requires source { from + n ≤ 2 * length words.old }
    requires target { to + n ≤ 2 * length words.old }
    ensures { words.new ≡ with_halves words.old to (halves_from words.old from n) }
{
    if n % 2 == 0 {
        copy_pairs(words, from, to / 2, n / 2);
    } else {
        let last = half(words, from + n - 1);
        copy_pairs(words, from, to / 2, n / 2);
        set_half(words, to + n - 1, last);
    }
}

/// Copies `n` pairs of halves. The pairs begin at half `from`, and each pair becomes one word, from word `to` on.
fn copy_pairs(words: &mut [u32], from: usize, to: usize, n: usize)
    requires fit { All (λ w. w < 2 ^ 32) words.old }
    requires source { from + 2 * n ≤ 2 * length words.old }
    requires target { to + n ≤ length words.old }
    ensures { words.new ≡ with_halves words.old (2 * to) (halves_from words.old from (2 * n)) }
{
    let start = from / 2;
    if from % 2 == 0 {
        move_words(words, start, to, n);
    } else {
        shift_words(words, start, to, n);
    }
}
