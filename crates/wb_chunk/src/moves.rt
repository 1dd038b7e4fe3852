//! Copies words, unchanged or shifted by half a word. The result is as if all words were read before any word was written. If the source
//! and the target overlap, the words are copied in blocks; each block is read whole before its copy is written. The overlap decides whether
//! the first block or the last block is copied first.

ghost use Rattle.std.specs.Prelude.{◌≡◌, ◌+◌, ◌<◌, ◌≤◌, ◌⊎◌, true, false, length};
ghost use Rattle.wb_chunk.specs.Halves.{AreMoved, word_of};

/// How many words a block has; a block is read whole before its copy is written.
const AT_ONCE: usize = 16;

/// Copies the `n` words that start at index `from` to the range that starts at index `to`.
pub(crate) fn move_words(words: &mut [u32], from: usize, to: usize, n: usize)
    requires source { from + n ≤ length words.old }
    requires target { to + n ≤ length words.old }
    ensures { AreMoved false words.old words.new from to n }
{
    if from + n <= to || to + n <= from {
        copy_apart(words, from, to, n);
    } else {
        let last = words[from + n - 1];
        move_all(words, from, to, n - 1, false);
        words[to + n - 1] = last;
    }
}

/// Writes the `n` words from index `to` on. The low half of word `to + k` is the high half of word `from + k`. The high half of word `to +
/// k` is the low half of word `from + k + 1`.
pub(crate) fn shift_words(words: &mut [u32], from: usize, to: usize, n: usize)
    requires source { from + n < length words.old }
    requires target { to + n ≤ length words.old }
    ensures { AreMoved true words.old words.new from to n }
{
    move_all(words, from, to, n, true);
}

/// Copies the `n` words that start at index `from` to the range that starts at index `to`. The two ranges must not overlap.
fn copy_apart(words: &mut [u32], from: usize, to: usize, n: usize)
    requires apart { (from + n ≤ to) ⊎ (to + n ≤ from) }
    requires source { from + n ≤ length words.old }
    requires target { to + n ≤ length words.old }
    ensures { AreMoved false words.old words.new from to n }
{
    if from < to {
        let (sources, targets) = words.split_at_mut(to);
        targets[..n].copy_from_slice(&sources[from..from + n]);
    } else {
        let (targets, sources) = words.split_at_mut(from);
        targets[to..to + n].copy_from_slice(&sources[..n]);
    }
}

/// Copies `n` words, shifted by half a word or unchanged. At least one more word must follow these `n` words.
fn move_all(words: &mut [u32], from: usize, to: usize, n: usize, shifted: bool)
    requires source { from + n < length words.old }
    requires target { to + n ≤ length words.old }
    ensures { AreMoved shifted words.old words.new from to n }
{
    if to <= from {
        move_down(words, from, to, n, shifted);
    } else {
        move_up(words, from, to, n, shifted);
    }
}

/// Does what `move_all` does, if `to` is at most `from`. The copy begins with the first word.
fn move_down(words: &mut [u32], from: usize, to: usize, n: usize, shifted: bool)
    requires order { to ≤ from }
    requires source { from + n < length words.old }
    ensures { AreMoved shifted words.old words.new from to n }
{
    for block in 0..n / AT_ONCE {
        move_block(words, from + block * AT_ONCE, to + block * AT_ONCE, shifted);
    }
    for i in n / AT_ONCE * AT_ONCE..n {
        move_word(words, from + i, to + i, shifted);
    }
}

/// Does what `move_all` does, if `to` is greater than `from`. The copy begins with the last word.
fn move_up(words: &mut [u32], from: usize, to: usize, n: usize, shifted: bool)
    requires order { from < to }
    requires target { to + n ≤ length words.old }
    ensures { AreMoved shifted words.old words.new from to n }
{
    for block in 0..n / AT_ONCE {
        let at = n - (block + 1) * AT_ONCE;
        move_block(words, from + at, to + at, shifted);
    }
    let rest = n % AT_ONCE;
    for i in 0..rest {
        let at = rest - (i + 1);
        move_word(words, from + at, to + at, shifted);
    }
}

/// Copies one block of [`AT_ONCE`] words, shifted by half a word or unchanged.
fn move_block(words: &mut [u32], from: usize, to: usize, shifted: bool)
    requires source { from + AT_ONCE < length words.old }
    requires target { to + AT_ONCE ≤ length words.old }
    ensures { AreMoved shifted words.old words.new from to AT_ONCE }
{
    if shifted {
        shift_block(words, from, to);
    } else {
        copy_block(words, from, to);
    }
}

/// Copies one block of [`AT_ONCE`] words, shifted by half a word.
fn shift_block(words: &mut [u32], from: usize, to: usize)
    requires source { from + AT_ONCE < length words.old }
    requires target { to + AT_ONCE ≤ length words.old }
    ensures { AreMoved true words.old words.new from to AT_ONCE }
{
    let mut block = [0; AT_ONCE + 1];
    block.copy_from_slice(&words[from..from + AT_ONCE + 1]);
    for i in 0..AT_ONCE {
        words[to + i] = high_and_low(block[i], block[i + 1]);
    }
}

/// Copies one block of [`AT_ONCE`] words, unchanged.
fn copy_block(words: &mut [u32], from: usize, to: usize)
    requires source { from + AT_ONCE ≤ length words.old }
    requires target { to + AT_ONCE ≤ length words.old }
    ensures { AreMoved false words.old words.new from to AT_ONCE }
{
    let mut block = [0; AT_ONCE];
    block.copy_from_slice(&words[from..from + AT_ONCE]);
    words[to..to + AT_ONCE].copy_from_slice(&block);
}

/// Copies one word, shifted by half a word or unchanged. At least one more word must follow this word.
fn move_word(words: &mut [u32], from: usize, to: usize, shifted: bool)
    requires source { from + 1 < length words.old }
    requires target { to < length words.old }
    ensures { AreMoved shifted words.old words.new from to 1 }
{
    words[to] = if shifted {
        high_and_low(words[from], words[from + 1])
    } else {
        words[from]
    };
}

/// The word whose low half is the high half of `word`, and whose high half is the low half of `next`.
fn high_and_low(word: u32, next: u32) -> u32
    ensures { result ≡ word_of true word next }
{
    word / 0x1_0000 + next % 0x1_0000 * 0x1_0000
}
