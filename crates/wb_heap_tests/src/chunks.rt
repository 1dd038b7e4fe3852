//! Tests of `wb_chunk`: each call on a chunk in a case where it succeeds, and what a chunk holds after a growth that failed.

ghost use Rattle.std.specs.Prelude.{◌≡◌, ◌+◌, ◌≤◌, length, OnOk, IfOk};

use std::alloc::{AllocError, Global};
use std::test::Fail;
use wb_chunk::{Chunk, MOST_WORDS};

// A chunk that holds the words 1 to 6.
fn six_words(alloc: Global) -> Result<Chunk, AllocError>
    ensures { IfOk result (λ c. length c ≡ 6) }
{
    let mut chunk = Chunk::new(alloc);
    chunk.grow(6)?;
    for i in 0..6 {
        chunk.set_word(i, i + 1);
    }
    Ok(chunk)
}

// Grows a chunk. The contract gives callers only the new length: a list of millions of zeros would be too long for a caller's proof.
fn grow_by(chunk: &mut Chunk, n: u32) -> Result<(), AllocError>
    requires { length chunk.old + n ≤ MOST_WORDS }
    ensures { OnOk result (length chunk.new ≡ length chunk.old + n) }
{
    chunk.grow(n)
}

pub(crate) fn holds(chunk: &Chunk, words: &[u32]) -> bool {
    let mut same = chunk.words() as usize == words.len();
    for i in 0..chunk.words() {
        same = same && words.get(i as usize).copied() == Some(chunk.word(i));
    }
    same
}

#[test]
fn a_chunk_grows_by_zeros(rt: HostRuntime) -> Result<(), Fail> {
    let mut chunk = Chunk::new(rt.alloc());
    assert_eq!(rt; chunk.words(), 0);
    chunk.grow(2)?;
    chunk.set_word(1, 0xffff_ffff);
    chunk.grow(0)?;
    chunk.grow(3)?;
    assert!(rt; holds(&chunk, &[0, 0xffff_ffff, 0, 0, 0]));
    Ok(())
}

#[test]
fn words_outlast_many_growths(rt: HostRuntime) -> Result<(), Fail> {
    let mut chunk = Chunk::new(rt.alloc());
    for i in 0..3000 {
        let before = chunk.words();
        assert_eq!(rt; before, i);
        chunk.grow(1)?;
        chunk.set_word(before, 7 * i);
    }
    for i in 0..chunk.words() {
        assert_eq!(rt; chunk.word(i), 7 * i);
    }
    Ok(())
}

#[test]
fn a_chunk_reaches_its_bound(rt: HostRuntime) -> Result<(), Fail> {
    let mut chunk = Chunk::new(rt.alloc());
    grow_by(&mut chunk, MOST_WORDS - 1)?;
    grow_by(&mut chunk, 1)?;
    assert_eq!(rt; chunk.words(), MOST_WORDS);
    assert_eq!(rt; chunk.word(MOST_WORDS - 1), 0);
    Ok(())
}

#[test]
fn a_word_has_a_low_and_a_high_half(rt: HostRuntime) -> Result<(), Fail> {
    let mut chunk = six_words(rt.alloc())?;
    chunk.set_word(2, 0x1234_5678);
    assert_eq!(rt; chunk.half(4), 0x5678);
    assert_eq!(rt; chunk.half(5), 0x1234);
    chunk.set_half(4, 0xabcd);
    assert_eq!(rt; chunk.word(2), 0x1234_abcd);
    chunk.set_half(5, 0xfedc);
    assert!(rt; holds(&chunk, &[1, 2, 0xfedc_abcd, 4, 5, 6]));
    Ok(())
}

#[test]
fn the_named_words_become_zero(rt: HostRuntime) -> Result<(), Fail> {
    let mut chunk = six_words(rt.alloc())?;
    chunk.zero(1, 3);
    chunk.zero(6, 0);
    assert!(rt; holds(&chunk, &[1, 0, 0, 0, 5, 6]));
    Ok(())
}

// Whether a chunk that held the words 1 to 6 holds `words` after `count` of its words were copied from index `from` to index `to`.
fn copies_to(
    alloc: Global,
    from: u32,
    to: u32,
    count: u32,
    words: &[u32],
) -> Result<bool, AllocError>
    requires from { from + count ≤ 6 }
    requires to { to + count ≤ 6 }
{
    let mut chunk = six_words(alloc)?;
    chunk.copy(from, to, count);
    Ok(holds(&chunk, words))
}

#[test]
fn a_copy_reads_its_source_first(rt: HostRuntime) -> Result<(), Fail> {
    assert!(rt; copies_to(rt.alloc(), 0, 1, 4, &[1, 1, 2, 3, 4, 6])?);
    assert!(rt; copies_to(rt.alloc(), 2, 1, 4, &[1, 3, 4, 5, 6, 6])?);
    assert!(rt; copies_to(rt.alloc(), 4, 0, 2, &[5, 6, 3, 4, 5, 6])?);
    Ok(())
}

#[test]
fn four_words_are_written_at_once(rt: HostRuntime) -> Result<(), Fail> {
    let mut chunk = six_words(rt.alloc())?;
    chunk.set_four(1, [9, 8, 7, 0]);
    assert!(rt; holds(&chunk, &[1, 9, 8, 7, 0, 6]));
    Ok(())
}

// A chunk of `count` words. The word at index i is i + 1 if i + 1 is a multiple of `step`, and 0 if not.
fn spread(alloc: Global, count: u32, step: u32) -> Result<Chunk, AllocError>
    requires bound { count ≤ MOST_WORDS }
    requires step { 1 ≤ step }
    ensures { IfOk result (λ c. length c ≡ count) }
{
    let mut chunk = Chunk::new(alloc);
    chunk.grow(count)?;
    for i in 0..count {
        if (i + 1) % step == 0 {
            chunk.set_word(i, i + 1);
        }
    }
    Ok(chunk)
}

fn is_spread(chunk: &Chunk, count: u32, step: u32) -> bool
    requires { 1 ≤ step }
{
    let mut same = chunk.words() == count;
    for i in 0..chunk.words() {
        let word = if (i + 1) % step == 0 { i + 1 } else { 0 };
        same = same && chunk.word(i) == word;
    }
    same
}

// Chunks whose memory a copy of another chunk takes: how many words each chunk has, and the step of its words that aren't 0.
static SPARES: [(u32, u32); 8] = [
    (0, 1),
    (300, 1),
    (700, 1),
    (700, 5),
    (700, 600),
    (1500, 1),
    (1500, 400),
    (1500, 1500),
];

// Whether a copy of 700 words over another chunk has the words of its source, and no change to the copy or to the source changes the other.
fn is_apart_over(alloc: Global, count: u32, step: u32) -> Result<bool, AllocError> {
    if MOST_WORDS < count || step == 0 {
        return Ok(false);
    }
    let mut chunk = spread(alloc, 700, 350)?;
    let spare = spread(alloc, count, step)?;
    let mut copy = chunk.try_copy_over(spare)?;
    let same = is_spread(&copy, 700, 350);
    copy.grow(1000)?;
    let longer = copy.words() == 1700 && copy.word(1699) == 0;
    copy.set_word(699, 1);
    let kept = is_spread(&chunk, 700, 350);
    chunk.zero(0, 700);
    Ok(same && longer && kept && copy.word(349) == 350)
}

#[test]
fn a_copy_over_another_chunk_is_apart(rt: HostRuntime) -> Result<(), Fail> {
    for (count, step) in &SPARES {
        assert!(rt; is_apart_over(rt.alloc(), *count, *step)?);
    }
    Ok(())
}

// If one of the workbench's own allocations fails, this test sees a growth that fails.
#[test]
fn a_refused_growth_leaves_the_chunk(rt: HostRuntime) {
    let mut chunk = Chunk::new(rt.alloc());
    let first = chunk.grow(2);
    if first.is_err() {
        assert_eq!(rt; chunk.words(), 0);
        return;
    }
    chunk.set_word(0, 5);
    chunk.set_word(1, 6);
    if chunk.grow(100).is_ok() {
        assert_eq!(rt; chunk.words(), 102);
        assert_eq!(rt; chunk.word(0), 5);
        assert_eq!(rt; chunk.word(1), 6);
    } else {
        assert!(rt; holds(&chunk, &[5, 6]));
    }
}
