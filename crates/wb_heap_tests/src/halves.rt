//! Tests of `wb_chunk` on halves of words: ranges that begin at odd and even indexes, with odd and even lengths, and copies whose target
//! overlaps their source.

ghost use Rattle.std.specs.Prelude.{◌≡◌, length, IfOk};

use crate::chunks::holds;
use std::alloc::{AllocError, Global};
use std::test::Fail;
use wb_chunk::Chunk;

/// A call on a chunk that holds the halves 1 to 12.
#[derive(Clone, Copy)]
enum Run {
    /// The index of the first half that becomes 0, and how many halves become 0.
    Zero(u32, u32),
    /// The index of the first half that is written, and the halves.
    Write(u32, &'static [u16]),
    /// The index of the first half that is read, the index of the first half that is written, and how many halves are copied.
    Copy(u32, u32, u32),
}

/// Calls, each with the words that the chunk must hold afterwards.
static RUNS: [(Run, [u32; 6]); 31] = [
    (
        Run::Zero(0, 0),
        [0x2_0001, 0x4_0003, 0x6_0005, 0x8_0007, 0xa_0009, 0xc_000b],
    ),
    (
        Run::Zero(2, 4),
        [0x2_0001, 0x0, 0x0, 0x8_0007, 0xa_0009, 0xc_000b],
    ),
    (
        Run::Zero(3, 4),
        [0x2_0001, 0x3, 0x0, 0x8_0000, 0xa_0009, 0xc_000b],
    ),
    (
        Run::Zero(2, 5),
        [0x2_0001, 0x0, 0x0, 0x8_0000, 0xa_0009, 0xc_000b],
    ),
    (
        Run::Zero(3, 5),
        [0x2_0001, 0x3, 0x0, 0x0, 0xa_0009, 0xc_000b],
    ),
    (
        Run::Zero(11, 1),
        [0x2_0001, 0x4_0003, 0x6_0005, 0x8_0007, 0xa_0009, 0xb],
    ),
    (
        Run::Zero(12, 0),
        [0x2_0001, 0x4_0003, 0x6_0005, 0x8_0007, 0xa_0009, 0xc_000b],
    ),
    (
        Run::Write(0, &[]),
        [0x2_0001, 0x4_0003, 0x6_0005, 0x8_0007, 0xa_0009, 0xc_000b],
    ),
    (
        Run::Write(4, &[21, 22]),
        [0x2_0001, 0x4_0003, 0x16_0015, 0x8_0007, 0xa_0009, 0xc_000b],
    ),
    (
        Run::Write(5, &[21, 22]),
        [0x2_0001, 0x4_0003, 0x15_0005, 0x8_0016, 0xa_0009, 0xc_000b],
    ),
    (
        Run::Write(4, &[21, 22, 23]),
        [0x2_0001, 0x4_0003, 0x16_0015, 0x8_0017, 0xa_0009, 0xc_000b],
    ),
    (
        Run::Write(5, &[21, 22, 23]),
        [0x2_0001, 0x4_0003, 0x15_0005, 0x17_0016, 0xa_0009, 0xc_000b],
    ),
    (
        Run::Write(11, &[21]),
        [0x2_0001, 0x4_0003, 0x6_0005, 0x8_0007, 0xa_0009, 0x15_000b],
    ),
    (
        Run::Copy(0, 0, 0),
        [0x2_0001, 0x4_0003, 0x6_0005, 0x8_0007, 0xa_0009, 0xc_000b],
    ),
    (
        Run::Copy(2, 4, 6),
        [0x2_0001, 0x4_0003, 0x4_0003, 0x6_0005, 0x8_0007, 0xc_000b],
    ),
    (
        Run::Copy(4, 2, 6),
        [0x2_0001, 0x6_0005, 0x8_0007, 0xa_0009, 0xa_0009, 0xc_000b],
    ),
    (
        Run::Copy(3, 5, 6),
        [0x2_0001, 0x4_0003, 0x4_0005, 0x6_0005, 0x8_0007, 0xc_0009],
    ),
    (
        Run::Copy(5, 3, 6),
        [0x2_0001, 0x6_0003, 0x8_0007, 0xa_0009, 0xa_000b, 0xc_000b],
    ),
    (
        Run::Copy(2, 4, 5),
        [0x2_0001, 0x4_0003, 0x4_0003, 0x6_0005, 0xa_0007, 0xc_000b],
    ),
    (
        Run::Copy(3, 5, 5),
        [0x2_0001, 0x4_0003, 0x4_0005, 0x6_0005, 0x8_0007, 0xc_000b],
    ),
    (
        Run::Copy(5, 3, 5),
        [0x2_0001, 0x6_0003, 0x8_0007, 0xa_0009, 0xa_0009, 0xc_000b],
    ),
    (
        Run::Copy(2, 3, 6),
        [0x2_0001, 0x3_0003, 0x5_0004, 0x7_0006, 0xa_0008, 0xc_000b],
    ),
    (
        Run::Copy(3, 2, 6),
        [0x2_0001, 0x5_0004, 0x7_0006, 0x9_0008, 0xa_0009, 0xc_000b],
    ),
    (
        Run::Copy(2, 3, 5),
        [0x2_0001, 0x3_0003, 0x5_0004, 0x7_0006, 0xa_0009, 0xc_000b],
    ),
    (
        Run::Copy(3, 2, 5),
        [0x2_0001, 0x5_0004, 0x7_0006, 0x8_0008, 0xa_0009, 0xc_000b],
    ),
    (
        Run::Copy(2, 7, 5),
        [0x2_0001, 0x4_0003, 0x6_0005, 0x3_0007, 0x5_0004, 0x7_0006],
    ),
    (
        Run::Copy(7, 2, 5),
        [0x2_0001, 0x9_0008, 0xb_000a, 0x8_000c, 0xa_0009, 0xc_000b],
    ),
    (
        Run::Copy(3, 6, 4),
        [0x2_0001, 0x4_0003, 0x6_0005, 0x5_0004, 0x7_0006, 0xc_000b],
    ),
    (
        Run::Copy(0, 11, 1),
        [0x2_0001, 0x4_0003, 0x6_0005, 0x8_0007, 0xa_0009, 0x1_000b],
    ),
    (
        Run::Copy(11, 0, 1),
        [0x2_000c, 0x4_0003, 0x6_0005, 0x8_0007, 0xa_0009, 0xc_000b],
    ),
    (
        Run::Copy(4, 3, 0),
        [0x2_0001, 0x4_0003, 0x6_0005, 0x8_0007, 0xa_0009, 0xc_000b],
    ),
];

/// A chunk of six words that hold the halves 1 to 12.
fn twelve_halves(alloc: Global) -> Result<Chunk, AllocError>
    ensures { IfOk result (λ c. length c ≡ 6) }
{
    let mut chunk = Chunk::new(alloc);
    chunk.grow(6)?;
    for i in 0..6 {
        chunk.set_word(i, 2 * i + 1 + (2 * i + 2) * 0x1_0000);
    }
    Ok(chunk)
}

/// Whether the chunk holds these words after a call.
fn leaves(alloc: Global, run: Run, words: &[u32]) -> Result<bool, AllocError> {
    let mut chunk = twelve_halves(alloc)?;
    match run {
        Run::Zero(i, n) if i <= 12 && n <= 12 - i => chunk.zero_halves(i, n),
        Run::Write(i, halves) if i <= 12 && halves.len() <= 12 - i as usize => {
            chunk.write_halves(i, halves)
        }
        Run::Copy(from, to, n) if from <= 12 && to <= 12 && n <= 12 - from && n <= 12 - to => {
            chunk.copy_halves(from, to, n)
        }
        _ => return Ok(false),
    }
    Ok(holds(&chunk, words))
}

#[test]
fn runs_of_halves(rt: HostRuntime) -> Result<(), Fail> {
    for (index, (run, words)) in RUNS.iter().enumerate() {
        assert!(rt; leaves(rt.alloc(), *run, words)?, "run {index}");
    }
    Ok(())
}
