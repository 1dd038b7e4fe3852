//! Tests of copies of heaps, cells and words. Each copy reports the same as its source, and no change to a copy or its source changes the
//! other. Copies of heaps are taken before attempt 6, on a heap where neighbours were freed. Attempt 6 then asks for a cell in their place.

use crate::debug_calls::{Call as DebugCall, Marked, WorkedDebugHeap};
use crate::heap_calls::{Call as HeapCall, Numbered, WorkedHeap};
use crate::rules::Refuses;
use crate::shapes::SHAPE;
use crate::walker::{Called, all_answer};
use std::test::Fail;
use wb_cells::Cells;
use wb_chunk::Chunk;
use wb_heap_model::heap::Answer::Granted;
use wb_heap_model::heap::{Header, Kind, Ptr};

/// A heap that is copied after some calls, what the heap and its copy both report then, and calls that change one of the two.
struct Copied<W, C: 'static> {
    before: W,
    told: &'static [C],
    changes: &'static [C],
}

static DEBUG_HEAP: Copied<WorkedDebugHeap, DebugCall> = Copied {
    before: WorkedDebugHeap {
        about: "cells that were freed merge",
        rule: Refuses::Number(0),
        shape: SHAPE,
        calls: &[
            DebugCall::Alloc(16, (144, 2)),
            DebugCall::Alloc(16, (176, 3)),
            DebugCall::Alloc(16, (208, 4)),
            DebugCall::Alloc(16, (240, 5)),
            DebugCall::Free((176, 3)),
            DebugCall::Free((144, 2)),
            DebugCall::Free((208, 4)),
            DebugCall::Store((240, 5), 3, 7),
            DebugCall::Mark,
            DebugCall::FailNext(3),
        ],
    },
    told: &[
        DebugCall::Attempts(5),
        DebugCall::Trace(&[
            (1, 144, 0, Granted),
            (2, 32, 144, Granted),
            (3, 32, 176, Granted),
            (4, 32, 208, Granted),
            (5, 32, 240, Granted),
        ]),
        DebugCall::Leaks(&[(5, 32, 240)]),
        DebugCall::Size(2, 176, 4096),
        DebugCall::Available(3920, 3824),
        DebugCall::Word((240, 5), 3, 7),
        DebugCall::Header((240, 5), 32, 0),
        DebugCall::NoHeader((144, 2)),
        DebugCall::NoHeader((144, 6)),
    ],
    changes: &[
        DebugCall::Alloc(80, (144, 6)),
        DebugCall::Realloc((240, 5), 48, (240, 5)),
        DebugCall::NoAlloc(16),
        DebugCall::Store((144, 6), 19, 9),
        DebugCall::StoreHalf((144, 6), 0, 5),
        DebugCall::Copy((144, 6), (240, 5), 4),
        DebugCall::Word((240, 5), 0, 5),
        DebugCall::Word((240, 5), 3, 0),
        DebugCall::MarkEnd(1, None),
        DebugCall::FailEvery(1),
        DebugCall::NoAlloc(16),
        DebugCall::FailNone,
        DebugCall::Free((240, 5)),
        DebugCall::Alloc(3856, (240, 10)),
        DebugCall::Free((240, 10)),
        DebugCall::Compress(4096),
        DebugCall::Attempts(10),
        DebugCall::Leaks(&[(6, 96, 144)]),
    ],
};

static HEAP: Copied<WorkedHeap, HeapCall> = Copied {
    before: WorkedHeap {
        about: "cells that were freed merge",
        limit: 8192,
        shape: SHAPE,
        calls: &[
            HeapCall::Alloc(32, (144, 2)),
            HeapCall::Alloc(32, (176, 3)),
            HeapCall::Alloc(32, (208, 4)),
            HeapCall::Alloc(32, (240, 5)),
            HeapCall::Free((176, 3)),
            HeapCall::Free((144, 2)),
            HeapCall::Free((208, 4)),
            HeapCall::Store((240, 5), 3, 7),
        ],
    },
    told: &[
        HeapCall::PlaceFor(96, 144),
        HeapCall::PlaceFor(112, 272),
        HeapCall::Size(2, 176, 4096),
        HeapCall::Available(3920, 3824),
        HeapCall::Held(4096),
        HeapCall::NextLive(144, (240, 5)),
        HeapCall::NoneLive(272),
        HeapCall::Word((240, 5), 3, 7),
        HeapCall::Header((240, 5), 32, 0),
        HeapCall::NoHeader((144, 2)),
        HeapCall::NoHeader((144, 6)),
    ],
    changes: &[
        HeapCall::Alloc(96, (144, 6)),
        HeapCall::Realloc((240, 5), 64, (240, 5)),
        HeapCall::SetLevel((144, 6), 3),
        HeapCall::Header((144, 6), 96, 3),
        HeapCall::Store((144, 6), 19, 9),
        HeapCall::StoreHalf((144, 6), 0, 5),
        HeapCall::Copy((144, 6), (240, 5), 4),
        HeapCall::Word((240, 5), 3, 0),
        HeapCall::Free((240, 5)),
        HeapCall::Alloc(3872, (240, 8)),
        HeapCall::Held(8192),
        HeapCall::Free((240, 8)),
        HeapCall::Compress(4096),
        HeapCall::Size(2, 240, 4096),
    ],
};

// Each step is a function of its own, because a proof gets longer with each heap that a function drops.

/// Whether a heap reports the same before and after another heap changes.
fn stays_beside<H: Called>(
    heap: &mut H,
    other: &mut H,
    told: &[H::Call],
    changes: &[H::Call],
) -> bool {
    let is_same = all_answer(other, told) & all_answer(heap, told);
    let has_changed = all_answer(other, changes);
    is_same & has_changed & all_answer(heap, told)
}

/// Whether a first copy stays unchanged while a second copy, over the memory of `spare`, changes. The first copy must also change in the
/// same way afterwards.
fn is_apart_over<H: Called>(
    spare: H,
    copy: &mut H,
    told: &[H::Call],
    changes: &[H::Call],
) -> Result<bool, H::Fault> {
    let mut second = copy.try_copy_over(spare)?;
    let stays = stays_beside(copy, &mut second, told, changes);
    Ok(stays & all_answer(copy, changes))
}

/// Whether a copy stays unchanged while its source changes, and also while a copy of the copy changes.
fn is_apart<H: Called>(
    mut source: H,
    told: &[H::Call],
    changes: &[H::Call],
) -> Result<bool, H::Fault> {
    let mut copy = source.try_copy()?;
    let stays = stays_beside(&mut copy, &mut source, told, changes);
    Ok(is_apart_over(source, &mut copy, told, changes)? & stays)
}

#[test]
fn copies_of_heaps_are_apart(rt: HostRuntime) -> Result<(), Fail> {
    let mut marked = Marked::new(rt.alloc(), &DEBUG_HEAP.before)?;
    assert!(rt; all_answer(&mut marked, DEBUG_HEAP.before.calls));
    assert!(rt; is_apart(marked, DEBUG_HEAP.told, DEBUG_HEAP.changes)?);
    let mut numbered = Numbered::new(rt.alloc(), &HEAP.before)?;
    assert!(rt; all_answer(&mut numbered, HEAP.before.calls));
    assert!(rt; is_apart(numbered, HEAP.told, HEAP.changes)?);
    Ok(())
}

#[test]
fn a_copy_of_words_is_apart(rt: HostRuntime) -> Result<(), Fail> {
    let mut chunk = Chunk::new(rt.alloc());
    assert_eq!(rt; chunk.try_copy()?.words(), 0);
    chunk.grow(2)?;
    chunk.set_word(1, 7);
    let mut copy = chunk.try_copy()?;
    assert_eq!(rt; copy.word(1), 7);
    copy.set_word(1, 8);
    copy.grow(1)?;
    assert_eq!(rt; chunk.words(), 2);
    assert_eq!(rt; chunk.word(1), 7);
    chunk.zero(0, 2);
    assert_eq!(rt; copy.words(), 3);
    assert_eq!(rt; copy.word(1), 8);
    Ok(())
}

#[test]
fn a_copy_of_cells_is_apart(rt: HostRuntime) -> Result<(), Fail> {
    let mut cells = Cells::new(rt.alloc());
    cells.reserve(256)?;
    let header = Header {
        place: 0,
        length: 32,
        kind: Kind::Raw,
        level: 0,
        number: 1,
    };
    cells.take(0, 32, header);
    let cell = Ptr {
        place: 0,
        number: 1,
    };
    cells.set_payload(cell, 1, 5);
    let mut copy = cells.try_copy()?;
    assert_eq!(rt; copy.payload(cell, 1), 5);
    copy.set_payload(cell, 1, 6);
    assert_eq!(rt; cells.payload(cell, 1), 5);
    copy.give(cell);
    assert_eq!(rt; copy.top(), 0);
    assert_eq!(rt; cells.top(), 32);
    assert_eq!(rt; cells.header(cell), Some(header));
    let second = cells.try_copy_over(copy)?;
    cells.give(cell);
    assert_eq!(rt; second.header(cell), Some(header));
    assert_eq!(rt; second.held(), 256);
    Ok(())
}
