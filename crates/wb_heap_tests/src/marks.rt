//! Tests of `wb_debug` with worked debug heaps that have marks: how many cells each check counts, and what remains when a mark ends.

use crate::debug_calls::{Call, WorkedDebugHeap, first_other};
use crate::rules::Refuses;
use crate::shapes::SHAPE;
use std::test::Fail;
use wb_heap_model::heap::Panic;

static MARKS: [WorkedDebugHeap; 4] = [
    WorkedDebugHeap {
        about: "a check counts the current level",
        rule: Refuses::Nothing,
        shape: SHAPE,
        calls: &[
            Call::Alloc(16, (144, 2)),
            Call::Mark,
            Call::Check(0, None),
            Call::Check(1, Some(Panic::Alloc(0))),
            Call::Alloc(16, (176, 3)),
            Call::Alloc(16, (208, 4)),
            Call::Check(2, None),
            Call::Check(0, Some(Panic::Alloc(0xb0))),
            Call::CheckAll(3, None),
            Call::CheckAll(4, Some(Panic::Alloc(0x90))),
            Call::Leaks(&[(2, 32, 144), (3, 32, 176), (4, 32, 208)]),
        ],
    },
    WorkedDebugHeap {
        about: "a mark that finds cells stays open",
        rule: Refuses::Nothing,
        shape: SHAPE,
        calls: &[
            Call::MarkEnd(0, Some(Panic::NO_OPEN_MARK)),
            Call::Mark,
            Call::Alloc(16, (144, 2)),
            Call::Alloc(16, (176, 3)),
            Call::MarkEnd(0, Some(Panic::Alloc(0x90))),
            Call::Check(2, None),
            Call::MarkEnd(2, None),
            Call::Check(2, None),
            Call::MarkEnd(2, Some(Panic::NO_OPEN_MARK)),
        ],
    },
    WorkedDebugHeap {
        about: "nested marks hand cells outward",
        rule: Refuses::Nothing,
        shape: SHAPE,
        calls: &[
            Call::Mark,
            Call::Mark,
            Call::Alloc(1, (144, 2)),
            Call::MarkEnd(1, None),
            Call::Check(1, None),
            Call::Alloc(1, (176, 3)),
            Call::MarkEnd(2, None),
            Call::Check(2, None),
            Call::Leaks(&[(2, 32, 144), (3, 32, 176)]),
        ],
    },
    WorkedDebugHeap {
        about: "counts of levels follow grants, releases and moved cells",
        rule: Refuses::Nothing,
        shape: SHAPE,
        calls: &[
            Call::Mark,
            Call::Alloc(16, (144, 2)),
            Call::Mark,
            Call::Mark,
            Call::Alloc(16, (176, 3)),
            Call::Alloc(16, (208, 4)),
            Call::Free((144, 2)),
            Call::Check(2, None),
            Call::Alloc(16, (144, 5)),
            Call::Check(1, Some(Panic::Alloc(0x90))),
            Call::MarkEnd(3, None),
            Call::MarkEnd(2, Some(Panic::Alloc(0x90))),
            Call::MarkEnd(3, None),
            Call::Mark,
            Call::Check(0, None),
            Call::Realloc((144, 5), 48, (240, 6)),
            Call::Alloc(16, (144, 7)),
            Call::Check(1, None),
            Call::Header((240, 6), 64, 1),
            Call::Free((144, 7)),
            Call::MarkEnd(0, None),
            Call::Check(2, Some(Panic::Alloc(0xb0))),
            Call::Free((176, 3)),
            Call::Realloc((240, 6), 2048, (240, 6)),
            Call::Check(2, None),
            Call::Free((208, 4)),
            Call::Check(0, Some(Panic::Alloc(0xf0))),
            Call::MarkEnd(1, None),
            Call::CheckAll(1, None),
        ],
    },
];

#[test]
fn worked_marks(rt: HostRuntime) -> Result<(), Fail> {
    for heap in &MARKS {
        assert_eq!(rt; first_other(rt.alloc(), heap)?, None, "{}", heap.about);
    }
    Ok(())
}
