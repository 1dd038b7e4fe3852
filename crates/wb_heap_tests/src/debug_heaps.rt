//! Tests of `wb_debug` with worked debug heaps: calls as scripts make them, and the answers, places and refusals that the heaps must
//! report.

use crate::debug_calls::{Call, WorkedDebugHeap, first_other};
use crate::rules::Refuses;
use crate::shapes::{SHAPE, WITH_MINIMUM};
use std::test::Fail;
use wb_debug::{DebugFault, DebugHeap};
use wb_heap_model::heap::Answer::{Granted, Refused, Simulated};
use wb_heap_model::heap::{Attempt, Kind, Rule, Shape};

static ATTEMPTS: [WorkedDebugHeap; 20] = [
    WorkedDebugHeap {
        about: "the next attempt fails once",
        rule: Refuses::Nothing,
        shape: SHAPE,
        calls: &[
            Call::FailNext(1),
            Call::NoAlloc(16),
            Call::Alloc(16, (144, 3)),
            Call::Attempts(3),
            Call::Trace(&[
                (1, 144, 0, Granted),
                (2, 32, 144, Simulated),
                (3, 32, 144, Granted),
            ]),
            Call::Free((144, 3)),
            Call::Leaks(&[]),
        ],
    },
    WorkedDebugHeap {
        about: "every second attempt fails",
        rule: Refuses::Nothing,
        shape: SHAPE,
        calls: &[
            Call::FailEvery(2),
            Call::Alloc(16, (144, 2)),
            Call::NoAlloc(16),
            Call::Alloc(16, (176, 4)),
            Call::NoAlloc(16),
            Call::FailEvery(1),
            Call::NoAlloc(16),
            Call::FailNone,
            Call::Alloc(16, (208, 7)),
        ],
    },
    WorkedDebugHeap {
        about: "the second attempt fails",
        rule: Refuses::Number(2),
        shape: SHAPE,
        calls: &[
            Call::NoAlloc(10),
            Call::Alloc(100, (144, 3)),
            Call::Alloc(16, (272, 4)),
        ],
    },
    WorkedDebugHeap {
        about: "the setting is asked before the limit",
        rule: Refuses::Past(303),
        shape: SHAPE,
        calls: &[
            Call::Alloc(10, (144, 2)),
            Call::NoAlloc(100),
            Call::FailNext(2),
            Call::NoAlloc(100),
            Call::NoAlloc(100),
            Call::Trace(&[
                (1, 144, 0, Granted),
                (2, 32, 144, Granted),
                (3, 128, 176, Refused),
                (4, 128, 176, Refused),
                (5, 128, 176, Simulated),
            ]),
        ],
    },
    WorkedDebugHeap {
        about: "a rate counts from attempt 1, whatever the setting counts from",
        rule: Refuses::Every(3),
        shape: SHAPE,
        calls: &[
            Call::Alloc(16, (144, 2)),
            Call::NoAlloc(16),
            Call::FailEvery(2),
            Call::Alloc(16, (176, 4)),
            Call::NoAlloc(16),
            Call::NoRealloc((144, 2), 48),
            Call::NoAlloc(16),
            Call::FailNone,
            Call::Alloc(16, (208, 8)),
            Call::NoAlloc(16),
            Call::Trace(&[
                (1, 144, 0, Granted),
                (2, 32, 144, Granted),
                (3, 32, 176, Simulated),
                (4, 32, 176, Granted),
                (5, 32, 208, Simulated),
                (6, 64, 208, Simulated),
                (7, 32, 208, Simulated),
                (8, 32, 208, Granted),
                (9, 32, 240, Simulated),
            ]),
        ],
    },
    WorkedDebugHeap {
        about: "what a rate and the setting refuse is refused once",
        rule: Refuses::Every(2),
        shape: SHAPE,
        calls: &[
            Call::FailNext(1),
            Call::NoAlloc(16),
            Call::Alloc(16, (144, 3)),
            Call::NoAlloc(16_777_216),
            Call::AllocPastCeiling(16_777_216),
            Call::Attempts(4),
        ],
    },
    WorkedDebugHeap {
        about: "a rate of 0 refuses nothing",
        rule: Refuses::Every(0),
        shape: SHAPE,
        calls: &[
            Call::Alloc(16, (144, 2)),
            Call::FailNext(1),
            Call::NoAlloc(16),
            Call::Alloc(16, (176, 4)),
        ],
    },
    WorkedDebugHeap {
        about: "all attempts fail from one on, whatever the script sets",
        rule: Refuses::From(3),
        shape: SHAPE,
        calls: &[
            Call::Alloc(16, (144, 2)),
            Call::NoAlloc(16),
            Call::FailNone,
            Call::NoRealloc((144, 2), 48),
            Call::Trace(&[
                (1, 144, 0, Granted),
                (2, 32, 144, Granted),
                (3, 32, 176, Simulated),
                (4, 64, 144, Simulated),
            ]),
            Call::NoAlloc(16_777_216),
            Call::Attempts(5),
        ],
    },
    WorkedDebugHeap {
        about: "from number 0 on nothing is refused",
        rule: Refuses::From(0),
        shape: SHAPE,
        calls: &[
            Call::Alloc(16, (144, 2)),
            Call::FailNext(1),
            Call::NoAlloc(16),
            Call::Alloc(16, (176, 4)),
        ],
    },
    WorkedDebugHeap {
        about: "two attempts fail beside those that the setting refuses",
        rule: Refuses::Pair(2, 5),
        shape: SHAPE,
        calls: &[
            Call::NoAlloc(16),
            Call::FailNext(2),
            Call::Alloc(16, (144, 3)),
            Call::NoRealloc((144, 3), 48),
            Call::NoRealloc((144, 3), 48),
            Call::FailNext(1),
            Call::NoAlloc(16),
            Call::Alloc(16, (176, 7)),
            Call::AllocPastCeiling(16_777_216),
            Call::Trace(&[
                (1, 144, 0, Granted),
                (2, 32, 144, Simulated),
                (3, 32, 144, Granted),
                (4, 64, 144, Simulated),
                (5, 64, 144, Simulated),
                (6, 32, 176, Simulated),
                (7, 32, 176, Granted),
            ]),
        ],
    },
    WorkedDebugHeap {
        about: "the attempts of a set fail, and no other",
        rule: Refuses::Set(&[2, 4, 5]),
        shape: SHAPE,
        calls: &[
            Call::NoAlloc(16),
            Call::Alloc(16, (144, 3)),
            Call::NoRealloc((144, 3), 48),
            Call::NoAlloc(16),
            Call::Alloc(16, (176, 6)),
            Call::Trace(&[
                (1, 144, 0, Granted),
                (2, 32, 144, Simulated),
                (3, 32, 144, Granted),
                (4, 64, 144, Simulated),
                (5, 32, 176, Simulated),
                (6, 32, 176, Granted),
            ]),
        ],
    },
    WorkedDebugHeap {
        about: "the ceiling counts nothing",
        rule: Refuses::Number(0),
        shape: SHAPE,
        calls: &[
            Call::FailNext(2),
            Call::AllocPastCeiling(16_777_216),
            Call::Attempts(1),
            Call::Alloc(16, (144, 2)),
            Call::NoAlloc(16_777_216),
        ],
    },
    WorkedDebugHeap {
        about: "a stale pointer is not released",
        rule: Refuses::Nothing,
        shape: SHAPE,
        calls: &[
            Call::Alloc(16, (144, 2)),
            Call::Free((144, 2)),
            Call::NoFree((144, 2)),
            Call::Alloc(16, (144, 3)),
            Call::NoFree((144, 2)),
            Call::Free((0, 0)),
            Call::Header((144, 3), 32, 0),
            Call::NoHeader((144, 2)),
        ],
    },
    WorkedDebugHeap {
        about: "growth fills the hole after it",
        rule: Refuses::Nothing,
        shape: SHAPE,
        calls: &[
            Call::Alloc(16, (144, 2)),
            Call::Alloc(16, (176, 3)),
            Call::Alloc(16, (208, 4)),
            Call::Free((176, 3)),
            Call::Store((144, 2), 3, 7),
            Call::Realloc((144, 2), 48, (144, 2)),
            Call::Size(3, 240, 4096),
            Call::Attempts(5),
            Call::Word((144, 2), 3, 7),
            Call::Word((144, 2), 11, 0),
            Call::Realloc((144, 2), 49, (240, 6)),
            Call::Word((240, 6), 3, 7),
            Call::NoFree((144, 2)),
        ],
    },
    WorkedDebugHeap {
        about: "each cell that grows moves, if the shape says so",
        rule: Refuses::Nothing,
        shape: Shape {
            min: 0,
            step: 4096,
            moving: true,
        },
        calls: &[
            Call::Alloc(16, (144, 2)),
            Call::Store((144, 2), 3, 7),
            Call::Realloc((144, 2), 48, (176, 3)),
            Call::NoHeader((144, 2)),
            Call::Realloc((176, 3), 16, (176, 3)),
            Call::Realloc((176, 3), 32, (208, 4)),
            Call::Realloc((208, 4), 48, (144, 5)),
            Call::Word((144, 5), 3, 7),
            Call::Size(2, 208, 4096),
            Call::Attempts(5),
        ],
    },
    WorkedDebugHeap {
        about: "a shorter cell is no attempt",
        rule: Refuses::Nothing,
        shape: SHAPE,
        calls: &[
            Call::Alloc(48, (144, 2)),
            Call::Store((144, 2), 11, 7),
            Call::FailNext(1),
            Call::Realloc((144, 2), 16, (144, 2)),
            Call::Attempts(2),
            Call::Size(2, 176, 4096),
            Call::NoRealloc((144, 2), 48),
            Call::Realloc((144, 2), 48, (144, 2)),
            Call::Word((144, 2), 11, 0),
        ],
    },
    WorkedDebugHeap {
        about: "a top cell that the limit stops stays",
        rule: Refuses::Past(256),
        shape: SHAPE,
        calls: &[
            Call::Alloc(48, (144, 2)),
            Call::Alloc(16, (208, 3)),
            Call::Free((144, 2)),
            Call::NoRealloc((208, 3), 48),
            Call::Trace(&[
                (1, 144, 0, Granted),
                (2, 64, 144, Granted),
                (3, 32, 208, Granted),
                (4, 64, 208, Refused),
            ]),
            Call::NoRealloc((208, 3), 16_777_216),
            Call::Leaks(&[(3, 32, 208)]),
        ],
    },
    WorkedDebugHeap {
        about: "a cell past the ceiling stays",
        rule: Refuses::Nothing,
        shape: SHAPE,
        calls: &[
            Call::Alloc(16, (144, 2)),
            Call::ReallocPastCeiling((144, 2), 16_777_216),
            Call::Attempts(2),
            Call::Free((144, 2)),
        ],
    },
    WorkedDebugHeap {
        about: "notes follow the committed length",
        rule: Refuses::Nothing,
        shape: WITH_MINIMUM,
        calls: &[
            Call::Alloc(200, (144, 2)),
            Call::Available(16, 16),
            Call::Size(2, 368, 384),
            Call::Free((144, 2)),
            Call::Available(240, 240),
            Call::Compress(128),
            Call::Size(1, 144, 256),
        ],
    },
    WorkedDebugHeap {
        about: "payloads are read and written",
        rule: Refuses::Nothing,
        shape: SHAPE,
        calls: &[
            Call::Alloc(16, (144, 2)),
            Call::Alloc(32, (176, 3)),
            Call::Store((144, 2), 0, 7),
            Call::StoreHalf((144, 2), 3, 0xabcd),
            Call::Half((144, 2), 2, 0),
            Call::Half((144, 2), 3, 0xabcd),
            Call::Copy((144, 2), (176, 3), 4),
            Call::Word((176, 3), 0, 7),
            Call::Word((176, 3), 1, 0xabcd_0000),
            Call::Word((176, 3), 7, 0),
            Call::WriteHalves((144, 2), 1, &[5, 6, 7]),
            Call::Word((144, 2), 0, 0x0005_0007),
            Call::Word((144, 2), 1, 0x0007_0006),
            Call::CopyHalves((144, 2), 1, (176, 3), 4, 3),
            Call::Word((176, 3), 1, 0xabcd_0000),
            Call::Word((176, 3), 2, 0x0006_0005),
            Call::Word((176, 3), 3, 7),
            Call::ZeroHalves((176, 3), 3, 2),
            Call::Word((176, 3), 1, 0),
            Call::Word((176, 3), 2, 0x0006_0000),
            Call::Free((144, 2)),
            Call::NoHeader((144, 2)),
        ],
    },
];

#[test]
fn worked_debug_heaps(rt: HostRuntime) -> Result<(), Fail> {
    for heap in &ATTEMPTS {
        assert_eq!(rt; first_other(rt.alloc(), heap)?, None, "{}", heap.about);
    }
    Ok(())
}

#[test]
fn a_shape_that_no_heap_has(rt: HostRuntime) {
    let heap = WorkedDebugHeap {
        about: "a shape that is no multiple of 16",
        rule: Refuses::Nothing,
        shape: Shape::new(8, 4096),
        calls: &[],
    };
    assert_eq!(rt; first_other(rt.alloc(), &heap), Err(DebugFault::BadShape));
}

#[test]
fn a_trace_is_given_away(rt: HostRuntime) -> Result<(), Fail> {
    let mut heap = DebugHeap::new(rt.alloc(), Rule::Unlimited, SHAPE)?;
    heap.attempt_alloc(128, Kind::Cleanup)?;
    let line = Attempt {
        number: 1,
        length: 144,
        place: 0,
        answer: Granted,
    };
    let (trace, _) = heap.into_trace_and_heap();
    assert!(rt; trace.as_slice() == [line].as_slice());
    Ok(())
}
