//! Tests of `wb_rheap` with worked heaps in which each cell that grows moves.

use crate::heap_calls::{Call, WorkedHeap, first_other};
use crate::shapes::MOVING;
use std::test::Fail;
use wb_rheap::HeapFault;

/// Where cells that grow must be afterwards. The bytes after such a cell are free each time, but the cell moves all the same.
static MOVES: [WorkedHeap; 2] = [
    WorkedHeap {
        about: "a cell that has room moves, and a lower hole takes it back",
        limit: 271,
        shape: MOVING,
        calls: &[
            Call::Alloc(48, (144, 2)),
            Call::Store((144, 2), 3, 7),
            Call::SetLevel((144, 2), 2),
            Call::PlaceForRealloc((144, 2), 64, 192),
            Call::Realloc((144, 2), 64, (192, 3)),
            Call::NoHeader((144, 2)),
            Call::Header((192, 3), 64, 2),
            Call::Word((192, 3), 3, 7),
            Call::Word((192, 3), 8, 0),
            Call::Size(2, 208, 256),
            Call::Available(48, 48),
            Call::Realloc((192, 3), 32, (192, 3)),
            Call::Header((192, 3), 32, 2),
            Call::Size(2, 176, 256),
            Call::PlaceForRealloc((192, 3), 48, 144),
            Call::Realloc((192, 3), 48, (144, 5)),
            Call::NoHeader((192, 3)),
            Call::Header((144, 5), 48, 2),
            Call::Word((144, 5), 3, 7),
            Call::Word((144, 5), 4, 0),
            Call::Size(2, 192, 256),
        ],
    },
    WorkedHeap {
        about: "a last cell that could stay is denied past the limit",
        limit: 271,
        shape: MOVING,
        calls: &[
            Call::Alloc(48, (144, 2)),
            Call::Store((144, 2), 7, 9),
            Call::PlaceForRealloc((144, 2), 80, 192),
            Call::NoRealloc((144, 2), 80, HeapFault::TooShort),
            Call::Header((144, 2), 48, 0),
            Call::Word((144, 2), 7, 9),
            Call::Size(2, 192, 192),
            Call::Realloc((144, 2), 48, (144, 2)),
            Call::Realloc((144, 2), 64, (192, 5)),
            Call::Word((192, 5), 7, 9),
            Call::Size(2, 208, 256),
            Call::Held(256),
        ],
    },
];

#[test]
fn worked_moving_heaps(rt: HostRuntime) -> Result<(), Fail> {
    for heap in &MOVES {
        assert_eq!(rt; first_other(rt.alloc(), heap)?, None, "{}", heap.about);
    }
    Ok(())
}
