//! Which attempt fails first in a heap of a given length, according to a table of rises.

use std::test::Fail;
use wb_basics::items::Items;
use wb_heap_model::size::Rise;
use wb_size::sizing::Sizing;

/// Lengths in bytes, each with the first attempt that fails in a heap of this length; `None` if no attempt fails.
static LENGTHS: [(u32, Option<u32>); 8] = [
    (0, Some(1)),
    (143, Some(1)),
    (144, Some(2)),
    (175, Some(2)),
    (176, Some(3)),
    (303, Some(3)),
    (304, None),
    (u32::MAX, None),
];

/// The index of the first row whose attempt differs from the attempt that fails first in a heap of the row's length.
fn first_other(sizing: &Sizing, lengths: &[(u32, Option<u32>)]) -> Option<usize> {
    for (index, (length, number)) in lengths.iter().enumerate() {
        if sizing.refused_at(*length) != *number {
            return Some(index);
        }
    }
    None
}

#[test]
fn a_table_names_what_is_refused(rt: HostRuntime) -> Result<(), Fail> {
    let rises = [(1, 144), (2, 176), (3, 304)].map(|(number, top)| Rise { number, top });
    let sizing = Sizing {
        required: 304,
        rises: Items::from_vec(rises.to_vec(rt.alloc())?),
    };
    assert_eq!(rt; first_other(&sizing, &LENGTHS), None);
    Ok(())
}
