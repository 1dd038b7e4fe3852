//! Tests of the lists of `wb_basics`, with each call once in a case where it succeeds; and tests of the parts of a view.

use arrayvec::ArrayVec;
use std::alloc::AllocError;
use std::test::Fail;
use wb_basics::items::Items;
use wb_basics::memory::NoMemory;
use wb_basics::printed_line::Line;
use wb_heap_model::heap::{Answer, Attempt, Panic};
use wb_heap_model::reported::Trace;
use wb_heap_model::text::{Base, View};

fn attempt(number: u32) -> Attempt {
    Attempt {
        number,
        length: 144,
        place: 0,
        answer: Answer::Granted,
    }
}

#[test]
fn a_trace_is_read_in_order(rt: HostRuntime) -> Result<(), Fail> {
    let mut trace: Trace = Items::new(rt.alloc());
    trace.push(attempt(1))?;
    trace.push(attempt(2))?;
    assert_eq!(rt; trace.len(), 2);
    assert_eq!(rt; trace.get(1).copied(), Some(attempt(2)));
    assert!(rt; trace.get(2).is_none());
    assert!(rt; trace.as_slice() == [attempt(1), attempt(2)].as_slice());
    assert_eq!(rt; trace.pop(), Some(attempt(2)));
    assert!(rt; trace.as_slice() == [attempt(1)].as_slice());
    Ok(())
}

#[test]
fn a_vec_becomes_a_list(rt: HostRuntime) -> Result<(), Fail> {
    let list = Items::from_vec(vec![in rt.alloc(); 7u8, 8, 9]?);
    assert!(rt; list.as_slice() == [7, 8, 9].as_slice());
    Ok(())
}

#[test]
fn a_line_holds_its_bytes(rt: HostRuntime) -> Result<(), Fail> {
    let mut bytes = ArrayVec::new();
    bytes.push(b'a');
    let _line = Line::new(bytes);
    assert!(rt; NoMemory::from(AllocError) == NoMemory::from(AllocError));
    Ok(())
}

/// A part of a view.
#[derive(Clone, Copy)]
enum Part {
    Left(u32),
    Right(u32),
    Mid(u32, u32),
}

/// Parts of a view of 6 units from position 10 on. Each row has the position and the length of a part, or `None` if the view has no such
/// part.
static PARTS: [(Part, Option<(u32, u32)>); 8] = [
    (Part::Left(2), Some((10, 2))),
    (Part::Right(2), Some((14, 2))),
    (Part::Mid(1, 5), Some((11, 5))),
    (Part::Mid(6, 0), Some((16, 0))),
    (Part::Left(7), None),
    (Part::Right(7), None),
    (Part::Mid(1, 6), None),
    (Part::Mid(7, 0), None),
];

fn view_of(position: u32, length: u32) -> View {
    View {
        base: Base::Local(3),
        position,
        length,
    }
}

fn part_of(part: Part) -> Result<View, Panic> {
    let view = View {
        base: Base::Local(3),
        position: 10,
        length: 6,
    };
    match part {
        Part::Left(count) => view.left(count),
        Part::Right(count) => view.right(count),
        Part::Mid(position, count) => view.mid(position, count),
    }
}

/// The index of the first row whose part differs from the part in the table; `None` if there is no such row.
fn first_other(parts: &[(Part, Option<(u32, u32)>)]) -> Option<usize> {
    for (index, (part, wanted)) in parts.iter().enumerate() {
        let wanted = match wanted {
            Some((position, length)) => Ok(view_of(*position, *length)),
            None => Err(Panic::POSITION_OUT_OF_BOUNDS),
        };
        if part_of(*part) != wanted {
            return Some(index);
        }
    }
    None
}

#[test]
fn parts_of_a_view(rt: HostRuntime) {
    assert_eq!(rt; first_other(&PARTS), None);
}
