//! Tests of `wb_hbuf` with worked edits of texts in cells and in a buffer: what each edit returns, and what the texts print afterwards.

ghost use Rattle.std.specs.Prelude.{◌≤◌, IfOk};
ghost use Rattle.wb_heap_model.specs.TextCells.{IsTextAt};

use crate::literals::literal;
use crate::texts::{Change, Taken, Target, WorkedTexts, first_other, grant_text, printed_line};
use std::alloc::AllocError;
use std::test::Fail;
use wb_basics::limits::MOST_UNITS;
use wb_basics::memory::NoMemory;
use wb_debug::DebugHeap;
use wb_hbuf::{Edit, Source, edit, length, max_len, remake};
use wb_heap_model::heap::{Gave, Panic, Ptr, Rule, Shape};

static EDITS: [WorkedTexts; 10] = [
    WorkedTexts {
        about: "a text is as long as its cell has room",
        first: 4,
        second: 0,
        changes: &[
            (
                Target::First,
                Change::Edit(Edit::Append, Taken::Letters(0, 6)),
                None,
                b"abcdef",
            ),
            (
                Target::First,
                Change::Edit(Edit::Append, Taken::Letters(6, 1)),
                Some(Panic::TOO_LONG),
                b"abcdef",
            ),
        ],
    },
    WorkedTexts {
        about: "edits of a cell, one after another",
        first: 8,
        second: 0,
        changes: &[
            (
                Target::First,
                Change::Edit(Edit::Copy, Taken::Letters(0, 4)),
                None,
                b"abcd",
            ),
            (
                Target::First,
                Change::Edit(Edit::Insert(1), Taken::Letters(7, 2)),
                None,
                b"aXYbcd",
            ),
            (Target::First, Change::Delete(4, 99), None, b"aXYb"),
            (
                Target::First,
                Change::Edit(Edit::Append, Taken::Own(2, 2)),
                None,
                b"aXYbYb",
            ),
            (Target::First, Change::SetLength(8), None, b"aXYbYb.."),
        ],
    },
    WorkedTexts {
        about: "edits of a buffer, one after another",
        first: 0,
        second: 0,
        changes: &[
            (
                Target::Buffer,
                Change::Edit(Edit::Copy, Taken::Letters(0, 4)),
                None,
                b"abcd",
            ),
            (
                Target::Buffer,
                Change::Edit(Edit::Insert(1), Taken::Letters(7, 2)),
                None,
                b"aXYbcd",
            ),
            (Target::Buffer, Change::Delete(4, 99), None, b"aXYb"),
            (
                Target::Buffer,
                Change::Edit(Edit::Append, Taken::Own(2, 2)),
                None,
                b"aXYbYb",
            ),
            (Target::Buffer, Change::SetLength(8), None, b"aXYbYb.."),
        ],
    },
    WorkedTexts {
        about: "a text is read as it stood",
        first: 20,
        second: 0,
        changes: &[
            (
                Target::First,
                Change::Edit(Edit::Copy, Taken::Letters(0, 6)),
                None,
                b"abcdef",
            ),
            (
                Target::First,
                Change::Edit(Edit::Copy, Taken::Own(2, 3)),
                None,
                b"cde",
            ),
            (
                Target::First,
                Change::Edit(Edit::Append, Taken::Own(1, 5)),
                None,
                b"cdede...",
            ),
        ],
    },
    WorkedTexts {
        about: "a text is changed by its own units",
        first: 4,
        second: 0,
        changes: &[
            (
                Target::First,
                Change::Edit(Edit::Copy, Taken::Letters(0, 3)),
                None,
                b"abc",
            ),
            (
                Target::First,
                Change::Edit(Edit::Append, Taken::Own(0, 3)),
                None,
                b"abcabc",
            ),
            (
                Target::First,
                Change::Edit(Edit::Append, Taken::Own(6, 1)),
                Some(Panic::TOO_LONG),
                b"abcabc",
            ),
            (
                Target::First,
                Change::Edit(Edit::Copy, Taken::Own(5, 7)),
                Some(Panic::TOO_LONG),
                b"abcabc",
            ),
            (
                Target::First,
                Change::Edit(Edit::Copy, Taken::Own(5, 3)),
                None,
                b"c..",
            ),
            (
                Target::First,
                Change::Edit(Edit::Copy, Taken::Own(3, 2)),
                None,
                b"..",
            ),
        ],
    },
    WorkedTexts {
        about: "a text is changed by another cell's",
        first: 8,
        second: 4,
        changes: &[
            (
                Target::First,
                Change::Edit(Edit::Copy, Taken::Letters(0, 7)),
                None,
                b"abcdefg",
            ),
            (
                Target::Second,
                Change::Edit(Edit::Copy, Taken::Other(1, 3)),
                None,
                b"bcd",
            ),
            (
                Target::Second,
                Change::Edit(Edit::Append, Taken::Other(6, 2)),
                None,
                b"bcdg.",
            ),
            (
                Target::Second,
                Change::Edit(Edit::Insert(1), Taken::Other(0, 1)),
                None,
                b"bacdg.",
            ),
            (
                Target::First,
                Change::Edit(Edit::Insert(7), Taken::Other(0, 2)),
                None,
                b"abcdefgba",
            ),
            (Target::Second, Change::SetLength(6), None, b"bacdg."),
        ],
    },
    WorkedTexts {
        about: "too many units of another cell",
        first: 8,
        second: 4,
        changes: &[
            (
                Target::First,
                Change::Edit(Edit::Copy, Taken::Letters(0, 7)),
                None,
                b"abcdefg",
            ),
            (
                Target::Second,
                Change::Edit(Edit::Copy, Taken::Other(1, 6)),
                None,
                b"bcdefg",
            ),
            (
                Target::Second,
                Change::Edit(Edit::Copy, Taken::Other(0, 7)),
                Some(Panic::TOO_LONG),
                b"bcdefg",
            ),
            (
                Target::Second,
                Change::Edit(Edit::Append, Taken::Other(0, 1)),
                Some(Panic::TOO_LONG),
                b"bcdefg",
            ),
            (
                Target::Second,
                Change::Edit(Edit::Insert(6), Taken::Other(7, 1)),
                Some(Panic::TOO_LONG),
                b"bcdefg",
            ),
            (
                Target::Second,
                Change::Edit(Edit::Insert(7), Taken::Other(0, 1)),
                Some(Panic::POSITION_OUT_OF_BOUNDS),
                b"bcdefg",
            ),
            (Target::First, Change::SetLength(7), None, b"abcdefg"),
        ],
    },
    WorkedTexts {
        about: "refusals in order",
        first: 4,
        second: 0,
        changes: &[
            (
                Target::First,
                Change::Edit(Edit::Copy, Taken::Letters(0, 3)),
                None,
                b"abc",
            ),
            (
                Target::First,
                Change::Edit(Edit::Insert(4), Taken::Letters(0, 7)),
                Some(Panic::POSITION_OUT_OF_BOUNDS),
                b"abc",
            ),
            (
                Target::First,
                Change::Edit(Edit::Insert(3), Taken::Letters(0, 7)),
                Some(Panic::TOO_LONG),
                b"abc",
            ),
            (
                Target::First,
                Change::Edit(Edit::Copy, Taken::Letters(0, 7)),
                Some(Panic::TOO_LONG),
                b"abc",
            ),
            (
                Target::First,
                Change::Delete(4, 0),
                Some(Panic::POSITION_OUT_OF_BOUNDS),
                b"abc",
            ),
            (
                Target::First,
                Change::SetLength(7),
                Some(Panic::TOO_LONG),
                b"abc",
            ),
        ],
    },
    WorkedTexts {
        about: "what is cut off is zero",
        first: 4,
        second: 0,
        changes: &[
            (
                Target::First,
                Change::Edit(Edit::Copy, Taken::Letters(0, 4)),
                None,
                b"abcd",
            ),
            (Target::First, Change::SetLength(1), None, b"a"),
            (Target::First, Change::SetLength(3), None, b"a.."),
        ],
    },
    WorkedTexts {
        about: "a text in a cell is read into a buffer",
        first: 4,
        second: 0,
        changes: &[
            (
                Target::First,
                Change::Edit(Edit::Copy, Taken::Letters(0, 4)),
                None,
                b"abcd",
            ),
            (
                Target::Buffer,
                Change::Edit(Edit::Append, Taken::Other(1, 4)),
                None,
                b"bcd.",
            ),
        ],
    },
];

#[test]
fn worked_texts(rt: HostRuntime) -> Result<(), Fail> {
    for texts in &EDITS {
        assert_eq!(rt; first_other(rt.alloc(), texts)?, None, "{}", texts.about);
    }
    Ok(())
}

/// Makes an attempt to reallocate a text's cell for `n` units. Returns the pointer to the text, which is the old pointer if the attempt
/// failed.
fn remake_text(heap: &mut DebugHeap, ptr: Ptr, n: u32) -> Result<Ptr, NoMemory>
    requires text { IsTextAt ptr heap.old }
    requires most { n ≤ MOST_UNITS }
    ensures { IfOk result (λ p. IsTextAt p heap.new) }
{
    if heap.attempts() == u32::MAX || n < length(heap, ptr) {
        return Err(NoMemory::from(AllocError));
    }
    match remake(heap, ptr, n)? {
        Gave::Granted(moved) => Ok(moved),
        Gave::Denied | Gave::Ceiling => Ok(ptr),
    }
}

#[test]
fn a_text_grows_with_its_cell(rt: HostRuntime) -> Result<(), Fail> {
    let shape = Shape::new(0, 4096);
    let mut heap = DebugHeap::new(rt.alloc(), Rule::Unlimited, shape)?;
    let letters = literal(rt.alloc(), b"abc")?;
    heap.fail_next(2);
    let mut ptr = grant_text(&mut heap, 4)?;
    assert_eq!(rt; (length(&heap, ptr), max_len(&heap, ptr)), (0, 6));
    assert!(rt; edit(&mut heap, ptr, Edit::Copy, Source::Literal(&letters, 0, 3)).is_ok());
    // the first growth fails
    for (units, most) in [(20, 6), (20, 22), (3, 6)] {
        ptr = remake_text(&mut heap, ptr, units)?;
        assert_eq!(rt; max_len(&heap, ptr), most);
        assert_eq!(rt; printed_line(&heap, ptr).as_slice(), b"abc".as_slice());
    }
    Ok(())
}
