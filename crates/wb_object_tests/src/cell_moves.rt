//! Tests of `wb_hbuf`: edits that move the units of a text in a cell by odd and even numbers of positions, beginning at odd and even
//! positions.

use crate::texts::{Change, Taken, Target, WorkedTexts, first_other};
use std::test::Fail;
use wb_hbuf::Edit;

static MOVES: WorkedTexts = WorkedTexts {
    about: "units move by odd and even numbers",
    first: 21,
    second: 0,
    changes: &[
        (
            Target::First,
            Change::Edit(Edit::Copy, Taken::Letters(0, 7)),
            None,
            b"abcdefg",
        ),
        (
            Target::First,
            Change::Edit(Edit::Insert(1), Taken::Letters(7, 1)),
            None,
            b"aXbcdefg",
        ),
        (
            Target::First,
            Change::Edit(Edit::Insert(2), Taken::Letters(7, 2)),
            None,
            b"aXXYbcdefg",
        ),
        (
            Target::First,
            Change::Edit(Edit::Insert(0), Taken::Letters(3, 3)),
            None,
            b"defaXXYbcdefg",
        ),
        (Target::First, Change::Delete(2, 1), None, b"deaXXYbcdefg"),
        (Target::First, Change::Delete(1, 2), None, b"dXXYbcdefg"),
        (Target::First, Change::Delete(3, 3), None, b"dXXdefg"),
        (
            Target::First,
            Change::Edit(Edit::Append, Taken::Own(1, 5)),
            None,
            b"dXXdefgXXdef",
        ),
        (
            Target::First,
            Change::Edit(Edit::Append, Taken::Own(0, 4)),
            None,
            b"dXXdefgXXdefdXXd",
        ),
        (
            Target::First,
            Change::Edit(Edit::Insert(5), Taken::Letters(8, 1)),
            None,
            b"dXXdeYfgXXdefdXXd",
        ),
        (Target::First, Change::SetLength(9), None, b"dXXdeYfgX"),
        (
            Target::First,
            Change::SetLength(14),
            None,
            b"dXXdeYfgX.....",
        ),
        (
            Target::First,
            Change::Edit(Edit::Copy, Taken::Own(3, 8)),
            None,
            b"deYfgX..",
        ),
        (
            Target::First,
            Change::Edit(Edit::Copy, Taken::Own(2, 5)),
            None,
            b"YfgX.",
        ),
        (Target::First, Change::Delete(0, 1), None, b"fgX."),
    ],
};

#[test]
fn units_move_by_odd_and_even_numbers(rt: HostRuntime) -> Result<(), Fail> {
    assert_eq!(rt; first_other(rt.alloc(), &MOVES)?, None, "{}", MOVES.about);
    Ok(())
}
