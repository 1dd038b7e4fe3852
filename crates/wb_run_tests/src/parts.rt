//! Sweeps over a part of the numbers. Some sweeps find the first bad number, and others list all numbers.

use crate::failing::Cut;
use crate::rules::Refuses;
use std::test::Fail;
use wb_basics::limits::{CEILING, DEFAULT_BUDGET};
use wb_heap_model::heap::{Panic, Shape};
use wb_meaning::conditions::Conditions;
use wb_meaning::run::Why;
use wb_runs::failures::Failures;
use wb_runs::number_ends::NumberEnd;
use wb_runs::part::Part;
use wb_runs::progress::Silent;
use wb_runs::run_end::RunEnd;
use wb_script::read;
use wb_sweep::{Listing, Unswept, sweep_all, sweep_part};

/// The conditions of all sweeps of this file.
const CONDITIONS: Conditions = Conditions {
    budget: DEFAULT_BUDGET,
    shape: Shape {
        min: 4096,
        step: 4096,
        moving: false,
    },
};

/// Asks for three cells by lines that leave if the attempt fails. If attempt 3 fails, one cell leaks. If attempt 4 fails, two cells leak.
const THREE_CELLS: &[u8] =
    b"proc main\nptr a\nptr b\nptr c\nallocl a 16\nallocl b 16\nallocl c 16\nfree a\nfree b\nfree c\nend\n";

/// Asks for a cell by a line that doesn't leave, and for a cell by a line that leaves if the attempt fails. If the first attempt fails, the
/// run waits past its budget. If the second attempt fails, the first cell leaks.
const WAITS_AND_LEAKS: &[u8] =
    b"proc main\nptr a\nptr b\nalloc a 16\nif null a\nrepeat 20000\nend\nend\nallocl b 16\nfree a\nfree b\nend\n";

/// A cell that is never freed.
const LEAKS: &[u8] = b"proc main\nptr a\nalloc a 16\nend\n";

/// A run that waits past its budget.
const WAITS: &[u8] = b"proc main\nrepeat 20000\nend\nend\n";

/// Makes a second attempt for a cell if the first attempt fails, and leaves if the second also fails. A cell leaks if attempts 3 and 4
/// fail.
const SECOND_TRY: &[u8] =
    b"proc main\nptr a\nptr b\nalloc b 16\nalloc a 16\nif null a\nalloc a 16\nif null a\nleave -4\nend\nend\nfree a\nfree b\nend\n";

/// The script's own setting makes attempt 3 fail.
const FAILS_ONE: &[u8] =
    b"proc main\nptr a\nptr b\nptr c\nallocl c 16\nfailnext 1\nalloc a 16\nallocl b 16\nfree a\nfree b\nfree c\nend\n";

/// Each number from 2 to 5, taken as the rate, ends the run in another way.
const EACH_IN_ITS_WAY: &[u8] =
    b"proc main\nptr a\nptr b\nptr c\nptr d\nalloc a 16\nstore a 0 1\nallocl b 16\nalloc c 16\nif null c\nfree b\nfree b\nend\nalloc d 16\nif null d\ncheck 9\nend\nfree a\nfree b\nfree c\nfree d\nend\n";

/// A script, the kind of failures, and the least and the greatest number that are tried.
type Asked = (&'static [u8], Failures, u32, u32);

/// What sweeps over parts find: how many attempts the run without failure makes, and the first bad failure.
static PARTS: [(Asked, Result<(u32, Option<Refuses>), Cut>); 16] = [
    (
        (THREE_CELLS, Failures::Single, 0, CEILING),
        Ok((4, Some(Refuses::Number(3)))),
    ),
    ((THREE_CELLS, Failures::Single, 0, 2), Ok((4, None))),
    (
        (THREE_CELLS, Failures::Single, 3, 3),
        Ok((4, Some(Refuses::Number(3)))),
    ),
    (
        (THREE_CELLS, Failures::Single, 4, CEILING),
        Ok((4, Some(Refuses::Number(4)))),
    ),
    ((THREE_CELLS, Failures::Single, 5, 9), Ok((4, None))),
    (
        (THREE_CELLS, Failures::Every, 3, CEILING),
        Ok((4, Some(Refuses::Every(3)))),
    ),
    (
        (THREE_CELLS, Failures::Persistent, 4, CEILING),
        Ok((4, Some(Refuses::From(4)))),
    ),
    // The part doesn't include the run that is cut.
    (
        (WAITS_AND_LEAKS, Failures::Single, 3, CEILING),
        Ok((3, Some(Refuses::Number(3)))),
    ),
    (
        (WAITS_AND_LEAKS, Failures::Single, 0, 2),
        Err(Cut {
            at: Refuses::Number(2),
            why: Why::Budget,
        }),
    ),
    // The run without failure leaks. A part that begins at number 1 judges neither this run nor runs for numbers past its last attempt.
    (
        (LEAKS, Failures::Single, 0, CEILING),
        Ok((2, Some(Refuses::Number(0)))),
    ),
    ((LEAKS, Failures::Single, 1, CEILING), Ok((2, None))),
    (
        (WAITS, Failures::Single, 1, CEILING),
        Err(Cut {
            at: Refuses::Number(0),
            why: Why::Budget,
        }),
    ),
    // Only the first number of a pair must be in the part; the second may be any number.
    (
        (SECOND_TRY, Failures::Pairs, 3, 3),
        Ok((3, Some(Refuses::Pair(3, 4)))),
    ),
    ((SECOND_TRY, Failures::Pairs, 0, 2), Ok((3, None))),
    // The run in which only attempt 4 fails leaks, but the first part doesn't include number 4.
    (
        (FAILS_ONE, Failures::Pairs, 3, 3),
        Ok((4, Some(Refuses::Pair(3, 4)))),
    ),
    (
        (FAILS_ONE, Failures::Pairs, 3, 4),
        Ok((4, Some(Refuses::Number(4)))),
    ),
];

/// Returns the cut because of which a sweep has no answer. Any other fault is an error.
fn cut_of(fault: Unswept) -> Result<Cut, Unswept> {
    match fault {
        Unswept::Cut { at, why } => Ok(Cut {
            at: Refuses::of(&at),
            why,
        }),
        other => Err(other),
    }
}

#[test]
fn parts_find_their_least(rt: HostRuntime) -> Result<(), Fail> {
    for (row, ((text, failures, from, to), wanted)) in PARTS.iter().enumerate() {
        let script = read(rt.alloc(), text)?;
        let part = Part {
            from: *from,
            to: *to,
        };
        let told = sweep_part(
            rt.alloc(),
            &script,
            *failures,
            part,
            CONDITIONS,
            &mut Silent,
        );
        let told = match told {
            Ok(swept) => {
                let found = swept.found.as_ref().map(|found| Refuses::of(&found.at));
                Ok((swept.attempts, found))
            }
            Err(fault) => Err(cut_of(fault)?),
        };
        assert_eq!(rt; told, *wanted, "part {row}");
    }
    Ok(())
}

/// What a sweep lists of a part: the numbers whose runs aren't fine, how many of these runs leak or panic, and the first failure whose run
/// does so.
static NUMBERS: [(Asked, &[NumberEnd], usize, Option<Refuses>); 7] = [
    (
        (THREE_CELLS, Failures::Single, 0, CEILING),
        &[
            NumberEnd {
                number: 3,
                end: RunEnd::Leaked(1),
            },
            NumberEnd {
                number: 4,
                end: RunEnd::Leaked(2),
            },
        ],
        2,
        Some(Refuses::Number(3)),
    ),
    (
        (THREE_CELLS, Failures::Single, 4, CEILING),
        &[NumberEnd {
            number: 4,
            end: RunEnd::Leaked(2),
        }],
        1,
        Some(Refuses::Number(4)),
    ),
    ((THREE_CELLS, Failures::Single, 5, CEILING), &[], 0, None),
    // The run leaves at its first failed attempt, so later failures make no difference.
    (
        (THREE_CELLS, Failures::Persistent, 0, CEILING),
        &[
            NumberEnd {
                number: 3,
                end: RunEnd::Leaked(1),
            },
            NumberEnd {
                number: 4,
                end: RunEnd::Leaked(2),
            },
        ],
        2,
        Some(Refuses::From(3)),
    ),
    (
        (WAITS_AND_LEAKS, Failures::Single, 0, CEILING),
        &[
            NumberEnd {
                number: 2,
                end: RunEnd::Cut(Why::Budget),
            },
            NumberEnd {
                number: 3,
                end: RunEnd::Leaked(1),
            },
        ],
        1,
        Some(Refuses::Number(3)),
    ),
    (
        (LEAKS, Failures::Single, 0, CEILING),
        &[NumberEnd {
            number: 0,
            end: RunEnd::Leaked(1),
        }],
        1,
        Some(Refuses::Number(0)),
    ),
    (
        (EACH_IN_ITS_WAY, Failures::Every, 0, CEILING),
        &[
            NumberEnd {
                number: 2,
                end: RunEnd::Panicked(Panic::NULL_OR_STALE),
            },
            NumberEnd {
                number: 3,
                end: RunEnd::Leaked(1),
            },
            NumberEnd {
                number: 4,
                end: RunEnd::Panicked(Panic::BAD_CELL),
            },
            NumberEnd {
                number: 5,
                end: RunEnd::Panicked(Panic::Alloc(144)),
            },
        ],
        4,
        Some(Refuses::Every(2)),
    ),
];

#[test]
fn each_number_is_told(rt: HostRuntime) -> Result<(), Fail> {
    for (row, ((text, failures, from, to), ends, bad, least)) in NUMBERS.iter().enumerate() {
        let script = read(rt.alloc(), text)?;
        let part = Part {
            from: *from,
            to: *to,
        };
        let told = sweep_all(
            rt.alloc(),
            &script,
            Listing::Unfine,
            *failures,
            part,
            CONDITIONS,
            &mut Silent,
        )?;
        assert!(rt; told.ends.as_slice() == *ends, "ends {row}");
        assert_eq!(rt; told.bad, *bad, "bad {row}");
        assert_eq!(rt;
            told.found.as_ref().map(|found| Refuses::of(&found.at)),
            *least,
            "least {row}"
        );
    }
    Ok(())
}

/// How runs of `WAITS_AND_LEAKS` end: `FINE` is the run without failure, and `FIRST`, `SECOND` and `THIRD` are the runs in which attempt 1,
/// 2 or 3 fails. The run in which attempt 2 fails waits past its budget, and the run in which attempt 3 fails leaks.
const FINE: NumberEnd = NumberEnd {
    number: 0,
    end: RunEnd::Plain,
};

const FIRST: NumberEnd = NumberEnd {
    number: 1,
    end: RunEnd::NoCleanup,
};

const SECOND: NumberEnd = NumberEnd {
    number: 2,
    end: RunEnd::Cut(Why::Budget),
};

const THIRD: NumberEnd = NumberEnd {
    number: 3,
    end: RunEnd::Leaked(1),
};

/// Parts of the sweep over `WAITS_AND_LEAKS`: the least number, the greatest number, and what the sweep lists of the part.
static LISTED: [(u32, u32, &[NumberEnd]); 4] = [
    (0, CEILING, &[FINE, FIRST, SECOND, THIRD]),
    (1, 2, &[FIRST, SECOND]),
    (3, 3, &[THIRD]),
    (2, 7, &[SECOND, THIRD]),
];

#[test]
fn every_number_is_listed(rt: HostRuntime) -> Result<(), Fail> {
    let script = read(rt.alloc(), WAITS_AND_LEAKS)?;
    for (row, (from, to, ends)) in LISTED.iter().enumerate() {
        let part = Part {
            from: *from,
            to: *to,
        };
        let listed = sweep_all(
            rt.alloc(),
            &script,
            Listing::Every,
            Failures::Single,
            part,
            CONDITIONS,
            &mut Silent,
        )?;
        assert!(rt; listed.ends.as_slice() == *ends, "ends {row}");
    }
    Ok(())
}

#[test]
fn a_run_that_is_cut_tells_nothing(rt: HostRuntime) -> Result<(), Fail> {
    let script = read(rt.alloc(), WAITS)?;
    let told = sweep_all(
        rt.alloc(),
        &script,
        Listing::Unfine,
        Failures::Single,
        Part::WHOLE,
        CONDITIONS,
        &mut Silent,
    );
    let cut = Cut {
        at: Refuses::Number(0),
        why: Why::Budget,
    };
    assert_eq!(rt; cut_of(told.err().ok_or("swept")?)?, cut);
    Ok(())
}
