//! Compares the report of a run with a report written by hand. The run has every part that a report may have.

use arrayvec::ArrayVec;
use std::alloc::{AllocError, Global};
use std::test::Fail;
use wb_basics::items::Items;
use wb_basics::printed_line::Line;
use wb_heap_model::heap::{Answer, Attempt, Panic};
use wb_heap_model::reported::{Leak, Leaks, Note, Notes, Trace};
use wb_meaning::run::{Lines, Outcome, RunResult, Why};
use workbench::run_text::put_run;

const TEXT: &[u8] = b"print hi
print 
note heap 2 176 4096
note available 3920 3904
note compress 16
attempt 1 length 144 place 0 granted
attempt 2 length 1048592 place 144 refused
attempt 3 length 32 place 144 simulated
";

fn run(alloc: Global, outcome: Outcome) -> Result<RunResult, AllocError> {
    let attempt = |number, length, place, answer| Attempt {
        number,
        length,
        place,
        answer,
    };
    let mut hi = ArrayVec::new();
    let _ = hi.try_push(b'h');
    let _ = hi.try_push(b'i');
    Ok(RunResult {
        outcome,
        trace: Items::from_vec(vec![in alloc;
            attempt(1, 144, 0, Answer::Granted),
            attempt(2, 1_048_592, 144, Answer::Refused),
            attempt(3, 32, 144, Answer::Simulated),
        ]?),
        lines: Items::from_vec(vec![in alloc; Line::new(hi), Line::new(ArrayVec::new())]?),
        notes: Items::from_vec(vec![in alloc;
            Note::Heap(2, 176, 4096),
            Note::Available(3920, 3904),
            Note::Compress(16),
        ]?),
        steps: 10,
    })
}

/// How a run ends.
#[derive(Clone, Copy)]
enum End {
    /// The run ends with these leaks. The number is the code with which `main` leaves; `None` if `main` doesn't leave.
    Left(Option<i32>, &'static [Leak]),
    Panicked(Panic),
    NoCleanup,
    Cut(Why),
}

fn outcome(alloc: Global, end: End) -> Result<Outcome, AllocError> {
    Ok(match end {
        End::Left(left, leaks) => Outcome::Ended {
            left,
            leaks: Items::from_vec(leaks.to_vec(alloc)?),
        },
        End::Panicked(panic) => Outcome::Panicked(panic),
        End::NoCleanup => Outcome::NoCleanup,
        End::Cut(why) => Outcome::Cut(why),
    })
}

/// Ends of runs, each with the lines that report it.
static ENDS: [(End, &[u8]); 10] = [
    (
        End::Left(
            None,
            &[
                Leak {
                    number: 1,
                    length: 144,
                    place: 0,
                },
                Leak {
                    number: 12,
                    length: 32,
                    place: 16_777_184,
                },
            ],
        ),
        b"ended\nleaks 2\nleak 1 length 144 place 0\nleak 12 length 32 place 16777184\n",
    ),
    (End::Left(Some(-4), &[]), b"left -4\nleaks 0\n"),
    (End::Panicked(Panic::User(42)), b"panic USER 42\n"),
    (End::Panicked(Panic::Alloc(144)), b"panic ALLOC 00000090\n"),
    (
        End::Panicked(Panic::Alloc(0xfedcba0)),
        b"panic ALLOC 0fedcba0\n",
    ),
    (End::Panicked(Panic::Alloc(0)), b"panic ALLOC 00000000\n"),
    (End::Panicked(Panic::Workbench(7)), b"panic WORKBENCH 7\n"),
    (End::NoCleanup, b"nocleanup\n"),
    (End::Cut(Why::Budget), b"cut budget\n"),
    (End::Cut(Why::Ceiling), b"cut ceiling\n"),
];

/// Whether the report of a run with this end has these lines after `TEXT` and before its last line.
fn is_reported(alloc: Global, end: End, lines: &[u8]) -> Result<bool, Fail> {
    let run = run(alloc, outcome(alloc, end)?)?;
    let mut text = Vec::new(alloc);
    put_run(&mut text, &run)?;
    let rest = text.as_slice().strip_prefix(TEXT);
    Ok(rest.and_then(|t| t.strip_suffix(b"steps 10\n")) == Some(lines))
}

#[test]
fn reports_every_part(rt: HostRuntime) -> Result<(), Fail> {
    for (index, (end, lines)) in ENDS.iter().enumerate() {
        assert!(rt; is_reported(rt.alloc(), *end, lines)?, "row {index}");
    }
    Ok(())
}
