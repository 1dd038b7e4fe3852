//! Runs, sweeps and reports in which two attempts fail.

use crate::failing::{Cut, FALLBACK, SETS, SETS_NONE, Wanted, are_answered, found_in, is_answered};
use crate::rules::Refuses;
use std::test::Fail;
use wb_heap_model::heap::Answer;
use wb_heap_model::heap::Answer::{Granted, Simulated};
use wb_meaning::run::Why;
use wb_runs::failures::Failures;

/// Scripts and rules, each with the answers to the attempts of the run.
static RUNS: [(&[u8], Refuses, &[Answer]); 9] = [
    (FALLBACK, Refuses::Pair(1, 2), &[Simulated]),
    (
        FALLBACK,
        Refuses::Pair(2, 3),
        &[Granted, Simulated, Simulated, Granted],
    ),
    // Attempt 4 is made because attempt 2 failed.
    (
        FALLBACK,
        Refuses::Pair(2, 4),
        &[Granted, Simulated, Granted, Simulated],
    ),
    // There is a fourth attempt only if attempt 2 fails.
    (
        FALLBACK,
        Refuses::Pair(3, 4),
        &[Granted, Granted, Simulated],
    ),
    (FALLBACK, Refuses::Pair(4, 5), &[Granted, Granted, Granted]),
    (
        FALLBACK,
        Refuses::Pair(2, 16_777_216),
        &[Granted, Simulated, Granted, Granted],
    ),
    // The setting makes attempt 4 fail too, but attempt 4 still fails only once.
    (
        SETS,
        Refuses::Pair(3, 4),
        &[
            Granted, Granted, Simulated, Simulated, Granted, Simulated, Granted, Simulated,
        ],
    ),
    // The numbers of a pair count from attempt 1, and not from the setting's line.
    (
        SETS,
        Refuses::Pair(5, 7),
        &[
            Granted, Granted, Granted, Simulated, Simulated, Simulated, Simulated, Simulated,
        ],
    ),
    // No line of the script can end the rule of the pair.
    (
        SETS_NONE,
        Refuses::Pair(2, 4),
        &[Granted, Simulated, Granted, Simulated],
    ),
];

#[test]
fn a_pair_refuses_both(rt: HostRuntime) -> Result<(), Fail> {
    for (row, (script, rule, wanted)) in RUNS.iter().enumerate() {
        assert!(rt;
            are_answered(rt.alloc(), script, *rule, wanted)?,
            "run {row}"
        );
    }
    Ok(())
}

/// The script `FALLBACK`, with a cell that grows at the end. If only attempt 4 fails, this cell leaks.
const FALLBACK_AND_GROWTH: &[u8] =
    b"proc main\nptr page\nptr note\nalloc page 256\nalloc note 16\nif null page\nallocl page 64\nend\nrealloc note note 99\nfree note\nfree page\nend\n";

/// Asks for two cells. If both attempts fail, the run waits past its budget.
const WAITS: &[u8] =
    b"proc main\nptr a\nptr b\nalloc a 1\nalloc b 1\nif null a\nif null b\nrepeat 99\nend\nend\nend\nfree a\nfree b\nend\n";

/// Like `WAITS`, with a third cell. If attempts 3 and 4 fail, the first cell leaks. If attempts 2 and 3 fail, the run waits past its
/// budget; this pair comes first.
const WAITS_AND_FORGETS: &[u8] =
    b"proc main\nptr a\nptr b\nptr c\nalloc a 1\nalloc b 1\nalloc c 1\nif null b\nif null a\nrepeat 99\nend\nend\nif null c\nnull a\nend\nend\nfree a\nfree b\nfree c\nend\n";

/// Asks for three cells. If attempts 3 and 4 fail, the first cell leaks. If attempts 3 and 5 fail, the run waits past its budget; this pair
/// comes later.
const FORGETS_AND_WAITS: &[u8] =
    b"proc main\nptr a\nptr b\nptr c\nalloc a 1\nalloc b 1\nalloc c 1\nif null b\nif null c\nnull a\nend\nalloc b 1\nif null b\nrepeat 99\nend\nend\nend\nfree a\nfree b\nfree c\nend\n";

/// Asks for one cell. If the attempt fails, the run waits past its budget.
pub(crate) const WAITS_FOR_ONE: &[u8] =
    b"proc main\nptr a\nalloc a 1\nif null a\nrepeat 99\nend\nend\nfree a\nend\n";

/// A cell that is never freed.
const LEAKS: &[u8] = b"proc main\nptr a\nalloc a 1\nend\n";

/// Scripts, each with what a sweep over pairs finds.
static SWEEPS: [(&[u8], Result<Option<Refuses>, Cut>); 8] = [
    (FALLBACK, Ok(Some(Refuses::Pair(2, 4)))),
    (SETS_NONE, Ok(None)),
    // A single number comes before every pair, even before a pair of lower numbers.
    (FALLBACK_AND_GROWTH, Ok(Some(Refuses::Number(4)))),
    (LEAKS, Ok(Some(Refuses::Number(0)))),
    (
        WAITS,
        Err(Cut {
            at: Refuses::Pair(2, 3),
            why: Why::Budget,
        }),
    ),
    (
        WAITS_AND_FORGETS,
        Err(Cut {
            at: Refuses::Pair(2, 3),
            why: Why::Budget,
        }),
    ),
    (FORGETS_AND_WAITS, Ok(Some(Refuses::Pair(3, 4)))),
    (
        WAITS_FOR_ONE,
        Err(Cut {
            at: Refuses::Number(2),
            why: Why::Budget,
        }),
    ),
];

#[test]
fn pairs_are_found_in_their_order(rt: HostRuntime) -> Result<(), Fail> {
    for (row, (script, wanted)) in SWEEPS.iter().enumerate() {
        let found = found_in(rt.alloc(), script, Failures::Pairs)?;
        assert_eq!(rt; found, *wanted, "sweep {row}");
    }
    Ok(())
}

/// The reports of `sweep` and `check` over pairs for the script `FALLBACK`.
static REPORTS: [Wanted; 2] = [
    Wanted {
        is_check: false,
        failures: Failures::Pairs,
        json: false,
        report: "attempts 3
pair 2 4
attempt 1 length 144 place 0 granted
attempt 2 length 272 place 144 simulated
attempt 3 length 32 place 144 granted
attempt 4 length 80 place 176 simulated
left -4
leaks 1
leak 3 length 32 place 144
steps 4
",
        status: 1,
    },
    Wanted {
        is_check: true,
        failures: Failures::Pairs,
        json: true,
        report: "{\"attempts\":3,\"kind\":\"pairs\",\"lines\":[\"required 448\",\"from 0 refuses 1\",\"from 144 refuses 2\",\"from 416 refuses 3\",\"enough from 448\",\"attempts 3\",\"pair 2 4\",\"attempt 1 length 144 place 0 granted\",\"attempt 2 length 272 place 144 simulated\",\"attempt 3 length 32 place 144 granted\",\"attempt 4 length 80 place 176 simulated\",\"left -4\",\"leaks 1\",\"leak 3 length 32 place 144\",\"steps 4\"],\"number\":[2,4],\"required\":448,\"rises\":[[1,144],[2,416],[3,448]],\"status\":1,\"version\":2}\n",
        status: 1,
    },
];

#[test]
fn reports_of_pairs(rt: HostRuntime) {
    for (row, wanted) in REPORTS.iter().enumerate() {
        assert!(rt; is_answered(rt.alloc(), wanted), "report {row}");
    }
}
