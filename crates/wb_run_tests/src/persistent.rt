//! Runs, sweeps and reports in which one attempt and all later attempts fail.

use crate::failing::{
    Cut, FALLBACK, SETS, SETS_NONE, THRICE, Wanted, are_answered, found_in, is_answered,
};
use crate::pairs::WAITS_FOR_ONE;
use crate::rules::Refuses;
use std::test::Fail;
use wb_heap_model::heap::Answer;
use wb_heap_model::heap::Answer::{Granted, Simulated};
use wb_meaning::run::Why;
use wb_runs::failures::Failures;

/// Scripts and rules, each with the answers to the attempts of the run.
static RUNS: [(&[u8], Refuses, &[Answer]); 8] = [
    (FALLBACK, Refuses::From(0), &[Granted, Granted, Granted]),
    (FALLBACK, Refuses::From(1), &[Simulated]),
    (
        FALLBACK,
        Refuses::From(2),
        &[Granted, Simulated, Simulated, Simulated],
    ),
    (FALLBACK, Refuses::From(3), &[Granted, Granted, Simulated]),
    (FALLBACK, Refuses::From(4), &[Granted, Granted, Granted]),
    (
        THRICE,
        Refuses::From(2),
        &[Granted, Simulated, Simulated, Simulated],
    ),
    // The rule's number counts from attempt 1, and not from the setting's line. Only the setting makes attempt 4 fail; the rule begins at
    // attempt 5.
    (
        SETS,
        Refuses::From(5),
        &[
            Granted, Granted, Granted, Simulated, Simulated, Simulated, Simulated, Simulated,
        ],
    ),
    // No line of the script can end the rule.
    (
        SETS_NONE,
        Refuses::From(3),
        &[Granted, Granted, Simulated, Simulated],
    ),
];

#[test]
fn all_are_refused_from_one_on(rt: HostRuntime) -> Result<(), Fail> {
    for (row, (script, rule, wanted)) in RUNS.iter().enumerate() {
        assert!(rt;
            are_answered(rt.alloc(), script, *rule, wanted)?,
            "run {row}"
        );
    }
    Ok(())
}

/// Scripts and kinds of failures, each with what a sweep finds.
static SWEEPS: [(&[u8], Failures, Result<Option<Refuses>, Cut>); 5] = [
    // If attempt 2 fails, the next turn of the `repeat` makes another attempt. If only a single number or a rate fails, this other attempt
    // is granted.
    (THRICE, Failures::Single, Ok(None)),
    (THRICE, Failures::Every, Ok(None)),
    (THRICE, Failures::Persistent, Ok(Some(Refuses::From(2)))),
    (FALLBACK, Failures::Persistent, Ok(None)),
    (
        WAITS_FOR_ONE,
        Failures::Persistent,
        Err(Cut {
            at: Refuses::From(2),
            why: Why::Budget,
        }),
    ),
];

#[test]
fn a_sweep_finds_from_where_on_all_may_fail(rt: HostRuntime) -> Result<(), Fail> {
    for (row, (script, failures, wanted)) in SWEEPS.iter().enumerate() {
        let found = found_in(rt.alloc(), script, *failures)?;
        assert_eq!(rt; found, *wanted, "sweep {row}");
    }
    Ok(())
}

/// The reports of `sweep` and `check` over such failures for the script `FALLBACK`.
static REPORTS: [Wanted; 2] = [
    Wanted {
        is_check: false,
        failures: Failures::Persistent,
        json: false,
        report: "attempts 3\npersistent none\n",
        status: 0,
    },
    Wanted {
        is_check: true,
        failures: Failures::Persistent,
        json: true,
        report: "{\"attempts\":3,\"kind\":\"persistent\",\"lines\":[\"required 448\",\"from 0 refuses 1\",\"from 144 refuses 2\",\"from 416 refuses 3\",\"enough from 448\",\"attempts 3\",\"persistent none\"],\"number\":\"none\",\"required\":448,\"rises\":[[1,144],[2,416],[3,448]],\"status\":0,\"version\":3}\n",
        status: 0,
    },
];

#[test]
fn reports_of_persistent_failures(rt: HostRuntime) {
    for (row, wanted) in REPORTS.iter().enumerate() {
        assert!(rt; is_answered(rt.alloc(), wanted), "report {row}");
    }
}
