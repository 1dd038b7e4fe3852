//! Runs, sweeps and reports with a rate: every attempt fails whose number is a multiple of the rate.

use crate::failing::{FALLBACK, SETS, SETS_NONE, Wanted, are_answered, found_in, is_answered};
use crate::rules::Refuses;
use std::test::Fail;
use wb_heap_model::heap::Answer;
use wb_heap_model::heap::Answer::{Granted, Simulated};
use wb_runs::failures::Failures;

/// Scripts and rules, each with the answers to the attempts of the run.
static RUNS: [(&[u8], Refuses, &[Answer]); 9] = [
    (FALLBACK, Refuses::Every(0), &[Granted, Granted, Granted]),
    (FALLBACK, Refuses::Every(1), &[Simulated]),
    (
        FALLBACK,
        Refuses::Every(2),
        &[Granted, Simulated, Granted, Simulated],
    ),
    (FALLBACK, Refuses::Every(3), &[Granted, Granted, Simulated]),
    (FALLBACK, Refuses::Every(4), &[Granted, Granted, Granted]),
    // The run has no rate, but only the script's setting, which counts from its own line on.
    (
        SETS,
        Refuses::Every(0),
        &[
            Granted, Granted, Granted, Simulated, Granted, Simulated, Granted, Simulated,
        ],
    ),
    // The rate counts from attempt 1, so the rate makes attempts 3 and 6 fail. The setting makes attempt 6 fail too.
    (
        SETS,
        Refuses::Every(3),
        &[
            Granted, Granted, Simulated, Simulated, Granted, Simulated, Granted, Simulated,
        ],
    ),
    // The rate makes attempt 5 fail. If the rate counted from the setting's line on, its first failed attempt would be attempt 7.
    (
        SETS,
        Refuses::Every(5),
        &[
            Granted, Granted, Granted, Simulated, Simulated, Simulated, Granted, Simulated,
        ],
    ),
    // No line of the script can end the rule of the rate.
    (
        SETS_NONE,
        Refuses::Every(2),
        &[Granted, Simulated, Granted, Simulated],
    ),
];

#[test]
fn a_rate_refuses_its_multiples(rt: HostRuntime) -> Result<(), Fail> {
    for (row, (script, rule, wanted)) in RUNS.iter().enumerate() {
        assert!(rt;
            are_answered(rt.alloc(), script, *rule, wanted)?,
            "run {row}"
        );
    }
    Ok(())
}

#[test]
fn a_rate_finds_what_no_number_does(rt: HostRuntime) -> Result<(), Fail> {
    assert_eq!(rt; found_in(rt.alloc(), FALLBACK, Failures::Single)?, Ok(None));
    let rate = found_in(rt.alloc(), FALLBACK, Failures::Every)?;
    assert_eq!(rt; rate, Ok(Some(Refuses::Every(2))));
    Ok(())
}

/// The reports of `sweep` and `check` for the script `FALLBACK`, without rates and with rates.
static REPORTS: [Wanted; 4] = [
    Wanted {
        is_check: false,
        failures: Failures::Single,
        json: false,
        report: "attempts 3\nnumber none\n",
        status: 0,
    },
    Wanted {
        is_check: false,
        failures: Failures::Every,
        json: false,
        report: "attempts 3
every 2
attempt 1 length 144 place 0 granted
attempt 2 length 272 place 144 simulated
attempt 3 length 32 place 144 granted
attempt 4 length 80 place 176 simulated
left -4
leaks 1
leak 3 length 32 place 144
steps 4
",
        status: 1,
    },
    Wanted {
        is_check: false,
        failures: Failures::Single,
        json: true,
        report: "{\"attempts\":3,\"kind\":\"single\",\"lines\":[\"attempts 3\",\"number none\"],\"number\":\"none\",\"required\":null,\"rises\":null,\"status\":0,\"version\":2}\n",
        status: 0,
    },
    Wanted {
        is_check: true,
        failures: Failures::Every,
        json: true,
        report: "{\"attempts\":3,\"kind\":\"every\",\"lines\":[\"required 448\",\"from 0 refuses 1\",\"from 144 refuses 2\",\"from 416 refuses 3\",\"enough from 448\",\"attempts 3\",\"every 2\",\"attempt 1 length 144 place 0 granted\",\"attempt 2 length 272 place 144 simulated\",\"attempt 3 length 32 place 144 granted\",\"attempt 4 length 80 place 176 simulated\",\"left -4\",\"leaks 1\",\"leak 3 length 32 place 144\",\"steps 4\"],\"number\":2,\"required\":448,\"rises\":[[1,144],[2,416],[3,448]],\"status\":1,\"version\":2}\n",
        status: 1,
    },
];

#[test]
fn reports_of_rates(rt: HostRuntime) {
    for (row, wanted) in REPORTS.iter().enumerate() {
        assert!(rt; is_answered(rt.alloc(), wanted), "report {row}");
    }
}
