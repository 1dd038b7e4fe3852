//! Tests of calls with a shape that no heap may have. No words of a command line can spell such a shape.

use std::test::Fail;
use wb_heap_model::heap::{Rule, Shape};
use wb_machine::{RunFault, run};
use wb_meaning::conditions::Conditions;
use wb_runs::failures::Failures;
use wb_runs::progress::Silent;
use wb_script::read;
use wb_size::fault::SizeFault;
use wb_size::measure::size;
use wb_sweep::fault::SweepFault;
use wb_sweep::sweeping::sweep;

const ODD: Shape = Shape {
    min: 8,
    step: 4096,
    moving: false,
};

/// A script with an empty `main`.
const EMPTY: &[u8] = b"proc main\nend";

#[test]
fn no_run_has_it(rt: HostRuntime) -> Result<(), Fail> {
    let script = read(rt.alloc(), EMPTY)?;
    let told = run(rt.alloc(), &script, Rule::Unlimited, 9, ODD);
    assert_eq!(rt; told.err(), Some(RunFault::BadShape));
    Ok(())
}

#[test]
fn no_size_has_it(rt: HostRuntime) -> Result<(), Fail> {
    let script = read(rt.alloc(), EMPTY)?;
    let told = size(rt.alloc(), &script, 5, ODD);
    assert_eq!(rt; told.err(), Some(SizeFault::BadShape));
    Ok(())
}

#[test]
fn no_conditions_have_it(rt: HostRuntime) {
    assert_eq!(rt; Conditions::new(5, ODD), None);
    assert!(rt; Conditions::new(5, Shape { min: 16, ..ODD }).is_some());
}

#[test]
fn no_sweep_has_it(rt: HostRuntime) -> Result<(), Fail> {
    let script = read(rt.alloc(), EMPTY)?;
    for failures in [
        Failures::Single,
        Failures::Every,
        Failures::Pairs,
        Failures::Persistent,
    ] {
        let told = sweep(rt.alloc(), &script, failures, 3, ODD, &mut Silent);
        assert!(rt; matches!(told, Err(SweepFault::BadShape)));
    }
    Ok(())
}
