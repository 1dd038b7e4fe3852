//! Tests of the progress that is reported while a sweep tries sets of attempts one by one. A sweep tries sets one by one if its runs come
//! to too many states.

ghost use Rattle.std.specs.Prelude.{◌≤◌};

use crate::rules::Refuses;
use std::alloc::Global;
use std::test::Fail;
use wb_heap_model::heap::{Numbers, Shape};
use wb_meaning::conditions::Conditions;
use wb_runs::failures::{Failing, Failures};
use wb_runs::part::Part;
use wb_script::read;
use wb_sweep::{sweep, sweep_sets};
use workbench::{Aim, Progress, StepProgress};

/// A listener that counts the notifications of a sweep.
#[derive(Clone, Copy, Debug, Drop)]
struct Listener {
    failures: u32,
    sets: u32,
    /// How many states the sweep met before it tried the first set.
    states: u32,
    /// How many attempts each of the sets has that the sweep tries now.
    many: u32,
    /// The numbers of the last set; the remaining entries are zero.
    set: [u32; 3],
    /// Whether the notifications came in order: single failures before sets are announced, states before the first set, and sets in their
    /// order, with `many` attempts each.
    are_in_order: bool,
}

impl Listener {
    fn new() -> Listener {
        Listener {
            failures: 0,
            sets: 0,
            states: 0,
            many: 1,
            set: [0; 3],
            are_in_order: true,
        }
    }
}

impl StepProgress for Listener {
    fn take_steps(&mut self, _steps: u32) {}
}

impl Progress for Listener {
    fn begin_run(&mut self) {}

    fn begin(&mut self, _aim: Aim) {}

    fn begin_failures(&mut self, _first: u32, _last: u32) {}

    fn begin_failure(&mut self, at: &Failing) {
        self.are_in_order &= self.many == 1;
        self.failures = self.failures.wrapping_add(1);
        self.are_in_order &= Refuses::of(at) == Refuses::Number(self.failures);
    }

    fn begin_sets(&mut self, many: u32) {
        self.are_in_order &= self.many <= many;
        self.many = many;
        self.set = [0; 3];
    }

    fn begin_set(&mut self, numbers: &Numbers) {
        let set = [
            number_at(numbers, 0),
            number_at(numbers, 1),
            number_at(numbers, 2),
        ];
        self.are_in_order &= comes_before(self.set, set);
        self.are_in_order &= numbers.len() as u64 == u64::from(self.many);
        self.sets = self.sets.wrapping_add(1);
        self.set = set;
    }

    fn meet_state(&mut self, waiting: usize) {
        self.are_in_order &= waiting > 0;
        self.are_in_order &= self.sets == 0;
        self.states = self.states.wrapping_add(1);
    }

    fn begin_lengths(&mut self) {}

    fn begin_length(&mut self, _length: u32) {}

    fn end(&mut self) {}
}

/// Whether the set `set` comes before the set `other` of the same size.
fn comes_before(set: [u32; 3], other: [u32; 3]) -> bool {
    let [a, b, c] = set;
    let [d, e, f] = other;
    a < d || (a == d && (b < e || (b == e && c < f)))
}

/// The number at an index of a set; 0 if the index is past the end.
fn number_at(numbers: &Numbers, at: usize) -> u32 {
    match numbers.get(at) {
        Some(number) => *number,
        None => 0,
    }
}

/// A script of 60 attempts that adds up the numbers of the turns whose attempts fail. So few of its runs are ever in the same state.
const SUMS: &[u8] =
    b"proc main\nptr a\nint turn\nint sum\nrepeat 60\nadd turn 1\nalloc a 16\nif null a\nadd sum turn\nend\nfree a\nend\nend\n";

/// A script of 16 attempts whose sum shows exactly which of these attempts failed.
const BITS: &[u8] =
    b"proc main\nptr a\nint bit\nint sum\nset bit 1\nrepeat 16\nalloc a 16\nif null a\nadd sum bit\nend\nfree a\nadd bit bit\nend\nend\n";

const SHAPE: Shape = Shape {
    min: 4096,
    step: 4096,
    moving: false,
};

/// Sweeps over sets of at most `most` attempts, and returns the listener that got the notifications.
fn listen_to_sweep(alloc: Global, script: &[u8], most: u32) -> Result<Listener, Fail>
    requires { 1 ≤ most }
{
    let script = read(alloc, script)?;
    let all = Part::WHOLE;
    let mut listener = Listener::new();
    let conditions = Conditions {
        budget: 1_000,
        shape: SHAPE,
    };
    sweep_sets(alloc, &script, all, most, conditions, &mut listener)?;
    Ok(listener)
}

// Attempt 1 is for the cleanup stack. A run in which attempt 1 fails makes no other attempt, so all sets consist of the 16 other attempts.
// Sets of two attempts lead to fewer than 1,000 states, but sets of three attempts lead to more.
#[test]
fn sets_are_tried_where_states_are_many(rt: HostRuntime) -> Result<(), Fail> {
    for (most, sets) in [(1, 0), (2, 0), (3, 560)] {
        let listener = listen_to_sweep(rt.alloc(), BITS, most)?;
        assert!(rt; listener.are_in_order, "sets of {most}");
        assert_eq!(rt; listener.failures, 17, "numbers before sets of {most}");
        assert_eq!(rt; listener.sets, sets, "sets of {most}");
        assert_eq!(rt; listener.states > 0, most > 1, "states of {most}");
    }
    Ok(())
}

// With 60 attempts, the single failures alone lead to more than 1,000 states.
#[test]
fn pairs_are_tried_as_sets(rt: HostRuntime) -> Result<(), Fail> {
    let script = read(rt.alloc(), SUMS)?;
    let mut listener = Listener::new();
    sweep(
        rt.alloc(),
        &script,
        Failures::Pairs,
        1_000,
        SHAPE,
        &mut listener,
    )?;
    assert!(rt; listener.are_in_order, "pairs");
    assert_eq!(rt; listener.failures, 61, "numbers before pairs");
    assert_eq!(rt; listener.sets, 1_770, "pairs");
    Ok(())
}
