//! Runs that have come to a state that is kept. This file doesn't decide which states are compared with a run.

ghost use Rattle.std.specs.Prelude.{◌≡◌, false, true};
ghost use Rattle.wb_machine.specs.Alike.{GoesOnLike};
ghost use Rattle.wb_states.specs.Ground.{Ground, Meets};
ghost use Rattle.wb_states.specs.States.{IsRunOf, IsUnderWay};

use crate::state::State;
use wb_heap_model::heap::Numbers;
use wb_machine::Machine;

/// The first attempt that fails under only one of two sets; `None` if the sets are the same. Both sets ascend.
fn first_apart(set: &[u32], other: &[u32]) -> Option<u32> {
    let (mut left, mut other_left) = (set, other);
    while let [number, rest @ ..] = left {
        let [other, other_rest @ ..] = other_left else {
            return Some(*number);
        };
        if *number != *other {
            return Some(*number.min(other));
        }
        left = rest;
        other_left = other_rest;
    }
    other_left.first().copied()
}

/// The last attempt up to which a run under a set and the run of a state were one and the same run.
fn one_run_until(fork: &Machine, set: &Numbers, state: &State) -> u32 {
    let both_made = fork.attempts().min(state.attempts);
    match first_apart(set.as_slice(), state.numbers.as_slice()) {
        Some(number) => both_made.min(number.saturating_sub(1)),
        None => both_made,
    }
}

/// Whether a run asks for an attempt next, and goes on like a run that has come to a state. Two comparisons are tried. The first comparison
/// may pair any allocation numbers of the two runs, but makes at most 64 pairs. In the second comparison, the allocation numbers of all
/// attempts that both runs made as one run must be equal in both runs. Only greater numbers are paired, again in at most 64 pairs.
fn goes_on_alike(fork: &Machine, set: &Numbers, state: &State, machine: &Machine) -> bool
    requires script { machine.now.script ≡ fork.now.script }
    ensures alike { result ≡ true → GoesOnLike fork.now machine.now }
    ensures going { result ≡ true → fork.now.over ≡ false }
{
    fork.will_attempt()
        && (fork.goes_on_like(machine, 0)
            || fork.goes_on_like(machine, one_run_until(fork, set, state)))
}

/// Whether, from here on, `fork` is the same as `machine` except for allocation numbers. `fork` is a run under `set`, and `machine` has
/// come to `state`. The result can be `false` although the two runs are the same, and is always `false` if `fork` asks for no attempt next.
pub(crate) fn is_met(fork: &Machine, set: &Numbers, state: &State, machine: &Machine) -> bool
    requires script { machine.now.script ≡ fork.now.script }
    ensures { result ≡ true → (g : Ground) → IsUnderWay g set.now fork.now →
        IsRunOf g state.now machine.now →
        Meets g set.now fork.now.attempts fork.now.steps
        state.now.numbers state.now.attempts state.now.steps }
{
    goes_on_alike(fork, set, state, machine)
}
