//! What shows that a run in which the attempts of a set fail is the run in a heap of some length.

ghost use Rattle.std.specs.Prelude.{◌≡◌};
ghost use Rattle.wb_basics.specs.declared.limits.TheConstants.{CEILING};
ghost use Rattle.wb_lengths.specs.SetHeaps.{are_past, is_cut_at_ceiling, is_past, shows_run_in};
ghost use Rattle.wb_lengths.specs.Walk.{GrantsWithin};
ghost use Rattle.std.specs.Option.{option_copied};

use crate::highest_end::highest_end;
use wb_heap_model::heap::{Attempt, Numbers};
use wb_heap_model::reported::Trace;
use wb_meaning::run::{Outcome, RunResult, Why};

/// Whether the ceiling cut a run with this outcome.
fn is_cut_at_ceiling(outcome: &Outcome) -> bool
    ensures { result ≡ is_cut_at_ceiling outcome.now }
{
    matches!(outcome, Outcome::Cut(Why::Ceiling))
}

/// Whether the cell of an attempt would end past a length, in bytes; `true` if there is no attempt.
fn is_past(attempt: Option<&Attempt>, length: u32) -> bool
    ensures { result ≡ is_past length (option_copied attempt.entry) }
{
    match attempt {
        Some(attempt) => {
            u64::from(attempt.place) + u64::from(attempt.length) > u64::from(length)
        }
        None => true,
    }
}

/// Whether the cells of all attempts of a trace whose numbers are among `numbers` would end past a length, in bytes.
fn are_past(trace: &Trace, numbers: &Numbers, length: u32) -> bool
    ensures { result ≡ are_past length trace.now numbers.now }
{
    for number in numbers.as_slice() {
        let at = number.saturating_sub(1) as usize;
        if !is_past(trace.get(at), length) {
            return false;
        }
    }
    true
}

/// Whether a run in which the attempts of `numbers` fail shows that it is also the run in a heap of this length, in bytes, except for notes
/// and for how the trace names refusals.
pub(crate) fn shows_run_in(run_result: &RunResult, numbers: &Numbers, length: u32) -> bool
    requires { GrantsWithin CEILING run_result.now.trace }
    ensures { result ≡ shows_run_in length numbers.now run_result.now }
{
    if is_cut_at_ceiling(&run_result.outcome) {
        return false;
    }
    if highest_end(&run_result.trace) > length {
        return false;
    }
    are_past(&run_result.trace, numbers, length)
}
