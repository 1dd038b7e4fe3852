//! The greatest end of a granted cell in a trace.

ghost use Rattle.std.specs.Prelude.{◌≡◌, ◌≤◌, ℕ, Some, slice_get};
ghost use Rattle.wb_heap_model.specs.declared.heap.Answer.TheVariants.{Granted};
ghost use Rattle.wb_heap_model.specs.declared.heap.Attempt.{Attempt};
ghost use Rattle.wb_basics.specs.declared.limits.TheConstants.{CEILING};
ghost use Rattle.wb_heap_model.specs.Rises.{end_of_line, highest_end};
ghost use Rattle.wb_heap_model.specs.Reported.{end_of_attempt};
ghost use Rattle.wb_lengths.specs.Walk.{GrantsWithin};

use wb_heap_model::heap::{Answer, Attempt};
use wb_heap_model::reported::Trace;

/// The greatest end of a granted cell in a trace, in bytes from the heap's start; 0 if no attempt is granted.
pub(crate) fn highest_end(trace: &Trace) -> u32
    requires { GrantsWithin CEILING trace.now }
    ensures { result ≡ highest_end trace.now }
{
    let mut highest = 0;
    for attempt in trace.as_slice() {
        highest = highest.max(granted_end(attempt));
    }
    highest
}

/// Where the cell of an attempt ends, in bytes from the heap's start; 0 if the attempt isn't granted.
fn granted_end(attempt: &Attempt) -> u32
    requires { attempt.now.answer ≡ Granted → end_of_attempt attempt.now ≤ CEILING }
    ensures { result ≡ end_of_line attempt.now }
{
    match attempt.answer {
        Answer::Granted => attempt.place + attempt.length,
        Answer::Simulated | Answer::Refused => 0,
    }
}
