//! What is said about a table of lengths if a run in a longer heap does worse than in a shorter heap, but doesn't leak or panic: in which
//! heaps this is so, and which attempt takes the room.

use crate::runs::script_page::{ScriptPage, Written};
use crate::runs::spread::{Spread, lengths_of};
use wb_heap_model::heap::Answer;
use wb_history::Attempts;
use wb_runs::lengths::LengthRange;
use wb_runs::run_end::RunEnd;

/// Returns the length of a heap in which the run does better than in a heap that is one byte longer; `None` if there is none. If there are
/// several such lengths, returns the least.
pub fn longest_better(ranges: &[LengthRange]) -> Option<u32> {
    let (shorter, _, _) = first_worse(ranges)?;
    Some(shorter.greatest)
}

/// The lengths of the first range of heaps in which the run comes to its end, if it leaves in the heaps of the next range. Also returns the
/// lengths of this next range, and the code of the leave.
fn first_worse(ranges: &[LengthRange]) -> Option<(Spread, Spread, i32)> {
    for index in 0..ranges.len() {
        let next = index.saturating_add(1);
        if let (Some(range), Some(worse)) = (ranges.get(index), ranges.get(next))
            && range.end == RunEnd::Plain
            && let RunEnd::Left(code) = worse.end
            && let (Some(shorter), Some(longer)) = (
                lengths_of(ranges, index),
                lengths_of(ranges, next),
            )
        {
            return Some((shorter, longer, code));
        }
    }
    None
}

/// Says in which heaps the run does worse than in shorter heaps, if there are such heaps, and which attempt takes the room. `attempts` are
/// the attempts of the run in the longest heap that does better.
pub fn put_worse(
    page: &mut ScriptPage<'_>,
    ranges: &[LengthRange],
    attempts: &Attempts<'_>,
) -> Written {
    let Some((shorter, longer, code)) = first_worse(ranges) else {
        return Ok(());
    };
    page.page.begin_note();
    page.page.write(format_args!(
        "a longer heap does worse: in one of {shorter} this script comes to its end, in one of {longer} it leaves with {code}"
    ));
    page.page.end_line();
    put_taker(page, shorter.greatest, attempts)
}

/// Shows the first attempt that ends just past this length. A heap of this length refuses this attempt, and a longer heap grants it.
fn put_taker(page: &mut ScriptPage<'_>, length: u32, attempts: &Attempts<'_>) -> Written {
    for made in attempts.kept_attempts() {
        if made.attempt.answer == Answer::Refused && made.top() == length.saturating_add(1) {
            let number = made.attempt.number;
            return page.mark(
                made.maker.line,
                format_args!(
                    "attempt {number}, made here, takes room in the longer heap that the shorter one refuses"
                ),
            );
        }
    }
    Ok(())
}
