//! Where the runs in two heaps part. No contract of the table rests on what this file finds, since each run that follows from it is checked.

use std::alloc::Global;
use wb_basics::memory::NoMemory;
use wb_heap_model::heap::{Answer, Attempt, Numbers};
use wb_heap_model::reported::Trace;
use wb_meaning::run::RunResult;

/// The most attempts that a run makes after the one at which it parts from the run before. The run is copied before each of these attempts.
/// A whole run takes about as long as ten to twenty copies, so with more of these attempts a whole run takes less time.
pub(crate) const MOST_ATTEMPTS: u32 = 16;

/// The greatest number of steps of a run from whose copies others are made. Each copy carries the lines of the attempts so far, of which
/// there are at most as many.
pub(crate) const MOST_STEPS: u32 = 4096;

/// The greatest number of printed lines of such a run. A copy takes memory for each line.
const MOST_LINES: usize = 64;

/// Where the cell of an attempt ends, in bytes from the heap's start; 0 if the attempt isn't granted.
fn granted_end(attempt: &Attempt) -> u32 {
    if attempt.answer == Answer::Granted {
        attempt.place.saturating_add(attempt.length)
    } else {
        0
    }
}

/// The number of the attempt at which a run comes to its greatest length; 0 if no attempt is granted.
fn first_at_top(trace: &Trace) -> u32 {
    let mut top = 0;
    let mut number = 0;
    for attempt in trace.as_slice() {
        let end = granted_end(attempt);
        if end > top {
            top = end;
            number = attempt.number;
        }
    }
    number
}

/// The number of the attempt at which a run comes to its greatest length. A heap that is one byte shorter refuses this attempt, and grants
/// all that the run's heap grants before it. `None` if there is no such attempt, or if the run in that heap is better made as a whole run:
/// it makes about as many attempts after this one as the run here.
pub(crate) fn parting_of(run_result: &RunResult) -> Option<u32> {
    let number = first_at_top(&run_result.trace);
    if number == 0 || run_result.trace.len() > number as usize + MOST_ATTEMPTS as usize {
        return None;
    }
    if run_result.steps > MOST_STEPS || run_result.lines.len() > MOST_LINES {
        return None;
    }
    Some(number)
}

/// How many attempts a run made.
pub(crate) fn attempts_of(run_result: &RunResult) -> u32 {
    match run_result.trace.as_slice().last() {
        Some(attempt) => attempt.number,
        None => 0,
    }
}

/// The numbers of the attempts that the heap of a run refuses.
pub(crate) fn refused_in(alloc: Global, run_result: &RunResult) -> Result<Numbers, NoMemory> {
    let mut numbers = Numbers::new(alloc);
    for attempt in run_result.trace.as_slice() {
        if attempt.answer == Answer::Refused {
            numbers.push(attempt.number)?;
        }
    }
    Ok(numbers)
}

/// Those of the numbers that are less than `end`.
pub(crate) fn numbers_below(
    alloc: Global,
    numbers: &Numbers,
    end: u32,
) -> Result<Numbers, NoMemory> {
    let mut lesser = Numbers::new(alloc);
    for number in numbers.as_slice() {
        if *number < end {
            lesser.push(*number)?;
        }
    }
    Ok(lesser)
}
