//! What the line on progress says. When it is shown, and where, is decided in `progress_line`.

use crate::work::Estimate;
use arrayvec::ArrayString;
use std::fmt;
use std::fmt::Write as _;
use wb_basics::limits::CEILING;
use wb_heap_model::heap::Numbers;
use wb_runs::failures::Failing;

/// The most bytes of a line: one less than a terminal has columns.
pub const WIDEST: usize = 79;

/// The numbers that are tried before one of them, none of which shows anything.
#[derive(Clone, Copy, Debug, Drop)]
pub struct Fine {
    /// The first number that is tried.
    pub first: u32,
    /// The last number that shows nothing; less than `first` if none was tried yet.
    pub last: u32,
}

/// The line on a failure that is tried: the failure, the last number that will be tried, what is known to show nothing, and the estimate;
/// `None` if there is no room for the failure.
pub fn line_of(
    at: &Failing,
    last: u32,
    fine: Option<Fine>,
    estimate: Option<Estimate>,
) -> Option<ArrayString<WIDEST>> {
    let mut line = ArrayString::<WIDEST>::new();
    put_failing(&mut line, at, last).ok()?;
    put_rest(&mut line, "nothing", fine, estimate);
    Some(line)
}

/// The number of a failure. Of a pair or a set, it is the first attempt's, and 0 of an empty set.
pub fn number_of(at: &Failing) -> u32 {
    match at {
        Failing::Number(number) | Failing::Every(number) => *number,
        Failing::From(number) | Failing::Pair(number, _) => *number,
        Failing::Set(numbers) => numbers.get(0).copied().unwrap_or(0),
    }
}

fn put_failing(line: &mut ArrayString<WIDEST>, at: &Failing, last: u32) -> fmt::Result {
    let number = number_of(at);
    match at {
        Failing::Every(_) => write!(line, "trying rate {number} of {last}"),
        Failing::From(_) => write!(line, "trying failure from attempt {number} of {last} on"),
        Failing::Number(_) | Failing::Pair(_, _) | Failing::Set(_) => {
            write!(line, "trying attempt {number} of {last}")
        }
    }
}

/// The line on a set that is tried: the size of the set, its first attempt, the last attempt that will come first in a set, which first
/// attempts are known to show nothing, and the estimate; `None` if the set is empty, or if there is no room for it.
pub fn line_of_set(
    numbers: &Numbers,
    many: u32,
    last: u32,
    fine: Option<Fine>,
    estimate: Option<Estimate>,
) -> Option<ArrayString<WIDEST>> {
    let first = numbers.get(0)?;
    let mut line = ArrayString::<WIDEST>::new();
    let put = write!(
        line,
        "trying {many} attempts, attempt {first} of {last} first"
    );
    put.ok()?;
    put_rest(&mut line, "none", fine, estimate);
    Some(line)
}

/// The line on a search over states: how many attempts fail together, how many states were met, how many of these wait to be followed
/// through another failure, that no smaller set shows anything, and, if it is known, for how many seconds sets of that size have been
/// tried; `None` if the line is too long.
pub fn line_of_states(
    many: u32,
    states: u32,
    waiting: usize,
    seconds: Option<u64>,
) -> Option<ArrayString<WIDEST>> {
    let mut line = ArrayString::<WIDEST>::new();
    // the runs under single failures are made once more for their states
    let (many, attempts) = if many < 2 {
        (1, "attempt")
    } else {
        (many, "attempts")
    };
    let put = write!(
        line,
        "trying sets of {many} {attempts}, {states} states met, {waiting} wait"
    );
    put.ok()?;
    if many > 1 {
        let _ = line.try_push_str(", nothing with fewer");
    }
    put_if_room(&mut line, words_of_seconds(seconds));
    Some(line)
}

/// The line on a heap that is tried, with its length in bytes, and which share of all lengths is done, since the longest come first; `None`
/// if the line is too long.
pub fn line_of_length(length: u32) -> Option<ArrayString<WIDEST>> {
    let mut line = ArrayString::<WIDEST>::new();
    let longer = u64::from(CEILING.saturating_sub(length));
    let percent = longer.saturating_mul(100).checked_div(u64::from(CEILING))?;
    let put = write!(
        line,
        "trying a heap of {length} bytes, {percent}% of the lengths done"
    );
    put.ok().map(|()| line)
}

/// The line on a run without failure, with the steps that it has taken; `None` if the line is too long.
pub fn line_of_steps(steps: u32) -> Option<ArrayString<WIDEST>> {
    let mut line = ArrayString::<WIDEST>::new();
    let put = write!(line, "running, {steps} steps taken");
    put.ok().map(|()| line)
}

/// Appends which numbers are known to show nothing, called `none`, and the estimate, each if there is room for it.
fn put_rest(
    line: &mut ArrayString<WIDEST>,
    none: &str,
    fine: Option<Fine>,
    estimate: Option<Estimate>,
) {
    if let Some(fine) = fine {
        put_if_room(line, words_of_fine(none, fine));
    }
    if let Some(estimate) = estimate {
        put_if_room(line, words_of_estimate(estimate));
    }
}

/// Appends words, if there are any, and room for all of them.
fn put_if_room(line: &mut ArrayString<WIDEST>, words: Option<ArrayString<WIDEST>>) {
    if let Some(words) = words {
        let _ = line.try_push_str(words.as_str());
    }
}

/// Which numbers are known to show nothing, called `none`; `None` if there are no such numbers.
fn words_of_fine(none: &str, fine: Fine) -> Option<ArrayString<WIDEST>> {
    let Fine { first, last } = fine;
    if last < first {
        return None;
    }
    let mut words = ArrayString::new();
    let put = if first <= 1 {
        write!(words, ", {none} up to {last}")
    } else {
        write!(words, ", {none} from {first} to {last}")
    };
    put.ok().map(|()| words)
}

/// For how many seconds the work has gone on; `None` if that isn't known.
fn words_of_seconds(seconds: Option<u64>) -> Option<ArrayString<WIDEST>> {
    let mut words = ArrayString::new();
    let put = write!(words, ", {} s", seconds?);
    put.ok().map(|()| words)
}

/// How much is done, and how long the rest takes: in seconds up to 99, then in minutes up to 99, then in hours.
fn words_of_estimate(estimate: Estimate) -> Option<ArrayString<WIDEST>> {
    let Estimate { percent, seconds } = estimate;
    let minutes = seconds.div_ceil(60);
    let (time, unit) = if seconds < 100 {
        (seconds, "s")
    } else if minutes < 100 {
        (minutes, "min")
    } else {
        (minutes.div_ceil(60), "h")
    };
    let mut words = ArrayString::new();
    let put = write!(words, ", {percent}% done, {time} {unit} left");
    put.ok().map(|()| words)
}
