//! How much of a sweep's work is done, and how long the rest takes at the same pace. The work is counted in runs, each under a failure with
//! one number. The line that shows this is in `progress_line`. Sets of attempts, and so pairs, are counted in `set_work`.

use std::time::Duration;

/// The longest time that is shown as left: a year, in seconds.
const LONGEST: u64 = 31_536_000;

/// The runs that a sweep has begun under failures with one number each: an attempt's number, or a rate.
#[derive(Clone, Copy, Debug, Drop)]
pub struct Work {
    /// The greatest number that is tried.
    last: u32,
    /// How many runs have begun.
    begun: u64,
}

/// How much of the work is done, and how long the rest takes.
#[derive(Clone, Copy, Debug, PartialEq, Eq)]
pub struct Estimate {
    /// How much is done, in percent; less than 100.
    pub percent: u64,
    /// How long the rest takes, in seconds, rounded up.
    pub seconds: u64,
}

impl Work {
    /// The work of trying failures with numbers up to `last`. No run has begun yet.
    pub fn new(last: u32) -> Work {
        Work { last, begun: 0 }
    }

    /// Counts a run that begins. Returns whether it is the first run, from whose beginning time is measured.
    pub fn begin(&mut self) -> bool {
        self.begun = self.begun.saturating_add(1);
        self.begun == 1
    }

    /// The estimate when the run under the failure with this number begins. `elapsed` is the time since the first run began. `None` if no
    /// run is done yet, or if the rest takes longer than a year.
    pub fn estimate(&self, number: u32, elapsed: Duration) -> Option<Estimate> {
        let done = self.begun.checked_sub(1)?;
        let after = self.last.checked_sub(number)?;
        estimate_of(done, u64::from(after).checked_add(1)?, elapsed)
    }
}

/// The estimate if `done` runs took `elapsed`, and `left` runs aren't done yet. `None` if no run is done, or if the rest takes longer than
/// a year.
pub fn estimate_of(done: u64, left: u64, elapsed: Duration) -> Option<Estimate> {
    let all = done.checked_add(left)?;
    let millis = u64::try_from(elapsed.as_millis()).ok()?;
    let left_millis = millis.checked_mul(left)?.checked_div(done)?;
    let seconds = left_millis.div_ceil(1000);
    if seconds > LONGEST {
        return None;
    }
    Some(Estimate {
        percent: done.checked_mul(100)?.checked_div(all)?,
        seconds,
    })
}
