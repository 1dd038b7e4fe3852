//! How a run ended, as one small value. Tables of many runs hold this value in place of an `Outcome`.

ghost use Rattle.std.specs.Prelude.{◌≡◌, ◌&&◌, not};
ghost use Rattle.wb_meaning.specs.Run.{is_bad_outcome};
ghost use Rattle.wb_runs.specs.RunEnds.{end_of, is_bad_end, is_cut_end};
ghost use Rattle.wb_runs.specs.Sweeps.{is_cut_outcome};

use wb_heap_model::heap::Panic;
use wb_meaning::run::{Outcome, Why};

/// How a run ended, with the number of its leaks in place of the leaks themselves. Source: this project's profile.
#[derive(Clone, Copy, Debug, PartialEq, Eq)]
pub enum RunEnd {
    /// The attempt to get the cleanup stack's own cell failed, so `main` did not begin.
    NoCleanup,
    Panicked(Panic),
    /// `main` ended, plainly or by a leave. This many cells leaked; the number is at least 1.
    Leaked(usize),
    /// `main` ended by a leave with this code, and nothing leaked.
    Left(i32),
    /// `main` ended plainly, and nothing leaked.
    Plain,
    Cut(Why),
}

impl RunEnd {
    /// Returns how a run with this outcome ended.
    pub fn of(outcome: &Outcome) -> RunEnd
        ensures { result ≡ end_of outcome.now }
    {
        match outcome {
            Outcome::Ended { left, leaks } if leaks.len() == 0 => match left {
                None => RunEnd::Plain,
                Some(code) => RunEnd::Left(*code),
            },
            Outcome::Ended { left: _, leaks } => RunEnd::Leaked(leaks.len()),
            Outcome::Panicked(panic) => RunEnd::Panicked(*panic),
            Outcome::NoCleanup => RunEnd::NoCleanup,
            Outcome::Cut(why) => RunEnd::Cut(*why),
        }
    }

    /// Whether the run is bad: whether it leaked or panicked. Sweeps, and the search through all heap lengths, look for bad runs.
    pub fn is_bad(self) -> bool
        ensures { result ≡ is_bad_end self }
    {
        matches!(self, RunEnd::Leaked(_) | RunEnd::Panicked(_))
    }

    /// Whether the run was cut.
    pub fn is_cut(self) -> bool
        ensures { result ≡ is_cut_end self }
    {
        matches!(self, RunEnd::Cut(_))
    }
}

/// Whether a run with this outcome is fine: whether it neither leaked nor panicked, and wasn't cut. A run that only leaves is fine, and so
/// is a run that gets no cleanup stack.
pub fn is_fine(outcome: &Outcome) -> bool
    ensures { result ≡ (not (is_bad_outcome outcome.now) && not (is_cut_outcome outcome.now)) }
{
    let end = RunEnd::of(outcome);
    !end.is_bad() && !end.is_cut()
}
