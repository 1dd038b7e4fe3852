//! The runs that a picture shows: one run, or two runs below each other.

use wb_history::WatchedRun;

/// The runs of a picture. These runs were watched with `Keep::Drawn`, which keeps everything that a picture draws.
#[derive(Clone, Copy)]
pub struct ShownRuns<'a> {
    /// The only run, or the upper of two.
    pub first: &'a WatchedRun<'a>,
    /// The lower of two runs; `None` if there is only one.
    pub second: Option<&'a WatchedRun<'a>>,
}

impl<'a> ShownRuns<'a> {
    /// The runs of a picture that shows only this run.
    pub fn one(run: &'a WatchedRun<'a>) -> ShownRuns<'a> {
        ShownRuns {
            first: run,
            second: None,
        }
    }

    /// Returns how many runs the picture shows.
    pub fn count(self) -> u32 {
        if self.second.is_some() { 2 } else { 1 }
    }

    /// Returns the lowest run of the picture.
    pub fn last(self) -> &'a WatchedRun<'a> {
        match self.second {
            Some(second) => second,
            None => self.first,
        }
    }
}
