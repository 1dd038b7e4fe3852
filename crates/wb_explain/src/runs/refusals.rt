//! Which attempt a heap of some length refuses first. In the longest heap's run, it is the first attempt whose cell ends past this length.

use wb_basics::limits::CEILING;
use wb_history::AttemptMade;

/// An attempt, and the line that made it; the line is 0 for the first attempt, which no line makes.
#[derive(Clone, Copy, Debug, PartialEq, Eq)]
pub struct Refused {
    pub number: u32,
    pub line: u32,
}

/// The attempts of the run in the longest heap, and how many of these attempts have been passed.
#[derive(Clone, Copy)]
pub struct Refusals<'a> {
    attempts: &'a [AttemptMade<'a>],
    /// How many of the attempts have been passed.
    passed: usize,
    /// The attempt that `go_past` found last. Heaps that are shorter than `until`, and long enough for all earlier attempts, refuse this
    /// attempt first. `None` if there is no such attempt.
    pub first: Option<Refused>,
    /// Where the cell of `first` ends, in bytes; past the ceiling if `first` is `None`.
    pub until: u32,
}

impl<'a> Refusals<'a> {
    /// No attempt has been passed yet. `attempts` are the attempts of the run in the longest heap.
    pub fn new(attempts: &'a [AttemptMade<'a>]) -> Refusals<'a> {
        Refusals {
            attempts,
            passed: 0,
            first: None,
            until: 0,
        }
    }

    /// Goes on to the attempt that a heap of this length, in bytes, refuses first: the next rise that ends past the length. Does nothing if
    /// `first` is already this attempt. The lengths must come in ascending order.
    pub fn go_past(&mut self, length: u32) {
        if self.until > length {
            return;
        }
        let (_, rest) = self
            .attempts
            .split_at_checked(self.passed)
            .unwrap_or((&[], &[]));
        for made in rest {
            self.passed = self.passed.saturating_add(1);
            if made.is_rise && made.top() > length {
                self.first = Some(Refused {
                    number: made.attempt.number,
                    line: made.maker.line,
                });
                self.until = made.top().min(CEILING + 1);
                return;
            }
        }
        self.first = None;
        self.until = CEILING + 1;
    }
}
