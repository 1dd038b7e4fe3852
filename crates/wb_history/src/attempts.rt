//! The attempts of a run, and which line made each.

use crate::makers::Maker;
use std::alloc::{AllocError, Global};
use wb_basics::limits::CEILING;
use wb_heap_model::heap::{Answer, Attempt, Rule};

/// How many of a run's first attempts are kept in any case.
const MOST_ATTEMPTS: usize = 100_000;

/// What is kept of a run in addition to what explanations name.
#[derive(Clone, Copy, Debug, PartialEq, Eq)]
pub enum Keep {
    /// Nothing more: of the attempts past the first 100,000, only those that the rule names are kept.
    Named,
    /// The rises (attempts that a shorter heap refuses first): those past the first 100,000 are kept too.
    Rises,
    /// All that a picture draws: each attempt, and the run's `Course`.
    Drawn,
}

/// An attempt, what made it, and the step in which it was made.
#[derive(Clone, Copy)]
pub struct AttemptMade<'a> {
    pub attempt: Attempt,
    pub maker: Maker<'a>,
    pub step: u32,
    /// Whether the attempt is a rise. A rise isn't made to fail, and its cell ends, or would end, past the cells of all earlier attempts
    /// that weren't made to fail. A heap that is too short for a rise, but long enough for all earlier attempts, refuses the rise first.
    pub is_rise: bool,
}

impl<'a> AttemptMade<'a> {
    pub fn is_granted(&self) -> bool {
        self.attempt.answer == Answer::Granted
    }

    /// Returns where the attempt's cell ends, or would end, in bytes.
    pub fn top(&self) -> u32 {
        self.attempt.place.saturating_add(self.attempt.length)
    }
}

/// How many attempts of a run failed, each counted once.
#[derive(Clone, Copy, Debug, PartialEq, Eq)]
pub struct FailedCounts {
    /// Attempts that fail because of the rule or its limit, even if the script's own setting makes them fail too.
    pub by_rule: u32,
    /// Attempts that only the script's own setting makes fail.
    pub by_script: u32,
}

/// The attempts of a run.
#[derive(Drop)]
pub struct Attempts<'a> {
    /// The attempts that are kept, in order of their numbers.
    kept: Vec<AttemptMade<'a>>,
    rule: Rule,
    keep: Keep,
    count: u32,
    /// Where the last rise ends, in bytes.
    top: u32,
    failed: FailedCounts,
    /// The index in `kept` of the first attempt that the limit refused.
    refused_at: Option<usize>,
    /// Whether the newest attempt is kept, and it isn't known yet at which other line the run went on.
    is_newest_open: bool,
}

impl<'a> Attempts<'a> {
    /// The run under this rule has made no attempt yet.
    pub fn new(alloc: Global, rule: Rule, keep: Keep) -> Attempts<'a> {
        Attempts {
            kept: Vec::new(alloc),
            rule,
            keep,
            count: 0,
            top: 0,
            failed: FailedCounts {
                by_rule: 0,
                by_script: 0,
            },
            refused_at: None,
            is_newest_open: false,
        }
    }

    /// Returns how many attempts the run made.
    pub fn count(&self) -> u32 {
        self.count
    }

    /// Returns where the last rise ends, in bytes; 0 before the first rise.
    pub fn top(&self) -> u32 {
        self.top
    }

    /// Returns how many attempts failed.
    pub fn failed_counts(&self) -> FailedCounts {
        self.failed
    }

    /// Returns the attempts that are kept, in order of their numbers.
    pub fn kept_attempts(&self) -> &[AttemptMade<'a>] {
        self.kept.as_slice()
    }

    /// Returns the attempt with this number; `None` if the run didn't come to this attempt, or if it isn't kept.
    pub fn find(&self, number: u32) -> Option<AttemptMade<'a>> {
        let at = number.checked_sub(1)? as usize;
        if at < MOST_ATTEMPTS || self.keep == Keep::Drawn {
            return self.kept.get(at).copied();
        }
        for made in self.kept.iter().skip(MOST_ATTEMPTS) {
            if made.attempt.number == number {
                return Some(*made);
            }
        }
        None
    }

    /// Returns the place, in bytes, past which no cell may end under the rule.
    pub fn bound(&self) -> u32 {
        match &self.rule {
            Rule::Limit(limit) => *limit,
            _ => CEILING,
        }
    }

    /// Returns the first attempt that the limit refused; `None` if it refused none.
    pub fn first_refused(&self) -> Option<AttemptMade<'a>> {
        self.kept.get(self.refused_at?).copied()
    }

    /// Records an attempt that was just made, what made it, and the step in which it was made. The only error is that memory ran out.
    pub fn add(&mut self, attempt: Attempt, maker: Maker<'a>, step: u32) -> Result<(), AllocError> {
        self.count = self.count.saturating_add(1);
        let top = attempt.place.saturating_add(attempt.length);
        let is_rise = attempt.answer != Answer::Simulated && top > self.top;
        if is_rise {
            self.top = top;
        }
        self.count_failed(attempt);
        let is_kept = self.kept.len() < MOST_ATTEMPTS
            || match self.keep {
                Keep::Named => false,
                Keep::Rises => is_rise,
                Keep::Drawn => true,
            };
        self.is_newest_open = is_kept || self.is_named(attempt);
        if attempt.answer == Answer::Refused && self.refused_at.is_none() {
            self.refused_at = Some(self.kept.len());
        }
        if self.is_newest_open {
            self.kept.push(AttemptMade {
                attempt,
                maker,
                step,
                is_rise,
            })?;
        }
        Ok(())
    }

    /// Records a turn after the newest attempt: `line` was begun last, and `undoes` says whether it is in an operation or a destructor.
    pub fn see_turn(&mut self, line: u32, undoes: bool) {
        if !self.is_newest_open {
            return;
        }
        if let Some(newest) = self.kept.last_mut() {
            newest.maker.see(line, undoes);
            self.is_newest_open = newest.maker.after == 0;
        }
    }

    /// Whether the rule names an attempt: by its number, as the first multiple of a rate, or as the first attempt that a limit refuses.
    fn is_named(&self, attempt: Attempt) -> bool {
        match &self.rule {
            Rule::Unlimited => false,
            Rule::Limit(_) => attempt.answer == Answer::Refused && self.refused_at.is_none(),
            Rule::Number(number) | Rule::Every(number) => attempt.number == *number,
            Rule::From(first) => attempt.number == *first,
            Rule::Pair(first, second) => attempt.number == *first || attempt.number == *second,
            Rule::Set(numbers) => numbers.as_slice().contains(&attempt.number),
        }
    }

    /// Returns whether an attempt failed because of the rule.
    pub fn is_by_rule(&self, attempt: Attempt) -> bool {
        if attempt.answer == Answer::Granted {
            return false;
        }
        match &self.rule {
            Rule::Every(rate) => attempt.number.checked_rem(*rate) == Some(0),
            Rule::From(first) => *first != 0 && attempt.number >= *first,
            Rule::Number(_) | Rule::Pair(..) | Rule::Set(_) => self.is_named(attempt),
            Rule::Limit(_) => attempt.answer == Answer::Refused,
            Rule::Unlimited => false,
        }
    }

    fn count_failed(&mut self, attempt: Attempt) {
        if attempt.answer == Answer::Granted {
            return;
        }
        if self.is_by_rule(attempt) {
            self.failed.by_rule = self.failed.by_rule.saturating_add(1);
        } else {
            self.failed.by_script = self.failed.by_script.saturating_add(1);
        }
    }
}
