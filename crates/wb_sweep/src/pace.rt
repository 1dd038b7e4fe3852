//! How far a scout goes ahead of the run that forks are copied from, and which forks are compared with the scout at all. Nothing here
//! changes what a sweep answers, only how long it takes.

/// The most attempts that a scout goes ahead of a fork's failure. The distance is 0, 1, 3, 7 and so on: each is twice the distance before
/// it, plus one.
const MOST_AHEAD: u32 = 63;

/// If the scout has already gone further ahead of a fork, and is now more attempts ahead than this, it goes no further ahead of this fork.
/// So a fork that never meets the scout doesn't make the scout go far.
const MOST_AT_ONCE: u32 = 7;

/// The most attempts by which a fork may be past the scout before it counts as having passed the scout. A fork that tries a failed attempt
/// again makes more attempts than the scout.
const MOST_PAST: u32 = 4;

/// How many forks must have met the scout before the scout goes less far ahead.
const PATIENCE: u32 = 4;

/// How many forks in a row must miss the scout to let one more of the next forks pass without being compared.
const MISSED: u32 = 4;

/// The most forks in a row that pass without being compared.
const MOST_PASSED: u32 = 64;

/// How far ahead a scout goes, depending on which forks have met or missed it.
#[derive(Clone, Copy, Debug)]
pub struct Pace {
    ahead: u32,
    /// How many forks have met the scout since the scout's distance last changed.
    met: u32,
    /// How many forks in a row have missed the scout.
    missed: u32,
    /// How many of the next forks are to pass without being compared.
    to_pass: u32,
}

impl Pace {
    /// The pace of a scout that no fork has met or missed.
    pub fn new() -> Pace {
        Pace {
            ahead: 0,
            met: 0,
            missed: 0,
            to_pass: 0,
        }
    }

    /// How many attempts the scout goes ahead of a fork's failure.
    pub fn ahead(&self) -> u32 {
        self.ahead
    }

    /// How many attempts more than the scout a fork may have made before it has passed the scout. The number is so small that the scout is
    /// never behind the fork after going further ahead.
    pub fn past(&self) -> u32 {
        (self.ahead / 2).min(MOST_PAST)
    }

    /// Makes the scout go further ahead after a fork has passed it; `false` if the scout already goes as far ahead as it may. `at_first` is
    /// how far ahead of this fork the scout went at first.
    pub fn go_further(&mut self, at_first: u32) -> bool {
        let is_enough = self.ahead > MOST_AT_ONCE && self.ahead > at_first;
        if is_enough || self.ahead >= MOST_AHEAD {
            return false;
        }
        self.ahead = self.ahead.saturating_mul(2).saturating_add(1);
        self.met = 0;
        true
    }

    /// Whether the next fork passes without being compared.
    pub fn passes_next(&mut self) -> bool {
        if self.to_pass == 0 {
            return false;
        }
        self.to_pass -= 1;
        true
    }

    /// Takes note of a fork that has met or missed the scout. After a few forks have met the scout, it goes less far ahead. The more forks
    /// in a row have missed the scout, the more of the next forks pass without being compared.
    pub fn add(&mut self, has_met: bool) {
        if has_met {
            self.add_met();
        } else {
            self.missed = self.missed.saturating_add(1);
            self.to_pass = (self.missed / MISSED).min(MOST_PASSED);
        }
    }

    fn add_met(&mut self) {
        self.missed = 0;
        self.met = self.met.saturating_add(1);
        if self.met >= PATIENCE {
            self.ahead /= 2;
            self.met = 0;
        }
    }
}
