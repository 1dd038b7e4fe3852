//! How far a sweep has come with the sets of one size, counted in sets, and how long the rest of these sets takes at the same pace. Larger
//! sets aren't counted: it isn't known yet whether they will be tried.

use crate::work::{Estimate, estimate_of};
use std::time::Duration;
use wb_heap_model::heap::Numbers;

/// The sets of one size that a sweep tries, in their order.
#[derive(Clone, Copy, Debug, Drop)]
pub struct SetWork {
    /// How many attempts each set has.
    many: u32,
    /// The greatest first number of a set.
    last: u32,
    /// The first number of the set that was tried first; 0 as long as no set was tried.
    begin: u32,
    /// The greatest number in a set that was tried.
    farthest: u32,
    /// Whether `farthest` is known to be the last attempt of a run, because a set with a lesser last number was tried after it.
    is_known: bool,
}

impl SetWork {
    /// The sets of `many` attempts whose first number is at most `last`. No run has begun yet.
    pub fn new(many: u32, last: u32) -> SetWork {
        SetWork {
            many,
            last,
            begin: 0,
            farthest: 0,
            is_known: false,
        }
    }

    /// Counts a set whose run begins.
    pub fn begin(&mut self, numbers: &Numbers) {
        if self.begin == 0 {
            self.begin = number_at(numbers, 0).unwrap_or(0);
        }
        let last = last_of(numbers).unwrap_or(0);
        if last < self.farthest {
            self.is_known = true;
        }
        self.farthest = self.farthest.max(last);
    }

    /// The estimate when the run of a set begins. `elapsed` is the time since the first run of a set of this size began. `None` if too
    /// little is known yet, or if the rest takes longer than a year. The estimate assumes that each run makes as many attempts as the
    /// longest run so far.
    pub fn estimate(&self, numbers: &Numbers, elapsed: Duration) -> Option<Estimate> {
        if !self.is_known {
            return None;
        }
        let first = number_at(numbers, 0)?;
        let second = number_at(numbers, 1)?;
        let same = sets_from(second, self.farthest, self.many.checked_sub(1)?)?;
        let later = self.sets_with_first_from(first.checked_add(1)?)?;
        let left = same.checked_add(later)?;
        let all = self.sets_with_first_from(self.begin)?;
        estimate_of(all.checked_sub(left)?, left, elapsed)
    }

    /// How many sets have a first number from `first` to `last`.
    fn sets_with_first_from(&self, first: u32) -> Option<u64> {
        let past = self.last.checked_add(1)?;
        let all = sets_from(first, self.farthest, self.many)?;
        all.checked_sub(sets_from(past.max(first), self.farthest, self.many)?)
    }
}

/// How many sets of `many` numbers can be formed from the numbers from `from` to `to`; `None` if there are too many to count.
fn sets_from(from: u32, to: u32, many: u32) -> Option<u64> {
    let count = u64::from(to.saturating_add(1).saturating_sub(from));
    let mut sets: u64 = 1;
    for taken in 0..many {
        let taken = u64::from(taken);
        sets = sets.checked_mul(count.saturating_sub(taken))?;
        sets = sets.checked_div(taken.checked_add(1)?)?;
    }
    Some(sets)
}

fn number_at(numbers: &Numbers, at: usize) -> Option<u32> {
    numbers.get(at).copied()
}

fn last_of(numbers: &Numbers) -> Option<u32> {
    number_at(numbers, numbers.len().checked_sub(1)?)
}
