//! Lengths of heaps about which the same thing is said: the least length, the greatest length, and the number of lengths.

use std::fmt;
use std::fmt::{Display, Formatter, Write};
use wb_basics::limits::CEILING;
use wb_runs::lengths::LengthRange;

/// A set of lengths, in bytes, with at least one length.
#[derive(Clone, Copy, Debug, PartialEq, Eq)]
pub struct Spread {
    pub least: u32,
    pub greatest: u32,
    pub count: u32,
}

impl Spread {
    /// The lengths from `from` up to, but without, `until`.
    pub fn of(from: u32, until: u32) -> Spread {
        Spread {
            least: from,
            greatest: until.saturating_sub(1),
            count: until.saturating_sub(from),
        }
    }

    /// These lengths together with further lengths, which are all greater.
    pub fn with(self, longer: Spread) -> Spread {
        Spread {
            least: self.least,
            greatest: longer.greatest,
            count: self.count.saturating_add(longer.count),
        }
    }

    /// Whether the set has all lengths between its least and its greatest length.
    pub fn is_whole(self) -> bool {
        self.count == Spread::of(self.least, self.greatest.saturating_add(1)).count
    }
}

/// The least and the greatest length, and how many lengths there are, if some lengths between these two are missing.
impl Display for Spread {
    fn fmt<W: Write>(&self, f: &mut Formatter<W>) -> fmt::Result {
        let Spread {
            least,
            greatest,
            count,
        } = *self;
        if greatest == CEILING && self.is_whole() {
            return write!(f, "{least} bytes or more");
        }
        if greatest == least {
            return write!(f, "{least} bytes");
        }
        write!(f, "{least} to {greatest} bytes")?;
        if self.is_whole() {
            return Ok(());
        }
        write!(f, ", {count} of these lengths")
    }
}

/// The lengths of a table's range, by its index.
pub fn lengths_of(ranges: &[LengthRange], index: usize) -> Option<Spread> {
    let range = ranges.get(index)?;
    let until = match ranges.get(index.saturating_add(1)) {
        Some(next) => next.from,
        None => CEILING + 1,
    };
    Some(Spread::of(range.from, until))
}
