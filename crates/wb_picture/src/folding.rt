//! Which places are drawn shorter: the longest stretches in which nothing begins or ends. Stretches are drawn shorter only if some of the
//! other places would be too low to be seen without this.

use crate::places::{Fold, MOST_FOLDS, Places};
use std::alloc::{AllocError, Global};

/// Into how many parts the places are divided.
const PARTS: u32 = 256;

/// A stretch with less than 1/`LOW` of all places is too low to be seen.
const LOW: u32 = 60;

/// Enough is folded if at most 1/`LITTLE` of all places remain unfolded.
const LITTLE: u32 = 4;

/// The least and the greatest edge in one part of the places; an edge is a place at which something begins or ends. If the part has no
/// edge, `least` is greater than `greatest`.
#[derive(Clone, Copy)]
struct PartEdges {
    least: u32,
    greatest: u32,
}

/// The places at which something begins or ends, called edges. The places are divided into parts, and only the least and the greatest edge
/// of each part are kept.
#[derive(Drop)]
pub struct Edges {
    /// The greatest place that may be an edge, and the greatest edge so far.
    last: u32,
    highest: u32,
    /// How many places each part has, at least 1.
    width: u32,
    parts: Vec<PartEdges>,
}

/// A stretch of places in which nothing begins or ends. Gaps are ordered by their lengths first.
#[derive(Clone, Copy, PartialEq, Eq, PartialOrd, Ord)]
struct Gap {
    length: u32,
    from: u32,
}

impl Edges {
    /// Begins without edges. Only places up to `last` may become edges.
    pub fn up_to(alloc: Global, last: u32) -> Result<Edges, AllocError> {
        let none = PartEdges {
            least: u32::MAX,
            greatest: 0,
        };
        Ok(Edges {
            last,
            highest: 0,
            width: (last / PARTS).saturating_add(1),
            parts: vec![in alloc; none; PARTS as usize]?,
        })
    }

    /// Adds an edge, unless the edge is past the last place.
    #[inline(always)]
    pub fn add(&mut self, place: u32) {
        if place > self.last {
            return;
        }
        self.highest = self.highest.max(place);
        let at = place.checked_div(self.width).unwrap_or(0) as usize;
        if let Some(part) = self.parts.get_mut(at) {
            part.least = part.least.min(place);
            part.greatest = part.greatest.max(place);
        }
    }

    /// Returns `places`, with the longest gaps folded if something would be too low to be seen without folds.
    pub fn fold(&self, alloc: Global, places: Places) -> Result<Places, AllocError> {
        let mut gaps = self.gaps(alloc)?;
        gaps.sort_unstable();
        let count = self.count_to_fold(gaps.as_slice());
        if count == 0 {
            return Ok(places);
        }
        let mut longest = Vec::new(alloc);
        for _ in 0..count {
            if let Some(gap) = gaps.pop() {
                longest.push(gap)?;
            }
        }
        Ok(places.with_folds(folds_of(longest.as_slice(), self.highest)))
    }

    /// The gaps between edges in different parts of the places. Gaps inside one part are shorter, and are left out.
    fn gaps(&self, alloc: Global) -> Result<Vec<Gap>, AllocError> {
        let mut gaps = Vec::new(alloc);
        let mut from = 0u32;
        for part in self.parts.as_slice() {
            if part.least <= part.greatest {
                let length = part.least.saturating_sub(from);
                gaps.push(Gap { length, from })?;
                from = part.greatest;
            }
        }
        Ok(gaps)
    }

    /// How many of the longest gaps are to be folded: the fewest gaps whose folding leaves few enough places. The number is 0 if nothing is
    /// too low to be seen, or if `MOST_FOLDS` folds aren't enough. `gaps` is sorted.
    fn count_to_fold(&self, gaps: &[Gap]) -> usize {
        if !self.has_low(gaps) {
            return 0;
        }
        let mut rest = self.highest;
        for count in 1..=MOST_FOLDS {
            rest = rest.saturating_sub(length_from_end(gaps, count));
            if rest.saturating_mul(LITTLE) <= self.highest {
                return count;
            }
        }
        0
    }

    /// Whether two edges are so near to each other that the stretch between them would be too low to be seen.
    fn has_low(&self, gaps: &[Gap]) -> bool {
        for part in self.parts.as_slice() {
            if part.least < part.greatest {
                return true;
            }
        }
        for gap in gaps {
            if gap.length > 0 {
                return gap.length.saturating_mul(LOW) < self.highest;
            }
        }
        false
    }
}

/// The length of the gap with the number `count`, counted from the end of the list; the last gap is number 1. The length is 0 if there is
/// no such gap.
fn length_from_end(gaps: &[Gap], count: usize) -> u32 {
    match gaps.get(gaps.len().wrapping_sub(count)) {
        Some(gap) => gap.length,
        None => 0,
    }
}

/// The folds of these gaps, at most three. The height of each fold is the number of unfolded places divided by one more than the number of
/// gaps.
fn folds_of(gaps: &[Gap], highest: u32) -> [Fold; MOST_FOLDS] {
    let mut rest = highest;
    let mut count = 1u32;
    for gap in gaps {
        rest = rest.saturating_sub(gap.length);
        count = count.saturating_add(1);
    }
    let drawn = rest.checked_div(count).unwrap_or(1).max(1);
    let first = lowest_after(gaps, None, drawn);
    let second = lowest_after(gaps, Some(first.from), drawn);
    [first, second, lowest_after(gaps, Some(second.from), drawn)]
}

/// The fold of the lowest gap. If `after` is given, only gaps that begin after this place count. If no gap counts, the fold is empty.
fn lowest_after(gaps: &[Gap], after: Option<u32>, drawn: u32) -> Fold {
    let mut lowest = Fold::empty();
    for gap in gaps {
        let is_after = match after {
            Some(after) => gap.from > after,
            None => true,
        };
        if is_after && gap.from < lowest.from {
            lowest = Fold {
                from: gap.from,
                until: gap.from.saturating_add(gap.length),
                drawn,
            };
        }
    }
    lowest
}
