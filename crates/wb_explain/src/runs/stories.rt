//! Stories of heaps in which runs leak or panic. A story says which line's attempt is refused first, and how the run ends. All lengths
//! with the same story are listed together.

use crate::runs::refusals::{Refusals, Refused};
use crate::runs::script_page::Written;
use crate::runs::spread::{Spread, lengths_of};
use std::alloc::{AllocError, Global};
use wb_runs::lengths::LengthRange;
use wb_runs::run_end::RunEnd;

/// The most stories that are listed.
const MOST_STORIES: usize = 20;

/// Lengths of heaps in which runs end alike, and in which an attempt of the same line is refused first.
#[derive(Clone, Copy, Debug, PartialEq, Eq)]
pub struct Story {
    pub spread: Spread,
    pub end: RunEnd,
    /// The attempt that the shortest of these heaps refuses first; `None` if this heap refuses nothing.
    pub refused: Option<Refused>,
    /// Whether all of these heaps refuse this same attempt first.
    pub refuses_one: bool,
}

impl Story {
    /// Whether another story is the same, except for its lengths and the attempt's number.
    fn is_told_as(&self, other: &Story) -> bool {
        self.end == other.end && line_of(self.refused) == line_of(other.refused)
    }

    /// Adds the lengths of another story that is the same as this story.
    fn take_in(&mut self, other: &Story) {
        self.spread = self.spread.with(other.spread);
        self.refuses_one = self.refuses_one && self.refused == other.refused;
    }
}

fn line_of(refused: Option<Refused>) -> Option<u32> {
    refused.map(|it| it.line)
}

/// The stories of a table, in order of each story's least length.
#[derive(Drop)]
pub struct Stories {
    pub told: Vec<Story>,
    /// How many ranges have a story that isn't listed.
    pub more: usize,
}

impl Stories {
    /// Adds a story, and returns whether this story is listed.
    fn add(&mut self, story: Story) -> Result<bool, AllocError> {
        for told in self.told.as_mut_slice() {
            if told.is_told_as(&story) {
                told.take_in(&story);
                return Ok(true);
            }
        }
        if self.told.len() >= MOST_STORIES {
            return Ok(false);
        }
        self.told.push(story)?;
        Ok(true)
    }
}

/// The stories of a table of all lengths. The caller passes `refusals` with no attempt passed yet.
pub fn stories_of(
    alloc: Global,
    refusals: &mut Refusals<'_>,
    ranges: &[LengthRange],
) -> Result<Stories, AllocError> {
    let mut stories = Stories {
        told: Vec::new(alloc),
        more: 0,
    };
    for index in 0..ranges.len() {
        if let (Some(range), Some(spread)) = (ranges.get(index), lengths_of(ranges, index))
            && range.end.is_bad()
        {
            add_range(&mut stories, refusals, spread, range.end)?;
        }
    }
    Ok(stories)
}

/// Adds the stories of a range, part by part. All heaps of one part refuse the same attempt first.
fn add_range(
    stories: &mut Stories,
    refusals: &mut Refusals<'_>,
    spread: Spread,
    end: RunEnd,
) -> Written {
    let mut from = spread.least;
    let mut is_told = true;
    for _ in 0..spread.count {
        if from > spread.greatest {
            break;
        }
        refusals.go_past(from);
        let until = refusals.until.min(spread.greatest.saturating_add(1));
        let story = Story {
            spread: Spread::of(from, until),
            end,
            refused: refusals.first,
            refuses_one: true,
        };
        is_told = stories.add(story)? && is_told;
        from = until;
    }
    if !is_told {
        stories.more = stories.more.saturating_add(1);
    }
    Ok(())
}
