//! What is said about a table of how a script's runs end in heaps of every length: which line's attempt is refused first if a run leaks
//! or panics, and in which heaps runs are cut.

use crate::runs::counts::Many;
use crate::runs::cuts::put_budget_help;
use crate::runs::end_words::EndInWords;
use crate::runs::refusals::{Refusals, Refused};
use crate::runs::script_page::{ScriptPage, Written};
use crate::runs::spread::{Spread, lengths_of};
use crate::runs::stories::{Stories, Story, stories_of};
use std::alloc::Global;
use wb_history::Attempts;
use wb_runs::lengths::LengthRange;

/// Returns the greatest length of a heap in which the run leaks or panics, in bytes; `None` if there is none.
pub fn greatest_bad(ranges: &[LengthRange]) -> Option<u32> {
    let mut greatest = None;
    for index in 0..ranges.len() {
        if let (Some(range), Some(spread)) = (ranges.get(index), lengths_of(ranges, index))
            && range.end.is_bad()
        {
            greatest = Some(spread.greatest);
        }
    }
    greatest
}

/// Says what runs in heaps of these lengths show. `attempts` are the attempts in the longest heap; `None` if no run leaks or panics.
pub fn put_heaps(
    page: &mut ScriptPage<'_>,
    alloc: Global,
    attempts: Option<&Attempts<'_>>,
    budget: u32,
    ranges: &[LengthRange],
) -> Written {
    if let Some(attempts) = attempts {
        let mut refusals = Refusals::new(attempts.kept_attempts());
        put_stories(page, alloc, &mut refusals, ranges)?;
    }
    put_cut_heaps(page, budget, ranges);
    Ok(())
}

/// Writes the stories of these lengths, row by row, and how many more ranges have stories that are left out.
fn put_stories(
    page: &mut ScriptPage<'_>,
    alloc: Global,
    refusals: &mut Refusals<'_>,
    ranges: &[LengthRange],
) -> Written {
    let Stories { told, more } = stories_of(alloc, refusals, ranges)?;
    page.page.write_file_text(
        "heaps in which this script leaks or panics, and what they refuse first",
    );
    for story in told.as_slice() {
        put_story(page, story);
    }
    if more > 0 {
        let s = if more == 1 { "" } else { "s" };
        page.page
            .write_row(format_args!("and {more} more range{s}"));
    }
    Ok(())
}

/// Writes the row of a story: its lengths, how the runs end, and which line's attempt is refused first. Adds the attempt's number if
/// it is the same for all lengths of the story.
fn put_story(page: &mut ScriptPage<'_>, story: &Story) {
    let (spread, end) = (story.spread, EndInWords(story.end));
    page.page.begin_row();
    page.page.write(format_args!("{spread}, {end}: "));
    match story.refused {
        Some(Refused { number, line }) => {
            if story.refuses_one {
                page.page.write(format_args!("attempt {number}, "));
            }
            let shown = page.line(line);
            page.page.write(format_args!("line {line}: {shown}"));
        }
        None => page.page.write_text("nothing is refused"),
    }
    page.page.end_line();
}

/// Says for which lengths of heaps the runs are cut, if there are such lengths.
fn put_cut_heaps(page: &mut ScriptPage<'_>, budget: u32, ranges: &[LengthRange]) {
    let Some(spread) = cut_lengths(ranges) else {
        return;
    };
    let comma = if spread.is_whole() { "" } else { "," };
    let steps = Many(i64::from(budget), "step");
    page.page.write_file_message(format_args!(
        "in a heap of {spread}{comma} the run is cut: it takes {steps}, its whole budget"
    ));
    put_budget_help(page, budget, "there");
}

/// The lengths of the heaps whose runs are cut; `None` if no run is cut. Only the budget can cut runs: no limit is past the ceiling.
fn cut_lengths(ranges: &[LengthRange]) -> Option<Spread> {
    let mut cut: Option<Spread> = None;
    for index in 0..ranges.len() {
        if let (Some(range), Some(spread)) = (ranges.get(index), lengths_of(ranges, index))
            && range.end.is_cut()
        {
            cut = Some(match cut {
                Some(shorter) => shorter.with(spread),
                None => spread,
            });
        }
    }
    cut
}
