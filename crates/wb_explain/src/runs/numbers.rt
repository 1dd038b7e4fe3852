//! What is said about all that a sweep finds: at which lines a failed attempt leads to a leak or a panic. If the first failed attempts of
//! several numbers are on the same line, and their runs end alike, these numbers are listed together.

use crate::runs::end_words::EndInWords;
use crate::runs::number_lists::{MOST_NUMBERS, put_list};
use crate::runs::script_page::{ScriptPage, Written};
use std::alloc::{AllocError, Global};
use wb_history::Attempts;
use wb_runs::failures::Failures;
use wb_runs::number_ends::NumberEnd;
use wb_runs::run_end::RunEnd;

/// The most groups that are listed.
const MOST_GROUPS: usize = 20;

/// Numbers whose runs end alike, and whose first failed attempt is on the same line.
#[derive(Clone, Copy, Debug, PartialEq, Eq)]
struct Group {
    /// The line of the first failed attempt; 0 if no attempt fails.
    line: u32,
    end: RunEnd,
    /// The first numbers of the group, and how many numbers the group has in all.
    numbers: [u32; MOST_NUMBERS],
    count: usize,
}

impl Group {
    fn of(line: u32, told: NumberEnd) -> Group {
        Group {
            line,
            end: told.end,
            numbers: [told.number; MOST_NUMBERS],
            count: 1,
        }
    }

    fn add(&mut self, number: u32) {
        if let Some(place) = self.numbers.get_mut(self.count) {
            *place = number;
        }
        self.count = self.count.saturating_add(1);
    }
}

/// The groups that are listed, and how many numbers are in no group.
#[derive(Drop)]
struct Groups {
    told: Vec<Group>,
    more: usize,
}

impl Groups {
    fn add(&mut self, line: u32, told: NumberEnd) -> Written {
        for group in self.told.as_mut_slice() {
            if group.line == line && group.end == told.end {
                group.add(told.number);
                return Ok(());
            }
        }
        if self.told.len() < MOST_GROUPS {
            self.told.push(Group::of(line, told))?;
        } else {
            self.more = self.more.saturating_add(1);
        }
        Ok(())
    }
}

/// Returns the greatest number whose run leaks or panics; 0 if there is none.
pub fn last_bad(ends: &[NumberEnd]) -> u32 {
    let mut last = 0;
    for told in ends {
        if told.end.is_bad() {
            last = told.number.max(last);
        }
    }
    last
}

/// Says at which lines a failed attempt leads to a leak or a panic, group by group. `attempts` are the attempts of the run
/// without failure.
pub fn put_numbers(
    page: &mut ScriptPage<'_>,
    alloc: Global,
    attempts: &Attempts<'_>,
    failures: Failures,
    ends: &[NumberEnd],
) -> Written {
    let Groups { told, more } = groups_of(alloc, attempts, ends)?;
    if told.is_empty() {
        return Ok(());
    }
    page.page
        .write_file_text("where failed attempts lead to a leak or a panic");
    for group in told.as_slice() {
        put_group(page, failures, group);
    }
    if more > 0 {
        page.page.write_row(format_args!("and {more} more"));
    }
    Ok(())
}

/// The groups of the numbers whose runs leak or panic, in order of each group's least number.
fn groups_of(
    alloc: Global,
    attempts: &Attempts<'_>,
    ends: &[NumberEnd],
) -> Result<Groups, AllocError> {
    let mut groups = Groups {
        told: Vec::new(alloc),
        more: 0,
    };
    for told in ends {
        if told.end.is_bad() {
            groups.add(line_of(attempts, told.number), *told)?;
        }
    }
    Ok(groups)
}

/// The line of the attempt that fails first under a number or a rate; 0 if no attempt fails. Up to this attempt, the run is the same as the
/// run without failure.
fn line_of(attempts: &Attempts<'_>, number: u32) -> u32 {
    match attempts.find(number) {
        Some(made) => made.maker.line,
        None => 0,
    }
}

/// Writes the row of a group: its numbers, the line, and how the runs end.
fn put_group(page: &mut ScriptPage<'_>, failures: Failures, group: &Group) {
    let Group {
        line,
        end,
        count,
        ..
    } = *group;
    page.page.begin_row();
    if line == 0 {
        page.page.write_text("without failure");
    } else {
        put_group_numbers(page, failures, group);
        let each = if count == 1 { "" } else { "each at " };
        let shown = page.line(line);
        page.page
            .write(format_args!(", {each}line {line}: {shown}"));
    }
    page.page
        .write(format_args!("; the run {}", EndInWords(end)));
    page.page.end_line();
}

/// Writes the numbers of a group, for example `attempts 3, 7 and 11`; only the first numbers are written one by one.
fn put_group_numbers(page: &mut ScriptPage<'_>, failures: Failures, group: &Group) {
    let word = match failures {
        Failures::Single | Failures::Pairs => "attempt",
        Failures::Every => "rate",
        Failures::Persistent => "first attempt",
    };
    let s = if group.count == 1 { " " } else { "s " };
    page.page.write(format_args!("{word}{s}"));
    put_list(page, &group.numbers, group.count);
}
