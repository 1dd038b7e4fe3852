//! What is said about attempts that the rule names one by one and makes fail.

use crate::runs::caught::put_caught;
use crate::runs::failures::{Next, next_after, put_failed, put_failed_here, put_next};
use crate::runs::number_lists::put_list;
use crate::runs::script_page::{ScriptPage, Written};
use wb_history::{AttemptMade, WatchedRun};
use wb_tree::script::Statement;

/// The most failed attempts that are shown with their lines.
const MOST_SHOWN: usize = 8;

/// Says which lines made the attempts with these numbers, and where the run went on after each attempt. Also says which of the attempts
/// the run never made. The numbers are in ascending order, and these attempts were to fail.
pub fn put_set(page: &mut ScriptPage<'_>, numbers: &[u32], run: &WatchedRun<'_>) -> Written {
    let count = made_among(numbers, run).min(numbers.len());
    let made = &numbers[..count];
    put_made(page, made, count, run)?;
    if count < numbers.len() {
        put_not_made(page, &numbers[count..], count > 0, run);
    }
    Ok(())
}

/// How many of the attempts with these numbers, which are in ascending order, the run made.
fn made_among(numbers: &[u32], run: &WatchedRun<'_>) -> usize {
    let last = run.history.attempts.count();
    let mut count: usize = 0;
    for number in numbers {
        if *number <= last {
            count = count.saturating_add(1);
        }
    }
    count
}

/// Says which lines made the attempts that failed because of the run's rule, and where the run went on after each attempt.
pub fn put_by_rule(page: &mut ScriptPage<'_>, run: &WatchedRun<'_>) -> Written {
    let attempts = &run.history.attempts;
    let mut numbers = [0; MOST_SHOWN];
    let mut count = 0;
    for made in attempts.kept_attempts() {
        if attempts.is_by_rule(made.attempt)
            && let Some(place) = numbers.get_mut(count)
        {
            *place = made.attempt.number;
            count = count.saturating_add(1);
        }
    }
    let (first, _) = numbers.split_at_checked(count).unwrap_or((&[], &[]));
    let all = attempts.failed_counts().by_rule as usize;
    put_made(page, first, all.max(count), run)
}

/// Shows the first of `count` failed attempts with their lines, and says how many more there are.
fn put_made(
    page: &mut ScriptPage<'_>,
    numbers: &[u32],
    count: usize,
    run: &WatchedRun<'_>,
) -> Written {
    let attempts = &run.history.attempts;
    let shown = &numbers[..numbers.len().min(MOST_SHOWN)];
    for (index, number) in shown.iter().enumerate() {
        let later = match shown.get(index + 1) {
            Some(later) => attempts.find(*later),
            None => None,
        };
        if let Some(made) = attempts.find(*number) {
            put_one(page, made, later, index > 0, run)?;
        }
    }
    match count.saturating_sub(shown.len()) {
        0 => {}
        1 => page.page.write_file_text("1 more attempt failed as well"),
        more => {
            page.page
                .write_file_message(format_args!("{more} more attempts failed as well"));
        }
    }
    Ok(())
}

/// Shows a failed attempt, and where the run went on. If a TRAP caught a leave before `later`, the next failed attempt, also shows this
/// TRAP. If the attempt was for the cell of the cleanup stack, the run makes no other attempt.
fn put_one(
    page: &mut ScriptPage<'_>,
    made: AttemptMade<'_>,
    later: Option<AttemptMade<'_>>,
    is_later: bool,
    run: &WatchedRun<'_>,
) -> Written {
    if made.maker.line == 0 {
        return put_failed(page, made, run);
    }
    put_failed_here(page, made.attempt, made.maker.line, also_of(made, is_later))?;
    let until = match later {
        Some(later) => later.step,
        None => u32::MAX,
    };
    match run.history.traps.leave_between(made.step, until) {
        Some(leave) if leave.at.step == made.step => {
            put_caught(page, leave)?;
            put_next_before(page, made, later, run)
        }
        Some(leave) => {
            put_next_before(page, made, later, run)?;
            put_caught(page, leave)
        }
        None => put_next_before(page, made, later, run),
    }
}

/// What else is said about a failed attempt: that it isn't the first, or that the item of a `push` was already on the cleanup stack.
fn also_of(made: AttemptMade<'_>, is_later: bool) -> &'static str {
    match made.maker.statement {
        Some(Statement::Push(_) | Statement::PushObject(_) | Statement::PushOperation(..)) => {
            ", when its item was on the cleanup stack already"
        }
        _ if is_later => " as well",
        _ => "",
    }
}

/// Shows where the run went on after a failed attempt, unless the same line is named for `later`, the next failed attempt.
fn put_next_before(
    page: &mut ScriptPage<'_>,
    made: AttemptMade<'_>,
    later: Option<AttemptMade<'_>>,
    run: &WatchedRun<'_>,
) -> Written {
    let next = next_after(made.maker, run);
    match later {
        Some(later) => {
            let later_next = next_after(later.maker, run);
            if names_new_line(next, later.maker.line, later_next) {
                put_next(page, next)?;
            }
            Ok(())
        }
        None => put_next(page, next),
    }
}

/// Whether the run went on after a failure with a line that isn't shown later. The lines shown later are the line of the next failed
/// attempt, and the line with which the run went on after this attempt.
fn names_new_line(next: Next, later_line: u32, later_next: Next) -> bool {
    match next.line() {
        Some(line) => line != later_line && later_next.line() != Some(line),
        None => false,
    }
}

/// Says that the run never made the attempts with these numbers. `others_made` says whether the run made other attempts of the set.
fn put_not_made(
    page: &mut ScriptPage<'_>,
    numbers: &[u32],
    others_made: bool,
    run: &WatchedRun<'_>,
) {
    let (attempts, were) = match numbers.len() {
        1 => ("attempt ", "was"),
        _ => ("attempts ", "were"),
    };
    page.page.begin_file_message();
    page.page.write_text(attempts);
    put_list(page, numbers, numbers.len());
    let so = no_failure_of(numbers.len(), others_made);
    let made = run.history.attempts.count();
    page.page.write(format_args!(" {were} never made, so {so}: the run makes only {made}"));
    page.page.end_line();
}

/// What is concluded if `count` attempts of the set were never made.
fn no_failure_of(count: usize, others_made: bool) -> &'static str {
    match (count, others_made) {
        (1, true) => "it could not fail as well",
        (_, true) => "they could not fail as well",
        (2, false) => "neither failed",
        (_, false) => "none failed",
    }
}
