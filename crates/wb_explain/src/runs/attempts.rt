//! What is said about attempts that a run's rule makes fail: which of them failed, and where the run went on.

use crate::runs::rates::{put_first, put_rate};
use crate::runs::script_page::{ScriptPage, Written};
use crate::runs::sets::{put_by_rule, put_set};
use wb_heap_model::heap::Rule;
use wb_history::WatchedRun;

/// Says which lines made the attempts that failed because of the rule. Also says where the run went on after each of these attempts,
/// except if the run went on at the line of its panic.
pub fn put_refused(page: &mut ScriptPage<'_>, rule: &Rule, run: &WatchedRun<'_>) -> Written {
    match rule {
        Rule::Unlimited | Rule::Number(0) | Rule::Every(0) | Rule::From(0) => Ok(()),
        Rule::Number(number) => put_set(page, &[*number], run),
        Rule::Every(rate) => put_every(page, *rate, run),
        Rule::From(first) => put_from(page, *first, run),
        Rule::Pair(first, second) => put_set(page, &[*first, *second], run),
        Rule::Set(numbers) => put_set(page, numbers.as_slice(), run),
        Rule::Limit(limit) => put_limit(page, *limit, run),
    }
}

/// Says how many attempts failed under a rate, and shows these attempts.
fn put_every(page: &mut ScriptPage<'_>, rate: u32, run: &WatchedRun<'_>) -> Written {
    put_rate(page, rate, &run.history.attempts);
    put_by_rule(page, run)
}

/// Says how many attempts failed if attempt `first` and each later attempt were to fail, and shows these attempts.
fn put_from(page: &mut ScriptPage<'_>, first: u32, run: &WatchedRun<'_>) -> Written {
    put_first(page, first, &run.history.attempts);
    put_by_rule(page, run)
}

fn put_limit(page: &mut ScriptPage<'_>, limit: u32, run: &WatchedRun<'_>) -> Written {
    if run.history.attempts.first_refused().is_some() {
        return put_by_rule(page, run);
    }
    page.page.write_file_message(format_args!(
        "a heap of {limit} bytes refuses nothing in this run"
    ));
    Ok(())
}
