//! What is said about a rate at which attempts fail, and about an attempt that fails together with all later attempts.

use crate::runs::script_page::ScriptPage;
use wb_history::{Attempts, FailedCounts};

/// Says how many attempts failed, and which attempt failed first, if each attempt whose number is a multiple of the rate was to fail.
pub fn put_rate(page: &mut ScriptPage<'_>, rate: u32, attempts: &Attempts<'_>) {
    if rate == 1 {
        page.page
            .write_file_text("every attempt fails, so the run makes only one");
        return;
    }
    let (made, th) = (attempts.count(), ending_of(rate));
    let FailedCounts { by_rule, by_script } = attempts.failed_counts();
    if by_rule == 0 {
        page.page.write_file_message(format_args!(
            "every {rate}{th} attempt was to fail, but the run makes only {made}"
        ));
        return;
    }
    page.page.begin_file_message();
    page.page.write(format_args!(
        "every {rate}{th} attempt was to fail: of the run's {made} attempts {by_rule} did, attempt {rate} first"
    ));
    put_by_script(page, by_script);
    page.page.end_line();
}

/// Says how many attempts failed, if attempt `first` and each later attempt were to fail.
pub fn put_first(page: &mut ScriptPage<'_>, first: u32, attempts: &Attempts<'_>) {
    let made = attempts.count();
    let FailedCounts { by_rule, by_script } = attempts.failed_counts();
    if by_rule == 0 {
        page.page.write_file_message(format_args!(
            "attempt {first} and each later one was to fail, but the run makes only {made}"
        ));
        return;
    }
    page.page.begin_file_message();
    page.page.write(format_args!(
        "attempt {first} and each later one was to fail: of the run's {made} attempts {by_rule} did"
    ));
    put_by_script(page, by_script);
    page.page.end_line();
}

/// Says how many more attempts failed only by the script's own setting, if there are such attempts.
fn put_by_script(page: &mut ScriptPage<'_>, by_script: u32) {
    if by_script != 0 {
        page.page.write(format_args!(
            ", and {by_script} more failed by the script's own setting only"
        ));
    }
}

/// The letters after an ordinal number: 1st, 2nd, 3rd, 4th, and so on, but 11th, 12th and 13th.
fn ending_of(number: u32) -> &'static str {
    match (number % 100, number % 10) {
        (11 | 12 | 13, _) => "th",
        (_, 1) => "st",
        (_, 2) => "nd",
        (_, 3) => "rd",
        _ => "th",
    }
}
