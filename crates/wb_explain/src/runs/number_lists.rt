//! How the numbers of attempts are written as a list, such as `3, 7 and 11`.

use crate::runs::script_page::ScriptPage;

/// The most numbers that are written one by one.
pub const MOST_NUMBERS: usize = 4;

/// Writes the first of `count` numbers one by one, and then how many more there are.
pub fn put_list(page: &mut ScriptPage<'_>, numbers: &[u32], count: usize) {
    let more = count.saturating_sub(MOST_NUMBERS);
    let shown = count.min(MOST_NUMBERS);
    for (index, told) in numbers.iter().enumerate() {
        if index < shown {
            let joint = joint(index, more == 0 && index + 1 == shown);
            page.page.write(format_args!("{joint}{told}"));
        }
    }
    if more > 0 {
        page.page.write(format_args!(" and {more} more"));
    }
}

/// The text before a number in a list.
pub fn joint(index: usize, is_last: bool) -> &'static str {
    match (index, is_last) {
        (0, _) => "",
        (_, true) => " and ",
        (_, false) => ", ",
    }
}
