//! What is said about the table of lengths: which line makes each attempt that a shorter heap refuses first.

use crate::runs::script_page::ScriptPage;
use wb_heap_model::size::Rise;
use wb_history::Attempts;

/// How many rows are shown at a table's beginning and at its end, if the table is too long to be shown whole.
const FIRST_ROWS: usize = 10;

const LAST_ROWS: usize = 5;

/// Says for each row of the table which line makes the row's attempt. `attempts` are the attempts of the run without a limit.
pub fn put_lengths(page: &mut ScriptPage<'_>, attempts: &Attempts<'_>, rises: &[Rise]) {
    page.page.write_file_text("what shorter heaps refuse first");
    let mut from = 0;
    let more = rises.len().saturating_sub(FIRST_ROWS + LAST_ROWS);
    for (index, rise) in rises.iter().enumerate() {
        if index == FIRST_ROWS && more > 0 {
            let s = if more == 1 { "" } else { "s" };
            page.page
                .write_row(format_args!("{more} more row{s}, and then"));
        }
        let is_shown = index < FIRST_ROWS || index >= FIRST_ROWS.saturating_add(more);
        if is_shown && let Some(made) = attempts.find(rise.number) {
            put_row(page, from, rise.number, made.maker.line);
        }
        from = rise.top;
    }
}

/// Writes the row of an attempt, with the line that made it; the line is 0 for the first attempt, which no line makes.
fn put_row(page: &mut ScriptPage<'_>, from: u32, attempt: u32, line: u32) {
    if line == 0 {
        page.page.write_row(format_args!(
            "from {from}: attempt {attempt}, the cell of the cleanup stack"
        ));
        return;
    }
    let shown = page.line(line);
    page.page.write_row(format_args!("from {from}: attempt {attempt}, line {line}: {shown}"));
}
