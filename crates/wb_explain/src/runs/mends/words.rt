//! What is said about a change of a script that was tried.

use crate::runs::explanation::Explanation;
use crate::runs::mends::code_words::put_null_mend;
use crate::runs::mends::edits::Mend;
use crate::runs::mends::item_words::put_item_mend;
use crate::runs::mends::line_changes::LineChange;
use crate::runs::mends::line_words::{put_line_change, says_cause_of_line};
use crate::runs::mends::value_words::put_value_mend;
use crate::runs::script_page::ScriptPage;
use std::alloc::{AllocError, Global};
use wb_history::ScriptLines;

/// What a script that was changed does. In each case, its run without failure prints what it printed before, and is fine, and its run under
/// the failures of the run that was found is fine.
#[derive(Clone, Copy, Debug, PartialEq, Eq)]
pub enum Tried {
    /// No single attempt whose failure leaks or panics is left.
    Whole,
    /// Some other attempt's failure leaks or panics.
    ThisFailure,
}

/// Returns whether what is said about a change also says how it came to what was found.
pub fn says_cause(mend: Mend<'_>) -> bool {
    match mend {
        Mend::Lines(change) => says_cause_of_line(change),
        Mend::Item { .. }
        | Mend::CodeLookedAt { .. }
        | Mend::FreedFirst { .. }
        | Mend::FreedAtReturn { .. } => true,
        _ => false,
    }
}

/// Returns whether other advice stays beside a change, since the change gives up what the script does where an attempt fails.
pub fn is_one_of_several(mend: Mend<'_>) -> bool {
    match mend {
        Mend::Lines(LineChange::AsksLeaving { .. }) => true,
        _ => false,
    }
}

/// Returns what is said about a change that was tried; `has_many` says whether more than one attempt was to fail in the run that was found.
/// The only error is that memory ran out.
pub fn mend_found(
    alloc: Global,
    lines: &ScriptLines<'_>,
    mend: Mend<'_>,
    tried: Tried,
    has_many: bool,
) -> Result<Explanation, AllocError> {
    let mut page = ScriptPage::new(alloc, lines);
    page.page.begin_help();
    put_mend(&mut page, mend);
    page.page.write_text(match tried {
        Tried::Whole if has_many => {
            " (tried: then neither these failures nor any single one leaks or panics)"
        }
        Tried::Whole => " (tried: then no single failure leaks or panics)",
        Tried::ThisFailure if has_many => { " (tried: then these failures neither leak nor panic)" }
        Tried::ThisFailure => " (tried: then this failure neither leaks nor panics)",
    });
    page.page.end_line();
    page.whole()
}

fn put_mend(page: &mut ScriptPage<'_>, mend: Mend<'_>) {
    match mend {
        Mend::Later {
            line,
            failed,
            has_left,
            after,
        } => put_later(page, line, failed, has_left, after),
        Mend::Earlier { line, failed } => {
            page.page
                .write(format_args!("line {line} hadn't come when "));
            put_left(page, failed);
            page.page.write_text(": let it come before that");
        }
        Mend::Again { line, before } => {
            let (name, words) = (page.word(line, 1), page.line(line));
            page.page.write(format_args!(
                "`{name}` got its value at line {line}, before its cell moved: let it get its value again before line {before}, with `{words}`"
            ));
        }
        Mend::AfterFreed { line, freed, after } => {
            let name = page.word(line, 1);
            page.page.write(format_args!(
                "`{name}` got its value at line {line}, before line {freed} freed its cell: let line {line} come right after line {after}"
            ));
        }
        Mend::CodeLookedAt {
            trap,
            end,
            again,
            name,
        } => put_look(page, trap, end, again, name),
        _ => put_more(page, mend),
    }
}

/// Writes about a change of items, or about one of what pointers name.
fn put_more(page: &mut ScriptPage<'_>, mend: Mend<'_>) {
    match mend {
        Mend::Lines(change) => put_line_change(page, change),
        Mend::Item { .. }
        | Mend::WithoutItem { .. }
        | Mend::Pop { .. }
        | Mend::NullItem { .. }
        | Mend::OneItemLess { .. }
        | Mend::PopLater { .. }
        | Mend::PopEarlier { .. }
        | Mend::PushedBefore { .. }
        | Mend::PushedOnce { .. }
        | Mend::Needless { .. }
        | Mend::LeftOut { .. } => put_item_mend(page, mend),
        Mend::Leaving { .. } | Mend::NullLeaves { .. } | Mend::Checked { .. } => {
            put_null_mend(page, mend);
        }
        _ => put_value_mend(page, mend),
    }
}

fn put_look(page: &mut ScriptPage<'_>, trap: u32, end: u32, again: u32, name: &str) {
    page.page.write(format_args!("line {trap} caught a leave, and no line looks at `{name}`"));
    if again != 0 {
        page.page.write(format_args!(" before line {again} gives it another value"));
    }
    page.page.write(format_args!(": put `leaveiferror {name}` after line {end}"));
}

fn put_later(page: &mut ScriptPage<'_>, line: u32, failed: u32, has_left: bool, after: u32) {
    page.page
        .write(format_args!("line {line} was done before "));
    if has_left {
        put_left(page, failed);
    } else {
        page.page.write(format_args!("line {failed} failed"));
    }
    page.page
        .write(format_args!(": let it come right after line {after}"));
}

/// Writes which statement a leave ended, or which TRAP caught the leave, by its first line.
pub fn put_left(page: &mut ScriptPage<'_>, line: u32) {
    let word = page.word(line, 0);
    match word {
        "if" | "repeat" => page
            .page
            .write(format_args!("the `{word}` of line {line} left")),
        "trap" => page
            .page
            .write(format_args!("the TRAP of line {line} caught a leave")),
        _ => page.page.write(format_args!("line {line} left")),
    }
}
