//! A line that may leave, in a body that must not leave.

use crate::further_lines::mark_line;
use crate::lines::Line;
use crate::spaces::body_of;
use wb_lines::line_kinds::{is_quiet, line_kinds, role_of, text_of};
use wb_pages::{Page, Shown};
use wb_tree::script_lines::{LineKind, Role};

/// Whether a message lists this line kind among the line kinds that are allowed in every body. `else` and `end` aren't listed, because they
/// belong to the first line of their block.
fn is_listed(line_kind: LineKind) -> bool {
    is_quiet(line_kind) && !matches!(role_of(line_kind), Role::Else | Role::End)
}

/// Writes the first words of the line kinds that are listed. Each word is written once, with `and` before the last word. Line kinds with
/// the same first word are neighbours in the table.
fn write_allowed_words(page: &mut Page) {
    let mut before = "`";
    let mut word: &[u8] = b"";
    for line_kind in line_kinds() {
        let next = text_of(*line_kind);
        if is_listed(*line_kind) && next != word {
            if !word.is_empty() {
                page.write(format_args!("{before}{}`", Shown::word(word)));
                before = ", `";
            }
            word = next;
        }
    }
    page.write(format_args!(" and `{}`", Shown::word(word)));
}

/// Says which line may leave, and in what body the line is.
pub fn explain_may_leave(page: &mut Page, lines: &[Line], index: usize) {
    let Some(line) = lines.get(index) else {
        return;
    };
    page.mark(
        line.spot(0),
        format_args!(
            "`{}` is not allowed in a body that must not leave",
            line.shown_word(0)
        ),
    );
    mark_line(
        page,
        lines,
        body_of(lines, index),
        "the body begins here: destructors and operations must not leave",
    );
    page.begin_help();
    page.write_text("allowed here are ");
    write_allowed_words(page);
    page.end_line();
}
