//! Messages about lines of the script other than the one with the fault.

use crate::lines::Line;
use crate::spaces::line_of_local;
use wb_lines::words::before_first;
use wb_pages::{Page, Span};

/// Writes a message about another line of the script, and shows that line with its first word marked.
pub fn mark_line(page: &mut Page, lines: &[Line], index: usize, text: &str) {
    if let Some(line) = lines.get(index) {
        page.mark(line.spot(0), text);
    }
}

/// The part of a line that declares a name: a word after the first word, or only the name of a parameter. If the line doesn't declare the
/// name, the result is the whole line.
fn span_of(line: &Line, name: &[u8]) -> Span {
    for word in &line.words {
        if word.column > 0 && before_first(b':', word.text) == name {
            return Span {
                column: word.column,
                length: name.len(),
            };
        }
    }
    line.span()
}

/// Writes a message about another line of the script, and shows that line with carets under the name that it declares.
pub fn mark_name(page: &mut Page, lines: &[Line], index: usize, name: &[u8], text: &str) {
    if let Some(line) = lines.get(index) {
        page.mark(line.spot_of(span_of(line, name), &[]), text);
    }
}

/// Says where the local with this name is declared, if there is such a local.
pub fn mark_declaration(page: &mut Page, lines: &[Line], index: usize, name: &[u8]) {
    if let Some(local) = line_of_local(lines, index, name) {
        mark_name(page, lines, local, name, "declared here");
    }
}
