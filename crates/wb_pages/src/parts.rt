//! The parts of a page: its messages, and the rows, notes and helps below them. Outputs other than the page's text, such as a SARIF log,
//! are made from these parts.

use crate::spots::Span;

/// The kind of a part of a page.
#[derive(Clone, Copy, Debug, PartialEq, Eq)]
pub enum PartKind {
    /// A message about a line of the file.
    OfLine,
    /// A message about the whole file.
    OfFile,
    /// A row of a table, below a message.
    Row,
    /// A line that says what else there is to know.
    Note,
    /// A line that says what to do.
    Help,
}

/// A part of a page: its kind, and the place in the page's text at which the part's words begin.
#[derive(Clone, Copy)]
pub struct Part {
    pub kind: PartKind,
    /// The number of the script's line that a message is about; 0 if the part is about no line.
    pub line: usize,
    /// The piece of the script's line that is shown with carets, in columns of the line without the blanks around it; `None` if no line is
    /// shown.
    pub span: Option<Span>,
    /// The index of the first byte of the part's own words in the page's text.
    pub from: usize,
}

impl Part {
    /// Returns the part's own words from the page's text: from the index `from` up to the end of that line of text.
    pub fn words<'a>(&self, text: &'a str) -> &'a str {
        match text.split_at_checked(self.from) {
            Some((_, rest)) => rest.lines().next().unwrap_or(""),
            None => "",
        }
    }
}
