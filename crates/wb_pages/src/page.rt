//! The text of an explanation as it is written, line by line. Callers write the messages' words, and pass them as formats
//! (`format_args!(..)`) or as plain texts.

ghost use Rattle.std.specs.Prelude.{◌≡◌, ◌++◌, [], ◌∷◌, codes, false, true, string_bytes, IfOk, IsErr};
ghost use Rattle.std.specs.Char.{encode_utf8};
ghost use Rattle.std.specs.Fmt.{decimal};

use crate::parts::{Part, PartKind};
use crate::shown::{ELLIPSIS, MOST_COLUMNS, Visible};
use crate::spots::{Span, Spot};
use std::alloc::{AllocError, Global};
use std::fmt::{Display, Write};

/// How many columns are shown before the part with carets, if the line is too long to be shown whole.
const COLUMNS_BEFORE: usize = 40;

/// The blanks before a line of the script that a message shows.
const INDENT: &str = "    ";

/// The part of a file's explanation that is written so far. If memory runs out, the rest of the explanation is left out and `is_cut` is
/// true.
#[derive(Drop)]
pub struct Page<'f> {
    file: &'f str,
    text: String,
    parts: Vec<Part>,
    is_cut: bool,
}

impl<'f> Page<'f> {
    /// An empty page about a file with this name.
    pub fn new(alloc: Global, file: &'f str) -> Page<'f>
        ensures whole { result.is_cut ≡ false }
    {
        Page {
            file,
            text: String::new(alloc),
            parts: Vec::new(alloc),
            is_cut: false,
        }
    }

    /// Returns the text that was written. The only error is that memory ran out.
    pub fn whole_text(self) -> Result<String, AllocError>
        ensures whole { IfOk result (λ text. text ≡ self.entry.text) }
        ensures cut { self.entry.is_cut ≡ true → IsErr result }
    {
        if self.is_cut {
            Err(AllocError)
        } else {
            Ok(self.text)
        }
    }

    /// Returns the text that was written, and its parts. The only error is that memory ran out.
    pub fn whole_parts(self) -> Result<(String, Vec<Part>), AllocError> {
        if self.is_cut {
            return Err(AllocError);
        }
        Ok((self.text, self.parts))
    }

    /// Returns how many parts were begun.
    pub fn part_count(&self) -> usize {
        self.parts.len()
    }

    /// Returns the number of the script's line that the part with this index is about; 0 if the part is about no line. Returns `None` if
    /// there is no such part.
    pub fn line_of_part(&self, index: usize) -> Option<usize> {
        match self.parts.get(index) {
            Some(part) => Some(part.line),
            None => None,
        }
    }

    /// Begins a part; the caller writes its words next. `line` is the number of the script's line that the part is about, or 0 if the part
    /// is about no line.
    fn begin_part(&mut self, kind: PartKind, line: usize)
        ensures before { self.new.is_cut ≡ false → self.old.is_cut ≡ false }
        ensures text { self.new.is_cut ≡ false → string_bytes self.new.text
            ≡ string_bytes self.old.text }
        ensures file { self.new.file ≡ self.old.file }
    {
        if !self.is_cut {
            let part = Part {
                kind,
                line,
                span: None,
                from: self.text.len(),
            };
            self.is_cut = self.parts.push(part).is_err();
        }
    }

    fn add_text(&mut self, text: &str)
        ensures before { self.new.is_cut ≡ false → self.old.is_cut ≡ false }
        ensures text { self.new.is_cut ≡ false → string_bytes self.new.text
            ≡ string_bytes self.old.text ++ text.now }
        ensures file { self.new.file ≡ self.old.file }
    {
        if !self.is_cut {
            self.is_cut = self.text.push_str(text).is_err();
        }
    }

    fn add_char(&mut self, char: char)
        ensures before { self.new.is_cut ≡ false → self.old.is_cut ≡ false }
        ensures text { self.new.is_cut ≡ false → string_bytes self.new.text
            ≡ string_bytes self.old.text ++ encode_utf8 char }
        ensures file { self.new.file ≡ self.old.file }
    {
        if !self.is_cut {
            self.is_cut = self.text.push(char).is_err();
        }
    }

    fn add_repeated(&mut self, char: char, count: usize) {
        for _ in 0..count {
            self.add_char(char);
        }
    }

    fn add_bytes(&mut self, bytes: &[u8]) {
        self.write(Visible(bytes));
    }

    fn add_number(&mut self, number: usize)
        ensures before { self.new.is_cut ≡ false → self.old.is_cut ≡ false }
        ensures text { self.new.is_cut ≡ false → string_bytes self.new.text
            ≡ string_bytes self.old.text ++ decimal number }
        ensures file { self.new.file ≡ self.old.file }
    {
        if !self.is_cut {
            self.is_cut = write!(self.text, "{number}").is_err();
        }
    }

    /// Writes a line of the script from column `from` on, at most `MOST_COLUMNS` columns of it; an ellipsis stands for what is cut off at the
    /// end. If `from` isn't 0, an ellipsis replaces the first columns that would be shown, so that all other columns stay in place.
    fn add_line(&mut self, line: &[u8], from: usize) {
        let (_, rest) = line.split_at_checked(from).unwrap_or((line, line));
        let (part, after) = rest.split_at_checked(MOST_COLUMNS).unwrap_or((rest, &[]));
        match part.split_at_checked(ELLIPSIS.len()) {
            Some((_, part)) if from > 0 => {
                self.add_text(ELLIPSIS);
                self.add_bytes(part);
            }
            _ => self.add_bytes(part),
        }
        if !after.is_empty() {
            self.add_text(ELLIPSIS);
        }
    }

    /// Writes a text, and doesn't end the line.
    pub fn write_text(&mut self, part: &str)
        ensures before { self.new.is_cut ≡ false → self.old.is_cut ≡ false }
        ensures text { self.new.is_cut ≡ false → string_bytes self.new.text
            ≡ string_bytes self.old.text ++ part.now }
        ensures file { self.new.file ≡ self.old.file }
    {
        self.add_text(part);
    }

    /// Writes a message, and doesn't end the line.
    pub fn write<D: Display + Drop>(&mut self, message: D) {
        if !self.is_cut {
            self.is_cut = write!(self.text, "{message}").is_err();
        }
    }

    /// Ends a line.
    pub fn end_line(&mut self)
        ensures before { self.new.is_cut ≡ false → self.old.is_cut ≡ false }
        ensures text { self.new.is_cut ≡ false → string_bytes self.new.text
            ≡ string_bytes self.old.text ++ 10 ∷ [] }
        ensures file { self.new.file ≡ self.old.file }
    {
        self.add_char('\n');
    }

    /// Begins a message about the whole file.
    pub fn begin_file_message(&mut self)
        ensures before { self.new.is_cut ≡ false → self.old.is_cut ≡ false }
        ensures text { self.new.is_cut ≡ false → string_bytes self.new.text
            ≡ (string_bytes self.old.text ++ self.old.file.now) ++ codes ": " }
        ensures file { self.new.file ≡ self.old.file }
    {
        self.write_text(self.file);
        self.add_text(": ");
        self.begin_part(PartKind::OfFile, 0);
    }

    /// Begins a message about the line of the file with this number.
    pub fn begin_message(&mut self, number: usize)
        ensures before { self.new.is_cut ≡ false → self.old.is_cut ≡ false }
        ensures text { self.new.is_cut ≡ false → string_bytes self.new.text
            ≡ (((string_bytes self.old.text ++ self.old.file.now) ++ codes ":")
            ++ decimal number) ++ codes ": " }
        ensures file { self.new.file ≡ self.old.file }
    {
        self.add_text(self.file);
        self.add_text(":");
        self.add_number(number);
        self.add_text(": ");
        self.begin_part(PartKind::OfLine, number);
    }

    /// Begins a line that says what to do.
    pub fn begin_help(&mut self)
        ensures before { self.new.is_cut ≡ false → self.old.is_cut ≡ false }
        ensures text { self.new.is_cut ≡ false → string_bytes self.new.text
            ≡ string_bytes self.old.text ++ codes "help: " }
        ensures file { self.new.file ≡ self.old.file }
    {
        self.add_text("help: ");
        self.begin_part(PartKind::Help, 0);
    }

    /// Begins a line that says what else there is to know.
    pub fn begin_note(&mut self)
        ensures before { self.new.is_cut ≡ false → self.old.is_cut ≡ false }
        ensures text { self.new.is_cut ≡ false → string_bytes self.new.text
            ≡ string_bytes self.old.text ++ codes "note: " }
        ensures file { self.new.file ≡ self.old.file }
    {
        self.add_text("note: ");
        self.begin_part(PartKind::Note, 0);
    }

    /// Writes a message about the whole file, given as one text.
    pub fn write_file_text(&mut self, message: &str)
        ensures before { self.new.is_cut ≡ false → self.old.is_cut ≡ false }
        ensures text { self.new.is_cut ≡ false → string_bytes self.new.text
            ≡ (((string_bytes self.old.text ++ self.old.file.now) ++ codes ": ")
            ++ message.now) ++ 10 ∷ [] }
        ensures file { self.new.file ≡ self.old.file }
    {
        self.begin_file_message();
        self.add_text(message);
        self.end_line();
    }

    /// Writes a message about the whole file.
    pub fn write_file_message<D: Display + Drop>(&mut self, message: D) {
        self.begin_file_message();
        self.write(message);
        self.end_line();
    }

    /// Writes a message about the line of the file with this number, without showing the line.
    pub fn write_message(&mut self, number: usize, text: &str)
        ensures before { self.new.is_cut ≡ false → self.old.is_cut ≡ false }
        ensures text { self.new.is_cut ≡ false → string_bytes self.new.text
            ≡ (((((string_bytes self.old.text ++ self.old.file.now) ++ codes ":")
            ++ decimal number) ++ codes ": ") ++ text.now) ++ 10 ∷ [] }
        ensures file { self.new.file ≡ self.old.file }
    {
        self.begin_message(number);
        self.add_text(text);
        self.end_line();
    }

    /// Writes a message about a part of the script, and shows that part's line, with carets under the part.
    pub fn mark<D: Display + Drop>(&mut self, spot: Spot, message: D) {
        self.begin_message(spot.number);
        self.write(message);
        self.end_line();
        self.show(spot);
    }

    /// Shows a line of the script, with carets under a part of it. A message must come before: `begin_message` began it and `end_line`
    /// ended it.
    pub fn show(&mut self, spot: Spot) {
        let from = if spot.text.len() <= MOST_COLUMNS {
            0
        } else {
            spot.span.column.saturating_sub(COLUMNS_BEFORE)
        };
        self.add_text(INDENT);
        self.add_line(spot.text, from);
        self.end_line();
        self.add_carets(spot.span, from);
        if let Some(part) = self.parts.last_mut() {
            part.span = Some(spot.span);
        }
    }

    /// Writes a line of carets under a part of the script's line above. The line above is shown from the column `from` on.
    fn add_carets(&mut self, span: Span, from: usize) {
        let column = span.column.saturating_sub(from);
        self.add_text(INDENT);
        self.add_repeated(' ', column.min(MOST_COLUMNS));
        self.add_repeated('^', span.length.clamp(1, MOST_COLUMNS - COLUMNS_BEFORE));
        self.end_line();
    }

    /// Begins a row of a table, below a message.
    pub fn begin_row(&mut self)
        ensures before { self.new.is_cut ≡ false → self.old.is_cut ≡ false }
        ensures text { self.new.is_cut ≡ false → string_bytes self.new.text
            ≡ string_bytes self.old.text ++ codes "    " }
        ensures file { self.new.file ≡ self.old.file }
    {
        self.write_text(INDENT);
        self.begin_part(PartKind::Row, 0);
    }

    /// Writes a row of a table, below a message.
    pub fn write_row<D: Display + Drop>(&mut self, message: D) {
        self.begin_row();
        self.write(message);
        self.end_line();
    }

    /// Writes what to do.
    pub fn write_help<D: Display + Drop>(&mut self, advice: D) {
        self.begin_help();
        self.write(advice);
        self.end_line();
    }

    /// Writes what to do, given as one text.
    pub fn write_help_text(&mut self, advice: &str)
        ensures before { self.new.is_cut ≡ false → self.old.is_cut ≡ false }
        ensures text { self.new.is_cut ≡ false → string_bytes self.new.text
            ≡ ((string_bytes self.old.text ++ codes "help: ") ++ advice.now)
            ++ 10 ∷ [] }
        ensures file { self.new.file ≡ self.old.file }
    {
        self.begin_help();
        self.add_text(advice);
        self.end_line();
    }

    /// Writes what else there is to know, given as one text.
    pub fn write_note_text(&mut self, text: &str)
        ensures before { self.new.is_cut ≡ false → self.old.is_cut ≡ false }
        ensures text { self.new.is_cut ≡ false → string_bytes self.new.text
            ≡ ((string_bytes self.old.text ++ codes "note: ") ++ text.now)
            ++ 10 ∷ [] }
        ensures file { self.new.file ≡ self.old.file }
    {
        self.begin_note();
        self.add_text(text);
        self.end_line();
    }
}
