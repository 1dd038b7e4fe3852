//! The lines of a script and their words, with the columns in which the words begin.

use std::alloc::{AllocError, Global};
use wb_lines::declares::body_in;
use wb_lines::forms::{begins_comment, form_of};
use wb_lines::segments::{self, add_words};
use wb_pages::words::{count_blanks, place_words, trim};
use wb_pages::{Shown, Span, Spot, Word};
use wb_tree::script_lines::{Form, LineKind, Operand};

/// A line: its number, its text without the blanks around it, the number of blanks before the text, its words, its form, and `body`. `body`
/// is the index of the line that begins the body of this line: the nearest such line, from this line upwards; 0 if there is no such line.
#[derive(Drop)]
pub struct Line<'a> {
    pub number: usize,
    pub text: &'a [u8],
    pub indent: usize,
    pub words: Vec<Word<'a>>,
    pub form: Form<&'a [u8]>,
    pub body: usize,
}

/// The index of the line that begins the body of the next line. The next line comes directly after these lines, and has this form.
fn body_after(lines: &[Line], form: &Form<&[u8]>) -> usize {
    match (body_in(form), lines.last()) {
        (Some(_), _) => lines.len(),
        (None, Some(line)) => line.body,
        (None, None) => 0,
    }
}

fn read_line<'a>(
    alloc: Global,
    lines: &[Line<'a>],
    bytes: &'a [u8],
) -> Result<Line<'a>, AllocError> {
    let text = trim(bytes);
    let mut texts = Vec::new(alloc);
    add_words(&mut texts, text)?;
    let form = form_of(alloc, &texts)?;
    let body = body_after(lines, &form);
    Ok(Line {
        number: lines.len().saturating_add(1),
        text,
        indent: count_blanks(bytes),
        words: place_words(alloc, text, &texts)?,
        form,
        body,
    })
}

fn add_line<'a>(
    alloc: Global,
    lines: &mut Vec<Line<'a>>,
    bytes: &'a [u8],
) -> Result<(), AllocError> {
    let line = read_line(alloc, lines, bytes)?;
    lines.push(line)?;
    Ok(())
}

/// Returns the lines of a script. The only error is that memory ran out.
pub fn lines_of<'a>(alloc: Global, bytes: &'a [u8]) -> Result<Vec<Line<'a>>, AllocError> {
    let mut lines = Vec::new(alloc);
    for line in segments::lines(alloc, bytes)? {
        add_line(alloc, &mut lines, line)?;
    }
    Ok(lines)
}

impl<'a> Line<'a> {
    /// The kind of the line; `None` if the line has no form, or is blank or a comment.
    pub fn line_kind(&self) -> Option<LineKind> {
        match &self.form {
            Form::Line(line_kind, _) => Some(*line_kind),
            Form::Skip | Form::Unknown => None,
        }
    }

    /// The operands of the line; empty if the line has no form, or is blank or a comment.
    pub fn operands(&self) -> &[Operand<&'a [u8]>] {
        match &self.form {
            Form::Line(_, operands) => operands.as_slice(),
            Form::Skip | Form::Unknown => &[],
        }
    }

    /// The word with an index; `None` if there is no such word.
    pub fn word(&self, index: usize) -> Option<Word<'a>> {
        self.words.get(index).copied()
    }

    /// The text of the word with an index; empty if there is no such word.
    pub fn text_at(&self, index: usize) -> &'a [u8] {
        match self.word(index) {
            Some(word) => word.text,
            None => &[],
        }
    }

    /// The word with an index, as messages show it.
    pub fn shown_word(&self, index: usize) -> Shown<'a> {
        Shown::word(self.text_at(index))
    }

    /// The text of the last word; empty if the line has no words.
    pub fn last_text(&self) -> &'a [u8] {
        match self.words.last() {
            Some(word) => word.text,
            None => &[],
        }
    }

    /// The first word; `None` if the line has no words or is a comment.
    pub fn first(&self) -> Option<Word<'a>> {
        match self.word(0) {
            Some(word) if !begins_comment(word.text) => Some(word),
            _ => None,
        }
    }

    /// The columns of the word with an index; the columns of the whole line if there is no such word.
    pub fn span_at(&self, index: usize) -> Span {
        match self.word(index) {
            Some(word) => word.span(),
            None => self.span(),
        }
    }

    /// The word with an index, as a part of the line to show; the whole line if there is no such word.
    pub fn spot(&self, index: usize) -> Spot<'a> {
        Spot::of_word(self.number, self.text, &self.words, index)
    }

    /// A part of the line to show, and the word that a message about this part names.
    pub fn spot_of(&self, span: Span, word: &'a [u8]) -> Spot<'a> {
        Spot {
            number: self.number,
            text: self.text,
            span,
            word,
        }
    }

    /// A part of the line to show: a word, or a part of a word, that begins in this column.
    pub fn part(&self, column: usize, word: &'a [u8]) -> Spot<'a> {
        let length = word.len();
        self.spot_of(Span { column, length }, word)
    }

    /// The whole line as the part to show, without a word for messages.
    pub fn whole(&self) -> Spot<'a> {
        Spot::of_line(self.number, self.text)
    }

    /// The columns of the whole line.
    pub fn span(&self) -> Span {
        Span {
            column: 0,
            length: self.text.len(),
        }
    }
}
