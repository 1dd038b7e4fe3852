//! The words of a line with the columns in which they begin. The crate `wb_lines` decides which bytes of a line are words.

ghost use Rattle.std.specs.Prelude.{◌≡◌, length};

use crate::spots::Span;
use std::alloc::{AllocError, Global};
use wb_lines::segments::{add_words, is_blank};

/// A word of a line, and the column in which it begins, counted from 0.
#[derive(Clone, Copy)]
pub struct Word<'a> {
    pub text: &'a [u8],
    pub column: usize,
}

impl<'a> Word<'a> {
    /// The columns that the word takes up.
    pub fn span(self) -> Span
        ensures column { result.column ≡ self.entry.column }
        ensures length { result.length ≡ length self.entry.text.now }
    {
        Span {
            column: self.column,
            length: self.text.len(),
        }
    }
}

/// The bytes from the index `from` up to the index `to`; empty if `bytes` has no such part.
fn part<'a>(bytes: &'a [u8], from: usize, to: usize) -> &'a [u8] {
    if from <= to && to <= bytes.len() {
        &bytes[from..to]
    } else {
        &[]
    }
}

/// How many blanks a line begins with.
pub fn count_blanks(line: &[u8]) -> usize {
    for (index, byte) in line.iter().enumerate() {
        if !is_blank(*byte) {
            return index;
        }
    }
    line.len()
}

/// Returns a line without the blanks around it.
pub fn trim<'a>(line: &'a [u8]) -> &'a [u8] {
    let mut end = 0;
    for (index, byte) in line.iter().enumerate() {
        if !is_blank(*byte) {
            end = index + 1;
        }
    }
    part(line, count_blanks(line), end)
}

/// Returns the words of a line, which are given as texts, with their columns. Nothing but blanks may be between two successive words. The
/// only error is that memory ran out.
pub fn place_words<'a>(
    alloc: Global,
    line: &'a [u8],
    texts: &[&'a [u8]],
) -> Result<Vec<Word<'a>>, AllocError> {
    let mut words = Vec::with_capacity(alloc, texts.len())?;
    let mut end: usize = 0;
    for text in texts {
        let column = end.saturating_add(count_blanks(part(line, end, line.len())));
        words.push(Word { text, column })?;
        end = column.saturating_add(text.len());
    }
    Ok(words)
}

/// Returns the words of a line. The only error is that memory ran out.
pub fn words_of<'a>(alloc: Global, line: &'a [u8]) -> Result<Vec<Word<'a>>, AllocError> {
    let mut texts = Vec::new(alloc);
    add_words(&mut texts, line)?;
    place_words(alloc, line, &texts)
}
