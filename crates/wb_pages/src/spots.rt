//! The parts of a script's lines that messages are about.

ghost use Rattle.std.specs.Prelude.{◌≡◌, length, slice_get, MatchOption};

use crate::shown::Shown;
use crate::words::Word;

/// A part of a line: the column in which it begins, counted from 0, and its length in bytes.
#[derive(Clone, Copy)]
pub struct Span {
    pub column: usize,
    pub length: usize,
}

/// A part of a line of the script: the line's number, counted from 1, the line's text without the blanks around it, the part, and the word
/// at the part. If the part is the whole line, the word is empty.
#[derive(Clone, Copy)]
pub struct Spot<'a> {
    pub number: usize,
    pub text: &'a [u8],
    pub span: Span,
    pub word: &'a [u8],
}

impl<'a> Spot<'a> {
    /// The word as messages show it.
    pub fn shown_word(&self) -> Shown<'a> {
        Shown::word(self.word)
    }

    /// Returns the whole line as a part, with no word.
    pub fn of_line(number: usize, text: &'a [u8]) -> Spot<'a>
        ensures number { result.number ≡ number }
        ensures text { result.text.now ≡ text.now }
        ensures column { result.span.column ≡ 0 }
        ensures length { result.span.length ≡ length text.now }
        ensures word { length result.word.now ≡ 0 }
    {
        Spot {
            number,
            text,
            span: Span {
                column: 0,
                length: text.len(),
            },
            word: &[],
        }
    }

    /// Returns the part that the line's word with this index takes up, counted from 0; the whole line if there is no such word.
    pub fn of_word(number: usize, text: &'a [u8], words: &[Word<'a>], index: usize) -> Spot<'a>
        ensures number { result.number ≡ number }
        ensures text { result.text.now ≡ text.now }
        ensures span { MatchOption (slice_get words.now index) (result.span.column ≡ 0)
            (λ word. result.span.column ≡ word.column) }
        ensures length { MatchOption (slice_get words.now index)
            (result.span.length ≡ length text.now)
            (λ word. result.span.length ≡ length word.text.now) }
    {
        match words.get(index) {
            Some(word) => Spot {
                number,
                text,
                span: word.span(),
                word: word.text,
            },
            None => Spot::of_line(number, text),
        }
    }
}
