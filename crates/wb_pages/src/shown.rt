//! Words and lines of a script, as messages show them.

use std::fmt;
use std::fmt::{Display, Formatter, Write};

/// The most columns of a script's line that are shown.
pub const MOST_COLUMNS: usize = 100;

/// The most bytes of a word of the script that a message shows.
const LONGEST_WORD: usize = 70;

/// The characters that replace a part of a text that is left out.
pub const ELLIPSIS: &str = "...";

/// A word or a line of the script, cut if it is too long to be shown whole.
#[derive(Clone, Copy)]
pub struct Shown<'a> {
    text: &'a [u8],
    most: usize,
}

impl<'a> Shown<'a> {
    pub fn word(text: &'a [u8]) -> Shown<'a> {
        Shown {
            text,
            most: LONGEST_WORD,
        }
    }

    pub fn line(text: &'a [u8]) -> Shown<'a> {
        Shown {
            text,
            most: MOST_COLUMNS,
        }
    }
}

impl<'a> Display for Shown<'a> {
    fn fmt<W: Write>(&self, f: &mut Formatter<W>) -> fmt::Result {
        let (part, after) = self
            .text
            .split_at_checked(self.most)
            .unwrap_or((self.text, &[]));
        let end = if after.is_empty() { "" } else { ELLIPSIS };
        write!(f, "{}{end}", Visible(part))
    }
}

/// Bytes of a script, each as the character that is shown for it.
#[derive(Clone, Copy)]
pub struct Visible<'a>(pub &'a [u8]);

impl<'a> Display for Visible<'a> {
    fn fmt<W: Write>(&self, f: &mut Formatter<W>) -> fmt::Result {
        match str::from_utf8(self.0) {
            Ok(text) if self.0.iter().all(|byte| is_visible(*byte)) => f.write_str(text),
            _ => write_each(f, self.0),
        }
    }
}

fn write_each<W: Write>(f: &mut Formatter<W>, bytes: &[u8]) -> fmt::Result {
    for byte in bytes {
        f.write_char(visible_char(*byte))?;
    }
    Ok(())
}

fn is_visible(byte: u8) -> bool {
    matches!(byte, b' '..=b'~')
}

/// The character that is shown for a byte: a blank for each kind of blank, a question mark for a byte that can't be shown.
fn visible_char(byte: u8) -> char {
    match byte {
        b' '..=b'~' => byte as char,
        b'\t' | b'\r' => ' ',
        _ => '?',
    }
}
