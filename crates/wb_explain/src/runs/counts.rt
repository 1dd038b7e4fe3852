//! How counts are written in sentences: `1 unit is` and `2 units are`, `a 16-byte cell` and `an 80-byte cell`.

use std::fmt;
use std::fmt::{Display, Formatter, Write};

/// A number of things, and the word for one of them. They are written as `1 unit` or `2 units`, for example.
#[derive(Clone, Copy)]
pub struct Many(pub i64, pub &'static str);

impl Display for Many {
    fn fmt<W: Write>(&self, f: &mut Formatter<W>) -> fmt::Result {
        let (count, word) = (self.0, self.1);
        write!(f, "{count} {word}{}", if count == 1 { "" } else { "s" })
    }
}

/// The word that follows a number of things in a sentence, for example `is` for one thing and `are` for any other number.
pub fn of_one_or_more(count: i64, of_one: &'static str, of_more: &'static str) -> &'static str {
    if count == 1 { of_one } else { of_more }
}

/// The article before a number of things: `an` before 8, 11, 18, 80, 800 and 11,000, for example, and otherwise `a`.
pub fn article_of(count: u32) -> &'static str {
    let first = if count < 1_000 {
        count
    } else if count < 1_000_000 {
        count / 1_000
    } else {
        count / 1_000_000
    };
    let is_vowel = matches!(first, 8 | 11 | 18) || first / 10 == 8 || first / 100 == 8;
    if is_vowel { "an" } else { "a" }
}
