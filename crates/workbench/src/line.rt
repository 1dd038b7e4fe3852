//! A line of a report that is built from its end to its front, and then appended to a text in one piece. Other modules decide what a
//! line says.

ghost use Rattle.std.specs.Prelude.{◌≡◌, ◌+◌, ◌≤◌, [], ◌∷◌, ◌++◌, length, OnOk};
ghost use Rattle.std.specs.Fmt.{decimal};

use itoa::write_digits;
use std::marker::Model;
use wb_basics::memory::NoMemory;

/// The length of the longest line in bytes, with its line feed. The longest line is the line of an attempt that was made to fail, if the
/// three numbers in it have ten digits each.
pub const LONGEST_LINE: usize = 64;

/// The end of a line, which grows at its front: new bytes come before the bytes that are already there. So a number's digits are written
/// directly to their final place, however many digits there are. In contracts, a `Line` stands for the bytes that are already there.
#[derive(Drop)]
pub struct Line {
    bytes: [u8; LONGEST_LINE],
    start: usize,
}

impl Model for Line {
    ghost use Rattle.std.specs.Prelude.{◌≤◌, ℕ, List, drop};
    ghost use Rattle.workbench.specs.declared.line.TheConstants.{LONGEST_LINE};

    ghost Value = { List ℕ };

    ghost view = { λ line. drop line.start line.bytes };

    ghost invariant = { λ line. line.start ≤ LONGEST_LINE };
}

impl Line {
    /// Returns a line that has only its line feed so far.
    #[inline]
    pub fn new() -> Line
        ensures { result ≡ 10 ∷ [] }
    {
        let mut bytes = [0; LONGEST_LINE];
        bytes[LONGEST_LINE - 1] = b'\n';
        Line {
            bytes,
            start: LONGEST_LINE - 1,
        }
    }

    /// Puts a word before the bytes that are already there.
    #[inline]
    pub fn put_word(&mut self, word: &[u8])
        requires { length word.now + length self.old ≤ LONGEST_LINE }
        ensures bytes { self.new ≡ word.now ++ self.old }
        ensures longer { length self.new ≡ length word.now + length self.old }
    {
        let end = self.start;
        self.start = end - word.len();
        self.bytes[self.start..end].copy_from_slice(word);
    }

    /// Puts a number's decimal digits, ten at most, before the bytes that are already there.
    #[inline]
    #[tactic(auto, using(crate::proofs::LineLemmas::longer_by_digits))]
    pub fn put_number(&mut self, number: u32)
        requires { 10 + length self.old ≤ LONGEST_LINE }
        ensures bytes { self.new ≡ decimal number ++ self.old }
        ensures longer { length self.new ≤ 10 + length self.old }
    {
        self.start = write_digits(number as u64, &mut self.bytes, self.start);
    }

    /// Appends the line to a text. The only error is that memory ran out.
    #[inline]
    pub fn append_to(&self, text: &mut Vec<u8>) -> Result<(), NoMemory>
        ensures { OnOk result (text.new.items ≡ text.old.items ++ self.now) }
    {
        Ok(text.extend_from_slice(&self.bytes[self.start..])?)
    }
}
