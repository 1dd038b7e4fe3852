//! Cuts bytes into lines, and lines into words.

ghost use Rattle.std.specs.Prelude.{◌≡◌, ◌≢◌, ◌∷◌, ◌++◌, ◌<◌, [], length, IfOk, OnOk};
ghost use Rattle.std.specs.Option.{option_map, option_to_list};
ghost use Rattle.wb_language.specs.Lines.{is_blank, quoted_after, pieces, lines_of, words_of, unless_empty};
ghost use Rattle.wb_lines.specs.BytesOf.{bytes_of_text, bytes_of_texts};
ghost use Rattle.wb_lines.specs.Segments.{ends_of};

use crate::lists::{add, add_some};
use std::alloc::{AllocError, Global};

/// Whether a byte is a blank: a space, a tab or a carriage return.
pub fn is_blank(byte: u8) -> bool
    ensures { result ≡ is_blank byte }
{
    matches!(byte, b' ' | b'\t' | b'\r')
}

/// The usual length of a line, in bytes. A list of lines begins with room for as many lines as the bytes would make if all lines had this
/// length.
const USUAL_LENGTH: usize = 16;

/// What bytes are cut into.
#[derive(Clone, Copy)]
enum Cut {
    Lines,
    Words,
}

impl Cut {
    fn ends_at(self, quoted: bool, byte: u8) -> bool
        ensures { result ≡ ends_of self quoted byte }
    {
        match self {
            Cut::Lines => byte == b'\n',
            Cut::Words => !quoted && is_blank(byte),
        }
    }
}

fn quoted_after(quoted: bool, byte: u8) -> bool
    ensures { result ≡ quoted_after quoted byte }
{
    if byte == b'"' { !quoted } else { quoted }
}

/// Returns the first piece of some bytes, and the bytes after the byte that ends the piece. If no byte ends the piece, no bytes are left.
fn first_segment<'a>(cut: Cut, bytes: &'a [u8]) -> (&'a [u8], &'a [u8])
    requires { bytes.now ≢ [] }
    ensures pieces { pieces (ends_of cut) bytes.now
        ≡ result.0.now ∷ pieces (ends_of cut) result.1.now }
    ensures shorter { length result.1.now < length bytes.now }
{
    let mut quoted = false;
    for (index, byte) in bytes.iter().enumerate() {
        // Only `"` and bytes below it can end a line or a word, or be a quote; most bytes are above it.
        if *byte <= b'"' {
            if cut.ends_at(quoted, *byte) {
                return (&bytes[..index], &bytes[index + 1..]);
            }
            quoted = quoted_after(quoted, *byte);
        }
    }
    (bytes, &bytes[bytes.len()..])
}

fn pieces<'a>(alloc: Global, cut: Cut, bytes: &'a [u8]) -> Result<Vec<&'a [u8]>, AllocError>
    ensures { IfOk result (λ found. bytes_of_texts found.items ≡ pieces (ends_of cut) bytes.now) }
{
    let mut found = Vec::with_capacity(alloc, bytes.len() / USUAL_LENGTH)?;
    let mut rest = bytes;
    while !rest.is_empty() {
        let (piece, after) = first_segment(cut, rest);
        add(&mut found, piece)?;
        rest = after;
    }
    Ok(found)
}

fn unless_empty<'a>(piece: &'a [u8]) -> Option<&'a [u8]>
    ensures { option_to_list (option_map bytes_of_text result) ≡ unless_empty piece.now }
{
    if piece.is_empty() { None } else { Some(piece) }
}

/// The lines of a script, without their line feeds.
pub fn lines<'a>(alloc: Global, bytes: &'a [u8]) -> Result<Vec<&'a [u8]>, AllocError>
    ensures { IfOk result (λ found. bytes_of_texts found.items ≡ lines_of bytes.now) }
{
    pieces(alloc, Cut::Lines, bytes)
}

/// A line from its first byte that is no blank.
pub fn after_blanks<'a>(line: &'a [u8]) -> &'a [u8]
    ensures { words_of result.now ≡ words_of line.now }
{
    for (index, byte) in line.iter().enumerate() {
        if !is_blank(*byte) {
            return &line[index..];
        }
    }
    &line[line.len()..]
}

/// Appends the words of a line. A blank between quotes ends no word.
pub fn add_words<'a>(words: &mut Vec<&'a [u8]>, line: &'a [u8]) -> Result<(), AllocError>
    ensures { OnOk result (bytes_of_texts words.new.items
        ≡ bytes_of_texts words.old.items ++ words_of line.now) }
{
    let mut rest = line;
    while !rest.is_empty() {
        let (piece, after) = first_segment(Cut::Words, rest);
        add_some(words, unless_empty(piece))?;
        rest = after;
    }
    Ok(())
}
