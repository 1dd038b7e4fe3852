//! How a log holds texts of the user: escaped in strings of JSON, or as references to files.

use std::fmt;
use std::fmt::{Display, Formatter, Write};

/// A text that is written inside a string of JSON, with escapes where JSON needs them.
#[derive(Clone, Copy)]
pub struct Escaped<'a>(pub &'a str);

impl<'a> Display for Escaped<'a> {
    fn fmt<W: Write>(&self, f: &mut Formatter<W>) -> fmt::Result {
        for letter in self.0.chars() {
            write_letter(f, letter)?;
        }
        Ok(())
    }
}

fn write_letter<W: Write>(f: &mut Formatter<W>, letter: char) -> fmt::Result {
    match letter {
        '"' => f.write_str("\\\""),
        '\\' => f.write_str("\\\\"),
        '\0'..='\u{1f}' => write!(f, "\\u{:04x}", letter as u32),
        _ => f.write_char(letter),
    }
}

/// A file's name as a reference: a URI for an absolute name, else a relative reference to the same file.
#[derive(Clone, Copy)]
pub struct FileReference<'a>(pub &'a str);

impl<'a> Display for FileReference<'a> {
    fn fmt<W: Write>(&self, f: &mut Formatter<W>) -> fmt::Result {
        if self.0.starts_with('/') {
            f.write_str("file://")?;
        }
        for byte in self.0.strip_prefix("./").unwrap_or(self.0).as_bytes() {
            write_byte(f, *byte)?;
        }
        Ok(())
    }
}

/// Writes a byte of a file's name. Letters, digits and a few other characters are written as they are; every other byte is written as `%`
/// and two hexadecimal digits.
fn write_byte<W: Write>(f: &mut Formatter<W>, byte: u8) -> fmt::Result {
    if byte.is_ascii_alphanumeric() || matches!(byte, b'/' | b'.' | b'_' | b'-' | b'~') {
        f.write_char(byte as char)
    } else {
        write!(f, "%{byte:02X}")
    }
}
