//! How a picture holds text of the user. Only this file writes names, literals and lines of a script into a picture.

use crate::drawing::{Drawing, Drawn};
use crate::labels::put_both;

/// How many characters of a text of the user are shown at most.
const MOST_SHOWN: usize = 60;

/// The width that is assumed for each letter, in pixels. Most letters are no wider.
const LETTER: u32 = 7;

/// Writes the beginning of a text of the user. Characters with a meaning in XML become references, and characters that XML 1.0 forbids are
/// left out. So nothing in the text can end the element or the attribute around it.
pub fn put_escaped(drawing: &mut Drawing<'_>, shown: &str) -> Drawn {
    if is_plain(shown) {
        return drawing.text.push_str(shown);
    }
    let mut left = MOST_SHOWN;
    for letter in shown.chars() {
        if left == 0 {
            return drawing.text.push_str("...");
        }
        left -= 1;
        put_letter(drawing, letter)?;
    }
    Ok(())
}

/// Writes a semicolon, the number of a script's line, and the line itself; nothing if the number is 0.
pub fn put_line(drawing: &mut Drawing<'_>, number: u32) -> Drawn {
    if number == 0 {
        return Ok(());
    }
    put_both(drawing, "; line ", number)?;
    drawing.text.push_str(": ")?;
    let line = drawing.lines.line(number);
    put_escaped(drawing, line.trim())
}

/// Writes the name of the class with this index.
pub fn put_class(drawing: &mut Drawing<'_>, class: u16) -> Drawn {
    let name = drawing.lines.class_name(class);
    put_escaped(drawing, name)
}

/// Whether a text can be shown unchanged: it is short, and has only printable ASCII characters without a meaning in XML.
fn is_plain(shown: &str) -> bool {
    let bytes = shown.as_bytes();
    bytes.len() <= MOST_SHOWN && bytes.iter().all(|byte| is_plain_byte(*byte))
}

fn is_plain_byte(byte: u8) -> bool {
    match byte {
        b'<' | b'>' | b'&' | b'"' | b'\'' => false,
        _ => matches!(byte, b' '..=b'~'),
    }
}

/// How wide the shown part of a text of the user is, in pixels.
pub fn width_of(shown: &str) -> u32 {
    let letters = shown.len().min(MOST_SHOWN);
    u32::try_from(letters).unwrap_or(0).saturating_mul(LETTER)
}

fn put_letter(drawing: &mut Drawing<'_>, letter: char) -> Drawn {
    match letter {
        '<' => drawing.text.push_str("&lt;"),
        '>' => drawing.text.push_str("&gt;"),
        '&' => drawing.text.push_str("&amp;"),
        '"' => drawing.text.push_str("&quot;"),
        '\'' => drawing.text.push_str("&#39;"),
        '\t' => drawing.text.push(' '),
        '\0'..='\u{1f}' | '\u{7f}'..='\u{9f}' | '\u{fffe}' | '\u{ffff}' => Ok(()),
        _ => drawing.text.push(letter),
    }
}
