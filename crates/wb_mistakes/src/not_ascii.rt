//! A byte outside printable ASCII, or a whole file in another encoding.

use crate::lines::Line;
use wb_lines::bytes::is_foreign;
use wb_pages::{Page, Span};

/// The hexadecimal digits.
static DIGITS: [&str; 16] = [
    "0", "1", "2", "3", "4", "5", "6", "7", "8", "9", "a", "b", "c", "d", "e", "f",
];

/// The help for a file in another encoding.
const SAVED_AS: &str = "save it as ASCII, or as UTF-8 without a byte order mark";

fn hex_digit(value: u8) -> &'static str {
    DIGITS.get(value as usize).copied().unwrap_or("?")
}

/// The first byte that isn't allowed in scripts, with its column, counted from 0; `None` if there is no such byte.
fn first_foreign_byte(line: &[u8]) -> Option<(usize, u8)> {
    for (column, byte) in line.iter().enumerate() {
        if is_foreign(*byte) {
            return Some((column, *byte));
        }
    }
    None
}

/// What the bytes at the beginning of a file say about the file's encoding.
#[derive(Clone, Copy)]
enum Beginning {
    /// A byte order mark in UTF-8.
    Mark,
    /// A byte order mark in UTF-16, or two characters of ASCII that take two bytes each.
    Wide,
    Other,
}

/// What the first line of a file, without the blanks around it, says about the file's encoding.
fn beginning_of(text: &[u8]) -> Beginning {
    match text {
        [0xef, 0xbb, 0xbf, ..] => Beginning::Mark,
        [0xff, 0xfe, ..] | [0xfe, 0xff, ..] => Beginning::Wide,
        [0, _, 0, _, ..] | [_, 0, _, 0, ..] => Beginning::Wide,
        _ => Beginning::Other,
    }
}

/// Says that a line has a byte outside printable ASCII. For the first line of a file that seems to be in another encoding, says this about
/// the encoding instead.
pub fn explain_not_ascii(page: &mut Page, lines: &[Line], index: usize) {
    let Some(line) = lines.get(index) else {
        return;
    };
    match beginning_of(line.text) {
        Beginning::Mark if index == 0 => {
            page.mark(
                line.spot_of(
                    Span {
                        column: 0,
                        length: 3,
                    },
                    &[],
                ),
                "a byte order mark, 0xef 0xbb 0xbf, comes before the first line",
            );
            page.write_help_text(SAVED_AS);
        }
        Beginning::Wide if index == 0 => {
            page.write_message(
                line.number,
                "the script seems to be UTF-16, with two bytes for each character",
            );
            page.write_help_text(SAVED_AS);
        }
        _ => explain_byte(page, line),
    }
}

/// Says which byte of a line is outside printable ASCII, and in which column the byte is, counted from 1.
fn explain_byte(page: &mut Page, line: &Line) {
    let Some((column, byte)) = first_foreign_byte(line.text) else {
        return;
    };
    page.mark(
        line.spot_of(Span { column, length: 1 }, &[]),
        format_args!(
            "a byte outside printable ASCII: 0x{}{} in column {}",
            hex_digit(byte / 16),
            hex_digit(byte % 16),
            line.indent.saturating_add(column).saturating_add(1)
        ),
    );
    page.write_help_text(
        "a script is ASCII, in comments and texts too: letters without accents, and straight quotes",
    );
}
