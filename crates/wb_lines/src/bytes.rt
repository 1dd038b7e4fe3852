//! Bytes that can't be a script, because there are too many bytes or a byte that can't be in a line.

ghost use Rattle.std.specs.Prelude.{◌≡◌, false};
ghost use Rattle.std.specs.List.{list_any};
ghost use Rattle.wb_language.specs.Lines.{is_foreign, first_foreign_line, is_too_long};

use wb_basics::limits::LONGEST_SCRIPT;

/// Whether there are more bytes than a script may have.
pub fn is_too_long(bytes: &[u8]) -> bool
    ensures { result ≡ is_too_long bytes.now }
{
    bytes.len() > LONGEST_SCRIPT as usize
}

/// Whether a byte can neither be in a line nor end a line. The code has no branch, so that many bytes can be tested in one instruction.
pub fn is_foreign(byte: u8) -> bool
    ensures { result ≡ is_foreign byte }
{
    let is_printable = (byte >= b' ') & (byte <= b'~');
    !(is_printable | (byte == b'\t') | (byte == b'\n') | (byte == b'\r'))
}

/// Whether one of the bytes can neither be in a line nor end a line. All bytes are tested, many at a time.
fn has_foreign(bytes: &[u8]) -> bool
    ensures { result ≡ list_any is_foreign bytes.now }
{
    let mut found = false;
    for byte in bytes {
        found |= is_foreign(*byte);
    }
    found
}

/// The number of the first line that holds a byte other than a tab, a carriage return or printable ASCII; `None` if no line holds such a
/// byte. Lines count from 1.
pub fn first_foreign_line(bytes: &[u8]) -> Option<u32>
    requires { is_too_long bytes.now ≡ false }
    ensures { result ≡ first_foreign_line bytes.now }
{
    if !has_foreign(bytes) {
        return None;
    }
    let mut line = 1;
    for byte in bytes {
        if is_foreign(*byte) {
            return Some(line);
        }
        if *byte == b'\n' {
            line += 1;
        }
    }
    None
}
