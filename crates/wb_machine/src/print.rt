//! The printed lines of numbers.

ghost use Rattle.std.specs.Prelude.{◌≡◌};
ghost use Rattle.std.specs.Fmt.{signed_decimal};

use arrayvec::ArrayVec;
use itoa::Buffer;
use wb_basics::printed_line::Line;

/// The line that a number prints: its decimal digits, after a minus sign if it is negative.
pub fn number_line(number: i32) -> Line
    ensures { result ≡ signed_decimal number }
{
    let mut digits = Buffer::new();
    let mut line = ArrayVec::new();
    match line.try_extend_from_slice(digits.format(number).as_bytes()) {
        Ok(()) => Line::new(line),
        Err(_) => unreachable!(),
    }
}
