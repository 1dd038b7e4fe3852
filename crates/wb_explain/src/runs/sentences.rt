//! What is said about the values with which a line panicked.

use crate::runs::counts::{Many, of_one_or_more};
use std::fmt::Display;
use wb_history::Values;
use wb_pages::Page;

/// Writes about the values with which a line panicked. Writes nothing about how many items were to be popped: other code says this.
pub fn put_values(page: &mut Page<'_>, values: Values) {
    match values {
        Values::WouldHave { units, maximum } => {
            let units = Many(i64::from(units), "unit");
            page.write(format_args!("the text would have {units}, but its maximum is {maximum}"));
        }
        Values::PastEnd { position, length } => {
            let units = Many(i64::from(length), "unit");
            page.write(format_args!(
                "position {position} is past the end of the text, which has {units}"
            ));
        }
        Values::Fewer { wanted, length } => put_requested(page, wanted, "", length),
        Values::Part {
            position,
            wanted,
            length,
        } => put_requested(
            page,
            wanted,
            format_args!(" from position {position}"),
            length,
        ),
        Values::NoWord { index, bytes } => page.write(format_args!(
            "there is no word {index}: the cell has {bytes} bytes, and its words are 4 bytes each, counted from 0"
        )),
        Values::Sum { first, second } => {
            page.write(format_args!("the sum of {first} and {second} does not fit in an int"))
        }
        Values::OutOfRange(number) => {
            page.write(format_args!("{number} is out of range for this line"))
        }
        Values::BelowZero(number) => page.write(format_args!("{number} is below 0")),
        Values::TooManyItems { .. } => {}
        Values::OwnText => page.write_text("the text would be inserted into itself"),
    }
}

/// Says how many units of a text, from some position, were requested, and how many units the text has.
fn put_requested<D: Display + Drop>(page: &mut Page<'_>, wanted: i32, place: D, length: u32) {
    let count = i64::from(wanted);
    let (units, are) = (Many(count, "unit"), of_one_or_more(count, "is", "are"));
    page.write(format_args!("{units}{place} {are} requested, but the text has {length}"));
}
