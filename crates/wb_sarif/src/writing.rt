//! A log while it is written.

use std::alloc::AllocError;
use wb_explain::runs::Explanation;
use wb_history::ScriptLines;

/// The result of writing something. The only error is that memory ran out.
pub type Written = Result<(), AllocError>;

/// A log while it is written: its text so far, the lines of the script, and the explanation of the script.
#[derive(Drop)]
pub struct Log<'a> {
    pub text: String,
    pub lines: &'a ScriptLines<'a>,
    pub explanation: &'a Explanation,
}

/// The text before the item with this index in a list whose items each have a line of their own.
pub fn before_item(index: usize) -> &'static str {
    if index == 0 { "\n" } else { ",\n" }
}

/// The text before the item with this index in a list within one line.
pub fn comma(index: usize) -> &'static str {
    if index == 0 { "" } else { "," }
}
