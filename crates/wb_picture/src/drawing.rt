//! A picture while it is drawn.

use crate::scale::Scale;
use std::alloc::AllocError;
use wb_history::ScriptLines;

/// The result of drawing something. The only error is that memory ran out.
pub type Drawn = Result<(), AllocError>;

/// A picture while it is drawn: its text so far, the lines of the script that the picture is about, and the scale of the panel that is
/// being drawn.
#[derive(Drop)]
pub struct Drawing<'a> {
    pub text: String,
    pub lines: &'a ScriptLines<'a>,
    pub scale: Scale,
}
