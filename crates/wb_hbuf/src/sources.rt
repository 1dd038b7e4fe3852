//! The ways in which an edit changes a text, and the sources that an edit reads.

use wb_basics::items::Chars;
use wb_heap_model::heap::Ptr;
use wb_text::Buf;

/// A way in which the units of a source change a text.
#[derive(Clone, Copy, Debug, PartialEq, Eq)]
pub enum Edit {
    /// The units replace the text.
    Copy,
    /// The units go after the text.
    Append,
    /// The units go before the text's unit at this position.
    Insert(u32),
}

/// What an edit reads: a part of a text. The first number is the position of the part's first unit, and the second number is how many units
/// the part has. Units past the text's end are zero.
#[derive(Clone, Copy)]
pub enum Source<'a> {
    /// A part of a literal.
    Literal(&'a Chars, u32, u32),
    /// A part of a buffer other than the destination.
    Buffer(&'a Buf, u32, u32),
    /// A part of the text in a cell other than the destination.
    Cell(Ptr, u32, u32),
    /// A part of the destination's own text, as it was before the edit.
    Own(u32, u32),
}
