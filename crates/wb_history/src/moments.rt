//! When something happened in a run, and where.

use wb_heap_model::heap::Ptr;

/// When something happened: after how many steps, at which line, and by which call path (`Calls`).
#[derive(Clone, Copy, Debug, PartialEq, Eq)]
pub struct Moment {
    pub step: u32,
    /// The line; 0 if no line did it, as when the cell of the cleanup stack was made.
    pub line: u32,
    pub path: u32,
}

/// The number of a line in two bytes, or no line. Two bytes are enough: a line that does something is less than 65,536 bytes from the
/// script's beginning.
#[derive(Clone, Copy, Debug, PartialEq, Eq)]
pub struct ShortLine(u16);

impl ShortLine {
    pub const NONE: ShortLine = ShortLine(0);

    pub fn of(line: u32) -> ShortLine {
        ShortLine(u16::try_from(line).unwrap_or(0))
    }

    /// The number of the line; 0 if there is none.
    pub fn number(self) -> u32 {
        u32::from(self.0)
    }

    pub fn is_some(self) -> bool {
        self.0 != 0
    }

    pub fn is_none(self) -> bool {
        self.0 == 0
    }
}

/// The local or field that was last set to a cell, and when it was set.
#[derive(Clone, Copy, Debug, PartialEq, Eq)]
pub struct Held {
    /// The object that has the field; null for a local.
    pub owner: Ptr,
    /// After how many steps the local or field was set, at which line, and which line called this line's body; no line called `main`.
    pub since: u32,
    pub line: ShortLine,
    pub caller: ShortLine,
    /// How many bodies ran when the local or field was set.
    pub depth: u8,
    /// The index of the local, or of the field.
    pub index: u8,
}

impl Held {
    /// Whether this is a field of an object.
    pub fn is_field(self) -> bool {
        self.owner.number != 0
    }

    /// Whether this is the same local or field as `other`.
    pub fn is_same_variable(self, other: Held) -> bool {
        self.index == other.index
            && self.owner == other.owner
            && (self.is_field() || self.depth == other.depth)
    }
}
