//! The values with which a line panicked.

/// The values with which a line panicked. Positions, lengths and maxima count units; `bytes` is how many bytes of a cell can be used.
#[derive(Clone, Copy, Debug, PartialEq, Eq)]
pub enum Values {
    /// How long a text would have been, and its maximum.
    WouldHave {
        units: u32,
        maximum: u32,
    },
    /// A position that a text doesn't have.
    PastEnd {
        position: i32,
        length: u32,
    },
    /// A line asked for more units than a text has, or for room for fewer units than the text has.
    Fewer {
        wanted: i32,
        length: u32,
    },
    /// A line asked for a part of a text that would end past the text's end.
    Part {
        position: i32,
        wanted: i32,
        length: u32,
    },
    /// An index that no word of a cell has.
    NoWord {
        index: i32,
        bytes: u32,
    },
    /// Two numbers whose sum doesn't fit in an int.
    Sum {
        first: i32,
        second: i32,
    },
    OutOfRange(i32),
    BelowZero(i32),
    /// More items were to be popped than were pushed since the innermost TRAP began.
    TooManyItems {
        wanted: i32,
    },
    /// A text was to be inserted into itself.
    OwnText,
}

/// The values with which a line panicked, and the index, from 0, of the line's word that they are about.
#[derive(Clone, Copy, Debug, PartialEq, Eq)]
pub struct Meant {
    pub word: usize,
    pub values: Values,
}
