//! Open blocks, and what a line does to the innermost open block.

/// How far an open block has come, which decides what may come next in it.
#[derive(Clone, Copy)]
pub enum Open {
    /// A class: fields, bodies or the end.
    Fields,
    /// A class after its `construct`: its `destroy` or the end.
    Made,
    /// A class after its `destroy`: only the end.
    Destroyed,
    /// A body before its first statement: declarations, statements or the end.
    Declarations,
    /// A body after its first statement: statements or the end.
    Statements,
    /// The first part of an `if`: statements, its `else` or the end.
    Branch,
    /// A `repeat`, a `trap`, or the second part of an `if`: statements or the end.
    Block,
}

/// What a line does to the innermost open block.
#[derive(Clone, Copy)]
pub enum Move {
    /// Ends the block.
    Close,
    /// Leaves the block open, at this place. The first line of a class, a procedure or an operation also makes this move, to open it.
    Stay(Open),
    /// Leaves the block open at the first place, and opens a block inside it at the second place.
    Enter(Open, Open),
}
