//! Shapes of heaps for the tables of the tests. In all shapes but the last, a cell that grows stays at its place if possible.

use wb_heap_model::heap::Shape;

/// The shape of most heaps in the tables.
pub(crate) const SHAPE: Shape = Shape {
    min: 0,
    step: 4096,
    moving: false,
};

/// The heap has the least growth step that a heap may have.
pub(crate) const SMALL_STEP: Shape = Shape {
    min: 0,
    step: 16,
    moving: false,
};

/// The heap has a least length, and a growth step that is less than this length.
pub(crate) const WITH_MINIMUM: Shape = Shape {
    min: 256,
    step: 64,
    moving: false,
};

/// The heap has the least growth step that a heap may have, and each cell that grows moves.
pub(crate) const MOVING: Shape = Shape {
    min: 0,
    step: 16,
    moving: true,
};
