//! What a panic means, and what to look for, if the destruction of an item or an object raised the panic.

use crate::runs::panics::Meaning;
use wb_heap_model::heap::Panic;
use wb_history::End;

/// What a panic means, and what to look for, if an item of the cleanup stack raised the panic when it was destroyed. `end` is how the life
/// of the item's cell ended; `None` if that life hasn't ended, or if its end isn't known.
pub fn of_item(panic: Panic, end: Option<End>) -> Meaning {
    match panic {
        Panic::NULL_OR_STALE => (
            "the cleanup stack destroyed an item whose object had already been deleted or freed",
            "pop an item before its object is deleted elsewhere",
        ),
        Panic::WRONG_KIND => (
            "an item of the cleanup stack was to be deleted, but its cell does not hold an object",
            "`pushobj` is for objects; what `alloc` and `hnew` make is pushed with `push`",
        ),
        Panic::TOO_MANY_FRAMES => (
            "the cleanup stack destroyed an item whose body would be the 129th running at once",
            "look for procedures that call one another without end, or objects that delete one another",
        ),
        _ => of_item_without_cell(end),
    }
}

/// What it means that an item's cell is gone, and what to look for. Both depend on how the cell's life ended.
pub fn of_item_without_cell(end: Option<End>) -> Meaning {
    match end {
        Some(End::Moved) => (
            "the cleanup stack destroyed an item whose cell had moved",
            "pop the item after the line that moves its cell, not before, since that line may leave; then push the new pointer",
        ),
        Some(End::Freed | End::Deleted) => (
            "the cleanup stack destroyed an item whose cell had already been freed",
            "pop an item before its cell is freed elsewhere",
        ),
        None => (
            "the cleanup stack destroyed an item whose cell had already been freed or had moved",
            "pop an item before its cell is freed elsewhere",
        ),
    }
}

/// What a panic means, and what to look for, if the release of an object raised the panic after the object's destructor.
pub const OF_OBJECT: Meaning = (
    "the object's cell was freed while its destructor ran",
    "`delete` frees the cell itself, after `destroy` has run",
);
