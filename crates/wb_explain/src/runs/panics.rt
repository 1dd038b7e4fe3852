//! What panics mean, in Symbian's words, and what to look for. Both depend on the statement that raised the panic.

use wb_heap_model::heap::Panic;
use wb_history::Counted;
use wb_tree::script::Statement;

/// What was wrong, and what to look for. Each of the two is empty if there is nothing to say.
pub type Meaning = (&'static str, &'static str);

/// What a panic means, and what to look for, given the statement that raised the panic. Panics of heap checks are not covered here.
pub fn meaning_of(panic: Panic, statement: &Statement) -> Meaning {
    match panic {
        Panic::POSITION_OUT_OF_BOUNDS => out_of_bounds(statement),
        Panic::TOO_LONG => ("the text would be longer than its maximum", ""),
        Panic::BAD_CELL => (
            "the pointer names no live cell: it was freed, or has moved",
            "set the pointer to null, for example with `null`, when its cell is freed: freeing null does nothing",
        ),
        Panic::NULL_OR_STALE => (
            "a pointer that the line uses is null, or its cell was freed or has moved",
            CHECK_FIRST,
        ),
        Panic::WRONG_KIND => wrong_kind(statement),
        Panic::POP_BELOW_TRAP => (
            "the cleanup stack has fewer items from the innermost TRAP than were to be popped",
            "",
        ),
        Panic::NO_OPEN_MARK => ("no heap mark is open", "each `markend` closes one `mark`"),
        Panic::TOO_MANY_FRAMES => (
            "this would be the 129th body running at once",
            "look for procedures that call one another without end, or objects that delete one another",
        ),
        Panic::SHORTER_THAN_TEXT => (
            "fewer units are requested than the text has",
            "`getlen` gives the room that it needs; `setlength` can shorten it first",
        ),
        Panic::NUMBER_OUT_OF_RANGE => out_of_range(statement),
        _ => ("", ""),
    }
}

/// What to look for if a pointer is null.
pub const CHECK_FIRST: &str =
    "check with `if some` first; lines that leave, such as `allocl`, never give null";

/// What to look for if a destructor finds a null pointer.
pub const CHECK_IN_DESTRUCTOR: &str =
    "check with `if some` first: a destructor also runs on an object of which only a part was made";

/// What to look for if an operation finds a null pointer.
pub const CHECK_IN_OPERATION: &str =
    "check with `if some` first: a leave runs an operation also where only a part was made of what it undoes";

/// Returns where Symbian raises a panic of this category and number; empty for a panic that only this project has.
pub fn panic_in_symbian(panic: Panic) -> &'static str {
    symbian_of(panic, None)
}

/// Where Symbian raises a panic of this category and number, or which panic a Symbian developer would meet instead; empty for a panic
/// that only this project has. `counted` are the cells that a failed check counted.
pub fn symbian_of(panic: Panic, counted: Option<&Counted>) -> &'static str {
    match panic {
        Panic::POSITION_OUT_OF_BOUNDS => {
            "USER 10 in Symbian: a position passed to a 16-bit descriptor is out of bounds"
        }
        Panic::TOO_LONG => {
            "USER 11 in Symbian: a 16-bit descriptor would become longer than its maximum length"
        }
        Panic::BAD_CELL => {
            "USER 42 in Symbian: a pointer passed to RHeap::Free, AllocLen or ReAlloc is not that of a valid cell"
        }
        Panic::POP_BELOW_TRAP => {
            "E32USER-CBase 63 in Symbian: CleanupStack::Pop or PopAndDestroy is asked for more items than were pushed"
        }
        Panic::ANOTHER_ITEM_ON_TOP => {
            "E32USER-CBase 90 in Symbian: the item passed to CleanupStack::Pop or PopAndDestroy is not the one on top"
        }
        Panic::ITEMS_LEFT => {
            "E32USER-CBase 71 in Symbian: a TRAP ends while items that were pushed inside it are still on the cleanup stack"
        }
        Panic::Alloc(_) => match counted.and_then(|it| it.lowest()) {
            None =>
                "ALLOC in Symbian: __UHEAP_MARKEND or a heap check found a different number of cells than expected",
            Some(_) =>
                "ALLOC in Symbian: __UHEAP_MARKEND or a heap check found a different number of cells than expected; the number is a cell's address",
        },
        _ => "",
    }
}

fn out_of_bounds(statement: &Statement) -> Meaning {
    let length = "`getlen` gives the number of units in the text";
    match statement {
        Statement::Insert(..) | Statement::DeleteText(..) => (
            "the position is past the end of the text",
            "a position is between 0 and the text's length, which `getlen` gives",
        ),
        Statement::Left(..) | Statement::Right(..) => ("the text is shorter than that", length),
        _ => ("the part would end past the end of the text", length),
    }
}

fn wrong_kind(statement: &Statement) -> Meaning {
    match statement {
        Statement::Construct(_) | Statement::Delete(_) | Statement::PushObject(_) => (
            "the pointer does not name an object but a cell of another kind",
            "what `alloc` and `hnew` make is freed with `free`",
        ),
        Statement::Store(..) | Statement::Load(..) | Statement::Realloc(..) => (
            "the cell is not a plain one but that of a text or an object",
            "texts have statements of their own, such as `hrealloc`; an object's fields are named with a dot",
        ),
        Statement::PrintText(_) => (
            "the cell is not that of a text",
            "`print` takes a pointer only to a text, which `hnew` makes: name the field of an object, and `load` a word of a cell first",
        ),
        _ => (
            "a cell that the line uses is of another kind, or its object is of another class",
            "the kind of a cell is that of the line that made it: `alloc` makes a plain one, `hnew` a text, `new` an object",
        ),
    }
}

fn out_of_range(statement: &Statement) -> Meaning {
    match statement {
        Statement::Add(..) => (
            "the sum does not fit in an int",
            "an int goes from -2147483648 to 2147483647",
        ),
        Statement::Store(..) | Statement::Load(..) => (
            "the cell has no word with that index",
            "indexes start at 0, a word is 4 bytes, and `alloclen` gives the cell's length in bytes",
        ),
        Statement::Insert(..) => (
            "the position is below 0, or a text was to be inserted into itself",
            "a position is between 0 and the text's length; copy a text elsewhere before inserting it into itself",
        ),
        Statement::DeleteText(..)
        | Statement::SetLength(..)
        | Statement::Left(..)
        | Statement::Right(..)
        | Statement::Mid(..) => (
            "a number is below 0",
            "positions, lengths and counts of units are 0 or more",
        ),
        Statement::Pop(_)
        | Statement::PopDestroy(_)
        | Statement::Check(_)
        | Statement::CheckAll(_)
        | Statement::MarkEnd(_) => (
            "the number is below 0",
            "numbers of items and cells are 0 or more",
        ),
        Statement::Repeat(..) => (
            "the number of turns is out of range",
            "a `repeat` takes from 0 to 1048576 turns",
        ),
        Statement::NewText(..) | Statement::ReallocText(..) => (
            "the number of units is out of range",
            "a text in a cell has room for 0 to 524286 units",
        ),
        Statement::FailNext(_) | Statement::FailEvery(_) => (
            "the number of the attempt is out of range",
            "attempts that are to fail are counted from 1 up",
        ),
        _ => (
            "the number of bytes is out of range",
            "a cell has room for 0 to 1048576 bytes",
        ),
    }
}
