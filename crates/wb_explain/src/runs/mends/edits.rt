//! A change of a script.

use crate::runs::mends::line_changes::LineChange;

/// A change of a script that may mend it. Lines are numbered from 1, as they are before the change.
#[derive(Clone, Copy, Debug, PartialEq, Eq)]
pub enum Mend<'a> {
    /// A line that was done before the statement of line `failed` failed, or left, comes after line `after`.
    Later {
        line: u32,
        failed: u32,
        has_left: bool,
        after: u32,
    },
    /// A line that hadn't come when the statement of line `failed` left comes before that.
    Earlier {
        line: u32,
        failed: u32,
    },
    /// After a `set` to what another pointer names, that pointer becomes null.
    GivenAway {
        line: u32,
        name: &'a str,
    },
    /// After a line that releases what a field names, the field becomes null.
    Released {
        line: u32,
        name: &'a str,
    },
    /// Before a line that left and that would have given a pointer its value, the pointer becomes null.
    OldValue {
        line: u32,
        name: &'a str,
    },
    /// The cell that a local names has an item on the cleanup stack while lines `first` to `last` run.
    Item {
        first: u32,
        last: u32,
        push: &'static str,
        name: &'a str,
    },
    /// A push and the line that pops its item are left out.
    WithoutItem {
        push: u32,
        pop: u32,
    },
    /// The item that a call leaves is popped right after line `after`.
    Pop {
        after: u32,
    },
    /// A line that set a pointer before line `freed` freed its cell comes after line `after`.
    AfterFreed {
        line: u32,
        freed: u32,
        after: u32,
    },
    /// A null pointer gets an item before line `before`.
    NullItem {
        before: u32,
        name: &'a str,
    },
    /// The body of line `destroy` begins by releasing a field.
    Destroyed {
        destroy: u32,
        verb: &'static str,
        field: &'a str,
    },
    /// A body takes off one item more before line `before`, by `popdestroy` or by `pop`.
    OneItemLess {
        before: u32,
        verb: &'static str,
    },
    /// A line comes once more before line `before`.
    Again {
        line: u32,
        before: u32,
    },
    /// After the TRAP of lines `trap` to `end`, the code that it gave is looked at. Line `again` gives the int another value; it is 0 if none does.
    CodeLookedAt {
        trap: u32,
        end: u32,
        again: u32,
        name: &'a str,
    },
    /// A line that pops several items before the statement of line `failed` left pops `here` of them, and the others come off after line
    /// `after`.
    PopLater {
        line: u32,
        here: u32,
        later: u32,
        failed: u32,
        after: u32,
    },
    /// A line that pops several items after the statement of line `failed` left pops `here` of them, and the others come off before that
    /// statement.
    PopEarlier {
        line: u32,
        before: u32,
        here: u32,
        failed: u32,
    },
    /// A line that gives a text or a cell as much room as `had` gives as much as `room`, which line `used` takes. Line `failed` was to make
    /// another one.
    Room {
        line: u32,
        failed: u32,
        used: u32,
        room: u32,
        had: u32,
    },
    /// A new pointer of the body that begins at line `body` gets the cell that a line makes before line `before`, and the line then gives it
    /// to the field.
    MadeFirst {
        body: u32,
        make: u32,
        before: u32,
        name: &'a str,
    },
    /// A new pointer of the body that begins at line `body` has the cell that a line makes up to line `after`, and then gives it to the field.
    /// The statement of line `failed` left.
    SetLater {
        body: u32,
        make: u32,
        failed: u32,
        after: u32,
        push: &'static str,
        name: &'a str,
    },
    /// A line that releases a cell is left out, since the item of line `pushed` does so, or line `used` if `pushed` is 0.
    LeftOut {
        line: u32,
        pushed: u32,
        used: u32,
    },
    /// A line that releases a cell is left out, since line `left` left and so destroyed the cell with its item.
    Needless {
        line: u32,
        left: u32,
    },
    /// Before line `before` returns, the cell that a local names is released.
    FreedAtReturn {
        before: u32,
        verb: &'static str,
        name: &'a str,
    },
    /// A line of a destructor or an operation is done only where a pointer isn't null.
    Checked {
        line: u32,
        name: &'a str,
    },
    /// Lines come to another place, come once more, or are left out.
    Lines(LineChange<'a>),
    /// Before a line that gives a pointer another cell, the cell that the pointer names is released.
    FreedFirst {
        line: u32,
        verb: &'static str,
        name: &'a str,
    },
    /// Lines `from` to `to`, which push an item, come before line `before`; lines `one` and `other`, which pop items by name, change places;
    /// they are 0 if there are none. The destruction of the item of line `user` uses what line `to` pushes.
    PushedBefore {
        from: u32,
        to: u32,
        before: u32,
        user: u32,
        one: u32,
        other: u32,
    },
    /// A push is left out, and a line below it that takes off several items takes off only this many; it is left out if these are none.
    PushedOnce {
        push: u32,
        line: u32,
        count: u32,
    },
    /// After a line that makes a pointer null, the number that line `stored` stored gets its old value again.
    StoredBack {
        stored: u32,
        after: u32,
        owner: &'a str,
        field: &'a str,
        index: &'a str,
        number: i32,
    },
    /// A line that reallocates leaves if its attempt fails.
    Leaving {
        line: u32,
    },
    /// After a line that may give a pointer null, the run leaves if it did.
    NullLeaves {
        line: u32,
        name: &'a str,
    },
}
