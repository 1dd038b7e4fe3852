//! A change by which lines that a script has come to another place, come once more, or are left out; or by which a cell that was only lent
//! is kept while lines use it.

/// A change of lines. Lines are numbered from 1, as they are before the change.
#[derive(Clone, Copy, Debug, PartialEq, Eq)]
pub enum LineChange<'a> {
    /// A line that releases what a local names comes once more before line `before`, which ends the body, or a block, early.
    Released {
        release: u32,
        before: u32,
        name: &'a str,
    },
    /// Lines `first` to `last`, which release what a body has, come once more before line `before`, which ends the body early.
    AllReleased {
        first: u32,
        last: u32,
        before: u32,
    },
    /// Each `leaveifnull` of lines `first` to `last` first frees what the others look at, where it leaves.
    FreedForNull {
        first: u32,
        last: u32,
    },
    /// A line that pushes comes before line `before`, the first of its body, and line `release`, which releases what it pushes, is left out.
    TakenOver {
        push: u32,
        before: u32,
        release: u32,
    },
    /// A line that pops items comes once more before line `before`, which returns.
    Popped {
        pop: u32,
        before: u32,
    },
    /// A line that left comes before line `before`, which stands above it.
    Sooner {
        line: u32,
        before: u32,
    },
    /// A line that looks at a pointer looks at the one that line `asked` was to give a cell.
    OtherTest {
        test: u32,
        asked: u32,
    },
    /// A line that pushes an item inside the `if` of line `head` comes before that. Line `pop` took off an item; it is 0 if it isn't known.
    PushedAlways {
        push: u32,
        head: u32,
        pop: u32,
    },
    /// A line that pops an item comes before the `end` of line `end`, into the `if` of line `head`.
    PoppedInside {
        pop: u32,
        head: u32,
        end: u32,
    },
    /// After line `lent` copied a field's pointer to a local, the field is null, and the local's cell has an item, up to line `last`. Line
    /// `freed` freed the cell; line `call` called the body of that line.
    TakenOut {
        lent: u32,
        last: u32,
        push: &'static str,
        call: u32,
        freed: u32,
    },
    /// A line that releases what line `freed` released is left out.
    ReleasedOnce {
        line: u32,
        freed: u32,
    },
    /// Lines `first` to `last`, after the TRAP of line `trap`, run only if the TRAP's code is 0.
    OnlyIfFine {
        trap: u32,
        first: u32,
        last: u32,
        name: &'a str,
    },
    /// A line comes before line `before`, which releases what it uses.
    UsedFirst {
        line: u32,
        before: u32,
    },
    /// A line that returns null to line `call` returns a parameter.
    Returns {
        line: u32,
        name: &'a str,
        call: u32,
    },
    /// A new pointer of the body that begins at line `body` gets what line `call` returns, and that line's target gets it only if it isn't null.
    KeptIfNull {
        body: u32,
        call: u32,
    },
    /// After line `lent` copied a field to the local that line `push` pushes, the field is null, and it gets the cell again after line `pop`.
    GivenBack {
        lent: u32,
        push: u32,
        pop: u32,
    },
    /// The view that line `declared` declares is a buffer of so many units, which gets a copy of what line `made` lets a new view show.
    ViewCopied {
        declared: u32,
        made: u32,
        units: u32,
    },
    /// The word that line `load` loads is 0 before line `before`.
    CountReset {
        load: u32,
        before: u32,
    },
    /// The statement of a line that left comes after line `after`, which stands below it.
    LeavesLater {
        line: u32,
        after: u32,
    },
    /// The TRAP of line `other` sets a new int of the body that begins at line `body`, since it set that of the TRAP of line `trap`.
    OwnCode {
        body: u32,
        trap: u32,
        other: u32,
        name: &'a str,
    },
    /// A line that compares the code of a TRAP with one code looks for any error.
    AnyCode {
        trap: u32,
        test: u32,
        name: &'a str,
    },
    /// Before a line that uses a pointer which no line could set, the run leaves if the pointer is null.
    NeverSet {
        line: u32,
        name: &'a str,
    },
    /// A line that asks for memory leaves if there is none.
    AsksLeaving {
        line: u32,
    },
    /// A new pointer of the body that begins at line `body` gets the answer of a line that reallocates, and the old cell is freed if it is null.
    ReallocKept {
        body: u32,
        line: u32,
        name: &'a str,
    },
    /// A new pointer of the body that begins at line `body` gets the cell that a line makes before line `before`, and an item, and gives it to the
    /// field at that line.
    MadePushed {
        body: u32,
        make: u32,
        before: u32,
        push: &'static str,
        name: &'a str,
    },
    /// A line that pushes an item inside the `if` of line `head` comes after its line `end`.
    PushedAfter {
        push: u32,
        head: u32,
        end: u32,
    },
    /// After line `freed` released a cell, another field that names it becomes null.
    AliasNull {
        freed: u32,
        owner: &'a str,
        field: &'a str,
    },
    /// A line that copies a pointer to a field that line `later` sets anyway is left out.
    CopyLeftOut {
        line: u32,
        later: u32,
    },
    /// A line takes off this many items; it is left out if these are none.
    PopCount {
        line: u32,
        count: u32,
    },
    /// A line that releases a cell comes out of the `if` of line `head`, after its line `end`.
    MovedOut {
        line: u32,
        head: u32,
        end: u32,
    },
    /// Before the line of a second phase, the object is destroyed, made anew as at line `make`, and pushed.
    Remade {
        make: u32,
        construct: u32,
        name: &'a str,
    },
    /// Lines `first` to `last` are left out, since the operation of the item of line `pushed` did the same for a leave, or since the leave came
    /// before what they undo, if `pushed` is 0.
    DoneByItem {
        first: u32,
        last: u32,
        pushed: u32,
    },
}
