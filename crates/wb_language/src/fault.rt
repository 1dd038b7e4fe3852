//! Why the bytes of a file are not a script: the rules that a script may break.

/// The first fault of a script. The checks are made in the order of these variants, and each check goes over the whole script before the
/// next check begins. Lines count from 1.
#[derive(Clone, Copy, Debug, PartialEq, Eq)]
pub enum ScriptFault {
    /// More than 65,536 bytes.
    TooLong,
    /// A byte that is neither tab, line feed, carriage return nor printable ASCII.
    NotAscii { line: u32 },
    /// No script has this line at this point, whatever lines follow. If the file ends too early, `line` is the number after that of its
    /// last line.
    Grammar { line: u32 },
    /// A name that is not declared.
    UnknownName { line: u32 },
    /// The second declaration of a name.
    DoubleName { line: u32 },
    /// An operand of a kind that its line doesn't take.
    WrongKind { line: u32 },
    /// A line that may leave, in the body of a destructor or of a cleanup operation.
    MayLeave { line: u32 },
    /// No procedure `main`.
    NoMain,
    /// The first line with which the script exceeds one of its limits, such as the number of its classes.
    TooMany { line: u32 },
    /// The workbench's own memory ran out. This fault says nothing about the script.
    NoMemory,
}
