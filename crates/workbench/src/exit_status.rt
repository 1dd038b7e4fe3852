//! The exit statuses of the program. They are numbers, not an enum, because a JSON report has its status as a number, and contracts
//! state the status of each answer as a number.

/// Nothing was found.
pub const NOTHING_FOUND: u8 = 0;

/// A leak or a panic was found.
pub const FOUND: u8 = 1;

/// The script is rejected.
pub const REJECTED: u8 = 2;

/// A run was cut.
pub const CUT: u8 = 3;

/// The workbench's own memory ran out.
pub const WANT_OF_MEMORY: u8 = 4;

/// A read or a write failed.
pub const READ_OR_WRITE_FAULT: u8 = 5;

/// The command line has a fault.
pub const COMMAND_LINE_FAULT: u8 = 6;
