//! How large things may be: the limits of scripts, of runs and of the simulated heap. Definitions, code and the command line cite these
//! constants. The code that checks a limit says what happens past the limit.

/// The heap's ceiling: the greatest length that a simulated heap may reach, in bytes (16 MiB). If an attempt would otherwise be granted,
/// but its cell would end past the ceiling, the run is cut short.
pub const CEILING: u32 = 16_777_216;

/// The greatest number of bytes that a statement may request for a cell.
pub const LARGEST_REQUEST: u32 = 1_048_576;

/// The greatest number of units that a statement may request for an HBufC.
pub const MOST_UNITS: u32 = 524_286;

/// The greatest number of turns of a `repeat`.
pub const MOST_TURNS: u32 = 1_048_576;

/// The greatest number of frames at once. A frame is a body that has begun and has not yet ended.
pub const MOST_FRAMES: u32 = 128;

/// The greatest budget of a run, in steps.
pub const LARGEST_BUDGET: u32 = 1_000_000;

/// The budget of a run, in steps, if the command line gives no budget.
pub const DEFAULT_BUDGET: u32 = 10_000;

/// The greatest value, in bytes, that a heap's least length (`--min`) may have.
pub const LARGEST_MINIMUM: u32 = 1_048_576;

/// The least length of a heap, in bytes, if the command line gives no `--min`.
pub const DEFAULT_MINIMUM: u32 = 4096;

/// The smallest growth step (`--step`) of a heap, in bytes.
pub const SMALLEST_STEP: u32 = 16;

/// The greatest growth step of a heap, in bytes.
pub const LARGEST_STEP: u32 = 1_048_576;

/// The growth step of a heap, in bytes, if the command line gives no `--step`.
pub const DEFAULT_STEP: u32 = 4096;

/// The greatest length of a script, in bytes.
pub const LONGEST_SCRIPT: u32 = 65_536;

/// The greatest length of a literal, in bytes, without its quotes.
pub const LONGEST_LITERAL: u32 = 65_536;

/// The greatest length of a name, in bytes.
pub const LONGEST_NAME: u32 = 32;

/// The greatest number that a script may contain, which has nine digits. The least number that a script may contain is the negative of the
/// greatest number.
pub const NINE_DIGITS: u32 = 999_999_999;

/// The greatest number of procedures and operations together.
pub const MOST_PROCEDURES: u32 = 256;

/// The greatest number of classes.
pub const MOST_CLASSES: u32 = 64;

/// The greatest number of fields of a class.
pub const MOST_FIELDS: u32 = 16;

/// The greatest number of extra bytes that a class may give its objects after their fields.
pub const MOST_EXTRA: u32 = 65_536;

/// The greatest number of parameters of a procedure.
pub const MOST_PARAMETERS: u32 = 4;

/// The greatest number of locals of a body, including its parameters.
pub const MOST_LOCALS: u32 = 32;

/// How many levels deep blocks may be nested.
pub const DEEPEST_BLOCK: u32 = 16;

/// The greatest value, in units, that the maximum length of a local buffer may have.
pub const LARGEST_BUFFER: u32 = 256;

/// The greatest length of a printed line, in bytes.
pub const LONGEST_PRINTED: u32 = 80;
