//! Parts of sweeps: which attempt numbers or rates a sweep tries.

use wb_basics::limits::CEILING;

/// The attempt numbers or rates that a sweep tries: all from `from` to `to`, both included. A sweep tries a pair or a larger set if the
/// least number of the pair or set is in this range. Source: this project's profile.
#[derive(Clone, Copy, Debug, PartialEq, Eq)]
pub struct Part {
    /// The least number that is tried. Number 0 stands for the run without failure.
    pub from: u32,
    /// The greatest number that is tried.
    pub to: u32,
}

impl Part {
    /// All numbers that a command may name.
    pub const WHOLE: Part = Part {
        from: 0,
        to: CEILING,
    };
}
