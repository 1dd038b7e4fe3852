//! The TRAPs that are open, and the leaves.

use crate::moments::{Held, Moment};
use std::alloc::{AllocError, Global};

/// The most leaves that are kept. Each further leave replaces the last one.
const MOST_LEAVES: usize = 100_000;

/// A TRAP of the script that is or was open.
#[derive(Clone, Copy, Debug, PartialEq, Eq)]
pub struct OpenTrap {
    pub line: u32,
    /// The step in which the TRAP began.
    pub since: u32,
    /// How many items were on the cleanup stack when the TRAP began.
    pub items: usize,
}

/// A leave.
#[derive(Clone, Copy, Debug, PartialEq, Eq)]
pub struct Leave {
    pub at: Moment,
    pub code: i32,
    /// How many bodies ran.
    depth: u32,
    /// The TRAP that caught the leave; `None` if `main` was left.
    pub caught: Option<OpenTrap>,
    /// The first other line that was begun after the leave, outside of operations and destructors; 0 if there is none.
    pub after: u32,
}

impl Leave {
    /// Whether this leave cut short the code in which a pointer was set to a cell. The pointer was then set after the leave's TRAP began
    /// and before the leave, in a body that was still running.
    fn ends(&self, held: Held) -> bool {
        let since = match self.caught {
            Some(trap) => trap.since,
            None => 0,
        };
        since <= held.since && held.since <= self.at.step && u32::from(held.depth) <= self.depth
    }
}

/// The TRAPs that are open, and the leaves.
pub struct Traps {
    open: Vec<OpenTrap>,
    last_ended: Option<OpenTrap>,
    /// The leaves, the oldest first. The newest leave is always kept, as the last.
    leaves: Vec<Leave>,
}

/// Written by hand, so that dropping such a value is a single call in a proof. Only this function goes over
/// the fields.
impl Drop for Traps {
    fn drop(self) {
        let Traps {
            open: _,
            last_ended: _,
            leaves: _,
        } = self;
    }
}

impl Traps {
    /// No TRAP is open yet.
    pub fn new(alloc: Global) -> Traps {
        Traps {
            open: Vec::new(alloc),
            last_ended: None,
            leaves: Vec::new(alloc),
        }
    }

    /// Returns the TRAPs that are open, the innermost last.
    pub fn open_traps(&self) -> &[OpenTrap] {
        self.open.as_slice()
    }

    /// Returns the TRAP that ended last; `None` if none did.
    pub fn last_ended(&self) -> Option<OpenTrap> {
        self.last_ended
    }

    /// Returns the leave that came last; `None` if none did.
    pub fn last_leave(&self) -> Option<Leave> {
        self.leaves.last().copied()
    }

    /// Returns the first leave in the steps from `from` up to, but without, `until`; `None` if there is none.
    pub fn leave_between(&self, from: u32, until: u32) -> Option<Leave> {
        for leave in self.leaves.as_slice() {
            if from <= leave.at.step && leave.at.step < until {
                return Some(*leave);
            }
        }
        None
    }

    /// Returns the first leave that cut short the code in which a pointer was set to a cell; `None` if no leave did.
    pub fn leave_that_ended(&self, held: Held) -> Option<Leave> {
        for leave in self.leaves.as_slice() {
            if leave.ends(held) {
                return Some(*leave);
            }
        }
        None
    }

    /// A TRAP begins.
    pub fn begin(&mut self, trap: OpenTrap) -> Result<(), AllocError> {
        self.open.push(trap)?;
        Ok(())
    }

    /// A leave with a code begins while `depth` bodies run, and the innermost TRAP catches it. Returns how many items were on the cleanup
    /// stack when that TRAP began; 0 if `main` was left.
    pub fn leave(&mut self, at: Moment, code: i32, depth: u32) -> Result<usize, AllocError> {
        let caught = self.open.last().copied();
        if self.leaves.len() >= MOST_LEAVES {
            self.leaves.pop();
        }
        self.leaves.push(Leave {
            at,
            code,
            depth,
            caught,
            after: 0,
        })?;
        Ok(caught.map_or(0, |trap| trap.items))
    }

    /// A line begins outside of operations and destructors.
    #[inline(always)]
    pub fn begin_line(&mut self, line: u32) {
        if let Some(newest) = self.leaves.last_mut()
            && newest.after == 0
            && newest.at.line != line
        {
            newest.after = line;
        }
    }

    /// Only the outermost `count` TRAPs are still open.
    pub fn keep(&mut self, count: usize) {
        if let Some(ended) = self.open.get(count) {
            self.last_ended = Some(*ended);
        }
        self.open.truncate(count);
    }
}
