//! The heap marks that are open, and the leaves that skipped the ends of some of them.

use std::alloc::{AllocError, Global};

/// A heap mark that is or was open.
#[derive(Clone, Copy, Debug, PartialEq, Eq)]
pub struct OpenMark {
    pub line: u32,
    /// The step in which the mark was opened.
    pub since: u32,
    /// The line of the leave that skipped the code that would have closed the mark; 0 if no leave did.
    pub skipped_by: u32,
}

/// The heap marks that are open.
#[derive(Drop)]
pub struct Marks {
    open: Vec<OpenMark>,
    /// The line that last closed a mark; 0 if no line did.
    pub closed_at: u32,
    /// The last closed mark whose own end a leave had skipped, and the line that then closed this mark.
    pub closed_late: Option<(OpenMark, u32)>,
}

impl Marks {
    /// No mark is open yet.
    pub fn new(alloc: Global) -> Marks {
        Marks {
            open: Vec::new(alloc),
            closed_at: 0,
            closed_late: None,
        }
    }

    /// Returns the mark that is to be closed next; `None` if none is open.
    pub fn newest(&self) -> Option<OpenMark> {
        self.open.last().copied()
    }

    /// A line opens a mark.
    pub fn begin(&mut self, line: u32, since: u32) -> Result<(), AllocError> {
        self.open.push(OpenMark {
            line,
            since,
            skipped_by: 0,
        })?;
        Ok(())
    }

    /// A line closes the newest mark.
    pub fn end(&mut self, line: u32) {
        self.closed_at = line;
        if let Some(mark) = self.open.pop()
            && mark.skipped_by != 0
        {
            self.closed_late = Some((mark, line));
        }
    }

    /// A line leaves to a TRAP that began in the step `since`. The leave skips the ends of the marks that were opened inside this TRAP.
    pub fn leave(&mut self, since: u32, line: u32) {
        for mark in self.open.as_mut_slice() {
            if mark.since >= since && mark.skipped_by == 0 {
                mark.skipped_by = line;
            }
        }
    }
}
