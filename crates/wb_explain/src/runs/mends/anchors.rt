//! The statements at which a run went wrong: those that failed or left, and those that hold them.

use crate::runs::mends::blocks::{begins_body, block_around, last_line_of};
use std::alloc::{AllocError, Global};
use wb_history::{ScriptLines, WatchedRun};

/// The most statements that are looked at.
const MOST_ANCHORS: usize = 24;

/// A statement that failed or left, or that holds such a statement: its first and its last line.
#[derive(Clone, Copy, Debug, PartialEq, Eq)]
pub struct Anchor {
    pub first: u32,
    pub last: u32,
    /// Whether a leave ended the statement, or was caught by it; otherwise an attempt of the statement failed, and the run went on.
    pub has_left: bool,
}

/// Returns the statements at which a run went wrong: first those that the last leave ended, the innermost first, up to the TRAP that caught
/// it; and then those whose attempts failed. The only error is that memory ran out.
pub fn anchors_of(
    alloc: Global,
    lines: &ScriptLines<'_>,
    run: &WatchedRun<'_>,
) -> Result<Vec<Anchor>, AllocError> {
    let mut anchors = Vec::new(alloc);
    if let Some(leave) = run.history.traps.last_leave() {
        let mut path = run.history.calls.lines_of(leave.at.path)?;
        for _ in 0..path.len() {
            if let Some(line) = path.pop()
                && add_around(&mut anchors, lines, line)?
            {
                break;
            }
        }
    }
    for made in run.history.attempts.kept_attempts() {
        if anchors.len() >= MOST_ANCHORS {
            break;
        }
        if !made.is_granted() {
            add_failed(&mut anchors, made.maker.line)?;
        }
    }
    Ok(anchors)
}

/// Adds the statement of a line whose attempt failed, unless it is there.
fn add_failed(anchors: &mut Vec<Anchor>, line: u32) -> Result<(), AllocError> {
    for anchor in anchors.as_slice() {
        if anchor.first == line {
            return Ok(());
        }
    }
    anchors.push(Anchor {
        first: line,
        last: line,
        has_left: false,
    })?;
    Ok(())
}

/// Adds the statement of a line that left, and those around it in the same body, up to a TRAP. Returns whether there is a TRAP.
fn add_around(
    anchors: &mut Vec<Anchor>,
    lines: &ScriptLines<'_>,
    line: u32,
) -> Result<bool, AllocError> {
    let mut first = line;
    for _ in 0..MOST_ANCHORS {
        if first == 0 || begins_body(lines, first) || anchors.len() >= MOST_ANCHORS {
            break;
        }
        anchors.push(Anchor {
            first,
            last: last_line_of(lines, first),
            has_left: true,
        })?;
        if lines.word(first, 0) == "trap" {
            return Ok(true);
        }
        first = block_around(lines, first);
    }
    Ok(false)
}
