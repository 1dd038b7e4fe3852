//! Changes by which a text or a cell that took the place of another one gets as much room as is used.

use crate::runs::mends::candidates::Mends;
use crate::runs::mends::edits::Mend;
use std::alloc::AllocError;
use wb_history::{ScriptLines, Values, WatchedRun};

/// The most units of a buffer.
const MOST_UNITS: u32 = 256;

/// Proposes, if a panic is about a text or a cell that is too short, that it is made longer; or, if the attempt that failed was to make a text
/// longer, that the run leaves then.
pub fn add_room<'a>(
    mends: &mut Mends<'a>,
    lines: &ScriptLines<'a>,
    run: &WatchedRun<'_>,
) -> Result<(), AllocError> {
    let Some(meant) = run.end.values else {
        return Ok(());
    };
    let (room, had) = match meant.values {
        Values::WouldHave { units, maximum } => (units, maximum),
        Values::NoWord { index, bytes } => (bytes_up_to(index), bytes),
        _ => return Ok(()),
    };
    let (failed, line) = (failed_line(run), line_of_room(lines, run, room));
    if lines.word(failed, 0) == "hrealloc" {
        return mends.add(Mend::NullLeaves {
            line: failed,
            name: lines.word(failed, 1),
        });
    }
    if failed == 0 || line == 0 || failed == line || room <= had {
        return Ok(());
    }
    mends.add(Mend::Room {
        line,
        failed,
        used: run.history.last_line(),
        room,
        had,
    })
}

/// How many bytes a cell needs that has a word with this index; 0 if the index is below 0.
fn bytes_up_to(index: i32) -> u32 {
    match u32::try_from(index) {
        Ok(index) => index.saturating_add(1).saturating_mul(4),
        Err(_) => 0,
    }
}

/// The line of the last failed attempt; 0 if none failed.
fn failed_line(run: &WatchedRun<'_>) -> u32 {
    let mut failed = 0;
    for made in run.history.attempts.kept_attempts() {
        if !made.is_granted() {
            failed = made.maker.line;
        }
    }
    failed
}

/// The line whose numeral says how much room the text or the cell of a panic has; 0 if there is none.
fn line_of_room(lines: &ScriptLines<'_>, run: &WatchedRun<'_>, room: u32) -> u32 {
    if run.end.names.number == 0 {
        return if room <= MOST_UNITS {
            line_of_buffer(lines, run)
        } else {
            0
        };
    }
    let made = match run.history.lives.find(run.end.names) {
        Some(life) => life.made.number(),
        None => 0,
    };
    match lines.word(made, 0) {
        "hnew" | "hnewl" | "alloc" | "allocl" => made,
        _ => 0,
    }
}

/// The line that declares the buffer which the last line edits; 0 if it edits none.
fn line_of_buffer(lines: &ScriptLines<'_>, run: &WatchedRun<'_>) -> u32 {
    let used = run.history.last_line();
    let name = lines.word(used, 1);
    for line in run.history.bodies.body_of(used).line..used {
        if lines.word(line, 0) == "buf" && lines.word(line, 1) == name {
            return line;
        }
    }
    0
}
