//! What is said about a leave that a TRAP caught: which line left, with which code, and that the code is to be looked at.

use crate::runs::end_words::CodeName;
use crate::runs::script_page::{ScriptPage, Written};
use wb_history::{Leave, WatchedRun};

/// Says which line left, and shows the TRAP that caught the leave. Says nothing if `main` was left: another message says so.
pub fn put_caught(page: &mut ScriptPage<'_>, leave: Leave) -> Written {
    let Some(trap) = leave.caught else {
        return Ok(());
    };
    let (line, code) = (leave.at.line, CodeName(leave.code));
    page.mark(
        trap.line,
        format_args!("line {line} left with {code}, and this TRAP caught it"),
    )
}

/// The first leave from the last failed attempt on, or the last leave if no attempt failed. `None` if no TRAP caught it, if no line came
/// after it, or if the next line looks at its code. `None` also if the last leave left `main`, because some line then looked at a code.
pub fn overlooked_leave(page: &ScriptPage<'_>, run: &WatchedRun<'_>) -> Option<Leave> {
    let mut failed = 0;
    for made in run.history.attempts.kept_attempts() {
        if !made.is_granted() {
            failed = made.step;
        }
    }
    let traps = &run.history.traps;
    let last = traps.last_leave()?;
    let leave = match failed {
        0 => last,
        step => traps.leave_between(step, u32::MAX)?,
    };
    let name = page.word(leave.caught?.line, 1);
    if last.caught.is_none() || leave.after == 0 || looks_at(page, leave, name) {
        None
    } else {
        Some(leave)
    }
}

/// Returns the index of the first of the lines by which a leave came about that the leave ended: that of the TRAP's body; 0 if `main` was left.
pub fn first_ended(lines: &[u32], leave: Leave, run: &WatchedRun<'_>) -> usize {
    let Some(trap) = leave.caught else {
        return 0;
    };
    let (bodies, mut first) = (&run.history.bodies, 0);
    for at in 0..lines.len() {
        if let Some(line) = lines.get(at)
            && bodies.body_of(*line) == bodies.body_of(trap.line)
        {
            first = at;
        }
    }
    first
}

/// Whether the line after a leave tests the code `name` with `leaveiferror`, compares it with 0, or tests whether it equals the code of
/// this leave. Any other comparison lets some errors pass.
fn looks_at(page: &ScriptPage<'_>, leave: Leave, name: &str) -> bool {
    let line = leave.after;
    let other = page.word(line, 3);
    let is_this = page.word(line, 1) == "eq" && other.parse::<i32>().ok() == Some(leave.code);
    match page.word(line, 0) {
        "if" => page.word(line, 2) == name && (other == "0" || is_this),
        "leaveiferror" => page.word(line, 1) == name,
        _ => false,
    }
}

/// Says that the code of a leave is to be looked at, and where. `tested` is a pointer that can be tested instead; empty if there is none.
pub fn put_look(page: &mut ScriptPage<'_>, leave: Leave, tested: &str) {
    if let Some(trap) = leave.caught {
        let (line, at, name) = (leave.at.line, trap.line, page.word(trap.line, 1));
        let after = leave.after;
        if page.word(after, 0) == "trap" && page.word(after, 1) == name {
            return page.write_cause(format_args!(
                "line {line} left, to the TRAP of line {at}, and the `trap` of line {after} gave `{name}` another value before a line looked at it: look at `{name}` before that, or let that `trap` set another int, and look at both"
            ));
        }
        if page.word(after, 0) == "if" && page.word(after, 2) == name {
            let (code, other) = (CodeName(leave.code), page.word(after, 3));
            return page.write_cause(format_args!(
                "line {line} left with {code}, to the TRAP of line {at}, and line {after} only compares `{name}` with {other}: deal with each other error too, for example with an `else` that has `leaveiferror {name}`"
            ));
        }
        page.page.begin_help();
        page.page.write(format_args!(
            "line {line} left, to the TRAP of line {at}, and the run went on: look at `{name}` after the `end` of that `trap`, which sets it, for example with `leaveiferror {name}`"
        ));
        if !tested.is_empty() {
            page.page
                .write(format_args!("; or go on where `if some {tested}` holds"));
        }
        page.page.end_line();
    }
}
