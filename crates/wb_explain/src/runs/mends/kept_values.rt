//! Changes by which a pointer that a call was to replace keeps its cell where the call returns null.

use crate::runs::mends::blocks::{begins_body, block_around};
use crate::runs::mends::candidates::{Mends, leak_of};
use crate::runs::mends::edits::Mend;
use crate::runs::mends::line_changes::LineChange;
use std::alloc::AllocError;
use wb_history::{ScriptLines, WatchedRun};

/// The most arguments of a call.
const MOST_ARGUMENTS: usize = 4;

/// Where the arguments of a `callto`, and the parameters of a `proc`, begin among the words of a line.
const FIRST_ARGUMENT: usize = 3;

const FIRST_PARAMETER: usize = 2;

/// Proposes, if a `callto` gave null to a pointer that it also gave as an argument, and this was the last pointer to a cell that leaks, that the
/// procedure returns its parameter then, or that the pointer gets its value only if that isn't null.
pub fn add_kept_values<'a>(
    mends: &mut Mends<'a>,
    lines: &ScriptLines<'a>,
    run: &WatchedRun<'_>,
) -> Result<(), AllocError> {
    let Some(life) = leak_of(run, 0) else {
        return Ok(());
    };
    let call = life.overwritten.number();
    let index = argument_with(lines, call);
    if lines.word(call, 0) != "callto" || index == MOST_ARGUMENTS {
        return Ok(());
    }
    let begin = begin_of(lines, lines.word(call, 2));
    let parameter = lines.word(begin, FIRST_PARAMETER.saturating_add(index));
    if let Some((name, _)) = parameter.split_once(':') {
        add_returns(mends, lines, begin, name, call)?;
    }
    mends.add(Mend::Lines(LineChange::KeptIfNull {
        body: run.history.bodies.body_of(call).line,
        call,
    }))
}

/// Proposes, for each `return` without a pointer inside a block of a procedure, that it returns a parameter.
fn add_returns<'a>(
    mends: &mut Mends<'a>,
    lines: &ScriptLines<'a>,
    begin: u32,
    name: &'a str,
    call: u32,
) -> Result<(), AllocError> {
    for line in begin.saturating_add(1)..=lines.count() {
        if begins_body(lines, line) {
            break;
        }
        let is_bare = lines.word(line, 0) == "return" && lines.word(line, 1).is_empty();
        if is_bare && block_around(lines, line) != begin {
            mends.add(Mend::Lines(LineChange::Returns { line, name, call }))?;
        }
    }
    Ok(())
}

/// Which argument of a `callto` is its target, counted from 0; `MOST_ARGUMENTS` if none is.
fn argument_with(lines: &ScriptLines<'_>, call: u32) -> usize {
    for index in 0..MOST_ARGUMENTS {
        if lines.word(call, FIRST_ARGUMENT.saturating_add(index)) == lines.word(call, 1) {
            return index;
        }
    }
    MOST_ARGUMENTS
}

/// The line that begins the procedure with this name; 0 if there is none.
fn begin_of(lines: &ScriptLines<'_>, name: &str) -> u32 {
    for line in 1..=lines.count() {
        if lines.word(line, 0) == "proc" && lines.word(line, 1) == name {
            return line;
        }
    }
    0
}
