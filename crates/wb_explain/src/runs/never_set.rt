//! What is said about a pointer that is null since the line that was to set it left.

use crate::runs::end_words::CodeName;
use crate::runs::panics::CHECK_FIRST;
use crate::runs::script_page::{ScriptPage, Written};
use wb_history::{Leave, OpenTrap, PointerFault, PointerState, WatchedRun};

/// What to look for if a pointer is null, and a TRAP caught a leave.
const CHECK_AFTER_LEAVE: &str =
    "check with `if some` first: a line that leaves doesn't set its pointer, which is then still null after the TRAP";

/// Says which line left last, to which TRAP, if a panic is about a pointer that was never set. Says nothing about the leave that a failed attempt
/// led to: another message shows that.
pub fn put_never_set(page: &mut ScriptPage<'_>, run: &WatchedRun<'_>) -> Written {
    let (Some(fault), Some(leave)) = (run.end.pointer, run.history.traps.last_leave()) else {
        return Ok(());
    };
    let Some(OpenTrap { line, .. }) = trap_of_unset(fault, leave) else {
        return Ok(());
    };
    if is_of_failed(leave, run) {
        return Ok(());
    }
    let code = CodeName(leave.code);
    page.mark_new(
        leave.at.line,
        0,
        format_args!("this left with {code}, to the TRAP of line {line}"),
    )
}

/// Returns what to look for if a pointer is null, and no attempt failed that was to give it a cell.
pub fn cure_of_unset(run: &WatchedRun<'_>, fault: PointerFault) -> &'static str {
    match run.history.traps.last_leave() {
        Some(leave) if trap_of_unset(fault, leave).is_some() => CHECK_AFTER_LEAVE,
        _ => CHECK_FIRST,
    }
}

/// The TRAP that caught the last leave, if a pointer is null and was never set.
fn trap_of_unset(fault: PointerFault, leave: Leave) -> Option<OpenTrap> {
    if fault.state == PointerState::Null && fault.write.is_none() {
        leave.caught
    } else {
        None
    }
}

/// Whether a leave is the first one from the last failed attempt on.
fn is_of_failed(leave: Leave, run: &WatchedRun<'_>) -> bool {
    let mut failed = 0;
    for made in run.history.attempts.kept_attempts() {
        if !made.is_granted() {
            failed = made.step;
        }
    }
    match run.history.traps.leave_between(failed, u32::MAX) {
        Some(first) => first.at.step == leave.at.step,
        None => false,
    }
}
