//! A cell whose life ended in a body that was called with it, though a line below the call still uses the cell.

use crate::runs::heads::head_around;
use crate::runs::kept::name_of;
use crate::runs::led::led_to;
use crate::runs::paths::body_name;
use crate::runs::script_page::ScriptPage;
use wb_history::{End, Ended, PointerFault, WatchedRun};

/// A call that ended the life of a cell which it passed on.
#[derive(Clone, Copy)]
pub struct EndedByCall {
    call: u32,
    ended: Ended,
    /// The line that then used the cell, by this pointer; `frees` says whether it was to free the cell.
    used: u32,
    fault: PointerFault,
    frees: bool,
}

/// Returns the call above the line `used`, in the same body, by which the pointer at fault was passed on to the body that ended the life of
/// the pointer's cell; `None` if there is none, or if the last leave left that call.
pub fn ended_by_call(
    page: &ScriptPage<'_>,
    used: u32,
    fault: PointerFault,
    ended: Ended,
    frees: bool,
    run: &WatchedRun<'_>,
) -> Option<EndedByCall> {
    let at = ended.at.number();
    let call = led_to(page, at, used, run);
    if call == at || !passes_on(page, call, name_of(page, used, fault)) {
        return None;
    }
    if let Some(leave) = run.history.traps.last_leave()
        && let Ok(lines) = run.history.calls.lines_of(leave.at.path)
        && lines.iter().any(|it| *it == call)
    {
        return None;
    }
    Some(EndedByCall {
        call,
        ended,
        used,
        fault,
        frees,
    })
}

/// Whether a call passes on the pointer `name`.
fn passes_on(page: &ScriptPage<'_>, call: u32, name: &str) -> bool {
    let first = if page.word(call, 0) == "callto" { 3 } else { 2 };
    (first..=6).any(|word| page.word(call, word) == name)
}

/// Says what to do about a call that ended the life of a cell.
pub fn put_cure_of_call(page: &mut ScriptPage<'_>, it: EndedByCall, run: &WatchedRun<'_>) {
    let EndedByCall {
        call,
        ended,
        used,
        fault,
        frees,
    } = it;
    let (name, callee) = (
        name_of(page, used, fault),
        body_name(page, ended.at.number(), run),
    );
    let deed = match ended.end {
        End::Deleted => "deletes",
        End::Freed | End::Moved => "frees",
    };
    let at = ended.at.number();
    if frees && head_around(page, at).is_some_and(|it| page.word(it.line, 0) == "if") {
        return page.write_cause(format_args!(
            "line {call} called `{callee}`, whose line {at} {deed} what it is called with on this way: let line {at} go, since line {used} does the same"
        ));
    }
    page.begin_cause();
    page.page.write(format_args!(
        "line {call} called `{callee}`, which {deed} what it is called with: "
    ));
    if frees {
        page.page.write(format_args!("let line {used} go"));
    } else {
        page.page
            .write(format_args!("use `{name}` only before line {call}"));
    }
    page.page.write(format_args!(", or let `{callee}` keep it"));
    page.page.end_line();
}
