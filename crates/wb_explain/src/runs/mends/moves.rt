//! Changes by which a line comes later than a statement that failed or left, or earlier; or by which a push and its pop are left out.

use crate::runs::mends::anchors::Anchor;
use crate::runs::mends::blocks::{last_line_of, statement_after, statement_before};
use crate::runs::mends::candidates::{Mends, leak_of};
use crate::runs::mends::dependent::may_pass;
use crate::runs::mends::edits::Mend;
use crate::runs::mends::line_changes::LineChange;
use std::alloc::AllocError;
use wb_history::{PointerState, ScriptLines, WatchedRun};

/// How many statements of a block are looked at, before and after one that failed or left.
pub const MOST_BESIDE: u32 = 12;

/// Proposes that a line before a statement that failed or left comes after it, or after the last statement of the block that may leave.
pub fn add_later<'a>(
    mends: &mut Mends<'a>,
    lines: &ScriptLines<'a>,
    anchor: Anchor,
    run: &WatchedRun<'_>,
) -> Result<(), AllocError> {
    let (end, right) = (last_that_may_leave(lines, anchor), right_pop(run));
    let mut at = anchor.first;
    for _ in 0..MOST_BESIDE {
        at = statement_before(lines, at);
        if at == 0 {
            break;
        }
        if at != right && may_come_later(lines, at, anchor, run) {
            add_moves(mends, lines, at, anchor, end)?;
        }
    }
    Ok(())
}

/// The line that popped the item of the first cell that leaks, if a field got the cell before that, and gave it up later; 0 otherwise.
fn right_pop(run: &WatchedRun<'_>) -> u32 {
    let Some(life) = leak_of(run, 0) else {
        return 0;
    };
    let writes = &run.history.writes;
    match writes.newest_of_field(life.pointer) {
        Some(owned)
            if writes
                .newest_of(&owned)
                .is_some_and(|it| it.names != life.pointer) => { life.popped.number() }
        _ => 0,
    }
}

/// Proposes that a statement that left comes after the lines below it that release, set or pop something: after the nearest first.
pub fn add_leaver_later<'a>(
    mends: &mut Mends<'a>,
    lines: &ScriptLines<'a>,
    anchor: Anchor,
) -> Result<(), AllocError> {
    let line = anchor.first;
    if !anchor.has_left || lines.word(line, 0) != "call" {
        return Ok(());
    }
    let mut after = line;
    for _ in 0..MOST_BESIDE {
        after = statement_after(lines, after);
        if after == 0
            || !may_come_earlier(lines.word(after, 0)) && !releases(lines, after)
            || !may_pass(lines, line, after, after)
        {
            break;
        }
        mends.add(Mend::Lines(LineChange::LeavesLater { line, after }))?;
    }
    Ok(())
}

fn releases(lines: &ScriptLines<'_>, line: u32) -> bool {
    match lines.word(line, 0) {
        "free" | "delete" => true,
        _ => false,
    }
}

/// Proposes that a line after a statement that left, which pushes an item of a pointer that is there before, comes before that statement.
pub fn add_pushed_earlier<'a>(
    mends: &mut Mends<'a>,
    lines: &ScriptLines<'a>,
    anchor: Anchor,
) -> Result<(), AllocError> {
    if !anchor.has_left {
        return Ok(());
    }
    let mut last = anchor.last;
    for _ in 0..MOST_BESIDE {
        let at = statement_after(lines, last);
        if at == 0 {
            break;
        }
        let pushes = lines.word(at, 0) == "pushop";
        if pushes && may_pass(lines, at, anchor.first, at) {
            mends.add(Mend::Earlier {
                line: at,
                failed: anchor.first,
            })?;
        }
        last = last_line_of(lines, at);
    }
    Ok(())
}

/// Proposes that a line which releases what a field names comes after a statement that left.
pub fn add_later_release<'a>(
    mends: &mut Mends<'a>,
    lines: &ScriptLines<'a>,
    anchor: Anchor,
) -> Result<(), AllocError> {
    let mut at = anchor.first;
    for _ in 0..MOST_BESIDE {
        at = statement_before(lines, at);
        if at == 0 || !anchor.has_left {
            break;
        }
        if let "free" | "delete" = lines.word(at, 0)
            && lines.word(at, 1).contains('.')
        {
            add_moves(mends, lines, at, anchor, anchor.last)?;
        }
    }
    Ok(())
}

fn add_moves<'a>(
    mends: &mut Mends<'a>,
    lines: &ScriptLines<'a>,
    line: u32,
    anchor: Anchor,
    end: u32,
) -> Result<(), AllocError> {
    let (failed, has_left) = (anchor.first, anchor.has_left);
    let below = line.saturating_add(1);
    if !may_pass(lines, line, below, anchor.last) {
        return Ok(());
    }
    mends.add(Mend::Later {
        line,
        failed,
        has_left,
        after: anchor.last,
    })?;
    if end != anchor.last && may_pass(lines, line, below, end) {
        mends.add(Mend::Later {
            line,
            failed,
            has_left,
            after: end,
        })?;
    }
    Ok(())
}

/// Whether a line may be done later: not if a statement after the one that left makes its pointer null anyway.
fn may_come_later(
    lines: &ScriptLines<'_>,
    line: u32,
    anchor: Anchor,
    run: &WatchedRun<'_>,
) -> bool {
    match lines.word(line, 0) {
        "store" | "call" | "null" | "pop" | "popcheck" => true,
        "pushop" => is_about_null(run),
        "set" => !is_made_null(lines, anchor, lines.word(line, 1)),
        _ => false,
    }
}

/// Whether a panic is about a null pointer: an operation's item may then have been pushed before all that it uses was set. Otherwise an item that
/// comes later would only keep the operation from running.
fn is_about_null(run: &WatchedRun<'_>) -> bool {
    run.end
        .pointer
        .is_some_and(|fault| fault.state == PointerState::Null)
}

/// Whether a statement after this one, in the same block, makes a pointer null.
fn is_made_null(lines: &ScriptLines<'_>, anchor: Anchor, name: &str) -> bool {
    let mut last = anchor.last;
    for _ in 0..MOST_BESIDE {
        let at = statement_after(lines, last);
        if at == 0 {
            break;
        }
        if lines.word(at, 0) == "null" && lines.word(at, 1) == name {
            return true;
        }
        last = last_line_of(lines, at);
    }
    false
}

/// Returns the last line of the last statement of a block that may leave, from one that did on.
pub fn last_that_may_leave(lines: &ScriptLines<'_>, anchor: Anchor) -> u32 {
    let (mut last, mut found) = (anchor.last, anchor.last);
    for _ in 0..MOST_BESIDE {
        let at = statement_after(lines, last);
        if at == 0 {
            break;
        }
        last = last_line_of(lines, at);
        if may_leave(lines.word(at, 0)) {
            found = last;
        }
    }
    found
}

/// Whether a statement with this first word may leave.
fn may_leave(word: &str) -> bool {
    match word {
        "newleave" | "allocl" | "reallocl" | "hnewl" | "push" | "pushobj" | "pushop" => true,
        "call" | "callto" | "construct" | "leave" | "leaveiferror" | "leaveifnull" => true,
        "if" | "repeat" => true,
        _ => false,
    }
}

/// Proposes that a line after a statement that left comes before it. If that would pop what was only just pushed, proposes to leave out both.
pub fn add_earlier<'a>(
    mends: &mut Mends<'a>,
    lines: &ScriptLines<'a>,
    anchor: Anchor,
) -> Result<(), AllocError> {
    if !anchor.has_left {
        return Ok(());
    }
    let above = statement_before(lines, anchor.first);
    let mut last = anchor.last;
    for _ in 0..MOST_BESIDE {
        let at = statement_after(lines, last);
        if at == 0 {
            break;
        }
        let word = lines.word(at, 0);
        if word.starts_with("pop") && lines.word(above, 0).starts_with("push") {
            add_without_item(mends, lines, above, at)?;
        } else if may_come_earlier(word) && may_pass(lines, at, anchor.first, at) {
            mends.add(Mend::Earlier {
                line: at,
                failed: anchor.first,
            })?;
        }
        last = last_line_of(lines, at);
    }
    Ok(())
}

/// Proposes to leave out a push and the line that pops its item.
fn add_without_item<'a>(
    mends: &mut Mends<'a>,
    lines: &ScriptLines<'a>,
    push: u32,
    pop: u32,
) -> Result<(), AllocError> {
    match (lines.word(pop, 0), lines.word(pop, 1)) {
        ("popcheck", _) | ("pop", "1") => mends.add(Mend::WithoutItem { push, pop }),
        _ => Ok(()),
    }
}

/// Whether a statement with this first word may be done earlier.
fn may_come_earlier(word: &str) -> bool {
    match word {
        "null" | "set" | "store" | "push" | "pushobj" | "pushop" | "pop" | "popcheck" => true,
        _ => false,
    }
}
