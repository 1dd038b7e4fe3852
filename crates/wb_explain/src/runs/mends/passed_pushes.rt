//! Changes about an item that is pushed only where a pointer isn't null, and popped anyway.

use crate::runs::mends::anchors::Anchor;
use crate::runs::mends::blocks::{block_around, last_line_of, statement_after, statement_before};
use crate::runs::mends::candidates::Mends;
use crate::runs::mends::edits::Mend;
use crate::runs::mends::line_changes::LineChange;
use crate::runs::mends::moves::MOST_BESIDE;
use std::alloc::AllocError;
use wb_history::{ScriptLines, WatchedRun};

/// Proposes that the push comes in any case, or that the pop comes only where the pointer isn't null.
pub fn add_for_passed<'a>(
    mends: &mut Mends<'a>,
    lines: &ScriptLines<'a>,
    anchors: &[Anchor],
    run: &WatchedRun<'_>,
) -> Result<(), AllocError> {
    let pop = pop_at_fault(lines, run);
    for anchor in anchors {
        if !anchor.has_left {
            add_pushes(mends, lines, anchor.first, pop)?;
        }
    }
    if pop == 0 {
        return Ok(());
    }
    add_inside(mends, lines, pop)?;
    add_checked_pop(mends, lines, pop)
}

/// The line that took off an item too many; 0 if none is known.
fn pop_at_fault(lines: &ScriptLines<'_>, run: &WatchedRun<'_>) -> u32 {
    let (items, last) = (&run.history.items, run.history.last_line());
    match (items.of_caller, items.after_callee) {
        (Some(taken), _) => taken.line,
        (None, _) if run.end.raised.is_some() && pops(lines.word(last, 0)) => last,
        (None, Some(taken)) => taken.line,
        (None, None) => 0,
    }
}

fn pops(word: &str) -> bool {
    match word {
        "pop" | "popdestroy" | "popcheck" => true,
        _ => false,
    }
}

/// Proposes that a push inside an `if some` of the pointer that a line gave null comes before the `if`.
fn add_pushes<'a>(
    mends: &mut Mends<'a>,
    lines: &ScriptLines<'a>,
    failed: u32,
    pop: u32,
) -> Result<(), AllocError> {
    let (head, name) = (statement_after(lines, failed), lines.word(failed, 1));
    if !is_some_block(lines, head, name) {
        return Ok(());
    }
    for push in head..=last_line_of(lines, head) {
        if lines.word(push, 0).starts_with("push")
            && lines.word(push, 1) == name
            && block_around(lines, push) == head
        {
            mends.add(Mend::Lines(LineChange::PushedAlways { push, head, pop }))?;
            mends.add(Mend::Lines(LineChange::PushedAfter {
                push,
                head,
                end: last_line_of(lines, head),
            }))?;
        }
    }
    Ok(())
}

/// Whether a line begins a block that is done where a pointer isn't null.
fn is_some_block(lines: &ScriptLines<'_>, line: u32, name: &str) -> bool {
    lines.word(line, 0) == "if" && lines.word(line, 1) == "some" && lines.word(line, 2) == name
}

/// Proposes that a pop right below an `if some` comes into that.
fn add_inside<'a>(
    mends: &mut Mends<'a>,
    lines: &ScriptLines<'a>,
    pop: u32,
) -> Result<(), AllocError> {
    let head = statement_before(lines, pop);
    if !is_some_block(lines, head, lines.word(head, 2)) {
        return Ok(());
    }
    mends.add(Mend::Lines(LineChange::PoppedInside {
        pop,
        head,
        end: last_line_of(lines, head),
    }))
}

/// Proposes, for each pointer that a line above a pop may give null, that the pop comes only where the pointer isn't null.
fn add_checked_pop<'a>(
    mends: &mut Mends<'a>,
    lines: &ScriptLines<'a>,
    pop: u32,
) -> Result<(), AllocError> {
    let mut at = pop;
    for _ in 0..MOST_BESIDE {
        at = statement_before(lines, at);
        if at == 0 {
            break;
        }
        if let "callto" | "new" | "alloc" | "hnew" = lines.word(at, 0) {
            mends.add(Mend::Checked {
                line: pop,
                name: lines.word(at, 1),
            })?;
        }
    }
    Ok(())
}
