//! Changes by which the cleanup stack holds a cell while lines run that may leave.

use crate::runs::let_go::let_go;
use crate::runs::mends::anchors::Anchor;
use crate::runs::mends::blocks::{last_line_of, statement_after};
use crate::runs::mends::candidates::{Mends, leak_of};
use crate::runs::mends::edits::Mend;
use crate::runs::script_page::ScriptPage;
use std::alloc::{AllocError, Global};
use wb_heap_model::heap::Kind;
use wb_history::{Life, ScriptLines, WatchedRun};

/// How many of the cells that leak are looked at.
const MOST_LEAKS: usize = 3;

/// How many statements of a block are looked at, after one that left.
const MOST_AFTER: u32 = 6;

/// Proposes an item for each of the first cells that leak, if a local of the body that a leave ended was the last pointer that was set to it.
pub fn add_items<'a>(
    alloc: Global,
    mends: &mut Mends<'a>,
    lines: &ScriptLines<'a>,
    anchor: Anchor,
    run: &WatchedRun<'_>,
) -> Result<(), AllocError> {
    if !anchor.has_left || lines.word(anchor.first, 0) == "trap" {
        return Ok(());
    }
    for index in 0..MOST_LEAKS {
        if let Some(life) = leak_of(run, index)
            && let Some(line) = line_of_holder(alloc, lines, life, run)
            && run.history.bodies.body_of(line) == run.history.bodies.body_of(anchor.first)
        {
            add_spans(mends, lines, anchor, life, line)?;
        }
    }
    Ok(())
}

/// The line that last gave a local the cell, if the cell had no item but one that another body both pushed and popped, or if a field owned the
/// cell since; `None` otherwise.
fn line_of_holder(
    alloc: Global,
    lines: &ScriptLines<'_>,
    life: Life,
    run: &WatchedRun<'_>,
) -> Option<u32> {
    let held = life.held?;
    let line = held.line.number();
    if held.is_field()
        || life.popped.is_some()
            && !is_of_another(life, line, run)
            && let_go(&ScriptPage::new(alloc, lines), life, run).is_none()
    {
        return None;
    }
    Some(line)
}

/// Whether another body than that of a line pushed the item of a cell and popped it.
fn is_of_another(life: Life, line: u32, run: &WatchedRun<'_>) -> bool {
    let (bodies, pushed) = (&run.history.bodies, life.pushed.number());
    let body = bodies.body_of(life.popped.number());
    body == bodies.body_of(pushed) && body != bodies.body_of(line)
}

/// Proposes an item from the statement that left on, up to its end, and up to the end of each of the next statements of its block.
fn add_spans<'a>(
    mends: &mut Mends<'a>,
    lines: &ScriptLines<'a>,
    anchor: Anchor,
    life: Life,
    line: u32,
) -> Result<(), AllocError> {
    let (push, name) = (push_of(life.kind), lines.word(line, 1));
    let mut last = anchor.last;
    for _ in 0..MOST_AFTER {
        if moves_cell(lines, anchor.first, last, name) {
            break;
        }
        mends.add(Mend::Item {
            first: anchor.first,
            last,
            push,
            name,
        })?;
        let at = statement_after(lines, last);
        if at == 0 {
            break;
        }
        last = last_line_of(lines, at);
    }
    Ok(())
}

/// Whether one of these lines, but for the last, may move the cell of a pointer, so that an item would no longer name it.
fn moves_cell(lines: &ScriptLines<'_>, first: u32, last: u32, name: &str) -> bool {
    for line in first..last {
        if let "realloc" | "reallocl" | "hrealloc" = lines.word(line, 0)
            && lines.word(line, 2) == name
        {
            return true;
        }
    }
    false
}

/// Returns the first word of the line that pushes a cell of this kind.
pub fn push_of(kind: Kind) -> &'static str {
    match kind {
        Kind::Object(_) => "pushobj",
        Kind::Raw | Kind::Text | Kind::Cleanup => "push",
    }
}
