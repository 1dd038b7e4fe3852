//! Changes about lines that release a cell: one that is left out, since it was released before or is still held, and one that comes before a
//! pointer gets another cell, or before a return.

use crate::runs::mends::blocks::statement_before;
use crate::runs::mends::candidates::{Mends, leak_of};
use crate::runs::mends::dependent::may_pass;
use crate::runs::mends::edits::Mend;
use crate::runs::mends::line_changes::LineChange;
use crate::runs::mends::moves::MOST_BESIDE;
use std::alloc::AllocError;
use wb_heap_model::heap::Kind;
use wb_history::{By, End, Life, PointerFault, PointerState, Raiser, ScriptLines, WatchedRun};

/// Proposes, if a panic is about a cell that a line released: by a local, that this line is left out, or that the local becomes null then; by a
/// field, that the field becomes null then.
pub fn add_left_out<'a>(
    mends: &mut Mends<'a>,
    lines: &ScriptLines<'a>,
    run: &WatchedRun<'_>,
) -> Result<(), AllocError> {
    let Some(ended) = life_at_fault(run).and_then(|life| life.ended) else {
        return Ok(());
    };
    let line = ended.at.number();
    if ended.by == By::Leave {
        return add_needless(mends, lines, line, run);
    }
    if ended.by != By::Line || run.history.bodies.undoes(line) {
        return Ok(());
    }
    let name = lines.word(line, 1);
    match lines.word(line, 0) {
        "free" | "delete" if name.contains('.') => mends.add(Mend::Released { line, name }),
        "free" | "delete" => {
            mends.add(Mend::LeftOut {
                line,
                pushed: pushed_at_fault(run),
                used: run.history.last_line(),
            })?;
            mends.add(Mend::Released { line, name })
        }
        _ => Ok(()),
    }
}

/// Proposes that the line of a panic is left out, if it was to release by a local what the leave of another line had destroyed.
fn add_needless<'a>(
    mends: &mut Mends<'a>,
    lines: &ScriptLines<'a>,
    left: u32,
    run: &WatchedRun<'_>,
) -> Result<(), AllocError> {
    let line = run.history.last_line();
    match lines.word(line, 0) {
        "free" | "delete" if !lines.word(line, 1).contains('.') => {
            mends.add(Mend::Needless { line, left })?;
            add_taken_over(mends, lines, line, run)
        }
        _ => Ok(()),
    }
}

/// Proposes that a body pushes first what a leave destroyed with its item, and that the line which was to release it after that is left out.
fn add_taken_over<'a>(
    mends: &mut Mends<'a>,
    lines: &ScriptLines<'a>,
    release: u32,
    run: &WatchedRun<'_>,
) -> Result<(), AllocError> {
    let (push, bodies) = (
        life_at_fault(run).map_or(0, |life| life.pushed.number()),
        &run.history.bodies,
    );
    let body = bodies.body_of(push);
    if push == 0 || body == bodies.body_of(release) {
        return Ok(());
    }
    let mut before = push;
    for _ in 0..MOST_BESIDE {
        match statement_before(lines, before) {
            0 => break,
            at => before = at,
        }
    }
    if before == push || !may_pass(lines, push, before, push) {
        return Ok(());
    }
    mends.add(Mend::Lines(LineChange::TakenOver {
        push,
        before,
        release,
    }))
}

/// Returns the life of the cell that a panic is about; `None` if it isn't known.
pub fn life_at_fault(run: &WatchedRun<'_>) -> Option<Life> {
    match run.end.pointer {
        Some(fault) => match fault.state {
            PointerState::Gone(life) => life,
            PointerState::Null => None,
        },
        None if pushed_at_fault(run) != 0 => {
            run.history.lives.find(run.history.last_item?.pointer())
        }
        None => None,
    }
}

/// The line that pushed the item whose destruction panicked; 0 if none did.
fn pushed_at_fault(run: &WatchedRun<'_>) -> u32 {
    match (run.end.raised, run.history.last_item) {
        (Some(raised), Some(item)) if raised.raiser == Raiser::Item => item.pushed.line,
        _ => 0,
    }
}

/// Proposes, for the first cell that leaks, if a line gave the cell's pointer another cell, that it is released before that. The pointer must
/// be a field if `is_field`, and a local otherwise.
pub fn add_freed_first<'a>(
    mends: &mut Mends<'a>,
    lines: &ScriptLines<'a>,
    is_field: bool,
    run: &WatchedRun<'_>,
) -> Result<(), AllocError> {
    let Some(life) = leak_of(run, 0) else {
        return Ok(());
    };
    let (line, verb) = (life.overwritten.number(), verb_of(life.kind));
    if lines.word(line, 1).contains('.') != is_field {
        return Ok(());
    }
    match lines.word(line, 0) {
        "new" | "newleave" | "alloc" | "allocl" | "hnew" | "hnewl" | "set" | "callto" => {
            mends.add(Mend::FreedFirst {
                line,
                verb,
                name: lines.word(line, 1),
            })
        }
        _ => Ok(()),
    }
}

/// The first word of the line that releases a cell of this kind.
fn verb_of(kind: Kind) -> &'static str {
    match kind {
        Kind::Object(_) => "delete",
        Kind::Raw | Kind::Text | Kind::Cleanup => "free",
    }
}

/// Proposes, for the first cell that leaks, if a local was the last pointer that was set to it, that it is released before the body of that
/// line returns.
pub fn add_freed_at_return<'a>(
    mends: &mut Mends<'a>,
    lines: &ScriptLines<'a>,
    run: &WatchedRun<'_>,
) -> Result<(), AllocError> {
    let Some(life) = leak_of(run, 0) else {
        return Ok(());
    };
    let Some(held) = life.held else {
        return Ok(());
    };
    if held.is_field() || life.popped.is_some() {
        return Ok(());
    }
    let (bodies, line) = (&run.history.bodies, held.line.number());
    for before in line..=lines.count() {
        if lines.word(before, 0) == "return" && bodies.body_of(before) == bodies.body_of(line) {
            mends.add(Mend::FreedAtReturn {
                before,
                verb: verb_of(life.kind),
                name: lines.word(line, 1),
            })?;
        }
    }
    Ok(())
}

/// Proposes this if a line, or one that pops and destroys, had released the cell of a panic, and the line of the panic was to release it.
pub fn add_released_once<'a>(
    mends: &mut Mends<'a>,
    lines: &ScriptLines<'a>,
    run: &WatchedRun<'_>,
) -> Result<(), AllocError> {
    let (line, freed) = (run.history.last_line(), released_at(run));
    match lines.word(line, 0) {
        "free" | "delete" if freed != 0 && freed != line => {
            mends.add(Mend::Lines(LineChange::ReleasedOnce { line, freed }))
        }
        _ => Ok(()),
    }
}

/// The line that released the cell of a panic; 0 if none did, or if a leave destroyed the cell.
fn released_at(run: &WatchedRun<'_>) -> u32 {
    let Some(
        PointerFault {
            state: PointerState::Gone(Some(life)),
            ..
        },
    ) = run.end.pointer
    else {
        return 0;
    };
    match life.ended {
        Some(ended) if ended.by != By::Leave && ended.end != End::Moved => ended.at.number(),
        _ => 0,
    }
}
