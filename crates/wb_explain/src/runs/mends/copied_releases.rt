//! Changes by which a line that releases a cell, or pops items, comes once more before a line that ends its body early, or out of a block that
//! passes over it.

use crate::runs::mends::blocks::{block_around, end_of_branch, is_plain, last_line_of};
use crate::runs::mends::candidates::{Mends, leak_of};
use crate::runs::mends::edits::Mend;
use crate::runs::mends::line_changes::LineChange;
use crate::runs::mends::moves::MOST_BESIDE;
use crate::runs::shared::field_of;
use std::alloc::AllocError;
use wb_history::{BodyKind, ScriptLines, WatchedRun};

/// How many of the cells that leak are looked at.
const MOST_LEAKS: usize = 2;

/// Proposes, for the first cells that leak and that a local of a body names last, that a line further down in the body which releases what
/// the local names comes once more before a line that ends the body early.
pub fn add_copied_releases<'a>(
    mends: &mut Mends<'a>,
    lines: &ScriptLines<'a>,
    run: &WatchedRun<'_>,
) -> Result<(), AllocError> {
    for index in 0..MOST_LEAKS {
        if let Some(life) = leak_of(run, index)
            && let Some(held) = life.held
            && !held.is_field()
        {
            let last = run
                .history
                .calls
                .last_line_of(u32::from(held.depth), held.since);
            add_for_local(mends, lines, held.line.number(), last, run)?;
        }
    }
    Ok(())
}

/// Proposes this for the local that line `held` gave the cell. The body ended after line `last`, which is 0 if it isn't known.
fn add_for_local<'a>(
    mends: &mut Mends<'a>,
    lines: &ScriptLines<'a>,
    held: u32,
    last: u32,
    run: &WatchedRun<'_>,
) -> Result<(), AllocError> {
    let bodies = &run.history.bodies;
    for before in held..=lines.count() {
        if bodies.body_of(before) != bodies.body_of(held) {
            break;
        }
        if ends_early(lines, before) {
            add_before(mends, lines, held, before, before, run)?;
        }
    }
    match end_of_branch(lines, last) {
        before if held < last && before != 0 => {
            add_before(mends, lines, held, before, held, run)
        }
        _ => Ok(()),
    }
}

/// Whether a line ends its body, wherever it stands.
fn ends_early(lines: &ScriptLines<'_>, line: u32) -> bool {
    match lines.word(line, 0) {
        "return" | "leave" => is_plain(lines, line),
        _ => false,
    }
}

/// Proposes, for line `before`, the first line from line `from` on, in the same body, that releases what the local of line `held` names.
fn add_before<'a>(
    mends: &mut Mends<'a>,
    lines: &ScriptLines<'a>,
    held: u32,
    before: u32,
    from: u32,
    run: &WatchedRun<'_>,
) -> Result<(), AllocError> {
    let (bodies, name) = (&run.history.bodies, lines.word(held, 1));
    for release in from..=lines.count() {
        if bodies.body_of(release) != bodies.body_of(held) {
            break;
        }
        if let "free" | "delete" = lines.word(release, 0)
            && lines.word(release, 1) == name
        {
            mends.add(Mend::Lines(LineChange::Released {
                release,
                before,
                name,
            }))?;
            return add_run(mends, lines, release, before);
        }
    }
    Ok(())
}

/// Proposes that all lines beside a release, which release something as well, come once more before line `before`, if there are more than one.
fn add_run<'a>(
    mends: &mut Mends<'a>,
    lines: &ScriptLines<'a>,
    release: u32,
    before: u32,
) -> Result<(), AllocError> {
    let (mut first, mut last) = (release, release);
    for _ in 0..MOST_BESIDE {
        if releases(lines, first.saturating_sub(1)) {
            first = first.saturating_sub(1);
        }
        if releases(lines, last.saturating_add(1)) {
            last = last.saturating_add(1);
        }
    }
    if first == last || first <= before && before <= last {
        return Ok(());
    }
    mends.add(Mend::Lines(LineChange::AllReleased {
        first,
        last,
        before,
    }))
}

fn releases(lines: &ScriptLines<'_>, line: u32) -> bool {
    match lines.word(line, 0) {
        "free" | "delete" => true,
        _ => false,
    }
}

/// Proposes, if a body left an item, that a line further down in the body which pops items comes once more before its `return`.
pub fn add_copied_pops<'a>(
    mends: &mut Mends<'a>,
    lines: &ScriptLines<'a>,
    run: &WatchedRun<'_>,
) -> Result<(), AllocError> {
    let items = &run.history.items;
    add_pops_below(mends, lines, run.history.last_line(), run)?;
    if let Some(taken) = items.of_callee {
        add_pops_below(mends, lines, taken.body.last, run)?;
    }
    match items.newest().and_then(|item| item.left) {
        Some(body) => add_pops_below(mends, lines, body.last, run),
        None => Ok(()),
    }
}

/// Proposes each line below a `return`, in the same body, that pops items.
fn add_pops_below<'a>(
    mends: &mut Mends<'a>,
    lines: &ScriptLines<'a>,
    before: u32,
    run: &WatchedRun<'_>,
) -> Result<(), AllocError> {
    let bodies = &run.history.bodies;
    if lines.word(before, 0) != "return" {
        return Ok(());
    }
    for pop in before..=lines.count() {
        if bodies.body_of(pop) != bodies.body_of(before) {
            break;
        }
        if let "pop" | "popdestroy" | "popcheck" = lines.word(pop, 0) {
            mends.add(Mend::Lines(LineChange::Popped { pop, before }))?;
        }
    }
    Ok(())
}

/// Proposes, for the first cell that leaks, if an `if` has a line that releases it by the local that named it last, that this line comes right
/// after the `if`.
pub fn add_moved_out<'a>(
    mends: &mut Mends<'a>,
    lines: &ScriptLines<'a>,
    run: &WatchedRun<'_>,
) -> Result<(), AllocError> {
    let Some(held) = leak_of(run, 0).and_then(|life| life.held) else {
        return Ok(());
    };
    let (bodies, got) = (&run.history.bodies, held.line.number());
    if held.is_field() {
        return add_of_destructors(mends, lines, field_of(lines.word(got, 1)), run);
    }
    for line in got.saturating_add(1)..=lines.count() {
        if bodies.body_of(line) != bodies.body_of(got) {
            break;
        }
        let head = block_around(lines, line);
        if let "free" | "delete" = lines.word(line, 0)
            && lines.word(line, 1) == lines.word(got, 1)
            && lines.word(head, 0) == "if"
        {
            mends.add(Mend::Lines(LineChange::MovedOut {
                line,
                head,
                end: last_line_of(lines, head),
            }))?;
        }
    }
    Ok(())
}

/// Proposes, for each line of a destructor that releases a field of this name inside an `if`, that it comes right after the `if`.
fn add_of_destructors<'a>(
    mends: &mut Mends<'a>,
    lines: &ScriptLines<'a>,
    field: Option<&str>,
    run: &WatchedRun<'_>,
) -> Result<(), AllocError> {
    for line in 1..=lines.count() {
        let head = block_around(lines, line);
        let is_here = run.history.bodies.body_of(line).kind == BodyKind::Destructor;
        if let "free" | "delete" = lines.word(line, 0)
            && is_here
            && field.is_some()
            && field_of(lines.word(line, 1)) == field
            && lines.word(head, 0) == "if"
        {
            mends.add(Mend::Lines(LineChange::MovedOut {
                line,
                head,
                end: last_line_of(lines, head),
            }))?;
        }
    }
    Ok(())
}
