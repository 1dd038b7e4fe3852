//! Changes about a field that names a cell which another field or line owns: it becomes null with the cell, or while a local has the cell on the
//! cleanup stack, or it isn't set.

use crate::runs::mends::blocks::begins_body;
use crate::runs::mends::candidates::Mends;
use crate::runs::mends::edits::Mend;
use crate::runs::mends::line_changes::LineChange;
use crate::runs::mends::releases::life_at_fault;
use crate::runs::shared::{field_of, object_of};
use std::alloc::AllocError;
use wb_history::{By, End, ScriptLines, WatchedRun};

/// Proposes, if a panic is about a field whose cell a line released by another field of the object, that the field becomes null right after that.
pub fn add_alias_null<'a>(
    mends: &mut Mends<'a>,
    lines: &ScriptLines<'a>,
    run: &WatchedRun<'_>,
) -> Result<(), AllocError> {
    let Some(fault) = run.end.pointer else {
        return Ok(());
    };
    let Some(ended) = life_at_fault(run).and_then(|life| life.ended) else {
        return Ok(());
    };
    let (used, freed) = (run.history.last_line(), ended.at.number());
    let released = lines.word(freed, 1);
    let (Some(field), Some(other)) = (field_of(lines.word(used, fault.word)), field_of(released))
    else {
        return Ok(());
    };
    let is_released = ended.by == By::Line && ended.end != End::Moved;
    if fault.is_owner || !is_released || field == other {
        return Ok(());
    }
    mends.add(Mend::Lines(LineChange::AliasNull {
        freed,
        owner: object_of(released),
        field,
    }))
}

/// Proposes, if a panic is about a cell whose pointer a line copied to a field, and a line below gives that field another value, that the copy is
/// left out.
pub fn add_copy_left_out<'a>(
    mends: &mut Mends<'a>,
    lines: &ScriptLines<'a>,
    run: &WatchedRun<'_>,
) -> Result<(), AllocError> {
    let Some(life) = life_at_fault(run) else {
        return Ok(());
    };
    let Some(copied) = run.history.writes.newest_of_field(life.pointer) else {
        return Ok(());
    };
    let line = copied.line;
    if lines.word(line, 0) != "set" {
        return Ok(());
    }
    let bodies = &run.history.bodies;
    for later in line.saturating_add(1)..=lines.count() {
        if bodies.body_of(later) != bodies.body_of(line) {
            break;
        }
        if lines.word(later, 0) == "set" && lines.word(later, 1) == lines.word(line, 1) {
            return mends.add(Mend::Lines(LineChange::CopyLeftOut { line, later }));
        }
    }
    Ok(())
}

/// Proposes, if a leave destroyed the cell of a panic with its item, and a line above the push had copied a field to the local that is pushed, that
/// the field is null from then on, and gets the cell again after a line that pops.
pub fn add_given_back<'a>(
    mends: &mut Mends<'a>,
    lines: &ScriptLines<'a>,
    run: &WatchedRun<'_>,
) -> Result<(), AllocError> {
    let Some(life) = life_at_fault(run) else {
        return Ok(());
    };
    let (push, bodies) = (life.pushed.number(), &run.history.bodies);
    let lent = lender_above(lines, push);
    if lent == 0 || life.ended.is_none_or(|it| it.by != By::Leave) {
        return Ok(());
    }
    for pop in push..=lines.count() {
        if bodies.body_of(pop) != bodies.body_of(push) {
            break;
        }
        if let "pop" | "popcheck" = lines.word(pop, 0) {
            mends.add(Mend::Lines(LineChange::GivenBack { lent, push, pop }))?;
        }
    }
    Ok(())
}

/// The last line above a push, in the same body, that copies a field to the pointer that is pushed; 0 if there is none.
fn lender_above(lines: &ScriptLines<'_>, push: u32) -> u32 {
    let name = lines.word(push, 1);
    for back in 1..push {
        let at = push.saturating_sub(back);
        if begins_body(lines, at) {
            break;
        }
        if lines.word(at, 0) == "set" && lines.word(at, 1) == name {
            return if lines.word(at, 2).contains('.') {
                at
            } else {
                0
            };
        }
    }
    0
}
