//! What is said about a pointer that is null or names a dead cell: which line set it so, and which line left before changing the pointer.

use crate::runs::caught::first_ended;
use crate::runs::copies::put_cure_of_copied;
use crate::runs::never_set::put_never_set;
use crate::runs::pointers::failed_for;
use crate::runs::script_page::{ScriptPage, Written};
use crate::runs::shared::object_of;
use std::alloc::AllocError;
use wb_history::{
    BodyKind, By, End, Ended, NullOf, PointerFault, PointerState, PointerWrite, WatchedRun,
    target_of,
};

/// Why a pointer is null or names a dead cell.
#[derive(Clone, Copy)]
pub enum Kept {
    /// A line freed the cell, and the line `left` left before it gave the pointer another cell.
    Dead {
        left: u32,
        ended: Ended,
    },
    /// The line `from` set this pointer, or its source in a copy, to null. The line `left` left before it set the same pointer to a cell.
    Null {
        left: u32,
        write: PointerWrite,
        from: u32,
    },
    /// An attempt of the line `from` failed and gave another pointer null. The line of `write` gave this null to the pointer at fault.
    Unchecked {
        write: PointerWrite,
        from: u32,
    },
    /// An operation set the field to null, while the operation's item was being destroyed.
    ByOperation(PointerWrite),
    /// A line copied the pointer from another pointer, the source. Before or after the copy, a line freed the cell that both named. The
    /// line `left` left before it gave the source another cell; `left` is 0 if there is no such line.
    Copied {
        write: PointerWrite,
        ended: Ended,
        left: u32,
    },
}

/// Returns why the pointer that a panic is about is null or names a dead cell; `None` if no more is known than how the cell died.
pub fn kept_value(
    page: &ScriptPage<'_>,
    line: u32,
    run: &WatchedRun<'_>,
) -> Result<Option<Kept>, AllocError> {
    let Some(fault) = run.end.pointer else {
        return Ok(None);
    };
    match fault.state {
        PointerState::Null => match fault.write {
            Some(write) => null_since(page, line, fault, write, run),
            None => Ok(None),
        },
        PointerState::Gone(Some(life)) => match life.ended {
            Some(ended) if ended.by == By::Line && ended.end != End::Moved => {
                let since = life.held.map_or(u32::MAX, |held| held.since);
                dead_since(page, line, fault, ended, since, run)
            }
            _ => Ok(None),
        },
        PointerState::Gone(None) => Ok(None),
    }
}

/// Why a pointer is null, if a line set the pointer to null.
fn null_since(
    page: &ScriptPage<'_>,
    line: u32,
    fault: PointerFault,
    write: PointerWrite,
    run: &WatchedRun<'_>,
) -> Result<Option<Kept>, AllocError> {
    let body = run.history.bodies.body_of(write.line);
    if body.kind == BodyKind::Operation && run.history.bodies.body_of(line) != body {
        return Ok(Some(Kept::ByOperation(write)));
    }
    let (from, left) = match write.null_of {
        Some(NullOf { line: from, .. }) if fails_at(from, run) => {
            return Ok(if run.history.bodies.undoes(line) {
                None
            } else {
                Some(Kept::Unchecked { write, from })
            });
        }
        Some(NullOf { line: from, step }) => (
            from,
            line_left(page, from, page.word(from, 1), None, step, run)?,
        ),
        None if matches!(page.word(write.line, 0), "null" | "set") => {
            let name = name_of(page, line, fault);
            (
                write.line,
                line_left(page, line, name, Some(fault), write.step, run)?,
            )
        }
        None => return Ok(None),
    };
    Ok(left.map(|left| Kept::Null { left, write, from }))
}

/// Whether an attempt of this line failed, and the line was to set a pointer to the new cell.
fn fails_at(line: u32, run: &WatchedRun<'_>) -> bool {
    for made in run.history.attempts.kept_attempts() {
        if made.maker.line == line
            && !made.is_granted()
            && let Some(statement) = made.maker.statement
            && target_of(statement).is_some()
        {
            return true;
        }
    }
    false
}

/// Why a pointer names a cell that a line freed. The pointer was set to the cell in the step `since`.
fn dead_since(
    page: &ScriptPage<'_>,
    line: u32,
    fault: PointerFault,
    ended: Ended,
    since: u32,
    run: &WatchedRun<'_>,
) -> Result<Option<Kept>, AllocError> {
    let name = name_of(page, line, fault);
    if may_be_set_after(page, ended, run)
        && let Some(left) = line_left(page, line, name, Some(fault), since, run)?
    {
        return Ok(Some(Kept::Dead { left, ended }));
    }
    Ok(match fault.write {
        Some(write) if is_copied(page, write, ended, run) => {
            let left = left_after(page, write, ended, since, run)?;
            Some(Kept::Copied { write, ended, left })
        }
        _ => None,
    })
}

/// Whether the pointer by which a line freed a cell may have a use after that: false for a destructor's own fields, and for locals of
/// destructors and operations.
fn may_be_set_after(page: &ScriptPage<'_>, ended: Ended, run: &WatchedRun<'_>) -> bool {
    let (freed, bodies) = (ended.at.number(), &run.history.bodies);
    let name = page.word(freed, 1);
    !bodies.undoes(freed) || name.contains('.') && object_of(name) != "self"
}

/// Whether a `set` copied a pointer whose cell was already dead, or whose cell a line of the same body then freed or deleted by another
/// name. False if a destructor ended the cell's life.
fn is_copied(
    page: &ScriptPage<'_>,
    write: PointerWrite,
    ended: Ended,
    run: &WatchedRun<'_>,
) -> bool {
    let (bodies, freed) = (&run.history.bodies, ended.at.number());
    let is_here = bodies.body_of(freed) == bodies.body_of(write.line)
        && page.word(freed, 1) != page.word(write.line, 1);
    page.word(write.line, 0) == "set"
        && bodies.body_of(freed).kind != BodyKind::Destructor
        && (write.was_dead || is_here)
}

/// The line that the last leave left in the body that freed a cell, below the line that freed the cell. 0 if there is none, if the leave
/// came before the step `since`, or if `write` didn't copy the dead cell from the freed pointer.
fn left_after(
    page: &ScriptPage<'_>,
    write: PointerWrite,
    ended: Ended,
    since: u32,
    run: &WatchedRun<'_>,
) -> Result<u32, AllocError> {
    let freed = ended.at.number();
    let Some(leave) = run.history.traps.last_leave() else {
        return Ok(0);
    };
    if !write.was_dead || leave.at.step < since || page.word(freed, 1) != page.word(write.line, 2) {
        return Ok(0);
    }
    let bodies = &run.history.bodies;
    let lines = run.history.calls.lines_of(leave.at.path)?;
    for left in lines.as_slice() {
        if freed < *left && bodies.body_of(*left) == bodies.body_of(freed) {
            return Ok(*left);
        }
    }
    Ok(0)
}

/// The line that the last leave left, and that was to give another value to the pointer that the line `line` calls `name`. `None` if there
/// is none, or if the leave came before the step `since`. `fault` is `None` unless a panic is about this pointer.
fn line_left(
    page: &ScriptPage<'_>,
    line: u32,
    name: &str,
    fault: Option<PointerFault>,
    since: u32,
    run: &WatchedRun<'_>,
) -> Result<Option<u32>, AllocError> {
    let Some(leave) = run.history.traps.last_leave() else {
        return Ok(None);
    };
    if leave.at.step < since {
        return Ok(None);
    }
    let lines = run.history.calls.lines_of(leave.at.path)?;
    for at in first_ended(lines.as_slice(), leave, run)..lines.len() {
        if let Some(left) = lines.get(at)
            && is_to_give(page, *left, line, name, fault, run)
        {
            return Ok(Some(*left));
        }
    }
    Ok(None)
}

/// Whether the line `left` was to give another value to the pointer that the line `line` calls `name`. A leave left the line `left`.
fn is_to_give(
    page: &ScriptPage<'_>,
    left: u32,
    line: u32,
    name: &str,
    fault: Option<PointerFault>,
    run: &WatchedRun<'_>,
) -> bool {
    let bodies = &run.history.bodies;
    let is_named = page.word(left, 1) == name && bodies.body_of(left) == bodies.body_of(line);
    let is_attempt = match fault {
        Some(fault) => failed_for(run, line, fault).is_some_and(|it| it.maker.line == left
            && !it.maker.gives_null()),
        None => is_named && fails_at(left, run),
    };
    is_named && page.word(left, 0) == "callto" || is_attempt
}

/// Returns the name of the pointer that a panic at a line is about. If the word is a field and the pointer is the pointer to the field's
/// object, the name is the part before the dot.
pub fn name_of<'a>(page: &ScriptPage<'a>, line: u32, fault: PointerFault) -> &'a str {
    let word = page.word(line, fault.word);
    if fault.is_owner {
        word.split('.').next().unwrap_or(word)
    } else {
        word
    }
}

/// Says which line set the pointer that a panic is about, if this says more than how the pointer's cell died.
pub fn put_kept(page: &mut ScriptPage<'_>, kept: Option<Kept>, run: &WatchedRun<'_>) -> Written {
    match kept {
        Some(Kept::Dead { left, .. }) => {
            let name = page.word(left, 1);
            put_left(page, left, name)
        }
        Some(Kept::Null { left, write, .. }) => {
            let name = page.word(left, 1);
            put_left(page, left, name)?;
            put_null(page, write)
        }
        Some(Kept::Unchecked { write, .. }) => put_null(page, write),
        Some(Kept::ByOperation(write)) => {
            put_null(page, write)?;
            match run.history.last_item {
                Some(item) => page.mark_new(
                    item.pushed.line,
                    1,
                    "the item whose operation this is was pushed here",
                ),
                None => Ok(()),
            }
        }
        Some(Kept::Copied { write, left, .. }) => {
            let (name, source) = (page.word(write.line, 1), page.word(write.line, 2));
            put_left(page, left, source)?;
            page.mark_new(
                write.line,
                2,
                format_args!("`{name}` got it here, from `{source}`"),
            )
        }
        None => match run.end.pointer {
            Some(fault) if fault.state == PointerState::Null => match fault.write {
                Some(write) => put_null(page, write),
                None => put_never_set(page, run),
            },
            _ => Ok(()),
        },
    }
}

/// Says that the line `left` left, and gave the pointer `name` no other value. Writes nothing if `left` is 0.
fn put_left(page: &mut ScriptPage<'_>, left: u32, name: &str) -> Written {
    page.tell_unordered();
    page.mark_new(
        left,
        0,
        format_args!("this left, and gave `{name}` no other value"),
    )
}

/// Says which line made a pointer null. If the line copied the null, says also which line first gave the null. Writes nothing if the line
/// made an attempt: another message shows a failed attempt.
fn put_null(page: &mut ScriptPage<'_>, write: PointerWrite) -> Written {
    let (line, name) = (write.line, page.word(write.line, 1));
    match page.word(line, 0) {
        "set" => {
            let source = page.word(line, 2);
            page.mark_new(
                line,
                1,
                format_args!("`{name}` became null here, from `{source}`"),
            )?;
        }
        "null" | "callto" => {
            page.mark_new(line, 1, format_args!("`{name}` became null here"))?;
        }
        _ => return Ok(()),
    }
    match write.null_of {
        Some(NullOf { line: from, .. }) => {
            let name = page.word(from, 1);
            page.mark_new(
                from,
                1,
                format_args!("that null came from here, where `{name}` became null"),
            )
        }
        None => Ok(()),
    }
}

/// Says what to do about a pointer that is null or names a dead cell.
pub fn put_cure_of_kept(page: &mut ScriptPage<'_>, kept: Kept, run: &WatchedRun<'_>) {
    match kept {
        Kept::ByOperation(_) | Kept::Unchecked { .. } => page.begin_cause(),
        _ => page.page.begin_help(),
    }
    match kept {
        Kept::Dead { left, ended } => put_cure_of_dead(page, left, ended, run),
        Kept::Null { left, from, .. } => {
            let name = page.word(from, 1);
            page.page.write(format_args!(
                "let another pointer get the new cell first, and change `{name}` after that: line {left} may leave, and `{name}` is null since line {from}"
            ));
        }
        Kept::Unchecked { write, from } => put_cure_of_unchecked(page, write.line, from),
        Kept::ByOperation(write) => {
            let name = page.word(run.history.bodies.body_of(write.line).line, 1);
            page.page.write(format_args!(
                "the operation `{name}` undid more than was done: push its item only after all that it uses is set"
            ));
        }
        Kept::Copied { ended, left, .. } if left != 0 => {
            put_cure_of_dead(page, left, ended, run);
        }
        Kept::Copied { write, ended, .. } => put_cure_of_copied(page, write, ended, run),
    }
    page.page.end_line();
}

/// Writes what to do about a pointer that kept a dead cell.
fn put_cure_of_dead(page: &mut ScriptPage<'_>, left: u32, ended: Ended, run: &WatchedRun<'_>) {
    let freed = ended.at.number();
    let (bodies, name) = (&run.history.bodies, page.word(freed, 1));
    let (released, what) = match ended.end {
        End::Deleted => ("deletes", "object"),
        End::Freed | End::Moved => ("frees", "cell"),
    };
    page.page.write(format_args!(
        "set `{name}` to null after line {freed}, which {released} its {what}"
    ));
    if freed < left && bodies.body_of(freed) == bodies.body_of(left) {
        page.page.write(format_args!(
            ", or let another pointer get the new {what} first: line {left} may leave"
        ));
    }
}

/// Writes what to do about a pointer that the line `line` set to null. The null came from a failed attempt of the line `from`.
fn put_cure_of_unchecked(page: &mut ScriptPage<'_>, line: u32, from: u32) {
    let given = page.word(line, 1);
    let (name, when) = match page.word(line, 0) {
        "set" => (page.word(line, 2), "before"),
        _ => (given, "after"),
    };
    page.page.write(format_args!(
        "line {line} gave `{given}` the null that line {from} gives where its attempt fails: look at `{name}` {when} that, for example with `leaveifnull {name}`"
    ));
}
