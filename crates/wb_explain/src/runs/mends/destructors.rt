//! Changes about objects: a destructor releases a field that it leaves, or an object whose second phase left is made anew before the second phase is
//! run again.

use crate::runs::mends::blocks::last_line_of;
use crate::runs::mends::candidates::{Mends, leak_of};
use crate::runs::mends::edits::Mend;
use crate::runs::mends::line_changes::LineChange;
use std::alloc::AllocError;
use wb_heap_model::heap::Kind;
use wb_history::{BodyKind, ScriptLines, WatchedRun};

/// Proposes that the destructor of an object releases the field that named the first cell that leaks.
pub fn add_destroyed<'a>(
    mends: &mut Mends<'a>,
    lines: &ScriptLines<'a>,
    run: &WatchedRun<'_>,
) -> Result<(), AllocError> {
    let Some(life) = leak_of(run, 0) else {
        return Ok(());
    };
    let Some(write) = run.history.writes.newest_of_field(life.pointer) else {
        return Ok(());
    };
    let Some(owner) = run.history.lives.find(write.owner) else {
        return Ok(());
    };
    let Kind::Object(class) = owner.kind else {
        return Ok(());
    };
    let Some((_, field)) = lines.word(write.line, 1).split_once('.') else {
        return Ok(());
    };
    let verb = match life.kind {
        Kind::Object(_) => "delete",
        Kind::Raw | Kind::Text | Kind::Cleanup => "free",
    };
    match destructor_of(lines, lines.class_name(class)) {
        0 => Ok(()),
        destroy => mends.add(Mend::Destroyed {
            destroy,
            verb,
            field,
        }),
    }
}

/// The line that begins the destructor of the class with this name; 0 if there is none.
fn destructor_of(lines: &ScriptLines<'_>, name: &str) -> u32 {
    for class in 1..=lines.count() {
        if lines.word(class, 0) == "class" && lines.word(class, 1) == name {
            for line in class..=last_line_of(lines, class) {
                if lines.word(line, 0) == "destroy" {
                    return line;
                }
            }
        }
    }
    0
}

/// Proposes this, for the first cell that leaks, if a second phase gave its field another cell, and a body runs the second phase of one object at
/// two lines.
pub fn add_remade<'a>(
    mends: &mut Mends<'a>,
    lines: &ScriptLines<'a>,
    run: &WatchedRun<'_>,
) -> Result<(), AllocError> {
    let Some(life) = leak_of(run, 0) else {
        return Ok(());
    };
    let (bodies, line) = (&run.history.bodies, life.overwritten.number());
    if line == 0 || bodies.body_of(line).kind != BodyKind::Construct {
        return Ok(());
    }
    let mut first = 0;
    for construct in 1..=lines.count() {
        if lines.word(construct, 0) != "construct" || lines.word(construct, 1).is_empty() {
            continue;
        }
        let is_again = lines.word(first, 1) == lines.word(construct, 1)
            && bodies.body_of(first) == bodies.body_of(construct);
        if is_again && maker_of(lines, first, run) != 0 {
            return mends.add(Mend::Lines(LineChange::Remade {
                make: maker_of(lines, first, run),
                construct,
                name: lines.word(construct, 1),
            }));
        }
        first = construct;
    }
    Ok(())
}

/// The line above a second phase, in the same body, that makes its object and leaves on failure; 0 if there is none.
fn maker_of(lines: &ScriptLines<'_>, construct: u32, run: &WatchedRun<'_>) -> u32 {
    let bodies = &run.history.bodies;
    for line in bodies.body_of(construct).line..construct {
        if lines.word(line, 0) == "newleave" && lines.word(line, 1) == lines.word(construct, 1) {
            return line;
        }
    }
    0
}
