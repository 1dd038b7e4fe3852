//! Changes by which the code of a TRAP is looked at, or by which a line that looks at a pointer looks at the one that the line above it was to give
//! a cell.

use crate::runs::mends::anchors::Anchor;
use crate::runs::mends::blocks::{begins_body, body_around, statement_after};
use crate::runs::mends::candidates::Mends;
use crate::runs::mends::edits::Mend;
use crate::runs::mends::line_changes::LineChange;
use std::alloc::AllocError;
use wb_history::{ScriptLines, WatchedRun};

/// Proposes that the code of a TRAP that caught a leave is looked at, if no line of its body does so before a line gives the int another value.
pub fn add_look<'a>(
    mends: &mut Mends<'a>,
    lines: &ScriptLines<'a>,
    anchor: Anchor,
) -> Result<(), AllocError> {
    if !anchor.has_left || lines.word(anchor.first, 0) != "trap" {
        return Ok(());
    }
    let name = lines.word(anchor.first, 1);
    add_own_code(mends, lines, anchor, name)?;
    match first_with(lines, anchor, name) {
        0 => add_code(mends, anchor, name, 0),
        again if lines.word(again, 0) == "trap" => add_code(mends, anchor, name, again),
        test if lines.word(test, 1) == "eq" && lines.word(test, 2) == name => mends.add(
            Mend::Lines(LineChange::AnyCode {
                trap: anchor.first,
                test,
                name,
            }),
        ),
        _ => Ok(()),
    }
}

fn add_code<'a>(
    mends: &mut Mends<'a>,
    anchor: Anchor,
    name: &'a str,
    again: u32,
) -> Result<(), AllocError> {
    mends.add(Mend::CodeLookedAt {
        trap: anchor.first,
        end: anchor.last,
        again,
        name,
    })
}

/// Proposes, if a TRAP below sets the same int before a line that looks at it, that it sets another one.
fn add_own_code<'a>(
    mends: &mut Mends<'a>,
    lines: &ScriptLines<'a>,
    anchor: Anchor,
    name: &'a str,
) -> Result<(), AllocError> {
    let mut other = 0;
    for line in anchor.last.saturating_add(1)..=lines.count() {
        if begins_body(lines, line) {
            break;
        }
        let is_named = lines.line(line).split_whitespace().any(|word| word == name);
        if other != 0 && is_named {
            return mends.add(Mend::Lines(LineChange::OwnCode {
                body: body_around(lines, anchor.first),
                trap: anchor.first,
                other,
                name,
            }));
        }
        if is_named && lines.word(line, 0) == "trap" {
            other = line;
        }
    }
    Ok(())
}

/// Returns whether no line of a TRAP's body, below the TRAP, names the int that the TRAP sets.
pub fn is_overlooked(lines: &ScriptLines<'_>, anchor: Anchor) -> bool {
    first_with(lines, anchor, lines.word(anchor.first, 1)) == 0
}

/// The first line after a TRAP, up to the next body, that names the int that the TRAP sets; 0 if there is none.
fn first_with(lines: &ScriptLines<'_>, anchor: Anchor, name: &str) -> u32 {
    for line in anchor.last.saturating_add(1)..=lines.count() {
        if begins_body(lines, line) {
            break;
        }
        if lines.line(line).split_whitespace().any(|word| word == name) {
            return line;
        }
    }
    0
}

/// Proposes, for each line that gave a pointer null since its attempt failed, and for the line that gave the null of a panic, that the line
/// below it looks at this pointer, if that line looks at another one.
pub fn add_other_tests<'a>(
    mends: &mut Mends<'a>,
    lines: &ScriptLines<'a>,
    anchors: &[Anchor],
    run: &WatchedRun<'_>,
) -> Result<(), AllocError> {
    for anchor in anchors {
        if !anchor.has_left {
            add_below(mends, lines, anchor.first)?;
        }
    }
    match run.end.pointer.and_then(|fault| fault.write) {
        Some(write) if lines.word(write.line, 0) == "callto" => {
            add_below(mends, lines, write.line)
        }
        _ => Ok(()),
    }
}

fn add_below<'a>(
    mends: &mut Mends<'a>,
    lines: &ScriptLines<'a>,
    asked: u32,
) -> Result<(), AllocError> {
    let test = statement_after(lines, asked);
    let tested = tested_by(lines, test);
    if tested.is_empty() || tested == lines.word(asked, 1) {
        return Ok(());
    }
    mends.add(Mend::Lines(LineChange::OtherTest { test, asked }))
}

/// Returns the pointer that a line looks at; empty if it looks at none.
pub fn tested_by<'a>(lines: &ScriptLines<'a>, line: u32) -> &'a str {
    match (lines.word(line, 0), lines.word(line, 1)) {
        ("if", "null" | "some") => lines.word(line, 2),
        ("leaveifnull", name) => name,
        _ => "",
    }
}
