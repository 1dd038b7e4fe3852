//! The call path of a line, and the TRAPs that were open at this line.

use crate::runs::number_lists::joint;
use crate::runs::script_page::ScriptPage;
use std::fmt;
use std::fmt::{Display, Formatter, Write};
use wb_history::{Bodies, BodyKind, OpenTrap, WatchedRun};

/// How many calls of a long path are shown at its beginning, and at its end.
const CALLS_SHOWN: usize = 4;

/// Says by which calls a run came to a line, if there were calls. `lines` go from `main` down. The middle of a long path is left out.
pub fn put_path(page: &mut ScriptPage<'_>, bodies: &Bodies, lines: &[u32]) {
    if lines.len() < 2 {
        return;
    }
    let end = lines.len().saturating_sub(CALLS_SHOWN);
    page.page.begin_note();
    page.page.write_text("call path: ");
    for (index, line) in lines.iter().enumerate() {
        if index < CALLS_SHOWN || index >= end {
            if index > 0 {
                page.page.write_text(", ");
            }
            put_call(page, bodies, *line);
        } else if index == CALLS_SHOWN {
            let more = end.saturating_sub(CALLS_SHOWN);
            page.page.write(format_args!(", {more} more"));
        }
    }
    page.page.end_line();
}

/// Writes the name of a line's body, and the line's number.
fn put_call(page: &mut ScriptPage<'_>, bodies: &Bodies, line: u32) {
    let body = bodies.body_of(line);
    let (what, name) = (before_name(body.kind), page.word(body.line, 1));
    page.page.write(format_args!("{what}{name}` line {line}"));
}

/// Returns the name of a line's body.
pub fn body_name<'a>(page: &ScriptPage<'a>, line: u32, run: &WatchedRun<'_>) -> &'a str {
    let body = run.history.bodies.body_of(line);
    match body.kind {
        BodyKind::Nothing => "main",
        BodyKind::Procedure | BodyKind::Construct | BodyKind::Destructor | BodyKind::Operation =>
            page.word(body.line, 1),
    }
}

/// The text before the name of a body.
pub fn before_name(kind: BodyKind) -> &'static str {
    match kind {
        BodyKind::Construct => "the second phase of `",
        BodyKind::Destructor => "the destructor of `",
        BodyKind::Nothing | BodyKind::Procedure | BodyKind::Operation => "`",
    }
}

/// After which line a body ended; no text if this line isn't known.
#[derive(Clone, Copy)]
pub struct AfterLine(pub u32);

impl Display for AfterLine {
    fn fmt<W: Write>(&self, f: &mut Formatter<W>) -> fmt::Result {
        match self.0 {
            0 => Ok(()),
            line => write!(f, " after line {line}"),
        }
    }
}

/// Says which TRAPs are open, if there are open TRAPs.
pub fn put_traps(page: &mut ScriptPage<'_>, open: &[OpenTrap]) {
    let count = open.len();
    if count == 0 {
        return;
    }
    page.page.begin_note();
    page.page.write_text(if count == 1 {
        "inside the TRAP of line "
    } else {
        "inside the TRAPs of lines "
    });
    for (index, trap) in open.iter().enumerate() {
        let joint = joint(index, index.saturating_add(1) == count);
        page.page.write(format_args!("{joint}{}", trap.line));
    }
    page.page.end_line();
}
