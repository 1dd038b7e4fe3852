//! How a finding came about, as code flows. One flow goes through the attempts that failed; the other shows what became of the cell or the
//! items that the finding is about. The two flows are separate because it isn't always known in which order their events happened. The
//! events of each flow are in order of time. A leak shows only after the run, so its message ends the first flow; the second flow of a leak
//! begins with the line that made the cell.

use crate::places::{has_place, put_location};
use crate::writing::{Log, Written, comma};
use std::alloc::AllocError;
use std::fmt::Write;
use wb_explain::runs::{Finding, Told};
use wb_pages::Part;

/// A code flow: its places, in the order in which they are written.
#[derive(Clone, Copy)]
struct Flow<'b> {
    /// The finding's own message, if the flow begins with this message; else `None`.
    first: Option<Part>,
    parts: &'b [Part],
    is_backwards: bool,
    /// The finding's own message, if the flow ends with this message; else `None`.
    last: Option<Part>,
}

/// Writes the code flows of a finding; nothing if no line led to the finding.
pub fn put_flows(log: &mut Log<'_>, finding: Finding, own: Part) -> Written {
    let explanation = log.explanation;
    let (first, last) = if finding.told == Told::Forwards {
        (Some(own), None)
    } else {
        (None, Some(own))
    };
    let before = Flow {
        first: None,
        parts: explanation.parts_in(finding.before),
        is_backwards: false,
        last: Some(own),
    };
    let way = Flow {
        first,
        parts: explanation.parts_in(finding.way),
        is_backwards: finding.told == Told::Backwards,
        last,
    };
    let has_before = has_moment(log, before.parts);
    let has_way = finding.told != Told::Unordered && has_moment(log, way.parts);
    if !has_before && !has_way {
        return Ok(());
    }
    log.text.push_str(",\"codeFlows\":[")?;
    if has_before {
        put_flow(log, before)?;
    }
    if has_before && has_way {
        log.text.push_str(",")?;
    }
    if has_way {
        put_flow(log, way)?;
    }
    log.text.push_str("]")
}

/// Whether a part of the explanation is about something that happened at a line of the script. A line that declares a class doesn't count:
/// such a line never runs.
fn is_moment(log: &Log<'_>, part: Part) -> bool {
    let line = u32::try_from(part.line).unwrap_or(0);
    has_place(part) && log.lines.word(line, 0) != "class"
}

fn has_moment(log: &Log<'_>, parts: &[Part]) -> bool {
    for part in parts {
        if is_moment(log, *part) {
            return true;
        }
    }
    false
}

fn put_flow(log: &mut Log<'_>, flow: Flow<'_>) -> Written {
    log.text.push_str("{\"threadFlows\":[{\"locations\":[")?;
    let mut count = put_moment(log, flow.first, 0)?;
    let parts = flow.parts;
    for index in 0..parts.len() {
        let at = if flow.is_backwards {
            parts.len().saturating_sub(index).saturating_sub(1)
        } else {
            index
        };
        count = put_moment(log, parts.get(at).copied(), count)?;
    }
    put_moment(log, flow.last, count)?;
    log.text.push_str("]}]}")
}

/// Writes a part of the explanation as a place of a flow, if the part is about something that happened at a line. Returns how many places
/// the flow has afterwards.
fn put_moment(log: &mut Log<'_>, part: Option<Part>, count: usize) -> Result<usize, AllocError> {
    let Some(part) = part else {
        return Ok(count);
    };
    if !is_moment(log, part) {
        return Ok(count);
    }
    write!(log.text, "{}{{\"location\":{{", comma(count))?;
    put_location(log, part)?;
    log.text.push_str("}}")?;
    Ok(count.saturating_add(1))
}
