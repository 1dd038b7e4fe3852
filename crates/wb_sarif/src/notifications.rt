//! The notifications of a log: explanations that belong to no finding, such as which attempts shorter heaps refuse first.

use crate::escape::Escaped;
use crate::places::{has_place, put_place};
use crate::writing::{Log, Written, before_item};
use std::alloc::AllocError;
use std::fmt::Write;
use wb_explain::runs::{Explanation, Parts};
use wb_pages::{Part, PartKind};

/// Writes all parts of the explanation that are in no result, with the rows of a table below the table's heading.
pub fn put_notifications(log: &mut Log<'_>) -> Written {
    let explanation = log.explanation;
    let mut count: usize = 0;
    for (index, part) in explanation.all_parts().iter().enumerate() {
        if !is_told(explanation, index, *part) {
            count = put_part(log, count, *part)?;
        }
    }
    if count > 0 {
        log.text.push_str("\"}}")?;
    }
    Ok(())
}

/// Writes a part of the explanation. A row is added to the notification before it; any other part becomes a new notification, whose string
/// stays open. Returns how many notifications there are afterwards.
fn put_part(log: &mut Log<'_>, count: usize, part: Part) -> Result<usize, AllocError> {
    if part.kind == PartKind::Row && count > 0 {
        put_words(log, "\\n", part)?;
        return Ok(count);
    }
    begin(log, count, part)?;
    Ok(count.saturating_add(1))
}

/// Whether a result of the log contains this part of the explanation.
fn is_told(explanation: &Explanation, index: usize, part: Part) -> bool {
    for finding in explanation.findings() {
        let is_before = has_place(part) && is_in(finding.before, index);
        if finding.own == index || is_in(finding.way, index) || is_before {
            return true;
        }
    }
    false
}

fn is_in(parts: Parts, index: usize) -> bool {
    parts.from <= index && index < parts.to
}

/// Ends the previous notification, if there is one. Then begins the new notification, whose string stays open.
fn begin(log: &mut Log<'_>, count: usize, part: Part) -> Written {
    if count > 0 {
        log.text.push_str("\"}}")?;
    }
    log.text.push_str(before_item(count))?;
    log.text.push_str("{\"level\":\"note\",")?;
    if has_place(part) {
        log.text.push_str("\"locations\":[{")?;
        put_place(log, part)?;
        log.text.push_str("}],")?;
    }
    log.text.push_str("\"message\":{\"text\":\"")?;
    let before = if part.kind == PartKind::Help {
        "help: "
    } else {
        ""
    };
    put_words(log, before, part)
}

/// Writes the words of a part inside a string of JSON.
fn put_words(log: &mut Log<'_>, before: &str, part: Part) -> Written {
    let words = part.words(log.explanation.text.as_str());
    write!(log.text, "{before}{}", Escaped(words))
}
