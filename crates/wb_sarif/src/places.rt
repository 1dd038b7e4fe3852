//! Lines of the script as locations of a log.

use crate::escape::{Escaped, FileReference};
use crate::writing::{Log, Written};
use std::fmt::Write;
use wb_pages::words::count_blanks;
use wb_pages::{Part, PartKind};

/// Whether a part of an explanation is about a line of the script. Only such a part has a location.
pub fn has_place(part: Part) -> bool {
    part.kind == PartKind::OfLine && part.line > 0
}

/// Writes the place of a message as the property `physicalLocation` of a location. Columns are counted from 1.
pub fn put_place(log: &mut Log<'_>, part: Part) -> Written {
    write!(
        log.text,
        "\"physicalLocation\":{{\"artifactLocation\":{{\"uri\":\"{}\",\"index\":0}},\"region\":{{\"startLine\":{}",
        FileReference(log.lines.name),
        part.line
    )?;
    if let Some(span) = part.span {
        let line = log.lines.line(u32::try_from(part.line).unwrap_or(0));
        let first = count_blanks(line.as_bytes())
            .saturating_add(span.column)
            .saturating_add(1);
        let after = first.saturating_add(span.length);
        write!(log.text, ",\"startColumn\":{first},\"endColumn\":{after}")?;
    }
    write!(log.text, "}}}}")
}

/// Writes the place and the words of a message as the properties of a location. The message must have a place.
pub fn put_location(log: &mut Log<'_>, part: Part) -> Written {
    put_place(log, part)?;
    let words = part.words(log.explanation.text.as_str());
    write!(log.text, ",\"message\":{{\"text\":\"{}\"}}", Escaped(words))
}
