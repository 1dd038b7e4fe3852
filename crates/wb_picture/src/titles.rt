//! The titles of shapes: of a cell, of an attempt, and of several cells that are drawn as one.

use crate::drawing::{Drawing, Drawn};
use crate::escape::{put_class, put_line};
use crate::groups::Group;
use crate::labels::{put_both, put_digits};
use wb_heap_model::heap::{Answer, Attempt, Kind};
use wb_history::{AttemptMade, Part, PartEnd};

/// Says which cell a part of a cell's life belongs to, during which steps this part lasts, and which line made the cell.
pub fn put_part_title(drawing: &mut Drawing<'_>, part: &Part) -> Drawn {
    if part.leaks {
        drawing.text.push_str("leak: ")?;
    }
    let (number, length, place) = (part.number, part.length, part.place);
    put_both(drawing, "cell ", number)?;
    drawing.text.push_str(", ")?;
    put_kind(drawing, part.kind)?;
    put_both(drawing, ", ", length)?;
    put_both(drawing, " bytes at place ", place)?;
    put_beginning(drawing, part)?;
    put_end(drawing, part)?;
    put_line(drawing, part.line)
}

/// Writes what a cell is for.
fn put_kind(drawing: &mut Drawing<'_>, kind: Kind) -> Drawn {
    match kind {
        Kind::Raw => drawing.text.push_str("raw"),
        Kind::Text => drawing.text.push_str("text"),
        Kind::Cleanup => drawing.text.push_str("the cleanup stack's own"),
        Kind::Object(class) => {
            drawing.text.push_str("object of class ")?;
            put_class(drawing, class)
        }
    }
}

fn put_beginning(drawing: &mut Drawing<'_>, part: &Part) -> Drawn {
    let (attempt, from) = (part.attempt, part.from);
    if attempt == 0 {
        return put_both(drawing, ", made shorter in step ", from);
    }
    let deed = if part.before.is_none() {
        ", granted by attempt "
    } else if attempt == part.number {
        ", moved here by attempt "
    } else {
        ", grown by attempt "
    };
    put_both(drawing, deed, attempt)?;
    put_both(drawing, " in step ", from)
}

fn put_end(drawing: &mut Drawing<'_>, part: &Part) -> Drawn {
    let deed = match part.end {
        PartEnd::Live => return drawing.text.push_str(", never freed"),
        PartEnd::Freed => ", freed in step ",
        PartEnd::Resized => ", given another length in step ",
        PartEnd::Moved => ", moved away in step ",
    };
    put_both(drawing, deed, part.gone)
}

/// Says how many parts a group's rectangle shows, and which parts.
pub fn put_group_title(
    drawing: &mut Drawing<'_>,
    group: &Group,
    first: &Part,
    last: &Part,
) -> Drawn {
    put_digits(drawing, group.count)?;
    drawing.text.push_str(if first.leaks {
        " leaks cells, "
    } else {
        " cells, "
    })?;
    put_kind(drawing, first.kind)?;
    put_both(drawing, ", from cell ", first.number)?;
    put_both(drawing, " to cell ", last.number)?;
    put_both(drawing, ", made in steps ", first.from)?;
    put_both(drawing, " to ", last.from)?;
    put_line(drawing, first.line)
}

/// Says whether an attempt was granted or failed.
pub fn put_attempt_title(drawing: &mut Drawing<'_>, attempt: &AttemptMade<'_>) -> Drawn {
    let Attempt {
        number,
        length,
        place,
        answer,
    } = attempt.attempt;
    put_both(drawing, "attempt ", number)?;
    drawing.text.push_str(", ")?;
    drawing.text.push_str(answer_word(answer))?;
    put_both(drawing, ": ", length)?;
    put_both(drawing, " bytes at place ", place)?;
    put_both(drawing, ", in step ", attempt.step)?;
    put_line(drawing, attempt.maker.line)
}

fn answer_word(answer: Answer) -> &'static str {
    match answer {
        Answer::Granted => "granted",
        Answer::Simulated => "made to fail",
        Answer::Refused => "refused by the limit",
    }
}
