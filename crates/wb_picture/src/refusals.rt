//! A table at the side of a panel: which attempts shorter heaps refuse first. Each range of lengths is drawn at the height of the places
//! with the same numbers.

use crate::drawing::{Drawing, Drawn};
use crate::escape::put_line;
use crate::labels::{close_rect, close_text, open_rect, open_text, put_both, put_text};
use crate::scale::{Area, Scale};
use wb_history::AttemptMade;

/// The distance from a frame to the table, with room for labels between them, in pixels.
pub const BESIDE: u32 = 212;

/// The width of the table's bar, in pixels.
const BAR: u32 = 12;

/// The least height of a range that is drawn by itself, in pixels.
pub const LEAST: u32 = 2;

/// The least height of a range that has a text, in pixels.
pub const LEAST_WITH_TEXT: u32 = 12;

/// A range of lengths from `from` to before `until`, in bytes. The shortest of these heaps refuse the attempt `first` before any other
/// attempt, and the longest of them refuse the attempt `last` before any other attempt.
#[derive(Clone, Copy)]
struct Range<'a> {
    from: u32,
    until: u32,
    first: AttemptMade<'a>,
    last: AttemptMade<'a>,
}

/// Draws the table of a run from the run's rises. Successive ranges that are too low to be seen are drawn as one.
pub fn put_refusals(drawing: &mut Drawing<'_>, rises: &[AttemptMade<'_>]) -> Drawn {
    let scale = drawing.scale;
    put_head(drawing, "what shorter heaps refuse first")?;
    let mut open: Option<Range<'_>> = None;
    let mut from = 0;
    let mut class = "cut1";
    for rise in rises {
        let range = range_with(open.take(), from, rise);
        from = rise.top();
        if height_of(&range, &scale) < LEAST {
            open = Some(range);
        } else {
            put_range(drawing, &range, class)?;
            class = other(class);
        }
    }
    if let Some(range) = open {
        put_range(drawing, &range, class)?;
    }
    Ok(())
}

/// Writes the heading of a table.
pub fn put_head(drawing: &mut Drawing<'_>, words: &str) -> Drawn {
    let frame = drawing.scale.frame;
    let x = frame.right().saturating_add(BESIDE);
    put_text(drawing, "dim", x, frame.top.saturating_sub(9), words)
}

/// The bar of the lengths from `from` to before `until`, in bytes.
pub fn bar_of(scale: &Scale, from: u32, until: u32) -> Area {
    let left = scale.frame.right().saturating_add(BESIDE);
    let right = left.saturating_add(BAR);
    Area::between(left, scale.y(until), right, scale.y(from)).at_least(BAR, LEAST)
}

/// Opens the text beside a bar.
pub fn open_beside(drawing: &mut Drawing<'_>, bar: Area) -> Drawn {
    open_text(
        drawing,
        "",
        bar.right.saturating_add(6),
        bar.middle().saturating_add(4),
    )
}

fn other(class: &'static str) -> &'static str {
    if class == "cut1" { "cut2" } else { "cut1" }
}

/// The range `open` extended by a rise. If `open` is `None`, the result is a new range of this rise alone.
fn range_with<'a>(open: Option<Range<'a>>, from: u32, rise: &AttemptMade<'a>) -> Range<'a> {
    match open {
        Some(range) => Range {
            until: rise.top(),
            last: *rise,
            ..range
        },
        None => Range {
            from,
            until: rise.top(),
            first: *rise,
            last: *rise,
        },
    }
}

fn height_of(range: &Range<'_>, scale: &Scale) -> u32 {
    scale.y(range.from).saturating_sub(scale.y(range.until))
}

fn put_range(drawing: &mut Drawing<'_>, range: &Range<'_>, class: &str) -> Drawn {
    let area = bar_of(&drawing.scale, range.from, range.until);
    open_rect(drawing, class, area)?;
    put_range_title(drawing, range)?;
    put_line(drawing, range.first.maker.line)?;
    close_rect(drawing)?;
    if area.height() < LEAST_WITH_TEXT {
        return Ok(());
    }
    open_beside(drawing, area)?;
    put_range_title(drawing, range)?;
    close_text(drawing)
}

fn put_range_title(drawing: &mut Drawing<'_>, range: &Range<'_>) -> Drawn {
    let (first, last) = (range.first.attempt.number, range.last.attempt.number);
    put_both(drawing, "from ", range.from)?;
    put_both(drawing, " refuses ", first)?;
    if first == last {
        return Ok(());
    }
    put_both(drawing, " .. ", last)
}
