//! A table at the side of a panel: how runs end in heaps of every length. Each range of lengths is drawn at the height of the places with
//! the same numbers.

use crate::drawing::{Drawing, Drawn};
use crate::endings::put_run_end;
use crate::labels::{close_rect, close_text, open_rect};
use crate::refusals::{LEAST, LEAST_WITH_TEXT, bar_of, open_beside, put_head};
use crate::scale::Scale;
use wb_runs::lengths::LengthRange;

/// Successive ranges of lengths that are drawn as one: from `from` to before `until`, in bytes.
#[derive(Clone, Copy)]
struct Stretch {
    from: u32,
    until: u32,
    /// The first range of the stretch (`first`), and the number of its ranges (`count`).
    first: LengthRange,
    count: u32,
    /// Whether the runs of at least one range of the stretch leak or panic.
    is_bad: bool,
}

impl Stretch {
    /// Returns this stretch with the next range added; that range ends before `until`.
    fn with(self, range: &LengthRange, until: u32) -> Stretch {
        Stretch {
            until,
            count: self.count.saturating_add(1),
            is_bad: self.is_bad || range.end.is_bad(),
            ..self
        }
    }

    fn height(&self, scale: &Scale) -> u32 {
        scale.y(self.from).saturating_sub(scale.y(self.until))
    }

    /// The style of the bar of the stretch with this index. Successive bars have different styles, unless both are bad.
    fn class(&self, index: u32) -> &'static str {
        match (self.is_bad, index % 2) {
            (true, _) => "leak",
            (false, 0) => "cut1",
            (false, _) => "cut2",
        }
    }
}

/// Draws the table of the ranges whose lengths the frame shows. Successive ranges that are too low to be seen are drawn as one.
pub fn put_ranges(drawing: &mut Drawing<'_>, ranges: &[LengthRange]) -> Drawn {
    let scale = drawing.scale;
    put_head(drawing, "how runs end in other heaps")?;
    let mut open: Option<Stretch> = None;
    let mut drawn = 0u32;
    for index in 0..ranges.len() {
        let Some(range) = ranges.get(index) else {
            break;
        };
        if !scale.shows(range.from) {
            break;
        }
        let until = end_of_range(ranges, index).min(scale.places.reach);
        let stretch = stretch_with(open.take(), range, until);
        if stretch.height(&scale) < LEAST {
            open = Some(stretch);
        } else {
            put_stretch(drawing, &stretch, drawn)?;
            drawn = drawn.saturating_add(1);
        }
    }
    match open {
        Some(stretch) => put_stretch(drawing, &stretch, drawn),
        None => Ok(()),
    }
}

/// The end of the range with this index: the first length after the range.
fn end_of_range(ranges: &[LengthRange], index: usize) -> u32 {
    match ranges.get(index.saturating_add(1)) {
        Some(next) => next.from,
        None => u32::MAX,
    }
}

/// The stretch `open` with a range added. If `open` is `None`, the result is a new stretch of this range alone.
fn stretch_with(open: Option<Stretch>, range: &LengthRange, until: u32) -> Stretch {
    match open {
        Some(stretch) => stretch.with(range, until),
        None => Stretch {
            from: range.from,
            until,
            first: *range,
            count: 1,
            is_bad: range.end.is_bad(),
        },
    }
}

fn put_stretch(drawing: &mut Drawing<'_>, stretch: &Stretch, index: u32) -> Drawn {
    let area = bar_of(&drawing.scale, stretch.from, stretch.until);
    open_rect(drawing, stretch.class(index), area)?;
    put_stretch_title(drawing, stretch)?;
    close_rect(drawing)?;
    if area.height() < LEAST_WITH_TEXT {
        return Ok(());
    }
    open_beside(drawing, area)?;
    put_stretch_title(drawing, stretch)?;
    close_text(drawing)
}

/// Writes the first length of a stretch. If the stretch is one range, also writes how runs end in this range. If it is several ranges, also
/// writes how many ranges there are, and whether some are bad.
fn put_stretch_title(drawing: &mut Drawing<'_>, stretch: &Stretch) -> Drawn {
    let (from, count) = (stretch.from, stretch.count);
    write!(drawing.text, "from {from} ")?;
    if count == 1 {
        return put_run_end(drawing, stretch.first.end);
    }
    let some = if stretch.is_bad { ", some bad" } else { "" };
    write!(drawing.text, "{count} ranges{some}")
}
