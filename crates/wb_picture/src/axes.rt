//! The frame of a panel with its axes: places on the left and steps below, both labelled at round numbers. A gap in the frame marks places
//! that are drawn shorter.

use crate::drawing::{Drawing, Drawn};
use crate::labels::{put_number, put_rect, put_text};
use crate::places::{Fold, round_step};
use crate::scale::{Area, Frame, Scale};

/// How far labels are from the frame, in pixels.
const BESIDE: u32 = 6;

/// The most intervals between labels on the axis of places.
const MOST_PLACES: u32 = 8;

/// The most intervals between labels on the axis of steps.
const MOST_STEPS: u32 = 16;

/// The most labels of an axis, counting the labels after folds.
const MOST_LABELS: u32 = 40;

/// A frame that draws at least this many bytes has its places written in KiB.
const FROM_KIB: u32 = 4096;

/// The height, in pixels, of the gap that marks places that are drawn shorter.
const GAP: u32 = 5;

/// The unit in which places are written.
#[derive(Clone, Copy)]
struct Unit {
    name: &'static str,
    bytes: u32,
}

impl Unit {
    fn of(drawn: u32) -> Unit {
        if drawn < FROM_KIB {
            Unit {
                name: "bytes",
                bytes: 1,
            }
        } else {
            Unit {
                name: "KiB",
                bytes: 1024,
            }
        }
    }

    fn count(self, place: u32) -> u32 {
        place.checked_div(self.bytes).unwrap_or(place)
    }
}

/// Draws the frame, and both axes.
pub fn put_frame(drawing: &mut Drawing<'_>) -> Drawn {
    let scale = drawing.scale;
    let Frame {
        left,
        top,
        width,
        height,
    } = scale.frame;
    write!(
        drawing.text,
        "<rect class=\"plot\" x=\"{left}\" y=\"{top}\" width=\"{width}\" height=\"{height}\"/>\n"
    )?;
    put_places(drawing)?;
    put_steps(drawing)
}

/// Writes labels of places on the left.
fn put_places(drawing: &mut Drawing<'_>) -> Drawn {
    let scale = drawing.scale;
    let drawn = scale.places.drawn_up_to(scale.places.reach);
    let unit = Unit::of(drawn);
    let step = round_step(unit.count(drawn), MOST_PLACES).saturating_mul(unit.bytes);
    let x = scale.frame.left.saturating_sub(BESIDE);
    put_text(
        drawing,
        "e dim",
        x,
        scale.frame.top.saturating_sub(22),
        unit.name,
    )?;
    let mut place = 0u32;
    for _ in 0..MOST_LABELS {
        if !scale.shows(place) {
            break;
        }
        put_place(drawing, unit, place)?;
        place = place_after(&scale, place, step);
    }
    Ok(())
}

/// The place of the next label. If the next round place is inside a fold, the label comes after the fold.
fn place_after(scale: &Scale, place: u32, step: u32) -> u32 {
    let next = place.saturating_add(step);
    let shown = scale.places.end_of_fold(next);
    shown.div_ceil(step.max(1)).saturating_mul(step)
}

fn put_place(drawing: &mut Drawing<'_>, unit: Unit, place: u32) -> Drawn {
    let scale = drawing.scale;
    let x = scale.frame.left.saturating_sub(BESIDE);
    let y = scale.y(place);
    let right = scale.frame.right();
    put_number(drawing, "e dim", x, y.saturating_add(4), unit.count(place))?;
    write!(
        drawing.text,
        "<path class=\"grid\" d=\"M{x} {y}H{right}\"/>\n"
    )
}

/// Writes labels of steps below the frame, each at the left of its column.
fn put_steps(drawing: &mut Drawing<'_>) -> Drawn {
    let scale = drawing.scale;
    let y = scale.frame.bottom().saturating_add(16);
    put_text(
        drawing,
        "e dim",
        scale.frame.left.saturating_sub(BESIDE),
        y,
        "steps",
    )?;
    let columns = scale.columns;
    let after = columns.first_step(columns.count);
    let every = round_step(after.saturating_sub(columns.first), MOST_STEPS);
    let mut step = columns.first.div_ceil(every.max(1)).saturating_mul(every);
    for _ in 0..MOST_LABELS {
        if step >= after {
            break;
        }
        let x = scale.x_of_step(step).saturating_add(3);
        put_number(drawing, "dim", x, y, step)?;
        step = step.saturating_add(every);
    }
    Ok(())
}

/// Draws a gap through the frame at each stretch of places that is drawn shorter.
pub fn put_gaps(drawing: &mut Drawing<'_>) -> Drawn {
    let scale = drawing.scale;
    if !scale.places.is_folded() {
        return Ok(());
    }
    for fold in scale.places.folds() {
        if !fold.is_empty() {
            put_gap(drawing, fold)?;
        }
    }
    Ok(())
}

/// The y of the middle of a fold.
fn middle_of(scale: &Scale, fold: &Fold) -> u32 {
    let (low, high) = (scale.y(fold.from), scale.y(fold.until));
    high.saturating_add(low.saturating_sub(high) / 2)
}

/// The base line of a text that is to be at `y`. If the gap of a fold would cross the text, the base line is above this gap.
pub fn base_line(scale: &Scale, y: u32) -> u32 {
    if !scale.places.is_folded() {
        return y;
    }
    for fold in scale.places.folds() {
        let gap = middle_of(scale, fold);
        if !fold.is_empty() && gap.abs_diff(y) < 15 {
            return gap.saturating_sub(6);
        }
    }
    y
}

fn put_gap(drawing: &mut Drawing<'_>, fold: &Fold) -> Drawn {
    let scale = drawing.scale;
    let (from, until) = (fold.from, fold.until);
    let top = middle_of(&scale, fold).saturating_sub(GAP / 2);
    let bottom = top.saturating_add(GAP);
    let left = scale.frame.left.saturating_sub(BESIDE);
    let right = scale.frame.right().saturating_add(BESIDE);
    let area = Area::between(left, top, right, bottom);
    put_rect(
        drawing,
        "paper",
        area,
        format_args!("places {from} to {until} are drawn shorter"),
    )?;
    write!(
        drawing.text,
        "<path class=\"fold\" d=\"M{left} {top}H{right}M{left} {bottom}H{right}\"/>\n"
    )
}
