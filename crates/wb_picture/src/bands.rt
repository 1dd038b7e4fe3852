//! Numbers over time in a panel: the marks, the TRAPs and the cleanup stack as bands below the frame, and the committed length as a line in
//! the frame. Each column shows the greatest value that the number has in that column's steps. A band has the same scale in each panel of a
//! picture.

use crate::drawing::{Drawing, Drawn};
use crate::labels::{
    close_rect, open_path, open_rect, put_both, put_digits, put_number, put_text, width_of_number,
};
use crate::places::share_of;
use crate::scale::{Area, Scale};
use std::alloc::{AllocError, Global};
use wb_history::Series;

/// The height of a band, in pixels.
pub const BAND: u32 = 14;

/// The least height of a bar that has its value written inside, in pixels.
const LEAST_WITH_TEXT: u32 = 11;

/// Successive columns in which a number has the same greatest value.
#[derive(Clone, Copy)]
struct Stretch {
    from: u32,
    until: u32,
    value: u32,
}

/// Draws a band whose top is at `top`, with the band's name to the left of the band. The text to the right of the band says `greatest`, the
/// greatest value in all runs of the picture.
pub fn put_band(
    drawing: &mut Drawing<'_>,
    name: &str,
    series: &Series,
    greatest: u32,
    top: u32,
) -> Drawn {
    let scale = drawing.scale;
    let left = scale.frame.left.saturating_sub(6);
    let bottom = top.saturating_add(BAND);
    put_text(drawing, "e dim", left, bottom.saturating_sub(3), name)?;
    put_ground(drawing, bottom)?;
    put_greatest(drawing, greatest, bottom)?;
    let stretches = stretches_of(*drawing.text.allocator(), series, &scale)?;
    for stretch in stretches.as_slice() {
        if stretch.value != 0 {
            put_stretch(drawing, name, stretch, greatest, bottom)?;
        }
    }
    Ok(())
}

/// Draws the line at the bottom of a band.
fn put_ground(drawing: &mut Drawing<'_>, y: u32) -> Drawn {
    let scale = drawing.scale;
    let (left, right) = (scale.frame.left, scale.frame.right());
    write!(
        drawing.text,
        "<path class=\"grid\" d=\"M{left} {y}H{right}\"/>\n"
    )
}

/// Writes the greatest value of a band; nothing if the value is 0.
fn put_greatest(drawing: &mut Drawing<'_>, greatest: u32, bottom: u32) -> Drawn {
    let scale = drawing.scale;
    if greatest == 0 {
        return Ok(());
    }
    let x = scale.frame.right().saturating_add(6);
    put_text(
        drawing,
        "dim",
        x,
        bottom.saturating_sub(3),
        format_args!("up to {greatest}"),
    )
}

fn put_stretch(
    drawing: &mut Drawing<'_>,
    name: &str,
    stretch: &Stretch,
    greatest: u32,
    bottom: u32,
) -> Drawn {
    let scale = drawing.scale;
    let Stretch { from, until, value } = *stretch;
    let height = share_of(value, greatest, BAND).max(2);
    let area = Area::between(
        scale.x(from),
        bottom.saturating_sub(height),
        scale.x(until),
        bottom,
    );
    open_rect(drawing, "band", area)?;
    let first = scale.columns.first_step(from);
    let last = scale
        .columns
        .first_step(until)
        .saturating_sub(1)
        .min(scale.last);
    drawing.text.push_str(name)?;
    put_both(drawing, ": ", value)?;
    put_both(drawing, ", in steps ", first)?;
    put_both(drawing, " to ", last)?;
    close_rect(drawing)?;
    if area.width() < width_of_number(value).saturating_add(6) {
        return Ok(());
    }
    let x = area.left.saturating_add(3);
    if height < LEAST_WITH_TEXT {
        return put_number(drawing, "", x, area.top.saturating_sub(1), value);
    }
    put_number(drawing, "in", x, bottom.saturating_sub(3), value)
}

/// Draws a length over time as one line through the frame. While the length is past the frame, the line is at the frame's upper edge. If
/// the length is always past the frame, no line is drawn.
pub fn put_length(drawing: &mut Drawing<'_>, class: &str, series: &Series) -> Drawn {
    let scale = drawing.scale;
    let stretches = stretches_of(*drawing.text.allocator(), series, &scale)?;
    if series.least() > scale.places.reach {
        return Ok(());
    }
    open_path(drawing, class)?;
    let mut letter = 'M';
    for stretch in stretches.as_slice() {
        let (x, end) = (scale.x(stretch.from), scale.x(stretch.until));
        let y = scale.y(stretch.value);
        drawing.text.push(letter)?;
        put_point(drawing, x, y, end)?;
        letter = 'L';
    }
    drawing.text.push_str("\"/>\n")
}

/// Writes a point of a path, and the level piece of the path from this point to the x `end`.
fn put_point(drawing: &mut Drawing<'_>, x: u32, y: u32, end: u32) -> Drawn {
    put_digits(drawing, x)?;
    drawing.text.push(' ')?;
    put_digits(drawing, y)?;
    drawing.text.push('H')?;
    put_digits(drawing, end)
}

/// The stretches in which a number has the same greatest value.
fn stretches_of(alloc: Global, series: &Series, scale: &Scale) -> Result<Vec<Stretch>, AllocError> {
    let greatest = greatest_in_columns(alloc, series, scale)?;
    let mut stretches: Vec<Stretch> = Vec::new(alloc);
    let mut column = 0u32;
    for value in greatest.as_slice() {
        let until = column.saturating_add(1);
        add(&mut stretches, column, until, *value)?;
        column = until;
    }
    Ok(stretches)
}

/// Makes the last stretch longer if the last stretch has this value. If not, adds a new stretch with this value.
fn add(stretches: &mut Vec<Stretch>, from: u32, until: u32, value: u32) -> Drawn {
    if let Some(last) = stretches.last_mut()
        && last.value == value
    {
        last.until = until;
        return Ok(());
    }
    stretches.push(Stretch { from, until, value })?;
    Ok(())
}

/// The greatest value of a number in each column, up to the run's end.
fn greatest_in_columns(
    alloc: Global,
    series: &Series,
    scale: &Scale,
) -> Result<Vec<u32>, AllocError> {
    let columns = scale.columns;
    let count = columns.column(scale.last).saturating_add(1);
    let mut greatest = vec![in alloc; 0u32; count as usize]?;
    let changes = series.changes();
    for at in 0..changes.len() {
        let Some(change) = changes.get(at) else {
            break;
        };
        let until = match changes.get(at.saturating_add(1)) {
            Some(next) => next.step.saturating_sub(1).max(change.step),
            None => scale.last,
        };
        if until < columns.first {
            continue;
        }
        for column in columns.column(change.step)..=columns.column(until) {
            raise(&mut greatest, column, change.value);
        }
    }
    Ok(greatest)
}

fn raise(greatest: &mut Vec<u32>, column: u32, value: u32) {
    if let Some(old) = greatest.get_mut(column as usize) {
        *old = value.max(*old);
    }
}
