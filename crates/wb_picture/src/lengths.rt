//! The lengths of a heap in its panel: each rise with the attempt that made it, the greatest length that the run reaches, the limit, and
//! the committed length. The labels of the rises are in the frame; all other labels are to the right of the frame.

use crate::bands::put_length;
use crate::drawing::{Drawing, Drawn};
use crate::escape::put_line;
use crate::labels::{
    close_line, open_line, put_both, put_number, put_path, put_text, width_of_number,
};
use crate::leaks::{LeakLabel, is_free};
use crate::marks::{ColumnAttempts, extend};
use crate::scale::{Area, Scale};
use std::alloc::{AllocError, Global};
use wb_heap_model::heap::Rule;
use wb_history::{AttemptMade, WatchedRun};

/// How far apart labels are, in pixels.
const APART: u32 = 13;

/// A length that is a line across the frame.
#[derive(Clone, Copy, PartialEq, Eq, PartialOrd, Ord)]
enum Name {
    Limit,
    Required,
    Longest,
    Committed,
}

/// A label. Labels are ordered by y first, so sorting puts them in order from the top down.
#[derive(Clone, Copy, PartialEq, Eq, PartialOrd, Ord)]
struct Label {
    y: u32,
    name: Name,
    length: u32,
}

impl Name {
    fn text(self) -> &'static str {
        match self {
            Name::Limit => "limit",
            Name::Required => "required",
            Name::Longest => "longest",
            Name::Committed => "committed",
        }
    }

    /// The style of the line with this name.
    fn class(self) -> &'static str {
        match self {
            Name::Limit => "limit",
            Name::Required | Name::Longest => "need strong",
            Name::Committed => "held strong",
        }
    }
}

/// Returns the rises of a run from the step `first` on. A rise is a granted attempt whose cell ends past all cells that were granted
/// earlier.
pub fn rises_of<'a>(
    alloc: Global,
    run: &'a WatchedRun<'a>,
    first: u32,
) -> Result<Vec<AttemptMade<'a>>, AllocError> {
    let mut rises = Vec::new(alloc);
    let mut top = 0;
    for it in run.history.attempts.kept_attempts() {
        if it.is_granted() && it.top() > top {
            top = it.top();
            if it.step >= first {
                rises.push(*it)?;
            }
        }
    }
    Ok(rises)
}

/// The greatest end of a cell that one of these attempts was granted, in bytes; 0 if no attempt was granted.
pub fn longest_end(attempts: &[AttemptMade<'_>]) -> u32 {
    let mut top = 0;
    for it in attempts {
        if it.is_granted() {
            top = it.top().max(top);
        }
    }
    top
}

/// Draws the lines of all lengths, with their labels.
pub fn put_lengths(drawing: &mut Drawing<'_>, run: &WatchedRun<'_>) -> Drawn {
    let scale = drawing.scale;
    let mut labels = Vec::new(*drawing.text.allocator());
    let longest = longest_end(run.history.attempts.kept_attempts());
    let name = match &run.parameters.rule {
        Rule::Unlimited => Name::Required,
        Rule::Number(0) | Rule::Every(0) | Rule::From(0) => Name::Required,
        _ => Name::Longest,
    };
    put_across(drawing, name, longest, &mut labels)?;
    if let Rule::Limit(limit) = &run.parameters.rule {
        put_across(drawing, Name::Limit, *limit, &mut labels)?;
    }
    put_length(
        drawing,
        Name::Committed.class(),
        &run.history.course.committed,
    )?;
    labels.push(label_of(
        &scale,
        Name::Committed,
        run.history.course.committed.greatest(),
    ))?;
    labels.sort_unstable();
    put_labels(drawing, &labels)
}

fn label_of(scale: &Scale, name: Name, length: u32) -> Label {
    Label {
        y: scale.y(length),
        name,
        length,
    }
}

/// Adds the label of a length, and draws its line across the frame if the frame shows this length.
fn put_across(
    drawing: &mut Drawing<'_>,
    name: Name,
    length: u32,
    labels: &mut Vec<Label>,
) -> Drawn {
    let scale = drawing.scale;
    labels.push(label_of(&scale, name, length))?;
    if !scale.shows(length) {
        return Ok(());
    }
    let y = scale.y(length);
    let line = Area::level(scale.frame.left, scale.frame.right(), y);
    put_path(
        drawing,
        name.class(),
        line,
        format_args!("{} {length}", name.text()),
    )
}

/// Writes the labels from the top down, without overlaps.
fn put_labels(drawing: &mut Drawing<'_>, labels: &Vec<Label>) -> Drawn {
    let scale = drawing.scale;
    let x = scale.frame.right().saturating_add(6);
    let mut free = 0;
    for label in labels.as_slice() {
        let y = label.y.saturating_add(4).max(free);
        free = y.saturating_add(APART);
        let (name, length) = (label.name.text(), label.length);
        let above = if scale.shows(length) { "" } else { " (above)" };
        put_text(
            drawing,
            "dim",
            x,
            y,
            format_args!("{name} {length} bytes{above}"),
        )?;
    }
    Ok(())
}

/// The position of the number that was written last.
#[derive(Drop)]
struct Pen {
    x: u32,
    y: u32,
}

/// Draws each rise as a line from its step to the step of the next rise. Writes the number of the rise's attempt if other labels leave
/// room.
pub fn put_rises(
    drawing: &mut Drawing<'_>,
    rises: &[AttemptMade<'_>],
    labels: &[LeakLabel],
) -> Drawn {
    let scale = drawing.scale;
    let mut pen = Pen { x: 0, y: u32::MAX };
    let mut step = None;
    for rise in rises {
        if let Some(done) = extend(&mut step, &scale, rise) {
            let end = scale.x_of_step(rise.step);
            let line = line_of(&scale, &done, end);
            put_rise(drawing, &done, line)?;
            put_rise_number(drawing, done.last, line, labels, &mut pen)?;
        }
    }
    if let Some(done) = step {
        let line = line_of(&scale, &done, scale.end());
        put_rise(drawing, &done, line)?;
        put_rise_number(drawing, done.last, line, labels, &mut pen)?;
    }
    Ok(())
}

/// The line of the last rise in one column, from this column to `end`.
fn line_of(scale: &Scale, step: &ColumnAttempts<'_, '_>, end: u32) -> Area {
    let y = scale.y(step.last.top());
    Area::level(scale.x(step.column), end, y)
}

fn put_rise(drawing: &mut Drawing<'_>, step: &ColumnAttempts<'_, '_>, line: Area) -> Drawn {
    open_line(drawing, "rise strong", line)?;
    put_rise_title(drawing, step)?;
    close_line(drawing)
}

fn put_rise_title(drawing: &mut Drawing<'_>, step: &ColumnAttempts<'_, '_>) -> Drawn {
    let (first, last) = (step.first.attempt.number, step.last.attempt.number);
    let top = step.last.top();
    if first == last {
        put_both(drawing, "rise: attempt ", first)?;
    } else {
        put_both(drawing, "rises: attempts ", first)?;
        put_both(drawing, " to ", last)?;
    }
    put_both(drawing, " made the heap ", top)?;
    drawing.text.push_str(" bytes long")?;
    put_line(drawing, step.first.maker.line)
}

/// Writes the number of a rise above the beginning of the rise's line. The number is left out if it would reach past the end of the line,
/// or cover the number before it or the label of a leak.
fn put_rise_number(
    drawing: &mut Drawing<'_>,
    rise: &AttemptMade<'_>,
    line: Area,
    labels: &[LeakLabel],
    pen: &mut Pen,
) -> Drawn {
    let width = width_of_number(rise.attempt.number);
    let left = line.left.saturating_add(3);
    let bottom = line.top.saturating_sub(3);
    let number = Area::between(
        left,
        bottom.saturating_sub(9),
        left.saturating_add(width),
        bottom,
    );
    let is_clear = line.top.saturating_add(11) < pen.y
        || line.left > pen.x.saturating_add(width).saturating_add(4);
    if !is_clear || number.right > line.right || !is_free(labels, &number) {
        return Ok(());
    }
    pen.x = line.left;
    pen.y = line.top;
    put_number(drawing, "", left, bottom, rise.attempt.number)
}
