//! The labels of leaks in a panel, each with the script's line that made the leaked cell. A label is inside its leak if there is room, and
//! beside the leak if not. Labels are placed from the top down.

use crate::axes::base_line;
use crate::boxes::{LEAST_WITH_TEXT, put_name, width_of_name};
use crate::colours::Paint;
use crate::drawing::{Drawing, Drawn};
use crate::groups::Group;
use crate::labels::{close_text, open_text, width_of_number};
use crate::panel::Panel;
use crate::scale::{Area, Scale};
use std::alloc::{AllocError, Global};
use wb_heap_model::heap::Kind;

/// The distance between the base lines of labels, in pixels.
const APART: u32 = 13;

/// The distance from a leak to a label beside the leak, in pixels.
const BESIDE: u32 = 5;

/// How far below the middle of a leak the base line of its label is, in pixels.
const RISE: u32 = 4;

/// The most leaks that have labels. One more label says how many leaks have no label.
const MOST_LABELS: usize = 12;

/// The width of the words in a label of one leak, without numbers and names, in pixels.
const WORDS: u32 = 90;

/// The width of the words in a label of several leaks, without numbers, in pixels.
const WORDS_OF_MANY: u32 = 180;

/// A rectangle of leaks. Rectangles of leaks are ordered from the top down.
#[derive(Clone, Copy, PartialEq, Eq, PartialOrd, Ord)]
struct Leak {
    y: u32,
    /// The index of the rectangle's group.
    group: usize,
}

/// The label of a rectangle of leaks, or the last label, which says how many rectangles of leaks have no label.
#[derive(Clone, Copy)]
pub struct LeakLabel {
    area: Area,
    class: &'static str,
    x: u32,
    y: u32,
    group: Group,
    /// How many rectangles of leaks have no label; it is 0 in all labels but the last.
    more: usize,
}

/// Whether no label overlaps this area.
pub fn is_free(labels: &[LeakLabel], area: &Area) -> bool {
    for label in labels {
        if label.area.meets(area) {
            return false;
        }
    }
    true
}

/// The labels of leaks, from the top down. No label covers another, and all labels are in the frame.
pub fn labels_of(
    drawing: &Drawing<'_>,
    panel: &Panel<'_>,
    groups: &[Group],
) -> Result<Vec<LeakLabel>, AllocError> {
    let alloc = *drawing.text.allocator();
    let leaks = leaks_of(alloc, &panel.scale, groups)?;
    let mut labels = Vec::new(alloc);
    let mut free = 0u32;
    let mut lowest = lowest_of_first(&panel.scale, leaks.len());
    for leak in leaks.as_slice() {
        let Some(group) = groups.get(leak.group) else {
            break;
        };
        let more = if labels.len() == MOST_LABELS {
            leaks.len().saturating_sub(MOST_LABELS)
        } else {
            0
        };
        let y = leak.y.max(free).min(lowest);
        labels.push(label_at(drawing, panel, group, y, more))?;
        free = y.saturating_add(APART);
        lowest = lowest.saturating_add(APART);
        if more > 0 {
            break;
        }
    }
    Ok(labels)
}

/// The lowest base line that the first label may have if the labels of all other leaks are to have room below it in the frame.
fn lowest_of_first(scale: &Scale, leaks: usize) -> u32 {
    let others = leaks.saturating_sub(1).min(MOST_LABELS);
    let room = u32::try_from(others).unwrap_or(0).saturating_mul(APART);
    scale
        .frame
        .bottom()
        .saturating_sub(RISE)
        .saturating_sub(room)
}

/// The rectangles of leaks among these groups, from the top down.
fn leaks_of(alloc: Global, scale: &Scale, groups: &[Group]) -> Result<Vec<Leak>, AllocError> {
    let mut leaks = Vec::new(alloc);
    for at in 0..groups.len() {
        if let Some(group) = groups.get(at)
            && group.paint() == Paint::Leak
        {
            let y = base_line(scale, group.area().middle().saturating_add(RISE));
            leaks.push(Leak { y, group: at })?;
        }
    }
    leaks.sort_unstable();
    Ok(leaks)
}

/// The label of a leak, with its base line at `y`. The label is inside the leak, to its right, to its left, or over it: whichever of these
/// has room first.
fn label_at(
    drawing: &Drawing<'_>,
    panel: &Panel<'_>,
    group: &Group,
    y: u32,
    more: usize,
) -> LeakLabel {
    let width = width_of_label(drawing, panel, group);
    let area = group.area();
    let after = area.right.saturating_add(BESIDE);
    let before = area.left.saturating_sub(BESIDE);
    let (class, left, x) = if area.height() >= LEAST_WITH_TEXT && area.width() >= width {
        let centre = area.centre();
        ("n", centre.saturating_sub(width / 2), centre)
    } else if after.saturating_add(width) <= panel.scale.frame.right() {
        ("over", after, after)
    } else if before >= panel.scale.frame.left.saturating_add(width) {
        ("over e", before.saturating_sub(width), before)
    } else {
        let over = area.left.saturating_add(BESIDE);
        ("over", over, over)
    };
    LeakLabel {
        area: Area::between(
            left,
            y.saturating_sub(APART - RISE),
            left.saturating_add(width),
            y.saturating_add(RISE / 2),
        ),
        class,
        x,
        y,
        group: *group,
        more,
    }
}

/// Writes the labels.
pub fn put_labels(drawing: &mut Drawing<'_>, panel: &Panel<'_>, labels: &[LeakLabel]) -> Drawn {
    for label in labels {
        open_text(drawing, label.class, label.x, label.y)?;
        put_words(drawing, panel, label)?;
        close_text(drawing)?;
    }
    Ok(())
}

fn width_of_label(drawing: &Drawing<'_>, panel: &Panel<'_>, group: &Group) -> u32 {
    let Some(part) = panel.run.history.course.parts().get(group.first) else {
        return 0;
    };
    let words = if group.count > 1 {
        WORDS_OF_MANY
    } else {
        width_of_name(drawing.lines, part.kind).saturating_add(WORDS)
    };
    let numbers = width_of_number(part.number.max(group.count));
    words
        .saturating_add(numbers)
        .saturating_add(width_of_number(part.line))
}

fn put_words(drawing: &mut Drawing<'_>, panel: &Panel<'_>, label: &LeakLabel) -> Drawn {
    let (more, count) = (label.more, label.group.count);
    if more > 0 {
        return write!(drawing.text, "and leaks in {more} more rectangles");
    }
    let Some(part) = panel.run.history.course.parts().get(label.group.first) else {
        return Ok(());
    };
    let (number, line) = (part.number, part.line);
    if count > 1 {
        return write!(drawing.text, "{count} leaks, the first of line {line}");
    }
    write!(drawing.text, "leak {number}")?;
    if part.kind != Kind::Raw {
        put_name(drawing, part.kind)?;
    }
    write!(drawing.text, ", line {line}")
}
