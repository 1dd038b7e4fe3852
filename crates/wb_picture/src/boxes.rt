//! The cells of a run in its panel: a rectangle for each group of parts of cells' lives, and the words in the rectangle. If a cell has
//! moved, a line joins its old place and its new place.

use crate::axes::base_line;
use crate::colours::Paint;
use crate::drawing::{Drawing, Drawn};
use crate::escape::{put_class, width_of};
use crate::groups::{Group, area_of};
use crate::labels::{
    close_line, close_rect, close_text, open_cell, open_line, open_text, put_both, put_digits,
    width_of_number,
};
use crate::leaks::{LeakLabel, is_free};
use crate::panel::Panel;
use crate::scale::Area;
use crate::titles::{put_group_title, put_part_title};
use wb_heap_model::heap::Kind;
use wb_history::{Part, ScriptLines};

/// The least height of a rectangle that has words inside, in pixels.
pub const LEAST_WITH_TEXT: u32 = 11;

/// How much wider than its text a rectangle must be to have the text inside, in pixels.
const ROOM: u32 = 8;

/// Draws the cells that leak if `leaking` is true, and all other cells if it is false.
pub fn put_cells(
    drawing: &mut Drawing<'_>,
    panel: &Panel<'_>,
    groups: &[Group],
    leaking: bool,
) -> Drawn {
    for group in groups {
        if (group.paint() == Paint::Leak) == leaking {
            put_group(drawing, panel, group)?;
        }
    }
    Ok(())
}

/// Draws a group of parts as one rectangle.
pub fn put_group(drawing: &mut Drawing<'_>, panel: &Panel<'_>, group: &Group) -> Drawn {
    let parts = panel.run.history.course.parts();
    let (Some(first), Some(last)) = (parts.get(group.first), parts.get(group.last)) else {
        return Ok(());
    };
    open_cell(drawing, edge_of(group), group.paint().name(), group.area())?;
    if group.count > 1 {
        put_group_title(drawing, group, first, last)?;
        return close_rect(drawing);
    }
    put_part_title(drawing, first)?;
    close_rect(drawing)?;
    put_join(drawing, panel, parts, first)
}

/// The style of a rectangle's edge. A rectangle that is too small has no edge. A leak is too small only if the edge would cover the leak's
/// red.
fn edge_of(group: &Group) -> &'static str {
    let low = if group.paint() == Paint::Leak { 3 } else { 8 };
    if group.area().width() < 4 || group.area().height() < low {
        "thin"
    } else {
        "cell"
    }
}

/// Draws a line that joins the old and the new place of a cell that has moved.
fn put_join(drawing: &mut Drawing<'_>, panel: &Panel<'_>, parts: &[Part], part: &Part) -> Drawn {
    let scale = drawing.scale;
    let Some(before) = part.before else {
        return Ok(());
    };
    let Some(old) = parts.get(before) else {
        return Ok(());
    };
    if old.place == part.place || part.from < scale.columns.first {
        return Ok(());
    }
    let x = scale.x_of_step(part.from);
    let line = Area::upright(
        x,
        area_of(old, &scale).middle(),
        area_of(part, &scale).middle(),
    );
    open_line(drawing, "join strong", line)?;
    put_both(drawing, "attempt ", part.attempt)?;
    put_both(drawing, " moved the cell from place ", old.place)?;
    put_both(drawing, " to place ", part.place)?;
    close_line(drawing)
}

/// Writes the number of each cell that has a rectangle of its own into this rectangle, and after it the cell's kind. What has no room, or
/// would overlap the label of a leak, isn't written. Cells that leak are left out. No line is drawn over these texts.
pub fn put_names(
    drawing: &mut Drawing<'_>,
    panel: &Panel<'_>,
    groups: &[Group],
    labels: &[LeakLabel],
) -> Drawn {
    let parts = panel.run.history.course.parts();
    for group in groups {
        if group.count == 1
            && group.paint() != Paint::Leak
            && let Some(part) = parts.get(group.first)
        {
            put_inside(drawing, panel, group, part, labels)?;
        }
    }
    Ok(())
}

/// Writes the number of a cell into its rectangle. If there is also room for the cell's kind, writes the kind too.
fn put_inside(
    drawing: &mut Drawing<'_>,
    panel: &Panel<'_>,
    group: &Group,
    part: &Part,
    labels: &[LeakLabel],
) -> Drawn {
    let scale = drawing.scale;
    let area = group.area();
    let number = part.number;
    let short = width_of_number(number).saturating_add(ROOM);
    if area.height() < LEAST_WITH_TEXT || area.width() < short {
        return Ok(());
    }
    let whole = short.saturating_add(width_of_name(drawing.lines, part.kind));
    let is_whole = area.width() >= whole;
    let width = if is_whole { whole } else { short };
    let x = area.centre();
    let y = base_line(&scale, area.middle().saturating_add(4));
    if !is_free(labels, &area_of_text(x, y, width)) {
        return Ok(());
    }
    open_text(drawing, group.paint().label_name(), x, y)?;
    put_digits(drawing, number)?;
    if is_whole {
        put_name(drawing, part.kind)?;
    }
    close_text(drawing)
}

/// The area of a text of this width, if the middle of the text's base line is at this point.
fn area_of_text(x: u32, y: u32, width: u32) -> Area {
    let left = x.saturating_sub(width / 2);
    Area::between(
        left,
        y.saturating_sub(9),
        left.saturating_add(width),
        y.saturating_add(2),
    )
}

/// Writes what a cell is for, as words that follow the cell's number: the class of an object, or a word or two for another kind of cell.
pub fn put_name(drawing: &mut Drawing<'_>, kind: Kind) -> Drawn {
    drawing.text.push(' ')?;
    match kind {
        Kind::Object(class) => put_class(drawing, class),
        Kind::Raw | Kind::Text | Kind::Cleanup => drawing.text.push_str(kind_name(kind)),
    }
}

/// The width of what `put_name` writes, in pixels.
pub fn width_of_name(lines: &ScriptLines<'_>, kind: Kind) -> u32 {
    let width = match kind {
        Kind::Object(class) => width_of(lines.class_name(class)),
        Kind::Raw | Kind::Text | Kind::Cleanup => width_of(kind_name(kind)),
    };
    width.saturating_add(ROOM / 2)
}

fn kind_name(kind: Kind) -> &'static str {
    match kind {
        Kind::Raw => "raw",
        Kind::Text => "text",
        Kind::Cleanup => "cleanup stack",
        Kind::Object(_) => "",
    }
}
