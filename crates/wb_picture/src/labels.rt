//! The shapes and labels that a picture is made of: rectangles, lines and short texts.

use crate::drawing::{Drawing, Drawn};
use crate::scale::Area;
use itoa::Buffer;
use std::fmt::{Display, Write};

/// Writes the digits of a number. A picture has thousands of numbers, and `write!` would take several times as long for each number.
pub fn put_digits(drawing: &mut Drawing<'_>, number: u32) -> Drawn {
    let mut buffer = Buffer::new();
    drawing.text.push_str(buffer.format(number))
}

/// Writes the words before a number, and then the number.
pub fn put_both(drawing: &mut Drawing<'_>, before: &str, number: u32) -> Drawn {
    drawing.text.push_str(before)?;
    put_digits(drawing, number)
}

/// Writes a rectangle and opens its title.
pub fn open_rect(drawing: &mut Drawing<'_>, class: &str, area: Area) -> Drawn {
    drawing.text.push_str("<rect class=\"")?;
    drawing.text.push_str(class)?;
    put_edges(drawing, area)
}

/// Writes the rectangle of a cell, with the style of its edge and its paint, and opens its title.
pub fn open_cell(drawing: &mut Drawing<'_>, edge: &str, paint: &str, area: Area) -> Drawn {
    drawing.text.push_str("<rect class=\"")?;
    drawing.text.push_str(edge)?;
    drawing.text.push(' ')?;
    drawing.text.push_str(paint)?;
    put_edges(drawing, area)
}

/// Writes the position and the size of a rectangle after the rectangle's class, and opens the title.
fn put_edges(drawing: &mut Drawing<'_>, area: Area) -> Drawn {
    put_both(drawing, "\" x=\"", area.left)?;
    put_both(drawing, "\" y=\"", area.top)?;
    put_both(drawing, "\" width=\"", area.width())?;
    put_both(drawing, "\" height=\"", area.height())?;
    drawing.text.push_str("\"><title>")
}

/// Closes a rectangle after its title.
pub fn close_rect(drawing: &mut Drawing<'_>) -> Drawn {
    drawing.text.push_str("</title></rect>\n")
}

/// Writes the beginning of a path, up to its points.
pub fn open_path(drawing: &mut Drawing<'_>, class: &str) -> Drawn {
    drawing.text.push_str("<path class=\"")?;
    drawing.text.push_str(class)?;
    drawing.text.push_str("\" d=\"")
}

/// Writes a path from the upper left to the lower right corner of an area, and opens the path's title. The area must be a vertical or a
/// horizontal line.
pub fn open_line(drawing: &mut Drawing<'_>, class: &str, area: Area) -> Drawn {
    open_path(drawing, class)?;
    put_both(drawing, "M", area.left)?;
    put_both(drawing, " ", area.top)?;
    put_both(drawing, "L", area.right)?;
    put_both(drawing, " ", area.bottom)?;
    drawing.text.push_str("\"><title>")
}

/// Closes a path after its title.
pub fn close_line(drawing: &mut Drawing<'_>) -> Drawn {
    drawing.text.push_str("</title></path>\n")
}

/// Opens a text. The text's base line begins at `x` and `y`, unless the text's class says otherwise.
pub fn open_text(drawing: &mut Drawing<'_>, class: &str, x: u32, y: u32) -> Drawn {
    drawing.text.push_str("<text class=\"")?;
    drawing.text.push_str(class)?;
    put_both(drawing, "\" x=\"", x)?;
    put_both(drawing, "\" y=\"", y)?;
    drawing.text.push_str("\">")
}

/// Closes a text.
pub fn close_text(drawing: &mut Drawing<'_>) -> Drawn {
    drawing.text.push_str("</text>\n")
}

/// Writes a text. The text's base line begins at `x` and `y`, unless the text's class says otherwise.
pub fn put_text<D: Display + Drop>(
    drawing: &mut Drawing<'_>,
    class: &str,
    x: u32,
    y: u32,
    words: D,
) -> Drawn {
    open_text(drawing, class, x, y)?;
    write!(drawing.text, "{words}")?;
    close_text(drawing)
}

/// Draws a rectangle with its title.
pub fn put_rect<D: Display + Drop>(
    drawing: &mut Drawing<'_>,
    class: &str,
    area: Area,
    title: D,
) -> Drawn {
    open_rect(drawing, class, area)?;
    write!(drawing.text, "{title}")?;
    close_rect(drawing)
}

/// Draws a vertical or a horizontal path with its title.
pub fn put_path<D: Display + Drop>(
    drawing: &mut Drawing<'_>,
    class: &str,
    area: Area,
    title: D,
) -> Drawn {
    open_line(drawing, class, area)?;
    write!(drawing.text, "{title}")?;
    close_line(drawing)
}

/// Writes a number as a text.
pub fn put_number(drawing: &mut Drawing<'_>, class: &str, x: u32, y: u32, number: u32) -> Drawn {
    open_text(drawing, class, x, y)?;
    put_digits(drawing, number)?;
    close_text(drawing)
}

/// How wide the digits of a number are, in pixels.
pub fn width_of_number(number: u32) -> u32 {
    let mut digits = 1u32;
    let mut rest = number / 10;
    for _ in 0..10 {
        if rest == 0 {
            break;
        }
        digits = digits.saturating_add(1);
        rest /= 10;
    }
    digits.saturating_mul(7)
}
