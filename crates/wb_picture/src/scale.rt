//! The scale of a panel: the position of each step and each place in the panel's frame. Other modules draw the things at these positions.

use crate::columns::Columns;
use crate::places::{Places, share_of};

/// The frame of a panel, in pixels from the picture's upper left corner; y grows downwards.
#[derive(Clone, Copy)]
pub struct Frame {
    pub left: u32,
    pub top: u32,
    pub width: u32,
    pub height: u32,
}

/// A rectangle, in pixels, with its right and lower edges.
#[derive(Clone, Copy)]
pub struct Area {
    pub left: u32,
    pub top: u32,
    pub right: u32,
    pub bottom: u32,
}

/// The position of each step and each place in a frame.
#[derive(Clone, Copy)]
pub struct Scale {
    pub frame: Frame,
    pub columns: Columns,
    pub places: Places,
    /// The last step of the run.
    pub last: u32,
}

impl Frame {
    pub fn right(&self) -> u32 {
        self.left.saturating_add(self.width)
    }

    pub fn bottom(&self) -> u32 {
        self.top.saturating_add(self.height)
    }
}

impl Area {
    /// The area of a vertical line.
    pub fn upright(x: u32, top: u32, bottom: u32) -> Area {
        Area::between(x, top, x, bottom)
    }

    /// The area of a horizontal line.
    pub fn level(left: u32, right: u32, y: u32) -> Area {
        Area::between(left, y, right, y)
    }

    /// The area with these edges.
    pub fn between(left: u32, top: u32, right: u32, bottom: u32) -> Area {
        Area {
            left,
            top,
            right,
            bottom,
        }
    }

    pub fn width(&self) -> u32 {
        self.right.saturating_sub(self.left)
    }

    pub fn height(&self) -> u32 {
        self.bottom.saturating_sub(self.top)
    }

    /// Whether this area and the other area overlap.
    pub fn meets(&self, other: &Area) -> bool {
        self.left < other.right
            && other.left < self.right
            && self.top < other.bottom
            && other.top < self.bottom
    }

    /// The y of the area's middle.
    pub fn middle(&self) -> u32 {
        self.top.saturating_add(self.height() / 2)
    }

    /// The x of the area's middle.
    pub fn centre(&self) -> u32 {
        self.left.saturating_add(self.width() / 2)
    }

    /// Returns this area, made at least `width` pixels wide and `height` pixels high, so that it can be seen.
    pub fn at_least(self, width: u32, height: u32) -> Area {
        let missing = height.saturating_sub(self.height());
        Area {
            left: self.left,
            top: self.top.saturating_sub(missing),
            right: self.right.max(self.left.saturating_add(width)),
            bottom: self.bottom,
        }
    }
}

impl Scale {
    /// The left edge of a column.
    pub fn x(&self, column: u32) -> u32 {
        let Frame { left, width, .. } = self.frame;
        left.saturating_add(share_of(column.min(self.columns.count), self.columns.count, width))
    }

    /// The left edge of a step's column.
    pub fn x_of_step(&self, step: u32) -> u32 {
        self.x(self.columns.column(step))
    }

    /// The right edge of a step's column.
    pub fn end_of_step(&self, step: u32) -> u32 {
        self.x(self.columns.column(step).saturating_add(1))
    }

    /// The right edge of the run's last step.
    pub fn end(&self) -> u32 {
        self.end_of_step(self.last)
    }

    /// The y of a place. For a place past the frame's reach, this is the frame's upper edge.
    pub fn y(&self, place: u32) -> u32 {
        let places = &self.places;
        let drawn = places.drawn_up_to(place.min(places.reach));
        let all = places.drawn_up_to(places.reach);
        let above = share_of(drawn, all, self.frame.height);
        self.frame.bottom().saturating_sub(above)
    }

    /// Whether a place is in the frame.
    pub fn shows(&self, place: u32) -> bool {
        place <= self.places.reach
    }

    /// The area of the places from `place` to `top` during the steps from `from` to before `until`.
    pub fn area(&self, from: u32, until: u32, place: u32, top: u32) -> Area {
        Area {
            left: self.x_of_step(from),
            top: self.y(top),
            right: self.end_of_step(until.saturating_sub(1).max(from)),
            bottom: self.y(place),
        }
    }
}
