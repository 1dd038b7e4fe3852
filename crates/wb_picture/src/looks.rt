//! How a rectangle of cells looks: its position in the frame, and its paint.

use crate::colours::Paint;
use crate::scale::{Area, Scale};

/// How wide a leak is at least, in pixels.
const LEAST_LEAK: u32 = 6;

/// The greatest edge that a look may have. Every picture is narrower and lower than this edge.
const GREATEST_EDGE: u32 = 0xffff;

/// An area and a paint. Looks are ordered by their left, right, upper and lower edges, and then by their paints. One number holds the paint
/// and all edges but the left edge, so that looks are compared and sorted quickly.
#[derive(Clone, Copy, PartialEq, Eq, PartialOrd, Ord)]
pub struct Look {
    left: u32,
    /// The right, the upper and the lower edge, of 16 bits each, and the rank of the paint in the lowest 8 bits.
    rest: u64,
}

impl Look {
    /// The look of an area with this paint. The area is made large enough to be seen, and cut to the frame; but a leak may go past the
    /// frame's right edge.
    pub fn of(area: Area, paint: Paint, scale: &Scale) -> Look {
        Look::within(area.at_least(least_width(paint), 2), paint, scale)
    }

    pub fn left(&self) -> u32 {
        self.left
    }

    pub fn area(&self) -> Area {
        Area {
            left: self.left,
            top: lowest_edge(self.rest >> 24),
            right: lowest_edge(self.rest >> 40),
            bottom: lowest_edge(self.rest >> 8),
        }
    }

    pub fn paint(&self) -> Paint {
        Paint::at(u32::try_from(self.rest & 0xff).unwrap_or(0))
    }

    /// Returns this look, with its edges at multiples of `unit` pixels.
    pub fn coarser(self, scale: &Scale, unit: u32) -> Look {
        let area = self.area();
        let coarse = Area {
            left: floor_to(area.left, unit),
            top: floor_to(area.top, unit),
            right: ceil_to(area.right, unit),
            bottom: ceil_to(area.bottom, unit),
        };
        Look::within(coarse, self.paint(), scale)
    }

    /// The look of the part of an area that is inside the frame; but a leak may go past the frame's right edge.
    fn within(area: Area, paint: Paint, scale: &Scale) -> Look {
        let past = least_width(paint).saturating_sub(1);
        let right = area.right.min(scale.frame.right().saturating_add(past));
        let top = area.top.max(scale.frame.top);
        let bottom = area.bottom.min(scale.frame.bottom());
        let edges = (wide(right) << 40) | (wide(top) << 24) | (wide(bottom) << 8);
        Look {
            left: area.left,
            rest: edges | u64::from(paint.rank()),
        }
    }
}

fn wide(edge: u32) -> u64 {
    u64::from(edge.min(GREATEST_EDGE))
}

/// The edge that the lowest 16 bits of a number hold.
fn lowest_edge(edges: u64) -> u32 {
    u32::try_from(edges & u64::from(GREATEST_EDGE)).unwrap_or(0)
}

/// How wide a rectangle with this paint is at least, in pixels.
fn least_width(paint: Paint) -> u32 {
    if paint == Paint::Leak { LEAST_LEAK } else { 1 }
}

fn floor_to(n: u32, unit: u32) -> u32 {
    n.saturating_sub(n.checked_rem(unit).unwrap_or(0))
}

fn ceil_to(n: u32, unit: u32) -> u32 {
    floor_to(n.saturating_add(unit).saturating_sub(1), unit)
}
