//! Which parts of cells' lives are drawn as one rectangle. Usually each part has its own rectangle. In a run with many cells, parts that
//! look the same share one rectangle.

use crate::colours::Paint;
use crate::drawing::Drawn;
use crate::looks::Look;
use crate::scale::{Area, Scale};
use std::alloc::{AllocError, Global};
use wb_history::{NEVER, Part};

/// A new part is compared with this many of the groups that were added last. Groups further back that look the same as the part are found
/// later, by sorting.
const NEAR: usize = 4;

/// How many entries `Spans::near` keeps at most. Only the last `NEAR` entries are used.
const MOST_NEAR: usize = 64;

/// How many times the unit to which edges are rounded may be doubled, to make the groups few enough.
const MOST_HALVINGS: u32 = 12;

/// The places, the columns and the paint of a part of a cell's life. Parts with equal extents look the same.
#[derive(Clone, Copy, PartialEq, Eq)]
struct Extent {
    place: u32,
    top: u32,
    last: u32,
    first: u32,
    paint: Paint,
}

impl Extent {
    #[inline(always)]
    fn of(part: &Part, scale: &Scale) -> Extent {
        let until = end_of(part, scale);
        Extent {
            place: part.place,
            top: part.top(),
            last: scale.columns.column(until.saturating_sub(1).max(part.from)),
            first: scale.columns.column(part.from),
            paint: paint_of(part),
        }
    }
}

/// Parts that are drawn as one rectangle. Groups are ordered by look first.
#[derive(Clone, Copy, PartialEq, Eq, PartialOrd, Ord)]
pub struct Group {
    look: Look,
    /// The indexes of the first part (`first`) and of the last part (`last`).
    pub first: usize,
    pub last: usize,
    pub count: u32,
}

impl Group {
    /// The group of one part, with its look and its index.
    fn of(look: Look, index: usize) -> Group {
        Group {
            look,
            first: index,
            last: index,
            count: 1,
        }
    }

    pub fn area(&self) -> Area {
        self.look.area()
    }

    pub fn paint(&self) -> Paint {
        self.look.paint()
    }

    /// Returns this group, with the edges of its look at multiples of `unit` pixels.
    fn coarser(&self, scale: &Scale, unit: u32) -> Group {
        Group {
            look: self.look.coarser(scale, unit),
            ..*self
        }
    }

    /// Adds the parts of another group that looks the same as this group.
    fn add(&mut self, other: &Group) {
        self.first = self.first.min(other.first);
        self.last = self.last.max(other.last);
        self.count = self.count.saturating_add(other.count);
    }

    /// Adds the part with this index, which must come after all other parts of the group.
    fn add_later(&mut self, index: usize) {
        self.last = index;
        self.count = self.count.saturating_add(1);
    }
}

/// The extent of a part, and the index of its group in `Spans::groups`.
#[derive(Clone, Copy)]
struct Near {
    extent: Extent,
    span: usize,
}

/// Groups of parts, in order of their first parts. Some parts with equal extents already share a group.
#[derive(Drop)]
struct Spans {
    groups: Vec<Group>,
    /// The extents of the groups that were added last. Only the last `NEAR` entries of `near` are used.
    near: Vec<Near>,
}

impl Spans {
    /// Adds the part with this index, which must come after all parts that were added before.
    #[inline(always)]
    fn add(&mut self, part: &Part, index: usize, scale: &Scale) -> Drawn {
        let extent = Extent::of(part, scale);
        if let Some(near) = self.span_near(&extent)
            && let Some(group) = self.groups.get_mut(near)
        {
            group.add_later(index);
            return Ok(());
        }
        self.add_span(extent, &Group::of(look_of(part, scale), index))
    }

    /// The index of the group with this extent; `None` if the last `NEAR` entries of `near` hold no such extent.
    #[inline(always)]
    fn span_near(&self, extent: &Extent) -> Option<usize> {
        for at in self.near.len().saturating_sub(NEAR)..self.near.len() {
            if let Some(near) = self.near.get(at)
                && near.extent == *extent
            {
                return Some(near.span);
            }
        }
        None
    }

    /// Adds a group with this extent, after `span_near` found no such group.
    #[inline(never)]
    fn add_span(&mut self, extent: Extent, group: &Group) -> Drawn {
        if self.near.len() >= MOST_NEAR {
            self.near.clear();
        }
        let span = self.groups.len();
        self.near.push(Near { extent, span })?;
        self.groups.push(*group)?;
        Ok(())
    }
}

/// Groups that all look different, merged from the groups that were added. Groups must be added in order of their left edges.
#[derive(Drop)]
struct Merged {
    groups: Vec<Group>,
    /// The groups with the same left edge as the group that was added last.
    open: Vec<Group>,
}

impl Merged {
    fn add(&mut self, group: &Group) -> Drawn {
        if let Some(last) = self.open.last()
            && last.look.left() != group.look.left()
        {
            self.close()?;
        }
        for at in self.open.len().saturating_sub(NEAR)..self.open.len() {
            if let Some(near) = self.open.get_mut(at)
                && near.look == group.look
            {
                near.add(group);
                return Ok(());
            }
        }
        self.open.push(*group)?;
        Ok(())
    }

    /// Merges the groups in `open`, which all have the same left edge, and moves them to `groups`.
    fn close(&mut self) -> Drawn {
        self.open.sort_unstable();
        for group in self.open.as_slice() {
            add_sorted(&mut self.groups, group)?;
        }
        self.open.clear();
        Ok(())
    }
}

/// Adds a group after the others. If the last group looks the same, adds the new group's parts to it instead.
fn add_sorted(groups: &mut Vec<Group>, group: &Group) -> Drawn {
    if let Some(last) = groups.last_mut()
        && last.look == group.look
    {
        last.add(group);
        return Ok(());
    }
    groups.push(*group)?;
    Ok(())
}

/// Which parts a panel shows.
#[derive(Clone, Copy, PartialEq, Eq)]
enum Shown {
    /// All parts that exist in at least one step of the panel.
    Present,
    /// Only the parts that begin or end in a step of the panel.
    Changing,
}

impl Shown {
    fn has(self, part: &Part, scale: &Scale) -> bool {
        let first = scale.columns.first;
        if part.gone <= first && first > 0 {
            return false;
        }
        self == Shown::Present || part.from >= first || part.gone <= scale.last
    }
}

/// The groups of the parts that a panel shows.
pub struct Groups {
    pub groups: Vec<Group>,
    /// Whether the parts that neither begin nor end in the panel's steps are left out.
    pub is_partial: bool,
}

/// This `drop` is written by hand, so that dropping a `Groups` is a single call in a proof. Only the proof of `drop` itself goes over the
/// fields.
impl Drop for Groups {
    fn drop(self) {
        let Groups {
            groups: _,
            is_partial: _,
        } = self;
    }
}

/// Returns the groups of these parts: at most `most` groups, if that is possible. If the panel shows the end of a run and has too many
/// parts, only the parts that begin or end in the panel's steps are kept.
pub fn groups_of(
    alloc: Global,
    parts: &[Part],
    scale: &Scale,
    most: usize,
) -> Result<Groups, AllocError> {
    let is_partial = scale.columns.first > 0 && count_shown(parts, scale, Shown::Present) > most;
    let shown = if is_partial {
        Shown::Changing
    } else {
        Shown::Present
    };
    let groups = if count_shown(parts, scale, shown) <= most {
        each_alone(alloc, parts, scale, shown)?
    } else {
        let spans = spans_of(alloc, parts, scale, shown)?;
        merge_up_to(alloc, spans.as_slice(), scale, most)?
    };
    Ok(Groups { groups, is_partial })
}

/// How many of these parts a panel shows.
fn count_shown(parts: &[Part], scale: &Scale, shown: Shown) -> usize {
    if scale.columns.first == 0 && shown == Shown::Present {
        return parts.len();
    }
    let mut count = 0usize;
    for part in parts {
        if shown.has(part, scale) {
            count = count.saturating_add(1);
        }
    }
    count
}

/// Returns one group for each part that is shown.
fn each_alone(
    alloc: Global,
    parts: &[Part],
    scale: &Scale,
    shown: Shown,
) -> Result<Vec<Group>, AllocError> {
    let mut groups = Vec::new(alloc);
    for (index, part) in parts.iter().enumerate() {
        if shown.has(part, scale) {
            groups.push(Group::of(look_of(part, scale), index))?;
        }
    }
    Ok(groups)
}

/// Returns groups of the parts that are shown. Some parts with equal extents already share a group.
fn spans_of(
    alloc: Global,
    parts: &[Part],
    scale: &Scale,
    shown: Shown,
) -> Result<Vec<Group>, AllocError> {
    let mut spans = Spans {
        groups: Vec::new(alloc),
        near: Vec::new(alloc),
    };
    for (index, part) in parts.iter().enumerate() {
        if shown.has(part, scale) {
            spans.add(part, index, scale)?;
        }
    }
    Ok(spans.groups)
}

/// Merges groups that look the same. Edges are rounded more and more coarsely until there are at most `most` groups, if that is possible.
fn merge_up_to(
    alloc: Global,
    spans: &[Group],
    scale: &Scale,
    most: usize,
) -> Result<Vec<Group>, AllocError> {
    let mut unit = 1u32;
    for _ in 0..MOST_HALVINGS {
        let groups = merge(alloc, spans, scale, unit, most)?;
        if groups.len() <= most {
            return Ok(groups);
        }
        unit = unit.saturating_mul(2);
    }
    merge(alloc, spans, scale, unit, usize::MAX)
}

/// Merges groups that look the same when their edges are rounded to multiples of `unit` pixels. Once there are more than `most` merged
/// groups, the remaining groups may be left out.
fn merge(
    alloc: Global,
    spans: &[Group],
    scale: &Scale,
    unit: u32,
    most: usize,
) -> Result<Vec<Group>, AllocError> {
    let mut merged = Merged {
        groups: Vec::new(alloc),
        open: Vec::new(alloc),
    };
    for span in spans {
        if merged.groups.len() > most {
            break;
        }
        merged.add(&span.coarser(scale, unit))?;
    }
    merged.close()?;
    Ok(merged.groups)
}

/// The look of a part that is drawn alone.
fn look_of(part: &Part, scale: &Scale) -> Look {
    Look::of(area_of(part, scale), paint_of(part), scale)
}

fn paint_of(part: &Part) -> Paint {
    if part.leaks {
        Paint::Leak
    } else {
        Paint::of(part.kind)
    }
}

/// The area of a part.
pub fn area_of(part: &Part, scale: &Scale) -> Area {
    scale.area(part.from, end_of(part, scale), part.place, part.top())
}

/// The step before which a part ends. A part that never ends is drawn up to the run's end.
fn end_of(part: &Part, scale: &Scale) -> u32 {
    if part.gone == NEVER {
        scale.last.saturating_add(1)
    } else {
        part.gone
    }
}
