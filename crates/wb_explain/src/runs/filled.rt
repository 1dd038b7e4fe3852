//! What fills the heap at the last rise of a run. The cell of this attempt ends exactly at the heap length that the run requires.

use crate::runs::counts::Many;
use crate::runs::script_page::{ScriptPage, Written};
use std::alloc::{AllocError, Global};
use wb_heap_model::heap::Kind;
use wb_heap_model::size::Rise;
use wb_history::{History, Part, PartEnd};

/// The most groups of cells that are listed one by one.
const MOST_GROUPS: usize = 5;

/// What a cell is at the last rise.
#[derive(Clone, Copy, PartialEq, Eq, PartialOrd, Ord)]
enum What {
    Stack,
    Cell,
    Text,
    Object,
    /// The cell, at its old place, that the attempt of the last rise moves.
    Moving,
}

/// Cells of one kind whose lengths the same line set. Groups are sorted by `order` first.
#[derive(Clone, Copy, PartialEq, Eq, PartialOrd, Ord)]
struct Group {
    /// 0 until all cells are in groups. After that, a group with more bytes has a smaller `order`.
    order: u32,
    /// The line that set the lengths; 0 for the cell of the cleanup stack.
    line: u32,
    what: What,
    count: u32,
    bytes: u32,
}

impl Group {
    /// A group of one cell.
    fn of(part: &Part, step: u32) -> Group {
        let is_stack = part.kind == Kind::Cleanup;
        let what = match part.kind {
            _ if part.gone == step && part.end == PartEnd::Moved => What::Moving,
            Kind::Cleanup => What::Stack,
            Kind::Raw => What::Cell,
            Kind::Text => What::Text,
            Kind::Object(_) => What::Object,
        };
        Group {
            order: 0,
            line: if is_stack { 0 } else { part.line },
            what,
            count: 1,
            bytes: part.length,
        }
    }

    fn add(&mut self, other: &Group) {
        self.count = self.count.saturating_add(other.count);
        self.bytes = self.bytes.saturating_add(other.bytes);
    }
}

/// Where a cell begins and ends, in bytes. Extents are sorted by their places.
#[derive(Clone, Copy, PartialEq, Eq, PartialOrd, Ord)]
struct Extent {
    place: u32,
    top: u32,
}

/// How many holes there are, and how many bytes they have together.
#[derive(Clone, Copy)]
struct Holes {
    count: u32,
    bytes: u32,
}

/// Says what fills the heap at the last of these rises, unless this rise is the first attempt. `history` is the history of the run without
/// failure, with all that a picture draws.
pub fn put_filled(
    page: &mut ScriptPage<'_>,
    alloc: Global,
    history: &History<'_>,
    rises: &[Rise],
) -> Written {
    let Some(rise) = rises.last() else {
        return Ok(());
    };
    let (number, top) = (rise.number, rise.top);
    let Some(made) = history.attempts.find(number) else {
        return Ok(());
    };
    if number == 1 {
        return Ok(());
    }
    let parts = history.course.parts();
    let groups = groups_of(alloc, parts, made.step)?;
    let holes = holes_of(alloc, parts, made.step)?;
    page.page.write_file_message(format_args!(
        "what fills the heap at attempt {number}, {top} bytes"
    ));
    put_groups(page, number, groups.as_slice());
    if holes.count > 0 {
        let Holes { count, bytes } = holes;
        let many = Many(i64::from(count), "hole");
        page.page.write_row(format_args!("{bytes} bytes: {many}"));
    }
    Ok(())
}

/// Whether a part of a cell's life is there when the attempt of a step is made. A part that ends in this step still counts, unless a
/// resize ended it: the cell then has a new part.
fn is_there(part: &Part, step: u32) -> bool {
    let is_last_step = part.gone == step && part.end != PartEnd::Resized;
    part.from <= step && (part.gone > step || is_last_step)
}

/// The groups of the cells that exist in a step, the largest group first.
fn groups_of(alloc: Global, parts: &[Part], step: u32) -> Result<Vec<Group>, AllocError> {
    let mut each = Vec::new(alloc);
    for part in parts {
        if is_there(part, step) {
            each.push(Group::of(part, step))?;
        }
    }
    each.sort_unstable();
    let mut groups = Vec::new(alloc);
    for group in each.as_slice() {
        add_sorted(&mut groups, group)?;
    }
    for group in groups.as_mut_slice() {
        group.order = u32::MAX.saturating_sub(group.bytes);
    }
    groups.sort_unstable();
    Ok(groups)
}

/// Adds a group after the others, or adds it to the last group if both have the same line and kind.
fn add_sorted(groups: &mut Vec<Group>, group: &Group) -> Written {
    if let Some(last) = groups.last_mut()
        && last.line == group.line
        && last.what == group.what
    {
        last.add(group);
        return Ok(());
    }
    groups.push(*group)?;
    Ok(())
}

/// The holes below the last cell that exists in a step.
fn holes_of(alloc: Global, parts: &[Part], step: u32) -> Result<Holes, AllocError> {
    let mut extents = Vec::new(alloc);
    for part in parts {
        if is_there(part, step) {
            let (place, top) = (part.place, part.top());
            extents.push(Extent { place, top })?;
        }
    }
    extents.sort_unstable();
    let mut holes = Holes { count: 0, bytes: 0 };
    let mut end = 0u32;
    for extent in extents.as_slice() {
        let free = extent.place.saturating_sub(end);
        if free > 0 {
            holes.count = holes.count.saturating_add(1);
            holes.bytes = holes.bytes.saturating_add(free);
        }
        end = extent.top.max(end);
    }
    Ok(holes)
}

/// Writes the rows of the first groups, and one row for all others.
fn put_groups(page: &mut ScriptPage<'_>, number: u32, groups: &[Group]) {
    let (shown, others) = groups
        .split_at_checked(MOST_GROUPS)
        .unwrap_or((groups, &[]));
    for group in shown {
        put_group(page, number, group);
    }
    let (mut count, mut bytes) = (0u32, 0u32);
    for group in others {
        count = count.saturating_add(group.count);
        bytes = bytes.saturating_add(group.bytes);
    }
    if count > 0 {
        let many = Many(i64::from(count), "more cell");
        page.page.write_row(format_args!("{bytes} bytes: {many}"));
    }
}

/// Writes the row of a group: its bytes, its cells, and the line that set the lengths of these cells.
fn put_group(page: &mut ScriptPage<'_>, number: u32, group: &Group) {
    let Group {
        line,
        what,
        count,
        bytes,
        ..
    } = *group;
    page.page.begin_row();
    page.page.write(format_args!("{bytes} bytes: "));
    match what {
        What::Stack => page.page.write_text("the cell of the cleanup stack"),
        What::Moving => page
            .page
            .write(format_args!("the cell that attempt {number} moves")),
        What::Cell => put_many(page, count, "cell"),
        What::Text => put_many(page, count, "text"),
        What::Object => put_many(page, count, "object"),
    }
    if line > 0 {
        let shown = page.line(line);
        page.page.write(format_args!(", line {line}: {shown}"));
    }
    page.page.end_line();
}

fn put_many(page: &mut ScriptPage<'_>, count: u32, word: &'static str) {
    let many = Many(i64::from(count), word);
    page.page.write(format_args!("{many}"));
}
