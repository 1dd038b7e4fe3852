//! A panel of a picture: one run or the end of a run, with its frame, its cells, and the things around the frame.

use crate::axes::{put_frame, put_gaps};
use crate::bands::{BAND, put_band};
use crate::boxes::{put_cells, put_names};
use crate::drawing::{Drawing, Drawn};
use crate::endings::put_ending;
use crate::groups::groups_of;
use crate::labels::{put_path, put_text};
use crate::leaks::{LeakLabel, labels_of, put_labels};
use crate::lengths::{put_lengths, put_rises, rises_of};
use crate::marks::{put_failed, put_ticks};
use crate::ranges::put_ranges;
use crate::refusals::put_refusals;
use crate::scale::{Area, Scale};
use wb_heap_model::heap::Answer;
use wb_history::{AttemptMade, WatchedRun};
use wb_runs::lengths::LengthRange;

/// The distance from the top of a panel to its frame, in pixels.
pub const ABOVE: u32 = 54;

/// The distance from a frame's lower edge to the first band, in pixels.
const BELOW: u32 = 26;

/// The distance from the top of a band to the top of the next band, in pixels.
const BAND_STEP: u32 = BAND + 5;

/// The distance from a frame's lower edge to the end of its panel, in pixels.
pub const UNDER: u32 = BELOW + 3 * BAND_STEP + 14;

/// The table at the side of a panel.
#[derive(Clone, Copy)]
pub enum Table<'a> {
    Nothing,
    /// Which attempts shorter heaps refuse first.
    Refusals,
    /// How runs end in heaps of every length.
    Lengths(&'a [LengthRange]),
}

/// The greatest numbers of open marks, open TRAPs and items on the cleanup stack in all runs of a picture. Bands are drawn to this scale.
#[derive(Clone, Copy)]
pub struct Depths {
    pub levels: u32,
    pub traps: u32,
    pub items: u32,
}

impl Depths {
    /// Returns the greater depth of each kind.
    pub fn or_greater(self, other: Depths) -> Depths {
        Depths {
            levels: self.levels.max(other.levels),
            traps: self.traps.max(other.traps),
            items: self.items.max(other.items),
        }
    }
}

/// A run or the end of a run, and the scale at which it is drawn.
#[derive(Clone, Copy)]
pub struct Panel<'a> {
    pub run: &'a WatchedRun<'a>,
    pub scale: Scale,
    pub depths: Depths,
    /// The attempts that are drawn: all attempts of the run, or only the run's last attempts.
    pub attempts: &'a [AttemptMade<'a>],
    /// The table at the side of the panel.
    pub table: Table<'a>,
    /// How many rectangles of cells are drawn at most.
    pub most_cells: usize,
    /// The first attempt that the lower run's rule makes fail, if the picture shows two runs; `None` if there is no such attempt.
    pub failing: Option<AttemptMade<'a>>,
}

/// Draws a panel without its heading. Leaks are drawn after all lines, and the texts on cells last, so that nothing covers these texts.
pub fn put_panel(drawing: &mut Drawing<'_>, panel: &Panel<'_>) -> Drawn {
    drawing.scale = panel.scale;
    let parts = panel.run.history.course.parts();
    let alloc = *drawing.text.allocator();
    let found = groups_of(alloc, parts, &panel.scale, panel.most_cells)?;
    let groups = found.groups.as_slice();
    put_frame(drawing)?;
    put_cells(drawing, panel, groups, false)?;
    if found.is_partial {
        put_omission(drawing)?;
    }
    let labels = labels_of(drawing, panel, groups)?;
    put_lines(drawing, panel, labels.as_slice())?;
    put_bands(drawing, panel)?;
    put_cells(drawing, panel, groups, true)?;
    put_gaps(drawing)?;
    put_names(drawing, panel, groups, labels.as_slice())?;
    put_labels(drawing, panel, labels.as_slice())
}

/// Says that not all cells are drawn.
fn put_omission(drawing: &mut Drawing<'_>) -> Drawn {
    let frame = drawing.scale.frame;
    let (x, y) = (
        frame.left.saturating_add(6),
        frame.bottom().saturating_sub(6),
    );
    put_text(
        drawing,
        "dim",
        x,
        y,
        "cells that stay as they are from here on are left out",
    )
}

/// Draws the things over the cells (lengths, attempts, and how the run ended), and the table at the side.
fn put_lines(drawing: &mut Drawing<'_>, panel: &Panel<'_>, labels: &[LeakLabel]) -> Drawn {
    let scale = drawing.scale;
    put_lengths(drawing, panel.run)?;
    let rises = rises_of(*drawing.text.allocator(), panel.run, scale.columns.first)?;
    put_rises(drawing, rises.as_slice(), labels)?;
    match panel.table {
        Table::Nothing => {}
        Table::Refusals => put_refusals(drawing, rises.as_slice())?,
        Table::Lengths(ranges) => put_ranges(drawing, ranges)?,
    }
    put_attempts(drawing, panel)?;
    put_ending(drawing, panel.run)?;
    put_failing_step(drawing, panel)
}

/// Draws this panel's part of a line through both panels, at the step of the first attempt that the lower run's rule makes fail.
fn put_failing_step(drawing: &mut Drawing<'_>, panel: &Panel<'_>) -> Drawn {
    let scale = drawing.scale;
    let Some(attempt) = panel.failing else {
        return Ok(());
    };
    if attempt.step < scale.columns.first {
        return Ok(());
    }
    let frame = scale.frame;
    let x = scale.x_of_step(attempt.step);
    let line = Area::upright(x, frame.top, frame.bottom().saturating_add(UNDER - 14));
    let (number, step) = (attempt.attempt.number, attempt.step);
    put_path(
        drawing,
        "fail strong",
        line,
        format_args!("attempt {number}, in step {step}: from here on the run below fails"),
    )
}

fn put_attempts(drawing: &mut Drawing<'_>, panel: &Panel<'_>) -> Drawn {
    put_failed(drawing, panel.attempts, Answer::Refused)?;
    put_failed(drawing, panel.attempts, Answer::Simulated)?;
    put_ticks(drawing, panel.attempts)
}

fn put_bands(drawing: &mut Drawing<'_>, panel: &Panel<'_>) -> Drawn {
    let (course, depths) = (&panel.run.history.course, panel.depths);
    let top = drawing.scale.frame.bottom().saturating_add(BELOW);
    put_band(drawing, "marks", &course.levels, depths.levels, top)?;
    let top = top.saturating_add(BAND_STEP);
    put_band(drawing, "TRAPs", &course.traps, depths.traps, top)?;
    let top = top.saturating_add(BAND_STEP);
    put_band(drawing, "cleanup", &course.items, depths.items, top)
}
