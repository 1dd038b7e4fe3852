//! The legend of a picture. The legend has entries only for things that the picture shows.

use crate::colours::Paint;
use crate::drawing::{Drawing, Drawn};
use crate::escape::{put_escaped, width_of};
use crate::labels::{close_text, open_text};
use crate::shown::ShownRuns;
use std::alloc::AllocError;
use wb_heap_model::heap::{Answer, Kind};
use wb_history::{Part, ScriptLines, WatchedRun};

/// The height of a row, in pixels.
const ROW: u32 = 18;

/// How much wider an entry is than its text, in pixels.
const BESIDE_TEXT: u32 = 40;

/// No class is added once there are this many entries.
const MOST_ENTRIES: usize = 15;

/// An entry of the legend: a style, the meaning of the style, and the entry's position. The position is `x` pixels from the picture's left
/// edge, in a row counted from 0.
#[derive(Clone, Copy)]
struct Entry<'a> {
    class: &'static str,
    name: &'a str,
    x: u32,
    row: u32,
}

/// The entries of a legend, in order.
#[derive(Drop)]
pub struct Legend<'a> {
    entries: Vec<Entry<'a>>,
    left: u32,
    right: u32,
    /// The position of the next entry, if there is room for the entry.
    x: u32,
    row: u32,
}

/// Which things a picture shows.
#[derive(Drop)]
struct Seen {
    stack: bool,
    raw: bool,
    text: bool,
    leak: bool,
    simulated: bool,
    refused: bool,
    /// Whether each class is seen, by the index of the class.
    classes: Vec<bool>,
}

impl Seen {
    fn of(drawing: &Drawing<'_>, runs: ShownRuns<'_>) -> Result<Seen, AllocError> {
        let classes = drawing.lines.class_names().len();
        let mut seen = Seen {
            stack: false,
            raw: false,
            text: false,
            leak: false,
            simulated: false,
            refused: false,
            classes: vec![in *drawing.text.allocator(); false; classes]?,
        };
        seen.see_run(runs.first);
        if let Some(second) = runs.second {
            seen.see_run(second);
        }
        Ok(seen)
    }

    fn see_run(&mut self, run: &WatchedRun<'_>) {
        for part in run.history.course.parts() {
            self.see_part(part);
        }
        for attempt in run.history.attempts.kept_attempts() {
            self.see_answer(attempt.attempt.answer);
        }
    }

    fn see_part(&mut self, part: &Part) {
        if part.leaks {
            self.leak = true;
            return;
        }
        match part.kind {
            Kind::Raw => self.raw = true,
            Kind::Text => self.text = true,
            Kind::Cleanup => self.stack = true,
            Kind::Object(class) => {
                if let Some(class) = self.classes.get_mut(class as usize) {
                    *class = true;
                }
            }
        }
    }

    fn see_answer(&mut self, answer: Answer) {
        match answer {
            Answer::Granted => {}
            Answer::Simulated => self.simulated = true,
            Answer::Refused => self.refused = true,
        }
    }
}

impl<'a> Legend<'a> {
    /// Returns the legend of these runs, between a left and a right edge. `is_folded` says whether some places are drawn shorter.
    pub fn of(
        drawing: &Drawing<'a>,
        runs: ShownRuns<'_>,
        is_folded: bool,
        edges: (u32, u32),
    ) -> Result<Legend<'a>, AllocError> {
        let (left, right) = edges;
        let seen = Seen::of(drawing, runs)?;
        let mut legend = Legend {
            entries: Vec::new(*drawing.text.allocator()),
            left,
            right,
            x: left,
            row: 0,
        };
        legend.add(seen.stack, Paint::Stack.name(), "cleanup stack")?;
        legend.add(seen.raw, Paint::Raw.name(), "raw cell")?;
        legend.add(seen.text, Paint::Text.name(), "text")?;
        legend.add_classes(drawing.lines, seen.classes.as_slice())?;
        legend.add(seen.leak, Paint::Leak.name(), "leak")?;
        legend.add(seen.simulated, "sim", "made to fail")?;
        legend.add(seen.refused, "ref", "refused by the limit")?;
        legend.add(is_folded, "fold", "places drawn shorter")?;
        Ok(legend)
    }

    /// Adds an entry if `is_seen` is true. Begins a new row if the last row has no room for the entry.
    fn add(&mut self, is_seen: bool, class: &'static str, name: &'a str) -> Drawn {
        if !is_seen {
            return Ok(());
        }
        let width = width_of(name).saturating_add(BESIDE_TEXT);
        if self.x > self.left && self.x.saturating_add(width) > self.right {
            self.x = self.left;
            self.row = self.row.saturating_add(1);
        }
        let (x, row) = (self.x, self.row);
        self.entries.push(Entry {
            class,
            name,
            x,
            row,
        })?;
        self.x = x.saturating_add(width);
        Ok(())
    }

    fn add_classes(&mut self, lines: &ScriptLines<'a>, seen: &[bool]) -> Drawn {
        let mut class = 0u16;
        for is_seen in seen {
            let is_named = *is_seen && self.entries.len() < MOST_ENTRIES;
            self.add(
                is_named,
                Paint::of(Kind::Object(class)).name(),
                lines.class_name(class),
            )?;
            class = class.saturating_add(1);
        }
        Ok(())
    }

    /// How high the legend is, in pixels.
    pub fn height(&self) -> u32 {
        self.row.saturating_add(1).saturating_mul(ROW)
    }

    /// Writes the legend. The base line of the legend's first row is at `y`.
    pub fn put_rows(&self, drawing: &mut Drawing<'_>, y: u32) -> Drawn {
        for entry in self.entries.as_slice() {
            let row = y.saturating_add(entry.row.saturating_mul(ROW));
            put_entry(drawing, entry, row)?;
        }
        Ok(())
    }
}

/// Writes a small rectangle and the text beside it.
fn put_entry(drawing: &mut Drawing<'_>, entry: &Entry<'_>, y: u32) -> Drawn {
    let (class, x, top) = (entry.class, entry.x, y.saturating_sub(10));
    write!(
        drawing.text,
        "<rect class=\"{class}\" x=\"{x}\" y=\"{top}\" width=\"14\" height=\"11\"/>\n"
    )?;
    open_text(drawing, "", x.saturating_add(20), y)?;
    put_escaped(drawing, entry.name)?;
    close_text(drawing)
}
