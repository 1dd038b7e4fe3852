//! A whole picture of one run or two: the things that its panels share, and the position of each panel.

use crate::columns::Columns;
use crate::drawing::{Drawing, Drawn};
use crate::end_of_run::first_of_end;
use crate::folding::Edges;
use crate::labels::put_text;
use crate::legend::Legend;
use crate::lengths::longest_end;
use crate::page::{close_page, open_page, put_end_heading, put_heading_text, put_script_name};
use crate::panel::{ABOVE, Depths, Panel, Table, UNDER, put_panel};
use crate::places::Places;
use crate::refusals::BESIDE;
use crate::scale::{Frame, Scale};
use crate::shown::ShownRuns;
use std::alloc::{AllocError, Global};
use wb_heap_model::heap::Rule;
use wb_history::{AttemptMade, ScriptLines, WatchedRun};

/// The left margin of a picture, in pixels.
const LEFT: u32 = 76;

/// The upper margin of a picture, in pixels.
const TOP: u32 = 30;

/// The width of a table, in pixels.
const TABLE: u32 = 190;

/// The least width of a frame, in pixels.
const LEAST_WIDTH: u32 = 960;

/// The height of a frame in a picture of one run, in pixels.
const HEIGHT: u32 = 340;

/// The height of a frame in a picture of two runs, in pixels.
const HEIGHT_OF_TWO: u32 = 260;

/// The least place at which the upper edge of a frame may be, in bytes.
const LEAST_SHOWN: u32 = 16;

/// The most columns of a picture.
const MOST_COLUMNS: u32 = 2000;

/// The most rectangles of cells in a picture.
const MOST_CELLS: usize = 3000;

/// The end of a run, as it is drawn once more: the first step that is drawn, and the places that the frame shows.
#[derive(Clone, Copy)]
struct EndOfRun {
    first: u32,
    places: Places,
}

/// The values that all panels of a picture share.
#[derive(Clone, Copy)]
struct Sheet<'a> {
    columns: Columns,
    places: Places,
    depths: Depths,
    /// The first attempt that the lower run's rule makes fail, if the picture shows two runs; `None` if there is no such attempt.
    failing: Option<AttemptMade<'a>>,
    /// The end of the lowest run; `None` if that end isn't drawn once more.
    end: Option<EndOfRun>,
    width: u32,
    height: u32,
    most_cells: usize,
}

/// Returns the picture of these runs, with a table at the side of the upper run's panel. The only error is that memory ran out.
pub fn draw<'a>(
    alloc: Global,
    lines: &'a ScriptLines<'a>,
    runs: ShownRuns<'a>,
    table: Table<'a>,
) -> Result<String, AllocError> {
    let sheet = sheet_for(alloc, runs)?;
    let mut drawing = Drawing {
        text: String::new(alloc),
        lines,
        scale: sheet.scale_at(0, 0),
    };
    put_page(&mut drawing, &sheet, runs, table)?;
    Ok(drawing.text)
}

fn put_page<'a>(
    drawing: &mut Drawing<'_>,
    sheet: &Sheet<'a>,
    runs: ShownRuns<'a>,
    table: Table<'a>,
) -> Drawn {
    let right = LEFT.saturating_add(sheet.width).saturating_add(BESIDE);
    let width = right.saturating_add(width_of(table));
    let panels = runs.count().saturating_add(u32::from(sheet.end.is_some()));
    let bottom = sheet.panel_top(panels);
    let edges = (LEFT, width);
    let legend = Legend::of(drawing, runs, sheet.is_folded(), edges)?;
    let below = legend.height().saturating_add(30);
    let height = bottom.saturating_add(below);
    open_page(drawing, width, height, runs)?;
    put_script_name(drawing, LEFT, 22)?;
    put_panels(drawing, sheet, runs, table)?;
    legend.put_rows(drawing, bottom.saturating_add(14))?;
    put_note(drawing, sheet, height.saturating_sub(10))?;
    close_page(drawing)
}

/// The width of this table, in pixels.
fn width_of(table: Table<'_>) -> u32 {
    match table {
        Table::Nothing => 0,
        Table::Refusals | Table::Lengths(_) => TABLE,
    }
}

fn put_panels<'a>(
    drawing: &mut Drawing<'_>,
    sheet: &Sheet<'a>,
    runs: ShownRuns<'a>,
    table: Table<'a>,
) -> Drawn {
    put_run_panel(drawing, sheet, runs.first, 0, table)?;
    if let Some(second) = runs.second {
        put_run_panel(drawing, sheet, second, 1, Table::Nothing)?;
    }
    if let Some(end) = sheet.end {
        let top = sheet.panel_top(runs.count());
        return put_end_panel(drawing, sheet, runs.last(), &end, top);
    }
    Ok(())
}

/// Draws a whole run, in the panel with this index.
fn put_run_panel<'a>(
    drawing: &mut Drawing<'_>,
    sheet: &Sheet<'a>,
    run: &'a WatchedRun<'a>,
    index: u32,
    table: Table<'a>,
) -> Drawn {
    let top = sheet.panel_top(index);
    put_heading_text(drawing, run, LEFT, top.saturating_add(16))?;
    let panel = sheet.panel(run, top, table);
    put_panel(drawing, &panel)
}

/// Draws the end of a run once more, as wide as the whole run.
fn put_end_panel<'a>(
    drawing: &mut Drawing<'_>,
    sheet: &Sheet<'a>,
    run: &'a WatchedRun<'a>,
    end: &EndOfRun,
    top: u32,
) -> Drawn {
    let attempts = attempts_from(run, end.first);
    put_end_heading(drawing, attempts, LEFT, top.saturating_add(16))?;
    let panel = sheet.panel(run, top, Table::Nothing);
    let scale = Scale {
        columns: Columns::between(end.first, run.history.steps(), MOST_COLUMNS / 2),
        places: end.places,
        ..panel.scale
    };
    let panel = Panel {
        attempts,
        scale,
        ..panel
    };
    put_panel(drawing, &panel)
}

/// The attempts of a run from the step `first` on.
fn attempts_from<'a>(run: &'a WatchedRun<'a>, first: u32) -> &'a [AttemptMade<'a>] {
    let attempts = run.history.attempts.kept_attempts();
    let mut before = 0usize;
    for attempt in attempts {
        if attempt.step < first {
            before = before.saturating_add(1);
        }
    }
    attempts.get(before..).unwrap_or(attempts)
}

/// The first attempt that the run's own rule makes fail; `None` if there is no such attempt.
fn first_failing<'a>(run: &'a WatchedRun<'a>) -> Option<AttemptMade<'a>> {
    let attempts = &run.history.attempts;
    match &run.parameters.rule {
        Rule::Number(number) | Rule::Every(number) => attempts.find(*number),
        Rule::From(number) | Rule::Pair(number, _) => attempts.find(*number),
        Rule::Set(numbers) => attempts.find(*numbers.get(0)?),
        Rule::Limit(_) => attempts.first_refused(),
        Rule::Unlimited => None,
    }
}

/// The values that the panels of these runs share, such as their columns, their places and their size.
fn sheet_for<'a>(alloc: Global, runs: ShownRuns<'a>) -> Result<Sheet<'a>, AllocError> {
    let (columns, depths, failing, height, most_cells) = match runs.second {
        None => (
            Columns::between(0, runs.first.history.steps(), MOST_COLUMNS),
            depths_of(runs.first),
            None,
            HEIGHT,
            MOST_CELLS,
        ),
        Some(second) => (
            columns_of_two(runs.first, second),
            depths_of(runs.first).or_greater(depths_of(second)),
            first_failing(second),
            HEIGHT_OF_TWO,
            MOST_CELLS / 2,
        ),
    };
    Ok(Sheet {
        columns,
        places: places_of(alloc, runs, 0)?,
        depths,
        failing,
        end: end_of_last(alloc, runs)?,
        width: columns.count.max(LEAST_WIDTH),
        height,
        most_cells,
    })
}

/// The columns that the panels of two runs share.
fn columns_of_two(first: &WatchedRun<'_>, second: &WatchedRun<'_>) -> Columns {
    let last = first.history.steps().max(second.history.steps());
    Columns::between(0, last, MOST_COLUMNS / 2)
}

/// The end of the lowest of these runs; `None` if that end isn't drawn once more.
fn end_of_last(alloc: Global, runs: ShownRuns<'_>) -> Result<Option<EndOfRun>, AllocError> {
    let run = runs.last();
    let Some(first) = first_of_end(run) else {
        return Ok(None);
    };
    let places = places_of(alloc, ShownRuns::one(run), first)?;
    Ok(Some(EndOfRun { first, places }))
}

/// The greatest depths of a run.
fn depths_of(run: &WatchedRun<'_>) -> Depths {
    Depths {
        levels: run.history.course.levels.greatest(),
        traps: run.history.course.traps.greatest(),
        items: run.history.course.items.greatest(),
    }
}

/// The places that the frames of these runs show. A stretch of places is drawn shorter if nothing begins or ends in it from the step
/// `first` on and it would leave little room for other places.
fn places_of(alloc: Global, runs: ShownRuns<'_>, first: u32) -> Result<Places, AllocError> {
    let highest = highest_of(runs);
    let mut edges = Edges::up_to(alloc, highest)?;
    add_edges(&mut edges, runs.first, first);
    if let Some(second) = runs.second {
        add_edges(&mut edges, second, first);
    }
    Ok(edges.fold(alloc, Places::up_to(highest))?.with_margin())
}

/// The highest place that the frames of these runs show.
fn highest_of(runs: ShownRuns<'_>) -> u32 {
    let highest = highest_shown(runs.first).max(LEAST_SHOWN);
    match runs.second {
        Some(second) => highest_shown(second).max(highest),
        None => highest,
    }
}

/// Adds the edges of a run. If a part of a cell's life begins or ends in the step `first` or later, its lowest and its highest place are
/// edges. If an attempt fails in the step `first` or later, the lowest and the highest place of its cell are edges. The run's limit is an
/// edge too.
fn add_edges(edges: &mut Edges, run: &WatchedRun<'_>, first: u32) {
    for part in run.history.course.parts() {
        if part.from >= first || (first <= part.gone && part.gone <= run.history.steps()) {
            edges.add(part.place);
            edges.add(part.top());
        }
    }
    for attempt in run.history.attempts.kept_attempts() {
        if attempt.step >= first && !attempt.is_granted() {
            edges.add(attempt.attempt.place);
            edges.add(attempt.top());
        }
    }
    if let Rule::Limit(limit) = &run.parameters.rule {
        edges.add(*limit);
    }
}

/// The highest place that a run's frame shows: the greatest end of a granted cell, the greatest end of a failed attempt, or the limit,
/// whichever is highest. The end of a failed attempt is cut off if it would leave little room for the cells. The limit is left out if it
/// would leave little room for the cells.
fn highest_shown(run: &WatchedRun<'_>) -> u32 {
    let attempts = run.history.attempts.kept_attempts();
    let longest = longest_end(attempts);
    let most = longest.saturating_mul(2).max(512);
    let mut highest = longest;
    for it in attempts {
        highest = it.top().min(most).max(highest);
    }
    if let Rule::Limit(limit) = &run.parameters.rule
        && *limit <= most
    {
        highest = highest.max(*limit);
    }
    highest
}

impl<'a> Sheet<'a> {
    /// The y of the top of the panel with this index.
    fn panel_top(&self, index: u32) -> u32 {
        let height = ABOVE.saturating_add(self.height).saturating_add(UNDER);
        TOP.saturating_add(height.saturating_mul(index))
    }

    /// The panel of a whole run.
    fn panel(&self, run: &'a WatchedRun<'a>, top: u32, table: Table<'a>) -> Panel<'a> {
        Panel {
            run,
            scale: self.scale_at(top, run.history.steps()),
            depths: self.depths,
            attempts: run.history.attempts.kept_attempts(),
            table,
            most_cells: self.most_cells,
            failing: self.failing,
        }
    }

    /// Whether places are drawn shorter in one of the panels.
    fn is_folded(&self) -> bool {
        let in_end = match &self.end {
            Some(end) => end.places.is_folded(),
            None => false,
        };
        in_end || self.places.is_folded()
    }

    fn scale_at(&self, top: u32, last: u32) -> Scale {
        Scale {
            frame: Frame {
                left: LEFT,
                top: top.saturating_add(ABOVE),
                width: self.width,
                height: self.height,
            },
            columns: self.columns,
            places: self.places,
            last,
        }
    }
}

/// Says how many steps a column covers, if a column covers more than one step.
fn put_note(drawing: &mut Drawing<'_>, sheet: &Sheet<'_>, y: u32) -> Drawn {
    if sheet.columns.steps == 1 {
        return Ok(());
    }
    let steps = sheet.columns.steps;
    put_text(
        drawing,
        "dim",
        LEFT,
        y,
        format_args!(
            "Each column is {steps} steps. What falls in one column and looks the same is drawn as one mark, which says how much it is."
        ),
    )
}
