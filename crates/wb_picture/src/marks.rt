//! The attempts of a run in its panel. Each attempt has a tick above the frame. Each attempt that failed also has a mark at the place that
//! was chosen for its cell. Attempts in one column share a tick and a mark.

use crate::drawing::{Drawing, Drawn};
use crate::labels::{
    close_line, close_rect, open_line, open_path, open_rect, put_both, put_digits, put_number,
    width_of_number,
};
use crate::scale::{Area, Scale};
use crate::titles::put_attempt_title;
use std::alloc::AllocError;
use wb_heap_model::heap::Answer;
use wb_history::AttemptMade;

/// The greatest width of a mark, in pixels.
const WIDEST: u32 = 26;

/// The least width and the least height of a mark, in pixels.
const LEAST: u32 = 7;

/// How long a tick is, in pixels.
const TICK: u32 = 6;

/// Successive attempts whose steps are in one column.
#[derive(Clone, Copy)]
pub struct ColumnAttempts<'r, 'a> {
    pub column: u32,
    pub first: &'r AttemptMade<'a>,
    pub last: &'r AttemptMade<'a>,
    count: u32,
    /// How many of these attempts failed.
    failed: u32,
    /// The lowest place and the highest end of the attempts' cells, in bytes.
    low: u32,
    high: u32,
}

/// Draws ticks for all attempts.
pub fn put_ticks(drawing: &mut Drawing<'_>, attempts: &[AttemptMade<'_>]) -> Drawn {
    let scale = drawing.scale;
    let mut run = None;
    let mut free = 0;
    for it in attempts {
        if let Some(done) = extend(&mut run, &scale, it) {
            free = put_tick(drawing, &done, free)?;
        }
    }
    if let Some(done) = run {
        put_tick(drawing, &done, free)?;
    }
    Ok(())
}

/// Draws marks for the attempts with this answer.
pub fn put_failed(
    drawing: &mut Drawing<'_>,
    attempts: &[AttemptMade<'_>],
    answer: Answer,
) -> Drawn {
    let scale = drawing.scale;
    let mut run = None;
    for it in attempts {
        if it.attempt.answer == answer
            && let Some(done) = extend(&mut run, &scale, it)
        {
            put_mark(drawing, &done)?;
        }
    }
    if let Some(done) = run {
        put_mark(drawing, &done)?;
    }
    Ok(())
}

/// Adds an attempt to `run`, the attempts of one column. If the attempt is in another column, `run` begins anew with it, and the attempts
/// that `run` had are returned.
#[inline(always)]
pub fn extend<'r, 'a>(
    run: &mut Option<ColumnAttempts<'r, 'a>>,
    scale: &Scale,
    attempt: &'r AttemptMade<'a>,
) -> Option<ColumnAttempts<'r, 'a>> {
    let column = scale.columns.column(attempt.step);
    let failed = u32::from(!attempt.is_granted());
    if let Some(run) = run
        && run.column == column
    {
        run.last = attempt;
        run.count = run.count.saturating_add(1);
        run.failed = run.failed.saturating_add(failed);
        run.low = run.low.min(attempt.attempt.place);
        run.high = run.high.max(attempt.top());
        return None;
    }
    run.replace(ColumnAttempts {
        column,
        first: attempt,
        last: attempt,
        count: 1,
        failed,
        low: attempt.attempt.place,
        high: attempt.top(),
    })
}

/// Draws a tick. If there is room at `free` or to the right, also writes the number of the tick's first attempt. Returns the x from which
/// on there is room for the next number.
fn put_tick(
    drawing: &mut Drawing<'_>,
    run: &ColumnAttempts<'_, '_>,
    free: u32,
) -> Result<u32, AllocError> {
    let scale = drawing.scale;
    let x = scale.x(run.column);
    let bottom = scale.frame.top;
    let tick = Area::upright(x, bottom.saturating_sub(TICK), bottom);
    open_line(drawing, "strong", tick)?;
    put_run_title(drawing, run)?;
    close_line(drawing)?;
    let number = run.first.attempt.number;
    let half = width_of_number(number) / 2;
    if x < free.saturating_add(half) {
        return Ok(free);
    }
    put_number(drawing, "c", x, bottom.saturating_sub(TICK + 3), number)?;
    Ok(x.saturating_add(half).saturating_add(5))
}

/// Draws the mark of failed attempts: a box with a cross, at the place that the cell would have had.
fn put_mark(drawing: &mut Drawing<'_>, run: &ColumnAttempts<'_, '_>) -> Drawn {
    let scale = drawing.scale;
    let x = scale.x(run.column);
    let end = scale.x(run.column.saturating_add(1));
    let area = Area::between(
        x,
        scale.y(run.high),
        end.min(x.saturating_add(WIDEST)),
        scale.y(run.low),
    );
    let area = area.at_least(LEAST, LEAST);
    let class = match run.first.attempt.answer {
        Answer::Refused => "ref",
        Answer::Simulated | Answer::Granted => "sim",
    };
    put_cross(drawing, class, area)?;
    open_rect(drawing, class, area)?;
    put_run_title(drawing, run)?;
    close_rect(drawing)
}

fn put_cross(drawing: &mut Drawing<'_>, class: &str, area: Area) -> Drawn {
    let Area {
        left,
        top,
        right,
        bottom,
    } = area;
    open_path(drawing, class)?;
    for (from, to) in [(left, right), (right, left)] {
        put_both(drawing, "M", from)?;
        put_both(drawing, " ", top)?;
        put_both(drawing, "L", to)?;
        put_both(drawing, " ", bottom)?;
    }
    drawing.text.push_str("\"/>\n")
}

fn put_run_title(drawing: &mut Drawing<'_>, run: &ColumnAttempts<'_, '_>) -> Drawn {
    if run.count == 1 {
        return put_attempt_title(drawing, run.first);
    }
    put_digits(drawing, run.count)?;
    put_both(drawing, " attempts, from ", run.first.attempt.number)?;
    put_both(drawing, " to ", run.last.attempt.number)?;
    put_both(drawing, ", of which ", run.failed)?;
    drawing.text.push_str(" failed")
}
