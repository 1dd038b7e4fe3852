//! How a run ended, in words and as a line in the run's panel; and how the runs of a table end, in words.

use crate::drawing::{Drawing, Drawn};
use crate::escape::put_line;
use crate::labels::{close_line, close_text, open_line, open_text};
use crate::scale::{Area, Scale};
use wb_heap_model::heap::Panic;
use wb_history::WatchedRun;
use wb_meaning::run::{Outcome, Why};
use wb_runs::run_end::RunEnd;

/// How far the words about a run's end are above the frame, in pixels.
const ABOVE: u32 = 24;

/// Draws the end of a run that panicked, left or was cut, or that ended before the other run of its picture.
pub fn put_ending(drawing: &mut Drawing<'_>, run: &WatchedRun<'_>) -> Drawn {
    let scale = drawing.scale;
    let x = match &run.outcome {
        Outcome::Panicked(_) => middle_of_last(&scale),
        Outcome::Cut(_) => scale.end(),
        Outcome::Ended { left: None, .. } | Outcome::NoCleanup
            if scale.end() == scale.frame.right() => {
            return Ok(());
        }
        Outcome::Ended { .. } | Outcome::NoCleanup => scale.end(),
    };
    let line = Area::upright(x, scale.frame.top, scale.frame.bottom());
    open_line(drawing, class_of(&run.outcome), line)?;
    put_words(drawing, run)?;
    close_line(drawing)?;
    put_label(drawing, run, x)
}

/// The script's line at which a run ended: the line that panicked or left, or the last line of `main`. Lines that ran afterwards, in
/// operations or destructors, don't count. The result is 0 if no line was begun.
fn last_line_of(run: &WatchedRun<'_>) -> u32 {
    match &run.outcome {
        Outcome::Ended { .. } => run.history.last_line_outside(),
        Outcome::Panicked(_) | Outcome::NoCleanup | Outcome::Cut(_) => run.history.last_line(),
    }
}

/// The style of the drawn line at the end of a run.
fn class_of(outcome: &Outcome) -> &'static str {
    match outcome {
        Outcome::Panicked(_) | Outcome::Cut(_) => "end",
        Outcome::Ended { .. } | Outcome::NoCleanup => "strong",
    }
}

fn middle_of_last(scale: &Scale) -> u32 {
    let left = scale.x_of_step(scale.last);
    left.saturating_add(scale.end().saturating_sub(left) / 2)
}

/// Says how the run ended, and at which line.
fn put_words(drawing: &mut Drawing<'_>, run: &WatchedRun<'_>) -> Drawn {
    put_outcome(drawing, &run.outcome)?;
    put_line(drawing, last_line_of(run))
}

/// Writes the words about the run's end above the line that is drawn at this end. The words are to the right of the line, centred on it, or
/// to its left, whichever has room.
fn put_label(drawing: &mut Drawing<'_>, run: &WatchedRun<'_>, x: u32) -> Drawn {
    let scale = drawing.scale;
    let third = scale.frame.width / 3;
    let after = x.saturating_sub(scale.frame.left);
    let class = if after < third {
        ""
    } else if after < third.saturating_mul(2) {
        "c"
    } else {
        "e"
    };
    open_text(drawing, class, x, scale.frame.top.saturating_sub(ABOVE))?;
    put_words(drawing, run)?;
    close_text(drawing)
}

/// Says how a run ended.
pub fn put_outcome(drawing: &mut Drawing<'_>, outcome: &Outcome) -> Drawn {
    match outcome {
        Outcome::Ended { left, leaks } => put_ended(drawing, *left, leaks.len()),
        Outcome::Panicked(panic) => put_panic(drawing, *panic),
        Outcome::NoCleanup => drawing.text.push_str("no cleanup stack"),
        Outcome::Cut(why) => put_cut(drawing, *why),
    }
}

fn put_panic(drawing: &mut Drawing<'_>, panic: Panic) -> Drawn {
    match panic {
        Panic::User(number) => write!(drawing.text, "panic USER {number}"),
        Panic::Alloc(place) => write!(drawing.text, "panic ALLOC {place:08x}"),
        Panic::Workbench(number) => write!(drawing.text, "panic WORKBENCH {number}"),
    }
}

fn put_cut(drawing: &mut Drawing<'_>, why: Why) -> Drawn {
    drawing.text.push_str(match why {
        Why::Budget => "cut at the budget",
        Why::Ceiling => "cut at the ceiling",
    })
}

/// Says how the runs of a table end, in as many of the words of `put_outcome` as the table has room for.
pub fn put_run_end(drawing: &mut Drawing<'_>, end: RunEnd) -> Drawn {
    match end {
        RunEnd::NoCleanup => drawing.text.push_str("no cleanup stack"),
        RunEnd::Panicked(panic) => put_panic(drawing, panic),
        RunEnd::Leaked(1) => drawing.text.push_str("1 leak"),
        RunEnd::Leaked(leaks) => write!(drawing.text, "{leaks} leaks"),
        RunEnd::Left(code) => write!(drawing.text, "left with {code}"),
        RunEnd::Plain => drawing.text.push_str("ended"),
        RunEnd::Cut(why) => put_cut(drawing, why),
    }
}

fn put_ended(drawing: &mut Drawing<'_>, left: Option<i32>, leaks: usize) -> Drawn {
    match left {
        Some(code) => write!(drawing.text, "left with {code}")?,
        None => drawing.text.push_str("ended")?,
    }
    match leaks {
        0 => drawing.text.push_str(", no leaks"),
        1 => drawing.text.push_str(", 1 leak"),
        _ => write!(drawing.text, ", {leaks} leaks"),
    }
}
