//! What is said about a failed heap check: how many cells it expected, how many it found, which line made each found cell, and which
//! attempts failed by the script's own setting.

use crate::runs::counts::{Many, of_one_or_more};
use crate::runs::losses::{is_lost, put_held, put_loss};
use crate::runs::script_page::{ScriptPage, Written};
use std::fmt;
use std::fmt::{Display, Formatter, Write};
use wb_heap_model::heap::Answer;
use wb_history::{Counted, Life, OpenMark, WatchedRun};
use wb_tree::script::Statement;

/// The most cells, and the most attempts, that are listed.
const MOST_ROWS: usize = 20;

/// The most counted cells for which the explanation also names the pointers last set to them.
const MOST_HELD: usize = 3;

/// Returns what to do about a failed heap check. Returns an empty text if the messages about the counted cells already say what to do.
pub fn cure_of_check(
    page: &ScriptPage<'_>,
    counted: &Counted,
    run: &WatchedRun<'_>,
) -> &'static str {
    if mark_left(counted, run).is_some() {
        "a leave closes no mark: put `mark` and `markend` around the TRAP, where no leave comes between them"
    } else if are_more(counted) {
        cure_of_more(page, counted, run)
    } else if was_refused(counted, run) {
        "a cell that it was to count was refused: expect as many as were granted, or let the line that makes the cell leave"
    } else {
        "look for a cell that was refused, freed too early, or made before the mark"
    }
}

/// Whether a check found more cells than it expected.
fn are_more(counted: &Counted) -> bool {
    i64::from(counted.found) > i64::from(counted.expected)
}

/// What to do about too many cells at a check. Empty if those cells that aren't known to be lost are no more than the check expects.
fn cure_of_more(page: &ScriptPage<'_>, counted: &Counted, run: &WatchedRun<'_>) -> &'static str {
    let mut left = i64::from(counted.expected);
    for cell in counted.cells.as_slice() {
        match run.history.lives.find(*cell) {
            Some(life) if is_lost(page, life, run) => {}
            _ => left = left.saturating_sub(1),
        }
    }
    if left >= 0 {
        return "";
    }
    let lowest = counted.lowest().and_then(|it| run.history.lives.find(it));
    match lowest.and_then(|it| it.held) {
        Some(held) if held.is_field() => {
            "free each cell that isn't meant to stay before the check; make one that is before the mark, or count it"
        }
        _ => "free each cell that isn't meant to stay before the check",
    }
}

/// Whether an attempt failed after the mark from which a check counts, in a line that then gives null.
fn was_refused(counted: &Counted, run: &WatchedRun<'_>) -> bool {
    let is_of_all = matches!(run.end.statement, Some(Statement::CheckAll(_)));
    let since = match run.history.marks.newest() {
        Some(mark) if !is_of_all => mark.since,
        _ => 0,
    };
    counted.found as usize == counted.cells.len()
        && run.history.attempts.kept_attempts().iter().any(|it| since < it.step
            && !it.is_granted()
            && it.maker.gives_null())
}

/// Says how many cells a check expected, and how many it found.
pub fn put_counts(page: &mut ScriptPage<'_>, counted: &Counted) {
    let (expected, found) = (i64::from(counted.expected), i64::from(counted.found));
    let cells = Many(expected, "cell");
    let are = of_one_or_more(expected, "is", "are");
    let were = of_one_or_more(found, "was", "were");
    page.page.write(format_args!("{cells} {are} expected, but {found} {were} found"));
}

/// The place of a counted cell. The place of the lowest cell is also the panic's number, which is printed in hexadecimal.
#[derive(Clone, Copy)]
struct CountedPlace {
    place: u32,
    is_lowest: bool,
}

impl Display for CountedPlace {
    fn fmt<W: Write>(&self, f: &mut Formatter<W>) -> fmt::Result {
        let place = self.place;
        if self.is_lowest && place > 9 {
            write!(f, "{place}, which is {place:x} in hexadecimal")
        } else {
            write!(f, "{place}")
        }
    }
}

/// Says which line made each counted cell, and how the cell was lost. Says also which attempts failed by the script's own setting.
pub fn put_counted(page: &mut ScriptPage<'_>, counted: &Counted, run: &WatchedRun<'_>) -> Written {
    for cell in counted.cells.iter().take(MOST_ROWS) {
        if let Some(life) = run.history.lives.find(*cell) {
            put_cell(page, life, counted, run)?;
        }
    }
    let more = (counted.found as usize).saturating_sub(MOST_ROWS);
    if more > 0 {
        page.page
            .write_file_message(format_args!("and {more} more"));
    }
    let (marks, statement) = (&run.history.marks, run.end.statement);
    if matches!(statement, Some(Statement::Check(_))) && marks.newest().is_none() {
        page.mark_new(
            marks.closed_at,
            0,
            "this closed the last mark: none is open, so the check counts all cells outside of marks",
        )?;
    }
    put_mark(page, counted, run)?;
    put_failed_by_script(page, run)
}

/// Says which line made a counted cell. If one line made several counted cells, says only for the first of them how it was lost.
fn put_cell(
    page: &mut ScriptPage<'_>,
    life: Life,
    counted: &Counted,
    run: &WatchedRun<'_>,
) -> Written {
    let (at, made) = match (life.grown.is_some(), life.is_reallocated()) {
        (true, _) => (life.grown, "made, moved or grown"),
        (false, true) => (life.made, "made, moved or grown"),
        (false, false) => (life.made, "made"),
    };
    let length = life.length;
    let place = CountedPlace {
        place: life.pointer.place,
        is_lowest: counted.lowest() == Some(life.pointer),
    };
    page.mark_word(
        at.number(),
        1,
        format_args!("counted: a cell that was {made} here: {length} bytes at place {place}"),
    )?;
    page.begin_way(at.number())?;
    if are_more(counted) && is_lost(page, life, run) && is_first(life, counted, run) {
        put_loss(page, life, run)
    } else if counted.cells.len() <= MOST_HELD {
        put_held(page, life)
    } else {
        Ok(())
    }
}

/// Whether this cell is the first of the counted cells that its line made.
fn is_first(life: Life, counted: &Counted, run: &WatchedRun<'_>) -> bool {
    for cell in counted.cells.as_slice() {
        if *cell == life.pointer {
            return true;
        }
        if let Some(other) = run.history.lives.find(*cell)
            && other.made == life.made
        {
            return false;
        }
    }
    true
}

/// The mark that a leave left open, and the line that closed this mark before the check failed; 0 if the check counts from this mark.
/// `None` if there is no such mark, if the check counts all cells, or if it found too many: a mark that was left open hides cells.
fn mark_left(counted: &Counted, run: &WatchedRun<'_>) -> Option<(OpenMark, u32)> {
    let is_of_all = matches!(run.end.statement, Some(Statement::CheckAll(_)));
    if is_of_all || are_more(counted) {
        return None;
    }
    match run.history.marks.newest() {
        Some(mark) if mark.skipped_by != 0 => Some((mark, 0)),
        _ => run.history.marks.closed_late,
    }
}

/// Shows the mark that a leave left open. Another `markend` than the mark's own closed this mark, or is to close it.
fn put_mark(page: &mut ScriptPage<'_>, counted: &Counted, run: &WatchedRun<'_>) -> Written {
    let Some((mark, closed)) = mark_left(counted, run) else {
        return Ok(());
    };
    if closed == 0 {
        page.mark_new(
            mark.line,
            0,
            "cells are counted from this mark on, which is still open",
        )?;
    } else {
        page.mark_new(
            mark.line,
            0,
            format_args!("line {closed} closed this mark in place of its own"),
        )?;
    }
    page.mark_new(
        mark.skipped_by,
        0,
        "the leave of this line had left that mark open",
    )
}

/// Says which attempts failed by the script's own setting, unless some attempts failed by the run's rule.
fn put_failed_by_script(page: &mut ScriptPage<'_>, run: &WatchedRun<'_>) -> Written {
    let failed = run.history.attempts.failed_counts();
    if failed.by_rule > 0 || failed.by_script == 0 {
        return Ok(());
    }
    let mut told = 0;
    for made in run.history.attempts.kept_attempts() {
        if made.attempt.answer == Answer::Simulated && told < MOST_ROWS {
            told = told.saturating_add(1);
            let number = made.attempt.number;
            page.mark(
                made.maker.line,
                format_args!("attempt {number} failed here by the script's own setting"),
            )?;
        }
    }
    Ok(())
}
