//! A cell that leaks because a line had counted one more user of it before a line left: what then gave up a user passed over the line that
//! frees the cell.

use crate::runs::heads::{Head, head_around};
use crate::runs::paths::body_name;
use crate::runs::script_page::{ScriptPage, Written};
use crate::runs::stored::{before_leave, loads_for};
use wb_history::{Life, WatchedRun, WordUse};

/// The most stores that are looked at.
const MOST_STORES: u32 = 16;

/// A number of users that was raised before a line left.
#[derive(Clone, Copy)]
pub struct RaisedCount {
    /// The line that releases the cell, and the `if` that passed over it.
    release: u32,
    head: u32,
    /// The line that raised the number, and the number then.
    store: u32,
    number: i32,
    /// The lines of one body by which the number was raised, and by which then the leave came about.
    at: u32,
    left: u32,
}

/// Returns the number of users that kept a cell from being freed, if it had been raised before a line left; `None` if no such number is known,
/// or if an operation or a destructor has stored the number since, which may have lowered it again.
pub fn raised_count(
    page: &ScriptPage<'_>,
    life: Life,
    run: &WatchedRun<'_>,
) -> Option<RaisedCount> {
    count_raised(page, life, true, run)
}

/// Does what `raised_count` does, also if an operation or a destructor has stored the number since.
pub fn raised_before(
    page: &ScriptPage<'_>,
    life: Life,
    run: &WatchedRun<'_>,
) -> Option<RaisedCount> {
    count_raised(page, life, false, run)
}

fn count_raised(
    page: &ScriptPage<'_>,
    life: Life,
    is_last: bool,
    run: &WatchedRun<'_>,
) -> Option<RaisedCount> {
    let (mut raised, mut newest) = (None, 0u32);
    for release in 1..=page.lines.count() {
        if matches!(page.word(release, 0), "free" | "delete")
            && let Some(
                Head {
                    line,
                    is_else: false,
                },
            ) = head_around(page, release)
            && page.word(line, 0) == "if"
            && let Some(load) = count_for(page, line, life, run)
            && newest <= load.step
            && let Some((store, at, left)) = lost_store(page, load, is_last, run)
        {
            newest = load.step;
            raised = Some(RaisedCount {
                release,
                head: line,
                store: store.line,
                number: store.number,
                at,
                left,
            });
        }
    }
    raised
}

/// The number of a cell's users by which the `if` at a line goes; `None` if it goes by no word of this cell, or of a cell that a field of this
/// object names.
fn count_for(
    page: &ScriptPage<'_>,
    head: u32,
    life: Life,
    run: &WatchedRun<'_>,
) -> Option<WordUse> {
    for load in loads_for(page, head, run) {
        if let Some(word) = load {
            let counter = run.history.lives.find(word.cell);
            let owner = counter.and_then(|it| it.held).map(|held| held.owner);
            if word.cell == life.pointer || owner == Some(life.pointer) {
                return load;
            }
        }
    }
    None
}

/// The newest store before a load that raised the number inside a TRAP to which a line then left, and the lines of one body by which both
/// came about. `None` if there is none, or if `is_last` and an operation or a destructor has stored the number since.
fn lost_store(
    page: &ScriptPage<'_>,
    load: WordUse,
    is_last: bool,
    run: &WatchedRun<'_>,
) -> Option<(WordUse, u32, u32)> {
    let (uses, bodies) = (&run.history.word_uses, &run.history.bodies);
    let mut store = uses.store_before(load)?;
    for _ in 0..MOST_STORES {
        let undoes = bodies.undoes(store.line)
            && bodies.body_of(store.line) != bodies.body_of(load.line);
        if is_last && undoes {
            return None;
        }
        let before = uses.store_before(store)?;
        if before.number < store.number
            && let Some((at, left)) = before_leave(page, store, load, run)
            && let Some(leave) = run.history.traps.leave_between(store.step, load.step)
            && leave.caught.is_none_or(|trap| trap.since <= store.step)
        {
            return Some((store, at, left));
        }
        store = before;
    }
    None
}

/// Says which `if` passed over the line that releases the cell, and which line had raised the number by which the `if` goes.
pub fn put_raised(page: &mut ScriptPage<'_>, raised: RaisedCount, run: &WatchedRun<'_>) -> Written {
    let RaisedCount {
        release,
        head,
        store,
        number,
        left,
        ..
    } = raised;
    let (body, word) = (body_name(page, head, run), page.word(release, 0));
    page.tell_unordered();
    page.mark_new(
        head,
        0,
        format_args!("`{body}` passed over its `{word}` of line {release}, since this didn't hold"),
    )?;
    page.mark_new(
        store,
        0,
        format_args!(
            "the number that line {head} goes by became {number} here, before line {left} left"
        ),
    )
}

/// Says what to do about a number of users that was raised too early.
pub fn put_cure_of_raised(page: &mut ScriptPage<'_>, raised: RaisedCount) {
    let RaisedCount { at, left, .. } = raised;
    page.write_cause(format_args!(
        "line {left} left when one more user was counted, and nothing took that back: let line {at} come only after the last line that may leave, or push an operation that takes it back; or take it back where the leave is caught"
    ));
}
