//! A number by which an `if` or a `repeat` goes, if a line stored it in a cell before a line left: what the number counts wasn't done then.

use crate::runs::heads::head_around;
use crate::runs::led::led_to;
use crate::runs::passed_over::{passed_growth, passed_making};
use crate::runs::script_page::{ScriptPage, Written};
use wb_history::{Meant, PointerState, Values, WatchedRun, WordUse};

/// The most blocks around a line that are looked at.
const MOST_BLOCKS: u32 = 16;

/// A number that a line stored before a line left.
#[derive(Clone, Copy)]
pub struct Stored {
    /// The line that stored the number.
    pub line: u32,
    pub number: i32,
    /// The line of the `if` or the `repeat` that goes by the number.
    pub head: u32,
    /// The lines of one body by which the number was stored, and by which then the leave came about.
    pub at: u32,
    pub left: u32,
    /// Whether the word had been stored before.
    pub is_change: bool,
    /// The line that the `if` passed over for this number; 0 if the `if` stands around the line of the panic.
    pub passed: u32,
}

/// Returns the number that made a run come to the line of a panic about a null pointer, or about a word past a cell's end; `None` if no such
/// number is known.
pub fn stored_before_panic(
    page: &ScriptPage<'_>,
    line: u32,
    run: &WatchedRun<'_>,
) -> Option<Stored> {
    match (run.end.pointer, run.end.values) {
        (Some(fault), _) if fault.state == PointerState::Null => {
            stored_around(page, line, run).or(passed_making(page, line, fault, run))
        }
        (
            None,
            Some(
                Meant {
                    values: Values::NoWord { .. },
                    ..
                },
            ),
        ) => stored_around(page, line, run).or(passed_growth(page, line, run)),
        _ => None,
    }
}

/// The number by which a block around a line goes.
fn stored_around(page: &ScriptPage<'_>, line: u32, run: &WatchedRun<'_>) -> Option<Stored> {
    let mut at = line;
    for _ in 0..MOST_BLOCKS {
        at = head_around(page, at)?.line;
        let stored = stored_for(page, at, run);
        if stored.is_some() {
            return stored;
        }
    }
    None
}

/// Returns a number by which the `if` or the `repeat` at a line goes, if a line above it in its body loaded the number, and another line had
/// stored it before a line left. `None` otherwise.
pub fn stored_for(page: &ScriptPage<'_>, head: u32, run: &WatchedRun<'_>) -> Option<Stored> {
    let [first, other] = loads_for(page, head, run);
    stored_by(page, head, first, run).or(stored_by(page, head, other, run))
}

/// The number that a line above the line `head` loaded, if another line had stored it before a line left; `None` otherwise.
fn stored_by(
    page: &ScriptPage<'_>,
    head: u32,
    load: Option<WordUse>,
    run: &WatchedRun<'_>,
) -> Option<Stored> {
    let load = load?;
    let store = run.history.word_uses.store_before(load)?;
    let (at, left) = before_leave(page, store, load, run)?;
    if store.number != load.number {
        return None;
    }
    Some(Stored {
        line: store.line,
        number: store.number,
        head,
        at,
        left,
        is_change: run.history.word_uses.store_before(store).is_some(),
        passed: 0,
    })
}

/// Returns the last loads above the line `head`, in the same body, of the ints by which this line goes; `None` for an int that none loads.
pub fn loads_for(page: &ScriptPage<'_>, head: u32, run: &WatchedRun<'_>) -> [Option<WordUse>; 2] {
    match (page.word(head, 0), page.word(head, 1)) {
        ("repeat", count) => [load_of(page, count, head, run), None],
        ("if", "less" | "eq") => {
            let (first, other) = (page.word(head, 2), page.word(head, 3));
            [
                load_of(page, first, head, run),
                load_of(page, other, head, run),
            ]
        }
        _ => [None, None],
    }
}

/// The last load of the int `name` above the line `head`, in the same body; `None` if there is none.
fn load_of(page: &ScriptPage<'_>, name: &str, head: u32, run: &WatchedRun<'_>) -> Option<WordUse> {
    let bodies = &run.history.bodies;
    let body = bodies.body_of(head);
    let mut load = 0;
    for at in body.line..head {
        let is_load = page.word(at, 0) == "load" && page.word(at, 1) == name;
        if is_load && bodies.body_of(at) == body {
            load = at;
        }
    }
    run.history.word_uses.of_line(load)
}

/// Returns the lines of one body by which a number was stored, and by which then a leave came about, between the store and the load; `None` if
/// there are no such lines.
pub fn before_leave(
    page: &ScriptPage<'_>,
    store: WordUse,
    load: WordUse,
    run: &WatchedRun<'_>,
) -> Option<(u32, u32)> {
    let leave = run.history.traps.leave_between(store.step, load.step)?;
    let Ok(lines) = run.history.calls.lines_of(leave.at.path) else {
        return None;
    };
    for left in lines.iter().rev() {
        let at = led_to(page, store.line, *left, run);
        if at != 0 {
            return Some((at, *left));
        }
    }
    None
}

/// Shows the line that stored a number, if there is one, and the `if` that went by it.
pub fn put_stored(page: &mut ScriptPage<'_>, stored: Option<Stored>) -> Written {
    let Some(
        Stored {
            line,
            number,
            head,
            left,
            passed,
            ..
        },
    ) = stored
    else {
        return Ok(());
    };
    let (verb, does) = match page.word(head, 0) {
        "repeat" => ("by which line", "repeats"),
        _ => ("by which line", "goes"),
    };
    page.mark_new(
        line,
        0,
        format_args!("this stored the {number} {verb} {head} {does}, before line {left} left"),
    )?;
    if passed == 0 {
        return Ok(());
    }
    page.tell_unordered();
    page.mark_new(
        head,
        0,
        format_args!("for this number, the run passed over line {passed}"),
    )
}

/// Writes what to do about a number that was stored too early.
pub fn put_cure_of_stored(page: &mut ScriptPage<'_>, stored: Stored) {
    let Stored { at, left, .. } = stored;
    page.page.write(format_args!(
        "let line {at} come only after the last line that may leave, or undo it where the leave of line {left} is caught, or by an item (`pushop`)"
    ));
}
