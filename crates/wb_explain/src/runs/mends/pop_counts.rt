//! Changes of how many items a line takes off, or of where an item that a procedure leaves is popped.

use crate::runs::mends::blocks::begins_body;
use crate::runs::mends::candidates::Mends;
use crate::runs::mends::edits::Mend;
use crate::runs::mends::line_changes::LineChange;
use std::alloc::AllocError;
use wb_heap_model::heap::Panic;
use wb_history::{ScriptLines, WatchedRun};
use wb_meaning::run::Outcome;

/// Proposes, if a TRAP or `main` ended with an item too many, that a line of the body that pushed the newest item takes off one item more; or, if
/// no line of that body takes it off, that the item is popped right after the call. Proposes, if a line took off or was to take off an item too
/// many, that it, or a line above it, takes off one item fewer.
pub fn add_pop_counts<'a>(
    mends: &mut Mends<'a>,
    lines: &ScriptLines<'a>,
    run: &WatchedRun<'_>,
) -> Result<(), AllocError> {
    match run.outcome {
        Outcome::Panicked(Panic::ITEMS_LEFT) => add_one_more(mends, lines, run),
        Outcome::Panicked(Panic::POP_BELOW_TRAP) => {
            add_of_caller(mends, lines, run)?;
            add_one_fewer(mends, lines, run)
        }
        Outcome::Panicked(_) => add_of_caller(mends, lines, run),
        _ => Ok(()),
    }
}

/// Proposes, if a line took off an item of its caller, that it takes off one item fewer.
fn add_of_caller<'a>(
    mends: &mut Mends<'a>,
    lines: &ScriptLines<'a>,
    run: &WatchedRun<'_>,
) -> Result<(), AllocError> {
    let Some(taken) = run.history.items.of_caller else {
        return Ok(());
    };
    match count_of(lines, taken.line) {
        Some(count) if count > 1 => mends.add(Mend::Lines(LineChange::PopCount {
            line: taken.line,
            count: count.saturating_sub(1),
        })),
        _ => Ok(()),
    }
}

fn add_one_more<'a>(
    mends: &mut Mends<'a>,
    lines: &ScriptLines<'a>,
    run: &WatchedRun<'_>,
) -> Result<(), AllocError> {
    let Some(item) = run.history.items.newest() else {
        return Ok(());
    };
    let (bodies, pushed) = (&run.history.bodies, item.pushed.line);
    let mut has_pop = false;
    for line in pushed.saturating_add(1)..=lines.count() {
        if bodies.body_of(line) != bodies.body_of(pushed) {
            break;
        }
        has_pop = has_pop || lines.word(line, 0).starts_with("pop");
        if let Some(count) = count_of(lines, line) {
            mends.add(Mend::Lines(LineChange::PopCount {
                line,
                count: count.saturating_add(1),
            }))?;
        }
    }
    if has_pop {
        return Ok(());
    }
    add_pops_of_caller(mends, lines, lines.word(bodies.body_of(pushed).line, 1))
}

/// Proposes, for each call of a procedure by a body that calls it on one of its ways, that its item is popped right after the call.
fn add_pops_of_caller<'a>(
    mends: &mut Mends<'a>,
    lines: &ScriptLines<'a>,
    name: &str,
) -> Result<(), AllocError> {
    for line in 1..=lines.count() {
        let called = match lines.word(line, 0) {
            "call" => lines.word(line, 1),
            "callto" => lines.word(line, 2),
            _ => "",
        };
        if called == name && !called.is_empty() {
            mends.add(Mend::Pop { after: line })?;
        }
    }
    Ok(())
}

fn add_one_fewer<'a>(
    mends: &mut Mends<'a>,
    lines: &ScriptLines<'a>,
    run: &WatchedRun<'_>,
) -> Result<(), AllocError> {
    let last = run.history.last_line();
    for back in 1..last {
        let line = last.saturating_sub(back);
        if begins_body(lines, line) {
            break;
        }
        if let Some(count) = count_of(lines, line)
            && let Some(count) = count.checked_sub(1)
        {
            mends.add(Mend::Lines(LineChange::PopCount { line, count }))?;
        }
    }
    Ok(())
}

/// How many items a line takes off, by its numeral; `None` if it has none.
fn count_of(lines: &ScriptLines<'_>, line: u32) -> Option<u32> {
    match lines.word(line, 0) {
        "pop" | "popdestroy" => lines.word(line, 1).parse::<u32>().ok(),
        _ => None,
    }
}
