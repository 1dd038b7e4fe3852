//! What is said about a cell whose last pointer got another value: which line gave it, and what to do.

use crate::runs::cures::put_cure;
use crate::runs::heads::head_around;
use crate::runs::losses::release_of;
use crate::runs::pointers::cure_of_failed;
use crate::runs::script_page::{ScriptPage, Written};
use wb_heap_model::heap::{Kind, Ptr};
use wb_history::{Life, WatchedRun};

/// How many blocks a line may stand in.
const MOST_BLOCKS: u32 = 16;

/// Says which line overwrote the pointer of a cell. If an attempt to reallocate failed at this line, says instead what to do about that.
pub fn put_overwritten(
    page: &mut ScriptPage<'_>,
    line: u32,
    name: &str,
    kind: Kind,
    run: &WatchedRun<'_>,
) {
    if let Some(cure) = cure_of_failed(run, line) {
        return put_cure(page, cure, run);
    }
    let release = release_of(kind);
    page.begin_cause();
    page.page.write(format_args!("line {line} gave `{name}` another value: {release}"));
    if may_leave(page, line) && (name.contains('.') || is_in_trap(page, line)) {
        page.page.write(format_args!(" and set `{name}` to null"));
    }
    page.page.write_text(" before that");
    page.page.end_line();
}

/// Whether a line that sets a pointer may leave instead.
fn may_leave(page: &ScriptPage<'_>, line: u32) -> bool {
    matches!(
        page.word(line, 0),
        "allocl" | "newleave" | "hnewl" | "reallocl" | "callto"
    )
}

/// Whether a line stands inside a `trap` of its body.
fn is_in_trap(page: &ScriptPage<'_>, line: u32) -> bool {
    let mut at = line;
    for _ in 0..=MOST_BLOCKS {
        match head_around(page, at) {
            Some(head) if page.word(head.line, 0) == "trap" => return true,
            Some(head) => at = head.line,
            None => return false,
        }
    }
    false
}

/// Says by which call the line `line` came to run a second time, if it had set the pointer of a cell before, in another call, and then gave
/// this pointer another cell.
pub fn put_second_time(
    page: &mut ScriptPage<'_>,
    line: u32,
    life: Life,
    run: &WatchedRun<'_>,
) -> Written {
    let (Some(held), Some(next)) = (life.held, next_of(line, life, run)) else {
        return Ok(());
    };
    let Some(again) = next.held else {
        return Ok(());
    };
    let is_line = held.line.number() == line && again.line == held.line;
    if !is_line || again.caller == held.caller {
        return Ok(());
    }
    let name = page.word(line, 1);
    page.mark_new(
        again.caller.number(),
        0,
        format_args!("by this call, line {line} ran again and gave `{name}` another cell"),
    )
}

/// The life of the first cell that a line was granted after it had been granted the cell of `life`; `None` if there is none.
fn next_of(line: u32, life: Life, run: &WatchedRun<'_>) -> Option<Life> {
    for made in run.history.attempts.kept_attempts() {
        let (place, number) = (made.attempt.place, made.attempt.number);
        if made.maker.line == line && made.is_granted() && number > life.pointer.number {
            return run.history.lives.find(Ptr { place, number });
        }
    }
    None
}
