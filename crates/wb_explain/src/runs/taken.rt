//! What is said about items that a body leaves to its caller, items that a body takes from its caller, and items that are popped twice.

use crate::runs::callee_pushes::{callee_push, put_callee_push};
use crate::runs::counts::Many;
use crate::runs::cures::Cure;
use crate::runs::left_inside::{left_inside, put_cure_of_inside, put_left_inside};
use crate::runs::passed::{Passed, passed_push};
use crate::runs::paths::body_name;
use crate::runs::script_page::{ScriptPage, Written};
use std::fmt;
use std::fmt::{Display, Formatter, Write};
use wb_history::{By, Ended, Life, Stay, Taken, WatchedRun};

/// Returns what to do about an item that a body took from its caller. That `popcheck` helps is said only of a body that pushed an item
/// itself: a pointer that such a body didn't push may be the pointer of its caller's item.
pub fn cure_of_taken(page: &ScriptPage<'_>, run: &WatchedRun<'_>) -> Cure {
    let Some(taken) = run.history.items.of_caller else {
        return Cure::Words(TAKES_ITS_OWN_CHECKED);
    };
    match passed_push(page, taken, run) {
        Some(Passed { push, failed, head }) if failed != 0 => Cure::PassedPush {
            off: taken.line,
            push,
            head,
        },
        Some(_) => Cure::Words(
            "a body takes off only as many items as it pushed itself: on the way that passes over the push, pop one item fewer",
        ),
        None => cure_beside_callee(page, taken, run),
    }
}

/// What to do about an item that a body took from its caller, if no push of this body was passed over.
fn cure_beside_callee(page: &ScriptPage<'_>, taken: Taken, run: &WatchedRun<'_>) -> Cure {
    match callee_push(page, taken, run) {
        Some(passed) => Cure::CalleePush(passed),
        None if taken.body.most <= taken.body.began => {
            Cure::Words("a body takes off only as many items as it pushed itself")
        }
        None => Cure::Words(TAKES_ITS_OWN_CHECKED),
    }
}

/// What to do if a body that pushed an item took off more items than it had pushed.
const TAKES_ITS_OWN_CHECKED: &str =
    "a body takes off only as many items as it pushed itself; `popcheck` makes sure that no other item comes off";

/// Says which line took off an item of a calling body, and how many items the line's own body began with and left. Says also which line
/// that pushes an item was passed over before, if known.
pub fn put_of_caller(
    page: &mut ScriptPage<'_>,
    taken: Option<Taken>,
    run: &WatchedRun<'_>,
) -> Written {
    let Some(taken) = taken else {
        return Ok(());
    };
    let Taken { line, pushed, body } = taken;
    page.tell_unordered();
    let (caller, name) = (body_name(page, pushed, run), body_name(page, line, run));
    let (began, ended) = (items(body.began), body.ended);
    page.mark_new(
        line,
        0,
        format_args!(
            "this took off the item that line {pushed} had pushed, in `{caller}`: `{name}` began with {began} on the cleanup stack, and this left {ended}"
        ),
    )?;
    match passed_push(page, taken, run) {
        Some(Passed { push, failed, .. }) if failed != 0 => page.mark_new(
            push,
            0,
            format_args!("`{name}` passed this over, since the attempt of line {failed} failed"),
        ),
        Some(Passed { push, .. }) => page.mark_new(
            push,
            0,
            format_args!("`{name}` passed this over, and had pushed no item before line {line}"),
        ),
        None => put_callee_push(page, callee_push(page, taken, run), run),
    }
}

/// Says how many items a body began with and left to its caller. Also says which line then took off one of the left items, if known.
pub fn put_left(
    page: &mut ScriptPage<'_>,
    body: Stay,
    then: Then,
    run: &WatchedRun<'_>,
) -> Written {
    page.tell_unordered();
    let name = body_name(page, body.last, run);
    let (began, ended) = (items(body.began), body.ended);
    page.mark_new(
        body.last,
        0,
        format_args!(
            "`{name}` began with {began} on the cleanup stack, and ended after this line with {ended}{then}"
        ),
    )?;
    put_left_inside(page, left_inside(page, body, run))
}

/// Returns whether a body's name says that the body leaves an item to its caller: such a name ends in `lc` or `LC`.
pub fn is_to_leave(page: &ScriptPage<'_>, body: Stay, run: &WatchedRun<'_>) -> bool {
    leaves_item(body_name(page, body.last, run))
}

/// Returns whether a body of this name leaves an item to its caller.
pub fn leaves_item(name: &str) -> bool {
    name.ends_with("lc") || name.ends_with("LC")
}

/// Says what to do about an item that a body left to its caller.
pub fn put_cure_of_left(page: &mut ScriptPage<'_>, body: Stay, run: &WatchedRun<'_>) {
    if let Some(inside) = left_inside(page, body, run) {
        return put_cure_of_inside(page, inside);
    }
    let (name, line) = (body_name(page, body.last, run), body.last);
    let left = body.ended.saturating_sub(body.began);
    page.page.begin_help();
    match page.word(line, 0) {
        "return" => page.page.write(format_args!(
            "before the `return` of line {line}, let `{name}` take off what it pushed"
        )),
        _ => page.page.write(format_args!(
            "before `{name}` ends after line {line}, let it take off what it pushed"
        )),
    }
    page.page.write(format_args!(
        ", with `popdestroy {left}`, or with `pop {left}` where that has another owner: the pops of its caller count on that"
    ));
    page.page.end_line();
}

fn items(count: usize) -> Many {
    Many(i64::try_from(count).unwrap_or(i64::MAX), "item")
}

/// Which line took off an item that a body had left; no text for `None`.
#[derive(Clone, Copy)]
pub struct Then(pub Option<Taken>);

impl Display for Then {
    fn fmt<W: Write>(&self, f: &mut Formatter<W>) -> fmt::Result {
        match self.0 {
            Some(Taken { line, pushed, .. }) => {
                write!(
                    f,
                    ": line {line} took off the item that line {pushed} had pushed"
                )
            }
            None => Ok(()),
        }
    }
}

/// What to do about a called body that left no item, although it leaves an item on other ways through its code.
pub const LEFT_NONE: &str =
    "the body that was called left no item on this way: let each of its ways leave one, or pop only where it left one";

/// Returns the item that a line took off after a called body had left no item. The called body must have pushed an item, or its name must
/// end in `lc` or `LC`; `None` if there is no such item.
pub fn after_callee(page: &ScriptPage<'_>, line: u32, run: &WatchedRun<'_>) -> Option<Taken> {
    let taken = run.history.items.after_callee?;
    let body = taken.body;
    if taken.line == line && (body.began < body.most || is_to_leave(page, body, run)) {
        Some(taken)
    } else {
        None
    }
}

/// Does what `after_callee` does, for the line of the `popdestroy` that ended a cell's life.
pub fn destroyed_after_callee(
    page: &ScriptPage<'_>,
    ended: Ended,
    run: &WatchedRun<'_>,
) -> Option<Taken> {
    match ended.by {
        By::PopDestroy => after_callee(page, ended.at.number(), run),
        By::Line | By::Leave => None,
    }
}

/// Says which body was called before an item was taken off, and that this body left no item.
pub fn put_callee(
    page: &mut ScriptPage<'_>,
    taken: Option<Taken>,
    run: &WatchedRun<'_>,
) -> Written {
    let Some(Taken { line, pushed, body }) = taken else {
        return Ok(());
    };
    let name = body_name(page, body.last, run);
    page.tell_unordered();
    page.mark_new(
        line,
        0,
        format_args!("this took off the item that line {pushed} had pushed"),
    )?;
    page.mark_new(
        body.last,
        0,
        format_args!("`{name}`, called before that, ended after this line and left no item"),
    )
}

/// Returns the item of a calling body with which `popdestroy` ended a cell's life; `None` if there is no such item.
pub fn taken_with(ended: Ended, run: &WatchedRun<'_>) -> Option<Taken> {
    let taken = run.history.items.of_caller?;
    if ended.by == By::PopDestroy && taken.line == ended.at.number() {
        Some(taken)
    } else {
        None
    }
}

/// Says which line already took off the item that is to be popped, or which called body left no item before that.
pub fn put_item_off(page: &mut ScriptPage<'_>, run: &WatchedRun<'_>) -> Written {
    if let Some(taken) = called_before(page, run) {
        return put_callee(page, Some(taken), run);
    }
    match run.history.lives.find(run.end.names) {
        Some(life) => {
            page.tell_unordered();
            let pushed = life.pushed.number();
            page.mark_new(
                line_off(life),
                0,
                format_args!("this took off the item that line {pushed} had pushed"),
            )
        }
        None => Ok(()),
    }
}

/// Returns what to do if more items are to be popped than there are.
pub fn cure_of_off(page: &ScriptPage<'_>, run: &WatchedRun<'_>) -> &'static str {
    match (
        called_before(page, run),
        run.history.lives.find(run.end.names),
    ) {
        (Some(_), _) => LEFT_NONE,
        (None, Some(life)) if line_off(life) != 0 => {
            "each item comes off once: let one of the two lines go"
        }
        _ => "each item that is popped was pushed before: pop as many as there are",
    }
}

/// The line that took off the last item of a cell; 0 if no line did.
fn line_off(life: Life) -> u32 {
    match life.ended {
        Some(ended) if ended.by == By::PopDestroy => ended.at.number(),
        _ => life.popped.number(),
    }
}

/// The item that a line took off after a called body had left no item; if known, it is the item that is to be popped. `None` if there is
/// no such item.
fn called_before(page: &ScriptPage<'_>, run: &WatchedRun<'_>) -> Option<Taken> {
    let line = match run.history.lives.find(run.end.names) {
        Some(life) => line_off(life),
        None => run.history.items.after_callee?.line,
    };
    after_callee(page, line, run)
}
