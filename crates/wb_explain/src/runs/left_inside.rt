//! A procedure that pushes an item and doesn't take it off, called on one way through a body only: on this way the body then takes off that item
//! in place of its own.

use crate::runs::heads::head_around;
use crate::runs::script_page::{ScriptPage, Written};
use crate::runs::taken::leaves_item;
use wb_history::{Stay, WatchedRun};

/// A call inside an `if`, the name of the procedure that it calls, and the line of the procedure that pushes an item too many.
#[derive(Clone, Copy)]
pub struct LeftInside<'a> {
    call: u32,
    name: &'a str,
    push: u32,
}

/// Returns the call, inside an `if` of a body that left an item to its caller, of a procedure that pushes more items than it takes off; `None` if
/// there is no such call.
pub fn left_inside<'a>(
    page: &ScriptPage<'a>,
    body: Stay,
    run: &WatchedRun<'_>,
) -> Option<LeftInside<'a>> {
    let bodies = &run.history.bodies;
    let own = bodies.body_of(body.last);
    for call in own.line..body.last {
        let name = page.word(call, 1);
        if page.word(call, 0) == "call"
            && bodies.body_of(call) == own
            && head_around(page, call).is_some_and(|it| page.word(it.line, 0) == "if")
            && let Some(push) = push_left(page, name)
        {
            return Some(LeftInside { call, name, push });
        }
    }
    None
}

/// The last line of a procedure that pushes an item, if the procedure has more such lines than it takes off items; `None` if its name says that
/// it leaves an item.
fn push_left(page: &ScriptPage<'_>, procedure: &str) -> Option<u32> {
    let (mut is_inside, mut count, mut push) = (false, 0i64, 0u32);
    for at in 1..=page.lines.count() {
        let word = page.word(at, 1);
        let items = match page.word(at, 0) {
            "push" | "pushobj" | "pushop" => 1,
            "popcheck" => -1,
            "pop" | "popdestroy" => -i64::from(word.parse::<i32>().unwrap_or(1)),
            "proc" | "class" | "op" => {
                is_inside = page.word(at, 0) == "proc" && word == procedure;
                0
            }
            _ => 0,
        };
        if is_inside {
            count = count.saturating_add(items);
            push = if items > 0 { at } else { push };
        }
    }
    if count > 0 && !leaves_item(procedure) {
        Some(push)
    } else {
        None
    }
}

/// Shows the line that pushes an item too many.
pub fn put_left_inside(page: &mut ScriptPage<'_>, inside: Option<LeftInside<'_>>) -> Written {
    match inside {
        Some(LeftInside { call, name, push }) => page.mark_new(
            push,
            0,
            format_args!("`{name}`, which line {call} called, pushed this and didn't take it off"),
        ),
        None => Ok(()),
    }
}

/// Says what to do about an item too many.
pub fn put_cure_of_inside(page: &mut ScriptPage<'_>, inside: LeftInside<'_>) {
    let LeftInside { name, push, .. } = inside;
    page.page.write_help(format_args!(
        "before `{name}` ends, let it take off what line {push} pushed, with `popdestroy 1`, or with `pop 1` where that has another owner"
    ));
}
