//! What to do about an item of the cleanup stack that is one too many, or that was pushed or popped in the wrong place.

use crate::runs::item_kept::{ItemKept, put_cure_of_item_kept};
use crate::runs::paths::body_name;
use crate::runs::script_page::ScriptPage;
use crate::runs::two_items::{TwoItems, destroys_pushed, put_cure_of_two};
use wb_history::WatchedRun;

/// What to do about an item.
#[derive(Clone, Copy)]
pub enum ItemCure {
    /// The item stayed on the cleanup stack after a line had done away with what the item is for.
    Kept(ItemKept),
    /// Two bodies pushed one cell.
    Two(TwoItems),
    /// The line `pushed` pushed a null pointer, which the operation of the line `used` then used.
    PushedNull {
        pushed: u32,
        used: u32,
    },
    /// A body returned, at the line `last`, a pointer that it had pushed at the line `pushed` and not popped.
    Returned {
        pushed: u32,
        last: u32,
    },
    /// The line `done` released what the item of the line `pushed` holds, right before the line `left` left.
    Released {
        pushed: u32,
        done: u32,
        left: u32,
    },
    /// The line `set` gave a field a cell before a line of its body left, while the item of the line `pushed` held the cell; the line `call`
    /// called this body. The line `gone` released what the field had named before; it is 0 if no line did.
    SetInCall {
        set: u32,
        gone: u32,
        pushed: u32,
        call: u32,
    },
    /// The line `set` gave a field a cell, and the line `call` then called the body that pushed it, at the line `pushed`, and left.
    FieldOfCaller {
        set: u32,
        pushed: u32,
        call: u32,
    },
}

/// Says what to do about an item.
pub fn put_item_cure(page: &mut ScriptPage<'_>, cure: ItemCure, run: &WatchedRun<'_>) {
    match cure {
        ItemCure::Kept(item) => put_cure_of_item_kept(page, item),
        ItemCure::Two(items) => put_cure_of_two(page, items, run),
        ItemCure::PushedNull { pushed, used } => {
            let begun = run.history.bodies.body_of(used).line;
            let (name, operation) = (page.word(pushed, 1), page.word(begun, 1));
            let parameter = page.word(begun, 2);
            page.write_cause(format_args!(
                "line {pushed} pushed `{name}` when it was null, and the item keeps that: push it only after it has got its cell, or check in `{operation}` with `if some {parameter}`"
            ));
        }
        ItemCure::Returned { pushed, last } => {
            let (name, body) = (page.word(pushed, 1), body_name(page, last, run));
            page.write_cause(format_args!(
                "`{body}` returned what it had pushed: before the `return` of line {last} pop that, with `popcheck {name}`; or let each caller of `{body}` pop it, as after a `NewLC`"
            ));
        }
        ItemCure::Released { pushed, done, left } => page.page.write_help(format_args!(
            "let line {done} go: the item of line {pushed} does the same for the leave of line {left}"
        )),
        ItemCure::SetInCall {
            set,
            gone,
            pushed,
            call,
        } => put_set_in_call(page, set, gone, pushed, call),
        ItemCure::FieldOfCaller { set, pushed, call } => {
            put_field_of_caller(page, set, pushed, call, run);
        }
    }
}

fn put_set_in_call(page: &mut ScriptPage<'_>, set: u32, gone: u32, pushed: u32, call: u32) {
    let name = page.word(set, 1);
    page.begin_cause();
    page.page
        .write(format_args!("its item and `{name}` both own it: let "));
    match gone {
        0 => page.page.write(format_args!("line {set}")),
        _ => page.page.write(format_args!("lines {gone} and {set}")),
    }
    page.page.write(format_args!(
        " come after the last line of the body that may leave, and pop the item of line {pushed} right after line {call}"
    ));
    page.page.end_line();
}

fn put_field_of_caller(
    page: &mut ScriptPage<'_>,
    set: u32,
    pushed: u32,
    call: u32,
    run: &WatchedRun<'_>,
) {
    let (name, callee) = (page.word(set, 1), body_name(page, pushed, run));
    if destroys_pushed(page, pushed, run) {
        return page.write_cause(format_args!(
            "`{callee}`, which line {call} calls, pushes it and so takes it over: set `{name}` to null before that line"
        ));
    }
    page.write_cause(format_args!(
        "`{name}` owns it since line {set}, and `{callee}`, which line {call} calls, pushes it: let line {pushed} go, and in `{callee}` pop one item fewer"
    ));
}
