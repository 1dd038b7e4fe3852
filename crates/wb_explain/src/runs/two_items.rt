//! A cell with two items, of which a body pushed one that another body had called, or that had called it.

use crate::runs::led::led_to;
use crate::runs::paths::body_name;
use crate::runs::script_page::ScriptPage;
use crate::runs::taken::leaves_item;
use crate::runs::whole::line_in_body_of;
use wb_history::{BodyKind, By, Ended, ItemOnStack, WatchedRun};

/// A cell that two bodies pushed.
#[derive(Clone, Copy)]
pub enum TwoItems {
    /// The line `call` called a body that pushed the cell again, at the line `again`. The body may destroy what it pushed.
    Called {
        pushed: u32,
        call: u32,
        again: u32,
        destroys: bool,
    },
    /// A body that has ended left its item, of the line `pushed`, to its caller, which pushed the cell again, at the line `again`.
    Left {
        pushed: u32,
        again: u32,
    },
}

/// Returns the two items of the cell whose older item was destroyed last, if two bodies pushed them; `None` otherwise. `ended` is how the
/// cell's life ended.
pub fn two_items(
    page: &ScriptPage<'_>,
    ended: Option<Ended>,
    run: &WatchedRun<'_>,
) -> Option<TwoItems> {
    let item = run.history.last_item?;
    let again = run.history.lives.find(item.pointer())?.pushed.number();
    let (bodies, pushed) = (&run.history.bodies, item.pushed.line);
    let callee = bodies.body_of(again);
    if ended?.by == By::Line || again == 0 || callee == bodies.body_of(pushed) {
        return None;
    }
    let met = line_in_body_of(pushed, run);
    if met == u32::MAX {
        return Some(TwoItems::Left { pushed, again });
    }
    let call = led_to(page, again, met.saturating_add(1), run);
    if call <= pushed || callee.kind != BodyKind::Procedure {
        return None;
    }
    Some(TwoItems::Called {
        pushed,
        call,
        again,
        destroys: destroys_pushed(page, again, run),
    })
}

/// Returns the two items of a cell whose older item is left at the end, if a called body left it and its caller pushed the cell again; `None`
/// otherwise.
pub fn two_items_left(item: ItemOnStack, run: &WatchedRun<'_>) -> Option<TwoItems> {
    let again = run.history.lives.find(item.pointer())?.pushed.number();
    let (bodies, pushed) = (&run.history.bodies, item.pushed.line);
    if again == 0 || bodies.body_of(again) == bodies.body_of(pushed) {
        return None;
    }
    match line_in_body_of(pushed, run) {
        u32::MAX => Some(TwoItems::Left { pushed, again }),
        _ => None,
    }
}

/// Returns whether the body of a line that pushes an item destroys, on some way, what it pushed there.
pub fn destroys_pushed(page: &ScriptPage<'_>, pushed: u32, run: &WatchedRun<'_>) -> bool {
    let (bodies, name) = (&run.history.bodies, page.word(pushed, 1));
    let body = bodies.body_of(pushed);
    for at in pushed..=page.lines.count() {
        let destroys = match page.word(at, 0) {
            "popdestroy" => true,
            "free" | "delete" => page.word(at, 1) == name,
            _ => false,
        };
        if destroys && bodies.body_of(at) == body {
            return true;
        }
    }
    false
}

/// Says which of the two items is one too many.
pub fn put_cure_of_two(page: &mut ScriptPage<'_>, items: TwoItems, run: &WatchedRun<'_>) {
    page.begin_cause();
    match items {
        TwoItems::Called {
            pushed,
            call,
            again,
            destroys: true,
        } => {
            let (name, callee) = (page.word(pushed, 1), body_name(page, again, run));
            page.page.write(format_args!(
                "it has two items, since `{callee}` takes over what it is called with: pop the item of line {pushed} before line {call}, with `popcheck {name}`, and no more after that line"
            ));
        }
        TwoItems::Called { pushed, again, .. } => {
            let callee = body_name(page, again, run);
            page.page.write(format_args!(
                "it has two items: that of line {pushed} holds it while `{callee}` runs, so let line {again} go, and in `{callee}` pop one item fewer"
            ));
        }
        TwoItems::Left { pushed, again } => {
            let (callee, name) = (body_name(page, pushed, run), page.word(pushed, 1));
            page.page.write(format_args!(
                "it has two items, since `{callee}` left that of line {pushed} on the cleanup stack: "
            ));
            if leaves_item(callee) {
                page.page.write(format_args!(
                    "let line {again} go; a later `pop` or `popdestroy` that counts both must then take off one item fewer"
                ));
            } else {
                page.page.write(format_args!(
                    "let `{callee}` pop it before it ends, with `popcheck {name}`"
                ));
            }
        }
    }
    page.page.end_line();
}
