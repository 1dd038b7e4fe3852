//! An item that stayed on the cleanup stack after a line had done away with what the item is for: a commit before which its rollback wasn't
//! popped, a cell that was freed before its item was popped, or that another body gave a new owner.

use crate::runs::item_cures::ItemCure;
use crate::runs::led::led_to;
use crate::runs::script_page::ScriptPage;
use crate::runs::whole::line_in_body_of;
use wb_history::{BodyKind, By, End, Ended, PointerFault, PointerState, WatchedRun};

/// What a line did for which an item was to be popped.
#[derive(Clone, Copy)]
pub enum Deed {
    /// The line ended the life of the item's cell, or of a cell that the item's destruction uses.
    Ended,
    /// The line gave null to a pointer that the item's operation uses.
    Nulled,
    /// The line gave the item's cell to a field.
    Gave,
}

/// An item that was to be popped right after a line.
#[derive(Clone, Copy)]
pub struct ItemKept {
    pushed: u32,
    /// The line of the body that pushed the item after which the item was to be popped, and the line of this body that met the item.
    after: u32,
    met: u32,
    /// The line that did away with what the item is for.
    done: u32,
    deed: Deed,
}

/// Returns the item of the line `pushed`, if the line `done` came after the push, by a line above the line `met`, which met the item in the same
/// body; `None` otherwise.
pub fn kept_past(
    page: &ScriptPage<'_>,
    pushed: u32,
    done: u32,
    met: u32,
    deed: Deed,
    run: &WatchedRun<'_>,
) -> Option<ItemKept> {
    if met == u32::MAX {
        return None;
    }
    let after = led_to(page, done, met, run);
    if after <= pushed {
        return None;
    }
    Some(ItemKept {
        pushed,
        after,
        met,
        done,
        deed,
    })
}

/// Does what `kept_past` does for the item that was destroyed last, and the line that ended the life of a cell which it used.
pub fn kept_past_end(
    page: &ScriptPage<'_>,
    ended: Ended,
    run: &WatchedRun<'_>,
) -> Option<ItemKept> {
    if ended.by != By::Line || ended.end == End::Moved {
        return None;
    }
    let pushed = run.history.last_item?.pushed.line;
    let met = line_in_body_of(pushed, run);
    kept_past(page, pushed, ended.at.number(), met, Deed::Ended, run)
}

/// Does what `kept_past` does for an item whose operation panics at a line, because of a pointer that another body gave null, or whose cell
/// another body freed.
pub fn kept_past_use(
    page: &ScriptPage<'_>,
    line: u32,
    fault: PointerFault,
    run: &WatchedRun<'_>,
) -> Option<ItemKept> {
    if run.history.bodies.body_of(line).kind != BodyKind::Operation {
        return None;
    }
    match fault.state {
        PointerState::Null => {
            let pushed = run.history.last_item?.pushed.line;
            let met = line_in_body_of(pushed, run);
            kept_past(page, pushed, fault.write?.line, met, Deed::Nulled, run)
        }
        PointerState::Gone(life) => kept_past_end(page, life?.ended?, run),
    }
}

/// Returns what to do about the item that was destroyed last, if a line had released the item's cell: let the item be popped right after that,
/// or let that line go, if it came before a line of its body that leaves on purpose. `None` if no such line is known.
pub fn released_before(
    page: &ScriptPage<'_>,
    ended: Ended,
    run: &WatchedRun<'_>,
) -> Option<ItemCure> {
    if let Some(item) = kept_past_end(page, ended, run) {
        return Some(ItemCure::Kept(item));
    }
    let (pushed, done) = (run.history.last_item?.pushed.line, ended.at.number());
    let left = line_in_body_of(done, run);
    let is_on_purpose = matches!(page.word(left, 0), "leave" | "leaveiferror" | "leaveifnull");
    if ended.by == By::Line && ended.end != End::Moved && done < left && is_on_purpose {
        Some(ItemCure::Released { pushed, done, left })
    } else {
        None
    }
}

/// Says when an item was to be popped.
pub fn put_cure_of_item_kept(page: &mut ScriptPage<'_>, item: ItemKept) {
    let ItemKept {
        pushed,
        after,
        met,
        done,
        deed,
    } = item;
    let name = page.word(done, 1);
    page.page.begin_help();
    page.page.write(format_args!("pop the item of line {pushed} right after line {after}"));
    if after == done {
        page.page.write_text(", which ");
    } else {
        page.page.write(format_args!(", by which line {done} "));
    }
    match deed {
        Deed::Ended if page.word(done, 0) == "delete" => page.page.write_text("deletes its object"),
        Deed::Ended => page.page.write_text("frees its cell"),
        Deed::Nulled => page.page.write(format_args!("makes `{name}` null")),
        Deed::Gave => page.page.write(format_args!("gives it to `{name}`")),
    }
    if page.word(met, 0) == "popdestroy" {
        page.page
            .write(format_args!(": line {met} then takes off one item fewer"));
    } else {
        page.page.write_text(
            ", and in place of its later pop: no line that may leave may come in between",
        );
    }
    page.page.end_line();
}
