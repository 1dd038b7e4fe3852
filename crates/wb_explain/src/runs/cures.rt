//! What to do about a panic, or about a pointer that became null: words alone, or words about lines that a run came to.

use crate::runs::callee_pushes::{CalleePush, put_cure_of_callee};
use crate::runs::ended_by_call::{EndedByCall, put_cure_of_call};
use crate::runs::for_leave::{FreedForLeave, put_share_too_late};
use crate::runs::half_made::{HalfMade, put_cure_of_half};
use crate::runs::item_cures::{ItemCure, put_item_cure};
use crate::runs::kept::name_of;
use crate::runs::lent::{Lent, put_cure_of_lent};
use crate::runs::new_place::{NewPlace, put_cure_of_place};
use crate::runs::script_page::ScriptPage;
use crate::runs::shared::{SharedCell, put_cure_of_shared};
use wb_history::{PointerFault, WatchedRun};

/// What to do.
#[derive(Clone, Copy)]
pub enum Cure {
    /// Just this; nothing if it is empty.
    Words(&'static str),
    /// The line `failed` reallocates, and its attempt failed. The words follow the line's number.
    Reallocated {
        failed: u32,
        words: &'static str,
    },
    /// The line `set` set a field to an object whose item was destroyed for a leave. The line `gone` released what the field had named
    /// before; it is 0 if no line did.
    FieldTooEarly {
        set: u32,
        gone: u32,
    },
    /// The field that the line `set` set to an object still named the object after a leave had deleted it.
    FieldKept {
        set: u32,
    },
    /// A leave at the line `left` destroyed the cell of a local with its item, and the line `used` then used the pointer at fault.
    DestroyedByLeave {
        left: u32,
        used: u32,
        fault: PointerFault,
    },
    /// The line `off` took off one item too many: the line `push` was passed over, which stands in the block of the line `head`.
    PassedPush {
        off: u32,
        push: u32,
        head: u32,
    },
    /// A called body passed over a push, and its caller took off an item anyway.
    CalleePush(CalleePush),
    /// A body came to its end at the line `last`, with this many items that it had pushed. `is_owned` says whether something else may own
    /// what they hold.
    ItemsKept {
        last: u32,
        count: u32,
        is_owned: bool,
    },
    /// The line `left` left when an object was whole, and the object's destructor then met a null pointer.
    WholeObject {
        left: u32,
    },
    /// A field named an object before the object's second phase had ended, and this phase left.
    HalfMade(HalfMade),
    /// Fields of two objects named one cell, and both objects freed it.
    Shared(SharedCell),
    /// An item gave up a user of its cell for a leave, before the line `counts` counted this user. The item of the line `other` still holds
    /// the cell. Both lines are 0 if they aren't known.
    ShareTooLate {
        freed: FreedForLeave,
        other: u32,
        counts: u32,
    },
    /// An item of the cleanup stack is one too many, or was pushed or popped in the wrong place.
    Item(ItemCure),
    /// A call ended the life of a cell that a line below it uses.
    EndedByCall(EndedByCall),
    /// The line `moved` moved the cell of another pointer than the one that it set; the line `used` then used that pointer.
    OldPlace {
        moved: u32,
        used: u32,
        fault: PointerFault,
    },
    /// A cell moved, and only a local had its new place when a line left.
    NewPlace(NewPlace),
    /// A line gave away a cell that a field kept.
    Lent(Lent),
    /// The pointer by which the line `freed` released a cell kept its value.
    SetNull {
        freed: u32,
    },
    /// The destructor of an object gave up a user of a cell for the leave of the line `left`, before this user was counted. The line `set`
    /// had given the cell to a field of the object.
    UncountedUser {
        set: u32,
        left: u32,
    },
    /// The line `from` gave the pointer at fault null, or left before it gave the pointer a cell. The line `used` used the pointer.
    CheckBefore {
        from: u32,
        used: u32,
        fault: PointerFault,
        has_left: bool,
    },
}

/// Writes what to do.
pub fn put_cure(page: &mut ScriptPage<'_>, cure: Cure, run: &WatchedRun<'_>) {
    match cure {
        Cure::Words(words) if !words.is_empty() => page.page.write_help_text(words),
        Cure::Words(_) => {}
        Cure::Reallocated { failed, words } => {
            let word = page.word(failed, 0);
            page.page
                .write_help(format_args!("if the `{word}` of line {failed} {words}"));
        }
        Cure::FieldTooEarly { set, gone } => put_too_early(page, set, gone),
        Cure::FieldKept { set } => put_field_kept(page, set),
        Cure::DestroyedByLeave { left, used, fault } => {
            put_destroyed(page, left, name_of(page, used, fault));
        }
        Cure::PassedPush { off, push, head } => put_passed_push(page, off, push, head),
        Cure::CalleePush(passed) => put_cure_of_callee(page, passed),
        Cure::ItemsKept {
            last,
            count,
            is_owned,
        } => put_items_kept(page, last, count, is_owned),
        Cure::WholeObject { left } => page.write_cause(format_args!(
            "the object was whole when line {left} left: undo there what was done by half, or do it only after that line; or check with `if some` first"
        )),
        Cure::HalfMade(half) => put_cure_of_half(page, half),
        Cure::Shared(shared) => put_cure_of_shared(page, shared),
        Cure::Item(cure) => put_item_cure(page, cure, run),
        Cure::EndedByCall(call) => put_cure_of_call(page, call, run),
        Cure::OldPlace { moved, used, fault } => {
            put_old_place(page, moved, name_of(page, used, fault));
        }
        Cure::NewPlace(place) => put_cure_of_place(page, place),
        Cure::Lent(lent) => put_cure_of_lent(page, lent),
        Cure::SetNull { freed } => put_set_null(page, freed),
        Cure::UncountedUser { set, left } => put_uncounted(page, set, left),
        Cure::ShareTooLate {
            freed,
            other,
            counts,
        } => put_share_too_late(page, freed, other, counts),
        Cure::CheckBefore {
            from,
            used,
            fault,
            has_left,
        } => put_check_before(page, from, name_of(page, used, fault), used, has_left),
    }
}

fn put_field_kept(page: &mut ScriptPage<'_>, set: u32) {
    let name = page.word(set, 1);
    page.write_cause(format_args!(
        "`{name}`, which line {set} set, still names it: set that only after the last line that may leave, or let the object's `destroy` set it to null"
    ));
}

fn put_destroyed(page: &mut ScriptPage<'_>, left: u32, name: &str) {
    page.write_cause(format_args!(
        "the leave of line {left} destroyed it with its item: where that leave was caught, neither use `{name}` nor free it again"
    ));
}

fn put_check_before(page: &mut ScriptPage<'_>, from: u32, name: &str, used: u32, has_left: bool) {
    if has_left {
        return page.write_cause(format_args!(
            "`{name}` is null, since line {from} left: where that leave was caught, don't come to line {used}, or check it there with `if some {name}`"
        ));
    }
    let word = page.word(from, 0);
    page.page.write_help(format_args!(
        "`{name}`, to which line {from} may give null, must be checked with `if some` before line {used}; `{word}l` leaves instead of giving null"
    ));
}

fn put_too_early(page: &mut ScriptPage<'_>, set: u32, gone: u32) {
    let name = page.word(set, 1);
    page.begin_cause();
    page.page.write_text("its item and the field both own it: ");
    if page.word(set, 0) != "set" {
        page.page
            .write(format_args!("let a local get it in line {set}, and "));
    }
    page.page.write(format_args!("set `{name}`"));
    if gone != 0 {
        let word = page.word(gone, 0);
        page.page.write(format_args!(", and `{word}` what it named before (line {gone}),"));
    }
    page.page.write_text(
        " only after the last line that may leave, and pop the item right after that",
    );
    page.page.end_line();
}

fn put_old_place(page: &mut ScriptPage<'_>, moved: u32, name: &str) {
    let result = page.word(moved, 1);
    page.page.write_help(format_args!(
        "a cell that grew may have moved, and then only the result of that line names it: after line {moved} set `{name}` again, from `{result}`"
    ));
}

fn put_set_null(page: &mut ScriptPage<'_>, freed: u32) {
    let (word, name) = (page.word(freed, 0), page.word(freed, 1));
    let does = if word == "delete" {
        "deleting"
    } else {
        "freeing"
    };
    page.page.write_help(format_args!(
        "set `{name}` to null after the `{word}` of line {freed}: {does} null does nothing"
    ));
}

fn put_uncounted(page: &mut ScriptPage<'_>, set: u32, left: u32) {
    let name = page.word(set, 1);
    page.write_cause(format_args!(
        "the destructor gave up a user that wasn't counted yet when line {left} left: count the user right before line {set} sets `{name}`"
    ));
}

fn put_passed_push(page: &mut ScriptPage<'_>, off: u32, push: u32, head: u32) {
    let word = page.word(off, 0);
    page.page.write_help(format_args!(
        "let line {off} take off one item fewer, and pop the item of line {push} at the end of the `if` of line {head}, with `{word} 1`: a body takes off only as many items as it pushed itself"
    ));
}

fn put_items_kept(page: &mut ScriptPage<'_>, last: u32, count: u32, is_owned: bool) {
    let place = match page.word(last, 0) {
        "return" => "before the `return` of",
        _ => "after",
    };
    page.page.begin_help();
    page.page.write(format_args!(
        "{place} line {last} pop what was pushed, with `popdestroy {count}`"
    ));
    if is_owned {
        page.page.write(format_args!(", or with `pop {count}` where that has another owner"));
    } else {
        page.page.write_text(", since nothing else owns it");
    }
    page.page.end_line();
}
