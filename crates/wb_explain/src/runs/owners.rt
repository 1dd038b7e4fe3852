//! What to do about a cell that the cleanup stack destroyed with its item, though a pointer still named it.

use crate::runs::cures::Cure;
use crate::runs::item_cures::ItemCure;
use crate::runs::item_kept::{Deed, kept_past};
use crate::runs::led::{led_to, left_in_body_of};
use crate::runs::script_page::ScriptPage;
use wb_history::{By, End, Ended, Held, PointerFault, PointerState, WatchedRun};

/// The local or field that was last set to the cell of the pointer at fault, if the cell is gone; `None` if none is known.
fn holder_of(fault: PointerFault) -> Option<Held> {
    match fault.state {
        PointerState::Gone(life) => life?.held,
        PointerState::Null => None,
    }
}

/// Returns what to do about a cell that both its item and a field owned. If a leave deleted the cell's object, its second phase may have
/// left: then the field must not keep the object, so the item must own the object until no line may leave any more.
pub fn cure_of_two_owners(
    page: &ScriptPage<'_>,
    run: &WatchedRun<'_>,
    fault: PointerFault,
    ended: Ended,
) -> Cure {
    if let Some(cure) = cure_of_called(page, run, fault) {
        return cure;
    }
    match (ended.end, ended.by, holder_of(fault)) {
        (End::Deleted, By::Leave, Some(held)) if held.is_field() => {
            let set = held.line.number();
            let gone = released_before(page, set);
            Cure::FieldTooEarly { set, gone }
        }
        (End::Deleted, By::Leave, _) => Cure::Words(
            "its item and the field both own it: set the field only after the last line that may leave, and pop the item right after that",
        ),
        _ => Cure::Words(
            "its item and the field both own it: pop the item as soon as the field has got it, before the next line that may leave",
        ),
    }
}

/// What to do about a cell that both its item and a field owned, if another body than the one that pushed the item gave it to the field;
/// `None` otherwise.
fn cure_of_called(
    page: &ScriptPage<'_>,
    run: &WatchedRun<'_>,
    fault: PointerFault,
) -> Option<Cure> {
    let PointerState::Gone(Some(life)) = fault.state else {
        return None;
    };
    let (bodies, held, pushed) = (&run.history.bodies, life.held?, life.pushed.number());
    let set = held.line.number();
    if !held.is_field() || bodies.body_of(set) == bodies.body_of(pushed) {
        return None;
    }
    let (met, left) = (left_in_body_of(pushed, run), left_in_body_of(set, run));
    if let Some(item) = kept_past(page, pushed, set, met, Deed::Gave, run) {
        return Some(Cure::Item(ItemCure::Kept(item)));
    }
    if met == 0 || left <= set {
        return None;
    }
    let is_called = led_to(page, pushed, left.saturating_add(1), run) == left;
    Some(Cure::Item(match is_called {
        true => ItemCure::FieldOfCaller {
            set,
            pushed,
            call: left,
        },
        false => ItemCure::SetInCall {
            set,
            gone: released_before(page, set),
            pushed,
            call: met,
        },
    }))
}

/// The line just above the line `set` that releases what the pointer named which the line `set` then sets; 0 if that line releases nothing
/// of it.
fn released_before(page: &ScriptPage<'_>, set: u32) -> u32 {
    let (above, name) = (set.saturating_sub(1), page.word(set, 1));
    if matches!(page.word(above, 0), "delete" | "free") && page.word(above, 1) == name {
        above
    } else {
        0
    }
}

/// Returns what to do about a pointer whose cell was destroyed for a leave, with the cell's item.
pub fn cure_of_leave(run: &WatchedRun<'_>, line: u32, fault: PointerFault, ended: Ended) -> Cure {
    match holder_of(fault) {
        Some(held) if held.is_field() && is_of_live(run, held) => {
            let set = held.line.number();
            Cure::FieldKept { set }
        }
        Some(held) if !held.is_field() && !run.history.bodies.undoes(line) =>
            Cure::DestroyedByLeave {
                left: ended.at.number(),
                used: line,
                fault,
            },
        _ => Cure::Words(
            "a leave destroys all items since its TRAP began, with their cells: `pop` an item as soon as its cell has another owner, and where the leave was caught neither use the pointer nor free it again",
        ),
    }
}

/// Whether the object of a field is live.
fn is_of_live(run: &WatchedRun<'_>, held: Held) -> bool {
    match run.history.lives.find(held.owner) {
        Some(owner) => owner.ended.is_none(),
        None => false,
    }
}
