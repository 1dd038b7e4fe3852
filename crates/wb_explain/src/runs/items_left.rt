//! What is said about the cleanup stack if a panic is about its items: the items that are left, the items that were to be popped, and the
//! item on top.

use crate::runs::counts::{Many, of_one_or_more};
use crate::runs::cures::Cure;
use crate::runs::item_cures::ItemCure;
use crate::runs::panics::Meaning;
use crate::runs::paths::{AfterLine, body_name};
use crate::runs::script_page::{ScriptPage, Written};
use crate::runs::taken::{
    Then, cure_of_off, cure_of_taken, leaves_item, put_item_off, put_left, put_of_caller,
};
use crate::runs::two_items::two_items_left;
use wb_heap_model::heap::Panic;
use wb_history::{ItemOnStack, Origin, Raised, Raiser, Stay, WatchedRun};

/// The most items that are listed.
const MOST_ITEMS: usize = 5;

/// What to do about items that are left when a TRAP ends.
pub const POP_FIRST: &str = "pop what was pushed, with `pop` or `popdestroy`, before the TRAP ends";

/// What a panic means, and what to look for, if the end of `main` raised the panic.
pub const OF_MAIN: Meaning = (
    "",
    "pop what was pushed, with `pop` or `popdestroy`, before `main` ends",
);

/// Says that a TRAP, or `main`, ended with items on its cleanup stack.
pub fn put_items_left(page: &mut ScriptPage<'_>, raised: Raised, run: &WatchedRun<'_>) {
    match (raised.raiser, run.history.traps.last_ended()) {
        (Raiser::TrapEnd, Some(trap)) => {
            page.page
                .write(format_args!("the TRAP of line {}", trap.line));
        }
        (Raiser::TrapEnd, None) => page.page.write_text("the TRAP"),
        _ => page.page.write_text("`main`"),
    }
    let count = i64::try_from(items_left(raised, run).len()).unwrap_or(i64::MAX);
    let items = Many(count, "item");
    page.page.write(format_args!(" ended after this line with {items} still on its cleanup stack"));
}

/// How many items were on the cleanup stack when the innermost TRAP began; 0 if no TRAP is open.
pub fn items_below(run: &WatchedRun<'_>) -> usize {
    match run.history.traps.open_traps().last() {
        Some(trap) => trap.items,
        None => 0,
    }
}

/// Says how many items were to be popped, and how many were pushed since the innermost TRAP began.
pub fn put_too_many(page: &mut ScriptPage<'_>, wanted: i32, run: &WatchedRun<'_>) {
    let count = i64::from(wanted);
    let open = run.history.traps.open_traps().last();
    let there = run.history.items.count().saturating_sub(items_below(run));
    let (items, were) = (Many(count, "item"), of_one_or_more(count, "was", "were"));
    page.page.write(format_args!("{items} {were} to be popped, but the cleanup stack has {there}"));
    if let Some(trap) = open {
        page.page
            .write(format_args!(" since the TRAP of line {}", trap.line));
    }
}

/// Says that the newest item isn't the item that was to be popped.
pub fn put_another(page: &mut ScriptPage<'_>, line: u32, run: &WatchedRun<'_>) {
    let name = page.word(line, 1);
    page.page.write(format_args!("the newest item on the cleanup stack is not that of `{name}`"));
    if run.end.names.number == 0 {
        page.page.write_text(", which is null");
    }
}

/// Shows the items that a panic of the cleanup stack is about; shows nothing for any other panic.
pub fn put_items(page: &mut ScriptPage<'_>, raised: Raised, run: &WatchedRun<'_>) -> Written {
    match raised.panic {
        Panic::ITEMS_LEFT => {
            if let Some(taken) = run.history.items.of_callee {
                put_left(page, taken.body, Then(Some(taken)), run)?;
            }
            put_each(page, items_left(raised, run), run)
        }
        Panic::ANOTHER_ITEM_ON_TOP => put_top(page, run),
        Panic::POP_BELOW_TRAP => {
            put_newest(page, run)?;
            put_of_caller(page, run.history.items.of_caller, run)?;
            put_item_off(page, run)
        }
        _ => Ok(()),
    }
}

/// What to do if more items are to be popped than were pushed since the innermost TRAP began.
pub fn cure_of_below(page: &ScriptPage<'_>, run: &WatchedRun<'_>) -> Cure {
    match (items_below(run), run.history.items.of_caller) {
        (_, Some(_)) => cure_of_taken(page, run),
        (0, None) => Cure::Words(cure_of_off(page, run)),
        _ => Cure::Words("items of an outer TRAP are popped outside the inner one"),
    }
}

/// The items that were left on the cleanup stack when a TRAP or `main` ended.
fn items_left<'b>(raised: Raised, run: &'b WatchedRun<'_>) -> &'b [ItemOnStack] {
    let all = run.history.items.all();
    let floor = match (raised.raiser, run.history.traps.last_ended()) {
        (Raiser::TrapEnd, Some(trap)) => trap.items,
        _ => 0,
    };
    let (_, left) = all.split_at_checked(floor).unwrap_or((&[], &[]));
    left
}

/// Says where each item was pushed and, if the body that pushed the item has ended, which body this is.
fn put_each(page: &mut ScriptPage<'_>, items: &[ItemOnStack], run: &WatchedRun<'_>) -> Written {
    for item in items.iter().rev().take(MOST_ITEMS) {
        let path = run.history.calls.lines_of(item.pushed.path)?;
        put_pushed(page, *item, path.len(), run)?;
        for at in run.end.path.len()..path.len() {
            if let Some(before) = at.checked_sub(1)
                && let Some(call) = path.get(before)
            {
                page.mark_new(*call, 0, "it was called here")?;
                put_caller(page, *call, at, *item, run)?;
            }
        }
    }
    Ok(())
}

/// Says where an item was pushed, in a body at `depth`. Says also after which line this body ended, or which line took off another item.
fn put_pushed(
    page: &mut ScriptPage<'_>,
    item: ItemOnStack,
    depth: usize,
    run: &WatchedRun<'_>,
) -> Written {
    let (line, bodies) = (item.pushed.line, &run.history.bodies);
    if depth > run.end.path.len() {
        let name = body_name(page, line, run);
        let end = AfterLine(last_of(item, u32::try_from(depth).unwrap_or(0), run));
        return page.mark_new(
            line,
            1,
            format_args!("this item was pushed here, and `{name}` ended{end} without a pop"),
        );
    }
    match run.history.items.of_callee {
        Some(taken) if bodies.body_of(taken.line) == bodies.body_of(line) => {
            let off = taken.line;
            page.mark_new(
                line,
                1,
                format_args!(
                    "this item was pushed here, and stayed when line {off} took off the other one"
                ),
            )
        }
        _ => page.mark_new(line, 1, "this item was pushed here and not popped"),
    }
}

/// The last line of the body, at this depth, that pushed an item and has ended; 0 if this line isn't known.
fn last_of(item: ItemOnStack, depth: u32, run: &WatchedRun<'_>) -> u32 {
    let bodies = &run.history.bodies;
    match item.left {
        Some(body) if bodies.body_of(body.last) == bodies.body_of(item.pushed.line) => body.last,
        _ => run.history.calls.last_line_of(depth, item.pushed.step),
    }
}

/// Says after which line a calling body ended without a pop of the item that its call had left. Says nothing for the body in which
/// the run ended.
fn put_caller(
    page: &mut ScriptPage<'_>,
    call: u32,
    depth: usize,
    item: ItemOnStack,
    run: &WatchedRun<'_>,
) -> Written {
    let depth = u32::try_from(depth).unwrap_or(0);
    let last = run.history.calls.last_line_of(depth, item.pushed.step);
    if depth as usize <= run.end.path.len() || last == 0 {
        return Ok(());
    }
    page.tell_unordered();
    let name = body_name(page, call, run);
    page.mark_new(
        last,
        0,
        format_args!("`{name}` ended after this line, without a pop"),
    )
}

/// Says where the newest item was pushed, and what became of the item that was expected in its place.
fn put_top(page: &mut ScriptPage<'_>, run: &WatchedRun<'_>) -> Written {
    put_newest(page, run)?;
    if let Some(body) = run.history.items.newest().and_then(|it| it.left) {
        put_left(page, body, Then(None), run)?;
    }
    if let Some(item) = run.history.items.find(run.end.names) {
        let line = item.pushed.line;
        return page.mark_new(line, 1, "the one that is meant was pushed here");
    }
    match run.history.lives.find(run.end.names) {
        Some(life) if life.popped.is_some() => {
            page.tell_unordered();
            let line = life.popped.number();
            page.mark_new(line, 0, "the item that is meant was popped here")
        }
        Some(life) if life.pushed.is_none() && life.ended.is_none() => {
            let name = page.word(run.history.last_line(), 1);
            let deed = match life.origin {
                Origin::Made => "was made here and never pushed",
                Origin::Reallocated => "was made or moved here, and not pushed since",
                Origin::MovedWithRoom => {
                    "moved here because of `--moving`, and was not pushed since"
                }
            };
            page.mark_new(
                life.made.number(),
                1,
                format_args!("the cell of `{name}` {deed}"),
            )
        }
        _ => {
            page.page
                .write_file_text("the pointer that is meant is not on the cleanup stack");
            Ok(())
        }
    }
}

/// Returns the body that left an item to its caller, if this may have caused the cleanup stack's panic; `None` if no such body is known.
pub fn left_to_caller(raised: Raised, run: &WatchedRun<'_>) -> Option<Stay> {
    match (raised.panic, run.history.items.of_callee) {
        (Panic::ITEMS_LEFT, Some(taken)) => Some(taken.body),
        (Panic::ITEMS_LEFT, None) => items_left(raised, run).last()?.left,
        (Panic::ANOTHER_ITEM_ON_TOP, _) => run.history.items.newest()?.left,
        _ => None,
    }
}

/// What to do if the newest item isn't the expected item.
pub fn cure_of_another(run: &WatchedRun<'_>) -> &'static str {
    match (
        run.history.items.find(run.end.names),
        run.history.lives.find(run.end.names),
    ) {
        (Some(_), _) if is_newest_of_failure(run) => {
            "the newest item was pushed on the way that a failed attempt led to: pop it on that way, too"
        }
        (Some(_), _) => "items come off in the reverse of the order in which they were pushed",
        (None, Some(life)) if life.popped.is_some() => {
            "each item is popped once: check the pointer whose item is the newest"
        }
        (None, Some(life)) if life.is_reallocated() => {
            "after the line that moves a cell, pop the item of its old place, and push the new pointer"
        }
        (None, Some(_)) => {
            "push the pointer before this line, or check the one whose item is the newest"
        }
        (None, None) => "check the pointer whose item is the newest: this one has no item",
    }
}

/// Whether the newest item was pushed after an attempt in the same body had failed and its line had given null.
fn is_newest_of_failure(run: &WatchedRun<'_>) -> bool {
    let Some(newest) = run.history.items.newest() else {
        return false;
    };
    let (bodies, pushed) = (&run.history.bodies, newest.pushed);
    let body = bodies.body_of(pushed.line);
    run.history.attempts.kept_attempts().iter().any(|it| it.step < pushed.step
        && !it.is_granted()
        && it.maker.gives_null()
        && bodies.body_of(it.maker.line) == body)
}

/// What to do about items that are left when a TRAP or `main` ends, if a body that had pushed the newest item came to its end: which
/// line is the last of this body, or in general if the body was called by another body that came to its end. `None` otherwise.
pub fn cure_of_left(page: &ScriptPage<'_>, raised: Raised, run: &WatchedRun<'_>) -> Option<Cure> {
    let left = items_left(raised, run);
    let newest = left.last()?;
    if let Some(items) = two_items_left(*newest, run) {
        return Some(Cure::Item(ItemCure::Two(items)));
    }
    let ended_in = u32::try_from(run.end.path.len()).unwrap_or(u32::MAX);
    if newest.depth < ended_in.saturating_add(1) {
        return None;
    }
    if newest.depth > ended_in.saturating_add(1) {
        return Some(Cure::Words(
            "pop what a called body left, with `pop` or `popdestroy`, before each end of the body that called it, before a `return` too",
        ));
    }
    if let Some(cure) = cure_of_returned(page, *newest, run) {
        return Some(cure);
    }
    let last = last_of(*newest, newest.depth, run);
    if last == 0 || is_to_keep(page, last, run) {
        return None;
    }
    Some(Cure::ItemsKept {
        last,
        count: count_pushed_with(*newest, left, run),
        is_owned: may_be_owned(left, run),
    })
}

/// What to do about an item if the body that pushed it returns its pointer, and the body's name doesn't say that it leaves an item.
fn cure_of_returned(
    page: &ScriptPage<'_>,
    item: ItemOnStack,
    run: &WatchedRun<'_>,
) -> Option<Cure> {
    let (bodies, pushed) = (&run.history.bodies, item.pushed.line);
    let body = bodies.body_of(pushed);
    for last in pushed..=page.lines.count() {
        let returns = page.word(last, 0) == "return" && page.word(last, 1) == page.word(pushed, 1);
        if returns && bodies.body_of(last) == body {
            return match leaves_item(page.word(body.line, 1)) {
                true => None,
                false => Some(Cure::Item(ItemCure::Returned { pushed, last })),
            };
        }
    }
    None
}

/// Whether a body that came to its end at the line `last` is to leave an item to its caller: it returns a pointer, or its name says so.
fn is_to_keep(page: &ScriptPage<'_>, last: u32, run: &WatchedRun<'_>) -> bool {
    page.word(last, 0) == "return" && !page.word(last, 1).is_empty()
        || leaves_item(body_name(page, last, run))
}

/// How many of these items were pushed by the body that pushed the item `newest`.
fn count_pushed_with(newest: ItemOnStack, left: &[ItemOnStack], run: &WatchedRun<'_>) -> u32 {
    let (bodies, mut count) = (&run.history.bodies, 0u32);
    let body = bodies.body_of(newest.pushed.line);
    for item in left {
        if item.depth == newest.depth && bodies.body_of(item.pushed.line) == body {
            count = count.saturating_add(1);
        }
    }
    count
}

/// Whether something may own what one of these items holds, other than a local of a body that has ended.
fn may_be_owned(left: &[ItemOnStack], run: &WatchedRun<'_>) -> bool {
    for item in left {
        let held = match run.history.lives.find(item.pointer()) {
            Some(life) if life.ended.is_none() => life.held,
            _ => None,
        };
        if held.is_none_or(|it| it.is_field() || u32::from(it.depth) < item.depth) {
            return true;
        }
    }
    false
}

/// Says where the newest item was pushed, if there is one.
fn put_newest(page: &mut ScriptPage<'_>, run: &WatchedRun<'_>) -> Written {
    match run.history.items.newest() {
        Some(newest) => page.mark_new(newest.pushed.line, 1, "the newest item was pushed here"),
        None => Ok(()),
    }
}
