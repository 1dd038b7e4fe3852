//! What is said about an operation that ran for a leave and passed over the line that frees its cell.

use crate::runs::heads::{Head, head_around};
use crate::runs::script_page::{ScriptPage, Written};
use crate::runs::stored::{Stored, put_cure_of_stored, put_stored, stored_for};
use wb_history::WatchedRun;

/// A line of an operation that frees the operation's cell, and the `if` around it.
#[derive(Clone, Copy)]
struct PassedFree {
    free: u32,
    head: u32,
}

/// Says which `if` passed over the line that frees the cell of the operation that the line `pushed` pushed; says nothing if the operation
/// has no such line inside an `if`.
pub fn put_operation(page: &mut ScriptPage<'_>, pushed: u32, run: &WatchedRun<'_>) -> Written {
    let Some(passed) = passed_free(page, pushed) else {
        return Ok(());
    };
    let (name, free) = (page.word(pushed, 2), passed.free);
    page.tell_unordered();
    page.mark_new(
        passed.head,
        0,
        format_args!("`{name}` passed over its `free` of line {free}, since this didn't hold"),
    )?;
    put_stored(page, changed_for(page, passed.head, run))
}

/// Writes what to do about the operation that the line `pushed` pushed.
pub fn put_operation_cure(page: &mut ScriptPage<'_>, pushed: u32, run: &WatchedRun<'_>) {
    page.page
        .write_text(" and ran the operation of the cell's item");
    let Some(PassedFree { free, head }) = passed_free(page, pushed) else {
        return page.page.write_text(": let that free the cell");
    };
    page.page.write(format_args!(", which passed over its `free` of line {free}: "));
    match changed_for(page, head, run) {
        Some(stored) => put_cure_of_stored(page, stored),
        None => page.page.write(format_args!("look at what the `if` of line {head} goes by")),
    }
}

/// The number by which the `if` at the line `head` goes, if it was changed in a cell before a line left; `None` otherwise.
fn changed_for(page: &ScriptPage<'_>, head: u32, run: &WatchedRun<'_>) -> Option<Stored> {
    let stored = stored_for(page, head, run)?;
    if stored.is_change { Some(stored) } else { None }
}

/// The line that frees the cell of the operation that the line `pushed` pushed, if it stands inside an `if` and not behind its `else`; `None`
/// if there is no such line, or more than one.
fn passed_free(page: &ScriptPage<'_>, pushed: u32) -> Option<PassedFree> {
    let begun = begin_of(page, page.word(pushed, 2))?;
    let parameter = page.word(begun, 2);
    let mut passed = None;
    for free in begun.saturating_add(1)..=page.lines.count() {
        match page.word(free, 0) {
            "op" | "proc" | "class" => return passed,
            "free" | "delete" if page.word(free, 1) == parameter => {
                let Head {
                    line: head,
                    is_else,
                } = head_around(page, free)?;
                if passed.is_some() || is_else || page.word(head, 0) != "if" {
                    return None;
                }
                passed = Some(PassedFree { free, head });
            }
            _ => {}
        }
    }
    passed
}

/// The line that begins the operation `name`; `None` if there is none.
fn begin_of(page: &ScriptPage<'_>, name: &str) -> Option<u32> {
    for line in 1..=page.lines.count() {
        if page.word(line, 0) == "op" && page.word(line, 1) == name {
            return Some(line);
        }
    }
    None
}
