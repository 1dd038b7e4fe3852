//! What is said about a change of what pointers name, or of what they get.

use crate::runs::mends::edits::Mend;
use crate::runs::mends::texts::FRESH;
use crate::runs::mends::words::put_left;
use crate::runs::script_page::ScriptPage;

/// Writes about a change of what pointers name; writes nothing about another change.
pub fn put_value_mend(page: &mut ScriptPage<'_>, mend: Mend<'_>) {
    match mend {
        Mend::GivenAway { line, name } => page.page.write(format_args!(
            "since line {line} two pointers name one cell: set `{name}` to null right after it, with `null {name}`"
        )),
        Mend::Released { line, name } => page.page.write(format_args!(
            "`{name}` still names what line {line} released: set it to null right after that, with `null {name}`"
        )),
        Mend::OldValue { line, name } => page.page.write(format_args!(
            "line {line} left, so `{name}` kept its old value: set it to null before that, with `null {name}`"
        )),
        Mend::Destroyed {
            destroy,
            verb,
            field,
        } => page.page.write(format_args!(
            "the `destroy` of line {destroy} leaves `{field}`: put `{verb} self.{field}` there"
        )),
        Mend::FreedAtReturn { before, verb, name } => put_at_return(page, before, verb, name),
        Mend::FreedFirst { line, verb, name } => page.page.write(format_args!(
            "line {line} gave `{name}` another value while it named a live cell: put `{verb} {name}` and `null {name}` before that"
        )),
        Mend::Room {
            line,
            failed,
            used,
            room,
            had,
        } => put_room(page, line, failed, used, room, had),
        Mend::StoredBack {
            stored,
            after,
            owner,
            field,
            index,
            number,
        } => put_stored_back(page, stored, after, owner, field, index, number),
        _ => put_fresh(page, mend),
    }
}

fn put_at_return(page: &mut ScriptPage<'_>, before: u32, verb: &str, name: &str) {
    page.page.write(format_args!(
        "`{name}` still named a cell when line {before} returned: put `{verb} {name}` before that"
    ));
}

fn put_stored_back(
    page: &mut ScriptPage<'_>,
    stored: u32,
    after: u32,
    owner: &str,
    field: &str,
    index: &str,
    number: i32,
) {
    let name = page.word(after, 1);
    page.page.write(format_args!(
        "what line {stored} stored still stood when line {after} made `{name}` null: put `store {owner}.{field} {index} {number}` right after that"
    ));
}

/// Writes about a text or a cell that is too short.
fn put_room(page: &mut ScriptPage<'_>, line: u32, failed: u32, used: u32, room: u32, had: u32) {
    let (verb, name) = (page.word(line, 0), page.word(line, 1));
    let what = match verb {
        "alloc" | "allocl" => "bytes",
        _ => "units",
    };
    let fits = what_fits(page.word(used, 0));
    page.page.write(format_args!(
        "line {failed} failed, and line {used} then needs room for {room} {what}, where line {line} gives only {had}: "
    ));
    page.page.write(format_args!(
        "let line {used} {fits} (not tried), or let line {line} be `{verb} {name} {room}`"
    ));
}

/// What a line with this first word may do with the room that there is.
fn what_fits(word: &str) -> &'static str {
    match word {
        "store" | "load" => "use only the words that there are",
        "append" | "insert" => "add no more than `getmax` gives less what `getlen` gives",
        _ => "make the text no longer than `getmax` gives",
    }
}

/// Writes about a cell that a new pointer gets first; writes nothing about another change.
fn put_fresh(page: &mut ScriptPage<'_>, mend: Mend<'_>) {
    match mend {
        Mend::MadeFirst {
            make,
            before,
            name,
            ..
        } => {
            let (verb, what) = (page.word(make, 0), page.word(make, 2));
            page.page.write(format_args!(
                "line {make} left when line {before} was done: let a new pointer get the cell before line {before} (`{verb} {FRESH} {what}`), "
            ));
            page.page.write(format_args!("and let line {make} be `set {name} {FRESH}`"));
        }
        Mend::SetLater {
            make,
            failed,
            after,
            push,
            name,
            ..
        } => {
            page.page
                .write(format_args!("line {make} gave `{name}` a cell before "));
            put_left(page, failed);
            put_set_later(page, make, after, push, name);
        }
        _ => {}
    }
}

fn put_set_later(page: &mut ScriptPage<'_>, make: u32, after: u32, push: &str, name: &str) {
    let (verb, what) = (page.word(make, 0), page.word(make, 2));
    page.page.write(format_args!(
        ": let a new pointer get it first (`{verb} {FRESH} {what}`, `{push} {FRESH}`), "
    ));
    page.page.write(format_args!(
        "and `{name}` only after line {after} (`pop 1`, `set {name} {FRESH}`)"
    ));
    let lines = page.lines;
    for line in make.saturating_add(1)..=after {
        if lines.line(line).split_whitespace().any(|word| word == name) {
            return page
                .page
                .write(format_args!("; until then write `{FRESH}` for `{name}`"));
        }
    }
}
