//! What is said about a change by which lines run only where something is so, come before what releases what they use, or are left out since
//! an item has done the same; or by which a pointer keeps its cell where a call returns null.

use crate::runs::mends::code_words::put_code_change;
use crate::runs::mends::line_changes::LineChange;
use crate::runs::mends::texts::FRESH;
use crate::runs::script_page::ScriptPage;

/// Writes about such a change; writes nothing about another one.
pub fn put_guard(page: &mut ScriptPage<'_>, change: LineChange<'_>) {
    match change {
        LineChange::OnlyIfFine {
            trap,
            first,
            last,
            name,
        } => put_only_if_fine(page, trap, first, last, name),
        LineChange::UsedFirst { line, before } => page.page.write(format_args!(
            "line {before} releases what line {line} uses: let line {line} come right before line {before}"
        )),
        LineChange::Returns { line, name, call } => {
            let target = page.word(call, 1);
            page.page.write(format_args!(
                "line {line} returned null, and line {call} gave it to `{target}`, which named a live cell: let line {line} be `return {name}`"
            ));
        }
        LineChange::KeptIfNull { call, .. } => put_kept_if_null(page, call),
        LineChange::DoneByItem {
            first,
            last,
            pushed,
        } => {
            if pushed == 0 {
                page.page.write_text(
                    "the leave came before what is undone after the TRAP was done: leave out ",
                );
            } else {
                let operation = page.word(pushed, 2);
                page.page.write(format_args!(
                    "the leave ran `{operation}`, the operation of the item that line {pushed} pushed, which did the same: leave out "
                ));
            }
            put_lines(page, first, last);
        }
        LineChange::LeavesLater { line, after } => page.page.write(format_args!(
            "line {line} left before line {after} was done: let line {line} come right after line {after}"
        )),
        LineChange::CopyLeftOut { line, later } => {
            let name = page.word(line, 1);
            page.page.write(format_args!(
                "line {line} gives `{name}` a cell that something else owns, and line {later} gives it another one anyway: leave out line {line}"
            ));
        }
        LineChange::AliasNull {
            freed,
            owner,
            field,
        } => page.page.write(format_args!(
            "`{owner}.{field}` still names what line {freed} released: set it to null right after that, with `null {owner}.{field}`"
        )),
        _ => put_item_change(page, change),
    }
}

/// Writes about a change of a line that pushes, pops, releases or makes something; or about another change.
fn put_item_change(page: &mut ScriptPage<'_>, change: LineChange<'_>) {
    match change {
        LineChange::PopCount { line, count } => put_pop_count(page, line, count),
        LineChange::TakenOver {
            push,
            before,
            release,
        } => {
            let name = page.word(release, 1);
            page.page.write(format_args!(
                "some leaves destroy what `{name}` names with the item of line {push}, and others come before that: let line {push} come before line {before}, so that each leave does, and leave out line {release}"
            ));
        }
        LineChange::GivenBack { lent, push, pop } => {
            let (local, field) = (page.word(lent, 1), page.word(lent, 2));
            page.page.write(format_args!(
                "line {push} pushes the cell that `{field}` still owns, and that line {lent} gave to `{local}`: put `null {field}` after line {lent}, and `set {field} {local}` after line {pop}"
            ));
        }
        LineChange::CountReset { load, before } => {
            let (cell, index) = (page.word(load, 2), page.word(load, 3));
            page.page.write(format_args!(
                "line {load} goes on with the number that an earlier try left there: put `store {cell} {index} 0` before line {before}"
            ));
        }
        LineChange::PushedAfter { push, head, end } => page.page.write(format_args!(
            "line {head} passes over the push of line {push}: let line {push} come right after line {end}"
        )),
        LineChange::MovedOut { line, head, end } => {
            let words = page.line(line);
            page.page.write(format_args!(
                "line {head} passed over the `{words}` of line {line}: let line {line} come right after line {end}"
            ));
        }
        LineChange::Remade {
            make,
            construct,
            name,
        } => {
            let words = page.line(make);
            page.page.write(format_args!(
                "line {construct} constructs the object of `{name}` a second time, where a part of it was made: put `popdestroy 1`, `{words}` and `pushobj {name}` before that"
            ));
        }
        _ => put_code_change(page, change),
    }
}

fn put_pop_count(page: &mut ScriptPage<'_>, line: u32, count: u32) {
    let (word, had) = (page.word(line, 0), page.word(line, 1));
    if count == 0 {
        return page.page.write(format_args!(
            "line {line} takes off an item that a later line takes off as well: leave out line {line}"
        ));
    }
    let items = if had == "1" { "item" } else { "items" };
    if had.parse::<u32>().is_ok_and(|had| count < had) {
        return page.page.write(format_args!(
            "line {line} takes off {had} {items}, more than there are on this way: let it be `{word} {count}`"
        ));
    }
    page.page.write(format_args!(
        "line {line} takes off {had} {items}, and on its way there were others: let it be `{word} {count}`"
    ));
}

fn put_only_if_fine(page: &mut ScriptPage<'_>, trap: u32, first: u32, last: u32, name: &str) {
    page.page.write(format_args!(
        "line {trap} caught a leave, and no line looks at `{name}`: let "
    ));
    put_lines(page, first, last);
    page.page
        .write(format_args!(" stand between `if eq {name} 0` and `end`"));
}

fn put_kept_if_null(page: &mut ScriptPage<'_>, call: u32) {
    let (name, procedure) = (page.word(call, 1), page.word(call, 2));
    page.page.write(format_args!(
        "line {call} gave `{name}`, which named a live cell, the null that `{procedure}` returned: let a new pointer get it (`callto {FRESH} {procedure} ..`), "
    ));
    page.page.write(format_args!(
        "and `{name}` only if it isn't null (`if some {FRESH}`, `set {name} {FRESH}`, `end`)"
    ));
}

fn put_lines(page: &mut ScriptPage<'_>, first: u32, last: u32) {
    if first == last {
        page.page.write(format_args!("line {first}"));
    } else {
        page.page.write(format_args!("lines {first} to {last}"));
    }
}
