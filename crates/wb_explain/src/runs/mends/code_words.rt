//! What is said about a change by which a code or a null pointer is looked at, or by which a line leaves where it gives null; or about one that
//! gives a body a new pointer or a new int.

use crate::runs::mends::edits::Mend;
use crate::runs::mends::line_changes::LineChange;
use crate::runs::mends::line_texts::leaving_word;
use crate::runs::mends::texts::FRESH;
use crate::runs::script_page::ScriptPage;

/// Writes about such a change; writes nothing about another one.
pub fn put_code_change(page: &mut ScriptPage<'_>, change: LineChange<'_>) {
    match change {
        LineChange::OwnCode {
            trap,
            other,
            name,
            ..
        } => page.page.write(format_args!(
            "line {trap} caught a leave, and the `trap` of line {other} gave `{name}` another code before that was dealt with: let line {other} set an int of its own (`int {FRESH}`, `trap {FRESH}`)"
        )),
        LineChange::AnyCode { trap, test, name } => {
            let code = page.word(test, 3);
            page.page.write(format_args!(
                "line {trap} caught a leave with another code, and line {test} looks for {code} alone: let it look for any error, with `if less {name} 0`"
            ));
        }
        LineChange::NeverSet { line, name } => page.page.write(format_args!(
            "`{name}` is still null at line {line}, since no line that was to set it came to an end: put `leaveifnull {name}` before that"
        )),
        LineChange::AsksLeaving { line } => {
            let (name, word) = (page.word(line, 1), leaving_word(page.word(line, 0)));
            page.page.write(format_args!(
                "line {line} gave `{name}` null, and the run went on: where nothing can take its place, let line {line} be `{word}`, which leaves then"
            ));
        }
        LineChange::ReallocKept { line, name, .. } => put_realloc_kept(page, line, name),
        LineChange::ViewCopied {
            declared,
            made,
            units,
        } => put_view_copied(page, declared, made, units),
        LineChange::MadePushed {
            make,
            before,
            push,
            name,
            ..
        } => put_made_pushed(page, make, before, push, name),
        _ => {}
    }
}

fn put_view_copied(page: &mut ScriptPage<'_>, declared: u32, made: u32, units: u32) {
    let (name, verb) = (page.word(declared, 1), page.word(made, 0));
    page.page.write(format_args!(
        "`{name}` shows a text that is gone when it is used: let it be a buffer (`buf {name} {units}`) that gets a copy of what line {made} shows (`view {FRESH}`, `{verb} {FRESH} ..`, `copy {name} {FRESH}`)"
    ));
}

fn put_realloc_kept(page: &mut ScriptPage<'_>, line: u32, name: &str) {
    let (verb, room) = (page.word(line, 0), page.word(line, 3));
    page.page.write(format_args!(
        "the `{verb}` of line {line} gave null, and no pointer named the old cell any more: let a new pointer get the answer (`{verb} {FRESH} {name} {room}`), "
    ));
    page.page.write(format_args!(
        "free the old cell where that is null (`if null {FRESH}`, `free {name}`, `end`), and then `set {name} {FRESH}`"
    ));
}

fn put_made_pushed(page: &mut ScriptPage<'_>, make: u32, before: u32, push: &str, name: &str) {
    let (verb, what) = (page.word(make, 0), page.word(make, 2));
    page.page.write(format_args!(
        "line {make} left when line {before} was done: let a new pointer get the cell before line {before} (`{verb} {FRESH} {what}`, `{push} {FRESH}`), "
    ));
    page.page.write(format_args!("and let line {make} be `pop 1` and `set {name} {FRESH}`"));
}

/// Writes about a change that is about a null pointer; writes nothing about another change.
pub fn put_null_mend(page: &mut ScriptPage<'_>, mend: Mend<'_>) {
    match mend {
        Mend::Leaving { line } => {
            let name = page.word(line, 2);
            page.page.write(format_args!(
                "the `realloc` of line {line} gave null, and no pointer named the old cell any more: let line {line} be `reallocl`, which leaves then and keeps `{name}`"
            ));
        }
        Mend::NullLeaves { line, name } => page.page.write(format_args!(
            "line {line} may give `{name}` null: look at it with `if some {name}` (not tried), or put `leaveifnull {name}` right after it"
        )),
        Mend::Checked { line, name } => page.page.write(format_args!(
            "line {line} also runs where `{name}` is null: let it stand between `if some {name}` and `end`"
        )),
        _ => {}
    }
}
