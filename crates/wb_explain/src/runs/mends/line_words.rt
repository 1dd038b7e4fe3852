//! What is said about a change by which lines have come to other places, come once more, or are left out.

use crate::runs::mends::guard_words::put_guard;
use crate::runs::mends::line_changes::LineChange;
use crate::runs::mends::looks::tested_by;
use crate::runs::script_page::ScriptPage;

/// Returns whether what is said about a change also says how it came to what was found.
pub fn says_cause_of_line(change: LineChange<'_>) -> bool {
    match change {
        LineChange::Released { .. }
        | LineChange::AllReleased { .. }
        | LineChange::TakenOut { .. }
        | LineChange::MovedOut { .. }
        | LineChange::GivenBack { .. }
        | LineChange::AliasNull { .. } => true,
        _ => false,
    }
}

/// Writes about a change of lines.
pub fn put_line_change(page: &mut ScriptPage<'_>, change: LineChange<'_>) {
    match change {
        LineChange::Released {
            release,
            before,
            name,
        } => put_released(page, release, before, name),
        LineChange::AllReleased {
            first,
            last,
            before,
        } => page.page.write(format_args!(
            "line {before} ends the body before lines {first} to {last} release what it has: put these before line {before} too"
        )),
        LineChange::FreedForNull { first, last } => {
            let (name, other) = (page.word(first, 1), page.word(last, 1));
            page.page.write(format_args!(
                "where one of lines {first} to {last} leaves, what the others look at may be there: put `if null {name}`, `free {other}`, `end` before line {first}, and the like before each of them"
            ));
        }
        LineChange::Popped { pop, before } => {
            let words = page.line(pop);
            page.page.write(format_args!(
                "line {before} returned before the `{words}` of line {pop}: put `{words}` before line {before} too"
            ));
        }
        LineChange::Sooner { line, before } => page.page.write(format_args!(
            "line {before} was done before line {line} left: let line {line} come right before line {before}"
        )),
        LineChange::OtherTest { test, asked } => put_other_test(page, test, asked),
        LineChange::ReleasedOnce { line, freed } => page.page.write(format_args!(
            "line {freed} had released what line {line} releases: leave out line {line}"
        )),
        _ => put_items(page, change),
    }
}

fn put_released(page: &mut ScriptPage<'_>, release: u32, before: u32, name: &str) {
    let (words, ends) = (page.line(release), page.word(before, 0));
    match ends {
        "return" | "leave" => page.page.write(format_args!(
            "`{name}` went out of scope at the `{ends}` of line {before}, before the `{words}` of line {release}: "
        )),
        _ => page.page.write(format_args!(
            "`{name}` went out of scope on a way that passes over the `{words}` of line {release}: "
        )),
    }
    page.page
        .write(format_args!("put `{words}` before line {before} too"));
}

fn put_other_test(page: &mut ScriptPage<'_>, test: u32, asked: u32) {
    let (tested, name) = (tested_by(page.lines, test), page.word(asked, 1));
    page.page.write(format_args!("line {test} tests `{tested}`, but line {asked} "));
    if page.word(asked, 0) == "callto" {
        page.page.write(format_args!("gave `{name}` its value"));
    } else {
        page.page.write(format_args!("asked for `{name}`"));
    }
    page.page
        .write(format_args!(": let line {test} test `{name}`"));
}

/// Writes about a change of items, or of a cell that gets one, or about another change.
fn put_items(page: &mut ScriptPage<'_>, change: LineChange<'_>) {
    match change {
        LineChange::PushedAlways { push, head, pop } => {
            if pop != 0 {
                page.page
                    .write(format_args!("line {pop} takes off an item even where "));
            }
            page.page.write(format_args!(
                "line {head} passes over the push of line {push}: let line {push} come right before line {head}, since an item of null does nothing"
            ));
        }
        LineChange::PoppedInside { pop, head, end } => {
            let name = page.word(head, 2);
            page.page.write(format_args!(
                "line {pop} takes off an item even where `{name}` is null: let it come into the `if` of line {head}, before line {end}"
            ));
        }
        LineChange::TakenOut {
            lent,
            last,
            push,
            call,
            freed,
        } => put_taken_out(page, lent, last, push, call, freed),
        _ => put_guard(page, change),
    }
}

fn put_taken_out(
    page: &mut ScriptPage<'_>,
    lent: u32,
    last: u32,
    push: &str,
    call: u32,
    freed: u32,
) {
    let (local, field) = (page.word(lent, 1), page.word(lent, 2));
    if call == freed {
        page.page.write(format_args!("line {freed} freed "));
    } else {
        page.page.write(format_args!("the call of line {call} freed, at line {freed}, "));
    }
    page.page.write(format_args!(
        "the cell that `{field}` had lent to `{local}`: take it out of the field while `{local}` is used, "
    ));
    page.page.write(format_args!(
        "with `null {field}` and `{push} {local}` after line {lent}, and `pop 1` and `set {field} {local}` after line {last}"
    ));
}
