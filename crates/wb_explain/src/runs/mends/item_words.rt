//! What is said about a change of items of the cleanup stack, or of a line that does what an item does.

use crate::runs::mends::edits::Mend;
use crate::runs::mends::words::put_left;
use crate::runs::script_page::ScriptPage;

/// Writes about a change of items; writes nothing about another change.
pub fn put_item_mend(page: &mut ScriptPage<'_>, mend: Mend<'_>) {
    match mend {
        Mend::Item {
            first,
            last,
            push,
            name,
        } => put_item(page, first, last, push, name),
        Mend::Pop { after } => page.page.write(format_args!(
            "the call of line {after} leaves an item that no later line expects: pop it right after that line, with `pop 1`"
        )),
        Mend::NullItem { before, name } => page.page.write(format_args!(
            "a later line pops an item that was never pushed: put `push {name}` before line {before}, since an item of null does nothing"
        )),
        Mend::WithoutItem { push, pop } => page.page.write(format_args!(
            "the item that line {push} pushes is one too many: leave out line {push}, and line {pop}, which pops it"
        )),
        Mend::OneItemLess { before, verb } => put_one_less(page, before, verb),
        Mend::Needless { line, left } => put_needless(page, line, left),
        Mend::PushedBefore {
            from,
            to,
            before,
            user,
            one,
            other,
        } => {
            put_order(page, from, to, before, user);
            if one != 0 {
                page.page.write(format_args!(", and let lines {one} and {other} change places"));
            }
        }
        Mend::PushedOnce { push, line, count } => put_pushed_once(page, push, line, count),
        Mend::LeftOut { line, pushed, used } => put_left_out(page, line, pushed, used),
        _ => put_split(page, mend),
    }
}

fn put_one_less(page: &mut ScriptPage<'_>, before: u32, verb: &str) {
    let does = match verb {
        "pop" => "pop",
        _ => "destroy",
    };
    page.page.write(format_args!(
        "an item too many stays on the cleanup stack: {does} it before line {before}, with `{verb} 1`"
    ));
}

fn put_needless(page: &mut ScriptPage<'_>, line: u32, left: u32) {
    let name = page.word(line, 1);
    page.page.write(format_args!(
        "the item of what `{name}` names did the same for the leave of line {left}: leave out line {line}"
    ));
}

fn put_item(page: &mut ScriptPage<'_>, first: u32, last: u32, push: &str, name: &str) {
    page.page
        .write(format_args!("no item held the cell of `{name}` when "));
    put_left(page, first);
    page.page.write(format_args!(": put `{push} {name}` before that, and `pop 1` after "));
    if first == last {
        page.page.write_text("it");
    } else {
        page.page.write(format_args!("line {last}"));
    }
}

/// Writes about a line that pops several items; writes nothing about another change.
fn put_split(page: &mut ScriptPage<'_>, mend: Mend<'_>) {
    match mend {
        Mend::PopLater {
            line,
            here,
            later,
            failed,
            after,
        } => {
            let count = here.saturating_add(later);
            page.page
                .write(format_args!("line {line} popped {count} items before "));
            put_left(page, failed);
            page.page.write(format_args!(
                ": let line {line} be `pop {here}`, and put `pop {later}` after line {after}"
            ));
        }
        Mend::PopEarlier {
            line,
            before,
            here,
            failed,
        } => {
            page.page
                .write(format_args!("line {line} hadn't come when "));
            put_left(page, failed);
            page.page.write(format_args!(
                ": put `pop {before}` before that, and let line {line} be `pop {here}`"
            ));
        }
        _ => {}
    }
}

fn put_order(page: &mut ScriptPage<'_>, from: u32, to: u32, before: u32, user: u32) {
    page.page.write(format_args!(
        "a leave destroys the newest item first, and the destruction of the item of line {user} uses what line {to} pushed later: let "
    ));
    if from == to {
        page.page
            .write(format_args!("line {to} come before line {before}"));
    } else {
        page.page.write(format_args!("lines {from} to {to} come before line {before}"));
    }
}

fn put_pushed_once(page: &mut ScriptPage<'_>, push: u32, line: u32, count: u32) {
    let (name, word) = (page.word(push, 1), page.word(line, 0));
    page.page.write(format_args!(
        "line {push} pushes the cell of `{name}`, which something else destroys as well: leave out line {push}, and "
    ));
    if count == 0 {
        page.page.write(format_args!("line {line}"));
    } else {
        page.page
            .write(format_args!("let line {line} be `{word} {count}`"));
    }
}

fn put_left_out(page: &mut ScriptPage<'_>, line: u32, pushed: u32, used: u32) {
    let does = match page.word(line, 0) {
        "delete" => "deletes",
        _ => "frees",
    };
    if pushed != 0 {
        return page.page.write(format_args!(
            "line {line} {does} what the item of line {pushed} still holds: leave out line {line}, since the item does the same"
        ));
    }
    page.page.write(format_args!(
        "line {line} {does} what line {used} still uses: leave out line {line}"
    ));
}
