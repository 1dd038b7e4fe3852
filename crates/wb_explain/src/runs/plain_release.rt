//! What to do about a cell that a field of an object named, if the object was freed as a plain cell.

use crate::runs::script_page::ScriptPage;
use crate::runs::shared::field_of;
use wb_heap_model::heap::Kind;
use wb_history::{By, Ended, Life};

/// Says what to do about a cell that the field `name` of an object named when the object was freed as a plain cell.
pub fn put_cure_of_plain(
    page: &mut ScriptPage<'_>,
    owner: Life,
    ended: Ended,
    name: &str,
    kind: Kind,
) {
    let (line, class) = (ended.at.number(), class_name(page, owner));
    if has_destructor(page, class) {
        let cure = instead_of_plain(ended.by);
        return page.write_cause(format_args!(
            "line {line} freed the object that owned it as a plain cell, so its destructor didn't run: {cure}"
        ));
    }
    let (field, release) = (field_of(name).unwrap_or(name), release_word(kind));
    page.begin_cause();
    page.page.write(format_args!(
        "line {line} freed the object whose field `{field}` still named it, and `{class}` has no `destroy`: "
    ));
    match ended.by {
        By::Line => page.page.write(format_args!(
            "{release} what `{field}` names before line {line}; or let a `destroy` of `{class}` {release} that, and line {line} `delete` the object"
        )),
        By::PopDestroy | By::Leave => page.page.write(format_args!(
            "let a `destroy` of `{class}` {release} what `{field}` names, and push the object with `pushobj`"
        )),
    }
    page.page.end_line();
}

/// The word of the line that releases a cell of this kind.
fn release_word(kind: Kind) -> &'static str {
    match kind {
        Kind::Object(_) => "delete",
        Kind::Raw | Kind::Text | Kind::Cleanup => "free",
    }
}

/// Says what to do about a cell that the field `name` of an object named when the line `line` deleted the object.
pub fn put_cure_of_deleted(
    page: &mut ScriptPage<'_>,
    owner: Life,
    line: u32,
    name: &str,
    kind: Kind,
) {
    let (class, field, release) = (
        class_name(page, owner),
        field_of(name).unwrap_or(name),
        release_word(kind),
    );
    if has_destructor(page, class) {
        return page.write_cause(format_args!(
            "the object that owned it was deleted at line {line}: let the `destroy` of `{class}` {release} the field `{field}`"
        ));
    }
    page.write_cause(format_args!(
        "line {line} deleted the object whose field `{field}` still named it, and `{class}` has no `destroy`: {release} what `{field}` names before line {line}; or let a `destroy` of `{class}` {release} it, and no other line"
    ));
}

/// What to do instead of freeing an object as a plain cell. `by` says what freed the object.
fn instead_of_plain(by: By) -> &'static str {
    match by {
        By::Line => "release an object with `delete`",
        By::PopDestroy | By::Leave => "push an object with `pushobj`",
    }
}

/// Returns the name of an object's class.
pub fn class_name<'a>(page: &ScriptPage<'a>, object: Life) -> &'a str {
    match object.kind {
        Kind::Object(class) => page.lines.class_name(class),
        Kind::Raw | Kind::Text | Kind::Cleanup => "",
    }
}

/// Whether the class `name` has a destructor.
fn has_destructor(page: &ScriptPage<'_>, name: &str) -> bool {
    let mut is_inside = false;
    for line in 1..=page.lines.count() {
        match page.word(line, 0) {
            "class" => is_inside = page.word(line, 1) == name,
            "proc" | "op" => is_inside = false,
            "destroy" if is_inside => return true,
            _ => {}
        }
    }
    false
}
