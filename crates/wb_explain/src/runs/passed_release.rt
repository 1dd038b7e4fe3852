//! A line of a destructor that was to free the cell of a field, and that an `if` passed over when the destructor ran.

use crate::runs::heads::{Head, head_around};
use crate::runs::plain_release::class_name;
use crate::runs::script_page::{ScriptPage, Written};
use crate::runs::shared::field_of;
use crate::runs::stored::loads_for;
use wb_history::{Life, WatchedRun, WordUse};

/// A line that was passed over.
#[derive(Clone, Copy)]
pub struct PassedRelease<'a> {
    /// The class of the destructor.
    class: &'a str,
    /// The line that releases the field, and the `if` that passed over it.
    release: u32,
    head: u32,
    /// The load of the number by which the `if` goes; `None` if it goes by none that was loaded from a cell of the object.
    load: Option<WordUse>,
}

/// Returns the line that was passed over when the owner of a cell was deleted; `None` if there is none, or if it stands behind an `else`.
pub fn passed_release<'a>(
    page: &ScriptPage<'a>,
    owner: Life,
    life: Life,
    run: &WatchedRun<'_>,
) -> Option<PassedRelease<'a>> {
    let (class, field) = (
        class_name(page, owner),
        field_of(page.word(life.held?.line.number(), 1))?,
    );
    let release = release_in(page, class, field)?;
    let Head {
        line: head,
        is_else: false,
    } = head_around(page, release)?
    else {
        return None;
    };
    if page.word(head, 0) != "if" {
        return None;
    }
    Some(PassedRelease {
        class,
        release,
        head,
        load: load_of_object(page, head, owner, run),
    })
}

/// The line of the destructor of a class that releases a field; `None` if there is none.
fn release_in(page: &ScriptPage<'_>, class: &str, field: &str) -> Option<u32> {
    let (mut is_class, mut is_inside) = (false, false);
    for line in 1..=page.lines.count() {
        match page.word(line, 0) {
            "class" => (is_class, is_inside) = (page.word(line, 1) == class, false),
            "proc" | "op" => (is_class, is_inside) = (false, false),
            "destroy" => is_inside = is_class,
            "free" | "delete" if is_inside && field_of(page.word(line, 1)) == Some(field) => {
                return Some(line);
            }
            _ => {}
        }
    }
    None
}

/// The load of a number by which a line goes, from a cell that a field of this object names; `None` if there is none.
fn load_of_object(
    page: &ScriptPage<'_>,
    head: u32,
    owner: Life,
    run: &WatchedRun<'_>,
) -> Option<WordUse> {
    for load in loads_for(page, head, run) {
        if let Some(word) = load
            && let Some(cell) = run.history.lives.find(word.cell)
            && cell.held.is_some_and(|held| held.owner == owner.pointer)
        {
            return load;
        }
    }
    None
}

/// Shows the `if` that passed over a line, if there is one, and the line that loaded the number by which it goes.
pub fn put_passed(page: &mut ScriptPage<'_>, passed: Option<PassedRelease<'_>>) -> Written {
    let Some(
        PassedRelease {
            class,
            release,
            head,
            load,
        },
    ) = passed
    else {
        return Ok(());
    };
    let word = page.word(release, 0);
    page.tell_unordered();
    page.mark_new(
        head,
        0,
        format_args!(
            "`{class}` passed over its `{word}` of line {release}, since this didn't hold"
        ),
    )?;
    match load {
        Some(WordUse { line, number, .. }) => page.mark_new(
            line,
            0,
            format_args!("this loaded {number} for the `if` of line {head}"),
        ),
        None => Ok(()),
    }
}

/// Says what to do about a line that was passed over when the line `line` deleted the object.
pub fn put_cure_of_passed(page: &mut ScriptPage<'_>, passed: PassedRelease<'_>, line: u32) {
    let PassedRelease { release, head, .. } = passed;
    let word = page.word(release, 0);
    page.write_cause(format_args!(
        "the object that owned it was deleted at line {line}, and the destructor passed over its `{word}` of line {release}: what the `if` of line {head} goes by must be right before a line may leave"
    ));
}
