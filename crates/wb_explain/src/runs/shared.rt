//! A cell that fields of two objects name, because a line copied the pointer of one object's field to a field of the other.

use crate::runs::pointers::frees;
use crate::runs::script_page::ScriptPage;
use wb_heap_model::heap::{Kind, Ptr};
use wb_history::{BodyKind, Ended, PointerFault, PointerState, PointerWrite, WatchedRun};

/// A cell that two objects own.
#[derive(Clone, Copy)]
pub struct SharedCell {
    /// The line that copied the pointer.
    copy: u32,
    /// The lines that made the object that got the pointer, and the other object; each is 0 if it isn't known.
    made: u32,
    other: u32,
    kind: Kind,
}

/// Returns the cell that a line was to free by a field, if a destructor had freed it by a field of another object; `None` if there is no
/// such cell, or if no line copied its pointer.
pub fn shared_cell(
    page: &ScriptPage<'_>,
    run: &WatchedRun<'_>,
    fault: PointerFault,
    ended: Ended,
) -> Option<SharedCell> {
    let PointerState::Gone(Some(life)) = fault.state else {
        return None;
    };
    let own = fault.write?;
    let copied = run.history.writes.newest_of_field(life.pointer)?;
    let is_own = copied.owner == own.owner;
    let is_in_destructor = run.history.bodies.body_of(ended.at.number()).kind
        == BodyKind::Destructor;
    if own.owner.number == 0
        || !is_in_destructor
        || !frees(run, fault)
        || is_own && copied.index != own.index
        || !is_copy(page, copied, run)
    {
        return None;
    }
    Some(SharedCell {
        copy: copied.line,
        made: made_at(run, copied.owner),
        other: if is_own { 0 } else { made_at(run, own.owner) },
        kind: life.kind,
    })
}

/// Whether a write copied the pointer of a live cell from another object or from a local, and no line wrote the field later.
fn is_copy(page: &ScriptPage<'_>, copied: PointerWrite, run: &WatchedRun<'_>) -> bool {
    let line = copied.line;
    let is_last = match run.history.writes.newest_of(&copied) {
        Some(last) => last.line == line,
        None => false,
    };
    let (target, source) = (page.word(line, 1), page.word(line, 2));
    is_last
        && !copied.was_dead
        && page.word(line, 0) == "set"
        && object_of(target) != object_of(source)
}

/// Returns the part of an operand before its dot; all of it if it has none.
pub fn object_of(word: &str) -> &str {
    word.split('.').next().unwrap_or(word)
}

/// Returns the part of an operand after its dot; `None` if it has none.
pub fn field_of(word: &str) -> Option<&str> {
    word.split('.').nth(1)
}

/// The line that made an object; 0 if it isn't known.
fn made_at(run: &WatchedRun<'_>, object: Ptr) -> u32 {
    match run.history.lives.find(object) {
        Some(life) => life.made.number(),
        None => 0,
    }
}

/// Says what to do about a cell that two objects own.
pub fn put_cure_of_shared(page: &mut ScriptPage<'_>, shared: SharedCell) {
    let SharedCell {
        copy,
        made,
        other,
        kind,
    } = shared;
    let (target, source) = (page.word(copy, 1), page.word(copy, 2));
    let (this, what) = match kind {
        Kind::Text => ("this text", "a text"),
        Kind::Object(_) => ("this object", "an object"),
        Kind::Raw | Kind::Cleanup => ("this cell", "a cell"),
    };
    page.begin_cause();
    if made != 0 && other != 0 {
        page.page.write(format_args!("the objects of lines {made} and {other} both own"));
    } else {
        page.page.write_text("two objects both own");
    }
    page.page.write(format_args!(
        " {this}, since line {copy} copied the pointer of `{source}` to `{target}`: give `{target}` {what} of its own and leave it null until then; or, if `{source}` is to give it away, set that to null right after line {copy}"
    ));
    page.page.end_line();
}
