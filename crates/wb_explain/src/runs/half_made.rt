//! An object that a field named before its second phase had ended. If that phase left, the field names an object of which only a part was
//! made.

use crate::runs::script_page::{ScriptPage, Written};
use wb_history::{BodyKind, Leave, PointerState, WatchedRun};
use wb_tree::script::Pointer;

/// The most leaves of a run that are looked at.
const MOST_LEAVES: u32 = 32;

/// An object whose second phase left when a field already named it.
#[derive(Clone, Copy)]
pub struct HalfMade {
    /// The line that gave the field the object, the line that ran the second phase, and the line at which this phase left.
    given: u32,
    ran: u32,
    left: u32,
}

/// Returns the object whose field a panic is about, if the field is null because the object's second phase left; `None` if the field is null
/// for another reason, or if no field named the object before that phase.
pub fn half_made(page: &ScriptPage<'_>, line: u32, run: &WatchedRun<'_>) -> Option<HalfMade> {
    let fault = run.end.pointer?;
    let Some(Pointer::Field(_, class, _)) = fault.pointer else {
        return None;
    };
    let is_new = fault.state == PointerState::Null && fault.write.is_none();
    if !is_new || run.history.bodies.undoes(line) {
        return None;
    }
    let (mut half, mut from) = (None, 0u32);
    for _ in 0..MOST_LEAVES {
        let Some(leave) = run.history.traps.leave_between(from, u32::MAX) else {
            break;
        };
        half = half_made_by(page, leave, page.lines.class_name(class), run).or(half);
        from = leave.at.step.saturating_add(1);
    }
    half
}

/// The object of this class whose second phase a leave left; `None` if there is none, or if no field named it.
fn half_made_by(
    page: &ScriptPage<'_>,
    leave: Leave,
    class: &str,
    run: &WatchedRun<'_>,
) -> Option<HalfMade> {
    let Ok(lines) = run.history.calls.lines_of(leave.at.path) else {
        return None;
    };
    let (mut half, mut ran) = (None, 0u32);
    for at in lines.as_slice() {
        let body = run.history.bodies.body_of(*at);
        let is_phase = body.kind == BodyKind::Construct && page.word(body.line, 1) == class;
        if is_phase && page.word(ran, 0) == "construct" {
            half = Some(HalfMade {
                given: given_before(page, ran, run),
                ran,
                left: *at,
            });
        }
        ran = *at;
    }
    match half {
        Some(it) if it.given != 0 => Some(it),
        _ => None,
    }
}

/// The last line above the line `ran`, in the same body, that gave a field the object whose second phase the line `ran` runs; 0 if there is
/// none.
fn given_before(page: &ScriptPage<'_>, ran: u32, run: &WatchedRun<'_>) -> u32 {
    let bodies = &run.history.bodies;
    let (body, name) = (bodies.body_of(ran), page.word(ran, 1));
    let mut given = 0;
    for at in body.line..ran {
        let target = page.word(at, 1);
        let gives = match page.word(at, 0) {
            "new" | "newleave" => target == name,
            "set" => target == name || page.word(at, 2) == name,
            _ => false,
        };
        if gives && target.contains('.') && bodies.body_of(at) == body {
            given = at;
        }
    }
    given
}

/// Says since when the field that a panic is about is null, if its object's second phase left.
pub fn put_since(page: &mut ScriptPage<'_>, line: u32, run: &WatchedRun<'_>) {
    if let Some(HalfMade { left, .. }) = half_made(page, line, run) {
        page.page.write(format_args!(
            ", since the second phase of this object left at line {left}"
        ));
    }
}

/// Says which line ran an object's second phase, and which line had given a field the object before that.
pub fn put_half_made(page: &mut ScriptPage<'_>, line: u32, run: &WatchedRun<'_>) -> Written {
    let Some(HalfMade { given, ran, left }) = half_made(page, line, run) else {
        return Ok(());
    };
    page.mark_new(
        ran,
        0,
        format_args!("its second phase was begun here, and left at line {left}"),
    )?;
    let name = page.word(given, 1);
    page.mark_new(
        given,
        1,
        format_args!("`{name}` got the object here, before its second phase"),
    )
}

/// Says what to do about an object whose second phase left when a field already named it.
pub fn put_cure_of_half(page: &mut ScriptPage<'_>, half: HalfMade) {
    let HalfMade { given, ran, left } = half;
    let name = page.word(given, 1);
    page.page.write_help(format_args!(
        "set `{name}` only after the `construct` of line {ran} has ended: until then keep the object in a local pointer, pushed, since line {left} may leave"
    ));
}
