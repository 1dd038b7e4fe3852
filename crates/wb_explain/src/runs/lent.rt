//! A cell that a body lent: it gave the cell to a local or to its caller while a field kept it, and both were then freed.

use crate::runs::kept::name_of;
use crate::runs::led::led_to;
use crate::runs::script_page::{ScriptPage, Written};
use crate::runs::shared::field_of;
use wb_history::{By, End, Ended, PointerFault, WatchedRun};

/// The most lines by which a pointer is followed.
const MOST_LINES: u32 = 8;

/// A cell that a line gave away while a field kept it.
#[derive(Clone, Copy)]
pub struct Lent {
    /// The line that copied or returned the field, and its word that names the field.
    gave: u32,
    word: usize,
    /// The line that gave the local its value by which the cell was freed.
    got: u32,
    /// If the local only used what the field owns: the line that freed the cell, and the line of the local's body that led to it; else 0.
    freed: u32,
    led: u32,
}

/// Returns the line that gave away a cell which was then freed by a local and by a field; `None` if there is no such line.
pub fn lent_cell(
    page: &ScriptPage<'_>,
    line: u32,
    fault: PointerFault,
    ended: Ended,
    run: &WatchedRun<'_>,
) -> Option<Lent> {
    let freed = ended.at.number();
    let (used, other) = (name_of(page, line, fault), page.word(freed, 1));
    if ended.by != By::Line
        || ended.end == End::Moved
        || used.contains('.') == other.contains('.')
    {
        return None;
    }
    match (field_of(used), field_of(other)) {
        (Some(field), _) => given_from(page, other, freed, field, run),
        (None, Some(field)) => {
            let lent = given_from(page, used, line, field, run);
            with_line_that_freed(page, lent, freed, line, run)
        }
        (None, None) => None,
    }
}

/// Notes what freed the cell, if no line of the body gives it up by the local that uses it.
fn with_line_that_freed(
    page: &ScriptPage<'_>,
    lent: Option<Lent>,
    freed: u32,
    used: u32,
    run: &WatchedRun<'_>,
) -> Option<Lent> {
    match lent {
        Some(lent) if !gives_up(page, lent.got, run) => Some(Lent {
            freed,
            led: led_to(page, freed, used, run),
            ..lent
        }),
        _ => lent,
    }
}

/// Whether a line of a body releases, pushes, returns or stores what a local of the line `got` names.
fn gives_up(page: &ScriptPage<'_>, got: u32, run: &WatchedRun<'_>) -> bool {
    let (bodies, name) = (&run.history.bodies, page.word(got, 1));
    let body = bodies.body_of(got);
    for at in body.line..=page.lines.count() {
        let gives = match page.word(at, 0) {
            "free" | "delete" | "push" | "pushobj" | "pushop" | "return" => page.word(at, 1)
                == name,
            "set" | "realloc" | "reallocl" | "hrealloc" => page.word(at, 2) == name,
            _ => false,
        };
        if gives && bodies.body_of(at) == body {
            return true;
        }
    }
    false
}

/// The line that gave this field's cell to the local `name` of the line `at`, perhaps by way of other locals and of called bodies.
fn given_from(
    page: &ScriptPage<'_>,
    name: &str,
    at: u32,
    field: &str,
    run: &WatchedRun<'_>,
) -> Option<Lent> {
    let got = giver_above(page, name, at, run);
    let (mut line, mut word) = (got, 2);
    for _ in 0..MOST_LINES {
        if page.word(line, 0) == "callto" {
            (line, word) = (return_of(page, page.word(line, 2), field)?, 1);
        }
        let source = page.word(line, word);
        if field_of(source) == Some(field) {
            return Some(Lent {
                gave: line,
                word,
                got,
                freed: 0,
                led: 0,
            });
        }
        (line, word) = (giver_above(page, source, line, run), 2);
    }
    None
}

/// The last line above the line `at`, in the same body, that gives the local `name` the value of a pointer or the result of a call; 0 if there
/// is none.
fn giver_above(page: &ScriptPage<'_>, name: &str, at: u32, run: &WatchedRun<'_>) -> u32 {
    let bodies = &run.history.bodies;
    let body = bodies.body_of(at);
    let mut giver = 0;
    for above in body.line..at {
        let gives = matches!(page.word(above, 0), "set" | "callto") && page.word(above, 1) == name;
        if gives && bodies.body_of(above) == body {
            giver = above;
        }
    }
    giver
}

/// The line of a procedure that returns this field; if none does, the last line that returns a pointer; `None` if no line does.
fn return_of(page: &ScriptPage<'_>, procedure: &str, field: &str) -> Option<u32> {
    let (mut is_inside, mut last) = (false, None);
    for at in 1..=page.lines.count() {
        let word = page.word(at, 1);
        match page.word(at, 0) {
            "proc" => is_inside = word == procedure,
            "class" | "op" => is_inside = false,
            "return" if is_inside && field_of(word) == Some(field) => return Some(at),
            "return" if is_inside && !word.is_empty() => last = Some(at),
            _ => {}
        }
    }
    last
}

/// Shows the line that gave away the cell that a panic is about, if there is one, and the line that got it.
pub fn put_given(
    page: &mut ScriptPage<'_>,
    line: u32,
    ended: Option<Ended>,
    run: &WatchedRun<'_>,
) -> Written {
    match (run.end.pointer, ended) {
        (Some(fault), Some(ended)) => match lent_cell(page, line, fault, ended, run) {
            Some(lent) => put_lent(page, lent),
            None => Ok(()),
        },
        _ => Ok(()),
    }
}

fn put_lent(page: &mut ScriptPage<'_>, lent: Lent) -> Written {
    let Lent {
        gave,
        word,
        got,
        freed,
        ..
    } = lent;
    let (name, local) = (page.word(gave, word), page.word(got, 1));
    page.tell_unordered();
    if freed != 0 {
        return page.mark_new(
            got,
            1,
            format_args!("`{local}` got here what `{name}` keeps"),
        );
    }
    page.mark_new(
        gave,
        word,
        format_args!("this gave away the cell that `{name}` kept"),
    )?;
    page.mark_new(got, 1, format_args!("`{local}` got it here"))
}

/// Says what to do about a cell that was given away.
pub fn put_cure_of_lent(page: &mut ScriptPage<'_>, lent: Lent) {
    let Lent {
        gave,
        word,
        freed,
        ..
    } = lent;
    if freed != 0 {
        return put_cure_while_lent(page, lent);
    }
    let name = page.word(gave, word);
    page.begin_cause();
    page.page.write(format_args!("line {gave} gives away the cell that `{name}` still owns: "));
    if page.word(gave, 0) == "return" {
        page.page.write(format_args!(
            "there put it into a local, set `{name}` to null, and return the local"
        ));
    } else {
        page.page
            .write(format_args!("set `{name}` to null right after that line"));
    }
    page.page.end_line();
}

fn put_cure_while_lent(page: &mut ScriptPage<'_>, lent: Lent) {
    let Lent {
        gave,
        word,
        got,
        freed,
        led,
    } = lent;
    let (name, local) = (page.word(gave, word), page.word(got, 1));
    page.begin_cause();
    if led == 0 || led == freed {
        page.page.write(format_args!("line {freed} freed "));
    } else {
        page.page.write(format_args!("the call of line {led} freed, at line {freed}, "));
    }
    page.page.write(format_args!(
        "what `{name}` had lent to `{local}`: use `{local}` only before that, or take the cell out of the field while `{local}` is used"
    ));
    page.page.end_line();
}
