//! A field that named a cell and was then given another value, so that the cell had no owner any more.

use crate::runs::heads::head_around;
use crate::runs::script_page::{ScriptPage, Written};
use wb_history::{By, End, Life, PointerWrite, WatchedRun};

/// Which line gave a field a cell, and which line then gave this field another value.
#[derive(Clone, Copy)]
pub struct LetGo {
    pub owned: u32,
    pub line: u32,
    /// Whether the line freed the object of the field instead, as a plain cell.
    is_owner_freed: bool,
}

/// Returns which field named a cell and let go of it; `None` if there is no such field, if it still names the cell, or if the cell's item was
/// popped further down in the body that gave the field another value.
pub fn let_go(page: &ScriptPage<'_>, life: Life, run: &WatchedRun<'_>) -> Option<LetGo> {
    let writes = &run.history.writes;
    let owned = writes.newest_of_field(life.pointer)?;
    let last = writes.newest_of(&owned)?;
    if last.names == life.pointer {
        return freed_with_owner(owned, run);
    }
    let (bodies, popped) = (&run.history.bodies, life.popped.number());
    let is_popped_after = last.line < popped && bodies.body_of(popped) == bodies.body_of(last.line);
    if is_popped_after || page.word(last.line, 1).is_empty() {
        return None;
    }
    Some(LetGo {
        owned: owned.line,
        line: last.line,
        is_owner_freed: false,
    })
}

/// The line that freed the object of a field as a plain cell, so that no destructor released what the field names; `None` if no line did.
fn freed_with_owner(owned: PointerWrite, run: &WatchedRun<'_>) -> Option<LetGo> {
    let ended = run.history.lives.find(owned.owner)?.ended?;
    if ended.end != End::Freed || ended.by != By::Line {
        return None;
    }
    Some(LetGo {
        owned: owned.line,
        line: ended.at.number(),
        is_owner_freed: true,
    })
}

/// Returns the line that gave a field another value after a local had got the cell from that field: below that line, in the same block, and above
/// the line `left`, which left; 0 if there is none.
pub fn let_go_after_copy(page: &ScriptPage<'_>, life: Life, left: u32) -> u32 {
    let copied = life.held.map_or(0, |it| it.line.number());
    let field = page.word(copied, 2);
    if page.word(copied, 0) != "set" || !field.contains('.') {
        return 0;
    }
    let block = head_around(page, copied).map(|it| it.line);
    for at in copied.saturating_add(1)..left {
        let is_here = head_around(page, at).map(|it| it.line) == block;
        if let "set" | "null" = page.word(at, 0)
            && is_here
            && page.word(at, 1) == field
        {
            return at;
        }
    }
    0
}

/// Says which line gave a field the cell, and which line then gave the field another value.
pub fn put_let_go(page: &mut ScriptPage<'_>, let_go: LetGo) -> Written {
    let LetGo {
        owned,
        line,
        is_owner_freed,
    } = let_go;
    page.tell_unordered();
    let name = page.word(owned, 1);
    page.mark_new(owned, 1, format_args!("`{name}` owned it since this line"))?;
    if is_owner_freed {
        return page.mark_new(line, 0, "this freed the object of that field alone");
    }
    let name = page.word(line, 1);
    page.mark_new(
        line,
        1,
        format_args!("`{name}` had let go of it by this line"),
    )
}
