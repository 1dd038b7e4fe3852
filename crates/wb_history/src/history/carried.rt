//! What statements do: which pointers they write, which items they push and pop, which marks they open and close, and which TRAPs they
//! begin or leave.

use crate::calls::Stay;
use crate::history::History;
use crate::items::{ItemOnStack, Taken};
use crate::moments::{Held, ShortLine};
use crate::statements::{NULL, Variable};
use crate::traps::OpenTrap;
use crate::writes::{NullOf, PointerWrite};
use std::alloc::AllocError;
use wb_heap_model::heap::{Item, Ptr};
use wb_tree::script::Statement;

impl<'a> History<'a> {
    /// Records that the last line pushed an item of this pointer, while `depth` bodies ran. The only error is that memory ran out.
    pub fn see_pushed(&mut self, item: Item, pointer: Ptr, depth: u32) -> Result<(), AllocError> {
        self.lives.push(pointer, self.last);
        let now = self.now(depth)?;
        self.items.push(item, now, depth)
    }

    /// Records the items that the last line popped, while `depth` bodies ran: only the oldest `left` items are still there.
    pub fn see_popped(&mut self, left: usize, depth: u32) {
        for _ in left..self.items.count() {
            if let Some(popped) = self.items.pop_by(self.last) {
                self.lives.pop(popped.pointer(), self.last);
                self.see_taken(popped, self.last, depth);
            }
        }
    }

    /// Records an item that a line took off while `depth` bodies ran: whether the item had been there when the line's body began, whether an
    /// ended body had left it, and whether a body that was called in between left no item.
    pub(crate) fn see_taken(&mut self, item: ItemOnStack, line: u32, depth: u32) {
        let pushed = item.pushed.line;
        let was_there = self.calls.last_line_of(depth, item.pushed.step) == 0;
        if was_there && let Some(stay) = self.calls.stay_at(depth) {
            let body = Stay {
                ended: self.items.count(),
                ..stay
            };
            self.items.of_caller = Some(Taken { line, pushed, body });
        }
        if let Some(body) = item.left {
            self.items.of_callee = Some(Taken { line, pushed, body });
        }
        let inside = depth.saturating_add(1);
        if item.depth == depth
            && let Some(body) = self.calls.left_none_at(inside, item.pushed.step)
        {
            self.items.after_callee = Some(Taken { line, pushed, body });
        }
    }

    /// Records that the last line opened a mark. The only error is that memory ran out.
    pub fn see_mark(&mut self) -> Result<(), AllocError> {
        self.marks.begin(self.last, self.steps)
    }

    /// Records that the last line closed a mark.
    pub fn see_mark_end(&mut self) {
        self.marks.end(self.last);
    }

    /// Records that the last line began a TRAP. The only error is that memory ran out.
    pub fn see_trap(&mut self) -> Result<(), AllocError> {
        self.traps.begin(OpenTrap {
            line: self.last,
            since: self.steps,
            items: self.items.count(),
        })
    }

    /// Records that the last line left with a code, while `depth` bodies ran. Returns how many items were on the cleanup stack when the
    /// TRAP that caught the leave began; 0 if `main` was left. The only error is that memory ran out.
    pub fn see_leave(&mut self, code: i32, depth: u32) -> Result<usize, AllocError> {
        let now = self.now(depth)?;
        let items = self.traps.leave(now, code, depth)?;
        if let Some(trap) = self.traps.open_traps().last() {
            self.marks.leave(trap.since, self.last);
        }
        Ok(items)
    }

    /// Records that a `callto` began, while `depth` bodies ran. The call's target still names `names`.
    pub fn see_call(&mut self, depth: u32, names: Ptr) {
        self.calls.replace(depth, names);
    }

    /// Records that a body, the innermost of `inside` bodies, returned a pointer to its caller. `null` is the pointer that it returned, if
    /// this pointer is null. The only error is that memory ran out.
    pub fn see_return(
        &mut self,
        inside: u32,
        pointer: Ptr,
        null: Option<Variable>,
    ) -> Result<(), AllocError> {
        let depth = inside.saturating_sub(1);
        let Some(Statement::CallTo(index, ..)) = self.calls.statement_at(depth) else {
            return Ok(());
        };
        let held = self.hold_at(depth, NULL, *index);
        let before = self.calls.replaced_at(depth);
        self.hold(before, pointer, held);
        let variable = Variable {
            owner: NULL,
            index: *index,
            names: pointer,
        };
        self.note_write(depth, variable, inside, null)
    }

    /// Records that a statement of the innermost of `depth` bodies wrote a pointer, which now names `names`. `null` is the pointer that the
    /// statement copied, if this pointer is null. The only error is that memory ran out.
    pub fn see_written(
        &mut self,
        depth: u32,
        variable: Variable,
        names: Ptr,
        null: Option<Variable>,
    ) -> Result<(), AllocError> {
        let held = self.hold_at(depth, variable.owner, variable.index);
        self.hold(variable.names, names, held);
        self.note_write(depth, Variable { names, ..variable }, depth, null)
    }

    /// Notes that the line begun last at `depth` gave a pointer a value. `inside` is the depth of the body that ran the statement. `null`
    /// is the pointer that the statement copied or returned, if this pointer is null.
    fn note_write(
        &mut self,
        depth: u32,
        variable: Variable,
        inside: u32,
        null: Option<Variable>,
    ) -> Result<(), AllocError> {
        let null_of = match null {
            Some(source) if self.writes.looks_into_copy() => self.null_of(source, inside),
            _ => None,
        };
        self.writes.note(PointerWrite {
            line: self.calls.line_at(depth),
            step: self.steps,
            null_of,
            was_dead: self.lives.has_ended(variable.names),
            ..PointerWrite::any(variable, depth)
        })
    }

    /// The first write of the null that the pointer `source` of the body at this depth has; `None` if this write isn't known.
    fn null_of(&self, source: Variable, depth: u32) -> Option<NullOf> {
        let write = self.write_of(source, depth)?;
        let PointerWrite { line, step, .. } = write;
        write.null_of.or(Some(NullOf { line, step }))
    }

    /// Returns the write that gave a pointer of the body at this depth its value; `None` if this write isn't known.
    pub fn write_of(&self, variable: Variable, depth: u32) -> Option<PointerWrite> {
        let write = self.writes.newest_of(&PointerWrite::any(variable, depth))?;
        let is_of_body = variable.owner.number != 0
            || self.calls.last_line_of(depth, write.step) != 0;
        if write.names == variable.names && is_of_body {
            Some(write)
        } else {
            None
        }
    }

    /// The local or field that is set to a cell now, at the line that was begun last at this depth.
    fn hold_at(&self, depth: u32, owner: Ptr, index: u8) -> Held {
        Held {
            owner,
            since: self.steps,
            line: ShortLine::of(self.calls.line_at(depth)),
            caller: ShortLine::of(self.calls.line_at(depth.saturating_sub(1))),
            depth: u8::try_from(depth).unwrap_or(u8::MAX),
            index,
        }
    }

    /// Notes that a local or a field named the cell `before`, and names the cell `now` from here on.
    #[inline(always)]
    fn hold(&mut self, before: Ptr, now: Ptr, held: Held) {
        if before != now {
            self.lives.overwrite(before, held);
        }
        self.lives.hold(now, held);
    }
}
