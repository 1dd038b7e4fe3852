//! What statements do: which pointers they write, which items they push and pop, which objects they delete, and which TRAPs they begin
//! or leave.

use crate::statements::Ahead;
use crate::turns::{Deletion, Watcher};
use crate::views::see_view;
use std::alloc::AllocError;
use wb_heap_model::heap::{Attempt, Ptr};
use wb_history::{By, End, NULL};
use wb_machine::Machine;
use wb_tree::script::Statement;

impl<'a> Watcher<'a> {
    /// Records a statement that was carried out.
    pub(crate) fn see_statement(
        &mut self,
        machine: &Machine<'a>,
        ahead: &Ahead<'a>,
        attempt: Option<Attempt>,
    ) -> Result<(), AllocError> {
        match ahead.statement {
            Statement::Set(..) => self.see_written(machine, ahead, ahead.source),
            Statement::SetNull(_) => self.see_written(machine, ahead, NULL),
            Statement::Free(_) => {
                let line = self.history.last_line();
                self.history
                    .end_life(ahead.source, End::Freed, By::Line, line);
                Ok(())
            }
            Statement::Delete(_) => self.see_delete(ahead.source),
            Statement::Alloc(..)
            | Statement::New(..)
            | Statement::NewText(..)
            | Statement::Realloc(..)
            | Statement::ReallocText(..) => self.see_asked(machine, ahead, attempt),
            Statement::Push(_) | Statement::PushObject(_) | Statement::PushOperation(..) => {
                self.see_push(machine, ahead, attempt)
            }
            _ => self.see_other_statement(machine, ahead),
        }
    }

    /// Records that an object is to be deleted, unless the pointer is null.
    fn see_delete(&mut self, object: Ptr) -> Result<(), AllocError> {
        let line = self.history.last_line();
        if object.number != 0 {
            self.add_deletion(Deletion {
                object,
                by: By::Line,
                line,
            })?;
        }
        Ok(())
    }

    /// Records a statement that asked for a cell, or that reallocated a cell without an attempt.
    fn see_asked(
        &mut self,
        machine: &Machine<'a>,
        ahead: &Ahead<'a>,
        attempt: Option<Attempt>,
    ) -> Result<(), AllocError> {
        let names = match attempt {
            Some(attempt) => self.see_attempt(machine, attempt, Some(ahead))?,
            None => ahead.source,
        };
        if ahead.leaves(attempt) {
            return self.see_leave(machine, ahead);
        }
        if attempt.is_none() && ahead.reallocates() {
            self.see_shortened(machine, names)?;
        }
        self.see_written(machine, ahead, names)
    }

    /// Records a statement that was to push an item.
    fn see_push(
        &mut self,
        machine: &Machine<'a>,
        ahead: &Ahead<'a>,
        attempt: Option<Attempt>,
    ) -> Result<(), AllocError> {
        if let Some(attempt) = attempt {
            self.see_attempt(machine, attempt, Some(ahead))?;
        }
        if (machine.cleanup_depth() as usize) != self.history.items.count()
            && let Some(item) = ahead.item()
        {
            self.history
                .see_pushed(item, ahead.source, machine.depth())?;
        }
        if ahead.leaves(attempt) {
            return self.see_leave(machine, ahead);
        }
        Ok(())
    }

    /// Records a statement that itself neither asks for a cell nor frees a cell.
    fn see_other_statement(
        &mut self,
        machine: &Machine<'a>,
        ahead: &Ahead<'a>,
    ) -> Result<(), AllocError> {
        match ahead.statement {
            Statement::Pop(_) | Statement::PopCheck(_) => {
                self.history
                    .see_popped(machine.cleanup_depth() as usize, machine.depth());
                Ok(())
            }
            Statement::CallTo(..) => {
                let names = ahead.written.map_or(NULL, |it| it.names);
                self.history.see_call(machine.depth(), names);
                Ok(())
            }
            Statement::Trap(..) => self.see_trap(machine),
            Statement::Mark => self.history.see_mark(),
            Statement::MarkEnd(_) => {
                self.history.see_mark_end();
                Ok(())
            }
            Statement::Repeat(..) | Statement::PopDestroy(_) => {
                let line = self.history.last_line();
                self.blocks.begin_rest(machine.depth(), line, ahead.rest)
            }
            Statement::Return => {
                self.blocks.end_body(machine.depth());
                self.history.see_return(machine.depth(), NULL, None)
            }
            Statement::ReturnPointer(_) => {
                self.blocks.end_body(machine.depth());
                self.history
                    .see_return(machine.depth(), ahead.source, ahead.null)
            }
            _ if ahead.leaves(None) => self.see_leave(machine, ahead),
            statement => see_view(&mut self.history, machine, statement),
        }
    }

    /// Records a TRAP that begins.
    fn see_trap(&mut self, machine: &Machine<'a>) -> Result<(), AllocError> {
        let line = self.history.last_line();
        self.blocks.begin_trap(machine.depth(), line)?;
        self.history.see_trap()
    }

    /// Records a leave. After the leave, the items that were pushed since its TRAP began are destroyed.
    fn see_leave(&mut self, machine: &Machine<'a>, ahead: &Ahead<'a>) -> Result<(), AllocError> {
        let items = self.history.see_leave(ahead.code(), machine.depth())?;
        let above = (machine.cleanup_depth() as usize).saturating_sub(items);
        self.blocks.leave(u32::try_from(above).unwrap_or(0))
    }

    /// Records that a statement wrote a pointer, which now names `names`.
    fn see_written(
        &mut self,
        machine: &Machine<'a>,
        ahead: &Ahead<'a>,
        names: Ptr,
    ) -> Result<(), AllocError> {
        match ahead.written {
            Some(variable) => self
                .history
                .see_written(machine.depth(), variable, names, ahead.null),
            None => Ok(()),
        }
    }
}
