//! What is seen of a run, one machine turn after another.

mod carried;
mod cells;

use crate::attempts::see_newest;
use crate::looks::has_panicked;
use crate::statements::Ahead;
use crate::words::word_used;
use std::alloc::{AllocError, Global};
use wb_heap_model::heap::{Item, Ptr, Rule};
use wb_history::{Blocks, By, End, History, ItemOnStack, Keep, NULL, WordUse};
use wb_machine::Machine;
use wb_tree::script::Script;

/// An object that is being deleted, what deletes it, and the line that began the deletion.
#[derive(Clone, Copy)]
struct Deletion {
    object: Ptr,
    by: By,
    line: u32,
}

/// A watched run's history so far, and what only watching needs.
pub struct Watcher<'a> {
    pub history: History<'a>,
    deletions: Vec<Deletion>,
    /// How many cells were live when `deletions` was last gone through; `None` if a deletion was added since then.
    live: Option<u32>,
    blocks: Blocks,
    /// The cleanup stack's own cell.
    stack: Ptr,
}

/// Written by hand, so that dropping such a value is a single call in a proof. Only this function goes over
/// the fields.
impl Drop for Watcher<'_> {
    fn drop(self) {
        let Watcher {
            history: _,
            deletions: _,
            live: _,
            blocks: _,
            stack: _,
        } = self;
    }
}

impl<'a> Watcher<'a> {
    /// Nothing has happened yet. The only error is that memory ran out.
    pub fn new(
        alloc: Global,
        script: &Script,
        rule: Rule,
        keep: Keep,
    ) -> Result<Watcher<'a>, AllocError> {
        Ok(Watcher {
            history: History::new(alloc, script, rule, keep)?,
            deletions: Vec::new(alloc),
            live: None,
            blocks: Blocks::of(alloc, script)?,
            stack: NULL,
        })
    }

    /// Gives the watcher up and returns the history.
    pub fn into_history(self) -> History<'a> {
        let Watcher {
            history,
            deletions: _,
            live: _,
            blocks: _,
            stack: _,
        } = self;
        history
    }

    /// Looks at the machine after a turn that was to begin a quiet statement. Of this statement only the line is kept, and the word of a cell
    /// that it stored or loaded. `word` is the word that it was to store.
    pub(crate) fn see_quiet(
        &mut self,
        machine: &Machine<'a>,
        word: Option<WordUse>,
    ) -> Result<(), AllocError> {
        let has_stepped = machine.steps() > self.history.steps();
        if has_stepped {
            self.see_block(machine)?;
        }
        self.see_line(machine)?;
        if has_stepped && let Some(word) = word_used(machine, word) {
            self.history.word_uses.note(word)?;
        }
        if self.deletions.is_empty() {
            return Ok(());
        }
        self.see_ends(machine)
    }

    /// Looks at the machine after a turn that was to begin a statement that isn't quiet.
    pub(crate) fn see_begun(
        &mut self,
        machine: &Machine<'a>,
        ahead: &Ahead<'a>,
    ) -> Result<(), AllocError> {
        let has_stepped = machine.steps() > self.history.steps();
        if has_stepped {
            self.see_block(machine)?;
        }
        self.see_line(machine)?;
        if has_stepped {
            let attempt = see_newest(&mut self.history.attempts, machine)?;
            if !has_panicked(machine) {
                self.see_statement(machine, ahead, attempt)?;
            }
        }
        self.see_ends(machine)
    }

    /// Records that the next machine turn begins no statement, and which TRAPs ended before that turn.
    pub(crate) fn go_on(&mut self) -> Result<(), AllocError> {
        self.blocks.go_on();
        self.see_traps()
    }

    /// Looks at the machine after a turn that began no statement: the first turn, a turn of a `repeat`, or a turn that destroys something.
    pub(crate) fn see_other(&mut self, machine: &Machine<'a>) -> Result<(), AllocError> {
        self.see_line(machine)?;
        if let Some(attempt) = see_newest(&mut self.history.attempts, machine)? {
            self.see_attempt(machine, attempt, None)?;
        }
        if (machine.cleanup_depth() as usize) < self.history.items.count()
            && let Some(newest) = self.history.items.pop()
        {
            self.see_destroyed(machine, newest)?;
        }
        self.see_ends(machine)
    }

    /// Looks at the machine after the last machine turn of the run.
    pub(crate) fn see_end(&mut self, machine: &Machine<'a>) -> Result<(), AllocError> {
        self.history.see_traps(machine.open_traps())?;
        self.see_ends(machine)
    }

    /// Records which TRAPs ended before the last machine turn began its statement.
    #[inline(always)]
    fn see_block(&mut self, machine: &Machine<'a>) -> Result<(), AllocError> {
        self.blocks.begin_line(machine.depth(), machine.line());
        self.see_traps()
    }

    /// Records which TRAPs ended with the last step that was seen.
    #[inline(always)]
    fn see_traps(&mut self) -> Result<(), AllocError> {
        let open = self.blocks.open_traps();
        self.history.see_traps(open)
    }

    /// Records which objects a machine turn released. If a picture is wanted, also notes the course's numbers after that turn.
    fn see_ends(&mut self, machine: &Machine<'a>) -> Result<(), AllocError> {
        if !self.deletions.is_empty() {
            self.see_deletions(machine);
        }
        self.history.course.note_numbers(
            machine.steps(),
            machine.committed(),
            machine.level(),
            machine.cleanup_depth(),
        )
    }

    /// Records the line that was begun last.
    fn see_line(&mut self, machine: &Machine<'a>) -> Result<(), AllocError> {
        self.history.see_line(
            machine.steps(),
            machine.line(),
            machine.statement(),
            machine.depth(),
        )
    }

    /// Records an item that the cleanup stack destroys.
    fn see_destroyed(
        &mut self,
        machine: &Machine<'a>,
        newest: ItemOnStack,
    ) -> Result<(), AllocError> {
        let line = self.history.last_line_outside();
        let by = self.history.see_destroyed(newest, machine.statement());
        match newest.item {
            Item::Free(pointer) => self.end_if_gone(machine, pointer, End::Freed, by, line),
            Item::Delete(object) => self.add_deletion(Deletion { object, by, line })?,
            Item::Call(..) => {}
        }
        Ok(())
    }

    /// Adds an object that is to be deleted.
    fn add_deletion(&mut self, deletion: Deletion) -> Result<(), AllocError> {
        if deletion.object.number != 0 {
            self.blocks.begin_object();
        }
        self.live = None;
        self.deletions.push(deletion)?;
        Ok(())
    }
}
