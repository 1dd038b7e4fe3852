//! What becomes of cells in each machine turn: which are granted, moved, resized, freed and deleted.

use crate::looks::{are_free_but_for, is_live, live_at};
use crate::statements::Ahead;
use crate::turns::{Deletion, Watcher};
use std::alloc::AllocError;
use wb_heap_model::heap::{Answer, Attempt, Header, Kind, Ptr};
use wb_history::{By, End, NULL, Origin};
use wb_machine::Machine;

impl<'a> Watcher<'a> {
    /// Records the cell that an attempt was granted: a new cell, a cell that moved, or a cell that grew at its place. Returns the cell's
    /// pointer; null if nothing was granted.
    #[inline(never)]
    pub(crate) fn see_attempt(
        &mut self,
        machine: &Machine<'a>,
        attempt: Attempt,
        ahead: Option<&Ahead<'a>>,
    ) -> Result<Ptr, AllocError> {
        if attempt.answer != Answer::Granted {
            return Ok(NULL);
        }
        let Some(cell) = live_at(machine, attempt.place) else {
            return Ok(NULL);
        };
        if cell.number == attempt.number {
            self.see_new_cell(machine, cell, ahead)?;
        } else {
            self.history.resize_cell(cell, attempt.number)?;
        }
        Ok(cell.pointer())
    }

    /// Records a new cell, or a cell that moved, at its new place. The cell has the number of its attempt.
    fn see_new_cell(
        &mut self,
        machine: &Machine<'a>,
        cell: Header,
        ahead: Option<&Ahead<'a>>,
    ) -> Result<(), AllocError> {
        let reallocates = ahead.is_some_and(|it| it.reallocates());
        let old = match ahead {
            _ if cell.kind == Kind::Cleanup => self.stack,
            Some(ahead) if reallocates => ahead.source,
            _ => NULL,
        };
        if cell.kind == Kind::Cleanup {
            self.stack = cell.pointer();
        }
        let had_room = self.had_room(machine, old, cell);
        let origin = match (reallocates, had_room) {
            (false, _) => Origin::Made,
            (true, false) => Origin::Reallocated,
            (true, true) => Origin::MovedWithRoom,
        };
        self.history.end_moved(old, had_room);
        self.history.begin_cell(cell, old, origin)
    }

    /// Whether the cell that `old` named had room to grow at its place; `cell` is the same cell after it moved. False if `old` is null.
    fn had_room(&self, machine: &Machine<'a>, old: Ptr, cell: Header) -> bool {
        let until = old.place.saturating_add(cell.length);
        old.number != 0
            && until <= self.history.attempts.bound()
            && are_free_but_for(machine, cell, old.place, until)
    }

    /// Records the length of a cell that was reallocated without an attempt.
    pub(crate) fn see_shortened(
        &mut self,
        machine: &Machine<'a>,
        pointer: Ptr,
    ) -> Result<(), AllocError> {
        match live_at(machine, pointer.place) {
            Some(cell) => self.history.resize_cell(cell, 0),
            None => Ok(()),
        }
    }

    /// Records which of the objects that are being deleted were released. If as many cells are live as before, none was released.
    #[inline(always)]
    pub(crate) fn see_deletions(&mut self, machine: &Machine<'a>) {
        let (live, _) = machine.alloc_size();
        if self.live != Some(live) {
            self.live = Some(live);
            self.end_deletions(machine);
        }
    }

    /// Ends the deletions whose objects are gone.
    #[inline(never)]
    fn end_deletions(&mut self, machine: &Machine<'a>) {
        for _ in 0..self.deletions.len() {
            let Some(deletion) = self.deletions.last().copied() else {
                return;
            };
            if is_live(machine, deletion.object) {
                return;
            }
            self.deletions.pop();
            let Deletion { object, by, line } = deletion;
            self.history.end_deletion(object, by, line);
        }
    }

    /// Notes that a cell's life ended, if the cell is gone.
    pub(crate) fn end_if_gone(
        &mut self,
        machine: &Machine<'a>,
        pointer: Ptr,
        end: End,
        by: By,
        line: u32,
    ) {
        if !is_live(machine, pointer) {
            self.history.end_life(pointer, end, by, line);
        }
    }
}
