//! What becomes of cells: which are granted, moved, resized and released.

use crate::course::PartStart;
use crate::history::History;
use crate::lives::{By, End, Ended, Origin};
use crate::moments::ShortLine;
use std::alloc::AllocError;
use wb_heap_model::heap::{Header, Ptr};
use wb_meaning::run::Outcome;

impl<'a> History<'a> {
    /// Records that the attempt with a cell's number was granted the cell, which is new or has moved to its place. `old` is the pointer
    /// that named the cell before it moved; null for a new cell. The only error is that memory ran out.
    pub fn begin_cell(&mut self, cell: Header, old: Ptr, origin: Origin) -> Result<(), AllocError> {
        let start = self.start_now(cell.number);
        self.course.begin(cell, start, old)?;
        self.lives.begin(cell, start.line, origin)
    }

    /// Records that the last line resized a live cell at its place. `attempt` is the number of the attempt for this; 0 if there was none.
    /// The only error is that memory ran out.
    pub fn resize_cell(&mut self, cell: Header, attempt: u32) -> Result<(), AllocError> {
        let start = self.start_now(attempt);
        self.lives.resize(cell, start.line);
        self.course.resize(cell, start)
    }

    /// The start of a part of a cell's life that begins now. `attempt` is 0 if no attempt begins the part.
    fn start_now(&self, attempt: u32) -> PartStart {
        PartStart {
            step: self.steps,
            line: self.last,
            attempt,
        }
    }

    /// Notes that the last line moved a cell away, given the pointer that named the cell; does nothing for null. `had_room` says whether
    /// the cell had room to grow at its place.
    pub fn end_moved(&mut self, old: Ptr, had_room: bool) {
        self.note_end(
            old,
            Ended {
                end: End::Moved,
                by: By::Line,
                at: ShortLine::of(self.last),
                had_room,
            },
        );
    }

    /// Notes that the deletion of an object, which `line` began, ended with the release of the object's cell.
    pub fn end_deletion(&mut self, object: Ptr, by: By, line: u32) {
        self.last_deleted = object;
        self.end_life(object, End::Deleted, by, line);
    }

    /// Notes that a cell's life ended, given the pointer that named the cell.
    pub fn end_life(&mut self, pointer: Ptr, end: End, by: By, line: u32) {
        self.note_end(
            pointer,
            Ended {
                end,
                by,
                at: ShortLine::of(line),
                had_room: false,
            },
        );
    }

    /// Notes how a cell's life ended, given the pointer that named the cell; does nothing for null.
    fn note_end(&mut self, pointer: Ptr, ended: Ended) {
        if pointer.number != 0 {
            self.lives.end(pointer, ended);
            self.course.end(pointer, self.steps, ended.end);
        }
    }

    /// Records which cells are leaks at the end of the run.
    pub fn see_outcome(&mut self, outcome: &Outcome) {
        if let Outcome::Ended { leaks, .. } = outcome {
            for leak in leaks.as_slice() {
                self.course.mark_leak(leak.number);
            }
        }
    }
}
