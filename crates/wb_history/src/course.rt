//! What a picture draws of a run, besides its attempts: its cells over time, and a few numbers. This is kept only if a picture is wanted.

use crate::lives::End;
use crate::series::Series;
use std::alloc::{AllocError, Global};
use wb_heap_model::heap::{Header, Kind, Ptr};

/// Stands for the step at which a part ends, if the part hasn't ended yet.
pub const NEVER: u32 = u32::MAX;

/// How a part of a cell's life ends.
#[derive(Clone, Copy, PartialEq, Eq)]
pub enum PartEnd {
    /// The cell is live when the run is over.
    Live,
    /// The cell is released.
    Freed,
    /// The cell is resized at its place, and another part begins.
    Resized,
    /// The cell moves to another place.
    Moved,
}

/// A part of a cell's life, during which the cell keeps its place and its length, both in bytes.
#[derive(Clone, Copy)]
pub struct Part {
    /// The cell's allocation number.
    pub number: u32,
    pub place: u32,
    pub length: u32,
    pub kind: Kind,
    /// The number of the attempt that the part begins with; 0 if the cell became shorter.
    pub attempt: u32,
    /// The line that the part begins with; 0 for the cleanup stack's first cell.
    pub line: u32,
    /// The step that the part begins with, and the step that ends the part; `NEVER` if no step does.
    pub from: u32,
    pub gone: u32,
    pub end: PartEnd,
    /// The index of the cell's previous part, at this place or at the place from which the cell moved; `None` if there is none.
    pub before: Option<usize>,
    /// Whether the cell is a leak of the run.
    pub leaks: bool,
}

impl Part {
    /// Returns where the cell ends, in bytes.
    pub fn top(&self) -> u32 {
        self.place.saturating_add(self.length)
    }

    fn finish(&mut self, gone: u32, end: PartEnd) {
        self.gone = gone;
        self.end = end;
    }
}

/// The step, the line and the attempt with which a part begins; the attempt is 0 if the cell became shorter.
#[derive(Clone, Copy)]
pub struct PartStart {
    pub step: u32,
    pub line: u32,
    pub attempt: u32,
}

/// What a picture draws of a run.
pub struct Course {
    is_wanted: bool,
    parts: Vec<Part>,
    /// For each cell, by its allocation number, the index of its last part, counted from 1; 0 if the cell has no part.
    latest: Vec<u32>,
    pub committed: Series,
    pub levels: Series,
    pub traps: Series,
    pub items: Series,
}

/// Written by hand, so that dropping such a value is a single call in a proof. Only this function goes over
/// the fields.
impl Drop for Course {
    fn drop(self) {
        let Course {
            is_wanted: _,
            parts: _,
            latest: _,
            committed: _,
            levels: _,
            traps: _,
            items: _,
        } = self;
    }
}

impl Course {
    /// Nothing has happened yet. If the course isn't wanted, it stays empty.
    pub fn new(alloc: Global, is_wanted: bool) -> Course {
        Course {
            is_wanted,
            parts: Vec::new(alloc),
            latest: Vec::new(alloc),
            committed: Series::new(alloc),
            levels: Series::new(alloc),
            traps: Series::new(alloc),
            items: Series::new(alloc),
        }
    }

    /// Returns the parts of all cells, in the order in which they began.
    pub fn parts(&self) -> &[Part] {
        self.parts.as_slice()
    }

    /// Notes the heap's committed length, how many marks are open and how many items are on the cleanup stack after a step. The only error
    /// is that memory ran out.
    #[inline(always)]
    pub fn note_numbers(
        &mut self,
        step: u32,
        committed: u32,
        level: u32,
        items: u32,
    ) -> Result<(), AllocError> {
        if !self.is_wanted {
            return Ok(());
        }
        self.committed.note(step, committed)?;
        self.levels.note(step, level)?;
        self.items.note(step, items)
    }

    /// Notes how many TRAPs were open after a step.
    #[inline(always)]
    pub(crate) fn note_traps(&mut self, step: u32, count: usize) -> Result<(), AllocError> {
        if !self.is_wanted {
            return Ok(());
        }
        self.traps
            .note(step, u32::try_from(count).unwrap_or(u32::MAX))
    }

    /// Records a cell that was just granted. `old` is the pointer that named the cell before it moved; null for a new cell.
    pub fn begin(&mut self, cell: Header, start: PartStart, old: Ptr) -> Result<(), AllocError> {
        let before = self.index_of(old.number);
        self.add(cell, start, before)
    }

    /// Records that a live cell was resized at its place, or that an attempt was granted though the cell's length stays the same.
    pub fn resize(&mut self, cell: Header, start: PartStart) -> Result<(), AllocError> {
        let index = self.index_of(cell.number);
        if let Some(index) = index
            && let Some(part) = self.parts.get_mut(index)
        {
            if start.attempt == 0 && part.length == cell.length {
                return Ok(());
            }
            part.finish(start.step, PartEnd::Resized);
        }
        self.add(cell, start, index)
    }

    /// Records that a cell's life ended.
    pub fn end(&mut self, cell: Ptr, step: u32, end: End) {
        if let Some(index) = self.index_of(cell.number)
            && let Some(part) = self.parts.get_mut(index)
            && part.gone == NEVER
        {
            let end = match end {
                End::Freed | End::Deleted => PartEnd::Freed,
                End::Moved => PartEnd::Moved,
            };
            part.finish(step, end);
        }
    }

    /// Marks the cell with this allocation number as a leak.
    pub fn mark_leak(&mut self, number: u32) {
        if let Some(index) = self.index_of(number)
            && let Some(part) = self.parts.get_mut(index)
        {
            part.leaks = true;
        }
    }

    /// The index of the last part of the cell with this allocation number.
    fn index_of(&self, number: u32) -> Option<usize> {
        let index = self.latest.get(number as usize)?.checked_sub(1)?;
        Some(index as usize)
    }

    fn add(
        &mut self,
        cell: Header,
        start: PartStart,
        before: Option<usize>,
    ) -> Result<(), AllocError> {
        if !self.is_wanted {
            return Ok(());
        }
        self.parts.push(Part {
            number: cell.number,
            place: cell.place,
            length: cell.length,
            kind: cell.kind,
            attempt: start.attempt,
            line: start.line,
            from: start.step,
            gone: NEVER,
            end: PartEnd::Live,
            before,
            leaks: false,
        })?;
        let number = cell.number as usize;
        if self.latest.len() <= number {
            self.latest.resize(number.saturating_add(1), 0)?;
        }
        if let Some(latest) = self.latest.get_mut(number) {
            *latest = u32::try_from(self.parts.len()).unwrap_or(0);
        }
        Ok(())
    }
}
