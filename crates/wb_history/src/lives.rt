//! The life of each cell: at which lines it was made, grown, pushed and popped, which pointer was last set to it, and how its life ended.

use crate::moments::{Held, ShortLine};
use std::alloc::{AllocError, Global};
use wb_heap_model::heap::{Header, Kind, Ptr};

/// The number of lives after which a new life replaces the newest life at the same place.
const MOST_LIVES: usize = 100_000;

/// How a cell's life ends.
#[derive(Clone, Copy, Debug, PartialEq, Eq)]
pub enum End {
    /// The cell is freed, and no destructor runs.
    Freed,
    /// The cell's object is deleted.
    Deleted,
    /// The cell is reallocated and moves.
    Moved,
}

/// What began a cell's life.
#[derive(Clone, Copy, Debug, PartialEq, Eq)]
pub enum Origin {
    /// A line that makes a new cell.
    Made,
    /// A line that reallocates: the cell may be one that moved.
    Reallocated,
    /// A line that reallocates, and that moved a cell though the cell had room to grow at its place.
    MovedWithRoom,
}

/// What ended a cell's life.
#[derive(Clone, Copy, Debug, PartialEq, Eq)]
pub enum By {
    /// The line itself.
    Line,
    /// The cleanup stack, because of a `popdestroy`.
    PopDestroy,
    /// The cleanup stack, because of a leave.
    Leave,
}

/// How a cell's life ended, by what, and at which line.
#[derive(Clone, Copy, Debug, PartialEq, Eq)]
pub struct Ended {
    pub end: End,
    pub by: By,
    pub at: ShortLine,
    /// Whether the cell moved though it had room to grow at its place. Such a cell moves only in a heap that moves each cell that grows.
    pub had_room: bool,
}

/// The life of a cell at one place; a cell that moves begins another life. For most events of a life, only the line is kept, in two
/// bytes, because a run may have half a million lives.
#[derive(Clone, Copy, Debug, PartialEq, Eq)]
pub struct Life {
    pub pointer: Ptr,
    /// The cell length, in bytes.
    pub length: u32,
    pub kind: Kind,
    pub origin: Origin,
    pub made: ShortLine,
    /// The line at which the cell last grew at its place.
    pub grown: ShortLine,
    /// The line that last put the cell on the cleanup stack, and the line that popped this item.
    pub pushed: ShortLine,
    pub popped: ShortLine,
    /// The local or field that was last set to the cell, and the line that then gave this local or field another value.
    pub held: Option<Held>,
    pub overwritten: ShortLine,
    pub ended: Option<Ended>,
    /// The index, counted from 1, of the previous life at the same place; 0 if there is none.
    before: u32,
}

impl Life {
    fn of(cell: Header, made: u32, origin: Origin, before: u32) -> Life {
        Life {
            pointer: cell.pointer(),
            length: cell.length,
            kind: cell.kind,
            origin,
            made: ShortLine::of(made),
            grown: ShortLine::NONE,
            pushed: ShortLine::NONE,
            popped: ShortLine::NONE,
            held: None,
            overwritten: ShortLine::NONE,
            ended: None,
            before,
        }
    }

    /// Whether the line that made the cell reallocates.
    pub fn is_reallocated(&self) -> bool {
        self.origin != Origin::Made
    }
}

/// The lives of a run's cells.
pub struct Lives {
    all: Vec<Life>,
    /// For each place divided by 16, the index, counted from 1, of the newest life at this place; 0 if there is none.
    newest: Vec<u32>,
}

/// Written by hand, so that dropping such a value is a single call in a proof. Only this function goes over
/// the fields.
impl Drop for Lives {
    fn drop(self) {
        let Lives { all: _, newest: _ } = self;
    }
}

impl Lives {
    /// No cell has been made yet.
    pub fn new(alloc: Global) -> Lives {
        Lives {
            all: Vec::new(alloc),
            newest: Vec::new(alloc),
        }
    }

    /// Returns the life of the cell that a pointer names, even if that life has ended; `None` if the pointer is null, or if the life isn't
    /// kept.
    pub fn find(&self, pointer: Ptr) -> Option<Life> {
        let mut index = self.newest_at(pointer.place);
        for _ in 0..self.all.len() {
            let life = self.all.get(index.checked_sub(1)? as usize)?;
            if life.pointer == pointer {
                return Some(*life);
            }
            index = life.before;
        }
        None
    }

    /// Begins the life of a cell that the line `made` was just granted.
    pub fn begin(&mut self, cell: Header, made: u32, origin: Origin) -> Result<(), AllocError> {
        let before = self.newest_at(cell.place);
        if self.all.len() >= MOST_LIVES
            && let Some(at) = before.checked_sub(1)
            && let Some(life) = self.all.get_mut(at as usize)
        {
            *life = Life::of(cell, made, origin, 0);
            return Ok(());
        }
        self.all.push(Life::of(cell, made, origin, before))?;
        let at = (cell.place / 16) as usize;
        if self.newest.len() <= at {
            self.newest.resize(at.saturating_add(1), 0)?;
        }
        if let Some(newest) = self.newest.get_mut(at) {
            *newest = u32::try_from(self.all.len()).unwrap_or(0);
        }
        Ok(())
    }

    /// Notes that a line made a live cell longer or shorter at its place.
    pub fn resize(&mut self, cell: Header, line: u32) {
        if let Some(life) = self.live_mut(cell.pointer()) {
            if life.length < cell.length {
                life.grown = ShortLine::of(line);
            }
            life.length = cell.length;
        }
    }

    /// Notes that a line put a pointer to a live cell on the cleanup stack.
    pub fn push(&mut self, pointer: Ptr, line: u32) {
        if let Some(life) = self.live_mut(pointer) {
            life.pushed = ShortLine::of(line);
            life.popped = ShortLine::NONE;
        }
    }

    /// Notes that a line popped the item of a live cell.
    pub fn pop(&mut self, pointer: Ptr, line: u32) {
        if let Some(life) = self.live_mut(pointer) {
            life.popped = ShortLine::of(line);
        }
    }

    /// Notes that a local or field was set to a live cell. Does nothing if the same one was set to the cell last, and still names the cell.
    pub fn hold(&mut self, pointer: Ptr, held: Held) {
        if let Some(life) = self.live_mut(pointer) {
            let is_same = life.held.is_some_and(|last| last.is_same_variable(held));
            if is_same && life.overwritten.is_none() {
                return;
            }
            life.held = Some(held);
            life.overwritten = ShortLine::NONE;
        }
    }

    /// Notes that a pointer to a live cell got another value, if this pointer was the last that was set to the cell.
    pub fn overwrite(&mut self, pointer: Ptr, held: Held) {
        if let Some(life) = self.live_mut(pointer)
            && let Some(last) = life.held
            && last.is_same_variable(held)
        {
            life.overwritten = held.line;
        }
    }

    /// Notes that the life of a live cell ended.
    pub fn end(&mut self, pointer: Ptr, ended: Ended) {
        if let Some(life) = self.live_mut(pointer) {
            life.ended = Some(ended);
        }
    }

    /// Returns whether the life of a pointer's cell has ended; false if the pointer is null, or if no life at the cell's place is kept.
    pub fn has_ended(&self, pointer: Ptr) -> bool {
        let newest = match self.newest_at(pointer.place).checked_sub(1) {
            Some(at) => self.all.get(at as usize),
            None => None,
        };
        match newest {
            Some(life) if pointer.number != 0 => { life.pointer != pointer || life.ended.is_some() }
            _ => false,
        }
    }

    fn newest_at(&self, place: u32) -> u32 {
        self.newest.get((place / 16) as usize).copied().unwrap_or(0)
    }

    fn live_mut(&mut self, pointer: Ptr) -> Option<&mut Life> {
        let at = self.newest_at(pointer.place).checked_sub(1)? as usize;
        let life = self.all.get_mut(at)?;
        if life.pointer == pointer && life.ended.is_none() {
            Some(life)
        } else {
            None
        }
    }
}
