//! Counts of the live cells: the number in all levels together, and the number in each level. These counts are stored apart from the cells,
//! so a check needn't go through the cells.

ghost use Rattle.std.specs.Prelude.{◌≡◌, ℕ, ◌+◌, ◌<◌, ◌≤◌, ◌^◌, List, []};
ghost use Rattle.wb_heap_model.specs.declared.heap.Header.{Header};
ghost use Rattle.wb_heap_model.specs.Heap.{lowered};
ghost use Rattle.wb_heap_model.specs.Row.{Cell, headers};
ghost use Rattle.wb_debug.specs.LevelCounts.{known_at};
ghost use Rattle.wb_debug.specs.Tally.{IsMore, IsOther, IsTally};

use crate::checks::has_level;
use crate::level_counts::{Counted, LevelCounts};
use std::marker::Model;
use wb_heap_model::heap::Header;

/// The number of live cells in all levels together, and in each level for which the number is known. The cleanup stack's cell belongs to no
/// level.
///
/// A tally allocates no memory, so no call on it can run out of memory.
#[derive(Drop)]
pub struct Tally {
    total: u32,
    levels: LevelCounts,
}

impl Model for Tally {
    ghost use Rattle.wb_debug.specs.Tally as tally;

    ghost Value = { tally.Tally };

    ghost view = { λ inside. record { total = inside.total; levels = inside.levels } };
}

impl Tally {
    /// Returns the tally of no cells.
    pub fn new() -> Tally
        ensures { result ≡ record { total = 0; levels = record { counts = []; known_from = 0 } } }
    {
        Tally {
            total: 0,
            levels: LevelCounts::new(),
        }
    }

    /// Returns a copy of the tally.
    pub fn copy(&self) -> Tally
        ensures { result ≡ self.now }
    {
        Tally {
            total: self.total,
            levels: self.levels.copy(),
        }
    }

    /// The number of cells in all levels together.
    pub fn total(&self) -> u32
        ensures { result ≡ self.now.total }
    {
        self.total
    }

    /// The count of a level; `None` if the count isn't known.
    pub fn of_level(&self, level: u32) -> Option<Counted>
        ensures { result ≡ known_at self.now.levels level }
    {
        self.levels.get(level)
    }

    /// Adds a granted cell to the counts.
    pub fn grant(&mut self, cell: Header)
        requires room { self.old.total + 1 < 2 ^ 32 }
        ensures { (row more : List Header) → IsMore row more cell → IsTally self.old row →
            IsTally self.new more }
    {
        if has_level(cell.kind) {
            self.total += 1;
            self.levels.add(cell.level, 1, cell.place);
        }
    }

    /// Removes a freed cell from the counts.
    pub fn release(&mut self, cell: Header)
        ensures { (row less : List Header) → IsMore less row cell → IsTally self.old row →
            IsTally self.new less }
    {
        if has_level(cell.kind) {
            self.total = self.total.saturating_sub(1);
            self.levels.take(cell.level);
        }
    }

    /// Records that a cell has moved to another place. The cell's level and kind stay the same.
    pub fn put_at(&mut self, cell: Header, place: u32)
        ensures { (row new : List Header) (moved : Header) → IsOther row new cell moved →
            moved.kind ≡ cell.kind → moved.level ≡ cell.level → moved.place ≡ place →
            IsTally self.old row → IsTally self.new new }
    {
        if place < cell.place && has_level(cell.kind) {
            self.levels.add(cell.level, 0, place);
        }
    }

    /// From now on counts each cell of level `level` as a cell of level `level - 1`.
    pub fn lower(&mut self, level: u32)
        requires { 1 ≤ level }
        ensures { (row : List (Cell (List ℕ))) → IsTally self.old (headers row) →
            IsTally self.new (headers (lowered level row)) }
    {
        self.levels.lower(level);
    }
}
