//! For each level, how many cells it has, and a place below which it has no cell. The code here uses only these numbers, not the cells.

ghost use Rattle.std.specs.Prelude.{◌≡◌, ℕ, ◌<◌, ◌≤◌, [], IfErr, IfOk, IfSome, length};
ghost use Rattle.wb_debug.specs.LevelCounts.{Edits, IsAt, IsGapFor, counted_at, known_at, lowered_at, no_cells};
ghost use Rattle.wb_debug.specs.LevelCounts.{one_less, set_at, with_more};

use arrayvec::ArrayVec;
use std::marker::Model;

/// A count of cells.
#[derive(Clone, Copy, Debug, Default, PartialEq, Eq)]
pub struct Counted {
    /// How many cells were counted.
    pub count: u32,
    /// No counted cell is below this place.
    pub lowest: u32,
}

impl Counted {
    /// Returns the count after adding `count` cells, none of which is below `lowest`; `None` if the total doesn't fit into a `u32`.
    pub fn with_more(self, count: u32, lowest: u32) -> Option<Counted>
        ensures { IfSome result (λ more. more ≡ with_more self count lowest) }
    {
        let total = self.count.checked_add(count)?;
        if self.count == 0 {
            return Some(Counted {
                count: total,
                lowest,
            });
        }
        Some(Counted {
            count: total,
            lowest: self.lowest.min(lowest),
        })
    }

    /// Returns the count reduced by one cell; a count of 0 stays 0.
    pub fn one_less(self) -> Counted
        ensures { result ≡ one_less self }
    {
        Counted {
            count: self.count.saturating_sub(1),
            lowest: self.lowest,
        }
    }
}

/// The count of one level.
#[derive(Clone, Copy, Debug, Default, PartialEq, Eq)]
pub struct LevelCount {
    pub level: u32,
    pub cells: Counted,
}

/// A table of counts, in order of level, with an entry for each of the innermost levels that have had cells. The table has fixed room for
/// 64 entries, so nothing here allocates memory. If the table is full and one more level needs an entry, the entry of the outermost level
/// is dropped. From then on, the table doesn't know the count of the dropped level or of any level outside it.
///
/// A search finds the entry of the innermost level at once, and any other entry by binary search. A level whose cells were all released
/// keeps an entry with a count of 0 until its mark ends. A level that never had a cell has no entry.
#[derive(Drop)]
pub struct LevelCounts {
    counts: ArrayVec<LevelCount, 64>,
    /// The least level whose count is known. The type is `u64`, since the value may be one more than the greatest level.
    known_from: u64,
}

impl Model for LevelCounts {
    ghost use Rattle.wb_debug.specs.LevelCounts as level_counts;

    ghost Value = { level_counts.LevelCounts };

    ghost view = { λ inside. record { counts = inside.counts.items; known_from = inside.known_from } };

    ghost invariant = { λ inside. level_counts.IsRising inside.counts.items };
}

impl LevelCounts {
    /// Returns a table without entries: every level is known to have no cell.
    pub fn new() -> LevelCounts
        ensures { result ≡ record { counts = []; known_from = 0 } }
    {
        LevelCounts {
            counts: ArrayVec::new(),
            known_from: 0,
        }
    }

    /// Returns a copy of the table.
    pub fn copy(&self) -> LevelCounts
        ensures { result ≡ self.now }
    {
        let mut counts = ArrayVec::new();
        counts
            .try_extend_from_slice(self.counts.as_slice())
            .unwrap();
        LevelCounts {
            counts,
            known_from: self.known_from,
        }
    }

    /// The count of a level; `None` if the count isn't known.
    pub fn get(&self, level: u32) -> Option<Counted>
        ensures { result ≡ known_at self.now level }
    {
        if u64::from(level) < self.known_from {
            return None;
        }
        Some(self.counted(level))
    }

    /// The count that the table's entry gives for a level: no cells if the level has no entry.
    fn counted(&self, level: u32) -> Counted
        ensures { result ≡ counted_at self.now.counts level }
    {
        match self.search(level) {
            Ok(at) => self.counts[at].cells,
            Err(_) => Counted {
                count: 0,
                lowest: 0,
            },
        }
    }

    /// Adds `count` cells of a level, none of which is below `lowest`. If the total doesn't fit into a `u32`, the count of this level and
    /// of all levels outside it is no longer known.
    #[inline(always)]
    pub fn add(&mut self, level: u32, count: u32, lowest: u32)
        ensures { Edits (set_at self.old.counts level
            (with_more (counted_at self.old.counts level) count lowest)) self.old self.new }
    {
        if u64::from(level) < self.known_from {
            return;
        }
        match self.search(level) {
            Ok(at) => self.add_at(at, level, count, lowest),
            Err(at) => self.insert(
                at,
                LevelCount {
                    level,
                    cells: Counted { count, lowest },
                },
            ),
        }
    }

    /// Does what `add` does, for a level whose entry has index `at`.
    fn add_at(&mut self, at: usize, level: u32, count: u32, lowest: u32)
        requires { IsAt self.old.counts level at }
        ensures { Edits (set_at self.old.counts level
            (with_more (counted_at self.old.counts level) count lowest)) self.old self.new }
    {
        match self.counts[at].cells.with_more(count, lowest) {
            Some(more) => self.replace(at, level, more),
            None => self.forget(level),
        }
    }

    /// Reduces the count of a level by one cell.
    pub fn take(&mut self, level: u32)
        ensures { Edits (set_at self.old.counts level (one_less (counted_at self.old.counts level)))
            self.old self.new }
    {
        if u64::from(level) < self.known_from {
            return;
        }
        if let Ok(at) = self.search(level) {
            let fewer = self.counts[at].cells.one_less();
            self.replace(at, level, fewer);
        }
    }

    /// From now on counts the cells of level `level` as cells of level `level - 1`.
    pub fn lower(&mut self, level: u32)
        requires { 1 ≤ level }
        ensures { Edits (lowered_at self.old.counts level) self.old self.new }
    {
        let Some(ended) = self.get(level) else {
            return;
        };
        self.remove(level);
        if ended.count > 0 {
            self.add(level - 1, ended.count, ended.lowest);
        }
    }

    /// Removes the entry of a level; from now on the table says that this level has no cells.
    fn remove(&mut self, level: u32)
        ensures { Edits (set_at self.old.counts level no_cells) self.old self.new }
    {
        if let Ok(at) = self.search(level) {
            self.counts.remove(at);
        }
    }

    /// Replaces the count of the level whose entry has index `at`.
    fn replace(&mut self, at: usize, level: u32, cells: Counted)
        requires { IsAt self.old.counts level at }
        ensures { Edits (set_at self.old.counts level cells) self.old self.new }
    {
        self.counts[at] = LevelCount { level, cells };
    }

    /// Inserts the entry of a level at the index where it belongs. If the table is full, the outermost level becomes unknown; this may be
    /// the inserted level itself.
    #[cold]
    #[inline(never)]
    fn insert(&mut self, at: usize, count: LevelCount)
        requires { IsGapFor self.old.counts count.level at }
        ensures { Edits (set_at self.old.counts count.level count.cells) self.old self.new }
    {
        if !self.counts.is_full() {
            self.counts.insert(at, count);
        } else if at == 0 {
            self.forget(count.level);
        } else {
            let outermost = self.counts.remove(0);
            self.forget(outermost.level);
            self.counts.insert(at - 1, count);
        }
    }

    /// Makes this level and all levels outside it unknown.
    fn forget(&mut self, level: u32)
        ensures counts { self.new.counts ≡ self.old.counts }
        ensures known { self.old.known_from ≤ self.new.known_from }
        ensures forgotten { level < self.new.known_from }
    {
        self.known_from = self.known_from.max(u64::from(level) + 1);
    }

    /// Returns the index of a level's entry; if there is no entry, returns `Err` with the index where the entry would go. The search looks
    /// first at the last entry, which is the innermost level's entry, because most calls are for the innermost level.
    fn search(&self, level: u32) -> Result<usize, usize>
        ensures found { IfOk result (IsAt self.now.counts level) }
        ensures absent { IfErr result (IsGapFor self.now.counts level) }
    {
        let count = self.counts.len();
        if count == 0 {
            return Err(0);
        }
        let last = self.counts[count - 1].level;
        if last == level {
            Ok(count - 1)
        } else if last < level {
            Err(count)
        } else {
            self.halve(level)
        }
    }

    /// Does what `search` does, by binary search among all entries.
    #[inline(never)]
    fn halve(&self, level: u32) -> Result<usize, usize>
        ensures found { IfOk result (IsAt self.now.counts level) }
        ensures absent { IfErr result (IsGapFor self.now.counts level) }
    {
        self.counts
            .binary_search_by_key(&level, |count: &LevelCount| count.level)
    }
}
