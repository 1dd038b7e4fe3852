//! A table of lengths that is made backwards, from its last range to its first.

ghost use Rattle.std.specs.Option.{option_to_list};
ghost use Rattle.std.specs.Prelude.{◌≡◌, [], ◌∷◌, ◌++◌, None, OnOk};
ghost use Rattle.wb_lengths.specs.Walk.{IsPutBefore, range};

use std::alloc::{AllocError, Global};
use std::marker::Model;
use wb_basics::items::Items;
use wb_basics::memory::NoMemory;
use wb_runs::lengths::{LengthRange, LengthTable};
use wb_runs::run_end::RunEnd;

/// The last ranges of a table: the ranges found so far. The `Vec` holds them in reverse order, so its last element is the first range. In
/// contracts, the ranges are in the order of the table.
#[derive(Drop)]
pub(crate) struct TableSoFar {
    ranges: Vec<LengthRange>,
}

impl Model for TableSoFar {
    ghost use Rattle.std.specs.Prelude.{List, reverse};
    ghost use Rattle.wb_runs.specs.declared.lengths.LengthRange.{LengthRange};

    ghost Value = { List LengthRange };

    ghost view = { λ inside. reverse inside.ranges.items };
}

impl TableSoFar {
    /// No ranges yet, which takes no memory.
    pub(crate) fn new(alloc: Global) -> TableSoFar
        ensures { result ≡ [] }
    {
        TableSoFar {
            ranges: Vec::new(alloc),
        }
    }

    /// Puts a range before the others. If its runs end like the runs of the next range, the two ranges become one. On `Err`, memory ran
    /// out, and the table is no longer right.
    pub(crate) fn put_before(&mut self, from: u32, end: RunEnd) -> Result<(), NoMemory>
        ensures { OnOk result (IsPutBefore (range from end) self.old self.new) }
    {
        let range = LengthRange { from, end };
        match self.take_first() {
            None => self.put_first(range),
            Some(first) if first.end == end => self.put_first(range),
            Some(first) => {
                self.put_first(first)?;
                self.put_first(range)
            }
        }
    }

    /// Takes the first range off the table; returns `None` if there is no range.
    fn take_first(&mut self) -> Option<LengthRange>
        ensures first { self.old ≡ option_to_list result ++ self.new }
        ensures none { result ≡ None → self.old ≡ [] }
    {
        self.ranges.pop()
    }

    /// Puts a range before the others, without joining it to the next range.
    fn put_first(&mut self, range: LengthRange) -> Result<(), NoMemory>
        ensures { OnOk result (self.new ≡ range ∷ self.old) }
    {
        self.ranges
            .push(range)
            .map_err(|failed| NoMemory::from(AllocError::from(failed)))
    }

    /// The ranges as a table, in ascending order.
    pub(crate) fn into_table(mut self) -> LengthTable
        ensures { result ≡ self }
    {
        self.ranges.reverse();
        Items::from_vec(self.ranges)
    }
}
