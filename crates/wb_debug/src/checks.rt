//! The counts of cells for checks and for the end of a mark, and the leaks of a run. Counts come from the tally. The code goes through the
//! cells, in order of place, only to name a cell, change levels, list leaks, or count a level that the tally doesn't know.

ghost use Rattle.std.specs.Prelude.{◌≡◌, ◌≤◌, None, Some, filter, length, map, not, IfOk, IfErr, OnOk};
ghost use Rattle.wb_debug.specs.Levels.{is_counted};
ghost use Rattle.wb_debug.specs.Tally.{IsTally, is_below, number};
ghost use Rattle.wb_heap_model.specs.Heap.{cells_of_all_levels, checked, is_cleanup, lowered, lowest};
ghost use Rattle.wb_heap_model.specs.LimitedHeap.{IsSoundHeap};
ghost use Rattle.wb_heap_model.specs.Row.{headers};
ghost use Rattle.wb_heap_model.specs.Reported.{leak_of};

use crate::tally::Tally;
use std::alloc::Global;
use wb_basics::items::Items;
use wb_basics::memory::NoMemory;
use wb_heap_model::heap::{Header, Kind, Panic};
use wb_heap_model::reported::{Leak, Leaks};
use wb_rheap::Heap;

/// The levels of which a check counts the cells.
#[derive(Clone, Copy, Debug, PartialEq, Eq)]
pub enum Levels {
    One(u32),
    All,
}

/// Whether a cell of this kind belongs to a level. Every cell belongs to a level, except the cleanup stack's cell.
pub fn has_level(kind: Kind) -> bool
    ensures { result ≡ not (is_cleanup kind) }
{
    match kind {
        Kind::Cleanup => false,
        Kind::Raw | Kind::Object(_) | Kind::Text => true,
    }
}

/// Whether a cell is counted, that is, belongs to one of these levels.
fn is_counted(levels: Levels, cell: Header) -> bool
    ensures { result ≡ is_counted levels cell }
{
    match levels {
        Levels::One(level) => cell.level == level && has_level(cell.kind),
        Levels::All => has_level(cell.kind),
    }
}

/// Returns how many cells belong to these levels, and a place below which there is no such cell. The function goes through the cells only
/// if the tally doesn't know the level.
fn count_and_lowest(heap: &Heap, tally: &Tally, levels: Levels) -> (u32, u32)
    requires { IsTally tally.now (headers heap.now.row) }
    ensures number { result.0 ≡ number (is_counted levels) (headers heap.now.row) }
    ensures lowest { number (is_below (is_counted levels) result.1) (headers heap.now.row) ≡ 0 }
{
    match levels {
        Levels::All => (tally.total(), 0),
        Levels::One(level) => match tally.of_level(level) {
            Some(cells) => (cells.count, cells.lowest),
            None => (count(heap, levels), 0),
        },
    }
}

/// Replaces the tally by a new tally, made by counting all cells, if the old tally doesn't know how many cells this level has.
pub fn count_anew(heap: &Heap, tally: &mut Tally, level: u32)
    requires { IsTally tally.old (headers heap.now.row) }
    ensures { IsTally tally.new (headers heap.now.row) }
{
    if tally.of_level(level).is_none() {
        *tally = tally_of(heap);
    }
}

/// Returns the tally of the live cells, made by counting the cells.
fn tally_of(heap: &Heap) -> Tally
    ensures { IsTally result (headers heap.now.row) }
{
    let mut tally = Tally::new();
    let mut from = 0;
    while let Some(cell) = heap.next_live(from) {
        tally.grant(cell);
        from = cell.end();
    }
    tally
}

/// Returns how many cells belong to these levels, by counting the cells.
fn count(heap: &Heap, levels: Levels) -> u32
    ensures { result ≡ number (is_counted levels) (headers heap.now.row) }
{
    let mut found = 0;
    let mut from = 0;
    while let Some(cell) = heap.next_live(from) {
        if is_counted(levels, cell) {
            found += 1;
        }
        from = cell.end();
    }
    found
}

/// Returns the place of the lowest cell that belongs to these levels, or 0 if there is no such cell. No such cell may be below `from`.
fn lowest(heap: &Heap, levels: Levels, from: u32) -> u32
    requires { number (is_below (is_counted levels) from) (headers heap.now.row) ≡ 0 }
    ensures { result ≡ lowest (filter (is_counted levels) (headers heap.now.row)) }
{
    let mut at = from;
    while let Some(cell) = heap.next_live(at) {
        if is_counted(levels, cell) {
            return cell.place;
        }
        at = cell.end();
    }
    0
}

/// Expects that exactly `n` cells belong to these levels, and returns a place below which there is no such cell. If there are fewer or more
/// such cells, `Err` names the place of the lowest such cell, or 0 if there is no such cell. The function goes through the cells only to
/// name the lowest cell, or if the tally doesn't know the level.
pub fn expect(heap: &Heap, tally: &Tally, levels: Levels, n: u32) -> Result<u32, Panic>
    requires { IsTally tally.now (headers heap.now.row) }
    ensures refused { IfErr result (λ panic.
        checked (filter (is_counted levels) (headers heap.now.row)) n ≡ Some panic) }
    ensures fine { OnOk result (checked (filter (is_counted levels) (headers heap.now.row)) n
        ≡ None) }
    ensures number { OnOk result (n ≡ number (is_counted levels) (headers heap.now.row)) }
    ensures lowest { IfOk result (λ place.
        number (is_below (is_counted levels) place) (headers heap.now.row) ≡ 0) }
{
    let (found, from) = count_and_lowest(heap, tally, levels);
    if found == n {
        return Ok(from);
    }
    Err(Panic::Alloc(lowest(heap, levels, from)))
}

/// Moves each cell of level `level` to level `level - 1`. The level must have exactly `n` cells, none below `from`. So the function looks
/// only at cells from `from` on, up to the last cell of the level.
pub fn lower(heap: &mut Heap, level: u32, from: u32, n: u32)
    requires sound { IsSoundHeap heap.old }
    requires some { 1 ≤ level }
    requires number { n ≡ number (is_counted (Levels.One level)) (headers heap.old.row) }
    requires lowest { number (is_below (is_counted (Levels.One level)) from) (headers heap.old.row)
        ≡ 0 }
    ensures lowered { heap.new ≡ record heap.old { row = lowered level heap.old.row } }
    ensures sound { IsSoundHeap heap.new }
{
    let mut at = from;
    let mut left = n;
    while left > 0 {
        let Some(cell) = heap.next_live(at) else {
            return;
        };
        if is_counted(Levels::One(level), cell) {
            heap.set_level(cell.pointer(), level - 1);
            left -= 1;
        }
        at = cell.end();
    }
}

/// Returns the live cells except the cleanup stack's cell, in order of place; `NoMemory` if the workbench's memory runs out. If the tally
/// says that there are no such cells, the function doesn't go through the cells.
pub fn leaks(alloc: Global, heap: &Heap, tally: &Tally) -> Result<Leaks, NoMemory>
    requires { IsTally tally.now (headers heap.now.row) }
    ensures { IfOk result (λ leaks.
        leaks ≡ map leak_of (cells_of_all_levels (headers heap.now.row))) }
{
    if tally.total() == 0 {
        return Ok(Items::new(alloc));
    }
    list_leaks(alloc, heap)
}

/// Makes the list that `leaks` returns, by going through the cells.
fn list_leaks(alloc: Global, heap: &Heap) -> Result<Leaks, NoMemory>
    ensures { IfOk result (λ leaks.
        leaks ≡ map leak_of (cells_of_all_levels (headers heap.now.row))) }
{
    let mut leaks = Items::new(alloc);
    let mut from = 0;
    while let Some(cell) = heap.next_live(from) {
        if has_level(cell.kind) {
            leaks.push(Leak {
                number: cell.number,
                length: cell.length,
                place: cell.place,
            })?;
        }
        from = cell.end();
    }
    Ok(leaks)
}
