//! The list of free cells, linked in order of place. Functions here find the free cells on both sides of a place, and change the list when
//! a cell is granted, released or resized. The only word of a live cell that is read here is the length of the cell that is released or
//! resized.

ghost use Rattle.std.specs.Prelude.{◌≡◌, ◌≢◌, ◌+◌, ◌*◌, ◌/◌, ◌%◌, ◌<◌, ◌≤◌, ◌⊎◌, [], ◌++◌, ℕ, List, length};
ghost use Rattle.std.specs.Prelude.{slice_index, slice_set, if◌then◌else◌, nat_eq};
ghost use Rattle.wb_cells.specs.FreeList.{Gap, Links, NO_PLACE, end_at, AreBelow, AreFrom, last_place, IsRound};
ghost use Rattle.wb_cells.specs.FreeList.{IsWithin, linked_first, linked_words, next_past, parted_words};
ghost use Rattle.wb_cells.specs.RowGaps.{AreListed, IsPrior};
ghost use Rattle.wb_cells.specs.Holes.{IsOpenable, IsOpened, IsRaised, hole_of, hole_past, closed_words, closed_ends};

use crate::gap_index::GapIndex;
use crate::layout::{self, NONE};
use wb_basics::limits::CEILING;
use wb_chunk::Chunk;

/// The places of the free cells on both sides of a place. A value is NONE if there is no such free cell.
#[derive(Clone, Copy, Debug)]
pub struct Neighbours {
    /// The last free cell below `before`. This value need be right only if the free cell `before` ends at the place.
    pub prior: u32,
    /// The last free cell below the place.
    pub before: u32,
    /// The first free cell at the place or above it.
    pub after: u32,
}

/// The length of the cell that begins at a place.
pub fn length_at(words: &Chunk, place: u32) -> u32
    requires { place / 16 * 4 + 4 ≤ length words.now }
    ensures { result ≡ slice_index words.now (place / 16 * 4) }
{
    words.word(layout::words_in(place))
}

/// The link of the free cell that begins at a place: the place of the next free cell.
pub fn link_at(words: &Chunk, place: u32) -> u32
    requires { place / 16 * 4 + 4 ≤ length words.now }
    ensures { result ≡ slice_index words.now (place / 16 * 4 + 2) }
{
    words.word(layout::words_in(place) + 2)
}

/// The free cells on both sides of a place.
pub fn neighbours_of(words: &Chunk, gaps: &GapIndex, first: u32, place: u32) -> Neighbours
    requires below { place < NO_PLACE }
    requires rounded { place % 16 ≡ 0 }
    requires linked { (cells : List Gap) × Links words.now first cells }
    requires listed { (cells : List Gap) → Links words.now first cells → AreListed cells gaps.now }
    ensures under { result.before ≢ NO_PLACE → result.before < place }
    ensures round { (low high : List Gap) → Links words.now first (low ++ high) →
        AreBelow place low → AreFrom place high →
        IsRound words.now place low high result.prior result.before result.after }
{
    let none = Neighbours {
        prior: NONE,
        before: NONE,
        after: first,
    };
    if place <= first {
        return none;
    }
    match gaps.last_below(place / 16) {
        None => none,
        Some(at) => Neighbours {
            prior: prior_to(words, gaps, first, at, place),
            before: 16 * at,
            after: link_at(words, 16 * at),
        },
    }
}

/// The place of the last free cell below the free cell with index `at` (its place divided by 16), or NONE. The function searches only if
/// the free cell with index `at` isn't the first free cell and ends at `place`.
fn prior_to(words: &Chunk, gaps: &GapIndex, first: u32, at: u32, place: u32) -> u32
    requires below { (16 * at < place) × (place < NO_PLACE) }
    requires within { 16 * at / 16 * 4 + 4 ≤ length words.now }
    requires first { (k : ℕ) → 16 * k < first → slice_index gaps.now k ≡ 0 }
    ensures { end_at words.now (16 * at) ≡ place → IsPrior gaps.now at result }
{
    if 16 * at == first || length_at(words, 16 * at) != place - 16 * at {
        return NONE;
    }
    match gaps.last_below(at) {
        None => NONE,
        Some(prior) => 16 * prior,
    }
}

/// Makes the free cell `next` follow the free cell `before`. If `before` is NONE, `next` becomes the first free cell. Returns the first
/// free cell.
pub fn link(words: &mut Chunk, first: u32, before: u32, next: u32) -> u32
    requires { before ≢ NO_PLACE → before / 16 * 4 + 4 ≤ length words.old }
    ensures first { result ≡ linked_first first before next }
    ensures words { words.new ≡ linked_words words.old before next }
    ensures count { length words.new ≡ length words.old }
{
    if before == NONE {
        return next;
    }
    words.set_word(layout::words_in(before) + 2, next);
    first
}

/// Splits a free cell after its first `bytes` bytes: the rest becomes a new free cell, unless the rest is empty. Returns the next free cell
/// after the first `bytes` bytes.
pub fn split(words: &mut Chunk, place: u32, bytes: u32) -> u32
    requires rounded { bytes % 16 ≡ 0 }
    requires within { IsWithin words.old place }
    requires fits { bytes ≤ slice_index words.old (place / 16 * 4) }
    requires whole { (place % 16 ≡ 0) × (slice_index words.old (place / 16 * 4) % 16 ≡ 0) }
    ensures next { result ≡ next_past words.old place bytes }
    ensures words { words.new ≡ parted_words words.old place bytes }
    ensures count { length words.new ≡ length words.old }
{
    let next = link_at(words, place);
    let rest = length_at(words, place) - bytes;
    if rest == 0 {
        return next;
    }
    layout::write_header(words, place + bytes, rest, 0, next, 0);
    place + bytes
}

/// The end of the last live cell (`top`), and the place of the first free cell (`first`). `first` is NONE if there is no free cell.
#[derive(Clone, Copy, Debug)]
pub struct Ends {
    pub top: u32,
    pub first: u32,
}

/// Makes room for a cell of `bytes` bytes, at the start of a free cell or at the top. Afterwards the room isn't part of a free cell. The
/// words in the room stay as they were.
pub fn open(words: &mut Chunk, gaps: &GapIndex, ends: Ends, place: u32, bytes: u32) -> Ends
    requires rounded { bytes % 16 ≡ 0 }
    requires below { place + bytes ≤ CEILING }
    requires linked { (cells : List Gap) × Links words.old ends.first cells }
    requires listed { (cells : List Gap) → Links words.old ends.first cells →
        AreListed cells gaps.now }
    requires gap { place ≢ ends.top → IsOpenable words.old place bytes }
    ensures count { length words.new ≡ length words.old }
    ensures top { place ≡ ends.top → IsRaised words.old words.new ends.first place bytes result }
    ensures gap { place ≢ ends.top → (low high : List Gap) →
        Links words.old ends.first (low ++ high) → AreBelow place low → AreFrom place high →
        IsOpened words.old words.new ends.first ends.top place bytes (last_place low) result }
{
    if place == ends.top {
        return Ends {
            top: place + bytes,
            first: ends.first,
        };
    }
    let around = neighbours_of(words, gaps, ends.first, place);
    let next = split(words, place, bytes);
    Ends {
        top: ends.top,
        first: link(words, ends.first, around.before, next),
    }
}

/// A range of bytes that belong to no live cell. A hole reaches from the end of one live cell to the start of the next live cell, or to the
/// top.
#[derive(Clone, Copy, Debug)]
pub struct Hole {
    pub start: u32,
    pub end: u32,
    /// The last free cell below the start of the hole, or NONE.
    pub before: u32,
    /// The first free cell at the end of the hole or above it, or NONE.
    pub next: u32,
}

/// The free bytes after a live cell, up to the next live cell.
pub fn hole_after(words: &Chunk, place: u32, around: Neighbours) -> Hole
    requires cell { IsWithin words.now place }
    requires above { around.after ≡ place + slice_index words.now (place / 16 * 4) →
        IsWithin words.now around.after }
    ensures { result ≡ hole_past words.now place around }
{
    let end = place + length_at(words, place);
    if around.after == end {
        return Hole {
            start: end,
            end: around.after + length_at(words, around.after),
            before: around.before,
            next: link_at(words, around.after),
        };
    }
    Hole {
        start: end,
        end,
        before: around.before,
        next: around.after,
    }
}

/// The hole that a live cell leaves when it is released: the bytes of the cell, and of the free cells that touch it.
pub fn hole_left(words: &Chunk, place: u32, around: Neighbours) -> Hole
    requires cell { IsWithin words.now place }
    requires below { around.before ≢ NO_PLACE → IsWithin words.now around.before }
    requires above { around.after ≡ place + slice_index words.now (place / 16 * 4) →
        IsWithin words.now around.after }
    ensures { result ≡ hole_of words.now place around }
{
    let mut hole = hole_after(words, place, around);
    hole.start = place;
    if around.before != NONE && around.before + length_at(words, around.before) == place {
        hole.start = around.before;
        hole.before = around.prior;
    }
    hole
}

/// Turns a hole into a free cell, unless the hole has no bytes. If no live cell follows the hole, the start of the hole instead becomes the
/// top, which may then be higher than before.
pub fn close(words: &mut Chunk, ends: Ends, hole: Hole) -> Ends
    requires before { hole.before ≢ NO_PLACE → hole.before / 16 * 4 + 4 ≤ length words.old }
    requires start { hole.end ≢ ends.top → hole.start ≢ hole.end →
        hole.start / 16 * 4 + 4 ≤ length words.old }
    requires order { hole.end ≢ ends.top → hole.start ≤ hole.end }
    ensures words { words.new ≡ closed_words words.old ends.top hole }
    ensures ends { result ≡ closed_ends ends.first ends.top hole }
    ensures count { length words.new ≡ length words.old }
{
    if hole.end == ends.top {
        return Ends {
            top: hole.start,
            first: link(words, ends.first, hole.before, NONE),
        };
    }
    let mut next = hole.next;
    if hole.start != hole.end {
        layout::write_header(words, hole.start, hole.end - hole.start, 0, hole.next, 0);
        next = hole.start;
    }
    Ends {
        top: ends.top,
        first: link(words, ends.first, hole.before, next),
    }
}
