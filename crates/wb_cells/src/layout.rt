//! How a header is laid out in four words: the cell length, the state, the level and the allocation number. In a free cell, the state and
//! the number are 0, and the word for the level has the place of the next free cell.

ghost use Rattle.std.specs.Prelude.{◌≡◌, ◌+◌, ◌*◌, ◌/◌, ◌<◌, ◌≤◌, ◌-◌, [], ◌∷◌, ◌++◌, length, drop, replicate};
ghost use Rattle.std.specs.Prelude.{slice_index, Some, IsOk, OnOk, OnErr};
ghost use Rattle.std.specs.List.{replace_range};
ghost use Rattle.wb_heap_model.specs.Spelling.{header_at, kind_of};
ghost use Rattle.wb_cells.specs.Segments.{state_of};
ghost use Rattle.wb_cells.specs.States.{IsState};

use std::alloc::AllocError;
use wb_chunk::{Chunk, MOST_WORDS};
use wb_heap_model::heap::{Header, Kind};

/// The link of the last free cell, which says that no other free cell follows.
pub const NONE: u32 = 0xffff_ffff;

/// How many words `bytes` bytes have, counting only whole places of 16 bytes. If `bytes` is a place, this is the index of the first word at
/// that place.
pub fn words_in(bytes: u32) -> u32
    ensures { result ≡ bytes / 16 * 4 }
{
    bytes / 16 * 4
}

/// The index of the first payload word of the cell at a place.
pub fn payload_at(place: u32) -> u32
    ensures { result ≡ place / 16 * 4 + 4 }
{
    words_in(place) + 4
}

/// The state word of a live cell.
pub fn state_of(kind: Kind) -> u32
    ensures word { result ≡ state_of kind }
    ensures bound { result < 65552 }
{
    match kind {
        Kind::Raw => 1,
        Kind::Text => 2,
        Kind::Cleanup => 3,
        Kind::Object(class) => 16 + u32::from(class),
    }
}

/// The kind that a state word encodes.
pub fn kind_of(state: u32) -> Kind
    requires { IsState state }
    ensures { kind_of state ≡ Some result }
{
    match state {
        1 => Kind::Raw,
        2 => Kind::Text,
        3 => Kind::Cleanup,
        _ => Kind::Object((state - 16) as u16),
    }
}

/// The header that the four words at a place encode.
pub fn header_at(words: &Chunk, place: u32) -> Header
    requires within { place / 16 * 4 + 4 ≤ length words.now }
    requires live { IsState (slice_index words.now (place / 16 * 4 + 1)) }
    ensures { header_at place (drop (place / 16 * 4) words.now) ≡ Some result }
{
    let at = words_in(place);
    Header {
        place,
        length: words.word(at),
        kind: kind_of(words.word(at + 1)),
        level: words.word(at + 2),
        number: words.word(at + 3),
    }
}

/// Writes the four words of the header at a place.
pub fn write_header(words: &mut Chunk, place: u32, bytes: u32, state: u32, link: u32, number: u32)
    requires { place / 16 * 4 + 4 ≤ length words.old }
    ensures count { length words.new ≡ length words.old }
    ensures words { words.new ≡ replace_range words.old (place / 16 * 4) (place / 16 * 4 + 4) (bytes
        ∷ state ∷ link ∷ number ∷ []) }
{
    words.set_four(words_in(place), [bytes, state, link, number]);
}

/// Appends words that are 0 until there are `count` words. The call takes no memory if there are at least `count` words already. If the
/// allocator refuses memory, the call returns `Err` and leaves the words as they were.
pub fn grow_to(words: &mut Chunk, count: u32) -> Result<(), AllocError>
    requires { count ≤ MOST_WORDS }
    ensures grown { OnOk result (words.new ≡ words.old ++ replicate (count - length words.old) 0) }
    ensures enough { count ≤ length words.old → IsOk result }
    ensures refused { OnErr result (words.new ≡ words.old) }
{
    if count <= words.words() {
        return Ok(());
    }
    words.grow(count - words.words())
}

/// Sets the `n` words from index `i` on to 0. If `n` is 0, the function doesn't call the chunk.
pub fn zero(words: &mut Chunk, i: u32, n: u32)
    requires { i + n ≤ length words.old }
    ensures { words.new ≡ replace_range words.old i (i + n) (replicate n 0) }
{
    if n > 0 {
        words.zero(i, n);
    }
}
