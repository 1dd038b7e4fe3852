//! How the units of texts and sources are read, one at a time and many at a time.

ghost use Rattle.std.specs.Prelude.{◌≡◌, ◌+◌, ◌<◌, ◌≤◌, ◌++◌, [], length, replicate, slice_index};
ghost use Rattle.wb_hbuf.specs.Drafts.{HasUnits};
ghost use Rattle.wb_hbuf.specs.Sources.{IsForeign, IsReadableAlone, IsSource, count_of, source_units};
ghost use Rattle.wb_heap_model.specs.TextCells.{text_at};
ghost use Rattle.wb_heap_model.specs.Texts.{AreUnits, units_of_part};

use crate::sources::Source;
use arrayvec::ArrayVec;
use wb_debug::DebugHeap;
use wb_heap_model::heap::Ptr;
use wb_text::{Units, append_bytes, append_units};

/// How many units a source has.
pub fn count(source: Source) -> u32
    ensures { result ≡ count_of source.entry }
{
    match source {
        Source::Literal(_, _, count) => count,
        Source::Buffer(_, _, count) => count,
        Source::Cell(_, _, count) => count,
        Source::Own(_, count) => count,
    }
}

/// Returns the unit at a position of the text in a cell; zero if the position is past the text's end.
pub fn text_unit(heap: &DebugHeap, ptr: Ptr, at: u32) -> u16
    requires { HasUnits ptr heap.now }
    ensures { result ≡ slice_index (text_at ptr heap.now) at }
{
    if heap.payload(ptr, 0) <= at {
        return 0;
    }
    let word = heap.payload(ptr, at / 2 + 1);
    if at % 2 == 0 {
        (word % 0x1_0000) as u16
    } else {
        (word / 0x1_0000) as u16
    }
}

/// Returns unit `i` of a source other than the destination's own text.
pub fn foreign_unit(heap: &DebugHeap, source: Source, i: u32) -> u16
    requires source { IsSource heap.now source }
    requires foreign { IsForeign source }
    requires within { i < count_of source }
    ensures { result ≡ slice_index (source_units heap.now [] source.entry) i }
{
    match source {
        Source::Literal(chars, from, _) => match chars.get((from + i) as usize) {
            Some(unit) => u16::from(*unit),
            None => 0,
        },
        Source::Buffer(buf, from, _) => {
            if from + i < buf.length() {
                buf.unit(from + i)
            } else {
                0
            }
        }
        Source::Cell(ptr, from, _) => text_unit(heap, ptr, from + i),
        Source::Own(_, _) => unreachable!(),
    }
}

/// A source other than the destination's own text, with a heap. If the source is a part of the text in a cell, this cell is in the heap.
#[derive(Clone, Copy)]
pub struct Part<'h, 's> {
    pub heap: &'h DebugHeap,
    pub source: Source<'s>,
}

impl Units for Part<'_, '_> {
    ghost use Rattle.wb_hbuf.specs.Sources.{IsReadableAlone};

    ghost can_read = { λ p. IsReadableAlone p.heap.now p.source };

    ghost units = { λ p. source_units p.heap.now [] p.source };

    fn length(&self) -> u32 {
        count(self.source)
    }

    fn unit(&self, at: u32) -> u16 {
        foreign_unit(self.heap, self.source, at)
    }

    fn append_to(&self, to: &mut ArrayVec<u16, 256>) {
        match self.source {
            Source::Buffer(buf, from, count) => append_part(to, buf.units(), from, count),
            Source::Literal(chars, from, count) => {
                append_literal(to, chars.as_slice(), from, count)
            }
            _ => append_each(to, self.heap, self.source),
        }
    }
}

/// Appends the units of a source, one after another.
fn append_each(to: &mut ArrayVec<u16, 256>, heap: &DebugHeap, source: Source)
    requires source { IsReadableAlone heap.now source }
    requires room { length to.old.items + count_of source ≤ 256 }
    ensures items { to.new.items ≡ to.old.items ++ source_units heap.now [] source.entry }
    ensures are_units { AreUnits to.old.items → AreUnits to.new.items }
{
    for i in 0..count(source) {
        to.push(foreign_unit(heap, source, i));
    }
}

/// Appends `count` units of `units`, from index `from` on, with zeros past the end of `units`.
fn append_part(to: &mut ArrayVec<u16, 256>, units: &[u16], from: u32, count: u32)
    requires { length to.old.items + count ≤ 256 }
    ensures items { to.new.items ≡ to.old.items ++ units_of_part units.now from count }
    ensures are_units { AreUnits to.old.items → AreUnits to.new.items }
{
    let start = (from as usize).min(units.len());
    let there = (count as usize).min(units.len() - start);
    append_units(to, &units[start..start + there]);
    push_zeros(to, count as usize - there);
}

/// Appends `count` bytes of a literal as units, from index `from` on, with zeros past the literal's end.
fn append_literal(to: &mut ArrayVec<u16, 256>, bytes: &[u8], from: u32, count: u32)
    requires { length to.old.items + count ≤ 256 }
    ensures items { to.new.items ≡ to.old.items ++ units_of_part bytes.now from count }
    ensures are_units { AreUnits to.old.items → AreUnits to.new.items }
{
    let start = (from as usize).min(bytes.len());
    let there = (count as usize).min(bytes.len() - start);
    append_bytes(to, &bytes[start..start + there]);
    push_zeros(to, count as usize - there);
}

/// Appends `n` zeros.
fn push_zeros(to: &mut ArrayVec<u16, 256>, n: usize)
    requires { length to.old.items + n ≤ 256 }
    ensures { to.new.items ≡ to.old.items ++ replicate n 0 }
{
    for _ in 0..n {
        to.push(0);
    }
}
