//! The buffer with a stated maximum length, TBuf.

ghost use Rattle.std.specs.Prelude.{◌≡◌, ◌+◌, ◌-◌, ◌<◌, ◌≤◌, [], ◌++◌, length, take, drop, replicate, slice_index};
ghost use Rattle.wb_heap_model.specs.Texts.{AreUnits, IsBuffer, answer_of, at_most, delete_text, edited};
ghost use Rattle.wb_heap_model.specs.Texts.{insert_text, set_length_text};

use crate::units::{Units, append_units};
use arrayvec::ArrayVec;
use std::marker::Model;
use wb_heap_model::heap::Panic;

/// A text with a stated maximum length, which is at most 256 units. The text allocates no memory.
///
/// A call that returns a panic leaves the text as it was. Source: Symbian OS v9 SDK reference, 16-bit descriptors.
#[derive(Debug, Drop)]
pub struct Buf {
    max: u32,
    units: ArrayVec<u16, 256>,
}

impl Model for Buf {
    ghost use Rattle.wb_heap_model.specs.Texts.{Buffer, IsBuffer};

    ghost Value = { Buffer };

    ghost view = { λ b. record { max = b.max; units = b.units.items } };

    ghost invariant = { λ b. IsBuffer (record { max = b.max; units = b.units.items }) };
}

impl Buf {
    /// Returns the empty text with this maximum length, in units.
    pub fn new(max: u32) -> Buf
        requires { max ≤ 256 }
        ensures { result ≡ record { max = max; units = [] } }
    {
        Buf {
            max,
            units: ArrayVec::new(),
        }
    }

    /// How many units the text has.
    pub fn length(&self) -> u32
        ensures length { result ≡ length self.now.units }
        ensures holds { IsBuffer self.now }
    {
        self.units.len() as u32
    }

    /// How many units the text may have.
    pub fn max(&self) -> u32
        ensures max { result ≡ self.now.max }
        ensures holds { IsBuffer self.now }
    {
        self.max
    }

    /// The units, in order.
    pub fn units(&self) -> &[u16]
        ensures units { result.now ≡ self.now.units }
        ensures holds { IsBuffer self.now }
    {
        self.units.as_slice()
    }

    /// The unit at a position.
    pub fn unit(&self, at: u32) -> u16
        requires { at < length self.now.units }
        ensures { result ≡ slice_index self.now.units at }
    {
        self.units[at as usize]
    }

    /// Replaces the text by the text of `source`.
    ///
    /// Returns `Panic::TOO_LONG` if the source's text is longer than the maximum length.
    pub fn copy<U: Units>(&mut self, source: &U) -> Result<(), Panic>
        requires { U.can_read source.now }
        ensures text { self.new ≡ edited self.old (at_most self.old.max (U.units source.now)) }
        ensures answer { result ≡ answer_of (at_most self.old.max (U.units source.now)) }
    {
        if self.max < source.length() {
            return Err(Panic::TOO_LONG);
        }
        self.units.clear();
        source.append_to(&mut self.units);
        Ok(())
    }

    /// Appends the text of `source`.
    ///
    /// Returns `Panic::TOO_LONG` if the resulting text would be longer than the maximum length.
    pub fn append<U: Units>(&mut self, source: &U) -> Result<(), Panic>
        requires { U.can_read source.now }
        ensures text { self.new
            ≡ edited self.old (at_most self.old.max (self.old.units ++ U.units source.now)) }
        ensures answer { result
            ≡ answer_of (at_most self.old.max (self.old.units ++ U.units source.now)) }
    {
        if self.max - self.length() < source.length() {
            return Err(Panic::TOO_LONG);
        }
        source.append_to(&mut self.units);
        Ok(())
    }

    /// Inserts the text of `source` before the unit at a position, or at the buffer's end if the position is the buffer's length.
    ///
    /// Returns `Panic::POSITION_OUT_OF_BOUNDS` if the position is past the end; otherwise `Panic::TOO_LONG` if the resulting text would be
    /// longer than the maximum length.
    pub fn insert<U: Units>(&mut self, position: u32, source: &U) -> Result<(), Panic>
        requires { U.can_read source.now }
        ensures text { self.new ≡ edited self.old
            (insert_text self.old.max self.old.units position (U.units source.now)) }
        ensures answer { result
            ≡ answer_of (insert_text self.old.max self.old.units position (U.units source.now)) }
    {
        let len = self.length();
        if len < position {
            return Err(Panic::POSITION_OUT_OF_BOUNDS);
        }
        if self.max - len < source.length() {
            return Err(Panic::TOO_LONG);
        }
        put_in(&mut self.units, position as usize, source);
        Ok(())
    }

    /// Removes `count` units from a position on. If the text has fewer than `count` units from the position on, the call removes all of
    /// these units.
    ///
    /// Returns `Panic::POSITION_OUT_OF_BOUNDS` if the position is past the end.
    pub fn delete(&mut self, position: u32, count: u32) -> Result<(), Panic>
        ensures text { self.new ≡ edited self.old (delete_text self.old.units position count) }
        ensures answer { result ≡ answer_of (delete_text self.old.units position count) }
    {
        let Some(rest) = self.length().checked_sub(position) else {
            return Err(Panic::POSITION_OUT_OF_BOUNDS);
        };
        take_out(&mut self.units, position as usize, count.min(rest) as usize);
        Ok(())
    }

    /// Sets the length of the text: drops the units past the new length, or appends zeros up to the new length.
    ///
    /// Returns `Panic::TOO_LONG` if the new length is above the maximum length.
    pub fn set_length(&mut self, length: u32) -> Result<(), Panic>
        ensures text { self.new
            ≡ edited self.old (set_length_text self.old.max self.old.units length) }
        ensures answer { result ≡ answer_of (set_length_text self.old.max self.old.units length) }
    {
        if self.max < length {
            return Err(Panic::TOO_LONG);
        }
        self.units.truncate(length as usize);
        fill_up(&mut self.units, length as usize);
        Ok(())
    }
}

/// Makes a buffer usable as a text that can be read.
impl Units for Buf {
    ghost can_read = { λ _. Unit {0} };

    ghost units = { λ b. b.units };

    fn length(&self) -> u32 {
        self.length()
    }

    fn unit(&self, at: u32) -> u16 {
        self.unit(at)
    }

    fn append_to(&self, to: &mut ArrayVec<u16, 256>) {
        append_units(to, self.units());
    }
}

/// Inserts the units of a text before the unit at a position.
fn put_in<U: Units>(units: &mut ArrayVec<u16, 256>, at: usize, source: &U)
    requires can { U.can_read source.now }
    requires within { at ≤ length units.old.items }
    requires room { length units.old.items + length (U.units source.now) ≤ 256 }
    ensures items { units.new.items
        ≡ take at units.old.items ++ U.units source.now ++ drop at units.old.items }
    ensures are_units { AreUnits units.old.items → AreUnits units.new.items }
{
    let mut following = ArrayVec::new();
    append_units(&mut following, &units.as_slice()[at..]);
    units.truncate(at);
    source.append_to(units);
    append_units(units, following.as_slice());
}

/// Removes `count` units from a position on.
fn take_out(units: &mut ArrayVec<u16, 256>, at: usize, count: usize)
    requires { at + count ≤ length units.old.items }
    ensures { units.new.items ≡ take at units.old.items ++ drop (at + count) units.old.items }
{
    let len = units.len();
    units.as_mut_slice().copy_within(at + count.., at);
    units.truncate(len - count);
}

/// Appends zeros until there are `len` units.
fn fill_up(units: &mut ArrayVec<u16, 256>, len: usize)
    requires from { length units.old.items ≤ len }
    requires most { len ≤ 256 }
    ensures { units.new.items ≡ units.old.items ++ replicate (len - length units.old.items) 0 }
{
    for _ in units.len()..len {
        units.push(0);
    }
}
