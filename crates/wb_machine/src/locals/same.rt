//! Whether the locals of two runs are the same except for allocation numbers, and what locals add to a fingerprint.

ghost use Rattle.std.specs.Prelude.{◌≡◌, ◌+◌, ◌<◌, ◌∷◌, drop, length, slice_get, true, IfSome, Some};
ghost use Rattle.wb_renaming.specs.SameButNumbers.{AllBeside, IsSameBase, IsSameValue, IsSameView};
ghost use Rattle.wb_machine.specs.Alike.{IsGrown};
ghost use Rattle.wb_machine.specs.LocalValues.{value_of, value_stored, values_stored};

use super::{BufferIndex, Locals, Slot, Stored};
use crate::alike::names::Names;
use crate::fingerprint::Fingerprint;
use wb_text::buf::Buf;
use wb_text::{Base, View};

fn same_base(names: &mut Names, base: Base, other: Base) -> bool
    ensures same { result ≡ true → IsSameBase names.new.names base other }
    ensures grown { IsGrown names.old names.new }
{
    match (base, other) {
        (Base::Nothing, Base::Nothing) => true,
        (Base::Literal(index), Base::Literal(other)) => index == other,
        (Base::Local(index), Base::Local(other)) => index == other,
        (Base::Cell(ptr), Base::Cell(other)) => names.relate_pointers(ptr, other),
        _ => false,
    }
}

fn same_view(names: &mut Names, view: View, other: View) -> bool
    ensures same { result ≡ true → IsSameView names.new.names view other }
    ensures grown { IsGrown names.old names.new }
{
    view.position == other.position
        && view.length == other.length
        && same_base(names, view.base, other.base)
}

fn same_number(number: &i32, other: &i32) -> bool
    ensures { result ≡ true → other.now ≡ number.now }
{
    *number == *other
}

fn same_slot(names: &mut Names, slot: &Slot, other: &Slot) -> bool
    ensures same { result ≡ true → IsSameValue names.new.names
        (value_of slot.now) (value_of other.now) }
    ensures grown { IsGrown names.old names.new }
{
    match (slot, other) {
        (Slot::Pointer(ptr), Slot::Pointer(other)) => names.relate_pointers(*ptr, *other),
        (Slot::Number(number), Slot::Number(other)) => same_number(number, other),
        (Slot::View(window), Slot::View(other)) => same_view(names, window.view(), other.view()),
        (Slot::NoBuffer, Slot::NoBuffer) => true,
        _ => false,
    }
}

/// Whether two buffers have the same maximum and hold the same text.
fn same_buffer(buf: &Buf, other: &Buf) -> bool
    ensures { result ≡ true → other.now ≡ buf.now }
{
    buf.max() == other.max() && buf.units() == other.units()
}

/// The buffer with this index; `None` if there is no such buffer.
fn buffer_at(buffers: &[Buf], index: BufferIndex) -> Option<&Buf>
    ensures { IfSome result (λ buf. slice_get buffers.now index.at ≡ Some buf.now) }
{
    buffers.get(index.at)
}

fn same_stored(
    names: &mut Names,
    stored: &Stored,
    buffers: &[Buf],
    other: &Stored,
    other_buffers: &[Buf],
) -> bool
    ensures same { result ≡ true → IsSameValue names.new.names
        (value_stored buffers.now stored.now) (value_stored other_buffers.now other.now) }
    ensures grown { IsGrown names.old names.new }
{
    match (stored, other) {
        (Stored::Small(slot), Stored::Small(other)) => same_slot(names, slot, other),
        (Stored::Buffer(index), Stored::Buffer(other)) => {
            match (buffer_at(buffers, *index), buffer_at(other_buffers, *other)) {
                (Some(buf), Some(other)) => same_buffer(buf, other),
                _ => false,
            }
        }
        _ => false,
    }
}

/// The local that is stored at this index.
fn slot_at(stored: &[Stored], at: usize) -> &Stored
    requires { at < length stored.now }
    ensures { drop at stored.now ≡ result.now ∷ drop (at + 1) stored.now }
{
    &stored[at]
}

fn same_slots(
    names: &mut Names,
    stored: &[Stored],
    buffers: &[Buf],
    others: &[Stored],
    other_buffers: &[Buf],
) -> bool
    ensures same { result ≡ true → AllBeside (IsSameValue names.new.names)
        (values_stored buffers.now stored.now) (values_stored other_buffers.now others.now) }
    ensures grown { IsGrown names.old names.new }
{
    let count = stored.len();
    if others.len() != count {
        return false;
    }
    for i in 0..count {
        let (slot, other) = (slot_at(stored, i), slot_at(others, i));
        if !same_stored(names, slot, buffers, other, other_buffers) {
            return false;
        }
    }
    true
}

/// Adds the length and the units of a buffer to a fingerprint.
fn add_buffer(print: &mut Fingerprint, buf: &Buf) {
    print.add(1, buf.length());
    for unit in buf.units().iter() {
        print.add(2, u32::from(*unit));
    }
}

/// Adds to a fingerprint what a slot holds, without allocation numbers. A pointer adds its place, and a view adds its position and its
/// length.
fn add_slot(print: &mut Fingerprint, slot: &Slot) {
    match slot {
        Slot::Pointer(ptr) => print.add(3, ptr.place),
        Slot::Number(number) => print.add(4, number.cast_unsigned()),
        Slot::View(window) => {
            let view = window.view();
            print.add(view.position, view.length);
        }
        Slot::NoBuffer => print.add(5, 0),
    }
}

/// Adds to a fingerprint what a local holds, without allocation numbers.
fn add_stored(print: &mut Fingerprint, stored: &Stored, buffers: &[Buf]) {
    match stored {
        Stored::Small(slot) => add_slot(print, slot),
        Stored::Buffer(index) => {
            if let Some(buf) = buffer_at(buffers, *index) {
                add_buffer(print, buf);
            }
        }
    }
}

impl Locals {
    /// Adds the locals of all frames to a fingerprint. Two runs whose locals are the same except for allocation numbers add the same
    /// numbers.
    pub fn add_to(&self, print: &mut Fingerprint) {
        for stored in self.slots.as_slice() {
            add_stored(print, stored, self.buffers.as_slice());
        }
    }

    /// Whether the locals of all frames are the same as another run's, except for allocation numbers.
    pub fn are_like(&self, names: &mut Names, other: &Locals) -> bool
        ensures callers { result ≡ true → AllBeside (IsSameValue names.new.names)
            self.now.callers other.now.callers }
        ensures locals { result ≡ true → AllBeside (IsSameValue names.new.names)
            self.now.locals other.now.locals }
        ensures grown { IsGrown names.old names.new }
    {
        self.base == other.base
            && same_slots(
                names,
                self.slots.as_slice(),
                self.buffers.as_slice(),
                other.slots.as_slice(),
                other.buffers.as_slice(),
            )
    }
}
