//! Texts that can be read, unit by unit or as a whole.

ghost use Rattle.std.specs.Prelude.{ℕ, ◌≡◌, ◌+◌, ◌<◌, ◌≤◌, ◌^◌, ◌++◌, List, length, slice_index};
ghost use Rattle.wb_heap_model.specs.Texts.{AreUnits};

use arrayvec::ArrayVec;
use wb_basics::items::Chars;

/// A text that can be read: a length, and the unit at each position below this length.
pub trait Units {
    ghost use Rattle.std.specs.Prelude.{ℕ, List};

    /// Whether the text may be read.
    ghost can_read: { Self → Type 0 };

    /// The units, in order.
    ghost units: { Self → List ℕ };

    /// How many units there are.
    fn length(&self) -> u32
        requires { can_read self.now }
        ensures { result ≡ length (units self.now) };

    /// The unit at a position.
    fn unit(&self, at: u32) -> u16
        requires can { can_read self.now }
        requires within { at < length (units self.now) }
        ensures { result ≡ slice_index (units self.now) at };

    /// Appends the text's units to `to`.
    fn append_to(&self, to: &mut ArrayVec<u16, 256>)
        requires can { can_read self.now }
        requires room { length to.old.items + length (units self.now) ≤ 256 }
        ensures items { to.new.items ≡ to.old.items ++ units self.now }
        ensures are_units { AreUnits to.old.items → AreUnits to.new.items };
}

/// Makes a literal usable as a text that can be read: each byte is a unit.
impl Units for Chars {
    ghost can_read = { λ bytes. length bytes < 2 ^ 32 };

    ghost units = { λ bytes. bytes };

    fn length(&self) -> u32 {
        self.len() as u32
    }

    fn unit(&self, at: u32) -> u16 {
        u16::from(self.as_slice()[at as usize])
    }

    fn append_to(&self, to: &mut ArrayVec<u16, 256>) {
        append_bytes(to, self.as_slice());
    }
}

/// Appends units.
pub fn append_units(to: &mut ArrayVec<u16, 256>, units: &[u16])
    requires { length to.old.items + length units.now ≤ 256 }
    ensures items { to.new.items ≡ to.old.items ++ units.now }
    ensures are_units { AreUnits to.old.items → AreUnits to.new.items }
{
    match to.try_extend_from_slice(units) {
        Ok(()) => (),
        Err(_) => unreachable!(),
    }
}

/// Appends bytes; each byte becomes a unit.
pub fn append_bytes(to: &mut ArrayVec<u16, 256>, bytes: &[u8])
    requires { length to.old.items + length bytes.now ≤ 256 }
    ensures items { to.new.items ≡ to.old.items ++ bytes.now }
    ensures are_units { AreUnits to.old.items → AreUnits to.new.items }
{
    for byte in bytes {
        to.push(u16::from(*byte));
    }
}
