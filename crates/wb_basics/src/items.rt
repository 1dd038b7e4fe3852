//! The list type of which script trees and run results are made. In contracts a list's value is its elements alone, without the pointer of
//! a `Vec`. So a contract can say that a result equals what a definition computes.

ghost use Rattle.std.specs.Prelude.{◌≡◌, ◌<◌, ◌↔◌, [], ◌∷◌, ◌++◌, length, slice_get, IfOk, OnOk, OnErr, IsSome};
ghost use Rattle.std.specs.Option.{option_copied, option_to_list};

use std::alloc::{AllocError, Global};
use std::marker::Model;

/// How many elements `try_copy` copies at a time, and for how many further elements it makes room in the copy.
const PART: usize = 128;

/// A `Vec` that contracts see as the list of its elements.
#[derive(Debug, Drop)]
pub struct Items<T> {
    pub(crate) items: Vec<T>,
}

impl<T> Model for Items<T> {
    ghost use Rattle.std.specs.Prelude.{List};
    ghost use Rattle.std.specs.Coded.{coded_list};

    ghost Value = { List T };

    ghost coded = { coded_list T.code };

    ghost view = { λ l. l.items.items };
}

impl<T> Items<T> {
    /// The empty list, which takes no memory.
    pub fn new(alloc: Global) -> Items<T>
        ensures { result ≡ [] }
    {
        Items {
            items: Vec::new(alloc),
        }
    }

    /// Makes a list of the elements of a `Vec`, in order.
    pub fn from_vec(items: Vec<T>) -> Items<T>
        ensures { result ≡ items.items }
    {
        Items { items }
    }

    /// The elements, in order.
    pub fn as_slice(&self) -> &[T]
        ensures { result.now ≡ self.now }
    {
        self.items.as_slice()
    }

    /// How many elements there are.
    pub fn len(&self) -> usize
        ensures { result ≡ length self.now }
    {
        self.items.len()
    }

    /// The element at an index; `None` if the index is past the end.
    pub fn get(&self, at: usize) -> Option<&T>
        ensures { option_copied result ≡ slice_get self.now at }
    {
        self.items.get(at)
    }

    /// Appends an element. If the workbench's own memory runs out, the list stays as it was and the element is dropped.
    pub fn push(&mut self, item: T) -> Result<(), AllocError>
    where
        T: Drop,
        ensures pushed { OnOk result (self.new ≡ self.old ++ item ∷ []) }
        ensures unchanged { OnErr result (self.new ≡ self.old) }
    {
        self.items.push(item)?;
        Ok(())
    }

    /// Returns a copy of the list, in newly allocated memory; `Err` if the workbench's memory runs out.
    ///
    /// The copy of an empty list takes no memory. Any other copy has room for some further elements: without this room, the first push onto
    /// the copy would copy all elements again.
    pub fn try_copy(&self) -> Result<Items<T>, AllocError>
    where
        T: Copy,
        ensures { IfOk result (λ copy. copy ≡ self.now) }
    {
        let mut items = Vec::new(*self.items.allocator());
        let mut rest = self.items.as_slice();
        if rest.len() == 0 {
            return Ok(Items { items });
        }
        items.reserve(rest.len().saturating_add(PART))?;
        while rest.len() > PART {
            let (part, later) = rest.split_at(PART);
            items.extend_from_slice(part)?;
            rest = later;
        }
        items.extend_from_slice(rest)?;
        Ok(Items { items })
    }

    /// Removes the last element and returns it; `None` if the list is empty. `pop` needs no memory.
    pub fn pop(&mut self) -> Option<T>
        ensures popped { self.old ≡ self.new ++ option_to_list result }
        ensures some { IsSome result ↔ (0 < length self.old) }
    {
        self.items.pop()
    }
}

/// The bytes of a literal.
pub type Chars = Items<u8>;
