//! Which line gave a pointer its value.

use crate::statements::Variable;
use std::alloc::{AllocError, Global};
use wb_heap_model::heap::Ptr;

/// The most copies of a null pointer for which the history looks up the line that first gave the null.
const MOST_COPIES: u32 = 1000;

/// A write: which pointer value a line gave a local or a field.
#[derive(Clone, Copy, Debug, PartialEq, Eq)]
pub struct PointerWrite {
    /// The object that has the field; null for a local.
    pub owner: Ptr,
    /// The index of the local, or of the field.
    pub index: u8,
    /// How many bodies ran.
    pub depth: u32,
    pub line: u32,
    /// After how many steps the write came.
    pub step: u32,
    /// What the local or field has named since the write.
    pub names: Ptr,
    /// The first write of the null, if the line copied a null pointer; `None` if it copied none, or if the first write isn't known.
    pub null_of: Option<NullOf>,
    /// Whether the life of the named cell had already ended when the line set the pointer.
    pub was_dead: bool,
}

/// The first write of a null that was copied later: the line of this write, and after how many steps the write came.
#[derive(Clone, Copy, Debug, PartialEq, Eq)]
pub struct NullOf {
    pub line: u32,
    pub step: u32,
}

impl PointerWrite {
    /// A write to this local or field, with the line 0 and the step 0. Callers search for a write by it, or fill it in.
    pub(crate) fn any(variable: Variable, depth: u32) -> PointerWrite {
        PointerWrite {
            owner: variable.owner,
            index: variable.index,
            depth,
            line: 0,
            step: 0,
            names: variable.names,
            null_of: None,
            was_dead: false,
        }
    }

    /// Whether another write is to the same local or field as this write.
    fn is_of(&self, other: &PointerWrite) -> bool {
        self.index == other.index
            && self.owner == other.owner
            && (self.owner.number != 0 || self.depth == other.depth)
    }
}

/// For each line that writes a pointer, what the line wrote last.
#[derive(Drop)]
pub struct Writes {
    by_line: Vec<Option<PointerWrite>>,
    /// How many copies of a null pointer were counted so far.
    copies: u32,
}

impl Writes {
    /// No line has written a pointer yet.
    pub fn new(alloc: Global) -> Writes {
        Writes {
            by_line: Vec::new(alloc),
            copies: 0,
        }
    }

    /// Notes what a line wrote. The only error is that memory ran out.
    pub fn note(&mut self, write: PointerWrite) -> Result<(), AllocError> {
        let at = write.line as usize;
        if self.by_line.len() <= at {
            self.by_line.resize(at.saturating_add(1), None)?;
        }
        if let Some(last) = self.by_line.get_mut(at) {
            *last = Some(write);
        }
        Ok(())
    }

    /// Counts one more copy of a null pointer. Returns whether the history is to look up the line that first gave the null.
    pub fn looks_into_copy(&mut self) -> bool {
        self.copies = self.copies.saturating_add(1);
        self.copies <= MOST_COPIES
    }

    /// Returns the newest write that gave a field this cell, among the last writes of all lines; `None` if there is none.
    pub fn newest_of_field(&self, cell: Ptr) -> Option<PointerWrite> {
        let mut newest: Option<PointerWrite> = None;
        for write in self.by_line.as_slice() {
            let Some(write) = write else {
                continue;
            };
            let is_newer = newest.is_none_or(|it| it.step <= write.step);
            if is_newer && write.names == cell && write.owner.number != 0 {
                newest = Some(*write);
            }
        }
        newest
    }

    /// Returns the newest write to the same local or field as `wanted`, among the last writes of all lines; `None` if there is none.
    pub fn newest_of(&self, wanted: &PointerWrite) -> Option<PointerWrite> {
        let mut newest: Option<PointerWrite> = None;
        for write in self.by_line.as_slice() {
            let Some(write) = write else {
                continue;
            };
            let is_newer = newest.is_none_or(|it| it.step <= write.step);
            if is_newer && write.is_of(wanted) {
                newest = Some(*write);
            }
        }
        newest
    }
}
