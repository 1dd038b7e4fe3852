//! The pointer that a panic is about: which operand of the panicking line it is, and why the pointer names no cell.

use crate::lives::Life;
use crate::writes::PointerWrite;
use wb_tree::script::{Holder, Pointer};

/// Why a pointer names no cell.
#[derive(Clone, Copy, Debug, PartialEq, Eq)]
pub enum PointerState {
    Null,
    /// The life of the pointer's cell has ended; `None` if this life isn't kept.
    Gone(Option<Life>),
}

/// The pointer that a panic is about.
#[derive(Clone, Copy)]
pub struct PointerFault {
    /// The index of the pointer's word in the line.
    pub word: usize,
    pub state: PointerState,
    /// The pointer; `None` if the operand is a view. For a view, `state` is about the cell whose text the view shows.
    pub pointer: Option<Pointer>,
    /// Whether the word names a field, and the pointer at fault is the pointer to this field's object.
    pub is_owner: bool,
    /// What gave the pointer its value; `None` if that isn't known.
    pub write: Option<PointerWrite>,
}

/// Whether two operands of one body are the same pointer.
pub fn is_same_pointer(first: Pointer, second: Pointer) -> bool {
    match (first, second) {
        (Pointer::Held(one), Pointer::Held(other)) => is_same_holder(one, other),
        (Pointer::Field(one, _, index), Pointer::Field(other, _, other_index)) => {
            is_same_holder(one, other) && index == other_index
        }
        _ => false,
    }
}

/// Whether two operands, perhaps of two bodies, are the same field of objects of one class.
pub fn is_same_field(first: Pointer, second: Pointer) -> bool {
    match (first, second) {
        (Pointer::Field(_, class, index), Pointer::Field(_, other_class, other_index)) => {
            class == other_class && index == other_index
        }
        _ => false,
    }
}

fn is_same_holder(first: Holder, second: Holder) -> bool {
    match (first, second) {
        (Holder::Local(one), Holder::Local(other)) => one == other,
        (Holder::This, Holder::This) => true,
        _ => false,
    }
}
