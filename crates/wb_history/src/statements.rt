//! What a statement does with pointers: which pointer it writes, which pointer it reads, and which text it edits.

use wb_heap_model::heap::Ptr;
use wb_tree::script::{Holder, Pointer, Statement, Writable};

/// The pointer that names no cell.
pub const NULL: Ptr = Ptr {
    place: 0,
    number: 0,
};

/// A pointer that a statement may write, as it is before the statement.
#[derive(Clone, Copy)]
pub struct Variable {
    /// The object whose field the pointer is; null if the pointer is a local.
    pub owner: Ptr,
    /// The index of the field or the local.
    pub index: u8,
    /// What the pointer names.
    pub names: Ptr,
}

/// Returns the pointer that a statement writes; `None` if it writes none. A `callto` writes its target when the call ends.
pub fn target_of(statement: &Statement) -> Option<Pointer> {
    pointers_of(statement).target
}

/// The pointer that a statement writes and the pointer that it reads, as far as cells' lives or the cleanup stack's items depend on them.
#[derive(Clone, Copy)]
pub struct Pointers {
    pub target: Option<Pointer>,
    pub source: Option<Pointer>,
}

/// Returns the pointers of a statement; each is `None` if there is no such pointer.
#[inline(always)]
pub fn pointers_of(statement: &Statement) -> Pointers {
    match statement {
        Statement::Alloc(target, ..)
        | Statement::New(target, ..)
        | Statement::NewText(target, ..)
        | Statement::SetNull(target) => pair_of(Some(*target), None),
        Statement::CallTo(local, ..) => pair_of(Some(Pointer::Held(Holder::Local(*local))), None),
        Statement::Realloc(target, source, ..)
        | Statement::ReallocText(target, source, _)
        | Statement::Set(target, source) => pair_of(Some(*target), Some(*source)),
        Statement::Free(source)
        | Statement::Delete(source)
        | Statement::Push(source)
        | Statement::PushObject(source)
        | Statement::PushOperation(source, _)
        | Statement::PopCheck(source)
        | Statement::ReturnPointer(source)
        | Statement::LeaveIfNull(source) => pair_of(None, Some(*source)),
        _ => pair_of(None, None),
    }
}

#[inline(always)]
fn pair_of(target: Option<Pointer>, source: Option<Pointer>) -> Pointers {
    Pointers { target, source }
}

/// Returns the text that a statement edits; `None` if it edits none.
pub fn edited_by(statement: &Statement) -> Option<Writable> {
    match statement {
        Statement::Copy(text, _)
        | Statement::Append(text, _)
        | Statement::Insert(text, ..)
        | Statement::DeleteText(text, ..)
        | Statement::SetLength(text, _) => Some(*text),
        _ => None,
    }
}
