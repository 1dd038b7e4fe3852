//! The operands of a statement that name cells, and which word of the statement's line each operand is.

use crate::statements::{edited_by, target_of};
use wb_tree::script::{Argument, Condition, Pointer, Readable, Statement, Writable};

/// The greatest index of a word that may name a cell: a `callto` has its target, the procedure's name, and up to 4 arguments.
pub const MOST_OPERANDS: usize = 6;

/// An operand that names a cell.
#[derive(Clone, Copy)]
pub enum CellName {
    /// A pointer that the line reads.
    Read(Pointer),
    /// A pointer that the line writes. If it is a field, the line reads only the pointer to the field's object.
    Target(Pointer),
    /// A view, by the index of its local.
    View(u8),
}

/// An operand that names a cell, and the index of its word in the line.
#[derive(Clone, Copy)]
pub struct Operand {
    pub word: usize,
    pub name: CellName,
}

/// Returns the operand at the line's word with this index, counted from 0; `None` if that word names no cell.
pub fn operand_at(statement: &Statement, word: usize) -> Option<Operand> {
    let name = match word {
        1 => first_name(statement)?,
        2 => second_name(statement)?,
        _ => later_name(statement, word)?,
    };
    Some(Operand { word, name })
}

fn first_name(statement: &Statement) -> Option<CellName> {
    if let Some(target) = target_of(statement) {
        return Some(CellName::Target(target));
    }
    match statement {
        Statement::Free(pointer)
        | Statement::Store(pointer, ..)
        | Statement::Construct(pointer)
        | Statement::Delete(pointer)
        | Statement::Push(pointer)
        | Statement::PushObject(pointer)
        | Statement::PushOperation(pointer, _)
        | Statement::PopCheck(pointer)
        | Statement::LeaveIfNull(pointer)
        | Statement::ReturnPointer(pointer) => Some(CellName::Read(*pointer)),
        Statement::PrintText(text) => name_of_text(*text),
        _ => name_of_edited(edited_by(statement)?),
    }
}

fn second_name(statement: &Statement) -> Option<CellName> {
    match statement {
        Statement::Realloc(_, pointer, ..)
        | Statement::ReallocText(_, pointer, _)
        | Statement::Set(_, pointer)
        | Statement::AllocLen(_, pointer)
        | Statement::Load(_, pointer, _) => Some(CellName::Read(*pointer)),
        Statement::Copy(_, text)
        | Statement::Append(_, text)
        | Statement::Left(_, text, _)
        | Statement::Right(_, text, _)
        | Statement::Mid(_, text, ..)
        | Statement::GetLength(_, text) => name_of_text(*text),
        Statement::GetMaximum(_, text) => name_of_edited(*text),
        Statement::If(condition, _) | Statement::IfElse(condition, ..) => asked_of(*condition),
        Statement::Call(_, arguments) => argument_at(arguments.as_slice(), 0),
        _ => None,
    }
}

fn later_name(statement: &Statement, word: usize) -> Option<CellName> {
    match statement {
        Statement::Insert(_, _, text) if word == 3 => name_of_text(*text),
        Statement::Call(_, arguments) => {
            argument_at(arguments.as_slice(), word.saturating_sub(2))
        }
        Statement::CallTo(_, _, arguments) => {
            argument_at(arguments.as_slice(), word.saturating_sub(3))
        }
        _ => None,
    }
}

fn argument_at(arguments: &[Argument], index: usize) -> Option<CellName> {
    match arguments.get(index)? {
        Argument::Passed(pointer) => Some(CellName::Read(*pointer)),
        Argument::Given(_) => None,
    }
}

fn asked_of(condition: Condition) -> Option<CellName> {
    match condition {
        Condition::IsNull(pointer) | Condition::NotNull(pointer) => Some(CellName::Read(pointer)),
        Condition::Equal(..) | Condition::Less(..) => None,
    }
}

fn name_of_text(text: Readable) -> Option<CellName> {
    match text {
        Readable::Of(text) => name_of_edited(text),
        Readable::ViewOf(index) => Some(CellName::View(index)),
        Readable::Quoted(_) => None,
    }
}

fn name_of_edited(text: Writable) -> Option<CellName> {
    match text {
        Writable::InCell(pointer) => Some(CellName::Read(pointer)),
        Writable::OwnBuffer(_) => None,
    }
}
