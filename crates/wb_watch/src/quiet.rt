//! Which statements change nothing that a history keeps, except for the line.

use wb_tree::script::Statement;

/// Whether a statement is quiet: it makes no attempt, frees or resizes no cell, and changes no pointer, item, view or mark. It doesn't
/// leave or return, and begins no TRAP and no `repeat`.
pub fn is_quiet(statement: &Statement) -> bool {
    matches!(
        statement,
        Statement::AllocLen(..)
            | Statement::Store(..)
            | Statement::Load(..)
            | Statement::Construct(_)
            | Statement::SetNumber(..)
            | Statement::Add(..)
            | Statement::Call(..)
            | Statement::Check(_)
            | Statement::CheckAll(_)
            | Statement::FailNext(_)
            | Statement::FailEvery(_)
            | Statement::FailNone
            | Statement::Copy(..)
            | Statement::Append(..)
            | Statement::Insert(..)
            | Statement::DeleteText(..)
            | Statement::SetLength(..)
            | Statement::GetLength(..)
            | Statement::GetMaximum(..)
            | Statement::PrintText(_)
            | Statement::PrintNumber(_)
            | Statement::NoteHeap
            | Statement::NoteAvailable
            | Statement::If(..)
            | Statement::IfElse(..)
    )
}
