//! The statement of a line that begins no block.

ghost use Rattle.std.specs.Prelude.{◌≡◌, ◌≤◌, ℕ, length, IfOk};
ghost use Rattle.wb_tree.specs.declared.script_lines.LineKind.TheVariants as line_kind;
ghost use Rattle.wb_tree.specs.declared.script_lines.Role.TheVariants.{Plain};
ghost use Rattle.wb_basics.specs.declared.limits.TheConstants.{LONGEST_SCRIPT};
ghost use Rattle.wb_language.specs.LineKinds.{role_of};
ghost use Rattle.wb_tree.specs.Sound.{Declared};
ghost use Rattle.wb_script.specs.Building.{line_kinds_of_blocks};
ghost use Rattle.wb_script.specs.BytesOf.{declared_by};
ghost use Rattle.wb_script.specs.Stated.{IsNestedOf, IsOperationOf, IsStatedWhereFit, scope_in};

use crate::checks::declarations::Declarations;
use crate::tree::blocks::OpenBlock;
use crate::tree::calls::{call, call_to};
use crate::tree::scope::Scope;
use crate::tree::statements::{one_pointer, return_nothing, return_pointer, statement_of};
use std::alloc::{AllocError, Global};
use wb_tree::script::Statement;
use wb_tree::script_lines::{LineKind, Operand, Referent};

/// The operation that an operand names; `None` if the operand names no operation.
fn operation(items: &Declarations, operand: &Operand<Referent>) -> Option<u16>
    requires { length items.now ≤ LONGEST_SCRIPT }
    ensures { (literals : ℕ) → IsOperationOf (declared_by literals items.now) operand.now result }
{
    match operand {
        Operand::Name(Referent::Operation(index)) => {
            if *index < items.operation_count() {
                Some(*index as u16)
            } else {
                None
            }
        }
        _ => None,
    }
}

/// A `pushop` of a pointer, with the operation that an operand names; `None` if the operands don't fit.
#[inline(never)]
fn push_operation(
    items: &Declarations,
    here: &Scope,
    operands: &[Operand<Referent>],
) -> Option<Statement>
    requires { length items.now ≤ LONGEST_SCRIPT }
    ensures { IsNestedOf (declared_by here.now.literals items.now) (scope_in here.now)
        line_kind.PushOp operands.now result }
{
    match operands {
        [pointer, named] => {
            let pointer = here.pointer(pointer)?;
            let index = operation(items, named)?;
            Some(Statement::PushOperation(pointer, index))
        }
        _ => None,
    }
}

/// A `construct` of the object that a pointer names.
#[inline(never)]
fn construct(here: &Scope, operands: &[Operand<Referent>]) -> Option<Statement>
    ensures { (declared : Declared) → declared.literals ≡ here.now.literals →
        IsNestedOf declared (scope_in here.now) line_kind.Construct operands.now result }
{
    Some(Statement::Construct(one_pointer(here, operands)?))
}

/// A `delete` of the object that a pointer names.
#[inline(never)]
fn delete(here: &Scope, operands: &[Operand<Referent>]) -> Option<Statement>
    ensures { (declared : Declared) → declared.literals ≡ here.now.literals →
        IsNestedOf declared (scope_in here.now) line_kind.Delete operands.now result }
{
    Some(Statement::Delete(one_pointer(here, operands)?))
}

/// The statement of a line that begins no block; `None` if the line's operands don't fit.
pub(crate) fn plain_statement(
    alloc: Global,
    items: &Declarations,
    here: &Scope,
    blocks: &[OpenBlock],
    line_kind: LineKind,
    operands: &[Operand<Referent>],
) -> Result<Option<Statement>, AllocError>
    requires plain { role_of line_kind ≡ Plain }
    requires few { length items.now ≤ LONGEST_SCRIPT }
    ensures { IfOk result (IsStatedWhereFit (declared_by here.now.literals items.now)
        (scope_in here.now) (line_kinds_of_blocks blocks.now) line_kind operands.now) }
{
    match line_kind {
        LineKind::Call => call(alloc, items, here, operands),
        LineKind::CallTo => call_to(alloc, items, here, operands),
        LineKind::PushOp => Ok(push_operation(items, here, operands)),
        LineKind::Construct => Ok(construct(here, operands)),
        LineKind::Delete => Ok(delete(here, operands)),
        LineKind::Return => Ok(return_nothing(here, blocks, operands)),
        LineKind::ReturnPointer => Ok(return_pointer(here, blocks, operands)),
        _ => Ok(statement_of(here, line_kind, operands)),
    }
}
