//! The statements of lines about texts and views, each made from the operands of its line.

ghost use Rattle.std.specs.Prelude.{[], ◌∷◌};
ghost use Rattle.wb_tree.specs.declared.script_lines.LineKind.TheVariants as line_kind;
ghost use Rattle.wb_script.specs.Stated.{IsStatementOf};

use crate::tree::scope::Scope;
use crate::tree::scope::counted::{four, one, three, two};
use wb_tree::script::Statement;
use wb_tree::script_lines::{Operand, Referent};

#[inline(never)]
pub(crate) fn copy(here: &Scope, operands: &[Operand<Referent>]) -> Option<Statement>
    ensures { IsStatementOf here.now line_kind.Copy operands.now result }
{
    let (target, source) = two(operands)?;
    match (here.writable(target), here.readable(source)) {
        (Some(target), Some(source)) => Some(Statement::Copy(target, source)),
        _ => None,
    }
}

#[inline(never)]
pub(crate) fn append(here: &Scope, operands: &[Operand<Referent>]) -> Option<Statement>
    ensures { IsStatementOf here.now line_kind.Append operands.now result }
{
    let (target, source) = two(operands)?;
    match (here.writable(target), here.readable(source)) {
        (Some(target), Some(source)) => Some(Statement::Append(target, source)),
        _ => None,
    }
}

#[inline(never)]
pub(crate) fn insert(here: &Scope, operands: &[Operand<Referent>]) -> Option<Statement>
    ensures { IsStatementOf here.now line_kind.Insert operands.now result }
{
    let (target, position, source) = three(operands)?;
    match (
        here.writable(target),
        here.number(position),
        here.readable(source),
    ) {
        (Some(target), Some(position), Some(source)) => Some(Statement::Insert(
            target, position, source,
        )),
        _ => None,
    }
}

#[inline(never)]
pub(crate) fn delete_text(here: &Scope, operands: &[Operand<Referent>]) -> Option<Statement>
    ensures { IsStatementOf here.now line_kind.DelText operands.now result }
{
    let (target, position, count) = three(operands)?;
    match (
        here.writable(target),
        here.number(position),
        here.number(count),
    ) {
        (Some(target), Some(position), Some(count)) => Some(Statement::DeleteText(
            target, position, count,
        )),
        _ => None,
    }
}

#[inline(never)]
pub(crate) fn set_length(here: &Scope, operands: &[Operand<Referent>]) -> Option<Statement>
    ensures { IsStatementOf here.now line_kind.SetLength operands.now result }
{
    let (target, length) = two(operands)?;
    match (here.writable(target), here.number(length)) {
        (Some(target), Some(length)) => Some(Statement::SetLength(target, length)),
        _ => None,
    }
}

#[inline(never)]
pub(crate) fn left(here: &Scope, operands: &[Operand<Referent>]) -> Option<Statement>
    ensures { IsStatementOf here.now line_kind.Left operands.now result }
{
    let (view, source, count) = three(operands)?;
    match (here.view(view), here.readable(source), here.number(count)) {
        (Some(view), Some(source), Some(count)) => Some(Statement::Left(view, source, count)),
        _ => None,
    }
}

#[inline(never)]
pub(crate) fn right(here: &Scope, operands: &[Operand<Referent>]) -> Option<Statement>
    ensures { IsStatementOf here.now line_kind.Right operands.now result }
{
    let (view, source, count) = three(operands)?;
    match (here.view(view), here.readable(source), here.number(count)) {
        (Some(view), Some(source), Some(count)) => Some(Statement::Right(view, source, count)),
        _ => None,
    }
}

#[inline(never)]
pub(crate) fn mid(here: &Scope, operands: &[Operand<Referent>]) -> Option<Statement>
    ensures { IsStatementOf here.now line_kind.Mid operands.now result }
{
    let (view, source, position, count) = four(operands)?;
    match (
        here.view(view),
        here.readable(source),
        here.number(position),
        here.number(count),
    ) {
        (Some(view), Some(source), Some(position), Some(count)) => Some(Statement::Mid(
            view, source, position, count,
        )),
        _ => None,
    }
}

#[inline(never)]
pub(crate) fn get_length(here: &Scope, operands: &[Operand<Referent>]) -> Option<Statement>
    ensures { IsStatementOf here.now line_kind.GetLen operands.now result }
{
    let (variable, source) = two(operands)?;
    match (here.variable(variable), here.readable(source)) {
        (Some(variable), Some(source)) => Some(Statement::GetLength(variable, source)),
        _ => None,
    }
}

#[inline(never)]
pub(crate) fn get_maximum(here: &Scope, operands: &[Operand<Referent>]) -> Option<Statement>
    ensures { IsStatementOf here.now line_kind.GetMax operands.now result }
{
    let (variable, target) = two(operands)?;
    match (here.variable(variable), here.writable(target)) {
        (Some(variable), Some(target)) => Some(Statement::GetMaximum(variable, target)),
        _ => None,
    }
}

/// A `print` of the number or text that one operand spells.
fn print_statement(here: &Scope, operand: &Operand<Referent>) -> Option<Statement>
    ensures { IsStatementOf here.now line_kind.Print (operand.now ∷ []) result }
{
    match operand {
        Operand::Number(_) | Operand::Name(Referent::Number(_)) => {
            Some(Statement::PrintNumber(here.number(operand)?))
        }
        _ => Some(Statement::PrintText(here.readable(operand)?)),
    }
}

/// A `print` of a number or of a text.
#[inline(never)]
pub(crate) fn print(here: &Scope, operands: &[Operand<Referent>]) -> Option<Statement>
    ensures { IsStatementOf here.now line_kind.Print operands.now result }
{
    let operand = one(operands)?;
    print_statement(here, operand)
}
