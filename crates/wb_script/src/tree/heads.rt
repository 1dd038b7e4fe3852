//! What the first line of a block begins, from the operands of the line. As in `statements`, functions that build a head are never inlined.

ghost use Rattle.wb_tree.specs.declared.script_lines.LineKind.TheVariants as line_kind;
ghost use Rattle.std.specs.Prelude.{IsTrue};
ghost use Rattle.wb_tree.specs.declared.script_lines.Keyword.{Keyword};
ghost use Rattle.wb_script.specs.Building.{begins_block};
ghost use Rattle.wb_script.specs.Stated.{AreCompared, IsHeadOf};

use crate::tree::blocks::Head;
use crate::tree::scope::Scope;
use wb_tree::script::{Condition, Number};
use wb_tree::script_lines::{LineKind, Operand, Referent};

#[inline(never)]
fn if_null(here: &Scope, operands: &[Operand<Referent>]) -> Option<Head>
    ensures { IsHeadOf here.now line_kind.IfNull operands.now result }
{
    match operands {
        [Operand::Keyword, pointer] => Some(Head::If(Condition::IsNull(here.pointer(pointer)?))),
        _ => None,
    }
}

#[inline(never)]
fn if_some(here: &Scope, operands: &[Operand<Referent>]) -> Option<Head>
    ensures { IsHeadOf here.now line_kind.IfSome operands.now result }
{
    match operands {
        [Operand::Keyword, pointer] => Some(Head::If(Condition::NotNull(here.pointer(pointer)?))),
        _ => None,
    }
}

/// The two numbers that a line compares, after its keyword; `None` if the operands don't fit.
fn numbers_to_compare(here: &Scope, operands: &[Operand<Referent>]) -> Option<(Number, Number)>
    ensures { (keyword : Keyword) → AreCompared here.now keyword operands.now result }
{
    match operands {
        [Operand::Keyword, left, right] => Some((here.number(left)?, here.number(right)?)),
        _ => None,
    }
}

#[inline(never)]
fn if_equal(here: &Scope, operands: &[Operand<Referent>]) -> Option<Head>
    ensures { IsHeadOf here.now line_kind.IfEqual operands.now result }
{
    match numbers_to_compare(here, operands) {
        Some((left, right)) => Some(Head::If(Condition::Equal(left, right))),
        None => None,
    }
}

#[inline(never)]
fn if_less(here: &Scope, operands: &[Operand<Referent>]) -> Option<Head>
    ensures { IsHeadOf here.now line_kind.IfLess operands.now result }
{
    match numbers_to_compare(here, operands) {
        Some((left, right)) => Some(Head::If(Condition::Less(left, right))),
        None => None,
    }
}

#[inline(never)]
fn repeat(here: &Scope, operands: &[Operand<Referent>]) -> Option<Head>
    ensures { IsHeadOf here.now line_kind.Repeat operands.now result }
{
    match operands {
        [turns] => Some(Head::Repeat(here.number(turns)?)),
        _ => None,
    }
}

#[inline(never)]
fn trap(here: &Scope, operands: &[Operand<Referent>]) -> Option<Head>
    ensures { IsHeadOf here.now line_kind.Trap operands.now result }
{
    match operands {
        [variable] => Some(Head::Trap(here.variable(variable)?)),
        _ => None,
    }
}

/// The head of the block that a line begins; `None` if the line's operands don't fit.
pub(crate) fn head_of(
    here: &Scope,
    line_kind: LineKind,
    operands: &[Operand<Referent>],
) -> Option<Head>
    requires { IsTrue (begins_block line_kind) }
    ensures { IsHeadOf here.now line_kind operands.now result }
{
    match line_kind {
        LineKind::IfNull => if_null(here, operands),
        LineKind::IfSome => if_some(here, operands),
        LineKind::IfEqual => if_equal(here, operands),
        LineKind::IfLess => if_less(here, operands),
        LineKind::Repeat => repeat(here, operands),
        LineKind::Trap => trap(here, operands),
        _ => None,
    }
}
