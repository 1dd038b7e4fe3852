//! The statements that call a procedure.

ghost use Rattle.std.specs.Prelude.{◌≡◌, ◌≤◌, false, length, map, IfOk, IsTrue, List, Some, MatchOption, slice_get};
ghost use Rattle.std.specs.Option.{option_map};
ghost use Rattle.wb_basics.specs.declared.limits.TheConstants.{LONGEST_SCRIPT};
ghost use Rattle.wb_tree.specs.declared.script_lines.LineKind.TheVariants as line_kind;
ghost use Rattle.wb_language.specs.Names as model;
ghost use Rattle.wb_tree.specs.Sound.{is_passed};
ghost use Rattle.wb_tree.specs.Spellings.{argument_operand};
ghost use Rattle.wb_script.specs.Fitting.{argument_fits};
ghost use Rattle.wb_script.specs.BytesOf.{declared_by, bytes_of_items, signatures_among};
ghost use Rattle.wb_script.specs.Stated.{ArePassed, IsCalled, IsNestedOf, bytes_of_parameter, scope_in};

use crate::checks::declarations::Declarations;
use crate::tree::scope::Scope;
use std::alloc::{AllocError, Global};
use wb_basics::items::Items;
use wb_tree::script::{Argument, Statement};
use wb_tree::script_lines::{Operand, ParameterType, Referent};

/// An operand as the argument for a parameter; `None` if the operand doesn't fit.
fn argument(
    here: &Scope,
    parameter: &ParameterType<&[u8]>,
    operand: &Operand<Referent>,
) -> Option<Argument>
    ensures { (items : List model.Declaration) →
        MatchOption result (argument_fits here.now.literals (scope_in here.now)
        (bytes_of_parameter items parameter.now) operand.now ≡ false) (λ a.
        (argument_operand a ≡ Some operand.now)
        × IsTrue (is_passed (scope_in here.now) (bytes_of_parameter items parameter.now) a)) }
{
    match parameter {
        ParameterType::Number => Some(Argument::Given(here.number(operand)?)),
        ParameterType::Pointer | ParameterType::OfClass(_) => Some(Argument::Passed(here.pointer(
            operand,
        )?)),
    }
}

/// Operands as arguments, one for each parameter; `None` if the operands don't fit.
fn arguments(
    alloc: Global,
    here: &Scope,
    parameters: &[ParameterType<&[u8]>],
    operands: &[Operand<Referent>],
) -> Result<Option<Items<Argument>>, AllocError>
    ensures { (items : List model.Declaration) →
        IfOk result
        (ArePassed here.now (map (bytes_of_parameter items) parameters.now) operands.now) }
{
    let mut given = Items::new(alloc);
    for operand in operands {
        let Some(parameter) = parameters.get(given.len()) else {
            return Ok(None);
        };
        match argument(here, parameter, operand) {
            Some(one) => given.push(one)?,
            None => return Ok(None),
        }
    }
    if given.len() == parameters.len() {
        Ok(Some(given))
    } else {
        Ok(None)
    }
}

/// What each parameter takes, of the procedure with an index; `None` if there is no such procedure.
fn signature_at<'i, 'a>(
    items: &'i Declarations<'a>,
    index: usize,
) -> Option<&'i [ParameterType<&'a [u8]>]>
    ensures { option_map (λ parameter_type.
        map (bytes_of_parameter (bytes_of_items items.now)) parameter_type.now) result
        ≡ slice_get (signatures_among (bytes_of_items items.now)) index }
{
    match items.procedure(index) {
        Some(item) => Some(item.parameters.as_slice()),
        None => None,
    }
}

/// A procedure, and the arguments of a call to it.
#[derive(Drop)]
pub(crate) struct Called {
    pub procedure: u16,
    pub arguments: Items<Argument>,
}

/// The call that operands spell: the name of a procedure, followed by the arguments; `None` if the operands don't fit.
fn call_in(
    alloc: Global,
    items: &Declarations,
    here: &Scope,
    operands: &[Operand<Referent>],
) -> Result<Option<Called>, AllocError>
    requires { length items.now ≤ LONGEST_SCRIPT }
    ensures { IfOk result
        (IsCalled (declared_by here.now.literals items.now) (scope_in here.now) operands.now) }
{
    match operands.split_first() {
        Some((Operand::Name(Referent::Procedure(index)), given)) => match signature_at(
            items, *index,
        ) {
            Some(parameters) => match arguments(alloc, here, parameters, given)? {
                Some(arguments) => Ok(Some(Called {
                    procedure: *index as u16,
                    arguments,
                })),
                None => Ok(None),
            },
            None => Ok(None),
        },
        _ => Ok(None),
    }
}

#[inline(never)]
pub(crate) fn call(
    alloc: Global,
    items: &Declarations,
    here: &Scope,
    operands: &[Operand<Referent>],
) -> Result<Option<Statement>, AllocError>
    requires { length items.now ≤ LONGEST_SCRIPT }
    ensures { IfOk result (IsNestedOf (declared_by here.now.literals items.now) (scope_in here.now)
        line_kind.Call operands.now) }
{
    match call_in(alloc, items, here, operands)? {
        Some(called) => Ok(Some(Statement::Call(called.procedure, called.arguments))),
        None => Ok(None),
    }
}

#[inline(never)]
pub(crate) fn call_to(
    alloc: Global,
    items: &Declarations,
    here: &Scope,
    operands: &[Operand<Referent>],
) -> Result<Option<Statement>, AllocError>
    requires { length items.now ≤ LONGEST_SCRIPT }
    ensures { IfOk result (IsNestedOf (declared_by here.now.literals items.now) (scope_in here.now)
        line_kind.CallTo operands.now) }
{
    match operands.split_first() {
        Some((target, following)) => match here.receiver(target) {
            Some(local) => match call_in(alloc, items, here, following)? {
                Some(called) => Ok(Some(Statement::CallTo(
                    local,
                    called.procedure,
                    called.arguments,
                ))),
                None => Ok(None),
            },
            None => Ok(None),
        },
        _ => Ok(None),
    }
}
