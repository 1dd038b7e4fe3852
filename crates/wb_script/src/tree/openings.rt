//! The lines that begin a procedure or an operation, and a body just after its first line.

ghost use Rattle.std.specs.Prelude.{◌≡◌, ◌≤◌, ◌+◌, length, map, IfOk};
ghost use Rattle.wb_basics.specs.declared.limits.TheConstants.{MOST_CLASSES, MOST_PROCEDURES};
ghost use Rattle.wb_tree.specs.declared.script_lines.Form.TheVariants.{Line};
ghost use Rattle.wb_tree.specs.declared.script_lines.LineKind.TheVariants as line_kind;
ghost use Rattle.wb_tree.specs.Sound.{local_of_parameter};
ghost use Rattle.wb_script.specs.Growing.{AreParametersOf, AreTaken, IsBelow, IsSound, IsTaken, OpensWhereFit};
ghost use Rattle.wb_script.specs.Growing.{declared_in_space, has_room, is_operation_head, new_body, outside};

use crate::tree::blocks::BlockStack;
use crate::tree::bodies::OpenBody;
use crate::tree::space::Space;
use crate::tree::whole::{Owner, Stage, WholeItems};
use std::alloc::{AllocError, Global};
use wb_basics::items::Items;
use wb_basics::limits::{MOST_PARAMETERS, MOST_PROCEDURES};
use wb_tree::script::{Local, Parameter};
use wb_tree::script_lines::{Operand, ParameterType, Referent};

/// The parameter that an operand declares, in a script with this number of classes; `None` if the operand declares no parameter.
fn parameter(classes: usize, operand: &Operand<Referent>) -> Option<Parameter>
    requires { classes ≤ MOST_CLASSES }
    ensures { IsTaken classes operand.now result }
{
    match operand {
        Operand::Parameter(Referent::Parameter, ParameterType::Pointer) => Some(
            Parameter::OfPointer(None),
        ),
        Operand::Parameter(Referent::Parameter, ParameterType::Number) => Some(Parameter::OfNumber),
        Operand::Parameter(Referent::Parameter, ParameterType::OfClass(Referent::Class(class))) => {
            if *class < classes {
                Some(Parameter::OfPointer(Some(*class as u16)))
            } else {
                None
            }
        }
        _ => None,
    }
}

/// The parameters that operands declare; `None` if one of the operands declares no parameter.
fn parameters(
    alloc: Global,
    classes: usize,
    operands: &[Operand<Referent>],
) -> Result<Option<Items<Parameter>>, AllocError>
    requires { classes ≤ MOST_CLASSES }
    ensures { IfOk result (AreTaken classes operands.now) }
{
    let mut found = Items::new(alloc);
    for operand in operands {
        match parameter(classes, operand) {
            Some(one) => found.push(one)?,
            None => return Ok(None),
        }
    }
    Ok(Some(found))
}

/// The locals of parameters, one for each parameter.
fn locals_of(alloc: Global, parameters: &[Parameter]) -> Result<Items<Local>, AllocError>
    ensures { IfOk result (λ locals. locals ≡ map local_of_parameter parameters.now) }
{
    let mut locals = Items::new(alloc);
    for parameter in parameters {
        locals.push(match parameter {
            Parameter::OfPointer(class) => Local::OfPointer(*class),
            Parameter::OfNumber => Local::OfNumber,
        })?;
    }
    Ok(locals)
}

/// A body just after its first line, with these parameters. `this` is the class of `self`, if the body belongs to a class.
pub(crate) fn new_body(
    alloc: Global,
    this: Option<u16>,
    parameters: Items<Parameter>,
) -> Result<OpenBody, AllocError>
    ensures { IfOk result (λ p. p ≡ new_body this parameters) }
{
    let scope = locals_of(alloc, parameters.as_slice())?;
    Ok(OpenBody {
        parameters,
        this,
        locals: Items::new(alloc),
        scope,
        block_stack: BlockStack {
            blocks: Items::new(alloc),
            statements: Items::new(alloc),
        },
    })
}

/// Whether there may be one more procedure or operation.
fn has_room(whole: &WholeItems) -> bool
    requires { length whole.now.procedures + length whole.now.operations ≤ MOST_PROCEDURES }
    ensures { result ≡ has_room whole.now }
{
    whole.procedures.len() + whole.operations.len() < MOST_PROCEDURES as usize
}

/// The parameters of the procedure with an index, from the operands of its first line; `None` if the operands don't fit.
fn parameters_of_head(
    alloc: Global,
    classes: usize,
    index: usize,
    operands: &[Operand<Referent>],
) -> Result<Option<Items<Parameter>>, AllocError>
    requires { classes ≤ MOST_CLASSES }
    ensures { IfOk result (AreParametersOf classes index operands.now) }
{
    match operands.split_first() {
        Some((Operand::Name(Referent::Declared(name)), rest)) => {
            if *name == index && rest.len() <= MOST_PARAMETERS as usize {
                parameters(alloc, classes, rest)
            } else {
                Ok(None)
            }
        }
        _ => Ok(None),
    }
}

/// Whether the operands are the name of the operation with this index, and its one parameter.
fn begins_operation(index: usize, operands: &[Operand<Referent>]) -> bool
    ensures { result ≡ is_operation_head index operands.now }
{
    match operands {
        [
            Operand::Name(Referent::Declared(name)),
            Operand::Parameter(Referent::Parameter, ParameterType::Pointer),
        ] => *name == index,
        _ => false,
    }
}

/// Begins a procedure; `number` is the number of its first line. The result is `None` if the line is not allowed there.
pub(crate) fn begin_procedure(
    alloc: Global,
    space: Space,
    whole: &WholeItems,
    number: u32,
    operands: &[Operand<Referent>],
) -> Result<Option<Stage>, AllocError>
    requires sound { IsSound (declared_in_space space) (outside whole.now) }
    requires below { IsBelow number (outside whole.now) }
    ensures { IfOk result (OpensWhereFit (declared_in_space space.entry) number
        (Line line_kind.Proc operands.now) whole.now) }
{
    if !has_room(whole) {
        return Ok(None);
    }
    let index = whole.procedures.len();
    match parameters_of_head(alloc, space.fields.len(), index, operands)? {
        Some(parameters) => {
            let body = new_body(alloc, None, parameters)?;
            Ok(Some(Stage::InBody(Owner::Procedure(number), body)))
        }
        None => Ok(None),
    }
}

/// Begins an operation; `number` is the number of its first line. The result is `None` if the line is not allowed there.
pub(crate) fn begin_operation(
    alloc: Global,
    space: Space,
    whole: &WholeItems,
    number: u32,
    operands: &[Operand<Referent>],
) -> Result<Option<Stage>, AllocError>
    requires sound { IsSound (declared_in_space space) (outside whole.now) }
    requires below { IsBelow number (outside whole.now) }
    ensures { IfOk result (OpensWhereFit (declared_in_space space.entry) number
        (Line line_kind.Op operands.now) whole.now) }
{
    if !has_room(whole) {
        return Ok(None);
    }
    if !begins_operation(whole.operations.len(), operands) {
        return Ok(None);
    }
    let mut parameters = Items::new(alloc);
    parameters.push(Parameter::OfPointer(None))?;
    let body = new_body(alloc, None, parameters)?;
    Ok(Some(Stage::InBody(Owner::Operation(number), body)))
}
