//! Whether operands are of the kinds that their lines take, whether `main` is declared as it may be, and whether `return` is used as it may
//! be.

ghost use Rattle.std.specs.Prelude.{◌≡◌, length, map, not};
ghost use Rattle.std.specs.List.{flat_map, list_any};
ghost use Rattle.wb_language.specs.Forms.{renamed_parameter_type};
ghost use Rattle.wb_language.specs.LineKinds.{is_pointer_kind, operand_places_for};
ghost use Rattle.wb_language.specs.Kinds.{are_given, are_right, arguments_agree, call_agrees, ends_body};
ghost use Rattle.wb_language.specs.Kinds.{has_wrong_kind, is_class_line_kind, is_given, is_nothing};
ghost use Rattle.wb_language.specs.Kinds.{is_of_procedure, is_right, is_right_line, is_trap, misuses_main};
ghost use Rattle.wb_language.specs.Kinds.{returns_in_trap, returns_outside, returns_pointer, sides_agree};
ghost use Rattle.wb_language.specs.Kinds.{operand_kind_of};
ghost use Rattle.wb_language.specs.Names.{parameter_type_of};
ghost use Rattle.wb_language.specs.Resolved.{resolved_line};
ghost use Rattle.wb_script.specs.Checks.{known_in};
ghost use Rattle.wb_script.specs.ResolvedLines.{form_of};
ghost use Rattle.wb_lines.specs.BytesOf.{bytes_of_form, bytes_of_operands, bytes_of_text};
ghost use Rattle.wb_script.specs.BytesOf.{bytes_of_items};

use crate::checks::declarations::Declarations;
use crate::checks::names_so_far::NamesSoFar;
use crate::checks::resolved_lines::ResolvedLine;
use wb_lines::operand_kinds::{is_pointer_kind, operand_kind_of, takes};
use wb_lines::operand_places::OperandPlaces;
use wb_lines::same::are_same;
use wb_tree::script_lines::{
    BodyKind, Form, LineKind, Operand, OperandPlace, ParameterType, Referent,
};

#[inline(always)]
fn is_right(operand_place: OperandPlace, operand: &Operand<Referent>) -> bool
    ensures { result ≡ is_right operand_place operand.now }
{
    takes(operand_place, operand_kind_of(operand))
}

/// Whether all operands of a line are right in their operand places.
fn are_right(line_kind: LineKind, operands: &[Operand<Referent>]) -> bool
    ensures { result ≡ are_right (operand_places_for line_kind (length operands.now)) operands.now }
{
    let operand_places = OperandPlaces::of(line_kind);
    for (index, operand) in operands.iter().enumerate() {
        let Some(operand_place) = operand_places.at(index) else {
            return true;
        };
        if !is_right(operand_place, operand) {
            return false;
        }
    }
    true
}

fn is_pointer(operand: &Operand<Referent>) -> bool
    ensures { result ≡ is_pointer_kind (operand_kind_of operand.now) }
{
    is_pointer_kind(operand_kind_of(operand))
}

/// Whether a `set` has pointers on both sides or on neither side; `true` for lines that are no `set` of a local.
fn sides_agree(line_kind: LineKind, operands: &[Operand<Referent>]) -> bool
    ensures { result ≡ sides_agree line_kind operands.now }
{
    match line_kind {
        LineKind::Set => match operands {
            [target, source] => is_pointer(target) == is_pointer(source),
            _ => true,
        },
        _ => true,
    }
}

/// Whether an argument is of the kind that a parameter takes. If the parameter takes a pointer, the argument may be a pointer of any class.
fn is_given(parameter: ParameterType<&[u8]>, operand: &Operand<Referent>) -> bool
    ensures { result ≡ is_given (renamed_parameter_type bytes_of_text parameter.entry) operand.now }
{
    match parameter {
        ParameterType::Pointer | ParameterType::OfClass(_) => is_right(
            OperandPlace::Pointer,
            operand,
        ),
        ParameterType::Number => is_right(OperandPlace::Value, operand),
    }
}

/// Whether there is one argument for each parameter, and each argument is of the kind that its parameter takes.
fn are_given(parameters: &[ParameterType<&[u8]>], operands: &[Operand<Referent>]) -> bool
    ensures { result
        ≡ are_given (map (renamed_parameter_type bytes_of_text) parameters.now) operands.now }
{
    if parameters.len() != operands.len() {
        return false;
    }
    for (index, parameter) in parameters.iter().enumerate() {
        if !is_given(*parameter, &operands[index]) {
            return false;
        }
    }
    true
}

/// Whether the first of these operands, a procedure's name, is followed by the arguments that the procedure takes; `true` if the first
/// operand isn't the name of a procedure.
fn call_agrees(items: &Declarations, operands: &[Operand<Referent>]) -> bool
    ensures { result ≡ call_agrees (bytes_of_items items.now) operands.now }
{
    match operands {
        [Operand::Name(Referent::Procedure(index)), arguments @ ..] => {
            match items.procedure(*index) {
                Some(procedure) => are_given(procedure.parameters.as_slice(), arguments),
                None => false,
            }
        }
        _ => true,
    }
}

/// Whether a call has as many arguments as the procedure has parameters, each of the right kind; `true` for lines that are no call.
fn arguments_agree(
    items: &Declarations,
    line_kind: LineKind,
    operands: &[Operand<Referent>],
) -> bool
    ensures { result ≡ arguments_agree (bytes_of_items items.now) line_kind operands.now }
{
    match line_kind {
        LineKind::Call => call_agrees(items, operands),
        LineKind::CallTo => match operands {
            [_, call @ ..] => call_agrees(items, call),
            [] => true,
        },
        _ => true,
    }
}

/// Whether all operands of a line are of the kinds that the line takes. Both sides of a `set`, and the arguments of a call, count as
/// operands here.
pub(crate) fn is_right_line(items: &Declarations, line: ResolvedLine) -> bool
    ensures { result ≡ is_right_line (bytes_of_items items.now) (form_of line.entry) }
{
    match line {
        ResolvedLine::Line(line_kind, operands) => {
            are_right(line_kind, operands)
                && sides_agree(line_kind, operands)
                && arguments_agree(items, line_kind, operands)
        }
        _ => true,
    }
}

fn is_class_line_kind(line_kind: LineKind) -> bool
    ensures { result ≡ is_class_line_kind line_kind }
{
    matches!(line_kind, LineKind::Class)
}

/// Whether a line gives `main` parameters, or declares `main` as an operation or a class.
fn misuses_main(form: &Form<&[u8]>) -> bool
    ensures { result ≡ misuses_main (bytes_of_form form.now) }
{
    match form {
        Form::Line(line_kind, operands) => match operands.as_slice() {
            [Operand::Name(name), rest @ ..] => {
                are_same(name, b"main") && (has_parameter(rest) || is_class_line_kind(*line_kind))
            }
            _ => false,
        },
        _ => false,
    }
}

/// Whether one of the operands declares a parameter.
fn has_parameter(operands: &[Operand<&[u8]>]) -> bool
    ensures { not result
        ≡ is_nothing (flat_map parameter_type_of (bytes_of_operands operands.now)) }
{
    for operand in operands {
        if matches!(operand, Operand::Parameter(..)) {
            return true;
        }
    }
    false
}

fn is_trap(line_kind: LineKind) -> bool
    ensures { result ≡ is_trap line_kind }
{
    matches!(line_kind, LineKind::Trap)
}

fn ends_body(line_kind: LineKind) -> bool
    ensures { result ≡ ends_body line_kind }
{
    matches!(line_kind, LineKind::Return | LineKind::ReturnPointer)
}

/// Whether one of these blocks is a `trap`.
fn any_trap(blocks: &[LineKind]) -> bool
    ensures { result ≡ list_any is_trap blocks.now }
{
    blocks.iter().any(|line_kind| is_trap(*line_kind))
}

/// Whether a line is a `return` inside a `trap`.
fn returns_in_trap(known: &NamesSoFar, form: &Form<&[u8]>) -> bool
    ensures { result ≡ returns_in_trap (known_in known.now) (bytes_of_form form.now) }
{
    match form {
        Form::Line(line_kind, _) => ends_body(*line_kind) && any_trap(&known.blocks),
        _ => false,
    }
}

fn returns_pointer(line_kind: LineKind) -> bool
    ensures { result ≡ returns_pointer line_kind }
{
    matches!(line_kind, LineKind::ReturnPointer)
}

fn is_of_procedure(body: BodyKind) -> bool
    ensures { result ≡ is_of_procedure body }
{
    matches!(body, BodyKind::Procedure)
}

/// Whether a line is a `return` with a pointer outside of a procedure.
fn returns_outside(known: &NamesSoFar, form: &Form<&[u8]>) -> bool
    ensures { result ≡ returns_outside (known_in known.now) (bytes_of_form form.now) }
{
    match form {
        Form::Line(line_kind, _) => returns_pointer(*line_kind) && !is_of_procedure(known.body),
        _ => false,
    }
}

/// Whether a line has an operand or an argument of a wrong kind, misuses `main`, or returns where no `return` is allowed.
pub(crate) fn has_wrong_kind(
    items: &Declarations,
    known: &NamesSoFar,
    form: &Form<&[u8]>,
    line: ResolvedLine,
) -> bool
    requires { form_of line
        ≡ resolved_line (bytes_of_items items.now) (known_in known.now) (bytes_of_form form.now) }
    ensures { result
        ≡ has_wrong_kind (bytes_of_items items.now) (known_in known.now) (bytes_of_form form.now) }
{
    !is_right_line(items, line)
        || misuses_main(form)
        || returns_in_trap(known, form)
        || returns_outside(known, form)
}
