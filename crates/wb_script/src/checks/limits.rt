//! The limits of names, declarations and blocks.

ghost use Rattle.std.specs.Prelude.{◌≡◌, length};
ghost use Rattle.std.specs.List.{flat_map, list_any};
ghost use Rattle.wb_language.specs.Names.{has_long_class, has_long_name, has_more_parameters, is_large, is_long};
ghost use Rattle.wb_language.specs.Names.{is_long_name, is_one_more, passes_limit, parameter_type_of};
ghost use Rattle.wb_script.specs.Checks.{known_in, is_size_above, IsFew};
ghost use Rattle.wb_language.specs.Forms.{renamed_parameter_type};
ghost use Rattle.wb_lines.specs.BytesOf.{bytes_of_operand, bytes_of_operands, bytes_of_form, bytes_of_text};

use crate::checks::names_so_far::NamesSoFar;
use wb_basics::limits::{
    DEEPEST_BLOCK, LARGEST_BUFFER, LONGEST_NAME, MOST_CLASSES, MOST_EXTRA, MOST_FIELDS,
    MOST_LOCALS, MOST_PARAMETERS, MOST_PROCEDURES,
};
use wb_lines::forms::role;
use wb_tree::script_lines::{Form, LineKind, Operand, ParameterType, Role};

fn is_long_name(name: &[u8]) -> bool
    ensures { result ≡ is_long_name name.now }
{
    name.len() > LONGEST_NAME as usize
}

fn has_long_class(parameter_type: ParameterType<&[u8]>) -> bool
    ensures { result ≡ has_long_class (renamed_parameter_type bytes_of_text parameter_type.entry) }
{
    match parameter_type {
        ParameterType::OfClass(class) => is_long_name(class),
        ParameterType::Pointer | ParameterType::Number => false,
    }
}

/// Whether a name in an operand is too long. Both names of a field count, and so do both names of a parameter with a class.
fn is_long(operand: &Operand<&[u8]>) -> bool
    ensures { result ≡ is_long (bytes_of_operand operand.now) }
{
    match operand {
        Operand::Name(name) => is_long_name(name),
        Operand::Field(base, field) => is_long_name(base) || is_long_name(field),
        Operand::Parameter(name, parameter_type) => is_long_name(name)
            || has_long_class(*parameter_type),
        _ => false,
    }
}

fn any_long(operands: &[Operand<&[u8]>]) -> bool
    ensures { result ≡ list_any is_long (bytes_of_operands operands.now) }
{
    for operand in operands {
        if is_long(operand) {
            return true;
        }
    }
    false
}

/// Whether a line has a name that is longer than names may be.
fn has_long_name(form: &Form<&[u8]>) -> bool
    ensures { result ≡ has_long_name (bytes_of_form form.now) }
{
    match form {
        Form::Line(_, operands) => any_long(operands.as_slice()),
        _ => false,
    }
}

/// Whether the second of two operands is a size, and larger than `most`.
fn is_size_above(most: u32, operands: &[Operand<&[u8]>]) -> bool
    ensures { result ≡ is_size_above most (bytes_of_operands operands.now) }
{
    match operands {
        [_, Operand::Size(size)] => *size > most,
        _ => false,
    }
}

/// Whether a line declares a buffer with a larger maximum than a buffer may have, or begins a class with more extra bytes than a class may
/// have.
fn is_large(form: &Form<&[u8]>) -> bool
    ensures { result ≡ is_large (bytes_of_form form.now) }
{
    match form {
        Form::Line(LineKind::Class, operands) => is_size_above(MOST_EXTRA, operands.as_slice()),
        Form::Line(LineKind::Buf, operands) => is_size_above(LARGEST_BUFFER, operands.as_slice()),
        _ => false,
    }
}

/// How many of the operands declare parameters.
fn parameter_count(operands: &[Operand<&[u8]>]) -> usize
    ensures { result ≡ length (flat_map parameter_type_of (bytes_of_operands operands.now)) }
{
    let mut count = 0;
    for operand in operands {
        if matches!(operand, Operand::Parameter(..)) {
            count += 1;
        }
    }
    count
}

/// Whether a line declares more parameters than a procedure may have.
fn has_more_parameters(form: &Form<&[u8]>) -> bool
    ensures { result ≡ has_more_parameters (bytes_of_form form.now) }
{
    match form {
        Form::Line(_, operands) => {
            parameter_count(operands.as_slice()) > MOST_PARAMETERS as usize
        }
        _ => false,
    }
}

/// Whether a line with this role declares or begins one thing more than is allowed.
fn is_one_more(role: Role, known: &NamesSoFar) -> bool
    requires { IsFew known.now }
    ensures { result ≡ is_one_more role (known_in known.now) }
{
    match role {
        Role::Class => known.classes >= MOST_CLASSES as usize,
        Role::Field => known.fields.len() >= MOST_FIELDS as usize,
        Role::Procedure => known.bodies_before() >= MOST_PROCEDURES as usize,
        Role::Declaration => known.locals.len() >= MOST_LOCALS as usize,
        Role::Loop | Role::If => known.blocks.len() >= DEEPEST_BLOCK as usize,
        _ => false,
    }
}

/// Whether a line passes a limit.
pub(crate) fn passes_limit(known: &NamesSoFar, form: &Form<&[u8]>) -> bool
    requires { IsFew known.now }
    ensures { result ≡ passes_limit (known_in known.now) (bytes_of_form form.now) }
{
    has_long_name(form)
        || has_more_parameters(form)
        || is_one_more(role(form), known)
        || is_large(form)
}
