//! Searches for names among the declared names: which names are declared again, and which are declared nowhere.

ghost use Rattle.std.specs.Prelude.{◌≡◌};
ghost use Rattle.std.specs.List.{flat_map, list_any};
ghost use Rattle.wb_language.specs.Names.{first_declaration_of, is_among, is_item_before, has_double};
ghost use Rattle.wb_language.specs.Names.{name_passed, names_of, parameter_names, is_declared_there};
ghost use Rattle.wb_language.specs.Names.{declares_again};
ghost use Rattle.wb_language.specs.Resolved.{has_unknown, refers_to_nothing, means_nothing, takes_nothing};
ghost use Rattle.wb_script.specs.Checks.{known_in, IsFew};
ghost use Rattle.wb_script.specs.ResolvedLines.{form_of};
ghost use Rattle.wb_lines.specs.BytesOf.{bytes_of_texts, bytes_of_operands, bytes_of_form};
ghost use Rattle.wb_script.specs.BytesOf.{bytes_of_items};

use crate::checks::declarations::Declarations;
use crate::checks::names_so_far::NamesSoFar;
use crate::checks::resolved_lines::ResolvedLine;
use wb_lines::declares::first_name;
use wb_lines::forms::role;
use wb_lines::same::are_same;
use wb_tree::script_lines::{Form, Operand, ParameterType, Referent, Role};

/// The index of the first of these names that is `name`; `None` if `name` isn't among them.
pub(crate) fn place_of(names: &[&[u8]], name: &[u8]) -> Option<usize>
    ensures { result ≡ first_declaration_of (bytes_of_texts names.now) name.now }
{
    for (index, known) in names.iter().enumerate() {
        if are_same(known, name) {
            return Some(index);
        }
    }
    None
}

/// Whether one of the first `before` items of the script's own space has this name.
fn is_item_before(items: &Declarations, before: usize, name: &[u8]) -> bool
    ensures { result ≡ is_item_before (names_of (bytes_of_items items.now)) before name.now }
{
    match items.place_of(name) {
        Some(index) => index < before,
        None => false,
    }
}

/// Whether an earlier line declares this name in the space in which a line with this role declares names.
fn is_declared_there(items: &Declarations, known: &NamesSoFar, role: Role, name: &[u8]) -> bool
    requires { IsFew known.now }
    ensures { result ≡ is_declared_there (names_of (bytes_of_items items.now)) (known_in known.now)
        role name.now }
{
    match role {
        Role::Class | Role::Procedure => is_item_before(items, known.items_before(), name),
        Role::Field => place_of(&known.fields, name).is_some(),
        Role::Declaration => place_of(&known.locals, name).is_some(),
        _ => false,
    }
}

/// Whether one of the operands declares a parameter with this name.
fn is_parameter(operands: &[Operand<&[u8]>], name: &[u8]) -> bool
    ensures { result ≡ is_among (flat_map name_passed (bytes_of_operands operands.now)) name.now }
{
    for operand in operands {
        match operand {
            Operand::Parameter(other, _) => {
                if *other == name {
                    return true;
                }
            }
            _ => {}
        }
    }
    false
}

/// Whether two of the operands declare parameters with the same name.
fn has_double(operands: &[Operand<&[u8]>]) -> bool
    ensures { result ≡ has_double (flat_map name_passed (bytes_of_operands operands.now)) }
{
    for (index, operand) in operands.iter().enumerate() {
        match operand {
            Operand::Parameter(name, _) => {
                if is_parameter(&operands[index + 1..], name) {
                    return true;
                }
            }
            _ => {}
        }
    }
    false
}

/// Whether a line declares two parameters with the same name.
fn has_double_parameter(form: &Form<&[u8]>) -> bool
    ensures { result ≡ has_double (parameter_names (bytes_of_form form.now)) }
{
    match form {
        Form::Line(_, operands) => has_double(operands.as_slice()),
        _ => false,
    }
}

/// Whether a line declares a name that an earlier line declares in the same space, or declares two parameters with the same name.
pub(crate) fn declares_again(items: &Declarations, known: &NamesSoFar, form: &Form<&[u8]>) -> bool
    requires { IsFew known.now }
    ensures { result ≡ declares_again (names_of (bytes_of_items items.now)) (known_in known.now)
        (bytes_of_form form.now) }
{
    let again = match first_name(form) {
        Some(name) => is_declared_there(items, known, role(form), name),
        None => false,
    };
    again || has_double_parameter(form)
}

fn refers_to_nothing(referent: Referent) -> bool
    ensures { result ≡ refers_to_nothing referent }
{
    matches!(referent, Referent::Nothing)
}

fn takes_nothing(parameter_type: ParameterType<Referent>) -> bool
    ensures { result ≡ takes_nothing parameter_type }
{
    match parameter_type {
        ParameterType::OfClass(class) => refers_to_nothing(class),
        ParameterType::Pointer | ParameterType::Number => false,
    }
}

fn means_nothing(operand: &Operand<Referent>) -> bool
    ensures { result ≡ means_nothing operand.now }
{
    match operand {
        Operand::Name(name) => refers_to_nothing(*name),
        Operand::Field(base, field) => refers_to_nothing(*base) || refers_to_nothing(*field),
        Operand::Parameter(_, parameter_type) => takes_nothing(*parameter_type),
        _ => false,
    }
}

fn any_nothing(operands: &[Operand<Referent>]) -> bool
    ensures { result ≡ list_any means_nothing operands.now }
{
    for operand in operands {
        if means_nothing(operand) {
            return true;
        }
    }
    false
}

/// Whether a line uses a name that is declared nowhere.
pub(crate) fn has_unknown(line: ResolvedLine) -> bool
    ensures { result ≡ has_unknown (form_of line.entry) }
{
    match line {
        ResolvedLine::Line(_, operands) => any_nothing(operands),
        _ => false,
    }
}
