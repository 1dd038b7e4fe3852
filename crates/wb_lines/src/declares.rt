//! What a line declares or begins, by its form alone: a class, a procedure, an operation, a local, parameters, or a kind of body.

ghost use Rattle.std.specs.Prelude.{◌≡◌};
ghost use Rattle.std.specs.Option.{option_map, option_to_list};
ghost use Rattle.wb_language.specs.Forms.{renamed_parameter_type};
ghost use Rattle.wb_language.specs.Names.{body_in, body_kind_of, first_name, item_kind_in, item_kind_of};
ghost use Rattle.wb_language.specs.Names.{kind_of_parameter, local_kind_in, local_kind_of};
ghost use Rattle.wb_language.specs.Names.{parameter_type_of, second_name};
ghost use Rattle.wb_lines.specs.BytesOf.{bytes_of_form, bytes_of_kind, bytes_of_operand, bytes_of_operands};
ghost use Rattle.wb_lines.specs.BytesOf.{bytes_of_text};

use wb_tree::script_lines::{
    BodyKind, Form, ItemKind, LineKind, LocalKind, Operand, ParameterType,
};

/// What a line of this kind begins: a class, a procedure or an operation; `None` if it begins none of these.
fn item_kind_of(line_kind: LineKind) -> Option<ItemKind>
    ensures { result ≡ item_kind_of line_kind }
{
    match line_kind {
        LineKind::Class => Some(ItemKind::Class),
        LineKind::Proc => Some(ItemKind::Procedure),
        LineKind::Op => Some(ItemKind::Operation),
        _ => None,
    }
}

/// What a line begins: a class, a procedure or an operation; `None` if it begins none of these.
pub fn item_kind_in(form: &Form<&[u8]>) -> Option<ItemKind>
    ensures { result ≡ item_kind_in (bytes_of_form form.now) }
{
    match form {
        Form::Line(line_kind, _) => item_kind_of(*line_kind),
        _ => None,
    }
}

/// The name that is the first operand of a line; `None` if the first operand is no name. If the line declares a name, this is the declared
/// name.
pub fn first_name<'a>(form: &Form<&'a [u8]>) -> Option<&'a [u8]>
    ensures { option_to_list (option_map bytes_of_text result)
        ≡ first_name (bytes_of_form form.now) }
{
    match form {
        Form::Line(_, operands) => match operands.as_slice() {
            [Operand::Name(name), ..] => Some(*name),
            _ => None,
        },
        _ => None,
    }
}

/// The name that is the second operand of a line; `None` if the second operand is no name.
fn second_name<'a>(operands: &[Operand<&'a [u8]>]) -> Option<&'a [u8]>
    ensures { option_map bytes_of_text result ≡ second_name (bytes_of_operands operands.now) }
{
    match operands {
        [_, Operand::Name(name), ..] => Some(*name),
        _ => None,
    }
}

/// For a line of this kind with these operands, what the local that it declares holds; `None` if such a line declares no local.
fn local_kind_of<'a>(
    line_kind: LineKind,
    operands: &[Operand<&'a [u8]>],
) -> Option<LocalKind<&'a [u8]>>
    ensures { option_map bytes_of_kind result
        ≡ local_kind_of line_kind (bytes_of_operands operands.now) }
{
    match line_kind {
        LineKind::Ptr => Some(LocalKind::Pointer(None)),
        LineKind::ClassPtr => Some(LocalKind::Pointer(second_name(operands))),
        LineKind::Int => Some(LocalKind::Number),
        LineKind::Buf => Some(LocalKind::Buffer),
        LineKind::View => Some(LocalKind::View),
        _ => None,
    }
}

/// What the local that a line declares holds; `None` if the line declares no local. Parameters, which the first line of a body declares,
/// don't count here.
pub fn local_kind_in<'a>(form: &Form<&'a [u8]>) -> Option<LocalKind<&'a [u8]>>
    ensures { option_map bytes_of_kind result ≡ local_kind_in (bytes_of_form form.now) }
{
    match form {
        Form::Line(line_kind, operands) => local_kind_of(*line_kind, operands.as_slice()),
        _ => None,
    }
}

/// What a parameter's local holds if the parameter takes this.
pub fn kind_of_parameter<'a>(parameter_type: ParameterType<&'a [u8]>) -> LocalKind<&'a [u8]>
    ensures { bytes_of_kind result
        ≡ kind_of_parameter (renamed_parameter_type bytes_of_text parameter_type.entry) }
{
    match parameter_type {
        ParameterType::Pointer => LocalKind::Pointer(None),
        ParameterType::Number => LocalKind::Number,
        ParameterType::OfClass(class) => LocalKind::Pointer(Some(class)),
    }
}

/// What a parameter takes; `None` if the operand declares no parameter.
pub fn parameter_type_of<'a>(operand: &Operand<&'a [u8]>) -> Option<ParameterType<&'a [u8]>>
    ensures { option_to_list (option_map (renamed_parameter_type bytes_of_text) result)
        ≡ parameter_type_of (bytes_of_operand operand.now) }
{
    match operand {
        Operand::Parameter(_, parameter_type) => Some(*parameter_type),
        _ => None,
    }
}

/// The kind of body that a line of this kind begins; `None` if it begins no body.
fn body_kind_of(line_kind: LineKind) -> Option<BodyKind>
    ensures { result ≡ body_kind_of line_kind }
{
    match line_kind {
        LineKind::Proc => Some(BodyKind::Procedure),
        LineKind::Op => Some(BodyKind::Operation),
        LineKind::Constructor => Some(BodyKind::Constructor),
        LineKind::Destructor => Some(BodyKind::Destructor),
        _ => None,
    }
}

/// The kind of body that a line begins; `None` if it begins no body.
pub fn body_in(form: &Form<&[u8]>) -> Option<BodyKind>
    ensures { result ≡ body_in (bytes_of_form form.now) }
{
    match form {
        Form::Line(line_kind, _) => body_kind_of(*line_kind),
        _ => None,
    }
}
