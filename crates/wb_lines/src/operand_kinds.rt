//! The kind of an operand, and which kinds are right in which operand place of a line.

ghost use Rattle.std.specs.Prelude.{◌≡◌};
ghost use Rattle.wb_language.specs.Kinds.{operand_kind_of, operand_kind_of_class, operand_kind_of_field};
ghost use Rattle.wb_language.specs.Kinds.{operand_kind_of_name, operand_kind_of_type};
ghost use Rattle.wb_language.specs.LineKinds.{is_pointer_kind, takes};
ghost use Rattle.wb_tree.specs.declared.script_lines.OperandPlace.TheVariants as operand_place;

use wb_tree::script_lines::{Operand, OperandKind, OperandPlace, ParameterType, Referent};

/// Whether an operand of this kind is a pointer that can be read.
pub fn is_pointer_kind(operand_kind: OperandKind) -> bool
    ensures { result ≡ is_pointer_kind operand_kind }
{
    matches!(
        operand_kind,
        OperandKind::Pointer | OperandKind::This | OperandKind::Field
    )
}

/// Whether an operand of this kind is a number that can be read.
pub fn is_number_kind(operand_kind: OperandKind) -> bool
    ensures { result ≡ takes operand_place.Value operand_kind }
{
    matches!(operand_kind, OperandKind::Number | OperandKind::Variable)
}

/// Whether an operand of this kind is a text that can be read, or a pointer, which may be a pointer to a text.
fn is_text_kind(operand_kind: OperandKind) -> bool
    ensures { result ≡ takes operand_place.Readable operand_kind }
{
    matches!(
        operand_kind,
        OperandKind::Buffer | OperandKind::View | OperandKind::Literal
    ) || is_pointer_kind(operand_kind)
}

/// Whether an operand of this kind is right in this operand place.
pub fn takes(operand_place: OperandPlace, operand_kind: OperandKind) -> bool
    ensures { result ≡ takes operand_place operand_kind }
{
    match operand_place {
        OperandPlace::Declared => matches!(operand_kind, OperandKind::Declared),
        OperandPlace::Pointer => is_pointer_kind(operand_kind),
        OperandPlace::Written => matches!(operand_kind, OperandKind::Pointer | OperandKind::Field),
        OperandPlace::Receiver => matches!(operand_kind, OperandKind::Pointer),
        OperandPlace::FieldTarget => matches!(operand_kind, OperandKind::Field),
        OperandPlace::Value => is_number_kind(operand_kind),
        OperandPlace::Variable => matches!(operand_kind, OperandKind::Variable),
        OperandPlace::Target => matches!(
            operand_kind,
            OperandKind::Pointer | OperandKind::Variable
        ),
        OperandPlace::Source | OperandPlace::Argument => is_number_kind(operand_kind)
            || is_pointer_kind(operand_kind),
        OperandPlace::Size => matches!(operand_kind, OperandKind::Size),
        OperandPlace::Writable => matches!(operand_kind, OperandKind::Buffer)
            || is_pointer_kind(operand_kind),
        OperandPlace::Readable => is_text_kind(operand_kind),
        OperandPlace::ViewName => matches!(operand_kind, OperandKind::View),
        OperandPlace::Printed => is_number_kind(operand_kind) || is_text_kind(operand_kind),
        OperandPlace::Class => matches!(operand_kind, OperandKind::Class),
        OperandPlace::Procedure => matches!(operand_kind, OperandKind::Procedure),
        OperandPlace::Operation => matches!(operand_kind, OperandKind::Operation),
        OperandPlace::Parameter | OperandPlace::ItsPointer => matches!(
            operand_kind,
            OperandKind::Parameter
        ),
        OperandPlace::Keyword(_) => matches!(operand_kind, OperandKind::Keyword),
    }
}

/// The kind of an operand that is a name, depending on what the name stands for.
fn operand_kind_of_name(referent: Referent) -> OperandKind
    ensures { result ≡ operand_kind_of_name referent }
{
    match referent {
        Referent::Declared(_) => OperandKind::Declared,
        Referent::Pointer(_) => OperandKind::Pointer,
        Referent::Number(_) => OperandKind::Variable,
        Referent::Buffer(_) => OperandKind::Buffer,
        Referent::View(_) => OperandKind::View,
        Referent::This => OperandKind::This,
        Referent::Class(_) => OperandKind::Class,
        Referent::Procedure(_) => OperandKind::Procedure,
        Referent::Operation(_) => OperandKind::Operation,
        Referent::Literal(_) | Referent::Field(..) | Referent::Classless => OperandKind::Nothing,
        Referent::Parameter | Referent::Nothing => OperandKind::Nothing,
    }
}

/// The kind of an operand that is a field, depending on what the name of the field stands for.
fn operand_kind_of_field(field: Referent) -> OperandKind
    ensures { result ≡ operand_kind_of_field field }
{
    match field {
        Referent::Field(..) => OperandKind::Field,
        _ => OperandKind::Nothing,
    }
}

/// The kind of an operand that declares a parameter, depending on what the parameter takes: `Nothing` if the name after the colon isn't the
/// name of a class.
fn operand_kind_of_type(parameter_type: ParameterType<Referent>) -> OperandKind
    ensures { result ≡ operand_kind_of_type parameter_type }
{
    match parameter_type {
        ParameterType::Pointer | ParameterType::Number => OperandKind::Parameter,
        ParameterType::OfClass(Referent::Class(_)) => OperandKind::Parameter,
        ParameterType::OfClass(_) => OperandKind::Nothing,
    }
}

/// The kind of an operand, depending on what its names refer to.
pub fn operand_kind_of(operand: &Operand<Referent>) -> OperandKind
    ensures { result ≡ operand_kind_of operand.now }
{
    match operand {
        Operand::Name(referent) => operand_kind_of_name(*referent),
        Operand::Field(_, field) => operand_kind_of_field(*field),
        Operand::Number(_) => OperandKind::Number,
        Operand::Size(_) => OperandKind::Size,
        Operand::Literal(_) => OperandKind::Literal,
        Operand::Parameter(_, parameter_type) => operand_kind_of_type(*parameter_type),
        Operand::Keyword => OperandKind::Keyword,
    }
}
