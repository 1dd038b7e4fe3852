//! The kind of a word in an operand place of a line: a pointer, an int, a class and so on. A `Referent` in this module holds the index of
//! the line that declares a name.

use crate::lines::Line;
use crate::spaces::{
    ItemAt, LocalAt, class_of_holder, find_field, find_item, find_local, has_self, line_of_item,
    line_of_local,
};
use wb_lines::forms::operand_of;
use wb_lines::operand_kinds;
use wb_lines::words::before_first;
use wb_tree::script_lines::{
    ItemKind, LocalKind, Operand, OperandKind, OperandPlace, ParameterType, Referent,
};

fn referent_of_item(item: ItemAt) -> Referent {
    match item.kind {
        ItemKind::Class => Referent::Class(item.line),
        ItemKind::Procedure => Referent::Procedure(item.line),
        ItemKind::Operation => Referent::Operation(item.line),
    }
}

fn referent_of_local(local: LocalAt) -> Referent {
    match local.kind {
        LocalKind::Pointer(_) => Referent::Pointer(local.line),
        LocalKind::Number => Referent::Number(local.line),
        LocalKind::Buffer => Referent::Buffer(local.line),
        LocalKind::View => Referent::View(local.line),
    }
}

fn item_referent(lines: &[Line], name: &[u8]) -> Referent {
    match find_item(lines, name) {
        Some(item) => referent_of_item(item),
        None => Referent::Nothing,
    }
}

fn local_referent(lines: &[Line], index: usize, name: &[u8]) -> Referent {
    if name == b"self".as_slice() {
        return if has_self(lines, index) {
            Referent::This
        } else {
            Referent::Nothing
        };
    }
    match find_local(lines, index, name) {
        Some(local) => referent_of_local(local),
        None => Referent::Nothing,
    }
}

fn name_referent(
    lines: &[Line],
    index: usize,
    operand_place: OperandPlace,
    name: &[u8],
) -> Referent {
    match operand_place {
        OperandPlace::Class | OperandPlace::Procedure | OperandPlace::Operation => {
            item_referent(lines, name)
        }
        OperandPlace::Declared => Referent::Declared(index),
        _ => local_referent(lines, index, name),
    }
}

fn field_of_class(lines: &[Line], class: usize, field: &[u8]) -> Referent {
    match find_field(lines, class, field) {
        Some(line) => Referent::Field(class, line),
        None => Referent::Nothing,
    }
}

fn field_referent(lines: &[Line], index: usize, base: &[u8], field: &[u8]) -> Referent {
    match class_of_holder(lines, index, base) {
        Some(class) => field_of_class(lines, class, field),
        None => Referent::Classless,
    }
}

/// The type of a parameter, in which a referent replaces the name of the class.
fn resolved_type(lines: &[Line], parameter_type: ParameterType<&[u8]>) -> ParameterType<Referent> {
    match parameter_type {
        ParameterType::Pointer => ParameterType::Pointer,
        ParameterType::Number => ParameterType::Number,
        ParameterType::OfClass(class) => ParameterType::OfClass(item_referent(lines, class)),
    }
}

/// An operand in this operand place, in which referents replace the names.
fn resolved_operand(
    lines: &[Line],
    index: usize,
    operand_place: OperandPlace,
    operand: Operand<&[u8]>,
) -> Operand<Referent> {
    match operand {
        Operand::Name(name) => Operand::Name(name_referent(lines, index, operand_place, name)),
        Operand::Field(base, field) => Operand::Field(
            local_referent(lines, index, base),
            field_referent(lines, index, base, field),
        ),
        Operand::Number(number) => Operand::Number(number),
        Operand::Size(size) => Operand::Size(size),
        Operand::Literal(_) => Operand::Literal(Referent::Literal(index)),
        Operand::Parameter(_, parameter_type) => Operand::Parameter(
            Referent::Parameter,
            resolved_type(lines, parameter_type),
        ),
        Operand::Keyword => Operand::Keyword,
    }
}

/// The kind of a word in this operand place; `Nothing` if the grammar doesn't allow the word there.
pub fn operand_kind_of(
    lines: &[Line],
    index: usize,
    operand_place: OperandPlace,
    word: &[u8],
) -> OperandKind {
    match operand_of(operand_place, word) {
        Some(operand) => operand_kinds::operand_kind_of(&resolved_operand(
            lines,
            index,
            operand_place,
            operand,
        )),
        None => OperandKind::Nothing,
    }
}

/// The kind of a word that a line of a body uses. The word is read as an operand of `print`, because `print` takes the most kinds.
pub fn operand_kind_in_body(lines: &[Line], index: usize, word: &[u8]) -> OperandKind {
    operand_kind_of(lines, index, OperandPlace::Printed, word)
}

/// The words by which messages describe an operand of this kind.
pub fn description_of(operand_kind: OperandKind) -> &'static str {
    match operand_kind {
        OperandKind::Pointer => "a pointer",
        OperandKind::This => "the object of this body, which no line can set",
        OperandKind::Field => "a field",
        OperandKind::Variable => "an int",
        OperandKind::Buffer => "a buffer",
        OperandKind::View => "a view",
        OperandKind::Number => "a number",
        OperandKind::Literal => "a text",
        OperandKind::Class => "a class",
        OperandKind::Procedure => "a procedure",
        OperandKind::Operation => "an operation",
        _ => "nothing that is allowed here",
    }
}

/// The index of the line that declares the thing that a word in this operand place refers to; `None` if no line declares it.
pub fn line_of_declaration(
    lines: &[Line],
    index: usize,
    operand_place: OperandPlace,
    word: &[u8],
) -> Option<usize> {
    match operand_place {
        OperandPlace::Class | OperandPlace::Procedure | OperandPlace::Operation => {
            line_of_item(lines, word)
        }
        _ => line_of_local(lines, index, before_first(b'.', word)),
    }
}
