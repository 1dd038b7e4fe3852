//! What the names of a script refer to, and the line that declares each name. This module names lines by their indexes.

use crate::blocks::{role, role_at};
use crate::lines::Line;
use wb_lines::declares::{item_kind_in, kind_of_parameter, local_kind_in};
use wb_tree::script_lines::{ItemKind, LineKind, LocalKind, Operand, ParameterType, Role};

/// A local: the kind of its value, and the index of the line that declares the local.
#[derive(Clone, Copy)]
pub struct LocalAt<'a> {
    pub kind: LocalKind<&'a [u8]>,
    pub line: usize,
}

/// A class, a procedure or an operation: which of these three it is, and the index of its first line.
#[derive(Clone, Copy)]
pub struct ItemAt {
    pub kind: ItemKind,
    pub line: usize,
}

/// The kind of the line with an index; `None` if there is no such line, or the line has no kind.
pub fn line_kind_at(lines: &[Line], index: usize) -> Option<LineKind> {
    lines.get(index)?.line_kind()
}

/// Returns the first class, procedure or operation with a name; `None` if nothing has this name.
pub fn find_item(lines: &[Line], name: &[u8]) -> Option<ItemAt> {
    for (index, line) in lines.iter().enumerate() {
        if let Some(kind) = item_kind_in(&line.form) {
            if line.text_at(1) == name {
                return Some(ItemAt { kind, line: index });
            }
        }
    }
    None
}

/// Returns the index of the line that begins the class with a name; `None` if no class has this name.
fn find_class(lines: &[Line], name: &[u8]) -> Option<usize> {
    match find_item(lines, name) {
        Some(
            ItemAt {
                kind: ItemKind::Class,
                line,
            },
        ) => Some(line),
        _ => None,
    }
}

/// The index of the line that begins the body around a line. The line itself may begin the body.
pub fn body_of(lines: &[Line], index: usize) -> usize {
    match lines.get(index) {
        Some(line) => line.body,
        None => 0,
    }
}

/// The index of the last line that begins a class, among the lines up to and including the line at `index`; `None` if there is no such
/// line.
pub fn class_before(lines: &[Line], index: usize) -> Option<usize> {
    let mut class = None;
    for (at, line) in lines.iter().enumerate() {
        if at <= index && matches!(role(line), Role::Class) {
            class = Some(at);
        }
    }
    class
}

/// Whether `self` is an object in the body of a line.
pub fn has_self(lines: &[Line], index: usize) -> bool {
    matches!(
        role_at(lines, body_of(lines, index)),
        Role::Construct | Role::Destroy
    )
}

/// The type of the parameter with this name, among these operands; `None` if there is no such parameter.
fn parameter_named<'a>(
    operands: &[Operand<&'a [u8]>],
    name: &[u8],
) -> Option<ParameterType<&'a [u8]>> {
    for operand in operands {
        match operand {
            Operand::Parameter(parameter, parameter_type) if *parameter == name => {
                return Some(*parameter_type);
            }
            _ => {}
        }
    }
    None
}

/// The kind of the local or parameter with this name, if this line declares it; `None` if the line doesn't declare it.
fn kind_by_line<'a>(line: &Line<'a>, name: &[u8]) -> Option<LocalKind<&'a [u8]>> {
    match parameter_named(line.operands(), name) {
        Some(parameter_type) => Some(kind_of_parameter(parameter_type)),
        None if line.text_at(1) == name => local_kind_in(&line.form),
        None => None,
    }
}

/// Whether a line is a statement. All declarations of a body must come before its first statement.
pub fn is_statement(line: &Line) -> bool {
    matches!(role(line), Role::Plain | Role::Loop | Role::If)
}

/// Returns the local with a name, among the locals that the body of the line at `index` declares before that line; `None` if there is no
/// such local.
pub fn find_local<'a>(lines: &[Line<'a>], index: usize, name: &[u8]) -> Option<LocalAt<'a>> {
    for at in body_of(lines, index)..index {
        let line = lines.get(at)?;
        if let Some(kind) = kind_by_line(line, name) {
            return Some(LocalAt { kind, line: at });
        }
        if is_statement(line) {
            return None;
        }
    }
    None
}

/// Returns the first local with a name in any body; `None` if no body has such a local.
pub fn find_local_anywhere<'a>(lines: &[Line<'a>], name: &[u8]) -> Option<LocalAt<'a>> {
    for (index, line) in lines.iter().enumerate() {
        if let Some(kind) = kind_by_line(line, name) {
            return Some(LocalAt { kind, line: index });
        }
    }
    None
}

/// The index of the line that begins the class of the object before a dot. The name before the dot is `self` or the name of a pointer. The
/// result is `None` if there is no such class.
pub fn class_of_holder(lines: &[Line], index: usize, base: &[u8]) -> Option<usize> {
    if base == b"self".as_slice() {
        return if has_self(lines, index) {
            class_before(lines, index)
        } else {
            None
        };
    }
    match find_local(lines, index, base) {
        Some(
            LocalAt {
                kind: LocalKind::Pointer(Some(class)),
                line: _,
            },
        ) => find_class(lines, class),
        _ => None,
    }
}

/// Returns the index of the line that declares the field with a name, in the class that begins at the line with index `class`. Returns
/// `None` if there is no such field.
pub fn find_field(lines: &[Line], class: usize, name: &[u8]) -> Option<usize> {
    for (index, line) in lines.iter().enumerate() {
        if index > class {
            match role(line) {
                Role::Skip => {}
                Role::Field if line.text_at(1) == name => return Some(index),
                Role::Field => {}
                _ => return None,
            }
        }
    }
    None
}

/// The index of the line that begins the first class, procedure or operation with a name; `None` if nothing has this name.
pub fn line_of_item(lines: &[Line], name: &[u8]) -> Option<usize> {
    Some(find_item(lines, name)?.line)
}

/// The index of the line that declares the local with a name, in the body of the line at `index` and before that line. The result is `None`
/// if there is no such local.
pub fn line_of_local(lines: &[Line], index: usize, name: &[u8]) -> Option<usize> {
    Some(find_local(lines, index, name)?.line)
}

/// The index of the line that declares the field with a name, in the last class that begins at or before the line at `index`. The result is
/// `None` if there is no such field.
pub fn line_of_field(lines: &[Line], index: usize, name: &[u8]) -> Option<usize> {
    find_field(lines, class_before(lines, index)?, name)
}
