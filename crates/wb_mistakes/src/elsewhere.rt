//! What an unknown name means in other places of the script.

use crate::further_lines::mark_name;
use crate::lines::Line;
use crate::spaces::{find_item, find_local, find_local_anywhere, has_self, line_of_field};
use wb_pages::{Page, Shown};
use wb_tree::script_lines::{ItemKind, LocalKind};

/// What a name means elsewhere in the script, and the index of the line that declares the name there.
#[derive(Clone, Copy)]
pub enum Elsewhere {
    /// A field of the class in whose body the name is used.
    FieldOfClass(usize),
    /// Something of another kind than the place of the name requires: a message that names this kind, and the index of the line that
    /// declares the name.
    OtherKind(&'static str, usize),
    /// A local of another body.
    OtherBody(usize),
}

fn item_problem(kind: ItemKind) -> &'static str {
    match kind {
        ItemKind::Class => "a class has this name",
        ItemKind::Procedure => "a procedure has this name",
        ItemKind::Operation => "an operation has this name",
    }
}

fn local_problem(kind: LocalKind<&[u8]>) -> &'static str {
    match kind {
        LocalKind::Pointer(_) => "a pointer of the body has this name",
        LocalKind::Number => "an int of the body has this name",
        LocalKind::Buffer => "a buffer of the body has this name",
        LocalKind::View => "a view of the body has this name",
    }
}

/// The index of the line that declares a field with this name, if the line at `index` is in a body of the field's class; `None` otherwise.
fn field_of_class(lines: &[Line], index: usize, name: &[u8]) -> Option<usize> {
    if has_self(lines, index) {
        line_of_field(lines, index, name)
    } else {
        None
    }
}

/// What a name means in other places of the script if the body has no local with this name. The name may be a field of the body's class, a
/// class, a procedure, an operation, or a local of another body. `None` if the name means none of these.
pub fn elsewhere_of_local(lines: &[Line], index: usize, name: &[u8]) -> Option<Elsewhere> {
    if let Some(field) = field_of_class(lines, index, name) {
        return Some(Elsewhere::FieldOfClass(field));
    }
    if let Some(item) = find_item(lines, name) {
        return Some(Elsewhere::OtherKind(item_problem(item.kind), item.line));
    }
    let local = find_local_anywhere(lines, name)?;
    Some(Elsewhere::OtherBody(local.line))
}

/// What a name means elsewhere if no class, procedure or operation has this name: a local of the body. `None` if the body declares no such
/// local before the line.
pub fn elsewhere_of_item(lines: &[Line], index: usize, name: &[u8]) -> Option<Elsewhere> {
    let local = find_local(lines, index, name)?;
    Some(Elsewhere::OtherKind(local_problem(local.kind), local.line))
}

/// Says what a name means elsewhere.
pub fn explain_elsewhere(page: &mut Page, lines: &[Line], name: &[u8], found: Elsewhere) {
    match found {
        Elsewhere::FieldOfClass(line) => {
            mark_name(
                page,
                lines,
                line,
                name,
                "the class has a field of this name",
            );
            page.write_help(format_args!(
                "a field is named through its object: `self.{}`",
                Shown::word(name)
            ));
        }
        Elsewhere::OtherKind(what, line) => mark_name(page, lines, line, name, what),
        Elsewhere::OtherBody(line) => mark_name(
            page,
            lines,
            line,
            name,
            "another body declares it here, but a name belongs to one body",
        ),
    }
}
