//! The declared name that is nearest to an unknown name.

use crate::blocks::role;
use crate::lines::Line;
use crate::nearest::{Candidate, Search};
use crate::spaces::body_of;
use wb_lines::declares::{body_in, item_kind_in, local_kind_in};
use wb_tree::script_lines::{BodyKind, ItemKind, Operand, Role};

fn is_item(line: &Line, kind: ItemKind) -> bool {
    matches!(
        (item_kind_in(&line.form), kind),
        (Some(ItemKind::Class), ItemKind::Class)
            | (Some(ItemKind::Procedure), ItemKind::Procedure)
            | (Some(ItemKind::Operation), ItemKind::Operation)
    )
}

/// The class, procedure or operation with the nearest name. `kind` says which of these three to search for. The result is `None` if no name
/// is near.
pub fn nearest_item<'a>(lines: &[Line<'a>], kind: ItemKind, name: &[u8]) -> Option<Candidate<'a>> {
    let mut search = Search::of(name);
    for (index, line) in lines.iter().enumerate() {
        if is_item(line, kind) {
            search.consider(line.text_at(1), index + 1);
        }
    }
    search.found
}

impl<'w, 'a> Search<'w, 'a> {
    fn consider_parameters(&mut self, operands: &[Operand<&'a [u8]>], number: usize) {
        for operand in operands {
            if let Operand::Parameter(name, _) = operand {
                self.consider(name, number);
            }
        }
    }

    /// Considers the names that one line declares for its body.
    fn consider_declared(&mut self, line: &Line<'a>, number: usize) {
        self.consider_parameters(line.operands(), number);
        match body_in(&line.form) {
            Some(BodyKind::Constructor | BodyKind::Destructor) => self.consider(b"self", number),
            _ if local_kind_in(&line.form).is_some() => self.consider(line.text_at(1), number),
            _ => {}
        }
    }
}

/// The local with the nearest name, among the locals that the body of the line at `index` declares before that line; `None` if no name is
/// near.
pub fn nearest_local<'a>(lines: &[Line<'a>], index: usize, name: &[u8]) -> Option<Candidate<'a>> {
    let body = body_of(lines, index);
    let mut search = Search::of(name);
    for (at, line) in lines.iter().enumerate() {
        if at >= body && at < index {
            search.consider_declared(line, at + 1);
        }
    }
    search.found
}

/// The field with the nearest name, in the class that begins at the line with index `class`; `None` if no name is near.
pub fn nearest_field<'a>(lines: &[Line<'a>], class: usize, name: &[u8]) -> Option<Candidate<'a>> {
    let mut search = Search::of(name);
    for (index, line) in lines.iter().enumerate() {
        if index > class {
            match role(line) {
                Role::Field => search.consider(line.text_at(1), index + 1),
                Role::Skip => {}
                _ => return search.found,
            }
        }
    }
    search.found
}
