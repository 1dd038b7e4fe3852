//! A name that is declared twice, and the line of its first declaration.

use crate::blocks::role;
use crate::further_lines::mark_name;
use crate::lines::Line;
use crate::spaces::{line_of_field, line_of_item, line_of_local};
use crate::words::{is_parameter, is_parameter_named};
use wb_lines::words::before_first;
use wb_pages::{Page, Spot, Word};
use wb_tree::script_lines::Role;

/// Says that a name is declared a second time, and shows the second declaration.
fn mark_again(page: &mut Page, spot: Spot) {
    page.mark(
        spot,
        format_args!("`{}` is declared a second time", spot.shown_word()),
    );
}

/// The index of the earlier line that declares, in the same space, the name that this line declares; `None` if there is no such line.
fn first_declaration(lines: &[Line], index: usize, line: &Line) -> Option<usize> {
    let name = line.text_at(1);
    let first = match role(line) {
        Role::Class | Role::Procedure => line_of_item(lines, name),
        Role::Field => line_of_field(lines, index, name),
        Role::Declaration => line_of_local(lines, index, name),
        _ => None,
    };
    match first {
        Some(first) if first < index => Some(first),
        _ => None,
    }
}

/// Whether one of the words before a place declares a parameter with this name.
fn has_parameter_before(words: &[Word], place: usize, name: &[u8]) -> bool {
    for (at, word) in words.iter().enumerate() {
        if at < place && is_parameter_named(word.text, name) {
            return true;
        }
    }
    false
}

/// The first parameter of a line that has the name of an earlier parameter; `None` if there is no such parameter.
fn repeated_parameter<'a>(line: &Line<'a>) -> Option<Spot<'a>> {
    for (place, word) in line.words.iter().enumerate() {
        let name = before_first(b':', word.text);
        if is_parameter(word.text) && has_parameter_before(&line.words, place, name) {
            return Some(line.part(word.column, name));
        }
    }
    None
}

fn help_for_role(role: Role) -> &'static str {
    match role {
        Role::Class | Role::Procedure => {
            "the classes, procedures and operations of a script all have different names"
        }
        Role::Field => "the fields of a class all have different names",
        _ => "the parameters and declarations of a body all have different names",
    }
}

/// Says which name a line declares a second time, and where the name is declared first.
pub fn explain_double_name(page: &mut Page, lines: &[Line], index: usize) {
    let Some(line) = lines.get(index) else {
        return;
    };
    match first_declaration(lines, index, line) {
        Some(first) => {
            mark_again(page, line.spot(1));
            mark_name(page, lines, first, line.text_at(1), "first declared here");
            page.write_help_text(help_for_role(role(line)));
        }
        None => {
            if let Some(spot) = repeated_parameter(line) {
                mark_again(page, spot);
                page.write_help_text(help_for_role(Role::Declaration));
            }
        }
    }
}
