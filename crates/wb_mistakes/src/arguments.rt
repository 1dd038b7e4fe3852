//! A call whose arguments don't fit the parameters of the procedure.

use crate::further_lines::mark_declaration;
use crate::lines::Line;
use crate::operand_kinds::{description_of, operand_kind_in_body};
use crate::spaces::find_item;
use wb_lines::operand_kinds::{is_number_kind, is_pointer_kind};
use wb_lines::words::{before_first, parameter_type_of_word};
use wb_pages::{Page, Shown, Spot, Word};
use wb_tree::script_lines::{LineKind, ParameterType};

/// The place of the procedure's name among the words of a line that calls a procedure.
fn procedure_place(line: &Line) -> usize {
    match line.line_kind() {
        Some(LineKind::CallTo) => 2,
        _ => 1,
    }
}

/// Whether a parameter takes an argument of the kind that a word has.
fn fits_parameter(lines: &[Line], index: usize, parameter: Word, word: &[u8]) -> bool {
    let operand_kind = operand_kind_in_body(lines, index, word);
    match parameter_type_of_word(parameter.text) {
        Some(ParameterType::Number) => is_number_kind(operand_kind),
        _ => is_pointer_kind(operand_kind),
    }
}

/// The place of the first parameter whose argument is of another kind, among the words of the procedure's first line; `None` if there is no
/// such parameter.
fn first_wrong_argument(
    lines: &[Line],
    index: usize,
    line: &Line,
    procedure: &Line,
) -> Option<usize> {
    let offset = procedure_place(line).saturating_sub(1);
    for (place, parameter) in procedure.words.iter().enumerate() {
        let word = line.text_at(place.saturating_add(offset));
        if place > 1 && !fits_parameter(lines, index, *parameter, word) {
            return Some(place);
        }
    }
    None
}

fn explain_count(page: &mut Page, line: &Line, procedure: &Line) {
    let place = procedure_place(line);
    page.mark(
        line.spot(place),
        format_args!(
            "wrong number of arguments: `{}` takes {}, but is given {}",
            Shown::word(line.text_at(place)),
            procedure.words.len().saturating_sub(2),
            line.words.len().saturating_sub(place).saturating_sub(1)
        ),
    );
}

fn explain_argument(page: &mut Page, lines: &[Line], index: usize, spot: Spot, parameter: &[u8]) {
    page.mark(
        spot,
        format_args!(
            "wrong kind: `{}` is {}, but the parameter is `{}`",
            spot.shown_word(),
            description_of(operand_kind_in_body(lines, index, spot.word)),
            Shown::word(parameter)
        ),
    );
    mark_declaration(page, lines, index, before_first(b'.', spot.word));
}

/// The first line of the procedure that a line calls; `None` if no class, procedure or operation of the script has the name in the call.
fn procedure_of<'l, 'a>(lines: &'l [Line<'a>], line: &Line) -> Option<&'l Line<'a>> {
    let item = find_item(lines, line.text_at(procedure_place(line)))?;
    lines.get(item.line)
}

fn explain_call(page: &mut Page, lines: &[Line], index: usize, line: &Line, procedure: &Line) {
    let offset = procedure_place(line).saturating_sub(1);
    let is_other_count = line.words.len() != procedure.words.len().saturating_add(offset);
    match first_wrong_argument(lines, index, line, procedure) {
        Some(place) if !is_other_count => {
            let spot = line.spot(place.saturating_add(offset));
            explain_argument(page, lines, index, spot, procedure.text_at(place));
        }
        _ => explain_count(page, line, procedure),
    }
}

/// Says how the arguments of a call differ from the parameters of the procedure.
pub fn explain_arguments(page: &mut Page, lines: &[Line], index: usize, line: &Line) {
    if let Some(procedure) = procedure_of(lines, line) {
        explain_call(page, lines, index, line, procedure);
        page.mark(procedure.spot(0), "the procedure begins here");
    }
}
