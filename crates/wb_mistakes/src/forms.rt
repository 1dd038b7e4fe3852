//! The forms of the language's lines, as messages write them. A form is the first word of a line and placeholders for the line's operands.

use crate::lines::Line;
use wb_lines::forms::operand_of;
use wb_lines::line_kinds::{line_kinds, operand_places_of, rest_of, text_of};
use wb_lines::operand_places::OperandPlaces;
use wb_lines::words::text_of_keyword;
use wb_pages::{Page, Shown, Word};
use wb_tree::script_lines::{LineKind, OperandPlace};

/// The operand place of the word at `place` in lines of this kind. `place` is 0 for the first word, and counts operands from 1. The result
/// is `None` for the first word, or if lines of this kind can't have a word at `place`.
pub fn operand_place_at(line_kind: LineKind, place: usize) -> Option<OperandPlace> {
    if place == 0 {
        return None;
    }
    OperandPlaces::of(line_kind).at(place - 1)
}

/// The operand place of the word at `place` in a line, according to the kind of the line. The result is `None` for the first word, or if
/// such a line can't have a word at `place`.
pub fn operand_place_of(line: &Line, place: usize) -> Option<OperandPlace> {
    operand_place_at(line.line_kind()?, place)
}

/// Whether a line of this kind may have this number of words, counting the first word.
pub fn admits_count(line_kind: LineKind, words: usize) -> bool {
    OperandPlaces::of(line_kind).admit(words.saturating_sub(1))
}

pub fn begins_with(line_kind: LineKind, word: &[u8]) -> bool {
    text_of(line_kind) == word
}

/// Whether some form begins with a word.
pub fn begins_statement(word: &[u8]) -> bool {
    for line_kind in line_kinds() {
        if begins_with(*line_kind, word) {
            return true;
        }
    }
    false
}

fn fits_at(line_kind: LineKind, place: usize, word: &[u8]) -> bool {
    match operand_place_at(line_kind, place) {
        Some(operand_place) => operand_of(operand_place, word).is_some(),
        None => place == 0,
    }
}

/// The place of the first word that doesn't fit the form; `None` if all words fit.
pub fn first_wrong_word(line_kind: LineKind, words: &[Word]) -> Option<usize> {
    for (place, word) in words.iter().enumerate() {
        if !fits_at(line_kind, place, word.text) {
            return Some(place);
        }
    }
    None
}

/// The placeholder for an operand in a form that a message shows.
fn placeholder_of(operand_place: OperandPlace) -> &'static [u8] {
    match operand_place {
        OperandPlace::Declared | OperandPlace::ItsPointer | OperandPlace::Receiver => b"NAME",
        OperandPlace::Pointer | OperandPlace::Written | OperandPlace::FieldTarget => b"POINTER",
        OperandPlace::Value | OperandPlace::Source | OperandPlace::Size => b"NUMBER",
        OperandPlace::Variable | OperandPlace::Target => b"INT",
        OperandPlace::Writable => b"EDITED",
        OperandPlace::Readable => b"TEXT",
        OperandPlace::ViewName => b"VIEW",
        OperandPlace::Printed => b"NUMBER-OR-TEXT",
        OperandPlace::Class => b"CLASS",
        OperandPlace::Procedure => b"PROCEDURE",
        OperandPlace::Operation => b"OPERATION",
        OperandPlace::Parameter => b"PARAMETERS",
        OperandPlace::Argument => b"ARGUMENTS",
        OperandPlace::Keyword(keyword) => text_of_keyword(keyword),
    }
}

fn write_placeholder(page: &mut Page, operand_place: OperandPlace) {
    page.write(format_args!(" {}", Shown::word(placeholder_of(operand_place))));
}

/// Writes a form between backquotes, such as `alloc POINTER NUMBER`.
pub fn write_form(page: &mut Page, line_kind: LineKind) {
    page.write(format_args!("`{}", Shown::word(text_of(line_kind))));
    for operand_place in operand_places_of(line_kind) {
        write_placeholder(page, *operand_place);
    }
    if let Some(operand_place) = rest_of(line_kind) {
        write_placeholder(page, operand_place);
    }
    page.write("`");
}

/// Writes all forms that begin with a word, with `or` between them.
pub fn write_forms(page: &mut Page, word: &[u8]) {
    let mut is_first = true;
    for line_kind in line_kinds() {
        if begins_with(*line_kind, word) {
            if !is_first {
                page.write(" or ");
            }
            write_form(page, *line_kind);
            is_first = false;
        }
    }
}

/// Writes these forms, with `or` between them.
pub fn write_form_list(page: &mut Page, line_kinds: &[LineKind]) {
    for (index, line_kind) in line_kinds.iter().enumerate() {
        if index > 0 {
            page.write_text(" or ");
        }
        write_form(page, *line_kind);
    }
}

/// Says which forms begin with a word.
pub fn help_with_forms(page: &mut Page, word: &[u8]) {
    page.begin_help();
    page.write_text("its form is ");
    write_forms(page, word);
    page.end_line();
}
