//! A name that is declared nowhere: the space in which the name was looked for, and the nearest name in this space.

use crate::counterparts::{CODE_AS_NUMBER, EXTRA_BYTES, NUMBER_RETURNED};
use crate::elsewhere::{Elsewhere, elsewhere_of_item, elsewhere_of_local, explain_elsewhere};
use crate::forms::operand_place_of;
use crate::further_lines::mark_line;
use crate::lines::Line;
use crate::misspelled::help_with_operand;
use crate::near_names::{nearest_field, nearest_item, nearest_local};
use crate::nearest::Candidate;
use crate::spaces::{body_of, class_of_holder, find_field, find_item, find_local, has_self};
use crate::words::{is_field, is_parameter};
use wb_lines::words::{after_first_of, before_first, is_name, is_reserved, parameter_type_of_word};
use wb_pages::{Page, Shown, Spot};
use wb_tree::script_lines::{ItemKind, LineKind, OperandPlace, ParameterType};

/// The help for a name that can't be declared.
const RESERVED: &str = "the name is reserved and can't be declared";

/// Words for texts in other languages, or in declarations of locals.
const TEXTS: [&[u8]; 5] = [b"text", b"string", b"des", b"buf", b"view"];

/// Where a name was looked for.
#[derive(Clone, Copy)]
enum Space {
    Items(ItemKind),
    /// The parameters and locals of a body.
    Locals,
    /// The fields of the class that the line with this index begins.
    Fields(usize),
}

/// An unknown name: its bytes, the column in which the name begins, and the space in which it was looked for.
#[derive(Clone, Copy)]
struct Unknown<'a> {
    name: &'a [u8],
    column: usize,
    space: Space,
}

fn unknown_at<'a>(name: &'a [u8], column: usize, space: Space) -> Option<Unknown<'a>> {
    Some(Unknown {
        name,
        column,
        space,
    })
}

fn is_local(lines: &[Line], index: usize, name: &[u8]) -> bool {
    if name == b"self".as_slice() {
        has_self(lines, index)
    } else {
        find_local(lines, index, name).is_some()
    }
}

/// The unknown name of a class, a procedure or an operation; `None` if something in the script has this name.
fn unknown_item<'a>(
    lines: &[Line],
    name: &'a [u8],
    column: usize,
    kind: ItemKind,
) -> Option<Unknown<'a>> {
    match find_item(lines, name) {
        Some(_) => None,
        None => unknown_at(name, column, Space::Items(kind)),
    }
}

/// The unknown name of a field, which the field's class doesn't declare. The result is `None` if the class declares the name, or if there
/// is no class. The name before the dot must be known.
fn unknown_field<'a>(
    lines: &[Line],
    index: usize,
    word: &'a [u8],
    column: usize,
) -> Option<Unknown<'a>> {
    let base = before_first(b'.', word);
    let name = after_first_of(b'.', word);
    match class_of_holder(lines, index, base) {
        Some(class) if find_field(lines, class, name).is_none() => unknown_at(
            name,
            column.saturating_add(base.len()).saturating_add(1),
            Space::Fields(class),
        ),
        _ => None,
    }
}

/// The unknown name in a word that a body uses. The word is a name or a field. The result is `None` if no name in the word is unknown.
fn unknown_in_body<'a>(
    lines: &[Line],
    index: usize,
    word: &'a [u8],
    column: usize,
) -> Option<Unknown<'a>> {
    let base = if is_field(word) {
        before_first(b'.', word)
    } else {
        word
    };
    if !is_name(base) {
        None
    } else if !is_local(lines, index, base) {
        unknown_at(base, column, Space::Locals)
    } else if is_field(word) {
        unknown_field(lines, index, word, column)
    } else {
        None
    }
}

/// The unknown name of a parameter's class. The result is `None` if something in the script has this name, or if the word isn't a parameter
/// with a class.
fn unknown_class<'a>(lines: &[Line], word: &'a [u8], column: usize) -> Option<Unknown<'a>> {
    if !is_parameter(word) {
        return None;
    }
    let Some(ParameterType::OfClass(class)) = parameter_type_of_word(word) else {
        return None;
    };
    let column = column
        .saturating_add(before_first(b':', word).len())
        .saturating_add(1);
    unknown_item(lines, class, column, ItemKind::Class)
}

/// The unknown name in a word that is in this operand place; `None` if no name in the word is unknown.
fn unknown_in_word<'a>(
    lines: &[Line],
    index: usize,
    operand_place: OperandPlace,
    word: &'a [u8],
    column: usize,
) -> Option<Unknown<'a>> {
    match operand_place {
        OperandPlace::Declared
        | OperandPlace::ItsPointer
        | OperandPlace::Size
        | OperandPlace::Keyword(_) => None,
        OperandPlace::Parameter => unknown_class(lines, word, column),
        OperandPlace::Class => unknown_item(lines, word, column, ItemKind::Class),
        OperandPlace::Procedure => unknown_item(lines, word, column, ItemKind::Procedure),
        OperandPlace::Operation => unknown_item(lines, word, column, ItemKind::Operation),
        _ => unknown_in_body(lines, index, word, column),
    }
}

/// The first unknown name of a line, with the operand place of its word; `None` if the line has no unknown name.
fn first_unknown<'a>(
    lines: &[Line<'a>],
    index: usize,
    line: &Line<'a>,
) -> Option<(Unknown<'a>, OperandPlace)> {
    for (place, word) in line.words.iter().enumerate() {
        if let Some(operand_place) = operand_place_of(line, place) {
            if let Some(found) = unknown_in_word(
                lines,
                index,
                operand_place,
                word.text,
                word.column,
            ) {
                return Some((found, operand_place));
            }
        }
    }
    None
}

fn item_word(kind: ItemKind) -> &'static str {
    match kind {
        ItemKind::Class => "class",
        ItemKind::Procedure => "procedure",
        ItemKind::Operation => "operation",
    }
}

/// Says which name is unknown, and where the name was looked for.
fn explain_problem(page: &mut Page, lines: &[Line], spot: Spot, space: Space) {
    let name = spot.shown_word();
    match space {
        Space::Items(kind) => page.mark(
            spot,
            format_args!(
                "unknown name: the script has no {} `{name}`",
                item_word(kind)
            ),
        ),
        Space::Locals => page.mark(
            spot,
            format_args!("unknown name: this body declares no `{name}`"),
        ),
        Space::Fields(class) => {
            let class = Shown::word(class_name(lines, class));
            page.mark(
                spot,
                format_args!("unknown name: class `{class}` has no field `{name}`"),
            );
        }
    }
}

/// The name of the class that begins at the line with index `class`.
pub fn class_name<'a>(lines: &[Line<'a>], class: usize) -> &'a [u8] {
    match lines.get(class) {
        Some(line) => line.text_at(1),
        None => &[],
    }
}

fn nearest_candidate<'a>(
    lines: &[Line<'a>],
    index: usize,
    found: Unknown,
) -> Option<Candidate<'a>> {
    match found.space {
        Space::Items(kind) => nearest_item(lines, kind, found.name),
        Space::Locals => nearest_local(lines, index, found.name),
        Space::Fields(class) => nearest_field(lines, class, found.name),
    }
}

/// Shows the line that begins the searched space.
fn mark_space(page: &mut Page, lines: &[Line], index: usize, space: Space) {
    match space {
        Space::Items(_) => {}
        Space::Locals => mark_line(page, lines, body_of(lines, index), "the body begins here"),
        Space::Fields(class) => mark_line(page, lines, class, "the class begins here"),
    }
}

/// Returns what an unknown name means elsewhere in the script; `None` if nothing was found.
fn find_elsewhere(lines: &[Line], index: usize, found: Unknown) -> Option<Elsewhere> {
    match found.space {
        Space::Items(_) => elsewhere_of_item(lines, index, found.name),
        Space::Locals => elsewhere_of_local(lines, index, found.name),
        Space::Fields(_) => None,
    }
}

/// The help for a local that isn't declared.
fn help_of_local(name: &[u8]) -> &'static str {
    if name == b"self".as_slice() {
        "`self` is known only in `construct` and `destroy`"
    } else if name == b"null".as_slice() || name == b"NULL".as_slice() {
        "`null POINTER` makes a pointer null; `null` can't be an operand"
    } else if name.starts_with(b"KErr") {
        CODE_AS_NUMBER
    } else if is_reserved(name) {
        RESERVED
    } else {
        "declare it above the first statement, with `ptr`, `int`, `buf` or `view`"
    }
}

/// The help for `int` where the name of a class is expected; `None` for any other name.
fn help_of_number_kind(line: &Line, name: &[u8]) -> Option<&'static str> {
    if name != b"int".as_slice() {
        return None;
    }
    match line.line_kind() {
        Some(LineKind::ClassField) => Some(EXTRA_BYTES),
        Some(LineKind::ClassPtr) => Some("`int NAME` declares an int"),
        _ => None,
    }
}

/// Whether a line is a `return` with the name of an error code.
fn returns_code(line: &Line, name: &[u8]) -> bool {
    matches!(line.line_kind(), Some(LineKind::ReturnPointer)) && name.starts_with(b"KErr")
}

/// Says how to declare an unknown name, for the case that no declared name is near.
fn help_with_declaration(page: &mut Page, found: Unknown) {
    match found.space {
        Space::Locals => page.write_help_text(help_of_local(found.name)),
        Space::Items(ItemKind::Class) if TEXTS.contains(&found.name) => page.write_help_text(
            "a pointer to a text has no class: write `NAME:ptr` for a parameter, and `ptr NAME` for a local",
        ),
        Space::Items(ItemKind::Class) if is_reserved(found.name) => page.write_help_text(
            "no class can have this name; `ptr NAME` and `field NAME` declare pointers without a class",
        ),
        _ if is_reserved(found.name) => page.write_help_text(RESERVED),
        Space::Items(kind) => {
            let what = item_word(kind);
            page.write_help(format_args!(
                "define the {what} anywhere in the script, above or below this line"
            ));
        }
        Space::Fields(_) => page.write_help_text("declare it in the class, with `field NAME`"),
    }
}

/// Says which declared name may be meant instead of the unknown name.
fn help_with_candidate(page: &mut Page, near: Candidate) {
    page.write_help(format_args!(
        "did you mean `{}`, declared on line {}?",
        Shown::word(near.word),
        near.line
    ));
}

/// Says which name of a line is declared nowhere.
pub fn explain_unknown_name(page: &mut Page, lines: &[Line], index: usize) {
    if let Some(line) = lines.get(index)
        && let Some((found, operand_place)) = first_unknown(lines, index, line)
    {
        explain_unknown(page, lines, index, line, found, operand_place);
    }
}

/// Says what is known about an unknown name in this operand place.
fn explain_unknown<'a>(
    page: &mut Page,
    lines: &[Line<'a>],
    index: usize,
    line: &Line<'a>,
    found: Unknown<'a>,
    operand_place: OperandPlace,
) {
    let spot = line.part(found.column, found.name);
    explain_problem(page, lines, spot, found.space);
    mark_space(page, lines, index, found.space);
    let elsewhere = find_elsewhere(lines, index, found);
    if let Some(elsewhere) = elsewhere {
        explain_elsewhere(page, lines, found.name, elsewhere);
    }
    match (nearest_candidate(lines, index, found), elsewhere) {
        (_, Some(Elsewhere::FieldOfClass(_))) => {}
        (Some(near), _) => help_with_candidate(page, near),
        (None, Some(Elsewhere::OtherKind(..))) => help_with_operand(page, line, operand_place),
        (None, _) => match help_of_number_kind(line, found.name) {
            Some(help) => page.write_help_text(help),
            None => help_with_declaration(page, found),
        },
    }
    if returns_code(line, found.name) {
        page.write_help_text(NUMBER_RETURNED);
    }
}
