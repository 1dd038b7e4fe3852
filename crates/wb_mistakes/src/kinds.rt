//! An operand of a wrong kind: what its place requires, what the operand is, and where the operand is declared.

use crate::arguments::explain_arguments;
use crate::blocks::{Blocks, role, role_at};
use crate::forms::operand_place_of;
use crate::further_lines::{mark_declaration, mark_line, mark_name};
use crate::lines::Line;
use crate::misspelled::help_with_operand;
use crate::operand_kinds::{
    description_of, line_of_declaration, operand_kind_in_body, operand_kind_of,
};
use crate::spaces::{body_of, class_of_holder, line_kind_at, line_of_item};
use crate::words::{is_field, is_parameter};
use wb_lines::operand_kinds::{is_pointer_kind, takes};
use wb_lines::words::{after_first_of, before_first};
use wb_pages::{Page, Shown, Spot, Word};
use wb_tree::script_lines::{LineKind, OperandKind, OperandPlace, Role};

/// Whether a word is of a kind that this operand place takes.
fn fits_letter(lines: &[Line], index: usize, operand_place: OperandPlace, word: &[u8]) -> bool {
    takes(
        operand_place,
        operand_kind_of(lines, index, operand_place, word),
    )
}

/// Whether a word is of a kind that its operand place takes; true if the word has no operand place.
fn fits_place(
    lines: &[Line],
    index: usize,
    operand_place: Option<OperandPlace>,
    word: &[u8],
) -> bool {
    match operand_place {
        Some(operand_place) => fits_letter(lines, index, operand_place, word),
        None => true,
    }
}

/// The place of the first word of a wrong kind; `None` if there is no such word.
fn first_wrong_operand(lines: &[Line], index: usize, line: &Line) -> Option<usize> {
    for (place, word) in line.words.iter().enumerate() {
        if !fits_place(lines, index, operand_place_of(line, place), word.text) {
            return Some(place);
        }
    }
    None
}

/// Says of which kind a word is, and shows the word.
fn mark_kind(page: &mut Page, spot: Spot, is: &str) {
    page.mark(
        spot,
        format_args!("wrong kind: `{}` is {is}", spot.shown_word()),
    );
}

/// The part of a field before the dot, as a part of the line to show.
fn spot_of_holder<'a>(line: &Line<'a>, word: Word<'a>) -> Spot<'a> {
    line.part(word.column, before_first(b'.', word.text))
}

/// The name of the class in the word of a parameter, as a part of the line to show.
fn spot_of_class<'a>(line: &Line<'a>, word: Word<'a>) -> Spot<'a> {
    let class = after_first_of(b':', word.text);
    let end = word.column.saturating_add(word.text.len());
    line.part(end.saturating_sub(class.len()), class)
}

/// Says why the name before a dot has no fields.
fn explain_holder(page: &mut Page, lines: &[Line], index: usize, spot: Spot) {
    let is = match operand_kind_in_body(lines, index, spot.word) {
        OperandKind::Pointer => "a pointer without a class, so it has no fields",
        operand_kind => description_of(operand_kind),
    };
    mark_kind(page, spot, is);
    mark_declaration(page, lines, index, spot.word);
    page.write_help_text(
        "only a pointer that is declared with its class has fields: `ptr NAME CLASS`",
    );
}

/// Says that the name in the class's place of a parameter isn't the name of a class.
fn explain_parameter(page: &mut Page, lines: &[Line], spot: Spot) {
    mark_kind(page, spot, "not a class");
    if let Some(item) = line_of_item(lines, spot.word) {
        mark_name(page, lines, item, spot.word, "declared here");
    }
    page.write_help_text("a parameter is `NAME:ptr`, `NAME:int` or `NAME:CLASS`");
}

fn explain_name(
    page: &mut Page,
    lines: &[Line],
    index: usize,
    operand_place: OperandPlace,
    spot: Spot,
) {
    let operand_kind = operand_kind_of(lines, index, operand_place, spot.word);
    mark_kind(page, spot, description_of(operand_kind));
    if let Some(declared) = line_of_declaration(lines, index, operand_place, spot.word) {
        mark_name(
            page,
            lines,
            declared,
            before_first(b'.', spot.word),
            "declared here",
        );
    }
}

/// Whether a word is a field, and the name before its dot has no class.
fn is_field_without_class(lines: &[Line], index: usize, word: &[u8]) -> bool {
    is_field(word) && class_of_holder(lines, index, before_first(b'.', word)).is_none()
}

/// Says what is wrong with the word at a place.
fn explain_operand(page: &mut Page, lines: &[Line], index: usize, line: &Line, place: usize) {
    let Some(word) = line.word(place) else {
        return;
    };
    if is_parameter(word.text) {
        explain_parameter(page, lines, spot_of_class(line, word));
    } else if is_field_without_class(lines, index, word.text) {
        explain_holder(page, lines, index, spot_of_holder(line, word));
    } else {
        let operand_place = operand_place_of(line, place).unwrap_or(OperandPlace::Argument);
        explain_name(page, lines, index, operand_place, line.spot(place));
        help_with_operand(page, line, operand_place);
        help_with_pop(page, lines, index, line);
    }
}

/// Says how a script pops the item of a pointer, if a line pops with a pointer where a number is required.
fn help_with_pop(page: &mut Page, lines: &[Line], index: usize, line: &Line) {
    let pops = matches!(line.line_kind(), Some(LineKind::Pop | LineKind::PopDestroy));
    if pops && is_pointer_kind(operand_kind_in_body(lines, index, line.text_at(1))) {
        page.write_help_text(
            "`popcheck POINTER` pops the newest item, which must be that pointer's",
        );
    }
}

/// Whether a line is a `set` with a pointer on one side, and no pointer on the other side.
fn sides_differ(lines: &[Line], index: usize, line: &Line) -> bool {
    let target = operand_kind_in_body(lines, index, line.text_at(1));
    let source = operand_kind_in_body(lines, index, line.text_at(2));
    matches!(line.line_kind(), Some(LineKind::Set))
        && is_pointer_kind(target) != is_pointer_kind(source)
}

fn explain_sides(page: &mut Page, lines: &[Line], index: usize, line: &Line) {
    let (target, source) = (line.text_at(1), line.text_at(2));
    page.mark(
        line.spot(2),
        format_args!(
            "wrong kind: `{}` is {}, but `{}` is {}",
            Shown::word(target),
            description_of(operand_kind_in_body(lines, index, target)),
            Shown::word(source),
            description_of(operand_kind_in_body(lines, index, source))
        ),
    );
    mark_declaration(page, lines, index, target);
    mark_declaration(page, lines, index, before_first(b'.', source));
    page.write_help_text("`set` takes two pointers, or an int and a number");
}

/// Whether a line declares `main` with parameters, or as a class or an operation.
fn misuses_main(line: &Line) -> bool {
    let begins_item = matches!(role(line), Role::Class | Role::Procedure);
    let is_plain = matches!(line.line_kind(), Some(LineKind::Proc)) && line.words.len() == 2;
    begins_item && line.text_at(1) == b"main".as_slice() && !is_plain
}

fn explain_main(page: &mut Page, line: &Line) {
    page.mark(
        line.whole(),
        "`main` must be a procedure without parameters",
    );
    page.write_help_text(match line.line_kind() {
        Some(LineKind::Proc) => "write only `proc main`: it gets no arguments when the run begins",
        _ => "the run begins with `proc main`; give this another name",
    });
}

/// The index of the first line of the innermost open `trap`; `None` if no `trap` is open.
fn open_trap(lines: &[Line], blocks: &Blocks) -> Option<usize> {
    let mut trap = None;
    for block in &blocks.open {
        if matches!(line_kind_at(lines, block.line), Some(LineKind::Trap)) {
            trap = Some(block.line);
        }
    }
    trap
}

/// Says why a `return` is not allowed where it is.
fn explain_return(page: &mut Page, lines: &[Line], index: usize, line: &Line, blocks: &Blocks) {
    match open_trap(lines, blocks) {
        Some(trap) => {
            page.mark(line.whole(), "`return` is not allowed inside a `trap`");
            mark_line(page, lines, trap, "the block begins here");
            page.write_help_text("end the `trap` first, and return after it");
        }
        None => {
            let body = body_of(lines, index);
            page.mark(line.whole(), "only a procedure can return a pointer");
            mark_line(page, lines, body, "the body begins here");
            page.write_help_text(help_of_return(role_at(lines, body)));
        }
    }
}

/// The help on how to end a body that isn't a procedure's. In a body that must not leave, no `return` is allowed at all.
fn help_of_return(body: Role) -> &'static str {
    match body {
        Role::Construct => "`return` without a pointer ends the body",
        _ => {
            "an operation and a `destroy` body have no `return` and run to their `end`; `if` can skip lines"
        }
    }
}

fn ends_body(line: &Line) -> bool {
    matches!(
        line.line_kind(),
        Some(LineKind::Return | LineKind::ReturnPointer)
    )
}

/// Says which operand of a line is of a wrong kind, or why the line is not allowed where it is.
pub fn explain_wrong_kind(page: &mut Page, lines: &[Line], index: usize, blocks: &Blocks) {
    let Some(line) = lines.get(index) else {
        return;
    };
    if let Some(place) = first_wrong_operand(lines, index, line) {
        explain_operand(page, lines, index, line, place);
    } else if sides_differ(lines, index, line) {
        explain_sides(page, lines, index, line);
    } else if misuses_main(line) {
        explain_main(page, line);
    } else if ends_body(line) {
        explain_return(page, lines, index, line, blocks);
    } else {
        explain_arguments(page, lines, index, line);
    }
}
