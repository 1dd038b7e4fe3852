//! A limit that a line exceeds: which limit, and what was counted.

use crate::blocks::{Blocks, role, role_at};
use crate::lines::Line;
use crate::spaces::{body_of, class_before};
use crate::words::is_parameter;
use wb_basics::limits::{
    DEEPEST_BLOCK, LARGEST_BUFFER, LONGEST_NAME, MOST_CLASSES, MOST_EXTRA, MOST_FIELDS,
    MOST_LOCALS, MOST_PARAMETERS, MOST_PROCEDURES,
};
use wb_lines::declares::parameter_type_of;
use wb_lines::forms::operand_of;
use wb_lines::words::{after_first_of, before_first, is_name};
use wb_pages::{Page, Span};
use wb_tree::script_lines::{LineKind, Operand, OperandPlace, Role};

/// An excess over a limit: what was counted, the count, the limit, and the part of the line that exceeds the limit.
#[derive(Clone, Copy)]
struct Excess {
    what: &'static str,
    counted: usize,
    most: u32,
    span: Span,
}

fn is_long(name: &[u8]) -> bool {
    name.len() > LONGEST_NAME as usize && is_name(name)
}

/// The length in bytes of a name in a word, if the name is longer than names may be; 0 if the word has no such name.
fn long_name_length(word: &[u8]) -> usize {
    let byte = if is_parameter(word) { b':' } else { b'.' };
    if is_long(before_first(byte, word)) {
        before_first(byte, word).len()
    } else if is_long(after_first_of(byte, word)) {
        after_first_of(byte, word).len()
    } else {
        0
    }
}

fn name_excess(line: &Line) -> Option<Excess> {
    for word in &line.words {
        let counted = long_name_length(word.text);
        if counted > 0 {
            return Some(Excess {
                what: "bytes in a name",
                counted,
                most: LONGEST_NAME,
                span: word.span(),
            });
        }
    }
    None
}

/// The number of parameters that a line declares. The pointer of an operation counts as a parameter.
fn parameter_count(line: &Line) -> usize {
    let mut count: usize = 0;
    for operand in line.operands() {
        if parameter_type_of(operand).is_some() {
            count = count.saturating_add(1);
        }
    }
    count
}

/// Whether a line has the wanted role: the role of classes, of fields, of procedures and operations, or of declarations. For any other
/// wanted role the result is false.
fn has_role(line: &Line, wanted: Role) -> bool {
    matches!(
        (role(line), wanted),
        (Role::Class, Role::Class)
            | (Role::Field, Role::Field)
            | (Role::Procedure, Role::Procedure)
            | (Role::Declaration, Role::Declaration)
    )
}

/// The number of lines with a role from the index `from` to the index `to`, both included.
fn count_between(lines: &[Line], from: usize, to: usize, wanted: Role) -> usize {
    let mut count: usize = 0;
    for (index, line) in lines.iter().enumerate() {
        if index >= from && index <= to && has_role(line, wanted) {
            count = count.saturating_add(1);
        }
    }
    count
}

/// The number of locals and parameters that a body has up to the line at an index.
fn local_count(lines: &[Line], index: usize) -> usize {
    let body = body_of(lines, index);
    let declared = count_between(lines, body, index, Role::Declaration);
    match lines.get(body) {
        Some(line) => declared.saturating_add(parameter_count(line)),
        None => declared,
    }
}

fn excess_over(what: &'static str, counted: usize, most: u32, span: Span) -> Option<Excess> {
    if counted > most as usize {
        Some(Excess {
            what,
            counted,
            most,
            span,
        })
    } else {
        None
    }
}

/// The size that a word spells; 0 if the word isn't a size.
fn size_of(word: &[u8]) -> usize {
    match operand_of(OperandPlace::Size, word) {
        Some(Operand::Size(size)) => size as usize,
        _ => 0,
    }
}

/// The size in a line that exceeds its limit; `None` if the line has no such size.
fn size_excess(line: &Line) -> Option<Excess> {
    let (what, most) = match line.line_kind()? {
        LineKind::Class => ("extra bytes in a class", MOST_EXTRA),
        LineKind::Buf => ("units in a buffer", LARGEST_BUFFER),
        _ => return None,
    };
    excess_over(what, size_of(line.text_at(2)), most, line.span_at(2))
}

/// The excess over a limit on a number of things: classes, fields, procedures and operations together, locals, or nested blocks. `None` if
/// the line exceeds none of these limits.
fn count_excess(lines: &[Line], index: usize, line: &Line, blocks: &Blocks) -> Option<Excess> {
    let role = role(line);
    let (what, counted, most) = match role {
        Role::Class => (
            "classes",
            count_between(lines, 0, index, role),
            MOST_CLASSES,
        ),
        Role::Field => {
            let class = class_before(lines, index).unwrap_or(0);
            (
                "fields in a class",
                count_between(lines, class, index, role),
                MOST_FIELDS,
            )
        }
        Role::Procedure => {
            let counted = count_between(lines, 0, index, role);
            ("procedures and operations", counted, MOST_PROCEDURES)
        }
        Role::Declaration => ("locals in a body", local_count(lines, index), MOST_LOCALS),
        Role::Loop | Role::If => {
            (
                "blocks inside one another",
                block_count(lines, blocks),
                DEEPEST_BLOCK,
            )
        }
        _ => return None,
    };
    let place = if let Role::Loop | Role::If = role {
        0
    } else {
        1
    };
    excess_over(what, counted, most, line.span_at(place))
}

/// How deep blocks are nested if one more block is opened inside the open blocks.
fn block_count(lines: &[Line], blocks: &Blocks) -> usize {
    let mut count: usize = 1;
    for block in &blocks.open {
        if matches!(role_at(lines, block.line), Role::Loop | Role::If) {
            count = count.saturating_add(1);
        }
    }
    count
}

fn parameter_excess(line: &Line) -> Option<Excess> {
    excess_over(
        "parameters in a procedure",
        parameter_count(line),
        MOST_PARAMETERS,
        line.span_at(MOST_PARAMETERS as usize + 2),
    )
}

/// The first limit that a line exceeds; `None` if the line exceeds no limit.
fn find_excess(lines: &[Line], index: usize, line: &Line, blocks: &Blocks) -> Option<Excess> {
    let found = name_excess(line).or(parameter_excess(line));
    found
        .or(count_excess(lines, index, line, blocks))
        .or(size_excess(line))
}

/// Says which limit a line exceeds.
pub fn explain_too_many(page: &mut Page, lines: &[Line], index: usize, blocks: &Blocks) {
    if let Some(line) = lines.get(index)
        && let Some(found) = find_excess(lines, index, line, blocks)
    {
        let Excess {
            what,
            counted,
            most,
            span,
        } = found;
        page.mark(
            line.spot_of(span, &[]),
            format_args!("too many {what}: {counted}, but the limit is {most}"),
        );
    }
}
