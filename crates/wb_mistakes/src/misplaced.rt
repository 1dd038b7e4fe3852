//! A line that is not allowed where it is, and a file that ends too early.

use crate::blocks::{Block, BlockState, Blocks, ClosedBlock, indent_at, role, role_at};
use crate::counterparts::{EXTRA_BYTES, POINTER_MEMBER};
use crate::further_lines::mark_line;
use crate::lines::Line;
use crate::spaces::is_statement;
use wb_pages::Page;
use wb_tree::script_lines::{LineKind, Role};

fn is_further_left(lines: &[Line], closed: ClosedBlock) -> bool {
    indent_at(lines, closed.end) < indent_at(lines, closed.first)
}

/// Says which block seems to lack its `end`. If there is a closed block whose `end` is further left than its first line, this block seems
/// to lack it. If there is no such block, the innermost open block seems to lack it.
fn mark_unclosed(page: &mut Page, lines: &[Line], blocks: &Blocks) {
    match blocks.misaligned {
        Some(closed) if is_further_left(lines, closed) => {
            mark_line(
                page,
                lines,
                closed.first,
                "this block seems to lack its `end`",
            );
            mark_line(
                page,
                lines,
                closed.end,
                "because the next `end` is further left",
            );
        }
        _ => mark_open(page, lines, blocks.open.last()),
    }
}

fn mark_open(page: &mut Page, lines: &[Line], block: Option<&Block>) {
    if let Some(block) = block {
        mark_line(page, lines, block.line, "this block is still open");
    }
}

/// Says which `end` closes which block: for the first block whose `end` and first line are indented differently, or else for the block that
/// was closed last.
fn mark_closed(page: &mut Page, lines: &[Line], blocks: &Blocks) {
    if let Some(closed) = blocks.misaligned.or(blocks.last_closed) {
        mark_line(page, lines, closed.end, "this `end` closes");
        mark_line(page, lines, closed.first, "the block that begins here");
    }
}

/// Says what is wrong with the first word of a line, and shows the word.
fn refuse(page: &mut Page, line: &Line, problem: &str) {
    let spot = line.spot(0);
    page.mark(spot, format_args!("`{}` {problem}", spot.shown_word()));
}

/// Explains a line outside any class, procedure and operation.
fn explain_outside(page: &mut Page, lines: &[Line], blocks: &Blocks, line: &Line) {
    let (problem, help) = match role(line) {
        Role::End => (
            "closes nothing: no block is open",
            "remove it, or look for an extra `end` above",
        ),
        Role::Else => (
            "is not inside an `if`",
            "an `else` belongs between an `if` and its `end`",
        ),
        Role::Field | Role::Construct | Role::Destroy => {
            (
                "is outside any class",
                "it belongs between `class NAME NUMBER` and its `end`",
            )
        }
        _ => (
            "is outside any procedure",
            "it belongs in a body, for example between `proc main` and its `end`",
        ),
    };
    refuse(page, line, problem);
    mark_closed(page, lines, blocks);
    page.write_help_text(help);
}

/// Explains a line directly in a class.
fn explain_in_class(page: &mut Page, lines: &[Line], blocks: &Blocks, block: Block, line: &Line) {
    let problem = match role(line) {
        Role::Field => "comes after a body of its class",
        Role::Construct => "comes too late: a class has at most one, before `destroy`",
        Role::Destroy => "comes too late: a class has at most one",
        _ => "is not allowed in a class outside its bodies",
    };
    refuse(page, line, problem);
    mark_line(page, lines, block.line, "this class is still open");
    if !matches!(block.state, BlockState::Fields) {
        mark_closed(page, lines, blocks);
    }
    match line.line_kind() {
        Some(LineKind::Int | LineKind::Buf) => page.write_help_text(EXTRA_BYTES),
        Some(LineKind::Ptr | LineKind::ClassPtr) => page.write_help_text(POINTER_MEMBER),
        _ => {}
    }
    page.write_help_text("a class has its fields, then `construct`, then `destroy`, then `end`");
}

/// The index of the first statement of the innermost body; `None` if the body has no statement.
fn first_statement(lines: &[Line], blocks: &Blocks) -> Option<usize> {
    let body = open_body(blocks);
    for (index, line) in lines.iter().enumerate() {
        if index > body && is_statement(line) {
            return Some(index);
        }
    }
    None
}

/// The index of the line that begins the innermost body; 0 if no body is open.
fn open_body(blocks: &Blocks) -> usize {
    let mut body = 0;
    for block in &blocks.open {
        if matches!(
            block.state,
            BlockState::Declarations | BlockState::Statements
        ) {
            body = block.line;
        }
    }
    body
}

fn explain_late_declaration(page: &mut Page, lines: &[Line], blocks: &Blocks, line: &Line) {
    refuse(page, line, "is a declaration, but comes after a statement");
    if let Some(statement) = first_statement(lines, blocks) {
        mark_line(page, lines, statement, "the body's first statement is here");
    }
    page.write_help_text("all declarations of a body come before its first statement");
}

/// Whether a closed block is an `if` with the same indentation as this line.
fn is_if_above(lines: &[Line], closed: ClosedBlock, line: &Line) -> bool {
    matches!(role_at(lines, closed.first), Role::If)
        && line.indent == indent_at(lines, closed.first)
}

/// The block that was closed last, if this `else` seems to be meant for the block. Then the block is an `if` inside this open block, and
/// the `else` has the same indentation as this `if`. `None` if the block isn't such an `if`.
fn find_ended_if(
    lines: &[Line],
    blocks: &Blocks,
    block: Block,
    line: &Line,
) -> Option<ClosedBlock> {
    match blocks.last_closed {
        Some(closed) if is_if_above(lines, closed, line) && closed.first > block.line => {
            Some(closed)
        }
        _ => None,
    }
}

/// Explains an `else` whose `if` has ended.
fn explain_else_after_if(page: &mut Page, lines: &[Line], closed: ClosedBlock, line: &Line) {
    refuse(page, line, "comes too late: its `if` has ended");
    mark_line(page, lines, closed.first, "the `if` begins here");
    mark_line(page, lines, closed.end, "and ends here");
    page.write_help_text("an `if` with an `else` has one `end`, after both parts");
}

/// Explains an `else` that isn't inside an `if`, or that is inside an `if` with another `else`.
fn explain_loose_else(page: &mut Page, lines: &[Line], block: Block, line: &Line) {
    let problem = match block.state {
        BlockState::ElsePart => "is the second one in its `if`",
        _ => "is not inside an `if`",
    };
    refuse(page, line, problem);
    mark_line(page, lines, block.line, "this block is still open");
    page.write_help_text(
        "an `if` has at most one `else`, and each block inside its first part ends before that",
    );
}

fn explain_late_else(page: &mut Page, lines: &[Line], blocks: &Blocks, block: Block, line: &Line) {
    match find_ended_if(lines, blocks, block, line) {
        Some(closed) => explain_else_after_if(page, lines, closed, line),
        None => explain_loose_else(page, lines, block, line),
    }
}

/// The help that says what to write in a body instead of a line that belongs in a class.
fn help_in_body(line: &Line) -> &'static str {
    match role(line) {
        Role::Construct => "`construct POINTER` completes an object",
        Role::Destroy => "`delete POINTER` destroys an object",
        _ => "`ptr NAME` declares a pointer in a body",
    }
}

/// Whether the outermost open block is a class.
fn is_in_class(lines: &[Line], blocks: &Blocks) -> bool {
    match blocks.open.first() {
        Some(block) => matches!(role_at(lines, block.line), Role::Class),
        None => false,
    }
}

/// Explains a line that belongs directly in a class, but is in a body of the class.
fn explain_in_class_body(page: &mut Page, lines: &[Line], blocks: &Blocks, line: &Line) {
    refuse(page, line, "is not allowed in a body");
    mark_unclosed(page, lines, blocks);
    page.write_help_text("an `end` seems to be missing above");
    if let Role::Construct = role(line) {
        page.write_help_text(help_in_body(line));
    }
}

/// Explains a line that belongs in a class, but is in a procedure or an operation.
fn explain_in_procedure(page: &mut Page, lines: &[Line], blocks: &Blocks, line: &Line) {
    let problem = match role(line) {
        Role::Construct => "without a pointer begins a body of a class, but no class is open",
        Role::Destroy => "begins a body of a class, but no class is open",
        _ => "declares a field of a class, but no class is open",
    };
    refuse(page, line, problem);
    mark_open(page, lines, blocks.open.first());
    page.write_help_text(help_in_body(line));
}

fn is_class_state(state: BlockState) -> bool {
    matches!(
        state,
        BlockState::Fields | BlockState::AfterConstruct | BlockState::AfterDestroy
    )
}

/// Explains a line that begins a class, a procedure or an operation directly in a class, if no `end` of a body seems to be missing.
fn explain_item_in_class(page: &mut Page, lines: &[Line], block: Block, line: &Line) {
    refuse(page, line, "is not allowed in a class");
    mark_line(page, lines, block.line, "this class is still open");
    page.write_help_text(match role(line) {
        Role::Class => "end this class first",
        _ => "end the class first; a procedure takes an object as a parameter, `NAME:CLASS`",
    });
}

/// Explains a line that begins a class, a procedure or an operation inside a block.
fn explain_missing_end(page: &mut Page, lines: &[Line], blocks: &Blocks, line: &Line) {
    refuse(
        page,
        line,
        "is not allowed inside a block: an `end` is missing above",
    );
    mark_unclosed(page, lines, blocks);
    page.write_help_text(
        "each `class`, `proc`, `op`, `construct`, `destroy`, `if`, `repeat` and `trap` has an `end`",
    );
}

/// Explains a line that isn't allowed in this block, which is the innermost open block.
fn explain_in_block(page: &mut Page, lines: &[Line], blocks: &Blocks, block: Block, line: &Line) {
    let is_complete = is_class_state(block.state) && blocks.misaligned.is_none();
    match role(line) {
        Role::Class | Role::Procedure if is_complete => {
            explain_item_in_class(page, lines, block, line);
        }
        Role::Class | Role::Procedure => explain_missing_end(page, lines, blocks, line),
        _ if is_class_state(block.state) => explain_in_class(page, lines, blocks, block, line),
        Role::Declaration => explain_late_declaration(page, lines, blocks, line),
        Role::Else => explain_late_else(page, lines, blocks, block, line),
        _ if is_in_class(lines, blocks) => explain_in_class_body(page, lines, blocks, line),
        _ => explain_in_procedure(page, lines, blocks, line),
    }
}

/// Says why a line isn't allowed at its place in the script.
pub fn explain_misplaced(page: &mut Page, lines: &[Line], blocks: &Blocks, line: &Line) {
    match blocks.open.last() {
        None => explain_outside(page, lines, blocks, line),
        Some(block) => explain_in_block(page, lines, blocks, *block, line),
    }
}

/// Says that the file ends before all of its blocks have ended.
pub fn explain_early_end(page: &mut Page, lines: &[Line], blocks: &Blocks, number: usize) {
    page.write_message(number, "the file ends, but an `end` is missing");
    mark_unclosed(page, lines, blocks);
    page.write_help_text(
        "each `class`, `proc`, `op`, `construct`, `destroy`, `if`, `repeat` and `trap` has an `end`",
    );
}
