//! The blocks of a script, by the first words of its lines: which statements stand beside each other.

use wb_history::ScriptLines;

/// How many blocks a line may stand in, with its body.
const MOST_BLOCKS: u32 = 17;

/// What a line is for the blocks of its script.
#[derive(Clone, Copy, Debug, PartialEq, Eq)]
enum LineRole {
    /// The line begins a block, or a body, or a class.
    Opens,
    /// The line is an `else`.
    Turns,
    /// The line is an `end`.
    Ends,
    /// The line is a statement without a block.
    Plain,
    /// The line does nothing: it is blank, a comment or a declaration.
    Nothing,
}

fn role_of(lines: &ScriptLines<'_>, line: u32) -> LineRole {
    match lines.word(line, 0) {
        "" | "ptr" | "int" | "buf" | "view" | "field" => LineRole::Nothing,
        "if" | "repeat" | "trap" | "proc" | "class" | "op" | "destroy" => LineRole::Opens,
        "construct" if lines.word(line, 1).is_empty() => LineRole::Opens,
        "else" => LineRole::Turns,
        "end" => LineRole::Ends,
        word if word.starts_with("#") => LineRole::Nothing,
        _ => LineRole::Plain,
    }
}

/// Returns whether a line begins a body, a class, a procedure or an operation.
pub fn begins_body(lines: &ScriptLines<'_>, line: u32) -> bool {
    match lines.word(line, 0) {
        "if" | "repeat" | "trap" => false,
        _ => role_of(lines, line) == LineRole::Opens,
    }
}

/// Returns whether a line is a statement without a block.
pub fn is_plain(lines: &ScriptLines<'_>, line: u32) -> bool {
    role_of(lines, line) == LineRole::Plain
}

/// Returns the line that begins the innermost block around a line; 0 if there is none.
pub fn block_around(lines: &ScriptLines<'_>, line: u32) -> u32 {
    let (mut at, mut closed) = (line, 0u32);
    for _ in 0..lines.count() {
        at = at.saturating_sub(1);
        if at == 0 {
            return 0;
        }
        match role_of(lines, at) {
            LineRole::Ends => closed = closed.saturating_add(1),
            LineRole::Opens if closed == 0 => return at,
            LineRole::Opens => closed = closed.saturating_sub(1),
            LineRole::Turns | LineRole::Plain | LineRole::Nothing => {}
        }
    }
    0
}

/// Returns the line that begins the body around a line; 0 if there is none.
pub fn body_around(lines: &ScriptLines<'_>, line: u32) -> u32 {
    let mut at = line;
    for _ in 0..MOST_BLOCKS {
        at = block_around(lines, at);
        if at == 0 || begins_body(lines, at) {
            return at;
        }
    }
    0
}

/// Returns the last line of the statement that begins at a line: the `end` of its block, or the line itself.
pub fn last_line_of(lines: &ScriptLines<'_>, first: u32) -> u32 {
    if role_of(lines, first) != LineRole::Opens {
        return first;
    }
    let mut open = 0u32;
    for at in first..=lines.count() {
        match role_of(lines, at) {
            LineRole::Opens => open = open.saturating_add(1),
            LineRole::Ends if open <= 1 => return at,
            LineRole::Ends => open = open.saturating_sub(1),
            LineRole::Turns | LineRole::Plain | LineRole::Nothing => {}
        }
    }
    first
}

/// Returns the first line of the statement before a line, in the same block; 0 if there is none.
pub fn statement_before(lines: &ScriptLines<'_>, line: u32) -> u32 {
    let (mut at, mut closed) = (line, 0u32);
    for _ in 0..lines.count() {
        at = at.saturating_sub(1);
        match role_of(lines, at) {
            _ if at == 0 => return 0,
            LineRole::Ends => closed = closed.saturating_add(1),
            LineRole::Opens if closed == 0 => return 0,
            LineRole::Opens if closed == 1 => return at,
            LineRole::Opens => closed = closed.saturating_sub(1),
            LineRole::Turns if closed == 0 => return 0,
            LineRole::Plain if closed == 0 => return at,
            LineRole::Turns | LineRole::Plain | LineRole::Nothing => {}
        }
    }
    0
}

/// Returns the first line of the statement after a statement's last line, in the same block; 0 if there is none.
pub fn statement_after(lines: &ScriptLines<'_>, last: u32) -> u32 {
    for at in last.saturating_add(1)..=lines.count() {
        match role_of(lines, at) {
            LineRole::Opens | LineRole::Plain => return at,
            LineRole::Turns | LineRole::Ends => return 0,
            LineRole::Nothing => {}
        }
    }
    0
}

/// Returns the line that ends the innermost branch around a line, its `end` or its `else`, if this is a branch of an `if`; 0 otherwise.
pub fn end_of_branch(lines: &ScriptLines<'_>, line: u32) -> u32 {
    if lines.word(block_around(lines, line), 0) != "if" {
        return 0;
    }
    let mut last = last_line_of(lines, line);
    for _ in 0..lines.count() {
        match statement_after(lines, last) {
            0 => break,
            at => last = last_line_of(lines, at),
        }
    }
    for at in last.saturating_add(1)..=lines.count() {
        if let LineRole::Turns | LineRole::Ends = role_of(lines, at) {
            return at;
        }
    }
    0
}
