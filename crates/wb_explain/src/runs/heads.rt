//! Which block of its body a line stands in.

use crate::runs::script_page::ScriptPage;

/// The first line of a block.
#[derive(Clone, Copy)]
pub struct Head {
    pub line: u32,
    /// Whether the line that was asked for stands in the block's part after `else`.
    pub is_else: bool,
}

/// Returns the first line of the innermost block around a line, which is an `if`, a `repeat` or a `trap`; `None` if the line stands in no
/// block of its body.
pub fn head_around(page: &ScriptPage<'_>, line: u32) -> Option<Head> {
    let (mut ends, mut is_else) = (0u32, false);
    for back in 1..line {
        let at = line.saturating_sub(back);
        match page.word(at, 0) {
            "end" => ends = ends.saturating_add(1),
            "else" if ends == 0 => is_else = true,
            "if" | "repeat" | "trap" if ends == 0 => return Some(Head { line: at, is_else }),
            "if" | "repeat" | "trap" => ends = ends.saturating_sub(1),
            "proc" | "op" | "class" | "destroy" => return None,
            "construct" if page.word(at, 1).is_empty() => return None,
            _ => {}
        }
    }
    None
}

/// Returns the line that ends the first part of the block that begins at the line `head`: its `end` or its `else`; the script's last line if
/// there is none.
pub fn end_of(page: &ScriptPage<'_>, head: u32) -> u32 {
    let mut inner = 0u32;
    for at in head.saturating_add(1)..=page.lines.count() {
        match page.word(at, 0) {
            "end" | "else" if inner == 0 => return at,
            "end" => inner = inner.saturating_sub(1),
            "if" | "repeat" | "trap" => inner = inner.saturating_add(1),
            _ => {}
        }
    }
    page.lines.count()
}
