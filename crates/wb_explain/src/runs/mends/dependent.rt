//! Which lines depend on one another: a line is not moved over a line that writes what it reads, or that reads what it writes.

use crate::runs::shared::object_of;
use wb_history::ScriptLines;

/// How many words of a line are looked at.
const MOST_WORDS: usize = 7;

/// Returns whether a line may come after all lines of a range, or before all of them: whether it depends on none of them.
pub fn may_pass(lines: &ScriptLines<'_>, line: u32, from: u32, to: u32) -> bool {
    for other in from..=to {
        if other != line && depend(lines, line, other) {
            return false;
        }
    }
    true
}

/// Returns whether a line that gives a pointer its value may come after all lines of a range: whether none of them reads what it writes, or
/// makes null what it reads.
pub fn may_come_after(lines: &ScriptLines<'_>, line: u32, from: u32, to: u32) -> bool {
    for other in from..=to {
        let is_null = lines.word(other, 0) == "null" && lines.word(other, 1) == lines.word(line, 2);
        if is_null || reads_from(lines, other, line) {
            return false;
        }
    }
    true
}

/// Whether one of two lines reads what the other writes, or both write the same, or both call the same procedure.
fn depend(lines: &ScriptLines<'_>, one: u32, other: u32) -> bool {
    let written = written_by(lines, one);
    !written.is_empty() && written == written_by(lines, other)
        || reads_from(lines, one, other)
        || reads_from(lines, other, one)
        || stores_same(lines, one, other)
        || calls_same(lines, one, other)
        || gets_owner(lines, one, other)
        || gets_owner(lines, other, one)
}

/// Whether a line calls a procedure with a pointer to an object of which another line names a field: the procedure may change that.
fn gets_owner(lines: &ScriptLines<'_>, call: u32, other: u32) -> bool {
    if called_by(lines, call).is_empty() {
        return false;
    }
    for argument in 2..MOST_WORDS {
        for index in 1..MOST_WORDS {
            let word = lines.word(other, index);
            if word.contains('.') && object_of(word) == lines.word(call, argument) {
                return true;
            }
        }
    }
    false
}

/// Whether a line reads a pointer, a number or a word of a cell that another line writes.
fn reads_from(lines: &ScriptLines<'_>, reader: u32, writer: u32) -> bool {
    if lines.word(writer, 0) == "store" {
        return lines.word(reader, 0) == "load" && lines.word(reader, 2) == lines.word(writer, 1);
    }
    let written = written_by(lines, writer);
    if written.is_empty() {
        return false;
    }
    for index in 1..MOST_WORDS {
        let word = lines.word(reader, index);
        let is_target = index == 1 && is_only_written(lines.word(reader, 0));
        if names(word, written, is_target) {
            return true;
        }
    }
    false
}

/// Whether a word names what is written: the same pointer or number, the pointer to the object of a field, or the same field of an object
/// that may be the same. Of a target that is only written, only the pointer to its object counts.
fn names(word: &str, written: &str, is_target: bool) -> bool {
    match (word.split_once('.'), written.split_once('.')) {
        (Some((owner, _)), None) => owner == written,
        (Some((_, field)), Some((_, other))) => field == other && !is_target,
        (None, _) => word == written && !is_target,
    }
}

/// Whether two lines call the same procedure.
fn calls_same(lines: &ScriptLines<'_>, one: u32, other: u32) -> bool {
    let called = called_by(lines, one);
    !called.is_empty() && called == called_by(lines, other)
}

/// The procedure that a line calls; empty if it calls none.
fn called_by<'a>(lines: &ScriptLines<'a>, line: u32) -> &'a str {
    match lines.word(line, 0) {
        "call" => lines.word(line, 1),
        "callto" => lines.word(line, 2),
        _ => "",
    }
}

/// Whether two lines write the same word of a cell.
fn stores_same(lines: &ScriptLines<'_>, one: u32, other: u32) -> bool {
    lines.word(one, 0) == "store"
        && lines.word(other, 0) == "store"
        && lines.word(one, 1) == lines.word(other, 1)
        && lines.word(one, 2) == lines.word(other, 2)
}

/// The pointer or number that a line writes, or whose cell it releases; empty if it does neither.
fn written_by<'a>(lines: &ScriptLines<'a>, line: u32) -> &'a str {
    match lines.word(line, 0) {
        "add" | "free" | "delete" | "trap" => lines.word(line, 1),
        word if is_only_written(word) => lines.word(line, 1),
        _ => "",
    }
}

/// Whether a line with this first word writes its second word, and doesn't read it.
fn is_only_written(word: &str) -> bool {
    match word {
        "set" | "null" | "new" | "newleave" | "alloc" | "allocl" | "realloc" | "reallocl" => true,
        "hnew" | "hnewl" | "hrealloc" | "callto" | "load" | "alloclen" | "getlen" | "getmax" =>
            true,
        _ => false,
    }
}
