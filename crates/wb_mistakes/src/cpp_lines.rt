//! Finds the word of a line that is C++, and writes the help that says what a script uses instead.

use crate::counterparts::{Counterpart, counterpart_named};
use crate::forms::{begins_statement, write_form_list};
use crate::lines::Line;
use crate::words::has_byte;
use wb_lines::line_kinds::role_of;
use wb_lines::words::{after_first_of, before_first};
use wb_pages::{Page, Shown};
use wb_tree::script_lines::Role;

/// A word of C++ as it is in the line, and what a script uses instead of the word.
#[derive(Clone, Copy)]
pub struct CppWord<'a> {
    name: &'a [u8],
    counterpart: Counterpart,
}

/// The part of a name after its arrow `->`; the whole name if the name has no arrow.
fn after_arrow<'a>(name: &'a [u8]) -> &'a [u8] {
    if has_byte(b'>', name) {
        after_first_of(b'>', name)
    } else {
        name
    }
}

/// The name in a word of C++, without its arguments: `ConstructL` in `note->ConstructL();`, `TBuf` in `TBuf<16>`. For a word such as
/// `(ELeave)`, the name is the text inside the brackets.
pub fn name_in<'a>(word: &'a [u8]) -> &'a [u8] {
    match word {
        [b'(', inside @ ..] => before_first(b')', inside),
        _ => after_arrow(before_first(b'<', before_first(b';', before_first(b'(', word)))),
    }
}

/// Whether a word begins a comment of C++.
pub fn begins_cpp_comment(word: &[u8]) -> bool {
    matches!(word, [b'/', b'/' | b'*', ..])
}

/// Whether a word names a destructor.
fn is_destructor(word: &[u8]) -> bool {
    has_byte(b'~', word) && matches!(before_first(b'~', word), [] | [.., b':'])
}

/// The text by which the table lists a word: the name in the word, or the sign that marks a comment, a destructor or a pointer.
fn key_of<'a>(word: &'a [u8]) -> &'a [u8] {
    match word {
        _ if begins_cpp_comment(word) => b"//",
        [first, .., b'*'] if *first != b'(' => b"*",
        _ if is_destructor(word) => b"~",
        _ => name_in(word),
    }
}

/// A word of C++ with its entry in the table; `None` if the table doesn't have the word.
pub fn cpp_word<'a>(word: &'a [u8]) -> Option<CppWord<'a>> {
    let counterpart = counterpart_named(key_of(word))?;
    Some(CppWord {
        name: name_in(word),
        counterpart,
    })
}

/// A word that calls something with brackets, as C++ does. The result is `None` for any other word, and for a statement of the script
/// language that is written with brackets.
fn call_in<'a>(word: &'a [u8]) -> Option<CppWord<'a>> {
    let name = before_first(b'(', word);
    if name.is_empty() || name.len() == word.len() || begins_statement(name) {
        return None;
    }
    let counterpart = counterpart_named(b"(")?;
    Some(CppWord { name, counterpart })
}

/// A word that the table has, or a word that calls something with brackets; `None` for any other word.
fn word_or_call<'a>(word: &'a [u8]) -> Option<CppWord<'a>> {
    match cpp_word(word) {
        Some(found) => Some(found),
        None => call_in(word),
    }
}

/// Whether a word of C++ declares the name after the word.
fn is_declaring(found: CppWord) -> bool {
    match found.counterpart.line_kinds().first() {
        Some(line_kind) => matches!(role_of(*line_kind), Role::Declaration),
        None => false,
    }
}

/// The place of the word `=`, `+=` or `-=` in a line; `None` if the line has no such word.
fn place_of_assignment(line: &Line) -> Option<usize> {
    for (place, word) in line.words.iter().enumerate() {
        if matches!(word.text, [b'='] | [b'+' | b'-', b'=']) {
            return Some(place);
        }
    }
    None
}

/// The first word of C++ after this place in a line; `None` if there is no such word.
fn first_after<'a>(line: &Line<'a>, place: usize) -> Option<CppWord<'a>> {
    for (at, word) in line.words.iter().enumerate() {
        if at > place
            && let Some(found) = word_or_call(word.text)
        {
            return Some(found);
        }
    }
    None
}

/// The first word of C++ after the `=`, `+=` or `-=` of a line. The result is `None` if there is no such word, or if the line has no such
/// sign.
fn assigned_word<'a>(line: &Line<'a>) -> Option<CppWord<'a>> {
    first_after(line, place_of_assignment(line)?)
}

/// The sign by which a line assigns something, such as `=`. There may be no blanks around the sign. The result is `None` if the line
/// assigns nothing.
fn assigning_word<'a>(line: &Line<'a>) -> Option<CppWord<'a>> {
    match place_of_assignment(line) {
        Some(place) => cpp_word(line.text_at(place)),
        None if has_byte(b'=', line.text_at(0)) => cpp_word(b"="),
        None => None,
    }
}

/// The word that shows that a line without a statement is C++. If the first word declares something, the result is the assigned word.
/// Otherwise, the result is the first of these that is C++: the first word, the assigned word, the sign of the assignment. The result is
/// `None` if none of these is C++.
pub fn cpp_word_of<'a>(line: &Line<'a>) -> Option<CppWord<'a>> {
    match (word_or_call(line.text_at(0)), assigned_word(line)) {
        (Some(first), Some(assigned)) if is_declaring(first) => Some(assigned),
        (Some(first), _) => Some(first),
        (None, Some(assigned)) => Some(assigned),
        (None, None) => assigning_word(line),
    }
}

/// Writes a hint, unless the hint is empty.
pub fn help_with_hint(page: &mut Page, hint: &str) {
    if !hint.is_empty() {
        page.write_help_text(hint);
    }
}

/// Says what a script uses instead of a word of C++.
pub fn help_with_cpp(page: &mut Page, found: CppWord) {
    let line_kinds = found.counterpart.line_kinds();
    if !line_kinds.is_empty() {
        page.begin_help();
        page.write(format_args!("in a script `{}` is ", Shown::word(found.name)));
        write_form_list(page, line_kinds);
        page.end_line();
    }
    help_with_hint(page, found.counterpart.hint());
}
