//! A line that has no form: there is no such statement, there are too few or too many words, or a word doesn't fit.

use crate::conditions::{explain_condition, has_no_condition};
use crate::counterparts::{NUMBER_RETURNED, WORDS_APART};
use crate::cpp_lines::{
    begins_cpp_comment, cpp_word, cpp_word_of, help_with_cpp, help_with_hint, name_in,
};
use crate::forms::{
    admits_count, begins_statement, begins_with, first_wrong_word, help_with_forms,
    operand_place_at, write_form, write_forms,
};
use crate::lines::Line;
use crate::meant::{
    OtherText, explain_other_text, help_with_member, help_with_missing, help_with_sum, other_text,
};
use crate::nearest::{Candidate, Search};
use crate::spaces::find_item;
use crate::words::{has_byte, is_field};
use crate::wrong_words::{complaint_of, expectation_of, hint_at_end};
use wb_lines::forms::{begins_comment, operand_of};
use wb_lines::line_kinds::{line_kinds, operand_places_of, text_of};
use wb_pages::{Page, Shown, Span, Spot, Word};
use wb_tree::script_lines::{ItemKind, LineKind, OperandPlace};

/// The part of a line from a word to the end of the line.
fn spot_from<'a>(line: &Line<'a>, word: Word<'a>) -> Spot<'a> {
    let span = Span {
        column: word.column,
        length: line.text.len().saturating_sub(word.column),
    };
    line.spot_of(span, word.text)
}

fn first_comment<'a>(line: &Line<'a>) -> Option<Word<'a>> {
    for word in &line.words {
        if begins_comment(word.text) || begins_cpp_comment(word.text) {
            return Some(*word);
        }
    }
    None
}

/// Whether a word opens a quote without closing the quote.
fn leaves_quote_open(word: &[u8]) -> bool {
    let mut is_open = false;
    for byte in word {
        is_open = is_open != (*byte == b'"');
    }
    is_open
}

/// The word of a line that opens a quote without closing the quote; `None` if there is no such word.
fn open_quote<'a>(line: &Line<'a>) -> Option<Word<'a>> {
    match line.words.last() {
        Some(last) if leaves_quote_open(last.text) => Some(*last),
        _ => None,
    }
}

/// Among the words that begin forms, the word that is nearest to this word; `None` if no such word is near.
fn nearest_statement(word: &[u8]) -> Option<Candidate<'static>> {
    let mut search = Search::of(word);
    for line_kind in line_kinds() {
        search.consider(text_of(*line_kind), 0);
    }
    search.found
}

/// Says what the first word of a line may mean, if the word is neither a statement nor C++.
fn help_with_statement(page: &mut Page, line: &Line) {
    match nearest_statement(line.text_at(0)) {
        Some(near) => {
            page.begin_help();
            page.write(format_args!("did you mean `{}`? its form is ", Shown::word(near.word)));
            write_forms(page, near.word);
            page.end_line();
        }
        None => {
            help_with_hint(page, hint_at_end(line.last_text(), ""));
            page.write_help_text(
                "docs/LANGUAGE.md lists the statements; a comment begins with `#`",
            );
        }
    }
}

/// Says how a script calls a procedure, if a line begins with the name of a procedure. Returns whether the line begins with such a name.
fn help_with_call(page: &mut Page, lines: &[Line], line: &Line) -> bool {
    match find_item(lines, line.text_at(0)) {
        Some(item) if matches!(item.kind, ItemKind::Procedure) => {
            page.begin_help();
            page.write(format_args!("`{}` is a procedure: ", line.shown_word(0)));
            write_forms(page, b"call");
            page.end_line();
            true
        }
        _ => false,
    }
}

fn explain_statement(page: &mut Page, lines: &[Line], line: &Line) {
    page.mark(
        line.spot(0),
        format_args!("no such statement: `{}`", line.shown_word(0)),
    );
    if help_with_call(page, lines, line) {
        return;
    }
    let name = name_in(line.text_at(0));
    help_with_member(page, line.text_at(0));
    if help_with_sum(page, line) {
        return;
    }
    if let Some(found) = cpp_word_of(line) {
        help_with_cpp(page, found);
    } else if begins_statement(name) {
        page.write_help_text(WORDS_APART);
        help_with_forms(page, name);
    } else {
        help_with_statement(page, line);
    }
}

/// Whether a line may be meant as a line of this kind, whatever the number of its words. The first word must be right. The keyword of a
/// condition must be right too. The target of a `set` must be a field exactly if this line kind has a field as its target.
fn is_intended(line_kind: LineKind, line: &Line) -> bool {
    let is_right = match operand_places_of(line_kind).first() {
        Some(OperandPlace::Keyword(_) | OperandPlace::FieldTarget) => first_wrong_word(
            line_kind,
            &line.words,
        ) != Some(1),
        Some(OperandPlace::Target) => !is_field(line.text_at(1)),
        _ => true,
    };
    begins_with(line_kind, line.text_at(0)) && is_right
}

/// The line kind that a line seems to be meant as: the first possible kind that admits the line's number of words, or else the last
/// possible kind. The result is `None` if no kind is possible.
fn intended_key(line: &Line) -> Option<LineKind> {
    let mut found = None;
    for line_kind in line_kinds() {
        if is_intended(*line_kind, line) {
            found = Some(*line_kind);
            if admits_count(*line_kind, line.words.len()) {
                return found;
            }
        }
    }
    found
}

fn is_else_if(line: &Line) -> bool {
    line.text_at(0) == b"else".as_slice() && line.text_at(1) == b"if".as_slice()
}

/// The part of a line to show: the first word too many, or the whole line if the line has too few words.
fn spot_of_count<'a>(line: &Line<'a>, line_kind: LineKind, is_more: bool) -> Spot<'a> {
    match first_wrong_word(line_kind, &line.words) {
        Some(place) if is_more => line.spot_of(line.span_at(place), line.text_at(0)),
        _ => line.spot_of(line.span(), line.text_at(0)),
    }
}

/// The first word that doesn't fit a form; empty if all words fit.
fn first_wrong_text<'a>(line: &Line<'a>, line_kind: LineKind) -> &'a [u8] {
    match first_wrong_word(line_kind, &line.words) {
        Some(place) => line.text_at(place),
        None => &[],
    }
}

/// Says what a script uses instead of a wrong word, if the word is C++. If the word isn't C++, writes the hint, unless the hint is empty.
fn help_with_wrong_word(page: &mut Page, word: &[u8], hint: &str) {
    match cpp_word(word) {
        Some(found) => help_with_cpp(page, found),
        None if help_with_member(page, word) => {}
        None => help_with_hint(page, hint),
    }
}

/// Says that a line has too few words, or too many.
fn explain_word_count(page: &mut Page, line: &Line, line_kind: LineKind) {
    let is_more = line.words.len() > operand_places_of(line_kind).len();
    let how_many = if is_more { "many" } else { "few" };
    let spot = spot_of_count(line, line_kind, is_more);
    page.mark(
        spot,
        format_args!("too {how_many} words for `{}`", line.shown_word(0)),
    );
    if is_else_if(line) {
        page.write_help_text("write the `if` on the next line, with an `end` of its own");
    }
    let wrong = first_wrong_text(line, line_kind);
    help_with_wrong_word(page, wrong, hint_at_end(wrong, ""));
    if !is_more {
        help_with_missing(page, line, line_kind);
    }
    help_with_forms(page, line.text_at(0));
}

/// Says what is expected in an operand place, and what the form of the line is.
fn help_with_place(page: &mut Page, line_kind: LineKind, operand_place: OperandPlace) {
    page.begin_help();
    page.write(format_args!("{} is expected here: ", expectation_of(operand_place)));
    write_form(page, line_kind);
    page.end_line();
    if let LineKind::ReturnPointer = line_kind {
        page.write_help_text(NUMBER_RETURNED);
    }
}

/// Says what is expected in an operand place of a line, and what the form of the line is. Says nothing if the line has no form.
pub fn help_with_operand(page: &mut Page, line: &Line, operand_place: OperandPlace) {
    if let Some(line_kind) = line.line_kind() {
        help_with_place(page, line_kind, operand_place);
    }
}

/// Says what is wrong with a word in an operand place.
fn explain_word(page: &mut Page, line_kind: LineKind, operand_place: OperandPlace, spot: Spot) {
    let (problem, hint) = complaint_of(operand_place, spot.word);
    page.mark(spot, format_args!("{problem}: `{}`", spot.shown_word()));
    help_with_wrong_word(page, spot.word, hint);
    help_with_place(page, line_kind, operand_place);
}

fn explain_late_comment(page: &mut Page, spot: Spot) {
    page.mark(spot, "a comment can't follow a statement");
    help_with_wrong_word(page, spot.word, "give the comment a line of its own");
}

fn explain_open_quote(page: &mut Page, spot: Spot) {
    page.mark(
        spot,
        format_args!("the quote is not closed: `{}`", spot.shown_word()),
    );
    page.write_help_text(
        "a text ends with `\"` on the line on which it begins, and can't contain one",
    );
}

/// The word with the first colon in the first line of a class: it names a base class, or comes before the name of a base class. `None` if
/// there is no such word, or if the line doesn't begin a class.
fn first_of_base<'a>(line: &Line<'a>, line_kind: LineKind) -> Option<Word<'a>> {
    for word in &line.words {
        if matches!(line_kind, LineKind::Class) && has_byte(b':', word.text) {
            return Some(*word);
        }
    }
    None
}

fn explain_base(page: &mut Page, spot: Spot) {
    page.mark(spot, "a class has no base class: there is no inheritance");
    page.write_help_text("it has the fields of its base too: \"BaseConstructL\" in docs/IDIOMS.md");
    help_with_forms(page, b"class");
}

/// Says what is wrong with the words of a line whose first word begins a form.
fn explain_words(page: &mut Page, line: &Line, line_kind: LineKind) {
    if let Some(word) = first_of_base(line, line_kind) {
        return explain_base(page, spot_from(line, word));
    }
    match first_wrong_word(line_kind, &line.words) {
        Some(place) if admits_count(line_kind, line.words.len()) => {
            let operand_place = operand_place_at(line_kind, place).unwrap_or(
                OperandPlace::Declared,
            );
            explain_word(page, line_kind, operand_place, line.spot(place));
        }
        _ => explain_word_count(page, line, line_kind),
    }
}

/// A text in other quotes than a script uses, with the line kind that is meant and the text's operand place. The result is `None` if there
/// is no such text, or if no text may be in that place.
fn text_meant<'a>(line: &Line<'a>) -> Option<(OtherText<'a>, LineKind, OperandPlace)> {
    let found = other_text(line)?;
    let line_kind = intended_key(line)?;
    let operand_place = operand_place_at(line_kind, found.place)?;
    operand_of(operand_place, b"\"\"")?;
    Some((found, line_kind, operand_place))
}

/// Says why the line at an index has no form.
pub fn explain_misspelled(page: &mut Page, lines: &[Line], index: usize, line: &Line) {
    if line.first().is_none() {
        return;
    }
    if !begins_statement(line.text_at(0)) {
        explain_statement(page, lines, line);
    } else if let Some((found, line_kind, operand_place)) = text_meant(line) {
        explain_other_text(page, found);
        help_with_place(page, line_kind, operand_place);
    } else if let Some(word) = first_comment(line) {
        explain_late_comment(page, spot_from(line, word));
    } else if let Some(word) = open_quote(line) {
        explain_open_quote(page, spot_from(line, word));
    } else if has_no_condition(line) {
        explain_condition(page, lines, index, line);
    } else if let Some(line_kind) = intended_key(line) {
        explain_words(page, line, line_kind);
    }
}
