//! What is wrong with a word that isn't allowed at its place, and what is expected there. This module looks only at the bytes of the word.

use crate::words::{digits, has_byte, is_field, is_literal, is_numeral};
use wb_lines::words::{after_first_of, before_first, is_digit, is_name, is_reserved};
use wb_tree::script_lines::{Keyword, OperandPlace};

/// A text that says what is wrong with a word, and a hint. The hint may be empty.
pub type Complaint = (&'static str, &'static str);

/// The words by which messages describe what is expected in an operand place.
pub fn expectation_of(operand_place: OperandPlace) -> &'static str {
    match operand_place {
        OperandPlace::Declared => "the name to declare",
        OperandPlace::ItsPointer => "a name for the pointer that it takes",
        OperandPlace::Pointer => "a pointer (its name, a field or `self`)",
        OperandPlace::Written => "a pointer that can be set (its name or a field)",
        OperandPlace::Receiver => "the name of a pointer that can be set",
        OperandPlace::FieldTarget => "a field",
        OperandPlace::Value => "a number or the name of an int",
        OperandPlace::Variable => "the name of an int",
        OperandPlace::Target => "the name of an int or a pointer",
        OperandPlace::Source => "a number, a field, or the name of an int or a pointer",
        OperandPlace::Size => "a number from 0 up",
        OperandPlace::Writable =>
            "a text that can be changed (the name of a buffer, or a pointer to a text)",
        OperandPlace::Readable =>
            "a text (a literal, or the name of a buffer, a view or a pointer)",
        OperandPlace::ViewName => "the name of a view",
        OperandPlace::Printed =>
            "a number, a text, or the name of an int, a buffer, a view or a pointer",
        OperandPlace::Class => "the name of a class",
        OperandPlace::Procedure => "the name of a procedure",
        OperandPlace::Operation => "the name of an operation",
        OperandPlace::Parameter => "a parameter (`NAME:ptr`, `NAME:int` or `NAME:CLASS`)",
        OperandPlace::Argument => {
            "an argument (a number, a field, or the name of an int or a pointer)"
        }
        OperandPlace::Keyword(Keyword::Null) => "`null`",
        OperandPlace::Keyword(Keyword::Some) => "`some`",
        OperandPlace::Keyword(Keyword::Equal) => "`eq`",
        OperandPlace::Keyword(Keyword::Less) => "`less`",
    }
}

/// Whether an operand in this place may be a number.
fn takes_number(operand_place: OperandPlace) -> bool {
    matches!(
        operand_place,
        OperandPlace::Value
            | OperandPlace::Source
            | OperandPlace::Size
            | OperandPlace::Printed
            | OperandPlace::Argument
    )
}

fn numeral_complaint(operand_place: OperandPlace, word: &[u8]) -> Complaint {
    let is_pointer = matches!(operand_place, OperandPlace::Pointer);
    if is_pointer && word == b"0".as_slice() {
        (
            "a number is not allowed here",
            "`null POINTER` makes a pointer null",
        )
    } else if !takes_number(operand_place) {
        ("a number is not allowed here", "")
    } else if digits(word).len() > 9 {
        ("the number is too long", "a number has one to nine digits")
    } else {
        ("the number is below 0", "a size is 0 or more")
    }
}

fn quoted_complaint(word: &[u8]) -> Complaint {
    if is_literal(word) {
        ("a text in quotes is not allowed here", "")
    } else if has_byte(b'\t', word) {
        ("a text can't contain a tab", "use blanks instead")
    } else {
        (
            "a text ends at its second quote",
            "the closing quote is followed by a blank, and a text can't contain a quote",
        )
    }
}

/// What is wrong with a word that has a colon, or that is in the place of a parameter.
fn parameter_complaint(operand_place: OperandPlace, word: &[u8]) -> Complaint {
    if matches!(operand_place, OperandPlace::ItsPointer) {
        (
            "a word with a colon is not allowed here",
            "an operation takes one pointer, and no kind is written after its name",
        )
    } else if !matches!(operand_place, OperandPlace::Parameter) {
        ("a word with a colon is not allowed here", "")
    } else if is_reserved(before_first(b':', word)) {
        reserved_complaint()
    } else if !has_byte(b':', word) {
        (
            "the parameter has no kind",
            "write `:ptr`, `:int`, or `:` and a class after its name",
        )
    } else {
        ("this is not a parameter", hint_at_end(word, ""))
    }
}

/// Whether a word ends with `;` or `,`, as in C++.
fn ends_as_in_c(word: &[u8]) -> bool {
    matches!(word.last(), Some(b';' | b','))
}

/// The hint about the `;` or `,` at the end of a word, if the word ends with such a sign; otherwise the hint `other`.
pub fn hint_at_end(word: &[u8], other: &'static str) -> &'static str {
    if ends_as_in_c(word) {
        "words are separated by blanks, without `,` or `;`"
    } else {
        other
    }
}

/// Whether a word names a field of a field, such as `a.b.c`.
fn is_chain(word: &[u8]) -> bool {
    is_name(before_first(b'.', word)) && is_field(after_first_of(b'.', word))
}

fn reserved_complaint() -> Complaint {
    (
        "the name is reserved",
        "`self`, `ptr`, `int`, `null`, `some`, `eq` and `less` can't be declared",
    )
}

/// What is wrong with a word that is a name or a field.
fn name_complaint(operand_place: OperandPlace, word: &[u8]) -> Complaint {
    match operand_place {
        OperandPlace::Declared | OperandPlace::ItsPointer if is_reserved(word) =>
            reserved_complaint(),
        _ if is_field(word) => ("a field is not allowed here", ""),
        _ => ("a name is not allowed here", ""),
    }
}

/// What is wrong with a word that the language doesn't have.
fn other_complaint(word: &[u8]) -> Complaint {
    match word {
        _ if is_chain(word) => {
            (
                "a word can't name a field of a field",
                "`set` a pointer of its class to the first field, and name the second field through that pointer",
            )
        }
        [first, ..] if is_digit(*first) => {
            (
                "this is neither a number nor a name",
                hint_at_end(
                    word,
                    "a number has only decimal digits, and a name begins with a letter",
                ),
            )
        }
        [b'+', ..] => ("this is not a number", "only a negative number has a sign"),
        _ => (
            "this is not a name",
            hint_at_end(
                word,
                "a name is a letter followed by letters, digits and `_`",
            ),
        ),
    }
}

/// What is wrong with a word that isn't allowed in this operand place.
pub fn complaint_of(operand_place: OperandPlace, word: &[u8]) -> Complaint {
    if matches!(word, [b'"', ..]) {
        quoted_complaint(word)
    } else if has_byte(b':', word) || matches!(operand_place, OperandPlace::Parameter) {
        parameter_complaint(operand_place, word)
    } else if is_numeral(word) {
        numeral_complaint(operand_place, word)
    } else if is_name(word) || is_field(word) {
        name_complaint(operand_place, word)
    } else {
        other_complaint(word)
    }
}
