//! What a word after the first word of a line is: a name, a field, a number, a literal, a parameter, or the keyword of a condition.

ghost use Rattle.std.specs.Prelude.{◌≡◌, ◌<◌, ◌≤◌, ◌^◌, IfSome, length};
ghost use Rattle.std.specs.List.{list_all, list_any};
ghost use Rattle.std.specs.Option.{option_copied, option_map};
ghost use Rattle.std.specs.Str.{bytes_eq};
ghost use Rattle.wb_language.specs.Words.{is_letter, is_digit, is_name_byte, is_name, is_reserved, declared_name};
ghost use Rattle.wb_tree.specs.Sound.{is_quotable};
ghost use Rattle.wb_language.specs.Words.{used_name, length_before, before_first};
ghost use Rattle.wb_language.specs.Words.{after_first_of, digits_of};
ghost use Rattle.wb_language.specs.Words.{number_spelled, literal_spelled, base_name, field_name};
ghost use Rattle.wb_language.specs.Words.{parameter_type_after_colon, parameter_name, parameter_type_of_word};
ghost use Rattle.wb_language.specs.Words.{text_of_keyword};
ghost use Rattle.wb_language.specs.Forms.{renamed_parameter_type};
ghost use Rattle.wb_lines.specs.BytesOf.{bytes_of_text};

use wb_tree::script_lines::{Keyword, ParameterType};

/// The names that can't be declared.
const RESERVED: [&[u8]; 7] = [b"self", b"ptr", b"int", b"null", b"some", b"eq", b"less"];

fn is_letter(byte: u8) -> bool
    ensures { result ≡ is_letter byte }
{
    byte.is_ascii_lowercase() || byte.is_ascii_uppercase()
}

/// Whether a byte is a digit.
pub fn is_digit(byte: u8) -> bool
    ensures { result ≡ is_digit byte }
{
    byte >= b'0' && byte <= b'9'
}

fn is_name_byte(byte: u8) -> bool
    ensures { result ≡ is_name_byte byte }
{
    is_letter(byte) || is_digit(byte) || byte == b'_'
}

fn is_quotable(byte: u8) -> bool
    ensures { result ≡ is_quotable byte }
{
    byte >= b' ' && byte <= b'~' && byte != b'"'
}

fn are_name_bytes(bytes: &[u8]) -> bool
    ensures { result ≡ list_all is_name_byte bytes.now }
{
    bytes.iter().all(|byte| is_name_byte(*byte))
}

/// Whether a word is a name: a letter, and then letters, digits and `_`.
pub fn is_name(word: &[u8]) -> bool
    ensures { result ≡ is_name word.now }
{
    match word {
        [] => false,
        [first, rest @ ..] => is_letter(*first) && are_name_bytes(rest),
    }
}

fn is_among(words: &[&[u8]], word: &[u8]) -> bool
    ensures { result ≡ list_any (λ w. bytes_eq word.now w.now) words.now }
{
    words.iter().any(|w| word == *w)
}

/// Whether a word is one of the names that can't be declared.
pub fn is_reserved(word: &[u8]) -> bool
    ensures { result ≡ is_reserved word.now }
{
    is_among(&RESERVED, word)
}

/// The name that a word declares; `None` if the word is no name, or is a name that can't be declared.
pub fn declared_name<'a>(word: &'a [u8]) -> Option<&'a [u8]>
    ensures { option_copied result ≡ declared_name word.now }
{
    if is_name(word) && !is_reserved(word) {
        Some(word)
    } else {
        None
    }
}

/// The name that a word uses, which may be `self` or another name that can't be declared; `None` if the word is no name.
pub fn used_name<'a>(word: &'a [u8]) -> Option<&'a [u8]>
    ensures { option_copied result ≡ used_name word.now }
{
    if is_name(word) { Some(word) } else { None }
}

/// How many bytes of a word come before the first `byte` in it; the length of the word if it doesn't contain `byte`.
fn length_before(byte: u8, word: &[u8]) -> usize
    ensures length { result ≡ length_before byte word.now }
    ensures within { result ≤ length word.now }
{
    for (index, other) in word.iter().enumerate() {
        if *other == byte {
            return index;
        }
    }
    word.len()
}

/// The part of a word before the first `byte` in it; the whole word if it doesn't contain `byte`.
pub fn before_first<'a>(byte: u8, word: &'a [u8]) -> &'a [u8]
    ensures { result.now ≡ before_first byte word.now }
{
    &word[..length_before(byte, word)]
}

/// The part of a word after the first `byte` in it; empty if the word doesn't contain `byte`.
pub fn after_first_of<'a>(byte: u8, word: &'a [u8]) -> &'a [u8]
    ensures { result.now ≡ after_first_of byte word.now }
{
    let before = length_before(byte, word);
    if before < word.len() {
        &word[before + 1..]
    } else {
        &word[before..]
    }
}

/// The number that one to nine digits spell; `None` if the word is anything else.
fn digits_of(word: &[u8]) -> Option<u32>
    ensures number { result ≡ digits_of word.now }
    ensures bound { IfSome result (λ n. n < 10 ^ 9) }
{
    if word.is_empty() || word.len() > 9 {
        return None;
    }
    let mut value = 0;
    for byte in word {
        if !is_digit(*byte) {
            return None;
        }
        value = 10 * value + (*byte - b'0') as u32;
    }
    Some(value)
}

/// The number that a word spells: one to nine digits, perhaps after a `-`; `None` if the word is anything else.
pub fn number_of(word: &[u8]) -> Option<i32>
    ensures { result ≡ number_spelled word.now }
{
    match word {
        [b'-', digits @ ..] => match digits_of(digits) {
            Some(number) => Some(-(number as i32)),
            None => None,
        },
        _ => match digits_of(word) {
            Some(number) => Some(number as i32),
            None => None,
        },
    }
}

fn are_quotable(bytes: &[u8]) -> bool
    ensures { result ≡ list_all is_quotable bytes.now }
{
    bytes.iter().all(|byte| is_quotable(*byte))
}

/// The text of a literal, without its quotes; `None` if the word is no literal.
pub fn literal_of<'a>(word: &'a [u8]) -> Option<&'a [u8]>
    ensures { option_copied result ≡ literal_spelled word.now }
{
    match word {
        [b'"', inside @ .., b'"'] if are_quotable(inside) => Some(inside),
        _ => None,
    }
}

/// The name before the dot of a field, which is `self` or the name of a pointer; `None` if the part before the dot is no name.
pub fn base_name<'a>(word: &'a [u8]) -> Option<&'a [u8]>
    ensures { option_copied result ≡ base_name word.now }
{
    used_name(before_first(b'.', word))
}

/// The name after the dot of a field; `None` if the part after the dot is no name.
pub fn field_name<'a>(word: &'a [u8]) -> Option<&'a [u8]>
    ensures { option_copied result ≡ field_name word.now }
{
    used_name(after_first_of(b'.', word))
}

/// What a parameter takes, from the part of its word after the colon; `None` if this part is no name. Any name except `ptr` and `int` is
/// the name of a class.
fn parameter_type_after_colon<'a>(word: &'a [u8]) -> Option<ParameterType<&'a [u8]>>
    ensures { option_map (renamed_parameter_type bytes_of_text) result
        ≡ parameter_type_after_colon word.now }
{
    if word == b"ptr".as_slice() {
        Some(ParameterType::Pointer)
    } else if word == b"int".as_slice() {
        Some(ParameterType::Number)
    } else {
        match used_name(word) {
            Some(class) => Some(ParameterType::OfClass(class)),
            None => None,
        }
    }
}

/// The name of the parameter that a word declares: the part before the colon. The result is `None` if this part can't be declared.
pub fn parameter_name<'a>(word: &'a [u8]) -> Option<&'a [u8]>
    ensures { option_copied result ≡ parameter_name word.now }
{
    declared_name(before_first(b':', word))
}

/// What the parameter that a word declares takes; `None` if the part after the colon is no name.
pub fn parameter_type_of_word<'a>(word: &'a [u8]) -> Option<ParameterType<&'a [u8]>>
    ensures { option_map (renamed_parameter_type bytes_of_text) result
        ≡ parameter_type_of_word word.now }
{
    parameter_type_after_colon(after_first_of(b':', word))
}

/// The text of a keyword.
pub fn text_of_keyword(keyword: Keyword) -> &'static [u8]
    ensures { result.now ≡ text_of_keyword keyword }
{
    match keyword {
        Keyword::Null => b"null",
        Keyword::Some => b"some",
        Keyword::Equal => b"eq",
        Keyword::Less => b"less",
    }
}

/// Whether a word is this keyword.
pub(crate) fn is_keyword(keyword: Keyword, word: &[u8]) -> bool
    ensures { result ≡ bytes_eq word.now (text_of_keyword keyword) }
{
    word == text_of_keyword(keyword)
}
