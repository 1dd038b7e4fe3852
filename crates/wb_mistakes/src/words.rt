//! Decides from the bytes of a word what the word is, such as a numeral or a parameter.

use wb_lines::words::{
    base_name, field_name, is_digit, literal_of, parameter_name, parameter_type_of_word,
};

/// Whether a word contains a byte.
pub fn has_byte(byte: u8, word: &[u8]) -> bool {
    word.contains(&byte)
}

pub fn is_field(word: &[u8]) -> bool {
    base_name(word).is_some() && field_name(word).is_some()
}

/// The digits of a number, without its sign.
pub fn digits<'a>(word: &'a [u8]) -> &'a [u8] {
    match word {
        [b'-', digits @ ..] => digits,
        _ => word,
    }
}

/// Whether a word consists of one or more digits, perhaps after a `-`.
pub fn is_numeral(word: &[u8]) -> bool {
    let digits = digits(word);
    for byte in digits {
        if !is_digit(*byte) {
            return false;
        }
    }
    !digits.is_empty()
}

pub fn is_literal(word: &[u8]) -> bool {
    literal_of(word).is_some()
}

pub fn is_parameter(word: &[u8]) -> bool {
    parameter_name(word).is_some() && parameter_type_of_word(word).is_some()
}

/// Whether a word declares a parameter with this name.
pub fn is_parameter_named(word: &[u8], name: &[u8]) -> bool {
    matches!(word.strip_prefix(name), Some([b':', ..])) && is_parameter(word)
}
