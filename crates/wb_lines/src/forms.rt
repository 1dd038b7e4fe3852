//! The form of a line: the first line kind whose text and operand places fit the words of the line, and the operands of the line.

ghost use Rattle.std.specs.Prelude.{◌≡◌, ◌<◌, ℕ, [], ◌∷◌, ◌++◌, length, slice_get, IfOk, IfErr, IsTrue, OnOk};
ghost use Rattle.std.specs.Option.{option_and_then, option_map};
ghost use Rattle.std.specs.Str.{bytes_eq};
ghost use Rattle.wb_tree.specs.declared.script_lines.Form.TheVariants.{Skip};
ghost use Rattle.wb_tree.specs.declared.script_lines.Operand.TheVariants.{Name, Number, Literal};
ghost use Rattle.wb_language.specs.Forms.{renamed_parameter_type, size_of, field_of, parameter_of, operand_as};
ghost use Rattle.wb_language.specs.Forms.{operand_among, operand_of, operands_of, operands_if, form_in, form_of};
ghost use Rattle.wb_language.specs.Forms.{forms_of, line_form, begins_comment, role_of_form};
ghost use Rattle.wb_tree.specs.declared.script_lines.WordKind.TheVariants as kind;
ghost use Rattle.wb_language.specs.LineKinds.{line_kinds, operand_places_with, operand_places_for, text_of};
ghost use Rattle.wb_lines.specs.BytesOf.{bytes_of_text, bytes_of_texts, bytes_of_operand, bytes_of_operands};
ghost use Rattle.wb_lines.specs.BytesOf.{bytes_of_form, bytes_of_forms};

use crate::line_kinds::{line_kinds_with_first, role_of, text_of};
use crate::lists::add;
use crate::operand_places::{OperandPlaces, word_kinds};
use crate::same::are_same;
use crate::segments::{add_words, after_blanks};
use crate::words::{
    base_name, declared_name, field_name, is_keyword, literal_of, number_of, parameter_name,
    parameter_type_of_word, used_name,
};
use std::alloc::{AllocError, Global};
use wb_basics::items::Items;
use wb_tree::script_lines::{
    Form, Keyword, LineKind, Operand, OperandPlace, ParameterType, Role, WordKind,
};

/// A name as an operand; `None` if there is no name.
fn name_operand<'a>(name: Option<&'a [u8]>) -> Option<Operand<&'a [u8]>>
    ensures { option_map bytes_of_operand result
        ≡ option_map Name (option_map bytes_of_text name.entry) }
{
    match name {
        Some(name) => Some(Operand::Name(name)),
        None => None,
    }
}

/// A field as an operand; `None` if the name before the dot or the name of the field is missing.
fn field_operand<'a>(base: Option<&'a [u8]>, field: Option<&'a [u8]>) -> Option<Operand<&'a [u8]>>
    ensures { option_map bytes_of_operand result
        ≡ field_of (option_map bytes_of_text base.entry) (option_map bytes_of_text field.entry) }
{
    match (base, field) {
        (Some(base), Some(field)) => Some(Operand::Field(base, field)),
        _ => None,
    }
}

/// A number as an operand; `None` if there is no number.
fn number_operand<'a>(number: Option<i32>) -> Option<Operand<&'a [u8]>>
    ensures { option_map bytes_of_operand result ≡ option_map Number number }
{
    match number {
        Some(number) => Some(Operand::Number(number)),
        None => None,
    }
}

/// A number as an operand that is a size; `None` if there is no number, or it is negative.
fn size_operand<'a>(number: Option<i32>) -> Option<Operand<&'a [u8]>>
    ensures { option_map bytes_of_operand result ≡ size_of number }
{
    match number {
        Some(number) if number >= 0 => Some(Operand::Size(number as u32)),
        _ => None,
    }
}

/// A literal as an operand; `None` if there is no text.
fn literal_operand<'a>(text: Option<&'a [u8]>) -> Option<Operand<&'a [u8]>>
    ensures { option_map bytes_of_operand result
        ≡ option_map Literal (option_map bytes_of_text text.entry) }
{
    match text {
        Some(text) => Some(Operand::Literal(text)),
        None => None,
    }
}

/// A parameter as an operand; `None` if its name or what it takes is missing.
fn parameter_operand<'a>(
    name: Option<&'a [u8]>,
    parameter_type: Option<ParameterType<&'a [u8]>>,
) -> Option<Operand<&'a [u8]>>
    ensures { option_map bytes_of_operand result
        ≡ parameter_of (option_map bytes_of_text name.entry)
        (option_map (renamed_parameter_type bytes_of_text) parameter_type.entry) }
{
    match (name, parameter_type) {
        (Some(name), Some(parameter_type)) => Some(Operand::Parameter(name, parameter_type)),
        _ => None,
    }
}

/// A keyword as an operand; `None` if the word isn't this keyword.
fn keyword_as<'a>(keyword: Keyword, word: &[u8]) -> Option<Operand<&'a [u8]>>
    ensures { option_map bytes_of_operand result ≡ operand_as (kind.Keyword keyword) word.now }
{
    if is_keyword(keyword, word) {
        Some(Operand::Keyword)
    } else {
        None
    }
}

/// A word as an operand, read as a word of this kind; `None` if the word isn't of this kind.
fn operand_as<'a>(kind: WordKind, word: &'a [u8]) -> Option<Operand<&'a [u8]>>
    ensures { option_map bytes_of_operand result ≡ operand_as kind word.now }
{
    match kind {
        WordKind::NewName => name_operand(declared_name(word)),
        WordKind::Name => name_operand(used_name(word)),
        WordKind::Field => field_operand(base_name(word), field_name(word)),
        WordKind::Number => number_operand(number_of(word)),
        WordKind::Size => size_operand(number_of(word)),
        WordKind::Literal => literal_operand(literal_of(word)),
        WordKind::Parameter => parameter_operand(
            parameter_name(word),
            parameter_type_of_word(word),
        ),
        WordKind::NewPointer => parameter_operand(
            declared_name(word),
            Some(ParameterType::Pointer),
        ),
        WordKind::Keyword(keyword) => keyword_as(keyword, word),
    }
}

/// A word as an operand, read as a word of the first of these kinds that fits the word; `None` if no kind fits.
fn operand_among<'a>(kinds: &[WordKind], word: &'a [u8]) -> Option<Operand<&'a [u8]>>
    ensures { option_map bytes_of_operand result ≡ operand_among kinds.now word.now }
{
    for kind in kinds {
        match operand_as(*kind, word) {
            Some(operand) => return Some(operand),
            None => {}
        }
    }
    None
}

/// A word as an operand in this operand place; `None` if the word isn't grammatical in this place.
pub fn operand_of<'a>(operand_place: OperandPlace, word: &'a [u8]) -> Option<Operand<&'a [u8]>>
    ensures { option_map bytes_of_operand result ≡ operand_of operand_place word.now }
{
    operand_among(word_kinds(operand_place), word)
}

/// A word as an operand, by its index among the words after the first word of the line. The result is `None` if there is no operand place
/// with this index, or the word isn't grammatical in that place.
fn operand_at<'a>(
    operand_places: OperandPlaces,
    index: usize,
    word: &'a [u8],
) -> Option<Operand<&'a [u8]>>
    ensures { (count : ℕ) → index < count →
        option_and_then (λ operand_place.
        operand_of operand_place word.now)
        (slice_get (operand_places_with operand_places.fixed.now operand_places.rest count) index)
        ≡ option_map bytes_of_operand result }
{
    match operand_places.at(index) {
        Some(operand_place) => operand_of(operand_place, word),
        None => None,
    }
}

/// Reads the words after the first word of a line as operands, each in its operand place. `None` if there are too few or too many words, or
/// if a word doesn't fit its place. Memory is asked for only if the places admit this number of words.
fn operands_of<'a>(
    alloc: Global,
    operand_places: OperandPlaces,
    words: &[&'a [u8]],
) -> Result<Option<Vec<Operand<&'a [u8]>>>, AllocError>
    ensures operands { IfOk result (λ found. option_map (λ o. bytes_of_operands o.items) found
        ≡ operands_of (operand_places_with operand_places.fixed.now operand_places.rest
        (length words.now)) (bytes_of_texts words.now)) }
    ensures memory { IfErr result (λ _.
        length (operand_places_with operand_places.fixed.now operand_places.rest (length words.now))
        ≡ length words.now) }
{
    if !operand_places.admit(words.len()) {
        return Ok(None);
    }
    let mut found = Vec::with_capacity(alloc, words.len())?;
    for (index, word) in words.iter().enumerate() {
        match operand_at(operand_places, index, word) {
            None => return Ok(None),
            Some(operand) => add(&mut found, operand)?,
        }
    }
    Ok(Some(found))
}

/// The operands of a line of this kind, from its first word and the words after it. The result is `None` if the first word isn't the text
/// of the line kind, or the other words don't fit.
fn operands_if<'a>(
    alloc: Global,
    line_kind: LineKind,
    first: &[u8],
    words: &[&'a [u8]],
) -> Result<Option<Vec<Operand<&'a [u8]>>>, AllocError>
    ensures { IfOk result (λ found. option_map (λ o. bytes_of_operands o.items) found
        ≡ operands_if (bytes_eq (text_of line_kind) first.now) line_kind
        (bytes_of_texts words.now)) }
{
    if are_same(text_of(line_kind), first) {
        operands_of(alloc, OperandPlaces::of(line_kind), words)
    } else {
        Ok(None)
    }
}

/// The form of a line, by the first of these line kinds that fits its words; `Unknown` if no line kind fits.
fn form_in<'a>(
    alloc: Global,
    line_kinds: &[LineKind],
    first: &[u8],
    words: &[&'a [u8]],
) -> Result<Form<&'a [u8]>, AllocError>
    ensures { IfOk result (λ form.
        bytes_of_form form ≡ form_in line_kinds.now first.now (bytes_of_texts words.now)) }
{
    for line_kind in line_kinds {
        match operands_if(alloc, *line_kind, first, words)? {
            Some(operands) => return Ok(Form::Line(*line_kind, Items::from_vec(operands))),
            None => {}
        }
    }
    Ok(Form::Unknown)
}

/// The form of a line that is no comment, by the tables of the language. Only line kinds whose text begins with the first byte of the
/// line's first word are tried.
fn form_by_tables<'a>(
    alloc: Global,
    first: &[u8],
    words: &[&'a [u8]],
) -> Result<Form<&'a [u8]>, AllocError>
    ensures { IfOk result (λ form.
        bytes_of_form form ≡ form_in line_kinds first.now (bytes_of_texts words.now)) }
{
    match first {
        [byte, ..] => form_in(alloc, line_kinds_with_first(*byte), first, words),
        [] => Ok(Form::Unknown),
    }
}

/// Whether a line with this first word is a comment.
pub fn begins_comment(word: &[u8]) -> bool
    ensures { result ≡ begins_comment word.now }
{
    matches!(word, [b'#', ..])
}

/// The form of a line, by all its words.
pub fn form_of<'a>(alloc: Global, words: &[&'a [u8]]) -> Result<Form<&'a [u8]>, AllocError>
    ensures { IfOk result (λ form. bytes_of_form form ≡ form_of (bytes_of_texts words.now)) }
{
    match words {
        [] => Ok(Form::Skip),
        [first, rest @ ..] => {
            if begins_comment(first) {
                return Ok(Form::Skip);
            }
            form_by_tables(alloc, first, rest)
        }
    }
}

/// Whether a line is empty or a comment. The line begins with its first byte that is no blank.
fn is_skipped(line: &[u8]) -> bool
    ensures { IsTrue result → line_form line.now ≡ Skip }
{
    matches!(line, [] | [b'#', ..])
}

/// The form of a line, which is given without its line feed. `words` is a buffer that is used for one line after another: the function
/// clears it, and then fills it with the words of this line. An empty line or a comment isn't cut into words.
fn line_form<'a>(
    alloc: Global,
    words: &mut Vec<&'a [u8]>,
    line: &'a [u8],
) -> Result<Form<&'a [u8]>, AllocError>
    ensures { IfOk result (λ form. bytes_of_form form ≡ line_form line.now) }
{
    let content = after_blanks(line);
    if is_skipped(content) {
        return Ok(Form::Skip);
    }
    words.clear();
    add_words(words, content)?;
    form_of(alloc, words)
}

fn add_form<'a>(
    alloc: Global,
    forms: &mut Vec<Form<&'a [u8]>>,
    words: &mut Vec<&'a [u8]>,
    line: &'a [u8],
) -> Result<(), AllocError>
    ensures { OnOk result (bytes_of_forms forms.new.items
        ≡ bytes_of_forms forms.old.items ++ line_form line.now ∷ []) }
{
    add(forms, line_form(alloc, words, line)?)
}

/// The forms of lines, one form for each line. The function is never inlined, because the values that it uses for each line only just fit
/// into the registers.
#[inline(never)]
pub fn forms<'a>(alloc: Global, lines: &[&'a [u8]]) -> Result<Vec<Form<&'a [u8]>>, AllocError>
    ensures { IfOk result (λ found.
        bytes_of_forms found.items ≡ forms_of (bytes_of_texts lines.now)) }
{
    let mut found = Vec::with_capacity(alloc, lines.len())?;
    let mut words = Vec::new(alloc);
    for line in lines {
        add_form(alloc, &mut found, &mut words, line)?;
    }
    Ok(found)
}

/// The role of a line in the grammar of blocks.
pub fn role<N>(form: &Form<N>) -> Role
    ensures { result ≡ role_of_form form.now }
{
    match form {
        Form::Skip => Role::Skip,
        Form::Unknown => Role::Unknown,
        Form::Line(line_kind, _) => role_of(*line_kind),
    }
}
