//! What a line seems to mean, written as a script writes it: a member after an arrow, a text in other quotes, a sum, or a missing word.

use crate::lines::Line;
use crate::words::{digits, is_numeral};
use wb_lines::forms::operand_of;
use wb_lines::words::{after_first_of, before_first, is_name};
use wb_pages::{Page, Shown, Span, Spot, Word};
use wb_tree::script_lines::{LineKind, OperandPlace};

/// Words by which other languages subtract.
const SUBTRACTING: [&[u8]; 6] = [b"sub", b"subtract", b"minus", b"dec", b"decr", b"decrement"];

/// Words by which other languages add.
const ADDING: [&[u8]; 4] = [b"inc", b"incr", b"increment", b"plus"];

/// The characters before a text in other languages, and the quote that ends such a text.
const OPENINGS: [(&[u8], u8); 5] = [
    (b"'", b'\''),
    (b"_L(\"", b'"'),
    (b"_L8(\"", b'"'),
    (b"_L16(\"", b'"'),
    (b"_S(\"", b'"'),
];

/// The names before and after the arrow in a word such as `n->b`, perhaps followed by `;` or `,`; `None` for any other word.
fn member_in<'a>(word: &'a [u8]) -> Option<(&'a [u8], &'a [u8])> {
    let base = before_first(b'-', word);
    let name = match after_first_of(b'-', word) {
        [b'>', name @ .., b';' | b','] => name,
        [b'>', name @ ..] => name,
        _ => return None,
    };
    if is_name(base) && is_name(name) {
        Some((base, name))
    } else {
        None
    }
}

/// Says how a script names a member, if a word names a member after an arrow. Returns whether a word names a member in this way.
pub fn help_with_member(page: &mut Page, word: &[u8]) -> bool {
    let Some((base, name)) = member_in(word) else {
        return false;
    };
    let base = if base == b"this".as_slice() {
        b"self".as_slice()
    } else {
        base
    };
    page.write_help(format_args!(
        "did you mean `{}.{}`?",
        Shown::word(base),
        Shown::word(name)
    ));
    true
}

/// A text in other quotes than a script uses. `place` is the place of the word in which the text begins, `spot` is the part of the line
/// that the text takes up, and `text` is the text itself.
#[derive(Clone, Copy)]
pub struct OtherText<'a> {
    pub place: usize,
    pub spot: Spot<'a>,
    text: &'a [u8],
}

/// How many characters come before the text that begins with this word, and the quote that ends the text; `None` if no text begins with
/// this word.
fn opening_of(word: &[u8]) -> Option<(usize, u8)> {
    for (opening, quote) in &OPENINGS {
        if word.starts_with(opening) {
            return Some((opening.len(), *quote));
        }
    }
    None
}

/// The text that begins with a word of a line, if the text is in other quotes and ends on the same line; `None` otherwise.
fn text_from<'a>(line: &Line<'a>, place: usize, word: Word<'a>) -> Option<OtherText<'a>> {
    let (opening, quote) = opening_of(word.text)?;
    let (_, rest) = line
        .text
        .split_at_checked(word.column.saturating_add(opening))?;
    let text = before_first(quote, rest);
    if text.len() == rest.len() || text.contains(&b'"') {
        return None;
    }
    let closing = if opening > 1 { 2 } else { 1 };
    let span = Span {
        column: word.column,
        length: opening.saturating_add(text.len()).saturating_add(closing),
    };
    Some(OtherText {
        place,
        spot: line.spot_of(span, word.text),
        text,
    })
}

/// The first text of a line that is in other quotes than a script uses; `None` if there is no such text.
pub fn other_text<'a>(line: &Line<'a>) -> Option<OtherText<'a>> {
    for (place, word) in line.words.iter().enumerate() {
        if let Some(found) = text_from(line, place, *word) {
            return Some(found);
        }
    }
    None
}

/// Says that a text is in other quotes than a script uses.
pub fn explain_other_text(page: &mut Page, found: OtherText) {
    page.mark(found.spot, "a text stands between two `\"`");
    page.write_help(format_args!("did you mean `\"{}\"`?", Shown::word(found.text)));
}

fn is_among(words: &[&[u8]], word: &[u8]) -> bool {
    words.iter().any(|it| word == *it)
}

/// A number that a line adds to an int or subtracts from an int, in other words than a script uses.
#[derive(Clone, Copy)]
struct Sum<'a> {
    target: &'a [u8],
    number: &'a [u8],
    is_less: bool,
}

/// The int and the sign of a word such as `n++` or `--n`, perhaps followed by `;`; `None` for any other word.
fn step_in<'a>(word: &'a [u8]) -> Option<Sum<'a>> {
    let bare = match word {
        [bare @ .., b';'] => bare,
        _ => word,
    };
    let (target, is_less) = match bare {
        [target @ .., b'+', b'+'] | [b'+', b'+', target @ ..] => (target, false),
        [target @ .., b'-', b'-'] | [b'-', b'-', target @ ..] => (target, true),
        _ => return None,
    };
    Some(Sum {
        target,
        number: b"1",
        is_less,
    })
}

/// What a line adds or subtracts in other words than a script uses; `None` if the line neither adds nor subtracts.
fn sum_of<'a>(line: &Line<'a>) -> Option<Sum<'a>> {
    let word = line.text_at(0);
    let is_less = is_among(&SUBTRACTING, word);
    if !is_less && !is_among(&ADDING, word) {
        return step_in(word);
    }
    let number = match line.text_at(2) {
        [] => b"1",
        number => number,
    };
    Some(Sum {
        target: line.text_at(1),
        number,
        is_less,
    })
}

/// Says how a script adds or subtracts, if a line does so in other words. Returns whether the line adds or subtracts in other words.
pub fn help_with_sum(page: &mut Page, line: &Line) -> bool {
    let Some(
        Sum {
            target,
            number,
            is_less,
        },
    ) = sum_of(line)
    else {
        return false;
    };
    if !is_name(target) {
        return false;
    }
    let (target, shown) = (Shown::word(target), Shown::word(number));
    if !is_less {
        page.write_help(format_args!("did you mean `add {target} {shown}`?"));
    } else if !is_numeral(number) {
        page.write_help(format_args!(
            "to subtract an int, `add {target} -1` in a `repeat {shown}`; to subtract a numeral, add it with a `-` before it"
        ));
    } else if digits(number).len() < number.len() {
        let positive = Shown::word(digits(number));
        page.write_help(format_args!("did you mean `add {target} {positive}`?"));
    } else {
        page.write_help(format_args!("did you mean `add {target} -{shown}`?"));
    }
    true
}

/// Says what is missing in a line with too few words, if the line's form alone doesn't say this.
pub fn help_with_missing(page: &mut Page, line: &Line, line_kind: LineKind) {
    let (name, count) = (line.shown_word(1), line.words.len());
    match line_kind {
        LineKind::Class if count == 2 => page.write_help(format_args!(
            "NUMBER is how many bytes its other members take, pointers left out: `class {name} 0` if there are none"
        )),
        LineKind::Buf if count == 2 => page.write_help(format_args!(
            "NUMBER is the most units that its text may have: `buf {name} 16`, for example"
        )),
        LineKind::Realloc | LineKind::ReallocL | LineKind::HRealloc => {
            page.write_help_text(GETS_ANSWER);
            help_with_number(page, line);
        }
        _ => {}
    }
}

/// The hint that says which of two pointers a line changes.
const GETS_ANSWER: &str =
    "the first POINTER gets the answer, the second names the cell; both may be the same";

/// Says what a line seems to mean that has one pointer and a number, if its form has two pointers.
fn help_with_number(page: &mut Page, line: &Line) {
    let number = line.text_at(2);
    if line.words.len() == 3 && operand_of(OperandPlace::Value, number).is_some() {
        page.write_help(format_args!(
            "did you mean `{} {} {} {}`?",
            line.shown_word(0),
            line.shown_word(1),
            line.shown_word(1),
            Shown::word(number)
        ));
    }
}
