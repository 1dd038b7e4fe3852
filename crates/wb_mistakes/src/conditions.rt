//! The explanation of an `if` whose second word isn't a condition: which condition seems to be meant.

use crate::forms::help_with_forms;
use crate::lines::Line;
use crate::nearest::{Candidate, Search};
use crate::operand_kinds::operand_kind_in_body;
use crate::words::is_field;
use wb_lines::words::{is_name, text_of_keyword};
use wb_pages::{Page, Shown};
use wb_tree::script_lines::{Keyword, OperandKind};

/// The keywords of conditions.
static CONDITIONS: [Keyword; 4] = [Keyword::Null, Keyword::Some, Keyword::Equal, Keyword::Less];

/// An operand that is the whole condition of an `if`, as in C++, and whether a `!` comes before the operand.
#[derive(Clone, Copy)]
struct Tested<'a> {
    operand: &'a [u8],
    is_negated: bool,
}

fn is_condition(word: &[u8]) -> bool {
    for condition in &CONDITIONS {
        if text_of_keyword(*condition) == word {
            return true;
        }
    }
    false
}

/// Whether the line is an `if` with a second word that isn't the keyword of a condition.
pub fn has_no_condition(line: &Line) -> bool {
    let condition = line.text_at(1);
    line.text_at(0) == b"if".as_slice() && !condition.is_empty() && !is_condition(condition)
}

fn nearest_condition(word: &[u8]) -> Option<Candidate<'static>> {
    let mut search = Search::of(word);
    for condition in &CONDITIONS {
        search.consider(text_of_keyword(*condition), 0);
    }
    search.found
}

/// The operand that a word tests. The word may be `p`, `!p`, `(p)` or `(!p)`.
fn tested_in<'a>(word: &'a [u8]) -> Tested<'a> {
    let inside = match word {
        [b'(', inside @ .., b')'] => inside,
        _ => word,
    };
    match inside {
        [b'!', operand @ ..] => Tested {
            operand,
            is_negated: true,
        },
        operand => Tested {
            operand,
            is_negated: false,
        },
    }
}

/// The operand that an `if` tests, and the operand's kind. The line must have just one word after the `if`: a name or a field, perhaps with
/// a `!` and in brackets. The result is `None` for any other line.
fn tested_by<'a>(
    lines: &[Line],
    index: usize,
    line: &Line<'a>,
) -> Option<(Tested<'a>, OperandKind)> {
    let tested = tested_in(line.text_at(1));
    if line.words.len() == 2 && (is_name(tested.operand) || is_field(tested.operand)) {
        let kind = operand_kind_in_body(lines, index, tested.operand);
        Some((tested, kind))
    } else {
        None
    }
}

/// The hint for an `if` that tests a text.
const TESTS_NO_TEXT: &str = "an `if` tests pointers and ints; `getlen` gives the length of a text";

/// Says which condition a script uses to test an operand alone. `kind` is the operand's kind.
fn help_with_tested(page: &mut Page, tested: Tested, kind: OperandKind) {
    let operand = Shown::word(tested.operand);
    match (kind, tested.is_negated) {
        (OperandKind::Variable, true) => {
            page.write_help(format_args!("did you mean `if eq {operand} 0`?"))
        }
        (OperandKind::Variable, false) => page.write_help(format_args!(
            "did you mean `if eq {operand} 0`, with these lines after an `else`? no condition says that numbers differ"
        )),
        (OperandKind::Buffer | OperandKind::View, _) => { page.write_help_text(TESTS_NO_TEXT) }
        (_, true) => page.write_help(format_args!("did you mean `if null {operand}`?")),
        (_, false) => page.write_help(format_args!("did you mean `if some {operand}`?")),
    }
}

/// Says what is wrong with the condition of the line at an index. The line must be an `if`.
pub fn explain_condition(page: &mut Page, lines: &[Line], index: usize, line: &Line) {
    let spot = line.spot(1);
    page.mark(
        spot,
        format_args!("no such condition: `{}`", spot.shown_word()),
    );
    let near = nearest_condition(spot.word);
    match (tested_by(lines, index, line), near) {
        (Some((_, OperandKind::Nothing)), Some(near)) => help_with_near(page, near),
        (Some((tested, kind)), _) => help_with_tested(page, tested, kind),
        (None, Some(near)) => help_with_near(page, near),
        (None, None) => help_with_brackets(page, spot.word),
    }
    help_with_forms(page, b"if");
}

fn help_with_near(page: &mut Page, near: Candidate) {
    page.write_help(format_args!("did you mean `{}`?", Shown::word(near.word)));
}

fn help_with_brackets(page: &mut Page, word: &[u8]) {
    if let [b'(', ..] = word {
        page.write_help_text("in a script `if (p)` is `if some p`, and `if (!p)` is `if null p`");
    }
}
