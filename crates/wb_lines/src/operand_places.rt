//! The words after the first word of a line: which operand place each word has, and which words are grammatical in an operand place.

ghost use Rattle.std.specs.Prelude.{◌≡◌, ◌<◌, ℕ, length, nat_eq, slice_get};
ghost use Rattle.wb_language.specs.LineKinds.{operand_places_with, operand_places_for, word_kinds};

use crate::line_kinds::{operand_places_of, rest_of};
use wb_tree::script_lines::{Keyword, LineKind, OperandPlace, WordKind};

/// The operand places of a line kind. Every line of the kind has the `fixed` places, and `rest` is the place of any further words, if there
/// may be any.
#[derive(Clone, Copy)]
pub struct OperandPlaces {
    pub fixed: &'static [OperandPlace],
    pub rest: Option<OperandPlace>,
}

impl OperandPlaces {
    /// The operand places of this line kind.
    pub fn of(line_kind: LineKind) -> OperandPlaces
        ensures { (count : ℕ) → operand_places_with result.fixed.now result.rest count
            ≡ operand_places_for line_kind count }
    {
        OperandPlaces {
            fixed: operand_places_of(line_kind),
            rest: rest_of(line_kind),
        }
    }

    /// The operand place of a word, by its index among the words after the first word of the line; `None` if there may be no such word.
    pub fn at(self, index: usize) -> Option<OperandPlace>
        ensures { (count : ℕ) → index < count →
            slice_get (operand_places_with self.fixed.now self.rest count) index ≡ result }
    {
        if index < self.fixed.len() {
            Some(self.fixed[index])
        } else {
            self.rest
        }
    }

    /// Whether there may be `count` words after the first word of the line.
    pub fn admit(self, count: usize) -> bool
        ensures { result
            ≡ nat_eq (length (operand_places_with self.fixed.now self.rest count)) count }
    {
        match self.rest {
            None => count == self.fixed.len(),
            Some(_) => count >= self.fixed.len(),
        }
    }
}

/// The kinds of words that are grammatical in an operand place. A word counts as a word of the first kind that admits it.
pub(crate) fn word_kinds(operand_place: OperandPlace) -> &'static [WordKind]
    ensures { result.now ≡ word_kinds operand_place }
{
    match operand_place {
        OperandPlace::Declared => &[WordKind::NewName],
        OperandPlace::Pointer | OperandPlace::Written => &[WordKind::Name, WordKind::Field],
        OperandPlace::Receiver | OperandPlace::Writable => &[WordKind::Name, WordKind::Field],
        OperandPlace::FieldTarget => &[WordKind::Field],
        OperandPlace::Variable | OperandPlace::Target | OperandPlace::ViewName => &[WordKind::Name],
        OperandPlace::Value => &[WordKind::Number, WordKind::Name],
        OperandPlace::Source | OperandPlace::Argument => {
            &[WordKind::Number, WordKind::Name, WordKind::Field]
        }
        OperandPlace::Size => &[WordKind::Size],
        OperandPlace::Readable => &[WordKind::Name, WordKind::Field, WordKind::Literal],
        OperandPlace::Printed => &[
            WordKind::Number,
            WordKind::Name,
            WordKind::Field,
            WordKind::Literal,
        ],
        OperandPlace::Class | OperandPlace::Procedure | OperandPlace::Operation => &[
            WordKind::Name,
        ],
        OperandPlace::Parameter => &[WordKind::Parameter],
        OperandPlace::ItsPointer => &[WordKind::NewPointer],
        OperandPlace::Keyword(Keyword::Null) => &[WordKind::Keyword(Keyword::Null)],
        OperandPlace::Keyword(Keyword::Some) => &[WordKind::Keyword(Keyword::Some)],
        OperandPlace::Keyword(Keyword::Equal) => &[WordKind::Keyword(Keyword::Equal)],
        OperandPlace::Keyword(Keyword::Less) => &[WordKind::Keyword(Keyword::Less)],
    }
}
