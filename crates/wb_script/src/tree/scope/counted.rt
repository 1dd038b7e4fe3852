//! The operands of a line, by how many there are.

ghost use Rattle.std.specs.Prelude.{◌≡◌, [], ◌∷◌, ℕ, false, MatchOption};
ghost use Rattle.wb_tree.specs.declared.script_lines.OperandPlace as model;
ghost use Rattle.wb_tree.specs.Sound.{Scope};
ghost use Rattle.wb_script.specs.Fitting.{operand_places_fit};

use wb_tree::script_lines::{Operand, Referent};

/// The operand, if there is just one; `None` otherwise.
pub(crate) fn one<'o>(operands: &'o [Operand<Referent>]) -> Option<&'o Operand<Referent>>
    ensures { MatchOption result ((literals : ℕ) (scope : Scope)
        (operand_place : model.OperandPlace) →
        operand_places_fit literals scope (operand_place ∷ []) operands.now ≡ false) (λ r.
        operands.now ≡ r.now ∷ []) }
{
    match operands {
        [operand] => Some(operand),
        _ => None,
    }
}

/// The operands, if there are just two; `None` otherwise.
pub(crate) fn two<'o>(
    operands: &'o [Operand<Referent>],
) -> Option<(&'o Operand<Referent>, &'o Operand<Referent>)>
    ensures { MatchOption result ((literals : ℕ) (scope : Scope)
        (first second : model.OperandPlace) →
        operand_places_fit literals scope (first ∷ second ∷ []) operands.now ≡ false) (λ r.
        operands.now ≡ r.0.now ∷ r.1.now ∷ []) }
{
    match operands {
        [first, second] => Some((first, second)),
        _ => None,
    }
}

/// The operands, if there are just three; `None` otherwise.
pub(crate) fn three<'o>(
    operands: &'o [Operand<Referent>],
) -> Option<
    (
        &'o Operand<Referent>,
        &'o Operand<Referent>,
        &'o Operand<Referent>,
    ),
>
    ensures { MatchOption result ((literals : ℕ) (scope : Scope)
        (first second third : model.OperandPlace) →
        operand_places_fit literals scope (first ∷ second ∷ third ∷ []) operands.now ≡ false) (λ r.
        operands.now ≡ r.0.now ∷ r.1.now ∷ r.2.now ∷ []) }
{
    match operands {
        [first, second, third] => Some((first, second, third)),
        _ => None,
    }
}

/// The operands, if there are just four; `None` otherwise.
pub(crate) fn four<'o>(
    operands: &'o [Operand<Referent>],
) -> Option<
    (
        &'o Operand<Referent>,
        &'o Operand<Referent>,
        &'o Operand<Referent>,
        &'o Operand<Referent>,
    ),
>
    ensures { MatchOption result ((literals : ℕ) (scope : Scope)
        (first second third fourth : model.OperandPlace) →
        operand_places_fit literals scope (first ∷ second ∷ third ∷ fourth ∷ []) operands.now
        ≡ false) (λ r. operands.now ≡ r.0.now ∷ r.1.now ∷ r.2.now ∷ r.3.now ∷ []) }
{
    match operands {
        [first, second, third, fourth] => Some((first, second, third, fourth)),
        _ => None,
    }
}
