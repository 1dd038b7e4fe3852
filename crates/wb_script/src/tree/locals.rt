//! The locals that lines declare.

ghost use Rattle.std.specs.Prelude.{◌≡◌, ◌≤◌, ℕ, [], ◌∷◌, is_some, length, IsTrue, IfSome, Some};
ghost use Rattle.wb_basics.specs.declared.limits.TheConstants.{LARGEST_BUFFER, MOST_CLASSES};
ghost use Rattle.wb_tree.specs.declared.script_lines.Role.TheVariants.{Declaration};
ghost use Rattle.wb_tree.specs.declared.script_lines.Form.TheVariants.{Line};
ghost use Rattle.wb_tree.specs.declared.script_lines.LineKind.TheVariants as line_kind;
ghost use Rattle.wb_tree.specs.declared.script_lines.OperandPlace.TheVariants as operand_place;
ghost use Rattle.wb_tree.specs.declared.script_lines.Referent.TheVariants as referent;
ghost use Rattle.wb_tree.specs.declared.script_lines.Operand.TheVariants.{Name};
ghost use Rattle.wb_language.specs.LineKinds.{role_of};
ghost use Rattle.wb_tree.specs.Sound.{Declared, Scope, is_local};
ghost use Rattle.wb_language.specs.Trees.{local_line};
ghost use Rattle.wb_script.specs.Building.{local_of, declares, is_small};
ghost use Rattle.wb_script.specs.Fitting.{operand_places_fit, operands_fit};

use wb_basics::limits::LARGEST_BUFFER;
use wb_tree::script::Local;
use wb_tree::script_lines::{LineKind, Operand, Referent};

/// `local`, if these operands are only the name of the local with this index in its body; `None` otherwise.
fn local_of_name(index: usize, operands: &[Operand<Referent>], local: Local) -> Option<Local>
    ensures named { IfSome result (λ l.
        (l ≡ local) × (operands.now ≡ Name (referent.Declared index) ∷ [])) }
    ensures found { (literals : ℕ) (scope : Scope) →
        IsTrue (operand_places_fit literals scope (operand_place.Declared ∷ []) operands.now) →
        IsTrue (declares index operands.now) → IsTrue (is_some result) }
{
    match operands {
        [Operand::Name(Referent::Declared(name))] => {
            if *name == index { Some(local) } else { None }
        }
        _ => None,
    }
}

/// The buffer that a line declares by a name and a size, with this index in its body; `None` if the operands don't fit.
fn buffer_of_size(index: usize, operands: &[Operand<Referent>]) -> Option<Local>
    ensures line { IfSome result (λ l. local_line index l ≡ Line line_kind.Buf operands.now) }
    ensures local { IfSome result (λ l. local_of line_kind.Buf operands.now ≡ Some l) }
    ensures sound { (classes : ℕ) → IfSome result (λ l. IsTrue (is_local classes l)) }
    ensures found { (literals : ℕ) (scope : Scope) →
        IsTrue (operand_places_fit literals scope (operand_place.Declared ∷ operand_place.Size
        ∷ []) operands.now) → IsTrue (declares index operands.now) →
        IsTrue (is_small LARGEST_BUFFER operands.now) → IsTrue (is_some result) }
{
    match operands {
        [Operand::Name(Referent::Declared(name)), Operand::Size(max)] => {
            if *name == index && *max <= LARGEST_BUFFER {
                Some(Local::OfBuffer(*max as u16))
            } else {
                None
            }
        }
        _ => None,
    }
}

/// The pointer that a line declares by a name and a class of the script, with this index in its body; `None` if the operands don't fit.
fn pointer_of_class(index: usize, fields: &[u8], operands: &[Operand<Referent>]) -> Option<Local>
    requires { length fields.now ≤ MOST_CLASSES }
    ensures line { IfSome result (λ l. local_line index l ≡ Line line_kind.ClassPtr operands.now) }
    ensures local { IfSome result (λ l. local_of line_kind.ClassPtr operands.now ≡ Some l) }
    ensures sound { IfSome result (λ l. IsTrue (is_local (length fields.now) l)) }
    ensures found { (literals : ℕ) (scope : Scope) → scope.fields ≡ fields.now →
        IsTrue (operand_places_fit literals scope (operand_place.Declared ∷ operand_place.Class
        ∷ []) operands.now) → IsTrue (declares index operands.now) → IsTrue (is_some result) }
{
    match operands {
        [
            Operand::Name(Referent::Declared(name)),
            Operand::Name(Referent::Class(class)),
        ] => {
            if *name == index && *class < fields.len() {
                Some(Local::OfPointer(Some(*class as u16)))
            } else {
                None
            }
        }
        _ => None,
    }
}

/// The local that a line declares, with this index in its body; `None` if the line declares no such local. `fields` says how many fields
/// each class of the script has.
pub(crate) fn declared_local(
    index: usize,
    fields: &[u8],
    line_kind: LineKind,
    operands: &[Operand<Referent>],
) -> Option<Local>
    requires { length fields.now ≤ MOST_CLASSES }
    ensures line { IfSome result (λ l. local_line index l ≡ Line line_kind operands.now) }
    ensures local { IfSome result (λ l. local_of line_kind operands.now ≡ Some l) }
    ensures sound { IfSome result (λ l. IsTrue (is_local (length fields.now) l)) }
    ensures found { (declared : Declared) (scope : Scope) → scope.fields ≡ fields.now →
        role_of line_kind ≡ Declaration →
        IsTrue (operands_fit declared scope line_kind operands.now) →
        IsTrue (declares index operands.now) → IsTrue (is_small LARGEST_BUFFER operands.now) →
        IsTrue (is_some result) }
{
    match line_kind {
        LineKind::Ptr => local_of_name(index, operands, Local::OfPointer(None)),
        LineKind::ClassPtr => pointer_of_class(index, fields, operands),
        LineKind::Int => local_of_name(index, operands, Local::OfNumber),
        LineKind::View => local_of_name(index, operands, Local::OfView),
        LineKind::Buf => buffer_of_size(index, operands),
        _ => None,
    }
}
