//! The lines of a class: its first line, its fields, the first lines of its bodies, and its end.

ghost use Rattle.std.specs.Prelude.{◌≡◌, ◌<◌, ◌≤◌, ℕ, [], ◌∷◌, ◌++◌, Some, is_some, length, nat_le, IfOk, IfSome};
ghost use Rattle.std.specs.Prelude.{IsTrue};
ghost use Rattle.wb_basics.specs.declared.limits.TheConstants.{MOST_CLASSES, MOST_EXTRA};
ghost use Rattle.wb_tree.specs.declared.script_lines.Form.TheVariants.{Line};
ghost use Rattle.wb_tree.specs.declared.script_lines.LineKind.TheVariants as line_kind;
ghost use Rattle.wb_tree.specs.declared.script_lines.OperandPlace.TheVariants as operand_place;
ghost use Rattle.wb_tree.specs.declared.script_lines.Referent.TheVariants as referent;
ghost use Rattle.wb_tree.specs.declared.script_lines.Operand.TheVariants.{Name, Size};
ghost use Rattle.wb_tree.specs.declared.script_lines.Role.TheVariants as role;
ghost use Rattle.wb_language.specs.LineKinds.{role_of};
ghost use Rattle.wb_tree.specs.Sound.{Declared, Scope, is_class_among};
ghost use Rattle.wb_language.specs.Trees.{field_line};
ghost use Rattle.wb_script.specs.Building.{declares, is_small};
ghost use Rattle.wb_script.specs.Fitting.{operand_places_fit, operands_fit};
ghost use Rattle.wb_script.specs.Growing.{GrowsWhereFit, IsBelow, IsSound, OpensWhereFit, SaysWhereFit, building_after};
ghost use Rattle.wb_script.specs.Growing.{declared_in_space, in_class, new_body, outside};

use crate::tree::bodies::OpenBody;
use crate::tree::openings::new_body;
use crate::tree::space::Space;
use crate::tree::whole::{Building, Owner, Stage, WholeItems, with_class};
use std::alloc::{AllocError, Global};
use wb_basics::items::Items;
use wb_basics::limits::{MOST_CLASSES, MOST_EXTRA, MOST_FIELDS};
use wb_tree::script::Class;
use wb_tree::script_lines::{LineKind, Operand, Referent};

/// The extra bytes of the class with an index, from the operands of its first line; `None` if the operands don't fit.
fn extra_of(index: usize, operands: &[Operand<Referent>]) -> Option<u32>
    ensures extra { IfSome result (λ extra. (operands.now
        ≡ Name (referent.Declared index) ∷ Size extra ∷ []) × IsTrue (nat_le extra MOST_EXTRA)) }
    ensures found { (literals : ℕ) (scope : Scope) →
        IsTrue (operand_places_fit literals scope (operand_place.Declared ∷ operand_place.Size
        ∷ []) operands.now) → IsTrue (declares index operands.now) →
        IsTrue (is_small MOST_EXTRA operands.now) → IsTrue (is_some result) }
{
    match operands {
        [
            Operand::Name(Referent::Declared(name)),
            Operand::Size(extra),
        ] => {
            if *name == index && *extra <= MOST_EXTRA {
                Some(*extra)
            } else {
                None
            }
        }
        _ => None,
    }
}

/// Begins a class; `number` is the number of its first line. The result is `None` if the line is not allowed there.
pub(crate) fn begin_class(
    alloc: Global,
    space: Space,
    whole: &WholeItems,
    number: u32,
    operands: &[Operand<Referent>],
) -> Option<Stage>
    requires sound { IsSound (declared_in_space space) (outside whole.now) }
    requires below { IsBelow number (outside whole.now) }
    ensures { OpensWhereFit (declared_in_space space.entry) number
        (Line line_kind.Class operands.now) whole.now result }
{
    if whole.classes.len() >= MOST_CLASSES as usize {
        return None;
    }
    match extra_of(whole.classes.len(), operands) {
        Some(extra) => {
            let class = Class {
                line: number,
                extra,
                fields: Items::new(alloc),
                construct: None,
                destroy: None,
            };
            Some(Stage::InClass(class))
        }
        None => None,
    }
}

/// `Some(None)`, a field without a class, if a line declares the field with this index by its name alone; `None` otherwise.
fn plain_field(index: usize, operands: &[Operand<Referent>]) -> Option<Option<u16>>
    ensures line { IfSome result (λ f. field_line index f ≡ Line line_kind.Field operands.now) }
    ensures sound { (classes : ℕ) → IfSome result (λ f. IsTrue (is_class_among classes f)) }
    ensures found { (literals : ℕ) (scope : Scope) →
        IsTrue (operand_places_fit literals scope (operand_place.Declared ∷ []) operands.now) →
        IsTrue (declares index operands.now) → IsTrue (is_some result) }
{
    match operands {
        [Operand::Name(Referent::Declared(name))] => {
            if *name == index { Some(None) } else { None }
        }
        _ => None,
    }
}

/// The class of a field, in two `Some`s, if a line declares the field with this index by a name and a class of the script; `None`
/// otherwise.
fn class_field(index: usize, counts: &[u8], operands: &[Operand<Referent>]) -> Option<Option<u16>>
    requires { length counts.now ≤ MOST_CLASSES }
    ensures line { IfSome result (λ f.
        field_line index f ≡ Line line_kind.ClassField operands.now) }
    ensures sound { IfSome result (λ f. IsTrue (is_class_among (length counts.now) f)) }
    ensures found { (literals : ℕ) (scope : Scope) → scope.fields ≡ counts.now →
        IsTrue (operand_places_fit literals scope (operand_place.Declared ∷ operand_place.Class
        ∷ []) operands.now) → IsTrue (declares index operands.now) → IsTrue (is_some result) }
{
    match operands {
        [
            Operand::Name(Referent::Declared(name)),
            Operand::Name(Referent::Class(class)),
        ] => {
            if *name == index && *class < counts.len() {
                Some(Some(*class as u16))
            } else {
                None
            }
        }
        _ => None,
    }
}

/// The field with this index that a line declares: its class, or `Some(None)` if it has no class; `None` if the line declares no such
/// field. `counts` says how many fields each class of the script has.
fn declared_field(
    index: usize,
    counts: &[u8],
    line_kind: LineKind,
    operands: &[Operand<Referent>],
) -> Option<Option<u16>>
    requires { length counts.now ≤ MOST_CLASSES }
    ensures line { IfSome result (λ f. field_line index f ≡ Line line_kind operands.now) }
    ensures sound { IfSome result (λ f. IsTrue (is_class_among (length counts.now) f)) }
    ensures found { (declared : Declared) (scope : Scope) → scope.fields ≡ counts.now →
        role_of line_kind ≡ role.Field →
        IsTrue (operands_fit declared scope line_kind operands.now) →
        IsTrue (declares index operands.now) → IsTrue (is_some result) }
{
    match line_kind {
        LineKind::Field => plain_field(index, operands),
        LineKind::ClassField => class_field(index, counts, operands),
        _ => None,
    }
}

/// What a line adds to the open class.
pub(crate) enum ClassLine {
    /// One more field: its class, if it has one.
    Field(Option<u16>),
    Constructor(OpenBody),
    Destructor(OpenBody),
    End,
}

/// What a line that declares a field adds to the open class; `None` if the line is not allowed there.
fn read_field(
    space: Space,
    whole: &WholeItems,
    class: &Class,
    number: u32,
    line_kind: LineKind,
    operands: &[Operand<Referent>],
) -> Option<ClassLine>
    requires sound { IsSound (declared_in_space space) (in_class whole.now class.now) }
    requires below { IsBelow number (in_class whole.now class.now) }
    requires field { role_of line_kind ≡ role.Field }
    ensures { SaysWhereFit (declared_in_space space.entry) number (Line line_kind operands.now)
        whole.now class.now result }
{
    if class.construct.is_some() || class.destroy.is_some() {
        return None;
    }
    if class.fields.len() >= MOST_FIELDS as usize {
        return None;
    }
    match declared_field(class.fields.len(), space.fields, line_kind, operands) {
        Some(field) => Some(ClassLine::Field(field)),
        None => None,
    }
}

/// A body of the open class, just after the first line of the body.
fn own_body(alloc: Global, whole: &WholeItems) -> Result<OpenBody, AllocError>
    requires { length whole.now.classes < MOST_CLASSES }
    ensures { IfOk result (λ p. p ≡ new_body (Some (length whole.now.classes)) []) }
{
    let this = whole.classes.len() as u16;
    new_body(alloc, Some(this), Items::new(alloc))
}

/// What the first line of a `construct` adds to the open class; `None` if the line is not allowed there.
fn read_construct(
    alloc: Global,
    space: Space,
    whole: &WholeItems,
    class: &Class,
    number: u32,
    operands: &[Operand<Referent>],
) -> Result<Option<ClassLine>, AllocError>
    requires sound { IsSound (declared_in_space space) (in_class whole.now class.now) }
    requires below { IsBelow number (in_class whole.now class.now) }
    ensures { IfOk result (SaysWhereFit (declared_in_space space.entry) number
        (Line line_kind.Constructor operands.now) whole.now class.now) }
{
    if class.construct.is_some() || class.destroy.is_some() {
        return Ok(None);
    }
    if !operands.is_empty() {
        return Ok(None);
    }
    let body = own_body(alloc, whole)?;
    Ok(Some(ClassLine::Constructor(body)))
}

/// What the first line of a `destroy` adds to the open class; `None` if the line is not allowed there.
fn read_destroy(
    alloc: Global,
    space: Space,
    whole: &WholeItems,
    class: &Class,
    number: u32,
    operands: &[Operand<Referent>],
) -> Result<Option<ClassLine>, AllocError>
    requires sound { IsSound (declared_in_space space) (in_class whole.now class.now) }
    requires below { IsBelow number (in_class whole.now class.now) }
    ensures { IfOk result (SaysWhereFit (declared_in_space space.entry) number
        (Line line_kind.Destructor operands.now) whole.now class.now) }
{
    if class.destroy.is_some() {
        return Ok(None);
    }
    if !operands.is_empty() {
        return Ok(None);
    }
    let body = own_body(alloc, whole)?;
    Ok(Some(ClassLine::Destructor(body)))
}

/// The end of the open class; `None` if the line has operands.
fn read_end(
    space: Space,
    whole: &WholeItems,
    class: &Class,
    number: u32,
    operands: &[Operand<Referent>],
) -> Option<ClassLine>
    requires sound { IsSound (declared_in_space space) (in_class whole.now class.now) }
    requires below { IsBelow number (in_class whole.now class.now) }
    ensures { SaysWhereFit (declared_in_space space.entry) number (Line line_kind.End operands.now)
        whole.now class.now result }
{
    if operands.is_empty() {
        Some(ClassLine::End)
    } else {
        None
    }
}

/// What a line adds to the open class; `None` if the line is not allowed there.
fn read_class_line(
    alloc: Global,
    space: Space,
    whole: &WholeItems,
    class: &Class,
    number: u32,
    line_kind: LineKind,
    operands: &[Operand<Referent>],
) -> Result<Option<ClassLine>, AllocError>
    requires sound { IsSound (declared_in_space space) (in_class whole.now class.now) }
    requires below { IsBelow number (in_class whole.now class.now) }
    ensures { IfOk result (SaysWhereFit (declared_in_space space.entry) number
        (Line line_kind operands.now) whole.now class.now) }
{
    match line_kind {
        LineKind::Field | LineKind::ClassField => Ok(read_field(
            space, whole, class, number, line_kind, operands,
        )),
        LineKind::Constructor => read_construct(alloc, space, whole, class, number, operands),
        LineKind::Destructor => read_destroy(alloc, space, whole, class, number, operands),
        LineKind::End => Ok(read_end(space, whole, class, number, operands)),
        _ => Ok(None),
    }
}

/// The class with one more field.
fn with_field(class: Class, field: Option<u16>) -> Result<Class, AllocError>
    ensures { IfOk result (λ c. c ≡ record class { fields = class.fields ++ field ∷ [] }) }
{
    let mut fields = class.fields;
    fields.push(field)?;
    Ok(Class { fields, ..class })
}

/// The tree after what a line adds to the open class.
fn building_after(whole: WholeItems, class: Class, said: ClassLine) -> Result<Building, AllocError>
    ensures { IfOk result (λ next. next ≡ building_after whole class said) }
{
    match said {
        ClassLine::Field(field) => {
            let stage = Stage::InClass(with_field(class, field)?);
            Ok(Building { whole, stage })
        }
        ClassLine::Constructor(body) => {
            let stage = Stage::InBody(Owner::Constructor(class), body);
            Ok(Building { whole, stage })
        }
        ClassLine::Destructor(body) => {
            let stage = Stage::InBody(Owner::Destructor(class), body);
            Ok(Building { whole, stage })
        }
        ClassLine::End => {
            let whole = with_class(whole, class)?;
            Ok(Building {
                whole,
                stage: Stage::Outside,
            })
        }
    }
}

/// Adds the line with this number to the open class; `None` if it is not allowed there.
pub(crate) fn add_to_class(
    alloc: Global,
    space: Space,
    whole: WholeItems,
    class: Class,
    number: u32,
    line_kind: LineKind,
    operands: &[Operand<Referent>],
) -> Result<Option<Building>, AllocError>
    requires sound { IsSound (declared_in_space space) (in_class whole class) }
    requires below { IsBelow number (in_class whole class) }
    ensures { IfOk result (GrowsWhereFit (declared_in_space space.entry) number
        (Line line_kind operands.now) (in_class whole class)) }
{
    match read_class_line(alloc, space, &whole, &class, number, line_kind, operands)? {
        Some(said) => Ok(Some(building_after(whole, class, said)?)),
        None => Ok(None),
    }
}
