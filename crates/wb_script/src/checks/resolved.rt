//! What the names and literals of a line stand for.

ghost use Rattle.std.specs.Prelude.{◌≡◌, ◌++◌, length, map, slice_get, OnOk};
ghost use Rattle.std.specs.Option.{option_map};
ghost use Rattle.wb_language.specs.Forms.{renamed_parameter_type};
ghost use Rattle.wb_language.specs.LineKinds.{operand_places_for};
ghost use Rattle.wb_language.specs.Names.{first_declaration_of, names_before};
ghost use Rattle.wb_language.specs.Resolved.{class_in, class_named, class_of_base, class_of_kind, class_of_local};
ghost use Rattle.wb_language.specs.Resolved.{class_of_this, field_at, field_referent, has_this, is_this};
ghost use Rattle.wb_language.specs.Resolved.{item_referent, local_referent, referent_at};
ghost use Rattle.wb_language.specs.Resolved.{name_referent, own_referent, resolved_operand};
ghost use Rattle.wb_language.specs.Resolved.{resolved_operands, resolved_parameter_type, this_referent};
ghost use Rattle.wb_lines.specs.BytesOf.{bytes_of_kind, bytes_of_operand, bytes_of_operands};
ghost use Rattle.wb_lines.specs.BytesOf.{bytes_of_text};
ghost use Rattle.wb_script.specs.BytesOf.{bytes_of_items};
ghost use Rattle.wb_script.specs.Checks.{known_in};

use crate::checks::declarations::Declarations;
use crate::checks::names::place_of;
use crate::checks::names_so_far::NamesSoFar;
use std::alloc::AllocError;
use wb_lines::lists::add;
use wb_lines::operand_places::OperandPlaces;
use wb_lines::same::are_same;
use wb_tree::script_lines::{
    BodyKind, LineKind, LocalKind, Operand, OperandPlace, ParameterType, Referent,
};

/// What the local with an index holds; `None` if there is no such local.
fn kind_at<'a>(kinds: &[LocalKind<&'a [u8]>], index: usize) -> Option<LocalKind<&'a [u8]>>
    ensures { option_map bytes_of_kind result ≡ slice_get (map bytes_of_kind kinds.now) index }
{
    match kinds.get(index) {
        Some(kind) => Some(*kind),
        None => None,
    }
}

fn local_referent(index: usize, kind: Option<LocalKind<&[u8]>>) -> Referent
    ensures { result ≡ local_referent index (option_map bytes_of_kind kind.entry) }
{
    match kind {
        Some(LocalKind::Pointer(_)) => Referent::Pointer(index),
        Some(LocalKind::Number) => Referent::Number(index),
        Some(LocalKind::Buffer) => Referent::Buffer(index),
        Some(LocalKind::View) => Referent::View(index),
        None => Referent::Nothing,
    }
}

/// What a name stands for among the locals declared so far.
fn used_referent(known: &NamesSoFar, name: &[u8]) -> Referent
    ensures { result ≡ referent_at (known_in known.now).kinds
        (first_declaration_of (known_in known.now).locals name.now) }
{
    match place_of(&known.locals, name) {
        Some(index) => local_referent(index, kind_at(&known.kinds, index)),
        None => Referent::Nothing,
    }
}

/// Whether a body belongs to a class, so that `self` is known in the body.
fn has_this(body: BodyKind) -> bool
    ensures { result ≡ has_this body }
{
    matches!(body, BodyKind::Constructor | BodyKind::Destructor)
}

fn is_this(name: &[u8]) -> bool
    ensures { result ≡ is_this name.now }
{
    are_same(name, b"self")
}

fn this_referent(body: BodyKind) -> Referent
    ensures { result ≡ this_referent body }
{
    if has_this(body) {
        Referent::This
    } else {
        Referent::Nothing
    }
}

/// What a name stands for in the space of the body: `self`, a local, or nothing.
fn own_referent(known: &NamesSoFar, name: &[u8]) -> Referent
    ensures { result ≡ own_referent (known_in known.now) name.now }
{
    if is_this(name) {
        this_referent(known.body)
    } else {
        used_referent(known, name)
    }
}

/// What a name stands for in the script's own space.
pub(crate) fn item_referent(items: &Declarations, name: &[u8]) -> Referent
    ensures { result ≡ item_referent (bytes_of_items items.now) name.now }
{
    match items.place_of(name) {
        Some(index) => items.referent_at(index),
        None => Referent::Nothing,
    }
}

fn class_in(referent: Referent) -> Option<usize>
    ensures { result ≡ class_in referent }
{
    match referent {
        Referent::Class(class) => Some(class),
        _ => None,
    }
}

/// The index of the class with this name; `None` if the name isn't the name of a class.
fn class_named(items: &Declarations, name: &[u8]) -> Option<usize>
    ensures { result ≡ class_named (bytes_of_items items.now) name.now }
{
    class_in(item_referent(items, name))
}

/// The class with which a local of this kind is declared; `None` if such a local has no class.
fn class_of_kind(items: &Declarations, kind: Option<LocalKind<&[u8]>>) -> Option<usize>
    ensures { result
        ≡ class_of_kind (bytes_of_items items.now) (option_map bytes_of_kind kind.entry) }
{
    match kind {
        Some(LocalKind::Pointer(Some(class))) => class_named(items, class),
        _ => None,
    }
}

/// The class with which the local with this name is declared; `None` if the local has no class, or there is no such local.
fn class_of_local(items: &Declarations, known: &NamesSoFar, name: &[u8]) -> Option<usize>
    ensures { result ≡ class_of_local (bytes_of_items items.now) (known_in known.now).kinds
        (first_declaration_of (known_in known.now).locals name.now) }
{
    match place_of(&known.locals, name) {
        Some(index) => class_of_kind(items, kind_at(&known.kinds, index)),
        None => None,
    }
}

/// The class of `self`, which is the class begun last; `None` outside of `construct` and `destroy`.
fn class_of_this(known: &NamesSoFar) -> Option<usize>
    ensures { result ≡ class_of_this (known_in known.now) }
{
    if has_this(known.body) {
        Some(known.classes.saturating_sub(1))
    } else {
        None
    }
}

/// The class of `self` or of the local with this name; `None` if `self` or the local has no class.
fn class_of_base(items: &Declarations, known: &NamesSoFar, name: &[u8]) -> Option<usize>
    ensures { result ≡ class_of_base (bytes_of_items items.now) (known_in known.now) name.now }
{
    if is_this(name) {
        class_of_this(known)
    } else {
        class_of_local(items, known, name)
    }
}

fn field_at(class: usize, index: Option<usize>) -> Referent
    ensures { result ≡ field_at class index }
{
    match index {
        Some(index) => Referent::Field(class, index),
        None => Referent::Nothing,
    }
}

/// What the name of a field stands for. `class` is the class of what is before the dot. The result is `Classless` if there is no class, and
/// `Nothing` if the class has no such field.
fn field_referent(items: &Declarations, class: Option<usize>, name: &[u8]) -> Referent
    ensures { result ≡ field_referent (bytes_of_items items.now) class name.now }
{
    match class {
        Some(class) => match items.class(class) {
            Some(item) => field_at(class, place_of(item.fields.as_slice(), name)),
            None => Referent::Nothing,
        },
        None => Referent::Classless,
    }
}

/// The index of the name that a line of this kind declares: how many names of the same sort the earlier lines declare.
fn names_before(line_kind: LineKind, known: &NamesSoFar) -> usize
    ensures { result ≡ names_before line_kind (known_in known.now) }
{
    match line_kind {
        LineKind::Class => known.classes,
        LineKind::Field | LineKind::ClassField => known.fields.len(),
        LineKind::Proc => known.procedures,
        LineKind::Op => known.operations,
        _ => known.locals.len(),
    }
}

fn name_referent(
    items: &Declarations,
    known: &NamesSoFar,
    line_kind: LineKind,
    operand_place: OperandPlace,
    name: &[u8],
) -> Referent
    ensures { result ≡ name_referent (bytes_of_items items.now) (known_in known.now) line_kind
        operand_place name.now }
{
    match operand_place {
        OperandPlace::Declared => Referent::Declared(names_before(line_kind, known)),
        OperandPlace::Class | OperandPlace::Procedure | OperandPlace::Operation => item_referent(
            items, name,
        ),
        _ => own_referent(known, name),
    }
}

fn resolved_parameter_type(
    items: &Declarations,
    parameter_type: ParameterType<&[u8]>,
) -> ParameterType<Referent>
    ensures { result ≡ resolved_parameter_type (bytes_of_items items.now)
        (renamed_parameter_type bytes_of_text parameter_type.entry) }
{
    match parameter_type {
        ParameterType::Pointer => ParameterType::Pointer,
        ParameterType::Number => ParameterType::Number,
        ParameterType::OfClass(class) => ParameterType::OfClass(item_referent(items, class)),
    }
}

fn resolved_operand(
    items: &Declarations,
    known: &NamesSoFar,
    line_kind: LineKind,
    operand_place: OperandPlace,
    operand: &Operand<&[u8]>,
) -> Operand<Referent>
    ensures { result ≡ resolved_operand (bytes_of_items items.now) (known_in known.now) line_kind
        operand_place (bytes_of_operand operand.now) }
{
    match operand {
        Operand::Name(name) => Operand::Name(name_referent(
            items,
            known,
            line_kind,
            operand_place,
            name,
        )),
        Operand::Field(base, field) => {
            let class = class_of_base(items, known, base);
            Operand::Field(
                own_referent(known, base),
                field_referent(items, class, field),
            )
        }
        Operand::Number(number) => Operand::Number(*number),
        Operand::Size(size) => Operand::Size(*size),
        Operand::Literal(_) => Operand::Literal(Referent::Literal(known.literals.len())),
        Operand::Parameter(_, parameter_type) => {
            Operand::Parameter(
                Referent::Parameter,
                resolved_parameter_type(items, *parameter_type),
            )
        }
        Operand::Keyword => Operand::Keyword,
    }
}

/// Appends the operands of a line, with what their names stand for in the script's own space and among what the earlier lines declare.
pub(crate) fn add_operands(
    found: &mut Vec<Operand<Referent>>,
    items: &Declarations,
    known: &NamesSoFar,
    line_kind: LineKind,
    operands: &[Operand<&[u8]>],
) -> Result<(), AllocError>
    ensures { OnOk result (found.new.items
        ≡ found.old.items
        ++ resolved_operands (bytes_of_items items.now) (known_in known.now) line_kind
        (operand_places_for line_kind (length operands.now)) (bytes_of_operands operands.now)) }
{
    let operand_places = OperandPlaces::of(line_kind);
    for (index, operand) in operands.iter().enumerate() {
        let Some(operand_place) = operand_places.at(index) else {
            return Ok(());
        };
        add(
            found,
            resolved_operand(items, known, line_kind, operand_place, operand),
        )?;
    }
    Ok(())
}
