//! The script's own space: the classes, procedures and operations that all lines of a script declare.

ghost use Rattle.std.specs.Prelude.{◌≡◌, IfOk, OnOk, ◌++◌, map};
ghost use Rattle.std.specs.List.{flat_map};
ghost use Rattle.wb_language.specs.Forms.{renamed_parameter_type};
ghost use Rattle.wb_language.specs.Names.{count_among, fields_in_item, following_fields};
ghost use Rattle.wb_language.specs.Names.{is_same_kind, declaration_of, items_by};
ghost use Rattle.wb_language.specs.Names.{items_of, parameters_in, parameter_type_of};
ghost use Rattle.wb_lines.specs.BytesOf.{bytes_of_form, bytes_of_forms, bytes_of_operands};
ghost use Rattle.wb_lines.specs.BytesOf.{bytes_of_text, bytes_of_texts};
ghost use Rattle.wb_script.specs.BytesOf.{bytes_of_item, bytes_of_items};

use std::alloc::{AllocError, Global};
use wb_basics::items::Items;
use wb_lines::declares::{first_name, item_kind_in, parameter_type_of};
use wb_lines::forms::role;
use wb_lines::lists::{add, add_some};
use wb_tree::script_lines::{Form, ItemKind, Operand, ParameterType, Role};

/// Something that a script declares in its own space: a class with the names of its fields, or a procedure or an operation with what its
/// parameters take.
#[derive(Drop)]
pub(crate) struct Declaration<'a> {
    pub name: &'a [u8],
    pub kind: ItemKind,
    pub parameters: Items<ParameterType<&'a [u8]>>,
    pub fields: Items<&'a [u8]>,
}

/// What the parameters among the operands take.
fn parameters_among<'a>(
    alloc: Global,
    operands: &[Operand<&'a [u8]>],
) -> Result<Vec<ParameterType<&'a [u8]>>, AllocError>
    ensures { IfOk result (λ found. map (renamed_parameter_type bytes_of_text) found.items
        ≡ flat_map parameter_type_of (bytes_of_operands operands.now)) }
{
    let mut found = Vec::new(alloc);
    for operand in operands {
        add_some(&mut found, parameter_type_of(operand))?;
    }
    Ok(found)
}

/// What the parameters that a line declares take.
fn parameters_in<'a>(
    alloc: Global,
    form: &Form<&'a [u8]>,
) -> Result<Vec<ParameterType<&'a [u8]>>, AllocError>
    ensures { IfOk result (λ found. map (renamed_parameter_type bytes_of_text) found.items
        ≡ parameters_in (bytes_of_form form.now)) }
{
    match form {
        Form::Line(_, operands) => parameters_among(alloc, operands.as_slice()),
        _ => Ok(Vec::new(alloc)),
    }
}

/// The names of the fields of a class, from the lines that follow the first line of the class.
fn following_fields<'a>(
    alloc: Global,
    forms: &[Form<&'a [u8]>],
) -> Result<Vec<&'a [u8]>, AllocError>
    ensures { IfOk result (λ found.
        bytes_of_texts found.items ≡ following_fields (bytes_of_forms forms.now)) }
{
    let mut found = Vec::new(alloc);
    for form in forms {
        match role(form) {
            Role::Field => add_some(&mut found, first_name(form))?,
            Role::Skip => {}
            _ => return Ok(found),
        }
    }
    Ok(found)
}

/// The names of the fields of an item of this kind, from the lines that follow the first line of the item. Only a class has fields.
fn fields_in_item<'a>(
    alloc: Global,
    kind: ItemKind,
    following: &[Form<&'a [u8]>],
) -> Result<Vec<&'a [u8]>, AllocError>
    ensures { IfOk result (λ found.
        bytes_of_texts found.items ≡ fields_in_item kind (bytes_of_forms following.now)) }
{
    match kind {
        ItemKind::Class => following_fields(alloc, following),
        ItemKind::Procedure | ItemKind::Operation => Ok(Vec::new(alloc)),
    }
}

/// The declaration that a line makes in the script's own space, with this kind and name. `following` are all lines after this line.
fn declaration_of<'a>(
    alloc: Global,
    form: &Form<&'a [u8]>,
    following: &[Form<&'a [u8]>],
    kind: ItemKind,
    name: &'a [u8],
) -> Result<Declaration<'a>, AllocError>
    ensures { IfOk result (λ item. bytes_of_item item
        ≡ declaration_of (bytes_of_form form.now) (bytes_of_forms following.now) kind name.now) }
{
    let parameters = Items::from_vec(parameters_in(alloc, form)?);
    let fields = Items::from_vec(fields_in_item(alloc, kind, following)?);
    Ok(Declaration {
        name,
        kind,
        parameters,
        fields,
    })
}

/// Appends what a line declares in the script's own space, if the line declares something there. `following` are all lines after this line.
fn add_items<'a>(
    alloc: Global,
    items: &mut Vec<Declaration<'a>>,
    form: &Form<&'a [u8]>,
    following: &[Form<&'a [u8]>],
) -> Result<(), AllocError>
    ensures { OnOk result (bytes_of_items items.new.items
        ≡ bytes_of_items items.old.items
        ++ items_by (bytes_of_form form.now) (bytes_of_forms following.now)) }
{
    match item_kind_in(form) {
        Some(kind) => match first_name(form) {
            Some(name) => add(items, declaration_of(alloc, form, following, kind, name)?),
            None => Ok(()),
        },
        None => Ok(()),
    }
}

/// All declarations in the script's own space, from all lines of the script.
pub(crate) fn items_of<'a>(
    alloc: Global,
    forms: &[Form<&'a [u8]>],
) -> Result<Vec<Declaration<'a>>, AllocError>
    ensures { IfOk result (λ items.
        bytes_of_items items.items ≡ items_of (bytes_of_forms forms.now)) }
{
    let mut items = Vec::new(alloc);
    for (index, form) in forms.iter().enumerate() {
        add_items(alloc, &mut items, form, &forms[index + 1..])?;
    }
    Ok(items)
}

pub(crate) fn is_same_kind(kind: ItemKind, other: ItemKind) -> bool
    ensures { result ≡ is_same_kind kind other }
{
    match kind {
        ItemKind::Class => matches!(other, ItemKind::Class),
        ItemKind::Procedure => matches!(other, ItemKind::Procedure),
        ItemKind::Operation => matches!(other, ItemKind::Operation),
    }
}

/// How many of the items are of this kind.
pub(crate) fn count_among(kind: ItemKind, items: &[Declaration]) -> usize
    ensures { result ≡ count_among kind (bytes_of_items items.now) }
{
    let mut count = 0;
    for item in items {
        if is_same_kind(item.kind, kind) {
            count += 1;
        }
    }
    count
}
