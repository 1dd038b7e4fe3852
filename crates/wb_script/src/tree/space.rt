//! What all lines of a script may name, whichever body they are in.

ghost use Rattle.std.specs.Prelude.{◌≡◌, ◌≤◌, [], ◌∷◌, ◌++◌, length, nat_le, IsTrue, IfOk, OnOk};
ghost use Rattle.std.specs.List.{list_all};
ghost use Rattle.wb_basics.specs.declared.limits.TheConstants.{LONGEST_SCRIPT, MOST_CLASSES, MOST_FIELDS};
ghost use Rattle.wb_tree.specs.declared.script_lines.ItemKind.TheVariants as kind;
ghost use Rattle.wb_script.specs.BytesOf.{fields_among, bytes_of_items};

use crate::checks::declarations::Declarations;
use crate::checks::items::Declaration;
use std::alloc::{AllocError, Global};
use wb_tree::script_lines::ItemKind;

/// How many literals a script has, its own space, and how many fields each class has.
#[derive(Clone, Copy)]
pub(crate) struct Space<'a> {
    pub literals: u32,
    pub items: &'a Declarations<'a>,
    pub fields: &'a [u8],
    ghost few: { length items.now ≤ LONGEST_SCRIPT },
    ghost classes: { length fields.now ≤ MOST_CLASSES },
    ghost counted: { fields.now ≡ fields_among (bytes_of_items items.now) },
}

/// Appends how many fields an item has, if the item is a class.
fn add_count(counts: &mut Vec<u8>, item: &Declaration) -> Result<(), AllocError>
    requires { item.now.kind ≡ kind.Class → length item.now.fields ≤ MOST_FIELDS }
    ensures { OnOk result (counts.new.items
        ≡ counts.old.items ++ fields_among (bytes_of_items (item.now ∷ []))) }
{
    match item.kind {
        ItemKind::Class => {
            counts.push(item.fields.len() as u8)?;
            Ok(())
        }
        ItemKind::Procedure => Ok(()),
        ItemKind::Operation => Ok(()),
    }
}

/// How many fields each class among the items has.
pub(crate) fn field_counts(alloc: Global, items: &[Declaration]) -> Result<Vec<u8>, AllocError>
    requires { IsTrue (list_all (λ n.
        nat_le n MOST_FIELDS) (fields_among (bytes_of_items items.now))) }
    ensures { IfOk result (λ counts. counts.items ≡ fields_among (bytes_of_items items.now)) }
{
    let mut counts = Vec::new(alloc);
    for item in items {
        add_count(&mut counts, item)?;
    }
    Ok(counts)
}
