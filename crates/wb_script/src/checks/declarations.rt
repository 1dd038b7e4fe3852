//! The script's own space: what is declared there, with tables that find a declaration without a search.

ghost use Rattle.std.specs.Prelude.{◌≡◌, IfOk, Some, slice_get};
ghost use Rattle.std.specs.Option.{option_and_then, option_map};
ghost use Rattle.wb_tree.specs.declared.script_lines.ItemKind.TheVariants as item;
ghost use Rattle.wb_language.specs.Names.{count_among, first_declaration_of, item_of_kind, items_of, names_of};
ghost use Rattle.wb_language.specs.Resolved.{item_at};
ghost use Rattle.wb_lines.specs.BytesOf.{bytes_of_forms};
ghost use Rattle.wb_script.specs.BytesOf.{bytes_of_item, bytes_of_items};

use crate::checks::items::{Declaration, count_among, items_of};
use crate::checks::tables::{indexes_of, names_of, referents_of};
use std::alloc::{AllocError, Global};
use std::collections::HashMap;
use std::marker::Model;
use wb_tree::script_lines::{Form, ItemKind, Referent};

/// The classes, procedures and operations that all lines of a script declare, in order.
#[derive(Drop)]
pub(crate) struct Declarations<'a> {
    items: Vec<Declaration<'a>>,
    /// The index of the first declaration of each name.
    named: HashMap<&'a [u8], usize>,
    /// What each item is: its kind, and its index among the items of that kind.
    referents: Vec<Referent>,
    /// The indexes of the classes among all items.
    classes: Vec<usize>,
    /// The indexes of the procedures among all items.
    procedures: Vec<usize>,
    /// How many operations there are.
    operations: usize,
}

impl<'a> Model for Declarations<'a> {
    ghost use Rattle.std.specs.Prelude.{List};
    ghost use Rattle.wb_script.specs.BytesOf.{bytes_of_items};
    ghost use Rattle.wb_script.specs.Tables.{AreTables};
    ghost use Rattle.wb_script.specs.declared.checks.items.Declaration.{Declaration};

    ghost Value = { List Declaration };

    ghost view = { λ d. d.items.items };

    ghost invariant = { λ d. AreTables (bytes_of_items d.items.items) d.named d.referents.items
        d.classes.items d.procedures.items d.operations };
}

/// The item whose index is at this place of a table; `None` if the table has no such place.
fn item_by<'i, 'a>(
    items: &'i [Declaration<'a>],
    indexes: &[usize],
    place: usize,
) -> Option<&'i Declaration<'a>>
    ensures { option_map (λ i. bytes_of_item i.now) result
        ≡ option_and_then (slice_get (bytes_of_items items.now)) (slice_get indexes.now place) }
{
    match indexes.get(place) {
        Some(index) => items.get(*index),
        None => None,
    }
}

fn referent_by(referents: &[Referent], index: usize) -> Option<Referent>
    ensures { result ≡ slice_get referents.now index }
{
    match referents.get(index) {
        Some(referent) => Some(*referent),
        None => None,
    }
}

impl<'a> Declarations<'a> {
    /// What all these lines declare in the script's own space.
    pub(crate) fn of(
        alloc: Global,
        forms: &[Form<&'a [u8]>],
    ) -> Result<Declarations<'a>, AllocError>
        ensures { IfOk result (λ all. bytes_of_items all ≡ items_of (bytes_of_forms forms.now)) }
    {
        let items = items_of(alloc, forms)?;
        let named = names_of(alloc, &items)?;
        let referents = referents_of(alloc, &items)?;
        let classes = indexes_of(alloc, ItemKind::Class, &items)?;
        let procedures = indexes_of(alloc, ItemKind::Procedure, &items)?;
        let operations = count_among(ItemKind::Operation, &items);
        Ok(Declarations {
            items,
            named,
            referents,
            classes,
            procedures,
            operations,
        })
    }

    pub(crate) fn as_slice(&self) -> &[Declaration<'a>]
        ensures { result.now ≡ self.now }
    {
        self.items.as_slice()
    }

    /// The index of the first declaration of a name; `None` if the name isn't declared.
    pub(crate) fn place_of(&self, name: &[u8]) -> Option<usize>
        ensures { result ≡ first_declaration_of (names_of (bytes_of_items self.now)) name.now }
    {
        match self.named.get(name) {
            Some(index) => Some(*index),
            None => None,
        }
    }

    /// What the item with an index is: its kind, and its index among the items of that kind; `Nothing` if there is no such item.
    #[tactic(auto, using(crate::proofs::names::Tables::referent_here))]
    pub(crate) fn referent_at(&self, index: usize) -> Referent
        ensures { result ≡ item_at (bytes_of_items self.now) (Some index) }
    {
        match referent_by(&self.referents, index) {
            Some(referent) => referent,
            None => Referent::Nothing,
        }
    }

    /// The class with an index among the classes.
    #[tactic(auto, using(crate::proofs::names::Tables::index_here))]
    pub(crate) fn class(&self, index: usize) -> Option<&Declaration<'a>>
        ensures { option_map (λ i. bytes_of_item i.now) result
            ≡ item_of_kind item.Class (bytes_of_items self.now) index }
    {
        item_by(&self.items, &self.classes, index)
    }

    /// The procedure with an index among the procedures.
    #[tactic(auto, using(crate::proofs::names::Tables::index_here))]
    pub(crate) fn procedure(&self, index: usize) -> Option<&Declaration<'a>>
        ensures { option_map (λ i. bytes_of_item i.now) result
            ≡ item_of_kind item.Procedure (bytes_of_items self.now) index }
    {
        item_by(&self.items, &self.procedures, index)
    }

    /// How many operations there are.
    pub(crate) fn operation_count(&self) -> usize
        ensures { result ≡ count_among item.Operation (bytes_of_items self.now) }
    {
        self.operations
    }
}
