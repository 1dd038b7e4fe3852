//! The tables that find a declaration of the script's own space without a search, made from all its items.

ghost use Rattle.std.specs.Prelude.{◌≡◌, ◌+◌, ◌<◌, ◌^◌, IfOk};
ghost use Rattle.wb_script.specs.BytesOf.{bytes_of_items};
ghost use Rattle.wb_script.specs.Tables.{indexes_from, next_referent, no_counts, referents_from, with_next, IsNamed};

use crate::checks::items::{Declaration, is_same_kind};
use std::alloc::{AllocError, Global};
use std::collections::HashMap;
use wb_lines::lists::add;
use wb_tree::script_lines::{ItemKind, Referent};

/// How many items of each kind come before an item.
#[derive(Clone, Copy)]
pub(crate) struct Counts {
    pub classes: usize,
    pub procedures: usize,
    pub operations: usize,
}

impl Counts {
    /// What the next item is, if it is of this kind: the kind, and its index among the items of that kind.
    fn next(self, kind: ItemKind) -> Referent
        ensures { result ≡ next_referent self kind }
    {
        match kind {
            ItemKind::Class => Referent::Class(self.classes),
            ItemKind::Procedure => Referent::Procedure(self.procedures),
            ItemKind::Operation => Referent::Operation(self.operations),
        }
    }

    /// The counts with one more item of this kind.
    fn with_next(self, kind: ItemKind) -> Counts
        requires { self.classes + self.procedures + self.operations + 1 < 2 ^ 64 }
        ensures { result ≡ with_next self kind }
    {
        let mut counts = self;
        match kind {
            ItemKind::Class => counts.classes += 1,
            ItemKind::Procedure => counts.procedures += 1,
            ItemKind::Operation => counts.operations += 1,
        }
        counts
    }
}

/// What each item is: its kind, and its index among the items of that kind.
pub(crate) fn referents_of(
    alloc: Global,
    items: &[Declaration],
) -> Result<Vec<Referent>, AllocError>
    ensures { IfOk result (λ found.
        found.items ≡ referents_from no_counts (bytes_of_items items.now)) }
{
    let mut found = Vec::with_capacity(alloc, items.len())?;
    let mut counts = Counts {
        classes: 0,
        procedures: 0,
        operations: 0,
    };
    for item in items {
        add(&mut found, counts.next(item.kind))?;
        counts = counts.with_next(item.kind);
    }
    Ok(found)
}

/// The indexes of the items of this kind.
pub(crate) fn indexes_of(
    alloc: Global,
    kind: ItemKind,
    items: &[Declaration],
) -> Result<Vec<usize>, AllocError>
    ensures { IfOk result (λ found. found.items ≡ indexes_from kind 0 (bytes_of_items items.now)) }
{
    let mut found = Vec::new(alloc);
    for (index, item) in items.iter().enumerate() {
        if is_same_kind(item.kind, kind) {
            add(&mut found, index)?;
        }
    }
    Ok(found)
}

/// Each name with the index of its first declaration. Items are put in from the last to the first: of items with the same name, the first
/// is put in last, and so stays.
pub(crate) fn names_of<'a>(
    alloc: Global,
    items: &[Declaration<'a>],
) -> Result<HashMap<&'a [u8], usize>, AllocError>
    ensures { IfOk result (IsNamed (bytes_of_items items.now)) }
{
    let mut named = HashMap::with_capacity(alloc, items.len())?;
    let mut at = items.len();
    while at > 0 {
        at -= 1;
        named.insert(items[at].name, at)?;
    }
    Ok(named)
}
