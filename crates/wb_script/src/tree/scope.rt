//! What the operands of a body's lines may name.

pub(crate) mod counted;
mod operands;

ghost use Rattle.std.specs.Prelude.{◌≤◌, length};
ghost use Rattle.wb_basics.specs.declared.limits.TheConstants.{MOST_CLASSES, MOST_LOCALS};

use wb_tree::script::Local;

/// What the operands of a body's lines may name: the locals of the body, and `self`, given by its class, if the body belongs to a class.
/// Operands may also name fields and literals, given by how many fields each class has and how many literals the script has.
#[derive(Clone, Copy)]
pub(crate) struct Scope<'a> {
    pub literals: u32,
    pub locals: &'a [Local],
    pub this: Option<u16>,
    pub fields: &'a [u8],
    ghost few: { length locals.now ≤ MOST_LOCALS },
    ghost classes: { length fields.now ≤ MOST_CLASSES },
}
