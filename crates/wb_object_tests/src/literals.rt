//! Makes the literals with which the tests edit texts.

ghost use Rattle.std.specs.Prelude.{◌≡◌, IfOk};

use std::alloc::{AllocError, Global};
use wb_basics::items::Chars;

/// Returns a literal with these bytes.
pub(crate) fn literal(alloc: Global, bytes: &[u8]) -> Result<Chars, AllocError>
    ensures { IfOk result (λ chars. chars ≡ bytes.now) }
{
    let mut copy = Vec::new(alloc);
    copy.extend_from_slice(bytes)?;
    Ok(Chars::from_vec(copy))
}
