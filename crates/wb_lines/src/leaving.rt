//! Which lines count as lines that may leave, in a body that must not leave.

ghost use Rattle.std.specs.Prelude.{◌≡◌};
ghost use Rattle.wb_language.specs.LineKinds.{is_loud, is_outside, may_leave_in};

use crate::line_kinds::{is_quiet, role_of};
use wb_tree::script_lines::{BodyKind, LineKind, Role};

/// Whether lines of this kind belong to the script or to a class, and not to a body.
fn is_outside(line_kind: LineKind) -> bool
    ensures { result ≡ is_outside line_kind }
{
    matches!(
        role_of(line_kind),
        Role::Class | Role::Field | Role::Construct | Role::Destroy | Role::Procedure
    )
}

fn is_loud(line_kind: LineKind) -> bool
    ensures { result ≡ is_loud line_kind }
{
    !(is_outside(line_kind) || is_quiet(line_kind))
}

/// Whether a line of this kind counts as a line that may leave, in a body of this kind; `false` for bodies that are allowed to leave.
pub fn may_leave_in(body: BodyKind, line_kind: LineKind) -> bool
    ensures { result ≡ may_leave_in body line_kind }
{
    match body {
        BodyKind::Operation | BodyKind::Destructor => is_loud(line_kind),
        BodyKind::Procedure | BodyKind::Constructor => false,
    }
}
