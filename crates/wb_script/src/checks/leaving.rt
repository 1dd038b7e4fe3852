//! Which lines count as lines that may leave, in a body that must not leave.

ghost use Rattle.std.specs.Prelude.{◌≡◌};
ghost use Rattle.wb_language.specs.Kinds.{may_leave};
ghost use Rattle.wb_script.specs.Checks.{known_in};
ghost use Rattle.wb_lines.specs.BytesOf.{bytes_of_form};

use crate::checks::names_so_far::NamesSoFar;
use wb_lines::leaving::may_leave_in;
use wb_tree::script_lines::Form;

/// Whether a line is in the body of an operation or of a destructor, and counts as a line that may leave.
pub(crate) fn may_leave(known: &NamesSoFar, form: &Form<&[u8]>) -> bool
    ensures { result ≡ may_leave (known_in known.now) (bytes_of_form form.now) }
{
    match form {
        Form::Line(line_kind, _) => may_leave_in(known.body, *line_kind),
        _ => false,
    }
}
