//! Which cell's text a view shows, once a statement has changed the view.

use std::alloc::AllocError;
use wb_history::{History, NULL};
use wb_machine::Machine;
use wb_tree::script::{Readable, Statement, Writable};

/// Notes which cell's text a view shows, if this statement, which was carried out, changed the view.
pub(crate) fn see_view(
    history: &mut History<'_>,
    machine: &Machine<'_>,
    statement: &Statement,
) -> Result<(), AllocError> {
    match statement {
        Statement::Left(view, text, _)
        | Statement::Right(view, text, _)
        | Statement::Mid(view, text, ..) => {
            let depth = machine.depth();
            let cell = match text {
                Readable::Of(Writable::InCell(pointer)) => machine.pointer(*pointer),
                Readable::ViewOf(other) => history.views.cell_of(depth, *other),
                Readable::Of(Writable::OwnBuffer(_)) | Readable::Quoted(_) => NULL,
            };
            history.views.set(depth, *view, cell)
        }
        _ => Ok(()),
    }
}
