//! A run that is over, and what ended it.

use crate::checks::Counted;
use crate::history::History;
use crate::parameters::RunParameters;
use crate::pointer_faults::PointerFault;
use crate::raiser::Raised;
use crate::values::Meant;
use wb_heap_model::heap::Ptr;
use wb_meaning::run::Outcome;
use wb_tree::script::Statement;

/// What ended a run.
pub struct EndOfRun<'a> {
    /// The panic that ended the run; `None` if none did.
    pub raised: Option<Raised>,
    /// The statement that was begun last.
    pub statement: Option<&'a Statement>,
    /// The pointer, the values or the cells that the panic is about; each is `None` if the panic is about no such thing.
    pub pointer: Option<PointerFault>,
    pub values: Option<Meant>,
    pub counted: Option<Counted>,
    /// The cell whose text the last statement edits, or else what is named by the pointer that it reads; null if there is none.
    pub names: Ptr,
    /// The lines from `main` down to the line that is to be named for the panic; empty without a panic.
    pub path: Vec<u32>,
}

/// Written by hand, so that dropping such a value is a single call in a proof. Only this function goes over
/// the fields.
impl Drop for EndOfRun<'_> {
    fn drop(self) {
        let EndOfRun {
            raised: _,
            statement: _,
            pointer: _,
            values: _,
            counted: _,
            names: _,
            path: _,
        } = self;
    }
}

/// A run that is over, and what happened in it.
pub struct WatchedRun<'a> {
    pub parameters: RunParameters,
    pub outcome: Outcome,
    pub history: History<'a>,
    pub end: EndOfRun<'a>,
}

/// Written by hand, so that dropping such a value is a single call in a proof. Only this function goes over
/// the fields.
impl Drop for WatchedRun<'_> {
    fn drop(self) {
        let WatchedRun {
            parameters: _,
            outcome: _,
            history: _,
            end: _,
        } = self;
    }
}
