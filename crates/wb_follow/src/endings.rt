//! How a run that is followed ends, and after how many steps. To find this out, the run is made once beforehand.

ghost use Rattle.std.specs.Prelude.{◌≤◌, IsTrue};
ghost use Rattle.wb_tree.specs.Sound.{is_script};

use crate::rows::Rows;
use std::alloc::Global;
use wb_basics::limits::{CEILING, LARGEST_BUDGET};
use wb_basics::memory::NoMemory;
use wb_heap_model::heap::Panic;
use wb_history::RunParameters;
use wb_meaning::run::{Outcome, Why};
use wb_runs::run_end::RunEnd;
use wb_tree::script::Script;
use wb_watch::machine_of;

/// How a run ends.
#[derive(Clone, Copy)]
pub(crate) struct Ending {
    pub(crate) steps: u32,
    end: RunEnd,
    /// The code with which `main` leaves; `None` if `main` doesn't leave.
    left: Option<i32>,
}

impl Ending {
    /// Whether the run's last step asks for a cell that would end past the greatest length that a heap may have.
    pub(crate) fn is_at_ceiling(self) -> bool {
        self.end == RunEnd::Cut(Why::Ceiling)
    }
}

/// Runs a script to the end, and returns how the run ends; `None` if no heap may have the shape that the parameters ask for. The only error
/// is that memory ran out.
pub(crate) fn ending_of(
    alloc: Global,
    script: &Script,
    parameters: &RunParameters,
) -> Result<Option<Ending>, NoMemory>
    requires script { IsTrue (is_script script.now) }
    requires least { 1 ≤ parameters.now.budget }
    requires greatest { parameters.now.budget ≤ LARGEST_BUDGET }
{
    let Some(machine) = machine_of(alloc, script, parameters)? else {
        return Ok(None);
    };
    let result = machine.run_to_end()?;
    Ok(Some(Ending {
        steps: result.steps,
        end: RunEnd::of(&result.outcome),
        left: code_of(&result.outcome),
    }))
}

fn code_of(outcome: &Outcome) -> Option<i32> {
    match outcome {
        Outcome::Ended { left, .. } => *left,
        Outcome::Panicked(_) | Outcome::NoCleanup | Outcome::Cut(_) => None,
    }
}

/// Writes the last row, which says how the run ends.
pub(crate) fn put_ending(rows: &mut Rows, ending: Ending) {
    rows.begin(true);
    rows.head("end", "");
    match ending.end {
        RunEnd::NoCleanup => rows.text("`main` doesn't begin"),
        RunEnd::Panicked(panic) => put_panic(rows, panic),
        RunEnd::Cut(Why::Budget) => {
            rows.text("the run is cut after ");
            rows.number(ending.steps);
            rows.text(" steps");
        }
        RunEnd::Cut(Why::Ceiling) => {
            rows.text("the run is cut: a cell would end past ");
            rows.number(CEILING);
            rows.text(" bytes");
        }
        RunEnd::Plain | RunEnd::Left(_) => put_main(rows, ending.left, 0),
        RunEnd::Leaked(leaks) => put_main(rows, ending.left, leaks),
    }
    rows.end();
}

/// Writes how `main` ends, and how many cells leak.
fn put_main(rows: &mut Rows, left: Option<i32>, leaks: usize) {
    match left {
        None => rows.text("`main` ends"),
        Some(code) => {
            rows.text("`main` is left with ");
            rows.value(i64::from(code));
        }
    }
    match leaks {
        0 => {}
        1 => rows.text("; 1 cell leaks"),
        _ => {
            rows.text("; ");
            rows.value(i64::try_from(leaks).unwrap_or(0));
            rows.text(" cells leak");
        }
    }
}

/// Writes the name of a panic.
pub(crate) fn put_panic(rows: &mut Rows, panic: Panic) {
    match panic {
        Panic::User(number) => {
            rows.text("panic USER ");
            rows.number(u32::from(number));
        }
        Panic::Alloc(place) => {
            rows.text("panic ALLOC ");
            rows.place(place);
        }
        Panic::Workbench(number) => {
            rows.text("panic WORKBENCH ");
            rows.number(u32::from(number));
        }
    }
}
