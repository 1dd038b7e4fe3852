//! What is said about a run that was cut, and about a search over sets of attempts that met more states than are allowed: where, what is
//! known, and what to raise.

use crate::runs::counts::Many;
use crate::runs::explanation::{FindingKind, Told};
use crate::runs::script_page::{ScriptPage, Written};
use wb_basics::limits::{CEILING, LARGEST_BUDGET};
use wb_history::WatchedRun;
use wb_meaning::run::Why;

/// Says where a run was cut, and what to do.
pub fn put_cut(page: &mut ScriptPage<'_>, why: Why, run: &WatchedRun<'_>) -> Written {
    let line = run.history.last_line();
    page.begin_finding(FindingKind::Cut, Told::Unordered)?;
    match why {
        Why::Budget => put_budget(page, line, run.parameters.budget),
        Why::Ceiling => put_ceiling(page, line),
    }
}

fn put_budget(page: &mut ScriptPage<'_>, line: u32, budget: u32) -> Written {
    let steps = Many(i64::from(budget), "step");
    page.mark(
        line,
        format_args!("the run was cut after this line: it took {steps}, its whole budget"),
    )?;
    if budget >= LARGEST_BUDGET {
        page.page.write_help_text(
            "no run may take more steps; make sure that what repeats here comes to an end",
        );
    }
    put_budget_help(page, budget, "here");
    Ok(())
}

/// Says how to raise the budget, if it can be raised. `place` says where the run repeats something: `here`, for example.
pub fn put_budget_help(page: &mut ScriptPage<'_>, budget: u32, place: &str) {
    let raised = budget.saturating_mul(10).min(LARGEST_BUDGET);
    if budget < LARGEST_BUDGET {
        page.page.write_help(format_args!(
            "raise the budget, for example with `--budget {raised}`, unless what repeats {place} never ends"
        ));
    }
}

fn put_ceiling(page: &mut ScriptPage<'_>, line: u32) -> Written {
    page.mark(
        line,
        format_args!(
            "the run was cut here: the cell would end past {CEILING} bytes, the most that a heap may have"
        ),
    )?;
    page.page.write_help_text("this limit can't be raised; ask for less, or free cells earlier");
    Ok(())
}

/// A search that met more states than are allowed.
#[derive(Clone, Copy, Debug, PartialEq, Eq)]
pub struct ManyStates {
    /// How many states the search may meet.
    pub most: u32,
    /// The greatest size, in attempts, up to which all sets that were tried are free of leaks and panics.
    pub fine: u32,
    /// How many states may be allowed next; `None` if more can't be allowed.
    pub raised: Option<u32>,
}

/// Says that not every set was tried, what is known about the sets that were tried, and what to do.
pub fn put_many_states(page: &mut ScriptPage<'_>, met: ManyStates) {
    let states = Many(i64::from(met.most), "state");
    page.page.write_file_message(format_args!(
        "not every set of attempts was tried, which takes more than the {states} that may be met"
    ));
    match met.fine {
        0 | 1 => page.page.write_row(
            "no attempt that was tried leaks or panics if it fails alone; of larger sets nothing is known",
        ),
        fine => page.page.write_row(format_args!(
            "no set of up to {fine} attempts that was tried leaks or panics; of larger ones nothing is known"
        )),
    }
    match met.raised {
        Some(states) => page.page.write_help(format_args!(
            "raise the number of states, for example with `--states {states}`"
        )),
        None => page.page.write_help_text(
            "no search may meet more states; `--failures` tries sets of up to 8 attempts without them",
        ),
    }
}
