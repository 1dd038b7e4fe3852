//! What runs found: panics, leaks, what a failed attempt led to, which attempts a shorter heap refuses, what heaps of every length
//! show, and cuts.
//!
//! A run's history (`wb_history`) says what happened in the run, and at which lines.

mod attempts;
mod blame;
mod callee_pushes;
mod caught;
mod copies;
mod counts;
mod cures;
mod cuts;
mod destroyed;
mod dropped;
mod end_words;
mod ended_by_call;
mod ended_by_line;
mod ends;
mod explanation;
mod failures;
mod filled;
mod for_leave;
mod half_made;
mod heads;
mod heap_checks;
mod heaps;
mod item_cures;
mod item_gone;
mod item_kept;
mod items_left;
mod kept;
mod leaks;
mod led;
mod left_cells;
mod left_inside;
mod lengths;
mod lent;
mod let_go;
mod losses;
mod mends;
mod never_set;
mod new_place;
mod number_lists;
mod numbers;
mod old_value;
mod operations;
mod out_of_scope;
mod overwritten;
mod owners;
mod panics;
mod passed;
mod passed_over;
mod passed_release;
mod paths;
mod plain_release;
mod pointers;
mod raised;
mod rates;
mod refusals;
mod room;
mod script_page;
mod sentences;
mod sets;
mod shared;
mod shell_words;
mod spread;
mod stored;
mod stories;
mod taken;
mod told;
mod two_items;
mod unasked;
mod unlooked;
mod view_made;
mod whole;
mod worse;

use crate::runs::cuts::put_many_states;
use crate::runs::ends::put_findings;
use crate::runs::filled::put_filled;
use crate::runs::heaps::put_heaps;
use crate::runs::lengths::put_lengths;
use crate::runs::numbers::put_numbers;
use crate::runs::script_page::ScriptPage;
use crate::runs::shell_words::RuleOption;
use crate::runs::unasked::{put_nothing_else, put_shown, put_undecided};
use crate::runs::worse::put_worse;
pub use cuts::ManyStates;
pub use explanation::{Explanation, Finding, FindingKind, Parts, Told};
pub use heaps::greatest_bad;
pub use mends::{Mend, Tried, is_one_of_several, mend_found, mends_of, says_cause, text_with};
pub use numbers::last_bad;
pub use panics::panic_in_symbian;
pub use shell_words::{ShellFile, ShellOptions};
use std::alloc::{AllocError, Global};
pub use unasked::{Question, Shown, moves_with_room};
use wb_heap_model::heap::Rule;
use wb_heap_model::size::Rise;
use wb_history::{Attempts, History, ScriptLines, WatchedRun};
use wb_runs::failures::Failures;
use wb_runs::lengths::LengthRange;
use wb_runs::number_ends::NumberEnd;
pub use worse::longest_better;

/// Returns what a run found, with the script's lines that this is about; empty if there is nothing to say. The only error is that memory
/// ran out.
pub fn run_found(
    alloc: Global,
    lines: &ScriptLines<'_>,
    run: &WatchedRun<'_>,
) -> Result<Explanation, AllocError> {
    let mut page = ScriptPage::new(alloc, lines);
    put_findings(&mut page, run)?;
    page.whole()
}

/// Returns which line made each attempt of `rises`, which are those that shorter heaps refuse first, and what fills the heap at the last
/// rise. `history` is the history of the run without failure, with all that a picture draws. The only error is that memory ran out.
pub fn lengths_found(
    alloc: Global,
    lines: &ScriptLines<'_>,
    history: &History<'_>,
    rises: &[Rise],
) -> Result<Explanation, AllocError> {
    let mut page = ScriptPage::new(alloc, lines);
    put_lengths(&mut page, &history.attempts, rises);
    put_filled(&mut page, alloc, history, rises)?;
    page.whole()
}

/// Returns which line's attempt is refused first in the heaps whose runs leak or panic, in which heaps runs are cut, and which longer heap
/// does worse; empty if no run does any of this. `ranges` cover all lengths. `attempts` are the attempts of the run in the longest heap, up
/// to the first rise past `greatest_bad`; `None` if no run leaks or panics. `better` are the attempts in a heap of length `longest_better`.
/// The only error is that memory ran out.
pub fn heaps_found(
    alloc: Global,
    lines: &ScriptLines<'_>,
    attempts: Option<&Attempts<'_>>,
    better: Option<&Attempts<'_>>,
    budget: u32,
    ranges: &[LengthRange],
) -> Result<Explanation, AllocError> {
    let mut page = ScriptPage::new(alloc, lines);
    put_heaps(&mut page, alloc, attempts, budget, ranges)?;
    if let Some(better) = better {
        put_worse(&mut page, ranges, better)?;
    }
    page.whole()
}

/// Returns at which lines a failed attempt leads to a leak or a panic, given how all runs of a sweep ended; empty if no attempt does so.
/// `attempts` are the attempts of the run without failure, up to `last_bad`. The only error is that memory ran out.
pub fn numbers_found(
    alloc: Global,
    lines: &ScriptLines<'_>,
    attempts: &Attempts<'_>,
    failures: Failures,
    ends: &[NumberEnd],
) -> Result<Explanation, AllocError> {
    let mut page = ScriptPage::new(alloc, lines);
    put_numbers(&mut page, alloc, attempts, failures, ends)?;
    page.whole()
}

/// Returns what is known after a search met more states than are allowed. The only error is that memory ran out.
pub fn states_found(
    alloc: Global,
    lines: &ScriptLines<'_>,
    met: ManyStates,
) -> Result<Explanation, AllocError> {
    let mut page = ScriptPage::new(alloc, lines);
    put_many_states(&mut page, met);
    page.whole()
}

/// A check that finds nothing tries further questions. Returns what one of these questions showed, and the command that shows it. `moves`
/// says whether a cell that grew moved in the run that is shown, though it had room. The only error is that memory ran out.
pub fn unasked_found(
    alloc: Global,
    lines: &ScriptLines<'_>,
    shown: Shown<'_>,
    moves: bool,
    options: ShellOptions,
) -> Result<Explanation, AllocError> {
    let mut page = ScriptPage::new(alloc, lines);
    put_shown(&mut page, shown, moves, options);
    page.whole()
}

/// Returns which further question of a check stayed undecided, and the command that asks it. The only error is that memory ran out.
pub fn undecided_question(
    alloc: Global,
    lines: &ScriptLines<'_>,
    question: Question,
    options: ShellOptions,
) -> Result<Explanation, AllocError> {
    let mut page = ScriptPage::new(alloc, lines);
    put_undecided(&mut page, question, options);
    page.whole()
}

/// Returns the message that no further question of a check shows a leak or a panic. The only error is that memory ran out.
pub fn nothing_else(alloc: Global, lines: &ScriptLines<'_>) -> Result<Explanation, AllocError> {
    let mut page = ScriptPage::new(alloc, lines);
    put_nothing_else(&mut page);
    page.whole()
}

/// Returns the command that shows a run of this script step by step. The only error is that memory ran out.
pub fn steps_shown(
    alloc: Global,
    lines: &ScriptLines<'_>,
    rule: &Rule,
    options: ShellOptions,
    file: ShellFile<'_>,
) -> Result<Explanation, AllocError> {
    let mut page = ScriptPage::new(alloc, lines);
    let rule = RuleOption(rule);
    page.page.write_help(format_args!(
        "see it step by step: `workbench run{rule}{options} --follow{file}`"
    ));
    page.whole()
}
