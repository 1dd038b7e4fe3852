//! How the runs of a script end in heaps of every length, found by runs from the longest heap down.

ghost use Rattle.std.specs.Prelude.{◌≡◌, ◌≢◌, ◌+◌, ◌-◌, ◌<◌, ◌≤◌, None, false, IfOk, IfSome, IsTrue, OnOk};
ghost use Rattle.wb_tree.specs.Sound.{is_script};
ghost use Rattle.wb_runs.specs.Lengths.{run_in, IsLeastBadLength, IsLengthTable, IsNoBadLength};
ghost use Rattle.wb_heap_model.specs.Rises.{highest_end};
ghost use Rattle.wb_lengths.specs.Lengths.{AreLengths, first_bad, has_cut};
ghost use Rattle.wb_lengths.specs.Forks.{AreOf};
ghost use Rattle.wb_lengths.specs.Walk.{IsRightFrom};

use crate::heap_runs::HeapRuns;
use crate::highest_end::highest_end;
use crate::table_so_far::TableSoFar;
use std::alloc::Global;
use wb_basics::limits::CEILING;
use wb_basics::memory::NoMemory;
use wb_heap_model::heap::Rule;
use wb_machine::run_reporting;
use wb_meaning::conditions::Conditions;
use wb_meaning::run::RunResult;
use wb_runs::lengths::LengthTable;
use wb_runs::progress::{Progress, Silent};
use wb_runs::run_end::RunEnd;
use wb_tree::script::Script;

/// The least length of heap, in bytes, whose run leaks or panics, and the result of this run.
#[derive(Debug, Drop)]
pub struct BadLength {
    pub length: u32,
    pub result: RunResult,
}

/// How the runs of a script end in heaps of every length.
#[derive(Debug, Drop)]
pub struct LengthFindings {
    pub table: LengthTable,
    /// The least length whose run leaks or panics; `None` if there is no such length.
    pub bad: Option<BadLength>,
    /// Whether the run of some length is cut.
    pub is_cut: bool,
}

/// Finds how the runs of a script end in heaps of all lengths from 0 to the ceiling, 16 MiB, and the least of these lengths whose run leaks
/// or panics, with the result of that run. Lengths whose runs are cut at the budget (a number of steps) make ranges of the table too.
/// `progress` is notified of each run from which the table is made, and of the steps that it has taken.
///
/// One run gives the result for many lengths. A cell that a heap refuses would end past the heap. So if no granted cell of a run ends past
/// some shorter length, the run in a heap of this shorter length is the same except for notes. So one run is made for each range of lengths
/// whose runs have the same trace. One more run is made for the least length whose run leaks or panics, if there is such a length.
pub fn lengths<P: Progress>(
    alloc: Global,
    script: &Script,
    conditions: Conditions,
    progress: &mut P,
) -> Result<LengthFindings, NoMemory>
    requires script { IsTrue (is_script script.now) }
    ensures lengths { IfOk result (AreLengths script.now conditions.budget conditions.shape) }
{
    progress.begin_lengths();
    let found = find_lengths(alloc, script, conditions, progress);
    progress.end();
    found
}

/// Makes only the table. `steps` bounds the steps of all runs together: returns `None` if the runs would take more steps. The contract
/// doesn't exclude `None` in other cases. `progress` is notified of each run.
pub fn lengths_within<P: Progress>(
    alloc: Global,
    script: &Script,
    conditions: Conditions,
    steps: u32,
    progress: &mut P,
) -> Result<Option<LengthTable>, NoMemory>
    requires script { IsTrue (is_script script.now) }
    ensures table { IfOk result (λ found.
        IfSome found (IsLengthTable script.now conditions.budget conditions.shape)) }
{
    let mut runs = HeapRuns::new(alloc, Some(steps));
    progress.begin_lengths();
    let found = find_table(&mut runs, script, conditions, progress);
    progress.end();
    found
}

/// Makes the table of all lengths, and finds what it shows: the least length whose run leaks or panics, and whether a run is cut.
fn find_lengths<P: Progress>(
    alloc: Global,
    script: &Script,
    conditions: Conditions,
    progress: &mut P,
) -> Result<LengthFindings, NoMemory>
    requires script { IsTrue (is_script script.now) }
    ensures { IfOk result (AreLengths script.now conditions.budget conditions.shape) }
{
    let mut runs = HeapRuns::new(alloc, None);
    match find_table(&mut runs, script, conditions, progress)? {
        Some(table) => Ok(LengthFindings {
            bad: find_bad(alloc, script, conditions, &table)?,
            is_cut: has_cut(&table),
            table,
        }),
        // `find_table` returns `None` only if the steps are bounded, and these steps aren't.
        None => unreachable!(),
    }
}

/// The least length whose run leaks or panics according to this table, and the result of this run; `None` if there is no such length.
fn find_bad(
    alloc: Global,
    script: &Script,
    conditions: Conditions,
    table: &LengthTable,
) -> Result<Option<BadLength>, NoMemory>
    requires script { IsTrue (is_script script.now) }
    requires table { IsLengthTable script.now conditions.budget conditions.shape table.now }
    ensures bad { IfOk result (λ found. IfSome found (λ bad.
        IsLeastBadLength script.now conditions.budget conditions.shape bad.length bad.result)) }
    ensures none { IfOk result (λ found. found ≡ None →
        IsNoBadLength script.now conditions.budget conditions.shape) }
{
    let Some(length) = first_bad(table) else {
        return Ok(None);
    };
    let result = run_reporting(alloc, script, Rule::Limit(length), conditions, &mut Silent)?;
    Ok(Some(BadLength { length, result }))
}

/// The least length, in bytes, of the first range whose runs leak or panic; `None` if there is no such range.
pub fn first_bad(table: &LengthTable) -> Option<u32>
    ensures { result ≡ first_bad table.now }
{
    for range in table.as_slice() {
        if range.end.is_bad() {
            return Some(range.from);
        }
    }
    None
}

/// Whether the runs of some range are cut.
fn has_cut(table: &LengthTable) -> bool
    ensures { result ≡ has_cut table.now }
{
    for range in table.as_slice() {
        if range.end.is_cut() {
            return true;
        }
    }
    false
}

/// Makes the table of all lengths; returns `None` if the runs take more steps than are left.
fn find_table<'a, P: Progress>(
    runs: &mut HeapRuns<'a>,
    script: &'a Script,
    conditions: Conditions,
    progress: &mut P,
) -> Result<Option<LengthTable>, NoMemory>
    requires script { IsTrue (is_script script.now) }
    requires forks { AreOf script.now conditions.budget conditions.shape runs.old.forks }
    ensures table { IfOk result (λ found.
        IfSome found (IsLengthTable script.now conditions.budget conditions.shape)) }
    ensures whole { runs.old.steps_left ≡ None → IfOk result (λ found. found ≢ None) }
{
    let mut table = TableSoFar::new(runs.alloc);
    let mut next = CEILING + 1;
    while next > 0 {
        progress.begin_length(next - 1);
        let below = put_lengths_below(runs, &mut table, script, conditions, next, progress)?;
        let Some(from) = below else {
            return Ok(None);
        };
        next = from;
    }
    Ok(Some(table.into_table()))
}

/// Makes the run in a heap that is one byte shorter than `next`. This run gives the result for a range of lengths below `next`. Puts
/// this range before the others, and returns its least length, in bytes; `None` if the run takes more steps than are left.
fn put_lengths_below<'a, P: Progress>(
    runs: &mut HeapRuns<'a>,
    table: &mut TableSoFar,
    script: &'a Script,
    conditions: Conditions,
    next: u32,
    progress: &mut P,
) -> Result<Option<u32>, NoMemory>
    requires script { IsTrue (is_script script.now) }
    requires within { (1 ≤ next) × (next ≤ CEILING + 1) }
    requires so_far { IsRightFrom script.now conditions.budget conditions.shape next table.old }
    requires forks { AreOf script.now conditions.budget conditions.shape runs.old.forks }
    ensures least { IfOk result (λ found. IfSome found (λ from. from
        ≡ highest_end (run_in script.now conditions.budget conditions.shape (next - 1)).trace)) }
    ensures shorter { IfOk result (λ found. IfSome found (λ from. from < next)) }
    ensures right { IfOk result (λ found. IfSome found (λ from.
        IsRightFrom script.now conditions.budget conditions.shape from table.new)) }
    ensures forks { OnOk result
        (AreOf script.now conditions.budget conditions.shape runs.new.forks) }
    ensures unbounded { runs.old.steps_left ≡ None → runs.new.steps_left ≡ None }
    ensures whole { runs.old.steps_left ≡ None → IfOk result (λ found. found ≢ None) }
{
    let Some(run_result) = runs.run(script, conditions, next - 1, progress)? else {
        return Ok(None);
    };
    let from = highest_end(&run_result.trace);
    table.put_before(from, RunEnd::of(&run_result.outcome))?;
    Ok(Some(from))
}
