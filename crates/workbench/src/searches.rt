//! The reports of `sweep` and `check`, for each kind of search: the text, its values, and the exit status. Nothing is read or written here.

ghost use Rattle.std.specs.Prelude.{◌≡◌, IfOk, IsTrue};
ghost use Rattle.std.specs.Option.{option_map_or};
ghost use Rattle.wb_tree.specs.Sound.{is_script};
ghost use Rattle.wb_command_line.specs.Command.{is_search_in_range};
ghost use Rattle.wb_command_line.specs.Spelled.{whole};
ghost use Rattle.wb_runs.specs.declared.failures.Failures.TheVariants.{Single};
ghost use Rattle.wb_runs.specs.Parts.{last_attempt};
ghost use Rattle.wb_runs.specs.Sweeps.{runs_of};
ghost use Rattle.workbench.specs.declared.report_values.FailingNumber.TheVariants.{At, Never};
ghost use Rattle.workbench.specs.AllReport.{IsListReport, fine_status, told_status, told_text, told_values};
ghost use Rattle.workbench.specs.PartReport.{IsReportOver, is_whole};
ghost use Rattle.workbench.specs.SearchReport.{IsCheckReport, IsReportOfSwept, IsSearchReport, nothing_line};
ghost use Rattle.workbench.specs.TwoNumbers.{attempts_of, sweep_text, swept_status, swept_values};
ghost use Rattle.workbench.specs.EverySetReport.{many_states_text};
ghost use Rattle.workbench.specs.ReportValues.{many_states_values};

use crate::all_text::put_all;
use crate::exit_status::{CUT, FOUND, NOTHING_FOUND};
use crate::numbers_text::{put_many_states, put_sweep};
use crate::report::Report;
use crate::report_values::{FailingNumber, ReportValues};
use crate::tasks::{cut_report, report_of_size, report_of_size_fault};
use std::alloc::{AllocError, Global};
use wb_basics::limits::CEILING;
use wb_basics::memory::NoMemory;
use wb_command_line::command::Search;
use wb_heap_model::heap::Rule;
use wb_machine::run_reporting;
use wb_meaning::conditions::Conditions;
use wb_meaning::run::Outcome;
use wb_runs::failures::Failures;
use wb_runs::number_ends::NumberEnd;
use wb_runs::part::Part;
use wb_size::sized_run::{SizedRun, size_by_run};
use wb_sweep::run_known::sweep_beside_known;
use wb_sweep::{
    AllNumbers, Found, Listing, Progress, Silent, Sweep, Unswept, sweep_all, sweep_every_set,
    sweep_part, sweep_sets, sweep_whole,
};
use wb_tree::script::Script;

/// The report of a search among the failures of a part. `Part::WHOLE` has the number of each attempt that a run can make.
pub fn search_report<P: Progress>(
    alloc: Global,
    script: &Script,
    search: Search,
    part: Part,
    conditions: Conditions,
    progress: &mut P,
) -> Result<Report, NoMemory>
    requires script { IsTrue (is_script script.now) }
    requires range { IsTrue (is_search_in_range search) }
    ensures { IfOk result (λ r. IsSearchReport search part script.now
        conditions.budget conditions.shape r.text.items r.values r.status) }
{
    match search {
        Search::Least(failures) => {
            least_report(alloc, script, failures, part, conditions, progress)
        }
        Search::All(failures) => {
            let list = Listing::Unfine;
            list_report(alloc, script, list, failures, part, conditions, progress)
        }
        Search::Ends(failures) => {
            let list = Listing::Every;
            list_report(alloc, script, list, failures, part, conditions, progress)
        }
        Search::Sets(most) => {
            let swept = sweep_sets(alloc, script, part, most, conditions, progress);
            report_of_sweep(alloc, script, search, conditions, swept)
        }
        Search::EverySet(states) => {
            let swept = sweep_every_set(alloc, script, part, states, conditions, progress);
            report_of_sweep(alloc, script, search, conditions, swept)
        }
    }
}

/// The report of a sweep over the part's failures of this kind. A part with all numbers is answered as if none were named.
fn least_report<P: Progress>(
    alloc: Global,
    script: &Script,
    failures: Failures,
    part: Part,
    conditions: Conditions,
    progress: &mut P,
) -> Result<Report, NoMemory>
    requires script { IsTrue (is_script script.now) }
    ensures { IfOk result (λ r. IsReportOver (is_whole part) failures part script.now
        conditions.budget conditions.shape r.text.items r.values r.status) }
{
    let search = Search::Least(failures);
    if is_whole(part) {
        let swept = sweep_whole(alloc, script, failures, conditions, progress);
        report_of_sweep(alloc, script, search, conditions, swept)
    } else {
        let swept = sweep_part(alloc, script, failures, part, conditions, progress);
        report_of_sweep(alloc, script, search, conditions, swept)
    }
}

/// Whether the part has all numbers that a command may name.
fn is_whole(part: Part) -> bool
    ensures { result ≡ is_whole part }
{
    part.from == 0 && part.to == CEILING
}

/// The report of what the sweep of this search returned. The report names the least failure whose run leaks or panics, or says that there
/// is none. If the sweep ended at a run that was cut, the report has the line of this run. If it met too many states, the report has lines
/// that say so.
fn report_of_sweep(
    alloc: Global,
    script: &Script,
    search: Search,
    conditions: Conditions,
    swept: Result<Sweep, Unswept>,
) -> Result<Report, NoMemory>
    requires script { IsTrue (is_script script.now) }
    ensures { IfOk result (λ r. IsReportOfSwept search script.now
        conditions.budget conditions.shape swept r.text.items r.values r.status) }
{
    match swept {
        Ok(sweep) => found_report(alloc, search, sweep),
        Err(Unswept::Cut { at, why }) => cut_report(alloc, at, why),
        Err(Unswept::ManyStates { fine }) => many_states_report(alloc, script, fine, conditions),
        Err(Unswept::NoMemory) => Err(NoMemory::from(AllocError)),
    }
}

/// The report of what a sweep found.
fn found_report(alloc: Global, search: Search, sweep: Sweep) -> Result<Report, NoMemory>
    ensures text { IfOk result (λ r. r.text.items ≡ sweep_text (nothing_line search) sweep) }
    ensures values { IfOk result (λ r. r.values ≡ swept_values sweep) }
    ensures status { IfOk result (λ r. r.status ≡ swept_status sweep) }
{
    let mut text = Vec::new(alloc);
    put_sweep(&mut text, search, &sweep)?;
    let Sweep { attempts, found } = sweep;
    let (number, status) = number_and_status(found, NOTHING_FOUND);
    let values = ReportValues::of_sweep(attempts, number)?;
    Ok(Report {
        text,
        values,
        status,
    })
}

/// Of the failures that a sweep tried, the one that it found, and the report's status: 1 if it found one, and `fine` if it found none.
fn number_and_status(found: Option<Found>, fine: u8) -> (FailingNumber, u8)
    ensures number { result.0 ≡ option_map_or (λ found. At found.at) found Never }
    ensures status { result.1 ≡ option_map_or (λ found. 1) found fine }
{
    match found {
        Some(found) => {
            let Found { at, result: _ } = found;
            (FailingNumber::At(at), FOUND)
        }
        None => (FailingNumber::Never, fine),
    }
}

/// The report of a search that met more states than are allowed. No set of at most `fine` attempts has a run that leaks, panics or is cut.
fn many_states_report(
    alloc: Global,
    script: &Script,
    fine: u32,
    conditions: Conditions,
) -> Result<Report, NoMemory>
    requires script { IsTrue (is_script script.now) }
    ensures text { IfOk result (λ r. r.text.items ≡ many_states_text
        (attempts_of Single script.now conditions.budget conditions.shape) fine) }
    ensures values { IfOk result (λ r. r.values ≡ many_states_values fine) }
    ensures status { IfOk result (λ r. r.status ≡ 3) }
{
    let attempts = attempts_made(alloc, script, conditions)?;
    let mut text = Vec::new(alloc);
    put_many_states(&mut text, attempts, fine)?;
    Ok(Report {
        text,
        values: ReportValues::of_many_states(fine),
        status: CUT,
    })
}

/// How many attempts the run without failure makes.
fn attempts_made(alloc: Global, script: &Script, conditions: Conditions) -> Result<u64, NoMemory>
    requires script { IsTrue (is_script script.now) }
    ensures { IfOk result (λ attempts.
        attempts ≡ attempts_of Single script.now conditions.budget conditions.shape) }
{
    let run = run_reporting(alloc, script, Rule::Number(0), conditions, &mut Silent)?;
    Ok(run.trace.len() as u64)
}

/// The report of a sweep that lists numbers. The report says how the run ends under each listed number of the part, and shows the run under
/// the least number whose run leaks or panics. If the run without failure was cut, the report has only the line of this run.
fn list_report<P: Progress>(
    alloc: Global,
    script: &Script,
    listing: Listing,
    failures: Failures,
    part: Part,
    conditions: Conditions,
    progress: &mut P,
) -> Result<Report, NoMemory>
    requires script { IsTrue (is_script script.now) }
    ensures { IfOk result (λ r. IsListReport listing failures part script.now
        conditions.budget conditions.shape r.text.items r.values r.status) }
{
    match sweep_all(alloc, script, listing, failures, part, conditions, progress) {
        Ok(all) => told_report(alloc, failures, all),
        Err(Unswept::Cut { at, why }) => cut_report(alloc, at, why),
        // Only a sweep over all sets counts states.
        Err(Unswept::ManyStates { .. }) => unreachable!(),
        Err(Unswept::NoMemory) => Err(NoMemory::from(AllocError)),
    }
}

/// The report of a sweep that listed these numbers.
fn told_report(alloc: Global, failures: Failures, all: AllNumbers) -> Result<Report, NoMemory>
    ensures text { IfOk result (λ r. r.text.items ≡ told_text failures all) }
    ensures values { IfOk result (λ r. r.values ≡ told_values all) }
    ensures status { IfOk result (λ r. r.status ≡ told_status all) }
{
    let mut text = Vec::new(alloc);
    put_all(&mut text, failures, &all)?;
    let fine = fine_status(all.ends.as_slice());
    let AllNumbers {
        attempts,
        ends,
        bad: _,
        found,
    } = all;
    let (number, status) = number_and_status(found, fine);
    let values = ReportValues::of_all(attempts, ends, number)?;
    Ok(Report {
        text,
        values,
        status,
    })
}

/// The status if no run leaks or panics: 3 if the run of a listed number was cut, and 0 if no listed number's run was cut.
fn fine_status(ends: &[NumberEnd]) -> u8
    ensures { result ≡ fine_status ends.now }
{
    for told in ends {
        if told.end.is_cut() {
            return CUT;
        }
    }
    NOTHING_FOUND
}

/// The report of a check: the required length, and then what is found among all failures. If the script wasn't sized because its run was
/// cut, the report has only the line of this run.
pub fn check_report<P: Progress>(
    alloc: Global,
    script: &Script,
    search: Search,
    conditions: Conditions,
    progress: &mut P,
) -> Result<Report, NoMemory>
    requires script { IsTrue (is_script script.now) }
    requires range { IsTrue (is_search_in_range search) }
    ensures { IfOk result (λ r. IsCheckReport search script.now
        conditions.budget conditions.shape r.text.items r.values r.status) }
{
    let sized = match size_by_run(alloc, script, conditions, progress) {
        Ok(sized) => sized,
        Err(fault) => return report_of_size_fault(alloc, fault),
    };
    let SizedRun {
        sizing,
        outcome,
        attempts,
        steps,
    } = sized;
    let mut report = report_of_size(alloc, sizing)?;
    let found = search_after_size(
        alloc, script, search, conditions, &outcome, attempts, steps, progress,
    )?;
    report.text.extend_from_slice(found.text.as_slice())?;
    report.values = ReportValues::of_both(report.values, found.values);
    report.status = found.status;
    Ok(report)
}

/// The report of a search among all failures, given how the run without failure ends, and how many attempts and steps it makes. A search for
/// the least of the failures of one kind makes this run again only if it isn't fine; any other search makes it again.
fn search_after_size<P: Progress>(
    alloc: Global,
    script: &Script,
    search: Search,
    conditions: Conditions,
    outcome: &Outcome,
    attempts: u32,
    steps: u32,
    progress: &mut P,
) -> Result<Report, NoMemory>
    requires script { IsTrue (is_script script.now) }
    requires range { IsTrue (is_search_in_range search) }
    requires outcome { (failures : Failures) →
        outcome.now ≡ (runs_of failures script.now conditions.budget conditions.shape 0).outcome }
    requires attempts { (failures : Failures) →
        attempts ≡ last_attempt failures script.now conditions.budget conditions.shape }
    requires steps { (failures : Failures) →
        steps ≡ (runs_of failures script.now conditions.budget conditions.shape 0).steps }
    ensures { IfOk result (λ r. IsSearchReport search whole script.now
        conditions.budget conditions.shape r.text.items r.values r.status) }
{
    match search {
        Search::Least(failures) => {
            let swept = sweep_beside_known(
                alloc, script, failures, conditions, outcome, attempts, steps, progress,
            );
            report_of_sweep(alloc, script, search, conditions, swept)
        }
        _ => search_report(alloc, script, search, Part::WHOLE, conditions, progress),
    }
}
