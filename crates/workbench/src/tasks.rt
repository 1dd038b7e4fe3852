//! The report of each task on a script: the text, its values, and the exit status. Nothing is read or written here. `searches` makes the
//! reports of `sweep` and `check`.

ghost use Rattle.std.specs.Prelude.{◌≡◌, ℕ, IfOk, IsTrue, if◌then◌else◌};
ghost use Rattle.wb_runs.specs.declared.failures.Failing.TheVariants.{Number};
ghost use Rattle.wb_meaning.specs.declared.run.Why.{Why};
ghost use Rattle.wb_meaning.specs.Run.{run};
ghost use Rattle.wb_tree.specs.Sound.{is_script};
ghost use Rattle.wb_command_line.specs.Command.{is_answerable};
ghost use Rattle.workbench.specs.LengthsReport.{IsLengthsReport};
ghost use Rattle.workbench.specs.ReportValues.{cut_values, size_values};
ghost use Rattle.workbench.specs.Report.{IsRunReport, IsTaskReport};
ghost use Rattle.workbench.specs.RunText.{outcome_status};
ghost use Rattle.workbench.specs.TwoNumbers.{cut_at_line, size_text, IsSizeReport};

use crate::exit_status::{CUT, FOUND, NOTHING_FOUND};
use crate::lengths_text::put_lengths;
use crate::numbers_text::{put_cut_at, put_sizing};
use crate::report::Report;
use crate::report_values::{FailingNumber, ReportValues};
use crate::run_text::put_run;
use crate::searches::{check_report, search_report};
use std::alloc::{AllocError, Global};
use wb_basics::memory::NoMemory;
use wb_command_line::command::{Command, Task};
use wb_heap_model::heap::Rule;
use wb_lengths::lengths;
use wb_machine::run_reporting;
use wb_meaning::conditions::Conditions;
use wb_meaning::run::{Outcome, Why};
use wb_runs::failures::Failing;
use wb_size::Unsized;
use wb_size::sized_run::{SizedRun, size_by_run};
use wb_size::sizing::Sizing;
use wb_sweep::Progress;
use wb_tree::script::Script;

/// Returns the report of the command's task on a script. The only error is that memory ran out. `progress` is notified of how far a run, a
/// sweep, or the search through all lengths has come.
pub fn carry_out<P: Progress>(
    alloc: Global,
    command: &Command,
    script: &Script,
    progress: &mut P,
) -> Result<Report, NoMemory>
    requires ranges { IsTrue (is_answerable command.now) }
    requires sound { IsTrue (is_script script.now) }
    ensures { IfOk result (λ r. IsTaskReport command.now.task script.now
        command.now.budget command.now.shape r.text.items r.values r.status) }
{
    let conditions = Conditions {
        budget: command.budget,
        shape: command.shape,
    };
    match &command.task {
        Task::Run(rule) => run_report(alloc, script, rule.try_copy()?, conditions, progress),
        Task::Size => size_report(alloc, script, conditions, progress),
        Task::Lengths => lengths_report(alloc, script, conditions, progress),
        Task::Sweep(search, part) => {
            search_report(alloc, script, *search, *part, conditions, progress)
        }
        Task::Check(search) => check_report(alloc, script, *search, conditions, progress),
    }
}

/// The report of one run.
fn run_report<P: Progress>(
    alloc: Global,
    script: &Script,
    rule: Rule,
    conditions: Conditions,
    progress: &mut P,
) -> Result<Report, NoMemory>
    requires script { IsTrue (is_script script.now) }
    ensures { IfOk result (λ r. IsRunReport (run script.now rule conditions.budget conditions.shape)
        r.text.items r.values r.status) }
{
    progress.begin_run();
    let ran = run_reporting(alloc, script, rule, conditions, progress);
    progress.end();
    let run = ran?;
    let mut text = Vec::new(alloc);
    put_run(&mut text, &run)?;
    Ok(Report {
        text,
        values: ReportValues::of_run(&run),
        status: status_of(&run.outcome),
    })
}

/// The status of the report of one run: 1 if the run leaked or panicked, 3 if the run was cut, and 0 if the run is fine.
fn status_of(outcome: &Outcome) -> u8
    ensures { result ≡ outcome_status outcome.now }
{
    match outcome {
        Outcome::Ended { left: _, leaks } => u8::from(leaks.len() > 0),
        Outcome::Panicked(_) => FOUND,
        Outcome::NoCleanup => NOTHING_FOUND,
        Outcome::Cut(_) => CUT,
    }
}

/// The report of a sizing: how long the heap must be. If the run was cut, the report has the line of this run instead.
fn size_report<P: Progress>(
    alloc: Global,
    script: &Script,
    conditions: Conditions,
    progress: &mut P,
) -> Result<Report, NoMemory>
    requires script { IsTrue (is_script script.now) }
    ensures { IfOk result (λ r. IsSizeReport script.now
        conditions.budget conditions.shape r.text.items r.values r.status) }
{
    match size_by_run(alloc, script, conditions, progress) {
        Ok(
            SizedRun {
                sizing,
                outcome: _,
                attempts: _,
                steps: _,
            },
        ) => report_of_size(alloc, sizing),
        Err(fault) => report_of_size_fault(alloc, fault),
    }
}

/// The report of a sizing that was finished: the required length, and what shorter heaps refuse first.
pub fn report_of_size(alloc: Global, sizing: Sizing) -> Result<Report, NoMemory>
    ensures { IfOk result (λ r. (r.text.items ≡ size_text sizing.required sizing.rises)
        × (r.values ≡ size_values sizing.required sizing.rises) × (r.status ≡ 0)) }
{
    let mut text = Vec::new(alloc);
    put_sizing(&mut text, &sizing)?;
    Ok(Report {
        text,
        values: ReportValues::of_size(sizing),
        status: NOTHING_FOUND,
    })
}

/// The report on a script that wasn't sized because its run was cut. The report's text is the line of this run.
pub fn report_of_size_fault(alloc: Global, fault: Unsized) -> Result<Report, NoMemory>
    ensures { IfOk result (λ r. (number : ℕ) × (why : Why) × (fault ≡ Unsized.Cut number why)
        × (r.text.items ≡ cut_at_line (Number number) why)
        × (r.values ≡ cut_values (Number number)) × (r.status ≡ 3)) }
{
    match fault {
        Unsized::Cut { number, why } => cut_report(alloc, Failing::Number(number), why),
        Unsized::NoMemory => Err(NoMemory::from(AllocError)),
    }
}

/// The report of a run that was cut under this failure: the line of the run.
pub fn cut_report(alloc: Global, at: Failing, why: Why) -> Result<Report, NoMemory>
    ensures text { IfOk result (λ r. r.text.items ≡ cut_at_line at why) }
    ensures values { IfOk result (λ r. r.values ≡ cut_values at) }
    ensures status { IfOk result (λ r. r.status ≡ 3) }
{
    let mut text = Vec::new(alloc);
    put_cut_at(&mut text, &at, why)?;
    Ok(Report {
        text,
        values: ReportValues::of_cut(at),
        status: CUT,
    })
}

/// The report of how the runs end in heaps of every length, and of the least length whose run leaks or panics.
fn lengths_report<P: Progress>(
    alloc: Global,
    script: &Script,
    conditions: Conditions,
    progress: &mut P,
) -> Result<Report, NoMemory>
    requires script { IsTrue (is_script script.now) }
    ensures { IfOk result (λ r. IsLengthsReport script.now
        conditions.budget conditions.shape r.text.items r.values r.status) }
{
    let found = lengths(alloc, script, conditions, progress)?;
    let mut text = Vec::new(alloc);
    put_lengths(&mut text, &found)?;
    let (number, status) = match &found.bad {
        Some(bad) => (FailingNumber::Length(bad.length), FOUND),
        None => (FailingNumber::Never, fine_status(found.is_cut)),
    };
    Ok(Report {
        text,
        values: ReportValues::of_lengths(found.table, number),
        status,
    })
}

/// The status if no length's run leaks or panics: 3 if the run of some length is cut, and 0 if no length's run is cut.
fn fine_status(is_cut: bool) -> u8
    ensures { result ≡ if is_cut then 3 else 0 }
{
    if is_cut { CUT } else { NOTHING_FOUND }
}
