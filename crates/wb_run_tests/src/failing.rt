//! Scripts that are run and swept while attempts fail, and helpers that compare answers, findings and reports with expected values.

ghost use Rattle.std.specs.Prelude.{IsTrue};
ghost use Rattle.wb_command_line.specs.Command.{is_answerable};

use crate::rules::Refuses;
use std::alloc::Global;
use std::test::Fail;
use wb_heap_model::heap::{Answer, Rule, Shape};
use wb_machine::run;
use wb_meaning::run::Why;
use wb_runs::failures::Failures;
use wb_runs::part::Part;
use wb_script::read;
use wb_sweep::fault::SweepFault;
use wb_sweep::sweeping::sweep;
use workbench::answer::answer;
use workbench::{Command, Search, Silent, Task};

pub(crate) const SHAPE: Shape = Shape {
    min: 4096,
    step: 4096,
    moving: false,
};

/// Asks for a large cell, `page`, and for a small cell, `note`. If the attempt for the large cell fails, it asks for a smaller cell for
/// `page`. If this attempt also fails, `allocl` leaves, and the cell of `note` leaks.
pub(crate) const FALLBACK: &[u8] =
    b"proc main\nptr page\nptr note\nalloc page 256\nalloc note 16\nif null page\nallocl page 64\nend\nfree note\nfree page\nend\n";

/// Makes up to three attempts to get a cell, until an attempt succeeds. Afterwards, the script uses the cell without checking whether the
/// last attempt succeeded.
pub(crate) const THRICE: &[u8] =
    b"proc main\nptr a\nrepeat 3\nif null a\nalloc a 16\nend\nend\nstore a 0 7\nfree a\nend\n";

/// Makes an attempt to get a cell, and then six more attempts. The script's own setting makes every second of these six attempts fail.
pub(crate) const SETS: &[u8] =
    b"proc main\nptr a\nalloc a 1\nfree a\nfailevery 2\nrepeat 6\nalloc a 1\nfree a\nend\nend\n";

/// Makes three attempts to get a cell, after a line that ends the script's own setting.
pub(crate) const SETS_NONE: &[u8] =
    b"proc main\nptr a\nfailevery 1\nfailnone\nrepeat 3\nalloc a 1\nfree a\nend\nend\n";

/// Returns the answers to the attempts of a run.
pub(crate) fn answers_of(alloc: Global, script: &[u8], rule: Rule) -> Result<Vec<Answer>, Fail> {
    let script = read(alloc, script)?;
    let told = run(alloc, &script, rule, 99, SHAPE)?;
    let mut answers = Vec::new(alloc);
    for attempt in told.trace.as_slice() {
        answers.push(attempt.answer)?;
    }
    Ok(answers)
}

/// Whether the attempts of a run get these answers.
pub(crate) fn are_answered(
    alloc: Global,
    script: &[u8],
    rule: Refuses,
    wanted: &[Answer],
) -> Result<bool, Fail> {
    Ok(answers_of(alloc, script, rule.rule())?.as_slice() == wanted)
}

/// The cut of a sweep, as plain data, which rows of tables may hold.
#[derive(Clone, Copy, Debug, PartialEq, Eq)]
pub(crate) struct Cut {
    pub(crate) at: Refuses,
    pub(crate) why: Why,
}

/// Returns the cut because of which a sweep has no answer. Any other fault is an error.
fn cut_of(fault: SweepFault) -> Result<Cut, SweepFault> {
    match fault {
        SweepFault::Cut { at, why } => Ok(Cut {
            at: Refuses::of(&at),
            why,
        }),
        other => Err(other),
    }
}

/// Returns the failure that a sweep of the script finds, or the cut because of which the sweep finds nothing.
pub(crate) fn found_in(
    alloc: Global,
    script: &[u8],
    failures: Failures,
) -> Result<Result<Option<Refuses>, Cut>, Fail> {
    let script = read(alloc, script)?;
    match sweep(alloc, &script, failures, 99, SHAPE, &mut Silent) {
        Ok(swept) => Ok(Ok(swept.found.as_ref().map(|found| Refuses::of(&found.at)))),
        Err(fault) => Ok(Err(cut_of(fault)?)),
    }
}

/// The report and the status that `sweep` or `check` must give for the script `FALLBACK`, in lines or as JSON.
pub(crate) struct Wanted {
    /// Whether the command is `check`; if not, it is `sweep`.
    pub(crate) is_check: bool,
    pub(crate) failures: Failures,
    pub(crate) json: bool,
    pub(crate) report: &'static str,
    pub(crate) status: u8,
}

fn command_of(wanted: &Wanted) -> Command
    ensures { IsTrue (is_answerable result) }
{
    let failures = wanted.failures;
    Command {
        task: if wanted.is_check {
            Task::Check(Search::Least(failures))
        } else {
            Task::Sweep(Search::Least(failures), Part::WHOLE)
        },
        file: None,
        budget: 10_000,
        shape: SHAPE,
        json: wanted.json,
        quiet: false,
        brief: false,
        picture: None,
        sarif: None,
        follow: None,
        around: None,
    }
}

/// Whether the command gives the wanted report and status.
pub(crate) fn is_answered(alloc: Global, wanted: &Wanted) -> bool {
    let mut script = FALLBACK;
    let mut report = Vec::new(alloc);
    let answered = answer(
        alloc,
        &command_of(wanted),
        &mut script,
        &mut report,
        &mut Silent,
    );
    report.as_slice() == wanted.report.as_bytes() && answered.status == wanted.status
}
