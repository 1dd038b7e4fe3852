//! The values of a report, besides its lines. A JSON report has a key for each value but `named` and `fine`.

ghost use Rattle.std.specs.Prelude.{◌≡◌, IfOk};
ghost use Rattle.workbench.specs.ReportValues.{all_values, both_values, cut_values, found_failing, lengths_values};
ghost use Rattle.workbench.specs.ReportValues.{many_states_values, no_values, run_values, size_values, sweep_values};

use wb_basics::memory::NoMemory;
use wb_meaning::run::RunResult;
use wb_runs::failures::Failing;
use wb_runs::lengths::LengthTable;
use wb_runs::number_ends::NumberEnds;
use wb_size::{Rises, Sizing};

/// Of all failures or lengths of heap that were tried, the least whose run leaks or panics.
#[derive(Debug, Drop)]
pub enum FailingNumber {
    /// No failure that was tried, or no length of heap, has a run that leaks or panics.
    Never,
    /// The least failure whose run leaks or panics.
    At(Failing),
    /// The least length of heap whose run leaks or panics, in bytes.
    Length(u32),
}

impl FailingNumber {
    /// Returns a copy of the failure that was found; `None` if nothing or a length of heap was found. The only error is that memory ran out.
    fn failing(&self) -> Result<Option<Failing>, NoMemory>
        ensures { IfOk result (λ failing. failing ≡ found_failing self.now) }
    {
        match self {
            FailingNumber::Never | FailingNumber::Length(_) => Ok(None),
            FailingNumber::At(failing) => Ok(Some(failing.try_copy()?)),
        }
    }
}

/// The values of a report; a value is `None` if the report has no such value.
#[derive(Debug, Drop)]
pub struct ReportValues {
    /// How many attempts the run made; for a sweep that was finished, how many the run without failure makes.
    pub attempts: Option<u64>,
    /// What the sweep, or the search through all lengths, found.
    pub number: Option<FailingNumber>,
    /// The length that the heap must have, in bytes.
    pub required: Option<u64>,
    /// The attempt that each shorter heap refuses first.
    pub rises: Option<Rises>,
    /// How the run ends in heaps of every length.
    pub ranges: Option<LengthTable>,
    /// How the run ended under each number that is listed.
    pub all: Option<NumberEnds>,
    /// The failure that the lines name; `None` if the lines name no failure. The lines show the run under this failure, or say that this
    /// run was cut.
    pub named: Option<Failing>,
    /// `Some` exactly if a search met more states than are allowed. Then no set of at most this many attempts has a run that leaks, panics
    /// or is cut.
    pub fine: Option<u32>,
}

impl ReportValues {
    /// The values of the report on a rejected script.
    pub fn none() -> ReportValues
        ensures { result ≡ no_values }
    {
        ReportValues {
            attempts: None,
            number: None,
            required: None,
            rises: None,
            ranges: None,
            all: None,
            named: None,
            fine: None,
        }
    }

    /// The values of the report on a run that was cut under this failure.
    pub fn of_cut(at: Failing) -> ReportValues
        ensures { result ≡ cut_values at }
    {
        ReportValues {
            named: Some(at),
            ..ReportValues::none()
        }
    }

    /// The values of a search that met too many states. No set of at most `fine` attempts has a run that leaks, panics or is cut.
    pub fn of_many_states(fine: u32) -> ReportValues
        ensures { result ≡ many_states_values fine }
    {
        ReportValues {
            fine: Some(fine),
            ..ReportValues::none()
        }
    }

    /// The values of one run, which may have been cut.
    pub fn of_run(run: &RunResult) -> ReportValues
        ensures { result ≡ run_values run.now }
    {
        ReportValues {
            attempts: Some(run.trace.len() as u64),
            ..ReportValues::none()
        }
    }

    /// The values of a sizing.
    pub fn of_size(sizing: Sizing) -> ReportValues
        ensures { result ≡ size_values sizing.required sizing.rises }
    {
        ReportValues {
            required: Some(u64::from(sizing.required)),
            rises: Some(sizing.rises),
            ..ReportValues::none()
        }
    }

    /// The values of a sweep that was finished. The only error is that memory ran out.
    pub fn of_sweep(attempts: u32, number: FailingNumber) -> Result<ReportValues, NoMemory>
        ensures { IfOk result (λ values. values ≡ sweep_values attempts number) }
    {
        let named = number.failing()?;
        Ok(ReportValues {
            attempts: Some(u64::from(attempts)),
            number: Some(number),
            named,
            ..ReportValues::none()
        })
    }

    /// The values of a sweep that lists numbers. The only error is that memory ran out.
    pub fn of_all(
        attempts: u32,
        ends: NumberEnds,
        number: FailingNumber,
    ) -> Result<ReportValues, NoMemory>
        ensures { IfOk result (λ values. values ≡ all_values attempts ends number) }
    {
        Ok(ReportValues {
            all: Some(ends),
            ..ReportValues::of_sweep(attempts, number)?
        })
    }

    /// The values of a check: the values of its sizing, and the values of the sweep after the sizing.
    pub fn of_both(size: ReportValues, sweep: ReportValues) -> ReportValues
        ensures { result ≡ both_values size sweep }
    {
        ReportValues {
            attempts: sweep.attempts,
            number: sweep.number,
            required: size.required,
            rises: size.rises,
            ranges: None,
            all: sweep.all,
            named: sweep.named,
            fine: sweep.fine,
        }
    }

    /// The values of the search through all lengths.
    pub fn of_lengths(table: LengthTable, number: FailingNumber) -> ReportValues
        ensures { result ≡ lengths_values table number }
    {
        ReportValues {
            number: Some(number),
            ranges: Some(table),
            ..ReportValues::none()
        }
    }
}
