//! The reports that runs, sweeps and other searches over many runs make while they go on. No contract mentions these reports, and no result
//! depends on them.

ghost use Rattle.std.specs.Prelude.{◌≡◌, ◌≢◌};
ghost use Rattle.wb_runs.specs.declared.failures.Failures.TheVariants.{Pairs};

use crate::failures::{Failing, Failures};
use wb_heap_model::heap::Numbers;
pub use wb_meaning::progress::{Silent, StepProgress};

/// What a sweep looks for.
#[derive(Clone, Copy, Debug, PartialEq, Eq)]
pub enum Aim {
    /// The least failure that shows a leak or a panic, of the failures that name at most this many numbers. The sweep ends at this failure.
    Least(u32),
    /// How the run under each number ends. No number ends the sweep.
    All,
}

impl Aim {
    /// Returns the aim of a sweep that looks for the least failure of this kind that shows a leak or a panic.
    pub fn least_of(failures: Failures) -> Aim
        ensures pairs { failures ≡ Pairs → result ≡ Aim.Least 2 }
        ensures single { failures ≢ Pairs → result ≡ Aim.Least 1 }
    {
        match failures {
            Failures::Pairs => Aim::Least(2),
            Failures::Single => Aim::Least(1),
            Failures::Every => Aim::Least(1),
            Failures::Persistent => Aim::Least(1),
        }
    }
}

/// Receives reports of how far a run, a sweep, or the search through all heap lengths has come. The methods return nothing, so no result
/// depends on the receiver.
pub trait Progress: StepProgress {
    /// A single run begins, and its steps are reported. No sweep or other search is under way.
    fn begin_run(&mut self);

    /// A sweep with this aim begins. The run without failure is made next, unless its result is known already.
    fn begin(&mut self, aim: Aim);

    /// The run without failure is over, and runs under failures follow. The rates, or the attempt numbers, from `first` to `last` are
    /// tried; a number is tried alone or as the first of a set. `first` is 1 or the part's first number, whichever is greater. `last` is
    /// the number of attempts of the run without failure or the part's last number, whichever is less.
    fn begin_failures(&mut self, first: u32, last: u32);

    /// The run under this failure begins. The method is called once for each failure that is tried.
    fn begin_failure(&mut self, at: &Failing);

    /// No set of fewer than `many` attempts shows anything, and runs under sets of `many` attempts follow. The method is called with 2, 3
    /// and so on. If a search over states is given up, the method is called again with the same `many`. From then on, the sets are tried
    /// one by one.
    fn begin_sets(&mut self, many: u32);

    /// The run in which these attempts fail begins. The method is called once for each set that is tried.
    fn begin_set(&mut self, numbers: &Numbers);

    /// A search over states met a new state. States that differ only in allocation numbers, or in how many steps were counted, count as one
    /// state. The method is called once for each new state. `waiting` is the number of states, including the new state, whose next attempt
    /// the search hasn't made fail yet.
    fn meet_state(&mut self, waiting: usize);

    /// The search through all heap lengths begins.
    fn begin_lengths(&mut self);

    /// The run in a heap of this length, in bytes, begins. Each length is less than the length before it.
    fn begin_length(&mut self, length: u32);

    /// The run, the sweep, or the search through all heap lengths is over, whatever it found.
    fn end(&mut self);
}

impl Progress for Silent {
    fn begin_run(&mut self) {}

    fn begin(&mut self, _aim: Aim) {}

    fn begin_failures(&mut self, _first: u32, _last: u32) {}

    fn begin_failure(&mut self, _at: &Failing) {}

    fn begin_sets(&mut self, _many: u32) {}

    fn begin_set(&mut self, _numbers: &Numbers) {}

    fn meet_state(&mut self, _waiting: usize) {}

    fn begin_lengths(&mut self) {}

    fn begin_length(&mut self, _length: u32) {}

    fn end(&mut self) {}
}
