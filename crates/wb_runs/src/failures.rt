//! What fails: which failures a sweep tries, and the one type that says which attempts fail.

ghost use Rattle.std.specs.Prelude.{◌≡◌, IfOk};
ghost use Rattle.wb_runs.specs.Sweeps.{failing_at, rule_for};

use wb_basics::memory::NoMemory;
use wb_heap_model::heap::{Numbers, Rule};

/// Which failures a sweep tries one by one, the least first. Source: this project's profile.
#[derive(Clone, Copy, Debug, PartialEq, Eq)]
pub enum Failures {
    /// One attempt fails. The sweep tries each attempt number.
    Single,
    /// Every n-th attempt fails. The sweep tries each rate n.
    Every,
    /// One attempt fails, as for `Single`. If no single failure shows anything, the sweep goes on to all pairs of attempts.
    Pairs,
    /// The n-th attempt and all after it fail. The sweep tries each number n.
    Persistent,
}

impl Failures {
    /// Returns the failure that is tried for the number or rate `n`. For `Pairs`, this is a single failure, because single failures are
    /// tried before any pair. If `n` is 0, no attempt fails.
    pub fn at(self, n: u32) -> Failing
        ensures { result ≡ failing_at self n }
    {
        match self {
            Failures::Single | Failures::Pairs => Failing::Number(n),
            Failures::Every => Failing::Every(n),
            Failures::Persistent => Failing::From(n),
        }
    }
}

/// A failure: which attempts the rule of a run makes fail.
#[derive(Debug, Drop)]
pub enum Failing {
    /// The attempt with this number fails. Attempts count from 1, so with number 0 no attempt fails.
    Number(u32),
    /// Each attempt whose number is a multiple of this rate fails; with rate 0 no attempt fails.
    Every(u32),
    /// The attempts with these two numbers fail. The second number is greater than the first.
    Pair(u32, u32),
    /// The attempt with this number and all later attempts fail; with number 0 no attempt fails.
    From(u32),
    /// The attempts with these numbers fail. The numbers ascend.
    Set(Numbers),
}

impl Failing {
    /// Returns a copy of the failure; the copy of a `Set` has its numbers in newly allocated memory. Returns `NoMemory` if the workbench's
    /// memory runs out.
    pub fn try_copy(&self) -> Result<Failing, NoMemory>
        ensures { IfOk result (λ copy. copy ≡ self.now) }
    {
        Ok(match self {
            Failing::Number(number) => Failing::Number(*number),
            Failing::Every(rate) => Failing::Every(*rate),
            Failing::Pair(first, second) => Failing::Pair(*first, *second),
            Failing::From(first) => Failing::From(*first),
            Failing::Set(numbers) => Failing::Set(numbers.try_copy()?),
        })
    }

    /// Returns the rule that makes exactly the attempts of this failure fail.
    pub fn rule(self) -> Rule
        ensures { result ≡ rule_for self }
    {
        match self {
            Failing::Number(number) => Rule::Number(number),
            Failing::Every(rate) => Rule::Every(rate),
            Failing::Pair(first, second) => Rule::Pair(first, second),
            Failing::From(first) => Rule::From(first),
            Failing::Set(numbers) => Rule::Set(numbers),
        }
    }
}
