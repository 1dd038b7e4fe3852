//! The help on the options that take a number or a list of numbers, and the parser that `clap` uses for such a number. The options
//! themselves are in `parser`, `sets`, `set_list` and `following`.

ghost use Rattle.std.specs.Prelude.{◌≡◌, pos};

use super::GRANULE;
use super::following::{DEFAULT_FOLLOWED, MOST_FOLLOWED};
use super::set_list::MOST_NUMBERS;
use super::sets::{DEFAULT_STATES, LEAST_STATES, MOST_STATES, MOST_TOGETHER};
use clap::builder::ValueParser;
use clap::value_parser;
use std::alloc::{AllocError, Global};
use wb_basics::limits::{
    CEILING, DEFAULT_BUDGET, DEFAULT_MINIMUM, DEFAULT_STEP, LARGEST_BUDGET, LARGEST_MINIMUM,
    LARGEST_STEP, SMALLEST_STEP,
};

/// The help on the options that take a number or a list of numbers. Each text has the bounds of the numbers, and the default if there is
/// one.
#[derive(Drop)]
pub(crate) struct NumberHelp {
    pub rules: RuleHelp,
    pub follow: FollowHelp,
    pub search: SearchHelp,
    pub bounds: BoundHelp,
}

impl NumberHelp {
    pub(crate) fn new(alloc: Global) -> Result<NumberHelp, AllocError> {
        Ok(NumberHelp {
            rules: RuleHelp::new(alloc)?,
            follow: FollowHelp::new(alloc)?,
            search: SearchHelp::new(alloc)?,
            bounds: BoundHelp::new(alloc)?,
        })
    }
}

/// The help on the options of `run` that make attempts fail.
#[derive(Drop)]
pub(crate) struct RuleHelp {
    pub limit: String,
    pub fail: String,
    pub also: String,
    pub every: String,
    pub fail_from: String,
    pub set: String,
}

impl RuleHelp {
    fn new(alloc: Global) -> Result<RuleHelp, AllocError> {
        Ok(RuleHelp {
            limit: format!(in alloc;
                "Limits the length of the heap to L bytes, from 0 to {CEILING}"
            )?,
            fail: format!(in alloc;
                "Makes attempt N fail, from 0 to {CEILING}; there is no attempt 0"
            )?,
            also: format!(in alloc;
                "Makes attempt J fail too, after that of --fail; J from 2 to {CEILING}"
            )?,
            every: format!(in alloc;
                "Makes every N-th attempt fail, N from 0 to {CEILING}; with 0 none fails"
            )?,
            fail_from: format!(in alloc;
                "Makes attempt N and all later ones fail, N from 0 to {CEILING}; with 0 none fails"
            )?,
            set: format!(in alloc;
                "Makes the attempts of LIST fail: 1 to {MOST_NUMBERS} ascending numbers from 1 to {CEILING}, as in 2,3,5"
            )?,
        })
    }
}

/// The help on the options that say which steps `--follow` writes.
#[derive(Drop)]
pub(crate) struct FollowHelp {
    pub steps: String,
    pub around: String,
}

impl FollowHelp {
    fn new(alloc: Global) -> Result<FollowHelp, AllocError> {
        Ok(FollowHelp {
            steps: format!(in alloc;
                "With --follow: writes the first N steps and the last N; with --follow-around: N before the attempt \
                 and N after it; N from 1 to {MOST_FOLLOWED} [default: {DEFAULT_FOLLOWED}]"
            )?,
            around: format!(in alloc;
                "As --follow, but for the steps around attempt N, from 1 to {CEILING}"
            )?,
        })
    }
}

/// The help on the options that say which failures are tried.
#[derive(Drop)]
pub(crate) struct SearchHelp {
    pub failures: String,
    pub states: String,
    pub from: String,
    pub to: String,
}

impl SearchHelp {
    fn new(alloc: Global) -> Result<SearchHelp, AllocError> {
        Ok(SearchHelp {
            failures: format!(in alloc;
                "If no single failure leaks or panics, makes two attempts fail, then three, up to K, from 1 to \
                 {MOST_TOGETHER}, and finds the least set that does"
            )?,
            states: format!(in alloc;
                "With --sets: most states that may be met, N from {LEAST_STATES} to {MOST_STATES} \
                 [default: {DEFAULT_STATES}]"
            )?,
            from: format!(in alloc;
                "Tries numbers from I on, I from 0 to {CEILING}; of pairs those with such a first number \
                 [default: 0]"
            )?,
            to: format!(in alloc;
                "Tries numbers up to J, J from 0 to {CEILING}; of pairs those with such a first number \
                 [default: {CEILING}]"
            )?,
        })
    }
}

/// The help on the options that all subcommands have.
#[derive(Drop)]
pub(crate) struct BoundHelp {
    pub budget: String,
    pub min: String,
    pub step: String,
}

impl BoundHelp {
    fn new(alloc: Global) -> Result<BoundHelp, AllocError> {
        Ok(BoundHelp {
            budget: format!(in alloc;
                "Most steps that a run may take, from 1 to {LARGEST_BUDGET} \
                 [default: {DEFAULT_BUDGET}]"
            )?,
            min: format!(in alloc;
                "Minimum length of the heap in bytes, a multiple of {GRANULE} \
                 from 0 to {LARGEST_MINIMUM} [default: {DEFAULT_MINIMUM}]"
            )?,
            step: format!(in alloc;
                "Step by which the heap grows, in bytes, a multiple of {GRANULE} \
                 from {SMALLEST_STEP} to {LARGEST_STEP} [default: {DEFAULT_STEP}]"
            )?,
        })
    }
}

/// The parser of the decimal numbers from `least` to `most`.
pub(super) fn between<'a>(least: u32, most: u32) -> ValueParser<'a>
    ensures { result ≡ ValueParser.Signed (pos least) (pos most) }
{
    value_parser!(u32).range(i64::from(least)..=i64::from(most))
}
