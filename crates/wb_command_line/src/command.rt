//! What the words of a command line ask for, or why they are no command. The file `command_line` reads the words.
ghost use Rattle.std.specs.Prelude.{◌≡◌};
ghost use Rattle.wb_command_line.specs.declared.command.CommandFault.TheVariants.{NoMemory};
ghost use Rattle.wb_command_line.specs.Fault.{fault_of_error};

use crate::file_name::FileName;
use clap::error::ErrorKind;
use std::alloc::AllocError;
use thiserror::Error;
use wb_heap_model::heap::{Rule, Shape};
use wb_runs::failures::Failures;
use wb_runs::part::Part;

/// What a sweep looks for among failures.
#[derive(Clone, Copy, Debug, PartialEq, Eq)]
pub enum Search {
    /// The least of these failures whose run leaks or panics, together with this run. A failure is an attempt that fails, a rate at which
    /// attempts fail, an attempt from which on all attempts fail, or two attempts that fail.
    Least(Failures),
    /// All of these failures whose run leaks, panics or is cut, each with how its run ends. Also the run under the least failure whose run
    /// leaks or panics.
    All(Failures),
    /// How the run ends under every one of these failures, even if the run is fine. Also the run under the least failure whose run leaks or
    /// panics.
    Ends(Failures),
    /// The least set of attempts that makes the run leak or panic if they fail together, and this run. The number says how many attempts a
    /// set may have, from 1 to 8.
    Sets(u32),
    /// The least set of attempts, of any size, that makes the run leak or panic if they fail together, and this run. The number says how
    /// many states the search may meet, from 1 to 10,000,000.
    EverySet(u32),
}

/// What is to be done with the script.
#[derive(Debug, Drop)]
pub enum Task {
    /// One run under this rule.
    Run(Rule),
    /// The length of heap that the script needs, and which attempt each shorter heap refuses first.
    Size,
    /// How the run ends in a heap of every length, and the least length whose run leaks or panics.
    Lengths,
    /// A search among the failures whose numbers are in the part. The number of a pair or a set is the least of its attempts' numbers.
    Sweep(Search, Part),
    /// `Size`, and then a search among all failures.
    Check(Search),
}

/// A command: what is to be done, and with which file and options.
#[derive(Debug, Drop)]
pub struct Command {
    pub task: Task,
    /// The script's file; `None` if the script is read from standard input.
    pub file: Option<FileName>,
    /// The greatest number of steps of a run, from 1 to 1,000,000.
    pub budget: u32,
    /// The heap's minimum length and step, in bytes, in the ranges that `Shape` states, and whether cells that grow always move.
    pub shape: Shape,
    /// Whether the report is written as one JSON object, instead of as lines.
    pub json: bool,
    /// Whether no progress is shown on standard error while runs go on.
    pub quiet: bool,
    /// Whether the rows of the report's table, which are its lines that begin with `from`, are left out.
    pub brief: bool,
    /// The file to which a picture of the runs is written; `None` if no picture is wanted.
    pub picture: Option<FileName>,
    /// The file to which the explanations are written as a SARIF log; `None` if no log is wanted.
    pub sarif: Option<FileName>,
    /// How many of the run's first steps, and how many of its last steps, are followed, from 1 to 1,000,000; `None` if no steps are
    /// followed. If `around` is an attempt, this is how many steps before the attempt, and how many after it, are followed.
    pub follow: Option<u32>,
    /// The number of the attempt around which steps are followed, from 1 to 16,777,216. If it is `None`, the first and the last steps are
    /// followed.
    pub around: Option<u32>,
}

/// Why words are no command. If words have several faults, the fault that comes first in this order is returned.
#[derive(Debug, Drop, Error)]
pub enum CommandFault {
    /// `clap` refuses the words, or they ask for help or the version, or `clap` takes the words but the text of a set is no list. The text
    /// of the error is meant for the user.
    #[error("{0}")]
    Usage(clap::Error),
    /// `clap` takes the words, but they give options that don't go together. Only one of `--limit`, `--fail`, `--fail-from`, `--every` with
    /// a number, and `--set` may be given. Only one of `--every` without a number, `--persistent`, `--pairs`, `--failures` and `--sets` may
    /// be given. `--all` and `--ends` don't go together with each other, or with pairs or sets. This fault comes before `Also`.
    #[error("error: two of these options don't go together\n")]
    Both,
    /// `clap` takes the words, but they give `--also` without `--fail`, or with a value of `--fail` that is 0 or not less than the value of
    /// `--also`. This fault comes before `Shape`.
    #[error("error: give '--also' with '--fail', and a number greater than that of '--fail', which is at least 1\n")]
    Also,
    /// `clap` takes the words, but the heap's minimum length or step is no multiple of 16 bytes. This fault comes before
    /// `Range`.
    #[error("error: the values of '--min' and '--step' are multiples of 16\n")]
    Shape,
    /// `clap` takes the words, but the value of `--from` is greater than the value of `--to`, so that no number is to be tried.
    #[error("error: give '--from' a number that is not greater than that of '--to'\n")]
    Range,
    /// The workbench's own memory ran out, in its own code or in `clap`. This fault says nothing about the words.
    #[error("error: no memory\n")]
    NoMemory,
}

impl From<AllocError> for CommandFault {
    ghost from_gives = { λ _ fault. fault ≡ NoMemory };

    fn from(_error: AllocError) -> CommandFault {
        CommandFault::NoMemory
    }
}

impl From<clap::Error> for CommandFault {
    ghost from_gives = { λ error fault. fault ≡ fault_of_error error };

    fn from(error: clap::Error) -> CommandFault {
        if error.kind() == ErrorKind::OutOfMemory {
            CommandFault::NoMemory
        } else {
            CommandFault::Usage(error)
        }
    }
}
