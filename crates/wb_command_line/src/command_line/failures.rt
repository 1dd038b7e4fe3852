//! The options of `sweep` and `check` that say which failures are tried, and whether the report lists all that is found or names only the
//! least failure. The options that ask for sets of attempts are in `sets`.

ghost use Rattle.std.specs.Prelude.{◌≡◌, IfOk, false};
ghost use Rattle.clap.specs.Words.{app_of, rule_of};
ghost use Rattle.clap.specs.declared.builder.command.Command.TheViews.{out-Command as fields_of};
ghost use Rattle.wb_command_line.specs.CommandLine.{all_flag, ends_flag, failure_options, pairs_flag, persistent_flag};
ghost use Rattle.wb_command_line.specs.CommandLine.{rates_flag, with_rules};

use crate::command_line::number_help::NumberHelp;
use crate::command_line::parser::with_argument;
use crate::command_line::sets::with_sets;
use clap::{Arg, ArgAction};
use std::alloc::{AllocError, Global};

/// The subcommand with the options that say which failures are tried, including the options of `sets`, and whether the report lists what is
/// found.
pub(super) fn with_failures<'a>(
    alloc: Global,
    line: clap::Command<'a>,
    help: &'a NumberHelp,
) -> Result<clap::Command<'a>, AllocError>
    ensures added { IfOk result
        (λ more. app_of more ≡ with_rules (app_of line.entry) failure_options) }
    ensures own { IfOk result
        (λ more. (fields_of more).has_globals ≡ (fields_of line.entry).has_globals) }
{
    let line = with_argument(line, rates(alloc))?;
    let line = with_argument(line, persistent(alloc))?;
    let line = with_argument(line, pairs(alloc))?;
    let line = with_argument(line, all(alloc))?;
    let line = with_argument(line, ends(alloc))?;
    with_sets(alloc, line, help)
}

/// The flag `--every`, which asks to try rates. The flag's id isn't `every`, because an option of `run` that takes a number has this id.
fn rates<'a>(alloc: Global) -> Arg<'a>
    ensures rule { rule_of result ≡ rates_flag }
    ensures own { result.global ≡ false }
{
    Arg::new(alloc, "rates")
        .long("every")
        .action(ArgAction::SetTrue)
        .help(
            "Makes every n-th attempt fail, and finds the least n for which the script leaks or panics",
        )
}

/// The flag that asks to try failures that persist: from one attempt on, all attempts fail.
fn persistent<'a>(alloc: Global) -> Arg<'a>
    ensures rule { rule_of result ≡ persistent_flag }
    ensures own { result.global ≡ false }
{
    Arg::new(alloc, "persistent")
        .long("persistent")
        .action(ArgAction::SetTrue)
        .help(
            "Makes all attempts fail from one on, and finds the first for which the script leaks or panics",
        )
}

/// The flag that asks to try pairs of attempts.
fn pairs<'a>(alloc: Global) -> Arg<'a>
    ensures rule { rule_of result ≡ pairs_flag }
    ensures own { result.global ≡ false }
{
    Arg::new(alloc, "pairs")
        .long("pairs")
        .action(ArgAction::SetTrue)
        .help(
            "If no single failure leaks or panics, makes two attempts fail, and finds the least pair that does",
        )
}

/// The flag that asks for a list of all numbers whose run leaks, panics or is cut.
fn all<'a>(alloc: Global) -> Arg<'a>
    ensures rule { rule_of result ≡ all_flag }
    ensures own { result.global ≡ false }
{
    Arg::new(alloc, "all")
        .long("all")
        .action(ArgAction::SetTrue)
        .help("Tells of every number whose run leaks, panics or is cut, and not of the least alone")
}

/// The flag that asks for a list of all numbers, with how the run of each number ends.
fn ends<'a>(alloc: Global) -> Arg<'a>
    ensures rule { rule_of result ≡ ends_flag }
    ensures own { result.global ≡ false }
{
    Arg::new(alloc, "ends")
        .long("ends")
        .action(ArgAction::SetTrue)
        .help("Tells of every number how its run ends, also where it is fine")
}
