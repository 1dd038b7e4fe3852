//! The options of `sweep` and `check` that ask to try sets of attempts: sets of up to K attempts (`--failures`), or of any size (`--sets`).

ghost use Rattle.std.specs.Prelude.{◌≡◌, ◌≤◌, IfOk, IfSome, codes, false};
ghost use Rattle.clap.specs.Words.{app_of, found_of, rows_of, rule_of};
ghost use Rattle.clap.specs.declared.builder.command.Command.TheViews.{out-Command as fields_of};
ghost use Rattle.wb_command_line.specs.CommandLine.{joined_level, set_options, sets_flag, with_option, with_rules};
ghost use Rattle.wb_command_line.specs.Passed.{RowsPass};
ghost use Rattle.wb_command_line.specs.Spelled.{flag_of, met_of, most_of, states_of};

use crate::command_line::number_help::NumberHelp;
use crate::command_line::parser::{NumberOption, with_argument, with_numbers};
use clap::{Arg, ArgAction, ArgMatches};
use std::alloc::{AllocError, Global};

/// The greatest value of `--failures`: how many attempts may be asked to fail together.
pub const MOST_TOGETHER: u32 = 8;

/// The default of `--states`: how many states a search over all sets may meet.
pub const DEFAULT_STATES: u32 = 100_000;

/// The least value of `--states`.
pub const LEAST_STATES: u32 = 1;

/// The greatest value of `--states`.
pub const MOST_STATES: u32 = 10_000_000;

/// The subcommand with the options that ask to try sets of attempts.
pub(super) fn with_sets<'a>(
    alloc: Global,
    line: clap::Command<'a>,
    help: &'a NumberHelp,
) -> Result<clap::Command<'a>, AllocError>
    ensures added { IfOk result
        (λ more. app_of more ≡ with_rules (app_of line.entry) set_options) }
    ensures own { IfOk result
        (λ more. (fields_of more).has_globals ≡ (fields_of line.entry).has_globals) }
{
    let line = with_number(
        alloc,
        line,
        NumberOption {
            name: "failures",
            value: "K",
            least: 1,
            most: MOST_TOGETHER,
            help: help.search.failures.as_str(),
        },
    )?;
    let line = with_argument(line, sets(alloc))?;
    with_number(
        alloc,
        line,
        NumberOption {
            name: "states",
            value: "N",
            least: LEAST_STATES,
            most: MOST_STATES,
            help: help.search.states.as_str(),
        },
    )
}

/// The subcommand with one more option.
fn with_number<'a>(
    alloc: Global,
    line: clap::Command<'a>,
    option: NumberOption<'a>,
) -> Result<clap::Command<'a>, AllocError>
    ensures added { IfOk result
        (λ more. app_of more ≡ with_option (app_of line.entry) option.entry) }
    ensures own { IfOk result
        (λ more. (fields_of more).has_globals ≡ (fields_of line.entry).has_globals) }
{
    with_numbers(alloc, line, &[option])
}

/// The flag that asks to try sets of any size.
fn sets<'a>(alloc: Global) -> Arg<'a>
    ensures rule { rule_of result ≡ sets_flag }
    ensures own { result.global ≡ false }
{
    Arg::new(alloc, "sets")
        .long("sets")
        .action(ArgAction::SetTrue)
        .help(
            "If no single failure leaks or panics, makes any number of attempts fail, and finds the least set that does",
        )
}

/// The value of `--failures`, which is the most attempts that fail together; `None` if the option isn't given.
pub(super) fn most_in(options: &ArgMatches) -> Option<u32>
    requires { RowsPass joined_level.rules (rows_of (found_of options.now)) }
    ensures is { result ≡ most_of (rows_of (found_of options.now)) }
    ensures range { IfSome result (λ most. (1 ≤ most) × (most ≤ MOST_TOGETHER)) }
{
    options.get_one("failures")
}

/// How many states the search over all sets may meet. Without `--sets` it is `None`, even if `--states` is given.
pub(super) fn states_in(options: &ArgMatches) -> Option<u32>
    requires { RowsPass joined_level.rules (rows_of (found_of options.now)) }
    ensures is { result ≡ states_of (rows_of (found_of options.now)) }
    ensures range { IfSome result (λ states. (1 ≤ states) × (states ≤ MOST_STATES)) }
{
    let states = met_in(options);
    if asks_for_all_in(options) {
        Some(states)
    } else {
        None
    }
}

/// Whether the options ask to try sets of any size.
fn asks_for_all_in(options: &ArgMatches) -> bool
    requires { RowsPass joined_level.rules (rows_of (found_of options.now)) }
    ensures { result ≡ flag_of (codes "sets") (rows_of (found_of options.now)) }
{
    options.get_flag("sets")
}

/// The value of `--states`, or its default.
fn met_in(options: &ArgMatches) -> u32
    requires { RowsPass joined_level.rules (rows_of (found_of options.now)) }
    ensures is { result ≡ met_of (rows_of (found_of options.now)) }
    ensures least { 1 ≤ result }
    ensures most { result ≤ MOST_STATES }
{
    options.get_one("states").unwrap_or(DEFAULT_STATES)
}
