//! The options of `run` that ask for the run's steps: `--follow`, `--follow-steps` and `--follow-around`. Also what these options spell.

ghost use Rattle.std.specs.Prelude.{◌≡◌, ◌≤◌, IfOk, IfSome, codes, false};
ghost use Rattle.clap.specs.Words.{app_of, found_of, rows_of, rule_of};
ghost use Rattle.clap.specs.declared.builder.command.Command.TheViews.{out-Command as fields_of};
ghost use Rattle.wb_command_line.specs.CommandLine.{follow_flag, following_options, joined_level, with_rules};
ghost use Rattle.wb_command_line.specs.Passed.{RowsPass};
ghost use Rattle.wb_command_line.specs.Spelled.{around_of, flag_of, follow_of, followed_of};

use crate::command_line::number_help::NumberHelp;
use crate::command_line::parser::{NumberOption, with_argument, with_numbers};
use clap::{Arg, ArgAction, ArgMatches};
use std::alloc::{AllocError, Global};
use wb_basics::limits::CEILING;

/// The default of `--follow-steps`: how many of the first steps, and how many of the last steps, are followed. With `--follow-around`, it
/// is how many steps before an attempt, and how many after it, are followed.
pub const DEFAULT_FOLLOWED: u32 = 1000;

/// The greatest value of `--follow-steps`.
pub const MOST_FOLLOWED: u32 = 1_000_000;

/// The number of the first attempt.
const FIRST_ATTEMPT: u32 = 1;

/// The subcommand with the options that ask for the steps of its run.
pub(super) fn with_following<'a>(
    alloc: Global,
    line: clap::Command<'a>,
    help: &'a NumberHelp,
) -> Result<clap::Command<'a>, AllocError>
    ensures added { IfOk result
        (λ more. app_of more ≡ with_rules (app_of line.entry) following_options) }
    ensures own { IfOk result
        (λ more. (fields_of more).has_globals ≡ (fields_of line.entry).has_globals) }
{
    let line = with_argument(line, follow(alloc))?;
    with_numbers(
        alloc,
        line,
        &[
            NumberOption {
                name: "follow-steps",
                value: "N",
                least: 1,
                most: MOST_FOLLOWED,
                help: help.follow.steps.as_str(),
            },
            NumberOption {
                name: "follow-around",
                value: "N",
                least: FIRST_ATTEMPT,
                most: CEILING,
                help: help.follow.around.as_str(),
            },
        ],
    )
}

/// The flag that asks for the steps of the run.
fn follow<'a>(alloc: Global) -> Arg<'a>
    ensures rule { rule_of result ≡ follow_flag }
    ensures own { result.global ≡ false }
{
    Arg::new(alloc, "follow")
        .long("follow")
        .action(ArgAction::SetTrue)
        .help("Writes each step of the run to standard error, with what it does")
}

/// How many of the run's first steps, and how many of its last steps, the options ask for. With `--follow-around`, this is how many steps
/// before the attempt, and how many after it. Without `--follow` and `--follow-around` it is `None`, even if `--follow-steps` is given.
pub(super) fn follow_in(options: &ArgMatches) -> Option<u32>
    requires { RowsPass joined_level.rules (rows_of (found_of options.now)) }
    ensures is { result ≡ follow_of (rows_of (found_of options.now)) }
    ensures range { IfSome result (λ steps. (1 ≤ steps) × (steps ≤ MOST_FOLLOWED)) }
{
    let steps = followed_in(options);
    let around = around_in(options);
    if follows_in(options) || around.is_some() {
        Some(steps)
    } else {
        None
    }
}

/// The number of the attempt around which the options ask for steps; `None` if the options name no attempt.
pub(super) fn around_in(options: &ArgMatches) -> Option<u32>
    requires { RowsPass joined_level.rules (rows_of (found_of options.now)) }
    ensures is { result ≡ around_of (rows_of (found_of options.now)) }
    ensures range { IfSome result (λ number. (1 ≤ number) × (number ≤ CEILING)) }
{
    options.get_one("follow-around")
}

/// Whether the options ask for the steps of the run.
fn follows_in(options: &ArgMatches) -> bool
    requires { RowsPass joined_level.rules (rows_of (found_of options.now)) }
    ensures { result ≡ flag_of (codes "follow") (rows_of (found_of options.now)) }
{
    options.get_flag("follow")
}

/// The value of `--follow-steps`, or its default.
fn followed_in(options: &ArgMatches) -> u32
    requires { RowsPass joined_level.rules (rows_of (found_of options.now)) }
    ensures is { result ≡ followed_of (rows_of (found_of options.now)) }
    ensures least { 1 ≤ result }
    ensures most { result ≤ MOST_FOLLOWED }
{
    options.get_one("follow-steps").unwrap_or(DEFAULT_FOLLOWED)
}
