//! The command line as `clap` is to read it: the subcommands, and the options of each.

ghost use Rattle.std.specs.Prelude.{◌≡◌, IfOk, false, fold};
ghost use Rattle.clap.specs.Words.{app_of, rule_of, with_rule, with_subcommand};
ghost use Rattle.clap.specs.declared.builder.command.Command.TheViews.{out-Command as fields_of};
ghost use Rattle.wb_command_line.specs.CommandLine.{brief_flag, command_line, file_argument, line_of};
ghost use Rattle.wb_command_line.specs.CommandLine.{moving_flag, number_option, option_rule, own_options, part_options};
ghost use Rattle.wb_command_line.specs.CommandLine.{rule_options};
ghost use Rattle.wb_command_line.specs.CommandLine.{shared_options, with_level, with_option, with_rules};

use crate::command_line::failures::with_failures;
use crate::command_line::following::with_following;
use crate::command_line::long_help::{BEGIN, long_about};
use crate::command_line::number_help::{NumberHelp, between};
use crate::command_line::report_options::with_report_options;
use crate::command_line::set_list::set_argument;
use clap::{Arg, ArgAction};
use std::alloc::{AllocError, Global};
use wb_basics::limits::{CEILING, LARGEST_BUDGET, LARGEST_MINIMUM, LARGEST_STEP, SMALLEST_STEP};

/// Which options a subcommand has, besides the options that all subcommands have. Subcommands with `Failures` or `Neither` report a table,
/// and so they have `--brief`.
#[derive(Clone, Copy)]
enum Takes {
    /// The options that give a rule, and the options that ask for the steps of the run. A rule is a limit, a rate, a set, or the number of
    /// the attempt that fails or from which on all attempts fail. If only one attempt fails, the number of a second one may be added.
    Rule,
    /// The options that ask to try more than single attempts: rates, failures that persist, pairs or sets of attempts; and the flags that
    /// ask for a list.
    Failures,
    /// The options of `Failures`, and the options for the first and the last number that is tried.
    Part,
    Neither,
}

/// A subcommand, and what its help says about it.
#[derive(Clone, Copy)]
struct Level {
    name: &'static str,
    about: &'static str,
    takes: Takes,
}

/// An option that takes a number, and what the help says about it.
#[derive(Clone, Copy)]
pub(super) struct NumberOption<'a> {
    pub(super) name: &'a str,
    pub(super) value: &'a str,
    pub(super) least: u32,
    pub(super) most: u32,
    pub(super) help: &'a str,
}

impl<'a> NumberOption<'a> {
    /// An option that takes a number from 0 to `CEILING`.
    fn up_to_ceiling(name: &'a str, value: &'a str, help: &'a str) -> NumberOption<'a>
        ensures { option_rule result ≡ number_option name.now 0 CEILING }
    {
        NumberOption {
            name,
            value,
            least: 0,
            most: CEILING,
            help,
        }
    }
}

/// The version of the program.
const VERSION: &str = "0.5.0";

/// The command line as `clap` is to read it.
pub(super) fn parser<'a>(
    alloc: Global,
    help: &'a NumberHelp,
) -> Result<clap::Command<'a>, AllocError>
    ensures { IfOk result (λ line. app_of line ≡ command_line) }
{
    let line = clap::Command::new(alloc, "workbench")
        .about("Runs scripts against a simulated heap whose allocations may fail")
        .long_about(BEGIN)
        .version(VERSION)
        .subcommand_required(true);
    with_levels(
        alloc,
        line,
        &[
            Level {
                name: "run",
                about: "Runs a script once and reports",
                takes: Takes::Rule,
            },
            Level {
                name: "size",
                about: "Finds how long the heap must be, and what shorter heaps refuse",
                takes: Takes::Neither,
            },
            Level {
                name: "lengths",
                about: "Finds how the run ends in a heap of every length",
                takes: Takes::Neither,
            },
            Level {
                name: "sweep",
                about: "Finds the first attempt whose failure leaks or panics",
                takes: Takes::Part,
            },
            Level {
                name: "check",
                about: "Runs size, then sweep",
                takes: Takes::Failures,
            },
        ],
        help,
    )
}

/// The command line with further subcommands.
fn with_levels<'a>(
    alloc: Global,
    line: clap::Command<'a>,
    levels: &[Level],
    help: &'a NumberHelp,
) -> Result<clap::Command<'a>, AllocError>
    ensures { IfOk result (λ more. app_of more ≡ fold with_level (app_of line.entry) levels.now) }
{
    let mut line = line;
    for level in levels {
        line = with_level(line, subcommand(alloc, level, help)?)?;
    }
    Ok(line)
}

/// A subcommand that takes a script's file and options.
fn subcommand<'a>(
    alloc: Global,
    level: &Level,
    help: &'a NumberHelp,
) -> Result<clap::Command<'a>, AllocError>
    ensures words { IfOk result (λ line. app_of line ≡ line_of level.now) }
    ensures own { IfOk result (λ line. (fields_of line).has_globals ≡ false) }
{
    let line = clap::Command::new(alloc, level.name)
        .about(level.about)
        .long_about(long_about(level.name));
    let line = with_argument(line, file(alloc))?;
    let line = with_own_options(alloc, line, level.takes, help)?;
    with_shared_options(alloc, line, help)
}

/// The subcommand with the options of its own, besides the options that all subcommands have.
fn with_own_options<'a>(
    alloc: Global,
    line: clap::Command<'a>,
    takes: Takes,
    help: &'a NumberHelp,
) -> Result<clap::Command<'a>, AllocError>
    ensures added { IfOk result
        (λ more. app_of more ≡ with_rules (app_of line.entry) (own_options takes)) }
    ensures own { IfOk result
        (λ more. (fields_of more).has_globals ≡ (fields_of line.entry).has_globals) }
{
    match takes {
        Takes::Rule => with_following(alloc, with_rule_options(alloc, line, help)?, help),
        Takes::Failures => with_argument(with_failures(alloc, line, help)?, brief(alloc)),
        Takes::Part => with_part_options(alloc, with_failures(alloc, line, help)?, help),
        Takes::Neither => with_argument(line, brief(alloc)),
    }
}

/// The subcommand with the options that give a rule.
fn with_rule_options<'a>(
    alloc: Global,
    line: clap::Command<'a>,
    help: &'a NumberHelp,
) -> Result<clap::Command<'a>, AllocError>
    ensures added { IfOk result
        (λ more. app_of more ≡ with_rules (app_of line.entry) rule_options) }
    ensures own { IfOk result
        (λ more. (fields_of more).has_globals ≡ (fields_of line.entry).has_globals) }
{
    let line = with_numbers(
        alloc,
        line,
        &[
            NumberOption::up_to_ceiling("limit", "L", help.rules.limit.as_str()),
            NumberOption::up_to_ceiling("fail", "N", help.rules.fail.as_str()),
            NumberOption::up_to_ceiling("also", "J", help.rules.also.as_str()),
            NumberOption::up_to_ceiling("every", "N", help.rules.every.as_str()),
            NumberOption::up_to_ceiling("fail-from", "N", help.rules.fail_from.as_str()),
        ],
    )?;
    with_argument(line, set_argument(alloc, help.rules.set.as_str()))
}

/// The subcommand with the options that say which numbers are tried.
fn with_part_options<'a>(
    alloc: Global,
    line: clap::Command<'a>,
    help: &'a NumberHelp,
) -> Result<clap::Command<'a>, AllocError>
    ensures added { IfOk result
        (λ more. app_of more ≡ with_rules (app_of line.entry) part_options) }
    ensures own { IfOk result
        (λ more. (fields_of more).has_globals ≡ (fields_of line.entry).has_globals) }
{
    with_numbers(
        alloc,
        line,
        &[
            NumberOption::up_to_ceiling("from", "I", help.search.from.as_str()),
            NumberOption::up_to_ceiling("to", "J", help.search.to.as_str()),
        ],
    )
}

/// The subcommand with the options that all subcommands have.
fn with_shared_options<'a>(
    alloc: Global,
    line: clap::Command<'a>,
    help: &'a NumberHelp,
) -> Result<clap::Command<'a>, AllocError>
    ensures added { IfOk result
        (λ more. app_of more ≡ with_rules (app_of line.entry) shared_options) }
    ensures own { IfOk result
        (λ more. (fields_of more).has_globals ≡ (fields_of line.entry).has_globals) }
{
    let line = with_numbers(
        alloc,
        line,
        &[
            NumberOption {
                name: "budget",
                value: "B",
                least: 1,
                most: LARGEST_BUDGET,
                help: help.bounds.budget.as_str(),
            },
            NumberOption {
                name: "min",
                value: "M",
                least: 0,
                most: LARGEST_MINIMUM,
                help: help.bounds.min.as_str(),
            },
            NumberOption {
                name: "step",
                value: "G",
                least: SMALLEST_STEP,
                most: LARGEST_STEP,
                help: help.bounds.step.as_str(),
            },
        ],
    )?;
    with_report_options(alloc, with_argument(line, moving(alloc))?)
}

/// The subcommand with more options that take numbers.
pub(super) fn with_numbers<'a>(
    alloc: Global,
    line: clap::Command<'a>,
    options: &[NumberOption<'a>],
) -> Result<clap::Command<'a>, AllocError>
    ensures added { IfOk result
        (λ more. app_of more ≡ fold with_option (app_of line.entry) options.now) }
    ensures own { IfOk result
        (λ more. (fields_of more).has_globals ≡ (fields_of line.entry).has_globals) }
{
    let mut line = line;
    for option in options {
        line = with_argument(line, number(alloc, option))?;
    }
    Ok(line)
}

/// The command line with one more subcommand.
fn with_level<'a>(
    line: clap::Command<'a>,
    level: clap::Command<'a>,
) -> Result<clap::Command<'a>, AllocError>
    requires { (fields_of level).has_globals ≡ false }
    ensures { IfOk result
        (λ more. app_of more ≡ with_subcommand (app_of line.entry) (app_of level.entry).top) }
{
    line.subcommand(level)
}

/// The script's file, which may be left out.
fn file<'a>(alloc: Global) -> Arg<'a>
    ensures rule { rule_of result ≡ file_argument }
    ensures own { result.global ≡ false }
{
    Arg::new(alloc, "file")
        .value_name("FILE")
        .help("Script file [default: standard input]")
}

/// The flag that asks for a heap in which each cell that grows moves.
fn moving<'a>(alloc: Global) -> Arg<'a>
    ensures rule { rule_of result ≡ moving_flag }
    ensures own { result.global ≡ false }
{
    Arg::new(alloc, "moving")
        .long("moving")
        .action(ArgAction::SetTrue)
        .help("Moves each cell that grows, even where the bytes after it are free")
}

/// The flag that asks for the report without the rows of its table.
fn brief<'a>(alloc: Global) -> Arg<'a>
    ensures rule { rule_of result ≡ brief_flag }
    ensures own { result.global ≡ false }
{
    Arg::new(alloc, "brief")
        .long("brief")
        .action(ArgAction::SetTrue)
        .help("Leaves out the lines that begin with `from`")
}

/// The command with one more argument.
pub(super) fn with_argument<'a>(
    line: clap::Command<'a>,
    argument: Arg<'a>,
) -> Result<clap::Command<'a>, AllocError>
    requires { argument.global ≡ false }
    ensures added { IfOk result
        (λ more. app_of more ≡ with_rule (app_of line.entry) (rule_of argument.entry)) }
    ensures own { IfOk result
        (λ more. (fields_of more).has_globals ≡ (fields_of line.entry).has_globals) }
{
    line.arg(argument)
}

/// An option that takes a decimal number in a range.
fn number<'a>(alloc: Global, option: &NumberOption<'a>) -> Arg<'a>
    ensures rule { rule_of result ≡ option_rule option.now }
    ensures own { result.global ≡ false }
{
    Arg::new(alloc, option.name)
        .long(option.name)
        .value_name(option.value)
        .value_parser(between(option.least, option.most))
        .help(option.help)
}
