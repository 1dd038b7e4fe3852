//! The options of all subcommands that say how the report is written, that no progress is shown, and what is written besides the report.

ghost use Rattle.std.specs.Prelude.{◌≡◌, IfOk, false};
ghost use Rattle.clap.specs.Words.{app_of, rule_of};
ghost use Rattle.clap.specs.declared.builder.command.Command.TheViews.{out-Command as fields_of};
ghost use Rattle.wb_command_line.specs.CommandLine.{file_options, json_flag, picture_option, quiet_flag};
ghost use Rattle.wb_command_line.specs.CommandLine.{report_options, sarif_option, with_rules};

use crate::command_line::parser::with_argument;
use clap::{Arg, ArgAction};
use std::alloc::{AllocError, Global};

/// The subcommand with the options that say how a report is written, that no progress is shown, and what is written besides the report.
pub(super) fn with_report_options<'a>(
    alloc: Global,
    line: clap::Command<'a>,
) -> Result<clap::Command<'a>, AllocError>
    ensures added { IfOk result
        (λ more. app_of more ≡ with_rules (app_of line.entry) report_options) }
    ensures own { IfOk result
        (λ more. (fields_of more).has_globals ≡ (fields_of line.entry).has_globals) }
{
    let line = with_argument(line, json(alloc))?;
    with_files(alloc, with_argument(line, quiet(alloc))?)
}

/// The subcommand with the options that name files for what is written besides the report.
fn with_files<'a>(alloc: Global, line: clap::Command<'a>) -> Result<clap::Command<'a>, AllocError>
    ensures added { IfOk result
        (λ more. app_of more ≡ with_rules (app_of line.entry) file_options) }
    ensures own { IfOk result
        (λ more. (fields_of more).has_globals ≡ (fields_of line.entry).has_globals) }
{
    with_argument(with_argument(line, picture(alloc))?, sarif(alloc))
}

/// The flag that asks for the report as JSON.
fn json<'a>(alloc: Global) -> Arg<'a>
    ensures rule { rule_of result ≡ json_flag }
    ensures own { result.global ≡ false }
{
    Arg::new(alloc, "json")
        .long("json")
        .action(ArgAction::SetTrue)
        .help("Writes the report as one JSON object")
}

/// The flag that asks for no progress.
fn quiet<'a>(alloc: Global) -> Arg<'a>
    ensures rule { rule_of result ≡ quiet_flag }
    ensures own { result.global ≡ false }
{
    Arg::new(alloc, "quiet")
        .long("quiet")
        .action(ArgAction::SetTrue)
        .help("Shows no progress on standard error")
}

/// The option that asks for a picture.
fn picture<'a>(alloc: Global) -> Arg<'a>
    ensures rule { rule_of result ≡ picture_option }
    ensures own { result.global ≡ false }
{
    Arg::new(alloc, "picture")
        .long("picture")
        .value_name("FILE")
        .help("Also writes a picture of the heap over time to FILE, as SVG")
}

/// The option that asks for a SARIF log.
fn sarif<'a>(alloc: Global) -> Arg<'a>
    ensures rule { rule_of result ≡ sarif_option }
    ensures own { result.global ≡ false }
{
    Arg::new(alloc, "sarif")
        .long("sarif")
        .value_name("FILE")
        .help("Also writes what is explained to FILE, as a SARIF log")
}
