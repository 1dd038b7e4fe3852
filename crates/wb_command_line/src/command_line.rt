//! How the words of a command line are read. This file doesn't open or run anything.
//!
//! `workbench run` takes `[--limit L | --fail N [--also J] | --every N | --fail-from N | --set LIST] [--follow] [--follow-steps N]
//! [--follow-around N]`. `sweep` and `check` take `--every`, `--persistent`, `--pairs`, `--all`, `--ends`, `--failures K`, `--sets` and
//! `--states N` instead, and `sweep` also takes `[--from I] [--to J]`. `size` and `lengths` take none of these options. `size`, `lengths`
//! and `check` take `--brief`. All five subcommands take `[--budget B] [--min M] [--step G] [--moving] [--json] [--quiet] [--picture FILE]
//! [--sarif FILE] [FILE]`.
ghost use Rattle.std.specs.Prelude.{◌≡◌, ◌≤◌, All, IfErr, IfOk, IsSome, IsTrue, List, Some, OnErr, OnOk, codes, false};
ghost use Rattle.std.specs.Prelude.{map, true};
ghost use Rattle.std.specs.Str.{IsUtf8};
ghost use Rattle.clap.specs.Words.{Text, first_of, found_of, rows_of, takes};
ghost use Rattle.wb_heap_model.specs.Space.{is_shape};
ghost use Rattle.wb_command_line.specs.Command.{has_number, is_answerable, is_filled, is_in_range, is_sixteenfold};
ghost use Rattle.wb_command_line.specs.CommandLine.{command_line, joined_level};
ghost use Rattle.wb_command_line.specs.Fault.{IsAfterUsage, IsFaultOf, IsFaultOfOptions, IsFaultOfTask};
ghost use Rattle.wb_command_line.specs.Passed.{RowsPass};
ghost use Rattle.wb_command_line.specs.Spelled.{IsMeantBy, IsSpelledBy, budget_of as spelled_budget, disorders, doubles};
ghost use Rattle.wb_command_line.specs.Spelled.{flag_of, gives_too_many, mislists, part_of as spelled_part};
ghost use Rattle.wb_command_line.specs.Spelled.{shape_of as spelled_shape, spell_no_list};
ghost use Rattle.wb_command_line.specs.Spelled.{task_of, trial_of as spelled_trial};
ghost use Rattle.wb_command_line.specs.Subcommands.{check_task, subcommand_named, sweep_task};
ghost use Rattle.wb_command_line.specs.WordByWord.{AreRead};

mod failures;
mod following;
mod long_help;
mod number_help;
mod parser;
mod report_options;
mod rules;
mod searches;
mod set_list;
mod sets;

use crate::command::{Command, CommandFault, Task};
use crate::command_line::following::{around_in, follow_in};
use crate::command_line::number_help::NumberHelp;
use crate::command_line::parser::parser;
use crate::command_line::rules::rule_in;
use crate::command_line::searches::search_in;
pub use crate::command_line::sets::MOST_STATES;
use crate::file_name::FileName;
use clap::ArgMatches;
use std::alloc::{AllocError, Global};
use std::convert::AsStr;
use wb_basics::limits::{CEILING, DEFAULT_BUDGET, DEFAULT_MINIMUM, DEFAULT_STEP, LARGEST_BUDGET};
use wb_heap_model::heap::Shape;
use wb_runs::part::Part;

/// The minimum length and the step of a heap are multiples of this, in bytes.
const GRANULE: u32 = 16;

/// Returns the command that the words spell. The first word is the program's name, and isn't looked at. Options that the words don't give
/// have their defaults, and all numbers are in their ranges.
///
/// If the words spell no command, the first of these errors that applies is returned. `Usage` applies if `clap` doesn't take the words, if
/// they ask for help or the version, or if the text of a set is no list. `Both` applies if options don't go together, as `CommandFault`
/// says. `Also` applies if the words give `--also`, but no lesser `--fail` of at least 1. `Shape` applies if the minimum length or the step
/// is no multiple of 16, and `Range` if the part ends before it begins. `NoMemory` is returned whenever the workbench's own memory ran out,
/// in its own code or in `clap`, and says nothing about the words.
pub fn command<'a, S: AsStr>(alloc: Global, words: &'a [S]) -> Result<Command, CommandFault>
    ensures spelled { IfOk result (IsSpelledBy (map S.text words.now)) }
    ensures numbers { IfOk result (λ command. IsTrue (is_answerable command)) }
    ensures taken { takes command_line (map S.text words.now) ≡ true
        → spell_no_list (map S.text words.now) ≡ false → IfErr result IsAfterUsage }
    ensures fault { IfErr result (IsFaultOf (map S.text words.now)) }
{
    let help = NumberHelp::new(alloc)?;
    let matches = parser(alloc, &help)?.try_get_matches_from(words)?;

    // Words that pass name a subcommand, and `help` never passes.
    let (name, options) = matches.subcommand().unwrap();
    command_in(alloc, name, options)
}

/// Returns the command of a subcommand with these options. The errors are the errors of `command`; `Usage` is returned only if the text of
/// a set is no list.
fn command_in(alloc: Global, name: &str, options: &ArgMatches) -> Result<Command, CommandFault>
    requires named { IsSome (subcommand_named name.now) }
    requires passed { RowsPass joined_level.rules (rows_of (found_of options.now)) }
    ensures meant { IfOk result (IsMeantBy name.now (rows_of (found_of options.now))) }
    ensures numbers { IfOk result (λ command. IsTrue (is_answerable command)) }
    ensures fault { IfErr result (IsFaultOfOptions name.now (rows_of (found_of options.now))) }
{
    let task = task_in(alloc, name, options)?;
    let shape = shape_in(options)?;
    check_part_of(&task)?;
    Ok(Command {
        task,
        file: file_in(alloc, options)?,
        budget: budget_in(options),
        shape,
        json: json_in(options),
        quiet: quiet_in(options),
        brief: brief_in(options),
        picture: picture_in(alloc, options)?,
        sarif: sarif_in(alloc, options)?,
        follow: follow_in(options),
        around: around_in(options),
    })
}

/// Returns what a subcommand asks for. The errors are `Usage`, `Both`, `Also` and `NoMemory`.
#[tactic(auto, using(crate::proofs::CommandLineLemmas::last_doubled, crate::proofs::CommandLineLemmas::last_task))]
fn task_in(alloc: Global, name: &str, options: &ArgMatches) -> Result<Task, CommandFault>
    requires named { IsSome (subcommand_named name.now) }
    requires passed { RowsPass joined_level.rules (rows_of (found_of options.now)) }
    ensures ok { IfOk result
        (λ task. task_of name.now (rows_of (found_of options.now)) ≡ Some task) }
    ensures range { IfOk result (λ task. IsTrue (is_in_range task)) }
    ensures list { OnOk result (mislists name.now (rows_of (found_of options.now)) ≡ false) }
    ensures alone { OnOk result (doubles name.now (rows_of (found_of options.now)) ≡ false) }
    ensures ordered { OnOk result (disorders name.now (rows_of (found_of options.now)) ≡ false) }
    ensures fault { IfErr result (IsFaultOfTask name.now (rows_of (found_of options.now))) }
{
    match name {
        "run" => Ok(Task::Run(rule_in(alloc, options)?)),
        "size" => Ok(Task::Size),
        "lengths" => Ok(Task::Lengths),
        "sweep" => Ok(sweep_in(options)?),
        // The only other subcommand is `check`.
        _ => Ok(check_in(options)?),
    }
}

/// Checks that the part of a sweep has at least one number; the only error is `Range`. Other tasks name no part, and pass.
fn check_part_of(task: &Task) -> Result<(), CommandFault>
    ensures ok { OnOk result (IsTrue (is_filled task.now)) }
    ensures fault { IfErr result (λ fault. fault ≡ CommandFault.Range) }
    ensures empty { OnErr result (is_filled task.now ≡ false) }
{
    match task {
        Task::Sweep(_, part) => check_part(*part),
        Task::Run(_) | Task::Size | Task::Lengths | Task::Check(_) => Ok(()),
    }
}

/// Checks that a part has at least one number. The only error is `Range`.
fn check_part(part: Part) -> Result<(), CommandFault>
    ensures ok { OnOk result (IsTrue (has_number part)) }
    ensures fault { IfErr result (λ fault. fault ≡ CommandFault.Range) }
    ensures empty { OnErr result (has_number part ≡ false) }
{
    if part.from <= part.to {
        Ok(())
    } else {
        Err(CommandFault::Range)
    }
}

/// Returns what the options of `sweep` ask for. The only error is `Both`.
fn sweep_in(options: &ArgMatches) -> Result<Task, CommandFault>
    requires { RowsPass joined_level.rules (rows_of (found_of options.now)) }
    ensures ok { IfOk result
        (λ task. task ≡ sweep_task (spelled_trial (rows_of (found_of options.now)))) }
    ensures range { IfOk result (λ task. IsTrue (is_in_range task)) }
    ensures alone { OnOk result (gives_too_many (rows_of (found_of options.now)) ≡ false) }
    ensures fault { IfErr result (λ fault. fault ≡ CommandFault.Both) }
    ensures both { OnErr result (gives_too_many (rows_of (found_of options.now)) ≡ true) }
{
    let search = search_in(options)?;
    Ok(Task::Sweep(search, part_in(options)))
}

/// Returns what the options of `check` ask for. The only error is `Both`.
fn check_in(options: &ArgMatches) -> Result<Task, CommandFault>
    requires { RowsPass joined_level.rules (rows_of (found_of options.now)) }
    ensures ok { IfOk result
        (λ task. task ≡ check_task (spelled_trial (rows_of (found_of options.now)))) }
    ensures range { IfOk result (λ task. IsTrue (is_in_range task)) }
    ensures alone { OnOk result (gives_too_many (rows_of (found_of options.now)) ≡ false) }
    ensures fault { IfErr result (λ fault. fault ≡ CommandFault.Both) }
    ensures both { OnErr result (gives_too_many (rows_of (found_of options.now)) ≡ true) }
{
    Ok(Task::Check(search_in(options)?))
}

/// The numbers that the options ask to try.
fn part_in(options: &ArgMatches) -> Part
    requires { RowsPass joined_level.rules (rows_of (found_of options.now)) }
    ensures is { result ≡ spelled_part (rows_of (found_of options.now)) }
    ensures most { result.to ≤ CEILING }
{
    let from = options.get_one("from").unwrap_or(Part::WHOLE.from);
    let to = options.get_one("to").unwrap_or(Part::WHOLE.to);
    Part { from, to }
}

/// The budget that the options spell: how many steps a run may take.
fn budget_in(options: &ArgMatches) -> u32
    requires { RowsPass joined_level.rules (rows_of (found_of options.now)) }
    ensures is { result ≡ spelled_budget (rows_of (found_of options.now)) }
    ensures least { 1 ≤ result }
    ensures most { result ≤ LARGEST_BUDGET }
{
    options.get_one("budget").unwrap_or(DEFAULT_BUDGET)
}

/// Returns the heap's shape that the options spell. The only error is `Shape`.
fn shape_in(options: &ArgMatches) -> Result<Shape, CommandFault>
    requires { RowsPass joined_level.rules (rows_of (found_of options.now)) }
    ensures ok { IfOk result (λ shape. shape ≡ spelled_shape (rows_of (found_of options.now))) }
    ensures range { IfOk result (λ shape. IsTrue (is_shape shape)) }
    ensures fault { IfErr result (λ fault. fault ≡ CommandFault.Shape) }
    ensures misshapen { IfErr result
        (λ _. is_sixteenfold (spelled_shape (rows_of (found_of options.now))) ≡ false) }
{
    let min = options.get_one("min").unwrap_or(DEFAULT_MINIMUM);
    let step = options.get_one("step").unwrap_or(DEFAULT_STEP);
    let moving = moving_in(options);
    if min % GRANULE == 0 && step % GRANULE == 0 {
        Ok(Shape { min, step, moving })
    } else {
        Err(CommandFault::Shape)
    }
}

/// Whether the options ask for a heap in which each cell that grows moves.
fn moving_in(options: &ArgMatches) -> bool
    requires { RowsPass joined_level.rules (rows_of (found_of options.now)) }
    ensures { result ≡ flag_of (codes "moving") (rows_of (found_of options.now)) }
{
    options.get_flag("moving")
}

/// Whether the options ask for the report as JSON.
fn json_in(options: &ArgMatches) -> bool
    requires { RowsPass joined_level.rules (rows_of (found_of options.now)) }
    ensures { result ≡ flag_of (codes "json") (rows_of (found_of options.now)) }
{
    options.get_flag("json")
}

/// Whether the options ask for no progress.
fn quiet_in(options: &ArgMatches) -> bool
    requires { RowsPass joined_level.rules (rows_of (found_of options.now)) }
    ensures { result ≡ flag_of (codes "quiet") (rows_of (found_of options.now)) }
{
    options.get_flag("quiet")
}

/// Whether the options ask for the report without the rows of its table.
fn brief_in(options: &ArgMatches) -> bool
    requires { RowsPass joined_level.rules (rows_of (found_of options.now)) }
    ensures { result ≡ flag_of (codes "brief") (rows_of (found_of options.now)) }
{
    options.get_flag("brief")
}

/// Returns the script's file; `None` if the options name no file. The only error is that memory ran out.
fn file_in(alloc: Global, options: &ArgMatches) -> Result<Option<FileName>, AllocError>
    ensures { IfOk result
        (λ file. file ≡ first_of (codes "file") (rows_of (found_of options.now))) }
{
    match options.get_str("file") {
        Some(name) => Ok(Some(FileName::copy_of(alloc, name)?)),
        None => Ok(None),
    }
}

/// Returns the file for a picture; `None` if the options name no such file. The only error is that memory ran out.
fn picture_in(alloc: Global, options: &ArgMatches) -> Result<Option<FileName>, AllocError>
    ensures { IfOk result
        (λ picture. picture ≡ first_of (codes "picture") (rows_of (found_of options.now))) }
{
    match options.get_str("picture") {
        Some(name) => Ok(Some(FileName::copy_of(alloc, name)?)),
        None => Ok(None),
    }
}

/// Returns the file for a SARIF log; `None` if the options name no such file. The only error is that memory ran out.
fn sarif_in(alloc: Global, options: &ArgMatches) -> Result<Option<FileName>, AllocError>
    ensures { IfOk result
        (λ sarif. sarif ≡ first_of (codes "sarif") (rows_of (found_of options.now))) }
{
    match options.get_str("sarif") {
        Some(name) => Ok(Some(FileName::copy_of(alloc, name)?)),
        None => Ok(None),
    }
}

/// Law: which words the command line takes, and what they spell, word by word, if no word is an option of the subcommand. After the names
/// of the program and of a subcommand, there is at most one FILE, and at most one `--`, before or after FILE. FILE is `-` or begins with no
/// hyphen, but after `--` it may be any word. An option of another subcommand counts like any word that begins with a hyphen. `sweep` and
/// `check` then try the failure of each attempt alone.
pub fn words_are_read()
    ensures { (words : List Text) → All IsUtf8 words → AreRead words }
{}
