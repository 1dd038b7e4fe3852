//! The rule that the options of `run` spell.

ghost use Rattle.std.specs.Prelude.{◌≡◌, ◌≢◌, ◌≤◌, IfErr, IfOk, IfSome, IsTrue, None, OnErr, OnOk, false, true};
ghost use Rattle.clap.specs.Words.{found_of, rows_of};
ghost use Rattle.wb_command_line.specs.Command.{is_in_range};
ghost use Rattle.wb_command_line.specs.CommandLine.{joined_level};
ghost use Rattle.wb_command_line.specs.Fault.{IsFaultOfRule};
ghost use Rattle.wb_command_line.specs.Passed.{RowsPass};
ghost use Rattle.wb_command_line.specs.Spelled.{IsPairOf, comes_before, first_rule_of, gives_disorder, gives_no_list};
ghost use Rattle.wb_command_line.specs.Spelled.{are_several, gives_several, gives_several_numbers, numbered_rule_of, rule_by};
ghost use Rattle.wb_command_line.specs.Spelled.{rule_of as spelled_rule};

use crate::command::{CommandFault, Task};
use crate::command_line::set_list::set_in;
use clap::ArgMatches;
use std::alloc::Global;
use wb_basics::limits::CEILING;
use wb_heap_model::heap::{Numbers, Rule};

/// Returns the rule that the options of `run` spell. The errors are `Usage`, `Both`, `Also` and `NoMemory`.
pub(super) fn rule_in(alloc: Global, options: &ArgMatches) -> Result<Rule, CommandFault>
    requires { RowsPass joined_level.rules (rows_of (found_of options.now)) }
    ensures ok { IfOk result (λ rule. rule ≡ spelled_rule (rows_of (found_of options.now))) }
    ensures range { IfOk result (λ rule. IsTrue (is_in_range (Task.Run rule))) }
    ensures list { OnOk result (gives_no_list (rows_of (found_of options.now)) ≡ false) }
    ensures alone { OnOk result (gives_several (rows_of (found_of options.now)) ≡ false) }
    ensures ordered { OnOk result (gives_disorder (rows_of (found_of options.now)) ≡ false) }
    ensures fault { IfErr result (IsFaultOfRule (rows_of (found_of options.now))) }
{
    let first = first_rule_in(alloc, options)?;
    match options.get_one::<u32>("also") {
        None => Ok(first),
        Some(second) => with_second(first, second),
    }
}

/// Returns the rule that the options spell if `--also` is ignored. The errors are `Usage`, `Both` and `NoMemory`.
fn first_rule_in(alloc: Global, options: &ArgMatches) -> Result<Rule, CommandFault>
    requires { RowsPass joined_level.rules (rows_of (found_of options.now)) }
    ensures ok { IfOk result (λ rule. rule ≡ first_rule_of (rows_of (found_of options.now))) }
    ensures range { IfOk result (λ rule. IsTrue (is_in_range (Task.Run rule))) }
    ensures list { OnOk result (gives_no_list (rows_of (found_of options.now)) ≡ false) }
    ensures alone { OnOk result (gives_several (rows_of (found_of options.now)) ≡ false) }
    ensures fault { IfErr result (IsFaultOfRule (rows_of (found_of options.now))) }
{
    let set = set_in(alloc, options)?;
    let numbered = numbered_rule_in(options)?;
    match set {
        None => Ok(numbered),
        Some(numbers) => with_set(numbered, numbers),
    }
}

/// Returns the rule under which the attempts of a set fail. The error is `Both` if the other options give a rule too.
fn with_set(other: Rule, numbers: Numbers) -> Result<Rule, CommandFault>
    ensures ok { IfOk result (λ rule. rule ≡ Rule.Set numbers) }
    ensures alone { OnOk result (other ≡ Rule.Unlimited) }
    ensures fault { IfErr result (λ fault. fault ≡ CommandFault.Both) }
    ensures both { OnErr result (other ≢ Rule.Unlimited) }
{
    match other {
        Rule::Unlimited => Ok(Rule::Set(numbers)),
        _ => Err(CommandFault::Both),
    }
}

/// Returns the rule that the options spell if `--also` and `--set` are ignored. The only error is `Both`.
fn numbered_rule_in(options: &ArgMatches) -> Result<Rule, CommandFault>
    requires { RowsPass joined_level.rules (rows_of (found_of options.now)) }
    ensures ok { IfOk result (λ rule. rule ≡ numbered_rule_of (rows_of (found_of options.now))) }
    ensures range { IfOk result (λ rule. IsTrue (is_in_range (Task.Run rule))) }
    ensures alone { OnOk result (gives_several_numbers (rows_of (found_of options.now)) ≡ false) }
    ensures fault { IfErr result (λ fault. fault ≡ CommandFault.Both) }
    ensures both { OnErr result (gives_several_numbers (rows_of (found_of options.now)) ≡ true) }
{
    let limit = options.get_one::<u32>("limit");
    let number = options.get_one::<u32>("fail");
    let rate = options.get_one::<u32>("every");
    let first = options.get_one::<u32>("fail-from");
    rule_by(limit, number, rate, first)
}

/// Returns the rule of the only number that is given, or `Unlimited` if no number is given. The error is `Both` if several numbers are
/// given.
fn rule_by(
    limit: Option<u32>,
    number: Option<u32>,
    rate: Option<u32>,
    first: Option<u32>,
) -> Result<Rule, CommandFault>
    requires limit { IfSome limit (λ n. n ≤ CEILING) }
    requires number { IfSome number (λ n. n ≤ CEILING) }
    requires rate { IfSome rate (λ n. n ≤ CEILING) }
    requires first { IfSome first (λ n. n ≤ CEILING) }
    ensures ok { IfOk result (λ rule. rule ≡ rule_by limit number None rate first None) }
    ensures range { IfOk result (λ rule. IsTrue (is_in_range (Task.Run rule))) }
    ensures alone { OnOk result (are_several limit number rate first ≡ false) }
    ensures fault { IfErr result (λ fault. fault ≡ CommandFault.Both) }
    ensures both { OnErr result (are_several limit number rate first ≡ true) }
{
    match (limit, number, rate, first) {
        (None, None, None, None) => Ok(Rule::Unlimited),
        (Some(limit), None, None, None) => Ok(Rule::Limit(limit)),
        (None, Some(number), None, None) => Ok(Rule::Number(number)),
        (None, None, Some(rate), None) => Ok(Rule::Every(rate)),
        (None, None, None, Some(first)) => Ok(Rule::From(first)),
        (Some(_), Some(_), _, _) => Err(CommandFault::Both),
        (Some(_), None, Some(_), _) => Err(CommandFault::Both),
        (Some(_), None, None, Some(_)) => Err(CommandFault::Both),
        (None, Some(_), Some(_), _) => Err(CommandFault::Both),
        (None, Some(_), None, Some(_)) => Err(CommandFault::Both),
        (None, None, Some(_), Some(_)) => Err(CommandFault::Both),
    }
}

/// Returns the rule under which two attempts fail: the attempt that `first` makes fail, and the attempt with the number `second`. The error
/// is `Also` if `first` isn't the rule of a single attempt, or if the number of `first` is 0 or not less than `second`.
fn with_second(first: Rule, second: u32) -> Result<Rule, CommandFault>
    ensures ok { IfOk result (IsPairOf first second) }
    ensures fault { IfErr result (λ fault. fault ≡ CommandFault.Also) }
    ensures disordered { OnErr result (comes_before first second ≡ false) }
{
    match first {
        Rule::Number(number) if 1 <= number && number < second => Ok(Rule::Pair(number, second)),
        _ => Err(CommandFault::Also),
    }
}
