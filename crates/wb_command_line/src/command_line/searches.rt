//! What the options of `sweep` and `check` ask to search for: which failures, and whether all that are found or only the least. The file
//! `sets` reads how many attempts fail together, and how many states are met.

ghost use Rattle.std.specs.Prelude.{◌≡◌, ◌≤◌, ◌&&◌, ◌||◌, IfErr, IfOk, IfSome, IsTrue, OnErr, OnOk, codes, false, is_some, true};
ghost use Rattle.clap.specs.Words.{found_of, rows_of};
ghost use Rattle.wb_command_line.specs.Command.{is_search_in_range};
ghost use Rattle.wb_command_line.specs.CommandLine.{joined_level};
ghost use Rattle.wb_command_line.specs.Passed.{RowsPass};
ghost use Rattle.wb_command_line.specs.Spelled.{are_both_sorts, are_too_many, failures_by, failures_of as spelled_failures};
ghost use Rattle.wb_command_line.specs.Spelled.{flag_of, gives_too_many, most_of, states_of, trial_of as spelled_trial};
ghost use Rattle.wb_command_line.specs.Subcommands.{search_by, search_listed, search_of};

use crate::command::{CommandFault, Search};
use crate::command_line::sets::{MOST_STATES, MOST_TOGETHER, most_in, states_in};
use clap::ArgMatches;
use wb_runs::failures::Failures;

/// Returns what the options of `sweep` and `check` ask to search for. The only error is `Both`.
pub(super) fn search_in(options: &ArgMatches) -> Result<Search, CommandFault>
    requires { RowsPass joined_level.rules (rows_of (found_of options.now)) }
    ensures ok { IfOk result
        (λ search. search ≡ search_of (spelled_trial (rows_of (found_of options.now)))) }
    ensures range { IfOk result (λ search. IsTrue (is_search_in_range search)) }
    ensures alone { OnOk result (gives_too_many (rows_of (found_of options.now)) ≡ false) }
    ensures fault { IfErr result (λ fault. fault ≡ CommandFault.Both) }
    ensures both { OnErr result (gives_too_many (rows_of (found_of options.now)) ≡ true) }
{
    let most = most_in(options);
    let states = states_in(options);
    let failures = failures_in(options, most.is_some(), states.is_some())?;
    let single = search_listed(all_in(options), ends_in(options), failures);
    Ok(search_by(states, most, single))
}

/// The search if neither `--failures` nor `--sets` is given. The search is for the ends of all runs if `ends` is set, for all failures that
/// are found if `all` is set, and otherwise for the least failure.
fn search_listed(all: bool, ends: bool, failures: Failures) -> Search
    ensures is { result ≡ search_listed all ends failures }
    ensures range { IsTrue (is_search_in_range result) }
{
    match (all, ends) {
        (_, true) => Search::Ends(failures),
        (true, false) => Search::All(failures),
        (false, false) => Search::Least(failures),
    }
}

/// The search that is asked for. The search is over all sets if `states` is given, which says how many states may be met. If only `most` is
/// given, the search is over sets of up to `most` attempts; if neither is given, it is `single`.
fn search_by(states: Option<u32>, most: Option<u32>, single: Search) -> Search
    requires most { IfSome most (λ k. (1 ≤ k) × (k ≤ MOST_TOGETHER)) }
    requires states { IfSome states (λ n. (1 ≤ n) × (n ≤ MOST_STATES)) }
    requires single { IsTrue (is_search_in_range single) }
    ensures is { result ≡ search_by states most single }
    ensures range { IsTrue (is_search_in_range result) }
{
    match (states, most) {
        (Some(states), _) => Search::EverySet(states),
        (None, Some(most)) => Search::Sets(most),
        (None, None) => single,
    }
}

/// Returns the failures that the options of `sweep` and `check` ask to try. The only error is `Both`. `is_of_few` says whether `--failures`
/// is given, and `is_of_every_set` says whether `--sets` is given.
fn failures_in(
    options: &ArgMatches,
    is_of_few: bool,
    is_of_every_set: bool,
) -> Result<Failures, CommandFault>
    requires passed { RowsPass joined_level.rules (rows_of (found_of options.now)) }
    requires few { is_of_few ≡ is_some (most_of (rows_of (found_of options.now))) }
    requires every { is_of_every_set ≡ is_some (states_of (rows_of (found_of options.now))) }
    ensures ok { IfOk result
        (λ failures. failures ≡ spelled_failures (rows_of (found_of options.now))) }
    ensures alone { OnOk result (gives_too_many (rows_of (found_of options.now)) ≡ false) }
    ensures fault { IfErr result (λ fault. fault ≡ CommandFault.Both) }
    ensures both { OnErr result (gives_too_many (rows_of (found_of options.now)) ≡ true) }
{
    let rates = options.get_flag("rates");
    let persistent = options.get_flag("persistent");
    let pairs = options.get_flag("pairs");
    let all = options.get_flag("all");
    let ends = options.get_flag("ends");
    failures_or_sets(
        rates,
        persistent,
        pairs,
        all,
        ends,
        is_of_few,
        is_of_every_set,
    )
}

/// Returns the failures that these flags ask to try. The error is `Both` if flags don't go together: `--failures` with `--sets`, `--all`
/// with `--ends`, or flags that `failures_by` refuses.
fn failures_or_sets(
    rates: bool,
    persistent: bool,
    pairs: bool,
    all: bool,
    ends: bool,
    is_of_few: bool,
    is_of_every_set: bool,
) -> Result<Failures, CommandFault>
    ensures ok { IfOk result (λ failures. failures ≡ failures_by rates persistent pairs) }
    ensures alone { OnOk result
        (are_too_many rates persistent pairs all ends is_of_few is_of_every_set ≡ false) }
    ensures fault { IfErr result (λ fault. fault ≡ CommandFault.Both) }
    ensures both { OnErr result
        (are_too_many rates persistent pairs all ends is_of_few is_of_every_set ≡ true) }
{
    if is_of_few && is_of_every_set {
        Err(CommandFault::Both)
    } else if all && ends {
        Err(CommandFault::Both)
    } else {
        let is_of_sets = is_of_few || is_of_every_set;
        failures_by(rates, persistent, pairs, all || ends, is_of_sets)
    }
}

/// Returns the failures that these flags ask to try. The error is `Both` if flags don't go together. `is_listed` says whether a list is
/// asked for. `is_of_sets` says whether sets are asked for, which are tried after single failures.
fn failures_by(
    rates: bool,
    persistent: bool,
    pairs: bool,
    is_listed: bool,
    is_of_sets: bool,
) -> Result<Failures, CommandFault>
    ensures ok { IfOk result (λ failures. failures ≡ failures_by rates persistent pairs) }
    ensures alone { OnOk result
        (are_both_sorts rates persistent pairs is_listed is_of_sets ≡ false) }
    ensures fault { IfErr result (λ fault. fault ≡ CommandFault.Both) }
    ensures both { OnErr result
        (are_both_sorts rates persistent pairs is_listed is_of_sets ≡ true) }
{
    match (rates, persistent, pairs, is_listed, is_of_sets) {
        (false, false, false, false, _) => Ok(Failures::Single),
        (false, false, false, true, false) => Ok(Failures::Single),
        (true, false, false, _, false) => Ok(Failures::Every),
        (false, true, false, _, false) => Ok(Failures::Persistent),
        (false, false, true, false, false) => Ok(Failures::Pairs),
        (false, false, false, true, true) => Err(CommandFault::Both),
        (true, false, false, _, true) => Err(CommandFault::Both),
        (false, true, false, _, true) => Err(CommandFault::Both),
        (false, false, true, true, _) => Err(CommandFault::Both),
        (false, false, true, false, true) => Err(CommandFault::Both),
        (true, true, _, _, _) => Err(CommandFault::Both),
        (true, false, true, _, _) => Err(CommandFault::Both),
        (false, true, true, _, _) => Err(CommandFault::Both),
    }
}

/// Whether the options ask for a list of all numbers whose run leaks, panics or is cut.
fn all_in(options: &ArgMatches) -> bool
    requires { RowsPass joined_level.rules (rows_of (found_of options.now)) }
    ensures { result ≡ flag_of (codes "all") (rows_of (found_of options.now)) }
{
    options.get_flag("all")
}

/// Whether the options ask for a list of all numbers, with how the run of each number ends.
fn ends_in(options: &ArgMatches) -> bool
    requires { RowsPass joined_level.rules (rows_of (found_of options.now)) }
    ensures { result ≡ flag_of (codes "ends") (rows_of (found_of options.now)) }
{
    options.get_flag("ends")
}
