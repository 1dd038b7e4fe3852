//! The option `--set`, and how its text is read: a list of numbers of attempts.

ghost use Rattle.std.specs.Prelude.{◌≡◌, ◌^◌, ◌&&◌, false, None, Some, IfErr, IfOk, IfSome, OnOk, if◌then◌else◌, map, nat_lt, true};
ghost use Rattle.std.specs.Str.Parse.{digits_value};
ghost use Rattle.clap.specs.Words.{found_of, kind_of, rows_of, rule_of};
ghost use Rattle.wb_command_line.specs.Command.{are_of_set};
ghost use Rattle.wb_command_line.specs.CommandLine.{set_option};
ghost use Rattle.wb_command_line.specs.Fault.{IsFaultOfSet, IsFaultOfText};
ghost use Rattle.wb_command_line.specs.Spelled.{gives_no_list, set_of};
ghost use Rattle.wb_command_line.specs.SetList.{ascending_in, is_list, is_next, is_of_digits, listed, numbers_in};

use crate::command::CommandFault;
use clap::error::{Error, ErrorKind};
use clap::{Arg, ArgMatches};
use std::alloc::{AllocError, Global};
use wb_basics::limits::CEILING;
use wb_heap_model::heap::Numbers;

/// The most numbers that a list may have.
pub(super) const MOST_NUMBERS: usize = 256;

/// The option `--set`. `clap` takes any text as its value.
pub(super) fn set_argument<'a>(alloc: Global, help: &'a str) -> Arg<'a>
    ensures rule { rule_of result ≡ set_option }
    ensures own { result.global ≡ false }
{
    Arg::new(alloc, "set")
        .long("set")
        .value_name("LIST")
        .help(help)
}

/// Returns the numbers of the set that the options give; `None` if the options give no set. The errors are `Usage`, if the set's text is no
/// list, and `NoMemory`.
pub(super) fn set_in(alloc: Global, options: &ArgMatches) -> Result<Option<Numbers>, CommandFault>
    ensures ok { IfOk result (λ set. set ≡ set_of (rows_of (found_of options.now))) }
    ensures range { IfOk result (λ set. IfSome set (λ numbers. are_of_set numbers ≡ true)) }
    ensures list { OnOk result (gives_no_list (rows_of (found_of options.now)) ≡ false) }
    ensures fault { IfErr result (IsFaultOfSet (rows_of (found_of options.now))) }
{
    match options.get_str("set") {
        Some(text) => Ok(Some(list_of(alloc, text)?)),
        None => Ok(None),
    }
}

/// Returns the numbers of a list. The errors are `Usage`, if the text is no list, and `NoMemory`.
fn list_of(alloc: Global, text: &str) -> Result<Numbers, CommandFault>
    ensures ok { IfOk result (λ numbers. numbers ≡ numbers_in text.now) }
    ensures list { OnOk result (is_list text.now ≡ true) }
    ensures fault { IfErr result (IsFaultOfText text.now) }
{
    match numbers_listed(alloc, text)? {
        Some(numbers) => Ok(numbers),
        None => Err(CommandFault::Usage(no_list(alloc, text)?)),
    }
}

/// Returns what `clap` would say about a text that is no list, worded as `clap` words its errors for other values. The call fails only if
/// memory ran out.
fn no_list(alloc: Global, text: &str) -> Result<Error, AllocError>
    ensures { IfOk result (λ error. kind_of error ≡ ErrorKind.ValueValidation) }
{
    let message = format!(in alloc;
        "invalid value '{text}' for '--set <LIST>': a list is 1 to {MOST_NUMBERS} ascending numbers from 1 to {CEILING}, \
         with commas between them and no blanks"
    )?;
    clap::Command::new(alloc, "workbench run").error(ErrorKind::ValueValidation, message.as_str())
}

/// Returns the numbers of a list; `None` if the text is no list. The only error is that memory ran out.
fn numbers_listed(alloc: Global, text: &str) -> Result<Option<Numbers>, AllocError>
    ensures { IfOk result (λ numbers. numbers ≡ listed text.now) }
{
    let texts: Vec<&str> = text.split(',').collect(alloc)?;
    if texts.len() <= MOST_NUMBERS {
        numbers_ascending(alloc, texts.as_slice())
    } else {
        Ok(None)
    }
}

/// Returns the numbers that these texts spell. The result is `None` unless each text has only digits, and the numbers ascend and are from 1
/// to `CEILING`. The only error is that memory ran out.
fn numbers_ascending(alloc: Global, texts: &[&str]) -> Result<Option<Numbers>, AllocError>
    ensures { IfOk result
        (λ numbers. numbers ≡ ascending_in (map (λ text. text.now) texts.now)) }
{
    let mut numbers = Numbers::new(alloc);
    let mut last = 0;
    for text in texts {
        match number_after(last, text) {
            Some(number) => {
                numbers.push(number)?;
                last = number;
            }
            None => return Ok(None),
        }
    }
    Ok(Some(numbers))
}

/// Returns the number that a text of only digits spells, if the number is greater than `last` and at most `CEILING`; otherwise returns
/// `None`.
fn number_after(last: u32, text: &str) -> Option<u32>
    ensures { result ≡ if is_next last text.now then Some (digits_value 10 text.now) else None }
{
    match number_of_digits(text) {
        Some(number) if last < number && number <= CEILING => Some(number),
        _ => None,
    }
}

/// Returns the number that a text of only digits spells, if the number is less than 2^32. Returns `None` for any other text, even for
/// digits after a plus.
fn number_of_digits(text: &str) -> Option<u32>
    ensures { result ≡ if is_of_digits text.now && nat_lt (digits_value 10 text.now) (2 ^ 32)
        then Some (digits_value 10 text.now) else None }
{
    match text.as_bytes().first() {
        Some(b'+') => None,
        _ => text.parse().ok(),
    }
}
