//! What the user is told about words that are no command: the text of the fault, with a tip if `clap` has no helpful tip. No contract
//! mentions this text.

use crate::command::CommandFault;
use crate::line_breaks::broken;
use crate::tips::{follow_tip, hyphen_tip, number_given, set_tip, several_tip, word_at};
use clap::error::ErrorKind;
use std::alloc::{AllocError, Global};
use std::convert::AsStr;

/// The usage that `clap` adds to an error that `set_list` makes. `clap` adds no usage to the errors of values that it finds itself.
const USAGE: &str = "\n\nUsage: workbench run\n\nFor more information, try '--help'.\n";

/// Returns the text of a fault of these words, the first of which is the program's name. Lines have at most `columns` columns if the words
/// allow it. The only error is that memory ran out.
pub fn message_of<S: AsStr>(
    alloc: Global,
    words: &[S],
    fault: &CommandFault,
    columns: usize,
) -> Result<String, AllocError> {
    let text = text_of(alloc, words, fault)?;
    broken(alloc, text.as_str(), columns)
}

/// The text of a fault, with lines of any length.
fn text_of<S: AsStr>(
    alloc: Global,
    words: &[S],
    fault: &CommandFault,
) -> Result<String, AllocError> {
    match fault {
        CommandFault::Usage(error) => {
            let text = without_usage(alloc, format!(in alloc; "{error}")?)?;
            match tip_for(alloc, words, error.kind(), text.as_str())? {
                Some(tip) => with_tip(alloc, text.as_str(), tip.as_str()),
                None => Ok(text),
            }
        }
        CommandFault::Both => String::from_str(alloc, too_many(words)),
        _ => format!(in alloc; "{fault}"),
    }
}

/// The text of an error, without the usage that an error of `set_list` has. `clap` writes its own errors of values without this usage.
fn without_usage(alloc: Global, text: String) -> Result<String, AllocError> {
    match text.as_str().strip_suffix(USAGE) {
        Some(error) => format!(in alloc; "{error}\n\nFor more information, try '--help'.\n"),
        None => Ok(text),
    }
}

/// The message that names the options that don't go together, for words that give such options.
fn too_many<S: AsStr>(words: &[S]) -> &'static str {
    if word_at(words, 1) == "run" {
        return "error: give one of '--limit', '--fail', '--every', '--fail-from' and '--set'\n";
    }
    let is_of_sets = has(words, "--pairs") || has(words, "--failures") || has(words, "--sets");
    if has(words, "--ends") && (is_of_sets || has(words, "--all")) {
        return "error: give '--ends' without '--all', '--pairs', '--failures' and '--sets'\n";
    }
    if has(words, "--persistent") && (is_of_sets || has(words, "--every")) {
        return "error: give '--persistent' without '--every', '--pairs', '--failures' and '--sets'\n";
    }
    if has(words, "--sets") {
        return "error: give '--sets' without '--every', '--pairs', '--failures' and '--all'\n";
    }
    if has(words, "--failures") {
        return "error: give '--failures' without '--every', '--pairs' and '--all'\n";
    }
    "error: give '--pairs' without '--every' and without '--all'\n"
}

/// Whether an option is one of the words, alone or with `=` and a value.
fn has<S: AsStr>(words: &[S], option: &str) -> bool {
    words.iter().any(|word| {
        let word = word.as_str();
        match word.strip_prefix(option) {
            Some(rest) => rest.is_empty() || rest.starts_with('='),
            None => false,
        }
    })
}

/// The text of a `clap` error, with this tip in place of `clap`'s own.
fn with_tip(alloc: Global, text: &str, tip: &str) -> Result<String, AllocError> {
    let Some((error, rest)) = text.split_once('\n') else {
        return String::from_str(alloc, text);
    };
    let mut message = format!(in alloc; "{error}\n\n  tip: {tip}\n\n")?;
    let mut is_past_tips = false;
    for line in rest.lines() {
        if !line.is_empty() && !line.starts_with(' ') {
            is_past_tips = true;
        }
        if is_past_tips {
            message.push_str(line)?;
            message.push_str("\n")?;
        }
    }
    Ok(message)
}

/// A tip for words that `clap` refuses with this text; `None` if no tip helps more than `clap`'s own tip.
fn tip_for<S: AsStr>(
    alloc: Global,
    words: &[S],
    kind: ErrorKind,
    text: &str,
) -> Result<Option<String>, AllocError> {
    let subcommand = word_at(words, 1);
    match kind {
        ErrorKind::InvalidSubcommand => script_tip(alloc, subcommand),
        ErrorKind::UnknownArgument => argument_tip(alloc, words, subcommand, text),
        ErrorKind::TooManyValues => number_tip(alloc, words, subcommand),
        ErrorKind::ValueValidation => value_tip(alloc, words, text),
        _ => Ok(None),
    }
}

/// A tip for a value that its option doesn't take; `None` if there is no tip.
fn value_tip<S: AsStr>(
    alloc: Global,
    words: &[S],
    text: &str,
) -> Result<Option<String>, AllocError> {
    if text.contains("'--set <LIST>'") {
        return set_tip(alloc, words);
    }
    several_tip(alloc, quoted_in(text), text)
}

/// The first text between quotes, which is the refused word; empty if no text is between quotes.
fn quoted_in(text: &str) -> &str {
    let Some((_, rest)) = text.split_once('\'') else {
        return "";
    };
    match rest.split_once('\'') {
        Some((word, _)) => word,
        None => "",
    }
}

/// A tip for a script's name where a subcommand belongs; `None` if the word doesn't look like a script's name.
fn script_tip(alloc: Global, word: &str) -> Result<Option<String>, AllocError> {
    if !word.contains('.') && !word.contains('/') {
        return Ok(None);
    }
    let tip = format!(in alloc; "a subcommand comes first, as in 'workbench check {word}'")?;
    Ok(Some(tip))
}

/// A tip for an option of another subcommand or of no subcommand, or for a second file; `None` if `clap` has a helpful tip.
fn argument_tip<S: AsStr>(
    alloc: Global,
    words: &[S],
    subcommand: &str,
    text: &str,
) -> Result<Option<String>, AllocError> {
    let refused = quoted_in(text);
    if !refused.starts_with('-') {
        return file_tip(alloc, words, subcommand);
    }
    if let Some(name) = refused.strip_prefix("--") {
        let owners = subcommands_with(name);
        if !owners.is_empty() {
            let tip = format!(in alloc; "'--{name}' is an option of {owners}")?;
            return Ok(Some(tip));
        }
    }
    hyphen_tip(alloc, words, refused, text)
}

/// A tip for a second file, which may be meant as a number of an option.
fn file_tip<S: AsStr>(
    alloc: Global,
    words: &[S],
    subcommand: &str,
) -> Result<Option<String>, AllocError> {
    if let Some(tip) = set_tip(alloc, words)? {
        return Ok(Some(tip));
    }
    match number_tip(alloc, words, subcommand)? {
        Some(tip) => Ok(Some(tip)),
        None => {
            let tip = "a command reads one script; docs/CI.md says how to check many";
            Ok(Some(String::from_str(alloc, tip)?))
        }
    }
}

/// A tip for a number after a flag; `None` if there is no such number.
fn number_tip<S: AsStr>(
    alloc: Global,
    words: &[S],
    subcommand: &str,
) -> Result<Option<String>, AllocError> {
    if subcommand == "run" {
        follow_tip(alloc, words)
    } else {
        flag_tip(alloc, words, subcommand)
    }
}

/// The subcommands that have this option; empty if all subcommands have it, or no subcommand has it.
fn subcommands_with(name: &str) -> &'static str {
    match name {
        "limit" | "fail" | "also" | "fail-from" | "set" => "run",
        "follow" | "follow-steps" | "follow-around" => "run",
        "every" => "run, sweep and check",
        "persistent" | "pairs" | "all" | "ends" => "sweep and check",
        "failures" | "sets" | "states" => "sweep and check",
        "from" | "to" => "sweep",
        _ => "",
    }
}

/// A tip for a number after the flag `--every` of `sweep` or `check`; `None` if there is no such number.
fn flag_tip<S: AsStr>(
    alloc: Global,
    words: &[S],
    subcommand: &str,
) -> Result<Option<String>, AllocError> {
    let number = number_given(words, "--every");
    if number.is_empty() || (subcommand != "sweep" && subcommand != "check") {
        return Ok(None);
    }
    let tip = format!(in alloc;
        "'--every' of {subcommand} takes no number, and tries each; \
         'workbench run --every {number}' takes one"
    )?;
    Ok(Some(tip))
}
