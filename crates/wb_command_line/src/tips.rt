//! Tips for words that are no command, if `clap`'s own tips don't help: too few or too many hyphens, numbers below 0, and lists of numbers.

use std::alloc::{AllocError, Global};
use std::convert::AsStr;

/// How `clap` begins its tip for a word with hyphens that it doesn't know. No script has such a name.
const AS_VALUE: &str = "  tip: to pass '";

/// The tip that names the option which takes more than two numbers of attempts.
const OF_SETS: &str =
    "'--set' makes attempts fail in place of '--fail' and '--also': it takes a list that ascends, as '3,5,6'";

/// Whether an option, named without its hyphens, takes one or more numbers.
fn is_number_option(name: &str) -> bool {
    match name {
        "limit" | "fail" | "also" | "every" | "fail-from" | "set" => true,
        "follow-steps" | "follow-around" | "budget" | "min" | "step" => true,
        "failures" | "states" | "from" | "to" => true,
        _ => false,
    }
}

/// Whether an option, named with its hyphens, takes one or more numbers.
fn takes_number(option: &str) -> bool {
    match option.strip_prefix("--") {
        Some(name) => is_number_option(name),
        None => false,
    }
}

/// Whether an option has this name.
fn is_option(name: &str) -> bool {
    match name {
        "follow" | "persistent" | "pairs" | "all" | "ends" | "sets" | "moving" => true,
        "json" | "quiet" | "brief" | "picture" | "sarif" | "help" | "version" => true,
        _ => is_number_option(name),
    }
}

/// Whether each number of a list is greater than the number before it.
fn is_ascending(list: &str) -> bool {
    let mut last = 0;
    for part in list.split(',') {
        match part.parse::<u32>() {
            Ok(number) if number > last => last = number,
            _ => return false,
        }
    }
    true
}

/// The word with this index; empty if there is no such word.
pub(crate) fn word_at<S: AsStr>(words: &[S], place: usize) -> &str {
    match words.get(place) {
        Some(word) => word.as_str(),
        None => "",
    }
}

pub(crate) fn is_number(word: &str) -> bool {
    !word.is_empty() && word.as_bytes().iter().all(|byte| byte.is_ascii_digit())
}

/// Whether a word has only digits, commas and blanks.
fn is_list(word: &str) -> bool {
    !word.is_empty()
        && word.as_bytes().iter().all(|byte| byte.is_ascii_digit() || matches!(*byte, b',' | b' '))
}

/// The first place of a word; `None` if it isn't among the words.
fn place_of<S: AsStr>(words: &[S], wanted: &str) -> Option<usize> {
    for (place, word) in words.iter().enumerate() {
        if word.as_str() == wanted {
            return Some(place);
        }
    }
    None
}

/// The first word with this beginning.
fn word_with<'w, S: AsStr>(words: &'w [S], beginning: &str) -> &'w str {
    for word in words {
        let word = word.as_str();
        if word.starts_with(beginning) {
            return word;
        }
    }
    ""
}

/// The word before a word, if the word before is an option; otherwise empty.
fn option_before<'w, S: AsStr>(words: &'w [S], wanted: &str) -> &'w str {
    let mut before = "";
    for word in words {
        if word.as_str() == wanted && before.starts_with("--") {
            return before;
        }
        before = word.as_str();
    }
    ""
}

/// A tip for a word with hyphens that is no option; `None` if `clap` has a helpful tip. `refused` is the word, or its hyphen and the letter
/// after the hyphen.
pub(crate) fn hyphen_tip<S: AsStr>(
    alloc: Global,
    words: &[S],
    refused: &str,
    text: &str,
) -> Result<Option<String>, AllocError> {
    if !text.contains(AS_VALUE) {
        return Ok(None);
    }
    if !refused.starts_with("--") {
        let tip = single_hyphen_tip(alloc, words, word_with(words, refused))?;
        if tip.is_some() {
            return Ok(tip);
        }
    }
    let subcommand = word_at(words, 1);
    let tip = format!(in alloc; "'workbench help {subcommand}' lists the options")?;
    Ok(Some(tip))
}

/// A tip for a word with one hyphen: a number below 0 after an option, or an option with one hyphen too few. The result is `None` if the
/// word is neither.
fn single_hyphen_tip<S: AsStr>(
    alloc: Global,
    words: &[S],
    word: &str,
) -> Result<Option<String>, AllocError> {
    let name = word.strip_prefix('-').unwrap_or("");
    let option = option_before(words, word);
    if is_number(name) {
        if !takes_number(option) {
            return Ok(None);
        }
        let tip = format!(in alloc; "'{option}' takes no number below 0")?;
        return Ok(Some(tip));
    }
    if !is_option(name) {
        return Ok(None);
    }
    let tip = format!(in alloc; "an option begins with two hyphens: '--{name}'")?;
    Ok(Some(tip))
}

/// A tip for `--fail` or `--also` with more than one number; `None` if the text is the text of another error.
pub(crate) fn several_tip(
    alloc: Global,
    refused: &str,
    text: &str,
) -> Result<Option<String>, AllocError> {
    let is_first = text.contains("'--fail <N>'");
    if !is_list(refused) || !refused.contains(',') {
        return Ok(None);
    }
    if is_first && is_ascending(refused) {
        let tip = format!(in alloc; "'--set {refused}' makes these attempts fail")?;
        return Ok(Some(tip));
    }
    if !is_first && !text.contains("'--also <J>'") {
        return Ok(None);
    }
    Ok(Some(String::from_str(alloc, OF_SETS)?))
}

/// A tip for `--set` and a list with blanks, which is several words unless it is quoted; `None` if there is no such list.
pub(crate) fn set_tip<S: AsStr>(alloc: Global, words: &[S]) -> Result<Option<String>, AllocError> {
    let Some(place) = place_of(words, "--set") else {
        return Ok(None);
    };
    let list = joined_after(alloc, words, place)?;
    if !list.contains(',') || list.as_str() == word_at(words, place.saturating_add(1)) {
        return Ok(None);
    }
    let tip = format!(in alloc; "a list has commas and no blanks: '--set {list}'")?;
    Ok(Some(tip))
}

/// The numbers in the words after a place, joined by commas, up to the first word of another kind.
fn joined_after<S: AsStr>(alloc: Global, words: &[S], place: usize) -> Result<String, AllocError> {
    let mut list = String::new(alloc);
    for (at, word) in words.iter().enumerate() {
        if at > place {
            let word = word.as_str();
            if !is_list(word) {
                return Ok(list);
            }
            push_numbers(&mut list, word)?;
        }
    }
    Ok(list)
}

/// Adds the numbers of a word to a list.
fn push_numbers(list: &mut String, word: &str) -> Result<(), AllocError> {
    for part in word.split(',') {
        let number = part.trim();
        if !number.is_empty() {
            if !list.is_empty() {
                list.push_str(",")?;
            }
            list.push_str(number)?;
        }
    }
    Ok(())
}

/// A tip for a number after the flag `--follow`; `None` if there is no such number.
pub(crate) fn follow_tip<S: AsStr>(
    alloc: Global,
    words: &[S],
) -> Result<Option<String>, AllocError> {
    let number = number_given(words, "--follow");
    if number.is_empty() {
        return Ok(None);
    }
    let tip = format!(in alloc;
        "'--follow' takes no number; '--follow --follow-steps {number}' writes the first {number} steps and the \
         last {number}, '--follow-around {number}' those around attempt {number}"
    )?;
    Ok(Some(tip))
}

/// The text of the number given to a flag, as in `--flag N` or `--flag=N`; empty if no number is given.
pub(crate) fn number_given<'w, S: AsStr>(words: &'w [S], flag: &str) -> &'w str {
    let mut is_after = false;
    for word in words {
        let word = word.as_str();
        if is_after && is_number(word) {
            return word;
        }
        if let Some(rest) = word.strip_prefix(flag)
            && let Some(number) = rest.strip_prefix('=')
            && is_number(number)
        {
            return number;
        }
        is_after = word == flag;
    }
    ""
}
