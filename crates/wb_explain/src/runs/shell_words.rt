//! Commands as they are typed: the options that say how runs are made, except options with their default values, and a script's name.

use std::fmt;
use std::fmt::{Display, Formatter, Write};
use wb_basics::limits::{DEFAULT_BUDGET, DEFAULT_MINIMUM, DEFAULT_STEP};
use wb_heap_model::heap::{Rule, Shape};

/// The options that say how runs are made, each with a blank before it. An option with its default value is left out.
#[derive(Clone, Copy)]
pub struct ShellOptions {
    pub budget: u32,
    pub shape: Shape,
}

impl Display for ShellOptions {
    fn fmt<W: Write>(&self, f: &mut Formatter<W>) -> fmt::Result {
        let ShellOptions {
            budget,
            shape: Shape { min, step, moving },
        } = *self;
        if budget != DEFAULT_BUDGET {
            write!(f, " --budget {budget}")?;
        }
        if min != DEFAULT_MINIMUM {
            write!(f, " --min {min}")?;
        }
        if step != DEFAULT_STEP {
            write!(f, " --step {step}")?;
        }
        if moving {
            write!(f, " --moving")?;
        }
        Ok(())
    }
}

/// The option that gives a rule, with a blank before it; no text for a rule that makes no attempt fail.
#[derive(Clone, Copy)]
pub struct RuleOption<'a>(pub &'a Rule);

impl<'a> Display for RuleOption<'a> {
    fn fmt<W: Write>(&self, f: &mut Formatter<W>) -> fmt::Result {
        match self.0 {
            Rule::Unlimited | Rule::Number(0) | Rule::Every(0) | Rule::From(0) => Ok(()),
            Rule::Limit(limit) => write!(f, " --limit {limit}"),
            Rule::Number(number) => write!(f, " --fail {number}"),
            Rule::Every(rate) => write!(f, " --every {rate}"),
            Rule::From(first) => write!(f, " --fail-from {first}"),
            Rule::Pair(first, second) => write!(f, " --fail {first} --also {second}"),
            Rule::Set(numbers) => write_list(f, numbers.as_slice()),
        }
    }
}

/// Writes the option of a set, whose numbers have commas between them.
fn write_list<W: Write>(f: &mut Formatter<W>, numbers: &[u32]) -> fmt::Result {
    let mut before = " --set ";
    for number in numbers {
        write!(f, "{before}{number}")?;
        before = ",";
    }
    Ok(())
}

/// The name of a script, with a blank before it. The name is in quotes if a shell would change the bare name. No text for standard input.
#[derive(Clone, Copy)]
pub struct ShellFile<'a>(pub Option<&'a str>);

impl<'a> Display for ShellFile<'a> {
    fn fmt<W: Write>(&self, f: &mut Formatter<W>) -> fmt::Result {
        match self.0 {
            None => Ok(()),
            Some(name) if is_plain(name) => write!(f, " {name}"),
            Some(name) => write!(f, " '{name}'"),
        }
    }
}

/// Whether a shell takes a word exactly as it is written.
fn is_plain(word: &str) -> bool {
    !word.is_empty() && word.as_bytes().iter().all(|byte| is_plain_byte(*byte))
}

fn is_plain_byte(byte: u8) -> bool {
    byte.is_ascii_alphanumeric() || matches!(byte, b'/' | b'.' | b'_' | b'-' | b'+' | b'@' | b',')
}
