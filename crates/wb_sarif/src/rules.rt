//! The rules of a log: one for each kind of finding.

use crate::writing::{Log, Written, before_item};
use std::fmt;
use std::fmt::{Display, Formatter, Write};
use wb_explain::runs::{Finding, FindingKind, panic_in_symbian};
use wb_heap_model::heap::Panic;

/// The name of a finding's rule. The number of an ALLOC panic is a place in the heap, so the name leaves that number out.
#[derive(Clone, Copy)]
pub struct RuleName(pub FindingKind);

impl Display for RuleName {
    fn fmt<W: Write>(&self, f: &mut Formatter<W>) -> fmt::Result {
        match self.0 {
            FindingKind::Leak => f.write_str("leak"),
            FindingKind::Left => f.write_str("left"),
            FindingKind::Cut => f.write_str("cut"),
            FindingKind::Panic(Panic::User(number)) => write!(f, "panic/USER/{number}"),
            FindingKind::Panic(Panic::Workbench(number)) => write!(f, "panic/WORKBENCH/{number}"),
            FindingKind::Panic(Panic::Alloc(_)) => f.write_str("panic/ALLOC"),
        }
    }
}

/// Returns how serious a finding is, as a level of SARIF.
pub fn level_of(kind: FindingKind) -> &'static str {
    match kind {
        FindingKind::Leak | FindingKind::Panic(_) => "error",
        FindingKind::Cut => "warning",
        FindingKind::Left => "note",
    }
}

/// The texts of a rule: what the rule is about, first in a few words and then in a sentence, and what to do.
#[derive(Clone, Copy)]
struct Meaning {
    short: &'static str,
    full: &'static str,
    help: &'static str,
}

fn meaning_of(kind: FindingKind) -> Meaning {
    match kind {
        FindingKind::Leak => Meaning {
            short: "A cell of the heap leaks",
            full: "A cell of the heap was never freed.",
            help: "Free the cell on each way out. While lines that may leave run, an item of the cleanup stack or an object holds it.",
        },
        FindingKind::Left => Meaning {
            short: "main leaves",
            full: "After a failed attempt main left.",
            help: "Nothing is to be done where the leave is meant.",
        },
        FindingKind::Cut => Meaning {
            short: "A run is cut",
            full: "The run took its whole budget, or would have needed a longer heap than there may be.",
            help: "Raise the budget with --budget, unless what repeats never ends.",
        },
        FindingKind::Panic(panic) => meaning_of_panic(panic),
    }
}

fn meaning_of_panic(panic: Panic) -> Meaning {
    let full = match panic_in_symbian(panic) {
        "" => "A panic that only the workbench has.",
        text => text,
    };
    Meaning {
        short: "The run ends with a panic",
        full,
        help: "The message of each result says what to look for.",
    }
}

/// Whether two kinds of findings have the same rule.
fn is_same_rule(one: FindingKind, other: FindingKind) -> bool {
    match (one, other) {
        (FindingKind::Panic(Panic::Alloc(_)), FindingKind::Panic(Panic::Alloc(_))) => true,
        _ => one == other,
    }
}

/// Whether the finding with this index and kind is the first with its rule.
fn is_first_of_rule(findings: &[Finding], index: usize, kind: FindingKind) -> bool {
    for (at, other) in findings.iter().enumerate() {
        if at < index && is_same_rule(other.kind, kind) {
            return false;
        }
    }
    true
}

/// Returns the index of the rule for this kind among the rules of these findings. The rules are in the order in which the findings first
/// use them.
pub fn rule_index(findings: &[Finding], kind: FindingKind) -> usize {
    let mut count: usize = 0;
    for (index, finding) in findings.iter().enumerate() {
        if is_same_rule(finding.kind, kind) {
            return count;
        }
        if is_first_of_rule(findings, index, finding.kind) {
            count = count.saturating_add(1);
        }
    }
    count
}

/// Writes the rules of all findings, each rule once.
pub fn put_rules(log: &mut Log<'_>) -> Written {
    let findings = log.explanation.findings();
    let mut count: usize = 0;
    for (index, finding) in findings.iter().enumerate() {
        if is_first_of_rule(findings, index, finding.kind) {
            put_rule(log, count, finding.kind)?;
            count = count.saturating_add(1);
        }
    }
    Ok(())
}

fn put_rule(log: &mut Log<'_>, index: usize, kind: FindingKind) -> Written {
    let Meaning { short, full, help } = meaning_of(kind);
    let (before, name, level) = (before_item(index), RuleName(kind), level_of(kind));
    write!(
        log.text,
        "{before}{{\"id\":\"{name}\",\"shortDescription\":{{\"text\":\"{short}\"}},\
         \"fullDescription\":{{\"text\":\"{full}\"}},\"help\":{{\"text\":\"{help}\"}},\"defaultConfiguration\":{{\"level\":\"{level}\"}}}}"
    )
}
