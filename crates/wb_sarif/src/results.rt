//! The results of a log: each finding, with its message, its place, and how it came about.

use crate::escape::Escaped;
use crate::flows::put_flows;
use crate::places::{has_place, put_location, put_place};
use crate::rules::{RuleName, level_of, rule_index};
use crate::writing::{Log, Written, before_item, comma};
use std::alloc::AllocError;
use std::fmt::Write;
use wb_explain::runs::{Finding, FindingKind};
use wb_pages::{Part, PartKind};

/// Writes a result for each finding.
pub fn put_results(log: &mut Log<'_>) -> Written {
    let explanation = log.explanation;
    for (index, finding) in explanation.findings().iter().enumerate() {
        if let Some(own) = explanation.all_parts().get(finding.own) {
            put_result(log, index, *finding, *own)?;
        }
    }
    Ok(())
}

fn put_result(log: &mut Log<'_>, index: usize, finding: Finding, own: Part) -> Written {
    put_rule(log, index, finding.kind)?;
    put_message(log, finding, own)?;
    log.text.push_str("\"},\"locations\":[")?;
    put_own_place(log, own)?;
    log.text.push_str("],\"relatedLocations\":[")?;
    put_related(log, finding)?;
    log.text.push_str("]")?;
    put_flows(log, finding, own)?;
    log.text.push_str("}")
}

/// Writes the place of a finding as the only item of a list; nothing if the finding has no place.
fn put_own_place(log: &mut Log<'_>, own: Part) -> Written {
    if !has_place(own) {
        return Ok(());
    }
    log.text.push_str("{")?;
    put_place(log, own)?;
    log.text.push_str("}")
}

/// Begins a result with its rule and its level. The string of the result's message stays open.
fn put_rule(log: &mut Log<'_>, index: usize, kind: FindingKind) -> Written {
    let (before, name, level) = (before_item(index), RuleName(kind), level_of(kind));
    let rule = rule_index(log.explanation.findings(), kind);
    write!(
        log.text,
        "{before}{{\"ruleId\":\"{name}\",\"ruleIndex\":{rule},\"level\":\"{level}\",\"message\":{{\"text\":\""
    )
}

/// Writes the message of a finding inside the message's string. The message has the finding's own words, and the lines below them that are
/// about no line of the script, such as what to do.
fn put_message(log: &mut Log<'_>, finding: Finding, own: Part) -> Written {
    let explanation = log.explanation;
    let words = own.words(explanation.text.as_str());
    write!(log.text, "{}", Escaped(words))?;
    for part in explanation.parts_in(finding.way) {
        if !has_place(*part) {
            put_more(log, *part)?;
        }
    }
    Ok(())
}

/// Writes one more line of a message inside the message's string.
fn put_more(log: &mut Log<'_>, part: Part) -> Written {
    let words = part.words(log.explanation.text.as_str());
    let before = match part.kind {
        PartKind::Note => "note: ",
        PartKind::Help => "help: ",
        PartKind::OfLine | PartKind::OfFile | PartKind::Row => "",
    };
    write!(log.text, "\\n{before}{}", Escaped(words))
}

/// Writes the places of all lines that led to a finding, with their messages.
fn put_related(log: &mut Log<'_>, finding: Finding) -> Written {
    let explanation = log.explanation;
    let next = put_related_of(log, explanation.parts_in(finding.before), 0)?;
    put_related_of(log, explanation.parts_in(finding.way), next)?;
    Ok(())
}

/// Writes the places of these parts, numbered from `first` on. Returns the next number.
fn put_related_of(log: &mut Log<'_>, parts: &[Part], first: usize) -> Result<usize, AllocError> {
    let mut number = first;
    for part in parts {
        if has_place(*part) {
            write!(log.text, "{}{{\"id\":{number},", comma(number))?;
            put_location(log, *part)?;
            log.text.push_str("}")?;
            number = number.saturating_add(1);
        }
    }
    Ok(number)
}
