//! An explanation in which a change of the script that was tried replaces all other advice, but not what the advice says of how it came to
//! what was found.

use crate::runs::explanation::{Explanation, Finding, Parts};
use std::alloc::{AllocError, Global};
use wb_pages::{Part, PartKind};

/// What a line of advice begins with.
const HELP: &str = "help: ";

/// What a line begins with that says what else there is to know.
const NOTE: &str = "note: ";

/// What stands between the cause and the advice in a line of advice that first says how it came to what was found.
const THEN: &str = ": ";

impl Explanation {
    /// Returns this explanation with `help` in the place of its first advice, and without its other advice. If there is no advice, `help`
    /// comes at the end. If `keeps_causes`, notes keep what advice says of how it came to what was found. The only error is that memory ran
    /// out.
    pub fn with_only_help(
        &self,
        alloc: Global,
        help: &Explanation,
        keeps_causes: bool,
    ) -> Result<Explanation, AllocError> {
        let mut copy = Copy::of(alloc, self.text.as_str());
        for index in 0..self.parts.len() {
            let Some(part) = self.parts.get(index) else {
                break;
            };
            if part.kind == PartKind::Help {
                let has_cause = keeps_causes && self.causes.as_slice().contains(&index);
                copy.replace(*part, has_cause, help)?;
            } else {
                copy.keep(*part)?;
            }
        }
        copy.finish(self.findings.as_slice(), help)?;
        Ok(copy.whole)
    }
}

/// A copy that is made of an explanation, part by part.
#[derive(Drop)]
struct Copy<'a> {
    /// The whole text, how many of its bytes are done, and the text after them.
    text: &'a str,
    done: usize,
    rest: &'a str,
    whole: Explanation,
    /// For each part so far, how many parts the copy had before it.
    places: Vec<usize>,
    has_help: bool,
}

impl<'a> Copy<'a> {
    fn of(alloc: Global, text: &'a str) -> Copy<'a> {
        Copy {
            text,
            done: 0,
            rest: text,
            whole: Explanation::new(alloc),
            places: Vec::new(alloc),
            has_help: false,
        }
    }

    /// Takes the text up to this index off the rest.
    fn take(&mut self, until: usize) -> &'a str {
        let count = until.saturating_sub(self.done);
        let (taken, rest) = self.rest.split_at_checked(count).unwrap_or((self.rest, ""));
        self.rest = rest;
        self.done = self.done.saturating_add(count);
        taken
    }

    /// Copies a part, with the text up to its words.
    fn keep(&mut self, part: Part) -> Result<(), AllocError> {
        self.places.push(self.whole.parts.len())?;
        let before = self.take(part.from);
        self.whole.text.push_str(before)?;
        let from = self.whole.text.len();
        self.whole.parts.push(Part { from, ..part })?;
        Ok(())
    }

    /// Leaves a line of advice out, but for the cause that it may begin with. The first one is replaced by `help`.
    fn replace(
        &mut self,
        part: Part,
        has_cause: bool,
        help: &Explanation,
    ) -> Result<(), AllocError> {
        self.places.push(self.whole.parts.len())?;
        let before = self.take(part.from.saturating_sub(HELP.len()));
        self.whole.text.push_str(before)?;
        let words = part.words(self.text);
        self.take(part.from.saturating_add(words.len()).saturating_add(1));
        if has_cause {
            self.add_cause(words)?;
        }
        if self.has_help {
            return Ok(());
        }
        self.has_help = true;
        self.whole.add(help)
    }

    /// Adds a note with the cause that a line of advice begins with, if it begins with one.
    fn add_cause(&mut self, advice: &str) -> Result<(), AllocError> {
        let Some((cause, _)) = advice.split_once(THEN) else {
            return Ok(());
        };
        self.whole.text.push_str(NOTE)?;
        let from = self.whole.text.len();
        self.whole.text.push_str(cause)?;
        self.whole.text.push_str("\n")?;
        self.whole.parts.push(Part {
            kind: PartKind::Note,
            line: 0,
            span: None,
            from,
        })?;
        Ok(())
    }

    /// Copies the rest of the text, and the findings. If nothing was replaced, `help` comes at the end.
    fn finish(&mut self, findings: &[Finding], help: &Explanation) -> Result<(), AllocError> {
        self.places.push(self.whole.parts.len())?;
        self.whole.text.push_str(self.rest)?;
        for finding in findings {
            let moved = Finding {
                own: self.place_of(finding.own),
                before: self.places_of(finding.before),
                way: self.places_of(finding.way),
                ..*finding
            };
            self.whole.findings.push(moved)?;
        }
        if self.has_help {
            return Ok(());
        }
        self.whole.add(help)
    }

    fn place_of(&self, index: usize) -> usize {
        self.places.get(index).copied().unwrap_or(index)
    }

    fn places_of(&self, parts: Parts) -> Parts {
        Parts {
            from: self.place_of(parts.from),
            to: self.place_of(parts.to),
        }
    }
}
