//! What is explained: the text, its parts, and which of the parts are findings.

mod replaced;

use std::alloc::{AllocError, Global};
use wb_heap_model::heap::Panic;
use wb_pages::Part;

/// What was found.
#[derive(Clone, Copy, Debug, PartialEq, Eq)]
pub enum FindingKind {
    /// A cell was never freed.
    Leak,
    /// The run ended with this panic.
    Panic(Panic),
    /// `main` left.
    Left,
    /// The run was cut.
    Cut,
}

/// In which order of time the parts after a finding's own message say how the finding came about.
#[derive(Clone, Copy, Debug, PartialEq, Eq)]
pub enum Told {
    /// The earliest event is told first, and the finding's own message is about what came before that event.
    Forwards,
    /// The latest event is told first.
    Backwards,
    /// In no order of time.
    Unordered,
}

/// A range of an explanation's parts: their indexes from `from` up to, but without, `to`.
#[derive(Clone, Copy, Debug, PartialEq, Eq)]
pub struct Parts {
    pub from: usize,
    pub to: usize,
}

impl Parts {
    pub(super) fn is_empty(self) -> bool {
        self.from >= self.to
    }

    fn after(self, count: usize) -> Parts {
        Parts {
            from: self.from.saturating_add(count),
            to: self.to.saturating_add(count),
        }
    }
}

/// A finding: which parts of the explanation are about this finding.
#[derive(Clone, Copy, Debug, PartialEq, Eq)]
pub struct Finding {
    pub kind: FindingKind,
    /// The index of the finding's own message.
    pub own: usize,
    /// What is said about the run before any finding: which attempts failed, and where the run went on.
    pub before: Parts,
    /// What is said about this finding below its own message.
    pub way: Parts,
    pub told: Told,
}

/// An explanation.
#[derive(Drop)]
pub struct Explanation {
    /// The text for standard error; empty if there is nothing to say.
    pub text: String,
    parts: Vec<Part>,
    findings: Vec<Finding>,
    /// The indexes of the parts of advice that first say, up to a colon, how it came to what was found.
    causes: Vec<usize>,
}

impl Explanation {
    /// Nothing is explained yet.
    pub fn new(alloc: Global) -> Explanation {
        Explanation::of(
            String::new(alloc),
            Vec::new(alloc),
            Vec::new(alloc),
            Vec::new(alloc),
        )
    }

    pub(super) fn of(
        text: String,
        parts: Vec<Part>,
        findings: Vec<Finding>,
        causes: Vec<usize>,
    ) -> Explanation {
        Explanation {
            text,
            parts,
            findings,
            causes,
        }
    }

    /// Adds another explanation at the end. The only error is that memory ran out; a part of `more` may then have been added.
    pub fn add(&mut self, more: &Explanation) -> Result<(), AllocError> {
        let (length, count) = (self.text.len(), self.parts.len());
        self.text.push_str(more.text.as_str())?;
        for part in more.parts.as_slice() {
            self.parts.push(Part {
                from: part.from.saturating_add(length),
                ..*part
            })?;
        }
        for finding in more.findings.as_slice() {
            self.findings.push(Finding {
                own: finding.own.saturating_add(count),
                before: finding.before.after(count),
                way: finding.way.after(count),
                ..*finding
            })?;
        }
        for cause in more.causes.as_slice() {
            self.causes.push(cause.saturating_add(count))?;
        }
        Ok(())
    }

    pub fn findings(&self) -> &[Finding] {
        self.findings.as_slice()
    }

    pub fn all_parts(&self) -> &[Part] {
        self.parts.as_slice()
    }

    /// Returns the parts of a range.
    pub fn parts_in(&self, range: Parts) -> &[Part] {
        let (first, _) = self
            .parts
            .split_at_checked(range.to)
            .unwrap_or((self.parts.as_slice(), &[]));
        let (_, parts) = first.split_at_checked(range.from).unwrap_or((&[], &[]));
        parts
    }
}
