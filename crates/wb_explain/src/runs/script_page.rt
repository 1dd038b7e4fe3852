//! A page about a script: messages about its lines, which are shown with carets under the word that the message is about.

use crate::runs::explanation::{Explanation, Finding, FindingKind, Parts, Told};
use std::alloc::{AllocError, Global};
use std::fmt::Display;
use wb_history::ScriptLines;
use wb_pages::words::{trim, words_of};
use wb_pages::{Page, Shown, Spot};

/// The result of writing something. The only error is that memory ran out.
pub type Written = Result<(), AllocError>;

/// What is written so far about a script.
#[derive(Drop)]
pub struct ScriptPage<'a> {
    alloc: Global,
    pub lines: &'a ScriptLines<'a>,
    pub page: Page<'a>,
    /// The lines that were shown as leading to the last finding, so that no line is shown twice.
    told: Vec<u32>,
    findings: Vec<Finding>,
    /// The indexes of the lines of advice that first say how it came to what was found.
    causes: Vec<usize>,
    /// Whether memory ran out for `causes`.
    is_cut: bool,
    /// Whether what is written next belongs to the last finding.
    is_in_finding: bool,
}

impl<'a> ScriptPage<'a> {
    /// An empty page about a script.
    pub fn new(alloc: Global, lines: &'a ScriptLines<'a>) -> ScriptPage<'a> {
        ScriptPage {
            alloc,
            lines,
            page: Page::new(alloc, lines.name),
            told: Vec::new(alloc),
            findings: Vec::new(alloc),
            causes: Vec::new(alloc),
            is_cut: false,
            is_in_finding: false,
        }
    }

    /// Returns what was written. The only error is that memory ran out.
    pub fn whole(self) -> Result<Explanation, AllocError> {
        let mut page = self;
        page.end_finding();
        if page.is_cut {
            return Err(AllocError);
        }
        let ScriptPage {
            page,
            findings,
            causes,
            ..
        } = page;
        let (text, parts) = page.whole_parts()?;
        Ok(Explanation::of(text, parts, findings, causes))
    }

    /// Begins a line of advice that first says, up to a colon, how it came to what was found. That stays if the advice is replaced.
    pub fn begin_cause(&mut self) {
        let part = self.page.part_count();
        if self.causes.push(part).is_err() {
            self.is_cut = true;
        }
        self.page.begin_help();
    }

    /// Writes a line of advice that first says, up to a colon, how it came to what was found.
    pub fn write_cause<D: Display + Drop>(&mut self, advice: D) {
        self.begin_cause();
        self.page.write(advice);
        self.page.end_line();
    }

    /// Begins a finding. The finding's own message comes next, and then how the finding came about, in the order `told`.
    pub fn begin_finding(&mut self, kind: FindingKind, told: Told) -> Written {
        self.end_finding();
        let own = self.page.part_count();
        let before = match self.findings.first() {
            Some(first) => first.before,
            None => Parts { from: 0, to: own },
        };
        let after = own.saturating_add(1);
        let way = Parts {
            from: after,
            to: after,
        };
        self.findings.push(Finding {
            kind,
            own,
            before,
            way,
            told,
        })?;
        self.is_in_finding = true;
        Ok(())
    }

    /// Ends the last finding: what is written next doesn't belong to this finding.
    pub fn end_finding(&mut self) {
        let end = self.page.part_count();
        if self.is_in_finding
            && let Some(last) = self.findings.last_mut()
        {
            last.way.to = end;
        }
        self.is_in_finding = false;
    }

    /// Notes that what is written about the last finding is in no order of time.
    pub fn tell_unordered(&mut self) {
        if self.is_in_finding
            && let Some(last) = self.findings.last_mut()
        {
            last.told = Told::Unordered;
        }
    }

    /// Ends the last finding. A leak with nothing written below its message shares what is written below another leak of the same line.
    pub fn share_ways(&mut self) {
        self.end_finding();
        for index in 0..self.findings.len() {
            let Some(way) = self.way_at_line_of(index) else {
                continue;
            };
            if let Some(finding) = self.findings.get_mut(index) {
                finding.way = way;
            }
        }
    }

    /// What is written below another leak of the same line, if nothing is written below this leak; `None` if there is no such leak.
    fn way_at_line_of(&self, index: usize) -> Option<Parts> {
        let finding = self.findings.get(index)?;
        if finding.kind != FindingKind::Leak || !finding.way.is_empty() {
            return None;
        }
        let line = self.page.line_of_part(finding.own)?;
        for other in self.findings.as_slice() {
            if other.kind == FindingKind::Leak
                && !other.way.is_empty()
                && self.page.line_of_part(other.own) == Some(line)
            {
                return Some(other.way);
            }
        }
        None
    }

    /// Returns a line without the blanks around it, by its number from 1; empty if there is no such line.
    pub fn line(&self, number: u32) -> Shown<'a> {
        Shown::line(self.text_of(number))
    }

    fn text_of(&self, number: u32) -> &'a [u8] {
        trim(self.lines.line(number).as_bytes())
    }

    /// Returns a word of a line, by its index from 0; empty if there is none.
    pub fn word(&self, number: u32, index: usize) -> &'a str {
        self.lines.word(number, index)
    }

    /// Returns the part of a line that its word with this index, counted from 0, takes up. The only error is that memory ran out.
    pub fn spot(&self, number: u32, index: usize) -> Result<Spot<'a>, AllocError> {
        let line = self.text_of(number);
        let words = words_of(self.alloc, line)?;
        Ok(Spot::of_word(number as usize, line, words.as_slice(), index))
    }

    /// Writes a message about a line, and shows the line with carets under the word with this index.
    pub fn mark_word<D: Display + Drop>(
        &mut self,
        number: u32,
        index: usize,
        message: D,
    ) -> Written {
        let spot = self.spot(number, index)?;
        self.page.mark(spot, message);
        Ok(())
    }

    /// Writes a message about a line, and shows the line with carets under its first word.
    pub fn mark<D: Display + Drop>(&mut self, number: u32, message: D) -> Written {
        self.mark_word(number, 0, message)
    }

    /// Begins the messages about what led to another finding. The finding's own line counts as shown.
    pub fn begin_way(&mut self, line: u32) -> Written {
        self.told.clear();
        self.told.push(line)?;
        Ok(())
    }

    /// Does what `mark_word` does, unless the line was shown before for the same finding. Does nothing if `number` is 0, which is no line.
    pub fn mark_new<D: Display + Drop>(
        &mut self,
        number: u32,
        index: usize,
        message: D,
    ) -> Written {
        if number == 0 || self.told.iter().any(|it| *it == number) {
            return Ok(());
        }
        self.told.push(number)?;
        self.mark_word(number, index, message)
    }
}
