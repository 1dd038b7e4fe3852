//! The line on standard error that says how far a run has come, or which failure or length of heap is tried at the moment. On a terminal
//! the line is rewritten in place; elsewhere a line is written each minute. What the line says is in `progress_words`. How much of the
//! work is done is computed in `work`, and for sets of attempts in `set_work`.

use crate::progress_words::{
    Fine, WIDEST, line_of, line_of_length, line_of_set, line_of_states, line_of_steps, number_of,
};
use crate::set_work::SetWork;
use crate::work::{Estimate, Work};
use arrayvec::ArrayString;
use std::fmt::Write as _;
use std::io::{IsTerminal, Write};
use std::time::{Duration, Instant};
use wb_heap_model::heap::Numbers;
use wb_runs::failures::Failing;
use workbench::{Aim, Progress, StepProgress};

/// How long runs go on before the line is first shown, in milliseconds.
const QUIET: u64 = 2_000;

/// How long a line on a terminal stays as it is, in milliseconds.
const PAUSE: u64 = 100;

/// How long runs go on before a line is written where standard error is no terminal, and before the next one, in milliseconds.
const MINUTE: u64 = 60_000;

/// The most bytes that are written at once: a line, and what stands before and after it.
const WRITTEN: usize = 96;

/// The line on progress. On a terminal it is wiped when the runs end. Nothing depends on whether the line could be written, or on the time.
#[derive(Drop)]
pub struct ProgressLine<'a> {
    rt: &'a HostRuntime,
    /// Whether standard error is a terminal.
    is_terminal: bool,
    /// From when on the next line is to be written; `None` if none is to be written.
    due: Option<Instant>,
    /// What the sweep looks for; `None` before one begins.
    aim: Option<Aim>,
    /// The least number that is tried, alone or as the first of a set.
    first: u32,
    /// The greatest number that is tried so.
    last: u32,
    /// How many attempts each set has that is tried now.
    many: u32,
    /// How far the sweep has come with failures that have one number each.
    work: Work,
    /// How far the sweep has come with the sets of `many` attempts.
    sets: SetWork,
    /// How many states a search over all sets has met.
    states: u32,
    /// When the first failure was tried, or the first set of `many` attempts; `None` if that isn't known.
    since: Option<Instant>,
    /// The length of the heap in which a run is under way, in bytes; `None` if no search through all lengths is.
    length: Option<u32>,
    /// How many columns the line on the terminal takes; 0 if there is none.
    width: usize,
}

impl<'a> ProgressLine<'a> {
    /// A line that isn't shown yet.
    pub fn new(rt: &'a HostRuntime) -> ProgressLine<'a> {
        ProgressLine {
            rt,
            is_terminal: false,
            due: None,
            aim: None,
            first: 0,
            last: 0,
            many: 0,
            work: Work::new(0),
            sets: SetWork::new(0, 0),
            states: 0,
            since: None,
            length: None,
            width: 0,
        }
    }

    /// Whether the line is to be rewritten now.
    fn is_due(&self) -> bool {
        match self.due {
            Some(due) => Instant::now(self.rt).is_ok_and(|now| now >= due),
            None => false,
        }
    }

    /// The time `pause` milliseconds from now; `None` if the clock fails.
    fn after(&self, pause: u64) -> Option<Instant> {
        let now = Instant::now(self.rt).ok()?;
        now.checked_add(Duration::from_millis(pause))
    }

    /// Whether nothing is tried once all failures of `many` attempts are.
    fn ends_with(&self, many: u32) -> bool {
        match self.aim {
            Some(Aim::Least(most)) => most == many,
            Some(Aim::All) => true,
            None => false,
        }
    }

    /// The numbers before this one, which were tried and show nothing; `None` if the sweep goes on after a number that does.
    fn fine_before(&self, number: u32) -> Option<Fine> {
        match self.aim {
            Some(Aim::Least(_)) => Some(Fine {
                first: self.first,
                last: number.saturating_sub(1),
            }),
            Some(Aim::All) | None => None,
        }
    }

    /// The estimate as a failure is tried; `None` if there is none, or if sets are tried afterwards.
    fn estimate(&self, at: &Failing) -> Option<Estimate> {
        if !self.ends_with(1) {
            return None;
        }
        let elapsed = self.since?.elapsed(self.rt).ok()?;
        self.work.estimate(number_of(at), elapsed)
    }

    /// The estimate as a set is tried; `None` if there is none, or if larger sets are tried afterwards.
    fn estimate_of_sets(&self, numbers: &Numbers) -> Option<Estimate> {
        if !self.ends_with(self.many) {
            return None;
        }
        let elapsed = self.since?.elapsed(self.rt).ok()?;
        self.sets.estimate(numbers, elapsed)
    }

    /// How many seconds have passed since the time in `since`; `None` if that isn't known.
    fn seconds(&self) -> Option<u64> {
        let elapsed = self.since?.elapsed(self.rt).ok()?;
        Some(elapsed.as_secs())
    }

    /// How long a line stays the last one, in milliseconds.
    fn pause(&self) -> u64 {
        if self.is_terminal { PAUSE } else { MINUTE }
    }

    /// Begins to wait until the line is first shown.
    fn begin_quietly(&mut self) {
        self.is_terminal = self.rt.stderr().is_terminal();
        self.due = self.after(if self.is_terminal { QUIET } else { MINUTE });
    }

    /// Shows a text, if there is one, and then nothing else for a while.
    fn show(&mut self, text: Option<ArrayString<WIDEST>>) {
        if let Some(text) = text {
            if self.is_terminal {
                self.rewrite(text.as_str());
            } else {
                self.write(text.as_str());
            }
        }
        self.due = self.after(self.pause());
    }

    /// Writes a text in place of the line that is shown.
    fn rewrite(&mut self, text: &str) {
        let mut line = ArrayString::<WRITTEN>::new();
        if write!(line, "\r{:<1$}", text, self.width).is_ok() {
            let _ = self.rt.stderr().write_all(line.as_str().as_bytes());
            self.width = text.len();
        }
    }

    /// Writes a text as a line of its own.
    fn write(&self, text: &str) {
        let mut line = ArrayString::<WRITTEN>::new();
        if write!(line, "workbench: {text}\n").is_ok() {
            let _ = self.rt.stderr().write_all(line.as_str().as_bytes());
        }
    }
}

impl<'a> StepProgress for ProgressLine<'a> {
    fn take_steps(&mut self, steps: u32) {
        if self.is_due() {
            let line = match self.length {
                Some(length) => line_of_length(length),
                None => line_of_steps(steps),
            };
            self.show(line);
        }
    }
}

impl<'a> Progress for ProgressLine<'a> {
    fn begin_run(&mut self) {
        self.begin_quietly();
    }

    fn begin(&mut self, aim: Aim) {
        self.aim = Some(aim);
        self.begin_quietly();
    }

    fn begin_failures(&mut self, first: u32, last: u32) {
        self.first = first;
        self.last = last;
        self.work = Work::new(last);
    }

    fn begin_failure(&mut self, at: &Failing) {
        if self.due.is_none() {
            return;
        }
        if self.work.begin() {
            self.since = Instant::now(self.rt).ok();
        }
        if self.is_due() {
            let fine = self.fine_before(number_of(at));
            self.show(line_of(at, self.last, fine, self.estimate(at)));
        }
    }

    fn begin_sets(&mut self, many: u32) {
        self.many = many;
        self.sets = SetWork::new(many, self.last);
        if self.due.is_some() {
            self.since = Instant::now(self.rt).ok();
        }
    }

    fn begin_set(&mut self, numbers: &Numbers) {
        if self.due.is_none() {
            return;
        }
        self.sets.begin(numbers);
        if self.is_due() {
            let fine = self.fine_before(numbers.get(0).copied().unwrap_or(0));
            let estimate = self.estimate_of_sets(numbers);
            self.show(line_of_set(numbers, self.many, self.last, fine, estimate));
        }
    }

    fn meet_state(&mut self, waiting: usize) {
        self.states = self.states.saturating_add(1);
        if self.is_due() {
            self.show(line_of_states(self.many, self.states, waiting, self.seconds()));
        }
    }

    fn begin_lengths(&mut self) {
        self.begin_quietly();
    }

    fn begin_length(&mut self, length: u32) {
        self.length = Some(length);
        if self.is_due() {
            self.show(line_of_length(length));
        }
    }

    fn end(&mut self) {
        self.length = None;
        if self.width > 0 {
            self.rewrite("");
            let _ = self.rt.stderr().write_all(b"\r");
        }
        self.due = None;
    }
}
