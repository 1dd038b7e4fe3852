//! Tests of the progress that the program reports during a run, a sweep, or the search through all lengths. The program must report all
//! progress before it writes anything.

ghost use Rattle.std.specs.Prelude.{⊤};

mod told;

use crate::progress::told::{TOLD, Wanted};
use crate::rules::Refuses;
use std::alloc::Global;
use std::cell::Cell;
use std::io;
use std::io::Write;
use std::test::Fail;
use wb_heap_model::heap::Numbers;
use wb_runs::failures::Failing;
use workbench::host::Host;
use workbench::program::program;
use workbench::{Aim, Progress, StepProgress};

/// A listener that compares the notifications it gets with the notifications that it must get.
#[derive(Drop)]
struct Listener<'a> {
    /// The failures that are still to be reported.
    to_come: &'static [Refuses],
    /// Whether the sweep met states.
    has_met_states: bool,
    /// The lengths that are still to be reported, in bytes.
    lengths_to_come: &'static [u32],
    /// The numbers of steps that are still to be reported as progress.
    steps_to_come: &'static [u32],
    is_as_wanted: bool,
    begun_runs: u32,
    begun: u32,
    aim: Option<Aim>,
    last: Option<u32>,
    ended: u32,
    is_under_way: &'a Cell<bool>,
}

impl Listener<'_> {
    /// Notes that a sweep, or the search through all lengths, begins.
    fn note_begin(&mut self) {
        self.begun = self.begun.wrapping_add(1);
        self.is_under_way.set(true);
    }
}

impl StepProgress for Listener<'_> {
    fn take_steps(&mut self, steps: u32) {
        match self.steps_to_come.split_first() {
            Some((next, rest)) => {
                self.is_as_wanted &= *next == steps && self.is_under_way.get();
                self.steps_to_come = rest;
            }
            None => self.is_as_wanted = false,
        }
    }
}

impl Progress for Listener<'_> {
    fn begin_run(&mut self) {
        self.begun_runs = self.begun_runs.wrapping_add(1);
        self.is_under_way.set(true);
    }

    fn begin(&mut self, aim: Aim) {
        self.aim = Some(aim);
        self.note_begin();
    }

    fn begin_failures(&mut self, first: u32, last: u32) {
        self.is_as_wanted &= self.last.is_none() && first == 1;
        self.last = Some(last);
    }

    fn begin_failure(&mut self, at: &Failing) {
        match self.to_come.split_first() {
            Some((next, rest)) => {
                self.is_as_wanted &= *next == Refuses::of(at);
                self.to_come = rest;
            }
            None => self.is_as_wanted = false,
        }
    }

    fn begin_sets(&mut self, many: u32) {
        self.is_as_wanted &= self.to_come.is_empty() && many > 1;
    }

    fn begin_set(&mut self, _numbers: &Numbers) {
        self.is_as_wanted = false;
    }

    fn meet_state(&mut self, _waiting: usize) {
        self.is_as_wanted &= self.to_come.is_empty();
        self.has_met_states = true;
    }

    fn begin_lengths(&mut self) {
        self.note_begin();
    }

    fn begin_length(&mut self, length: u32) {
        match self.lengths_to_come.split_first() {
            Some((next, rest)) => {
                self.is_as_wanted &= *next == length;
                self.lengths_to_come = rest;
            }
            None => self.is_as_wanted = false,
        }
    }

    fn end(&mut self) {
        self.ended = self.ended.wrapping_add(1);
        self.is_under_way.set(false);
    }
}

/// A writer that takes all bytes, and notes whether some came while a sweep was under way.
#[derive(Drop)]
struct Taker<'a> {
    is_under_way: &'a Cell<bool>,
    is_early: bool,
    taken: usize,
}

impl Write for Taker<'_> {
    fn write(&mut self, bytes: &[u8]) -> io::Result<usize> {
        self.is_early |= self.is_under_way.get();
        self.taken = self.taken.wrapping_add(bytes.len());
        Ok(bytes.len())
    }

    fn flush(&mut self) -> io::Result<()> {
        Ok(())
    }
}

/// A host with a standard input and without files.
#[derive(Drop)]
struct Desk {
    input: &'static [u8],
}

impl Host for Desk {
    type File = &'static [u8];

    type Input = &'static [u8];

    ghost opens = { λ _ _ _ _. ⊤ };

    ghost lends = { λ _ _ _. ⊤ };

    fn open(&mut self, _name: &str) -> Option<&'static [u8]> {
        None
    }

    fn standard_input(&mut self) -> &'static [u8] {
        self.input
    }
}

/// Whether the program reports the wanted progress, and reports all of it before it writes anything. `is_under_way` must be false at first.
fn is_reported<'a>(
    alloc: Global,
    words: Vec<&'static str>,
    wanted: &Wanted,
    is_under_way: &'a Cell<bool>,
) -> bool {
    let mut listener: Listener<'a> = Listener {
        to_come: wanted.failures,
        has_met_states: false,
        lengths_to_come: wanted.lengths,
        steps_to_come: wanted.steps,
        is_as_wanted: true,
        begun_runs: 0,
        begun: 0,
        aim: None,
        last: None,
        ended: 0,
        is_under_way,
    };
    let mut taker: Taker<'a> = Taker {
        is_under_way,
        is_early: false,
        taken: 0,
    };
    let mut desk = Desk {
        input: wanted.script,
    };
    let mut messages = Vec::new(alloc);
    program(
        alloc,
        Ok(words),
        &mut desk,
        &mut taker,
        &mut messages,
        &mut listener,
    );
    listener.is_as_wanted
        && listener.to_come.is_empty()
        && listener.has_met_states == wanted.are_sets_searched
        && listener.lengths_to_come.is_empty()
        && listener.steps_to_come.is_empty()
        && listener.begun_runs == wanted.single_runs
        && listener.begun == wanted.sweeps
        && listener.aim == wanted.aim
        && listener.last == wanted.last
        && listener.ended == wanted.sweeps.wrapping_add(wanted.single_runs)
        && taker.taken > 0
        && !taker.is_early
}

#[test]
fn reports_each_failure_before_the_report(rt: HostRuntime) -> Result<(), Fail> {
    for (index, wanted) in TOLD.iter().enumerate() {
        let mut words = Vec::new(rt.alloc());
        words.extend_from_slice(wanted.words)?;
        let is_under_way = Cell::new(false);
        assert!(rt;
            is_reported(rt.alloc(), words, wanted, &is_under_way),
            "row {index}"
        );
    }
    Ok(())
}
