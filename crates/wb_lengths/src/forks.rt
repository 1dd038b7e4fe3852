//! Copies of a run, each of them right before one of the run's attempts. The runs in shorter heaps go on from them.

ghost use Rattle.std.specs.Prelude.{◌≡◌, IfSome};

use crate::parting::{attempts_of, parting_of, refused_in};
use crate::set_run::SetRun;
use std::alloc::{AllocError, Global};
use std::collections::VecDeque;
use wb_basics::memory::NoMemory;
use wb_heap_model::heap::Numbers;
use wb_machine::Heap;
use wb_meaning::run::RunResult;

/// How many whole runs are made before the first run from forks. Most scripts need fewer runs than that for all lengths, and forks would
/// gain nothing.
const WHOLE_RUNS: u32 = 16;

/// The greatest number of forks. If each length of heap refuses other cells, runs part at one of the last few attempts.
pub(crate) const MOST_FORKS: u32 = 24;

/// About how many bytes the heaps of all forks may have together.
const ROOM: u32 = 128 << 20;

/// Copies of a run, and what is known of how the run in the next shorter heap begins.
pub(crate) struct Forks<'a> {
    pub alloc: Global,
    /// The forks, in the order of the attempts that they are about to make. Each of these attempts granted a cell that ended past all
    /// earlier ones.
    pub runs: VecDeque<SetRun<'a>>,
    /// Heaps of runs that are over or were given up. The next runs take over their memory.
    pub heaps: Vec<Heap>,
    /// How many whole runs were made since the last run from forks that was given up.
    pub whole_runs: u32,
    /// The attempt that the heap of the last run granted and the next shorter heap refuses first; `None` if the next run is to be a whole
    /// run.
    pub parting: Option<u32>,
    /// The attempts that the heap of the last run refused.
    pub refused: Numbers,
    /// The most attempts that a run has made so far.
    pub most_attempts: u32,
}

/// This implementation is written out rather than derived. So a proof elsewhere that drops a `Forks` sees one call, and only the proof of
/// this function goes through the fields.
impl Drop for Forks<'_> {
    fn drop(self) {
        let Forks {
            alloc: _,
            runs: _,
            heaps: _,
            whole_runs: _,
            parting: _,
            refused: _,
            most_attempts: _,
        } = self;
    }
}

/// How many forks are kept if the heap has this length, in bytes.
fn most_forks(length: u32) -> usize {
    (ROOM / length.max(1)).min(MOST_FORKS) as usize
}

impl<'a> Forks<'a> {
    ghost use Rattle.wb_lengths.specs.Forks.{AreOf, KeepsForks, KeepsForksWith, IsOf};
    ghost use Rattle.wb_heap_model.specs.declared.heap.Shape.{Shape};
    ghost use Rattle.wb_tree.specs.declared.script.Script.{Script};
    ghost use Rattle.std.specs.Prelude.{ℕ};

    /// No forks yet.
    pub fn new(alloc: Global) -> Forks<'a>
        ensures { (script : Script) (budget : ℕ) (shape : Shape) →
            AreOf script budget shape result }
    {
        Forks {
            alloc,
            runs: VecDeque::new(alloc),
            heaps: Vec::new(alloc),
            whole_runs: 0,
            parting: None,
            refused: Numbers::new(alloc),
            most_attempts: 0,
        }
    }

    /// A heap whose memory the next run may take over; `None` if there is none.
    pub fn take_heap(&mut self) -> Option<Heap>
        ensures { self.new.runs.items ≡ self.old.runs.items }
    {
        self.heaps.pop()
    }

    /// Keeps the heap of a run that is over, for the next run.
    pub fn put_heap(&mut self, heap: Heap) -> Result<(), NoMemory>
        ensures { self.new.runs.items ≡ self.old.runs.items }
    {
        self.heaps
            .push(heap)
            .map_err(|failed| NoMemory::from(AllocError::from(failed)))
    }

    /// Gives a run up, and keeps its heap for the next run.
    pub fn give_up(&mut self, run: SetRun<'a>) -> Result<(), NoMemory>
        ensures { self.new.runs.items ≡ self.old.runs.items }
    {
        self.put_heap(run.into_heap())
    }

    /// Adds a fork at the end.
    fn add(&mut self, run: SetRun<'a>) -> Result<(), NoMemory>
        ensures { KeepsForksWith self.old run.entry self.new }
    {
        self.runs
            .push_back(run)
            .map_err(|failed| NoMemory::from(AllocError::from(failed)))
    }

    /// Gives the first fork up; does nothing if there is none.
    fn drop_first(&mut self) -> Result<(), NoMemory>
        ensures { KeepsForks self.old self.new }
    {
        match self.runs.pop_front() {
            Some(run) => self.give_up(run),
            None => Ok(()),
        }
    }

    /// Gives the last fork up; does nothing if there is none.
    fn drop_last(&mut self) -> Result<(), NoMemory>
        ensures { KeepsForks self.old self.new }
    {
        match self.runs.pop_back() {
            Some(run) => self.give_up(run),
            None => Ok(()),
        }
    }

    /// Takes the first fork; `None` if there is none.
    fn take_first(&mut self) -> Option<SetRun<'a>>
        ensures { (script : Script) (budget : ℕ) (shape : Shape) →
            AreOf script budget shape self.old →
            AreOf script budget shape self.new × IfSome result (IsOf script budget shape) }
    {
        self.runs.pop_front()
    }

    /// Adds a fork before all others.
    fn put_first(&mut self, run: SetRun<'a>) -> Result<(), NoMemory>
        ensures { KeepsForksWith self.old run.entry self.new }
    {
        self.runs
            .push_front(run)
            .map_err(|failed| NoMemory::from(AllocError::from(failed)))
    }

    /// Gives the second fork up; does nothing if there are fewer than two.
    fn drop_second(&mut self) -> Result<(), NoMemory>
        ensures { KeepsForks self.old self.new }
    {
        match self.take_first() {
            Some(first) => {
                self.drop_first()?;
                self.put_first(first)
            }
            None => Ok(()),
        }
    }

    /// Whether the first fork has nearly the whole length of the heap, in bytes.
    fn is_first_long(&self, length: u32) -> bool {
        match self.runs.front() {
            Some(run) => run.machine.committed() >= length - length / 8,
            None => false,
        }
    }

    /// Gives one of the first two forks up. The first one stays if it has nearly the whole length of the heap: the run can be made again
    /// from there without writing the zeros of a whole heap.
    fn make_room(&mut self, length: u32) -> Result<(), NoMemory>
        ensures { KeepsForks self.old self.new }
    {
        if self.is_first_long(length) {
            return self.drop_second();
        }
        self.drop_first()
    }

    /// Adds a fork, which is about to make a later attempt than all others. The heap has this length, in bytes. If there are too many forks
    /// then, one of the first two is given up.
    pub fn push(&mut self, run: SetRun<'a>, length: u32) -> Result<(), NoMemory>
        ensures { KeepsForksWith self.old run.entry self.new }
    {
        self.add(run)?;
        if self.runs.len() > most_forks(length) {
            self.make_room(length)?;
        }
        Ok(())
    }

    /// Whether the last fork has made an attempt, `number` or a later one.
    fn is_last_past(&self, number: u32) -> bool {
        match self.runs.back() {
            Some(run) => run.machine.attempts() >= number,
            None => false,
        }
    }

    /// Gives up each fork that is past an attempt.
    pub fn drop_past(&mut self, number: u32) -> Result<(), NoMemory>
        ensures { KeepsForks self.old self.new }
    {
        for _ in 0..self.runs.len() {
            if !self.is_last_past(number) {
                return Ok(());
            }
            self.drop_last()?;
        }
        Ok(())
    }

    /// Takes the last fork; `None` if there is none.
    pub fn take_last(&mut self) -> Option<SetRun<'a>>
        ensures { (script : Script) (budget : ℕ) (shape : Shape) →
            AreOf script budget shape self.old →
            AreOf script budget shape self.new × IfSome result (IsOf script budget shape) }
    {
        self.runs.pop_back()
    }

    /// Learns from a whole run where the run in the next shorter heap parts from it. The forks are of an older run, and are given up. Does
    /// nothing else before enough whole runs were made.
    pub fn learn(&mut self, run_result: &RunResult) -> Result<(), NoMemory>
        ensures { KeepsForks self.old self.new }
    {
        self.drop_past(0)?;
        self.whole_runs = self.whole_runs.saturating_add(1);
        self.most_attempts = self.most_attempts.max(attempts_of(run_result));
        if self.whole_runs < WHOLE_RUNS {
            return Ok(());
        }
        self.parting = parting_of(run_result);
        if self.parting.is_some() {
            self.refused = refused_in(self.alloc, run_result)?;
        }
        Ok(())
    }
}
