//! What a heap records about its attempts: a line for each attempt, or only the rises. The code here doesn't decide whether an attempt is
//! granted.

ghost use Rattle.std.specs.Prelude.{◌≡◌, ◌<◌, ◌^◌, false, true, IfOk, IsOk, OnOk, OnErr, IsSome, Some};
ghost use Rattle.wb_heap_model.specs.Rises.{end_of_line};
ghost use Rattle.wb_heap_model.specs.Reported.{end_of_attempt};
ghost use Rattle.wb_debug.specs.Log.{IsTakenBack, adds, first_log, logged, top_in};

use std::alloc::Global;
use std::marker::Model;
use wb_basics::items::Items;
use wb_basics::memory::NoMemory;
use wb_heap_model::heap::{Answer, Attempt};
use wb_heap_model::reported::Trace;
use wb_heap_model::size::{Rise, Rises, top_of_rises};

/// The records of the attempts that were made.
#[derive(Drop)]
pub struct Log {
    /// The lines; empty if the log keeps rises instead of lines.
    trace: Trace,
    rises: Option<Rises>,
}

impl Model for Log {
    ghost use Rattle.wb_debug.specs.Log as log;

    ghost Value = { log.Log };

    ghost view = { λ inside. record { trace = inside.trace; rises = inside.rises } };
}

impl Log {
    /// Returns an empty log that keeps a line for each attempt.
    pub fn of_lines(alloc: Global) -> Log
        ensures { result ≡ first_log false }
    {
        Log {
            trace: Items::new(alloc),
            rises: None,
        }
    }

    /// Returns an empty log that keeps only the rises.
    pub fn of_rises(alloc: Global) -> Log
        ensures { result ≡ first_log true }
    {
        Log {
            trace: Items::new(alloc),
            rises: Some(Items::new(alloc)),
        }
    }

    /// Returns a copy of the log, in newly allocated memory; `NoMemory` if the workbench's memory runs out.
    pub fn try_copy(&self) -> Result<Log, NoMemory>
        ensures { IfOk result (λ copy. copy ≡ self.now) }
    {
        let trace = self.trace.try_copy()?;
        let rises = match &self.rises {
            Some(rises) => Some(rises.try_copy()?),
            None => None,
        };
        Ok(Log { trace, rises })
    }

    /// The lines that the log keeps.
    pub fn trace(&self) -> &Trace
        ensures { result.now ≡ self.now.trace }
    {
        &self.trace
    }

    /// Consumes the log of a run that is over, and returns the lines.
    pub fn into_trace(self) -> Trace
        ensures { result ≡ self.trace }
    {
        let Log { trace, rises: _ } = self;
        trace
    }

    /// The rises that the log keeps.
    pub fn rises(&self) -> &Rises
        requires { IsSome self.now.rises }
        ensures { Some result.now ≡ self.now.rises }
    {
        self.rises.as_ref().unwrap()
    }

    /// Consumes the log of a run that is over, and returns the rises.
    pub fn into_rises(self) -> Rises
        requires { IsSome self.rises }
        ensures { Some result ≡ self.rises }
    {
        let Log { trace: _, rises } = self;
        rises.unwrap()
    }

    /// Records one more attempt. A log that keeps lines adds the attempt's line; a log that keeps rises adds a rise if the attempt is a
    /// rise. Returns whether anything was added. A call that adds nothing never returns `Err`. After `Err`, the log is as it was.
    #[inline(always)]
    pub fn push(&mut self, line: Attempt) -> Result<bool, NoMemory>
        requires { end_of_attempt line < 2 ^ 32 }
        ensures pushed { OnOk result (self.new ≡ logged self.old line) }
        ensures added { IfOk result (λ added. added ≡ adds self.old line) }
        ensures quiet { adds self.old line ≡ false → IsOk result }
        ensures err { OnErr result (self.new ≡ self.old) }
    {
        let last = self.top();
        let Some(rises) = &mut self.rises else {
            self.trace.push(line)?;
            return Ok(true);
        };
        let top = end_of_grant(line);
        if top <= last {
            return Ok(false);
        }
        rises.push(Rise {
            number: line.number,
            top,
        })?;
        Ok(true)
    }

    /// Removes what the last attempt added to the log. `added` must say whether this attempt added anything.
    pub fn take_back(&mut self, added: bool)
        ensures { IsTakenBack self.old added self.new }
    {
        if !added {
            return;
        }
        match &mut self.rises {
            Some(rises) => {
                rises.pop();
            }
            None => {
                self.trace.pop();
            }
        }
    }

    /// The top of the last rise, in bytes; 0 if there is no rise yet, or if the log keeps lines.
    fn top(&self) -> u32
        ensures { result ≡ top_in self.now.rises }
    {
        let Some(rises) = &self.rises else {
            return 0;
        };
        top_of_rises(rises)
    }
}

/// Where the cell of an attempt ends, in bytes; 0 if the attempt wasn't granted.
fn end_of_grant(line: Attempt) -> u32
    requires { end_of_attempt line < 2 ^ 32 }
    ensures { result ≡ end_of_line line }
{
    match line.answer {
        Answer::Granted => line.place + line.length,
        Answer::Simulated | Answer::Refused => 0,
    }
}
