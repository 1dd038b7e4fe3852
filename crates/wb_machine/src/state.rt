//! The state that all bodies of a running script share. The effects of statements on the state are in other files, by subject. The file
//! `control` holds what a run still has to do.

ghost use Rattle.std.specs.Prelude.{◌≡◌, ◌+◌, ◌^◌, ◌<◌, [], length, false, true, IfOk, OnOk, IsSome, IsTrue, Some};
ghost use Rattle.std.specs.List.{list_all};
ghost use Rattle.wb_heap_model.specs.Debug.{first_debug_of, keeps_rises};
ghost use Rattle.wb_heap_model.specs.SameRules.{SameSoFar};
ghost use Rattle.wb_heap_model.specs.declared.heap.Rule.TheVariants.{Unlimited};
ghost use Rattle.wb_heap_model.specs.Space.{is_shape};
ghost use Rattle.wb_heap_model.specs.Pointers.{null};
ghost use Rattle.wb_machine.specs.RunState.{first_state};
ghost use Rattle.wb_machine.specs.Results.{leaks_at_end, outcome_by, run_result_by};
ghost use Rattle.wb_machine.specs.Effects.{pointer_read, number_read, pointer_stored, stored, stepped, entered};
ghost use Rattle.wb_machine.specs.Effects.{framed_with, called_back};
ghost use Rattle.wb_machine.specs.LocalValues.{is_small, value_of, values_of_arguments};
ghost use Rattle.wb_machine.specs.PointerOperands.{holder_pointer_in};
ghost use Rattle.wb_machine.specs.Owed.{IsSameButFrames, KeepsCount};

use crate::arguments::CallArguments;
use crate::finished::Finished;
use crate::locals::{Locals, NULL, Slot};
use crate::pieces::Ending;
use crate::pointers::ReadContext;
use std::alloc::Global;
use std::marker::Model;
use wb_basics::items::Items;
use wb_basics::memory::NoMemory;
use wb_basics::printed_line::copy_of_lines;
use wb_cleanup::Cleanup;
use wb_debug::Heap;
use wb_debug::debug_heap::DebugHeap;
use wb_heap_model::heap::{Ptr, Rule, Shape};
use wb_heap_model::reported::{Leaks, Notes};
use wb_meaning::run::{Lines, Outcome, RisesResult, RunResult};
use wb_tree::script::{Holder, Local, Number, Pointer, Script};

/// The state that all bodies share.
pub struct State {
    pub heap: DebugHeap,
    /// The cleanup stack; `None` before attempt 1, and if attempt 1 failed.
    pub cleanup: Option<Cleanup>,
    /// The object whose `construct` or `destroy` runs in the innermost frame; null if that frame runs another body.
    pub this: Ptr,
    pub locals: Locals,
    pub lines: Lines,
    pub notes: Notes,
    pub steps: u32,
}

/// This `drop` is written by hand, so that only this function goes over the fields. In a proof about a function that drops a `State`, the
/// drop is then a single call.
impl Drop for State {
    fn drop(self) {
        let State {
            heap: _,
            cleanup: _,
            this: _,
            locals: _,
            lines: _,
            notes: _,
            steps: _,
        } = self;
    }
}

impl Model for State {
    ghost use Rattle.wb_machine.specs.RunState.{RunState};

    ghost Value = { RunState };

    ghost use Rattle.wb_machine.specs.StateView.{run_state};

    ghost view = { run_state };

    ghost use Rattle.wb_machine.specs.StackInvariant.{IsMemory};

    ghost invariant = { λ s. IsMemory s.heap s.cleanup };
}

impl State {
    /// The state of a run before its first attempt. The run keeps a trace, which has a line for each attempt.
    pub fn new(alloc: Global, rule: Rule, shape: Shape) -> Result<State, NoMemory>
        requires { IsTrue (is_shape shape) }
        ensures { IfOk result (λ state. state ≡ first_state false rule shape) }
    {
        Ok(over_heap(alloc, DebugHeap::of_shape(alloc, rule, shape)?))
    }

    /// The state, before the first attempt, of a run without a limit. Instead of a trace, the run keeps its rises: the granted attempts
    /// whose cells end past the ends of all cells that were granted earlier.
    pub fn new_rises(alloc: Global, shape: Shape) -> Result<State, NoMemory>
        requires { IsTrue (is_shape shape) }
        ensures { IfOk result (λ state. state ≡ first_state true Unlimited shape) }
    {
        Ok(over_heap(alloc, DebugHeap::rises_of_shape(alloc, shape)?))
    }

    /// Copies the state: changing the state or its copy doesn't change the other. If `spare` is given, the copy's heap takes the memory of
    /// `spare`, and what `spare` held is lost. All other parts of the copy get memory of their own.
    pub fn try_copy_over(&self, spare: Option<Heap>) -> Result<State, NoMemory>
        ensures { IfOk result (λ copy. copy ≡ self.now) }
    {
        Ok(State {
            heap: self.heap.try_copy_over(spare)?,
            cleanup: self.cleanup,
            this: self.this,
            locals: self.locals.try_copy()?,
            lines: copy_of_lines(&self.lines)?,
            notes: self.notes.try_copy()?,
            steps: self.steps,
        })
    }

    /// Sets another rule for the attempts to come. Neither the old rule nor the new rule may be a limit, and both rules must agree on which
    /// of the attempts made so far fail.
    pub fn set_rule(&mut self, rule: Rule)
        requires same { SameSoFar rule self.old.debug.rule self.old.debug.attempts }
        ensures { self.new ≡ record self.old { debug = record self.old.debug { rule = rule } } }
    {
        self.heap.set_rule(rule);
    }

    /// How many attempts were made.
    pub fn attempts(&self) -> u32
        ensures { result ≡ self.now.debug.attempts }
    {
        self.heap.attempts()
    }

    /// How many steps were counted.
    pub fn steps(&self) -> u32
        ensures { result ≡ self.now.steps }
    {
        self.steps
    }

    /// Counts a step.
    #[inline(always)]
    pub fn tick(&mut self)
        requires { self.old.steps + 1 < 2 ^ 32 }
        ensures { self.new ≡ stepped self.old }
    {
        self.steps += 1;
    }

    /// Adds the frame of `main`, with the locals of `main`.
    pub fn enter(&mut self, script: &Script, locals: &[Local]) -> Result<(), NoMemory>
        requires none { self.old.locals ≡ [] }
        requires no_caller { self.old.callers ≡ [] }
        requires no_object { self.old.this ≡ null }
        requires locals { IsTrue (list_all is_small locals.now) }
        ensures entered { OnOk result (self.new ≡ entered self.old locals.now) }
        ensures debug { self.new.debug ≡ self.old.debug }
    {
        let context = ReadContext {
            script,
            heap: &self.heap,
            this: self.this,
        };
        self.locals
            .call(context, CallArguments::Arguments(&[]), locals)?;
        Ok(())
    }

    /// The object whose `construct` or `destroy` runs in the innermost frame; null if that frame runs another body.
    pub fn this(&self) -> Ptr
        ensures { result ≡ self.now.this }
    {
        self.this
    }

    /// Adds a frame for a body that is called. `this` is the object whose body is called, or null. The parameters get their values from
    /// `call_arguments`. Returns where the caller's frame begins among the locals.
    pub fn call(
        &mut self,
        script: &Script,
        this: Ptr,
        call_arguments: CallArguments,
        locals: &[Local],
    ) -> Result<usize, NoMemory>
        requires { IsTrue (list_all is_small locals.now) }
        ensures called { OnOk result (self.new ≡ framed_with self.old this
            (values_of_arguments script.now self.old call_arguments.entry) locals.now) }
        ensures caller { IfOk result (λ base. base ≡ length self.old.callers) }
        ensures frames { IsSameButFrames self.old self.new }
    {
        let context = ReadContext {
            script,
            heap: &self.heap,
            this: self.this,
        };
        let caller = self.locals.call(context, call_arguments, locals)?;
        self.this = this;
        Ok(caller)
    }

    /// Drops the frame of a body that has ended. The caller's frame, which begins at `base`, becomes the innermost frame again. `this` is
    /// the object whose body the caller runs, or null.
    pub fn end_call(&mut self, this: Ptr, base: usize)
        ensures { self.new ≡ called_back self.old this base }
    {
        self.locals.end_call(base);
        self.this = this;
    }

    /// The value of a pointer operand in the innermost frame.
    #[inline(always)]
    pub fn pointer(&self, script: &Script, operand: Pointer) -> Ptr
        ensures { result ≡ pointer_read script.now self.now operand }
    {
        let context = ReadContext {
            script,
            heap: &self.heap,
            this: self.this,
        };
        self.locals.pointer(context, operand)
    }

    /// The pointer that a holder, which is a local or `self`, holds.
    #[inline(always)]
    pub fn holder_pointer(&self, holder: Holder) -> Ptr
        ensures { result ≡ holder_pointer_in self.now holder }
    {
        self.locals.holder_pointer(self.this, holder)
    }

    /// The value of a number operand in the innermost frame.
    #[inline(always)]
    pub fn number(&self, operand: Number) -> i32
        ensures { result ≡ number_read self.now operand }
    {
        self.locals.number(operand)
    }

    /// Puts a value into a local of the innermost frame.
    #[inline(always)]
    pub fn set(&mut self, index: u8, slot: Slot)
        ensures { self.new ≡ stored self.old index (value_of slot) }
    {
        self.locals.set(index, slot);
    }

    /// Puts a pointer into the local or the field that an operand names. `self` can't be set, and stays as it is.
    #[inline(always)]
    pub fn set_pointer(&mut self, target: Pointer, ptr: Ptr)
        ensures stored { self.new ≡ pointer_stored self.old target ptr }
        ensures keeps { KeepsCount self.old self.new }
    {
        match target {
            Pointer::Held(Holder::Local(index)) => self.set(index, Slot::Pointer(ptr)),
            Pointer::Held(Holder::This) => {}
            Pointer::Field(holder, _, index) => self.set_field(
                self.holder_pointer(holder),
                index,
                ptr,
            ),
        }
    }

    /// The live cells in order of place, except the cleanup stack's own cell.
    pub fn leaks(&self) -> Result<Leaks, NoMemory>
        ensures { IfOk result (λ leaks. leaks ≡ leaks_at_end self.now) }
    {
        self.heap.leaks()
    }

    /// The result of a run that kept its rises instead of a trace. The result is made from the run's ending and its leaks.
    pub fn finish_rises(self, ending: Ending, leaks: Leaks) -> RisesResult
        requires { IsSome self.debug.rises }
        ensures outcome { result.outcome ≡ outcome_by ending leaks }
        ensures rises { Some result.rises ≡ self.debug.rises }
        ensures steps { result.steps ≡ self.steps }
    {
        let State {
            heap,
            cleanup: _,
            this: _,
            locals: _,
            lines: _,
            notes: _,
            steps,
        } = self;
        RisesResult {
            outcome: outcome_by(ending, leaks),
            rises: heap.into_rises(),
            steps,
        }
    }

    /// Gives the state up and returns its heap, so that a copy of another state can take the heap's memory.
    pub fn into_heap(self) -> Heap {
        let State {
            heap,
            cleanup: _,
            this: _,
            locals: _,
            lines: _,
            notes: _,
            steps: _,
        } = self;
        heap.into_trace_and_heap().1
    }

    /// What remains of a run with this ending and these leaks.
    pub fn finish(self, ending: Ending, leaks: Leaks) -> Finished
        ensures { result.result ≡ run_result_by ending leaks self }
    {
        let State {
            heap,
            cleanup: _,
            this: _,
            locals: _,
            lines,
            notes,
            steps,
        } = self;
        let (trace, heap) = heap.into_trace_and_heap();
        Finished {
            result: RunResult {
                outcome: outcome_by(ending, leaks),
                trace,
                lines,
                notes,
                steps,
            },
            heap,
        }
    }
}

/// The state before the first attempt, with a heap in which no attempt was made yet.
fn over_heap(alloc: Global, heap: DebugHeap) -> State
    requires { heap ≡ first_debug_of (keeps_rises heap) heap.rule heap.shape }
    ensures { result ≡ first_state (keeps_rises heap) heap.rule heap.shape }
{
    State {
        heap,
        cleanup: None,
        this: NULL,
        locals: Locals::new(alloc),
        lines: Items::new(alloc),
        notes: Items::new(alloc),
        steps: 0,
    }
}

/// The outcome of a run with this ending. The outcome lists the leaks unless the run was stopped by a panic, a cut or a failed attempt 1.
pub fn outcome_by(ending: Ending, leaks: Leaks) -> Outcome
    ensures { result ≡ outcome_by ending leaks }
{
    match ending {
        Ending::GoesOn => Outcome::Ended { left: None, leaks },
        Ending::Returns(_) => Outcome::Ended { left: None, leaks },
        Ending::Leaves(code) => Outcome::Ended {
            left: Some(code),
            leaks,
        },
        Ending::Panics(panic) => Outcome::Panicked(panic),
        Ending::Cut(why) => Outcome::Cut(why),
        Ending::NoCleanup => Outcome::NoCleanup,
    }
}
