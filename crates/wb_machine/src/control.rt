//! What a run still has to do, as a stack of pending pieces of work, and the steps of the pieces. The pieces act on a `State`. The file
//! `frequent` begins a statement, and `heads` and `calls` add the statement's pieces. The steps that destroy are in `destroying`. The file
//! `unwinding` handles the pieces that are done, and `running` takes machine turns.

ghost use Rattle.std.specs.Prelude.{IfOk, List, take, vec_len, ◌-◌, ◌≡◌, ◌+◌, ◌^◌, ◌<◌, ◌≤◌, ◌⊎◌, ◌++◌, ◌∷◌, [], ℕ};
ghost use Rattle.std.specs.Prelude.{true, false, if◌then◌else◌, length, unwrap_or, max, IsTrue, OnOk};
ghost use Rattle.wb_tree.specs.Sound.{is_script};
ghost use Rattle.wb_meaning.specs.Statements.{turns};
ghost use Rattle.wb_tree.specs.Bodies.{procedure_at};
ghost use Rattle.wb_meaning.specs.Rest.{doing, first_line};
ghost use Rattle.wb_heap_model.specs.SameRules.{Fits};
ghost use Rattle.wb_heap_model.specs.Debug.{keeps_rises};
ghost use Rattle.wb_meaning.specs.Run.{whole_run};
ghost use Rattle.wb_heap_model.specs.declared.heap.Rule.{Rule};
ghost use Rattle.wb_tree.specs.declared.script.Script.{Script};
ghost use Rattle.wb_tree.specs.declared.script.Statement.TheViews.{out-Statement};
ghost use Rattle.wb_machine.specs.declared.pieces.Ending.TheVariants.{GoesOn};
ghost use Rattle.wb_machine.specs.declared.pieces.PendingPiece.{PendingPiece};
ghost use Rattle.wb_machine.specs.declared.pieces.PendingPiece.TheVariants.{Turns};
ghost use Rattle.wb_machine.specs.RunState.{state_of};
ghost use Rattle.wb_machine.specs.Flow.{context_of, pending_in, is_stop, is_over, progress_by, needs_step, AreOwn};
ghost use Rattle.wb_machine.specs.Flow.{IsFirst, IsOwn, AreSound, IsReady, rest_from, rest_of_piece};
ghost use Rattle.wb_machine.specs.Flow.{rest_of_statement};
ghost use Rattle.wb_machine.specs.Asks.{asks_next};
ghost use Rattle.wb_machine.specs.Effects.{stepped};
ghost use Rattle.wb_machine.specs.ObjectInvariant.{AreWhole, StaysWhole};
ghost use Rattle.wb_machine.specs.Owed.{HasStack, Stays};
ghost use Rattle.wb_machine.specs.SlotInvariant.{slots_for, slots_for_all, to_destroy, to_destroy_first};
ghost use Rattle.wb_machine.specs.SlotInvariant.{HasRoom};
ghost use Rattle.wb_machine.specs.Steps.{MayBegin, MayStep};

mod calls;
mod depths;
mod destroying;
mod frequent;
mod heads;
mod running;
mod same;
mod unwinding;

use crate::pieces::{Context, Ending, IN_MAIN, PendingPiece, first_statement};
use crate::raiser::{Raised, Raiser};
use crate::state::State;
use std::alloc::{AllocError, Global};
use wb_basics::memory::NoMemory;
use wb_tree::script::{Body, Script, Statement, StatementAt};

/// The pending pieces of a run, with the last piece on top; also how the piece that was above these pieces ended, and which statement was
/// begun last.
#[derive(Drop)]
pub struct Control<'a> {
    pieces: Vec<PendingPiece<'a>>,
    ending: Ending,
    /// The script line of the statement begun last.
    line: u32,
    /// The statement begun last.
    statement: Option<&'a Statement>,
    /// How many bodies were running when the run last began a statement.
    depth: u32,
    /// What raises the next panic, if one comes.
    raiser: Raiser,
}

/// The body of the procedure with this index.
fn procedure_at(script: &Script, index: u16) -> &Body
    requires { index < length script.now.procedures }
    ensures { result.now ≡ procedure_at script.now index }
{
    match script.procedures.get(index as usize) {
        Some(procedure) => &procedure.body,
        None => unreachable!(),
    }
}

/// How many bodies run while this piece is on top; 0 if there is no piece, or the piece has no `Context`. If a piece is on top when a run
/// panics, this piece has a `Context`.
fn depth_of(top: Option<&PendingPiece>) -> u32 {
    match top {
        Some(PendingPiece::Code(at, _))
        | Some(PendingPiece::Turns(at, ..))
        | Some(PendingPiece::Items(at, _))
        | Some(PendingPiece::Object(at, _))
        | Some(PendingPiece::Trap(at, ..)) => at.depth,
        _ => 0,
    }
}

impl<'a> Control<'a> {
    /// The control of a run that hasn't begun: there are no pending pieces.
    pub fn new(alloc: Global) -> Control<'a>
        ensures pieces { result.pieces.items ≡ [] }
        ensures ending { result.ending ≡ GoesOn }
        ensures line { result.line ≡ 0 }
    {
        Control {
            pieces: Vec::new(alloc),
            ending: Ending::GoesOn,
            line: 0,
            statement: None,
            depth: 0,
            raiser: Raiser::Statement,
        }
    }

    /// Copies the control, with its pieces in memory of their own. Returns `Err` if the workbench runs out of memory.
    pub fn try_copy(&self) -> Result<Control<'a>, AllocError>
        ensures pieces { IfOk result (λ copy. copy.pieces.items ≡ self.now.pieces.items) }
        ensures ending { IfOk result (λ copy. copy.ending ≡ self.now.ending) }
        ensures line { IfOk result (λ copy. copy.line ≡ self.now.line) }
    {
        let mut pieces = Vec::new(*self.pieces.allocator());
        pieces.extend_from_slice(self.pieces.as_slice())?;
        Ok(Control {
            pieces,
            ending: self.ending,
            line: self.line,
            statement: self.statement,
            depth: self.depth,
            raiser: self.raiser,
        })
    }

    /// How the piece that was above the pending pieces ended.
    pub fn ending(&self) -> Ending
        ensures { result ≡ self.now.ending }
    {
        self.ending
    }

    /// The script line of the statement begun last; 0 before the first statement.
    pub fn line(&self) -> u32
        ensures { result ≡ self.now.line }
    {
        self.line
    }

    /// The statement begun last; `None` before the first.
    pub fn statement(&self) -> Option<&'a Statement> {
        self.statement
    }

    /// The statement that the next machine turn begins if the budget lasts; `None` if the turn begins no statement.
    pub fn next_statement(&self) -> Option<&'a Statement> {
        if self.is_over() {
            return None;
        }
        let first = first_statement(self.pieces.last()?)?;
        Some(&first.statement)
    }

    /// How many bodies were running when the run last began a statement; 0 before the first statement.
    pub fn depth(&self) -> u32 {
        self.depth
    }

    /// The panic that ended the run; `None` if no panic ended it.
    pub fn raised_panic(&self) -> Option<Raised> {
        let Ending::Panics(panic) = self.ending else {
            return None;
        };
        Some(Raised {
            panic,
            raiser: self.raiser,
            depth: depth_of(self.pieces.last()),
        })
    }

    /// Whether the run is over: it was stopped, or nothing is left to do.
    #[inline(always)]
    pub fn is_over(&self) -> bool
        ensures { result ≡ is_over self.now.ending self.now.pieces.items }
    {
        self.ending.is_stop() || self.pieces.is_empty()
    }

    /// Puts a piece on top.
    #[inline(always)]
    fn push(&mut self, piece: PendingPiece<'a>) -> Result<(), AllocError>
        ensures pieces { OnOk result (self.new.pieces.items
            ≡ self.old.pieces.items ++ piece.entry ∷ []) }
        ensures ending { OnOk result (self.new.ending ≡ self.old.ending) }
        ensures slots { OnOk result (slots_for_all self.new.pieces.items
            ≡ max (slots_for_all self.old.pieces.items) (slots_for piece.entry)) }
        ensures first { OnOk result (to_destroy_first self.new.pieces.items
            ≡ to_destroy piece.entry) }
        ensures line { self.new.line ≡ self.old.line }
    {
        self.pieces.push(piece)?;
        Ok(())
    }

    /// The piece on top, which has a step to take.
    #[inline(always)]
    fn top(&self) -> PendingPiece<'a>
        requires { IsReady self.now.ending self.now.pieces.items }
        ensures top { self.now.pieces.items
            ≡ take (vec_len self.now.pieces - 1) self.now.pieces.items ++ result ∷ [] }
        ensures needs_step { needs_step result ≡ true }
        ensures some { 0 < vec_len self.now.pieces }
    {
        self.pieces[self.pieces.len() - 1]
    }

    /// Takes off the piece on top.
    #[inline(always)]
    fn drop_top(&mut self)
        requires { 0 < vec_len self.old.pieces }
        ensures pieces { self.new.pieces.items
            ≡ take (vec_len self.old.pieces - 1) self.old.pieces.items }
        ensures ending { self.new.ending ≡ self.old.ending }
        ensures line { self.new.line ≡ self.old.line }
    {
        self.pieces.truncate(self.pieces.len() - 1);
    }

    /// Replaces the piece on top.
    #[inline(always)]
    fn replace_top(&mut self, piece: PendingPiece<'a>)
        requires { 0 < vec_len self.old.pieces }
        ensures pieces { (below : List PendingPiece) (p : PendingPiece) →
            self.old.pieces.items ≡ below ++ p ∷ [] →
            self.new.pieces.items ≡ below ++ piece.entry ∷ [] }
        ensures ending { self.new.ending ≡ self.old.ending }
        ensures line { self.new.line ≡ self.old.line }
    {
        let top = self.pieces.len() - 1;
        self.pieces[top] = piece;
    }

    /// The first machine turn: makes attempt 1 and, if this attempt is granted, begins `main` under `main`'s own TRAP.
    #[inline(never)]
    pub fn begin(&mut self, script: &'a Script, state: &mut State) -> Result<(), NoMemory>
        requires script { IsTrue (is_script script.now) }
        requires first { IsFirst self.old.ending self.old.pieces.items state.old }
        ensures kept { OnOk result ((r : Rule) (budget : ℕ) →
            Fits r state.old.debug.rule (is_stop self.new.ending) state.new.debug.attempts →
            rest_from script.now budget r self.new.ending self.new.pieces.items state.new
            ≡ whole_run (keeps_rises state.old.debug) script.now r budget state.old.debug.shape) }
        ensures sound { OnOk result (AreSound script.now self.new.pieces.items) }
        ensures stays { Stays state.old state.new }
        ensures level { OnOk result (state.new.debug.heap.level ≡ 0) }
        ensures steps { OnOk result (state.new.steps ≡ 0) }
        ensures one { OnOk result (state.new.debug.attempts ≡ 1) }
        ensures stack { OnOk result (is_stop self.new.ending ≡ false → HasStack state.new) }
        ensures room { OnOk result (HasRoom self.new.ending self.new.pieces.items state.new) }
        ensures whole { OnOk result (AreWhole script.now state.new.debug.heap.row) }
        ensures line { self.new.line ≡ self.old.line }
    {
        if !state.start()? {
            self.ending = Ending::NoCleanup;
            return Ok(());
        }
        let main = procedure_at(script, script.main);
        state.enter(script, main.locals.as_slice())?;
        self.push(PendingPiece::MainTrap)?;
        self.push(PendingPiece::Code(IN_MAIN, main.statements.as_slice()))?;
        Ok(())
    }

    /// Begins a statement. The piece on top holds the statements that follow this statement in its block.
    #[inline(always)]
    fn step_code(
        &mut self,
        script: &'a Script,
        at: Context,
        first: &'a StatementAt,
        state: &mut State,
    ) -> Result<(), NoMemory>
        requires script { IsTrue (is_script script.now) }
        requires own { IsOwn script.now (out-Statement first.now.statement) }
        requires may { MayBegin script.now self.old.ending self.old.pieces.items state.old }
        requires steps { state.old.steps + 1 < 2 ^ 32 }
        ensures kept { OnOk result ((r : Rule) (budget : ℕ) →
            Fits r state.old.debug.rule (is_stop self.new.ending) state.new.debug.attempts →
            rest_from script.now budget r self.new.ending self.new.pieces.items state.new
            ≡ rest_of_statement script.now budget r (context_of at)
            (out-Statement first.now.statement) self.old.pieces.items (stepped state.old)) }
        ensures sound { OnOk result (AreSound script.now self.new.pieces.items) }
        ensures stays { Stays state.old state.new }
        ensures steps { OnOk result (state.new.steps ≡ state.old.steps + 1) }
        ensures room { OnOk result (HasRoom self.new.ending self.new.pieces.items state.new) }
        ensures whole { OnOk result (StaysWhole script.now state.old state.new) }
        ensures line { OnOk result (self.new.line ≡ first.now.line) }
    {
        state.tick();
        self.line = first.line;
        self.statement = Some(&first.statement);
        self.depth = at.depth;
        self.raiser = Raiser::Statement;
        self.begin_any(script, at, &first.statement, state)
    }

    /// Begins a turn of a `repeat`. The piece on top is the `repeat`: it loses one of its turns, and the body is put above it.
    #[inline(always)]
    fn step_turns(
        &mut self,
        at: Context,
        left: u32,
        body: &'a [StatementAt],
        state: &mut State,
    ) -> Result<(), NoMemory>
        requires going { self.old.ending ≡ GoesOn }
        requires left { 0 < left }
        requires some { 0 < vec_len self.old.pieces }
        requires steps { state.old.steps + 1 < 2 ^ 32 }
        ensures kept { OnOk result ((script : Script) (r : Rule) (budget : ℕ)
            (below : List PendingPiece) →
            self.old.pieces.items ≡ below ++ Turns at left body.entry ∷ [] →
            state.old.steps < budget →
            rest_from script budget r self.new.ending self.new.pieces.items state.new
            ≡ rest_of_piece script budget r (doing (context_of at) (turns left body.now)) below
            state.old) }
        ensures sound { OnOk result ((script : Script) (below : List PendingPiece) →
            self.old.pieces.items ≡ below ++ Turns at left body.entry ∷ [] →
            AreOwn script body.now → AreSound script below →
            AreSound script self.new.pieces.items) }
        ensures slots { OnOk result ((below : List PendingPiece) →
            self.old.pieces.items ≡ below ++ Turns at left body.entry ∷ [] →
            slots_for_all self.new.pieces.items ≤ slots_for_all below) }
        ensures ending { OnOk result (self.new.ending ≡ GoesOn) }
        ensures state { state.new ≡ stepped state.old }
        ensures line { self.new.line ≡ self.old.line }
    {
        state.tick();
        self.replace_top(PendingPiece::Turns(at, left - 1, body));
        self.push(PendingPiece::Code(at, body))?;
        Ok(())
    }
}

impl<'a> Control<'a> {
    /// Takes the next step of the piece on top.
    #[inline(always)]
    pub fn step(&mut self, script: &'a Script, state: &mut State) -> Result<(), NoMemory>
        requires script { IsTrue (is_script script.now) }
        requires may { MayStep script.now self.old.ending self.old.pieces.items state.old }
        ensures kept { OnOk result ((r : Rule) (budget : ℕ) → state.old.steps < budget →
            Fits r state.old.debug.rule (is_stop self.new.ending) state.new.debug.attempts →
            rest_from script.now budget r self.new.ending self.new.pieces.items state.new
            ≡ rest_from script.now budget r self.old.ending self.old.pieces.items state.old) }
        ensures sound { OnOk result (AreSound script.now self.new.pieces.items) }
        ensures stays { Stays state.old state.new }
        ensures steps { OnOk result (state.new.steps ≡ state.old.steps + 1) }
        ensures room { OnOk result (HasRoom self.new.ending self.new.pieces.items state.new) }
        ensures whole { OnOk result (StaysWhole script.now state.old state.new) }
        ensures line { OnOk result (self.new.line
            ≡ unwrap_or (first_line (pending_in state.old.callers self.old.pieces.items))
            self.old.line) }
    {
        match self.top() {
            PendingPiece::Code(at, [first, rest @ ..]) => {
                self.replace_top(PendingPiece::Code(at, rest));
                self.step_code(script, at, first, state)
            }
            PendingPiece::Turns(at, left, body) => self.step_turns(at, left, body, state),
            PendingPiece::Items(at, left) => {
                self.drop_top();
                self.step_items(script, at, left, state)
            }
            PendingPiece::Object(at, ptr) => {
                self.drop_top();
                self.step_object(script, at, ptr, state)
            }
            _ => unreachable!(),
        }
    }

    /// Whether the next step asks for an attempt. A step does so exactly if it begins a statement that asks for an attempt.
    pub fn asks(&self, script: &Script, state: &State) -> bool
        requires { (is_over self.now.ending self.now.pieces.items ≡ true)
            ⊎ IsReady self.now.ending self.now.pieces.items }
        ensures { (budget : ℕ) → AreSound script.now self.now.pieces.items →
            state.now.steps < budget →
            result ≡ asks_next script.now budget
            (progress_by self.now.ending (pending_in state.now.callers self.now.pieces.items)
            (state_of script.now state.now)) }
    {
        if self.is_over() {
            return false;
        }
        let Some(piece) = self.pieces.last() else {
            return false;
        };
        match first_statement(piece) {
            Some(first) => state.asks(script, &first.statement),
            None => false,
        }
    }
}
