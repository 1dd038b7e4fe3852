//! How each statement begins. A statement that runs no other statement is carried out; any other statement adds pieces that are still to
//! do.

ghost use Rattle.std.specs.Prelude.{◌≡◌, ◌+◌, ◌≤◌, [], ◌∷◌, ℕ, None, length, max, IsTrue, OnOk};
ghost use Rattle.std.specs.List.{list_all};
ghost use Rattle.wb_tree.specs.Sound.{is_script};
ghost use Rattle.wb_heap_model.specs.declared.heap.Rule.{Rule};
ghost use Rattle.wb_tree.specs.declared.script.Script.{Script};
ghost use Rattle.wb_tree.specs.declared.script.Body.{Body};
ghost use Rattle.wb_tree.specs.declared.script.Statement.TheOpen.{Statement-F};
ghost use Rattle.wb_tree.specs.declared.script.Statement.TheViews.{out-Statement};
ghost use Rattle.wb_machine.specs.declared.pieces.Ending.TheVariants.{GoesOn};
ghost use Rattle.wb_machine.specs.Bodies.{IsBody};
ghost use Rattle.wb_machine.specs.LocalValues.{is_small, values_of_arguments};
ghost use Rattle.wb_machine.specs.PointerOperands.{first_refusal, of_condition, operands_refusal};
ghost use Rattle.wb_machine.specs.Flow.{context_of, afterwards, AreOwn, IsOwn, AreSound, FitsStep, rest_from};
ghost use Rattle.wb_machine.specs.Flow.{rest_of_statement, rest_of_body};
ghost use Rattle.wb_machine.specs.ObjectInvariant.{StaysWhole};
ghost use Rattle.wb_machine.specs.SlotInvariant.{slots_for_all, IsFree, HasRoom};
ghost use Rattle.wb_machine.specs.Owed.{KeepsSteps, IsQuiet};
ghost use Rattle.wb_machine.specs.Steps.{MayBegin};

use crate::arguments::CallArguments;
use crate::bodies::{BodyContent, construct_at};
use crate::control::Control;
use crate::operands::{not_negative, number_within};
use crate::pieces::{After, Context, Ending, PendingPiece};
use crate::raiser::Raiser;
use crate::state::State;
use wb_basics::limits::{MOST_FRAMES, MOST_TURNS};
use wb_basics::memory::NoMemory;
use wb_heap_model::heap::{Panic, Ptr};
use wb_tree::script::{Condition, Number, Pointer, Script, Statement, StatementAt};

impl<'a> Control<'a> {
    /// Begins the part of an `if` that the condition chooses. If this part is empty, nothing is added.
    #[inline(always)]
    fn begin_if(
        &mut self,
        at: Context,
        condition: &Condition,
        first: &'a [StatementAt],
        other: &'a [StatementAt],
        script: &Script,
        state: &State,
    ) -> Result<(), NoMemory>
        requires { self.old.ending ≡ GoesOn }
        ensures kept { OnOk result ((r : Rule) (budget : ℕ) →
            first_refusal state.now (of_condition condition.now) ≡ None →
            rest_from script.now budget r self.new.ending self.new.pieces.items state.now
            ≡ rest_of_statement script.now budget r (context_of at)
            (Statement-F.IfElse condition.now first.now other.now) self.old.pieces.items
            state.now) }
        ensures sound { OnOk result ((script : Script) → AreOwn script first.now →
            AreOwn script other.now → AreSound script self.old.pieces.items →
            AreSound script self.new.pieces.items) }
        ensures ending { OnOk result (self.new.ending ≡ GoesOn) }
        ensures slots { OnOk result (slots_for_all self.new.pieces.items
            ≤ slots_for_all self.old.pieces.items) }
        ensures line { self.new.line ≡ self.old.line }
    {
        let part = if state.holds(script, condition) {
            first
        } else {
            other
        };
        if part.is_empty() {
            return Ok(());
        }
        self.push(PendingPiece::Code(at, part))?;
        Ok(())
    }

    /// Begins a `repeat`. The number of turns is read here, and not again later.
    #[inline(never)]
    fn begin_repeat(
        &mut self,
        at: Context,
        count: &Number,
        body: &'a [StatementAt],
        state: &State,
    ) -> Result<(), NoMemory>
        requires { self.old.ending ≡ GoesOn }
        ensures kept { OnOk result ((script : Script) (r : Rule) (budget : ℕ) →
            rest_from script budget r self.new.ending self.new.pieces.items state.now
            ≡ rest_of_statement script budget r (context_of at)
            (Statement-F.Repeat count.now body.now) self.old.pieces.items state.now) }
        ensures sound { OnOk result ((script : Script) → AreOwn script body.now →
            AreSound script self.old.pieces.items → AreSound script self.new.pieces.items) }
        ensures slots { OnOk result (slots_for_all self.new.pieces.items
            ≤ slots_for_all self.old.pieces.items) }
        ensures line { self.new.line ≡ self.old.line }
    {
        match number_within(MOST_TURNS, state.number(*count)) {
            Some(turns) => self.push(PendingPiece::Turns(at, turns, body))?,
            None => self.ending = Ending::Panics(Panic::NUMBER_OUT_OF_RANGE),
        }
        Ok(())
    }

    /// Begins the body of a TRAP, and records how many items are on the cleanup stack at the TRAP's entry.
    #[inline(never)]
    fn begin_trap(
        &mut self,
        at: Context,
        local: u8,
        body: &'a [StatementAt],
        state: &State,
    ) -> Result<(), NoMemory>
        requires { self.old.ending ≡ GoesOn }
        ensures kept { OnOk result ((script : Script) (r : Rule) (budget : ℕ) →
            rest_from script budget r self.new.ending self.new.pieces.items state.now
            ≡ rest_of_statement script budget r (context_of at) (Statement-F.Trap local body.now)
            self.old.pieces.items state.now) }
        ensures sound { OnOk result ((script : Script) → AreOwn script body.now →
            AreSound script self.old.pieces.items → AreSound script self.new.pieces.items) }
        ensures ending { OnOk result (self.new.ending ≡ GoesOn) }
        ensures slots { OnOk result (slots_for_all self.new.pieces.items
            ≤ max (slots_for_all self.old.pieces.items) (length state.now.items + 1)) }
        ensures line { self.new.line ≡ self.old.line }
    {
        let entry = state.items();
        self.push(PendingPiece::Trap(at, local, entry))?;
        let inside = Context { floor: entry, ..at };
        self.push(PendingPiece::Code(inside, body))?;
        Ok(())
    }

    /// Begins to destroy the `count` newest items. Panics before destroying any item if fewer than `count` items were pushed since the
    /// entry of the innermost TRAP and are still on the cleanup stack.
    #[inline(never)]
    fn begin_pop(&mut self, at: Context, count: &Number, state: &State) -> Result<(), NoMemory>
        requires { self.old.ending ≡ GoesOn }
        ensures kept { OnOk result ((script : Script) (r : Rule) (budget : ℕ) →
            rest_from script budget r self.new.ending self.new.pieces.items state.now
            ≡ rest_of_statement script budget r (context_of at) (Statement-F.PopDestroy count.now)
            self.old.pieces.items state.now) }
        ensures sound { OnOk result ((script : Script) → AreSound script self.old.pieces.items →
            AreSound script self.new.pieces.items) }
        ensures slots { OnOk result (slots_for_all self.new.pieces.items
            ≤ slots_for_all self.old.pieces.items) }
        ensures line { self.new.line ≡ self.old.line }
    {
        let Some(count) = not_negative(state.number(*count)) else {
            self.ending = Ending::Panics(Panic::NUMBER_OUT_OF_RANGE);
            return Ok(());
        };
        if u64::from(at.floor) + u64::from(count) <= u64::from(state.items()) {
            self.push(PendingPiece::Items(at, count))?;
        } else {
            self.ending = Ending::Panics(Panic::POP_BELOW_TRAP);
        }
        Ok(())
    }

    /// Begins the `construct` body of an object's class. Panics with WORKBENCH 1 if the operand names no live cell, and with WORKBENCH 2 if
    /// the cell holds no object.
    #[inline(never)]
    fn begin_construct(
        &mut self,
        script: &'a Script,
        at: Context,
        object: &Pointer,
        state: &mut State,
    ) -> Result<(), NoMemory>
        requires script { IsTrue (is_script script.now) }
        requires going { self.old.ending ≡ GoesOn }
        ensures kept { OnOk result ((r : Rule) (budget : ℕ) →
            first_refusal state.old (object.now ∷ []) ≡ None →
            rest_from script.now budget r self.new.ending self.new.pieces.items state.new
            ≡ rest_of_statement script.now budget r (context_of at)
            (Statement-F.Construct object.now) self.old.pieces.items state.old) }
        ensures sound { OnOk result (AreSound script.now self.old.pieces.items →
            AreSound script.now self.new.pieces.items) }
        ensures quiet { IsQuiet state.old state.new }
        ensures slots { OnOk result (slots_for_all self.new.pieces.items
            ≤ slots_for_all self.old.pieces.items) }
        ensures line { self.new.line ≡ self.old.line }
    {
        let this = state.pointer(script, *object);
        match state.class(this) {
            Ok(class) => {
                let body = construct_at(script, class);
                self.begin_body(
                    script,
                    at,
                    this,
                    CallArguments::Arguments(&[]),
                    body,
                    After::Nothing,
                    state,
                )
            }
            Err(panic) => {
                self.ending = Ending::Panics(panic);
                Ok(())
            }
        }
    }

    /// Begins to destroy the object that an operand names. The operand keeps its pointer.
    #[inline(never)]
    fn begin_delete_of(
        &mut self,
        script: &Script,
        at: Context,
        object: &Pointer,
        state: &State,
    ) -> Result<(), NoMemory>
        requires { self.old.ending ≡ GoesOn }
        ensures kept { OnOk result ((r : Rule) (budget : ℕ) →
            first_refusal state.now (object.now ∷ []) ≡ None →
            rest_from script.now budget r self.new.ending self.new.pieces.items state.now
            ≡ rest_of_statement script.now budget r (context_of at) (Statement-F.Delete object.now)
            self.old.pieces.items state.now) }
        ensures sound { OnOk result (AreSound script.now self.old.pieces.items →
            AreSound script.now self.new.pieces.items) }
        ensures room { OnOk result (IsFree self.old.pieces.items state.now →
            HasRoom self.new.ending self.new.pieces.items state.now) }
        ensures line { self.new.line ≡ self.old.line }
    {
        self.begin_delete(at, state.pointer(script, *object))
    }

    /// Begins a body in a frame of its own. `this` is the object whose body begins, or null if the body is of no object. When the body has
    /// ended, the caller's frame is the innermost again, and `after` follows. Panics with WORKBENCH 7 if `MOST_FRAMES` bodies run already.
    #[inline(always)]
    pub fn begin_body(
        &mut self,
        script: &Script,
        at: Context,
        this: Ptr,
        call_arguments: CallArguments,
        body: BodyContent<'a>,
        after: After,
        state: &mut State,
    ) -> Result<(), NoMemory>
        requires going { self.old.ending ≡ GoesOn }
        requires locals { IsTrue (list_all is_small body.locals.now) }
        ensures kept { OnOk result ((r : Rule) (budget : ℕ) (b : Body) → IsBody body.entry b →
            rest_from script.now budget r self.new.ending self.new.pieces.items state.new
            ≡ rest_of_body script.now budget r (context_of at) this
            (values_of_arguments script.now state.old call_arguments.entry) b (afterwards after)
            self.old.pieces.items state.old) }
        ensures sound { OnOk result ((script : Script) → AreOwn script body.entry.statements.now →
            AreSound script self.old.pieces.items → AreSound script self.new.pieces.items) }
        ensures quiet { IsQuiet state.old state.new }
        ensures slots { OnOk result (slots_for_all self.new.pieces.items
            ≤ slots_for_all self.old.pieces.items) }
        ensures line { self.new.line ≡ self.old.line }
    {
        if at.depth >= MOST_FRAMES {
            self.ending = Ending::Panics(Panic::TOO_MANY_FRAMES);
            return Ok(());
        }
        let caller = state.this();
        let base = state.call(script, this, call_arguments, body.locals)?;
        self.push(PendingPiece::Call(base, caller, after))?;
        let inside = Context {
            depth: at.depth + 1,
            ..at
        };
        self.push(PendingPiece::Code(inside, body.statements))?;
        Ok(())
    }

    /// Begins a statement whose operands don't panic. A statement that runs no other statement is carried out; any other statement adds
    /// pieces that are still to do.
    #[inline(always)]
    pub fn begin_statement(
        &mut self,
        script: &'a Script,
        at: Context,
        statement: &'a Statement,
        state: &mut State,
    ) -> Result<(), NoMemory>
        requires script { IsTrue (is_script script.now) }
        requires own { IsOwn script.now (out-Statement statement.now) }
        requires operands { operands_refusal state.old (out-Statement statement.now) ≡ None }
        requires may { MayBegin script.now self.old.ending self.old.pieces.items state.old }
        ensures kept { OnOk result ((r : Rule) (budget : ℕ) →
            FitsStep r state.old self.new.ending state.new →
            rest_from script.now budget r self.new.ending self.new.pieces.items state.new
            ≡ rest_of_statement script.now budget r (context_of at) (out-Statement statement.now)
            self.old.pieces.items state.old) }
        ensures sound { OnOk result (AreSound script.now self.new.pieces.items) }
        ensures keeps { KeepsSteps state.old state.new }
        ensures whole { OnOk result (StaysWhole script.now state.old state.new) }
        ensures room { OnOk result (HasRoom self.new.ending self.new.pieces.items state.new) }
        ensures line { self.new.line ≡ self.old.line }
    {
        match statement {
            Statement::If(condition, first) => {
                self.begin_if(at, condition, first.as_slice(), &[], script, state)
            }
            Statement::IfElse(condition, first, other) => {
                self.begin_if(
                    at,
                    condition,
                    first.as_slice(),
                    other.as_slice(),
                    script,
                    state,
                )
            }
            Statement::Repeat(count, body) => {
                self.begin_repeat(at, count, body.as_slice(), state)
            }
            Statement::Trap(local, body) => self.begin_trap(at, *local, body.as_slice(), state),
            Statement::PopDestroy(count) => self.begin_pop(at, count, state),
            Statement::Construct(object) => self.begin_construct(script, at, object, state),
            Statement::Delete(object) => self.begin_delete_of(script, at, object, state),
            Statement::Call(index, arguments) => {
                self.begin_call(script, at, *index, arguments.as_slice(), state)
            }
            Statement::CallTo(target, index, arguments) => {
                self.begin_call_to(script, at, *target, *index, arguments.as_slice(), state)
            }
            _ => {
                self.ending = state.carry_out(script, at.floor, statement)?;
                Ok(())
            }
        }
    }

    /// Begins a statement. If one of the statement's operands panics, the run ends with this panic instead. This test comes before the
    /// tests of the cells that the statement uses and of the ranges of numbers.
    #[inline(always)]
    pub fn begin_unless_refused(
        &mut self,
        script: &'a Script,
        at: Context,
        statement: &'a Statement,
        state: &mut State,
    ) -> Result<(), NoMemory>
        requires script { IsTrue (is_script script.now) }
        requires own { IsOwn script.now (out-Statement statement.now) }
        requires may { MayBegin script.now self.old.ending self.old.pieces.items state.old }
        ensures kept { OnOk result ((r : Rule) (budget : ℕ) →
            FitsStep r state.old self.new.ending state.new →
            rest_from script.now budget r self.new.ending self.new.pieces.items state.new
            ≡ rest_of_statement script.now budget r (context_of at) (out-Statement statement.now)
            self.old.pieces.items state.old) }
        ensures sound { OnOk result (AreSound script.now self.new.pieces.items) }
        ensures keeps { KeepsSteps state.old state.new }
        ensures whole { OnOk result (StaysWhole script.now state.old state.new) }
        ensures room { OnOk result (HasRoom self.new.ending self.new.pieces.items state.new) }
        ensures line { self.new.line ≡ self.old.line }
    {
        match state.operands_refusal(statement) {
            Some(panic) => {
                self.raiser = Raiser::Holder;
                self.ending = Ending::Panics(panic);
                Ok(())
            }
            None => self.begin_statement(script, at, statement, state),
        }
    }
}
