//! How a statement begins. Each of the most frequent statements has a match arm of its own here, so that a step matches the statement only
//! once. Without these arms, a step would match the statement three times: to test the operands, to find the pieces to add, and to find the
//! function that carries the statement out. All other statements are passed on to `heads`.

ghost use Rattle.std.specs.Prelude.{◌≡◌, ℕ, IsOk, IsTrue, OnOk};
ghost use Rattle.wb_tree.specs.Sound.{is_script};
ghost use Rattle.wb_heap_model.specs.declared.heap.Rule.{Rule};
ghost use Rattle.wb_tree.specs.declared.script.Statement.TheViews.{out-Statement};
ghost use Rattle.wb_machine.specs.declared.pieces.Ending.TheVariants.{Panics};
ghost use Rattle.wb_machine.specs.Flow.{context_of, rest_from, rest_of_statement};
ghost use Rattle.wb_machine.specs.Flow.{IsOwn, AreSound, FitsStep};
ghost use Rattle.wb_machine.specs.ObjectInvariant.{StaysWhole};
ghost use Rattle.wb_machine.specs.SlotInvariant.{HasRoom};
ghost use Rattle.wb_machine.specs.Owed.{KeepsSteps};
ghost use Rattle.wb_machine.specs.Steps.{MayBegin};

use crate::control::Control;
use crate::pieces::{Context, Ending};
use crate::raiser::Raiser;
use crate::state::State;
use wb_basics::memory::NoMemory;
use wb_heap_model::heap::Panic;
use wb_tree::script::{Script, Statement};

impl<'a> Control<'a> {
    /// Ends the run with the panic of an operand.
    #[cold]
    #[inline(never)]
    fn refuse(&mut self, panic: Panic) -> Result<(), NoMemory>
        ensures ok { IsOk result }
        ensures pieces { self.new.pieces ≡ self.old.pieces }
        ensures ending { self.new.ending ≡ Panics panic }
        ensures line { self.new.line ≡ self.old.line }
    {
        self.raiser = Raiser::Holder;
        self.ending = Ending::Panics(panic);
        Ok(())
    }

    /// Begins a statement that is no arithmetic, as `begin_any` does. It isn't inlined, so that a step of arithmetic stays short.
    #[inline(never)]
    fn begin_less_frequent(
        &mut self,
        script: &'a Script,
        at: Context,
        statement: &'a Statement,
        state: &mut State,
    ) -> Result<(), NoMemory>
        requires script { IsTrue (is_script script.now) }
        requires own { IsOwn script.now (out-Statement statement.now) }
        requires may { MayBegin script.now self.old.ending self.old.pieces.items state.old }
        ensures kept { OnOk result ((r : Rule) (budget : ℕ) →
            FitsStep r state.old self.new.ending state.new →
            rest_from script.now budget r self.new.ending self.new.pieces.items state.new
            ≡ rest_of_statement script.now budget r (context_of at) (out-Statement statement.now)
            self.old.pieces.items state.old) }
        ensures sound { OnOk result (AreSound script.now self.new.pieces.items) }
        ensures keeps { KeepsSteps state.old state.new }
        ensures whole { OnOk result (StaysWhole script.now state.old state.new) }
        ensures room { OnOk result (HasRoom self.new.ending self.new.pieces.items state.new) }
        ensures line { self.new.line ≡ self.old.line }
    {
        match statement {
            Statement::Leave(code) => {
                self.ending = state.leave(code);
                Ok(())
            }
            Statement::LeaveIfError(code) => {
                self.ending = state.leave_if_error(code);
                Ok(())
            }
            Statement::Return => {
                self.ending = state.end_body();
                Ok(())
            }
            Statement::If(condition, _) => match state.condition_refusal(condition) {
                Some(panic) => self.refuse(panic),
                None => self.begin_statement(script, at, statement, state),
            },
            Statement::IfElse(condition, ..) => match state.condition_refusal(condition) {
                Some(panic) => self.refuse(panic),
                None => self.begin_statement(script, at, statement, state),
            },
            Statement::Call(_, arguments) => match state.call_refusal(arguments) {
                Some(panic) => self.refuse(panic),
                None => self.begin_statement(script, at, statement, state),
            },
            Statement::CallTo(_, _, arguments) => match state.call_refusal(arguments) {
                Some(panic) => self.refuse(panic),
                None => self.begin_statement(script, at, statement, state),
            },
            Statement::Alloc(target, ..) => match state.pointer_refusal(target) {
                Some(panic) => self.refuse(panic),
                None => self.begin_statement(script, at, statement, state),
            },
            Statement::Free(pointer) => match state.pointer_refusal(pointer) {
                Some(panic) => self.refuse(panic),
                None => self.begin_statement(script, at, statement, state),
            },
            _ => self.begin_unless_refused(script, at, statement, state),
        }
    }

    /// Begins a statement. If one of the statement's operands panics, the run ends with this panic instead.
    #[inline(always)]
    pub(crate) fn begin_any(
        &mut self,
        script: &'a Script,
        at: Context,
        statement: &'a Statement,
        state: &mut State,
    ) -> Result<(), NoMemory>
        requires script { IsTrue (is_script script.now) }
        requires own { IsOwn script.now (out-Statement statement.now) }
        requires may { MayBegin script.now self.old.ending self.old.pieces.items state.old }
        ensures kept { OnOk result ((r : Rule) (budget : ℕ) →
            FitsStep r state.old self.new.ending state.new →
            rest_from script.now budget r self.new.ending self.new.pieces.items state.new
            ≡ rest_of_statement script.now budget r (context_of at) (out-Statement statement.now)
            self.old.pieces.items state.old) }
        ensures sound { OnOk result (AreSound script.now self.new.pieces.items) }
        ensures keeps { KeepsSteps state.old state.new }
        ensures whole { OnOk result (StaysWhole script.now state.old state.new) }
        ensures room { OnOk result (HasRoom self.new.ending self.new.pieces.items state.new) }
        ensures line { self.new.line ≡ self.old.line }
    {
        match statement {
            Statement::SetNumber(local, value) => {
                self.ending = state.set_number(*local, value);
                Ok(())
            }
            Statement::Add(local, value) => {
                self.ending = state.add(*local, value);
                Ok(())
            }
            _ => self.begin_less_frequent(script, at, statement, state),
        }
    }
}
