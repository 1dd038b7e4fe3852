//! Which function carries out which statement. The statements on texts are in `carry_text`.

ghost use Rattle.std.specs.Prelude.{◌≡◌, ◌+◌, ◌^◌, ◌<◌, length, None, IfOk, IsTrue};
ghost use Rattle.wb_tree.specs.Sound.{is_script};
ghost use Rattle.wb_tree.specs.declared.script.Statement.TheViews.{out-Statement};
ghost use Rattle.wb_machine.specs.Flow.{IsSimple, IsCarriedOut};
ghost use Rattle.wb_machine.specs.Owed.{HasStack, KeepsCount, MayAttempt};
ghost use Rattle.wb_machine.specs.InPlace.{is_in_place};
ghost use Rattle.wb_machine.specs.PointerOperands.{operands_refusal};

use crate::pieces::Ending;
use crate::state::State;
use wb_basics::memory::NoMemory;
use wb_tree::script::{Script, Statement};

impl State {
    /// Carries out a statement that runs no other statement, and returns how the statement ends.
    ///
    /// `floor` is how many items were on the cleanup stack at the entry of the innermost TRAP.
    #[inline(always)]
    pub fn carry_out(
        &mut self,
        script: &Script,
        floor: u32,
        first: &Statement,
    ) -> Result<Ending, NoMemory>
        requires script { IsTrue (is_script script.now) }
        requires statement { IsSimple script.now (out-Statement first.now) }
        requires operands { operands_refusal self.old (out-Statement first.now) ≡ None }
        requires number { MayAttempt self.old }
        requires level { self.old.debug.heap.level + 1 < 2 ^ 32 }
        requires stack { HasStack self.old }
        requires room { length self.old.items < self.old.slots }
        ensures kept { IfOk result (λ ending.
            IsCarriedOut script.now floor (out-Statement first.now) self.old ending self.new) }
        ensures keeps { KeepsCount self.old self.new }
    {
        match first {
            Statement::Alloc(target, bytes, refusal) => self.alloc(target, bytes, *refusal),
            Statement::Realloc(target, source, bytes, refusal) => {
                self.realloc(script, target, source, bytes, *refusal)
            }
            Statement::New(target, class, refusal) => {
                self.new_object(script, target, *class, *refusal)
            }
            Statement::PrintNumber(value) => self.print_number(value),
            Statement::NoteHeap => self.note_heap(),
            Statement::NoteAvailable => self.note_available(),
            Statement::NoteCompress => self.note_compress(),
            Statement::Push(pointer) => self.push(script, pointer),
            Statement::PushObject(pointer) => self.push_object(script, pointer),
            Statement::PushOperation(pointer, operation) => {
                self.push_operation(script, pointer, *operation)
            }
            Statement::Free(_)
            | Statement::AllocLen(..)
            | Statement::Store(..)
            | Statement::Load(..)
            | Statement::Set(..)
            | Statement::SetNumber(..)
            | Statement::SetNull(_)
            | Statement::Add(..)
            | Statement::Leave(_)
            | Statement::LeaveIfError(_)
            | Statement::LeaveIfNull(_)
            | Statement::Return
            | Statement::ReturnPointer(_)
            | Statement::Mark
            | Statement::MarkEnd(_)
            | Statement::Check(_)
            | Statement::CheckAll(_)
            | Statement::FailNext(_)
            | Statement::FailEvery(_)
            | Statement::FailNone
            | Statement::Pop(_)
            | Statement::PopCheck(_) => Ok(self.carry_out_in_place(script, floor, first)),
            Statement::Construct(_)
            | Statement::Delete(_)
            | Statement::PopDestroy(_)
            | Statement::Call(..)
            | Statement::CallTo(..)
            | Statement::If(..)
            | Statement::IfElse(..)
            | Statement::Repeat(..)
            | Statement::Trap(..) => unreachable!(),
            _ => self.carry_out_text(script, first),
        }
    }

    /// Carries out a statement that asks for no memory, on behalf of `carry_out`. In this function, all these statements write how they end
    /// to one location. As arms of `carry_out`, each would have a location of its own, and each step would have to clear all these
    /// locations.
    #[inline(always)]
    fn carry_out_in_place(&mut self, script: &Script, floor: u32, first: &Statement) -> Ending
        requires script { IsTrue (is_script script.now) }
        requires in_place { IsTrue (is_in_place (out-Statement first.now)) }
        requires statement { IsSimple script.now (out-Statement first.now) }
        requires operands { operands_refusal self.old (out-Statement first.now) ≡ None }
        requires level { self.old.debug.heap.level + 1 < 2 ^ 32 }
        requires stack { HasStack self.old }
        ensures kept { IsCarriedOut script.now floor (out-Statement first.now) self.old result
            self.new }
        ensures keeps { KeepsCount self.old self.new }
    {
        match first {
            Statement::Free(pointer) => self.free(script, pointer),
            Statement::AllocLen(local, pointer) => self.alloc_len(script, *local, pointer),
            Statement::Store(pointer, index, value) => {
                let value = self.number(*value);
                self.store(script, pointer, index, value)
            }
            Statement::Load(local, pointer, index) => self.load(script, *local, pointer, index),
            Statement::Set(target, source) => self.copy_pointer(script, target, source),
            Statement::SetNumber(local, value) => self.set_number(*local, value),
            Statement::SetNull(target) => self.set_null(target),
            Statement::Add(local, value) => self.add(*local, value),
            Statement::Leave(code) => self.leave(code),
            Statement::LeaveIfError(code) => self.leave_if_error(code),
            Statement::LeaveIfNull(pointer) => self.leave_if_null(script, pointer),
            Statement::Return => self.end_body(),
            Statement::ReturnPointer(pointer) => self.end_body_with(script, pointer),
            Statement::Mark => self.mark(),
            Statement::MarkEnd(count) => self.mark_end(count),
            Statement::Check(count) => self.check(count),
            Statement::CheckAll(count) => self.check_all(count),
            Statement::FailNext(rate) => self.fail_next(rate),
            Statement::FailEvery(rate) => self.fail_every(rate),
            Statement::FailNone => self.fail_none(),
            Statement::Pop(count) => self.pop(floor, count),
            Statement::PopCheck(pointer) => self.pop_check(script, floor, pointer),
            _ => unreachable!(),
        }
    }
}
