//! Which function carries out which statement on texts.

ghost use Rattle.std.specs.Prelude.{◌≡◌, ℕ, None, IfOk, IsTrue};
ghost use Rattle.wb_tree.specs.Sound.{is_script};
ghost use Rattle.wb_tree.specs.declared.script.Statement.TheViews.{out-Statement};
ghost use Rattle.wb_machine.specs.Flow.{IsSimple, IsCarriedOut};
ghost use Rattle.wb_machine.specs.TextStatements.{is_on_text};
ghost use Rattle.wb_machine.specs.Owed.{KeepsCount, MayAttempt};
ghost use Rattle.wb_machine.specs.PointerOperands.{operands_refusal};

use crate::pieces::Ending;
use crate::state::State;
use wb_basics::memory::NoMemory;
use wb_hbuf::sources::Edit;
use wb_tree::script::{Script, Statement};

impl State {
    /// Carries out a statement on texts, on behalf of `carry_out`. Statements on texts have a function of their own, so that other
    /// statements don't pay for the stack space that texts need.
    #[inline(never)]
    pub fn carry_out_text(&mut self, script: &Script, first: &Statement) -> Result<Ending, NoMemory>
        requires script { IsTrue (is_script script.now) }
        requires text { IsTrue (is_on_text (out-Statement first.now)) }
        requires statement { IsSimple script.now (out-Statement first.now) }
        requires operands { operands_refusal self.old (out-Statement first.now) ≡ None }
        requires number { MayAttempt self.old }
        ensures kept { (floor : ℕ) → IfOk result (λ ending.
            IsCarriedOut script.now floor (out-Statement first.now) self.old ending self.new) }
        ensures keeps { KeepsCount self.old self.new }
    {
        match first {
            Statement::NewText(target, units, refusal) => self.new_text(*target, *units, *refusal),
            Statement::ReallocText(target, source, units) => {
                self.realloc_text(script, *target, *source, *units)
            }
            Statement::Copy(target, text) => Ok(self.edit(script, *target, Edit::Copy, *text)),
            Statement::Append(target, text) => Ok(self.edit(script, *target, Edit::Append, *text)),
            Statement::Insert(target, position, text) => {
                Ok(self.insert(script, *target, *position, *text))
            }
            Statement::DeleteText(target, position, count) => {
                Ok(self.delete_text(script, *target, *position, *count))
            }
            Statement::SetLength(target, length) => Ok(self.set_length(script, *target, *length)),
            Statement::Left(local, text, count) => Ok(self.left(script, *local, *text, *count)),
            Statement::Right(local, text, count) => Ok(self.right(script, *local, *text, *count)),
            Statement::Mid(local, text, position, count) => {
                Ok(self.mid(script, *local, *text, *position, *count))
            }
            Statement::GetLength(local, text) => Ok(self.get_length(script, *local, *text)),
            Statement::GetMaximum(local, target) => Ok(self.get_maximum(script, *local, *target)),
            Statement::PrintText(text) => self.print_text(script, *text),
            _ => unreachable!(),
        }
    }
}
