//! The panics of a statement's pointer operands. These panics are found before the statement is carried out. An operand panics if it is a
//! field, and the field's holder names no live cell, or no object of the holder's declared class. No function here changes a state.

ghost use Rattle.std.specs.Prelude.{◌≡◌, [], ◌∷◌, ◌++◌};
ghost use Rattle.wb_tree.specs.declared.script.Statement.TheViews.{out-Statement};
ghost use Rattle.wb_objects.specs.Objects.{words_found};
ghost use Rattle.wb_machine.specs.PointerOperands.{refusal_in, pointer_refusal, first_refusal, of_writable};
ghost use Rattle.wb_machine.specs.PointerOperands.{of_readable, of_condition, of_arguments, operands_refusal};

use crate::state::State;
use wb_basics::items::Items;
use wb_heap_model::heap::{Kind, Panic, Ptr};
use wb_tree::script::{Argument, Condition, Pointer, Readable, Statement, Writable};

/// The panics of single operands.
impl State {
    /// The panic of reading or writing a field of `object`; `None` if `object` names an object of this class.
    #[cold]
    #[inline(never)]
    fn object_refusal(&self, object: Ptr, class: u16) -> Option<Panic>
        ensures { result ≡ refusal_in (words_found self.now.debug object class) }
    {
        match self.heap.header(object) {
            None => Some(Panic::NULL_OR_STALE),
            Some(header) if header.kind == Kind::Object(class) => None,
            Some(_) => Some(Panic::WRONG_KIND),
        }
    }

    /// The panic of a pointer operand; `None` if the operand doesn't panic. Only a field can panic, and few operands are fields. So a
    /// separate function, which isn't inlined, tests fields.
    #[inline(always)]
    pub(crate) fn pointer_refusal(&self, operand: &Pointer) -> Option<Panic>
        ensures refused { result ≡ pointer_refusal self.now operand.now }
        ensures first { result ≡ first_refusal self.now (operand.now ∷ []) }
    {
        match operand {
            Pointer::Held(_) => None,
            Pointer::Field(holder, class, _) => self.object_refusal(
                self.holder_pointer(*holder),
                *class,
            ),
        }
    }

    /// The panic of the pointer operand `one`; if `one` doesn't panic, the panic of `other`; `None` if neither panics.
    #[inline(always)]
    fn either_refusal(&self, one: &Pointer, other: &Pointer) -> Option<Panic>
        ensures { result ≡ first_refusal self.now (one.now ∷ other.now ∷ []) }
    {
        match self.pointer_refusal(one) {
            Some(panic) => Some(panic),
            None => self.pointer_refusal(other),
        }
    }

    /// The panic of a text operand that can be changed; `None` if the operand is a buffer, or its pointer doesn't panic.
    #[inline(always)]
    fn target_refusal(&self, target: &Writable) -> Option<Panic>
        ensures { result ≡ first_refusal self.now (of_writable target.now) }
    {
        match target {
            Writable::OwnBuffer(_) => None,
            Writable::InCell(pointer) => self.pointer_refusal(pointer),
        }
    }

    /// The panic of a text operand that can be read; `None` if the operand has no pointer, or its pointer doesn't panic.
    #[inline(never)]
    fn readable_refusal(&self, text: &Readable) -> Option<Panic>
        ensures { result ≡ first_refusal self.now (of_readable text.now) }
    {
        match text {
            Readable::Of(target) => self.target_refusal(target),
            Readable::ViewOf(_) | Readable::Quoted(_) => None,
        }
    }

    /// The panic of `target`, the text operand to be changed; if `target` doesn't panic, the panic of `text`, the text operand that changes
    /// it; `None` if neither panics.
    #[inline(never)]
    fn edit_refusal(&self, target: &Writable, text: &Readable) -> Option<Panic>
        ensures { result ≡ first_refusal self.now (of_writable target.now ++ of_readable text.now) }
    {
        match self.target_refusal(target) {
            Some(panic) => Some(panic),
            None => self.readable_refusal(text),
        }
    }

    /// The panic of a condition's pointer operand; `None` if the condition has no such operand, or the operand doesn't panic.
    #[inline(always)]
    pub(crate) fn condition_refusal(&self, condition: &Condition) -> Option<Panic>
        ensures { result ≡ first_refusal self.now (of_condition condition.now) }
    {
        match condition {
            Condition::IsNull(pointer) => self.pointer_refusal(pointer),
            Condition::NotNull(pointer) => self.pointer_refusal(pointer),
            Condition::Equal(..) | Condition::Less(..) => None,
        }
    }

    /// The panic of an argument; `None` if the argument doesn't panic. Only an argument that is a pointer can panic.
    #[inline(always)]
    fn argument_refusal(&self, argument: &Argument) -> Option<Panic>
        ensures { result ≡ first_refusal self.now (of_arguments (argument.now ∷ [])) }
    {
        match argument {
            Argument::Passed(pointer) => self.pointer_refusal(pointer),
            Argument::Given(_) => None,
        }
    }

    /// The first panic among the arguments of a call, from left to right; `None` if no argument panics.
    #[inline(always)]
    fn arguments_refusal(&self, arguments: &[Argument]) -> Option<Panic>
        ensures { result ≡ first_refusal self.now (of_arguments arguments.now) }
    {
        for argument in arguments {
            match self.argument_refusal(argument) {
                Some(panic) => return Some(panic),
                None => {}
            }
        }
        None
    }

    /// The first panic among the arguments of a call, from left to right; `None` if no argument panics.
    #[inline(always)]
    pub(crate) fn call_refusal(&self, arguments: &Items<Argument>) -> Option<Panic>
        ensures { result ≡ first_refusal self.now (of_arguments arguments.now) }
    {
        self.arguments_refusal(arguments.as_slice())
    }
}

/// The panics of whole statements.
impl State {
    /// The first panic among the operands of a statement, from left to right; `None` if no operand panics. The target counts as an operand.
    #[inline(always)]
    pub fn operands_refusal(&self, statement: &Statement) -> Option<Panic>
        ensures { result ≡ operands_refusal self.now (out-Statement statement.now) }
    {
        match statement {
            Statement::Alloc(target, ..) => self.pointer_refusal(target),
            Statement::Realloc(target, source, ..) => self.either_refusal(target, source),
            Statement::Free(pointer) => self.pointer_refusal(pointer),
            Statement::AllocLen(_, pointer) => self.pointer_refusal(pointer),
            Statement::Store(pointer, ..) => self.pointer_refusal(pointer),
            Statement::Load(_, pointer, _) => self.pointer_refusal(pointer),
            Statement::New(target, ..) => self.pointer_refusal(target),
            Statement::Construct(object) => self.pointer_refusal(object),
            Statement::Delete(object) => self.pointer_refusal(object),
            Statement::Set(target, source) => self.either_refusal(target, source),
            Statement::SetNull(target) => self.pointer_refusal(target),
            Statement::Push(pointer) => self.pointer_refusal(pointer),
            Statement::PushObject(pointer) => self.pointer_refusal(pointer),
            Statement::PushOperation(pointer, _) => self.pointer_refusal(pointer),
            Statement::PopCheck(pointer) => self.pointer_refusal(pointer),
            Statement::LeaveIfNull(pointer) => self.pointer_refusal(pointer),
            Statement::ReturnPointer(pointer) => self.pointer_refusal(pointer),
            Statement::Call(_, arguments) => self.call_refusal(arguments),
            Statement::CallTo(_, _, arguments) => self.call_refusal(arguments),
            Statement::NewText(target, ..) => self.pointer_refusal(target),
            Statement::ReallocText(target, source, _) => self.either_refusal(target, source),
            Statement::Copy(target, text) => self.edit_refusal(target, text),
            Statement::Append(target, text) => self.edit_refusal(target, text),
            Statement::Insert(target, _, text) => self.edit_refusal(target, text),
            Statement::DeleteText(target, ..) => self.target_refusal(target),
            Statement::SetLength(target, _) => self.target_refusal(target),
            Statement::Left(_, text, _) => self.readable_refusal(text),
            Statement::Right(_, text, _) => self.readable_refusal(text),
            Statement::Mid(_, text, ..) => self.readable_refusal(text),
            Statement::GetLength(_, text) => self.readable_refusal(text),
            Statement::GetMaximum(_, target) => self.target_refusal(target),
            Statement::PrintText(text) => self.readable_refusal(text),
            Statement::If(condition, _) => self.condition_refusal(condition),
            Statement::IfElse(condition, ..) => self.condition_refusal(condition),
            Statement::SetNumber(..)
            | Statement::Add(..)
            | Statement::Pop(_)
            | Statement::PopDestroy(_)
            | Statement::Leave(_)
            | Statement::LeaveIfError(_)
            | Statement::Return
            | Statement::Mark
            | Statement::MarkEnd(_)
            | Statement::Check(_)
            | Statement::CheckAll(_)
            | Statement::FailNext(_)
            | Statement::FailEvery(_)
            | Statement::FailNone
            | Statement::PrintNumber(_)
            | Statement::NoteHeap
            | Statement::NoteAvailable
            | Statement::NoteCompress
            | Statement::Repeat(..)
            | Statement::Trap(..) => None,
        }
    }
}
