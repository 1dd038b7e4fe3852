//! How a call begins: the body of a procedure becomes a pending piece, and gets a frame of its own.

ghost use Rattle.std.specs.Prelude.{◌≡◌, ◌<◌, ◌≤◌, ℕ, None, length, IsTrue, OnOk};
ghost use Rattle.wb_tree.specs.Sound.{is_script};
ghost use Rattle.wb_heap_model.specs.declared.heap.Rule.{Rule};
ghost use Rattle.wb_tree.specs.declared.script.Statement.TheOpen.{Statement-F};
ghost use Rattle.wb_machine.specs.declared.pieces.Ending.TheVariants.{GoesOn};
ghost use Rattle.wb_machine.specs.PointerOperands.{first_refusal, of_arguments};
ghost use Rattle.wb_machine.specs.Flow.{context_of, AreSound, rest_from, rest_of_statement};
ghost use Rattle.wb_machine.specs.SlotInvariant.{slots_for_all};
ghost use Rattle.wb_machine.specs.Owed.{IsQuiet};

use crate::arguments::CallArguments;
use crate::bodies::content_of;
use crate::control::{Control, procedure_at};
use crate::locals::NULL;
use crate::pieces::{After, Context};
use crate::state::State;
use wb_basics::memory::NoMemory;
use wb_tree::script::{Argument, Script};

impl<'a> Control<'a> {
    /// Begins a call whose result is dropped.
    #[inline(never)]
    pub fn begin_call(
        &mut self,
        script: &'a Script,
        at: Context,
        index: u16,
        arguments: &[Argument],
        state: &mut State,
    ) -> Result<(), NoMemory>
        requires script { IsTrue (is_script script.now) }
        requires going { self.old.ending ≡ GoesOn }
        requires there { index < length script.now.procedures }
        ensures kept { OnOk result ((r : Rule) (budget : ℕ) →
            first_refusal state.old (of_arguments arguments.now) ≡ None →
            rest_from script.now budget r self.new.ending self.new.pieces.items state.new
            ≡ rest_of_statement script.now budget r (context_of at)
            (Statement-F.Call index arguments.now) self.old.pieces.items state.old) }
        ensures sound { OnOk result (AreSound script.now self.old.pieces.items →
            AreSound script.now self.new.pieces.items) }
        ensures quiet { IsQuiet state.old state.new }
        ensures slots { OnOk result (slots_for_all self.new.pieces.items
            ≤ slots_for_all self.old.pieces.items) }
        ensures line { self.new.line ≡ self.old.line }
    {
        let body = content_of(procedure_at(script, index));
        let call_arguments = CallArguments::Arguments(arguments);
        self.begin_body(
            script,
            at,
            NULL,
            call_arguments,
            body,
            After::Nothing,
            state,
        )
    }

    /// Begins a call whose result goes to a local of the caller.
    #[inline(never)]
    pub fn begin_call_to(
        &mut self,
        script: &'a Script,
        at: Context,
        target: u8,
        index: u16,
        arguments: &[Argument],
        state: &mut State,
    ) -> Result<(), NoMemory>
        requires script { IsTrue (is_script script.now) }
        requires going { self.old.ending ≡ GoesOn }
        requires there { index < length script.now.procedures }
        ensures kept { OnOk result ((r : Rule) (budget : ℕ) →
            first_refusal state.old (of_arguments arguments.now) ≡ None →
            rest_from script.now budget r self.new.ending self.new.pieces.items state.new
            ≡ rest_of_statement script.now budget r (context_of at)
            (Statement-F.CallTo target index arguments.now) self.old.pieces.items state.old) }
        ensures sound { OnOk result (AreSound script.now self.old.pieces.items →
            AreSound script.now self.new.pieces.items) }
        ensures quiet { IsQuiet state.old state.new }
        ensures slots { OnOk result (slots_for_all self.new.pieces.items
            ≤ slots_for_all self.old.pieces.items) }
        ensures line { self.new.line ≡ self.old.line }
    {
        let body = content_of(procedure_at(script, index));
        let call_arguments = CallArguments::Arguments(arguments);
        self.begin_body(
            script,
            at,
            NULL,
            call_arguments,
            body,
            After::Gives(target),
            state,
        )
    }
}
