//! Steps that destroy objects and items of the cleanup stack, and the bodies that run for these steps.

ghost use Rattle.std.specs.Prelude.{◌≡◌, ◌+◌, ◌^◌, ◌<◌, ◌≤◌, ◌∷◌, [], ℕ, IsTrue, OnOk};
ghost use Rattle.std.specs.List.{list_all};
ghost use Rattle.wb_tree.specs.Sound.{is_script};
ghost use Rattle.wb_meaning.specs.Statements.{destroy_items, destroy_object, destroyed_item, destroyed_object};
ghost use Rattle.wb_heap_model.specs.Pointers.{is_null};
ghost use Rattle.wb_meaning.specs.Meaning.{meaning_of};
ghost use Rattle.wb_meaning.specs.Rest.{doing};
ghost use Rattle.wb_heap_model.specs.declared.heap.Rule.{Rule};
ghost use Rattle.wb_tree.specs.declared.script.Body.{Body};
ghost use Rattle.wb_tree.specs.declared.script.Script.{Script};
ghost use Rattle.wb_machine.specs.declared.pieces.Ending.TheVariants.{GoesOn};
ghost use Rattle.wb_machine.specs.Bodies.{IsBody};
ghost use Rattle.wb_machine.specs.LocalValues.{values_of_arguments};
ghost use Rattle.wb_machine.specs.RunState.{Values, RunState, state_of};
ghost use Rattle.wb_machine.specs.Flow.{context_of, afterwards, frame_with, pending_in, AreOwn, AreSound, rest_from};
ghost use Rattle.wb_machine.specs.Flow.{rest_after, rest_of_piece, rest_of_body};
ghost use Rattle.wb_machine.specs.ObjectInvariant.{StaysWhole};
ghost use Rattle.wb_machine.specs.Owed.{IsQuiet, Stays};
ghost use Rattle.wb_machine.specs.SlotInvariant.{slots_for_all, IsFree, IsFreeAfter, HasRoom};

use crate::arguments::CallArguments;
use crate::bodies::{destroy_at, operation_at};
use crate::control::Control;
use crate::locals::NULL;
use crate::pieces::{After, Context, Ending, PendingPiece};
use crate::raiser::Raiser;
use crate::state::State;
use wb_basics::memory::NoMemory;
use wb_heap_model::heap::{Item, Panic, Ptr};
use wb_tree::script::Script;

impl<'a> Control<'a> {
    /// Begins to destroy the object that a pointer names. A null pointer destroys nothing.
    pub fn begin_delete(&mut self, at: Context, ptr: Ptr) -> Result<(), NoMemory>
        requires { self.old.ending ≡ GoesOn }
        ensures kept { OnOk result ((script : Script) (r : Rule) (budget : ℕ) (h : RunState) →
            rest_from script budget r self.new.ending self.new.pieces.items h
            ≡ rest_after script budget r
            (destroyed_object (is_null ptr) (meaning_of script budget) (context_of at) ptr
            (state_of script h)) self.old.pieces.items h) }
        ensures sound { OnOk result ((script : Script) → AreSound script self.old.pieces.items →
            AreSound script self.new.pieces.items) }
        ensures slots { OnOk result (slots_for_all self.new.pieces.items
            ≤ slots_for_all self.old.pieces.items) }
        ensures line { self.new.line ≡ self.old.line }
    {
        if ptr.number != 0 {
            self.push(PendingPiece::Object(at, ptr))?;
        }
        Ok(())
    }

    /// Begins to destroy an item that was taken off the cleanup stack.
    fn begin_item(
        &mut self,
        script: &'a Script,
        at: Context,
        item: Item,
        state: &mut State,
    ) -> Result<(), NoMemory>
        requires script { IsTrue (is_script script.now) }
        requires going { self.old.ending ≡ GoesOn }
        ensures kept { OnOk result ((r : Rule) (budget : ℕ) →
            rest_from script.now budget r self.new.ending self.new.pieces.items state.new
            ≡ rest_after script.now budget r
            (destroyed_item script.now (meaning_of script.now budget) (context_of at) item
            (state_of script.now state.old)) self.old.pieces.items state.old) }
        ensures sound { OnOk result (AreSound script.now self.old.pieces.items →
            AreSound script.now self.new.pieces.items) }
        ensures quiet { IsQuiet state.old state.new }
        ensures slots { OnOk result (slots_for_all self.new.pieces.items
            ≤ slots_for_all self.old.pieces.items) }
        ensures line { self.new.line ≡ self.old.line }
    {
        match item {
            Item::Free(ptr) => {
                self.ending = state.release(ptr);
                Ok(())
            }
            Item::Delete(ptr) => self.begin_delete(at, ptr),
            Item::Call(ptr, operation) => {
                let body = operation_at(script, operation);
                self.begin_body(
                    script,
                    at,
                    NULL,
                    CallArguments::Item(ptr),
                    body,
                    After::Nothing,
                    state,
                )
            }
        }
    }

    /// Takes the newest item off the cleanup stack and begins to destroy it. `left` items are left to destroy, including this item.
    #[inline(never)]
    pub fn step_items(
        &mut self,
        script: &'a Script,
        at: Context,
        left: u32,
        state: &mut State,
    ) -> Result<(), NoMemory>
        requires script { IsTrue (is_script script.now) }
        requires going { self.old.ending ≡ GoesOn }
        requires left { 0 < left }
        requires free { IsFreeAfter 1 self.old.pieces.items state.old }
        requires steps { state.old.steps + 1 < 2 ^ 32 }
        ensures kept { OnOk result ((r : Rule) (budget : ℕ) → state.old.steps < budget →
            rest_from script.now budget r self.new.ending self.new.pieces.items state.new
            ≡ rest_of_piece script.now budget r (doing (context_of at) (destroy_items left))
            self.old.pieces.items state.old) }
        ensures sound { OnOk result (AreSound script.now self.old.pieces.items →
            AreSound script.now self.new.pieces.items) }
        ensures stays { Stays state.old state.new }
        ensures whole { OnOk result (StaysWhole script.now state.old state.new) }
        ensures steps { OnOk result (state.new.steps ≡ state.old.steps + 1) }
        ensures room { OnOk result (HasRoom self.new.ending self.new.pieces.items state.new) }
        ensures line { self.new.line ≡ self.old.line }
    {
        state.tick();
        self.raiser = Raiser::Item;
        self.push(PendingPiece::Items(at, left - 1))?;
        match state.take_newest() {
            Some(item) => self.begin_item(script, at, item, state),
            None => {
                self.ending = Ending::Panics(Panic::POP_BELOW_TRAP);
                Ok(())
            }
        }
    }

    /// Begins the `destroy` body of an object's class. When the body has ended, the object is released. Panics with WORKBENCH 1 if the
    /// pointer names no live cell, and with WORKBENCH 2 if the cell holds no object.
    #[inline(never)]
    pub fn step_object(
        &mut self,
        script: &'a Script,
        at: Context,
        ptr: Ptr,
        state: &mut State,
    ) -> Result<(), NoMemory>
        requires script { IsTrue (is_script script.now) }
        requires going { self.old.ending ≡ GoesOn }
        requires free { IsFree self.old.pieces.items state.old }
        requires steps { state.old.steps + 1 < 2 ^ 32 }
        ensures kept { OnOk result ((r : Rule) (budget : ℕ) → state.old.steps < budget →
            rest_from script.now budget r self.new.ending self.new.pieces.items state.new
            ≡ rest_of_piece script.now budget r (doing (context_of at) (destroy_object ptr))
            self.old.pieces.items state.old) }
        ensures sound { OnOk result (AreSound script.now self.old.pieces.items →
            AreSound script.now self.new.pieces.items) }
        ensures stays { Stays state.old state.new }
        ensures whole { OnOk result (StaysWhole script.now state.old state.new) }
        ensures steps { OnOk result (state.new.steps ≡ state.old.steps + 1) }
        ensures room { OnOk result (HasRoom self.new.ending self.new.pieces.items state.new) }
        ensures line { self.new.line ≡ self.old.line }
    {
        state.tick();
        match state.class(ptr) {
            Ok(class) => {
                let body = destroy_at(script, class);
                self.begin_body(
                    script,
                    at,
                    ptr,
                    CallArguments::Arguments(&[]),
                    body,
                    After::Releases(ptr),
                    state,
                )
            }
            Err(panic) => {
                self.ending = Ending::Panics(panic);
                Ok(())
            }
        }
    }
}
