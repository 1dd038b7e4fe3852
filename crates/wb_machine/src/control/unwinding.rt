//! What becomes of pieces that are done: each piece decides how the run goes on, depending on how the piece above it ended.

ghost use Rattle.std.specs.Prelude.{◌≡◌, ◌+◌, ◌-◌, ◌<◌, ◌≤◌, ◌⊎◌, ◌++◌, ◌∷◌, [], ℕ, List, true, false, length, max};
ghost use Rattle.std.specs.Prelude.{take, drop, vec_len, IsTrue, OnOk};
ghost use Rattle.wb_meaning.specs.Statements.{destroy_items};
ghost use Rattle.wb_meaning.specs.Rest.{doing, catching, caught, calling, main_catching, main_caught};
ghost use Rattle.wb_heap_model.specs.declared.heap.Rule.{Rule};
ghost use Rattle.wb_tree.specs.declared.script.Script.{Script};
ghost use Rattle.wb_machine.specs.declared.pieces.PendingPiece.{PendingPiece};
ghost use Rattle.wb_machine.specs.declared.pieces.Ending.TheVariants.{GoesOn};
ghost use Rattle.wb_machine.specs.declared.raiser.Raiser.TheVariants.{MainEnd, Release, TrapEnd};
ghost use Rattle.wb_machine.specs.RunState.{Values, RunState};
ghost use Rattle.wb_machine.specs.Flow.{context_of, in_main_frame, frame_with, afterwards, pending_of, callers_under};
ghost use Rattle.wb_machine.specs.Flow.{pending_in, needs_step, weight, weight_of, is_stop, is_over, IsSoundPiece};
ghost use Rattle.wb_machine.specs.Flow.{AreSound, IsReady, rest_from, rest_under};
ghost use Rattle.wb_machine.specs.Bodies.{followed_effect};
ghost use Rattle.wb_machine.specs.Owed.{CarriesOut, IsQuiet};
ghost use Rattle.wb_machine.specs.SlotInvariant.{slots_for, slots_for_all, to_destroy_first, HasRoom, HasRoomUnder};

use crate::control::Control;
use crate::locals::{NULL, Slot};
use crate::pieces::{After, Context, Ending, IN_MAIN, PendingPiece, needs_step};
use crate::raiser::Raiser;
use crate::state::State;
use std::alloc::AllocError;
use wb_basics::memory::NoMemory;
use wb_heap_model::heap::{Panic, Ptr};

impl<'a> Control<'a> {
    /// Whether the piece on top is done. The piece is done if the run isn't stopped, and either the piece has no step left, or the piece
    /// above it ended with a return or a leave.
    #[inline(always)]
    fn is_done(&self) -> bool
        ensures yes { IsTrue result → (is_stop self.now.ending ≡ false)
            × (0 < vec_len self.now.pieces)
            × ((below : List PendingPiece) (p : PendingPiece) →
            self.now.pieces.items ≡ below ++ p ∷ [] → self.now.ending ≡ GoesOn →
            needs_step p ≡ false) }
        ensures no { result ≡ false → (is_over self.now.ending self.now.pieces.items ≡ true)
            ⊎ IsReady self.now.ending self.now.pieces.items }
    {
        match (self.ending, self.pieces.last()) {
            (_, None) => false,
            // most steps end with a block on top, so a block has an arm of its own
            (Ending::GoesOn, Some(PendingPiece::Code(_, statements))) => statements.is_empty(),
            (Ending::GoesOn, Some(piece)) => !needs_step(piece),
            (ending, Some(_)) => !ending.is_stop(),
        }
    }

    /// Puts two pieces on top: `then`, and above it the destruction of all items except the `entry` oldest items.
    fn destroy_to(
        &mut self,
        at: Context,
        entry: u32,
        then: PendingPiece<'a>,
        state: &State,
    ) -> Result<(), AllocError>
        ensures pieces { OnOk result ((callers : Values) →
            pending_in callers self.new.pieces.items
            ≡ doing (context_of at) (destroy_items (length state.now.items - entry))
            ∷ pending_of callers then.entry
            ∷ pending_in (callers_under callers then.entry) self.old.pieces.items) }
        ensures weight { OnOk result (weight_of self.new.pieces.items
            ≡ weight_of self.old.pieces.items + weight then.entry + 1) }
        ensures sound { OnOk result ((script : Script) → IsSoundPiece script then.entry →
            AreSound script self.old.pieces.items → AreSound script self.new.pieces.items) }
        ensures slots { OnOk result (slots_for_all self.new.pieces.items
            ≡ max (slots_for_all self.old.pieces.items) (slots_for then.entry)) }
        ensures first { OnOk result (to_destroy_first self.new.pieces.items
            ≡ length state.now.items - entry) }
        ensures ending { OnOk result (self.new.ending ≡ self.old.ending) }
        ensures line { self.new.line ≡ self.old.line }
    {
        let left = state.items().saturating_sub(entry);
        self.push(then)?;
        self.push(PendingPiece::Items(at, left))?;
        Ok(())
    }

    /// Ends a TRAP. If the TRAP's body ended plainly and the stack has as many items as at the TRAP's entry, the TRAP's local gets 0. If
    /// the body ended plainly but the number of items differs, the run panics. If the body left, all items added since the TRAP's entry are
    /// destroyed, and then the local gets the code of the leave. No script returns out of a TRAP.
    #[inline(never)]
    fn unwind_trap(
        &mut self,
        at: Context,
        local: u8,
        entry: u32,
        state: &mut State,
    ) -> Result<(), AllocError>
        requires { is_stop self.old.ending ≡ false }
        ensures kept { OnOk result ((script : Script) (r : Rule) (budget : ℕ) →
            state.old.steps ≤ budget →
            rest_from script budget r self.new.ending self.new.pieces.items state.new
            ≡ rest_under script budget r self.old.ending (catching (context_of at) local entry
            ∷ pending_in state.old.callers self.old.pieces.items) state.old) }
        ensures lighter { OnOk result (weight_of self.new.pieces.items
            < weight_of self.old.pieces.items + 3) }
        ensures sound { OnOk result ((script : Script) → AreSound script self.old.pieces.items →
            AreSound script self.new.pieces.items) }
        ensures quiet { IsQuiet state.old state.new }
        ensures room { OnOk result (entry < state.old.slots →
            HasRoomUnder self.old.ending self.old.pieces.items state.old →
            HasRoom self.new.ending self.new.pieces.items state.new) }
        ensures line { self.new.line ≡ self.old.line }
        ensures raiser { OnOk result (is_stop self.new.ending ≡ true →
            self.new.raiser ≡ TrapEnd) }
    {
        match self.ending {
            Ending::GoesOn if state.items() == entry => state.set(local, Slot::Number(0)),
            Ending::GoesOn => {
                self.raiser = Raiser::TrapEnd;
                self.ending = Ending::Panics(Panic::ITEMS_LEFT);
            }
            Ending::Leaves(code) => {
                self.ending = Ending::GoesOn;
                self.destroy_to(at, entry, PendingPiece::Caught(local, code), state)?;
            }
            Ending::Returns(_) => {}
            Ending::Panics(_) | Ending::Cut(_) | Ending::NoCleanup => unreachable!(),
        }
        Ok(())
    }

    /// Puts the code of a leave into the TRAP's local, after the items were destroyed. If the destruction of an item left, that leave goes
    /// on instead.
    fn unwind_caught(&mut self, local: u8, code: i32, state: &mut State)
        requires { is_stop self.old.ending ≡ false }
        ensures kept { (script : Script) (r : Rule) (budget : ℕ) →
            rest_from script budget r self.new.ending self.old.pieces.items state.new
            ≡ rest_under script budget r self.old.ending (caught local code
            ∷ pending_in state.old.callers self.old.pieces.items) state.old }
        ensures pieces { self.new.pieces.items ≡ self.old.pieces.items }
        ensures quiet { IsQuiet state.old state.new }
        ensures room { HasRoomUnder self.old.ending self.old.pieces.items state.old →
            HasRoom self.new.ending self.old.pieces.items state.new }
        ensures line { self.new.line ≡ self.old.line }
    {
        if let Ending::GoesOn = self.ending {
            state.set(local, Slot::Number(code));
        }
    }

    /// Ends `main`. If `main` ended plainly or returned, but an item is still on the cleanup stack, the run panics. If `main` left, all
    /// items are destroyed, and then the leave ends the run.
    #[inline(never)]
    fn unwind_main(&mut self, state: &State) -> Result<(), AllocError>
        requires { is_stop self.old.ending ≡ false }
        ensures kept { OnOk result ((script : Script) (r : Rule) (budget : ℕ) →
            state.now.steps ≤ budget →
            rest_from script budget r self.new.ending self.new.pieces.items state.now
            ≡ rest_under script budget r self.old.ending (main_catching in_main_frame
            ∷ pending_in state.now.callers self.old.pieces.items) state.now) }
        ensures lighter { OnOk result (weight_of self.new.pieces.items
            < weight_of self.old.pieces.items + 3) }
        ensures sound { OnOk result ((script : Script) → AreSound script self.old.pieces.items →
            AreSound script self.new.pieces.items) }
        ensures room { OnOk result (HasRoomUnder self.old.ending self.old.pieces.items state.now →
            HasRoom self.new.ending self.new.pieces.items state.now) }
        ensures line { self.new.line ≡ self.old.line }
        ensures raiser { OnOk result (is_stop self.new.ending ≡ true →
            self.new.raiser ≡ MainEnd) }
    {
        match self.ending {
            Ending::Leaves(code) => {
                self.ending = Ending::GoesOn;
                self.destroy_to(IN_MAIN, 0, PendingPiece::MainCaught(code), state)?;
            }
            _ if state.items() == 0 => self.ending = Ending::GoesOn,
            _ => {
                self.raiser = Raiser::MainEnd;
                self.ending = Ending::Panics(Panic::ITEMS_LEFT);
            }
        }
        Ok(())
    }

    /// Ends the run by a leave with this code, after the items were destroyed. If the destruction of an item left, that leave ends the run
    /// instead.
    fn unwind_main_caught(&mut self, code: i32)
        requires { is_stop self.old.ending ≡ false }
        ensures kept { (script : Script) (r : Rule) (budget : ℕ) (h : RunState) →
            rest_from script budget r self.new.ending self.old.pieces.items h
            ≡ rest_under script budget r self.old.ending (main_caught code
            ∷ pending_in h.callers self.old.pieces.items) h }
        ensures pieces { self.new.pieces.items ≡ self.old.pieces.items }
        ensures room { (h : RunState) → HasRoomUnder self.old.ending self.old.pieces.items h →
            HasRoom self.new.ending self.old.pieces.items h }
        ensures line { self.new.line ≡ self.old.line }
    {
        if let Ending::GoesOn = self.ending {
            self.ending = Ending::Leaves(code);
        }
    }

    /// Ends a body: the caller's frame becomes the innermost again. The caller's frame begins at `base` and runs a body of the object
    /// `this`. Then the work that `after` names follows, with the pointer that the ended body returned, or with null if that body ended
    /// without a `return`. If the ended body left, the leave goes on, and nothing else follows.
    #[inline(always)]
    fn unwind_call(&mut self, base: usize, this: Ptr, after: After, state: &mut State)
        requires { is_stop self.old.ending ≡ false }
        ensures kept { (script : Script) (r : Rule) (budget : ℕ) →
            rest_from script budget r self.new.ending self.old.pieces.items state.new
            ≡ rest_under script budget r self.old.ending
            (calling (frame_with this (drop base state.old.callers)) (afterwards after)
            ∷ pending_in (take base state.old.callers) self.old.pieces.items) state.old }
        ensures pieces { self.new.pieces.items ≡ self.old.pieces.items }
        ensures quiet { IsQuiet state.old state.new }
        ensures room { HasRoomUnder self.old.ending self.old.pieces.items state.old →
            HasRoom self.new.ending self.old.pieces.items state.new }
        ensures line { self.new.line ≡ self.old.line }
        ensures raiser { is_stop self.new.ending ≡ true → self.new.raiser ≡ Release }
    {
        state.end_call(this, base);
        let result = match self.ending {
            Ending::GoesOn => NULL,
            Ending::Returns(ptr) => ptr,
            Ending::Leaves(_) => return,
            Ending::Panics(_) | Ending::Cut(_) | Ending::NoCleanup => unreachable!(),
        };
        self.raiser = Raiser::Release;
        self.ending = follow(after, result, state);
    }

    /// Handles a piece that was taken off: decides how the run goes on, depending on how the piece above it ended.
    #[inline(always)]
    fn unwind(&mut self, piece: PendingPiece<'a>, state: &mut State) -> Result<(), AllocError>
        requires stop { is_stop self.old.ending ≡ false }
        requires done { self.old.ending ≡ GoesOn → needs_step piece ≡ false }
        ensures kept { OnOk result ((script : Script) (r : Rule) (budget : ℕ) →
            state.old.steps ≤ budget →
            rest_from script budget r self.new.ending self.new.pieces.items state.new
            ≡ rest_under script budget r self.old.ending (pending_of state.old.callers piece.entry
            ∷ pending_in (callers_under state.old.callers piece.entry) self.old.pieces.items)
            state.old) }
        ensures lighter { OnOk result (weight_of self.new.pieces.items
            < weight_of self.old.pieces.items + weight piece.entry) }
        ensures sound { OnOk result ((script : Script) → AreSound script self.old.pieces.items →
            AreSound script self.new.pieces.items) }
        ensures quiet { IsQuiet state.old state.new }
        ensures room { OnOk result (slots_for piece.entry ≤ state.old.slots →
            HasRoomUnder self.old.ending self.old.pieces.items state.old →
            HasRoom self.new.ending self.new.pieces.items state.new) }
        ensures line { self.new.line ≡ self.old.line }
    {
        match piece {
            PendingPiece::Code(..) => {}
            PendingPiece::Turns(..) => {}
            PendingPiece::Items(..) => {}
            PendingPiece::Object(..) => {}
            PendingPiece::Trap(at, local, entry) => self.unwind_trap(at, local, entry, state)?,
            PendingPiece::Caught(local, code) => self.unwind_caught(local, code, state),
            PendingPiece::MainTrap => self.unwind_main(state)?,
            PendingPiece::MainCaught(code) => self.unwind_main_caught(code),
            PendingPiece::Call(base, this, after) => self.unwind_call(base, this, after, state),
        }
        Ok(())
    }

    /// Takes off pieces that are done, until the piece on top has a step to take or the run is over.
    #[inline(always)]
    pub fn settle(&mut self, state: &mut State) -> Result<(), NoMemory>
        ensures kept { OnOk result ((script : Script) (r : Rule) (budget : ℕ) →
            state.old.steps ≤ budget →
            rest_from script budget r self.new.ending self.new.pieces.items state.new
            ≡ rest_from script budget r self.old.ending self.old.pieces.items state.old) }
        ensures stop { OnOk result (is_stop self.old.ending ≡ true →
            is_stop self.new.ending ≡ true) }
        ensures quiet { IsQuiet state.old state.new }
        ensures room { OnOk result (HasRoom self.old.ending self.old.pieces.items state.old →
            HasRoom self.new.ending self.new.pieces.items state.new) }
        ensures line { self.new.line ≡ self.old.line }
        ensures sound { OnOk result ((script : Script) → AreSound script self.old.pieces.items →
            AreSound script self.new.pieces.items) }
        ensures settled { OnOk result ((is_over self.new.ending self.new.pieces.items ≡ true)
            ⊎ IsReady self.new.ending self.new.pieces.items) }
    {
        while self.is_done() {
            if let Some(piece) = self.pieces.pop() {
                self.unwind(piece, state)?;
            }
        }
        Ok(())
    }
}

/// Carries out, in the caller's frame, what follows a body that ended with the result `given`. Returns how this work ends.
fn follow(after: After, given: Ptr, state: &mut State) -> Ending
    ensures followed { CarriesOut state.old (followed_effect state.old after given) result
        state.new }
    ensures quiet { IsQuiet state.old state.new }
{
    match after {
        After::Nothing => Ending::GoesOn,
        After::Gives(local) => {
            state.set(local, Slot::Pointer(given));
            Ending::GoesOn
        }
        After::Releases(object) => state.release(object),
    }
}
