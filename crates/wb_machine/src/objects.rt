//! Statements that make objects, and functions for the class and the fields of an object.

ghost use Rattle.std.specs.Prelude.{◌≡◌, ◌+◌, ◌*◌, ◌<◌, ◌≤◌, Ok, length, IfOk, OnErr, OnOk, IsTrue};
ghost use Rattle.wb_tree.specs.Bodies.{class_at};
ghost use Rattle.wb_tree.specs.Sound.{is_script};
ghost use Rattle.wb_heap_model.specs.CellRow.{payload_of};
ghost use Rattle.wb_heap_model.specs.Debug.{debug_changed, with_row};
ghost use Rattle.wb_objects.specs.Objects.{object_made, with_field};
ghost use Rattle.wb_machine.specs.Bodies.{class_read};
ghost use Rattle.wb_machine.specs.ObjectEffects.{new_effect};
ghost use Rattle.wb_machine.specs.Owed.{CarriesOut, KeepsCount, MayAttempt};
ghost use Rattle.wb_machine.specs.PointerOperands.{row_with_field};
ghost use Rattle.wb_machine.specs.RunState.{with_debug};

use crate::pieces::Ending;
use crate::pointers::has_words;
use crate::state::State;
use wb_basics::memory::NoMemory;
use wb_heap_model::heap::{Gave, Panic, Ptr};
use wb_objects::set_field;
use wb_tree::script::{Pointer, Refusal, Script};

impl State {
    /// The class of the object that a pointer names. The panic is WORKBENCH 1 if the pointer names no live cell, and WORKBENCH 2 if the
    /// cell holds no object.
    pub fn class(&self, ptr: Ptr) -> Result<u16, Panic>
        ensures { result ≡ class_read self.now ptr }
    {
        wb_objects::class_of(&self.heap, ptr)
    }

    /// Puts a pointer into a field of an object. The object is of the class `class`, and the object's cell has words for the field.
    fn put_field(&mut self, object: Ptr, class: u16, index: u8, to: Ptr)
        requires class { class_read self.old object ≡ Ok class }
        requires room { 4 + 2 * index ≤ length (payload_of object self.old.debug.heap.row) }
        ensures put { self.new ≡ with_debug self.old
            (debug_changed self.old.debug object
            (with_field index to (payload_of object self.old.debug.heap.row))) }
        ensures keeps { KeepsCount self.old self.new }
    {
        match set_field(&mut self.heap, object, class, index, to) {
            Ok(()) => {}
            Err(_) => unreachable!(),
        }
    }

    /// Puts a pointer into a field of an object of any class. A cell that holds no object, or has no words for the field, stays as it is. A
    /// script that was read never sets a field of such a cell, because `operands_refusal` tests the field's object before the statement is
    /// carried out.
    pub fn set_field(&mut self, object: Ptr, index: u8, to: Ptr)
        ensures set { self.new ≡ with_debug self.old
            (with_row self.old.debug (row_with_field object index to self.old.debug.heap.row)) }
        ensures keeps { KeepsCount self.old self.new }
    {
        if !has_words(&self.heap, object, index) {
            return;
        }
        if let Ok(class) = self.class(object) {
            self.put_field(object, class, index, to);
        }
    }
    /// Makes an attempt to get a cell for an object of a class.
    ///
    /// If the heap's ceiling refuses the cell, or the workbench itself runs out of memory, the attempt isn't counted and nothing changes.
    fn attempt_object(&mut self, script: &Script, class: u16) -> Result<Gave, NoMemory>
        requires script { IsTrue (is_script script.now) }
        requires class { class < length script.now.classes }
        requires number { MayAttempt self.old }
        ensures gave { IfOk result (λ gave.
            gave ≡ (object_made self.old.debug class (class_at script.now class)).gave) }
        ensures made { OnOk result (self.new ≡ with_debug self.old
            (object_made self.old.debug class (class_at script.now class)).debug) }
        ensures err { OnErr result (self.new ≡ self.old) }
        ensures keeps { KeepsCount self.old self.new }
    {
        wb_objects::make(&mut self.heap, script, class)
    }

    /// Makes an object of a class, and gives the target a pointer to the object. If the attempt fails, the statement does what `refusal`
    /// says.
    #[inline(never)]
    pub fn new_object(
        &mut self,
        script: &Script,
        target: &Pointer,
        class: u16,
        refusal: Refusal,
    ) -> Result<Ending, NoMemory>
        requires script { IsTrue (is_script script.now) }
        requires class { class < length script.now.classes }
        requires number { MayAttempt self.old }
        ensures effect { IfOk result (λ ending. CarriesOut self.old
            (new_effect script.now self.old target.now class refusal) ending self.new) }
        ensures err { OnErr result (self.new ≡ self.old) }
        ensures keeps { KeepsCount self.old self.new }
    {
        let gave = self.attempt_object(script, class)?;
        Ok(self.give(target, refusal, gave))
    }
}
