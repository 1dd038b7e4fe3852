//! Statements that allocate and reallocate cells for texts, and edits of the texts in cells.

ghost use Rattle.std.specs.Prelude.{◌≡◌, ◌+◌, ◌*◌, ◌<◌, ◌≤◌, None, Some, length, IfOk, IfSome, OnErr, OnOk};
ghost use Rattle.wb_basics.specs.declared.limits.TheConstants.{MOST_UNITS};
ghost use Rattle.wb_heap_model.specs.Debug.{realloc_made};
ghost use Rattle.wb_heap_model.specs.Row.{cell_at};
ghost use Rattle.wb_heap_model.specs.TextCells.{debug_edited, max_at, text_at};
ghost use Rattle.wb_heap_model.specs.Texts.{answer_of, delete_text, set_length_text};
ghost use Rattle.wb_hbuf.specs.Sources.{IsApart, IsSource, SuitsEdit, cell_edited};
ghost use Rattle.wb_machine.specs.RunState.{with_debug};
ghost use Rattle.wb_machine.specs.TextOperands.{text_refusal};
ghost use Rattle.wb_machine.specs.TextInvariant.{AreTexts};
ghost use Rattle.wb_machine.specs.Effects.{pointer_read, number_read};
ghost use Rattle.wb_machine.specs.TextEffects.{new_text_effect, realloc_text_effect};
ghost use Rattle.wb_machine.specs.Owed.{CarriesOut, KeepsCount, MayAttempt};

use crate::operands::number_within;
use crate::pieces::Ending;
use crate::state::State;
use wb_basics::limits::MOST_UNITS;
use wb_basics::memory::NoMemory;
use wb_hbuf::sources::{Edit, Source};
use wb_heap_model::heap::{Gave, Kind, Panic, Ptr};
use wb_text::Base;
use wb_tree::script::{Number, Pointer, Refusal, Script};

impl State {
    /// Reallocates the cell of a text to hold `units` units. If the cell must become longer, reallocating it is an attempt. If the
    /// workbench runs out of memory, nothing changes.
    fn remake(&mut self, ptr: Ptr, units: u32) -> Result<Gave, NoMemory>
        requires text { text_refusal (cell_at ptr self.old.debug.heap.row) ≡ None }
        requires fits { length (text_at ptr self.old.debug) ≤ units }
        requires units { units ≤ MOST_UNITS }
        requires number { MayAttempt self.old }
        ensures gave { IfOk result (λ gave. IfSome (cell_at ptr self.old.debug.heap.row) (λ c.
            gave ≡ (realloc_made self.old.debug c (4 + 2 * units)).gave)) }
        ensures made { OnOk result (IfSome (cell_at ptr self.old.debug.heap.row) (λ c.
            self.new ≡ with_debug self.old (realloc_made self.old.debug c (4 + 2 * units)).debug)) }
        ensures err { OnErr result (self.new ≡ self.old) }
        ensures keeps { KeepsCount self.old self.new }
    {
        wb_hbuf::remake(&mut self.heap, ptr, units)
    }

    /// Allocates a cell with room for a text of `units` units, and gives the target a pointer to the cell. The text is empty at first.
    pub fn new_text(
        &mut self,
        target: Pointer,
        units: Number,
        refusal: Refusal,
    ) -> Result<Ending, NoMemory>
        requires number { MayAttempt self.old }
        ensures effect { IfOk result (λ ending. CarriesOut self.old
            (new_text_effect self.old target refusal (number_read self.old units)) ending
            self.new) }
        ensures err { OnErr result (self.new ≡ self.old) }
        ensures keeps { KeepsCount self.old self.new }
    {
        let Some(units) = number_within(MOST_UNITS, self.number(units)) else {
            return Ok(Ending::Panics(Panic::NUMBER_OUT_OF_RANGE));
        };
        let gave = self.attempt(4 + 2 * units, Kind::Text)?;
        Ok(self.give(&target, refusal, gave))
    }

    /// Reallocates the cell of the source's text to hold `units` units. The target gets a pointer to the cell, or null if the attempt
    /// fails.
    pub fn realloc_text(
        &mut self,
        script: &Script,
        target: Pointer,
        source: Pointer,
        units: Number,
    ) -> Result<Ending, NoMemory>
        requires number { MayAttempt self.old }
        ensures effect { IfOk result (λ ending. CarriesOut self.old
            (realloc_text_effect self.old target (pointer_read script.now self.old source)
            (number_read self.old units)) ending self.new) }
        ensures err { OnErr result (self.new ≡ self.old) }
        ensures texts { AreTexts self.old.debug.heap.row }
        ensures keeps { KeepsCount self.old self.new }
    {
        let ptr = self.pointer(script, source);
        if let Some(panic) = self.refusal(Base::Cell(ptr)) {
            return Ok(Ending::Panics(panic));
        }
        let Some(units) = number_within(MOST_UNITS, self.number(units)) else {
            return Ok(Ending::Panics(Panic::NUMBER_OUT_OF_RANGE));
        };
        if units < wb_hbuf::length(&self.heap, ptr) {
            return Ok(Ending::Panics(Panic::SHORTER_THAN_TEXT));
        }
        let gave = self.remake(ptr, units)?;
        Ok(self.give(&target, Refusal::GivesNull, gave))
    }
}

/// Edits of the text in a cell. An edit that panics changes nothing.
impl State {
    /// Changes the text in a cell with the units of a source, as `change` says.
    pub fn edit_cell(&mut self, ptr: Ptr, change: Edit, source: Source) -> Result<(), Panic>
        requires text { text_refusal (cell_at ptr self.old.debug.heap.row) ≡ None }
        requires source { IsSource self.old.debug source }
        requires apart { IsApart ptr source }
        requires suits { SuitsEdit change source }
        ensures answer { result ≡ answer_of (cell_edited self.old.debug ptr change source.entry) }
        ensures changed { self.new ≡ with_debug self.old
            (debug_edited self.old.debug ptr (cell_edited self.old.debug ptr change source.entry)) }
        ensures now { OnOk result (cell_edited self.old.debug ptr change source.entry
            ≡ Ok (text_at ptr self.new.debug)) }
    {
        wb_hbuf::edit(&mut self.heap, ptr, change, source)
    }

    /// Deletes `count` units of the text in a cell, from `position` on.
    pub fn delete_in_cell(&mut self, ptr: Ptr, position: u32, count: u32) -> Result<(), Panic>
        requires { text_refusal (cell_at ptr self.old.debug.heap.row) ≡ None }
        ensures answer { result
            ≡ answer_of (delete_text (text_at ptr self.old.debug) position count) }
        ensures changed { self.new ≡ with_debug self.old
            (debug_edited self.old.debug ptr
            (delete_text (text_at ptr self.old.debug) position count)) }
        ensures now { OnOk result (delete_text (text_at ptr self.old.debug) position count
            ≡ Ok (text_at ptr self.new.debug)) }
    {
        wb_hbuf::delete(&mut self.heap, ptr, position, count)
    }

    /// Sets the length of the text in a cell, in units.
    pub fn set_cell_length(&mut self, ptr: Ptr, length: u32) -> Result<(), Panic>
        requires { text_refusal (cell_at ptr self.old.debug.heap.row) ≡ None }
        ensures answer { result ≡ answer_of
            (set_length_text (max_at ptr self.old.debug) (text_at ptr self.old.debug) length) }
        ensures changed { self.new ≡ with_debug self.old
            (debug_edited self.old.debug ptr
            (set_length_text (max_at ptr self.old.debug) (text_at ptr self.old.debug) length)) }
        ensures now { OnOk result (set_length_text (max_at ptr self.old.debug)
            (text_at ptr self.old.debug) length ≡ Ok (text_at ptr self.new.debug)) }
    {
        wb_hbuf::set_length(&mut self.heap, ptr, length)
    }
}
