//! Statements that change texts.

ghost use Rattle.std.specs.Prelude.{◌≡◌, [], None, IsTrue};
ghost use Rattle.wb_tree.specs.Sound.{is_script};
ghost use Rattle.wb_heap_model.specs.Texts.{delete_text, set_length_text};
ghost use Rattle.wb_heap_model.specs.declared.text.Base.{Base};
ghost use Rattle.wb_heap_model.specs.declared.text.Base.TheVariants as B;
ghost use Rattle.wb_hbuf.specs.Sources.{edit_text};
ghost use Rattle.wb_machine.specs.Effects.{number_read};
ghost use Rattle.wb_machine.specs.TextOperands.{base_named, base_refusal, base_text, base_max, is_writable_base};
ghost use Rattle.wb_machine.specs.TextOperands.{window_read, window_units, buffer_under};
ghost use Rattle.wb_machine.specs.TextEffects.{ending_by, IsWritten, IsEditedBy, IsInsertedBy, IsDeletedBy};
ghost use Rattle.wb_machine.specs.TextEffects.{IsLengthSet, SuitsBase};
ghost use Rattle.wb_machine.specs.Owed.{KeepsCount};

use crate::locals::copy_of;
use crate::operands::not_negative;
use crate::pieces::Ending;
use crate::state::State;
use crate::text_operands::is_same_base;
use crate::windows::Window;
use wb_hbuf::sources::{Edit, Source};
use wb_heap_model::heap::{Panic, Ptr};
use wb_text::{Base, Buf};
use wb_tree::script::{Number, Readable, Script, Writable};

/// How a statement ends after an edit with this result: plainly, or with the edit's panic.
fn ending_of(answer: Result<(), Panic>) -> Ending
    ensures { result ≡ ending_by answer }
{
    match answer {
        Ok(()) => Ending::GoesOn,
        Err(panic) => Ending::Panics(panic),
    }
}

/// Edits of the texts that can be changed. These texts are in buffers and in cells.
impl State {
    /// A copy of the buffer that a base names; an empty buffer if the base is no buffer.
    fn buffer_copy(&self, base: Base) -> Buf
        ensures { result ≡ buffer_under self.now base }
    {
        match base {
            Base::Local(index) => copy_of(self.locals.buffer(index)),
            Base::Nothing | Base::Literal(_) | Base::Cell(_) => Buf::new(0),
        }
    }

    /// Changes the text in a cell, as `change` says, with the units that a view shows.
    fn write_cell(&mut self, script: &Script, ptr: Ptr, change: Edit, window: Window) -> Ending
        requires target { base_refusal self.old (B.Cell ptr) ≡ None }
        requires source { base_refusal self.old window.base ≡ None }
        requires suits { SuitsBase change (B.Cell ptr) window.base }
        ensures written { IsWritten self.old (B.Cell ptr)
            (edit_text change (base_max self.old (B.Cell ptr))
            (base_text script.now.literals self.old (B.Cell ptr))
            (window_units script.now.literals self.old window)) result self.new }
        ensures keeps { KeepsCount self.old self.new }
    {
        let view = window.view();
        if is_same_base(Base::Cell(ptr), view.base) {
            let own = Source::Own(view.position, view.length);
            return ending_of(self.edit_cell(ptr, change, own));
        }
        let copy = self.buffer_copy(view.base);
        let source = self.source(script, &copy, view);
        ending_of(self.edit_cell(ptr, change, source))
    }

    /// Changes the text in a buffer, as `change` says, with the units that a view shows.
    fn write_buffer(&mut self, script: &Script, index: u8, change: Edit, window: Window) -> Ending
        requires source { base_refusal self.old window.base ≡ None }
        ensures written { IsWritten self.old (B.Local index)
            (edit_text change (base_max self.old (B.Local index))
            (base_text script.now.literals self.old (B.Local index))
            (window_units script.now.literals self.old window)) result self.new }
        ensures keeps { KeepsCount self.old self.new }
    {
        let view = window.view();
        let copy = self.buffer_copy(view.base);
        let source = self.source(script, &copy, view);
        ending_of(self.locals.edit_buffer(index, &self.heap, change, source))
    }

    /// Changes a text, as `change` says, with the units that a view shows.
    fn write(&mut self, script: &Script, to: Base, change: Edit, window: Window) -> Ending
        requires writable { IsTrue (is_writable_base to) }
        requires target { base_refusal self.old to ≡ None }
        requires source { base_refusal self.old window.base ≡ None }
        requires suits { SuitsBase change to window.base }
        ensures written { IsWritten self.old to (edit_text change (base_max self.old to)
            (base_text script.now.literals self.old to)
            (window_units script.now.literals self.old window)) result self.new }
        ensures keeps { KeepsCount self.old self.new }
    {
        match to {
            Base::Local(index) => self.write_buffer(script, index, change, window),
            Base::Cell(ptr) => self.write_cell(script, ptr, change, window),
            Base::Nothing | Base::Literal(_) => unreachable!(),
        }
    }

    /// Copies a text to the target, or appends the text to the target's text, as `change` says.
    pub fn edit(
        &mut self,
        script: &Script,
        target: Writable,
        change: Edit,
        text: Readable,
    ) -> Ending
        requires script { IsTrue (is_script script.now) }
        requires suits { (from : Base) →
            SuitsBase change (base_named script.now self.old target) from }
        ensures edited { IsEditedBy script.now.literals self.old
            (base_named script.now self.old target) (window_read script.now self.old text) change
            result self.new }
        ensures keeps { KeepsCount self.old self.new }
    {
        let to = self.base(script, target);
        if let Some(panic) = self.refusal(to) {
            return Ending::Panics(panic);
        }
        match self.window(script, text) {
            Ok(window) => self.write(script, to, change, window),
            Err(panic) => Ending::Panics(panic),
        }
    }

    /// Inserts a text into the target's text, before the unit at a position.
    pub fn insert(
        &mut self,
        script: &Script,
        target: Writable,
        position: Number,
        text: Readable,
    ) -> Ending
        requires { IsTrue (is_script script.now) }
        ensures inserted { IsInsertedBy script.now.literals self.old
            (base_named script.now self.old target) (window_read script.now self.old text)
            (number_read self.old position) result self.new }
        ensures keeps { KeepsCount self.old self.new }
    {
        let to = self.base(script, target);
        if let Some(panic) = self.refusal(to) {
            return Ending::Panics(panic);
        }
        let window = match self.window(script, text) {
            Ok(window) => window,
            Err(panic) => return Ending::Panics(panic),
        };
        let Some(at) = not_negative(self.number(position)) else {
            return Ending::Panics(Panic::NUMBER_OUT_OF_RANGE);
        };
        if is_same_base(to, window.view().base) {
            return Ending::Panics(Panic::NUMBER_OUT_OF_RANGE);
        }
        self.write(script, to, Edit::Insert(at), window)
    }
}

/// Statements that delete units of a text, or set the length of a text.
impl State {
    /// Deletes `count` units of a text, from `position` on.
    fn take_out(&mut self, to: Base, position: u32, count: u32) -> Ending
        requires writable { IsTrue (is_writable_base to) }
        requires target { base_refusal self.old to ≡ None }
        ensures written { IsWritten self.old to
            (delete_text (base_text [] self.old to) position count) result self.new }
        ensures keeps { KeepsCount self.old self.new }
    {
        match to {
            Base::Local(index) => {
                ending_of(self.locals.delete_in_buffer(index, position, count))
            }
            Base::Cell(ptr) => ending_of(self.delete_in_cell(ptr, position, count)),
            Base::Nothing | Base::Literal(_) => unreachable!(),
        }
    }

    /// Sets the length of a text, in units.
    fn cut_to(&mut self, to: Base, length: u32) -> Ending
        requires writable { IsTrue (is_writable_base to) }
        requires target { base_refusal self.old to ≡ None }
        ensures written { IsWritten self.old to (set_length_text (base_max self.old to)
            (base_text [] self.old to) length) result self.new }
        ensures keeps { KeepsCount self.old self.new }
    {
        match to {
            Base::Local(index) => { ending_of(self.locals.set_buffer_length(index, length)) }
            Base::Cell(ptr) => ending_of(self.set_cell_length(ptr, length)),
            Base::Nothing | Base::Literal(_) => unreachable!(),
        }
    }

    /// Carries out a deletion: deletes `count` units of a text, from a position on.
    pub fn delete_text(
        &mut self,
        script: &Script,
        target: Writable,
        position: Number,
        count: Number,
    ) -> Ending
        ensures deleted { IsDeletedBy self.old (base_named script.now self.old target)
            (number_read self.old position) (number_read self.old count) result self.new }
        ensures keeps { KeepsCount self.old self.new }
    {
        let to = self.base(script, target);
        if let Some(panic) = self.refusal(to) {
            return Ending::Panics(panic);
        }
        let Some(position) = not_negative(self.number(position)) else {
            return Ending::Panics(Panic::NUMBER_OUT_OF_RANGE);
        };
        let Some(count) = not_negative(self.number(count)) else {
            return Ending::Panics(Panic::NUMBER_OUT_OF_RANGE);
        };
        self.take_out(to, position, count)
    }

    /// Carries out the statement that sets the length of a text, in units.
    pub fn set_length(&mut self, script: &Script, target: Writable, length: Number) -> Ending
        ensures set { IsLengthSet self.old (base_named script.now self.old target)
            (number_read self.old length) result self.new }
        ensures keeps { KeepsCount self.old self.new }
    {
        let to = self.base(script, target);
        if let Some(panic) = self.refusal(to) {
            return Ending::Panics(panic);
        }
        let Some(length) = not_negative(self.number(length)) else {
            return Ending::Panics(Panic::NUMBER_OUT_OF_RANGE);
        };
        self.cut_to(to, length)
    }
}
