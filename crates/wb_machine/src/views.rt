//! Statements that read texts: they make views of parts, get lengths and maxima, and print texts.

ghost use Rattle.std.specs.Prelude.{◌≡◌, ◌^◌, ◌<◌, None, IfOk, OnOk, IsTrue};
ghost use Rattle.wb_meaning.specs.Operands.{not_negative};
ghost use Rattle.wb_tree.specs.Sound.{is_script};
ghost use Rattle.wb_machine.specs.Effects.{number_read};
ghost use Rattle.wb_machine.specs.TextOperands.{base_named, base_refusal, base_max, window_read, window_units};
ghost use Rattle.wb_machine.specs.TextEffects.{unless_panics, part_stored, count_read, left_read, right_read, mid_read};
ghost use Rattle.wb_machine.specs.TextEffects.{length_effect, max_effect, print_effect};
ghost use Rattle.wb_machine.specs.Owed.{CarriesOut, KeepsCount};

use crate::locals::Slot;
use crate::operands::not_negative;
use crate::pieces::Ending;
use crate::state::State;
use crate::windows::Window;
use wb_basics::memory::NoMemory;
use wb_heap_model::heap::Panic;
use wb_text::Base;
use wb_tree::script::{Number, Readable, Script, Writable};

/// Views of parts of texts.
impl State {
    /// Ends a statement that makes a view: the view local gets the part, or the statement panics.
    fn set_part(&mut self, local: u8, part: Result<Window, Panic>) -> Ending
        ensures { CarriesOut self.old (part_stored self.old local part) result self.new }
    {
        match part {
            Ok(window) => {
                self.set(local, Slot::View(window));
                Ending::GoesOn
            }
            Err(panic) => Ending::Panics(panic),
        }
    }

    /// The value of a number operand; `Panic::NUMBER_OUT_OF_RANGE` if it is negative.
    fn count(&self, number: Number) -> Result<u32, Panic>
        ensures { result ≡ count_read self.now number }
    {
        match not_negative(self.number(number)) {
            Some(count) => Ok(count),
            None => Err(Panic::NUMBER_OUT_OF_RANGE),
        }
    }

    /// A view of the first `count` units of a text, or the panic of the statement.
    fn left_part(&self, script: &Script, text: Readable, count: Number) -> Result<Window, Panic>
        requires { IsTrue (is_script script.now) }
        ensures { result ≡ left_read script.now self.now text count }
    {
        let window = self.window(script, text)?;
        window.left(self.count(count)?)
    }

    /// A view of the last `count` units of a text, or the panic of the statement.
    fn right_part(&self, script: &Script, text: Readable, count: Number) -> Result<Window, Panic>
        requires { IsTrue (is_script script.now) }
        ensures { result ≡ right_read script.now self.now text count }
    {
        let window = self.window(script, text)?;
        window.right(self.count(count)?)
    }

    /// A view of `count` units of a text from `position` on, or the panic of the statement.
    fn mid_part(
        &self,
        script: &Script,
        text: Readable,
        position: Number,
        count: Number,
    ) -> Result<Window, Panic>
        requires { IsTrue (is_script script.now) }
        ensures { result ≡ mid_read script.now self.now text position count }
    {
        let window = self.window(script, text)?;
        let position = self.count(position)?;
        window.mid(position, self.count(count)?)
    }

    /// A view local gets the first `count` units of a text.
    pub fn left(&mut self, script: &Script, local: u8, text: Readable, count: Number) -> Ending
        requires { IsTrue (is_script script.now) }
        ensures { CarriesOut self.old (part_stored self.old local
            (left_read script.now self.old text count)) result self.new }
    {
        let part = self.left_part(script, text, count);
        self.set_part(local, part)
    }

    /// A view local gets the last `count` units of a text.
    pub fn right(&mut self, script: &Script, local: u8, text: Readable, count: Number) -> Ending
        requires { IsTrue (is_script script.now) }
        ensures { CarriesOut self.old (part_stored self.old local
            (right_read script.now self.old text count)) result self.new }
    {
        let part = self.right_part(script, text, count);
        self.set_part(local, part)
    }

    /// A view local gets `count` units of a text from a position on.
    pub fn mid(
        &mut self,
        script: &Script,
        local: u8,
        text: Readable,
        position: Number,
        count: Number,
    ) -> Ending
        requires { IsTrue (is_script script.now) }
        ensures { CarriesOut self.old (part_stored self.old local
            (mid_read script.now self.old text position count)) result self.new }
    {
        let part = self.mid_part(script, text, position, count);
        self.set_part(local, part)
    }
}

/// Statements that get the length or the maximum of a text, or print a text.
impl State {
    /// A number local gets the length of a text, in units.
    pub fn get_length(&mut self, script: &Script, local: u8, text: Readable) -> Ending
        requires { IsTrue (is_script script.now) }
        ensures { CarriesOut self.old (length_effect script.now self.old local text) result
            self.new }
    {
        match self.window(script, text) {
            Ok(window) => {
                let length = window.view().length;
                self.set(local, Slot::Number(length.cast_signed()));
                Ending::GoesOn
            }
            Err(panic) => Ending::Panics(panic),
        }
    }

    /// The maximum of a base's text, in units; 0 if the base is a literal or nothing.
    pub fn max_of(&self, base: Base) -> u32
        requires { base_refusal self.now base ≡ None }
        ensures max { result ≡ base_max self.now base }
        ensures most { result < 2 ^ 31 }
    {
        match base {
            Base::Local(index) => self.locals.buffer(index).max(),
            Base::Cell(ptr) => match self.heap.header(ptr) {
                Some(_) => wb_hbuf::max_len(&self.heap, ptr),
                None => unreachable!(),
            },
            Base::Nothing | Base::Literal(_) => 0,
        }
    }

    /// A number local gets the maximum of a text, in units.
    pub fn get_maximum(&mut self, script: &Script, local: u8, target: Writable) -> Ending
        ensures { CarriesOut self.old
            (max_effect self.old local (base_named script.now self.old target)) result self.new }
    {
        let base = self.base(script, target);
        if let Some(panic) = self.refusal(base) {
            return Ending::Panics(panic);
        }
        let max = self.max_of(base);
        self.set(local, Slot::Number(max.cast_signed()));
        Ending::GoesOn
    }

    /// Prints a text.
    pub fn print_text(&mut self, script: &Script, text: Readable) -> Result<Ending, NoMemory>
        requires { IsTrue (is_script script.now) }
        ensures effect { IfOk result (λ ending.
            CarriesOut self.old (print_effect script.now self.old text) ending self.new) }
        ensures keeps { KeepsCount self.old self.new }
    {
        match self.window(script, text) {
            Ok(window) => {
                let view = window.view();
                let source = self.source(script, self.buffer(view.base), view);
                let line = wb_hbuf::print_units(&self.heap, source);
                self.print(line)
            }
            Err(panic) => Ok(Ending::Panics(panic)),
        }
    }
}
