//! Statements that set pointers and number locals.

ghost use Rattle.std.specs.Prelude.{◌≡◌};
ghost use Rattle.wb_meaning.specs.State.{number};
ghost use Rattle.wb_heap_model.specs.Pointers.{null};
ghost use Rattle.wb_machine.specs.declared.pieces.Ending.TheVariants.{GoesOn};
ghost use Rattle.wb_machine.specs.Effects.{gone_on, pointer_read, number_read, pointer_stored, stored, add_effect};
ghost use Rattle.wb_machine.specs.Owed.{CarriesOut};

use crate::locals::{NULL, Slot};
use crate::pieces::Ending;
use crate::state::State;
use wb_heap_model::heap::Panic;
use wb_tree::script::{Number, Pointer, Script};

impl State {
    /// Puts the pointer of a source into a target.
    #[inline(never)]
    pub fn copy_pointer(&mut self, script: &Script, target: &Pointer, source: &Pointer) -> Ending
        ensures { CarriesOut self.old (gone_on
            (pointer_stored self.old target.now (pointer_read script.now self.old source.now)))
            result self.new }
    {
        let ptr = self.pointer(script, *source);
        self.set_pointer(*target, ptr);
        Ending::GoesOn
    }

    /// Puts null into a target.
    pub fn set_null(&mut self, target: &Pointer) -> Ending
        ensures { CarriesOut self.old (gone_on (pointer_stored self.old target.now null)) result
            self.new }
    {
        self.set_pointer(*target, NULL);
        Ending::GoesOn
    }

    /// Puts a number into a number local.
    #[inline(always)]
    pub fn set_number(&mut self, local: u8, value: &Number) -> Ending
        ensures { CarriesOut self.old (gone_on
            (stored self.old local (number (number_read self.old value.now)))) result self.new }
    {
        let value = self.number(*value);
        self.set(local, Slot::Number(value));
        Ending::GoesOn
    }

    /// Adds a number to a number local. Panics with WORKBENCH 9 if the sum doesn't fit into an int.
    #[inline(always)]
    pub fn add(&mut self, local: u8, value: &Number) -> Ending
        ensures { CarriesOut self.old (add_effect self.old local (number_read self.old value.now))
            result self.new }
    {
        let value = self.number(*value);
        let Some(sum) = self.number(Number::Variable(local)).checked_add(value) else {
            return Ending::Panics(Panic::NUMBER_OUT_OF_RANGE);
        };
        self.set(local, Slot::Number(sum));
        Ending::GoesOn
    }
}
