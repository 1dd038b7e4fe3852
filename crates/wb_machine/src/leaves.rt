//! Conditions of an `if`, and statements that end a body or leave.

ghost use Rattle.std.specs.Prelude.{◌≡◌, pos, int_lt};
ghost use Rattle.wb_heap_model.specs.Pointers.{null};
ghost use Rattle.wb_heap_model.specs.Pointers.{is_null};
ghost use Rattle.wb_heap_model.specs.declared.heap.TheConstants.{KERR_NO_MEMORY};
ghost use Rattle.wb_machine.specs.Effects.{pointer_read, number_read, condition_read, left_with, left_where, returned};
ghost use Rattle.wb_machine.specs.Owed.{CarriesOut};

use crate::locals::NULL;
use crate::pieces::Ending;
use crate::state::State;
use wb_heap_model::heap::KERR_NO_MEMORY;
use wb_tree::script::{Condition, Number, Pointer, Script};

impl State {
    /// Whether a condition holds.
    #[inline(always)]
    pub fn holds(&self, script: &Script, condition: &Condition) -> bool
        ensures { result ≡ condition_read script.now self.now condition.now }
    {
        match condition {
            Condition::IsNull(pointer) => self.pointer(script, *pointer).number == 0,
            Condition::NotNull(pointer) => self.pointer(script, *pointer).number != 0,
            Condition::Equal(one, other) => self.number(*one) == self.number(*other),
            Condition::Less(one, other) => self.number(*one) < self.number(*other),
        }
    }

    /// Leaves with a code.
    #[inline(always)]
    pub fn leave(&mut self, code: &Number) -> Ending
        ensures { CarriesOut self.old (left_with self.old (number_read self.old code.now)) result
            self.new }
    {
        Ending::Leaves(self.number(*code))
    }

    /// Leaves with a code if the code is negative, and otherwise goes on.
    #[inline(always)]
    pub fn leave_if_error(&mut self, code: &Number) -> Ending
        ensures { CarriesOut self.old (left_where self.old
            (int_lt (number_read self.old code.now) (pos 0)) (number_read self.old code.now)) result
            self.new }
    {
        let code = self.number(*code);
        if code < 0 {
            Ending::Leaves(code)
        } else {
            Ending::GoesOn
        }
    }

    /// Leaves with `KErrNoMemory` if a pointer is null, and otherwise goes on.
    pub fn leave_if_null(&mut self, script: &Script, pointer: &Pointer) -> Ending
        ensures { CarriesOut self.old (left_where self.old
            (is_null (pointer_read script.now self.old pointer.now)) KERR_NO_MEMORY) result
            self.new }
    {
        if self.pointer(script, *pointer).number == 0 {
            Ending::Leaves(KERR_NO_MEMORY)
        } else {
            Ending::GoesOn
        }
    }

    /// Ends a body without a result: a caller that takes the body's result gets null.
    #[inline(always)]
    pub fn end_body(&mut self) -> Ending
        ensures { CarriesOut self.old (returned self.old null) result self.new }
    {
        Ending::Returns(NULL)
    }

    /// Ends a body with a pointer as its result.
    pub fn end_body_with(&mut self, script: &Script, pointer: &Pointer) -> Ending
        ensures { CarriesOut self.old
            (returned self.old (pointer_read script.now self.old pointer.now)) result self.new }
    {
        Ending::Returns(self.pointer(script, *pointer))
    }
}
