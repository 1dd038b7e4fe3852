//! Statements that mark the heap, check it, and set which attempts are to fail.

ghost use Rattle.std.specs.Prelude.{◌≡◌, ◌+◌, ◌^◌, ◌<◌, None, Some, IfErr, OnErr, OnOk};
ghost use Rattle.wb_meaning.specs.Operands.{not_negative};
ghost use Rattle.wb_meaning.specs.Statements.{at_least_one};
ghost use Rattle.wb_heap_model.specs.Rules.{never, next, each};
ghost use Rattle.wb_heap_model.specs.Heap.{after_mark_end, mark_end_refusal};
ghost use Rattle.wb_heap_model.specs.Debug.{check_refusal, check_all_refusal, with_setting};
ghost use Rattle.wb_machine.specs.RunState.{with_debug};
ghost use Rattle.wb_machine.specs.declared.pieces.Ending.TheVariants.{GoesOn};
ghost use Rattle.wb_machine.specs.Effects.{gone_on, number_read, marked, mark_end_within, check_within, set_within};
ghost use Rattle.wb_machine.specs.Owed.{CarriesOut};

use crate::operands::{at_least_one, not_negative};
use crate::pieces::Ending;
use crate::state::State;
use wb_heap_model::heap::Panic;
use wb_tree::script::Number;

impl State {
    /// Opens a mark: cells that are allocated from now on belong to the next level.
    pub fn mark(&mut self) -> Ending
        requires { self.old.debug.heap.level + 1 < 2 ^ 32 }
        ensures { CarriesOut self.old (gone_on (marked self.old)) result self.new }
    {
        self.heap.mark();
        Ending::GoesOn
    }

    /// Closes the innermost mark if exactly `count` cells of the mark's level are live. If more or fewer of these cells are live, or no
    /// mark is open, returns the panic and changes nothing.
    fn end_mark(&mut self, count: u32) -> Result<(), Panic>
        ensures refused { IfErr result (λ panic.
            mark_end_refusal self.old.debug.heap count ≡ Some panic) }
        ensures fine { OnOk result (mark_end_refusal self.old.debug.heap count ≡ None) }
        ensures closed { OnOk result (self.new ≡ with_debug self.old (record self.old.debug {
          heap = after_mark_end self.old.debug.heap;
        })) }
        ensures err { OnErr result (self.new ≡ self.old) }
    {
        self.heap.mark_end(count)
    }

    /// Closes the innermost mark. Panics if `count` is negative, if no mark is open, or if more or fewer than `count` cells of the mark's
    /// level are live.
    pub fn mark_end(&mut self, count: &Number) -> Ending
        ensures { CarriesOut self.old (mark_end_within self.old
            (not_negative (number_read self.old count.now))) result self.new }
    {
        let Some(count) = not_negative(self.number(*count)) else {
            return Ending::Panics(Panic::NUMBER_OUT_OF_RANGE);
        };
        match self.end_mark(count) {
            Ok(()) => Ending::GoesOn,
            Err(panic) => Ending::Panics(panic),
        }
    }

    /// Panics unless exactly `count` cells of the current level are live.
    pub fn check(&mut self, count: &Number) -> Ending
        ensures { CarriesOut self.old (check_within self.old (check_refusal self.old.debug)
            (not_negative (number_read self.old count.now))) result self.new }
    {
        let Some(count) = not_negative(self.number(*count)) else {
            return Ending::Panics(Panic::NUMBER_OUT_OF_RANGE);
        };
        match self.heap.check(count) {
            Ok(()) => Ending::GoesOn,
            Err(panic) => Ending::Panics(panic),
        }
    }

    /// Panics unless exactly `count` cells of all levels are live.
    pub fn check_all(&mut self, count: &Number) -> Ending
        ensures { CarriesOut self.old (check_within self.old (check_all_refusal self.old.debug)
            (not_negative (number_read self.old count.now))) result self.new }
    {
        let Some(count) = not_negative(self.number(*count)) else {
            return Ending::Panics(Panic::NUMBER_OUT_OF_RANGE);
        };
        match self.heap.check_all(count) {
            Ok(()) => Ending::GoesOn,
            Err(panic) => Ending::Panics(panic),
        }
    }

    /// Replaces the script's setting. The new setting makes only the `rate`-th attempt from here on fail. Panics if `rate` is less than 1.
    pub fn fail_next(&mut self, rate: &Number) -> Ending
        ensures { CarriesOut self.old (set_within self.old (λ n.
            next n) (at_least_one (number_read self.old rate.now))) result self.new }
    {
        let Some(rate) = at_least_one(self.number(*rate)) else {
            return Ending::Panics(Panic::NUMBER_OUT_OF_RANGE);
        };
        self.heap.fail_next(rate);
        Ending::GoesOn
    }

    /// Replaces the script's setting. The new setting makes every `rate`-th attempt from here on fail. Panics if `rate` is less than 1.
    pub fn fail_every(&mut self, rate: &Number) -> Ending
        ensures { CarriesOut self.old (set_within self.old (λ n.
            each n n) (at_least_one (number_read self.old rate.now))) result self.new }
    {
        let Some(rate) = at_least_one(self.number(*rate)) else {
            return Ending::Panics(Panic::NUMBER_OUT_OF_RANGE);
        };
        self.heap.fail_every(rate);
        Ending::GoesOn
    }

    /// Ends the script's setting, so that only the run's rule makes attempts fail.
    pub fn fail_none(&mut self) -> Ending
        ensures { CarriesOut self.old
            (gone_on (with_debug self.old (with_setting self.old.debug never))) result self.new }
    {
        self.heap.fail_none();
        Ending::GoesOn
    }
}
