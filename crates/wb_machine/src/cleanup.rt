//! The cleanup stack: attempt 1, which makes it, and statements that push items and pop them.

ghost use Rattle.std.specs.Prelude.{◌≡◌, ◌≢◌, ◌-◌, ◌^◌, ◌<◌, length, take, true, None, Some, IfErr, IfOk, OnErr, OnOk};
ghost use Rattle.wb_heap_model.specs.declared.heap.Gave.TheVariants.{Ceiling};
ghost use Rattle.wb_heap_model.specs.declared.heap.Item.TheVariants as I;
ghost use Rattle.wb_heap_model.specs.CellRow.{payload_of};
ghost use Rattle.wb_meaning.specs.Operands.{not_negative};
ghost use Rattle.wb_heap_model.specs.Pointers.{newest};
ghost use Rattle.wb_cleanup.specs.Pushes.{pushed_by};
ghost use Rattle.wb_cleanup.specs.Stacks.{expected_refusal, pop_refusal};
ghost use Rattle.wb_machine.specs.RunState.{first_state, with_debug};
ghost use Rattle.wb_heap_model.specs.Debug.{keeps_rises};
ghost use Rattle.wb_machine.specs.Effects.{first_made, started_by, is_granted, number_read, pointer_read};
ghost use Rattle.wb_machine.specs.CleanupEffects.{IsPushed, IsStackThere, growth_made, is_filled, pop_check_effect};
ghost use Rattle.wb_machine.specs.CleanupEffects.{pop_within, push_effect, without_newest};
ghost use Rattle.wb_machine.specs.Owed.{CarriesOut, HasStack, KeepsCount, MayAttempt, Stays};

use crate::operands::not_negative;
use crate::pieces::Ending;
use crate::state::State;
use wb_basics::memory::NoMemory;
use wb_cleanup::{Cleanup, Pushed};
use wb_heap_model::heap::{Item, KERR_NO_MEMORY, Panic, Ptr};
use wb_meaning::run::Why;
use wb_tree::script::{Number, Pointer, Script};

impl State {
    /// Makes attempt 1, for the cleanup stack's cell. Returns whether the attempt was granted.
    pub fn start(&mut self) -> Result<bool, NoMemory>
        requires { self.old
            ≡ first_state (keeps_rises self.old.debug) self.old.debug.rule self.old.debug.shape }
        ensures started { OnOk result (self.new ≡ started_by
            (with_debug self.old (first_made self.old).debug) (first_made self.old).gave) }
        ensures granted { IfOk result (λ granted. granted ≡ is_granted (first_made self.old).gave) }
        ensures uncut { OnOk result ((first_made self.old).gave ≢ Ceiling) }
        ensures stack { IfOk result (λ granted. granted ≡ true → HasStack self.new) }
        ensures stays { Stays self.old self.new }
    {
        self.cleanup = Cleanup::start(&mut self.heap)?;
        Ok(self.cleanup.is_some())
    }

    /// How many items are on the cleanup stack; 0 if there is no stack.
    pub fn items(&self) -> u32
        ensures items { result ≡ length self.now.items }
        ensures small { length self.now.items < 2 ^ 32 }
    {
        match &self.cleanup {
            Some(stack) => stack.used(),
            None => 0,
        }
    }

    /// Takes the newest item off the cleanup stack and returns it; returns `None` if there is no item.
    pub fn take_newest(&mut self) -> Option<Item>
        ensures item { result ≡ newest self.old.items }
        ensures taken { self.new
            ≡ record self.old { items = take (length self.old.items - 1) self.old.items } }
    {
        match &mut self.cleanup {
            Some(stack) => stack.take_top(&self.heap, 0),
            None => None,
        }
    }

    /// Puts an item on the cleanup stack. If the stack's cell would grow past the heap's ceiling, or the workbench runs out of memory,
    /// nothing changes.
    fn put_item(&mut self, item: Item) -> Result<Pushed, NoMemory>
        requires stack { HasStack self.old }
        requires room { length self.old.items < self.old.slots }
        requires number { MayAttempt self.old }
        ensures answer { IfOk result (λ pushed.
            pushed ≡ pushed_by (growth_made self.old (is_filled self.old)).gave) }
        ensures item { IfOk result (λ pushed. pushed ≢ Pushed.Ceiling →
            IsPushed self.old item self.new) }
        ensures cut { IfOk result (λ pushed. pushed ≡ Pushed.Ceiling → self.new ≡ self.old) }
        ensures err { OnErr result (self.new ≡ self.old) }
        ensures there { IsStackThere self.old }
        ensures stands { IsStackThere self.new }
        ensures keeps { KeepsCount self.old self.new }
    {
        match &mut self.cleanup {
            Some(stack) => stack.push(&mut self.heap, item),
            None => unreachable!(),
        }
    }

    /// Pushes an item. If the attempt to make the cleanup stack's cell longer fails, the push leaves with `KErrNoMemory`, but the item
    /// stays on the stack.
    pub fn push_item(&mut self, item: Item) -> Result<Ending, NoMemory>
        requires stack { HasStack self.old }
        requires room { length self.old.items < self.old.slots }
        requires number { MayAttempt self.old }
        ensures effect { IfOk result (λ ending. CarriesOut self.old
            (push_effect self.old item (payload_of self.new.cleanup self.new.debug.heap.row)) ending
            self.new) }
        ensures err { OnErr result (self.new ≡ self.old) }
        ensures there { IsStackThere self.old }
        ensures stands { IsStackThere self.new }
        ensures keeps { KeepsCount self.old self.new }
    {
        match self.put_item(item)? {
            Pushed::Fine => Ok(Ending::GoesOn),
            Pushed::Leave => Ok(Ending::Leaves(KERR_NO_MEMORY)),
            Pushed::Ceiling => Ok(Ending::Cut(Why::Ceiling)),
        }
    }

    /// Pushes a pointer as an item whose destruction frees the pointer's cell.
    #[inline(never)]
    pub fn push(&mut self, script: &Script, pointer: &Pointer) -> Result<Ending, NoMemory>
        requires stack { HasStack self.old }
        requires room { length self.old.items < self.old.slots }
        requires number { MayAttempt self.old }
        ensures effect { IfOk result (λ ending. CarriesOut self.old
            (push_effect self.old (I.Free (pointer_read script.now self.old pointer.now))
            (payload_of self.new.cleanup self.new.debug.heap.row)) ending self.new) }
        ensures err { OnErr result (self.new ≡ self.old) }
        ensures there { IsStackThere self.old }
        ensures stands { IsStackThere self.new }
        ensures keeps { KeepsCount self.old self.new }
    {
        self.push_item(Item::Free(self.pointer(script, *pointer)))
    }

    /// Pushes a pointer as an item whose destruction deletes the pointer's object.
    #[inline(never)]
    pub fn push_object(&mut self, script: &Script, pointer: &Pointer) -> Result<Ending, NoMemory>
        requires stack { HasStack self.old }
        requires room { length self.old.items < self.old.slots }
        requires number { MayAttempt self.old }
        ensures effect { IfOk result (λ ending. CarriesOut self.old
            (push_effect self.old (I.Delete (pointer_read script.now self.old pointer.now))
            (payload_of self.new.cleanup self.new.debug.heap.row)) ending self.new) }
        ensures err { OnErr result (self.new ≡ self.old) }
        ensures there { IsStackThere self.old }
        ensures stands { IsStackThere self.new }
        ensures keeps { KeepsCount self.old self.new }
    {
        self.push_item(Item::Delete(self.pointer(script, *pointer)))
    }

    /// Pushes a pointer as an item whose destruction calls an operation with the pointer.
    #[inline(never)]
    pub fn push_operation(
        &mut self,
        script: &Script,
        pointer: &Pointer,
        operation: u16,
    ) -> Result<Ending, NoMemory>
        requires stack { HasStack self.old }
        requires room { length self.old.items < self.old.slots }
        requires number { MayAttempt self.old }
        ensures effect { IfOk result (λ ending. CarriesOut self.old
            (push_effect self.old (I.Call (pointer_read script.now self.old pointer.now) operation)
            (payload_of self.new.cleanup self.new.debug.heap.row)) ending self.new) }
        ensures err { OnErr result (self.new ≡ self.old) }
        ensures there { IsStackThere self.old }
        ensures stands { IsStackThere self.new }
        ensures keeps { KeepsCount self.old self.new }
    {
        self.push_item(Item::Call(self.pointer(script, *pointer), operation))
    }

    /// Takes the `count` newest items off the cleanup stack. If fewer than `count` items are above the `floor` oldest items, the function
    /// returns the panic and changes nothing.
    fn take_off(&mut self, floor: u32, count: u32) -> Result<(), Panic>
        requires { HasStack self.old }
        ensures refused { IfErr result (λ panic.
            pop_refusal floor count (length self.old.items) ≡ Some panic) }
        ensures fine { OnOk result (pop_refusal floor count (length self.old.items) ≡ None) }
        ensures taken { OnOk result (self.new ≡ without_newest self.old count) }
        ensures err { OnErr result (self.new ≡ self.old) }
    {
        match &mut self.cleanup {
            Some(stack) => stack.pop(floor, count),
            None => unreachable!(),
        }
    }

    /// Takes the newest item off the cleanup stack. If no item is above the `floor` oldest items, or the newest item holds a different
    /// pointer, the function returns the panic and changes nothing.
    fn take_expected(&mut self, floor: u32, ptr: Ptr) -> Result<(), Panic>
        requires { HasStack self.old }
        ensures refused { IfErr result (λ panic.
            expected_refusal floor ptr self.old.items ≡ Some panic) }
        ensures fine { OnOk result (expected_refusal floor ptr self.old.items ≡ None) }
        ensures taken { OnOk result (self.new ≡ without_newest self.old 1) }
        ensures err { OnErr result (self.new ≡ self.old) }
    {
        match &mut self.cleanup {
            Some(stack) => stack.pop_expected(&self.heap, floor, ptr),
            None => unreachable!(),
        }
    }

    /// Pops the `count` newest items without destroying them. Panics if `count` is negative, or fewer than `count` items are above the
    /// `floor` oldest items.
    pub fn pop(&mut self, floor: u32, count: &Number) -> Ending
        requires { HasStack self.old }
        ensures { CarriesOut self.old (pop_within self.old floor
            (not_negative (number_read self.old count.now))) result self.new }
    {
        let Some(count) = not_negative(self.number(*count)) else {
            return Ending::Panics(Panic::NUMBER_OUT_OF_RANGE);
        };
        match self.take_off(floor, count) {
            Ok(()) => Ending::GoesOn,
            Err(panic) => Ending::Panics(panic),
        }
    }

    /// Pops the newest item. Panics if no item is above the `floor` oldest items, or the newest item doesn't hold the operand's pointer.
    pub fn pop_check(&mut self, script: &Script, floor: u32, pointer: &Pointer) -> Ending
        requires { HasStack self.old }
        ensures { CarriesOut self.old (pop_check_effect self.old floor
            (pointer_read script.now self.old pointer.now)) result self.new }
    {
        match self.take_expected(floor, self.pointer(script, *pointer)) {
            Ok(()) => Ending::GoesOn,
            Err(panic) => Ending::Panics(panic),
        }
    }
}
