//! Whether the states of two runs are the same except for allocation numbers.

ghost use Rattle.std.specs.Prelude.{◌≡◌, true};
ghost use Rattle.wb_tree.specs.declared.script.Script.{Script};
ghost use Rattle.wb_renaming.specs.SameButNumbers.{AllBeside, IsSameItem, IsSamePointer};
ghost use Rattle.wb_renaming.specs.SameButNumbers.{IsSameState, IsSameValue};
ghost use Rattle.wb_machine.specs.Alike.{IsGrown};
ghost use Rattle.wb_machine.specs.RunState.{state_of};

use super::cells::{same_cells, same_items};
use super::names::Names;
use crate::state::State;

impl State {
    /// Whether two states have equally many items, open marks, live cells and bytes in live cells, the same failure setting of the script,
    /// and the same way of choosing places. This quick test comes before all other comparisons.
    fn has_counts_of(&self, other: &State) -> bool
        ensures level { result ≡ true →
            other.now.debug.heap.level ≡ self.now.debug.heap.level }
        ensures setting { result ≡ true →
            other.now.debug.heap.setting ≡ self.now.debug.heap.setting }
        ensures placement { result ≡ true →
            other.now.debug.heap.placement ≡ self.now.debug.heap.placement }
    {
        self.items() == other.items()
            && self.heap.level() == other.heap.level()
            && self.heap.has_setting_of(&other.heap)
            && self.heap.chooses_places_of(&other.heap)
            && self.heap.alloc_size() == other.heap.alloc_size()
    }

    /// Whether the cleanup stack is the same as another state's, except for allocation numbers.
    fn has_stack_of(&self, names: &mut Names, other: &State) -> bool
        ensures cell { result ≡ true →
            IsSamePointer names.new.names self.now.cleanup other.now.cleanup }
        ensures items { result ≡ true →
            AllBeside (IsSameItem names.new.names) self.now.items other.now.items }
        ensures slots { result ≡ true → other.now.slots ≡ self.now.slots }
        ensures grown { IsGrown names.old names.new }
    {
        let (Some(stack), Some(other_stack)) = (self.cleanup, other.cleanup) else {
            return false;
        };
        stack.slots() == other_stack.slots()
            && names.relate_pointers(stack.cell(), other_stack.cell())
            && same_items(names, stack, &self.heap, other_stack, &other.heap)
    }

    /// Whether this state is the same as another, except for allocation numbers. Printed lines, notes, and the numbers of steps and
    /// attempts aren't compared.
    pub fn is_like(&self, names: &mut Names, other: &State) -> bool
        ensures callers { result ≡ true →
            AllBeside (IsSameValue names.new.names) self.now.callers other.now.callers }
        ensures state { result ≡ true → (script : Script) → IsSameState names.new.names
            (state_of script self.now) (state_of script other.now) }
        ensures grown { IsGrown names.old names.new }
    {
        if !self.has_counts_of(other) {
            return false;
        }
        if !names.relate_pointers(self.this, other.this) {
            return false;
        }
        if !self.locals.are_like(names, &other.locals) {
            return false;
        }
        if !self.has_stack_of(names, other) {
            return false;
        }
        same_cells(names, &self.heap, &other.heap)
    }
}
