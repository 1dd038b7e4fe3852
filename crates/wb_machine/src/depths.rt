//! Functions that read a run under way: the last attempt, the attempt asked for next, the depth of the cleanup stack, and the number of
//! open TRAPs. The contract of each function gives the result in terms of the machine's view. No function here takes a machine turn.

ghost use Rattle.std.specs.Prelude.{◌≡◌, ◌+◌, false, true, IfSome, None};

use crate::machine::Machine;
use wb_heap_model::heap::Attempt;

impl<'a> Machine<'a> {
    /// The attempt made last, granted or failed; `None` before the first attempt. If the machine keeps its rises instead of a trace, the
    /// result is always `None`.
    pub fn last_attempt(&self) -> Option<Attempt>
        ensures last { result ≡ self.now.last }
        ensures rises { self.now.keeps_rises ≡ true → result ≡ None }
    {
        self.state.heap.trace().as_slice().last().copied()
    }

    /// The number of the attempt that the next machine turn asks for if the workbench doesn't run out of memory; `None` if the turn asks
    /// for no attempt.
    pub fn next_attempt(&self) -> Option<u32>
        ensures number { IfSome result (λ n.
            (n ≡ self.now.attempts + 1) × (self.now.asks ≡ true)) }
        ensures none { result ≡ None → self.now.asks ≡ false }
    {
        if !self.will_attempt() {
            return None;
        }
        Some(self.state.attempts() + 1)
    }

    /// How many items are on the cleanup stack; 0 if there is no stack.
    pub fn cleanup_depth(&self) -> u32
        ensures { result ≡ self.now.items }
    {
        self.state.items()
    }

    /// How many TRAPs of the script are open, not counting `main`'s own. The function goes over all pending pieces.
    pub fn open_traps(&self) -> usize
        ensures { result ≡ self.now.traps }
    {
        self.control.open_traps()
    }
}
