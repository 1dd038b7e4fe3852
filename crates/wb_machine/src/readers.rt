//! Functions that read a run's live cells, committed length, open marks and steps, for callers that watch the run turn by turn. Contracts
//! state each result in terms of the machine's view. No function here takes a machine turn.

ghost use Rattle.std.specs.Prelude.{◌≡◌, length};
ghost use Rattle.wb_heap_model.specs.LimitedHeap.{next_live_of};
ghost use Rattle.wb_heap_model.specs.Row.{total_length};

use crate::machine::Machine;
use wb_heap_model::heap::Header;

impl<'a> Machine<'a> {
    /// The first live cell that begins at or above the place `from`, in bytes; `None` if there is no such cell. The cleanup stack's own
    /// cell counts as a live cell.
    ///
    /// A caller gets every live cell in order of place by a call for place 0 and further calls, each for the end of the last returned cell.
    pub fn next_live(&self, from: u32) -> Option<Header>
        ensures { result ≡ next_live_of from self.now.live }
    {
        self.state.heap.next_live(from)
    }

    /// The number of live cells, and the sum of their cell lengths, in bytes.
    pub fn alloc_size(&self) -> (u32, u32)
        ensures count { result.0 ≡ length self.now.live }
        ensures total { result.1 ≡ total_length self.now.live }
    {
        self.state.heap.alloc_size()
    }

    /// The committed length, in bytes.
    pub fn committed(&self) -> u32
        ensures { result ≡ self.now.committed }
    {
        self.state.heap.committed()
    }

    /// How many marks are open.
    pub fn level(&self) -> u32
        ensures { result ≡ self.now.level }
    {
        self.state.heap.level()
    }

    /// How many steps were counted.
    pub fn steps(&self) -> u32
        ensures { result ≡ self.now.steps }
    {
        self.state.steps()
    }
}
