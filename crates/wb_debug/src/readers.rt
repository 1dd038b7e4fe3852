//! Functions with which other code watches a run. These functions read the committed length, the number and total length of the live cells,
//! and the live cells themselves, by place. They also read the number of open marks, the script's own setting, and how places are chosen.
//! No function here changes a heap.

ghost use Rattle.std.specs.Prelude.{◌≡◌, ◌↔◌, true, length};
ghost use Rattle.wb_heap_model.specs.LimitedHeap.{next_live_of};
ghost use Rattle.wb_heap_model.specs.Row.{headers, total_length};

use crate::debug_heap::DebugHeap;
use wb_heap_model::heap::Header;

impl DebugHeap {
    /// Returns the header of the first live cell that begins at place `from`, in bytes, or above; `None` if there is no such cell.
    ///
    /// To get every live cell in order of place, call this function with place 0, and then with the end of each cell that it returns.
    pub fn next_live(&self, from: u32) -> Option<Header>
        ensures { result ≡ next_live_of from (headers self.now.heap.row) }
    {
        self.heap.next_live(from)
    }

    /// The number of live cells, and the sum of their cell lengths, in bytes.
    pub fn alloc_size(&self) -> (u32, u32)
        ensures count { result.0 ≡ length self.now.heap.row }
        ensures total { result.1 ≡ total_length (headers self.now.heap.row) }
    {
        self.heap.alloc_size()
    }

    /// The committed length, in bytes.
    pub fn committed(&self) -> u32
        ensures { result ≡ self.now.committed }
    {
        self.heap.committed()
    }

    /// How many marks are open.
    pub fn level(&self) -> u32
        ensures { result ≡ self.now.heap.level }
    {
        self.level
    }

    /// Whether the script's own setting is the same in this heap and in `other`, counted from the next attempt of each heap.
    pub fn has_setting_of(&self, other: &DebugHeap) -> bool
        ensures { (result ≡ true) ↔ (other.now.heap.setting ≡ self.now.heap.setting) }
    {
        other.setting == self.setting
    }

    /// Whether both heaps choose places by the same policy: either growing cells always move in both heaps, or growing cells stay in both
    /// heaps if they can.
    pub fn chooses_places_of(&self, other: &DebugHeap) -> bool
        ensures { (result ≡ true) ↔ (other.now.heap.placement ≡ self.now.heap.placement) }
    {
        other.heap.is_moving() == self.heap.is_moving()
    }
}
