//! Nested marks, and the checks that a level has exactly as many cells as expected.

ghost use Rattle.std.specs.Prelude.{◌≡◌, ◌+◌, ◌<◌, ◌^◌, None, Some, IfErr, OnOk, OnErr};
ghost use Rattle.wb_heap_model.specs.Debug.{IsSoundDebug, check_all_refusal, check_refusal};
ghost use Rattle.wb_heap_model.specs.Heap.{after_mark, after_mark_end, mark_end_refusal};

use crate::checks;
use crate::checks::Levels;
use crate::debug_heap::DebugHeap;
use wb_heap_model::heap::Panic;

impl DebugHeap {
    /// Opens a mark: from now on, new cells belong to a level that is one deeper. Source: Symbian OS v9 SDK reference, `__UHEAP_MARK`.
    pub fn mark(&mut self)
        requires { self.old.heap.level + 1 < 2 ^ 32 }
        ensures marked { self.new ≡ record self.old { heap = after_mark self.old.heap } }
        ensures sound { IsSoundDebug self.new }
    {
        self.level += 1;
    }

    /// Closes the innermost mark if exactly `n` live cells belong to its level. These cells then belong to the next outer level.
    ///
    /// Returns `Panic::NO_OPEN_MARK` if no mark is open; otherwise the panic of `check` if the level has fewer or more cells than `n`.
    /// After a panic the heap is as it was. Source: Symbian OS v9 SDK reference, `__UHEAP_MARKEND` and `__UHEAP_MARKENDC`; this project's
    /// profile for the levels.
    pub fn mark_end(&mut self, n: u32) -> Result<(), Panic>
        ensures refused { IfErr result (λ panic. mark_end_refusal self.old.heap n ≡ Some panic) }
        ensures fine { OnOk result (mark_end_refusal self.old.heap n ≡ None) }
        ensures closed { OnOk result (self.new
            ≡ record self.old { heap = after_mark_end self.old.heap }) }
        ensures err { OnErr result (self.new ≡ self.old) }
        ensures sound { IsSoundDebug self.new }
    {
        let level = self.level;
        if level == 0 {
            return Err(Panic::NO_OPEN_MARK);
        }
        let from = checks::expect(&self.heap, &self.tally, Levels::One(level), n)?;
        checks::lower(&mut self.heap, level, from, n);
        self.tally.lower(level);
        checks::count_anew(&self.heap, &mut self.tally, level - 1);
        self.level = level - 1;
        Ok(())
    }

    /// Expects exactly `n` live cells of the current level.
    ///
    /// If there are fewer or more such cells, `Panic::Alloc` names the place of the lowest such cell, or 0 if there is no such cell.
    /// Source: Symbian OS v9 SDK reference, `__UHEAP_CHECK`; this project's profile for the named cell.
    pub fn check(&self, n: u32) -> Result<(), Panic>
        ensures refused { IfErr result (λ panic. check_refusal self.now n ≡ Some panic) }
        ensures fine { OnOk result (check_refusal self.now n ≡ None) }
    {
        checks::expect(&self.heap, &self.tally, Levels::One(self.level), n)?;
        Ok(())
    }

    /// Expects exactly `n` live cells of all levels together. If there are fewer or more such cells, `Panic::Alloc` names a cell as `check`
    /// does. Source: Symbian OS v9 SDK reference, `__UHEAP_CHECKALL`; this project's profile for the named cell.
    pub fn check_all(&self, n: u32) -> Result<(), Panic>
        ensures refused { IfErr result (λ panic. check_all_refusal self.now n ≡ Some panic) }
        ensures fine { OnOk result (check_all_refusal self.now n ≡ None) }
    {
        checks::expect(&self.heap, &self.tally, Levels::All, n)?;
        Ok(())
    }
}
