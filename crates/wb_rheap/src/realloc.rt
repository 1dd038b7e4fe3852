//! Reallocation: cells that become longer or shorter, at their own place or at another place. The functions for a cell's usable length and
//! for a change of a cell's level are here too.

ghost use Rattle.std.specs.Prelude.{◌≡◌, ◌≢◌, ◌+◌, ◌<◌, ◌≤◌, ◌%◌, ◌↔◌, All, IfOk, IfErr, IfSome, IsOk, IsSome};
ghost use Rattle.std.specs.Prelude.{IsSomeAnd, OnOk, OnErr, Some, None, option_map, not, ◌&&◌, true, false};
ghost use Rattle.wb_heap_model.specs.CellRow.{FitsInPlace, payload_of};
ghost use Rattle.wb_heap_model.specs.Placement.{fits_in_place};
ghost use Rattle.wb_heap_model.specs.LimitedHeap.{IsCellLength, IsSoundHeap, heap_grown, heap_shortened, heap_leveled};
ghost use Rattle.wb_heap_model.specs.LimitedHeap.{heap_reallocated, place_to_grow, committed_grown, grown_pointer};
ghost use Rattle.wb_heap_model.specs.LimitedHeap.{reallocated_pointer};
ghost use Rattle.wb_heap_model.specs.Row.{IsLeastPlace, cell_at, headers, pointer_to, usable_of};
ghost use Rattle.wb_rheap.specs.Refusals.{RefusesOnly};

use crate::fault::HeapFault;
use crate::heap::Heap;
use crate::{moves, room};
use wb_heap_model::heap::{Header, Ptr};

impl Heap {
    /// Returns the place that a cell has after it grows to this length. The cell moves if too few bytes after it are free, or if the shape
    /// says that growing cells always move. A cell that moves goes to the place that `place_for` returns while the cell still occupies its
    /// old bytes. A cell that doesn't move keeps its own place. Enough bytes after the last cell are always free.
    ///
    /// The length is the new cell length in bytes, including the header. The function doesn't check the limit. The place plus any cell
    /// length is below 2^32.
    pub fn place_for_realloc(&self, ptr: Ptr, length: u32) -> u32
        requires live { IsSome (cell_at ptr self.now.row) }
        requires length { IsCellLength length }
        requires longer { IfSome (cell_at ptr self.now.row) (λ c. c.head.length < length) }
        ensures place { IfSome (cell_at ptr self.now.row) (λ c.
            result ≡ place_to_grow self.now c.head length) }
        ensures stays { self.now.shape.moving ≡ false →
            FitsInPlace ptr length (headers self.now.row) → result ≡ ptr.place }
        ensures moves { ¬ (FitsInPlace ptr length (headers self.now.row)) →
            IsLeastPlace (headers self.now.row) length result }
        ensures moving { self.now.shape.moving ≡ true →
            IsLeastPlace (headers self.now.row) length result }
        ensures within { result ≤ self.now.committed }
        ensures sound { IsSoundHeap self.now }
    {
        let cell = self.header(ptr).unwrap();
        self.place_to_grow(cell, length)
    }

    /// Does what `place_for_realloc` does, but takes the header of the live cell instead of a pointer.
    pub fn place_to_grow(&self, cell: Header, length: u32) -> u32
        requires live { option_map (λ c. c.head) (cell_at (pointer_to cell) self.now.row)
            ≡ Some cell }
        requires length { IsCellLength length }
        requires longer { cell.length < length }
        ensures place { result ≡ place_to_grow self.now cell length }
        ensures aligned { result % 16 ≡ 0 }
        ensures within { result ≤ self.now.committed }
        ensures sound { IsSoundHeap self.now }
    {
        if self.stays(cell, length) {
            cell.place
        } else {
            self.place_for(length)
        }
    }

    /// Whether a live cell stays at its place when it grows to this length.
    fn stays(&self, cell: Header, length: u32) -> bool
        requires live { option_map (λ c. c.head) (cell_at (pointer_to cell) self.now.row)
            ≡ Some cell }
        requires longer { cell.length < length }
        ensures stays { result ≡ (not self.now.shape.moving
            && fits_in_place (headers self.now.row) cell length) }
        ensures sound { IsSoundHeap self.now }
    {
        !self.shape.moving && self.fits(cell, length)
    }

    /// Whether a live cell can have this length at its place: whether enough bytes after the cell are free.
    fn fits(&self, cell: Header, length: u32) -> bool
        requires live { option_map (λ c. c.head) (cell_at (pointer_to cell) self.now.row)
            ≡ Some cell }
        requires longer { cell.length < length }
        ensures fits { result ≡ fits_in_place (headers self.now.row) cell length }
        ensures sound { IsSoundHeap self.now }
    {
        match self.cells.room_after(cell.pointer()) {
            Some(room) => length - cell.length <= room,
            None => true,
        }
    }

    /// Changes the length of a cell, and returns the pointer that names the cell from then on.
    ///
    /// `length` is the cell length in bytes, including the header, and `number` is the attempt's number, from 1 on. If the cell gets no
    /// longer, it keeps its place and its number, and the bytes past its new end are freed; such a call never returns an error. A cell that
    /// grows goes to the place that `place_for_realloc` returns. It keeps its kind, its level and its words, and gets zeros after these
    /// words. If the cell stays at its place, it keeps its number. If the cell moves, it gets the number `number`, so the old pointer is
    /// stale.
    ///
    /// Returns `BadCell` exactly if the pointer names no live cell; otherwise `TooShort` exactly if a growing cell would end past the
    /// limit; otherwise `NoMemory` if the workbench's memory runs out. After `TooShort`, no lower place is tried. `NoMemory` can't happen
    /// if the new committed length is at most the length that `held` returns. After an error the heap is as it was. Source: Symbian OS v9
    /// SDK reference, RHeap, for the kept contents and for a refusal that leaves the old cell; this project's profile for places and
    /// numbers.
    pub fn realloc(&mut self, ptr: Ptr, length: u32, number: u32) -> Result<Ptr, HeapFault>
        requires length { IsCellLength length }
        requires numbered { 1 ≤ number }
        requires unused { All (λ h. h.number ≢ number) (headers self.old.row) }
        ensures pointer { IfOk result (λ p. IsSomeAnd (cell_at ptr self.old.row) (λ c.
            p ≡ reallocated_pointer self.old c.head length number)) }
        ensures done { OnOk result (IsSomeAnd (cell_at ptr self.old.row) (λ c.
            self.new ≡ heap_reallocated self.old c length number)) }

        ensures bad { (result ≡ Err HeapFault.BadCell) ↔ (cell_at ptr self.old.row ≡ None) }
        ensures short { (result ≡ Err HeapFault.TooShort)
            ↔ IsSomeAnd (cell_at ptr self.old.row) (λ c.
            (c.head.length < length)
            × (self.old.limit < place_to_grow self.old c.head length + length)) }
        ensures no_other { IfErr result (λ fault. fault ≢ HeapFault.BadCell →
            fault ≢ HeapFault.TooShort → fault ≡ HeapFault.NoMemory) }
        ensures no_growth { IfSome (cell_at ptr self.old.row) (λ c.
            (heap_reallocated self.old c length number).committed ≤ self.old.held →
            result ≢ Err HeapFault.NoMemory) }
        ensures shorter { IfSome (cell_at ptr self.old.row) (λ c. length ≤ c.head.length →
            IsOk result) }
        ensures err { OnErr result (self.new ≡ self.old) }

        ensures sound { IsSoundHeap self.new }
    {
        let Some(cell) = self.header(ptr) else {
            return Err(HeapFault::BadCell);
        };
        if length <= cell.length {
            self.shorten(cell, length);
            return Ok(ptr);
        }
        let place = self.place_to_grow(cell, length);
        self.lengthen(cell, place, length, number)
    }

    /// Does what `realloc` does to a cell that grows. `cell` must be the cell's header. `place` must be the place that `place_to_grow`
    /// returns, so this function doesn't search for the place again. Returns `TooShort` exactly if the cell would end past the limit;
    /// otherwise `NoMemory` if the workbench's memory runs out. An error leaves the heap as it was.
    pub fn lengthen(
        &mut self,
        cell: Header,
        place: u32,
        length: u32,
        number: u32,
    ) -> Result<Ptr, HeapFault>
        requires placed { place ≡ place_to_grow self.old cell length }
        requires live { option_map (λ c. c.head) (cell_at (pointer_to cell) self.old.row)
            ≡ Some cell }
        requires longer { cell.length < length }
        requires length { IsCellLength length }
        requires numbered { 1 ≤ number }
        requires unused { All (λ h. h.number ≢ number) (headers self.old.row) }
        ensures pointer { IfOk result (λ p. p ≡ grown_pointer self.old cell length number) }
        ensures grown { OnOk result (self.new ≡ heap_grown self.old (record {
          head = cell;
          content = payload_of (pointer_to cell) self.old.row;
        }) length number) }

        ensures refusals { RefusesOnly result self.old.limit
            (place_to_grow self.old cell length + length) (committed_grown self.old cell length)
            self.old.held }
        ensures err { OnErr result (self.new ≡ self.old) }

        ensures sound { IsSoundHeap self.new }
    {
        let (limit, shape) = (self.limit, self.shape);
        let end = place + length;
        let committed = room::hold_for(&mut self.cells, limit, shape, self.committed, end)?;
        let ptr = moves::lengthen(&mut self.cells, cell, place, length, number);
        self.committed = committed;
        self.total += length - cell.length;
        Ok(ptr)
    }

    /// Does what `realloc` does to a cell that gets no longer. `cell` must be the cell's header.
    pub fn shorten(&mut self, cell: Header, length: u32)
        requires live { option_map (λ c. c.head) (cell_at (pointer_to cell) self.old.row)
            ≡ Some cell }
        requires shorter { length ≤ cell.length }
        requires length { IsCellLength length }
        ensures shortened { self.new ≡ heap_shortened self.old (record {
          head = cell;
          content = payload_of (pointer_to cell) self.old.row;
        }) length }
        ensures sound { IsSoundHeap self.new }
    {
        self.cells.resize(cell.pointer(), length);
        self.total -= cell.length - length;
    }

    /// Returns the usable length, in bytes, of the cell that the pointer names: the cell length without the header.
    ///
    /// Returns `BadCell` exactly if the pointer names no live cell. Source: Symbian OS v9 SDK reference, RHeap.
    pub fn alloc_len(&self, ptr: Ptr) -> Result<u32, HeapFault>
        ensures usable { IfOk result (λ bytes.
            IsSomeAnd (cell_at ptr self.now.row) (λ c. bytes ≡ usable_of c.head)) }
        ensures bad { (result ≡ Err HeapFault.BadCell) ↔ (cell_at ptr self.now.row ≡ None) }
        ensures no_other { IfErr result (λ fault. fault ≡ HeapFault.BadCell) }
    {
        match self.header(ptr) {
            Some(cell) => Ok(cell.usable()),
            None => Err(HeapFault::BadCell),
        }
    }

    /// Sets the level of heap marks of the cell that the pointer names, and changes nothing else.
    pub fn set_level(&mut self, ptr: Ptr, level: u32)
        requires { IsSome (cell_at ptr self.old.row) }
        ensures leveled { self.new ≡ heap_leveled self.old ptr level }
        ensures sound { IsSoundHeap self.new }
    {
        self.cells.set_level(ptr, level);
    }
}
