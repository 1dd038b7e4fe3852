//! The heap, with its functions that grant, release and read cells. Reallocation is in `realloc`, the words of payloads are in `payloads`,
//! and the committed length and the longest free run are in `space`. The cells are in the crate `wb_cells`.

ghost use Rattle.std.specs.Prelude.{◌≡◌, ◌≢◌, ◌+◌, ◌*◌, ◌<◌, ◌≤◌, ◌↔◌, false, length, take, sum, All, IfOk, IfErr};
ghost use Rattle.std.specs.Prelude.{IfSome, IsOk, IsTrue, OnOk, OnErr, Some, None, option_map};
ghost use Rattle.wb_heap_model.specs.CellRow.{payload_of};
ghost use Rattle.wb_heap_model.specs.LimitedHeap.{IsCellLength, IsLiveBelow, IsSoundHeap, empty_heap, place_in};
ghost use Rattle.wb_heap_model.specs.LimitedHeap.{committed_with, heap_with, heap_without, heap_compressed};
ghost use Rattle.wb_heap_model.specs.LimitedHeap.{reclaimed_from, runs_in, next_live_of};
ghost use Rattle.wb_heap_model.specs.Row.{IsLeastPlace, cell_at, headers, total_length, usable_of};
ghost use Rattle.wb_heap_model.specs.Space.{is_shape, longest};
ghost use Rattle.wb_rheap.specs.Refusals.{RefusesOnly};

use crate::fault::HeapFault;
use crate::{room, space};
use std::alloc::Global;
use std::marker::Model;
use wb_basics::limits::CEILING;
use wb_basics::memory::NoMemory;
use wb_cells::Cells;
use wb_heap_model::heap::{Header, Kind, Ptr, Shape};

/// A simulated heap: live cells with their payloads, and a limit past which no cell ends.
///
/// Places, lengths, the limit and the committed length are in bytes, and places count from the start of the chunk. The committed length is
/// at first the shape's least length or the limit rounded down to a multiple of 16, whichever is less. The committed length grows with the
/// cells, and only `compress` reduces it. The workbench holds memory for the greatest committed length so far. A payload is zeroed when its
/// cell is granted.
#[derive(Drop)]
pub struct Heap {
    pub(crate) cells: Cells,
    pub(crate) limit: u32,
    pub(crate) shape: Shape,
    pub(crate) committed: u32,
    /// How many cells are live.
    pub(crate) count: u32,
    /// The sum of the live cells' lengths, in bytes.
    pub(crate) total: u32,
}

impl Model for Heap {
    ghost use Rattle.wb_heap_model.specs.LimitedHeap.{LimitedHeap};

    ghost Value = { LimitedHeap };

    ghost use Rattle.wb_rheap.specs.Heap.{heap_of, IsKept};

    ghost view = { heap_of };

    ghost invariant = { IsKept };
}

impl Heap {
    /// Returns a heap with no cell and the least committed length. The call takes the workbench's memory for this length.
    ///
    /// The limit is in bytes, and need not be a multiple of 16. Returns `BadShape` exactly if the shape isn't allowed; otherwise `NoMemory`
    /// if the workbench's memory runs out. `NoMemory` can't happen if the committed length is 0.
    pub fn new(alloc: Global, limit: u32, shape: Shape) -> Result<Heap, HeapFault>
        requires { limit ≤ CEILING }
        ensures ok { IfOk result (λ heap. heap ≡ empty_heap limit shape) }
        ensures shape { (result ≡ Err HeapFault.BadShape) ↔ (is_shape shape ≡ false) }
        ensures no_other { IfErr result (λ fault. fault ≢ HeapFault.BadShape →
            fault ≡ HeapFault.NoMemory) }
        ensures no_growth { (empty_heap limit shape).held ≡ 0 → result ≢ Err HeapFault.NoMemory }
        ensures sound { IfOk result IsSoundHeap }
    {
        if !shape.is_allowed() {
            return Err(HeapFault::BadShape);
        }
        Ok(Heap::of_shape(alloc, limit, shape)?)
    }

    /// Returns the heap that `new` returns, for a shape that is known to be allowed. Returns `NoMemory` if the workbench's memory runs out,
    /// which can't happen if the committed length is 0.
    pub fn of_shape(alloc: Global, limit: u32, shape: Shape) -> Result<Heap, NoMemory>
        requires limit { limit ≤ CEILING }
        requires shape { IsTrue (is_shape shape) }
        ensures ok { IfOk result (λ heap. heap ≡ empty_heap limit shape) }
        ensures no_growth { (empty_heap limit shape).held ≡ 0 → IsOk result }
        ensures sound { IfOk result IsSoundHeap }
    {
        let committed = space::least_for(limit, shape);
        let mut cells = Cells::new(alloc);
        cells.reserve(committed)?;
        Ok(Heap {
            cells,
            limit,
            shape,
            committed,
            count: 0,
            total: 0,
        })
    }

    /// Returns a copy of the heap, in newly allocated memory. A later change to one of the two heaps doesn't change the other heap. Returns
    /// `NoMemory` if the workbench's memory runs out.
    pub fn try_copy(&self) -> Result<Heap, NoMemory>
        ensures { IfOk result (λ copy. copy ≡ self.now) }
    {
        self.try_copy_over(None)
    }

    /// Returns a copy of the heap. If there is a `spare` heap, the copy takes over the spare's memory, which grows if necessary, and the
    /// spare's cells are lost. If there is no `spare`, the copy has newly allocated memory. A later change to the copy or to the original
    /// doesn't change the other. Returns `NoMemory` if the workbench's memory runs out.
    pub fn try_copy_over(&self, spare: Option<Heap>) -> Result<Heap, NoMemory>
        ensures { IfOk result (λ copy. copy ≡ self.now) }
    {
        let cells = match spare {
            Some(spare) => self.cells.try_copy_over(spare.cells)?,
            None => self.cells.try_copy()?,
        };
        Ok(Heap {
            cells,
            limit: self.limit,
            shape: self.shape,
            committed: self.committed,
            count: self.count,
            total: self.total,
        })
    }

    /// Returns the place for a cell of this length: the lowest place at which the cell's bytes overlap no live cell.
    ///
    /// The length is the cell length in bytes, including the header. The function doesn't check the limit: all bytes above the last cell
    /// count as free. The place plus any cell length is below 2^32.
    pub fn place_for(&self, length: u32) -> u32
        requires { IsCellLength length }
        ensures place { result ≡ place_in self.now length }
        ensures least { IsLeastPlace (headers self.now.row) length result }
        ensures within { result ≤ self.now.committed }
        ensures sound { IsSoundHeap self.now }
    {
        self.cells.first_fit(length)
    }

    /// Grants a cell at the place that `place_for` returns. The payload of the cell is all zeros.
    ///
    /// `length` is the cell length in bytes, `number` is the attempt's number, from 1 on, and `level` is the level of heap marks. Returns
    /// `TooShort` exactly if the cell would end past the limit; otherwise `NoMemory` if the workbench's memory runs out. `NoMemory` can't
    /// happen if the new committed length is at most the length that `held` returns. After an error the heap is as it was. Source: Symbian
    /// OS v9 SDK reference, RHeap, for a refused grant.
    pub fn alloc(
        &mut self,
        length: u32,
        kind: Kind,
        number: u32,
        level: u32,
    ) -> Result<Ptr, HeapFault>
        requires length { IsCellLength length }
        requires numbered { 1 ≤ number }
        requires unused { All (λ h. h.number ≢ number) (headers self.old.row) }
        ensures pointer { IfOk result (λ ptr.
            ptr ≡ record { place = place_in self.old length; number = number }) }
        ensures granted { OnOk result (self.new ≡ heap_with self.old length kind number level) }
        ensures short { (result ≡ Err HeapFault.TooShort)
            ↔ (self.old.limit < place_in self.old length + length) }
        ensures no_other { IfErr result (λ fault. fault ≢ HeapFault.TooShort →
            fault ≡ HeapFault.NoMemory) }
        ensures no_growth { committed_with self.old length ≤ self.old.held →
            result ≢ Err HeapFault.NoMemory }
        ensures err { OnErr result (self.new ≡ self.old) }
        ensures sound { IsSoundHeap self.new }
    {
        let place = self.place_for(length);
        self.alloc_at(place, length, kind, number, level)
    }

    /// Grants a cell as `alloc` does. `place` must be the place that `place_for` returns, so this function doesn't search for the place
    /// again. `alloc_at` returns the same errors as `alloc`; an error leaves the heap as it was.
    pub fn alloc_at(
        &mut self,
        place: u32,
        length: u32,
        kind: Kind,
        number: u32,
        level: u32,
    ) -> Result<Ptr, HeapFault>
        requires placed { place ≡ place_in self.old length }
        requires length { IsCellLength length }
        requires numbered { 1 ≤ number }
        requires unused { All (λ h. h.number ≢ number) (headers self.old.row) }
        ensures pointer { IfOk result (λ ptr.
            ptr ≡ record { place = place_in self.old length; number = number }) }
        ensures granted { OnOk result (self.new ≡ heap_with self.old length kind number level) }
        ensures refusals { RefusesOnly result self.old.limit (place_in self.old length + length)
            (committed_with self.old length) self.old.held }
        ensures err { OnErr result (self.new ≡ self.old) }
        ensures sound { IsSoundHeap self.new }
    {
        let (limit, shape) = (self.limit, self.shape);
        let end = place + length;
        let committed = room::hold_for(&mut self.cells, limit, shape, self.committed, end)?;
        let header = Header {
            place,
            length,
            kind,
            level,
            number,
        };
        self.cells.take(place, length, header);
        self.committed = committed;
        self.count += 1;
        self.total += length;
        Ok(Ptr { place, number })
    }

    /// Releases the cell that the pointer names. The cell's bytes become free for later cells, in one run with the free bytes on both sides
    /// of the cell. The committed length doesn't change.
    ///
    /// A pointer names a cell by place and number. So a stale pointer stays invalid even if a new cell begins at the same place, whatever
    /// words a payload holds. Returns `BadCell` exactly if the pointer names no live cell; the heap is then as it was. Source: Symbian OS
    /// v9 SDK reference, RHeap.
    pub fn free(&mut self, ptr: Ptr) -> Result<(), HeapFault>
        ensures freed { OnOk result (self.new ≡ heap_without self.old ptr) }

        ensures bad { (result ≡ Err HeapFault.BadCell) ↔ (cell_at ptr self.old.row ≡ None) }
        ensures no_other { IfErr result (λ fault. fault ≡ HeapFault.BadCell) }
        ensures err { OnErr result (self.new ≡ self.old) }

        ensures sound { IsSoundHeap self.new }
    {
        let Some(header) = self.header(ptr) else {
            return Err(HeapFault::BadCell);
        };
        self.free_cell(ptr, header);
        Ok(())
    }

    /// Releases a cell as `free` does. `cell` must be the header that the function `header` returns for the pointer, so this function
    /// doesn't read the header again.
    pub fn free_cell(&mut self, ptr: Ptr, cell: Header)
        requires { option_map (λ c. c.head) (cell_at ptr self.old.row) ≡ Some cell }
        ensures freed { self.new ≡ heap_without self.old ptr }
        ensures sound { IsSoundHeap self.new }
    {
        self.cells.give(ptr);
        self.count -= 1;
        self.total -= cell.length;
    }

    /// Returns the header of the cell that the pointer names; `None` exactly if the pointer names no live cell. The cell's payload has one
    /// word for each four bytes of the cell's usable length.
    pub fn header(&self, ptr: Ptr) -> Option<Header>
        ensures header { result ≡ option_map (λ c. c.head) (cell_at ptr self.now.row) }
        ensures live { IfSome result (IsLiveBelow self.now.limit) }
        ensures payload { IfSome result (λ h.
            4 * length (payload_of ptr self.now.row) ≡ usable_of h) }
        ensures sound { IsSoundHeap self.now }
    {
        self.cells.header(ptr)
    }

    /// Returns the header of the first live cell that begins at place `from`, in bytes, or above; `None` if there is no such cell.
    ///
    /// To get every live cell in order of place, call this function with place 0, and then with the end of each cell that it returns.
    pub fn next_live(&self, from: u32) -> Option<Header>
        ensures first { result ≡ next_live_of from (headers self.now.row) }
        ensures live { IfSome result (IsLiveBelow self.now.limit) }
        ensures sound { IsSoundHeap self.now }
    {
        self.cells.next_live(from)
    }

    /// Reduces the committed length to the end of the last live cell, rounded up to whole growth steps, or to the least committed length if
    /// that is more. Returns by how many bytes the committed length shrank; 0 if it didn't change. The workbench keeps the memory that it
    /// holds. Source: Symbian OS v9 SDK reference, RHeap; this project's profile for the lengths.
    pub fn compress(&mut self) -> u32
        ensures reclaimed { result ≡ reclaimed_from self.old }
        ensures fallen { self.new ≡ heap_compressed self.old }
        ensures sound { IsSoundHeap self.new }
    {
        let committed = space::compressed_for(
            self.limit,
            self.shape,
            self.committed,
            self.cells.top(),
        );
        let reclaimed = self.committed - committed;
        self.committed = committed;
        reclaimed
    }

    /// Returns how many bytes below the committed length are free, and how many bytes the longest free run has. A new cell in a free run
    /// uses 16 of the run's bytes for its header. Source: Symbian OS v9 SDK reference, RHeap.
    pub fn available(&self) -> (u32, u32)
        ensures total { result.0 ≡ sum (runs_in self.now) }
        ensures longest { result.1 ≡ longest (runs_in self.now) }
    {
        (
            self.committed - self.total,
            space::longest_run(&self.cells, self.committed),
        )
    }

    /// Returns the number of live cells, and the sum of their cell lengths, in bytes. Source: Symbian OS v9 SDK reference, RHeap.
    pub fn alloc_size(&self) -> (u32, u32)
        ensures count { result.0 ≡ length self.now.row }
        ensures total { result.1 ≡ total_length (headers self.now.row) }
    {
        (self.count, self.total)
    }

    /// The number of live cells. Source: Symbian OS v9 SDK reference, RHeap.
    pub fn count(&self) -> u32
        ensures { result ≡ length self.now.row }
    {
        self.alloc_size().0
    }

    /// The committed length, in bytes.
    pub fn committed(&self) -> u32
        ensures { result ≡ self.now.committed }
    {
        self.committed
    }

    /// Whether a cell that grows always moves, even if it could stay at its place.
    pub fn is_moving(&self) -> bool
        ensures { result ≡ self.now.shape.moving }
    {
        self.shape.moving
    }

    /// The greatest committed length so far, in bytes. The workbench holds memory for this length.
    pub fn held(&self) -> u32
        ensures { result ≡ self.now.held }
    {
        self.cells.held()
    }
}
