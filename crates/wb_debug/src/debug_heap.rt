//! The debug heap: attempts and releases. New heaps are in `new_heaps`, marks in `marks`, and the calls that set which attempts fail in
//! `failing`. Notes are in `notes`, headers and the words of payloads are in `payloads`, and other readers are in `readers`. The cells are
//! in the crate `wb_rheap`.

ghost use Rattle.std.specs.Prelude.{◌≡◌, ◌+◌, ◌^◌, ◌<◌, ◌≤◌, true, None, Some, length};
ghost use Rattle.std.specs.Prelude.{option_map, IfOk, IfErr, IfSome, IsOk, IsErr, IsOkAnd, IsSome, OnOk, OnErr};
ghost use Rattle.wb_debug.specs.Log.{IsTakenBack};
ghost use Rattle.wb_heap_model.specs.Debug.{IsSoundDebug, alloc_made, answer_in, debug_without};
ghost use Rattle.wb_heap_model.specs.Debug.{leaks_of_heap, keeps_rises, number_of_next};
ghost use Rattle.wb_heap_model.specs.Reported.{trace_line};
ghost use Rattle.wb_heap_model.specs.Debug.{realloc_made, release_refusal};
ghost use Rattle.wb_heap_model.specs.Heap.{alloc_request, realloc_request, request_at};
ghost use Rattle.wb_heap_model.specs.Row.{cell_at, cell_length};
ghost use Rattle.wb_heap_model.specs.declared.heap.Attempt.{Attempt};

use crate::checks;
use crate::log::Log;
use crate::rules::{answer, cell_length};
use crate::setting::Setting;
use crate::tally::Tally;
use std::alloc::{AllocError, Global};
use std::marker::Model;
use wb_basics::limits::CEILING;
use wb_basics::memory::NoMemory;
use wb_heap_model::heap::{Answer, Attempt, Gave, Header, Kind, Panic, Ptr, Rule};
use wb_heap_model::reported::{Leaks, Trace};
use wb_heap_model::size::Rises;
use wb_rheap::{Heap, HeapFault};

/// A simulated heap that counts attempts, decides which attempts fail, and checks nested marks.
///
/// Every attempt has a number, from 1 on, even if the attempt fails. A cell that an attempt grants or moves gets the attempt's number.
/// First the place of the cell is chosen. Then the script's own setting is checked, then the rule, then the ceiling. If only the ceiling
/// stops an attempt, the attempt cuts the run. Every other attempt is counted, by the heap and by the setting, and adds a line to the
/// trace. In a heap made by `new_rises`, an attempt that is a rise adds the rise instead of a line, and any other attempt adds nothing.
pub struct DebugHeap {
    pub(crate) alloc: Global,
    /// The cells. The limit of this heap is the limit of the rule, and at most the ceiling.
    pub(crate) heap: Heap,
    pub(crate) rule: Rule,
    /// How many marks are open.
    pub(crate) level: u32,
    pub(crate) setting: Setting,
    /// How many attempts were made.
    pub(crate) attempts: u32,
    pub(crate) log: Log,
    /// The counts of the live cells.
    pub(crate) tally: Tally,
}

/// This implementation is written out rather than derived. So a proof elsewhere that drops a `DebugHeap` sees one call, and only the proof
/// of this function goes through the fields.
impl Drop for DebugHeap {
    fn drop(self) {
        let DebugHeap {
            alloc: _,
            heap: _,
            rule: _,
            level: _,
            setting: _,
            attempts: _,
            log: _,
            tally: _,
        } = self;
    }
}

impl Model for DebugHeap {
    ghost use Rattle.wb_heap_model.specs.Debug.{Debug};

    ghost Value = { Debug };

    ghost use Rattle.wb_debug.specs.Debug.{debug_of, IsKept};

    ghost view = { debug_of };

    ghost invariant = { IsKept };
}

impl DebugHeap {
    /// Returns a copy of the heap with its attempts, its trace, its marks and the script's setting, in newly allocated memory. A later
    /// change to the copy or to the original doesn't change the other. Returns `NoMemory` if the workbench's memory runs out.
    pub fn try_copy(&self) -> Result<DebugHeap, NoMemory>
        ensures { IfOk result (λ copy. copy ≡ self.now) }
    {
        self.try_copy_over(None)
    }

    /// Returns a copy as `try_copy` does. If there is a `spare` heap, the copy's cells take over the spare's memory, and the spare's cells
    /// are lost.
    pub fn try_copy_over(&self, spare: Option<Heap>) -> Result<DebugHeap, NoMemory>
        ensures { IfOk result (λ copy. copy ≡ self.now) }
    {
        Ok(DebugHeap {
            alloc: self.alloc,
            heap: self.heap.try_copy_over(spare)?,
            rule: self.rule.try_copy()?,
            level: self.level,
            setting: self.setting,
            attempts: self.attempts,
            log: self.log.try_copy()?,
            tally: self.tally.copy(),
        })
    }

    /// Returns the live cells except the cleanup stack's cell, in order of place. After a run, these cells are the leaks.
    ///
    /// Returns `NoMemory` if the workbench has no memory for the list.
    pub fn leaks(&self) -> Result<Leaks, NoMemory>
        ensures { IfOk result (λ leaks. leaks ≡ leaks_of_heap self.now) }
    {
        checks::leaks(self.alloc, &self.heap, &self.tally)
    }

    /// How many attempts were made.
    pub fn attempts(&self) -> u32
        ensures { result ≡ self.now.attempts }
    {
        self.attempts
    }

    /// The lines of the attempts that were made, in order; empty if the heap keeps only rises.
    pub fn trace(&self) -> &Trace
        ensures { result.now ≡ self.now.trace }
    {
        self.log.trace()
    }

    /// Consumes the debug heap of a run that is over, and returns its trace and its heap of cells. A later copy of another heap may take
    /// over the memory of this heap. The call needs no memory.
    pub fn into_trace_and_heap(self) -> (Trace, Heap)
        ensures { result.0 ≡ self.trace }
    {
        let (log, heap) = self.into_log_and_heap();
        (log.into_trace(), heap)
    }

    /// The rises so far, in order, of a heap made by `new_rises`. The trace of a heap made by `new` would have exactly these rises.
    pub fn rises(&self) -> &Rises
        requires { IsSome self.now.rises }
        ensures { Some result.now ≡ self.now.rises }
    {
        self.log.rises()
    }

    /// Consumes the debug heap of a run that is over, and returns its rises. The call needs no memory.
    pub fn into_rises(self) -> Rises
        requires { IsSome self.rises }
        ensures { Some result ≡ self.rises }
    {
        let (log, _) = self.into_log_and_heap();
        log.into_rises()
    }

    /// Consumes the debug heap, and returns its log of attempts and its heap of cells.
    fn into_log_and_heap(self) -> (Log, Heap)
        ensures trace { result.0.trace ≡ self.trace }
        ensures rises { result.0.rises ≡ self.rises }
    {
        let DebugHeap {
            alloc: _,
            heap,
            rule: _,
            level: _,
            setting: _,
            attempts: _,
            log,
            tally: _,
        } = self;
        (log, heap)
    }
}

/// The attempts to get a cell, and the releases.
impl DebugHeap {
    /// Makes an attempt to get a cell for `bytes` bytes. The payload of a granted cell is all zeros.
    ///
    /// Returns `Denied` if the script's setting or the rule, which may be a limit, makes the attempt fail; a failed attempt is counted too.
    /// Returns `Ceiling` if neither the setting nor the rule makes the attempt fail, but the cell would end past the heap's ceiling.
    /// Returns `NoMemory` if the workbench itself runs out of memory. `NoMemory` never comes in place of `Ceiling`. In a heap that keeps
    /// only rises, `NoMemory` comes only for an attempt that is a rise. After `Ceiling` or `NoMemory`, the attempt isn't counted and the
    /// heap is as it was. Source: Symbian OS v9 SDK reference, RHeap, for the grant and the refusal; this project's profile for the order
    /// of the checks.
    pub fn attempt_alloc(&mut self, bytes: u32, kind: Kind) -> Result<Gave, NoMemory>
        requires bytes { bytes ≤ CEILING }
        requires number { self.old.attempts + 1 < 2 ^ 32 }
        ensures gave { IfOk result (λ gave. gave ≡ (alloc_made self.old bytes kind).gave) }
        ensures made { OnOk result (self.new ≡ (alloc_made self.old bytes kind).debug) }
        ensures cut { answer_in self.old (alloc_request self.old.heap bytes) ≡ None → IsOk result }
        ensures quiet { keeps_rises self.old ≡ true →
            (alloc_made self.old bytes kind).debug.rises ≡ self.old.rises → IsOk result }
        ensures err { OnErr result (self.new ≡ self.old) }
        ensures sound { IsSoundDebug self.new }
    {
        let length = cell_length(bytes);
        let place = self.heap.place_for(length);
        let Some(line) = self.next_line(length, place) else {
            return Ok(Gave::Ceiling);
        };
        let added = self.log.push(line)?;
        let gave = match line.answer {
            Answer::Granted => {
                let heap = &mut self.heap;
                let granted = heap.alloc_at(place, length, kind, line.number, self.level);
                let gave = answer_or_undo(granted, &mut self.log, added)?;
                self.tally.grant(Header {
                    place,
                    length,
                    kind,
                    level: self.level,
                    number: line.number,
                });
                gave
            }
            Answer::Simulated | Answer::Refused => Gave::Denied,
        };
        self.setting = self.setting.after_attempt();
        self.attempts = line.number;
        Ok(gave)
    }

    /// Changes the length of the cell that the pointer names, so that the cell has room for `bytes` bytes.
    ///
    /// If the cell gets no longer, the call isn't an attempt: it returns `Granted` with the same pointer, and the bytes past the cell's new
    /// end are freed. If the cell grows, the call is an attempt, and returns `Denied`, `Ceiling` and `NoMemory` in the same cases as
    /// `attempt_alloc`. A growing cell moves if too few bytes after it are free, or if the shape says that growing cells always move;
    /// otherwise it stays at its place. A cell that moves goes to the lowest place where it fits while its old bytes still count as taken.
    /// The cell keeps its kind, its level and its words, and gets zeros after these words. A cell that moves gets the attempt's number, so
    /// the old pointer is stale. Source: Symbian OS v9 SDK reference, RHeap, for the kept contents and for a refusal that leaves the cell;
    /// this project's profile for places and numbers.
    pub fn attempt_realloc(&mut self, ptr: Ptr, bytes: u32) -> Result<Gave, NoMemory>
        requires live { IsSome (cell_at ptr self.old.heap.row) }
        requires bytes { bytes ≤ CEILING }
        requires number { self.old.attempts + 1 < 2 ^ 32 }
        ensures gave { IfOk result (λ gave. IfSome (cell_at ptr self.old.heap.row) (λ c.
            gave ≡ (realloc_made self.old c bytes).gave)) }
        ensures made { OnOk result (IfSome (cell_at ptr self.old.heap.row) (λ c.
            self.new ≡ (realloc_made self.old c bytes).debug)) }
        ensures shorter { IfSome (cell_at ptr self.old.heap.row) (λ c.
            cell_length bytes ≤ c.head.length → IsOk result) }
        ensures cut { IfSome (cell_at ptr self.old.heap.row) (λ c.
            answer_in self.old (realloc_request self.old.heap c.head bytes) ≡ None → IsOk result) }
        ensures quiet { keeps_rises self.old ≡ true → IfSome (cell_at ptr self.old.heap.row) (λ c.
            (realloc_made self.old c bytes).debug.rises ≡ self.old.rises → IsOk result) }
        ensures err { OnErr result (self.new ≡ self.old) }
        ensures sound { IsSoundDebug self.new }
    {
        let length = cell_length(bytes);
        let cell = self.heap.header(ptr).unwrap();
        if length <= cell.length {
            self.heap.shorten(cell, length);
            return Ok(Gave::Granted(ptr));
        }
        let place = self.heap.place_to_grow(cell, length);
        let Some(line) = self.next_line(length, place) else {
            return Ok(Gave::Ceiling);
        };
        let added = self.log.push(line)?;
        let gave = match line.answer {
            Answer::Granted => {
                let granted = self.heap.lengthen(cell, place, length, line.number);
                let gave = answer_or_undo(granted, &mut self.log, added)?;
                self.tally.put_at(cell, place);
                gave
            }
            Answer::Simulated | Answer::Refused => Gave::Denied,
        };
        self.setting = self.setting.after_attempt();
        self.attempts = line.number;
        Ok(gave)
    }

    /// Returns the trace line of the next attempt, for a cell of this length at this place, both in bytes; `None` if the ceiling cuts the
    /// run. The script's setting is checked first, then the rule, then the ceiling.
    #[inline(always)]
    fn next_line(&self, len: u32, place: u32) -> Option<Attempt>
        requires number { self.now.attempts + 1 < 2 ^ 32 }
        requires end { place + len < 2 ^ 32 }
        ensures answer { option_map (λ line. line.answer) result
            ≡ answer_in self.now (request_at self.now.heap place len) }
        ensures line { IfSome result (λ line. line
            ≡ trace_line (number_of_next self.now) (request_at self.now.heap place len)
            line.answer) }
    {
        let number = self.attempts + 1;
        let answer = answer(self.setting.is_due(), &self.rule, number, place + len)?;
        Some(Attempt {
            number,
            length: len,
            place,
            answer,
        })
    }

    /// Releases the cell that the pointer names; a null pointer releases nothing.
    ///
    /// Returns `Panic::BAD_CELL` exactly if the pointer isn't null and names no live cell; the heap is then as it was. Source: Symbian OS
    /// v9 SDK reference, RHeap.
    pub fn release(&mut self, ptr: Ptr) -> Result<(), Panic>
        ensures refused { IfErr result (λ panic. release_refusal self.old ptr ≡ Some panic) }
        ensures fine { OnOk result (release_refusal self.old ptr ≡ None) }
        ensures released { OnOk result (self.new ≡ debug_without self.old ptr) }
        ensures err { OnErr result (self.new ≡ self.old) }
        ensures sound { IsSoundDebug self.new }
    {
        let heap = &mut self.heap;
        if ptr.number == 0 {
            return Ok(());
        }
        let Some(cell) = heap.header(ptr) else {
            return Err(Panic::BAD_CELL);
        };
        heap.free_cell(ptr, cell);
        self.tally.release(cell);
        Ok(())
    }
}

/// Turns `granted`, which the heap returned for an attempt, into the result of the attempt. If `granted` is an error, the workbench's own
/// memory ran out; the attempt then doesn't count, so what the attempt added to the log is removed.
fn answer_or_undo(
    granted: Result<Ptr, HeapFault>,
    log: &mut Log,
    added: bool,
) -> Result<Gave, NoMemory>
    ensures granted { IfOk result (λ gave. IsOkAnd granted (λ ptr. gave ≡ Gave.Granted ptr)) }
    ensures kept { OnOk result (log.new ≡ log.old) }
    ensures wanting { OnErr result (IsErr granted) }
    ensures undone { OnErr result (IsTakenBack log.old added log.new) }
{
    match granted {
        Ok(ptr) => Ok(Gave::Granted(ptr)),
        Err(_) => {
            log.take_back(added);
            Err(NoMemory::from(AllocError))
        }
    }
}
