//! New debug heaps, before the first attempt.

ghost use Rattle.std.specs.Prelude.{◌≡◌, ◌≢◌, ◌↔◌, [], false, true, is_some, IfOk, IsOk, IsTrue};
ghost use Rattle.wb_heap_model.specs.Debug.{IsSoundDebug, first_debug, first_debug_of};
ghost use Rattle.wb_heap_model.specs.Rises.{first_rises};
ghost use Rattle.wb_heap_model.specs.Space.{is_shape};
ghost use Rattle.wb_heap_model.specs.declared.heap.Rule.TheVariants.{Unlimited};

use crate::debug_heap::DebugHeap;
use crate::fault::DebugFault;
use crate::log::Log;
use crate::rules::limit_under;
use crate::setting::Setting;
use crate::tally::Tally;
use std::alloc::Global;
use wb_basics::memory::NoMemory;
use wb_heap_model::heap::{Rule, Shape};
use wb_rheap::Heap;

impl DebugHeap {
    /// Returns a heap with no cell and no attempt yet. The heap keeps a line for each attempt.
    ///
    /// The rule's limit is in bytes. Returns `BadShape` exactly if the shape isn't allowed; otherwise `NoMemory` if the workbench's memory
    /// runs out. `NoMemory` can't happen if the committed length is 0.
    pub fn new(alloc: Global, rule: Rule, shape: Shape) -> Result<DebugHeap, DebugFault>
        ensures ok { IfOk result (λ heap. heap ≡ first_debug rule shape) }
        ensures shape { (result ≡ Err DebugFault.BadShape) ↔ (is_shape shape ≡ false) }
        ensures no_growth { (first_debug rule shape).committed ≡ 0 →
            result ≢ Err DebugFault.NoMemory }
        ensures sound { IfOk result IsSoundDebug }
    {
        if !shape.is_allowed() {
            return Err(DebugFault::BadShape);
        }
        Ok(DebugHeap::of_shape(alloc, rule, shape)?)
    }

    /// Returns the heap that `new` returns, for a shape that is known to be allowed. Returns `NoMemory` if the workbench's memory runs out,
    /// which can't happen if the committed length is 0.
    pub fn of_shape(alloc: Global, rule: Rule, shape: Shape) -> Result<DebugHeap, NoMemory>
        requires { IsTrue (is_shape shape) }
        ensures ok { IfOk result (λ heap. heap ≡ first_debug rule shape) }
        ensures no_growth { (first_debug rule shape).committed ≡ 0 → IsOk result }
        ensures sound { IfOk result IsSoundDebug }
    {
        with_log(alloc, rule, shape, Log::of_lines(alloc))
    }

    /// Returns a heap with no cell, under `Rule::Unlimited`, that keeps only rises. A rise is a granted attempt whose cell ends past the
    /// ends of all cells that were granted earlier. An attempt that isn't a rise adds nothing to the heap's records.
    ///
    /// Returns `BadShape` and `NoMemory` in the same cases as `new`.
    pub fn new_rises(alloc: Global, shape: Shape) -> Result<DebugHeap, DebugFault>
        ensures ok { IfOk result (λ heap. heap ≡ first_debug_of true Unlimited shape) }
        ensures shape { (result ≡ Err DebugFault.BadShape) ↔ (is_shape shape ≡ false) }
        ensures no_growth { (first_debug Unlimited shape).committed ≡ 0 →
            result ≢ Err DebugFault.NoMemory }
        ensures sound { IfOk result IsSoundDebug }
    {
        if !shape.is_allowed() {
            return Err(DebugFault::BadShape);
        }
        Ok(DebugHeap::rises_of_shape(alloc, shape)?)
    }

    /// Returns the heap that `new_rises` returns, for a shape that is known to be allowed. Returns `NoMemory` in the same cases as
    /// `of_shape`.
    pub fn rises_of_shape(alloc: Global, shape: Shape) -> Result<DebugHeap, NoMemory>
        requires { IsTrue (is_shape shape) }
        ensures ok { IfOk result (λ heap. heap ≡ first_debug_of true Unlimited shape) }
        ensures no_growth { (first_debug Unlimited shape).committed ≡ 0 → IsOk result }
        ensures sound { IfOk result IsSoundDebug }
    {
        with_log(alloc, Rule::Unlimited, shape, Log::of_rises(alloc))
    }
}

/// Returns a heap with no cell that records its attempts in `log`. `log` must be empty.
fn with_log(alloc: Global, rule: Rule, shape: Shape, log: Log) -> Result<DebugHeap, NoMemory>
    requires shape { IsTrue (is_shape shape) }
    requires trace { log.trace ≡ [] }
    requires rises { log.rises ≡ first_rises (is_some log.rises) }
    ensures ok { IfOk result (λ heap. heap ≡ first_debug_of (is_some log.rises) rule shape) }
    ensures no_growth { (first_debug rule shape).committed ≡ 0 → IsOk result }
    ensures sound { IfOk result IsSoundDebug }
{
    let heap = Heap::of_shape(alloc, limit_under(&rule), shape)?;
    Ok(DebugHeap {
        alloc,
        heap,
        rule,
        level: 0,
        setting: Setting::Never,
        attempts: 0,
        log,
        tally: Tally::new(),
    })
}
