//! Calls that take a budget and any shape. Each checks the shape, and then does what the call over `Conditions` does.

ghost use Rattle.std.specs.Prelude.{◌≡◌, ◌+◌, ◌≤◌, ◌↔◌, false, true, length, IfOk, IsTrue};
ghost use Rattle.wb_tree.specs.Sound.{is_script};
ghost use Rattle.wb_heap_model.specs.Space.{is_shape};
ghost use Rattle.wb_heap_model.specs.declared.heap.Rule.TheVariants.{Unlimited};
ghost use Rattle.wb_meaning.specs.Run.{run};
ghost use Rattle.wb_machine.specs.declared.fault.RunFault.TheVariants.{BadShape};
ghost use Rattle.wb_machine.specs.Seen.{seen_at_start};

use crate::fault::RunFault;
use crate::machine::{Machine, run_reporting};
use std::alloc::Global;
use wb_basics::limits::LARGEST_BUDGET;
use wb_heap_model::heap::{Rule, Shape};
use wb_meaning::conditions::Conditions;
use wb_meaning::progress::Silent;
use wb_meaning::run::RunResult;
use wb_tree::script::Script;

impl<'a> Machine<'a> {
    /// A machine at the start of a run, before the run's first attempt. The machine keeps a trace: a line for each attempt.
    ///
    /// The budget is in steps, the shape's lengths are in bytes. Returns `BadShape` exactly if no heap may have the shape; in that case,
    /// never returns `NoMemory`.
    pub fn new(
        alloc: Global,
        script: &'a Script,
        rule: Rule,
        budget: u32,
        shape: Shape,
    ) -> Result<Machine<'a>, RunFault>
        requires script { IsTrue (is_script script.now) }
        requires least { 1 ≤ budget }
        requires greatest { budget ≤ LARGEST_BUDGET }
        ensures shape { (result ≡ Err RunFault.BadShape) ↔ (is_shape shape ≡ false) }
        ensures seen { IfOk result (λ m. m ≡ seen_at_start false script.now rule budget shape) }
    {
        if !shape.is_allowed() {
            return Err(RunFault::BadShape);
        }
        let conditions = Conditions { budget, shape };
        Ok(Machine::start(alloc, script, rule, conditions)?)
    }

    /// A machine at the start of a run without a limit. The machine keeps no trace. Instead, it keeps the rises: the granted attempts whose
    /// cells end past the ends of all cells that were granted earlier.
    ///
    /// The budget is in steps, the shape's lengths are in bytes. Returns `BadShape` exactly if no heap may have the shape; in that case,
    /// never returns `NoMemory`.
    pub fn new_rises(
        alloc: Global,
        script: &'a Script,
        budget: u32,
        shape: Shape,
    ) -> Result<Machine<'a>, RunFault>
        requires script { IsTrue (is_script script.now) }
        requires least { 1 ≤ budget }
        requires greatest { budget ≤ LARGEST_BUDGET }
        ensures shape { (result ≡ Err RunFault.BadShape) ↔ (is_shape shape ≡ false) }
        ensures seen { IfOk result (λ m. m ≡ seen_at_start true script.now Unlimited budget shape) }
    {
        if !shape.is_allowed() {
            return Err(RunFault::BadShape);
        }
        let conditions = Conditions { budget, shape };
        Ok(Machine::start_rises(alloc, script, conditions)?)
    }
}

/// Runs a script from the first attempt to the end of the run, or until the run is cut.
///
/// An `Ok` is exactly what the definitions say of the script, the rule, the budget (in steps) and the shape (in bytes). A run that is cut
/// gives an `Ok` too. The result's trace has at most one line more than the budget has steps. Returns `BadShape` exactly if no heap may
/// have the shape; in that case, never returns `NoMemory`.
pub fn run(
    alloc: Global,
    script: &Script,
    rule: Rule,
    budget: u32,
    shape: Shape,
) -> Result<RunResult, RunFault>
    requires script { IsTrue (is_script script.now) }
    requires least { 1 ≤ budget }
    requires greatest { budget ≤ LARGEST_BUDGET }
    ensures ran { IfOk result (λ run_result. run_result ≡ run script.now rule budget shape) }
    ensures few { IfOk result (λ run_result. length run_result.trace ≤ budget + 1) }
    ensures shape { (result ≡ Err RunFault.BadShape) ↔ (is_shape shape ≡ false) }
{
    if !shape.is_allowed() {
        return Err(RunFault::BadShape);
    }
    let conditions = Conditions { budget, shape };
    Ok(run_reporting(alloc, script, rule, conditions, &mut Silent)?)
}
