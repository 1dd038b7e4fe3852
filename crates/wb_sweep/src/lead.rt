//! The runs that forks part from.

ghost use Rattle.std.specs.Prelude.{◌≡◌, true, IfOk, IsTrue};
ghost use Rattle.wb_tree.specs.Sound.{is_script};
ghost use Rattle.wb_heap_model.specs.SameRules.{IsNoLimit};
ghost use Rattle.wb_machine.specs.Seen.{seen_at_start};

use std::alloc::Global;
use wb_basics::memory::NoMemory;
use wb_heap_model::heap::Rule;
use wb_machine::Machine;
use wb_meaning::conditions::Conditions;
use wb_tree::script::Script;

/// A machine at the start of a run under a rule that is no limit. The machine keeps its rises in place of a trace, and so do its copies.
/// In a loop that frees what it takes, rises are few, so copying takes no longer after many attempts.
pub(crate) fn lead_under<'a>(
    alloc: Global,
    script: &'a Script,
    rule: Rule,
    conditions: Conditions,
) -> Result<Machine<'a>, NoMemory>
    requires script { IsTrue (is_script script.now) }
    requires rule { IsNoLimit rule }
    ensures { IfOk result
        (λ m. m ≡ seen_at_start true script.now rule conditions.budget conditions.shape) }
{
    let mut lead = Machine::start_rises(alloc, script, conditions)?;
    lead.set_rule(rule);
    Ok(lead)
}
