//! Sizing a script, by one run without a limit.

ghost use Rattle.std.specs.Prelude.{◌≡◌, ◌≤◌, ◌↔◌, ℕ, false, IfOk, IsTrue};
ghost use Rattle.wb_meaning.specs.Run.{run};
ghost use Rattle.wb_tree.specs.Sound.{is_script};
ghost use Rattle.wb_heap_model.specs.Space.{is_shape};
ghost use Rattle.wb_heap_model.specs.declared.heap.Rule.TheVariants.{Unlimited};
ghost use Rattle.wb_meaning.specs.declared.run.Outcome.TheVariants as outcomes;
ghost use Rattle.wb_meaning.specs.declared.run.Why.{Why};
ghost use Rattle.wb_size.specs.declared.fault.SizeFault.TheVariants.{BadShape, Cut};
ghost use Rattle.wb_size.specs.Sizing.{IsSizing};

use crate::fault::{SizeFault, Unsized};
use crate::sized_run::size_by_run;
use crate::sizing::Sizing;
use std::alloc::Global;
use wb_basics::limits::LARGEST_BUDGET;
use wb_heap_model::heap::Shape;
use wb_meaning::conditions::Conditions;
use wb_runs::progress::Silent;
use wb_tree::script::Script;

/// Returns the least length, in bytes, of a heap that refuses no attempt of a script. Also returns which attempt each shorter heap refuses
/// first.
///
/// The script runs once, without a limit, and only the rises of this run are kept, so other attempts add nothing to what is kept. The
/// result holds for every length, also for lengths past the ceiling. A heap of the required length or longer refuses no attempt of the run.
/// Every shorter heap refuses an attempt, whatever happens afterwards. The first attempt that it refuses is the one that `refused_at`
/// returns and the table of rises names. `Cut` is returned exactly if the run without a limit is cut. `BadShape` is returned exactly if no
/// heap may have this shape; then there is no run.
pub fn size(alloc: Global, script: &Script, budget: u32, shape: Shape) -> Result<Sizing, SizeFault>
    requires script { IsTrue (is_script script.now) }
    requires least { 1 ≤ budget }
    requires greatest { budget ≤ LARGEST_BUDGET }
    ensures sizing { IfOk result (IsSizing script.now budget shape) }
    ensures cut { (number : ℕ) (why : Why) → result ≡ Err (SizeFault.Cut number why) →
        (number ≡ 0) × ((run script.now Unlimited budget shape).outcome ≡ outcomes.Cut why) }
    ensures shape { (result ≡ Err SizeFault.BadShape) ↔ (is_shape shape ≡ false) }
{
    if !shape.is_allowed() {
        return Err(SizeFault::BadShape);
    }
    let conditions = Conditions { budget, shape };
    match size_by_run(alloc, script, conditions, &mut Silent) {
        Ok(sized) => Ok(sized.into_sizing()),
        Err(Unsized::Cut { number, why }) => Err(SizeFault::Cut { number, why }),
        Err(Unsized::NoMemory) => Err(SizeFault::NoMemory),
    }
}
