//! Sizes a script by one run, and says how this run ended.

ghost use Rattle.std.specs.Prelude.{◌≡◌, ℕ, length, IfOk, IsTrue};
ghost use Rattle.wb_meaning.specs.Run.{rises_result_of, run};
ghost use Rattle.wb_tree.specs.Sound.{is_script};
ghost use Rattle.wb_heap_model.specs.declared.heap.Rule.TheVariants.{Unlimited};
ghost use Rattle.wb_meaning.specs.declared.run.Outcome.TheVariants as outcomes;
ghost use Rattle.wb_meaning.specs.declared.run.Why.{Why};
ghost use Rattle.wb_size.specs.declared.fault.Unsized.TheVariants.{Cut};
ghost use Rattle.wb_size.specs.SizedRun.{IsOfRun};
ghost use Rattle.wb_size.specs.Sizing.{IsSizing};

use crate::fault::Unsized;
use crate::sizing::{Sizing, sizing_of};
use std::alloc::Global;
use wb_basics::memory::NoMemory;
use wb_machine::run_rises;
use wb_meaning::conditions::Conditions;
use wb_meaning::run::{Outcome, RisesResult};
use wb_runs::progress::Progress;
use wb_tree::script::Script;

/// What a script needs, and how the run without a limit went.
#[derive(Drop)]
pub struct SizedRun {
    pub sizing: Sizing,
    /// How the run ended.
    pub outcome: Outcome,
    /// How many attempts the run made.
    pub attempts: u32,
    /// How many steps the run took.
    pub steps: u32,
}

impl SizedRun {
    /// The sizing alone.
    pub fn into_sizing(self) -> Sizing
        ensures { result ≡ self.sizing }
    {
        let SizedRun {
            sizing,
            outcome: _,
            attempts: _,
            steps: _,
        } = self;
        sizing
    }
}

/// Sizes a script as `size` does. Also returns how the run ended and how many attempts and steps the run made, so that no second run is
/// needed. `size` asks for the same memory. `progress` is notified of the steps taken.
pub fn size_by_run<P: Progress>(
    alloc: Global,
    script: &Script,
    conditions: Conditions,
    progress: &mut P,
) -> Result<SizedRun, Unsized>
    requires { IsTrue (is_script script.now) }
    ensures sizing { IfOk result (λ sized.
        IsSizing script.now conditions.budget conditions.shape sized.sizing) }
    ensures ran { IfOk result
        (IsOfRun (run script.now Unlimited conditions.budget conditions.shape)) }
    ensures cut { (number : ℕ) (why : Why) → result ≡ Err (Unsized.Cut number why) →
        (number ≡ 0) × ((run script.now Unlimited conditions.budget conditions.shape).outcome
        ≡ outcomes.Cut why) }
{
    let (run_result, attempts) = run_notifying(alloc, script, conditions, progress)?;
    if let Outcome::Cut(why) = &run_result.outcome {
        return Err(Unsized::Cut {
            number: 0,
            why: *why,
        });
    }
    let RisesResult {
        outcome,
        rises,
        steps,
    } = run_result;
    Ok(SizedRun {
        sizing: sizing_of(rises),
        outcome,
        attempts,
        steps,
    })
}

/// Makes the run without a limit as `run_rises` does. `progress` is notified that the run begins, of the steps taken, and that it is over.
fn run_notifying<P: Progress>(
    alloc: Global,
    script: &Script,
    conditions: Conditions,
    progress: &mut P,
) -> Result<(RisesResult, u32), NoMemory>
    requires { IsTrue (is_script script.now) }
    ensures ran { IfOk result (λ counted. counted.0
        ≡ rises_result_of (run script.now Unlimited conditions.budget conditions.shape)) }
    ensures attempts { IfOk result (λ counted. counted.1
        ≡ length (run script.now Unlimited conditions.budget conditions.shape).trace) }
{
    progress.begin_run();
    let ran = run_rises(alloc, script, conditions, progress);
    progress.end();
    ran
}
