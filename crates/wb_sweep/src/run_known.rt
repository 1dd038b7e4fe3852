//! A sweep over all failures, if the run without failure is already known. If this run is fine, it isn't made again.

ghost use Rattle.std.specs.Prelude.{◌≡◌, ◌≢◌, ℕ, IfOk, IsTrue};
ghost use Rattle.wb_tree.specs.Sound.{is_script};
ghost use Rattle.wb_runs.specs.Parts.{last_attempt};
ghost use Rattle.wb_runs.specs.SweepAnswers.{IsCutShort};
ghost use Rattle.wb_runs.specs.Sweeps.{runs_of};
ghost use Rattle.wb_meaning.specs.declared.run.Why.{Why};
ghost use Rattle.wb_sweep.specs.Sweeping.{IsSweep};

use crate::fault::Unswept;
use crate::found::Sweep;
use crate::sweeping::{ALL, find_later, sweep_whole};
use std::alloc::Global;
use wb_meaning::conditions::Conditions;
use wb_meaning::run::Outcome;
use wb_runs::failures::{Failing, Failures};
use wb_runs::progress::{Aim, Progress};
use wb_runs::run_end::is_fine;
use wb_tree::script::Script;

/// Does the same as `sweep`, given how the run without failure ends, and how many attempts and steps it makes. The run without failure is
/// made again only if it isn't fine, and then it is the run that is found or cut. `progress` is notified as by `sweep`.
pub fn sweep_beside_known<P: Progress>(
    alloc: Global,
    script: &Script,
    failures: Failures,
    conditions: Conditions,
    outcome: &Outcome,
    attempts: u32,
    steps: u32,
    progress: &mut P,
) -> Result<Sweep, Unswept>
    requires script { IsTrue (is_script script.now) }
    requires outcome { outcome.now
        ≡ (runs_of failures script.now conditions.budget conditions.shape 0).outcome }
    requires attempts { attempts
        ≡ last_attempt failures script.now conditions.budget conditions.shape }
    requires steps { steps
        ≡ (runs_of failures script.now conditions.budget conditions.shape 0).steps }
    ensures swept { IfOk result (IsSweep failures script.now conditions.budget conditions.shape) }
    ensures cut { (at : Failing) (why : Why) → result ≡ Err (Unswept.Cut at why) →
        IsCutShort failures script.now conditions.budget conditions.shape at why }
    ensures known { (fine : ℕ) → result ≢ Err (Unswept.ManyStates fine) }
{
    if !is_fine(outcome) {
        return sweep_whole(alloc, script, failures, conditions, progress);
    }
    progress.begin(Aim::least_of(failures));
    progress.begin_failures(1, attempts);
    let steps = Some(steps);
    let found = find_later(
        alloc, script, failures, ALL, conditions, attempts, steps, progress,
    );
    progress.end();
    let found = found?;
    Ok(Sweep { attempts, found })
}
