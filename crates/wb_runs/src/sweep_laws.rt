//! Laws of what sweeps answer, and of runs in which two attempts fail. Each law is the contract of a function that does nothing, so that
//! checking the function proves the law.

ghost use Rattle.std.specs.Prelude.{◌≡◌, ◌≢◌, ℕ, ◌<◌, ◌≤◌, Some, None, false, length, true};
ghost use Rattle.wb_runs.specs.Pairs.{least_bad_or_cut_pair, pair_run, AreAllPairsFine, ArePairsFineBefore};
ghost use Rattle.wb_meaning.specs.Run.{run};
ghost use Rattle.wb_runs.specs.SweepAnswers.{IsCutShort, IsFound, IsNoneFound};
ghost use Rattle.wb_runs.specs.Sweeps.{is_fine, rule_for, runs_of, AreAllFine};
ghost use Rattle.wb_runs.specs.declared.failures.Failing.{Failing};
ghost use Rattle.wb_runs.specs.declared.failures.Failures.{Failures};
ghost use Rattle.wb_runs.specs.declared.failures.Failures.TheVariants.{Single};
ghost use Rattle.wb_heap_model.specs.declared.heap.Shape.{Shape};
ghost use Rattle.wb_meaning.specs.declared.run.Outcome.TheVariants.{Cut};
ghost use Rattle.wb_meaning.specs.declared.run.RunResult.{RunResult};
ghost use Rattle.wb_meaning.specs.declared.run.Why.{Why};
ghost use Rattle.wb_meaning.specs.declared.run.Why.TheVariants.{Ceiling};
ghost use Rattle.wb_tree.specs.declared.script.Script.{Script};

/// If a pair's second attempt isn't made after the first attempt fails, the run under the pair is the run in which only the first attempt
/// fails. If a pair's first attempt isn't made, the run under the pair is the run without failure. The ceiling must not cut the run in
/// which only the first attempt fails, or the run without failure, respectively.
///
/// All pairs are fine if all single failures are fine and all pairs whose attempts are made are fine. If all single failures are fine, the
/// least bad or cut pair among the pairs whose attempts are made is the least of all bad or cut pairs.
pub fn pairs_end()
    ensures second { (script : Script) (budget : ℕ) (shape : Shape) (i j : ℕ) → i < j →
        (runs_of Single script budget shape i).outcome ≢ Cut Ceiling →
        length (runs_of Single script budget shape i).trace < j →
        pair_run script budget shape i j ≡ runs_of Single script budget shape i }
    ensures first { (script : Script) (budget : ℕ) (shape : Shape) (i j : ℕ) → i < j →
        (runs_of Single script budget shape 0).outcome ≢ Cut Ceiling →
        length (runs_of Single script budget shape 0).trace < i →
        pair_run script budget shape i j ≡ runs_of Single script budget shape 0 }
    ensures all { (script : Script) (budget : ℕ) (shape : Shape) →
        AreAllFine (runs_of Single script budget shape) →
        ((i j : ℕ) → 1 ≤ i → i ≤ length (runs_of Single script budget shape 0).trace →
        i < j → j ≤ length (runs_of Single script budget shape i).trace →
        is_fine (pair_run script budget shape i j) ≡ true) →
        AreAllPairsFine (pair_run script budget shape) }
    ensures some { (script : Script) (budget : ℕ) (shape : Shape) →
        AreAllFine (runs_of Single script budget shape) → (i j : ℕ) →
        least_bad_or_cut_pair script budget shape ≡ Some (i, j) →
        (1 ≤ i) × (i < j) × (is_fine (pair_run script budget shape i j) ≡ false)
        × ArePairsFineBefore (pair_run script budget shape) i j }
    ensures none { (script : Script) (budget : ℕ) (shape : Shape) →
        AreAllFine (runs_of Single script budget shape) →
        least_bad_or_cut_pair script budget shape ≡ None →
        AreAllPairsFine (pair_run script budget shape) }
{}

/// A sweep over the failures of one kind has only one answer. The answer is a failure with its bad run, a failure with the reason why its
/// run is cut, or that each run is fine.
pub fn sweeps_answer_once()
    ensures run { (script : Script) (budget : ℕ) (shape : Shape) (failures : Failures)
        (at : Failing) (result : RunResult) →
        IsFound failures script budget shape at result →
        result ≡ run script (rule_for at) budget shape }
    ensures found { (script : Script) (budget : ℕ) (shape : Shape) (failures : Failures)
        (at other : Failing) (result another : RunResult) →
        IsFound failures script budget shape at result →
        IsFound failures script budget shape other another →
        (at ≡ other) × (result ≡ another) }
    ensures cut { (script : Script) (budget : ℕ) (shape : Shape) (failures : Failures)
        (at other : Failing) (why another : Why) →
        IsCutShort failures script budget shape at why →
        IsCutShort failures script budget shape other another →
        (at ≡ other) × (why ≡ another) }
    ensures either { (script : Script) (budget : ℕ) (shape : Shape) (failures : Failures)
        (at other : Failing) (result : RunResult) (why : Why) →
        IsFound failures script budget shape at result →
        IsCutShort failures script budget shape other why → ⊥ }
    ensures some { (script : Script) (budget : ℕ) (shape : Shape) (failures : Failures)
        (at : Failing) (result : RunResult) →
        IsFound failures script budget shape at result →
        IsNoneFound failures script budget shape → ⊥ }
    ensures uncut { (script : Script) (budget : ℕ) (shape : Shape) (failures : Failures)
        (at : Failing) (why : Why) →
        IsCutShort failures script budget shape at why →
        IsNoneFound failures script budget shape → ⊥ }
{}
