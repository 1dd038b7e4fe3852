//! Laws of runs in which the attempts of a set fail, however many attempts the set has. Each law is the contract of a function that does
//! nothing, so that checking the function proves the law.

ghost use Rattle.std.specs.Prelude.{◌≡◌, ◌≢◌, ℕ, ◌≤◌, List, [], ◌∷◌, ◌++◌, false, length, true};
ghost use Rattle.wb_runs.specs.Pairs.{pair_run};
ghost use Rattle.wb_meaning.specs.Run.{run};
ghost use Rattle.wb_runs.specs.Sets.{refused_numbers, set_run, AreAllSetsFine, AreMade, AreSetsFine};
ghost use Rattle.wb_runs.specs.Sets.{AreSetsFineBefore, AscendsPast, IsSameButRefusals, IsSet};
ghost use Rattle.wb_runs.specs.Sweeps.{is_fine, runs_of};
ghost use Rattle.wb_runs.specs.declared.failures.Failures.TheVariants.{Single};
ghost use Rattle.wb_heap_model.specs.declared.heap.Rule.{Rule};
ghost use Rattle.wb_heap_model.specs.declared.heap.Shape.{Shape};
ghost use Rattle.wb_meaning.specs.declared.run.Outcome.TheVariants.{Cut};
ghost use Rattle.wb_meaning.specs.declared.run.Why.TheVariants.{Ceiling};
ghost use Rattle.wb_tree.specs.declared.script.Script.{Script};

/// The run under the empty set is the run under number 0. The run under a set of one attempt is the run under the attempt's number. The run
/// under a set of two attempts is the run under the pair of their numbers.
pub fn small_sets_are_failures()
    ensures none { (script : Script) (budget : ℕ) (shape : Shape) →
        set_run script budget shape [] ≡ runs_of Single script budget shape 0 }
    ensures one { (script : Script) (budget : ℕ) (shape : Shape) (n : ℕ) →
        set_run script budget shape (n ∷ []) ≡ runs_of Single script budget shape n }
    ensures two { (script : Script) (budget : ℕ) (shape : Shape) (i j : ℕ) →
        set_run script budget shape (i ∷ j ∷ []) ≡ pair_run script budget shape i j }
{}

/// If attempts past the last attempt of a set's run are added to the set, the run doesn't change, unless the ceiling cuts the run. Call a
/// set "made" if each of its attempts is made in the run in which the set's earlier attempts fail. If the runs under all made sets are
/// fine, the runs under all sets are fine. The least set whose run isn't fine is a made set.
pub fn sets_end()
    ensures past { (script : Script) (budget : ℕ) (shape : Shape) (numbers more : List ℕ) →
        (set_run script budget shape numbers).outcome ≢ Cut Ceiling →
        AscendsPast (length (set_run script budget shape numbers).trace) more →
        set_run script budget shape (numbers ++ more) ≡ set_run script budget shape numbers }
    ensures all { (script : Script) (budget : ℕ) (shape : Shape) (most : ℕ) →
        ((numbers : List ℕ) → IsSet numbers → length numbers ≤ most →
        AreMade script budget shape numbers →
        is_fine (set_run script budget shape numbers) ≡ true) →
        AreSetsFine script budget shape most }
    ensures least { (script : Script) (budget : ℕ) (shape : Shape) (numbers : List ℕ) →
        IsSet numbers → is_fine (set_run script budget shape numbers) ≡ false →
        AreSetsFineBefore script budget shape numbers → AreMade script budget shape numbers }
{}

/// Take a run under any rule, and the set of the attempts that were not granted in this run. The run under this set is the same run, except
/// for notes and for how the trace names refusals. So if no set of failures shows a leak, a panic or a cut, then no limit, number, rate or
/// pair shows any of these.
pub fn refused_attempts_are_a_set()
    ensures ascend { (script : Script) (budget : ℕ) (shape : Shape) (r : Rule) →
        IsSet (refused_numbers (run script r budget shape).trace) }
    ensures same { (script : Script) (budget : ℕ) (shape : Shape) (r : Rule) →
        IsSameButRefusals (run script r budget shape)
        (set_run script budget shape (refused_numbers (run script r budget shape).trace)) }
    ensures fine { (script : Script) (budget : ℕ) (shape : Shape) (r : Rule) →
        AreAllSetsFine script budget shape → is_fine (run script r budget shape) ≡ true }
{}
