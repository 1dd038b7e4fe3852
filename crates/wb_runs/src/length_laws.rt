//! Laws of runs in heaps of every length. Each law is the contract of a function that does nothing, so that checking the function proves
//! the law.

ghost use Rattle.std.specs.Prelude.{◌≡◌, ◌≢◌, ℕ, ◌≤◌, List};
ghost use Rattle.wb_meaning.specs.Agreement.{IsSameButNotes};
ghost use Rattle.wb_runs.specs.Lengths.{IsLeastBadLength, IsLengthTable, IsNoBadLength, IsTableFrom};
ghost use Rattle.wb_runs.specs.Lengths.{last_from, run_in};
ghost use Rattle.wb_heap_model.specs.Rises.{highest_end};
ghost use Rattle.wb_meaning.specs.Run.{required, run};
ghost use Rattle.wb_runs.specs.RunEnds.{end_of, is_bad_end, is_cut_end};
ghost use Rattle.wb_meaning.specs.Run.{is_bad_outcome};
ghost use Rattle.wb_runs.specs.Sweeps.{is_cut_outcome};
ghost use Rattle.wb_heap_model.specs.declared.heap.Rule.TheVariants.{Unlimited};
ghost use Rattle.wb_heap_model.specs.declared.heap.Shape.{Shape};
ghost use Rattle.wb_runs.specs.declared.lengths.LengthRange.{LengthRange};
ghost use Rattle.wb_basics.specs.declared.limits.TheConstants.{CEILING};
ghost use Rattle.wb_meaning.specs.declared.run.Outcome.{Outcome};
ghost use Rattle.wb_meaning.specs.declared.run.Outcome.TheVariants.{Cut};
ghost use Rattle.wb_meaning.specs.declared.run.RunResult.{RunResult};
ghost use Rattle.wb_meaning.specs.declared.run.Why.TheVariants.{Ceiling};
ghost use Rattle.wb_runs.specs.declared.run_end.RunEnd.{RunEnd};
ghost use Rattle.wb_tree.specs.declared.script.Script.{Script};

/// In a heap no longer than the ceiling, the ceiling cuts no run, because the heap's limit is tested first. Every cell that a heap grants
/// ends within the heap. Take two heaps no longer than the ceiling. If no granted cell of the longer heap ends past the length of the
/// shorter heap, both heaps give the same run, except for notes. A cell that the longer heap refuses would end past the ends of both heaps,
/// and a cell that the longer heap grants fits into both.
pub fn heaps_agree()
    ensures uncut { (script : Script) (budget : ℕ) (shape : Shape) (length : ℕ) →
        length ≤ CEILING → (run_in script budget shape length).outcome ≢ Cut Ceiling }
    ensures within { (script : Script) (budget : ℕ) (shape : Shape) (length : ℕ) →
        highest_end (run_in script budget shape length).trace ≤ length }
    ensures same { (script : Script) (budget : ℕ) (shape : Shape) (length longer : ℕ) →
        length ≤ longer → longer ≤ CEILING →
        highest_end (run_in script budget shape longer).trace ≤ length →
        IsSameButNotes (run_in script budget shape longer) (run_in script budget shape length) }
{}

/// There is only one right table of lengths. If the ceiling doesn't cut the run without a limit, the table's last range begins at or below
/// the required length. From the required length on, nothing changes.
pub fn tables_are_one()
    ensures one { (end_at : ℕ → RunEnd) (most from : ℕ) (table other : List LengthRange) →
        IsTableFrom end_at most from table → IsTableFrom end_at most from other →
        table ≡ other }
    ensures last { (script : Script) (budget : ℕ) (shape : Shape) (table : List LengthRange) →
        (run script Unlimited budget shape).outcome ≢ Cut Ceiling →
        IsLengthTable script budget shape table →
        last_from 0 table ≤ required script budget shape }
{}

/// The search for the least length whose run leaks or panics has at most one answer. The answer is this length and its run, or that there
/// is no such length.
pub fn lengths_answer_once()
    ensures found { (script : Script) (budget : ℕ) (shape : Shape) (length other : ℕ)
        (result another : RunResult) →
        IsLeastBadLength script budget shape length result →
        IsLeastBadLength script budget shape other another →
        (length ≡ other) × (result ≡ another) }
    ensures some { (script : Script) (budget : ℕ) (shape : Shape) (length : ℕ)
        (result : RunResult) → IsLeastBadLength script budget shape length result →
        IsNoBadLength script budget shape → ⊥ }
{}

/// A run's `RunEnd` and its outcome agree on whether the run leaked or panicked, and on whether it was cut.
pub fn ends_are_judged()
    ensures bad { (outcome : Outcome) → is_bad_end (end_of outcome) ≡ is_bad_outcome outcome }
    ensures cut { (outcome : Outcome) → is_cut_end (end_of outcome) ≡ is_cut_outcome outcome }
{}
