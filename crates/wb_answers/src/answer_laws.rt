//! Laws that every search has an answer. Each law is the contract of a function that does nothing, so that checking the function proves the
//! law. Other laws, such as `a_part_has_one_answer`, say that no search has two answers.

ghost use Rattle.std.specs.Prelude.{◌≢◌, ℕ};
ghost use Rattle.wb_answers.specs.Answered.{AnyCutOrNone, HasAnswer, HasAnswerIn};
ghost use Rattle.wb_answers.specs.Answered.{HasEverySetAnswer, HasEverySetAnswerIn};
ghost use Rattle.wb_answers.specs.Answered.{HasLeastBadLength, HasLeastBadOf, HasLengthTable};
ghost use Rattle.wb_answers.specs.Answered.{HasSetAnswer, HasSetAnswerIn};
ghost use Rattle.wb_meaning.specs.Run.{required, rises, run};
ghost use Rattle.wb_runs.specs.Sizes.{IsHeapLength};
ghost use Rattle.wb_runs.specs.declared.failures.Failures.{Failures};
ghost use Rattle.wb_heap_model.specs.declared.heap.Rule.TheVariants.{Unlimited};
ghost use Rattle.wb_heap_model.specs.declared.heap.Shape.{Shape};
ghost use Rattle.wb_runs.specs.declared.part.Part.{Part};
ghost use Rattle.wb_meaning.specs.declared.run.Outcome.TheVariants.{Cut};
ghost use Rattle.wb_meaning.specs.declared.run.RunResult.{RunResult};
ghost use Rattle.wb_meaning.specs.declared.run.Why.TheVariants.{Ceiling};
ghost use Rattle.wb_tree.specs.declared.script.Script.{Script};

/// A sweep over each kind of failure, alone or in pairs, has an answer. The answer is a least failure whose run leaks or panics, a least
/// failure whose run is cut, or that there is no such failure.
pub fn every_sweep_has_an_answer()
    ensures part { (failures : Failures) (part : Part) (script : Script) (budget : ℕ)
        (shape : Shape) → HasAnswerIn failures part script budget shape }
    ensures whole { (failures : Failures) (script : Script) (budget : ℕ) (shape : Shape) →
        HasAnswer failures script budget shape }
{}

/// A sweep over sets of failures also has an answer, whether or not the number of attempts in a set is bounded. There are infinitely many
/// sets, but only finitely many sets of attempts that are made.
pub fn every_sweep_over_sets_has_an_answer()
    ensures part { (part : Part) (most : ℕ) (script : Script) (budget : ℕ) (shape : Shape) →
        HasSetAnswerIn part most script budget shape }
    ensures whole { (most : ℕ) (script : Script) (budget : ℕ) (shape : Shape) →
        HasSetAnswer most script budget shape }
    ensures every_part { (part : Part) (script : Script) (budget : ℕ) (shape : Shape) →
        HasEverySetAnswerIn part script budget shape }
    ensures every { (script : Script) (budget : ℕ) (shape : Shape) →
        HasEverySetAnswer script budget shape }
{}

/// Either the numbers of a part have a least number whose run leaks or panics, or no number of the part has such a run.
pub fn every_list_has_a_least_bad_number_or_none()
    ensures { (runs : ℕ → RunResult) (part : Part) → HasLeastBadOf runs part }
{}

/// Every script has a table of how its runs end in heaps of all lengths. Either there is a least length whose run leaks or panics, or no
/// length has such a run. Either there is a length whose run is cut, or no length has such a run.
pub fn every_script_has_a_table_of_lengths()
    ensures table { (script : Script) (budget : ℕ) (shape : Shape) →
        HasLengthTable script budget shape }
    ensures bad { (script : Script) (budget : ℕ) (shape : Shape) →
        HasLeastBadLength script budget shape }
    ensures cut { (script : Script) (budget : ℕ) (shape : Shape) →
        AnyCutOrNone script budget shape }
{}

/// If the ceiling doesn't cut a script's run without a limit, the script has a required heap length and a table of rises. The required
/// length is the greatest end of a granted cell in this run, and the rises are the grants that made the heap longer than all grants before
/// them.
pub fn every_script_has_a_required_length()
    ensures { (script : Script) (budget : ℕ) (shape : Shape) →
        (run script Unlimited budget shape).outcome ≢ Cut Ceiling →
        IsHeapLength script budget shape (required script budget shape) (rises script budget shape) }
{}
