//! Laws of sweeps over parts of the numbers. Each law is the contract of a function that does nothing, so that checking the function proves
//! the law.

ghost use Rattle.std.specs.Prelude.{◌≡◌, ◌+◌, ◌++◌, ◌≤◌, ◌↔◌, ℕ, List, Some, None};
ghost use Rattle.wb_runs.specs.AllNumbers.{bad_count, first_bad, unfine_in, IsLeastBadOf, IsNoBadOf};
ghost use Rattle.wb_runs.specs.Parts.{last_attempt, least_of, Answer, AreInARow, AreTogether, IsAnswerIn};
ghost use Rattle.wb_runs.specs.Parts.{IsCutIn, IsFoundIn, IsNoneIn};
ghost use Rattle.wb_runs.specs.SweepAnswers.{IsCutShort, IsFound, IsNoneFound};
ghost use Rattle.wb_runs.specs.declared.failures.Failing.{Failing};
ghost use Rattle.wb_runs.specs.declared.failures.Failures.{Failures};
ghost use Rattle.wb_heap_model.specs.declared.heap.Shape.{Shape};
ghost use Rattle.wb_runs.specs.declared.number_ends.NumberEnd.{NumberEnd};
ghost use Rattle.wb_runs.specs.declared.part.Part.{Part};
ghost use Rattle.wb_meaning.specs.declared.run.RunResult.{RunResult};
ghost use Rattle.wb_meaning.specs.declared.run.Why.{Why};
ghost use Rattle.wb_tree.specs.declared.script.Script.{Script};

/// Let a part have all numbers from 0 to the last attempt of the run without failure. Then a sweep over the part has the same answer as a
/// sweep over all failures.
pub fn a_whole_part_is_all()
    ensures found { (failures : Failures) (part : Part) (script : Script) (budget : ℕ)
        (shape : Shape) (at : Failing) (result : RunResult) → part.from ≡ 0 →
        last_attempt failures script budget shape ≤ part.to →
        IsFoundIn failures part script budget shape at result
        ↔ IsFound failures script budget shape at result }
    ensures cut { (failures : Failures) (part : Part) (script : Script) (budget : ℕ)
        (shape : Shape) (at : Failing) (why : Why) → part.from ≡ 0 →
        last_attempt failures script budget shape ≤ part.to →
        IsCutIn failures part script budget shape at why
        ↔ IsCutShort failures script budget shape at why }
    ensures none { (failures : Failures) (part : Part) (script : Script) (budget : ℕ)
        (shape : Shape) → part.from ≡ 0 → last_attempt failures script budget shape ≤ part.to →
        IsNoneIn failures part script budget shape ↔ IsNoneFound failures script budget shape }
{}

/// A sweep over a part has only one answer. The answer is a failure with its bad run, a failure with the reason why its run is cut, or that
/// each tried run is fine.
pub fn a_part_has_one_answer()
    ensures one { (failures : Failures) (part : Part) (script : Script) (budget : ℕ)
        (shape : Shape) (answer another : Answer) →
        IsAnswerIn failures part script budget shape answer →
        IsAnswerIn failures part script budget shape another → answer ≡ another }
{}

/// The lesser of the answers for two parts is the answer for both parts together. So if several parts cover all numbers, the least of their
/// answers is the answer for all numbers.
pub fn the_least_is_of_both()
    ensures least { (failures : Failures) (part next both : Part) (script : Script) (budget : ℕ)
        (shape : Shape) (answer another : Answer) → AreTogether part next both →
        IsAnswerIn failures part script budget shape answer →
        IsAnswerIn failures next script budget shape another →
        IsAnswerIn failures both script budget shape (least_of answer another) }
    ensures row { (part next both : Part) → AreInARow part next both → AreTogether part next both }
{}

/// Let one part end just before the next part begins. Then the list of both parts' bad or cut numbers is the earlier part's list, followed
/// by the later part's list. The count of bad numbers in two joined lists is the sum of both lists' counts.
pub fn lines_of_parts_add_up()
    ensures lines { (runs : ℕ → RunResult) (part next both : Part) → AreInARow part next both →
        unfine_in runs both ≡ unfine_in runs part ++ unfine_in runs next }
    ensures bad { (ends more : List NumberEnd) →
        bad_count (ends ++ more) ≡ bad_count ends + bad_count more }
{}

/// If a part's list names numbers as bad, the first number that it names as bad is the least number of the part whose run leaks or panics.
/// If the list names no number as bad, no number of the part has a run that leaks or panics.
pub fn the_first_is_the_least()
    ensures some { (runs : ℕ → RunResult) (part : Part) (number : ℕ) →
        first_bad (unfine_in runs part) ≡ Some number →
        IsLeastBadOf runs part number (runs number) }
    ensures none { (runs : ℕ → RunResult) (part : Part) → first_bad (unfine_in runs part) ≡ None →
        IsNoBadOf runs part }
{}
