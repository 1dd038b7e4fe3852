//! Laws of sweeps over all sets of a part, however many attempts a set has. Each law is the contract of a function that does nothing, so
//! that checking the function proves the law.

ghost use Rattle.std.specs.Prelude.{◌≡◌, ◌≤◌, ◌↔◌, ℕ, List, true};
ghost use Rattle.wb_runs.specs.EverySet.{IsEverySetAnswerIn, IsLeastSetCutIn, IsLeastSetFoundIn};
ghost use Rattle.wb_runs.specs.EverySet.{IsNoSetOfAnySizeIn};
ghost use Rattle.wb_runs.specs.Lengths.{IsNoBadLength};
ghost use Rattle.wb_runs.specs.Parts.{last_attempt, AreTogether, IsNoneIn};
ghost use Rattle.wb_meaning.specs.Run.{run};
ghost use Rattle.wb_runs.specs.SetAnswers.{least_set_of, SetAnswer};
ghost use Rattle.wb_runs.specs.Sets.{AreAllSetsFine, IsLeastBadSet, IsLeastCutSet};
ghost use Rattle.wb_runs.specs.Sweeps.{is_fine};
ghost use Rattle.wb_runs.specs.declared.failures.Failures.{Failures};
ghost use Rattle.wb_runs.specs.declared.failures.Failures.TheVariants.{Single};
ghost use Rattle.wb_heap_model.specs.declared.heap.Rule.{Rule};
ghost use Rattle.wb_heap_model.specs.declared.heap.Shape.{Shape};
ghost use Rattle.wb_runs.specs.declared.part.Part.{Part};
ghost use Rattle.wb_meaning.specs.declared.run.RunResult.{RunResult};
ghost use Rattle.wb_meaning.specs.declared.run.Why.{Why};
ghost use Rattle.wb_tree.specs.declared.script.Script.{Script};

/// Let a part have all numbers from 0 to the last attempt of the run without failure. Then a sweep over the part's sets has the same answer
/// as a sweep over all sets.
pub fn a_whole_part_has_every_set()
    ensures found { (part : Part) (script : Script) (budget : ℕ) (shape : Shape)
        (numbers : List ℕ) (result : RunResult) → part.from ≡ 0 →
        last_attempt Single script budget shape ≤ part.to →
        IsLeastSetFoundIn part script budget shape numbers result
        ↔ IsLeastBadSet script budget shape numbers result }
    ensures cut { (part : Part) (script : Script) (budget : ℕ) (shape : Shape)
        (numbers : List ℕ) (why : Why) → part.from ≡ 0 →
        last_attempt Single script budget shape ≤ part.to →
        IsLeastSetCutIn part script budget shape numbers why
        ↔ IsLeastCutSet script budget shape numbers why }
    ensures none { (part : Part) (script : Script) (budget : ℕ) (shape : Shape) →
        part.from ≡ 0 → last_attempt Single script budget shape ≤ part.to →
        IsNoSetOfAnySizeIn part script budget shape ↔ AreAllSetsFine script budget shape }
{}

/// A sweep over all sets of a part has only one answer. The lesser of the answers for two parts is the answer for both parts together.
pub fn parts_of_every_set_have_one_answer()
    ensures one { (part : Part) (script : Script) (budget : ℕ) (shape : Shape)
        (answer another : SetAnswer) → IsEverySetAnswerIn part script budget shape answer →
        IsEverySetAnswerIn part script budget shape another → answer ≡ another }
    ensures least { (part next both : Part) (script : Script) (budget : ℕ) (shape : Shape)
        (answer another : SetAnswer) → AreTogether part next both →
        IsEverySetAnswerIn part script budget shape answer →
        IsEverySetAnswerIn next script budget shape another →
        IsEverySetAnswerIn both script budget shape (least_set_of answer another) }
{}

/// If no set of failures shows a leak, a panic or a cut, then no run under any rule leaks, panics or is cut. So no heap length shows a leak
/// or a panic, and no sweep of any kind over any part finds anything.
pub fn nothing_shows_where_no_set_does()
    ensures run { (script : Script) (budget : ℕ) (shape : Shape) (r : Rule) →
        AreAllSetsFine script budget shape → is_fine (run script r budget shape) ≡ true }
    ensures lengths { (script : Script) (budget : ℕ) (shape : Shape) →
        AreAllSetsFine script budget shape → IsNoBadLength script budget shape }
    ensures sweeps { (failures : Failures) (part : Part) (script : Script) (budget : ℕ)
        (shape : Shape) → AreAllSetsFine script budget shape →
        IsNoneIn failures part script budget shape }
{}
