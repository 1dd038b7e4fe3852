//! Laws of sweeps over the sets of a part. Each law is the contract of a function that does nothing, so that checking the function proves
//! the law.

ghost use Rattle.std.specs.Prelude.{◌≡◌, ◌≤◌, ◌↔◌, ℕ, List, length};
ghost use Rattle.wb_runs.specs.Parts.{last_attempt, AreTogether, IsNoneIn};
ghost use Rattle.wb_runs.specs.SetAnswers.{least_set_of, IsSetAnswerIn, SetAnswer};
ghost use Rattle.wb_runs.specs.SetAnswers.{IsSetOfCut, IsSetOfFound};
ghost use Rattle.wb_runs.specs.SetParts.{IsNoSetIn, IsSetCutIn, IsSetFoundIn};
ghost use Rattle.wb_runs.specs.Sets.{AreSetsFine, IsLeastBadSet, IsLeastCutSet};
ghost use Rattle.wb_runs.specs.declared.failures.Failures.TheVariants.{Pairs, Single};
ghost use Rattle.wb_heap_model.specs.declared.heap.Shape.{Shape};
ghost use Rattle.wb_runs.specs.declared.part.Part.{Part};
ghost use Rattle.wb_meaning.specs.declared.run.RunResult.{RunResult};
ghost use Rattle.wb_meaning.specs.declared.run.Why.{Why};
ghost use Rattle.wb_tree.specs.declared.script.Script.{Script};

/// Let a part have all numbers from 0 to the last attempt of the run without failure, and let sets have at most `most` attempts. Then a
/// sweep over the part's sets has the same answer as a sweep over all sets.
pub fn a_whole_part_has_all_sets()
    ensures found { (part : Part) (most : ℕ) (script : Script) (budget : ℕ) (shape : Shape)
        (numbers : List ℕ) (result : RunResult) → part.from ≡ 0 →
        last_attempt Single script budget shape ≤ part.to →
        IsSetFoundIn part most script budget shape numbers result
        ↔ (IsLeastBadSet script budget shape numbers result × (length numbers ≤ most)) }
    ensures cut { (part : Part) (most : ℕ) (script : Script) (budget : ℕ) (shape : Shape)
        (numbers : List ℕ) (why : Why) → part.from ≡ 0 →
        last_attempt Single script budget shape ≤ part.to →
        IsSetCutIn part most script budget shape numbers why
        ↔ (IsLeastCutSet script budget shape numbers why × (length numbers ≤ most)) }
    ensures none { (part : Part) (most : ℕ) (script : Script) (budget : ℕ) (shape : Shape) →
        part.from ≡ 0 → last_attempt Single script budget shape ≤ part.to →
        IsNoSetIn part most script budget shape ↔ AreSetsFine script budget shape most }
{}

/// A sweep over the sets of a part has only one answer. The answer is a set with its bad run, a set with the reason why its run is cut, or
/// that each tried run is fine.
pub fn a_part_of_sets_has_one_answer()
    ensures one { (part : Part) (most : ℕ) (script : Script) (budget : ℕ) (shape : Shape)
        (answer another : SetAnswer) → IsSetAnswerIn part most script budget shape answer →
        IsSetAnswerIn part most script budget shape another → answer ≡ another }
{}

/// The lesser of the answers for the sets of two parts is the answer for the sets of both parts together. So if several parts cover all
/// numbers, the least of their answers is the answer for all numbers.
pub fn the_least_set_is_of_both()
    ensures least { (part next both : Part) (most : ℕ) (script : Script) (budget : ℕ)
        (shape : Shape) (answer another : SetAnswer) → AreTogether part next both →
        IsSetAnswerIn part most script budget shape answer →
        IsSetAnswerIn next most script budget shape another →
        IsSetAnswerIn both most script budget shape (least_set_of answer another) }
{}

/// A sweep over the sets of at most one attempt finds what a sweep over single failures finds. A sweep over the sets of at most two
/// attempts finds what a sweep over pairs finds. These sweeps also agree on the least failure whose run is cut, and on the answer that no
/// run is bad or cut.
pub fn few_sets_are_single_failures_and_pairs()
    ensures single { (part : Part) (script : Script) (budget : ℕ) (shape : Shape)
        (numbers : List ℕ) (result : RunResult) →
        IsSetFoundIn part 1 script budget shape numbers result
        ↔ IsSetOfFound Single part script budget shape numbers result }
    ensures single_cut { (part : Part) (script : Script) (budget : ℕ) (shape : Shape)
        (numbers : List ℕ) (why : Why) → IsSetCutIn part 1 script budget shape numbers why
        ↔ IsSetOfCut Single part script budget shape numbers why }
    ensures no_single { (part : Part) (script : Script) (budget : ℕ) (shape : Shape) →
        IsNoSetIn part 1 script budget shape ↔ IsNoneIn Single part script budget shape }
    ensures paired { (part : Part) (script : Script) (budget : ℕ) (shape : Shape)
        (numbers : List ℕ) (result : RunResult) →
        IsSetFoundIn part 2 script budget shape numbers result
        ↔ IsSetOfFound Pairs part script budget shape numbers result }
    ensures paired_cut { (part : Part) (script : Script) (budget : ℕ) (shape : Shape)
        (numbers : List ℕ) (why : Why) → IsSetCutIn part 2 script budget shape numbers why
        ↔ IsSetOfCut Pairs part script budget shape numbers why }
    ensures no_pair { (part : Part) (script : Script) (budget : ℕ) (shape : Shape) →
        IsNoSetIn part 2 script budget shape ↔ IsNoneIn Pairs part script budget shape }
{}
