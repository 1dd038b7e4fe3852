//! Laws of runs in heaps that choose the places of cells in any way. For each attempt, a placing says where its cell goes, and whether a
//! cell that grows stays. Each law is the contract of a function that does nothing, so that checking the function proves the law.

ghost use Rattle.std.specs.Prelude.{◌≡◌, ◌≢◌, ℕ, List, true};
ghost use Rattle.wb_heap_model.specs.Placement.{placement_of, Placement};
ghost use Rattle.wb_meaning.specs.Agreement.{IsSameButNotes};
ghost use Rattle.wb_runs.specs.Sets.{set_run, AreAllSetsFine, IsSet};
ghost use Rattle.wb_runs.specs.Sweeps.{is_fine};
ghost use Rattle.wb_heap_model.specs.declared.heap.Shape.{Shape};
ghost use Rattle.wb_meaning.specs.declared.run.Outcome.TheVariants.{Cut};
ghost use Rattle.wb_meaning.specs.declared.run.Why.TheVariants.{Ceiling};
ghost use Rattle.wb_tree.specs.declared.script.Script.{Script};
ghost use Rattle.wb_placings.specs.PlacedRuns.{placed_run, IsSameButPlaces};

/// If the ceiling doesn't cut a run in a heap of any shape, this run is, except for notes, the placed run with the heap's own choice of
/// places.
pub fn runs_are_placed_by_their_heap()
    ensures same { (script : Script) (budget : ℕ) (shape : Shape) (numbers : List ℕ) →
        (set_run script budget shape numbers).outcome ≢ Cut Ceiling →
        IsSameButNotes (set_run script budget shape numbers)
        (placed_run script budget numbers (placement_of shape)) }
{}

/// Let a run be neither bad nor cut in a heap where each growing cell moves. Then, except for places, the run is the same wherever cells
/// lie, and whichever growing cells stay (`same`). So if the runs of all sets of failures are fine in that heap, these runs are fine under
/// every placing (`every`). If the ceiling cuts no run in a heap of any other shape, the runs are also fine in that heap (`in_place`). An
/// example is a heap where cells stay if they can.
pub fn moving_runs_stand_for_every_placing()
    ensures same { (script : Script) (budget : ℕ) (shape : Shape) (numbers : List ℕ)
        (placement : Placement) →
        shape.moving ≡ true →
        is_fine (set_run script budget shape numbers) ≡ true →
        IsSameButPlaces (set_run script budget shape numbers)
        (placed_run script budget numbers placement) }
    ensures every { (script : Script) (budget : ℕ) (shape : Shape) →
        shape.moving ≡ true → AreAllSetsFine script budget shape →
        (numbers : List ℕ) → IsSet numbers → (placement : Placement) →
        is_fine (placed_run script budget numbers placement) ≡ true }
    ensures in_place { (script : Script) (budget : ℕ) (shape still : Shape) →
        shape.moving ≡ true → AreAllSetsFine script budget shape →
        ((numbers : List ℕ) → IsSet numbers →
        (set_run script budget still numbers).outcome ≢ Cut Ceiling) →
        AreAllSetsFine script budget still }
{}
