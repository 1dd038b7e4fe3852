//! A law of rises: an attempt is a rise exactly if it ends above all attempts before it. The law is the contract of a function that does
//! nothing, so the gate (`./test`) proves the law.

ghost use Rattle.std.specs.Prelude.{◌≡◌, List, [], ◌∷◌, ◌++◌};
ghost use Rattle.wb_heap_model.specs.declared.heap.Attempt.{Attempt};
ghost use Rattle.wb_heap_model.specs.RiseLines.{EndsAbove};
ghost use Rattle.wb_heap_model.specs.Rises.{rise_of, rises_above};

/// One more attempt adds a rise exactly if it ends above 0 and above each attempt before it. A granted attempt ends where its cell ends,
/// and any other attempt ends at 0.
pub fn rises_end_above_all_before()
    ensures nothing { rises_above 0 [] ≡ [] }
    ensures rise { (trace : List Attempt) (t : Attempt) → EndsAbove trace t →
        rises_above 0 (trace ++ t ∷ []) ≡ rises_above 0 trace ++ rise_of t ∷ [] }
    ensures other { (trace : List Attempt) (t : Attempt) → (EndsAbove trace t → ⊥) →
        rises_above 0 (trace ++ t ∷ []) ≡ rises_above 0 trace }
{}
