//! A law about what every machine keeps true. The law is the contract of a function that does nothing, so that checking the function proves
//! the law.

ghost use Rattle.std.specs.Prelude.{ℕ, ◌<◌};
ghost use Rattle.wb_heap_model.specs.declared.heap.Ptr.{Ptr};
ghost use Rattle.wb_tree.specs.declared.script.Script.{Script};
ghost use Rattle.wb_heap_model.specs.Debug.{Debug};
ghost use Rattle.wb_objects.specs.Objects.{HasField};
ghost use Rattle.wb_machine.specs.ObjectInvariant.{AreWhole};
ghost use Rattle.wb_machine.specs.RunState.{field_count};

/// If each payload of a heap can be read as what the kind of its cell holds, each object's cell has words for every field of the object's
/// class. Between two machine turns, all payloads can be read in this way in every machine that hasn't returned `NoMemory`.
pub fn objects_have_their_fields()
    ensures { (script : Script) (d : Debug) (p : Ptr) (class i : ℕ) → AreWhole script d.heap.row
        → i < field_count script class → HasField d p class i }
{}
