//! Laws that fix the numbers that scripts and reports show for panics and for a failed allocation. Each law is the contract of a function
//! that does nothing.

ghost use Rattle.std.specs.Prelude.{◌≡◌, pos, neg_ℤ};
ghost use Rattle.wb_heap_model.specs.declared.heap.Panic.TheVariants.{User, Workbench};
ghost use Rattle.wb_heap_model.specs.declared.heap.TheConstants.{KERR_NO_MEMORY};
ghost use Rattle.wb_heap_model.specs.declared.heap.TheConstants.Panic.{POSITION_OUT_OF_BOUNDS, TOO_LONG, BAD_CELL};
ghost use Rattle.wb_heap_model.specs.declared.heap.TheConstants.Panic.{NULL_OR_STALE, WRONG_KIND, POP_BELOW_TRAP};
ghost use Rattle.wb_heap_model.specs.declared.heap.TheConstants.Panic.{ANOTHER_ITEM_ON_TOP, ITEMS_LEFT, NO_OPEN_MARK};
ghost use Rattle.wb_heap_model.specs.declared.heap.TheConstants.Panic.{TOO_MANY_FRAMES, SHORTER_THAN_TEXT};
ghost use Rattle.wb_heap_model.specs.declared.heap.TheConstants.Panic.{NUMBER_OUT_OF_RANGE};

/// The numbers of the panics, in the order of their table in `docs/LANGUAGE.md`.
pub fn panics_are()
    ensures position { POSITION_OUT_OF_BOUNDS ≡ User 10 }
    ensures long { TOO_LONG ≡ User 11 }
    ensures cell { BAD_CELL ≡ User 42 }
    ensures stale { NULL_OR_STALE ≡ Workbench 1 }
    ensures kind { WRONG_KIND ≡ Workbench 2 }
    ensures pop { POP_BELOW_TRAP ≡ Workbench 3 }
    ensures item { ANOTHER_ITEM_ON_TOP ≡ Workbench 4 }
    ensures left { ITEMS_LEFT ≡ Workbench 5 }
    ensures mark { NO_OPEN_MARK ≡ Workbench 6 }
    ensures frames { TOO_MANY_FRAMES ≡ Workbench 7 }
    ensures shorter { SHORTER_THAN_TEXT ≡ Workbench 8 }
    ensures range { NUMBER_OUT_OF_RANGE ≡ Workbench 9 }
{}

/// The code with which an allocation leaves if its attempt fails.
pub fn refusal_code_is()
    ensures code { KERR_NO_MEMORY ≡ neg_ℤ (pos 4) }
{}
