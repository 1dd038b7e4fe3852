//! Laws of the definitions. Each law is the contract of a function that does nothing, so that checking the function proves the law.

ghost use Rattle.std.specs.Prelude.{◌≡◌, ◌≢◌, ℕ, ℤ, ◌+◌, ◌-◌, ◌%◌, ◌<◌, ◌≤◌, ◌↔◌, List, Option, Some, None, false};
ghost use Rattle.std.specs.Prelude.{true, [], IsTrue, nat_eq, length, take, drop, slice_get, slice_index, All};
ghost use Rattle.wb_meaning.specs.Agreement.{Agrees, RefusesAtLeast, RefusesNoGrant, IsSameRun};
ghost use Rattle.wb_heap_model.specs.SameRules.{IsNoLimit};
ghost use Rattle.wb_meaning.specs.Agreement.{IsSameButNotes};
ghost use Rattle.wb_runs.specs.Sizes.{first_refusal, NoneIsRefused, IsFirstRefused, IsGreatestEnd, IsTable};
ghost use Rattle.wb_meaning.specs.FreeSlots.{HasFreeSlot, WhereverItGoesOn};
ghost use Rattle.wb_meaning.specs.Throughout.{Throughout, AreCellsAfter, AreLeaksAfter};
ghost use Rattle.wb_meaning.specs.Rest.{Unfolds};
ghost use Rattle.wb_heap_model.specs.Row.{Cell, IsSpacedFrom, IsLeastPlace, place_of, top_of};
ghost use Rattle.wb_heap_model.specs.Placement.{Placement, placement_of};
ghost use Rattle.wb_heap_model.specs.Rules.{next, each, is_due, after_attempts};
ghost use Rattle.wb_heap_model.specs.Debug.{Debug, alloc_made, first_debug, first_debug_of, keeps_rises};
ghost use Rattle.wb_heap_model.specs.Debug.{made_with_rises, realloc_made, with_rises};
ghost use Rattle.wb_heap_model.specs.Rises.{top_of_rises};
ghost use Rattle.wb_meaning.specs.Run.{process, run, run_with_rises, whole_run, required, rises};
ghost use Rattle.wb_heap_model.specs.Rises.{highest_end};
ghost use Rattle.wb_heap_model.specs.Rises.{rises_above};
ghost use Rattle.wb_meaning.specs.Run.{refused_at};
ghost use Rattle.wb_heap_model.specs.Space.{AreFreeRuns, free_runs};
ghost use Rattle.wb_runs.specs.Sweeps.{runs_of, AreAllFine, IsLeastUnfine, least_bad_or_cut};
ghost use Rattle.wb_heap_model.specs.Texts.{units_of_part};
ghost use Rattle.wb_meaning.specs.Destructions.{GoesOnWith};
ghost use Rattle.wb_meaning.specs.Meaning.{meaning_of};
ghost use Rattle.wb_meaning.specs.Printable.{ArePrintable};
ghost use Rattle.wb_tree.specs.Quiet.{is_quiet};
ghost use Rattle.wb_meaning.specs.State.{State};
ghost use Rattle.wb_meaning.specs.Statements.{Todo, Context, destroy_items, destroy_object};
ghost use Rattle.wb_meaning.specs.Traces.{asked_for, AreAnsweredLines, TellsSettings};
ghost use Rattle.wb_basics.specs.declared.limits.TheConstants.{CEILING};
ghost use Rattle.wb_runs.specs.declared.failures.Failures.{Failures};
ghost use Rattle.wb_heap_model.specs.declared.heap.Attempt.{Attempt};
ghost use Rattle.wb_heap_model.specs.declared.heap.Header.{Header};
ghost use Rattle.wb_heap_model.specs.declared.heap.Kind.{Kind};
ghost use Rattle.wb_heap_model.specs.declared.heap.Ptr.{Ptr};
ghost use Rattle.wb_heap_model.specs.declared.heap.Rule.{Rule};
ghost use Rattle.wb_heap_model.specs.declared.heap.Rule.TheVariants.{Unlimited, Limit};
ghost use Rattle.wb_heap_model.specs.declared.heap.Shape.{Shape};
ghost use Rattle.wb_heap_model.specs.declared.reported.Leak.{Leak};
ghost use Rattle.wb_meaning.specs.declared.run.Outcome.TheVariants.{Ended, Cut};
ghost use Rattle.wb_meaning.specs.declared.run.Why.TheVariants.{Ceiling};
ghost use Rattle.wb_tree.specs.declared.script.Script.{Script};

/// A request's place is the least multiple of 16 at which the bytes of its cell overlap no cell of the row.
pub fn place_is_least()
    ensures { (row : List Header) (length : ℕ) → 0 < length → IsSpacedFrom 0 row →
        IsLeastPlace row length (place_of row length) }
{}

/// A script's setting for the k-th next attempt makes only this attempt fail. A script's setting for every k-th attempt makes an attempt
/// fail exactly if the attempt's position, counted from the setting, is a multiple of k.
pub fn settings_refuse()
    ensures next { (k n : ℕ) → is_due (after_attempts n (next k)) ≡ nat_eq k (n + 1) }
    ensures every { (k n : ℕ) → 1 ≤ k →
        is_due (after_attempts n (each k k)) ≡ nat_eq ((n + 1) % k) 0 }
{}

/// The free runs below a committed length are the bytes that the cells leave free. The lengths of free runs and cells add up to the
/// committed length. The longest free run is a stretch of bytes that no cell overlaps, and no such stretch is longer.
pub fn free_runs_are()
    ensures { (row : List Header) (committed : ℕ) → IsSpacedFrom 0 row → top_of row ≤ committed →
        AreFreeRuns row committed (free_runs 0 row committed) }
{}

/// A part of a base text reads as exactly as many units as the part is long. Each unit of the part is the base's unit at the corresponding
/// position, or zero past the base's end. A part of a part reads as the corresponding stretch of the larger part, whatever the base holds.
pub fn parts_are_read()
    ensures long { (base : List ℕ) (from count : ℕ) →
        length (units_of_part base from count) ≡ count }
    ensures units { (base : List ℕ) (from count k : ℕ) → k < count →
        slice_index (units_of_part base from count) k ≡ slice_index base (from + k) }
    ensures parts { (base : List ℕ) (from count at n : ℕ) → at + n ≤ count →
        units_of_part base (from + at) n ≡ take n (drop at (units_of_part base from count)) }
{}

/// The Agreement law compares the runs under two rules, if the second rule refuses at least what the first refuses. Both runs are the same
/// up to the first attempt that the rules answer differently, unless the ceiling cuts the first run. Notes may differ if one of the rules
/// is a limit.
pub fn rules_agree()
    ensures { (script : Script) (budget : ℕ) (shape : Shape) (r : Rule) (s : Rule) →
        Agrees script budget shape r s }
{}

/// The trace of a run has one line for each attempt that the run asks for, in order and numbered from 1. Only an attempt at which the
/// ceiling cuts the run has no line. If a line says `Granted`, the rule lets the attempt succeed, and the attempt's cell ends within the
/// ceiling. If a line says `Refused`, the cell would end past the rule's limit. If a line says `Simulated`, the script's own setting or the
/// rule makes the attempt fail.
pub fn lines_are_answered()
    ensures lines { (script : Script) (budget : ℕ) (shape : Shape) (r : Rule) →
        AreAnsweredLines r 0 (asked_for r 0 (process script budget (placement_of shape)))
        (run script r budget shape).trace }
    ensures numbered { (script : Script) (budget : ℕ) (shape : Shape) (r : Rule) (k : ℕ)
        (t : Attempt) → slice_get (run script r budget shape).trace k ≡ Some t → t.number ≡ k + 1 }
    ensures settings { (script : Script) (budget : ℕ) (placement : Placement) →
        TellsSettings (process script budget placement) }
{}

/// The first refusal computed from a trace is the number of the first line that the heap's limit refused, or `None` if there is no such
/// line. The highest end computed from a trace is the greatest end of a granted line.
pub fn traces_are_measured()
    ensures refused { (trace : List Attempt) (number : ℕ) →
        (first_refusal trace ≡ Some number) ↔ IsFirstRefused trace number }
    ensures none { (trace : List Attempt) → (first_refusal trace ≡ None) ↔ NoneIsRefused trace }
    ensures end { (trace : List Attempt) → IsGreatestEnd trace (highest_end trace) }
{}

/// Except for the trace, a run that keeps only its rises has the same result as the run that keeps a line for each attempt. Both runs make
/// the same number of attempts, and the kept rises are the rises of the other run's trace. A debug heap that keeps only rises equals, in
/// the same way, a debug heap that keeps lines, at first and after each attempt. The top of the last rise is the greatest end of a granted
/// line.
pub fn rises_are_kept()
    ensures runs { (script : Script) (budget : ℕ) (shape : Shape) (r : Rule) →
        whole_run true script r budget shape ≡ run_with_rises (run script r budget shape) }
    ensures first { (shape : Shape) →
        first_debug_of true Unlimited shape ≡ with_rises (first_debug Unlimited shape) }
    ensures allocations { (d : Debug) (bytes : ℕ) (kind : Kind) → keeps_rises d ≡ false →
        alloc_made (with_rises d) bytes kind ≡ made_with_rises (alloc_made d bytes kind) }
    ensures reallocations { (d : Debug) (c : Cell (List ℕ)) (bytes : ℕ) → keeps_rises d ≡ false →
        realloc_made (with_rises d) c bytes ≡ made_with_rises (realloc_made d c bytes) }
    ensures top { (trace : List Attempt) → top_of_rises (rises_above 0 trace) ≡ highest_end trace }
{}

/// If the ceiling doesn't cut the run without a limit, the rises of this run show which attempt a heap of each length refuses first. The
/// rises show no refused attempt for a heap exactly if the heap has at least the required length. The run in a heap of at least the
/// required length is the run without a limit, except for notes. The required length is at most the ceiling.
pub fn limits_refuse()
    ensures first { (script : Script) (budget : ℕ) (shape : Shape) (length : ℕ) →
        (run script Unlimited budget shape).outcome ≢ Cut Ceiling →
        first_refusal (run script (Limit length) budget shape).trace
        ≡ refused_at script budget shape length }
    ensures none { (script : Script) (budget : ℕ) (shape : Shape) (length : ℕ) →
        (refused_at script budget shape length ≡ None) ↔ (required script budget shape ≤ length) }
    ensures table { (script : Script) (budget : ℕ) (shape : Shape) →
        (run script Unlimited budget shape).outcome ≢ Cut Ceiling →
        IsTable (λ length. first_refusal (run script (Limit length) budget shape).trace)
        (required script budget shape) 0 (rises script budget shape) }
    ensures enough { (script : Script) (budget : ℕ) (shape : Shape) (length : ℕ) →
        (run script Unlimited budget shape).outcome ≢ Cut Ceiling →
        required script budget shape ≤ length →
        IsSameButNotes (run script Unlimited budget shape)
        (run script (Limit length) budget shape) }
    ensures within { (script : Script) (budget : ℕ) (shape : Shape) →
        required script budget shape ≤ CEILING }
{}

/// Let the first of two rules set no limit. Let the second rule refuse at least what the first refuses, but nothing that the run under the
/// first rule is granted. Then both rules give the same run, provided that the ceiling doesn't cut the run under the first rule. So if the
/// ceiling doesn't cut the run without failure, each number or rate past the last attempt of the run without failure gives the run without
/// failure.
pub fn unasked_rules_agree()
    ensures rules { (script : Script) (budget : ℕ) (shape : Shape) (r : Rule) (s : Rule) →
        IsNoLimit r → RefusesAtLeast r s → (run script r budget shape).outcome ≢ Cut Ceiling →
        RefusesNoGrant s (run script r budget shape).trace →
        IsSameRun r s (run script r budget shape) (run script s budget shape) }
    ensures failures { (failures : Failures) (script : Script) (budget : ℕ) (shape : Shape)
        (n : ℕ) → (runs_of failures script budget shape 0).outcome ≢ Cut Ceiling →
        length (runs_of failures script budget shape 0).trace < n →
        runs_of failures script budget shape n ≡ runs_of failures script budget shape 0 }
{}

/// Take the numbers, or rates, up to the last attempt of the run without failure. A search through these numbers finds the least of all
/// numbers whose run is bad or cut. If the search finds no number, the run of every number is fine.
pub fn sweeps_end()
    ensures some { (failures : Failures) (script : Script) (budget : ℕ) (shape : Shape) (n : ℕ) →
        (least_bad_or_cut failures script budget shape ≡ Some n)
        ↔ IsLeastUnfine (runs_of failures script budget shape) n }
    ensures none { (failures : Failures) (script : Script) (budget : ℕ) (shape : Shape) →
        (least_bad_or_cut failures script budget shape ≡ None)
        ↔ AreAllFine (runs_of failures script budget shape) }
{}

/// At every moment of a run of any script the live cells are a row, whichever of the run's attempts fail. The cells of a row ascend without
/// overlapping, at multiples of 16, and no two cells have the same number. Each cell's number is the number of an attempt already made.
/// Each cell holds what its kind says: an object, for example, has a pointer for each field of its class. So the leaks that a run reports
/// are cells of a row.
pub fn cells_stay_a_row()
    ensures throughout { (script : Script) (budget : ℕ) (shape : Shape) →
        Throughout (λ made st. AreCellsAfter script made st.heap.row) 0
        (process script budget (placement_of shape)) }
    ensures leaks { (script : Script) (budget : ℕ) (shape : Shape) (r : Rule) (left : Option ℤ)
        (leaks : List Leak) → (run script r budget shape).outcome ≡ Ended left leaks →
        AreLeaksAfter (length (run script r budget shape).trace) leaks }
{}

/// Each line that a run prints is printable ASCII: its bytes are from 32 to 126.
pub fn printed_lines_are_ascii()
    ensures { (script : Script) (budget : ℕ) (shape : Shape) (r : Rule) →
        All ArePrintable (run script r budget shape).lines }
{}

/// Whenever a run of any script asks for an attempt, comes to a plain end or returns, the cleanup stack has fewer items than slots. A
/// statement, or the rest of a block, that begins with a free slot also goes on with a free slot. So, statement by statement, each push
/// finds a free slot.
pub fn a_slot_stays_free()
    ensures run { (script : Script) (budget : ℕ) (placement : Placement) →
        WhereverItGoesOn HasFreeSlot (process script budget placement) }
    ensures pieces { (script : Script) (budget : ℕ) (at : Context) (p : Todo) (st : State) →
        HasFreeSlot st → WhereverItGoesOn HasFreeSlot (meaning_of script budget at p st) }
{}

/// Unless the budget is passed, the meaning of a piece of a script is its first step, followed by the meaning of what is left to do.
pub fn meaning_unfolds()
    ensures { (script : Script) (budget : ℕ) → Unfolds script budget }
{}

/// Let no operation and no destructor of a script have a statement that can leave. Then a destruction of items or of an object asks for no
/// attempt, and neither leaves nor returns. The destruction may panic, or be cut at the budget. If the destruction goes on to its end,
/// exactly the destroyed items are off the cleanup stack.
pub fn destructions_never_leave()
    ensures items { (script : Script) (budget : ℕ) (at : Context) (n : ℕ) (st : State) →
        IsTrue (is_quiet script) →
        GoesOnWith (take (length st.items
        - n) st.items) (meaning_of script budget at (destroy_items n) st) }
    ensures object { (script : Script) (budget : ℕ) (at : Context) (p : Ptr) (st : State) →
        IsTrue (is_quiet script) →
        GoesOnWith st.items (meaning_of script budget at (destroy_object p) st) }
{}
