//! Statements that allocate, reallocate and release cells.

ghost use Rattle.std.specs.Prelude.{◌≡◌, ◌≢◌, false, ◌<◌, ◌≤◌, length, true, IfOk, IfSome, IsSome, OnErr, OnOk};
ghost use Rattle.wb_heap_model.specs.declared.heap.Kind.TheVariants.{Raw, Text};
ghost use Rattle.wb_heap_model.specs.Debug.{alloc_made, realloc_made, with_row};
ghost use Rattle.wb_heap_model.specs.Row.{cell_at, without};
ghost use Rattle.wb_heap_model.specs.Heap.{is_cleanup};
ghost use Rattle.wb_meaning.specs.Operands.{within};
ghost use Rattle.wb_machine.specs.RunState.{with_debug};
ghost use Rattle.wb_machine.specs.Effects.{pointer_read, number_read, refused_effect, given_effect, alloc_effect};
ghost use Rattle.wb_machine.specs.Effects.{realloc_within, realloc_effect, usable_effect, free_effect};
ghost use Rattle.wb_machine.specs.Owed.{CarriesOut, KeepsCount, MayAttempt};

use crate::locals::{NULL, Slot};
use crate::operands::number_within;
use crate::pieces::Ending;
use crate::state::State;
use crate::words::is_raw;
use wb_basics::limits::{CEILING, LARGEST_REQUEST};
use wb_basics::memory::NoMemory;
use wb_heap_model::heap::{Gave, KERR_NO_MEMORY, Kind, Panic, Ptr};
use wb_meaning::run::Why;
use wb_tree::script::{Number, Pointer, Refusal, Script};

/// Whether a cell of this kind is the cell of a cleanup stack.
fn is_cleanup(kind: Kind) -> bool
    ensures { result ≡ is_cleanup kind }
{
    match kind {
        Kind::Cleanup => true,
        Kind::Raw | Kind::Object(_) | Kind::Text => false,
    }
}

impl State {
    /// Makes an attempt to get a cell for `bytes` bytes.
    ///
    /// The heap chooses the place first. Then the script's setting, the run's rule and the ceiling decide, in this order, whether the cell
    /// is granted. If the ceiling alone rules the cell out, or the workbench itself runs out of memory, the attempt isn't counted and
    /// nothing changes.
    pub fn attempt(&mut self, bytes: u32, kind: Kind) -> Result<Gave, NoMemory>
        requires bytes { bytes ≤ CEILING }
        requires text { kind ≡ Text → 1 ≤ bytes }
        requires number { MayAttempt self.old }
        ensures gave { IfOk result (λ gave. gave ≡ (alloc_made self.old.debug bytes kind).gave) }
        ensures made { OnOk result (self.new
            ≡ with_debug self.old (alloc_made self.old.debug bytes kind).debug) }
        ensures err { OnErr result (self.new ≡ self.old) }
        ensures level { self.new.debug.heap.level ≡ self.old.debug.heap.level }
        ensures keeps { KeepsCount self.old self.new }
    {
        self.heap.attempt_alloc(bytes, kind)
    }

    /// Reallocates a cell to `bytes` bytes. Making the cell longer is an attempt; making it shorter or keeping its length is no attempt.
    ///
    /// If the workbench itself runs out of memory, the attempt isn't counted, and nothing changes.
    fn attempt_again(&mut self, ptr: Ptr, bytes: u32) -> Result<Gave, NoMemory>
        requires live { IsSome (cell_at ptr self.old.debug.heap.row) }
        requires raw { IfSome (cell_at ptr self.old.debug.heap.row) (λ c. c.head.kind ≡ Raw) }
        requires bytes { bytes ≤ CEILING }
        requires number { MayAttempt self.old }
        ensures gave { IfOk result (λ gave. IfSome (cell_at ptr self.old.debug.heap.row) (λ c.
            gave ≡ (realloc_made self.old.debug c bytes).gave)) }
        ensures made { OnOk result (IfSome (cell_at ptr self.old.debug.heap.row) (λ c.
            self.new ≡ with_debug self.old (realloc_made self.old.debug c bytes).debug)) }
        ensures err { OnErr result (self.new ≡ self.old) }
        ensures keeps { KeepsCount self.old self.new }
    {
        self.heap.attempt_realloc(ptr, bytes)
    }

    /// Ends a statement whose attempt failed. As `refusal` says, either the target gets null, or the statement leaves with `KErrNoMemory`
    /// and the target keeps its value.
    #[inline(always)]
    fn refuse(&mut self, target: &Pointer, refusal: Refusal) -> Ending
        ensures { CarriesOut self.old (refused_effect self.old target.now refusal) result self.new }
    {
        match refusal {
            Refusal::GivesNull => {
                self.set_pointer(*target, NULL);
                Ending::GoesOn
            }
            Refusal::Leaves => Ending::Leaves(KERR_NO_MEMORY),
        }
    }

    /// Ends a statement after its attempt. The target gets a pointer to a granted cell, a failed attempt does what `refusal` says, and an
    /// attempt whose cell would end past the ceiling cuts the run.
    #[inline(always)]
    pub fn give(&mut self, target: &Pointer, refusal: Refusal, gave: Gave) -> Ending
        ensures { CarriesOut self.old (given_effect self.old target.now refusal gave) result
            self.new }
    {
        match gave {
            Gave::Granted(ptr) => {
                self.set_pointer(*target, ptr);
                Ending::GoesOn
            }
            Gave::Denied => self.refuse(target, refusal),
            Gave::Ceiling => Ending::Cut(Why::Ceiling),
        }
    }

    /// Allocates a cell for `bytes` bytes, and gives the target a pointer to the cell.
    #[inline(never)]
    pub fn alloc(
        &mut self,
        target: &Pointer,
        bytes: &Number,
        refusal: Refusal,
    ) -> Result<Ending, NoMemory>
        requires number { MayAttempt self.old }
        ensures effect { IfOk result (λ ending. CarriesOut self.old
            (alloc_effect self.old target.now refusal (number_read self.old bytes.now)) ending
            self.new) }
        ensures err { OnErr result (self.new ≡ self.old) }
        ensures keeps { KeepsCount self.old self.new }
    {
        let Some(bytes) = number_within(LARGEST_REQUEST, self.number(*bytes)) else {
            return Ok(Ending::Panics(Panic::NUMBER_OUT_OF_RANGE));
        };
        let gave = self.attempt(bytes, Kind::Raw)?;
        Ok(self.give(target, refusal, gave))
    }

    /// Reallocates a cell to `bytes` bytes, and gives the target the cell's pointer.
    fn resize(
        &mut self,
        target: &Pointer,
        ptr: Ptr,
        bytes: &Number,
        refusal: Refusal,
    ) -> Result<Ending, NoMemory>
        requires live { IsSome (cell_at ptr self.old.debug.heap.row) }
        requires raw { IfSome (cell_at ptr self.old.debug.heap.row) (λ c. c.head.kind ≡ Raw) }
        requires number { MayAttempt self.old }
        ensures effect { IfOk result (λ ending. IfSome (cell_at ptr self.old.debug.heap.row) (λ c.
            CarriesOut self.old (realloc_within self.old target.now refusal c
            (within LARGEST_REQUEST (number_read self.old bytes.now))) ending self.new)) }
        ensures err { OnErr result (self.new ≡ self.old) }
        ensures keeps { KeepsCount self.old self.new }
    {
        let Some(bytes) = number_within(LARGEST_REQUEST, self.number(*bytes)) else {
            return Ok(Ending::Panics(Panic::NUMBER_OUT_OF_RANGE));
        };
        let gave = self.attempt_again(ptr, bytes)?;
        Ok(self.give(target, refusal, gave))
    }

    /// Reallocates the source's cell to `bytes` bytes, and gives the target the cell's pointer. If the source is null, a new cell is
    /// allocated.
    #[inline(never)]
    pub fn realloc(
        &mut self,
        script: &Script,
        target: &Pointer,
        source: &Pointer,
        bytes: &Number,
        refusal: Refusal,
    ) -> Result<Ending, NoMemory>
        requires number { MayAttempt self.old }
        ensures effect { IfOk result (λ ending. CarriesOut self.old
            (realloc_effect self.old target.now refusal
            (pointer_read script.now self.old source.now) (number_read self.old bytes.now)) ending
            self.new) }
        ensures err { OnErr result (self.new ≡ self.old) }
        ensures keeps { KeepsCount self.old self.new }
    {
        let ptr = self.pointer(script, *source);
        if ptr.number == 0 {
            return self.alloc(target, bytes, refusal);
        }
        let Some(header) = self.heap.header(ptr) else {
            return Ok(Ending::Panics(Panic::BAD_CELL));
        };
        if !is_raw(header.kind) {
            return Ok(Ending::Panics(Panic::WRONG_KIND));
        }
        self.resize(target, ptr, bytes, refusal)
    }

    /// Puts the number of a cell's usable bytes into a number local.
    pub fn alloc_len(&mut self, script: &Script, local: u8, pointer: &Pointer) -> Ending
        ensures { CarriesOut self.old (usable_effect self.old local
            (pointer_read script.now self.old pointer.now)) result self.new }
    {
        let Some(header) = self.heap.header(self.pointer(script, *pointer)) else {
            return Ending::Panics(Panic::BAD_CELL);
        };
        let usable = header.length - 16;
        self.set(local, Slot::Number(usable.cast_signed()));
        Ending::GoesOn
    }

    /// Frees a cell that isn't the cleanup stack's.
    fn drop_cell(&mut self, ptr: Ptr)
        requires number { ptr.number ≢ 0 }
        requires live { IsSome (cell_at ptr self.old.debug.heap.row) }
        requires other { IfSome (cell_at ptr self.old.debug.heap.row) (λ c.
            is_cleanup c.head.kind ≡ false) }
        ensures { self.new
            ≡ with_debug self.old (with_row self.old.debug (without ptr self.old.debug.heap.row)) }
    {
        match self.heap.release(ptr) {
            Ok(()) => {}
            Err(_) => unreachable!(),
        }
    }

    /// Frees the cell that a pointer names; a null pointer frees nothing. Panics with USER 42 if the pointer names no live cell, or names
    /// the cleanup stack's cell.
    pub fn release(&mut self, ptr: Ptr) -> Ending
        ensures { CarriesOut self.old (free_effect self.old ptr) result self.new }
    {
        if ptr.number == 0 {
            return Ending::GoesOn;
        }
        let Some(header) = self.heap.header(ptr) else {
            return Ending::Panics(Panic::BAD_CELL);
        };
        if is_cleanup(header.kind) {
            return Ending::Panics(Panic::BAD_CELL);
        }
        self.drop_cell(ptr);
        Ending::GoesOn
    }

    /// Frees the cell that an operand names.
    #[inline(never)]
    pub fn free(&mut self, script: &Script, pointer: &Pointer) -> Ending
        ensures { CarriesOut self.old
            (free_effect self.old (pointer_read script.now self.old pointer.now)) result self.new }
    {
        self.release(self.pointer(script, *pointer))
    }
}
