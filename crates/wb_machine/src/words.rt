//! Statements on the words of Raw cells.

ghost use Rattle.std.specs.Prelude.{◌≡◌, ◌<◌, true, length, slice_set, IfSome};
ghost use Rattle.wb_heap_model.specs.Row.{cell_at};
ghost use Rattle.wb_heap_model.specs.CellRow.{payload_of};
ghost use Rattle.wb_heap_model.specs.Debug.{debug_changed};
ghost use Rattle.wb_heap_model.specs.Spelling.{signed};
ghost use Rattle.wb_meaning.specs.State.{number};
ghost use Rattle.wb_meaning.specs.Statements.{is_raw};
ghost use Rattle.wb_machine.specs.RunState.{with_debug};
ghost use Rattle.wb_machine.specs.Effects.{pointer_read, number_read, stored, store_effect, load_effect};
ghost use Rattle.wb_machine.specs.Owed.{CarriesOut, KeepsCount};

use crate::locals::Slot;
use crate::operands::word_within;
use crate::pieces::Ending;
use crate::state::State;
use wb_heap_model::heap::{Kind, Panic, Ptr};
use wb_tree::script::{Number, Pointer, Script};

/// Whether cells of a kind hold words that the script stores itself.
pub fn is_raw(kind: Kind) -> bool
    ensures { result ≡ is_raw kind }
{
    match kind {
        Kind::Raw => true,
        Kind::Object(_) | Kind::Cleanup | Kind::Text => false,
    }
}

impl State {
    /// Puts a value into a word of a Raw cell.
    fn set_word(&mut self, ptr: Ptr, word: u32, value: u32)
        requires within { word < length (payload_of ptr self.old.debug.heap.row) }
        requires raw { IfSome (cell_at ptr self.old.debug.heap.row) (λ c.
            is_raw c.head.kind ≡ true) }
        ensures changed { self.new ≡ with_debug self.old
            (debug_changed self.old.debug ptr
            (slice_set (payload_of ptr self.old.debug.heap.row) word value)) }
        ensures keeps { KeepsCount self.old self.new }
    {
        self.heap.set_payload(ptr, word, value);
    }

    /// Stores a number in a word of a Raw cell.
    #[inline(never)]
    pub fn store(
        &mut self,
        script: &Script,
        pointer: &Pointer,
        index: &Number,
        value: i32,
    ) -> Ending
        ensures { CarriesOut self.old (store_effect self.old
            (pointer_read script.now self.old pointer.now) (number_read self.old index.now) value)
            result self.new }
    {
        let ptr = self.pointer(script, *pointer);
        let Some(header) = self.heap.header(ptr) else {
            return Ending::Panics(Panic::NULL_OR_STALE);
        };
        if !is_raw(header.kind) {
            return Ending::Panics(Panic::WRONG_KIND);
        }
        let Some(word) = word_within(header.length - 16, self.number(*index)) else {
            return Ending::Panics(Panic::NUMBER_OUT_OF_RANGE);
        };
        self.set_word(ptr, word, value.cast_unsigned());
        Ending::GoesOn
    }

    /// Puts a word into a number local, as a signed number.
    fn set_loaded(&mut self, local: u8, word: u32)
        ensures stored { self.new ≡ stored self.old local (number (signed word)) }
        ensures keeps { KeepsCount self.old self.new }
    {
        self.set(local, Slot::Number(word.cast_signed()));
    }

    /// Puts a word of a Raw cell into a number local, as a signed number.
    #[inline(never)]
    pub fn load(&mut self, script: &Script, local: u8, pointer: &Pointer, index: &Number) -> Ending
        ensures { CarriesOut self.old (load_effect self.old local
            (pointer_read script.now self.old pointer.now) (number_read self.old index.now)) result
            self.new }
    {
        let ptr = self.pointer(script, *pointer);
        let Some(header) = self.heap.header(ptr) else {
            return Ending::Panics(Panic::NULL_OR_STALE);
        };
        if !is_raw(header.kind) {
            return Ending::Panics(Panic::WRONG_KIND);
        }
        let Some(at) = word_within(header.length - 16, self.number(*index)) else {
            return Ending::Panics(Panic::NUMBER_OUT_OF_RANGE);
        };
        let value = self.heap.payload(ptr, at);
        self.set_loaded(local, value);
        Ending::GoesOn
    }
}
