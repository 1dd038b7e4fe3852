//! Whether a statement that is about to begin asks for an attempt. No function in this file changes a state.

ghost use Rattle.std.specs.Prelude.{◌≡◌, ◌≤◌};
ghost use Rattle.wb_meaning.specs.Operands.{within};
ghost use Rattle.wb_heap_model.specs.Row.{cell_at};
ghost use Rattle.wb_basics.specs.declared.limits.TheConstants.{LARGEST_REQUEST, MOST_UNITS};
ghost use Rattle.wb_tree.specs.declared.script.Statement.TheViews.{out-Statement};
ghost use Rattle.wb_machine.specs.Effects.{pointer_read, number_read};
ghost use Rattle.wb_machine.specs.Asks.{cell_asks, text_asks, realloc_asks, realloc_text_asks, push_asks, effect_asks};
ghost use Rattle.wb_machine.specs.Asks.{statement_asks};

use crate::operands::number_within;
use crate::state::State;
use crate::text_operands::is_text;
use crate::words::is_raw;
use wb_basics::limits::{LARGEST_REQUEST, MOST_UNITS};
use wb_debug::cell_length;
use wb_heap_model::heap::Ptr;
use wb_tree::script::{Number, Pointer, Script, Statement};

impl State {
    /// Whether a pointer names a Raw cell that must become longer to hold `bytes` bytes.
    fn cell_asks(&self, ptr: Ptr, bytes: u32) -> bool
        requires { bytes ≤ LARGEST_REQUEST }
        ensures { result ≡ cell_asks bytes (cell_at ptr self.now.debug.heap.row) }
    {
        match self.heap.header(ptr) {
            Some(header) => is_raw(header.kind) && header.length < cell_length(bytes),
            None => false,
        }
    }

    /// Whether a pointer names the cell of a text that has at most `units` units, and the cell must become longer to hold `units` units.
    fn text_asks(&self, ptr: Ptr, units: u32) -> bool
        requires { units ≤ MOST_UNITS }
        ensures { result ≡ text_asks units (cell_at ptr self.now.debug.heap.row) }
    {
        match self.heap.header(ptr) {
            Some(header) if is_text(header.kind) => {
                wb_hbuf::length(&self.heap, ptr) <= units
                    && header.length < cell_length(4 + 2 * units)
            }
            _ => false,
        }
    }

    /// Whether reallocating the source's cell to `bytes` bytes asks for an attempt. If the source is null, reallocating allocates a new
    /// cell and so asks for an attempt. If the number of bytes is out of range, no attempt is asked for.
    fn realloc_asks(&self, script: &Script, source: Pointer, bytes: Number) -> bool
        ensures { result ≡ realloc_asks self.now (pointer_read script.now self.now source)
            (within LARGEST_REQUEST (number_read self.now bytes)) }
    {
        let ptr = self.pointer(script, source);
        match number_within(LARGEST_REQUEST, self.number(bytes)) {
            Some(bytes) => ptr.number == 0 || self.cell_asks(ptr, bytes),
            None => false,
        }
    }

    /// Whether reallocating the source's text for `units` units asks for an attempt.
    fn realloc_text_asks(&self, script: &Script, source: Pointer, units: Number) -> bool
        ensures { result ≡ realloc_text_asks self.now (pointer_read script.now self.now source)
            (within MOST_UNITS (number_read self.now units)) }
    {
        let ptr = self.pointer(script, source);
        match number_within(MOST_UNITS, self.number(units)) {
            Some(units) => self.text_asks(ptr, units),
            None => false,
        }
    }

    /// Whether a push asks for an attempt. A push does so exactly if it fills the last slot: then the cleanup stack's cell must become
    /// longer.
    fn push_asks(&self) -> bool
        ensures { result ≡ push_asks self.now }
    {
        match &self.cleanup {
            Some(stack) => stack.has_one_free(),
            None => false,
        }
    }

    /// Whether a statement asks for an attempt if it is carried out now. The function doesn't test whether an operand panics.
    fn effect_asks(&self, script: &Script, statement: &Statement) -> bool
        ensures { result ≡ effect_asks script.now self.now (out-Statement statement.now) }
    {
        match statement {
            Statement::Alloc(_, bytes, _) => {
                number_within(LARGEST_REQUEST, self.number(*bytes)).is_some()
            }
            Statement::Realloc(_, source, bytes, _) => self.realloc_asks(script, *source, *bytes),
            Statement::NewText(_, units, _) => {
                number_within(MOST_UNITS, self.number(*units)).is_some()
            }
            Statement::ReallocText(_, source, units) => {
                self.realloc_text_asks(script, *source, *units)
            }
            Statement::New(..) => true,
            Statement::Push(_) => self.push_asks(),
            Statement::PushObject(_) => self.push_asks(),
            Statement::PushOperation(..) => self.push_asks(),
            _ => false,
        }
    }

    /// Whether a statement asks for an attempt if it begins now. A statement with an operand that panics asks for no attempt.
    pub fn asks(&self, script: &Script, statement: &Statement) -> bool
        ensures { result ≡ statement_asks script.now self.now (out-Statement statement.now) }
    {
        self.operands_refusal(statement).is_none() && self.effect_asks(script, statement)
    }
}
