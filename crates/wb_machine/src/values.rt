//! What a machine shows to callers that explain a run: the statement begun last, what its operands hold, and the panic that ended the run.
//! A statement that panics changes nothing before the panic, so its operands hold what they held when the statement began.

ghost use Rattle.std.specs.Prelude.{◌≡◌, option_map, Any, IfSome};
ghost use Rattle.wb_heap_model.specs.Row.{cell_at, usable_of};
ghost use Rattle.wb_machine.specs.Effects.{pointer_read};

use crate::machine::Machine;
use crate::raiser::Raised;
use crate::state::State;
use wb_heap_model::heap::Ptr;
use wb_tree::script::{Number, Pointer, Readable, Script, Statement, Writable};

impl<'a> Machine<'a> {
    /// The statement begun last; `None` before the first statement.
    pub fn statement(&self) -> Option<&'a Statement> {
        self.control.statement()
    }

    /// The statement that the next machine turn begins if the budget lasts; `None` if the turn begins no statement.
    pub fn next_statement(&self) -> Option<&'a Statement> {
        self.control.next_statement()
    }

    /// How many bodies were running when the last statement began: 1 in `main`, and 0 before the first statement.
    pub fn depth(&self) -> u32 {
        self.control.depth()
    }

    /// The panic that ended the run; `None` if no panic ended it.
    pub fn raised_panic(&self) -> Option<Raised> {
        self.control.raised_panic()
    }

    /// The value of a pointer operand, in the innermost body; null if the operand names no pointer.
    pub fn pointer(&self, operand: Pointer) -> Ptr {
        self.state.pointer(self.script, operand)
    }

    /// The value of a number operand, in the innermost body; 0 if the operand names no number.
    pub fn number(&self, operand: Number) -> i32 {
        self.state.number(operand)
    }

    /// How many units a text has; `None` if the text can't be read, or after `NoMemory`.
    pub fn length(&self, text: Readable) -> Option<u32> {
        if self.failed.is_some() {
            return None;
        }
        match self.state.window(self.script, text) {
            Ok(window) => Some(window.view().length),
            Err(_) => None,
        }
    }

    /// How many units a text may have; `None` if the text can't be read.
    pub fn maximum(&self, text: Writable) -> Option<u32> {
        let base = self.state.base(self.script, text);
        match self.state.refusal(base) {
            None => Some(self.state.max_of(base)),
            Some(_) => None,
        }
    }

    /// How many bytes of a cell can be used; `None` if the pointer names no live cell.
    pub fn bytes(&self, pointer: Pointer) -> Option<u32>
        ensures { IfSome result (λ bytes. Any (λ h. usable_of h ≡ bytes) self.now.live) }
    {
        self.state.usable(self.script, pointer)
    }
}

impl State {
    /// How many bytes of the cell that an operand names can be used; `None` if the operand names no live cell.
    fn usable(&self, script: &Script, operand: Pointer) -> Option<u32>
        ensures { result ≡ option_map (λ c. usable_of c.head)
            (cell_at (pointer_read script.now self.now operand) self.now.debug.heap.row) }
    {
        match self.heap.header(self.pointer(script, operand)) {
            Some(header) => Some(header.usable()),
            None => None,
        }
    }
}
