//! What text operands stand for: a buffer, a cell, a literal, or a view of one of these.

ghost use Rattle.std.specs.Prelude.{◌≡◌, ◌+◌, ◌^◌, ◌<◌, ℕ, List, Some, None, false, length, IsTrue};
ghost use Rattle.wb_meaning.specs.Reading.{is_same_base};
ghost use Rattle.wb_tree.specs.Sound.{is_script};
ghost use Rattle.wb_heap_model.specs.declared.heap.Ptr.{Ptr};
ghost use Rattle.wb_heap_model.specs.declared.text.Base.TheVariants as B;
ghost use Rattle.wb_hbuf.specs.Sources.{IsApart, IsForeign, IsSource, source_units};
ghost use Rattle.wb_machine.specs.RunState.{RunState};
ghost use Rattle.wb_machine.specs.TextOperands.{base_named, is_text, base_refusal, base_text, window_units};
ghost use Rattle.wb_machine.specs.TextOperands.{window_found, whole_of, unless_gone, buffer_under};

use crate::state::State;
use crate::windows::Window;
use wb_hbuf::sources::Source;
use wb_heap_model::heap::{Kind, Panic};
use wb_text::{Base, Buf, View};
use wb_tree::script::{Readable, Script, Writable};

/// Whether a cell of this kind holds a text.
pub fn is_text(kind: Kind) -> bool
    ensures { result ≡ is_text kind }
{
    match kind {
        Kind::Text => true,
        Kind::Raw | Kind::Object(_) | Kind::Cleanup => false,
    }
}

/// Whether two bases name the same buffer or the same cell. For two literals the result is `false`, because a literal can't be changed.
pub fn is_same_base(one: Base, other: Base) -> bool
    ensures { result ≡ is_same_base one other }
{
    match (one, other) {
        (Base::Local(i), Base::Local(j)) => i == j,
        (Base::Cell(p), Base::Cell(q)) => p.place == q.place && p.number == q.number,
        _ => false,
    }
}

/// How many units a literal has.
fn literal_length(script: &Script, index: u32) -> u32
    requires { IsTrue (is_script script.now) }
    ensures length { (h : RunState) →
        result ≡ length (base_text script.now.literals h (B.Literal index)) }
    ensures most { result < 2 ^ 31 }
{
    match script.literals.get(index as usize) {
        Some(chars) => chars.len() as u32,
        None => 0,
    }
}

impl State {
    /// The base of a text operand that can be changed: a buffer in a local, or a cell.
    pub fn base(&self, script: &Script, text: Writable) -> Base
        ensures { result ≡ base_named script.now self.now text }
    {
        match text {
            Writable::OwnBuffer(index) => Base::Local(index),
            Writable::InCell(pointer) => Base::Cell(self.pointer(script, pointer)),
        }
    }

    /// The panic of a base, if the base is a cell that is gone or holds no text; `None` for any other base.
    pub fn refusal(&self, base: Base) -> Option<Panic>
        ensures { result ≡ base_refusal self.now base }
    {
        let Base::Cell(ptr) = base else {
            return None;
        };
        match self.heap.header(ptr) {
            None => Some(Panic::NULL_OR_STALE),
            Some(header) if is_text(header.kind) => None,
            Some(_) => Some(Panic::WRONG_KIND),
        }
    }

    /// The buffer that a base names; an empty buffer if the base is no buffer.
    pub fn buffer(&self, base: Base) -> &Buf
        ensures { result.now ≡ buffer_under self.now base }
    {
        match base {
            Base::Local(index) => self.locals.buffer(index),
            Base::Nothing | Base::Literal(_) | Base::Cell(_) => self.locals.no_buffer(),
        }
    }

    /// How many units the text of a base has.
    fn base_length(&self, script: &Script, base: Base) -> u32
        requires script { IsTrue (is_script script.now) }
        requires base { base_refusal self.now base ≡ None }
        ensures length { result ≡ length (base_text script.now.literals self.now base) }
        ensures most { result < 2 ^ 31 }
    {
        match base {
            Base::Nothing => 0,
            Base::Literal(index) => literal_length(script, index),
            Base::Local(index) => self.locals.buffer(index).length(),
            Base::Cell(ptr) => match self.heap.header(ptr) {
                Some(_) => wb_hbuf::length(&self.heap, ptr),
                None => unreachable!(),
            },
        }
    }

    /// The view `window`, or the panic of the view's base.
    fn view_or_refusal(&self, window: Window) -> Result<Window, Panic>
        ensures { result ≡ unless_gone (base_refusal self.now window.base) window }
    {
        match self.refusal(window.view().base) {
            Some(panic) => Err(panic),
            None => Ok(window),
        }
    }

    /// A view of the whole text of a base, or the panic of the base.
    fn whole_or_refusal(&self, script: &Script, base: Base) -> Result<Window, Panic>
        requires { IsTrue (is_script script.now) }
        ensures { result ≡ unless_gone (base_refusal self.now base)
            (whole_of script.now.literals self.now base) }
    {
        match self.refusal(base) {
            Some(panic) => Err(panic),
            None => Ok(Window::whole(base, self.base_length(script, base))),
        }
    }

    /// A view of what a readable text shows, or the panic of the text's base.
    pub fn window(&self, script: &Script, text: Readable) -> Result<Window, Panic>
        requires { IsTrue (is_script script.now) }
        ensures { result ≡ window_found script.now self.now text }
    {
        match text {
            Readable::Of(target) => self.whole_or_refusal(script, self.base(script, target)),
            Readable::ViewOf(index) => self.view_or_refusal(self.locals.view(index)),
            Readable::Quoted(index) => self.whole_or_refusal(script, Base::Literal(index)),
        }
    }

    /// The units that a view shows, as the source of an edit or of a printed line. `buf` is the buffer of the view's base, or a copy of
    /// that buffer.
    pub fn source<'a>(&self, script: &'a Script, buf: &'a Buf, view: View) -> Source<'a>
        requires base { base_refusal self.now view.base ≡ None }
        requires buf { buf.now ≡ buffer_under self.now view.base }
        requires ends { view.position + view.length < 2 ^ 32 }
        ensures source { IsSource self.now.debug result }
        ensures foreign { IsForeign result }
        ensures apart { (p : Ptr) → is_same_base (B.Cell p) view.base ≡ false → IsApart p result }
        ensures units { (own : List ℕ) → source_units self.now.debug own result
            ≡ window_units script.now.literals self.now view }
    {
        let _ = &self.heap;
        match view.base {
            Base::Literal(index) => match script.literals.get(index as usize) {
                Some(chars) => Source::Literal(chars, view.position, view.length),
                None => Source::Buffer(buf, view.position, view.length),
            },
            Base::Cell(ptr) => Source::Cell(ptr, view.position, view.length),
            Base::Nothing | Base::Local(_) => Source::Buffer(buf, view.position, view.length),
        }
    }
}
