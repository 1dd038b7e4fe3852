//! The locals of all frames, and what a local holds.

ghost use Rattle.std.specs.Prelude.{◌≡◌, ℕ, List, ◌∷◌, ◌++◌, [], map, length, slice_set, vec_len, ◌≤◌, IsTrue, IfOk};
ghost use Rattle.std.specs.Prelude.{OnOk};
ghost use Rattle.std.specs.List.{list_all};
ghost use Rattle.wb_heap_model.specs.Texts.{Buffer};
ghost use Rattle.wb_meaning.specs.Reading.{max_in};
ghost use Rattle.wb_meaning.specs.State.{initial};
ghost use Rattle.wb_machine.specs.RunState.{value_in};
ghost use Rattle.wb_machine.specs.LocalValues.{is_small, value_of, value_of_buffer, values_stored, no_buffer};
ghost use Rattle.wb_machine.specs.LocalValues.{stored_at, AreAscending, first_buffer, number_over};
ghost use Rattle.wb_machine.specs.LocalValues.{values_over, framed, unframed, buffer_in, window_in};
ghost use Rattle.wb_machine.specs.PointerOperands.{holder_pointer_over, pointer_over};

mod edits;
mod same;

use crate::arguments::{CallArguments, hand, number_over};
use crate::pointers::{ReadContext, holder_pointer_over, pointer_over};
use crate::windows::Window;
use std::alloc::{AllocError, Global};
use std::marker::Model;
use wb_heap_model::heap::Ptr;
use wb_text::buf::Buf;
use wb_tree::script::{Holder, Local, Number, Pointer};

/// The pointer that names no cell.
pub const NULL: Ptr = Ptr {
    place: 0,
    number: 0,
};

/// What a local holds if it holds no buffer. `NoBuffer` reads as an empty buffer of maximum 0, and takes no room.
#[derive(Clone, Copy)]
pub enum Slot {
    Pointer(Ptr),
    Number(i32),
    View(Window),
    NoBuffer,
}

/// The index of a buffer among the buffers of all frames.
#[derive(Clone, Copy)]
pub struct BufferIndex {
    at: usize,
}

/// A local as it is stored: what it holds, or the index of its buffer.
#[derive(Clone, Copy)]
pub enum Stored {
    Small(Slot),
    Buffer(BufferIndex),
}

/// The locals of all frames, with the locals of the innermost frame last. A local is named by its index in its frame.
pub struct Locals {
    slots: Vec<Stored>,
    /// The buffers of all frames, in the order of their locals.
    buffers: Vec<Buf>,
    /// The empty buffer of maximum 0 that is read if a local holds no buffer.
    none: Buf,
    /// Where the innermost frame begins in `slots`.
    base: usize,
}

/// This `drop` is written by hand, so that only this function goes over the fields. In a proof about a function that drops a `Locals`, the
/// drop is then a single call.
impl Drop for Locals {
    fn drop(self) {
        let Locals {
            slots: _,
            buffers: _,
            none: _,
            base: _,
        } = self;
    }
}

impl Model for Locals {
    ghost use Rattle.wb_machine.specs.LocalValues.{Frames, frames_in, IsWithin};

    ghost Value = { Frames };

    ghost view = { frames_in };

    ghost invariant = { IsWithin };
}

/// A copy of a buffer, with the same maximum and the same text.
pub fn copy_of(buf: &Buf) -> Buf
    ensures { result ≡ buf.now }
{
    let mut copy = Buf::new(buf.max());
    match copy.copy(buf) {
        Ok(()) => copy,
        Err(_) => unreachable!(),
    }
}

/// Makes copies of the buffers, in memory of their own. Returns `Err` if the workbench runs out of memory.
fn copies_of(buffers: &Vec<Buf>) -> Result<Vec<Buf>, AllocError>
    ensures { IfOk result (λ copies. copies.items ≡ buffers.now.items) }
{
    let mut copies = Vec::new(*buffers.allocator());
    for buf in buffers.as_slice() {
        copies.push(copy_of(buf))?;
    }
    Ok(copies)
}

/// Adds a local after the others, with a value that isn't a buffer.
pub fn push_slot(slots: &mut Vec<Stored>, slot: Slot) -> Result<(), AllocError>
    ensures pushed { (buffers : List Buffer) →
        OnOk result (values_stored buffers slots.new.items
        ≡ values_stored buffers slots.old.items ++ value_of slot ∷ []) }
    ensures ascending { (end : ℕ) → AreAscending 0 end slots.old.items →
        AreAscending 0 end slots.new.items }
    ensures more { vec_len slots.old ≤ vec_len slots.new }
{
    slots.push(Stored::Small(slot))?;
    Ok(())
}

/// Adds a local after the others, with its initial value.
fn declare_one(
    slots: &mut Vec<Stored>,
    buffers: &mut Vec<Buf>,
    local: Local,
) -> Result<(), AllocError>
    requires small { IsTrue (is_small local) }
    requires ascending { AreAscending 0 (vec_len buffers.old) slots.old.items }
    ensures declared { OnOk result (values_stored buffers.new.items slots.new.items
        ≡ values_stored buffers.old.items slots.old.items ++ initial local ∷ []) }
    ensures ascending { AreAscending 0 (vec_len buffers.new) slots.new.items }
    ensures more { vec_len slots.old ≤ vec_len slots.new }
{
    match local {
        Local::OfPointer(_) => push_slot(slots, Slot::Pointer(NULL)),
        Local::OfNumber => push_slot(slots, Slot::Number(0)),
        Local::OfBuffer(max) => {
            let at = buffers.len();
            buffers.push(Buf::new(u32::from(max)))?;
            slots.push(Stored::Buffer(BufferIndex { at }))?;
            Ok(())
        }
        Local::OfView => push_slot(slots, Slot::View(Window::nothing())),
    }
}

/// Adds locals after the others, with their initial values.
fn declare(
    slots: &mut Vec<Stored>,
    buffers: &mut Vec<Buf>,
    locals: &[Local],
) -> Result<(), AllocError>
    requires small { IsTrue (list_all is_small locals.now) }
    requires ascending { AreAscending 0 (vec_len buffers.old) slots.old.items }
    ensures declared { OnOk result (values_stored buffers.new.items slots.new.items
        ≡ values_stored buffers.old.items slots.old.items ++ map initial locals.now) }
    ensures ascending { AreAscending 0 (vec_len buffers.new) slots.new.items }
    ensures more { vec_len slots.old ≤ vec_len slots.new }
{
    for local in locals {
        declare_one(slots, buffers, *local)?;
    }
    Ok(())
}

/// The local that is stored at this index; the number 0 if no local is stored there.
#[inline(always)]
fn stored_at(slots: &[Stored], at: usize) -> Stored
    ensures { result ≡ stored_at slots.now at }
{
    match slots.get(at) {
        Some(stored) => *stored,
        None => Stored::Small(Slot::Number(0)),
    }
}

/// The index of a frame's first buffer among the buffers of all frames; `end` if the frame has no buffer.
fn first_buffer(frame: &[Stored], end: usize) -> usize
    ensures { result ≡ first_buffer end frame.now }
{
    for stored in frame {
        if let Stored::Buffer(index) = stored {
            return index.at;
        }
    }
    end
}

impl Locals {
    /// An empty list of locals, which takes no memory.
    pub fn new(alloc: Global) -> Locals
        ensures { result ≡ record { callers = []; locals = [] } }
    {
        Locals {
            slots: Vec::new(alloc),
            buffers: Vec::new(alloc),
            none: Buf::new(0),
            base: 0,
        }
    }

    /// Copies the locals into memory of their own. Returns `Err` if the workbench runs out of memory.
    pub fn try_copy(&self) -> Result<Locals, AllocError>
        ensures { IfOk result (λ copy. copy ≡ self.now) }
    {
        let mut slots = Vec::new(*self.slots.allocator());
        slots.extend_from_slice(self.slots.as_slice())?;
        Ok(Locals {
            slots,
            buffers: copies_of(&self.buffers)?,
            none: Buf::new(0),
            base: self.base,
        })
    }

    /// Adds a frame for a body, as the innermost frame. Returns where the caller's frame begins. Asks for memory only if the room for
    /// locals or the room for buffers is used up.
    #[inline(always)]
    pub fn call(
        &mut self,
        context: ReadContext,
        call_arguments: CallArguments,
        locals: &[Local],
    ) -> Result<usize, AllocError>
        requires { IsTrue (list_all is_small locals.now) }
        ensures frames { OnOk result (self.new ≡ framed self.old
            (values_over context.entry.script.now context.entry.heap.now context.entry.this
            self.old.locals call_arguments.entry) locals.now) }
        ensures caller { IfOk result (λ base. base ≡ length self.old.callers) }
    {
        let caller = self.base;
        let top = self.slots.len();
        hand(&mut self.slots, caller, context, call_arguments)?;
        declare(&mut self.slots, &mut self.buffers, locals)?;
        self.base = top;
        Ok(caller)
    }

    /// Drops the innermost frame, so that the caller's frame is the innermost again. The caller's frame begins at `base`, or where the
    /// dropped frame began if the dropped frame began below `base`.
    #[inline(always)]
    pub fn end_call(&mut self, base: usize)
        ensures { self.new ≡ unframed self.old base }
    {
        let end = first_buffer(&self.slots[self.base..], self.buffers.len());
        self.buffers.truncate(end);
        self.slots.truncate(self.base);
        self.base = base.min(self.base);
    }

    /// The pointer that a holder (a local or `self`) holds in a body of the object `this`; null if the local holds no pointer.
    #[inline(always)]
    pub fn holder_pointer(&self, this: Ptr, holder: Holder) -> Ptr
        ensures { result ≡ holder_pointer_over this self.now.locals holder }
    {
        holder_pointer_over(this, &self.slots[self.base..], holder)
    }

    /// The value of a pointer operand in the innermost frame; null if the operand names no pointer.
    #[inline(always)]
    pub fn pointer(&self, context: ReadContext, operand: Pointer) -> Ptr
        ensures { result ≡ pointer_over context.entry.script.now context.entry.heap.now
            context.entry.this self.now.locals operand }
    {
        pointer_over(context, &self.slots[self.base..], operand)
    }

    /// The value of a number operand in the innermost frame; 0 if the operand names no number.
    #[inline(always)]
    pub fn number(&self, operand: Number) -> i32
        ensures { result ≡ number_over self.now.locals operand }
    {
        number_over(&self.slots[self.base..], operand)
    }

    /// The buffer in a local of the innermost frame; an empty buffer of maximum 0 if the local holds no buffer.
    pub fn buffer(&self, index: u8) -> &Buf
        ensures { result.now ≡ buffer_in (value_in self.now.locals index) }
    {
        match stored_at(&self.slots, self.base + index as usize) {
            Stored::Buffer(place) => &self.buffers[place.at],
            Stored::Small(_) => &self.none,
        }
    }

    /// An empty buffer of maximum 0.
    pub fn no_buffer(&self) -> &Buf
        ensures { result.now ≡ no_buffer }
    {
        &self.none
    }

    /// The view in a local of the innermost frame; the empty view of no text if the local holds no view.
    pub fn view(&self, index: u8) -> Window
        ensures { result ≡ window_in (value_in self.now.locals index) }
    {
        match self.slots[self.base..].get(index as usize) {
            Some(Stored::Small(Slot::View(window))) => *window,
            _ => Window::nothing(),
        }
    }

    /// Puts a value into a local of the innermost frame. If the frame has no such local, nothing changes.
    #[inline(always)]
    pub fn set(&mut self, index: u8, slot: Slot)
        ensures { self.new
            ≡ record self.old { locals = slice_set self.old.locals index (value_of slot) } }
    {
        let at = self.base + index as usize;
        if at < self.slots.len() {
            self.slots[at] = Stored::Small(slot);
        }
    }

    /// Replaces the buffer in a local of the innermost frame by a buffer of the same maximum. A local without a buffer counts as holding a
    /// buffer of maximum 0. If the frame has no such local, nothing changes.
    fn set_buffer(&mut self, index: u8, buf: Buf)
        requires { buf.max ≡ max_in (value_in self.old.locals index) }
        ensures { self.new
            ≡ record self.old { locals = slice_set self.old.locals index (value_of_buffer buf) } }
    {
        match stored_at(&self.slots, self.base + index as usize) {
            Stored::Buffer(place) => self.buffers[place.at] = buf,
            Stored::Small(_) => {
                // a buffer of maximum 0 holds no unit
                let _ = buf.max();
                self.set(index, Slot::NoBuffer);
            }
        }
    }
}
