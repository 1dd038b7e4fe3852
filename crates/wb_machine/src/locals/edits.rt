//! Edits of the buffer in a local.

ghost use Rattle.std.specs.Prelude.{◌≡◌};
ghost use Rattle.wb_hbuf.specs.Sources.{IsSource, SuitsEdit, edit_text, source_units};
ghost use Rattle.wb_meaning.specs.Reading.{max_in};
ghost use Rattle.wb_heap_model.specs.Texts.{answer_of, delete_text, set_length_text};
ghost use Rattle.wb_machine.specs.BufferEdits.{frames_edited, frames_put_back};
ghost use Rattle.wb_machine.specs.LocalValues.{buffer_in};
ghost use Rattle.wb_machine.specs.RunState.{value_in};

use super::{Locals, Stored, copy_of, stored_at};
use wb_hbuf::DebugHeap;
use wb_hbuf::sources::{Edit, Source};
use wb_heap_model::heap::Panic;
use wb_text::buf::Buf;

/// These functions edit the buffer in a local, in place. An edit that panics leaves the buffer as it was.
impl Locals {
    /// Changes the buffer with the units of a source, as `change` says. If the source is a text in a cell, this cell is in `heap`.
    pub fn edit_buffer(
        &mut self,
        index: u8,
        heap: &DebugHeap,
        change: Edit,
        source: Source,
    ) -> Result<(), Panic>
        requires source { IsSource heap.now source }
        requires suits { SuitsEdit change source }
        ensures answer { let b = buffer_in (value_in self.old.locals index) in
            let us = source_units heap.now b.units source.entry in
            result ≡ answer_of (edit_text change b.max b.units us) }
        ensures locals { let b = buffer_in (value_in self.old.locals index) in
            let us = source_units heap.now b.units source.entry in
            self.new ≡ frames_edited self.old index b (edit_text change b.max b.units us) }
    {
        match stored_at(&self.slots, self.base + index as usize) {
            Stored::Buffer(place) => {
                wb_hbuf::edit_buf(heap, &mut self.buffers[place.at], change, source)
            }
            Stored::Small(_) => {
                let mut none = copy_of(self.buffer(index));
                let answer = wb_hbuf::edit_buf(heap, &mut none, change, source);
                self.put_back(index, none, answer)
            }
        }
    }

    /// Deletes `count` units of the buffer's text, from `position` on.
    pub fn delete_in_buffer(&mut self, index: u8, position: u32, count: u32) -> Result<(), Panic>
        ensures answer { let b = buffer_in (value_in self.old.locals index) in
            result ≡ answer_of (delete_text b.units position count) }
        ensures locals { let b = buffer_in (value_in self.old.locals index) in
            self.new ≡ frames_edited self.old index b (delete_text b.units position count) }
    {
        match stored_at(&self.slots, self.base + index as usize) {
            Stored::Buffer(place) => self.buffers[place.at].delete(position, count),
            Stored::Small(_) => {
                let mut none = copy_of(self.buffer(index));
                let answer = none.delete(position, count);
                self.put_back(index, none, answer)
            }
        }
    }

    /// Sets the length of the buffer's text, in units.
    pub fn set_buffer_length(&mut self, index: u8, length: u32) -> Result<(), Panic>
        ensures answer { let b = buffer_in (value_in self.old.locals index) in
            result ≡ answer_of (set_length_text b.max b.units length) }
        ensures locals { let b = buffer_in (value_in self.old.locals index) in
            self.new ≡ frames_edited self.old index b (set_length_text b.max b.units length) }
    {
        match stored_at(&self.slots, self.base + index as usize) {
            Stored::Buffer(place) => self.buffers[place.at].set_length(length),
            Stored::Small(_) => {
                let mut none = copy_of(self.buffer(index));
                let answer = none.set_length(length);
                self.put_back(index, none, answer)
            }
        }
    }

    /// Puts `buf` into a local that holds no buffer, unless the edit of `buf` panicked. `answer` is the result of this edit. Returns
    /// `answer`.
    fn put_back(&mut self, index: u8, buf: Buf, answer: Result<(), Panic>) -> Result<(), Panic>
        requires { buf.max ≡ max_in (value_in self.old.locals index) }
        ensures answer { result ≡ answer }
        ensures locals { self.new ≡ frames_put_back self.old index buf answer }
    {
        if answer.is_ok() {
            self.set_buffer(index, buf);
        }
        answer
    }
}
