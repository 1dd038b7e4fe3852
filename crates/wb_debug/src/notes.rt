//! Notes: what the statements `heap`, `available` and `compress` report. The lengths in notes are in bytes.

ghost use Rattle.std.specs.Prelude.{◌≡◌};
ghost use Rattle.wb_heap_model.specs.Debug.{IsSoundDebug, debug_compressed, note_of_available, note_of_compress};
ghost use Rattle.wb_heap_model.specs.Debug.{note_of_heap};

use crate::debug_heap::DebugHeap;
use wb_heap_model::reported::Note;

impl DebugHeap {
    /// Returns a note of the number of live cells, the sum of their cell lengths, and the committed length. Source: Symbian OS v9 SDK
    /// reference, RHeap, and this project's profile for the committed length.
    pub fn note_heap(&self) -> Note
        ensures { result ≡ note_of_heap self.now }
    {
        let (count, total) = self.heap.alloc_size();
        Note::Heap(count, total, self.heap.committed())
    }

    /// Returns a note of how many bytes below the committed length are free, and of the length of the longest free run. Source: Symbian OS
    /// v9 SDK reference, RHeap.
    pub fn note_available(&self) -> Note
        ensures { result ≡ note_of_available self.now }
    {
        let (total, longest) = self.heap.available();
        Note::Available(total, longest)
    }

    /// Gives up unused committed length above the last live cell, and returns a note of the number of bytes by which the committed length
    /// shrank. Source: Symbian OS v9 SDK reference, RHeap, and this project's profile for the lengths.
    pub fn note_compress(&mut self) -> Note
        ensures note { result ≡ note_of_compress self.old }
        ensures fallen { self.new ≡ debug_compressed self.old }
        ensures sound { IsSoundDebug self.new }
    {
        Note::Compress(self.heap.compress())
    }
}
