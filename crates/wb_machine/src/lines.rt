//! Statements that print, and statements that note figures of the heap.

ghost use Rattle.std.specs.Prelude.{◌≡◌, IfOk, OnOk};
ghost use Rattle.std.specs.Fmt.{signed_decimal};
ghost use Rattle.wb_machine.specs.declared.pieces.Ending.TheVariants.{GoesOn};
ghost use Rattle.wb_machine.specs.Effects.{gone_on, number_read, line_printed, with_note, heap_noted, available_noted};
ghost use Rattle.wb_machine.specs.Effects.{compress_noted};
ghost use Rattle.wb_machine.specs.Owed.{CarriesOut, KeepsCount};

use crate::pieces::Ending;
use crate::print::number_line;
use crate::state::State;
use wb_basics::memory::NoMemory;
use wb_basics::printed_line::Line;
use wb_heap_model::reported::Note;
use wb_tree::script::Number;

impl State {
    /// Prints a line.
    #[inline(never)]
    pub fn print(&mut self, line: Line) -> Result<Ending, NoMemory>
        ensures effect { IfOk result (λ ending.
            CarriesOut self.old (gone_on (line_printed self.old line)) ending self.new) }
        ensures keeps { KeepsCount self.old self.new }
    {
        self.lines.push(line)?;
        Ok(Ending::GoesOn)
    }

    /// Prints a number.
    pub fn print_number(&mut self, value: &Number) -> Result<Ending, NoMemory>
        ensures effect { IfOk result (λ ending. CarriesOut self.old
            (gone_on (line_printed self.old (signed_decimal (number_read self.old value.now))))
            ending self.new) }
        ensures keeps { KeepsCount self.old self.new }
    {
        let line = number_line(self.number(*value));
        self.print(line)
    }

    /// Adds a note to the notes of the run.
    fn note(&mut self, note: Note) -> Result<Ending, NoMemory>
        ensures effect { IfOk result (λ ending.
            CarriesOut self.old (gone_on (with_note self.old note)) ending self.new) }
        ensures keeps { KeepsCount self.old self.new }
    {
        self.notes.push(note)?;
        Ok(Ending::GoesOn)
    }

    /// Adds a note to the notes of the run: how many cells are live, the total length of these cells, and the committed length.
    pub fn note_heap(&mut self) -> Result<Ending, NoMemory>
        ensures effect { IfOk result (λ ending.
            CarriesOut self.old (gone_on (heap_noted self.old)) ending self.new) }
        ensures keeps { KeepsCount self.old self.new }
    {
        let note = self.heap.note_heap();
        self.note(note)
    }

    /// Adds a note to the notes of the run: how many bytes are free below the committed length, and how long the longest stretch of these
    /// bytes is.
    pub fn note_available(&mut self) -> Result<Ending, NoMemory>
        ensures effect { IfOk result (λ ending.
            CarriesOut self.old (gone_on (available_noted self.old)) ending self.new) }
        ensures keeps { KeepsCount self.old self.new }
    {
        let note = self.heap.note_available();
        self.note(note)
    }

    /// Compresses the heap, and adds a note to the notes of the run: by how many bytes the committed length became shorter.
    pub fn note_compress(&mut self) -> Result<Ending, NoMemory>
        ensures effect { IfOk result (λ ending.
            CarriesOut self.old (gone_on (compress_noted self.old)) ending self.new) }
        ensures keeps { KeepsCount self.old self.new }
    {
        let note = self.heap.note_compress();
        self.note(note)
    }
}
