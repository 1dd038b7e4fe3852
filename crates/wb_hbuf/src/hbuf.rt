//! The calls on texts in cells, and the call that edits a buffer. An edit of a buffer may read a text in a cell.

ghost use Rattle.std.specs.Prelude.{◌≡◌, ◌+◌, ◌*◌, ◌^◌, ◌<◌, ◌≤◌, ◌++◌, [], length, take, None, IfOk, IfSome, IsOk};
ghost use Rattle.std.specs.Prelude.{OnErr, OnOk};
ghost use Rattle.wb_hbuf.specs.Drafts.{IsEdited, IsMeasured};
ghost use Rattle.wb_hbuf.specs.Sources.{IsApart, IsForeign, IsReadableAlone, IsSource, SuitsEdit, cell_edited};
ghost use Rattle.wb_hbuf.specs.Sources.{edit_text, source_units};
ghost use Rattle.wb_heap_model.specs.Debug.{IsSoundDebug, alloc_made, answer_in};
ghost use Rattle.wb_heap_model.specs.Debug.{realloc_made};
ghost use Rattle.wb_heap_model.specs.Heap.{alloc_request, realloc_request};
ghost use Rattle.wb_heap_model.specs.Texts.{printed, printed_unit};
ghost use Rattle.wb_heap_model.specs.Row.{cell_at, cell_length};
ghost use Rattle.wb_heap_model.specs.TextCells.{IsGrantedText, IsRemadeText, IsTextAt, debug_edited, max_at, text_at};
ghost use Rattle.wb_heap_model.specs.Texts.{answer_of, at_most, delete_text, edited, set_length_text};

use crate::reading::{Part, count, foreign_unit};
use crate::sources::{Edit, Source};
use crate::writing::{open_gap, settle, write_units};
use arrayvec::ArrayVec;
use wb_basics::limits::MOST_UNITS;
use wb_basics::memory::NoMemory;
use wb_basics::printed_line::Line;
use wb_debug::DebugHeap;
use wb_heap_model::heap::{Gave, Kind, Panic, Ptr};
use wb_text::Buf;

/// Makes an attempt to get a cell for an empty text whose maximum length is at least `n` units.
///
/// Returns `Denied` and `Ceiling` in the same cases as the heap's `attempt_alloc`. Returns `NoMemory` if the workbench itself runs out of
/// memory; the heap is then as it was. `NoMemory` never comes in place of `Ceiling`. Source: Symbian OS v9 SDK reference, HBufC::New; this
/// project's profile for the length of the cell.
pub fn make(heap: &mut DebugHeap, n: u32) -> Result<Gave, NoMemory>
    requires units { n ≤ MOST_UNITS }
    requires number { heap.old.attempts + 1 < 2 ^ 32 }
    ensures gave { IfOk result (λ gave. gave ≡ (alloc_made heap.old (4 + 2 * n) Kind.Text).gave) }
    ensures made { OnOk result (heap.new ≡ (alloc_made heap.old (4 + 2 * n) Kind.Text).debug) }
    ensures cut { answer_in heap.old (alloc_request heap.old.heap (4 + 2 * n)) ≡ None →
        IsOk result }
    ensures empty { IfOk result (IsGrantedText heap.new []) }
    ensures err { OnErr result (heap.new ≡ heap.old) }
    ensures sound { IsSoundDebug heap.new }
{
    heap.attempt_alloc(4 + 2 * n, Kind::Text)
}

/// Changes the maximum length of a text: reallocates the text's cell for `n` units, and keeps the text. The text may have at most `n`
/// units.
///
/// Returns `Denied` and `Ceiling` in the same cases as the heap's `attempt_realloc`; the cell is then as it was. Returns `NoMemory` if the
/// workbench itself runs out of memory; the heap is then as it was. `NoMemory` comes only if the cell grows, and never in place of
/// `Ceiling`. Source: Symbian OS v9 SDK reference, HBufC::ReAlloc; this project's profile for the length of the cell.
pub fn remake(heap: &mut DebugHeap, ptr: Ptr, n: u32) -> Result<Gave, NoMemory>
    requires text { IsTextAt ptr heap.old }
    requires fits { length (text_at ptr heap.old) ≤ n }
    requires units { n ≤ MOST_UNITS }
    requires number { heap.old.attempts + 1 < 2 ^ 32 }
    ensures gave { IfOk result (λ gave. IfSome (cell_at ptr heap.old.heap.row) (λ c.
        gave ≡ (realloc_made heap.old c (4 + 2 * n)).gave)) }
    ensures made { OnOk result (IfSome (cell_at ptr heap.old.heap.row) (λ c.
        heap.new ≡ (realloc_made heap.old c (4 + 2 * n)).debug)) }
    ensures kept { IfOk result (IsRemadeText heap.new ptr (text_at ptr heap.old)) }
    ensures shorter { IfSome (cell_at ptr heap.old.heap.row) (λ c.
        cell_length (4 + 2 * n) ≤ c.head.length → IsOk result) }
    ensures cut { IfSome (cell_at ptr heap.old.heap.row) (λ c.
        answer_in heap.old (realloc_request heap.old.heap c.head (4 + 2 * n)) ≡ None →
        IsOk result) }
    ensures err { OnErr result (heap.new ≡ heap.old) }
    ensures sound { IsSoundDebug heap.new }
{
    heap.attempt_realloc(ptr, 4 + 2 * n)
}

/// How many units the text in a cell has. Source: Symbian OS v9 SDK reference, 16-bit descriptors.
pub fn length(heap: &DebugHeap, ptr: Ptr) -> u32
    requires { IsTextAt ptr heap.now }
    ensures { result ≡ length (text_at ptr heap.now) }
{
    heap.payload(ptr, 0)
}

/// How many units the text in a cell may have. Source: Symbian OS v9 SDK reference, HBufC::Des; this project's profile for the number.
pub fn max_len(heap: &DebugHeap, ptr: Ptr) -> u32
    requires { IsTextAt ptr heap.now }
    ensures { result ≡ max_at ptr heap.now }
{
    measure(heap, ptr).max
}

/// The length of the text in a cell, and its maximum length, in units.
#[derive(Clone, Copy)]
struct Measured {
    length: u32,
    max: u32,
}

fn measure(heap: &DebugHeap, ptr: Ptr) -> Measured
    requires { IsTextAt ptr heap.now }
    ensures { IsMeasured ptr heap.now result.length result.max }
{
    match heap.header(ptr) {
        Some(header) => Measured {
            length: length(heap, ptr),
            max: (header.usable() - 4) / 2,
        },
        None => unreachable!(),
    }
}

/// Changes the text in a cell with the units of a source. The units are read as they were before the edit.
///
/// Returns `Panic::POSITION_OUT_OF_BOUNDS` if the position of an insertion is past the text's end; otherwise `Panic::TOO_LONG` if the text
/// would be longer than its maximum length. After a panic the heap is as it was. Other cells never change. Source: Symbian OS v9 SDK
/// reference, 16-bit descriptors.
pub fn edit(heap: &mut DebugHeap, ptr: Ptr, change: Edit, source: Source) -> Result<(), Panic>
    requires text { IsTextAt ptr heap.old }
    requires source { IsSource heap.old source }
    requires apart { IsApart ptr source }
    requires suits { SuitsEdit change source }
    ensures answer { result ≡ answer_of (cell_edited heap.old ptr change source.entry) }
    ensures changed { heap.new
        ≡ debug_edited heap.old ptr (cell_edited heap.old ptr change source.entry) }
    ensures text { IsTextAt ptr heap.new }
    ensures now { OnOk result (cell_edited heap.old ptr change source.entry
        ≡ Ok (text_at ptr heap.new)) }
    ensures sound { IsSoundDebug heap.new }
{
    match change {
        Edit::Copy => overwrite(heap, ptr, 0, source),
        Edit::Append => append(heap, ptr, source),
        Edit::Insert(at) => insert(heap, ptr, at, source),
    }
}

/// Replaces all of the text from a position on by the units of a source.
fn overwrite(heap: &mut DebugHeap, ptr: Ptr, at: u32, source: Source) -> Result<(), Panic>
    requires text { IsTextAt ptr heap.old }
    requires source { IsSource heap.old source }
    requires apart { IsApart ptr source }
    requires within { at ≤ length (text_at ptr heap.old) }
    ensures { IsEdited ptr heap.old heap.new result
        (at_most (max_at ptr heap.old) (take at (text_at ptr heap.old)
        ++ source_units heap.old (text_at ptr heap.old) source.entry)) }
{
    let text = measure(heap, ptr);
    let n = count(source);
    if text.max - at < n {
        return Err(Panic::TOO_LONG);
    }
    write_units(heap, ptr, at, source);
    settle(heap, ptr, at + n);
    Ok(())
}

fn append(heap: &mut DebugHeap, ptr: Ptr, source: Source) -> Result<(), Panic>
    requires text { IsTextAt ptr heap.old }
    requires source { IsSource heap.old source }
    requires apart { IsApart ptr source }
    ensures { IsEdited ptr heap.old heap.new result
        (cell_edited heap.old ptr Edit.Append source.entry) }
{
    let end = length(heap, ptr);
    overwrite(heap, ptr, end, source)
}

fn insert(heap: &mut DebugHeap, ptr: Ptr, at: u32, source: Source) -> Result<(), Panic>
    requires text { IsTextAt ptr heap.old }
    requires source { IsSource heap.old source }
    requires apart { IsApart ptr source }
    requires foreign { IsForeign source }
    ensures { IsEdited ptr heap.old heap.new result
        (cell_edited heap.old ptr (Edit.Insert at) source.entry) }
{
    let text = measure(heap, ptr);
    if text.length < at {
        return Err(Panic::POSITION_OUT_OF_BOUNDS);
    }
    let n = count(source);
    if text.max - text.length < n {
        return Err(Panic::TOO_LONG);
    }
    open_gap(heap, ptr, at, n);
    write_units(heap, ptr, at, source);
    settle(heap, ptr, text.length + n);
    Ok(())
}

/// Removes `count` units from the text in a cell, from a position on. If the text has fewer than `count` units from the position on, the
/// call removes all of these units.
///
/// Returns `Panic::POSITION_OUT_OF_BOUNDS` if the position is past the text's end; the heap is then as it was. Units past the new end
/// become zero. Other cells never change. Source: Symbian OS v9 SDK reference, 16-bit descriptors.
pub fn delete(heap: &mut DebugHeap, ptr: Ptr, position: u32, count: u32) -> Result<(), Panic>
    requires { IsTextAt ptr heap.old }
    ensures answer { result ≡ answer_of (delete_text (text_at ptr heap.old) position count) }
    ensures changed { heap.new
        ≡ debug_edited heap.old ptr (delete_text (text_at ptr heap.old) position count) }
    ensures text { IsTextAt ptr heap.new }
    ensures now { OnOk result (delete_text (text_at ptr heap.old) position count
        ≡ Ok (text_at ptr heap.new)) }
    ensures sound { IsSoundDebug heap.new }
{
    let text = measure(heap, ptr);
    if text.length < position {
        return Err(Panic::POSITION_OUT_OF_BOUNDS);
    }
    let count = count.min(text.length - position);
    let following = position + count;
    write_units(
        heap,
        ptr,
        position,
        Source::Own(following, text.length - following),
    );
    settle(heap, ptr, text.length - count);
    Ok(())
}

/// Sets the length of the text in a cell. Units past the new length become zero, and a text that gets longer gains zeros.
///
/// Returns `Panic::TOO_LONG` if the new length is above the maximum length; the heap is then as it was. Other cells never change. Source:
/// Symbian OS v9 SDK reference, 16-bit descriptors.
pub fn set_length(heap: &mut DebugHeap, ptr: Ptr, n: u32) -> Result<(), Panic>
    requires { IsTextAt ptr heap.old }
    ensures answer { result
        ≡ answer_of (set_length_text (max_at ptr heap.old) (text_at ptr heap.old) n) }
    ensures changed { heap.new ≡ debug_edited heap.old ptr
        (set_length_text (max_at ptr heap.old) (text_at ptr heap.old) n) }
    ensures text { IsTextAt ptr heap.new }
    ensures now { OnOk result (set_length_text (max_at ptr heap.old) (text_at ptr heap.old) n
        ≡ Ok (text_at ptr heap.new)) }
    ensures sound { IsSoundDebug heap.new }
{
    if measure(heap, ptr).max < n {
        return Err(Panic::TOO_LONG);
    }
    settle(heap, ptr, n);
    Ok(())
}

/// Changes a buffer with the units of a source. The units are read as they were before the edit. If the source is a part of the text in a
/// cell, this cell must be in `heap`.
///
/// Returns `Panic::POSITION_OUT_OF_BOUNDS` if the position of an insertion is past the text's end; otherwise `Panic::TOO_LONG` if the text
/// would be longer than its maximum length. After a panic the buffer is as it was. Source: Symbian OS v9 SDK reference, 16-bit descriptors.
pub fn edit_buf(heap: &DebugHeap, buf: &mut Buf, change: Edit, source: Source) -> Result<(), Panic>
    requires source { IsSource heap.now source }
    requires suits { SuitsEdit change source }
    ensures text { buf.new ≡ edited buf.old (edit_text change buf.old.max buf.old.units
        (source_units heap.now buf.old.units source.entry)) }
    ensures answer { result ≡ answer_of (edit_text change buf.old.max buf.old.units
        (source_units heap.now buf.old.units source.entry)) }
{
    match source {
        Source::Own(from, count) => {
            let mut old = Buf::new(buf.max());
            match old.copy(buf) {
                Ok(()) => edit_by(
                    buf,
                    change,
                    Part {
                        heap,
                        source: Source::Buffer(&old, from, count),
                    },
                ),
                Err(_) => unreachable!(),
            }
        }
        _ => edit_by(buf, change, Part { heap, source }),
    }
}

/// Changes a buffer with a part of another text.
fn edit_by(buf: &mut Buf, change: Edit, part: Part) -> Result<(), Panic>
    requires { IsReadableAlone part.heap.now part.source }
    ensures text { buf.new ≡ edited buf.old (edit_text change buf.old.max buf.old.units
        (source_units part.entry.heap.now [] part.entry.source)) }
    ensures answer { result ≡ answer_of (edit_text change buf.old.max buf.old.units
        (source_units part.entry.heap.now [] part.entry.source)) }
{
    match change {
        Edit::Copy => buf.copy(&part),
        Edit::Append => buf.append(&part),
        Edit::Insert(at) => buf.insert(at, &part),
    }
}

/// Returns the byte that is printed for a unit: the unit itself if it is a printable ASCII character; otherwise a dot.
fn printed_unit(unit: u16) -> u8
    ensures { result ≡ printed_unit unit }
{
    if unit < 32 || 126 < unit {
        b'.'
    } else {
        unit as u8
    }
}

/// Returns the line that is printed for a source: its first 80 units, with a dot for each unit that isn't a printable ASCII character.
pub fn print_units(heap: &DebugHeap, source: Source) -> Line
    requires source { IsSource heap.now source }
    requires foreign { IsForeign source }
    ensures { result ≡ printed (source_units heap.now [] source.entry) }
{
    let mut line = ArrayVec::new();
    for i in 0..count(source).min(80) {
        line.push(printed_unit(foreign_unit(heap, source, i)));
    }
    Line::new(line)
}
