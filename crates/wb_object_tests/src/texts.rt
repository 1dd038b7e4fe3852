//! Edits of texts in two cells and in a buffer. So a table of edits describes worked texts.

ghost use Rattle.std.specs.Prelude.{◌≢◌, ◌≤◌, IfOk};
ghost use Rattle.wb_hbuf.specs.Sources.{IsApart, IsSource, SuitsEdit};
ghost use Rattle.wb_heap_model.specs.Debug.{IsSoundDebug};
ghost use Rattle.wb_heap_model.specs.TextCells.{IsTextAt};

use crate::literals::literal;
use std::alloc::{AllocError, Global};
use wb_basics::items::Chars;
use wb_basics::limits::MOST_UNITS;
use wb_basics::memory::NoMemory;
use wb_basics::printed_line::Line;
use wb_debug::DebugHeap;
use wb_hbuf::{Edit, Source, delete, edit, edit_buf, length, make, print_units, set_length};
use wb_heap_model::heap::{Gave, Panic, Ptr, Rule, Shape};
use wb_text::Buf;

/// Where a text is: in one of two cells, or in a buffer.
#[derive(Clone, Copy)]
pub(crate) enum Target {
    First,
    Second,
    Buffer,
}

/// The part of a text that an edit copies, appends or inserts, by its position and its length.
#[derive(Clone, Copy)]
pub(crate) enum Taken {
    /// A part of the literal `abcdefgXY`.
    Letters(u16, u16),
    /// A part of the text itself.
    Own(u16, u16),
    /// A part of the text in the other cell. If the edited text is in the buffer, a part of the text in the first cell.
    Other(u16, u16),
}

/// A change to a text.
#[derive(Clone, Copy)]
pub(crate) enum Change {
    Edit(Edit, Taken),
    Delete(u16, u16),
    SetLength(u16),
}

/// Two texts in cells, each for a number of units, a text in a buffer for 8 units, and changes to these texts that are made one after
/// another.
#[derive(Clone, Copy)]
pub(crate) struct WorkedTexts {
    /// What the changes show, in words.
    pub(crate) about: &'static str,
    pub(crate) first: u8,
    pub(crate) second: u8,
    /// Each change: the text that it changes, the change, its panic or `None` if it must not panic, and what the text prints afterwards.
    pub(crate) changes: &'static [(Target, Change, Option<Panic>, &'static [u8])],
}

/// The index of the first change whose result, or whose text afterwards, differs from the table; `None` if there is no such change.
pub(crate) fn first_other(alloc: Global, worked: &WorkedTexts) -> Result<Option<usize>, NoMemory> {
    let shape = Shape::new(0, 4096);
    let Ok(mut heap) = DebugHeap::new(alloc, Rule::Unlimited, shape) else {
        return Err(NoMemory::from(AllocError));
    };
    let letters = literal(alloc, b"abcdefgXY")?;
    let first = grant_text(&mut heap, u32::from(worked.first))?;
    let second = grant_text_beside(&mut heap, first, u32::from(worked.second))?;
    let mut buffer = Buf::new(8);
    for (index, (target, change, panic, text)) in worked.changes.iter().enumerate() {
        let letters = &letters;
        let answer = make_change(
            &mut heap,
            first,
            second,
            &mut buffer,
            letters,
            *target,
            *change,
        );
        let line = line_of(&heap, first, second, &buffer, *target);
        if answer.err() != *panic || line.as_slice() != *text {
            return Ok(Some(index));
        }
    }
    Ok(None)
}

/// Makes a change to one of the texts.
fn make_change(
    heap: &mut DebugHeap,
    first: Ptr,
    second: Ptr,
    buffer: &mut Buf,
    letters: &Chars,
    target: Target,
    change: Change,
) -> Result<(), Panic>
    requires first { IsTextAt first heap.old }
    requires second { IsTextAt second heap.old }
    requires apart { first ≢ second }
    requires other_apart { second ≢ first }
    ensures first { IsTextAt first heap.new }
    ensures second { IsTextAt second heap.new }
{
    match target {
        Target::First => change_cell(heap, first, second, letters, change),
        Target::Second => change_cell(heap, second, first, letters, change),
        Target::Buffer => change_buffer(heap, buffer, first, letters, change),
    }
}

/// What one of the texts prints.
fn line_of(heap: &DebugHeap, first: Ptr, second: Ptr, buffer: &Buf, target: Target) -> Line
    requires first { IsTextAt first heap.now }
    requires second { IsTextAt second heap.now }
{
    match target {
        Target::First => printed_line(heap, first),
        Target::Second => printed_line(heap, second),
        Target::Buffer => print_units(heap, Source::Buffer(buffer, 0, buffer.length())),
    }
}

/// What the text in a cell prints.
pub(crate) fn printed_line(heap: &DebugHeap, ptr: Ptr) -> Line
    requires { IsTextAt ptr heap.now }
{
    print_units(heap, Source::Cell(ptr, 0, length(heap, ptr)))
}

/// Changes the text in the buffer. The change may take units from the text in the cell that `ptr` names.
fn change_buffer(
    heap: &DebugHeap,
    buffer: &mut Buf,
    ptr: Ptr,
    letters: &Chars,
    change: Change,
) -> Result<(), Panic>
    requires { IsTextAt ptr heap.now }
{
    match change {
        Change::Edit(edit, Taken::Letters(at, n)) => {
            let source = Source::Literal(letters, u32::from(at), u32::from(n));
            edit_buf(heap, buffer, edit, source)
        }
        Change::Edit(edit, Taken::Other(at, n)) => {
            let source = Source::Cell(ptr, u32::from(at), u32::from(n));
            edit_buf(heap, buffer, edit, source)
        }
        Change::Edit(edit, Taken::Own(at, n)) => {
            let source = Source::Own(u32::from(at), u32::from(n));
            match edit {
                Edit::Copy => edit_buf(heap, buffer, Edit::Copy, source),
                Edit::Append => edit_buf(heap, buffer, Edit::Append, source),
                Edit::Insert(_) => Err(Panic::NUMBER_OUT_OF_RANGE),
            }
        }
        Change::Delete(at, n) => buffer.delete(u32::from(at), u32::from(n)),
        Change::SetLength(n) => buffer.set_length(u32::from(n)),
    }
}

/// Changes the text in a cell. The text in the other cell stays unchanged.
fn change_cell(
    heap: &mut DebugHeap,
    ptr: Ptr,
    other: Ptr,
    letters: &Chars,
    change: Change,
) -> Result<(), Panic>
    requires text { IsTextAt ptr heap.old }
    requires other { IsTextAt other heap.old }
    requires apart { other ≢ ptr }
    ensures text { IsTextAt ptr heap.new }
    ensures other { IsTextAt other heap.new }
{
    match change {
        Change::Edit(edit, Taken::Letters(at, n)) => {
            let source = Source::Literal(letters, u32::from(at), u32::from(n));
            edit_beside(heap, ptr, other, edit, source)
        }
        Change::Edit(edit, Taken::Other(at, n)) => {
            let source = Source::Cell(other, u32::from(at), u32::from(n));
            edit_beside(heap, ptr, other, edit, source)
        }
        Change::Edit(edit, Taken::Own(at, n)) => {
            let source = Source::Own(u32::from(at), u32::from(n));
            match edit {
                Edit::Copy => edit_beside(heap, ptr, other, Edit::Copy, source),
                Edit::Append => edit_beside(heap, ptr, other, Edit::Append, source),
                Edit::Insert(_) => Err(Panic::NUMBER_OUT_OF_RANGE),
            }
        }
        Change::Delete(at, n) => delete_beside(heap, ptr, other, u32::from(at), u32::from(n)),
        Change::SetLength(n) => set_length_beside(heap, ptr, other, u32::from(n)),
    }
}

fn edit_beside(
    heap: &mut DebugHeap,
    ptr: Ptr,
    other: Ptr,
    change: Edit,
    source: Source,
) -> Result<(), Panic>
    requires text { IsTextAt ptr heap.old }
    requires other { IsTextAt other heap.old }
    requires apart { other ≢ ptr }
    requires source { IsSource heap.old source }
    requires source_apart { IsApart ptr source }
    requires suits { SuitsEdit change source }
    ensures text { IsTextAt ptr heap.new }
    ensures other { IsTextAt other heap.new }
{
    edit(heap, ptr, change, source)
}

fn delete_beside(
    heap: &mut DebugHeap,
    ptr: Ptr,
    other: Ptr,
    position: u32,
    count: u32,
) -> Result<(), Panic>
    requires text { IsTextAt ptr heap.old }
    requires other { IsTextAt other heap.old }
    requires apart { other ≢ ptr }
    ensures text { IsTextAt ptr heap.new }
    ensures other { IsTextAt other heap.new }
{
    delete(heap, ptr, position, count)
}

fn set_length_beside(heap: &mut DebugHeap, ptr: Ptr, other: Ptr, n: u32) -> Result<(), Panic>
    requires text { IsTextAt ptr heap.old }
    requires other { IsTextAt other heap.old }
    requires apart { other ≢ ptr }
    ensures text { IsTextAt ptr heap.new }
    ensures other { IsTextAt other heap.new }
{
    set_length(heap, ptr, n)
}

/// Makes an empty text that may have `n` units.
pub(crate) fn grant_text(heap: &mut DebugHeap, n: u32) -> Result<Ptr, NoMemory>
    requires { n ≤ MOST_UNITS }
    ensures text { IfOk result (λ ptr. IsTextAt ptr heap.new) }
    ensures sound { IfOk result (λ _. IsSoundDebug heap.new) }
{
    if heap.attempts() == u32::MAX {
        return Err(NoMemory::from(AllocError));
    }
    match make(heap, n) {
        Ok(Gave::Granted(ptr)) => Ok(ptr),
        _ => Err(NoMemory::from(AllocError)),
    }
}

/// Makes an empty text in a new cell. The text in the cell that `other` names stays unchanged.
fn grant_text_beside(heap: &mut DebugHeap, other: Ptr, n: u32) -> Result<Ptr, NoMemory>
    requires sound { IsSoundDebug heap.old }
    requires other { IsTextAt other heap.old }
    requires most { n ≤ MOST_UNITS }
    ensures text { IfOk result (λ ptr. IsTextAt ptr heap.new) }
    ensures other { IfOk result (λ _. IsTextAt other heap.new) }
    ensures other_apart { IfOk result (λ ptr. other ≢ ptr) }
    ensures apart { IfOk result (λ ptr. ptr ≢ other) }
{
    if heap.attempts() == u32::MAX {
        return Err(NoMemory::from(AllocError));
    }
    match make(heap, n) {
        Ok(Gave::Granted(ptr)) if ptr != other => Ok(ptr),
        _ => Err(NoMemory::from(AllocError)),
    }
}
