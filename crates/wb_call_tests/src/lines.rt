//! The lines that report calls. Each line is written directly to standard output, so that printing takes no memory.

use crate::calls;
use crate::stop::Stop;
use wb_debug::DebugHeap;
use wb_heap_model::heap::{Attempt, Gave, Ptr};
use wb_heap_model::reported::{Leak, Note};

/// Prints the result of an attempt: the number and the place of the cell, or the reason why there is no cell. Then prints the state of the
/// heap.
pub(crate) fn write_gave(
    rt: &HostRuntime,
    call: &str,
    asked: u32,
    gave: Gave,
    heap: &DebugHeap,
) -> Result<(), Stop> {
    let told = match gave {
        Gave::Granted(cell) => {
            print!(rt; "{call} {asked}: cell {} at {}", cell.number, cell.place)
        }
        Gave::Denied => print!(rt; "{call} {asked}: denied"),
        Gave::Ceiling => print!(rt; "{call} {asked}: past the ceiling"),
    };
    told?;
    write_heap(rt, heap)
}

/// Ends a line with the state of a heap. The state is the number of attempts, the number of lines in the trace, the number of live cells
/// and of their bytes, and the committed length.
pub(crate) fn write_heap(rt: &HostRuntime, heap: &DebugHeap) -> Result<(), Stop> {
    let (live, bytes, committed) = match heap.note_heap() {
        Note::Heap(live, bytes, committed) => (live, bytes, committed),
        _ => (0, 0, 0),
    };
    println!(rt;
        ", attempts {}, trace {}, live {live} of {bytes}, committed {committed}",
        heap.attempts(),
        heap.trace().len()
    )?;
    Ok(())
}

/// Prints everything that a heap shows: its state, the free bytes, the trace, and the live cells with their words.
pub(crate) fn show(rt: &HostRuntime, name: &str, heap: &DebugHeap) -> Result<(), Stop> {
    print!(rt; "{name}")?;
    write_heap(rt, heap)?;
    show_free(rt, heap)?;
    show_trace(rt, heap.trace().as_slice())?;
    let cells = calls::live(heap)?;
    show_cells(rt, heap, cells.as_slice())
}

/// Prints how many bytes are free, and the length of the longest free stretch.
fn show_free(rt: &HostRuntime, heap: &DebugHeap) -> Result<(), Stop> {
    let (total, longest) = match heap.note_available() {
        Note::Available(total, longest) => (total, longest),
        _ => (0, 0),
    };
    println!(rt; "  free {total}, longest {longest}")?;
    Ok(())
}

/// Prints the lines of a trace.
fn show_trace(rt: &HostRuntime, trace: &[Attempt]) -> Result<(), Stop> {
    for line in trace {
        println!(rt;
            "  attempt {} length {} place {} {:?}",
            line.number, line.length, line.place, line.answer
        )?;
    }
    Ok(())
}

/// Prints the cells. Of each cell, only the words that aren't zero are printed.
fn show_cells(rt: &HostRuntime, heap: &DebugHeap, cells: &[Leak]) -> Result<(), Stop> {
    for cell in cells {
        println!(rt;
            "  cell {} length {} place {}",
            cell.number, cell.length, cell.place
        )?;
        let ptr = Ptr {
            place: cell.place,
            number: cell.number,
        };
        show_words(rt, heap, ptr)?;
    }
    Ok(())
}

/// Prints the level of a cell, and the cell's words that aren't zero.
fn show_words(rt: &HostRuntime, heap: &DebugHeap, ptr: Ptr) -> Result<(), Stop> {
    let Some(header) = heap.header(ptr) else {
        return Ok(());
    };
    println!(rt; "    level {}", header.level)?;
    for i in 0..header.words() {
        let word = heap.payload(ptr, i);
        if word != 0 {
            println!(rt; "    word {i} is {word}")?;
        }
    }
    Ok(())
}
