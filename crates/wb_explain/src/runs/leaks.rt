//! What is said about each leak: which line made the cell, and how the cell was lost.

use crate::runs::explanation::{FindingKind, Told};
use crate::runs::losses::put_loss;
use crate::runs::script_page::{ScriptPage, Written};
use wb_heap_model::heap::Ptr;
use wb_heap_model::reported::Leak;
use wb_history::{Life, ShortLine, WatchedRun};

/// The most leaks that are listed one by one.
const MOST_LEAKS: usize = 20;

/// Says for each leak, up to the most that are listed, which line made the cell. If one line made several of the cells, says only for the
/// first of them how it was lost.
pub fn put_leaks(page: &mut ScriptPage<'_>, leaks: &[Leak], run: &WatchedRun<'_>) -> Written {
    let (listed, _) = leaks.split_at_checked(MOST_LEAKS).unwrap_or((leaks, &[]));
    for leak in listed {
        if let Some(life) = life_of(*leak, run) {
            page.begin_finding(FindingKind::Leak, Told::Forwards)?;
            put_leak(page, *leak, life)?;
            if is_first(*leak, life.made, listed, run) {
                page.begin_way(life.made.number())?;
                put_loss(page, life, run)?;
            }
        }
    }
    page.share_ways();
    match leaks.len().saturating_sub(MOST_LEAKS) {
        0 => {}
        1 => page.page.write_file_text("1 more cell leaks"),
        more => page
            .page
            .write_file_message(format_args!("{more} more cells leak")),
    }
    Ok(())
}

/// The life of a cell that leaks.
fn life_of(leak: Leak, run: &WatchedRun<'_>) -> Option<Life> {
    run.history.lives.find(Ptr {
        place: leak.place,
        number: leak.number,
    })
}

/// Whether this is the first of these leaks that its line made.
fn is_first(leak: Leak, made: ShortLine, leaks: &[Leak], run: &WatchedRun<'_>) -> bool {
    for other in leaks {
        if other.number < leak.number
            && let Some(life) = life_of(*other, run)
            && life.made == made
        {
            return false;
        }
    }
    true
}

/// Says which line made a cell that leaks, and shows it with carets under the pointer that was set to the cell.
fn put_leak(page: &mut ScriptPage<'_>, leak: Leak, life: Life) -> Written {
    let made = if life.is_reallocated() {
        "made or moved"
    } else {
        "made"
    };
    let Leak {
        number,
        length,
        place,
    } = leak;
    page.mark_word(
        life.made.number(),
        1,
        format_args!(
            "leak: the cell of attempt {number}, {made} here, was never freed: {length} bytes at place {place}"
        ),
    )
}
