//! Which changes of a script may mend what a run found, in the order in which they are to be tried.

use crate::runs::mends::aliases::{add_alias_null, add_copy_left_out, add_given_back};
use crate::runs::mends::anchors::{Anchor, anchors_of};
use crate::runs::mends::copied_releases::{add_copied_pops, add_copied_releases, add_moved_out};
use crate::runs::mends::counts_reset::add_count_reset;
use crate::runs::mends::destructors::{add_destroyed, add_remade};
use crate::runs::mends::done_by_item::{add_done_by_item, add_undo_left_out};
use crate::runs::mends::edits::Mend;
use crate::runs::mends::fresh_cells::{add_made_first, add_made_pushed, add_set_later};
use crate::runs::mends::fresh_values::add_fresh_value;
use crate::runs::mends::guards::add_only_if_fine;
use crate::runs::mends::held::add_items;
use crate::runs::mends::items::{add_null_item, add_one_item_less, add_pop};
use crate::runs::mends::kept_values::add_kept_values;
use crate::runs::mends::looks::{add_look, add_other_tests};
use crate::runs::mends::moves::{
    add_earlier, add_later, add_later_release, add_leaver_later, add_pushed_earlier,
};
use crate::runs::mends::null_leaves::add_freed_for_null;
use crate::runs::mends::nulls::{
    add_asks_leaving, add_checked, add_leaving, add_null_leaves, add_realloc_kept,
};
use crate::runs::mends::passed_pushes::add_for_passed;
use crate::runs::mends::pop_counts::add_pop_counts;
use crate::runs::mends::push_orders::{add_push_order, add_pushed_once};
use crate::runs::mends::release_orders::add_used_first;
use crate::runs::mends::releases::{
    add_freed_at_return, add_freed_first, add_left_out, add_released_once,
};
use crate::runs::mends::rooms::add_room;
use crate::runs::mends::sooner::{add_before_run, add_call_first, add_sooner};
use crate::runs::mends::split_pops::add_split_pops;
use crate::runs::mends::stored_back::add_stored_back;
use crate::runs::mends::taken_out::add_taken_out;
use crate::runs::mends::views::add_view_copied;
use std::alloc::{AllocError, Global};
use wb_heap_model::heap::Ptr;
use wb_history::{Life, ScriptLines, WatchedRun};
use wb_meaning::run::Outcome;

/// The most changes that are proposed in all, and up to each group of them, so that no group keeps out those that come after it.
const MOST_MENDS: usize = 150;

const MOST_MOVES: usize = 55;

const MOST_OF_LEAVES: usize = 100;

const MOST_OF_CELLS: usize = 125;

/// Changes that may mend a script, in the order in which they are to be tried.
#[derive(Drop)]
pub struct Mends<'a> {
    all: Vec<Mend<'a>>,
    /// How many changes there may be so far.
    most: usize,
}

impl<'a> Mends<'a> {
    /// Whether no further change is proposed.
    fn is_full(&self) -> bool {
        self.all.len() >= self.most
    }

    pub fn add(&mut self, mend: Mend<'a>) -> Result<(), AllocError> {
        if !self.is_full() {
            self.all.push(mend)?;
        }
        Ok(())
    }
}

/// Returns the changes that may mend what a run found. The only error is that memory ran out.
pub fn mends_of<'a>(
    alloc: Global,
    lines: &ScriptLines<'a>,
    run: &WatchedRun<'_>,
) -> Result<Vec<Mend<'a>>, AllocError> {
    let anchors = anchors_of(alloc, lines, run)?;
    let mut mends = Mends {
        all: Vec::new(alloc),
        most: MOST_MOVES,
    };
    add_for_owners(&mut mends, lines, run)?;
    add_of_lines(&mut mends, lines, anchors.as_slice(), run)?;
    add_freed_at_return(&mut mends, lines, run)?;
    add_moves_of(&mut mends, lines, anchors.as_slice(), run)?;
    mends.most = MOST_OF_LEAVES;
    add_for_leaves(alloc, &mut mends, lines, anchors.as_slice(), run)?;
    mends.most = MOST_OF_CELLS;
    add_for_cells(&mut mends, lines, anchors.as_slice(), run)?;
    add_taken_out(alloc, &mut mends, lines, run)?;
    mends.most = MOST_MENDS;
    add_for_lines(&mut mends, lines)?;
    for anchor in anchors.as_slice() {
        add_asks_leaving(&mut mends, lines, *anchor)?;
    }
    Ok(mends.all)
}

/// Proposes changes about what owns the cell that a panic or a leak is about.
fn add_for_owners<'a>(
    mends: &mut Mends<'a>,
    lines: &ScriptLines<'a>,
    run: &WatchedRun<'_>,
) -> Result<(), AllocError> {
    add_alias_null(mends, lines, run)?;
    add_view_copied(mends, lines, run)?;
    add_left_out(mends, lines, run)?;
    add_used_first(mends, lines, run)?;
    add_copy_left_out(mends, lines, run)?;
    add_given_back(mends, lines, run)?;
    add_count_reset(mends, lines, run)?;
    add_kept_values(mends, lines, run)?;
    add_pushed_once(mends, lines, run)?;
    add_push_order(mends, lines, run)?;
    add_remade(mends, lines, run)?;
    add_freed_first(mends, lines, true, run)
}

/// Proposes changes about lines that are done on one way alone, or twice.
fn add_of_lines<'a>(
    mends: &mut Mends<'a>,
    lines: &ScriptLines<'a>,
    anchors: &[Anchor],
    run: &WatchedRun<'_>,
) -> Result<(), AllocError> {
    for anchor in anchors {
        add_done_by_item(mends, lines, *anchor, run)?;
    }
    add_released_once(mends, lines, run)?;
    add_pop_counts(mends, lines, run)?;
    add_other_tests(mends, lines, anchors, run)?;
    add_for_passed(mends, lines, anchors, run)?;
    add_copied_releases(mends, lines, run)?;
    add_moved_out(mends, lines, run)?;
    add_copied_pops(mends, lines, run)
}

/// Proposes that lines come later or earlier than the statements at which a run went wrong.
fn add_moves_of<'a>(
    mends: &mut Mends<'a>,
    lines: &ScriptLines<'a>,
    anchors: &[Anchor],
    run: &WatchedRun<'_>,
) -> Result<(), AllocError> {
    for anchor in anchors {
        add_pushed_earlier(mends, lines, *anchor)?;
        if has_panicked(run) {
            add_before_run(mends, lines, *anchor)?;
        }
        add_call_first(mends, lines, *anchor)?;
        add_later(mends, lines, *anchor, run)?;
        add_earlier(mends, lines, *anchor)?;
        add_leaver_later(mends, lines, *anchor)?;
    }
    Ok(())
}

/// Proposes changes about what is done by half, or held by nothing, when a statement leaves.
fn add_for_leaves<'a>(
    alloc: Global,
    mends: &mut Mends<'a>,
    lines: &ScriptLines<'a>,
    anchors: &[Anchor],
    run: &WatchedRun<'_>,
) -> Result<(), AllocError> {
    if has_panicked(run) {
        add_stored_back(alloc, mends, lines, run)?;
        add_checked(mends, lines, run)?;
        add_for_fields(mends, lines, anchors)?;
    }
    for anchor in anchors {
        add_sooner(mends, lines, *anchor)?;
    }
    for anchor in anchors {
        add_leaving(mends, lines, *anchor)?;
        add_freed_for_null(mends, lines, *anchor)?;
        add_realloc_kept(mends, lines, *anchor)?;
        add_items(alloc, mends, lines, *anchor, run)?;
        add_split_pops(mends, lines, *anchor)?;
    }
    for anchor in anchors {
        add_look(mends, lines, *anchor)?;
        add_only_if_fine(mends, lines, *anchor, run)?;
        add_old_value(mends, lines, *anchor)?;
    }
    Ok(())
}

/// Proposes changes about fields that were changed by half when a statement left.
fn add_for_fields<'a>(
    mends: &mut Mends<'a>,
    lines: &ScriptLines<'a>,
    anchors: &[Anchor],
) -> Result<(), AllocError> {
    for anchor in anchors {
        add_made_first(mends, lines, *anchor)?;
        add_made_pushed(mends, lines, *anchor)?;
        add_set_later(mends, lines, *anchor)?;
        add_later_release(mends, lines, *anchor)?;
    }
    Ok(())
}

fn has_panicked(run: &WatchedRun<'_>) -> bool {
    match run.outcome {
        Outcome::Panicked(_) => true,
        _ => false,
    }
}

/// Proposes changes about the cell or the pointer that a leak or a panic is about.
fn add_for_cells<'a>(
    mends: &mut Mends<'a>,
    lines: &ScriptLines<'a>,
    anchors: &[Anchor],
    run: &WatchedRun<'_>,
) -> Result<(), AllocError> {
    add_freed_first(mends, lines, false, run)?;
    add_room(mends, lines, run)?;
    add_null_leaves(mends, lines, run)?;
    add_destroyed(mends, lines, run)?;
    for anchor in anchors {
        add_undo_left_out(mends, lines, *anchor)?;
    }
    add_fresh_value(mends, lines, run)
}

/// Proposes changes about single lines, wherever they stand.
fn add_for_lines<'a>(mends: &mut Mends<'a>, lines: &ScriptLines<'a>) -> Result<(), AllocError> {
    for line in 1..=lines.count() {
        add_null(mends, lines, line)?;
    }
    for line in 1..=lines.count() {
        if mends.is_full() {
            break;
        }
        add_one_item_less(mends, lines, line)?;
        add_pop(mends, lines, line)?;
        add_null_item(mends, lines, line)?;
    }
    Ok(())
}

/// Proposes that the pointer to which a `callto` gives its result is null before the call.
fn add_old_value<'a>(
    mends: &mut Mends<'a>,
    lines: &ScriptLines<'a>,
    anchor: Anchor,
) -> Result<(), AllocError> {
    if !anchor.has_left || lines.word(anchor.first, 0) != "callto" {
        return Ok(());
    }
    mends.add(Mend::OldValue {
        line: anchor.first,
        name: lines.word(anchor.first, 1),
    })
}

/// Returns the life of the cell that leaks with this index among those that leak; `None` if there is none.
pub fn leak_of(run: &WatchedRun<'_>, index: usize) -> Option<Life> {
    let Outcome::Ended { leaks, .. } = &run.outcome else {
        return None;
    };
    let leak = leaks.as_slice().get(index)?;
    run.history.lives.find(Ptr {
        place: leak.place,
        number: leak.number,
    })
}

/// Proposes that a field becomes null after a line that gives its cell away or releases it.
fn add_null<'a>(
    mends: &mut Mends<'a>,
    lines: &ScriptLines<'a>,
    line: u32,
) -> Result<(), AllocError> {
    let (name, other) = (lines.word(line, 1), lines.word(line, 2));
    match lines.word(line, 0) {
        "set" if other.contains('.') => mends.add(Mend::GivenAway { line, name: other }),
        "free" | "delete" if name.contains('.') && lines.word(line.saturating_add(1), 1) != name =>
            { mends.add(Mend::Released { line, name }) }
        _ => Ok(()),
    }
}
