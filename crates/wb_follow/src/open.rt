//! What is open in a run: items of the cleanup stack, TRAPs, turns of a `repeat`, and objects whose destructor runs. Items, TRAPs and turns
//! are kept with their lines.

use crate::before::{Before, Value, live_cell};
use crate::begun::{Begun, What};
use std::alloc::{AllocError, Global};
use wb_basics::limits::MOST_FRAMES;
use wb_heap_model::heap::{Header, Item, Ptr};
use wb_machine::Machine;
use wb_tree::script::Statement;
use wb_watch::{Ahead, has_panicked};

/// An item of the cleanup stack, and the line that pushed it.
#[derive(Clone, Copy)]
pub(crate) struct ItemAt {
    pub(crate) item: Item,
    pub(crate) line: u32,
}

/// A line, and how many bodies run while the line runs.
#[derive(Clone, Copy)]
pub(crate) struct At {
    pub(crate) line: u32,
    depth: u32,
}

/// A TRAP of the script, and how many items were on the cleanup stack when the TRAP began.
#[derive(Clone, Copy)]
pub(crate) struct TrapAt {
    pub(crate) at: At,
    pub(crate) items: u32,
}

/// A `repeat`, its position, and how many of its turns were begun.
#[derive(Clone, Copy)]
pub(crate) struct RepeatAt {
    line: u32,
    depth: u32,
    traps: usize,
    pub(crate) begun: i64,
    pub(crate) turns: i64,
}

/// The line of a statement that was begun, and whether the statement is a `callto` that no leave has ended.
#[derive(Clone, Copy)]
pub(crate) struct BegunAt {
    pub(crate) line: u32,
    pub(crate) calls_to: bool,
}

const NOT_BEGUN: BegunAt = BegunAt {
    line: 0,
    calls_to: false,
};

/// All things that are open in a run.
pub(crate) struct Open {
    items: Vec<ItemAt>,
    traps: Vec<TrapAt>,
    repeats: Vec<RepeatAt>,
    /// The cells of objects whose destructor runs, the innermost last. If the destructor freed its object's cell, the cell has number 0
    /// here.
    deleted: Vec<Header>,
    /// The place of the cleanup stack's cell.
    stack: u32,
    /// The object that the next machine turn begins to destroy; `None` if the next turn begins something else.
    doomed: Option<Doomed>,
    /// The line that caused the present destruction of items, and how many bodies run during the destruction.
    undone_at: At,
    /// The line and the depth of the last thing that was begun.
    last: At,
    /// The statement that was begun last at each depth; the depth is the number of bodies that run.
    lines: Vec<BegunAt>,
}

/// This `drop` is written by hand, so that dropping an `Open` is a single call in a proof. Only the proof of `drop` itself goes over the
/// fields.
impl Drop for Open {
    fn drop(self) {
        let Open {
            items: _,
            traps: _,
            repeats: _,
            deleted: _,
            stack: _,
            doomed: _,
            undone_at: _,
            last: _,
            lines: _,
        } = self;
    }
}

/// An object that is to be destroyed, with its cell. The cell is `None` if the pointer names no live cell.
#[derive(Clone, Copy)]
pub(crate) struct Doomed {
    pub(crate) pointer: Ptr,
    pub(crate) cell: Option<Header>,
}

const NOWHERE: At = At { line: 0, depth: 1 };

impl Open {
    /// Begins with nothing open. The only error is that memory ran out.
    pub(crate) fn new(alloc: Global) -> Result<Open, AllocError> {
        let mut lines = Vec::new(alloc);
        lines.resize(MOST_FRAMES as usize + 2, NOT_BEGUN)?;
        Ok(Open {
            items: Vec::new(alloc),
            traps: Vec::new(alloc),
            repeats: Vec::new(alloc),
            deleted: Vec::new(alloc),
            stack: 0,
            doomed: None,
            undone_at: NOWHERE,
            last: NOWHERE,
            lines,
        })
    }

    /// Returns the newest item on the cleanup stack; `None` if the cleanup stack is empty.
    pub(crate) fn newest(&self) -> Option<Item> {
        self.items.last().map(|it| it.item)
    }

    /// Returns how many objects' destructors run, and how many TRAPs are open.
    pub(crate) fn counts(&self) -> (usize, usize) {
        (self.deleted.len(), self.traps.len())
    }

    /// Returns the statement that was begun last at this depth.
    fn begun_at(&self, depth: u32) -> BegunAt {
        self.lines.get(depth as usize).copied().unwrap_or(NOT_BEGUN)
    }

    /// Finds out what the last machine turn began, brings the open things up to date, and returns what the turn began. The only error is
    /// that memory ran out.
    pub(crate) fn begin<'a>(
        &mut self,
        machine: &Machine<'a>,
        before: &Before<'a>,
    ) -> Result<Begun<'a>, AllocError> {
        let mut begun = self.begun_by(machine, before);
        begun.after = self.begun_at(begun.depth);
        self.last = At {
            line: begun.line,
            depth: begun.depth,
        };
        if let What::Statement(ahead) = begun.what {
            if let Some(at) = self.lines.get_mut(begun.depth as usize) {
                at.line = begun.line;
                at.calls_to = matches!(ahead.statement, Statement::CallTo(..));
            }
            if !has_panicked(machine) {
                self.see_statement(machine, before, ahead)?;
            }
        }
        self.see_destruction(machine, begun.what)?;
        Ok(begun)
    }

    /// Takes note of an object that is to be destroyed or whose destruction begins, or of a cell that the cleanup stack frees.
    fn see_destruction(&mut self, machine: &Machine<'_>, what: What<'_>) -> Result<(), AllocError> {
        match what {
            What::Item(
                ItemAt {
                    item: Item::Delete(object),
                    ..
                },
            ) => self.doom(machine, object),
            What::Item(
                ItemAt {
                    item: Item::Free(pointer),
                    ..
                },
            ) => self.forget(pointer),
            What::Object(
                Doomed {
                    cell: Some(cell),
                    ..
                },
            ) => self.deleted.push(cell)?,
            _ => {}
        }
        Ok(())
    }

    fn begun_by<'a>(&mut self, machine: &Machine<'a>, before: &Before<'a>) -> Begun<'a> {
        if machine.steps() == before.steps {
            let is_first = machine.steps() == 0 && machine.line() == 0;
            let what = if is_first { What::Run } else { What::Nothing };
            return begun_at(what, NOWHERE);
        }
        if let Some(ahead) = before.ahead {
            let at = At {
                line: machine.line(),
                depth: machine.depth(),
            };
            return begun_at(What::Statement(ahead), at);
        }
        if let Some(doomed) = self.doomed {
            self.doomed = None;
            return begun_at(What::Object(doomed), self.last);
        }
        if machine.cleanup_depth() < before.items
            && let Some(newest) = self.items.pop()
        {
            return begun_at(What::Item(newest), self.undone_at);
        }
        let repeat = self.next_turn();
        let at = At {
            line: repeat.line,
            depth: repeat.depth,
        };
        begun_at(What::TurnOf(repeat), at)
    }

    /// Returns the next turn of the innermost `repeat` that isn't over. Each `repeat` inside this one is over, and is removed from the list
    /// first.
    fn next_turn(&mut self) -> RepeatAt {
        for _ in 0..self.repeats.len() {
            if let Some(repeat) = self.repeats.last_mut()
                && repeat.begun < repeat.turns
            {
                repeat.begun = repeat.begun.saturating_add(1);
                return *repeat;
            }
            self.repeats.pop();
        }
        NO_REPEAT
    }

    fn see_statement<'a>(
        &mut self,
        machine: &Machine<'a>,
        before: &Before<'a>,
        ahead: Ahead<'a>,
    ) -> Result<(), AllocError> {
        if let Some(item) = ahead.item()
            && machine.cleanup_depth() > before.items
        {
            let line = self.last.line;
            self.items.push(ItemAt { item, line })?;
        }
        self.items.truncate(machine.cleanup_depth() as usize);
        match (ahead.statement, before.value) {
            (Statement::Delete(_), _) => self.doom(machine, ahead.source),
            (Statement::Free(_), _) => self.forget(ahead.source),
            (Statement::PopDestroy(_), _) => self.undone_at = self.last,
            (Statement::Trap(..), _) => self.traps.push(TrapAt {
                at: self.last,
                items: before.items,
            })?,
            (Statement::Repeat(..), Value::Number(turns)) => self.begin_repeat(turns)?,
            (Statement::Return | Statement::ReturnPointer(_), _) => self.end_repeats(),
            _ => {}
        }
        Ok(())
    }

    /// Takes note that the next machine turn begins to destroy this object, unless the pointer is null.
    fn doom(&mut self, machine: &Machine<'_>, pointer: Ptr) {
        if pointer.number != 0 {
            let cell = live_cell(machine, pointer);
            self.doomed = Some(Doomed { pointer, cell });
        }
    }

    fn begin_repeat(&mut self, turns: i64) -> Result<(), AllocError> {
        for _ in 0..self.repeats.len() {
            let is_over = self.repeats.last().is_some_and(|it| it.begun >= it.turns);
            if !is_over {
                break;
            }
            self.repeats.pop();
        }
        self.repeats.push(RepeatAt {
            line: self.last.line,
            depth: self.last.depth,
            traps: self.traps.len(),
            begun: 0,
            turns,
        })?;
        Ok(())
    }

    /// Removes every `repeat` of the body that returns.
    fn end_repeats(&mut self) {
        for _ in 0..self.repeats.len() {
            let depth = self.repeats.last().map_or(0, |it| it.depth);
            if depth < self.last.depth {
                break;
            }
            self.repeats.pop();
        }
    }

    /// Ends the innermost TRAP and all bodies and blocks inside this TRAP, because of a leave. The line that left becomes the line that
    /// caused the destruction of items. Returns the TRAP; `None` if the leave ends `main`.
    pub(crate) fn leave(&mut self) -> Option<TrapAt> {
        let caught = self.traps.pop();
        let traps = self.traps.len();
        for _ in 0..self.repeats.len() {
            let is_inside = match (caught, self.repeats.last()) {
                (Some(_), Some(last)) => last.traps > traps,
                (None, Some(_)) => true,
                (_, None) => false,
            };
            if !is_inside {
                break;
            }
            self.repeats.pop();
        }
        let depth = caught.map_or(1, |it| it.at.depth);
        if let Some(at) = self.lines.get_mut(depth as usize) {
            at.calls_to = false;
        }
        self.undone_at = At {
            line: self.last.line,
            depth,
        };
        caught
    }

    /// Removes the innermost TRAP if it has ended, and returns it; `None` if no TRAP has ended since the last call.
    pub(crate) fn next_ended(&mut self, machine: &Machine<'_>) -> Option<TrapAt> {
        if self.traps.len() > machine.open_traps() {
            self.traps.pop()
        } else {
            None
        }
    }

    /// If the innermost object has been destroyed, removes its cell from the list and returns the cell. Returns `None` if the object's
    /// destructor still runs, or if the destructor itself freed the cell.
    pub(crate) fn next_released(&mut self, machine: &Machine<'_>) -> Option<Header> {
        let newest = *self.deleted.last()?;
        if live_cell(machine, newest.pointer()).is_some() {
            return None;
        }
        self.deleted.pop();
        if newest.number == 0 {
            return None;
        }
        self.forget(newest.pointer());
        Some(newest)
    }

    /// Takes note that a cell is freed, because the cell may belong to an object whose destructor runs.
    fn forget(&mut self, pointer: Ptr) {
        for cell in self.deleted.as_mut_slice() {
            if cell.number == pointer.number {
                cell.number = 0;
            }
        }
    }

    /// Takes note of the new place of the cleanup stack's cell, and returns its old place.
    pub(crate) fn move_stack(&mut self, place: u32) -> u32 {
        let before = self.stack;
        self.stack = place;
        before
    }
}

const NO_REPEAT: RepeatAt = RepeatAt {
    line: 0,
    depth: 1,
    traps: 0,
    begun: 0,
    turns: 0,
};

fn begun_at<'a>(what: What<'a>, at: At) -> Begun<'a> {
    Begun {
        what,
        line: at.line,
        depth: at.depth,
        after: NOT_BEGUN,
    }
}
