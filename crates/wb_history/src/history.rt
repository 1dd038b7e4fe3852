//! What happened in a run so far, and where the run is. After each machine turn, the run's watcher tells a history in plain values what the
//! turn did; a history never looks at a machine.

mod carried;
mod cells;

use crate::attempts::{Attempts, Keep};
use crate::bodies::Bodies;
use crate::calls::Calls;
use crate::course::Course;
use crate::items::{ItemOnStack, ItemsOnStack};
use crate::lives::{By, Lives};
use crate::marks::Marks;
use crate::moments::Moment;
use crate::raiser::{Raised, Raiser};
use crate::statements::NULL;
use crate::traps::Traps;
use crate::views::Views;
use crate::word_uses::WordUses;
use crate::writes::Writes;
use std::alloc::{AllocError, Global};
use wb_heap_model::heap::{Ptr, Rule};
use wb_tree::script::{Script, Statement};

/// The statement that was begun last outside of operations and destructors.
#[derive(Clone, Copy)]
struct Outside<'a> {
    line: u32,
    statement: Option<&'a Statement>,
    /// How many bodies ran at this statement, and the call path to its line.
    depth: u32,
    path: u32,
    /// How many bodies ran when the first line after this statement began.
    inside: u32,
}

/// What happened in a run so far.
pub struct History<'a> {
    pub attempts: Attempts<'a>,
    pub lives: Lives,
    pub items: ItemsOnStack,
    pub traps: Traps,
    pub marks: Marks,
    pub views: Views,
    pub writes: Writes,
    pub word_uses: WordUses,
    pub calls: Calls<'a>,
    pub bodies: Bodies,
    pub course: Course,
    /// The item that the cleanup stack destroyed last, and the object whose deletion ended last.
    pub last_item: Option<ItemOnStack>,
    pub last_deleted: Ptr,
    steps: u32,
    /// The line that was begun last, and whether this line is in a body that undoes (an operation or a destructor).
    last: u32,
    undoes: bool,
    /// The statement that was begun last before the run entered a body that undoes.
    outside: Outside<'a>,
}

/// Written by hand, so that dropping such a value is a single call in a proof. Only this function goes over
/// the fields.
impl Drop for History<'_> {
    fn drop(self) {
        let History {
            attempts: _,
            lives: _,
            items: _,
            traps: _,
            marks: _,
            views: _,
            writes: _,
            word_uses: _,
            calls: _,
            bodies: _,
            course: _,
            last_item: _,
            last_deleted: _,
            steps: _,
            last: _,
            undoes: _,
            outside: _,
        } = self;
    }
}

impl<'a> History<'a> {
    /// Nothing has happened yet. The only error is that memory ran out.
    pub fn new(
        alloc: Global,
        script: &Script,
        rule: Rule,
        keep: Keep,
    ) -> Result<History<'a>, AllocError> {
        Ok(History {
            attempts: Attempts::new(alloc, rule, keep),
            lives: Lives::new(alloc),
            items: ItemsOnStack::new(alloc),
            traps: Traps::new(alloc),
            marks: Marks::new(alloc),
            views: Views::new(alloc),
            writes: Writes::new(alloc),
            word_uses: WordUses::new(alloc),
            calls: Calls::new(alloc)?,
            bodies: Bodies::of(alloc, script)?,
            course: Course::new(alloc, keep == Keep::Drawn),
            last_item: None,
            last_deleted: NULL,
            steps: 0,
            last: 0,
            undoes: false,
            outside: Outside {
                line: 0,
                statement: None,
                depth: 0,
                path: 0,
                inside: 0,
            },
        })
    }

    /// Returns how many steps the run has taken.
    pub fn steps(&self) -> u32 {
        self.steps
    }

    /// Returns the line that was begun last.
    pub fn last_line(&self) -> u32 {
        self.last
    }

    /// Returns the line that was begun last outside of operations and destructors. While one of these runs, this is the line that
    /// caused the destruction.
    pub fn last_line_outside(&self) -> u32 {
        if self.undoes {
            self.outside.line
        } else {
            self.last
        }
    }

    /// The call path to the line that `last_line_outside` returns.
    fn outside_path(&mut self) -> Result<u32, AllocError> {
        if self.undoes && self.outside.path != 0 {
            return Ok(self.outside.path);
        }
        let depth = self.outside_depth();
        self.calls.path(depth)
    }

    /// How many bodies ran at the line that `last_line_outside` returns.
    fn outside_depth(&self) -> u32 {
        if self.undoes {
            self.outside.depth
        } else {
            self.calls.depth()
        }
    }

    /// The call path to the line that was begun last. In an operation or a destructor, the path leads through the line that caused the
    /// destruction, even if that line left.
    fn last_path(&mut self) -> Result<u32, AllocError> {
        let depth = self.calls.depth();
        if self.undoes && self.outside.path != 0 {
            return self
                .calls
                .path_on(self.outside.path, self.outside.inside, depth);
        }
        self.calls.path(depth)
    }

    /// Returns the call path of the line that is to be named for a panic. The only error is that memory ran out.
    pub fn path_to(&mut self, raised: Raised) -> Result<u32, AllocError> {
        match raised.raiser {
            Raiser::Statement | Raiser::Holder => self.last_path(),
            Raiser::TrapEnd => self.calls.path(raised.depth),
            Raiser::MainEnd => self.calls.path(1),
            Raiser::Item | Raiser::Release => self.outside_path(),
        }
    }

    /// Records where the run is after a machine turn: how many steps it has taken, which line and statement it has begun last, and how
    /// many bodies ran then. The only error is that memory ran out.
    pub fn see_line(
        &mut self,
        steps: u32,
        line: u32,
        statement: Option<&'a Statement>,
        depth: u32,
    ) -> Result<(), AllocError> {
        self.steps = steps;
        if self.bodies.undoes(line) != self.undoes {
            self.see_undoing(depth)?;
        }
        self.attempts.see_turn(line, self.undoes);
        if !self.undoes {
            self.traps.begin_line(line);
        }
        self.last = line;
        let (before, items) = (self.calls.depth(), self.items.count());
        self.calls.begin(depth, line, statement, self.steps, items)?;
        if depth < before {
            self.items.note_left(&self.calls);
        }
        Ok(())
    }

    /// Records that a body that undoes begins at the depth `inside`, or that no such body runs any more. Such a body takes over the depth
    /// and the frames of bodies that a leave ended. So the last statement before such a body is kept, with its call path.
    fn see_undoing(&mut self, inside: u32) -> Result<(), AllocError> {
        self.undoes = !self.undoes;
        if self.undoes {
            let depth = self.calls.depth();
            self.outside = Outside {
                line: self.last,
                statement: self.calls.statement_at(depth),
                depth,
                path: self.calls.path(depth)?,
                inside,
            };
        }
        Ok(())
    }

    /// Records that only the outermost `open` TRAPs are open after the last step that was seen. The only error is that memory ran out.
    #[inline(always)]
    pub fn see_traps(&mut self, open: usize) -> Result<(), AllocError> {
        if open != self.traps.open_traps().len() {
            self.traps.keep(open);
        }
        let count = self.traps.open_traps().len();
        self.course.note_traps(self.steps, count)
    }

    /// Returns the present moment, at the line that was begun last, while `depth` bodies run.
    fn now(&mut self, depth: u32) -> Result<Moment, AllocError> {
        Ok(Moment {
            step: self.steps,
            line: self.last,
            path: self.calls.path(depth)?,
        })
    }

    /// Records an item that the cleanup stack destroys, when `statement` was begun last. Returns why the cleanup stack destroys it.
    pub fn see_destroyed(&mut self, item: ItemOnStack, statement: Option<&'a Statement>) -> By {
        self.last_item = Some(item);
        let by = self.destroyer(statement);
        if by == By::PopDestroy {
            let (line, depth) = (self.last_line_outside(), self.outside_depth());
            self.see_taken(item, line, depth);
        }
        by
    }

    /// Why the cleanup stack destroys its items, when `statement` was begun last.
    fn destroyer(&self, statement: Option<&'a Statement>) -> By {
        let statement = if self.undoes {
            self.outside.statement
        } else {
            statement
        };
        match statement {
            Some(Statement::PopDestroy(_)) => By::PopDestroy,
            _ => By::Leave,
        }
    }
}
