//! Which line made an attempt, and where the run went on after it.

use wb_tree::script::{Refusal, Statement};

/// Which line made an attempt, and what came after it.
#[derive(Clone, Copy)]
pub struct Maker<'a> {
    pub line: u32,
    /// The line's statement; `None` for the first attempt, which no line makes.
    pub statement: Option<&'a Statement>,
    /// The first other line that was begun after the attempt, outside of operations and destructors; 0 if there is none.
    pub after: u32,
    /// How many machine turns after the attempt stayed at this line, until the line `after` was begun. A `repeat` of this line alone takes
    /// two machine turns for each pass.
    pub idle: u32,
}

impl<'a> Maker<'a> {
    /// A line that has just made an attempt, with its statement: nothing has come after the attempt yet.
    pub fn of(line: u32, statement: Option<&'a Statement>) -> Maker<'a> {
        Maker {
            line,
            statement,
            after: 0,
            idle: 0,
        }
    }

    /// Records a machine turn after the attempt: `line` was begun last, and `undoes` says whether it is in an operation or a destructor.
    pub fn see(&mut self, line: u32, undoes: bool) {
        if self.after != 0 {
            return;
        }
        if line == self.line {
            self.idle = self.idle.saturating_add(1);
        } else if !undoes {
            self.after = line;
        }
    }

    /// Whether, if the attempt fails, the line sets its pointer to null and the run goes on.
    pub fn gives_null(&self) -> bool {
        match self.statement {
            Some(Statement::Realloc(_, _, _, Refusal::GivesNull))
            | Some(Statement::ReallocText(..))
            | Some(Statement::Alloc(_, _, Refusal::GivesNull))
            | Some(Statement::New(_, _, Refusal::GivesNull))
            | Some(Statement::NewText(_, _, Refusal::GivesNull)) => true,
            _ => false,
        }
    }
}
