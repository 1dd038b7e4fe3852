//! Which body of a script each line is in.

use std::alloc::{AllocError, Global};
use wb_tree::script::{Class, Script};

/// What a body is.
#[derive(Clone, Copy, Debug, PartialEq, Eq, PartialOrd, Ord)]
pub enum BodyKind {
    /// No body: lines before the first body.
    Nothing,
    Procedure,
    /// The second phase of a class's construction.
    Construct,
    Destructor,
    Operation,
}

impl BodyKind {
    /// Whether bodies of this kind undo what was done. A leave runs such bodies when it destroys items.
    fn undoes(self) -> bool {
        match self {
            BodyKind::Operation | BodyKind::Destructor => true,
            BodyKind::Nothing | BodyKind::Procedure | BodyKind::Construct => false,
        }
    }
}

/// A body of a script.
#[derive(Clone, Copy, Debug, PartialEq, Eq, PartialOrd, Ord)]
pub struct BodyOfScript {
    pub kind: BodyKind,
    /// The line that begins the body's procedure, operation or class. The second word of this line is the name.
    pub line: u32,
}

/// A body, and the first line that counts as a line of this body.
#[derive(Clone, Copy, PartialEq, Eq, PartialOrd, Ord)]
struct Part {
    from: u32,
    body: BodyOfScript,
}

/// The bodies of a script.
#[derive(Drop)]
pub struct Bodies {
    /// The bodies, in order of their lines.
    parts: Vec<Part>,
    /// For each line before the last body, whether the line is in an operation or a destructor.
    undoing: Vec<bool>,
    /// Whether the last body is an operation or a destructor.
    undoes_at_end: bool,
}

impl Bodies {
    /// Finds the bodies of a script. The only error is that memory ran out.
    pub fn of(alloc: Global, script: &Script) -> Result<Bodies, AllocError> {
        let mut bodies = Bodies {
            parts: Vec::new(alloc),
            undoing: Vec::new(alloc),
            undoes_at_end: false,
        };
        for procedure in script.procedures.as_slice() {
            bodies.add(procedure.line, BodyKind::Procedure, procedure.line)?;
        }
        for class in script.classes.as_slice() {
            bodies.add_class(class)?;
        }
        for operation in script.operations.as_slice() {
            bodies.add(operation.line, BodyKind::Operation, operation.line)?;
        }
        bodies.parts.sort_unstable();
        bodies.find_undoing()?;
        Ok(bodies)
    }

    /// Returns the body of a line: the last body that begins at this line or before it.
    pub fn body_of(&self, line: u32) -> BodyOfScript {
        let mut body = BodyOfScript {
            kind: BodyKind::Nothing,
            line: 0,
        };
        for part in self.parts.as_slice() {
            if part.from > line {
                break;
            }
            body = part.body;
        }
        body
    }

    /// Whether a line is in the body of an operation or a destructor, which a leave may run.
    pub fn undoes(&self, line: u32) -> bool {
        match self.undoing.get(line as usize) {
            Some(undoes) => *undoes,
            None => self.undoes_at_end,
        }
    }

    /// Finds which lines are in an operation or a destructor.
    fn find_undoing(&mut self) -> Result<(), AllocError> {
        for part in self.parts.as_slice() {
            self.undoing.resize(part.from as usize, self.undoes_at_end)?;
            self.undoes_at_end = part.body.kind.undoes();
        }
        Ok(())
    }

    fn add(&mut self, from: u32, kind: BodyKind, line: u32) -> Result<(), AllocError> {
        let body = BodyOfScript { kind, line };
        self.parts.push(Part { from, body })?;
        Ok(())
    }

    /// Adds the bodies of a class. The second phase comes before the destructor, so the second phase counts from the class's own line on.
    fn add_class(&mut self, class: &Class) -> Result<(), AllocError> {
        self.add(class.line, BodyKind::Construct, class.line)?;
        if let Some(body) = &class.destroy
            && let Some(first) = body.statements.get(0)
        {
            self.add(first.line, BodyKind::Destructor, class.line)?;
        }
        Ok(())
    }
}
