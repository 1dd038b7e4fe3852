//! The blocks of a run that are open: its TRAPs, its `repeat`s with the turns that each has left, and the items that are still to be
//! destroyed.
//!
//! Which blocks are open follows from the lines that begin, so the machine's pending work never has to be searched. A line that
//! begins ends every open block that doesn't contain it, except the blocks of the bodies that called the line's body. A machine turn that
//! begins no line belongs to the innermost block that has turns or items left, and ends the blocks inside this block. So before each
//! machine turn it is known which TRAPs the previous turn ended.

use std::alloc::{AllocError, Global};
use wb_tree::script::{Body, Script, Statement, StatementAt};

/// A block that is open.
#[derive(Clone, Copy)]
struct Block {
    /// How many bodies run at the block, and how many blocks of the same body enclose the block's own line.
    depth: u32,
    nesting: u32,
    is_trap: bool,
    /// How many turns or items are left; 0 for a TRAP.
    left: u32,
}

/// Lines, and how many blocks of their body enclose them.
#[derive(Clone, Copy)]
struct Lines<'s> {
    nesting: u32,
    statements: &'s [StatementAt],
}

/// The blocks of a run that are open.
#[derive(Drop)]
pub struct Blocks {
    /// For each line, how many blocks (TRAPs and `repeat`s) of its body enclose the line. No block encloses a line past this list's end.
    nestings: Vec<u32>,
    /// The open blocks, the innermost last.
    open: Vec<Block>,
    /// How many of the open blocks are TRAPs.
    traps: usize,
    /// Whether the next machine turn begins to destroy an object.
    is_object_next: bool,
}

impl Blocks {
    /// No block is open yet. The only error is that memory ran out.
    pub fn of(alloc: Global, script: &Script) -> Result<Blocks, AllocError> {
        Ok(Blocks {
            nestings: nestings_of(alloc, script)?,
            open: Vec::new(alloc),
            traps: 0,
            is_object_next: false,
        })
    }

    /// Returns how many TRAPs are open.
    pub fn open_traps(&self) -> usize {
        self.traps
    }

    /// A line begins while `depth` bodies run.
    #[inline(always)]
    pub fn begin_line(&mut self, depth: u32, line: u32) {
        if let Some(last) = self.open.last()
            && last.depth >= depth
        {
            self.end_before(depth, line);
        }
    }

    /// A TRAP begins at a line, while `depth` bodies run.
    pub fn begin_trap(&mut self, depth: u32, line: u32) -> Result<(), AllocError> {
        let nesting = self.nesting_of(line);
        self.open.push(Block {
            depth,
            nesting,
            is_trap: true,
            left: 0,
        })?;
        self.traps = self.traps.saturating_add(1);
        Ok(())
    }

    /// A line begins a `repeat` of `left` turns or the destruction of `left` items, while `depth` bodies run.
    pub fn begin_rest(&mut self, depth: u32, line: u32, left: u32) -> Result<(), AllocError> {
        let nesting = self.nesting_of(line);
        self.add_rest(depth, nesting, left)
    }

    /// An object is to be destroyed next.
    pub fn begin_object(&mut self) {
        self.is_object_next = true;
    }

    /// The next machine turn begins no line.
    #[inline(never)]
    pub fn go_on(&mut self) {
        if self.is_object_next {
            self.is_object_next = false;
            return;
        }
        for _ in 0..self.open.len() {
            if let Some(last) = self.open.last_mut()
                && last.left > 0
            {
                last.left -= 1;
                return;
            }
            self.end_last();
        }
    }

    /// The innermost of `depth` running bodies returns.
    pub fn end_body(&mut self, depth: u32) {
        for _ in 0..self.open.len() {
            if let Some(last) = self.open.last()
                && last.depth < depth
            {
                return;
            }
            self.end_last();
        }
    }

    /// A leave ends the innermost TRAP and all blocks inside it; if no TRAP is open, the leave ends all blocks. After that, `items` items
    /// are to be destroyed.
    pub fn leave(&mut self, items: u32) -> Result<(), AllocError> {
        let mut at = Block {
            depth: 1,
            nesting: 0,
            is_trap: false,
            left: 0,
        };
        for _ in 0..self.open.len() {
            let Some(last) = self.end_last() else {
                break;
            };
            if last.is_trap {
                at = last;
                break;
            }
        }
        self.add_rest(at.depth, at.nesting, items)
    }

    fn add_rest(&mut self, depth: u32, nesting: u32, left: u32) -> Result<(), AllocError> {
        if left > 0 {
            self.open.push(Block {
                depth,
                nesting,
                is_trap: false,
                left,
            })?;
        }
        Ok(())
    }

    /// Ends the open blocks that don't contain a line, except blocks of calling bodies. The line begins while `depth` bodies run.
    fn end_before(&mut self, depth: u32, line: u32) {
        let nesting = self.nesting_of(line);
        for _ in 0..self.open.len() {
            if let Some(last) = self.open.last()
                && (last.depth < depth || last.depth == depth && last.nesting < nesting)
            {
                return;
            }
            self.end_last();
        }
    }

    fn end_last(&mut self) -> Option<Block> {
        let last = self.open.pop()?;
        if last.is_trap {
            self.traps = self.traps.saturating_sub(1);
        }
        Some(last)
    }

    /// How many blocks of its body enclose a line.
    fn nesting_of(&self, line: u32) -> u32 {
        self.nestings.get(line as usize).copied().unwrap_or(0)
    }
}

/// For each line of a script, how many blocks of its body enclose the line. The list ends with the last line that a block encloses.
fn nestings_of(alloc: Global, script: &Script) -> Result<Vec<u32>, AllocError> {
    let mut rest = bodies_of(alloc, script)?;
    let mut nestings = Vec::new(alloc);
    for _ in 0..u32::MAX {
        let Some(lines) = rest.pop() else {
            break;
        };
        add_lines(&mut nestings, &mut rest, lines)?;
    }
    Ok(nestings)
}

/// The lines of all bodies.
fn bodies_of<'s>(alloc: Global, script: &'s Script) -> Result<Vec<Lines<'s>>, AllocError> {
    let mut bodies = Vec::new(alloc);
    for procedure in script.procedures.as_slice() {
        add_body(&mut bodies, &procedure.body)?;
    }
    for operation in script.operations.as_slice() {
        add_body(&mut bodies, &operation.body)?;
    }
    for class in script.classes.as_slice() {
        if let Some(body) = &class.construct {
            add_body(&mut bodies, body)?;
        }
        if let Some(body) = &class.destroy {
            add_body(&mut bodies, body)?;
        }
    }
    Ok(bodies)
}

fn add_body<'s>(bodies: &mut Vec<Lines<'s>>, body: &'s Body) -> Result<(), AllocError> {
    add_block(bodies, 0, body.statements.as_slice())
}

fn add_block<'s>(
    blocks: &mut Vec<Lines<'s>>,
    nesting: u32,
    statements: &'s [StatementAt],
) -> Result<(), AllocError> {
    blocks.push(Lines {
        nesting,
        statements,
    })?;
    Ok(())
}

/// Notes how many blocks enclose these lines, and adds to `rest` the lines of the blocks that these lines begin.
fn add_lines<'s>(
    nestings: &mut Vec<u32>,
    rest: &mut Vec<Lines<'s>>,
    lines: Lines<'s>,
) -> Result<(), AllocError> {
    for statement in lines.statements {
        if lines.nesting > 0 {
            set(nestings, statement.line as usize, lines.nesting)?;
        }
        add_inner(rest, &statement.statement, lines.nesting)?;
    }
    Ok(())
}

/// Adds the lines inside a statement. A TRAP or a `repeat` counts as one more block around these lines, and an `if` doesn't count.
fn add_inner<'s>(
    rest: &mut Vec<Lines<'s>>,
    statement: &'s Statement,
    nesting: u32,
) -> Result<(), AllocError> {
    let inside = nesting.saturating_add(1);
    match statement {
        Statement::If(_, first) => add_block(rest, nesting, first.as_slice()),
        Statement::IfElse(_, first, other) => {
            add_block(rest, nesting, first.as_slice())?;
            add_block(rest, nesting, other.as_slice())
        }
        Statement::Repeat(_, block) => add_block(rest, inside, block.as_slice()),
        Statement::Trap(_, block) => add_block(rest, inside, block.as_slice()),
        _ => Ok(()),
    }
}

fn set(nestings: &mut Vec<u32>, line: usize, nesting: u32) -> Result<(), AllocError> {
    if nestings.len() <= line {
        nestings.resize(line.saturating_add(1), 0)?;
    }
    if let Some(kept) = nestings.get_mut(line) {
        *kept = nesting;
    }
    Ok(())
}
