//! Which blocks are open before a line of a script.

use crate::lines::Line;
use std::alloc::{AllocError, Global};
use wb_lines::line_kinds::role_of;
use wb_tree::script_lines::Role;

/// How far an open block has come. The state of a block determines which lines may come next in the block.
#[derive(Clone, Copy)]
pub enum BlockState {
    /// A class in which fields, bodies or the `end` may come next.
    Fields,
    /// A class after its `construct`.
    AfterConstruct,
    /// A class after its `destroy`.
    AfterDestroy,
    /// A body before its first statement.
    Declarations,
    Statements,
    /// The first part of an `if`, before any `else`.
    FirstPart,
    /// The second part of an `if`, after its `else`.
    ElsePart,
    /// The lines inside a `repeat` or a `trap`.
    LoopBody,
}

/// An open block: how far the block has come, and the index of its first line.
#[derive(Clone, Copy)]
pub struct Block {
    pub state: BlockState,
    pub line: usize,
}

/// A closed block: the index of its first line, and the index of its `end`.
#[derive(Clone, Copy)]
pub struct ClosedBlock {
    pub first: usize,
    pub end: usize,
}

/// The open blocks, the innermost last, and two closed blocks. `last_closed` is the block that was closed last. `misaligned` is the first
/// closed block whose `end` is indented more or less than its first line; only blocks of the class, procedure or operation that was begun
/// last count.
#[derive(Drop)]
pub struct Blocks {
    pub open: Vec<Block>,
    pub last_closed: Option<ClosedBlock>,
    pub misaligned: Option<ClosedBlock>,
}

/// The role of a line in the nesting of blocks, according to its form. A line without a form has the role of a comment.
pub fn role(line: &Line) -> Role {
    match line.line_kind() {
        Some(line_kind) => role_of(line_kind),
        None => Role::Skip,
    }
}

/// The role of the line with an index. If there is no such line, the result is the role of a comment.
pub fn role_at(lines: &[Line], index: usize) -> Role {
    match lines.get(index) {
        Some(line) => role(line),
        None => Role::Skip,
    }
}

/// How far a block has come after a statement in the block.
fn state_after_statement(state: BlockState) -> BlockState {
    match state {
        BlockState::Declarations => BlockState::Statements,
        _ => state,
    }
}

/// How far a block has come after its first line; `None` if a line with this role opens no block.
fn initial_state(role: Role) -> Option<BlockState> {
    match role {
        Role::Class => Some(BlockState::Fields),
        Role::Construct | Role::Destroy | Role::Procedure => Some(BlockState::Declarations),
        Role::Loop => Some(BlockState::LoopBody),
        Role::If => Some(BlockState::FirstPart),
        _ => None,
    }
}

/// How far a block has come after a line inside the block that isn't the block's `end`.
fn state_after(state: BlockState, role: Role) -> BlockState {
    match role {
        Role::Construct => BlockState::AfterConstruct,
        Role::Destroy => BlockState::AfterDestroy,
        Role::Else => BlockState::ElsePart,
        Role::Plain | Role::Loop | Role::If => state_after_statement(state),
        _ => state,
    }
}

/// The number of blanks at the beginning of the line with an index; 0 if there is no such line.
pub fn indent_at(lines: &[Line], index: usize) -> usize {
    match lines.get(index) {
        Some(line) => line.indent,
        None => 0,
    }
}

impl Blocks {
    fn close(&mut self, lines: &[Line], end: usize) {
        let Some(block) = self.open.pop() else {
            return;
        };
        let closed = ClosedBlock {
            first: block.line,
            end,
        };
        self.last_closed = Some(closed);
        if self.misaligned.is_none() && indent_at(lines, end) != indent_at(lines, block.line) {
            self.misaligned = Some(closed);
        }
    }

    /// Updates how far the innermost block has come, for a line with this role.
    fn advance(&mut self, role: Role) {
        if let Some(block) = self.open.last_mut() {
            block.state = state_after(block.state, role);
        }
    }

    fn pass_line(&mut self, index: usize, role: Role) -> Result<(), AllocError> {
        self.advance(role);
        if self.open.is_empty() {
            // all classes, procedures and operations above are complete, so each of their blocks has its `end`
            self.misaligned = None;
        }
        if let Some(state) = initial_state(role) {
            self.open.push(Block { state, line: index })?;
        }
        Ok(())
    }

    fn read_line(&mut self, lines: &[Line], index: usize, role: Role) -> Result<(), AllocError> {
        match role {
            Role::Skip => Ok(()),
            Role::End => {
                self.close(lines, index);
                Ok(())
            }
            _ => self.pass_line(index, role),
        }
    }
}

/// Returns the blocks that are open before the line with an index, if all lines before this line are allowed where they are. The only error
/// is that memory ran out.
pub fn blocks_before(alloc: Global, lines: &[Line], index: usize) -> Result<Blocks, AllocError> {
    let mut blocks = Blocks {
        open: Vec::new(alloc),
        last_closed: None,
        misaligned: None,
    };
    for (at, line) in lines.iter().enumerate() {
        if at >= index {
            return Ok(blocks);
        }
        blocks.read_line(lines, at, role(line))?;
    }
    Ok(blocks)
}
