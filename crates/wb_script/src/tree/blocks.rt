//! The blocks that are open in a body, and the statements around and inside them.

ghost use Rattle.std.specs.Prelude.{◌≡◌, ◌<◌, [], ◌∷◌, ◌++◌, length, IfOk, OnOk};
ghost use Rattle.std.specs.List.{list_any};
ghost use Rattle.wb_language.specs.Kinds.{is_trap};
ghost use Rattle.wb_script.specs.Building.{head_line_kind, line_kinds_of_blocks, IsWhole, ClosesBlock, TurnsToElse};
ghost use Rattle.wb_script.specs.Growing.{if_added};

use std::alloc::{AllocError, Global};
use std::mem::replace;
use wb_basics::items::Items;
use wb_tree::script::{Condition, Number, Statement, StatementAt};

/// What a block began with.
#[derive(Drop)]
pub(crate) enum Head {
    If(Condition),
    /// An `if` whose `else` has come, with its first part.
    Else(Condition, Items<StatementAt>),
    Repeat(Number),
    Trap(u8),
}

/// A block that is open. An open block has the statements before it in the block or body around it, the number of its first line, counted
/// from 1, and what it began with.
#[derive(Drop)]
pub(crate) struct OpenBlock {
    pub before: Items<StatementAt>,
    pub line: u32,
    pub head: Head,
}

/// The open blocks, outermost first, and the statements so far in the innermost block, or in the body if no block is open.
#[derive(Drop)]
pub(crate) struct BlockStack {
    pub blocks: Items<OpenBlock>,
    pub statements: Items<StatementAt>,
}

/// Whether a block is a `trap`.
fn is_trap_block(block: &OpenBlock) -> bool
    ensures { result ≡ is_trap (head_line_kind block.now.head) }
{
    match &block.head {
        Head::Trap(_) => true,
        _ => false,
    }
}

/// Whether one of these blocks is a `trap`.
pub(crate) fn has_trap(blocks: &[OpenBlock]) -> bool
    ensures { result ≡ list_any is_trap (line_kinds_of_blocks blocks.now) }
{
    for block in blocks {
        if is_trap_block(block) {
            return true;
        }
    }
    false
}

/// The statement that a block with this head becomes when it ends. `statements` are the statements in the block; if it is an `if` with an
/// `else`, only the statements after the `else`.
fn statement_of_block(head: Head, statements: Items<StatementAt>) -> Statement
    ensures { IsWhole head statements result }
{
    match head {
        Head::If(condition) => Statement::If(condition, statements),
        Head::Else(condition, first) => Statement::IfElse(condition, first, statements),
        Head::Repeat(turns) => Statement::Repeat(turns, statements),
        Head::Trap(variable) => Statement::Trap(variable, statements),
    }
}

/// Enters a block, which begins with this head in the line with this number.
pub(crate) fn enter_block(
    alloc: Global,
    block_stack: &mut BlockStack,
    line: u32,
    head: Head,
) -> Result<(), AllocError>
    ensures { OnOk result (block_stack.new ≡ record {
      blocks = block_stack.old.blocks
          ++ (record { before = block_stack.old.statements; line = line; head = head }) ∷ [];
      statements = [];
    }) }
{
    let before = replace(&mut block_stack.statements, Items::new(alloc));
    block_stack.blocks.push(OpenBlock { before, line, head })?;
    Ok(())
}

/// Turns to the second part of the innermost block at an `else`. Returns `false` if the block is no `if`, or already has an `else`.
pub(crate) fn turn_to_else(alloc: Global, block_stack: &mut BlockStack) -> Result<bool, AllocError>
    ensures { IfOk result (λ turned.
        TurnsToElse block_stack.old (if_added turned block_stack.new)) }
{
    match block_stack.blocks.pop() {
        Some(block) => match block.head {
            Head::If(condition) => {
                let first = replace(&mut block_stack.statements, Items::new(alloc));
                block_stack.blocks.push(OpenBlock {
                    before: block.before,
                    line: block.line,
                    head: Head::Else(condition, first),
                })?;
                Ok(true)
            }
            _ => Ok(false),
        },
        None => Ok(false),
    }
}

/// Ends the innermost block, which becomes a statement of the block or body around it.
pub(crate) fn end_block(block_stack: &mut BlockStack) -> Result<(), AllocError>
    requires { 0 < length block_stack.now.blocks }
    ensures { OnOk result (ClosesBlock block_stack.old block_stack.new) }
{
    match block_stack.blocks.pop() {
        Some(block) => {
            let inside = replace(&mut block_stack.statements, block.before);
            block_stack.statements.push(StatementAt {
                line: block.line,
                statement: statement_of_block(block.head, inside),
            })?;
            Ok(())
        }
        None => unreachable!(),
    }
}
