//! Reads the lines of a script by their roles, with a stack of the open blocks, up to the first line that is not allowed at its position.

ghost use Rattle.std.specs.Prelude.{◌≡◌, ◌∷◌, IfOk, OnOk, MatchOption, MatchBool, reverse};
ghost use Rattle.wb_language.specs.Grammar.{IsGrammatical, IsFirstMisfit};
ghost use Rattle.wb_nesting.specs.Machine.{move_of, after, step, after_line};

use crate::open::{Move, Open};
use std::alloc::{AllocError, Global};
use wb_tree::script_lines::Role;

fn statement_in(place: Open, role: Role) -> Option<Move>
    ensures { result ≡ Rattle.wb_nesting.specs.Machine.statement place role }
{
    match role {
        Role::Plain => Some(Move::Stay(place)),
        Role::Loop => Some(Move::Enter(place, Open::Block)),
        Role::If => Some(Move::Enter(place, Open::Branch)),
        Role::End => Some(Move::Close),
        _ => None,
    }
}

fn move_of(place: Option<Open>, role: Role) -> Option<Move>
    ensures { result ≡ move_of place role }
{
    match (place, role) {
        (None, Role::Class) => Some(Move::Stay(Open::Fields)),
        (None, Role::Procedure) => Some(Move::Stay(Open::Declarations)),
        (Some(Open::Fields), Role::Field) => Some(Move::Stay(Open::Fields)),
        (Some(Open::Fields), Role::Construct) => Some(Move::Enter(Open::Made, Open::Declarations)),
        (Some(Open::Fields | Open::Made), Role::Destroy) => Some(Move::Enter(
            Open::Destroyed,
            Open::Declarations,
        )),
        (Some(Open::Fields | Open::Made | Open::Destroyed), Role::End) => Some(Move::Close),
        (Some(Open::Declarations), Role::Declaration) => Some(Move::Stay(Open::Declarations)),
        (Some(Open::Branch), Role::Else) => Some(Move::Stay(Open::Block)),
        (Some(Open::Declarations | Open::Statements), _) => statement_in(Open::Statements, role),
        (Some(Open::Branch), _) => statement_in(Open::Branch, role),
        (Some(Open::Block), _) => statement_in(Open::Block, role),
        _ => None,
    }
}

/// Pushes an open block at this place onto the stack of open blocks.
fn open(stack: &mut Vec<Open>, place: Open) -> Result<(), AllocError>
    ensures { OnOk result (reverse stack.new.items ≡ place ∷ reverse stack.old.items) }
{
    stack.push(place)?;
    Ok(())
}

/// Makes a move of the innermost block, which the caller has already taken off the stack.
fn make(stack: &mut Vec<Open>, made: Move) -> Result<(), AllocError>
    ensures { OnOk result (reverse stack.new.items ≡ after made (reverse stack.old.items)) }
{
    match made {
        Move::Close => Ok(()),
        Move::Stay(place) => open(stack, place),
        Move::Enter(outer, inner) => {
            open(stack, outer)?;
            open(stack, inner)
        }
    }
}

/// Reads a line that isn't skipped; returns `false` if the line is not allowed here. The last of the open blocks is the innermost.
fn read_content(stack: &mut Vec<Open>, role: Role) -> Result<bool, AllocError>
    ensures fits { IfOk result (λ fits. MatchBool fits
        (step (reverse stack.old.items) role ≡ Some (reverse stack.new.items))
        (step (reverse stack.old.items) role ≡ None)) }
{
    match move_of(stack.pop(), role) {
        None => Ok(false),
        Some(made) => {
            make(stack, made)?;
            Ok(true)
        }
    }
}

/// Reads a line, skipped or not; returns `false` if the line is not allowed here.
fn read_line(stack: &mut Vec<Open>, role: Role) -> Result<bool, AllocError>
    ensures fits { IfOk result (λ fits. MatchBool fits
        (after_line (reverse stack.old.items) role ≡ Some (reverse stack.new.items))
        (after_line (reverse stack.old.items) role ≡ None)) }
{
    match role {
        Role::Skip => Ok(true),
        _ => read_content(stack, role),
    }
}

/// The index of the first line that no script can have at this point, whatever lines follow. The result is the number of lines if only an
/// `end` is missing, and `None` if the lines are grammatical as a whole script.
///
/// Lines count from 0. Skipped lines (`Role::Skip`) count too, and are allowed everywhere. An error means that memory for the stack of open
/// blocks ran out; it says nothing about the lines.
pub fn first_misfit(alloc: Global, roles: &[Role]) -> Result<Option<usize>, AllocError>
    ensures { IfOk result (λ found.
        MatchOption found (IsGrammatical roles.now) (IsFirstMisfit roles.now)) }
{
    let mut stack = Vec::new(alloc);
    for (index, role) in roles.iter().enumerate() {
        if !read_line(&mut stack, *role)? {
            return Ok(Some(index));
        }
    }
    if stack.is_empty() {
        Ok(None)
    } else {
        Ok(Some(roles.len()))
    }
}
