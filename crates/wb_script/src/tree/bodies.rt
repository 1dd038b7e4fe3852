//! Builds an open body, line by line up to its end.

ghost use Rattle.std.specs.Prelude.{◌≡◌, ◌<◌, ◌≤◌, ◌++◌, ◌∷◌, [], length, IfOk, IsTrue, MatchBool, OnOk};
ghost use Rattle.wb_tree.specs.declared.script_lines.Role.TheVariants as role;
ghost use Rattle.wb_tree.specs.declared.script_lines.Form.TheVariants.{Line};
ghost use Rattle.wb_tree.specs.declared.script_lines.LineKind.TheVariants as kind;
ghost use Rattle.wb_language.specs.LineKinds.{role_of};
ghost use Rattle.wb_script.specs.Building.{begins_block, line_kinds_of_blocks};
ghost use Rattle.wb_script.specs.declared.tree.bodies.BodyProgress.TheVariants.{Inside};
ghost use Rattle.wb_script.specs.Growing.{AddsWhereFit, IsSoundOpen, TakesWhereFit, declared_in_space, if_added};
ghost use Rattle.wb_script.specs.Growing.{scope_in_body, with_statement};
ghost use Rattle.wb_script.specs.Stated.{IsStatedWhereFit, scope_in};

use crate::tree::blocks::{BlockStack, end_block, enter_block, turn_to_else};
use crate::tree::heads::head_of;
use crate::tree::locals::declared_local;
use crate::tree::plain::plain_statement;
use crate::tree::scope::Scope;
use crate::tree::space::Space;
use std::alloc::{AllocError, Global};
use wb_basics::items::Items;
use wb_basics::limits::{DEEPEST_BLOCK, MOST_LOCALS};
use wb_tree::script::{Body, Local, Parameter, Statement, StatementAt};
use wb_tree::script_lines::{LineKind, Operand, Referent};

/// A body whose end hasn't been read. An open body has its parameters, the class of `self` if it is a body of a class, and the locals that
/// its declarations declare. An open body also has its scope, which is the parameters followed by these locals, and its open blocks with
/// the statements so far.
#[derive(Drop)]
pub(crate) struct OpenBody {
    pub parameters: Items<Parameter>,
    pub this: Option<u16>,
    pub locals: Items<Local>,
    pub scope: Items<Local>,
    pub block_stack: BlockStack,
}

/// What an open body is after one more line.
#[derive(Drop)]
pub(crate) enum BodyProgress {
    Inside(OpenBody),
    /// The line ended the body: its parameters, and the whole body.
    Done(Items<Parameter>, Body),
}

/// The scope of the statements of an open body.
fn scope_of<'a>(space: Space<'a>, body: &'a OpenBody) -> Scope<'a>
    requires { IsSoundOpen (declared_in_space space) body.now }
    ensures literals { result.literals ≡ space.entry.literals }
    ensures scope { scope_in result ≡ scope_in_body (declared_in_space space.entry) body.now }
{
    Scope {
        literals: space.literals,
        locals: body.scope.as_slice(),
        this: body.this,
        fields: space.fields,
    }
}

/// The local that a line declares, as the next local of a body; `None` if the line declares no local, or a local may not be declared there.
fn next_local(
    space: Space,
    body: &OpenBody,
    line_kind: LineKind,
    operands: &[Operand<Referent>],
) -> Option<Local>
    requires { role_of line_kind ≡ role.Declaration }
    ensures { TakesWhereFit (declared_in_space space.entry) body.now line_kind operands.now result }
{
    if body.block_stack.blocks.len() > 0 {
        return None;
    }
    if body.block_stack.statements.len() > 0 {
        return None;
    }
    if body.scope.len() >= MOST_LOCALS as usize {
        return None;
    }
    declared_local(body.scope.len(), space.fields, line_kind, operands)
}

fn push_local(body: &mut OpenBody, local: Local) -> Result<(), AllocError>
    ensures { OnOk result (body.new ≡ record body.old {
      locals = body.old.locals ++ local ∷ [];
      scope = body.old.scope ++ local ∷ [];
    }) }
{
    body.locals.push(local)?;
    body.scope.push(local)?;
    Ok(())
}

/// Adds a declaration; `number` is the number of its line. Returns `false` if the declaration is not allowed there.
fn add_declaration(
    space: Space,
    body: &mut OpenBody,
    number: u32,
    line_kind: LineKind,
    operands: &[Operand<Referent>],
) -> Result<bool, AllocError>
    requires sound { IsSoundOpen (declared_in_space space) body.now }
    requires declares { role_of line_kind ≡ role.Declaration }
    ensures { IfOk result (λ added. AddsWhereFit (declared_in_space space.entry) number
        (Line line_kind operands.now) body.old (if_added added (Inside body.new))) }
{
    match next_local(space, body, line_kind, operands) {
        Some(local) => {
            push_local(body, local)?;
            Ok(true)
        }
        None => Ok(false),
    }
}

/// The statement of a line in an open body, if the line begins no block; `None` if the line's operands don't fit.
fn statement_in(
    alloc: Global,
    space: Space,
    body: &OpenBody,
    line_kind: LineKind,
    operands: &[Operand<Referent>],
) -> Result<Option<Statement>, AllocError>
    requires sound { IsSoundOpen (declared_in_space space) body.now }
    requires plain { role_of line_kind ≡ role.Plain }
    ensures { let declared = declared_in_space space.entry in
        IfOk result (IsStatedWhereFit declared (scope_in_body declared body.now)
        (line_kinds_of_blocks body.now.block_stack.blocks) line_kind operands.now) }
{
    let here = scope_of(space, body);
    let blocks = body.block_stack.blocks.as_slice();
    plain_statement(alloc, space.items, &here, blocks, line_kind, operands)
}

/// Appends a statement to the innermost block of an open body, or to the body itself if no block is open.
fn push_statement(body: &mut OpenBody, line: u32, statement: Statement) -> Result<(), AllocError>
    ensures { OnOk result (body.new ≡
        with_statement body.old (record { line = line; statement = statement })) }
{
    body.block_stack
        .statements
        .push(StatementAt { line, statement })?;
    Ok(())
}

/// Adds a statement that begins no block; `number` is the number of its line. Returns `false` if the statement's operands don't fit.
fn add_statement(
    alloc: Global,
    space: Space,
    body: &mut OpenBody,
    number: u32,
    line_kind: LineKind,
    operands: &[Operand<Referent>],
) -> Result<bool, AllocError>
    requires sound { IsSoundOpen (declared_in_space space) body.now }
    requires plain { role_of line_kind ≡ role.Plain }
    ensures { IfOk result (λ added. AddsWhereFit (declared_in_space space.entry) number
        (Line line_kind operands.now) body.old (if_added added (Inside body.new))) }
{
    match statement_in(alloc, space, body, line_kind, operands)? {
        Some(statement) => {
            push_statement(body, number, statement)?;
            Ok(true)
        }
        None => Ok(false),
    }
}

/// Begins a block; `number` is the number of its first line. Returns `false` if the operands don't fit, or too many blocks are open inside
/// one another.
fn begin_block(
    alloc: Global,
    space: Space,
    body: &mut OpenBody,
    number: u32,
    line_kind: LineKind,
    operands: &[Operand<Referent>],
) -> Result<bool, AllocError>
    requires sound { IsSoundOpen (declared_in_space space) body.now }
    requires block { IsTrue (begins_block line_kind) }
    ensures { IfOk result (λ added. AddsWhereFit (declared_in_space space.entry) number
        (Line line_kind operands.now) body.old (if_added added (Inside body.new))) }
{
    if body.block_stack.blocks.len() >= DEEPEST_BLOCK as usize {
        return Ok(false);
    }
    let here = scope_of(space, body);
    match head_of(&here, line_kind, operands) {
        Some(head) => {
            enter_block(alloc, &mut body.block_stack, number, head)?;
            Ok(true)
        }
        None => Ok(false),
    }
}

/// Adds an `else`. Returns `false` if the `else` is not allowed there, or has operands.
fn add_else(
    alloc: Global,
    space: Space,
    body: &mut OpenBody,
    number: u32,
    operands: &[Operand<Referent>],
) -> Result<bool, AllocError>
    requires { IsSoundOpen (declared_in_space space) body.now }
    ensures { IfOk result (λ added. AddsWhereFit (declared_in_space space.entry) number
        (Line kind.Else operands.now) body.old (if_added added (Inside body.new))) }
{
    if !operands.is_empty() {
        return Ok(false);
    }
    turn_to_else(alloc, &mut body.block_stack)
}

/// Adds the `end` of the innermost block. Returns `false` if the `end` has operands.
fn add_end(
    space: Space,
    body: &mut OpenBody,
    number: u32,
    operands: &[Operand<Referent>],
) -> Result<bool, AllocError>
    requires sound { IsSoundOpen (declared_in_space space) body.now }
    requires inside { 0 < length body.now.block_stack.blocks }
    ensures { IfOk result (λ added. AddsWhereFit (declared_in_space space.entry) number
        (Line kind.End operands.now) body.old (if_added added (Inside body.new))) }
{
    if !operands.is_empty() {
        return Ok(false);
    }
    end_block(&mut body.block_stack)?;
    Ok(true)
}

/// Whether a line is the `end` of an open body, in which no block is open.
pub(crate) fn closes_body(body: &OpenBody, line_kind: LineKind) -> bool
    ensures { MatchBool result
        ((line_kind ≡ kind.End) × (body.now.block_stack.blocks ≡ []))
        (line_kind ≡ kind.End → 0 < length body.now.block_stack.blocks) }
{
    match line_kind {
        LineKind::End => body.block_stack.blocks.len() == 0,
        _ => false,
    }
}

/// Adds the line with this number, which doesn't end the body, to an open body in place. Returns `false` if the line is not allowed there.
pub(crate) fn add_inside_body(
    alloc: Global,
    space: Space,
    body: &mut OpenBody,
    number: u32,
    line_kind: LineKind,
    operands: &[Operand<Referent>],
) -> Result<bool, AllocError>
    requires sound { IsSoundOpen (declared_in_space space) body.now }
    requires inside { line_kind ≡ kind.End → 0 < length body.now.block_stack.blocks }
    ensures { IfOk result (λ added. AddsWhereFit (declared_in_space space.entry) number
        (Line line_kind operands.now) body.old (if_added added (Inside body.new))) }
{
    match line_kind {
        LineKind::Class
        | LineKind::Field
        | LineKind::ClassField
        | LineKind::Constructor
        | LineKind::Destructor
        | LineKind::Proc
        | LineKind::Op => Ok(false),
        LineKind::Ptr | LineKind::ClassPtr | LineKind::Int | LineKind::Buf | LineKind::View => {
            add_declaration(space, body, number, line_kind, operands)
        }
        LineKind::IfNull
        | LineKind::IfSome
        | LineKind::IfEqual
        | LineKind::IfLess
        | LineKind::Repeat
        | LineKind::Trap => { begin_block(alloc, space, body, number, line_kind, operands) }
        LineKind::Else => add_else(alloc, space, body, number, operands),
        LineKind::End => add_end(space, body, number, operands),
        _ => add_statement(alloc, space, body, number, line_kind, operands),
    }
}

/// Ends an open body, in which no block is open; `None` if the `end` has operands.
fn end_body(
    space: Space,
    body: OpenBody,
    number: u32,
    operands: &[Operand<Referent>],
) -> Option<BodyProgress>
    requires sound { IsSoundOpen (declared_in_space space) body }
    requires outside { body.block_stack.blocks ≡ [] }
    ensures { AddsWhereFit (declared_in_space space.entry) number
        (Line kind.End operands.now) body result }
{
    if !operands.is_empty() {
        return None;
    }
    let block_stack = body.block_stack;
    Some(BodyProgress::Done(
        body.parameters,
        Body {
            locals: body.locals,
            statements: block_stack.statements,
        },
    ))
}

/// Adds the line with this number to an open body; `None` if the line is not allowed there.
pub(crate) fn add_to_body(
    alloc: Global,
    space: Space,
    body: OpenBody,
    number: u32,
    line_kind: LineKind,
    operands: &[Operand<Referent>],
) -> Result<Option<BodyProgress>, AllocError>
    requires sound { IsSoundOpen (declared_in_space space) body }
    ensures { IfOk result
        (AddsWhereFit (declared_in_space space.entry) number (Line line_kind operands.now) body) }
{
    let mut body = body;
    if closes_body(&body, line_kind) {
        return Ok(end_body(space, body, number, operands));
    }
    if add_inside_body(alloc, space, &mut body, number, line_kind, operands)? {
        Ok(Some(BodyProgress::Inside(body)))
    } else {
        Ok(None)
    }
}
