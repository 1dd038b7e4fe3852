//! The statements of lines, each made from the operands of its line.
//!
//! Functions that build a statement are never inlined: otherwise `statement_of` would clear stack space for all of these functions at each
//! line.

ghost use Rattle.std.specs.Prelude.{◌≡◌, [], ◌∷◌, false, IsTrue, MatchOption};
ghost use Rattle.wb_tree.specs.declared.script_lines.LineKind.TheVariants as line_kind;
ghost use Rattle.wb_tree.specs.declared.script_lines.OperandPlace.TheVariants as operand_place;
ghost use Rattle.wb_tree.specs.Sound.{is_pointer, is_number};
ghost use Rattle.wb_tree.specs.Spellings.{pointer_operand, number_operand};
ghost use Rattle.wb_script.specs.Fitting.{operand_places_fit};
ghost use Rattle.wb_script.specs.Stated.{IsStatementOf, IsOnlySpelled, IsPairSpelled, IsTripleSpelled, IsReturnOf};
ghost use Rattle.wb_script.specs.Stated.{alloc_line_kind, is_lasting, new_line_kind, new_text_line_kind};
ghost use Rattle.wb_script.specs.Stated.{realloc_line_kind, scope_in, takes_number, takes_pointer};

use crate::tree::blocks::{OpenBlock, has_trap};
use crate::tree::scope::Scope;
use crate::tree::scope::counted::{one, three, two};
use crate::tree::text_statements::{
    append, copy, delete_text, get_length, get_maximum, insert, left, mid, print, right, set_length,
};
use wb_tree::script::{Holder, Number, Pointer, Refusal, Statement};
use wb_tree::script_lines::{LineKind, Operand, Referent};

/// The statement of a line that takes no operands; `None` if the line has operands.
#[inline(never)]
fn statement_without_operands(
    here: &Scope,
    statement: Statement,
    operands: &[Operand<Referent>],
) -> Option<Statement>
    ensures { MatchOption result
        (operand_places_fit here.now.literals (scope_in here.now) [] operands.now ≡ false)
        (λ s. (s ≡ statement) × (operands.now ≡ [])) }
{
    match operands {
        [] => Some(statement),
        _ => None,
    }
}

/// The operand of a line that takes one pointer.
pub(crate) fn one_pointer(here: &Scope, operands: &[Operand<Referent>]) -> Option<Pointer>
    ensures { IsOnlySpelled pointer_operand (is_pointer (scope_in here.now)) here.now
        operand_place.Pointer operands.now result }
{
    let pointer = one(operands)?;
    here.pointer(pointer)
}

/// The operand of a line that takes one number.
fn one_number(here: &Scope, operands: &[Operand<Referent>]) -> Option<Number>
    ensures { IsOnlySpelled number_operand (is_number here.now.locals.now) here.now
        operand_place.Value operands.now result }
{
    let number = one(operands)?;
    here.number(number)
}

/// A `set` of a local that holds a pointer or a number to a source; `None` if the source doesn't fit.
fn set_local(
    here: &Scope,
    target: &Operand<Referent>,
    source: &Operand<Referent>,
) -> Option<Statement>
    ensures { IsStatementOf here.now line_kind.Set (target.now ∷ source.now ∷ []) result }
{
    match here.receiver(target) {
        Some(local) => Some(Statement::Set(
            Pointer::Held(Holder::Local(local)),
            here.pointer(source)?,
        )),
        None => match (here.variable(target), here.number(source)) {
            (Some(target), Some(source)) => Some(Statement::SetNumber(target, source)),
            _ => None,
        },
    }
}

/// A `set` of a local; `None` if the operands of the `set` don't fit.
#[inline(never)]
fn set(here: &Scope, operands: &[Operand<Referent>]) -> Option<Statement>
    ensures { IsStatementOf here.now line_kind.Set operands.now result }
{
    match operands {
        [target, source] => set_local(here, target, source),
        _ => None,
    }
}

/// A `set` of a field.
#[inline(never)]
fn set_field(here: &Scope, operands: &[Operand<Referent>]) -> Option<Statement>
    ensures { IsStatementOf here.now line_kind.SetField operands.now result }
{
    let (target, source) = two(operands)?;
    match (here.field_target(target), here.pointer(source)) {
        (Some(target), Some(source)) => Some(Statement::Set(target, source)),
        _ => None,
    }
}

#[inline(never)]
fn set_null(here: &Scope, operands: &[Operand<Referent>]) -> Option<Statement>
    ensures { IsStatementOf here.now line_kind.Null operands.now result }
{
    let target = one(operands)?;
    Some(Statement::SetNull(here.written_pointer(target)?))
}

/// A new object of a class.
#[inline(never)]
fn new_object(here: &Scope, operands: &[Operand<Referent>], refusal: Refusal) -> Option<Statement>
    ensures { IsStatementOf here.now (new_line_kind refusal) operands.now result }
{
    let (target, class) = two(operands)?;
    match (here.written_pointer(target), here.class(class)) {
        (Some(target), Some(class)) => Some(Statement::New(target, class, refusal)),
        _ => None,
    }
}

/// The operands of a line that writes a pointer and takes a number.
fn pointer_and_number(here: &Scope, operands: &[Operand<Referent>]) -> Option<(Pointer, Number)>
    ensures { IsPairSpelled here.now operands.now result }
{
    let (target, number) = two(operands)?;
    match (here.written_pointer(target), here.number(number)) {
        (Some(target), Some(number)) => Some((target, number)),
        _ => None,
    }
}

/// The operands of a line that writes a pointer and takes another pointer and a number.
fn pointers_and_number(
    here: &Scope,
    operands: &[Operand<Referent>],
) -> Option<(Pointer, Pointer, Number)>
    ensures { IsTripleSpelled here.now operands.now result }
{
    let (target, source, number) = three(operands)?;
    match (
        here.written_pointer(target),
        here.pointer(source),
        here.number(number),
    ) {
        (Some(target), Some(source), Some(number)) => Some((target, source, number)),
        _ => None,
    }
}

#[inline(never)]
fn alloc(here: &Scope, operands: &[Operand<Referent>], refusal: Refusal) -> Option<Statement>
    ensures { IsStatementOf here.now (alloc_line_kind refusal) operands.now result }
{
    let (pointer, size) = pointer_and_number(here, operands)?;
    Some(Statement::Alloc(pointer, size, refusal))
}

#[inline(never)]
fn realloc(here: &Scope, operands: &[Operand<Referent>], refusal: Refusal) -> Option<Statement>
    ensures { IsStatementOf here.now (realloc_line_kind refusal) operands.now result }
{
    let (target, source, size) = pointers_and_number(here, operands)?;
    Some(Statement::Realloc(target, source, size, refusal))
}

#[inline(never)]
fn new_text(here: &Scope, operands: &[Operand<Referent>], refusal: Refusal) -> Option<Statement>
    ensures { IsStatementOf here.now (new_text_line_kind refusal) operands.now result }
{
    let (pointer, maximum) = pointer_and_number(here, operands)?;
    Some(Statement::NewText(pointer, maximum, refusal))
}

#[inline(never)]
fn realloc_text(here: &Scope, operands: &[Operand<Referent>]) -> Option<Statement>
    ensures { IsStatementOf here.now line_kind.HRealloc operands.now result }
{
    let (target, source, maximum) = pointers_and_number(here, operands)?;
    Some(Statement::ReallocText(target, source, maximum))
}

#[inline(never)]
fn alloc_len(here: &Scope, operands: &[Operand<Referent>]) -> Option<Statement>
    ensures { IsStatementOf here.now line_kind.AllocLen operands.now result }
{
    let (variable, pointer) = two(operands)?;
    match (here.variable(variable), here.pointer(pointer)) {
        (Some(variable), Some(pointer)) => Some(Statement::AllocLen(variable, pointer)),
        _ => None,
    }
}

#[inline(never)]
fn store(here: &Scope, operands: &[Operand<Referent>]) -> Option<Statement>
    ensures { IsStatementOf here.now line_kind.Store operands.now result }
{
    let (pointer, index, value) = three(operands)?;
    match (
        here.pointer(pointer),
        here.number(index),
        here.number(value),
    ) {
        (Some(pointer), Some(index), Some(value)) => Some(Statement::Store(pointer, index, value)),
        _ => None,
    }
}

#[inline(never)]
fn load(here: &Scope, operands: &[Operand<Referent>]) -> Option<Statement>
    ensures { IsStatementOf here.now line_kind.Load operands.now result }
{
    let (variable, pointer, index) = three(operands)?;
    match (
        here.variable(variable),
        here.pointer(pointer),
        here.number(index),
    ) {
        (Some(variable), Some(pointer), Some(index)) => Some(Statement::Load(
            variable, pointer, index,
        )),
        _ => None,
    }
}

#[inline(never)]
fn add(here: &Scope, operands: &[Operand<Referent>]) -> Option<Statement>
    ensures { IsStatementOf here.now line_kind.Add operands.now result }
{
    let (variable, number) = two(operands)?;
    match (here.variable(variable), here.number(number)) {
        (Some(variable), Some(number)) => Some(Statement::Add(variable, number)),
        _ => None,
    }
}

/// The statement of a line that takes one pointer.
#[inline(never)]
fn of_pointer(
    here: &Scope,
    line_kind: LineKind,
    operands: &[Operand<Referent>],
) -> Option<Statement>
    requires { IsTrue (takes_pointer line_kind) }
    ensures { IsStatementOf here.now line_kind operands.now result }
{
    let pointer = one_pointer(here, operands)?;
    match line_kind {
        LineKind::Free => Some(Statement::Free(pointer)),
        LineKind::Push => Some(Statement::Push(pointer)),
        LineKind::PushObj => Some(Statement::PushObject(pointer)),
        LineKind::PopCheck => Some(Statement::PopCheck(pointer)),
        LineKind::LeaveIfNull => Some(Statement::LeaveIfNull(pointer)),
        _ => None,
    }
}

/// The statement of a line that takes one number.
#[inline(never)]
fn of_number(here: &Scope, line_kind: LineKind, operands: &[Operand<Referent>]) -> Option<Statement>
    requires { IsTrue (takes_number line_kind) }
    ensures { IsStatementOf here.now line_kind operands.now result }
{
    let number = one_number(here, operands)?;
    match line_kind {
        LineKind::Pop => Some(Statement::Pop(number)),
        LineKind::PopDestroy => Some(Statement::PopDestroy(number)),
        LineKind::Leave => Some(Statement::Leave(number)),
        LineKind::LeaveIfError => Some(Statement::LeaveIfError(number)),
        LineKind::MarkEnd => Some(Statement::MarkEnd(number)),
        LineKind::Check => Some(Statement::Check(number)),
        LineKind::CheckAll => Some(Statement::CheckAll(number)),
        LineKind::FailNext => Some(Statement::FailNext(number)),
        LineKind::FailEvery => Some(Statement::FailEvery(number)),
        _ => None,
    }
}

/// The statement of a line; `None` if the line's operands don't fit.
#[inline(never)]
pub(crate) fn statement_of(
    here: &Scope,
    line_kind: LineKind,
    operands: &[Operand<Referent>],
) -> Option<Statement>
    requires { IsTrue (is_lasting line_kind) }
    ensures { IsStatementOf here.now line_kind operands.now result }
{
    match line_kind {
        LineKind::Alloc => alloc(here, operands, Refusal::GivesNull),
        LineKind::AllocL => alloc(here, operands, Refusal::Leaves),
        LineKind::Realloc => realloc(here, operands, Refusal::GivesNull),
        LineKind::ReallocL => realloc(here, operands, Refusal::Leaves),
        LineKind::AllocLen => alloc_len(here, operands),
        LineKind::Store => store(here, operands),
        LineKind::Load => load(here, operands),
        LineKind::New => new_object(here, operands, Refusal::GivesNull),
        LineKind::NewLeave => new_object(here, operands, Refusal::Leaves),
        LineKind::Set => set(here, operands),
        LineKind::SetField => set_field(here, operands),
        LineKind::Null => set_null(here, operands),
        LineKind::Add => add(here, operands),
        LineKind::Free
        | LineKind::Push
        | LineKind::PushObj
        | LineKind::PopCheck
        | LineKind::LeaveIfNull => { of_pointer(here, line_kind, operands) }
        LineKind::Pop | LineKind::PopDestroy | LineKind::Leave | LineKind::LeaveIfError => {
            of_number(here, line_kind, operands)
        }
        LineKind::MarkEnd
        | LineKind::Check
        | LineKind::CheckAll
        | LineKind::FailNext
        | LineKind::FailEvery => { of_number(here, line_kind, operands) }
        LineKind::Mark => statement_without_operands(here, Statement::Mark, operands),
        LineKind::FailNone => statement_without_operands(here, Statement::FailNone, operands),
        LineKind::HNew => new_text(here, operands, Refusal::GivesNull),
        LineKind::HNewL => new_text(here, operands, Refusal::Leaves),
        LineKind::HRealloc => realloc_text(here, operands),
        LineKind::Copy => copy(here, operands),
        LineKind::Append => append(here, operands),
        LineKind::Insert => insert(here, operands),
        LineKind::DelText => delete_text(here, operands),
        LineKind::SetLength => set_length(here, operands),
        LineKind::Left => left(here, operands),
        LineKind::Right => right(here, operands),
        LineKind::Mid => mid(here, operands),
        LineKind::GetLen => get_length(here, operands),
        LineKind::GetMax => get_maximum(here, operands),
        LineKind::Print => print(here, operands),
        LineKind::Heap => statement_without_operands(here, Statement::NoteHeap, operands),
        LineKind::Available => statement_without_operands(here, Statement::NoteAvailable, operands),
        LineKind::Compress => statement_without_operands(here, Statement::NoteCompress, operands),
        _ => None,
    }
}

/// A `return` without a value; `None` inside a `trap`, or if there are operands.
#[inline(never)]
pub(crate) fn return_nothing(
    here: &Scope,
    blocks: &[OpenBlock],
    operands: &[Operand<Referent>],
) -> Option<Statement>
    ensures { IsReturnOf here.now blocks.now line_kind.Return operands.now result }
{
    if has_trap(blocks) {
        return None;
    }
    statement_without_operands(here, Statement::Return, operands)
}

/// A `return` of a pointer; `None` inside a `trap`, or if the operands don't fit.
#[inline(never)]
pub(crate) fn return_pointer(
    here: &Scope,
    blocks: &[OpenBlock],
    operands: &[Operand<Referent>],
) -> Option<Statement>
    ensures { IsReturnOf here.now blocks.now line_kind.ReturnPointer operands.now result }
{
    if has_trap(blocks) {
        return None;
    }
    Some(Statement::ReturnPointer(one_pointer(here, operands)?))
}
