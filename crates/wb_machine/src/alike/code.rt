//! Whether statements are the same. If the statements that two runs still have to do are the same, the two runs are at the same place of
//! one script.

ghost use Rattle.std.specs.Prelude.{◌≡◌, true};

use super::operands::{
    same_arguments, same_condition, same_number, same_pointer, same_readable, same_refusal,
    same_writable,
};
use wb_basics::limits::DEEPEST_BLOCK;
use wb_tree::script::{Statement, StatementAt};

/// Whether two statements that get, change or release cells are the same; `false` for statements of other kinds.
fn same_on_cells(statement: &Statement, other: &Statement) -> bool
    ensures { result ≡ true → other.now ≡ statement.now }
{
    match (statement, other) {
        (Statement::Alloc(to, bytes, refusal), Statement::Alloc(to_other, other, refusing)) => {
            same_pointer(*to, *to_other)
                && same_number(*bytes, *other)
                && same_refusal(*refusal, *refusing)
        }
        (
            Statement::Realloc(to, from, bytes, refusal),
            Statement::Realloc(to_other, from_other, other, refusing),
        ) => {
            same_pointer(*to, *to_other)
                && same_pointer(*from, *from_other)
                && same_number(*bytes, *other)
                && same_refusal(*refusal, *refusing)
        }
        (Statement::Free(pointer), Statement::Free(other)) => same_pointer(*pointer, *other),
        (Statement::AllocLen(local, pointer), Statement::AllocLen(gets, other)) => {
            local == gets && same_pointer(*pointer, *other)
        }
        (Statement::Store(pointer, at, value), Statement::Store(other, other_at, stored)) => {
            same_pointer(*pointer, *other)
                && same_number(*at, *other_at)
                && same_number(*value, *stored)
        }
        (Statement::Load(local, pointer, at), Statement::Load(gets, other, other_at)) => {
            local == gets && same_pointer(*pointer, *other) && same_number(*at, *other_at)
        }
        _ => false,
    }
}

/// Whether two statements on objects, or on items of the cleanup stack, are the same; `false` for statements of other kinds.
fn same_on_objects(statement: &Statement, other: &Statement) -> bool
    ensures { result ≡ true → other.now ≡ statement.now }
{
    match (statement, other) {
        (Statement::New(to, class, refusal), Statement::New(to_other, other, refusing)) => {
            same_pointer(*to, *to_other) && class == other && same_refusal(*refusal, *refusing)
        }
        (Statement::Construct(pointer), Statement::Construct(other)) => {
            same_pointer(*pointer, *other)
        }
        (Statement::Delete(pointer), Statement::Delete(other)) => same_pointer(*pointer, *other),
        (Statement::Push(pointer), Statement::Push(other)) => same_pointer(*pointer, *other),
        (Statement::PushObject(pointer), Statement::PushObject(other)) => {
            same_pointer(*pointer, *other)
        }
        (
            Statement::PushOperation(pointer, operation),
            Statement::PushOperation(other, other_operation),
        ) => same_pointer(*pointer, *other) && operation == other_operation,
        (Statement::Pop(count), Statement::Pop(other)) => same_number(*count, *other),
        (Statement::PopDestroy(count), Statement::PopDestroy(other)) => same_number(*count, *other),
        (Statement::PopCheck(pointer), Statement::PopCheck(other)) => {
            same_pointer(*pointer, *other)
        }
        _ => false,
    }
}

/// Whether two statements on variables are the same; `false` for statements of other kinds.
fn same_on_variables(statement: &Statement, other: &Statement) -> bool
    ensures { result ≡ true → other.now ≡ statement.now }
{
    match (statement, other) {
        (Statement::Set(to, from), Statement::Set(to_other, from_other)) => {
            same_pointer(*to, *to_other) && same_pointer(*from, *from_other)
        }
        (Statement::SetNumber(local, value), Statement::SetNumber(gets, other)) => {
            local == gets && same_number(*value, *other)
        }
        (Statement::SetNull(pointer), Statement::SetNull(other)) => same_pointer(*pointer, *other),
        (Statement::Add(local, value), Statement::Add(gets, other)) => {
            local == gets && same_number(*value, *other)
        }
        _ => false,
    }
}

/// Whether two leaves, two calls or two ends of bodies are the same; `false` for statements of other kinds.
fn same_on_bodies(statement: &Statement, other: &Statement) -> bool
    ensures { result ≡ true → other.now ≡ statement.now }
{
    match (statement, other) {
        (Statement::Leave(code), Statement::Leave(other)) => same_number(*code, *other),
        (Statement::LeaveIfError(code), Statement::LeaveIfError(other)) => {
            same_number(*code, *other)
        }
        (Statement::LeaveIfNull(pointer), Statement::LeaveIfNull(other)) => {
            same_pointer(*pointer, *other)
        }
        (Statement::Call(index, arguments), Statement::Call(other, others)) => {
            index == other && same_arguments(arguments.as_slice(), others.as_slice())
        }
        (Statement::CallTo(local, index, arguments), Statement::CallTo(gets, other, others)) => {
            local == gets
                && index == other
                && same_arguments(arguments.as_slice(), others.as_slice())
        }
        (Statement::Return, Statement::Return) => true,
        (Statement::ReturnPointer(pointer), Statement::ReturnPointer(other)) => {
            same_pointer(*pointer, *other)
        }
        _ => false,
    }
}

/// Whether two statements on marks, checks, the script's setting or notes are the same; `false` for statements of other kinds.
fn same_on_heap(statement: &Statement, other: &Statement) -> bool
    ensures { result ≡ true → other.now ≡ statement.now }
{
    match (statement, other) {
        (Statement::Mark, Statement::Mark) => true,
        (Statement::MarkEnd(count), Statement::MarkEnd(other)) => same_number(*count, *other),
        (Statement::Check(count), Statement::Check(other)) => same_number(*count, *other),
        (Statement::CheckAll(count), Statement::CheckAll(other)) => same_number(*count, *other),
        (Statement::FailNext(rate), Statement::FailNext(other)) => same_number(*rate, *other),
        (Statement::FailEvery(rate), Statement::FailEvery(other)) => same_number(*rate, *other),
        (Statement::FailNone, Statement::FailNone) => true,
        (Statement::NoteHeap, Statement::NoteHeap) => true,
        (Statement::NoteAvailable, Statement::NoteAvailable) => true,
        (Statement::NoteCompress, Statement::NoteCompress) => true,
        _ => false,
    }
}

/// Whether two statements that make or change texts are the same; `false` for statements of other kinds.
fn same_on_texts(statement: &Statement, other: &Statement) -> bool
    ensures { result ≡ true → other.now ≡ statement.now }
{
    match (statement, other) {
        (Statement::NewText(to, max, refusal), Statement::NewText(to_other, other, refusing)) => {
            same_pointer(*to, *to_other)
                && same_number(*max, *other)
                && same_refusal(*refusal, *refusing)
        }
        (
            Statement::ReallocText(to, from, max),
            Statement::ReallocText(to_other, from_other, other),
        ) => {
            same_pointer(*to, *to_other)
                && same_pointer(*from, *from_other)
                && same_number(*max, *other)
        }
        (Statement::Copy(text, source), Statement::Copy(other, other_source)) => {
            same_writable(*text, *other) && same_readable(*source, *other_source)
        }
        (Statement::Append(text, source), Statement::Append(other, other_source)) => {
            same_writable(*text, *other) && same_readable(*source, *other_source)
        }
        (Statement::Insert(text, at, source), Statement::Insert(other, other_at, from)) => {
            same_writable(*text, *other)
                && same_number(*at, *other_at)
                && same_readable(*source, *from)
        }
        (Statement::DeleteText(text, at, count), Statement::DeleteText(other, from, deleted)) => {
            same_writable(*text, *other) && same_number(*at, *from) && same_number(*count, *deleted)
        }
        (Statement::SetLength(text, length), Statement::SetLength(other, other_length)) => {
            same_writable(*text, *other) && same_number(*length, *other_length)
        }
        _ => false,
    }
}

/// Whether two statements that read texts, or print, are the same; `false` for statements of other kinds.
fn same_on_views(statement: &Statement, other: &Statement) -> bool
    ensures { result ≡ true → other.now ≡ statement.now }
{
    match (statement, other) {
        (Statement::Left(view, text, count), Statement::Left(gets, other, other_count)) => {
            view == gets && same_readable(*text, *other) && same_number(*count, *other_count)
        }
        (Statement::Right(view, text, count), Statement::Right(gets, other, other_count)) => {
            view == gets && same_readable(*text, *other) && same_number(*count, *other_count)
        }
        (Statement::Mid(view, text, at, count), Statement::Mid(gets, other, from, taken)) => {
            view == gets
                && same_readable(*text, *other)
                && same_number(*at, *from)
                && same_number(*count, *taken)
        }
        (Statement::GetLength(local, text), Statement::GetLength(gets, other)) => {
            local == gets && same_readable(*text, *other)
        }
        (Statement::GetMaximum(local, text), Statement::GetMaximum(gets, other)) => {
            local == gets && same_writable(*text, *other)
        }
        (Statement::PrintText(text), Statement::PrintText(other)) => same_readable(*text, *other),
        (Statement::PrintNumber(value), Statement::PrintNumber(other)) => {
            same_number(*value, *other)
        }
        _ => false,
    }
}

/// Whether two statements without a block inside are the same; `false` for any other statements.
fn same_plain(statement: &Statement, other: &Statement) -> bool
    ensures { result ≡ true → other.now ≡ statement.now }
{
    same_on_cells(statement, other)
        || same_on_objects(statement, other)
        || same_on_variables(statement, other)
        || same_on_bodies(statement, other)
        || same_on_heap(statement, other)
        || same_on_texts(statement, other)
        || same_on_views(statement, other)
}

/// Whether two statements with blocks inside are the same; `false` for any other statements. Blocks are compared `levels` levels deep, and
/// deeper blocks count as different.
#[cycle(blocks)]
fn same_nested(levels: u32, statement: &Statement, other: &Statement) -> bool
    ensures { result ≡ true → other.now ≡ statement.now }
{
    let Some(levels) = levels.checked_sub(1) else {
        return false;
    };
    match (statement, other) {
        (Statement::If(condition, block), Statement::If(other, other_block)) => {
            same_condition(*condition, *other)
                && same_block(levels, block.as_slice(), other_block.as_slice())
        }
        (
            Statement::IfElse(condition, block, otherwise),
            Statement::IfElse(other, other_block, other_otherwise),
        ) => {
            same_condition(*condition, *other)
                && same_block(levels, block.as_slice(), other_block.as_slice())
                && same_block(levels, otherwise.as_slice(), other_otherwise.as_slice())
        }
        (Statement::Repeat(count, body), Statement::Repeat(other, other_body)) => {
            same_number(*count, *other)
                && same_block(levels, body.as_slice(), other_body.as_slice())
        }
        (Statement::Trap(local, body), Statement::Trap(gets, other_body)) => {
            local == gets && same_block(levels, body.as_slice(), other_body.as_slice())
        }
        _ => false,
    }
}

/// Whether two statements are the same, and on the same line of the script. Blocks inside are compared `levels` levels deep, and deeper
/// blocks count as different.
#[cycle(blocks)]
fn same_statement(levels: u32, one: &StatementAt, other: &StatementAt) -> bool
    ensures { result ≡ true → other.now ≡ one.now }
{
    one.line == other.line
        && (same_plain(&one.statement, &other.statement)
            || same_nested(levels, &one.statement, &other.statement))
}

/// Whether two blocks are the same. The blocks inside are compared `levels` levels deep, and deeper blocks count as different.
#[cycle(blocks)]
fn same_block(levels: u32, statements: &[StatementAt], others: &[StatementAt]) -> bool
    ensures { result ≡ true → others.now ≡ statements.now }
{
    let (mut left, mut other_left) = (statements, others);
    while let [statement, rest @ ..] = left {
        let [other, other_rest @ ..] = other_left else {
            return false;
        };
        if !same_statement(levels, statement, other) {
            return false;
        }
        left = rest;
        other_left = other_rest;
    }
    other_left.is_empty()
}

/// Whether two blocks, or two rests of blocks, are the same.
pub fn same_statements(statements: &[StatementAt], others: &[StatementAt]) -> bool
    ensures { result ≡ true → others.now ≡ statements.now }
{
    statements.len() == others.len() && same_block(DEEPEST_BLOCK, statements, others)
}
