//! A script as a tree, in which indexes stand for names. Each class, procedure, operation and statement keeps its line number; lines count
//! from 1.

use wb_basics::items::{Chars, Items};

/// A variable that holds a pointer: a local by its index, or `self`.
#[derive(Clone, Copy)]
pub enum Holder {
    Local(u8),
    This,
}

/// A pointer operand.
#[derive(Clone, Copy)]
pub enum Pointer {
    Held(Holder),
    /// A field of an object. The values are the holder of the pointer to the object, the index of the holder's declared class, and the
    /// index of the field in this class.
    Field(Holder, u16, u8),
}

/// A number operand: a constant, or a local by its index.
#[derive(Clone, Copy)]
pub enum Number {
    Constant(i32),
    Variable(u8),
}

/// A text that can be changed: a local TBuf by its index, or an HBufC by a pointer to its cell.
#[derive(Clone, Copy)]
pub enum Writable {
    OwnBuffer(u8),
    InCell(Pointer),
}

/// A text that can be read: a text that can be changed, a local view by its index, or a literal by its index.
#[derive(Clone, Copy)]
pub enum Readable {
    Of(Writable),
    ViewOf(u8),
    Quoted(u32),
}

/// What an `if` tests.
#[derive(Clone, Copy)]
pub enum Condition {
    IsNull(Pointer),
    NotNull(Pointer),
    Equal(Number, Number),
    Less(Number, Number),
}

/// An argument of a call.
#[derive(Clone, Copy)]
pub enum Argument {
    Passed(Pointer),
    Given(Number),
}

/// What an allocation does if its attempt fails.
#[derive(Clone, Copy)]
pub enum Refusal {
    GivesNull,
    Leaves,
}

/// A statement, with the number of its line.
#[cycle(statements)]
#[derive(Drop)]
pub struct StatementAt {
    pub line: u32,
    pub statement: Statement,
}

/// A statement, including the statements inside it. A statement names each local by its index.
#[cycle(statements)]
#[derive(Drop)]
pub enum Statement {
    Alloc(Pointer, Number, Refusal),
    Realloc(Pointer, Pointer, Number, Refusal),
    Free(Pointer),
    AllocLen(u8, Pointer),
    Store(Pointer, Number, Number),
    Load(u8, Pointer, Number),
    New(Pointer, u16, Refusal),
    Construct(Pointer),
    Delete(Pointer),
    Set(Pointer, Pointer),
    SetNumber(u8, Number),
    SetNull(Pointer),
    Add(u8, Number),
    Push(Pointer),
    PushObject(Pointer),
    PushOperation(Pointer, u16),
    Pop(Number),
    PopDestroy(Number),
    PopCheck(Pointer),
    Leave(Number),
    LeaveIfError(Number),
    LeaveIfNull(Pointer),
    Call(u16, Items<Argument>),
    CallTo(u8, u16, Items<Argument>),
    Return,
    ReturnPointer(Pointer),
    Mark,
    MarkEnd(Number),
    Check(Number),
    CheckAll(Number),
    FailNext(Number),
    FailEvery(Number),
    FailNone,
    NewText(Pointer, Number, Refusal),
    ReallocText(Pointer, Pointer, Number),
    Copy(Writable, Readable),
    Append(Writable, Readable),
    Insert(Writable, Number, Readable),
    DeleteText(Writable, Number, Number),
    SetLength(Writable, Number),
    Left(u8, Readable, Number),
    Right(u8, Readable, Number),
    Mid(u8, Readable, Number, Number),
    GetLength(u8, Readable),
    GetMaximum(u8, Writable),
    PrintText(Readable),
    PrintNumber(Number),
    NoteHeap,
    NoteAvailable,
    NoteCompress,
    /// An `if` without an `else`.
    If(Condition, Items<StatementAt>),
    IfElse(Condition, Items<StatementAt>, Items<StatementAt>),
    Repeat(Number, Items<StatementAt>),
    Trap(u8, Items<StatementAt>),
}

/// What a local holds, and its initial value.
#[derive(Clone, Copy)]
pub enum Local {
    /// A pointer that is null at first. The value is the index of the pointer's class if the pointer is declared with a class.
    OfPointer(Option<u16>),
    OfNumber,
    /// A buffer: at first an empty text, with this maximum length in units.
    OfBuffer(u16),
    OfView,
}

/// The locals that a body declares, and its statements.
#[derive(Drop)]
pub struct Body {
    /// The locals that the body itself declares. Their indexes come after the indexes of the parameters.
    pub locals: Items<Local>,
    pub statements: Items<StatementAt>,
}

/// A parameter of a procedure.
#[derive(Clone, Copy)]
pub enum Parameter {
    /// A pointer. The value is the index of the pointer's class if the pointer is declared with a class.
    OfPointer(Option<u16>),
    OfNumber,
}

/// A procedure. Its parameters are its first locals.
#[derive(Drop)]
pub struct Procedure {
    pub line: u32,
    pub parameters: Items<Parameter>,
    pub body: Body,
}

/// An operation. Its only parameter is a pointer, which is local 0.
#[derive(Drop)]
pub struct Operation {
    pub line: u32,
    pub body: Body,
}

/// A class.
#[derive(Drop)]
pub struct Class {
    pub line: u32,
    /// How many extra bytes an object has after its fields.
    pub extra: u32,
    /// For each field, the index of the field's class if the field is declared with a class.
    pub fields: Items<Option<u16>>,
    pub construct: Option<Body>,
    pub destroy: Option<Body>,
}

/// A whole script. Each class, procedure, operation and literal is named by its index; indexes follow the order of the lines.
#[derive(Drop)]
pub struct Script {
    pub classes: Items<Class>,
    pub procedures: Items<Procedure>,
    pub operations: Items<Operation>,
    pub literals: Items<Chars>,
    /// The index of `main` among the procedures.
    pub main: u16,
}
