//! What a line of a script says, both before and after its names are looked up. The tables of the language are in `specs/LineKinds.antt` of
//! `wb_language`.

use wb_basics::items::Items;

/// The kind of a line. Most kinds have their own first word. If a line begins with `field`, `ptr`, `set`, `return` or `if`, the words after
/// that word decide its kind.
#[derive(Clone, Copy)]
pub enum LineKind {
    Class,
    /// A field that is declared without a class.
    Field,
    /// A field that is declared with a class.
    ClassField,
    Constructor,
    Destructor,
    Proc,
    Op,
    Ptr,
    /// A pointer that is declared with a class.
    ClassPtr,
    Int,
    Buf,
    View,
    Alloc,
    AllocL,
    Realloc,
    ReallocL,
    Free,
    AllocLen,
    Store,
    Load,
    New,
    NewLeave,
    Construct,
    Delete,
    Set,
    /// A `set` that writes a field.
    SetField,
    Null,
    Add,
    Push,
    PushObj,
    PushOp,
    Pop,
    PopDestroy,
    PopCheck,
    Leave,
    LeaveIfError,
    LeaveIfNull,
    Call,
    CallTo,
    Return,
    ReturnPointer,
    Mark,
    MarkEnd,
    Check,
    CheckAll,
    FailNext,
    FailEvery,
    FailNone,
    HNew,
    HNewL,
    HRealloc,
    Copy,
    Append,
    Insert,
    DelText,
    SetLength,
    Left,
    Right,
    Mid,
    GetLen,
    GetMax,
    Print,
    Heap,
    Available,
    Compress,
    IfNull,
    IfSome,
    IfEqual,
    IfLess,
    Else,
    Repeat,
    Trap,
    End,
}

/// What a line has at a position after its first word. For each such place, the tables of the language say which words are grammatical and
/// which kinds of operands are right.
#[derive(Clone, Copy)]
pub enum OperandPlace {
    /// A name that the line declares.
    Declared,
    /// A pointer that the line reads: the name of a pointer, or a field.
    Pointer,
    /// A pointer that the line writes: the name of a pointer, or a field.
    Written,
    /// The name of the pointer local that receives a call's result. A field is grammatical here, but never right.
    Receiver,
    /// A field that a `set` writes.
    FieldTarget,
    /// A number, or the name of a local that holds a number.
    Value,
    /// The name of a local that holds a number.
    Variable,
    /// What a `set` writes if it doesn't write a field: the name of a pointer, or of a local that holds a number.
    Target,
    /// What a `set` that doesn't write a field reads: a number, the name of a pointer or of a local that holds a number, or a field.
    Source,
    /// The greatest length of a text, or the extra bytes of a class: a number from 0 on.
    Size,
    /// A text that can be changed: the name of a local buffer or of a pointer to a text in a cell, or a field.
    Writable,
    /// A text that can be read: a text that can be changed, the name of a view, or a literal.
    Readable,
    /// The name of a view.
    ViewName,
    /// What a line prints: a number, the name of a local that holds a number, or a text that can be read.
    Printed,
    /// The name of a class.
    Class,
    /// The name of a procedure.
    Procedure,
    /// The name of an operation.
    Operation,
    /// A parameter that the line declares, with its kind.
    Parameter,
    /// The name of the only parameter of an operation; this parameter is a pointer.
    ItsPointer,
    /// What a call passes: a number, the name of a pointer or of a local that holds a number, or a field.
    Argument,
    /// A keyword that belongs to this kind of line.
    Keyword(Keyword),
}

/// The keyword that says what an `if` tests.
#[derive(Clone, Copy)]
pub enum Keyword {
    Null,
    Some,
    Equal,
    Less,
}

/// The kind of an item. Here an item is a class, procedure or operation, which the script declares outside of all bodies.
#[derive(Clone, Copy)]
pub enum ItemKind {
    Class,
    Procedure,
    Operation,
}

/// What a body belongs to.
#[derive(Clone, Copy)]
pub enum BodyKind {
    Procedure,
    Operation,
    /// The `construct` of a class.
    Constructor,
    /// The `destroy` of a class.
    Destructor,
}

/// The kind of a word in the grammar.
#[derive(Clone, Copy)]
pub enum WordKind {
    /// A name that can be declared.
    NewName,
    /// A name that is used.
    Name,
    /// A name, a dot, and the name of a field.
    Field,
    Number,
    /// A number from 0 on.
    Size,
    /// A text between quotes.
    Literal,
    /// A name that can be declared, a colon, and a kind.
    Parameter,
    /// A name that can be declared, for the parameter of an operation. This parameter is a pointer.
    NewPointer,
    Keyword(Keyword),
}

/// What a parameter takes. `N` is the type of a class name, or of what a class name stands for.
#[derive(Clone, Copy)]
pub enum ParameterType<N> {
    Pointer,
    Number,
    /// A pointer that is declared with a class.
    OfClass(N),
}

/// What a local holds. `N` is the type of a class name.
#[derive(Clone, Copy)]
pub enum LocalKind<N> {
    /// A pointer. The value is the pointer's class if the pointer is declared with a class.
    Pointer(Option<N>),
    Number,
    /// A buffer, which holds a text itself.
    Buffer,
    View,
}

/// A word after a line's first word. `N` is the type of a name or of a literal's text: either the bytes of it, or what the bytes stand for.
#[derive(Clone, Copy)]
pub enum Operand<N> {
    Name(N),
    /// A field of an object. The values are the variable that holds the pointer to the object, and the field.
    Field(N, N),
    Number(i32),
    /// A number in a place that allows only numbers from 0 on.
    Size(u32),
    /// The text of a literal, without its quotes.
    Literal(N),
    /// A parameter's name, and what the parameter takes.
    Parameter(N, ParameterType<N>),
    /// A keyword that belongs to this kind of line.
    Keyword,
}

/// What a name or a literal stands for. Indexes count from 0. Locals are counted in their body, and fields in their class. Classes,
/// procedures, operations and literals are each counted in the script.
#[derive(Clone, Copy)]
pub enum Referent {
    /// The index of what the line declares: the next class, procedure or operation, the next field of a class, or the next local of the
    /// body.
    Declared(usize),
    /// A local that holds a pointer.
    Pointer(usize),
    /// A local that holds a number.
    Number(usize),
    /// A local that holds a text.
    Buffer(usize),
    /// A local that holds a view.
    View(usize),
    /// `self`, in a `construct` or `destroy` body: the object on which the body runs.
    This,
    Literal(usize),
    Class(usize),
    Procedure(usize),
    Operation(usize),
    /// A field. The values are the index of its class, and the index of the field in this class.
    Field(usize, usize),
    /// A field of a variable that isn't declared with a class.
    Classless,
    /// The next parameter of the procedure or operation that the line begins. The order of the words says which parameter this is.
    Parameter,
    /// Nothing, because the script declares no such name.
    Nothing,
}

/// The kind of an operand.
#[derive(Clone, Copy)]
pub enum OperandKind {
    Declared,
    /// A local that holds a pointer.
    Pointer,
    /// `self`.
    This,
    /// A field of an object.
    Field,
    /// A local that holds a number.
    Variable,
    /// A local that holds a text.
    Buffer,
    /// A local that holds a view.
    View,
    Number,
    Size,
    Literal,
    Class,
    Procedure,
    Operation,
    Parameter,
    Keyword,
    /// A name that the script doesn't declare, a field that isn't found, or a parameter whose kind names no class.
    Nothing,
}

/// What a line says.
#[derive(Drop)]
pub enum Form<N> {
    /// The line says nothing: it is blank, or a comment.
    Skip,
    /// Words that fit no line of the language.
    Unknown,
    Line(LineKind, Items<Operand<N>>),
}

/// The role of a line in the grammar of blocks.
#[derive(Clone, Copy)]
pub enum Role {
    Skip,
    Unknown,
    Class,
    Field,
    Construct,
    Destroy,
    /// Begins a procedure or an operation.
    Procedure,
    /// Declares a local.
    Declaration,
    /// A statement with no other statement inside it.
    Plain,
    /// Begins a `repeat` or a `trap`.
    Loop,
    If,
    Else,
    End,
}
