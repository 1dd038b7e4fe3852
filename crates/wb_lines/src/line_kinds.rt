//! The tables of the language that have a row for each line kind. This file doesn't say what a line means.

ghost use Rattle.std.specs.Prelude.{◌≡◌};
ghost use Rattle.wb_tree.specs.QuietLines.{is_quiet};
ghost use Rattle.wb_language.specs.LineKinds.{line_kinds, operand_places_of, rest_of, role_of};
ghost use Rattle.wb_language.specs.LineKinds.{text_of};
ghost use Rattle.wb_lines.specs.FirstBytes.{line_kinds_with_first};

use wb_tree::script_lines::OperandPlace::{
    Argument, Class, Declared, FieldTarget, ItsPointer, Operation, Parameter, Pointer, Printed,
    Procedure, Readable, Receiver, Size, Source, Target, Value, Variable, ViewName, Writable,
    Written,
};
use wb_tree::script_lines::{Keyword, LineKind, OperandPlace, Role};

/// Every line kind, in the order in which they are tried on a line.
pub fn line_kinds() -> &'static [LineKind]
    ensures { result.now ≡ line_kinds }
{
    &[
        LineKind::Class,
        LineKind::Field,
        LineKind::ClassField,
        LineKind::Constructor,
        LineKind::Destructor,
        LineKind::Proc,
        LineKind::Op,
        LineKind::Ptr,
        LineKind::ClassPtr,
        LineKind::Int,
        LineKind::Buf,
        LineKind::View,
        LineKind::Alloc,
        LineKind::AllocL,
        LineKind::Realloc,
        LineKind::ReallocL,
        LineKind::Free,
        LineKind::AllocLen,
        LineKind::Store,
        LineKind::Load,
        LineKind::New,
        LineKind::NewLeave,
        LineKind::Construct,
        LineKind::Delete,
        LineKind::Set,
        LineKind::SetField,
        LineKind::Null,
        LineKind::Add,
        LineKind::Push,
        LineKind::PushObj,
        LineKind::PushOp,
        LineKind::Pop,
        LineKind::PopDestroy,
        LineKind::PopCheck,
        LineKind::Leave,
        LineKind::LeaveIfError,
        LineKind::LeaveIfNull,
        LineKind::Call,
        LineKind::CallTo,
        LineKind::Return,
        LineKind::ReturnPointer,
        LineKind::Mark,
        LineKind::MarkEnd,
        LineKind::Check,
        LineKind::CheckAll,
        LineKind::FailNext,
        LineKind::FailEvery,
        LineKind::FailNone,
        LineKind::HNew,
        LineKind::HNewL,
        LineKind::HRealloc,
        LineKind::Copy,
        LineKind::Append,
        LineKind::Insert,
        LineKind::DelText,
        LineKind::SetLength,
        LineKind::Left,
        LineKind::Right,
        LineKind::Mid,
        LineKind::GetLen,
        LineKind::GetMax,
        LineKind::Print,
        LineKind::Heap,
        LineKind::Available,
        LineKind::Compress,
        LineKind::IfNull,
        LineKind::IfSome,
        LineKind::IfEqual,
        LineKind::IfLess,
        LineKind::Else,
        LineKind::Repeat,
        LineKind::Trap,
        LineKind::End,
    ]
}

/// The line kinds whose text begins with this byte, in the order in which they are tried on a line.
pub(crate) fn line_kinds_with_first(byte: u8) -> &'static [LineKind]
    ensures { result.now ≡ line_kinds_with_first byte }
{
    match byte {
        b'a' => &[
            LineKind::Alloc,
            LineKind::AllocL,
            LineKind::AllocLen,
            LineKind::Add,
            LineKind::Append,
            LineKind::Available,
        ],
        b'b' => &[LineKind::Buf],
        b'c' => &[
            LineKind::Class,
            LineKind::Constructor,
            LineKind::Construct,
            LineKind::Call,
            LineKind::CallTo,
            LineKind::Check,
            LineKind::CheckAll,
            LineKind::Copy,
            LineKind::Compress,
        ],
        b'd' => &[LineKind::Destructor, LineKind::Delete, LineKind::DelText],
        b'e' => &[LineKind::Else, LineKind::End],
        b'f' => &[
            LineKind::Field,
            LineKind::ClassField,
            LineKind::Free,
            LineKind::FailNext,
            LineKind::FailEvery,
            LineKind::FailNone,
        ],
        b'g' => &[LineKind::GetLen, LineKind::GetMax],
        b'h' => &[
            LineKind::HNew,
            LineKind::HNewL,
            LineKind::HRealloc,
            LineKind::Heap,
        ],
        b'i' => &[
            LineKind::Int,
            LineKind::Insert,
            LineKind::IfNull,
            LineKind::IfSome,
            LineKind::IfEqual,
            LineKind::IfLess,
        ],
        b'l' => &[
            LineKind::Load,
            LineKind::Leave,
            LineKind::LeaveIfError,
            LineKind::LeaveIfNull,
            LineKind::Left,
        ],
        b'm' => &[LineKind::Mark, LineKind::MarkEnd, LineKind::Mid],
        b'n' => &[LineKind::New, LineKind::NewLeave, LineKind::Null],
        b'o' => &[LineKind::Op],
        b'p' => &[
            LineKind::Proc,
            LineKind::Ptr,
            LineKind::ClassPtr,
            LineKind::Push,
            LineKind::PushObj,
            LineKind::PushOp,
            LineKind::Pop,
            LineKind::PopDestroy,
            LineKind::PopCheck,
            LineKind::Print,
        ],
        b'r' => &[
            LineKind::Realloc,
            LineKind::ReallocL,
            LineKind::Return,
            LineKind::ReturnPointer,
            LineKind::Right,
            LineKind::Repeat,
        ],
        b's' => &[
            LineKind::Store,
            LineKind::Set,
            LineKind::SetField,
            LineKind::SetLength,
        ],
        b't' => &[LineKind::Trap],
        b'v' => &[LineKind::View],
        _ => &[],
    }
}

/// The word that begins the lines of a line kind.
pub fn text_of(line_kind: LineKind) -> &'static [u8]
    ensures { result.now ≡ text_of line_kind }
{
    match line_kind {
        LineKind::Class => b"class",
        LineKind::Field | LineKind::ClassField => b"field",
        LineKind::Constructor | LineKind::Construct => b"construct",
        LineKind::Destructor => b"destroy",
        LineKind::Proc => b"proc",
        LineKind::Op => b"op",
        LineKind::Ptr | LineKind::ClassPtr => b"ptr",
        LineKind::Int => b"int",
        LineKind::Buf => b"buf",
        LineKind::View => b"view",
        LineKind::Alloc => b"alloc",
        LineKind::AllocL => b"allocl",
        LineKind::Realloc => b"realloc",
        LineKind::ReallocL => b"reallocl",
        LineKind::Free => b"free",
        LineKind::AllocLen => b"alloclen",
        LineKind::Store => b"store",
        LineKind::Load => b"load",
        LineKind::New => b"new",
        LineKind::NewLeave => b"newleave",
        LineKind::Delete => b"delete",
        LineKind::Set | LineKind::SetField => b"set",
        LineKind::Null => b"null",
        LineKind::Add => b"add",
        LineKind::Push => b"push",
        LineKind::PushObj => b"pushobj",
        LineKind::PushOp => b"pushop",
        LineKind::Pop => b"pop",
        LineKind::PopDestroy => b"popdestroy",
        LineKind::PopCheck => b"popcheck",
        LineKind::Leave => b"leave",
        LineKind::LeaveIfError => b"leaveiferror",
        LineKind::LeaveIfNull => b"leaveifnull",
        LineKind::Call => b"call",
        LineKind::CallTo => b"callto",
        LineKind::Return | LineKind::ReturnPointer => b"return",
        LineKind::Mark => b"mark",
        LineKind::MarkEnd => b"markend",
        LineKind::Check => b"check",
        LineKind::CheckAll => b"checkall",
        LineKind::FailNext => b"failnext",
        LineKind::FailEvery => b"failevery",
        LineKind::FailNone => b"failnone",
        LineKind::HNew => b"hnew",
        LineKind::HNewL => b"hnewl",
        LineKind::HRealloc => b"hrealloc",
        LineKind::Copy => b"copy",
        LineKind::Append => b"append",
        LineKind::Insert => b"insert",
        LineKind::DelText => b"deltext",
        LineKind::SetLength => b"setlength",
        LineKind::Left => b"left",
        LineKind::Right => b"right",
        LineKind::Mid => b"mid",
        LineKind::GetLen => b"getlen",
        LineKind::GetMax => b"getmax",
        LineKind::Print => b"print",
        LineKind::Heap => b"heap",
        LineKind::Available => b"available",
        LineKind::Compress => b"compress",
        LineKind::IfNull | LineKind::IfSome | LineKind::IfEqual | LineKind::IfLess => b"if",
        LineKind::Else => b"else",
        LineKind::Repeat => b"repeat",
        LineKind::Trap => b"trap",
        LineKind::End => b"end",
    }
}

/// The operand places that every line of a line kind has, in order.
pub fn operand_places_of(line_kind: LineKind) -> &'static [OperandPlace]
    ensures { result.now ≡ operand_places_of line_kind }
{
    match line_kind {
        LineKind::Class | LineKind::Buf => &[Declared, Size],
        LineKind::Field => &[Declared],
        LineKind::ClassField | LineKind::ClassPtr => &[Declared, Class],
        LineKind::Constructor | LineKind::Destructor => &[],
        LineKind::Proc | LineKind::Ptr | LineKind::Int | LineKind::View => &[Declared],
        LineKind::Op => &[Declared, ItsPointer],
        LineKind::Alloc | LineKind::AllocL => &[Written, Value],
        LineKind::HNew | LineKind::HNewL => &[Written, Value],
        LineKind::Realloc | LineKind::ReallocL | LineKind::HRealloc => &[Written, Pointer, Value],
        LineKind::New | LineKind::NewLeave => &[Written, Class],
        LineKind::Null => &[Written],
        LineKind::Free | LineKind::Construct | LineKind::Delete => &[Pointer],
        LineKind::LeaveIfNull | LineKind::ReturnPointer => &[Pointer],
        LineKind::Leave | LineKind::LeaveIfError | LineKind::Repeat => &[Value],
        LineKind::Call => &[Procedure],
        LineKind::CallTo => &[Receiver, Procedure],
        LineKind::AllocLen => &[Variable, Pointer],
        LineKind::Store => &[Pointer, Value, Value],
        LineKind::Load => &[Variable, Pointer, Value],
        LineKind::Set => &[Target, Source],
        LineKind::SetField => &[FieldTarget, Pointer],
        LineKind::Add => &[Variable, Value],
        LineKind::Push | LineKind::PushObj | LineKind::PopCheck => &[Pointer],
        LineKind::PushOp => &[Pointer, Operation],
        LineKind::Pop | LineKind::PopDestroy => &[Value],
        LineKind::MarkEnd | LineKind::Check | LineKind::CheckAll => &[Value],
        LineKind::FailNext | LineKind::FailEvery => &[Value],
        LineKind::Copy | LineKind::Append => &[Writable, Readable],
        LineKind::Insert => &[Writable, Value, Readable],
        LineKind::DelText => &[Writable, Value, Value],
        LineKind::SetLength => &[Writable, Value],
        LineKind::Left | LineKind::Right => &[ViewName, Readable, Value],
        LineKind::Mid => &[ViewName, Readable, Value, Value],
        LineKind::GetLen => &[Variable, Readable],
        LineKind::GetMax => &[Variable, Writable],
        LineKind::Print => &[Printed],
        LineKind::IfNull => &[OperandPlace::Keyword(Keyword::Null), Pointer],
        LineKind::IfSome => &[OperandPlace::Keyword(Keyword::Some), Pointer],
        LineKind::IfEqual => &[OperandPlace::Keyword(Keyword::Equal), Value, Value],
        LineKind::IfLess => &[OperandPlace::Keyword(Keyword::Less), Value, Value],
        LineKind::Trap => &[Variable],
        LineKind::Mark | LineKind::FailNone | LineKind::Return => &[],
        LineKind::Heap | LineKind::Available | LineKind::Compress => &[],
        LineKind::Else | LineKind::End => &[],
    }
}

/// The operand place of any further words, however many they are; `None` if there may be no further words.
pub fn rest_of(line_kind: LineKind) -> Option<OperandPlace>
    ensures { result ≡ rest_of line_kind }
{
    match line_kind {
        LineKind::Proc => Some(Parameter),
        LineKind::Call | LineKind::CallTo => Some(Argument),
        _ => None,
    }
}

/// The role that the lines of a line kind have in the grammar of blocks.
#[inline(always)]
pub fn role_of(line_kind: LineKind) -> Role
    ensures { result ≡ role_of line_kind }
{
    match line_kind {
        LineKind::Class => Role::Class,
        LineKind::Field | LineKind::ClassField => Role::Field,
        LineKind::Constructor => Role::Construct,
        LineKind::Destructor => Role::Destroy,
        LineKind::Proc | LineKind::Op => Role::Procedure,
        LineKind::Ptr | LineKind::ClassPtr => Role::Declaration,
        LineKind::Int | LineKind::Buf | LineKind::View => Role::Declaration,
        LineKind::Alloc | LineKind::Realloc | LineKind::Free | LineKind::AllocLen => Role::Plain,
        LineKind::Store | LineKind::Load | LineKind::Null | LineKind::Add => Role::Plain,
        LineKind::New | LineKind::NewLeave | LineKind::Construct | LineKind::Delete => Role::Plain,
        LineKind::Set | LineKind::SetField => Role::Plain,
        LineKind::Push | LineKind::Pop | LineKind::PopDestroy | LineKind::PopCheck => Role::Plain,
        LineKind::PushObj | LineKind::PushOp => Role::Plain,
        LineKind::Mark | LineKind::MarkEnd | LineKind::Check | LineKind::CheckAll => Role::Plain,
        LineKind::FailNext | LineKind::FailEvery | LineKind::FailNone => Role::Plain,
        LineKind::HNew | LineKind::HRealloc | LineKind::Copy | LineKind::Append => Role::Plain,
        LineKind::Insert | LineKind::DelText | LineKind::SetLength => Role::Plain,
        LineKind::Left | LineKind::Right | LineKind::Mid | LineKind::GetLen | LineKind::GetMax =>
            Role::Plain,
        LineKind::Print => Role::Plain,
        LineKind::Heap | LineKind::Available | LineKind::Compress => Role::Plain,
        LineKind::AllocL | LineKind::ReallocL | LineKind::HNewL => Role::Plain,
        LineKind::Leave | LineKind::LeaveIfError | LineKind::LeaveIfNull => Role::Plain,
        LineKind::Call | LineKind::CallTo | LineKind::Return | LineKind::ReturnPointer =>
            Role::Plain,
        LineKind::IfNull | LineKind::IfSome | LineKind::IfEqual | LineKind::IfLess => Role::If,
        LineKind::Else => Role::Else,
        LineKind::Repeat | LineKind::Trap => Role::Loop,
        LineKind::End => Role::End,
    }
}

/// Whether lines of a line kind are allowed in the body of an operation or of a destructor. None of these lines can leave.
pub fn is_quiet(line_kind: LineKind) -> bool
    ensures { result ≡ is_quiet line_kind }
{
    match line_kind {
        LineKind::Ptr | LineKind::ClassPtr | LineKind::Int => true,
        LineKind::Free | LineKind::Delete => true,
        LineKind::Set | LineKind::SetField | LineKind::Null | LineKind::Add => true,
        LineKind::AllocLen | LineKind::Load | LineKind::Store => true,
        LineKind::IfNull | LineKind::IfSome | LineKind::IfEqual | LineKind::IfLess => true,
        LineKind::Else | LineKind::Repeat | LineKind::End => true,
        LineKind::Print | LineKind::Heap | LineKind::Available | LineKind::Compress => true,
        LineKind::Class | LineKind::Field | LineKind::ClassField => false,
        LineKind::Constructor | LineKind::Destructor | LineKind::Proc | LineKind::Op => false,
        LineKind::Buf | LineKind::View | LineKind::Trap => false,
        LineKind::Alloc | LineKind::AllocL | LineKind::Realloc | LineKind::ReallocL => false,
        LineKind::New | LineKind::NewLeave | LineKind::Construct => false,
        LineKind::Push | LineKind::PushObj | LineKind::PushOp => false,
        LineKind::Pop | LineKind::PopDestroy | LineKind::PopCheck => false,
        LineKind::Leave | LineKind::LeaveIfError | LineKind::LeaveIfNull => false,
        LineKind::Call | LineKind::CallTo | LineKind::Return | LineKind::ReturnPointer => false,
        LineKind::Mark | LineKind::MarkEnd | LineKind::Check | LineKind::CheckAll => false,
        LineKind::FailNext | LineKind::FailEvery | LineKind::FailNone => false,
        LineKind::HNew | LineKind::HNewL | LineKind::HRealloc => false,
        LineKind::Copy | LineKind::Append | LineKind::Insert | LineKind::DelText => false,
        LineKind::SetLength | LineKind::Left | LineKind::Right | LineKind::Mid => false,
        LineKind::GetLen | LineKind::GetMax => false,
    }
}
