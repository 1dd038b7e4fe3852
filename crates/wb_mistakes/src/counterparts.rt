//! What scripts use instead of words of Symbian C++. "Line by line" in `docs/IDIOMS.md` has the same table, in the same order.

use wb_tree::script_lines::LineKind;

/// Words of C++, the kinds of script lines that do the same, and a hint. There are no kinds of lines if the hint says everything. The hint
/// may be empty.
#[derive(Clone, Copy)]
pub struct Counterpart(&'static [&'static str], &'static [LineKind], &'static str);

impl Counterpart {
    /// Whether this counterpart is for the given word of C++.
    fn is_of(self, word: &[u8]) -> bool {
        self.0.iter().any(|it| it.as_bytes() == word)
    }

    pub fn line_kinds(self) -> &'static [LineKind] {
        self.1
    }

    pub fn hint(self) -> &'static str {
        self.2
    }
}

/// The hint that says how a class counts the bytes of its members that aren't pointers.
pub const EXTRA_BYTES: &str =
    "a member that is no pointer adds to the extra bytes of its class: NUMBER in `class NAME NUMBER`";

/// The hint that says how a class declares its members that are pointers.
pub const POINTER_MEMBER: &str = "`field NAME` is for a member";

/// The hint that says what a procedure does instead of returning a number.
pub const NUMBER_RETURNED: &str =
    "a procedure returns no number: `leave NUMBER` hands a code to the `trap INT` of its caller";

/// The hint that says how a script writes an error code.
pub const CODE_AS_NUMBER: &str = "a code is written as its number: `KErrNoMemory` is -4";

/// The hint that says how a script separates words.
pub const WORDS_APART: &str = "words are separated by blanks, without brackets, `,` or `;`";

/// The hint that says how a script puts a new cell on the cleanup stack.
const THEN_PUSHED: &str = "`push POINTER` is a line of its own, after it";

static COUNTERPARTS: [Counterpart; 48] = [
    Counterpart(
        &["CleanupStack::PushL"],
        &[LineKind::Push, LineKind::PushObj, LineKind::PushOp],
        "`pushobj` is for an object, `pushop` for a `TCleanupItem`",
    ),
    Counterpart(
        &[
            "CleanupClosePushL",
            "CleanupReleasePushL",
            "CleanupDeletePushL",
        ],
        &[LineKind::PushOp],
        "the operation does what is to be done: `op NAME NAME` begins it",
    ),
    Counterpart(
        &["CleanupStack::Pop"],
        &[LineKind::Pop, LineKind::PopCheck],
        "`popcheck` is `Pop(pointer)`",
    ),
    Counterpart(
        &["CleanupStack::PopAndDestroy"],
        &[LineKind::PopDestroy],
        "`PopAndDestroy(pointer)` is `popcheck POINTER`, and then `delete POINTER` or `free POINTER`",
    ),
    Counterpart(
        &["TRAP", "TRAPD"],
        &[LineKind::Trap],
        "the lines that may leave come between it and an `end`; `int NAME` declares the int",
    ),
    Counterpart(&["User::Leave"], &[LineKind::Leave], CODE_AS_NUMBER),
    Counterpart(
        &["User::LeaveNoMemory"],
        &[LineKind::Leave],
        "the number is -4",
    ),
    Counterpart(&["User::LeaveIfError"], &[LineKind::LeaveIfError], ""),
    Counterpart(&["User::LeaveIfNull"], &[LineKind::LeaveIfNull], ""),
    Counterpart(
        &["new"],
        &[LineKind::New, LineKind::NewLeave],
        "`newleave` is `new (ELeave)`",
    ),
    Counterpart(&["ELeave"], &[LineKind::NewLeave], ""),
    Counterpart(&["ConstructL"], &[LineKind::Construct], ""),
    Counterpart(
        &["~"],
        &[LineKind::Destructor],
        "it begins the body of the destructor, inside its class",
    ),
    Counterpart(&["User::Alloc"], &[LineKind::Alloc], ""),
    Counterpart(&["User::AllocL"], &[LineKind::AllocL], ""),
    Counterpart(&["User::AllocLC"], &[LineKind::AllocL], THEN_PUSHED),
    Counterpart(
        &["User::ReAlloc"],
        &[LineKind::Realloc],
        "the first pointer gets the answer, the second names the cell",
    ),
    Counterpart(
        &["User::ReAllocL"],
        &[LineKind::ReallocL],
        "the first pointer gets the answer, the second names the cell",
    ),
    Counterpart(&["User::AllocLen"], &[LineKind::AllocLen], ""),
    Counterpart(&["User::Free"], &[LineKind::Free], ""),
    Counterpart(&["HBufC::New"], &[LineKind::HNew], ""),
    Counterpart(&["HBufC::NewL"], &[LineKind::HNewL], ""),
    Counterpart(&["HBufC::NewLC"], &[LineKind::HNewL], THEN_PUSHED),
    Counterpart(
        &["AllocL"],
        &[LineKind::HNewL, LineKind::AllocL],
        "that of a descriptor is `hnewl`, and then a `copy`",
    ),
    Counterpart(
        &["ReAlloc"],
        &[LineKind::HRealloc],
        "the first pointer gets the answer, the second names the cell",
    ),
    Counterpart(
        &["ReAllocL", "hreallocl"],
        &[LineKind::HRealloc],
        "it gives null if its attempt fails, and a `leaveifnull POINTER` after it leaves then",
    ),
    Counterpart(
        &["Des"],
        &[LineKind::Copy, LineKind::Append],
        "the text itself is the operand, without `Des`",
    ),
    Counterpart(
        &["_L", "_LIT"],
        &[],
        "a text stands in the line that uses it, between double quotes",
    ),
    Counterpart(
        &["while", "for", "do"],
        &[LineKind::Repeat],
        "it has a count; an `if` inside passes over the turns that are too many",
    ),
    Counterpart(
        &["NULL"],
        &[LineKind::Null, LineKind::IfNull, LineKind::IfSome],
        "",
    ),
    Counterpart(&["="], &[LineKind::Set, LineKind::SetField], ""),
    Counterpart(&["+=", "-="], &[LineKind::Add], ""),
    Counterpart(&["("], &[LineKind::Call, LineKind::CallTo], WORDS_APART),
    Counterpart(
        &["void"],
        &[LineKind::Proc],
        "the second phase of a class is `construct`, inside the class",
    ),
    Counterpart(&["TInt", "TUint", "TBool"], &[LineKind::Int], EXTRA_BYTES),
    Counterpart(&["TBuf"], &[LineKind::Buf], ""),
    Counterpart(&["TPtrC"], &[LineKind::View], ""),
    Counterpart(
        &["*"],
        &[LineKind::Ptr, LineKind::ClassPtr, LineKind::Field],
        POINTER_MEMBER,
    ),
    Counterpart(
        &["{"],
        &[],
        "a body or a block begins with its first line alone, without `{`, and ends with `end`",
    ),
    Counterpart(&["}"], &[LineKind::End], ""),
    Counterpart(
        &["//"],
        &[],
        "a comment begins with `#`, and has a line of its own",
    ),
    Counterpart(&["__UHEAP_MARK"], &[LineKind::Mark], ""),
    Counterpart(
        &["__UHEAP_MARKEND", "__UHEAP_MARKENDC"],
        &[LineKind::MarkEnd],
        "`markend 0` is `__UHEAP_MARKEND`",
    ),
    Counterpart(&["__UHEAP_CHECK"], &[LineKind::Check], ""),
    Counterpart(&["__UHEAP_CHECKALL"], &[LineKind::CheckAll], ""),
    Counterpart(&["__UHEAP_FAILNEXT"], &[LineKind::FailNext], ""),
    Counterpart(&["__UHEAP_SETFAIL"], &[LineKind::FailEvery], ""),
    Counterpart(&["__UHEAP_RESET"], &[LineKind::FailNone], ""),
];

/// Returns what scripts use instead of a word of C++; `None` if the table doesn't have the word.
pub fn counterpart_named(word: &[u8]) -> Option<Counterpart> {
    for counterpart in &COUNTERPARTS {
        if counterpart.is_of(word) {
            return Some(*counterpart);
        }
    }
    None
}
