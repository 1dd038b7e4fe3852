//! The pieces of work that a run still has to do, and how a piece ends.

ghost use Rattle.std.specs.Prelude.{◌≡◌};
ghost use Rattle.std.specs.Option.{option_copied};
ghost use Rattle.wb_machine.specs.Flow.{needs_step, is_stop, first_statement};

use wb_heap_model::heap::{Panic, Ptr};
use wb_meaning::run::Why;
use wb_tree::script::StatementAt;

/// How the piece that was above the pending pieces ended.
#[derive(Clone, Copy)]
pub enum Ending {
    /// Plainly: the piece on top goes on.
    GoesOn,
    /// The body returns, with a pointer.
    Returns(Ptr),
    /// A leave, with a code.
    Leaves(i32),
    Panics(Panic),
    Cut(Why),
    /// Attempt 1, for the cleanup stack's own cell, failed.
    NoCleanup,
}

impl Ending {
    /// Whether the run is stopped: by a panic, a cut or a failed attempt 1.
    #[inline(always)]
    pub fn is_stop(self) -> bool
        ensures { result ≡ is_stop self }
    {
        match self {
            Ending::GoesOn => false,
            Ending::Returns(_) => false,
            Ending::Leaves(_) => false,
            Ending::Panics(_) | Ending::Cut(_) | Ending::NoCleanup => true,
        }
    }
}

/// Where a piece is: how many frames there are, and how many items were on the cleanup stack at the entry of the innermost TRAP.
#[derive(Clone, Copy)]
pub struct Context {
    pub depth: u32,
    pub floor: u32,
}

/// The context of `main`'s body.
pub const IN_MAIN: Context = Context { depth: 1, floor: 0 };

/// What follows the end of a body.
#[derive(Clone, Copy)]
pub enum After {
    Nothing,
    /// The caller's local with this index gets the result.
    Gives(u8),
    /// The object that the body destroyed is released.
    Releases(Ptr),
}

/// A pending piece: work that a run still has to do.
#[derive(Clone, Copy)]
pub enum PendingPiece<'a> {
    /// The rest of a block.
    Code(Context, &'a [StatementAt]),
    /// How many turns a `repeat` has left, and its body.
    Turns(Context, u32, &'a [StatementAt]),
    /// How many items of the cleanup stack are left to destroy. The newest item is destroyed first.
    Items(Context, u32),
    /// The destruction of an object, by a pointer that isn't null.
    Object(Context, Ptr),
    /// A TRAP: the index of its local, which gets 0 or a leave's code, and how many items were on the cleanup stack at the TRAP's entry.
    Trap(Context, u8, u32),
    /// A TRAP whose body ended by a leave: the index of the TRAP's local, and the leave's code. The local gets the code once all items
    /// added since the TRAP's entry are destroyed.
    Caught(u8, i32),
    /// `main`'s own TRAP.
    MainTrap,
    /// `main`'s own TRAP, after `main` ended by a leave: the leave's code. The leave ends the run once all items are destroyed.
    MainCaught(i32),
    /// A call: where the caller's frame begins among the locals, the object whose body the caller runs (or null), and what follows the end
    /// of the called body.
    Call(usize, Ptr, After),
}

/// Whether a piece has a step to take.
#[inline(always)]
pub fn needs_step(piece: &PendingPiece) -> bool
    ensures { result ≡ needs_step piece.now }
{
    match piece {
        PendingPiece::Code(_, statements) => !statements.is_empty(),
        PendingPiece::Turns(_, left, _) => *left > 0,
        PendingPiece::Items(_, left) => *left > 0,
        PendingPiece::Object(..) => true,
        PendingPiece::Trap(..) => false,
        PendingPiece::Caught(..) => false,
        PendingPiece::MainTrap => false,
        PendingPiece::MainCaught(_) => false,
        PendingPiece::Call(..) => false,
    }
}

/// The statement that a piece begins with; `None` if the piece begins with no statement.
pub fn first_statement<'a>(piece: &PendingPiece<'a>) -> Option<&'a StatementAt>
    ensures { option_copied result ≡ first_statement piece.now }
{
    match piece {
        PendingPiece::Code(_, statements) => statements.first(),
        PendingPiece::Turns(..)
        | PendingPiece::Items(..)
        | PendingPiece::Object(..)
        | PendingPiece::Trap(..)
        | PendingPiece::Caught(..)
        | PendingPiece::MainTrap
        | PendingPiece::MainCaught(_)
        | PendingPiece::Call(..) => None,
    }
}
