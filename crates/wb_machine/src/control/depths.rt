//! How many TRAPs of a run are open, counted from the pending pieces. No function here changes the pieces.

ghost use Rattle.std.specs.Prelude.{◌≡◌};
ghost use Rattle.wb_machine.specs.Depths.{is_trap, open_traps_in};

use crate::control::Control;
use crate::pieces::PendingPiece;

/// Whether a piece is a TRAP of the script. `main`'s own TRAP isn't a TRAP of the script.
fn is_trap(piece: &PendingPiece) -> bool
    ensures { result ≡ is_trap piece.now }
{
    match piece {
        PendingPiece::Trap(..) => true,
        PendingPiece::Code(..)
        | PendingPiece::Turns(..)
        | PendingPiece::Items(..)
        | PendingPiece::Object(..)
        | PendingPiece::Caught(..)
        | PendingPiece::MainTrap
        | PendingPiece::MainCaught(_)
        | PendingPiece::Call(..) => false,
    }
}

impl<'a> Control<'a> {
    /// How many TRAPs are open, not counting `main`'s own.
    pub fn open_traps(&self) -> usize
        ensures { result ≡ open_traps_in self.now.pieces.items }
    {
        self.pieces.iter().filter(|piece| is_trap(piece)).count()
    }
}
