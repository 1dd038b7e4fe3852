//! Whether the pending pieces of two runs are the same except for allocation numbers, and what pieces add to a fingerprint.

ghost use Rattle.std.specs.Prelude.{◌≡◌, ◌+◌, ◌<◌, ◌∷◌, drop, length, true};
ghost use Rattle.wb_renaming.specs.SameButNumbers.{AllBeside, IsSamePointer};
ghost use Rattle.wb_renaming.specs.SameButNumbers as numbers;
ghost use Rattle.wb_machine.specs.declared.pieces.Ending.TheVariants.{GoesOn};
ghost use Rattle.wb_machine.specs.Alike.{IsGrown};
ghost use Rattle.wb_machine.specs.SamePieces.{is_of_trap, ArePendingAlike, IsSameAfter, IsSamePiece};

use super::Control;
use crate::alike::code::same_statements;
use crate::alike::names::Names;
use crate::fingerprint::Fingerprint;
use crate::pieces::{After, Context, Ending, PendingPiece, first_statement};
use wb_heap_model::heap::Ptr;

/// Whether the piece that was above the pending pieces ended plainly.
fn goes_on(ending: Ending) -> bool
    ensures { result ≡ true → ending ≡ GoesOn }
{
    match ending {
        Ending::GoesOn => true,
        _ => false,
    }
}

fn same_context(at: Context, other: Context) -> bool
    ensures { result ≡ true → other ≡ at }
{
    at.depth == other.depth && at.floor == other.floor
}

fn same_after(names: &mut Names, after: After, other: After) -> bool
    ensures same { result ≡ true → IsSameAfter names.new.names after other }
    ensures grown { IsGrown names.old names.new }
{
    match (after, other) {
        (After::Nothing, After::Nothing) => true,
        (After::Gives(local), After::Gives(other)) => local == other,
        (After::Releases(ptr), After::Releases(other)) => names.relate_pointers(ptr, other),
        _ => false,
    }
}

/// Whether two `repeat`s have the same context and equally many turns left.
fn same_turns(at: Context, left: u32, other: Context, other_left: u32) -> bool
    ensures at { result ≡ true → other ≡ at }
    ensures left { result ≡ true → other_left ≡ left }
{
    same_context(at, other) && left == other_left
}

/// Whether two callers run a body of the same object, and the same work follows both calls. Allocation numbers may differ.
fn same_caller(
    names: &mut Names,
    this: Ptr,
    after: After,
    other_this: Ptr,
    other_after: After,
) -> bool
    ensures this { result ≡ true → IsSamePointer names.new.names this other_this }
    ensures after { result ≡ true → IsSameAfter names.new.names after other_after }
    ensures grown { IsGrown names.old names.new }
{
    if !names.relate_pointers(this, other_this) {
        return false;
    }
    same_after(names, after, other_after)
}

/// Whether two pieces are the same rest of a block, or the same turns of a `repeat`.
fn same_code(piece: PendingPiece, other: PendingPiece) -> bool
    ensures { result ≡ true → (names : numbers.Names) →
        IsSamePiece names piece.entry other.entry }
{
    match (piece, other) {
        (PendingPiece::Code(at, statements), PendingPiece::Code(other, others)) => {
            same_context(at, other) && same_statements(statements, others)
        }
        (PendingPiece::Turns(at, left, body), PendingPiece::Turns(other, other_left, others)) => {
            same_turns(at, left, other, other_left) && same_statements(body, others)
        }
        _ => false,
    }
}

/// Whether two pieces are the same TRAP, or the same TRAP whose body was left; `false` for pieces of other kinds. `main`'s own TRAP counts
/// as a TRAP here.
fn same_trap(piece: PendingPiece, other: PendingPiece) -> bool
    ensures same { result ≡ true → other.entry ≡ piece.entry }
    ensures trap { result ≡ true → is_of_trap piece.entry ≡ true }
{
    match (piece, other) {
        (PendingPiece::Trap(at, local, entry), PendingPiece::Trap(other, gets, entered)) => {
            same_context(at, other) && local == gets && entry == entered
        }
        (PendingPiece::Caught(local, code), PendingPiece::Caught(gets, other)) => {
            local == gets && code == other
        }
        (PendingPiece::MainTrap, PendingPiece::MainTrap) => true,
        (PendingPiece::MainCaught(code), PendingPiece::MainCaught(other)) => code == other,
        _ => false,
    }
}

/// Whether two pieces are the same except for allocation numbers.
fn same_piece(names: &mut Names, piece: PendingPiece, other: PendingPiece) -> bool
    ensures same { result ≡ true → IsSamePiece names.new.names piece.entry other.entry }
    ensures grown { IsGrown names.old names.new }
{
    match (piece, other) {
        (PendingPiece::Items(at, left), PendingPiece::Items(other, other_left)) => {
            same_context(at, other) && left == other_left
        }
        (PendingPiece::Object(at, ptr), PendingPiece::Object(other, other_ptr)) => {
            same_context(at, other) && names.relate_pointers(ptr, other_ptr)
        }
        (
            PendingPiece::Call(base, this, after),
            PendingPiece::Call(other, other_this, other_after),
        ) => { base == other && same_caller(names, this, after, other_this, other_after) }
        (PendingPiece::Code(..), _) | (PendingPiece::Turns(..), _) => same_code(piece, other),
        _ => same_trap(piece, other),
    }
}

/// The piece at this index.
fn piece_at<'a>(pieces: &[PendingPiece<'a>], at: usize) -> PendingPiece<'a>
    requires { at < length pieces.now }
    ensures { drop at pieces.now ≡ result ∷ drop (at + 1) pieces.now }
{
    pieces[at]
}

/// Whether two runs have equally many pieces, and each piece is the same as its counterpart except for allocation numbers.
fn same_pieces(names: &mut Names, pieces: &[PendingPiece], others: &[PendingPiece]) -> bool
    ensures same { result ≡ true → AllBeside (IsSamePiece names.new.names) pieces.now others.now }
    ensures grown { IsGrown names.old names.new }
{
    let count = pieces.len();
    if others.len() != count {
        return false;
    }
    for i in 0..count {
        let (piece, other) = (piece_at(pieces, i), piece_at(others, i));
        if !same_piece(names, piece, other) {
            return false;
        }
    }
    true
}

/// Whether two lists of pieces agree in the turns left. If both lists have a `repeat` at one index, the two `repeat`s must have equally
/// many turns left. This quick test looks at no other pieces, and ends with the shorter list.
fn same_turns_left(pieces: &[PendingPiece], others: &[PendingPiece]) -> bool {
    for i in 0..pieces.len().min(others.len()) {
        if let (PendingPiece::Turns(_, left, _), PendingPiece::Turns(_, other_left, _)) = (
            &pieces[i], &others[i],
        ) {
            if left != other_left {
                return false;
            }
        }
    }
    true
}

/// Two numbers of a piece, for a fingerprint. Pieces that are the same except for allocation numbers have the same two numbers.
fn numbers_of(piece: &PendingPiece) -> (u32, u32) {
    match piece {
        PendingPiece::Code(_, statements) => match statements.first() {
            Some(first) => (1, first.line),
            None => (0, 0),
        },
        PendingPiece::Turns(_, left, _) => (2, *left),
        PendingPiece::Items(_, left) => (3, *left),
        PendingPiece::Object(_, ptr) => (4, ptr.place),
        PendingPiece::Trap(_, _, entry) => (5, *entry),
        PendingPiece::Caught(..) => (6, 0),
        PendingPiece::MainTrap => (7, 0),
        PendingPiece::MainCaught(_) => (8, 0),
        PendingPiece::Call(_, this, _) => (9, this.place),
    }
}

impl<'a> Control<'a> {
    /// Adds the pending pieces to a fingerprint. Two runs whose pieces are the same except for allocation numbers add the same numbers.
    pub fn add_to(&self, print: &mut Fingerprint) {
        for piece in self.pieces.as_slice() {
            let (one, other) = numbers_of(piece);
            print.add(one, other);
        }
    }

    /// The script line of the statement that the piece on top begins with; `None` if there is no piece, or the piece begins with no
    /// statement.
    fn next_line(&self) -> Option<u32> {
        let first = first_statement(self.pieces.last()?)?;
        Some(first.line)
    }

    /// Whether two runs have equally many pending pieces, and either both next steps begin a statement on the same script line, or neither
    /// begins a statement.
    pub fn is_at_line_of(&self, other: &Control) -> bool {
        self.pieces.len() == other.pieces.len() && self.next_line() == other.next_line()
    }

    /// Whether both runs go on, have equally many pending pieces, are at the same script line, and have equally many turns left of each
    /// pending `repeat`. This quick test is made before all pieces are compared.
    pub fn is_at_place_of(&self, other: &Control) -> bool
        ensures here { result ≡ true → self.now.ending ≡ GoesOn }
        ensures there { result ≡ true → other.now.ending ≡ GoesOn }
    {
        self.is_at_line_of(other)
            && goes_on(self.ending)
            && goes_on(other.ending)
            && same_turns_left(self.pieces.as_slice(), other.pieces.as_slice())
    }

    /// Whether the pending pieces are the same as another run's, except for allocation numbers.
    pub fn is_like(&self, names: &mut Names, other: &Control) -> bool
        ensures same { result ≡ true →
            ArePendingAlike names.new.names self.now.pieces.items other.now.pieces.items }
        ensures grown { IsGrown names.old names.new }
    {
        same_pieces(names, self.pieces.as_slice(), other.pieces.as_slice())
    }
}
