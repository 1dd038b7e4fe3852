//! A map that pairs the allocation numbers of two runs while the two runs are compared.

ghost use Rattle.std.specs.Prelude.{◌≡◌, ◌≤◌, [], true};
ghost use Rattle.wb_machine.specs.Alike.{pair_of, IsGrown};
ghost use Rattle.wb_renaming.specs.SameButNumbers.{since_fork, IsRenaming, IsSamePointer, Renames};

use arrayvec::ArrayVec;
use std::marker::Model;
use wb_heap_model::heap::Ptr;

/// A pair of allocation numbers: `here` is a number of the one run, and `there` is a number of the other run.
#[derive(Clone, Copy, Default)]
pub struct Name {
    pub here: u32,
    pub there: u32,
}

/// A one-to-one map from allocation numbers of one run to allocation numbers of another. Each number up to `since` is mapped to itself. The
/// map asks for no memory.
#[derive(Drop)]
pub struct Names {
    since: u32,
    /// How many attempts the one run has made.
    made: u32,
    /// How many attempts the other run has made.
    other_made: u32,
    /// The pairs of numbers above `since` that were found so far. Runs that need more pairs than fit here count as different.
    added: ArrayVec<Name, 64>,
}

impl Model for Names {
    ghost use Rattle.wb_renaming.specs.SameButNumbers.{Renaming};

    ghost Value = { Renaming };

    ghost use Rattle.wb_machine.specs.NamesView.{renaming_of, AreAdded};

    ghost view = { renaming_of };

    ghost invariant = { AreAdded };
}

/// The first pair in which the one run's number is `here`, or the other run's number is `there`; `None` if there is no such pair.
fn pair_of(pairs: &[Name], here: u32, there: u32) -> Option<Name>
    ensures { result ≡ pair_of here there pairs.now }
{
    for pair in pairs {
        if pair.here == here || pair.there == there {
            return Some(*pair);
        }
    }
    None
}

impl Names {
    /// The map that maps each number up to `since` to itself, and has no other pairs. Both runs have made the attempt `since`.
    pub fn new(since: u32, made: u32, other_made: u32) -> Names
        requires here { since ≤ made }
        requires there { since ≤ other_made }
        ensures map { result ≡ since_fork since [] made other_made }
        ensures renaming { IsRenaming result }
    {
        Names {
            since,
            made,
            other_made,
            added: ArrayVec::new(),
        }
    }

    /// Whether the map maps the number `here` of the one run to the number `there` of the other run. If both numbers are above `since` and
    /// neither number is in a pair yet, the two numbers become a pair, provided that there is room for it and that each run has made the
    /// attempt with its own number.
    pub fn relate(&mut self, here: u32, there: u32) -> bool
        ensures related { result ≡ true → Renames self.new.names here there }
        ensures grown { IsGrown self.old self.new }
    {
        if here <= self.since || there <= self.since {
            return here == there;
        }
        if let Some(pair) = pair_of(self.added.as_slice(), here, there) {
            return pair.here == here && pair.there == there;
        }
        if self.made < here || self.other_made < there {
            return false;
        }
        self.added.try_push(Name { here, there }).is_ok()
    }

    /// Whether two pointers have the same place, and `relate` maps the allocation number of the first pointer to the allocation number of
    /// the second.
    pub fn relate_pointers(&mut self, ptr: Ptr, other: Ptr) -> bool
        ensures same { result ≡ true → IsSamePointer self.new.names ptr other }
        ensures grown { IsGrown self.old self.new }
    {
        ptr.place == other.place && self.relate(ptr.number, other.number)
    }
}
