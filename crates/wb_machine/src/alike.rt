//! Whether two runs go on alike, that is, are the same from here on except for allocation numbers. The files in `alike` compare parts of
//! the two runs.

ghost use Rattle.std.specs.Prelude.{◌≡◌, false, true};
ghost use Rattle.wb_machine.specs.Alike.{GoesOnLike};

pub(crate) mod cells;
pub(crate) mod code;
pub(crate) mod names;
mod operands;
mod states;

use crate::machine::Machine;
use names::Names;

impl<'a> Machine<'a> {
    /// Whether both runs have begun and have the same budget, and neither machine has returned `NoMemory`.
    fn is_comparable(&self, other: &Machine) -> bool
        ensures here { result ≡ true → (self.now.failed ≡ false) × (self.now.begun ≡ true) }
        ensures there { result ≡ true → (other.now.failed ≡ false) × (other.now.begun ≡ true) }
        ensures budget { result ≡ true → other.now.budget ≡ self.now.budget }
    {
        self.failed.is_none()
            && other.failed.is_none()
            && self.begun
            && other.begun
            && self.budget == other.budget
    }

    /// Whether two runs have equally many pending pieces of work, and either both next steps begin a statement on the same script line, or
    /// neither begins a statement. Any two runs that go on alike pass this quick test.
    pub fn is_at_line_of(&self, other: &Machine) -> bool {
        self.control.is_at_line_of(&other.control)
    }

    /// Whether this run goes on like another run of the same script: from here on, both are the same except for allocation numbers. Two
    /// runs that go on alike come to the same result, except for allocation numbers, if two conditions hold: the rules of the two runs
    /// treat all later attempts in the same way, and the budget cuts neither run. Each run may get a new rule before it goes on, but the
    /// new rule must treat the attempts made so far as the run's old rule did.
    ///
    /// The two runs were one run up to attempt `since`. Allocation numbers up to `since` must be equal in both runs, and each later number
    /// of one run is paired with a later number of the other run. If more than 64 pairs are needed, the function returns `false`. If the
    /// two runs weren't one run up to attempt `since`, or a run is over, the function may return `false` for runs that go on alike. It
    /// never returns `true` for runs that don't go on alike. The function makes quick tests first, stops at the first difference, and asks
    /// for no memory.
    pub fn goes_on_like(&self, other: &Machine, since: u32) -> bool
        requires script { other.now.script ≡ self.now.script }
        ensures { result ≡ true → GoesOnLike self.now other.now }
    {
        if !self.is_comparable(other) {
            return false;
        }
        if !other.control.is_at_place_of(&self.control) {
            return false;
        }
        let (made, other_made) = (other.attempts(), self.attempts());
        if made < since {
            return false;
        }
        if other_made < since {
            return false;
        }
        let mut names = Names::new(since, made, other_made);
        other.state.is_like(&mut names, &self.state)
            && other.control.is_like(&mut names, &self.control)
    }
}
