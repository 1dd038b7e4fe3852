//! A search over states, with more and more attempts that fail, until an answer is known.

ghost use Rattle.std.specs.Prelude.{◌≡◌, ℕ, ◌+◌, ◌^◌, ◌<◌, ◌≤◌, List, [], length, true, false, IfOk, IfSome, IsTrue};
ghost use Rattle.wb_tree.specs.Sound.{is_script};
ghost use Rattle.wb_runs.specs.EverySet.{AreAllSetsFineIn};
ghost use Rattle.wb_runs.specs.Parts.{last_attempt};
ghost use Rattle.wb_runs.specs.SetParts.{AreSetsFineIn, IsNoSetIn};
ghost use Rattle.wb_runs.specs.Sets.{set_run};
ghost use Rattle.wb_runs.specs.Sweeps.{is_fine};
ghost use Rattle.wb_runs.specs.declared.failures.Failures.TheVariants.{Single};
ghost use Rattle.wb_states.specs.Answers.{at_least_one, IsAnswer, IsLeastShownIn, IsLookedTo};
ghost use Rattle.wb_states.specs.Answers.{IsWholeIf};
ghost use Rattle.wb_states.specs.Closed.{IsWithin};
ghost use Rattle.wb_states.specs.Ground.{run_of, IsTriedSet};
ghost use Rattle.wb_runs.specs.Met.{AreManyStatesIn};
ghost use Rattle.wb_states.specs.States.{ground_of, IsSound};
ghost use Rattle.wb_states.specs.declared.searching.Searched.TheVariants as found;
ghost use Rattle.wb_states.specs.declared.state.Shown.{Shown};

use crate::closed::Bound;
use crate::grow::Plan;
use crate::labels::{greatest_turns, met_turns};
use crate::search::Search;
use crate::state::Shown;
use std::alloc::Global;
use wb_basics::memory::NoMemory;
use wb_meaning::conditions::Conditions;
use wb_runs::part::Part;
use wb_runs::progress::Progress;
use wb_tree::script::Script;

/// What a search over states finds.
#[derive(Debug, Drop)]
pub enum Searched {
    /// The least tried set whose run is bad or cut.
    Shown(Shown),
    /// No tried set has a run that is bad or cut, however many attempts the set has.
    Fine,
    /// No tried set of at most this many attempts has a run that is bad or cut. Nothing is known of larger sets.
    FineTo(u32),
    /// No tried set of at most this many attempts has a run that is bad or cut. The search ended because it met more states than were
    /// allowed.
    ManyStates(u32),
}

/// What is known after further runs were followed.
#[derive(Debug, Drop)]
enum Looked {
    /// The answer; `None` if the followed runs don't show an answer.
    Known(Option<Searched>),
    /// Runs of sets of more attempts must be followed.
    GoesOn,
}

impl<'a> Search<'a> {
    /// Whether no set within a bound has a run that is bad or cut; also `false` if the followed runs don't show this.
    fn shows_none_within(&self, alloc: Global, bound: &Bound) -> Result<bool, NoMemory>
        requires sound { IsSound self.now }
        ensures { IfOk result (λ none. none ≡ true → (numbers : List ℕ) →
            IsTriedSet (ground_of self.now) numbers → IsWithin bound.now numbers →
            is_fine (run_of (ground_of self.now) numbers) ≡ true) }
    {
        let most = if self.exact {
            met_turns(alloc, self)?
        } else {
            greatest_turns(alloc, self)?
        };
        self.is_closed(&most, bound)
    }

    /// The answer that no set of at most `most` attempts has a run that is bad or cut; `None` if the followed runs don't show this.
    fn answer_to(&self, alloc: Global, most: u32) -> Result<Option<Searched>, NoMemory>
        requires sound { IsSound self.now }
        ensures fine { IfOk result (λ answer. IfSome answer (IsAnswer (ground_of self.now))) }
        ensures whole { IfOk result (λ answer. IfSome answer (λ one. one ≡ found.FineTo most)) }
    {
        if self.shows_none_within(alloc, &Bound::AtMost(most))? {
            Ok(Some(Searched::FineTo(most)))
        } else {
            Ok(None)
        }
    }

    /// The answer that more states were met than are allowed, after the runs of all sets of at most `fewer` attempts were followed. The
    /// result is `None` if the followed runs don't show this answer. An exact search with `fewer` 0 may give up before it has followed the
    /// run without failure to its end. The caller of the search knows that the run without failure shows nothing.
    fn answer_of_many(&self, alloc: Global, fewer: u32) -> Result<Option<Searched>, NoMemory>
        requires sound { IsSound self.now }
        requires few { fewer + 1 < 2 ^ 32 }
        requires many { self.now.allowed < length self.now.states }
        ensures { IfOk result (λ answer. IfSome answer (IsAnswer (ground_of self.now))) }
    {
        if !self.are_different(fewer + 1) {
            return Ok(None);
        }
        if self.exact && fewer == 0 {
            return Ok(Some(Searched::ManyStates(fewer)));
        }
        if !self.shows_none_within(alloc, &Bound::AtMost(fewer))? {
            return Ok(None);
        }
        Ok(Some(Searched::ManyStates(fewer)))
    }

    /// The answer that no set has a run that is bad or cut; `None` if the followed runs don't show this.
    fn answer_of_all(&self, alloc: Global) -> Result<Option<Searched>, NoMemory>
        requires sound { IsSound self.now }
        ensures { IfOk result (λ answer. IfSome answer (IsAnswer (ground_of self.now))) }
    {
        let none = self.shows_none_within(alloc, &Bound::All)?;
        Ok(none.then_some(Searched::Fine))
    }

    /// The answer that the set in `shown` is the least set whose run is bad or cut; `None` if the followed runs don't show this.
    fn answer_of_shown(&mut self, alloc: Global) -> Result<Option<Searched>, NoMemory>
        requires sound { IsSound self.old }
        ensures { IfOk result (λ answer. IfSome answer (IsAnswer (ground_of self.old))) }
    {
        let Some(shown) = &self.shown else {
            return Ok(None);
        };
        let bound = Bound::Before(shown.numbers.try_copy()?);
        if !self.shows_none_within(alloc, &bound)? {
            return Ok(None);
        }
        Ok(self.shown.take().map(Searched::Shown))
    }

    /// Follows the runs of sets of `fewer` + 1 attempts, and returns what is then known. The runs of smaller sets were already followed.
    fn look_further<P: Progress>(
        &mut self,
        alloc: Global,
        fewer: u32,
        progress: &mut P,
    ) -> Result<Looked, NoMemory>
        requires sound { IsSound self.old }
        requires few { fewer + 1 < 2 ^ 32 }
        ensures sound { result ≡ Ok Looked.GoesOn → IsSound self.new }
        ensures ground { result ≡ Ok Looked.GoesOn → ground_of self.new ≡ ground_of self.old }
        ensures answer { IfOk result (λ looked. IsLookedTo (ground_of self.old) looked) }
    {
        if fewer > 0 {
            progress.begin_sets(fewer + 1);
        }
        if !self.grow(fewer + 1, progress)? {
            return Ok(Looked::Known(self.answer_of_many(alloc, fewer)?));
        }
        if self.shown.is_some() {
            return Ok(Looked::Known(self.answer_of_shown(alloc)?));
        }
        if self.failed.len() == self.states.len() {
            return Ok(Looked::Known(self.answer_of_all(alloc)?));
        }
        Ok(Looked::GoesOn)
    }

    /// What the runs of sets of at most `most` attempts show, or the answer that more states were met than are allowed. The result is
    /// `None` if the followed runs don't show an answer.
    fn look<P: Progress>(
        &mut self,
        alloc: Global,
        most: u32,
        progress: &mut P,
    ) -> Result<Option<Searched>, NoMemory>
        requires sound { IsSound self.old }
        ensures { IfOk result (λ answer. IfSome answer (IsAnswer (ground_of self.old))) }
    {
        for fewer in 0..most {
            if let Looked::Known(answer) = self.look_further(alloc, fewer, progress)? {
                return Ok(answer);
            }
        }
        self.answer_to(alloc, most)
    }
}

/// Whether a part has all numbers up to the last attempt.
fn is_whole(part: Part, last: u32) -> bool
    ensures { IsWholeIf result part last }
{
    part.from == 0 && last <= part.to
}

/// What a search by a plan finds; `None` if the followed runs don't show an answer.
fn search_by<P: Progress>(
    alloc: Global,
    script: &Script,
    plan: Plan,
    most: u32,
    conditions: Conditions,
    progress: &mut P,
) -> Result<Option<Searched>, NoMemory>
    requires script { IsTrue (is_script script.now) }
    requires last { plan.last
        ≡ length (set_run script.now conditions.budget conditions.shape []).trace }
    ensures answer { IfOk result (λ answer. IfSome answer (IsAnswer (record {
      script = script.now;
      budget = conditions.budget;
      shape = conditions.shape;
      whole = plan.whole;
      part = plan.part;
      last = plan.last;
      allowed = plan.allowed;
    }))) }
{
    let mut search = Search::new(alloc, script, conditions, plan)?;
    search.look(alloc, most, progress)
}

/// Searches the tried sets of a part for the least set that has at most `most` attempts and whose run is bad or cut. The answer is this
/// set, or that there is no such tried set: either of any size, or of at most some number of attempts. The run without failure makes `last`
/// attempts, and no single failure in the part makes the run bad or cuts it.
///
/// If states before an attempt are the same except for allocation numbers, only one of them is followed. The search ends once it has met
/// more than `states` states, and the answer is then about smaller sets than those being followed. The budget may cut a run that joined a
/// state with more steps than the state's own run. If this can't be ruled out, a second search follows a state again each time the state is
/// met with more steps than before.
pub fn search_states<P: Progress>(
    alloc: Global,
    script: &Script,
    part: Part,
    last: u32,
    most: u32,
    states: u32,
    conditions: Conditions,
    progress: &mut P,
) -> Result<Searched, NoMemory>
    requires script { IsTrue (is_script script.now) }
    requires last { last ≡ last_attempt Single script.now conditions.budget conditions.shape }
    requires single { IsNoSetIn part 1 script.now conditions.budget conditions.shape }
    ensures shown { (shown : Shown) → result ≡ Ok (found.Shown shown) →
        IsLeastShownIn part script.now conditions.budget conditions.shape shown }
    ensures fine { result ≡ Ok found.Fine →
        AreAllSetsFineIn part script.now conditions.budget conditions.shape }
    ensures fine_to { (fine : ℕ) → result ≡ Ok (found.FineTo fine) →
        (1 ≤ fine) × AreSetsFineIn part fine script.now conditions.budget conditions.shape }
    ensures many { (fine : ℕ) → result ≡ Ok (found.ManyStates fine) →
        (1 ≤ fine) × AreSetsFineIn part fine script.now conditions.budget conditions.shape
        × AreManyStatesIn part (fine + 1) states script.now conditions.budget conditions.shape }
{
    let quick = Plan {
        whole: is_whole(part, last),
        part,
        last,
        exact: false,
        allowed: states,
    };
    if let Some(answer) = search_by(alloc, script, quick, most, conditions, progress)? {
        return Ok(at_least_one(answer));
    }
    let exact = Plan {
        exact: true,
        ..quick
    };
    match search_by(alloc, script, exact, most, conditions, progress)? {
        Some(answer) => Ok(at_least_one(answer)),
        None => Ok(Searched::FineTo(1)),
    }
}

/// The answer, given that the run of each single failure is known to be fine: the number in a `FineTo` or `ManyStates` answer becomes at
/// least 1.
fn at_least_one(answer: Searched) -> Searched
    ensures { result ≡ at_least_one answer }
{
    match answer {
        Searched::FineTo(fine) => Searched::FineTo(fine.max(1)),
        Searched::ManyStates(fine) => Searched::ManyStates(fine.max(1)),
        known => known,
    }
}
