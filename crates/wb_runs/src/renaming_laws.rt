//! Laws of runs whose states are the same except for allocation numbers. Each law is the contract of a function that does nothing, so that
//! checking the function proves the law.

ghost use Rattle.std.specs.Prelude.{◌≡◌, ◌≢◌, ℕ, ◌≤◌, ◌↔◌};
ghost use Rattle.wb_heap_model.specs.Space.{Space};
ghost use Rattle.wb_meaning.specs.Meaning.{meaning_of};
ghost use Rattle.wb_meaning.specs.State.{State};
ghost use Rattle.wb_meaning.specs.Statements.{statement, Context, Layer};
ghost use Rattle.wb_meaning.specs.Account.{settled, Account};
ghost use Rattle.wb_renaming.specs.Follows.{steps_of, AreBeside, Follows, IsSameOutcome};
ghost use Rattle.wb_renaming.specs.Follows.{reached, Reached, RefusesAlike, RestsAgree};
ghost use Rattle.wb_meaning.specs.Rest.{Progress, left_to_do, rest};
ghost use Rattle.wb_meaning.specs.Run.{is_bad};
ghost use Rattle.wb_runs.specs.RunEnds.{end_of};
ghost use Rattle.wb_renaming.specs.SameButNumbers.{up_to, since_fork, turned, AreAddedSince, IsRenaming};
ghost use Rattle.wb_renaming.specs.SameButNumbers.{HoldsMadeNumbers, IsSameProgress, Names, Renames};
ghost use Rattle.wb_renaming.specs.SameButNumbers.{Renaming};
ghost use Rattle.wb_runs.specs.Sweeps.{is_fine};
ghost use Rattle.wb_heap_model.specs.declared.heap.Rule.{Rule};
ghost use Rattle.wb_heap_model.specs.declared.heap.Rule.TheVariants.{Number, Pair};
ghost use Rattle.wb_heap_model.specs.declared.heap.Shape.{Shape};
ghost use Rattle.wb_meaning.specs.declared.run.Outcome.{Outcome};
ghost use Rattle.wb_meaning.specs.declared.run.Outcome.TheVariants.{Cut};
ghost use Rattle.wb_meaning.specs.declared.run.RunResult.{RunResult};
ghost use Rattle.wb_meaning.specs.declared.run.Why.TheVariants.{Budget};
ghost use Rattle.wb_tree.specs.declared.script.Script.{Script};

/// Two runs whose states are the same except for allocation numbers ask for the same attempts from there on, whatever answers the attempts
/// get. Except for allocation numbers, both runs come to the same result, until the budget cuts the run that has counted more steps. Either
/// run may be the first of the two: the map from one run's numbers to the other's is then read backwards.
pub fn renamed_runs_follow()
    ensures follows { (script : Script) (budget further : ℕ) (w : Renaming) (p other : Progress) →
        AreBeside budget further w p other →
        Follows budget further w (left_to_do script budget p) (left_to_do script budget other) }
    ensures backwards { (w : Renaming) (p other : Progress) →
        IsRenaming w → IsSameProgress w.names p other →
        IsRenaming (turned w) × IsSameProgress (turned w).names other p }
{}

/// Let the states of two runs be the same except for allocation numbers, and let their rules treat the attempts still to be made alike.
/// Then, from there on, the second run comes to what the first run comes to, in as many further steps and attempts. If the budget doesn't
/// allow the second run that many steps, the budget cuts the second run instead. The law holds if the second run has counted no fewer steps
/// than the first run, and also if the budget doesn't cut the first run.
pub fn renamed_runs_agree()
    ensures further { (script : Script) (budget further : ℕ) (shape other_shape : Shape)
        (r s : Rule) (w : Renaming) (p other : Progress) (a b : Account) →
        AreBeside budget further w p other →
        a.attempts ≡ w.made → b.attempts ≡ w.other_made →
        RefusesAlike r s (reached p a) (reached other b) →
        RestsAgree budget (reached p a) (reached other b) (rest script budget shape r p a)
        (rest script budget other_shape s other b) }
    ensures either { (script : Script) (budget : ℕ) (shape other_shape : Shape) (r s : Rule)
        (w : Renaming) (p other : Progress) (a b : Account) →
        IsRenaming w → IsSameProgress w.names p other →
        steps_of p ≤ budget → steps_of other ≤ budget →
        a.attempts ≡ w.made → b.attempts ≡ w.other_made →
        RefusesAlike r s (reached p a) (reached other b) →
        (rest script budget shape r p a).result.outcome ≢ Cut Budget →
        RestsAgree budget (reached p a) (reached other b) (rest script budget shape r p a)
        (rest script budget other_shape s other b) }
{}

/// Outcomes that are the same except for the allocation numbers of leaks give the same `RunEnd`. Either both outcomes are bad or neither
/// is, and either both are fine or neither is.
pub fn renamed_outcomes_are_judged_alike()
    ensures words { (one other : Outcome) → IsSameOutcome one other → end_of other ≡ end_of one }
    ensures judged { (x y : RunResult) → IsSameOutcome x.outcome y.outcome →
        (is_bad y ≡ is_bad x) × (is_fine y ≡ is_fine x) }
{}

/// If two rules name only attempts that were already made, neither rule makes a later attempt fail.
pub fn failures_lie_behind()
    ensures numbers { (here there : Reached) (i j : ℕ) →
        i ≤ here.attempts → j ≤ there.attempts →
        RefusesAlike (Number i) (Number j) here there }
    ensures pairs { (here there : Reached) (i j k : ℕ) →
        i ≤ here.attempts → j ≤ there.attempts → k ≤ there.attempts →
        RefusesAlike (Number i) (Pair j k) here there }
{}

/// Let two runs be the same up to some attempt. The map from one run's numbers to the other's takes each number up to this attempt to
/// itself. Pairs of later numbers may be added to the map if no two different pairs among them share their first or their second number.
pub fn forked_runs_are_renamed()
    ensures renamed { (since made other_made : ℕ) (added : Names) →
        AreAddedSince since added made other_made →
        IsRenaming (since_fork since added made other_made) }
    ensures shared { (since a b : ℕ) →
        (Renames (up_to since) a b) ↔ ((a ≡ b) × (a ≤ since)) }
{}

/// Let the state of a run, or the state in which a statement begins, hold only numbers of attempts made so far. Then the state that the run
/// or the statement comes to also holds only numbers of attempts made so far. So each turn of the machine keeps the invariant that no
/// number is greater than the number of attempts made.
pub fn held_numbers_were_made()
    ensures runs { (script : Script) (budget : ℕ) (r : Rule) (space : Space) (p : Progress)
        (a : Account) → IsSameProgress (up_to a.attempts) p p → steps_of p ≤ budget →
        HoldsMadeNumbers (settled r space (left_to_do script budget p) a).account.attempts
        (settled r space (left_to_do script budget p) a).state }
    ensures statements { (script : Script) (budget : ℕ) (r : Rule) (space : Space) (at : Context)
        (s : Layer) (st : State) (a : Account) →
        HoldsMadeNumbers a.attempts st → st.steps ≤ budget →
        HoldsMadeNumbers
        (settled r space (statement script (meaning_of script budget) at s st) a).account.attempts
        (settled r space (statement script (meaning_of script budget) at s st) a).state }
{}
