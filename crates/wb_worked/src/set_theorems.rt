//! How runs under sets, and sweeps over sets, end for two small scripts, and the order of sets. Each theorem is stated in `specs`, with a
//! line that says what the theorem shows. The functions do nothing: their contracts collect the theorems, so that checking the functions
//! proves the theorems.

ghost use Rattle.wb_worked.specs.WorkedOrder.{EmptyFirst, FirstOfThree, FirstOfTwo};
ghost use Rattle.wb_worked.specs.WorkedOrder.{NoNumberTells, NotBeforeItself, OneBeforeTwo};
ghost use Rattle.wb_worked.specs.WorkedOrder.{OneNumber, SecondOfThree, SecondOfTwo};
ghost use Rattle.wb_worked.specs.WorkedOrder.{ThirdOfThree, TwoBeforeThree};
ghost use Rattle.wb_worked.specs.WorkedRuns.{FirstFails, LimitIsSet, NoneFails, NumbersAscend};
ghost use Rattle.wb_worked.specs.WorkedRuns.{OneFails, OneIsNumber, PersistentIsSet, ThreeFail};
ghost use Rattle.wb_worked.specs.WorkedRuns.{TwoArePair, TwoFail, UnmadeAfterAnother, UnmadeAlone};
ghost use Rattle.wb_worked.specs.WorkedSweeps.{FoundAtThree, FoundAtTwo, FoundFromThree};
ghost use Rattle.wb_worked.specs.WorkedSweeps.{LargerIsFine, LesserIsFine, NoneBelow, NonePast};
ghost use Rattle.wb_worked.specs.WorkedSweeps.{NoPairAtThree, NoPairAtTwo, ShorterIsLess};
ghost use Rattle.wb_worked.specs.WorkedSweeps.{ThreeAreMade, ThreeIsLeast, ThreeShowIt};
ghost use Rattle.wb_worked.specs.WorkedSweeps.{MoreThanFourAreMet, OneShowsNothing};
ghost use Rattle.wb_worked.specs.WorkedSweeps.{TwoShowNothing, UnmadeHasNoState};
ghost use Rattle.wb_worked.specs.WorkedSweeps.{WholeFindsShorter};

/// Under a set, exactly the attempts fail that are in the set and that the run makes.
pub fn a_set_makes_its_attempts_fail()
    ensures none { NoneFails }
    ensures one { OneFails }
    ensures two { TwoFail }
    ensures three { ThreeFail }
    ensures first { FirstFails }
    ensures unmade { UnmadeAlone }
    ensures unmade_after { UnmadeAfterAnother }
    ensures as_number { OneIsNumber }
    ensures as_pair { TwoArePair }
    ensures persistent { PersistentIsSet }
    ensures limited { LimitIsSet }
    ensures ascend { NumbersAscend }
{}

/// Shorter sets come before longer sets. Of two sets of the same length, the set with the lesser number at their first difference comes
/// first.
pub fn sets_are_in_order()
    ensures empty { EmptyFirst }
    ensures one { OneNumber }
    ensures first_of_two { FirstOfTwo }
    ensures second_of_two { SecondOfTwo }
    ensures first_of_three { FirstOfThree }
    ensures second_of_three { SecondOfThree }
    ensures third_of_three { ThirdOfThree }
    ensures one_before_two { OneBeforeTwo }
    ensures two_before_three { TwoBeforeThree }
    ensures itself { NotBeforeItself }
    ensures no_number { NoNumberTells }
{}

/// Three failures show what fewer failures don't: every lesser set is fine, and a larger set may be fine too.
pub fn three_failures_show_what_two_do_not()
    ensures least { ThreeIsLeast }
    ensures made { ThreeAreMade }
    ensures lesser { LesserIsFine }
    ensures larger { LargerIsFine }
    ensures none_to_two { TwoShowNothing }
    ensures not_to_three { ThreeShowIt }
{}

/// If a search over sets ends with `set none to 1` and `cut states`, the sets of one attempt are fine. Sets of at most two attempts then
/// have more states than the search may meet.
pub fn more_states_are_met_than_are_allowed()
    ensures fine { OneShowsNothing }
    ensures many { MoreThanFourAreMet }
    ensures unmade { UnmadeHasNoState }
{}

/// In two worked scripts, a sweep over a part finds the least bad set whose least number is in the part. If two parts each find a set, the
/// lesser of the two sets is what the parts find together.
pub fn parts_find_their_sets()
    ensures none_below { NoneBelow }
    ensures at_three { FoundAtThree }
    ensures no_pair_at_three { NoPairAtThree }
    ensures none_past { NonePast }
    ensures at_two { FoundAtTwo }
    ensures no_pair_at_two { NoPairAtTwo }
    ensures from_three { FoundFromThree }
    ensures shorter { ShorterIsLess }
    ensures whole { WholeFindsShorter }
{}
