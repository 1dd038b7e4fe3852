//! Command lines with a fault of each kind. Each theorem is stated in `specs`, with a line that says what it shows. The function does
//! nothing: its contract gathers the theorems, so that the gate proves them.

ghost use Rattle.wb_worked_words.specs.WorkedFaults.{NoList, NoMultiple, Reversed, SecondAlone};
ghost use Rattle.wb_worked_words.specs.WorkedFaults.{TwoRules, UnknownOption};

/// Each kind of fault of the words of a command is met.
pub fn each_fault_of_words_is_met()
    ensures usage { UnknownOption }
    ensures no_list { NoList }
    ensures both { TwoRules }
    ensures also { SecondAlone }
    ensures shape { NoMultiple }
    ensures range { Reversed }
{}
