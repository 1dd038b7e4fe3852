//! Examples of bytes with a fault, one for each kind of fault. Each theorem is stated in `specs`, with a line that says what the theorem
//! shows. The function does nothing: its contract collects the theorems, so that checking the function proves them.

ghost use Rattle.wb_worked.specs.WorkedFaults.{DeclaredTwice, EndAlone, ForeignByte, LeavesInOperation};
ghost use Rattle.wb_worked.specs.WorkedFaults.{NumberIsFreed, TextTooLarge, TooManyBytes};
ghost use Rattle.wb_worked.specs.WorkedFaults.{Undeclared, WithoutMain};

/// Each kind of fault occurs: any bytes of more than 65,536 are too many, and for each of the other faults there is a small text that has
/// it.
pub fn each_fault_is_met()
    ensures too_long { TooManyBytes }
    ensures not_ascii { ForeignByte }
    ensures grammar { EndAlone }
    ensures unknown_name { Undeclared }
    ensures double_name { DeclaredTwice }
    ensures wrong_kind { NumberIsFreed }
    ensures may_leave { LeavesInOperation }
    ensures no_main { WithoutMain }
    ensures too_many { TextTooLarge }
{}
