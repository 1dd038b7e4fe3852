//! A run between its attempts.

ghost use Rattle.std.specs.Prelude.{◌≡◌, ℕ, ◌+◌, ◌≤◌, false, true, length, None, Some, OnOk};
ghost use Rattle.wb_machine.specs.Turns.{IsSameRun, MakesMore};
ghost use Rattle.wb_meaning.specs.Run.{run};

use wb_basics::memory::NoMemory;
use wb_machine::{Machine, Turn};

/// Takes turns until the next turn asks for an attempt, and returns `None`. If the run ends first, returns how many attempts it made.
fn go_to_attempt(machine: &mut Machine) -> Result<Option<u32>, NoMemory>
    requires begun { machine.old.begun ≡ true }
    requires well { machine.old.failed ≡ false }
    requires within { machine.old.steps ≤ machine.old.budget }
    ensures same { IsSameRun machine.old machine.new }
    ensures begun { OnOk result (machine.new.begun ≡ true) }
    ensures well { OnOk result (machine.new.failed ≡ false) }
    ensures within { OnOk result (machine.new.steps ≤ machine.new.budget) }
    ensures attempts { OnOk result (machine.new.attempts ≡ machine.old.attempts) }
    ensures steps { OnOk result (machine.old.steps ≤ machine.new.steps) }
    ensures asks { result ≡ Ok None → machine.new.asks ≡ true }
    ensures more { result ≡ Ok None → MakesMore machine.new }
    ensures going { result ≡ Ok None → machine.new.over ≡ false }
    ensures over { (made : ℕ) → result ≡ Ok (Some made) → machine.new.over ≡ true }
    ensures made { (made : ℕ) → result ≡ Ok (Some made) → machine.new.attempts
        ≡ length (run machine.new.script machine.new.rule machine.new.budget
        machine.new.shape).trace }
{
    loop {
        if machine.will_attempt() {
            return Ok(None);
        }
        if machine.step()? == Turn::Ended {
            return Ok(Some(machine.attempts()));
        }
    }
}

/// Takes the turn that makes an attempt, then takes turns until the next turn asks for a further attempt, and returns `None`. If the run
/// ends first, returns how many attempts it made.
pub(crate) fn go_past_attempt(machine: &mut Machine) -> Result<Option<u32>, NoMemory>
    requires asks { machine.old.asks ≡ true }
    requires going { machine.old.over ≡ false }
    requires well { machine.old.failed ≡ false }
    ensures same { IsSameRun machine.old machine.new }
    ensures begun { OnOk result (machine.new.begun ≡ true) }
    ensures well { OnOk result (machine.new.failed ≡ false) }
    ensures within { OnOk result (machine.new.steps ≤ machine.new.budget) }
    ensures few { OnOk result (machine.new.attempts ≤ machine.old.attempts + 1) }
    ensures attempts { result ≡ Ok None → machine.new.attempts ≡ machine.old.attempts + 1 }
    ensures later { result ≡ Ok None → machine.old.begun ≡ true →
        machine.old.steps + 1 ≤ machine.new.steps }
    ensures asks { result ≡ Ok None → machine.new.asks ≡ true }
    ensures more { result ≡ Ok None → MakesMore machine.new }
    ensures going { result ≡ Ok None → machine.new.over ≡ false }
    ensures over { (made : ℕ) → result ≡ Ok (Some made) → machine.new.over ≡ true }
    ensures made { (made : ℕ) → result ≡ Ok (Some made) → machine.new.attempts
        ≡ length (run machine.new.script machine.new.rule machine.new.budget
        machine.new.shape).trace }
{
    if machine.step()? == Turn::Ended {
        return Ok(Some(machine.attempts()));
    }
    go_to_attempt(machine)
}
