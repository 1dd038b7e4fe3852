//! Tests of the turns of a machine: what each turn returns, and whether it makes an attempt.

use crate::rules::Refuses;
use std::alloc::Global;
use std::test::Fail;
use wb_heap_model::heap::Shape;
use wb_machine::{Machine, Turn};
use wb_script::read;

const SHAPE: Shape = Shape {
    min: 4096,
    step: 4096,
    moving: false,
};

/// Sixteen cells of the greatest length. The last of these cells would end past the heap's ceiling.
const SIXTEEN_LARGEST: &[u8] =
    b"proc main\nptr a\nalloc a 1048576\nalloc a 1048576\nalloc a 1048576\nalloc a 1048576\nalloc a 1048576\nalloc a 1048576\nalloc a 1048576\nalloc a 1048576\nalloc a 1048576\nalloc a 1048576\nalloc a 1048576\nalloc a 1048576\nalloc a 1048576\nalloc a 1048576\nalloc a 1048576\nalloc a 1048576\nend\n";

/// A cleanup stack that grows three times. For its 8th item it moves, because another cell follows it. For the 12th and the 16th item it
/// grows at its place.
const GROWS_THREE_TIMES: &[u8] =
    b"proc main\nptr a\nptr none\nint c\ntrap c\nallocl a 16\npush a\nrepeat 15\npush none\nend\npopdestroy 16\nend\nend\n";

/// Two rounds. In each round, eight cells are made and pushed. The cleanup stack grows in the first round in which all eight cells are
/// pushed.
const TWO_ROUNDS: &[u8] =
    b"proc main\nptr a\nint c\nrepeat 2\ntrap c\nrepeat 8\nallocl a 16\npush a\nend\npopdestroy 8\nend\nend\nend\n";

/// Two cells, one in each turn of the `repeat`.
const TWO_CELLS: &[u8] = b"proc main\nptr a\nrepeat 2\nalloc a 1\nfree a\nend\nend\n";

/// A script, a rule and a budget.
type Setting = (&'static [u8], Refuses, u32);

/// Whether the machine says that its next turn makes an attempt, what this turn returns, and how many attempts have been made afterwards.
type TurnResult = (bool, Turn, u32);

/// Runs, each with the results of its turns, from the first turn to one turn after the end.
static TURNS: [(Setting, &[TurnResult]); 2] = [
    (
        (TWO_CELLS, Refuses::Nothing, 9),
        &[
            (true, Turn::GoesOn, 1),
            // The line of the `repeat`, and the first turn of the `repeat`.
            (false, Turn::GoesOn, 1),
            (false, Turn::GoesOn, 1),
            (true, Turn::GoesOn, 2),
            (false, Turn::GoesOn, 2),
            (false, Turn::GoesOn, 2),
            (true, Turn::GoesOn, 3),
            (false, Turn::Ended, 3),
            (false, Turn::Ended, 3),
        ],
    ),
    // The attempt that would pass the ceiling is announced but not counted.
    (
        (SIXTEEN_LARGEST, Refuses::Nothing, 99),
        &[
            (true, Turn::GoesOn, 1),
            // Fifteen turns that each make a cell.
            (true, Turn::GoesOn, 2),
            (true, Turn::GoesOn, 3),
            (true, Turn::GoesOn, 4),
            (true, Turn::GoesOn, 5),
            (true, Turn::GoesOn, 6),
            (true, Turn::GoesOn, 7),
            (true, Turn::GoesOn, 8),
            (true, Turn::GoesOn, 9),
            (true, Turn::GoesOn, 10),
            (true, Turn::GoesOn, 11),
            (true, Turn::GoesOn, 12),
            (true, Turn::GoesOn, 13),
            (true, Turn::GoesOn, 14),
            (true, Turn::GoesOn, 15),
            (true, Turn::GoesOn, 16),
            (true, Turn::Ended, 16),
            (false, Turn::Ended, 16),
        ],
    ),
];

/// Takes the next turn, and returns its result; `None` if the workbench's own memory runs out.
fn next_turn(machine: &mut Machine) -> Option<TurnResult> {
    let will = machine.will_attempt();
    match machine.step() {
        Ok(turn) => Some((will, turn, machine.attempts())),
        Err(_) => None,
    }
}

/// Whether the next turns have these results.
fn turns_return(machine: &mut Machine, turns: &[TurnResult]) -> bool {
    for told in turns {
        if next_turn(machine) != Some(*told) {
            return false;
        }
    }
    true
}

/// Runs whose attempts are made in calls, in turns of a `repeat` or in TRAPs, or whose statements panic or leave before they make an
/// attempt.
static SETTINGS: [Setting; 22] = [
    (TWO_CELLS, Refuses::Nothing, 9),
    (TWO_CELLS, Refuses::Number(1), 9),
    (TWO_CELLS, Refuses::Number(2), 9),
    // The budget cuts the run before the second attempt of its `alloc`.
    (TWO_CELLS, Refuses::Nothing, 5),
    (
        b"proc make n:int\nptr a\nalloc a n\nreturn a\nend\nproc main\nptr p\ncallto p make 9\nfree p\nend",
        Refuses::Nothing,
        9,
    ),
    (
        b"proc main\nptr a\nint c\ntrap c\nallocl a 9\nend\ntrap c\nallocl a 9\nend\nend",
        Refuses::Number(2),
        9,
    ),
    (
        b"proc main\nptr a\nhnewl a 9\nhrealloc a a 2\nhrealloc a a 40\nend",
        Refuses::Nothing,
        9,
    ),
    // A `realloc` that makes a cell shorter makes no attempt. A `realloc` that makes a cell longer, or that gets a null pointer, makes an
    // attempt.
    (
        b"proc main\nptr a\nrealloc a a 99\nrealloc a a 9\nreallocl a a 999\nend",
        Refuses::Nothing,
        9,
    ),
    // The statement panics before it makes an attempt.
    (b"proc main\nptr a\nalloc a -1\nend", Refuses::Nothing, 9),
    (
        b"proc main\nptr a\nalloc a 9\nfree a\nrealloc a a 99\nend",
        Refuses::Nothing,
        9,
    ),
    (
        b"proc main\nptr a\nfailnext 1\nrepeat 2\nalloc a 9\nend\nend",
        Refuses::Nothing,
        9,
    ),
    (
        b"proc main\nptr a\nleaveifnull a\nalloc a 9\nend",
        Refuses::Nothing,
        9,
    ),
    // Some pushes make an attempt. The other pushes, and the lines that take items off the stack, make no attempt.
    (GROWS_THREE_TIMES, Refuses::Nothing, 99),
    (GROWS_THREE_TIMES, Refuses::Number(4), 99),
    (GROWS_THREE_TIMES, Refuses::Past(383), 99),
    (TWO_CELLS, Refuses::Every(2), 9),
    (GROWS_THREE_TIMES, Refuses::Every(4), 99),
    (TWO_CELLS, Refuses::Pair(2, 3), 9),
    (TWO_ROUNDS, Refuses::Pair(4, 12), 99),
    (TWO_ROUNDS, Refuses::Number(10), 99),
    // The budget of the first row cuts the run before the 8th push. The budget of the second row cuts the run before an item is destroyed.
    (GROWS_THREE_TIMES, Refuses::Nothing, 17),
    (GROWS_THREE_TIMES, Refuses::Nothing, 40),
];

/// Whether a machine announces an attempt exactly before the turns that make an attempt, up to the end of its run. After the end it must
/// announce no attempt.
fn returns_attempts(machine: &mut Machine, budget: u32) -> bool {
    // one turn begins the run, and one more turn may cut the run
    for _ in 0..budget.saturating_add(2) {
        let before = machine.attempts();
        let Some((will, turn, attempts)) = next_turn(machine) else {
            return false;
        };
        if will != (attempts != before) {
            return false;
        }
        if turn == Turn::Ended {
            return !machine.will_attempt();
        }
    }
    false
}

/// Whether the first turns of a run have these results, and the machine announces exactly the attempts of the later turns.
fn returns(alloc: Global, setting: &Setting, turns: &[TurnResult]) -> Result<bool, Fail> {
    let (script, rule, budget) = *setting;
    if budget == 0 || budget > 1_000_000 {
        return Ok(false);
    }
    let script = read(alloc, script)?;
    let mut machine = Machine::new(alloc, &script, rule.rule(), budget, SHAPE)?;
    let first = turns_return(&mut machine, turns);
    Ok(first && returns_attempts(&mut machine, budget))
}

#[test]
fn turns_of_machines(rt: HostRuntime) -> Result<(), Fail> {
    for (row, (setting, turns)) in TURNS.iter().enumerate() {
        assert!(rt; returns(rt.alloc(), setting, turns)?, "run {row}");
    }
    Ok(())
}

#[test]
fn a_machine_returns_its_attempts(rt: HostRuntime) -> Result<(), Fail> {
    for (row, setting) in SETTINGS.iter().enumerate() {
        assert!(rt; returns(rt.alloc(), setting, &[])?, "run {row}");
    }
    Ok(())
}
